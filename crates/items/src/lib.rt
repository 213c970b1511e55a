// Lists of names, numbers and profile entries in a line: each item after one space, up to a closing bracket.
#![tactic(auto)]

ghost use Rattle.std.specs.Prelude.{◌≡◌, ◌<◌, ◌-◌, ◌^◌, suc, eqb, min, set};
ghost use Rattle.lists.specs.Lists.{distinct};
ghost use Rattle.syntax.specs.Limits.{max_columns, max_entries};
ghost use Rattle.items.specs.Items.{name_more, names_found, value_more, values_found, entry_found, entry_more, entries_found};

use text::{Name, Word};

// Names at a place: the place after them, how many, Names::OVER for more than are kept, whether one is too long, and the first of them as numbers.
#[derive(Clone, Copy)]
pub struct Names {
    pub next: usize,
    pub count: u32,
    pub long: bool,
    pub codes: [u64; Names::MOST],
}

// Numbers at a place: the place after them, how many, Names::OVER for more than are kept, whether one is beyond 32 bits, and the first of them.
#[derive(Clone, Copy)]
pub struct Values {
    pub next: usize,
    pub count: u32,
    pub wide: bool,
    pub values: [i32; Names::MOST],
}

// A profile entry at a place: whether its name is too long or its value beyond 32 bits, both, and the place after it.
#[derive(Clone, Copy)]
pub struct EntryAt {
    pub over: bool,
    pub name: u64,
    pub value: i32,
    pub next: usize,
}

// Profile entries at a place: the place after them, how many, Entries::OVER for more than are kept, whether one is out of bounds, and the first of them.
#[derive(Clone, Copy)]
pub struct Entries {
    pub next: usize,
    pub count: u32,
    pub over: bool,
    pub names: [u64; Entries::MOST],
    pub values: [i32; Entries::MOST],
}

impl Names {
    // How many names of a list are kept: as many as a stream may have columns.
    pub const MOST: usize = 6;
    // The count of a longer list.
    pub const OVER: u32 = Names::MOST as u32 + 1;

    // Returns Names::MOST, which is the bound of the definitions.
    pub fn most() -> usize
        ensures { result ≡ max_columns }
    {
        Names::MOST
    }
}

impl Entries {
    // How many entries a caller may have.
    pub const MOST: usize = 4;
    // The count of a longer list.
    pub const OVER: u32 = Entries::MOST as u32 + 1;

    // Returns Entries::MOST, which is the bound of the definitions.
    pub fn most() -> usize
        ensures { result ≡ max_entries }
    {
        Entries::MOST
    }
}

// Keeps an item of a list where it is among the first. Returns the count with it, at most one more than are kept.
fn keep<T: Copy, const N: usize>(items: &mut [T; N], count: u32, item: T) -> u32
    requires { N < 2 ^ 32 - 1 }
    ensures items { items.new ≡ set items.old count item }
    ensures count { result ≡ min (suc count) (suc N) }
{
    let at = count as usize;
    if N <= at {
        return N as u32 + 1;
    }
    items[at] = item;
    count + 1
}

impl Names {
    // Counts one name more, and keeps it where it is among the first.
    fn add(&mut self, n: Name)
        ensures { self.new ≡ name_more self.old n }
    {
        self.long |= n.long;
        self.count = keep(&mut self.codes, self.count, n.code);
    }
}

// Returns the names at a place up to a closing bracket, and the place of that. (Numbers and entries are read alike: what one
// function for all three would take of each, with its contracts, is longer than the loop.)
pub fn read_names(s: &[u8], at: usize) -> Option<Names>
    ensures { result ≡ names_found s.now at }
{
    let mut r = Names {
        next: 0,
        count: 0,
        long: false,
        codes: [0; Names::MOST],
    };
    let mut i = at;
    while text::byte(s, i) != b')' {
        let n = text::read_name(s, text::skip(s, i, b' ')?)?;
        r.add(n);
        i = n.next;
    }
    r.next = i;
    Some(r)
}

impl Values {
    // Counts one number more, None where it is beyond 32 bits, and keeps it where it is among the first.
    fn add(&mut self, v: Option<i32>)
        ensures { self.new ≡ value_more self.old v }
    {
        self.wide |= v.is_none();
        self.count = keep(&mut self.values, self.count, v.unwrap_or(0));
    }
}

// Returns the numbers at a place up to a closing bracket, and the place of that.
pub fn read_values(s: &[u8], at: usize) -> Option<Values>
    ensures { result ≡ values_found s.now at }
{
    let mut r = Values {
        next: 0,
        count: 0,
        wide: false,
        values: [0; Names::MOST],
    };
    let mut i = at;
    while text::byte(s, i) != b')' {
        let n = text::read_number(s, text::skip(s, i, b' ')?)?;
        r.add(n.kept());
        i = n.next;
    }
    r.next = i;
    Some(r)
}

// Returns the profile entry at a place, in brackets.
pub fn read_entry(s: &[u8], at: usize) -> Option<EntryAt>
    ensures { result ≡ entry_found s.now at }
{
    let p = text::opening(s, at, Word::SELF)?;
    let n = text::read_name(s, text::skip(s, p, b' ')?)?;
    let z = text::read_number(s, text::skip(s, n.next, b' ')?)?;
    let end = text::skip(s, z.next, b')')?;
    let value = z.kept();
    Some(EntryAt {
        over: n.long | value.is_none(),
        name: n.code,
        value: value.unwrap_or(0),
        next: end,
    })
}

impl Entries {
    // Counts one entry more, and keeps it where it is among the first.
    fn add(&mut self, e: EntryAt)
        ensures { self.new ≡ entry_more self.old e }
    {
        self.over |= e.over;
        keep(&mut self.names, self.count, e.name);
        self.count = keep(&mut self.values, self.count, e.value);
    }
}

// Returns the profile entries at a place up to a closing bracket, and the place of that.
pub fn read_entries(s: &[u8], at: usize) -> Option<Entries>
    ensures { result ≡ entries_found s.now at }
{
    let mut r = Entries {
        next: 0,
        count: 0,
        over: false,
        names: [0; Entries::MOST],
        values: [0; Entries::MOST],
    };
    let mut i = at;
    while text::byte(s, i) != b')' {
        let e = read_entry(s, text::skip(s, i, b' ')?)?;
        r.add(e);
        i = e.next;
    }
    r.next = i;
    Some(r)
}

// Returns whether of some numbers none stands twice.
pub fn distinct(codes: &[u64]) -> bool
    ensures { result ≡ distinct eqb codes.now }
{
    for i in 0..codes.len() {
        if codes[i + 1..].contains(&codes[i]) {
            return false;
        }
    }
    true
}
