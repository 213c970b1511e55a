// Lists of streams and of columns of a line, resolved by the names of a schema.
#![tactic(auto)]

ghost use Rattle.std.specs.Prelude.{◌≡◌, length, take, drop};
ghost use Rattle.columns.specs.Columns.{no_streams, stream_added, streams_ended, streams_at, ends_by, max_own, again_in, kept_in, no_columns, column_added, columns_ended, columns_at};

use schema::Stream;
use terms::Term;

// Streams by their places in the schema.
#[derive(Clone, Copy)]
pub struct Streams {
    pub next: usize,
    pub over: bool,
    pub unknown: bool,
    pub repeated: bool,
    pub count: u32,
    pub places: [u32; Stream::MOST],
}

impl Streams {
    // The count of more streams than there can be.
    pub const OVER: u32 = Stream::MOST as u32 + 1;
}

// Columns, by their codes as bits of a mask, and in their order as one number.
#[derive(Clone, Copy)]
pub struct Columns {
    pub next: usize,
    pub over: bool,
    pub unknown: bool,
    pub repeated: bool,
    pub mask: u32,
    pub order: u64,
}

impl Columns {
    // How many profile entries of a list are told apart: a written line has room for no more.
    pub const OWN: usize = 72;
}

// Whether a list ends at a place: at a closing bracket, or before a space and an opening bracket.
fn ends_at(s: &[u8], i: usize, form: bool) -> bool
    ensures { result ≡ ends_by form (drop i s.now) }
{
    if s.len() <= i {
        return false;
    }
    if !form {
        return s[i] == b')';
    }
    if s[i] != b' ' {
        return false;
    }
    text::byte(s, i + 1) == b'('
}

// No stream is read yet.
fn no_streams() -> Streams
    ensures { result ≡ no_streams }
{
    Streams {
        next: 0,
        over: false,
        unknown: false,
        repeated: false,
        count: 0,
        places: [0; Stream::MOST],
    }
}

// What is read so far, with one stream more.
fn with_stream(r: Streams, long: bool, place: u32, again: bool) -> Streams
    ensures { result ≡ stream_added r long place again }
{
    let over = text::either(r.over, long);
    let unknown = text::either(r.unknown, place == Stream::MOST as u32);
    let repeated = text::either(r.repeated, again);
    let at = r.count as usize;
    if Stream::MOST <= at {
        return Streams {
            over: over,
            unknown: unknown,
            repeated: repeated,
            count: Streams::OVER,
            ..r
        };
    }
    let mut places = r.places;
    places[at] = place;
    Streams {
        next: r.next,
        over: over,
        unknown: unknown,
        repeated: repeated,
        count: r.count + 1,
        places: places,
    }
}

// What is read so far, where the list ends at a place.
fn streams_ended(r: Streams, at: usize) -> Streams
    ensures { result ≡ streams_ended r at }
{
    Streams { next: at, ..r }
}

// Returns the streams at a place up to a closing bracket, and the place of that.
pub fn streams_at(s: &[u8], at: usize, names: &[u64]) -> Option<Streams>
    ensures { result ≡ streams_at names.now s.now at }
{
    let mut r = no_streams();
    let mut seen: u32 = 0;
    let mut i = at;
    while i < s.len() {
        if ends_at(s, i, false) {
            return Some(streams_ended(r, i));
        }
        let p = text::skip(s, i, b' ')?;
        let n = text::read_name(s, p)?;
        let place = terms::stream_place(names, n.code);
        let again = masks::shows(seen, place);
        r = with_stream(r, n.long, place, again);
        seen = masks::with(seen, place);
        i = n.next;
    }
    None
}

// Whether a column was seen before: by its code, or a profile entry by its name among the first k.
fn again(mask: u32, own: &[u64], k: usize, code: u32, second: u64) -> bool
    requires { length own.now ≡ max_own }
    ensures { result ≡ again_in mask (take k own.now) code second }
{
    if code != Term::ENTRY {
        return masks::shows(mask, code);
    }
    if Columns::OWN <= k {
        return true;
    }
    own[..k].contains(&second)
}

// The first k names with that of one more column, where it is a profile entry and there is room for it; how many they are.
fn keep(own: &mut [u64], k: usize, code: u32, second: u64) -> usize
    requires { length own.old ≡ max_own }
    ensures { take result own.new ≡ kept_in (take k own.old) code second }
{
    if code != Term::ENTRY {
        return k;
    }
    if Columns::OWN <= k {
        return k;
    }
    own[k] = second;
    k + 1
}

// No column is read yet.
fn no_columns() -> Columns
    ensures { result ≡ no_columns }
{
    Columns {
        next: 0,
        over: false,
        unknown: false,
        repeated: false,
        mask: 0,
        order: 0,
    }
}

// What is read so far, with one column more.
fn with_column(r: Columns, over: bool, code: u32, again: bool) -> Columns
    ensures { result ≡ column_added r over code again }
{
    let wide = text::either(r.over, over);
    let unknown = text::either(r.unknown, code == Term::UNKNOWN);
    let repeated = text::either(r.repeated, again);
    let mask = masks::with(r.mask, code);
    let order = orders::with_code(r.order, code);
    Columns {
        next: r.next,
        over: wide,
        unknown: unknown,
        repeated: repeated,
        mask: mask,
        order: order,
    }
}

// What is read so far, where the list ends at a place.
fn columns_ended(r: Columns, at: usize) -> Columns
    ensures { result ≡ columns_ended r at }
{
    Columns { next: at, ..r }
}

// Returns the columns at a place up to a closing bracket, or up to a form where `form`, and the place of that.
pub fn columns_at(s: &[u8], at: usize, names: &[u64], form: bool) -> Option<Columns>
    ensures { result ≡ columns_at names.now form s.now at }
{
    let mut r = no_columns();
    let mut own = [0u64; Columns::OWN];
    let mut k: usize = 0;
    let mut i = at;
    while i < s.len() {
        if ends_at(s, i, form) {
            return Some(columns_ended(r, i));
        }
        let p = text::skip(s, i, b' ')?;
        let c = terms::ref_at(s, p)?;
        let code = terms::term_code(names, c.first, c.second);
        let seen = again(r.mask, &own, k, code, c.second);
        k = keep(&mut own, k, code, c.second);
        r = with_column(r, c.over, code, seen);
        i = c.next;
    }
    None
}
