// Columns, operands and comparisons of a line at a place, resolved by the names of a schema.
#![tactic(auto)]

ghost use Rattle.std.specs.Prelude.{◌≡◌, cond, ◌+◌, ◌≤◌, eqb};
ghost use Rattle.schema.specs.Schemas.{schema_size};
ghost use Rattle.terms.specs.Terms.{entry_code, found, stream_found, place_in, dotted_of, alone_of, ref_at, code_in, biased, ref_term_at, number_term_at, operand_at, compared, comparison_at};

use schema::Stream;
use text::{Name, Word};

// What stands where a column may: the numbers of its two names, the second 0 where it stands alone.
#[derive(Clone, Copy)]
pub struct Reference {
    pub over: bool,
    pub first: u64,
    pub second: u64,
    pub next: usize,
}

// The right side of a comparison. `over`: a name is too long or a number beyond 32 bits.
#[derive(Clone, Copy)]
pub struct Term {
    pub over: bool,
    pub code: u32,
    pub value: u64,
    pub next: usize,
}

impl Term {
    // The codes of terms: a column's place among the 24, and those after them.
    pub const TIME: u32 = 24;

    pub const FIGURE: u32 = 25;

    pub const NUMBER: u32 = 26;

    pub const ENTRY: u32 = 27;

    pub const UNKNOWN: u32 = 28;
}

// A comparison: the codes of its terms, and the number or the profile entry on its right.
#[derive(Clone, Copy)]
pub struct Comparison {
    pub over: bool,
    pub left: u32,
    pub right: u32,
    pub value: u64,
    pub next: usize,
}

// Two names with a dot between them.
fn dotted_of(n: Name, m: Name) -> Reference
    ensures { result ≡ dotted_of n m }
{
    let over = text::either(n.long, m.long);
    Reference {
        over: over,
        first: n.code,
        second: m.code,
        next: m.next,
    }
}

// A name that stands alone.
fn alone_of(n: Name) -> Reference
    ensures { result ≡ alone_of n }
{
    Reference {
        over: false,
        first: n.code,
        second: 0,
        next: n.next,
    }
}

// Returns what stands at a place where a column may, and the place after it.
pub fn ref_at(s: &[u8], at: usize) -> Option<Reference>
    ensures { result ≡ ref_at s.now at }
{
    let n = text::read_name(s, at)?;
    if let Some(p) = text::skip(s, n.next, b'.') {
        let m = text::read_name(s, p)?;
        return Some(dotted_of(n, m));
    }
    if n.long {
        return None;
    }
    if n.code == Word::TIME {
        return Some(alone_of(n));
    }
    if n.code == Word::FIGURE {
        return Some(alone_of(n));
    }
    None
}

// The first of n numbers from a place on that is a given one, or n.
fn find(names: &[u64], at: usize, n: usize, code: u64) -> usize
    requires { at + n ≤ schema_size }
    ensures { result ≡ found names.now at n code }
{
    for i in 0..n {
        if places::number_at(names, at + i) == code {
            return i;
        }
    }
    n
}

// Returns the number of a stream by that of its name; Stream::MOST means that there is none.
pub fn stream_place(names: &[u64], code: u64) -> u32
    ensures { result ≡ stream_found names.now code }
{
    find(names, 0, Stream::MOST, code) as u32
}

// The place of a column among the 24 by the numbers of its names, or Term::UNKNOWN.
fn place(names: &[u64], n: u64, m: u64) -> u32
    ensures { result ≡ place_in names.now n m }
{
    let s = find(names, 0, Stream::MOST, n);
    if Stream::MOST <= s {
        return Term::UNKNOWN;
    }
    let c = find(
        names,
        Stream::MOST + s * Stream::COLUMNS,
        Stream::COLUMNS,
        m,
    );
    if Stream::COLUMNS <= c {
        return Term::UNKNOWN;
    }
    (s * Stream::COLUMNS + c) as u32
}

// Returns the code of a term by the numbers of its names, Term::UNKNOWN where it is not declared.
pub fn term_code(names: &[u64], n: u64, m: u64) -> u32
    ensures { result ≡ code_in names.now n m }
{
    if m == 0 {
        if n == Word::TIME {
            return Term::TIME;
        }
        return Term::FIGURE;
    }
    if n == Word::SELF {
        return Term::ENTRY;
    }
    place(names, n, m)
}

// A number of 32 bits, the lowest as 0.
fn biased(v: i32) -> u64
    ensures { result ≡ biased v }
{
    ((v as i64) + 2147483648) as u64
}

// The number of a profile entry's name, and 0 for any other term.
fn entry_value(code: u32, m: u64) -> u64
    ensures { result ≡ cond (eqb code entry_code) m 0 }
{
    if code == Term::ENTRY {
        return m;
    }
    0
}

// The operand at a place that begins with a letter.
fn ref_term(s: &[u8], at: usize, names: &[u64]) -> Option<Term>
    ensures { result ≡ ref_term_at names.now s.now at }
{
    let r = ref_at(s, at)?;
    let code = term_code(names, r.first, r.second);
    let value = entry_value(code, r.second);
    Some(Term {
        over: r.over,
        code: code,
        value: value,
        next: r.next,
    })
}

// The operand at a place that begins with none.
fn number_term(s: &[u8], at: usize) -> Option<Term>
    ensures { result ≡ number_term_at s.now at }
{
    let z = text::read_number(s, at)?;
    let k = z.kept();
    let value = biased(k.unwrap_or(0));
    Some(Term {
        over: k.is_none(),
        code: Term::NUMBER,
        value: value,
        next: z.next,
    })
}

// Returns the right side of a comparison at a place, and the place after it.
pub fn operand_at(s: &[u8], at: usize, names: &[u64]) -> Option<Term>
    ensures { result ≡ operand_at names.now s.now at }
{
    if !text::is_letter(text::byte(s, at) as u64) {
        return number_term(s, at);
    }
    ref_term(s, at, names)
}

// A comparison by its two sides, which ends at a place.
fn compared(l: Reference, left: u32, t: Term, next: usize) -> Comparison
    ensures { result ≡ compared l left t next }
{
    let over = text::either(l.over, t.over);
    Comparison {
        over: over,
        left: left,
        right: t.code,
        value: t.value,
        next: next,
    }
}

// Returns the comparison whose head ended at a place, and the place after its bracket.
pub fn comparison_at(s: &[u8], at: usize, names: &[u64]) -> Option<Comparison>
    ensures { result ≡ comparison_at names.now s.now at }
{
    let p = text::skip(s, at, b' ')?;
    let l = ref_at(s, p)?;
    let q = text::skip(s, l.next, b' ')?;
    let t = operand_at(s, q, names)?;
    let end = text::skip(s, t.next, b')')?;
    let left = term_code(names, l.first, l.second);
    Some(compared(l, left, t, end))
}
