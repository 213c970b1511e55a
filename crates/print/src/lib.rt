// Text written from numbers into lent bytes: words, names, numbers, columns and conditions. Each function writes from a place on, where there are bytes, and
// returns the place after; over no bytes it counts.
#![tactic(auto)]

ghost use Rattle.std.specs.Prelude.{◌≡◌, ◌+◌, ◌*◌, ◌-◌, ◌/◌, ◌%◌, ◌^◌, ◌<◌, ◌≤◌, min, length};
ghost use Rattle.syntax.specs.Grammar.{put_name, put_nat, put_int};
ghost use Rattle.model.specs.Grants.{entry_value};
ghost use Rattle.text.specs.Words.{name_of};
ghost use Rattle.schema.specs.Schemas.{schema_size, schema_of};
ghost use Rattle.terms.specs.Terms.{time_code};
ghost use Rattle.nodes.specs.Nodes.{unbiased};
ghost use Rattle.print.specs.Writing.{furthest, Put, byte_text, Long, digits_in};
ghost use Rattle.nodes.specs.Profiles.{profile_in};
ghost use Rattle.print.specs.Texts.{group_name, stream_text, source_text, ref_text, col_text, item_text, columns_text, values, self_text, left_text, right_text, opening, test_text, compares, cond_text, list_opening, list_text, when_text, First, Lasts, bounded, limit_text, bounding_text, bounds_text};

use nodes::Node;
use schema::Stream;
use terms::Term;
use text::{Time, Word};

// What a grant puts over rows: how many words its conditions take, and its first and last time, where a number above the highest time is no limit.
#[derive(Clone, Copy)]
pub struct Bounds {
    pub words: u32,
    pub from: u32,
    pub to: u32,
}

// The furthest place.
pub const FURTHEST: u32 = u32::MAX;

// The code of a number that is 0: the lowest of 32 bits has code 0. How many codes there are.
const ZERO: u64 = 2147483648;

const CODES: u64 = 4294967296;

// Words with the brackets and spaces around them.
const OPEN_IN: u64 = 0x28696e20;

pub const OPEN_EQ: u64 = 0x283d20;

const OPEN_NE: u64 = 0x282f3d20;

const OPEN_LT: u64 = 0x283c20;

const OPEN_LE: u64 = 0x283c3d20;

const OPEN_GT: u64 = 0x283e20;

const OPEN_GE: u64 = 0x283e3d20;

const OPEN_AND: u64 = 0x28616e64;

const OPEN_OR: u64 = 0x286f72;

const OPEN_NOT: u64 = 0x286e6f74;

pub const OPEN_PICK: u64 = 0x287069636b20;

const SELF_DOT: u64 = 0x73656c662e;

const TIME_SPACE: u64 = 0x74696d6520;

pub const CLOSE_SPACE: u64 = 0x2920;

// The heads of the comparisons that limit a time.
const LE: u32 = 4;

const GE: u32 = 6;

// ---- bytes, words and numbers

// Returns the place after one byte.
// Leaves the byte at its place where there is one, and all else as it was.
pub fn put(out: &mut [u8], p: u32, b: u8) -> u32
    ensures { Put (byte_text b) out.old p out.new result }
{
    let i = p as usize;
    if out.len() <= i {
        return p.saturating_add(1);
    }
    out[i] = b;
    p.saturating_add(1)
}

// Returns the place after some bytes.
// Leaves them at their places where there are such, and all else as it was.
pub fn put_bytes(out: &mut [u8], p: u32, bytes: &[u8]) -> u32
    ensures { Put (put_name bytes.now) out.old p out.new result }
{
    let i = p as usize;
    let n = bytes.len();
    if out.len() <= i {
        return p.saturating_add(u32::try_from(n).unwrap_or(FURTHEST));
    }
    if n <= out.len() - i && n <= (FURTHEST - p) as usize {
        out[i..i + n].copy_from_slice(bytes);
        return p + n as u32;
    }
    let mut q = p;
    for b in bytes {
        q = put(out, q, *b);
    }
    q
}

// How many bytes the word of a number has; by halves, since the chip counts no leading zeros.
fn word_length(code: u64) -> u32
    ensures { Long code result }
{
    if code < 0x100000000 {
        return short_length(code as u32);
    }
    if code < 0x1000000000000 {
        if code < 0x10000000000 {
            return 5;
        }
        return 6;
    }
    if code < 0x100000000000000 {
        return 7;
    }
    8
}

// The same below four bytes.
fn short_length(code: u32) -> u32
    ensures { Long code result }
{
    if code < 0x10000 {
        if code == 0 {
            return 0;
        }
        if code < 0x100 {
            return 1;
        }
        return 2;
    }
    if code < 0x1000000 {
        return 3;
    }
    4
}

// Returns the place after a name, or after any word of at most eight bytes, by its number.
// Leaves its bytes at their places where there are such, and all else as it was.
pub fn put_word(out: &mut [u8], p: u32, code: u64) -> u32
    ensures { Put (put_name (name_of code)) out.old p out.new result }
{
    let n = word_length(code);
    put_bytes(out, p, &code.to_be_bytes()[8 - n as usize..])
}

// How many digits a number has.
fn digits(n: u32) -> u32
    ensures { result ≡ digits_in n }
{
    if n < 10000 {
        return few_digits(n);
    }
    if n < 1000000 {
        if n < 100000 {
            return 5;
        }
        return 6;
    }
    if n < 100000000 {
        if n < 10000000 {
            return 7;
        }
        return 8;
    }
    if n < 1000000000 {
        return 9;
    }
    10
}

// The same of at most four digits.
fn few_digits(n: u32) -> u32
    requires { n < 10000 }
    ensures { result ≡ digits_in n }
{
    if n < 10 {
        return 1;
    }
    if n < 100 {
        return 2;
    }
    if n < 1000 {
        return 3;
    }
    4
}

// The digits of a number, the highest first.
fn put_digits(out: &mut [u8], p: u32, n: u32) -> u32
    ensures { Put (put_nat n) out.old p out.new result }
{
    if n < 10 {
        return put(out, p, b'0' + (n % 10) as u8);
    }
    let q = put_digits(out, p, n / 10);
    put(out, q, b'0' + (n % 10) as u8)
}

// Returns the place after a natural number.
// Leaves its digits at their places where there are such, and all else as it was.
pub fn put_nat(out: &mut [u8], p: u32, n: u32) -> u32
    ensures { Put (put_nat n) out.old p out.new result }
{
    if out.len() <= p as usize {
        return p.saturating_add(digits(n));
    }
    put_digits(out, p, n)
}

// Returns the place after a natural number of 64 bits.
// Leaves its digits at their places where there are such, and all else as it was.
// Beside `put_digits`, since one function of 64 bits would divide those for each digit, a routine's call on the chip, and one of both types needs a trait.
pub fn put_wide(out: &mut [u8], p: u32, n: u64) -> u32
    ensures { Put (put_nat n) out.old p out.new result }
{
    if n < 4294967296 {
        return put_nat(out, p, n as u32);
    }
    let q = put_wide(out, p, n / 10);
    put(out, q, b'0' + (n % 10) as u8)
}

// Returns the place after a signed number by its code, the lowest of 32 bits as 0.
// Leaves its text at its places where there are such, and all else as it was.
pub fn put_number(out: &mut [u8], p: u32, v: u64) -> u32
    ensures { Put (put_int (unbiased v)) out.old p out.new result }
{
    if v < ZERO {
        let q = put(out, p, b'-');
        return put_nat(out, q, (ZERO - v) as u32);
    }
    put_wide(out, p, v - ZERO)
}

// ---- names

// A number of a group of names that begins at a place, 0 where it or one before it is 0.
fn group_name(names: &[u64], at: usize, i: usize) -> u64
    requires { at + i < schema_size }
    ensures { result ≡ group_name names.now at i }
{
    for k in 0..i {
        if places::number_at(names, at + k) == 0 {
            return 0;
        }
    }
    places::number_at(names, at + i)
}

// Returns the place after the name of a stream, which is empty where there is no such stream.
// Leaves the name at its places where there are such, and all else as it was.
pub fn put_stream(out: &mut [u8], p: u32, s: u32, names: &[u64]) -> u32
    ensures { Put (stream_text (schema_of names.now) s) out.old p out.new result }
{
    if Stream::MOST <= s as usize {
        return p;
    }
    put_word(out, p, group_name(names, 0, s as usize))
}

// Returns the place after the rows of a stream, `(in S)`.
// Leaves the text at its places where there are such, and all else as it was.
pub fn put_source(out: &mut [u8], p: u32, s: u32, names: &[u64]) -> u32
    ensures { Put (source_text (schema_of names.now) s) out.old p out.new result }
{
    let a = put_word(out, p, OPEN_IN);
    let b = put_stream(out, a, s, names);
    put(out, b, b')')
}

// A column of a stream.
fn put_column(out: &mut [u8], p: u32, code: u32, names: &[u64]) -> u32
    requires { code < time_code }
    ensures { Put (ref_text (schema_of names.now) code) out.old p out.new result }
{
    let s = code as usize / Stream::COLUMNS;
    let stream = group_name(names, 0, s);
    if stream == 0 {
        return put(out, p, b'.');
    }
    let at = s * Stream::COLUMNS;
    let column = group_name(names, Stream::MOST + at, code as usize - at);
    if out.len() <= p as usize {
        return p.saturating_add(word_length(stream) + 1 + word_length(column));
    }
    let a = put_word(out, p, stream);
    let b = put(out, a, b'.');
    put_word(out, b, column)
}

// Returns the place after a column by its code, where Term::FIGURE is `figure` and any other that is no column's is `time`.
// Leaves the text at its places where there are such, and all else as it was.
pub fn put_ref(out: &mut [u8], p: u32, code: u32, names: &[u64]) -> u32
    ensures { Put (ref_text (schema_of names.now) code) out.old p out.new result }
{
    if code < Term::TIME {
        return put_column(out, p, code, names);
    }
    if code == Term::FIGURE {
        return put_word(out, p, Word::FIGURE);
    }
    put_word(out, p, Word::TIME)
}

// Returns the place after a column by its code where only a column may stand: any code that no stream's column has is `figure`.
// Leaves the text at its places where there are such, and all else as it was.
pub fn put_col(out: &mut [u8], p: u32, code: u32, names: &[u64]) -> u32
    ensures { Put (col_text (schema_of names.now) code) out.old p out.new result }
{
    if code < Term::TIME {
        return put_column(out, p, code, names);
    }
    put_word(out, p, Word::FIGURE)
}

// A column after a space.
fn put_item(out: &mut [u8], p: u32, code: u32, names: &[u64]) -> u32
    ensures { Put (item_text (schema_of names.now) code) out.old p out.new result }
{
    let a = put(out, p, b' ');
    put_col(out, a, code, names)
}

// Returns the place after the columns of an order, each after one space.
// Leaves the text at its places where there are such, and all else as it was.
pub fn put_columns(out: &mut [u8], p: u32, order: u64, names: &[u64]) -> u32
    ensures { Put (columns_text (schema_of names.now) order) out.old p out.new result }
{
    let n = orders::count(order);
    let mut q = p;
    for i in 0..n {
        q = put_item(out, q, orders::code_at(order, i), names);
    }
    q
}

// ---- comparisons

// The code of the value of a profile entry, or of 0 where there is no such entry.
fn entry_value(v: u64, profile: &[u64]) -> u64
    ensures { unbiased result ≡ entry_value (profile_in profile.now) (name_of v) }
{
    let n = profile.len() / 2;
    for i in 0..n {
        if places::number_at(profile, i * 2) == v {
            return profile[i * 2 + 1] % CODES;
        }
    }
    ZERO
}

// A profile entry by the number of its name.
fn put_self(out: &mut [u8], p: u32, v: u64) -> u32
    ensures { Put (self_text v) out.old p out.new result }
{
    let a = put_word(out, p, SELF_DOT);
    put_word(out, a, v)
}

// The left side of a comparison, as it stands or as one with a profile's values.
fn put_left(
    out: &mut [u8],
    p: u32,
    code: u32,
    v: u64,
    names: &[u64],
    profile: &[u64],
    own: bool,
) -> u32
    ensures { Put (left_text (schema_of names.now) (values own (profile_in profile.now)) code v) out.old p out.new result }
{
    if code <= Term::NUMBER {
        return put_ref(out, p, code, names);
    }
    if own {
        return put_self(out, p, v);
    }
    put_ref(out, p, code, names)
}

// The right side of a comparison, as it stands or with a profile's value for a profile entry.
fn put_right(
    out: &mut [u8],
    p: u32,
    code: u32,
    v: u64,
    names: &[u64],
    profile: &[u64],
    own: bool,
) -> u32
    ensures { Put (right_text (schema_of names.now) (values own (profile_in profile.now)) code v) out.old p out.new result }
{
    if code <= Term::FIGURE {
        return put_ref(out, p, code, names);
    }
    if code == Term::NUMBER {
        return put_number(out, p, v);
    }
    if own {
        return put_self(out, p, v);
    }
    put_number(out, p, entry_value(v, profile))
}

// A bracket, the word of a comparison and a space.
fn opened(head: u32) -> u64
    ensures { name_of result ≡ opening head }
{
    match head {
        1 => OPEN_EQ,
        2 => OPEN_NE,
        3 => OPEN_LT,
        LE => OPEN_LE,
        5 => OPEN_GT,
        _ => OPEN_GE,
    }
}

// A comparison.
fn put_test(out: &mut [u8], p: u32, n: Node, names: &[u64], profile: &[u64], own: bool) -> u32
    ensures { Put (test_text (schema_of names.now) (values own (profile_in profile.now)) n) out.old p out.new result }
{
    let a = put_word(out, p, opened(n.head));
    let b = put_left(out, a, n.left, n.value, names, profile, own);
    let c = put(out, b, b' ');
    let d = put_right(out, c, n.right, n.value, names, profile, own);
    put(out, d, b')')
}

// ---- conditions

// The words of a list of conditions: those that end at place `end` and before it, down to `stop`.
#[derive(Clone, Copy)]
pub struct Range {
    pub stop: usize,
    pub end: usize,
}

// Whether a head is a comparison's: any but those of `and`, `or` and `not`.
fn compares(head: u32) -> bool
    ensures { result ≡ compares head }
{
    head < Node::AND || Node::NOT < head
}

// How many words stand before those of the condition whose node ends at a place: fewer than the place.
fn before(n: Node, k: usize) -> usize
    ensures { result ≡ min n.before (k - 1) }
{
    k.saturating_sub(1).min(n.before as usize)
}

// Where the first condition ends of those that end at place j and before it, down to a stop.
fn first_end(words: &[u32], stop: usize, j: usize) -> usize
    ensures { First words.now stop j result }
{
    let mut e = j;
    let mut b = nodes::link_of(words, j);
    while stop < b {
        e = b;
        b = nodes::link_of(words, e);
    }
    e
}

// Where the conditions end that a head takes of a list: `not` the first, any other all.
fn last_of(words: &[u32], head: u32, stop: usize, j: usize) -> usize
    ensures { Lasts words.now head stop j result }
{
    if head == Node::NOT {
        return first_end(words, stop, j);
    }
    j
}

// A bracket and the word of a head.
fn list_opened(head: u32) -> u64
    ensures { name_of result ≡ list_opening head }
{
    match head {
        Node::AND => OPEN_AND,
        Node::OR => OPEN_OR,
        _ => OPEN_NOT,
    }
}

// Returns the place after the condition whose words end at a place, as it stands (own) or with the values of a profile.
// Leaves the text at its places where there are such, and all else as it was.
#[cycle(put_cond_put_list)]
pub fn put_cond(
    out: &mut [u8],
    p: u32,
    words: &[u32],
    k: usize,
    names: &[u64],
    profile: &[u64],
    own: bool,
) -> u32
    ensures { Put (cond_text (schema_of names.now) (values own (profile_in profile.now)) words.now k) out.old p out.new result }
{
    let n = nodes::node_at(words, k);
    if compares(n.head) {
        return put_test(out, p, n, names, profile, own);
    }
    let b = before(n, k);
    let j = last_of(words, n.head, b, k - 1);
    let q = put_word(out, p, list_opened(n.head));
    let list = Range { stop: b, end: j };
    let t = put_list(out, q, words, list, names, profile, own);
    put(out, t, b')')
}

// The conditions of a range of words, each after a space.
#[cycle(put_cond_put_list)]
fn put_list(
    out: &mut [u8],
    p: u32,
    words: &[u32],
    list: Range,
    names: &[u64],
    profile: &[u64],
    own: bool,
) -> u32
    ensures { Put (list_text (schema_of names.now) (values own (profile_in profile.now)) words.now list.stop list.end) out.old p out.new result }
{
    if list.end <= list.stop {
        let s = put(out, p, b' ');
        return put_cond(out, s, words, 0, names, profile, own);
    }
    let mut q = p;
    let mut at = list.stop;
    while at < list.end {
        let e = first_end(words, at, list.end);
        let s = put(out, q, b' ');
        q = put_cond(out, s, words, e, names, profile, own);
        at = e;
    }
    q
}

// Returns the place after the conditions of the first n words, each after one space, with the values of a profile.
// Leaves the text at its places where there are such, and all else as it was.
pub fn put_conditions(
    out: &mut [u8],
    p: u32,
    words: &[u32],
    n: u32,
    names: &[u64],
    profile: &[u64],
) -> u32
    ensures { Put (when_text (schema_of names.now) (profile_in profile.now) words.now n) out.old p out.new result }
{
    if n == 0 {
        return p;
    }
    let list = Range {
        stop: 0,
        end: n as usize,
    };
    put_list(out, p, words, list, names, profile, false)
}

// ---- what a grant puts over rows

// A limit on the time, after a space, where there is one.
fn put_limit(out: &mut [u8], p: u32, head: u32, n: u32) -> u32
    ensures { Put (limit_text head n) out.old p out.new result }
{
    if Time::TOP < n {
        return p;
    }
    let a = put(out, p, b' ');
    let b = put_word(out, a, opened(head));
    let c = put_word(out, b, TIME_SPACE);
    let d = put_nat(out, c, n);
    put(out, d, b')')
}

// The conditions and then the limits, each after a space.
fn put_all(out: &mut [u8], p: u32, words: &[u32], b: Bounds, names: &[u64], profile: &[u64]) -> u32
    ensures { Put (bounding_text (schema_of names.now) (profile_in profile.now) words.now b) out.old p out.new result }
{
    let x = put_conditions(out, p, words, b.words, names, profile);
    let y = put_limit(out, x, GE, b.from);
    put_limit(out, y, LE, b.to)
}

impl Bounds {
    // Returns whether there is a condition or a limit.
    pub fn any(self) -> bool
        ensures { result ≡ bounded self }
    {
        0 < self.words || self.from <= Time::TOP || self.to <= Time::TOP
    }
}

// Returns the place after the pick that bounds put over rows, up to the space before the rows: `(pick (and ..) `; nothing where there is no bound.
// Leaves the text at its places where there are such, and all else as it was.
pub fn put_pick(
    out: &mut [u8],
    p: u32,
    words: &[u32],
    b: Bounds,
    names: &[u64],
    profile: &[u64],
) -> u32
    ensures { Put (bounds_text (schema_of names.now) (profile_in profile.now) words.now b) out.old p out.new result }
{
    if !b.any() {
        return p;
    }
    let x = put_word(out, p, OPEN_PICK);
    let y = put_word(out, x, OPEN_AND);
    let z = put_all(out, y, words, b, names, profile);
    put_word(out, z, CLOSE_SPACE)
}
