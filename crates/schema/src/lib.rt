// The declared streams as lent numbers: the names of four streams, then those of six columns for each; 0 where there is none.
#![tactic(auto)]

ghost use Rattle.std.specs.Prelude.{◌≡◌, ◌+◌, ◌≤◌, ◌<◌, length};
ghost use Rattle.syntax.specs.Grammar.{name?};
ghost use Rattle.syntax.specs.Limits.{max_streams, max_columns};
ghost use Rattle.calls.specs.Names.{stream_number};
ghost use Rattle.calls.specs.Validity.{valid_name};
ghost use Rattle.text.specs.Words.{name_of};
ghost use Rattle.schema.specs.Schemas.{schema_size, filled, streams_in, width_in, schema_of, code_free, zeros, stands, named_from, stream_sound, streams_sound, schema_sound, with_codes};

use items::Names;
use text::Word;

// A stream: its name, how many columns it has, and their names.
#[derive(Clone, Copy)]
pub struct Stream {
    pub name: u64,
    pub count: u32,
    pub columns: [u64; Names::MOST],
}

impl Stream {
    // How many streams a record may have.
    pub const MOST: usize = 4;
    // How many columns a stream may have.
    pub const COLUMNS: usize = Names::MOST;
    // How many numbers are lent for the names of all of them.
    pub const NAMES: usize = Stream::MOST + Stream::MOST * Stream::COLUMNS;

    // Returns Stream::MOST, which is the bound of the definitions.
    pub fn most() -> usize
        ensures { result ≡ max_streams }
    {
        Stream::MOST
    }

    // Returns Stream::COLUMNS, which is the bound of the definitions.
    pub fn columns() -> usize
        ensures { result ≡ max_columns }
    {
        Stream::COLUMNS
    }

    // Returns Stream::NAMES, which follows from the two.
    pub fn names() -> usize
        ensures { result ≡ schema_size }
    {
        Stream::NAMES
    }
}

// Lower-case letters and digits, a letter first: from the last byte, which is the lowest, to the first.
fn is_name(code: u64) -> bool
    ensures { result ≡ name? (name_of code) }
{
    let mut n = code;
    while 256 <= n {
        if !text::is_alnum(n % 256) {
            return false;
        }
        n = n / 256;
    }
    text::is_letter(n)
}

// Returns whether a role or a profile entry may have the name of a number.
pub fn valid_name(code: u64) -> bool
    ensures { result ≡ valid_name (name_of code) }
{
    is_name(code)
}

// Returns whether a stream or a column may have the name of a number.
pub fn free_name(code: u64) -> bool
    ensures { result ≡ code_free code }
{
    if code == Word::SELF {
        return false;
    }
    if code == Word::TIME {
        return false;
    }
    if code == Word::FIGURE {
        return false;
    }
    is_name(code)
}

// How many of n numbers from a place on are not 0, up to the first that is.
fn filled(names: &[u64], at: usize, n: usize) -> usize
    requires { at + n ≤ schema_size }
    ensures { result ≡ filled names.now at n }
{
    for i in 0..n {
        if places::number_at(names, at + i) == 0 {
            return i;
        }
    }
    n
}

// Returns how many streams are declared.
pub fn streams(names: &[u64]) -> usize
    ensures { result ≡ streams_in names.now }
{
    filled(names, 0, Stream::MOST)
}

// Returns how many columns a stream has, 0 where there is no such stream.
pub fn width(names: &[u64], s: usize) -> usize
    ensures { result ≡ width_in names.now s }
{
    if Stream::MOST <= s {
        return 0;
    }
    filled(names, Stream::MOST + s * Stream::COLUMNS, Stream::COLUMNS)
}

// Returns the number of the first stream of a name; how many streams there are means that there is none.
pub fn stream_number(names: &[u64], code: u64) -> usize
    ensures { result ≡ stream_number (schema_of names.now) (name_of code) }
{
    let n = streams(names);
    for s in 0..n {
        if places::number_at(names, s) == code {
            return s;
        }
    }
    n
}

// Whether n numbers from a place on are all 0.
fn zeros(names: &[u64], at: usize, n: usize) -> bool
    requires { at + n ≤ length names.now }
    ensures { result ≡ zeros names.now at n }
{
    names[at..at + n].iter().all(|code| *code == 0)
}

// Whether a number stands among some from a place on.
fn stands(names: &[u64], at: usize, n: usize, code: u64) -> bool
    requires { at + n ≤ length names.now }
    ensures { result ≡ stands names.now at n code }
{
    names[at..at + n].contains(&code)
}

// Whether n numbers from a place on are names that streams and columns may have, and none stands twice.
fn named(names: &[u64], at: usize, n: usize) -> bool
    requires { at + n ≤ length names.now }
    ensures { result ≡ named_from names.now at n }
{
    for i in 0..n {
        let code = names[at + i];
        if !free_name(code) {
            return false;
        }
        if stands(names, at, i, code) {
            return false;
        }
    }
    true
}

// Whether a stream's columns are as they may be: one or more of a declared stream, none of another, and no number after the last.
fn stream_sound(names: &[u64], s: usize, n: usize) -> bool
    requires { (s < max_streams) × (schema_size ≤ length names.now) }
    ensures { result ≡ stream_sound names.now s n }
{
    let at = Stream::MOST + s * Stream::COLUMNS;
    if n <= s {
        return zeros(names, at, Stream::COLUMNS);
    }
    let w = filled(names, at, Stream::COLUMNS);
    if !zeros(names, at + w, Stream::COLUMNS - w) {
        return false;
    }
    if w == 0 {
        return false;
    }
    named(names, at, w)
}

// Every stream's columns are as they may be.
fn streams_sound(names: &[u64], n: usize) -> bool
    requires { schema_size ≤ length names.now }
    ensures { result ≡ streams_sound names.now n }
{
    (0..Stream::MOST).all(|s| stream_sound(names, s, n))
}

// Returns whether the names may be lent (refusal 12).
pub fn sound(names: &[u64]) -> bool
    ensures { result ≡ schema_sound names.now }
{
    if names.len() < Stream::NAMES {
        return false;
    }
    let n = streams(names);
    if !zeros(names, n, Stream::MOST - n) {
        return false;
    }
    if !named(names, 0, n) {
        return false;
    }
    streams_sound(names, n)
}

// Leaves the names with those of one stream more in the places of the next, and all others as they were; all as they were where there is no such place.
pub fn put_stream(names: &mut [u64], stream: Stream)
    ensures { names.new ≡ with_codes names.old stream.name stream.columns }
{
    let s = streams(names);
    if Stream::MOST <= s {
        return;
    }
    if names.len() < Stream::NAMES {
        return;
    }
    names[s] = stream.name;
    let at = Stream::MOST + s * Stream::COLUMNS;
    names[at..at + Stream::COLUMNS].copy_from_slice(&stream.columns);
}
