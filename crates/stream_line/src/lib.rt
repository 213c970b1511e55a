// The stream call: a line, and the lent names with its stream.
#![tactic(auto)]

ghost use Rattle.std.specs.Prelude.{◌≡◌, ◌&&◌, take};
ghost use Rattle.lists.specs.Lists.{every};
ghost use Rattle.schema.specs.Schemas.{code_free};
ghost use Rattle.stream_line.specs.Declaring.{unread_line, line_read, line_after, stream_line, Declares};

use items::Names;
use refusal::{Checks, Refusal};
use schema::Stream;
use text::{Line, Name, Word};

// What is read of a stream line: what is wrong with it by itself, and its stream.
#[derive(Clone, Copy)]
pub struct StreamLine {
    pub checks: Checks,
    pub stream: Stream,
}

// Nothing was read: the line is too long, or of another form.
fn unread(long: bool) -> StreamLine
    ensures { result ≡ unread_line long }
{
    StreamLine {
        checks: Checks::unread(long),
        stream: Stream {
            name: 0,
            count: 0,
            columns: [0; Names::MOST],
        },
    }
}

// Whether each of the first n names is one that a column may have.
fn all_free(codes: [u64; Names::MOST], n: usize) -> bool
    ensures { result ≡ every code_free (take n codes) }
{
    for code in &codes[..n.min(Names::MOST)] {
        if !schema::free_name(*code) {
            return false;
        }
    }
    true
}

// Whether the stream and its columns have names that they may have.
fn free(n: Name, cs: Names) -> bool
    ensures { result ≡ (code_free n.code && every code_free (take cs.count cs.codes)) }
{
    if !schema::free_name(n.code) {
        return false;
    }
    let codes = cs.codes;
    all_free(codes, cs.count as usize)
}

// The line of a name and columns.
fn line_of(n: Name, cs: Names) -> StreamLine
    ensures { result ≡ line_read n cs }
{
    let codes = cs.codes;
    let count = cs.count;
    let long = text::either(n.long, cs.long);
    let over = text::either(long, Names::OVER <= count);
    let once = items::distinct(&codes[..(count as usize).min(Names::MOST)]);
    let checks = Checks::shown(over, false, !once, !free(n, cs), false);
    StreamLine {
        checks: checks,
        stream: Stream {
            name: n.code,
            count: count,
            columns: codes,
        },
    }
}

// The stream line that a text is after its first word.
fn line_after(s: &[u8], at: usize) -> Option<StreamLine>
    ensures { result ≡ line_after s.now at }
{
    let n = text::read_name(s, text::skip(s, at, b' ')?)?;
    let cs = items::read_names(s, n.next)?;
    if cs.count == 0 {
        return None;
    }
    if !text::closes_at(s, cs.next) {
        return None;
    }
    Some(line_of(n, cs))
}

// Returns the stream line that a text is, with what is wrong with it. This decides refusal 1 of stream lines.
pub fn read(s: &[u8]) -> StreamLine
    ensures { result ≡ stream_line s.now }
{
    match Line::after(s, Word::STREAM) {
        Ok(at) => line_after(s, at).unwrap_or(unread(false)),
        Err(e) => unread(e.long()),
    }
}

// Returns that it is accepted, or the refusal. Leaves the names with the stream of the line in the next places and all others as they were; refused, all as they were.
pub fn declare(names: &mut [u64], line: &[u8]) -> Result<(), Refusal>
    ensures { Declares names.old line.now names.new result }
{
    let l = read(line);
    let stream = l.stream;
    let n = schema::streams(names);
    let mut checks = l.checks;
    checks.lent = !schema::sound(names);
    checks.bound = text::either(checks.bound, Stream::MOST <= n);
    checks.repeated = text::either(
        schema::stream_number(names, stream.name) < n,
        checks.repeated,
    );
    checks.result()?;
    schema::put_stream(names, stream);
    Ok(())
}
