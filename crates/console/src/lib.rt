// What the program reads and writes: parts of its input, lines cut in them, output that is kept until it is written, refusals in words, and its arguments.
#![tactic(auto)]

ghost use Rattle.std.specs.Prelude.{◌≡◌, true, false, cond, ◌+◌, ◌*◌, ◌-◌, ◌≤◌, min, eqb, length};
ghost use Rattle.report.specs.Outcomes.{outcome_of, outcome_text};
ghost use Rattle.console.specs.Lines.{Ends, Keeps, Closes, is_over, fails, Reads};
ghost use Rattle.console.specs.Output.{Lasts, Room, refuses, Tells, Adds};

use report::Message;
use std::alloc::Alloc;
use std::io;
use std::io::Read;
use std::process::ExitCode;
use std::rt::Env;

// Bytes that any text of a line fits in: 28 a cell, and more than a line has.
const MOST: usize = 131072;

// Where the output stands: how many bytes of it are kept until they are written, and whether some could not be written.
// Two facts, and no Option: texts go behind what is kept even where some was lost.
#[derive(Clone, Copy)]
pub struct Output {
    pub used: usize,
    pub lost: bool,
}

// How reading the input stands: it goes on, it came to the input's end, or the input could not be read.
#[derive(Clone, Copy)]
pub enum Reading {
    Open,
    Ended,
    Failed,
}

// What was read: how many bytes of the block, and how reading stands then.
#[derive(Clone, Copy)]
pub struct Got {
    pub count: usize,
    pub reading: Reading,
}

// ---- lines

// The place of the first line feed from a place on, or the end.
pub fn line_end(s: &[u8], at: usize) -> usize
    requires { at ≤ length s.now }
    ensures { Ends s.now at result }
{
    for i in at..s.len() {
        if s[i] == b'\n' {
            return i;
        }
    }
    s.len()
}

// The place after a line feed, or the end.
pub fn after(s: &[u8], e: usize) -> usize
    ensures { result ≡ min (e + 1) (length s.now) }
{
    if e < s.len() {
        return e + 1;
    }
    s.len()
}

// A part of a line after what is kept of it. Returns how much of both is kept.
pub fn keep(line: &mut [u8], kept: usize, part: &[u8]) -> usize
    ensures { Keeps line.old kept part.now line.new result }
{
    let k = kept.min(line.len());
    let n = (line.len() - k).min(part.len());
    line[k..k + n].copy_from_slice(&part[..n]);
    k + n
}

// ---- output

// A reason without the number that stands behind one of the system's.
fn reason_of(words: &str) -> &str {
    match words.split_once(" (os error ") {
        Some((reason, _)) => reason,
        None => words,
    }
}

// Says on standard error what failed, and why.
fn say_failed(rt: &(impl Eprint + Alloc), what: &str, error: io::Error) {
    let _ = match format!(in rt.alloc(); "{error}") {
        Ok(words) => {
            let reason = reason_of(words.as_str());
            eprintln!(rt; "maltziru: {what}: {reason}")
        }
        Err(_) => eprintln!(rt; "maltziru: {what}: {error}"),
    };
}

// Writes a part of the output. Returns whether it could not be written, which is said.
fn write_out(rt: &(impl Print + Eprint + Alloc), part: &[u8]) -> bool {
    match rt.write_all(part) {
        Ok(()) => false,
        Err(error) => {
            say_failed(rt, "standard output", error);
            true
        }
    }
}

// Writes what is kept of the output; once some is lost, no more is tried.
pub fn flush(rt: &(impl Print + Eprint + Alloc), out: &[u8], o: Output) -> Output
    ensures { (result.used ≡ 0) × Lasts o.lost result.lost }
{
    let n = o.used.min(out.len());
    if o.lost {
        return Output {
            used: 0,
            lost: true,
        };
    }
    Output {
        used: 0,
        lost: write_out(rt, &out[0..n]),
    }
}

// Writes what is kept of the output where less room is left than any text takes.
fn made_room(rt: &(impl Print + Eprint + Alloc), out: &[u8], o: Output) -> Output
    ensures { Room out.now o.used result.used × Lasts o.lost result.lost }
{
    let n = o.used.min(out.len());
    if out.len() - n < MOST {
        return flush(rt, out, o);
    }
    Output {
        used: n,
        lost: o.lost,
    }
}

// The text of an outcome after what is kept of the output.
pub fn add(
    rt: &(impl Print + Eprint + Alloc),
    out: &mut [u8],
    o: Output,
    says: Message,
    cells: &[i64],
    bytes: &[u8],
) -> Output
    ensures { Adds (outcome_text (outcome_of says cells.now bytes.now)) (28 * length cells.now + length bytes.now + 20) false out.old o.used out.new result.used × Lasts o.lost result.lost }
{
    let room = made_room(rt, out, o);
    let at = room.used;
    let n = report::write_outcome(&mut out[at..], says, cells, bytes);
    Output {
        used: at + n.min(out.len() - at),
        lost: room.lost,
    }
}

// ---- refusals

// A refusal in words.
fn words_of(number: u32) -> &'static str {
    match number {
        1 => "not a line of a known form",
        2 => "a stream or column that is not declared",
        3 => "too long, too many, too deep, or a number out of its range",
        4 => "a part, a column or a number of values that does not fit its place",
        5 => "a window's size or offset is below 1, or its size above 64 offsets",
        6 => "a name is there twice",
        7 => "the time is before the clock",
        8 => "the stream has all its rows",
        9 => "no grant opens this for the caller, or no route has that number",
        10 => "too many routes",
        11 => "the answer or line is longer than the room for it",
        12 => "what was lent is not what calls made",
        _ => "",
    }
}

// `line N: refused R: WORDS`
fn explain(rt: &impl Eprint, line: u64, number: u32) {
    let words = words_of(number);
    let _ = eprintln!(rt; "line {line}: refused {number}: {words}");
}

// Explains a refusal where that is asked for, once the output up to it is written.
pub fn tell(
    rt: &(impl Print + Eprint + Alloc),
    out: &[u8],
    o: Output,
    explains: bool,
    line: u64,
    says: Message,
) -> Output
    ensures { Tells out.now o.used explains result.used × Lasts o.lost result.lost }
{
    if !explains {
        return o;
    }
    match says {
        Message::Refusal(number) => {
            let r = flush(rt, out, o);
            explain(rt, line, number);
            r
        }
        _ => o,
    }
}

// Whether a line was refused so far.
pub fn refused_by(refused: bool, says: Message) -> bool
    ensures { result ≡ cond refused true (refuses says) }
{
    refused || matches!(says, Message::Refusal(_))
}

// ---- input

// Reads what is there of the input, and waits where nothing is. At its end, a line feed ends a line that has none.
pub fn read_some(rt: &(impl Input + Eprint + Alloc), block: &mut [u8], kept: usize) -> Got
    ensures { Reads kept block.new result }
{
    match rt.reader().read(block) {
        Ok(0) => Got {
            count: end_line(block, kept),
            reading: Reading::Ended,
        },
        Ok(count) => Got {
            count,
            reading: Reading::Open,
        },
        Err(error) => {
            say_failed(rt, "standard input", error);
            Got {
                count: 0,
                reading: Reading::Failed,
            }
        }
    }
}

// A line feed for a line of which something is kept. Returns how many bytes that is.
fn end_line(block: &mut [u8], kept: usize) -> usize
    ensures { Closes kept block.new result }
{
    if kept == 0 {
        return 0;
    }
    if block.len() == 0 {
        return 0;
    }
    block[0] = b'\n';
    1
}

// A run ends with its input, or where output is lost.
pub fn is_over(reading: Reading, lost: bool) -> bool
    ensures { result ≡ is_over reading lost }
{
    lost || !matches!(reading, Reading::Open)
}

// ---- arguments and status

// Whether one of the program's arguments is a word.
fn is_argument(rt: &impl Env, i: usize, word: &[u8]) -> bool {
    let mut got = [0u8; 16];
    match rt.arg(i, &mut got) {
        Ok(n) => &got[..n] == word,
        Err(_) => false,
    }
}

// Whether one of its first two arguments is.
pub fn is_given(rt: &impl Env, word: &[u8]) -> bool {
    is_argument(rt, 1, word) || is_argument(rt, 2, word)
}

// How a run ended, as a number: 0, 1 where a line was refused, 3 where output could not be written or input not read.
pub fn status(reading: Reading, lost: bool, refused: bool) -> u8
    ensures { result ≡ cond (fails reading) 3 (cond lost 3 (cond refused 1 0)) }
{
    if matches!(reading, Reading::Failed) || lost {
        3
    } else if refused {
        1
    } else {
        0
    }
}

// With the argument `--status`, the exit status that says how the run ended; without it, 0.
pub fn say_status(rt: &impl Env, reading: Reading, lost: bool, refused: bool) -> ExitCode {
    if !is_given(rt, b"--status") {
        return ExitCode::SUCCESS;
    }
    ExitCode::from(status(reading, lost, refused))
}
