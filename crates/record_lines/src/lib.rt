// The `clock`, `row` and `clear` lines. Each is read and does what the call of its name does.
#![tactic(auto)]

ghost use Rattle.std.specs.Prelude.{◌≡◌};
ghost use Rattle.refusal.specs.Results.{said_by, held_after};
ghost use Rattle.record_lines.specs.Lines.{clock_line, clock_after, unread_clock, clear_line, row_line, row_after, unread_row, row_read};
ghost use Rattle.record_lines.specs.Calls.{clock_line_call, clear_line_call, RowLineCall};

use items::{Names, Values};
use ledger::Ledger;
use refusal::{Checks, Refused};
use text::{Line, Name, Word};

// What is read of a clock line; its time is None where its number is none.
#[derive(Clone, Copy)]
pub struct ClockLine {
    pub checks: Checks,
    pub time: Option<u32>,
}

// What is read of a row line: the stream's name, how many values it lists, and the first of them.
#[derive(Clone, Copy)]
pub struct RowLine {
    pub checks: Checks,
    pub name: u64,
    pub count: u32,
    pub values: [i32; Names::MOST],
}

// No clock line.
fn unread_clock(long: bool) -> ClockLine
    ensures { result ≡ unread_clock long }
{
    ClockLine {
        checks: Checks::unread(long),
        time: None,
    }
}

// The clock line that a text is after its first word.
fn clock_after(s: &[u8], at: usize) -> Option<ClockLine>
    ensures { result ≡ clock_after s.now at }
{
    let n = text::read_number(s, text::skip(s, at, b' ')?)?;
    if !text::closes_at(s, n.next) {
        return None;
    }
    Some(ClockLine {
        checks: Checks::new(),
        time: n.time(),
    })
}

// Returns the clock line that a text is, with what is wrong with it. This decides refusal 1 of clock lines.
pub fn read_clock(s: &[u8]) -> ClockLine
    ensures { result ≡ clock_line s.now }
{
    match Line::after(s, Word::CLOCK) {
        Ok(at) => clock_after(s, at).unwrap_or(unread_clock(false)),
        Err(e) => unread_clock(e.long()),
    }
}

// Returns what is wrong with a text as a clear line. This decides refusal 1 of clear lines.
pub fn read_clear(s: &[u8]) -> Checks
    ensures { result ≡ clear_line s.now }
{
    let at = match Line::after(s, Word::CLEAR) {
        Ok(at) => at,
        Err(e) => return Checks::unread(e.long()),
    };
    if !text::closes_at(s, at) {
        return Checks::unread(false);
    }
    Checks::new()
}

// No row line.
fn unread_row(long: bool) -> RowLine
    ensures { result ≡ unread_row long }
{
    RowLine {
        checks: Checks::unread(long),
        name: 0,
        count: 0,
        values: [0; Names::MOST],
    }
}

// The row line of a name and values.
fn row_of(n: Name, vs: Values) -> RowLine
    ensures { result ≡ row_read n vs }
{
    let over = text::either(n.long, vs.wide);
    let count = vs.count;
    let values = vs.values;
    RowLine {
        checks: Checks::shown(over, false, false, Names::OVER <= count, false),
        name: n.code,
        count: count,
        values: values,
    }
}

// The row line that a text is after its first word.
fn row_after(s: &[u8], at: usize) -> Option<RowLine>
    ensures { result ≡ row_after s.now at }
{
    let n = text::read_name(s, text::skip(s, at, b' ')?)?;
    let vs = items::read_values(s, n.next)?;
    if vs.count == 0 {
        return None;
    }
    if !text::closes_at(s, vs.next) {
        return None;
    }
    Some(row_of(n, vs))
}

// Returns the row line that a text is, with what is wrong with it. This decides refusal 1 of row lines.
pub fn read_row(s: &[u8]) -> RowLine
    ensures { result ≡ row_line s.now }
{
    match Line::after(s, Word::ROW) {
        Ok(at) => row_after(s, at).unwrap_or(unread_row(false)),
        Err(e) => unread_row(e.long()),
    }
}

// The clock line. Returns the ledger with its time, or the refusal with the ledger as it was.
pub fn clock_line(l: Ledger, line: &[u8]) -> Result<Ledger, Refused<Ledger>>
    ensures { result ≡ clock_line_call l line.now }
{
    let c = read_clock(line);
    l.clock_with(c.time, c.checks)
}

// The clear line. Returns the ledger with no rows, or the refusal with the ledger as it was.
pub fn clear_line(l: Ledger, line: &[u8]) -> Result<Ledger, Refused<Ledger>>
    ensures { result ≡ clear_line_call l line.now }
{
    l.clear_with(read_clear(line))
}

// The row line. Returns the ledger with one row more, or the refusal with the ledger as it was. Leaves the row in its place, and all else as it was; refused, all places as they were.
pub fn row_line(
    l: Ledger,
    names: &[u64],
    line: &[u8],
    times: &mut [u32],
    values: &mut [i32],
) -> Result<Ledger, Refused<Ledger>>
    ensures { RowLineCall (record { ledger = l; names = names.now; times = times.old; values = values.old }) line.now (record { ledger = held_after result; names = names.now; times = times.new; values = values.new }) (said_by result) }
{
    let w = read_row(line);
    let s = schema::stream_number(names, w.name);
    let n = (w.count as usize).min(Names::MOST);
    l.row_with(names, s, &w.values[..n], times, values, w.checks)
}
