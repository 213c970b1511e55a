// The calls for C. Each takes numbers, structs by value and lent memory, and says 0 or the number of a refusal; none has a condition on what it is given.
// include/maltziru.h says the same to a C program.
#![tactic(auto)]

ghost use Rattle.std.specs.Prelude.{◌≡◌};
ghost use Rattle.ledger.specs.Calls.{clock_call, clear_call};
ghost use Rattle.record_lines.specs.Calls.{clock_line_call, clear_line_call};
ghost use Rattle.caller.specs.Callers.{no_caller};
ghost use Rattle.ledger.specs.Calls.{begun};
ghost use Rattle.caller.specs.Lines.{identified};
ghost use Rattle.syntax.specs.Readers.{parse_query};
ghost use Rattle.calls.specs.Asking.{with_route};
ghost use Rattle.ask.specs.Replies.{Replies};
ghost use Rattle.ask.specs.Asking.{asked, LineReplies};
ghost use Rattle.maltziru.specs.Calls.{said, ledger_said, grant_said, caller_said, StreamCall, RowCalled, RowLineCalled, GrantCall};

use ask::Reply;
use caller::Caller;
use grant::Grant;
use ledger::Ledger;
use refusal::{Refusal, Refused};

// What a call on the record says, and the ledger that it leaves.
#[repr(C)]
#[derive(Clone, Copy)]
pub struct LedgerReply {
    pub refusal: u32,
    pub ledger: Ledger,
}

// What a grant line says, and the grant.
#[repr(C)]
#[derive(Clone, Copy)]
pub struct GrantReply {
    pub refusal: u32,
    pub grant: Grant,
}

// What a caller line says, and the caller.
#[repr(C)]
#[derive(Clone, Copy)]
pub struct CallerReply {
    pub refusal: u32,
    pub caller: Caller,
}

// ---- results as numbers

fn number(r: Result<(), Refusal>) -> u32
    ensures { result ≡ said r }
{
    match r {
        Ok(()) => 0,
        Err(f) => f.number(),
    }
}

// The ledger that a call gives, or with a refusal the one that it gives back.
fn ledger_reply(r: Result<Ledger, Refused<Ledger>>) -> LedgerReply
    ensures { result ≡ ledger_said r }
{
    match r {
        Ok(l) => LedgerReply {
            refusal: 0,
            ledger: l,
        },
        Err(e) => LedgerReply {
            refusal: e.refusal.number(),
            ledger: e.held,
        },
    }
}

// The grant, or what a refusal gives in its place.
fn grant_reply(r: Result<Grant, Refused<Grant>>) -> GrantReply
    ensures { result ≡ grant_said r }
{
    match r {
        Ok(g) => GrantReply {
            refusal: 0,
            grant: g,
        },
        Err(e) => GrantReply {
            refusal: e.refusal.number(),
            grant: e.held,
        },
    }
}

// The caller that a line gives, or with a refusal the one that it gives back.
fn caller_reply(r: Result<Caller, Refused<Caller>>) -> CallerReply
    ensures { result ≡ caller_said r }
{
    match r {
        Ok(c) => CallerReply {
            refusal: 0,
            caller: c,
        },
        Err(e) => CallerReply {
            refusal: e.refusal.number(),
            caller: e.held,
        },
    }
}

// ---- streams

// The stream line. Returns 0 or the refusal. Leaves the names with the line's stream in the next places and all others as they were; refused, all names as they were.
#[unsafe(no_mangle)]
pub extern "C" fn maltziru_stream(names: &mut [u64], line: &[u8]) -> u32
    ensures { StreamCall names.old line.now names.new result }
{
    number(stream_line::declare(names, line))
}

// ---- the record

// Returns the ledger of a fresh record: clock 0 and no rows.
#[unsafe(no_mangle)]
pub extern "C" fn maltziru_fresh() -> Ledger
    ensures { result ≡ begun }
{
    Ledger::new()
}

// The clock call. Returns the ledger with the time; refused, the ledger as it was.
#[unsafe(no_mangle)]
pub extern "C" fn maltziru_clock(ledger: Ledger, time: i64) -> LedgerReply
    ensures { result ≡ ledger_said (clock_call ledger time) }
{
    ledger_reply(ledger.clock(time))
}

// The row call: one row more of the stream of a number. Returns the ledger with one row more. Leaves the clock in the row's time and its values in their places,
// and all else as it was; refused, the ledger and all places as they were.
#[unsafe(no_mangle)]
pub extern "C" fn maltziru_row(
    ledger: Ledger,
    names: &[u64],
    stream: usize,
    row: &[i32],
    times: &mut [u32],
    values: &mut [i32],
) -> LedgerReply
    ensures { RowCalled (record { ledger = ledger; names = names.now; times = times.old; values = values.old }) stream row.now (record { ledger = result.ledger; names = names.now; times = times.new; values = values.new }) result.refusal }
{
    let r = ledger.row(names, stream, row, times, values);
    ledger_reply(r)
}

// The clear call. Returns the ledger with no rows and its clock; refused, the ledger as it was.
#[unsafe(no_mangle)]
pub extern "C" fn maltziru_clear(ledger: Ledger) -> LedgerReply
    ensures { result ≡ ledger_said (clear_call ledger) }
{
    ledger_reply(ledger.clear())
}

// The clock line, which does what the clock call does.
#[unsafe(no_mangle)]
pub extern "C" fn maltziru_clock_line(ledger: Ledger, line: &[u8]) -> LedgerReply
    ensures { result ≡ ledger_said (clock_line_call ledger line.now) }
{
    ledger_reply(record_lines::clock_line(ledger, line))
}

// The row line, which does what the row call does.
#[unsafe(no_mangle)]
pub extern "C" fn maltziru_row_line(
    ledger: Ledger,
    names: &[u64],
    line: &[u8],
    times: &mut [u32],
    values: &mut [i32],
) -> LedgerReply
    ensures { RowLineCalled (record { ledger = ledger; names = names.now; times = times.old; values = values.old }) line.now (record { ledger = result.ledger; names = names.now; times = times.new; values = values.new }) result.refusal }
{
    let r = record_lines::row_line(ledger, names, line, times, values);
    ledger_reply(r)
}

// The clear line, which does what the clear call does.
#[unsafe(no_mangle)]
pub extern "C" fn maltziru_clear_line(ledger: Ledger, line: &[u8]) -> LedgerReply
    ensures { result ≡ ledger_said (clear_line_call ledger line.now) }
{
    ledger_reply(record_lines::clear_line(ledger, line))
}

// ---- grants and callers

// The grant line, where `count` grants were accepted before. Returns the grant, which is of zeros where it is refused. Leaves the words of its conditions in its place
// and all others as they were; refused, all words as they were.
#[unsafe(no_mangle)]
pub extern "C" fn maltziru_grant(
    names: &[u64],
    count: usize,
    line: &[u8],
    words: &mut [u32],
) -> GrantReply
    ensures { GrantCall names.now count line.now words.old words.new result }
{
    let g = grant_line::grant(names, count, line, words);
    grant_reply(g)
}

// Returns the caller of no role and no profile entry.
#[unsafe(no_mangle)]
pub extern "C" fn maltziru_nobody() -> Caller
    ensures { result ≡ no_caller }
{
    Caller::new()
}

// The caller line. Returns the caller that the line names; refused, the caller as it was.
#[unsafe(no_mangle)]
pub extern "C" fn maltziru_caller(caller: Caller, line: &[u8]) -> CallerReply
    ensures { result ≡ caller_said (identified caller line.now) }
{
    caller_reply(caller.with_line(line))
}

// ---- queries

// Puts a query to the record for a caller, under the grants of a catalogue, with cells lent for its answer.
// Returns how many cells the answer takes, or the refusal. Leaves the answer in the first cells and the rest as it was; refused, all cells as they were.
#[unsafe(no_mangle)]
pub extern "C" fn maltziru_ask(
    grants: &[Grant],
    words: &[u32],
    ledger: Ledger,
    names: &[u64],
    times: &[u32],
    values: &[i32],
    caller: Caller,
    query: &[u8],
    cells: &mut [i64],
) -> Reply
    ensures { Replies (asked 0 (parse_query query.now) (record { memory = record { ledger = ledger; names = names.now; times = times.now; values = values.now }; grants = grants.now; granted = words.now; caller = caller }) query.now cells.old) cells.old cells.new result }
{
    let t = query_text::read_query(query, names);
    let x = catalogue::open_all(grants, query_text::asks(t), names, words, caller);
    ask::answered(t, x, ledger, names, times, values, words, caller, cells)
}

// Writes the line of a route of a query into lent bytes. Routes are numbered from 1.
// Returns how many bytes the line takes, or the refusal. Leaves the line in the first bytes and the rest as it was; refused, all bytes as they were.
#[unsafe(no_mangle)]
pub extern "C" fn maltziru_line(
    grants: &[Grant],
    words: &[u32],
    ledger: Ledger,
    names: &[u64],
    times: &[u32],
    values: &[i32],
    caller: Caller,
    route: i64,
    query: &[u8],
    bytes: &mut [u8],
) -> Reply
    ensures { LineReplies 0 (with_route route (parse_query query.now)) (record { memory = record { ledger = ledger; names = names.now; times = times.now; values = values.now }; grants = grants.now; granted = words.now; caller = caller }) query.now bytes.old bytes.new result }
{
    let t = query_text::read_query(query, names);
    let x = catalogue::open_all(grants, query_text::asks(t), names, words, caller);
    ask::lined(
        t, x, ledger, names, times, values, words, caller, route, bytes,
    )
}
