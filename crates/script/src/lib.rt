// One line of a script: what its verb's call does, with the record, the grants and the caller that the lines before it left.
#![tactic(auto)]

ghost use Rattle.std.specs.Prelude.{◌≡◌, ◌≤◌, ◌<◌, min, take};
ghost use Rattle.syntax.specs.Grammar as G;
ghost use Rattle.syntax.specs.Limits.{max_grants};
ghost use Rattle.syntax.specs.Readers.{parse_as, verb_of};
ghost use Rattle.refusal.specs.Results.{said_by, held_after};
ghost use Rattle.catalogue.specs.Callers.{roles_of, profile_of};
ghost use Rattle.catalogue.specs.Opened.{opened_in};
ghost use Rattle.ask.specs.Replies.{Replies};
ghost use Rattle.ask.specs.Asking.{asked, LineReplies};
ghost use Rattle.script.specs.States.{new_state, with_ledger_in, with_grant_in, with_caller_in, store_of, stepped_with};
ghost use Rattle.script.specs.Steps.{verb_in, verdict_said, reply_said, unread_said, Granting, Does};

use ask::Reply;
use caller::Caller;
use catalogue::Opened;
use grant::Grant;
use ledger::Ledger;
use needs::Needs;
use refusal::{Refusal, Refused};
use report::Message;
use text::{Line, Word};

// What goes from line to line beside lent memory: the ledger, the grants with how many were accepted, and the caller.
#[derive(Clone, Copy)]
pub struct State {
    pub ledger: Ledger,
    pub grants: [Grant; Grant::GRANTS],
    pub count: u32,
    pub caller: Caller,
}

// What a line says, and the state that it leaves.
#[derive(Clone, Copy)]
pub struct Stepped {
    pub state: State,
    pub says: Message,
}

// The first word of a line.
#[derive(Clone, Copy)]
pub enum Verb {
    Stream,
    Grant,
    Clock,
    Row,
    Clear,
    Caller,
    Ask,
    Line,
    Other,
}

// ---- states

impl State {
    // Returns the state before the first line: clock 0 and no rows, no grant, and the caller of no role and no entry.
    pub fn new() -> Self
        ensures { result ≡ new_state }
    {
        let g = grant_line::no_grant();
        let grants: [Grant; Grant::GRANTS] = [g; Grant::GRANTS];
        let l = Ledger::new();
        let who = Caller::new();
        State {
            ledger: l,
            grants: grants,
            count: 0,
            caller: who,
        }
    }

    fn with_ledger(self, l: Ledger) -> Self
        ensures { result ≡ with_ledger_in self l }
    {
        let grants = self.grants;
        let caller = self.caller;
        State {
            ledger: l,
            grants: grants,
            count: self.count,
            caller: caller,
        }
    }

    fn with_caller(self, who: Caller) -> Self
        ensures { result ≡ with_caller_in self who }
    {
        let l = self.ledger;
        let grants = self.grants;
        State {
            ledger: l,
            grants: grants,
            count: self.count,
            caller: who,
        }
    }

    // How many grants were accepted, as far as there are places.
    fn held(self) -> usize
        ensures { result ≡ min self.count max_grants }
    {
        (self.count as usize).min(Grant::GRANTS)
    }

    // A grant in a place, and no grant behind it.
    fn with_grant(self, n: usize, g: Grant) -> Self
        requires { n < max_grants }
        ensures { result ≡ with_grant_in self n g }
    {
        let l = self.ledger;
        let mut grants = self.grants;
        grants[n] = g;
        let who = self.caller;
        State {
            ledger: l,
            grants: grants,
            count: (n + 1) as u32,
            caller: who,
        }
    }
}

// ---- what is said

fn said(s: State, r: Result<(), Refusal>) -> Stepped
    ensures { result ≡ stepped_with s (verdict_said r) }
{
    match r {
        Ok(()) => Stepped {
            state: s,
            says: Message::Quiet,
        },
        Err(f) => Stepped {
            state: s,
            says: Message::Refusal(f.number()),
        },
    }
}

// A query's reply: its refusal, or what is said where there is none.
fn replied(s: State, r: Reply, written: Message) -> Stepped
    ensures { result ≡ stepped_with s (reply_said r written) }
{
    if r.refusal != 0 {
        return Stepped {
            state: s,
            says: Message::Refusal(r.refusal),
        };
    }
    Stepped {
        state: s,
        says: written,
    }
}

// A line of no verb is too long, or of no form.
fn unread(s: State, bytes: usize) -> Stepped
    ensures { result ≡ stepped_with s (unread_said bytes) }
{
    if Line::BYTES < bytes {
        return said(s, Err(Refusal::Bound));
    }
    said(s, Err(Refusal::Malformed))
}

// The ledger that a line gives, or with a refusal the one that it gives back.
fn entered(s: State, r: Result<Ledger, Refused<Ledger>>) -> Stepped
    ensures { result ≡ stepped_with (with_ledger_in s (held_after r)) (verdict_said (said_by r)) }
{
    match r {
        Ok(l) => said(s.with_ledger(l), Ok(())),
        Err(e) => said(s.with_ledger(e.held), Err(e.refusal)),
    }
}

// The same of a caller.
fn identified(s: State, r: Result<Caller, Refused<Caller>>) -> Stepped
    ensures { result ≡ stepped_with (with_caller_in s (held_after r)) (verdict_said (said_by r)) }
{
    match r {
        Ok(who) => said(s.with_caller(who), Ok(())),
        Err(e) => said(s.with_caller(e.held), Err(e.refusal)),
    }
}

// ---- lines

// The verb that a text begins with.
fn verb_of(s: &[u8]) -> Verb
    ensures { verb_in result ≡ verb_of s.now }
{
    if text::byte(s, 0) != b'(' {
        return Verb::Other;
    }
    let w = text::word_at(s, 1);
    let code = w.code;
    match code {
        Word::STREAM => Verb::Stream,
        Word::GRANT => Verb::Grant,
        Word::CLOCK => Verb::Clock,
        Word::ROW => Verb::Row,
        Word::CLEAR => Verb::Clear,
        Word::CALLER => Verb::Caller,
        Word::ASK => Verb::Ask,
        Word::LINE => Verb::Line,
        _ => Verb::Other,
    }
}

// A grant line: an accepted grant goes behind the others.
fn granted(s: State, names: &[u64], line: &[u8], words: &mut [u32]) -> Stepped
    ensures { Granting s names.now line.now words.old words.new result }
{
    let n = s.held();
    match grant_line::grant(names, n, line, words) {
        Ok(g) => said(s.with_grant(n, g), Ok(())),
        Err(e) => said(s, Err(e.refusal)),
    }
}

// What the first grants of an array open for a caller and a query, and whether they may be lent.
fn opened(
    grants: [Grant; Grant::GRANTS],
    count: usize,
    n: Needs,
    names: &[u64],
    words: &[u32],
    who: Caller,
) -> Opened
    requires { count ≤ max_grants }
    ensures { result ≡ opened_in n names.now (take count grants) words.now (roles_of who) (profile_of who) }
{
    let mut o = Opened::none(count, words.len());
    for i in 0..count {
        let g = grants[i];
        o = o.with_caller(n, i as u32, g, names, words, who);
    }
    o
}

// An `ask` line under the first grants of an array.
fn asked(
    grants: [Grant; Grant::GRANTS],
    n: usize,
    words: &[u32],
    l: Ledger,
    names: &[u64],
    times: &[u32],
    values: &[i32],
    who: Caller,
    line: &[u8],
    cells: &mut [i64],
) -> Reply
    requires { n ≤ max_grants }
    ensures { Replies (asked 1 (parse_as G.ask line.now) (record { memory = record { ledger = l; names = names.now; times = times.now; values = values.now }; grants = take n grants; granted = words.now; caller = who }) line.now cells.old) cells.old cells.new result }
{
    let t = query_text::read_ask(line, names);
    let x = opened(grants, n, query_text::asks(t), names, words, who);
    ask::answered(t, x, l, names, times, values, words, who, cells)
}

// A `line` line, likewise.
fn lined(
    grants: [Grant; Grant::GRANTS],
    n: usize,
    words: &[u32],
    l: Ledger,
    names: &[u64],
    times: &[u32],
    values: &[i32],
    who: Caller,
    line: &[u8],
    bytes: &mut [u8],
) -> Reply
    requires { n ≤ max_grants }
    ensures { LineReplies 1 (parse_as G.line line.now) (record { memory = record { ledger = l; names = names.now; times = times.now; values = values.now }; grants = take n grants; granted = words.now; caller = who }) line.now bytes.old bytes.new result }
{
    let t = query_text::read_line(line, names);
    let x = opened(grants, n, query_text::asks(t), names, words, who);
    ask::lined(t, x, l, names, times, values, words, who, t.number, bytes)
}

// Does one line of a script, with memory lent for the record, for the words of the grants' conditions, and for what an `ask` and a `line` write.
// Returns what it says, and the state for the next line. Leaves lent memory as the call of the line's verb does; refused, all as it was.
pub fn step(
    state: State,
    names: &mut [u64],
    times: &mut [u32],
    values: &mut [i32],
    words: &mut [u32],
    line: &[u8],
    cells: &mut [i64],
    bytes: &mut [u8],
) -> Stepped
    ensures { Does line.now cells.old bytes.old (verb_of line.now) (store_of state names.old times.old values.old words.old) (store_of result.state names.new times.new values.new words.new) cells.new bytes.new result.says }
{
    let l = state.ledger;
    let who = state.caller;
    let v = verb_of(line);
    match v {
        Verb::Stream => {
            let d = stream_line::declare(names, line);
            said(state, d)
        }
        Verb::Grant => granted(state, names, line, words),
        Verb::Clock => entered(state, record_lines::clock_line(l, line)),
        Verb::Row => entered(state, record_lines::row_line(l, names, line, times, values)),
        Verb::Clear => entered(state, record_lines::clear_line(l, line)),
        Verb::Caller => identified(state, who.with_line(line)),
        Verb::Ask => {
            let grants = state.grants;
            let n = state.held();
            let r = asked(grants, n, words, l, names, times, values, who, line, cells);
            replied(state, r, Message::Cells(r.count))
        }
        Verb::Line => {
            let grants = state.grants;
            let n = state.held();
            let r = lined(grants, n, words, l, names, times, values, who, line, bytes);
            replied(state, r, Message::Text(r.count))
        }
        Verb::Other => unread(state, line.len()),
    }
}
