// The query of a line: its checks, and the table of its forms.
#![tactic(auto)]

ghost use Rattle.std.specs.Prelude.{◌≡◌, ◌&&◌, ◌≤◌};
ghost use Rattle.syntax.specs.Limits.{max_forms};
ghost use Rattle.masks.specs.Masks.{bit?};
ghost use Rattle.query_line.specs.Placing.{no_side, sideless, begun, with_rows, unpicked, with_pick, unkept, with_keep, links, unjoined, with_join, ungrouped, unfitting, with_aggregate, with_form};
ghost use Rattle.query_line.specs.Asking.{placing_of, asked_of, unread_asked, Asks};
ghost use Rattle.query_line.specs.Texts.{unread_routed, routed_of, QueryTold, AskTold, RouteTold};

use query::{Form, Query};
use query_read::Reading;
use refusal::Checks;
use schema::Stream;
use text::{Line, Number, Word};

// A query that is passed: its columns as bits, whether it has a join and whether an aggregate.
#[derive(Clone, Copy)]
pub struct Side {
    pub mask: u32,
    pub joined: bool,
    pub grouped: bool,
}

// How far checks 4 and 5 have come, from the last form to the first: the last two queries that are passed, the streams seen, and whether a check fails.
#[derive(Clone, Copy)]
pub struct Placing {
    pub top: Side,
    pub under: Side,
    pub seen: u32,
    pub misplaced: bool,
    pub window: bool,
}

impl Placing {
    // The bits of `time`, of the aggregate's column and of a number.
    pub const TIME: u32 = 16777216;

    pub const FIGURE: u32 = 33554432;

    pub const NUMBER: u32 = 67108864;
    // How many offsets a window's size may have.
    pub const OVERLAP: u64 = 64;
}

// What is read of a query: its checks, and the table of its forms.
#[derive(Clone, Copy)]
pub struct Asked {
    pub next: usize,
    pub checks: Checks,
    pub query: Query,
}

// A route's number, clamped where it is beyond every range, and a query.
#[derive(Clone, Copy)]
pub struct Routed {
    pub route: i64,
    pub asked: Asked,
}

fn no_side() -> Side
    ensures { result ≡ no_side }
{
    Side {
        mask: 0,
        joined: false,
        grouped: false,
    }
}

// Whether a query may be no side of a join.
fn sideless(t: Side) -> bool
    ensures { result ≡ sideless t }
{
    if t.joined {
        return true;
    }
    t.grouped
}

// No form is passed yet.
fn begun() -> Placing
    ensures { result ≡ begun }
{
    let top = no_side();
    let under = no_side();
    Placing {
        top: top,
        under: under,
        seen: 0,
        misplaced: false,
        window: false,
    }
}

// A stream's rows.
fn with_rows(p: Placing, names: &[u64], s: u32) -> Placing
    ensures { result ≡ with_rows names.now p s }
{
    let mask = grant::stream_columns(names, s);
    let top = Side {
        mask: mask,
        joined: false,
        grouped: false,
    };
    let under = p.top;
    let again = masks::shows(p.seen, s);
    let misplaced = text::either(p.misplaced, again);
    let seen = masks::with(p.seen, s);
    Placing {
        top: top,
        under: under,
        seen: seen,
        misplaced: misplaced,
        window: p.window,
    }
}

// Whether the terms of a condition are not those of a query's columns, or stand where they may not.
fn unpicked(mask: u32, lefts: u32, rights: u32) -> bool
    ensures { result ≡ unpicked mask lefts rights }
{
    if !masks::within(lefts, masks::either(mask, Placing::TIME)) {
        return true;
    }
    !masks::within(rights, masks::either(mask, Placing::NUMBER))
}

// A pick.
fn with_pick(p: Placing, lefts: u32, rights: u32) -> Placing
    ensures { result ≡ with_pick p lefts rights }
{
    let top = p.top;
    let under = p.under;
    let misplaced = text::either(p.misplaced, unpicked(top.mask, lefts, rights));
    Placing {
        top: top,
        under: under,
        seen: p.seen,
        misplaced: misplaced,
        window: p.window,
    }
}

// Whether columns are not those of a query, or it has an aggregate.
fn unkept(t: Side, mask: u32) -> bool
    ensures { result ≡ unkept t mask }
{
    if t.grouped {
        return true;
    }
    !masks::within(mask, t.mask)
}

// A keep.
fn with_keep(p: Placing, mask: u32) -> Placing
    ensures { result ≡ with_keep p mask }
{
    let t = p.top;
    let under = p.under;
    let misplaced = text::either(p.misplaced, unkept(t, mask));
    let top = Side {
        mask: mask,
        joined: t.joined,
        grouped: t.grouped,
    };
    Placing {
        top: top,
        under: under,
        seen: p.seen,
        misplaced: misplaced,
        window: p.window,
    }
}

// Whether one mask has a bit and another mask another.
fn both(l: u32, r: u32, a: u32, b: u32) -> bool
    ensures { result ≡ (bit? l a && bit? r b) }
{
    if !masks::shows(l, a) {
        return false;
    }
    masks::shows(r, b)
}

// Whether each of two masks has one of two bits.
fn links(l: u32, r: u32, a: u32, b: u32) -> bool
    ensures { result ≡ links l r a b }
{
    text::either(both(l, r, a, b), both(l, r, b, a))
}

// Whether two queries may not be joined by two columns.
fn unjoined(l: Side, r: Side, a: u32, b: u32) -> bool
    ensures { result ≡ unjoined l r a b }
{
    if sideless(l) {
        return true;
    }
    if sideless(r) {
        return true;
    }
    !links(l.mask, r.mask, a, b)
}

// A join.
fn with_join(p: Placing, a: u32, b: u32) -> Placing
    ensures { result ≡ with_join p a b }
{
    let l = p.top;
    let under = p.under;
    let misplaced = text::either(p.misplaced, unjoined(l, under, a, b));
    let mask = masks::either(l.mask, under.mask);
    let top = Side {
        mask: mask,
        joined: true,
        grouped: false,
    };
    Placing {
        top: top,
        under: under,
        seen: p.seen,
        misplaced: misplaced,
        window: p.window,
    }
}

// Whether a SIZE and an OFFSET do not fit each other.
fn unfitting(size: u32, offset: u32) -> bool
    ensures { result ≡ unfitting size offset }
{
    if size == 0 {
        return true;
    }
    if offset == 0 {
        return true;
    }
    Placing::OVERLAP * (offset as u64) < size as u64
}

// Whether a column is not one of a query, or it has an aggregate.
fn ungrouped(t: Side, code: u32) -> bool
    ensures { result ≡ ungrouped t code }
{
    if t.grouped {
        return true;
    }
    !masks::shows(t.mask, code)
}

// An aggregate.
fn with_aggregate(p: Placing, code: u32, size: u32, offset: u32) -> Placing
    ensures { result ≡ with_aggregate p code size offset }
{
    let t = p.top;
    let under = p.under;
    let misplaced = text::either(p.misplaced, ungrouped(t, code));
    let window = text::either(p.window, unfitting(size, offset));
    let top = Side {
        mask: Placing::FIGURE,
        joined: t.joined,
        grouped: true,
    };
    Placing {
        top: top,
        under: under,
        seen: p.seen,
        misplaced: misplaced,
        window: window,
    }
}

// One form more, in front of the last query that is passed.
fn with_form(p: Placing, names: &[u64], f: Form, lefts: u32, rights: u32) -> Placing
    ensures { result ≡ with_form names.now p f lefts rights }
{
    if f.kind == Form::ROWS {
        return with_rows(p, names, f.first);
    }
    if f.kind == Form::PICK {
        return with_pick(p, lefts, rights);
    }
    if f.kind == Form::KEEP {
        return with_keep(p, lefts);
    }
    if f.kind == Form::JOIN {
        return with_join(p, f.first, f.second);
    }
    with_aggregate(p, f.second, f.third, f.fourth)
}

// Checks 4 and 5 of all forms.
fn placed(r: Reading, names: &[u64]) -> Placing
    requires { r.count ≤ max_forms }
    ensures { result ≡ placing_of names.now r }
{
    let mut p = begun();
    for n in (0..r.count as usize).rev() {
        let f = r.forms[n];
        p = with_form(p, names, f, r.lefts[n], r.rights[n]);
    }
    p
}

// No query was read: the text is too long, or of another form.
fn unread(long: bool) -> Asked
    ensures { result ≡ unread_asked long }
{
    let checks = Checks::unread(long);
    let query = Query::new();
    Asked {
        next: 0,
        checks: checks,
        query: query,
    }
}

// A query by what is read of its forms.
fn asked_of(r: Reading, p: Placing) -> Asked
    ensures { result ≡ asked_of r p }
{
    let checks = Checks::shown(r.over, r.unknown, r.repeated, p.misplaced, p.window);
    let forms = r.forms;
    let query = Query {
        forms: forms,
        len: r.count,
    };
    Asked {
        next: r.next,
        checks: checks,
        query: query,
    }
}

// Returns the query at a place of a line, its checks by themselves and the place after it; None where there is none, the line is too long or fewer than Reading::WORDS words are lent.
// Leaves the words of its conditions from the first word on, and all others as they were; where it is not read or out of bounds, as many words, of any value.
pub fn read(s: &[u8], at: usize, names: &[u64], words: &mut [u32]) -> Option<Asked>
    ensures { Asks names.now s.now at words.old words.new result }
{
    let r = query_read::read(s, at, names, words)?;
    let p = placed(r, names);
    Some(asked_of(r, p))
}

// ---- whole texts

// Returns a query by its text alone: its checks as the text's, and the table of its forms.
// Leaves the words of its conditions from the first word on, and all others as they were; where it is not read or out of bounds, as many words, of any value.
pub fn query_text(s: &[u8], names: &[u64], words: &mut [u32]) -> Asked
    ensures { QueryTold names.now s.now words.old words.new result }
{
    if Line::BYTES < s.len() {
        return unread(true);
    }
    let Some(a) = read(s, 0, names, words) else {
        return unread(false);
    };
    if a.next != s.len() {
        return unread(false);
    }
    a
}

// Returns the query of an `ask` line: its checks as the line's, and the table of its forms.
// Leaves the words as `query_text` does.
pub fn ask_line(s: &[u8], names: &[u64], words: &mut [u32]) -> Asked
    ensures { AskTold names.now s.now words.old words.new result }
{
    let at = match Line::after(s, Word::ASK) {
        Ok(at) => at,
        Err(e) => return unread(e.long()),
    };
    let Some(p) = text::skip(s, at, b' ') else {
        return unread(false);
    };
    let Some(a) = read(s, p, names, words) else {
        return unread(false);
    };
    if !text::closes_at(s, a.next) {
        return unread(false);
    }
    a
}

fn unread_route(long: bool) -> Routed
    ensures { result ≡ unread_routed long }
{
    let asked = unread(long);
    Routed {
        route: 0,
        asked: asked,
    }
}

fn routed_of(n: Number, a: Asked) -> Routed
    ensures { result ≡ routed_of n.value a }
{
    Routed {
        route: n.value,
        asked: a,
    }
}

// Returns the route's number and the query of a `line` line: its checks as the line's, and the table of its forms.
// Leaves the words as `query_text` does.
pub fn route_line(s: &[u8], names: &[u64], words: &mut [u32]) -> Routed
    ensures { RouteTold names.now s.now words.old words.new result }
{
    let at = match Line::after(s, Word::LINE) {
        Ok(at) => at,
        Err(e) => return unread_route(e.long()),
    };
    let Some(p) = text::skip(s, at, b' ') else {
        return unread_route(false);
    };
    let Some(n) = text::read_number(s, p) else {
        return unread_route(false);
    };
    let Some(q) = text::skip(s, n.next, b' ') else {
        return unread_route(false);
    };
    let Some(a) = read(s, q, names, words) else {
        return unread_route(false);
    };
    if !text::closes_at(s, a.next) {
        return unread_route(false);
    }
    routed_of(n, a)
}
