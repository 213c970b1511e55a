// The grant call: a line, and the grant with its conditions in the words of its place.
#![tactic(auto)]

ghost use Rattle.std.specs.Prelude.{◌≡◌, ◌&&◌, not, ◌+◌, ◌≤◌, ◌<◌, ltb, eqb, length};
ghost use Rattle.std.proofs.Math.Seq.{paste};
ghost use Rattle.syntax.specs.Limits.{max_line};
ghost use Rattle.text.specs.Words.{name_of};
ghost use Rattle.masks.specs.Masks.{inside};
ghost use Rattle.grant.specs.Grants.{grant_words, no_time};
ghost use Rattle.grant_line.specs.Parts.{holder_at, of_at, shown_all, shown_listed, star_at, show_at, WhenRead, limit_at, span_at, window_at};
ghost use Rattle.grant_line.specs.Lines.{over_read, misplaced_read, grant_read, line_read, no_grant, unread_line, RestRead, LineRead};
ghost use Rattle.grant_line.specs.Granting.{lent_sound, Grants};

use columns::{Columns, Streams};
use conditions::Seen;
use grant::Grant;
use nodes::Node;
use refusal::{Checks, Refused};
use text::{Line, Word};

// Whose a grant is, and its right by number.
#[derive(Clone, Copy)]
pub struct Holder {
    pub long: bool,
    pub role: u64,
    pub right: u32,
    pub next: usize,
}

// What a grant shows: all columns, or those of a mask.
#[derive(Clone, Copy)]
pub struct Shown {
    pub all: bool,
    pub over: bool,
    pub unknown: bool,
    pub repeated: bool,
    pub mask: u32,
    pub next: usize,
}

// A first or a last time.
#[derive(Clone, Copy)]
pub struct Limit {
    pub over: bool,
    pub value: u32,
    pub next: usize,
}

// A window.
#[derive(Clone, Copy)]
pub struct Window {
    pub given: bool,
    pub over: bool,
    pub size: u32,
    pub offset: u32,
    pub next: usize,
}

// The parts after the conditions, which go together.
#[derive(Clone, Copy)]
pub struct Rest {
    pub from: Limit,
    pub to: Limit,
    pub window: Window,
}

// What is read of a grant line: what is wrong with it by itself, and its grant.
#[derive(Clone, Copy)]
pub struct GrantLine {
    pub checks: Checks,
    pub grant: Grant,
}

// ---- the parts

// A role and a right, each after a space.
fn holder_at(s: &[u8], at: usize) -> Option<Holder>
    ensures { result ≡ holder_at s.now at }
{
    let p = text::skip(s, at, b' ')?;
    let n = text::read_name(s, p)?;
    let q = text::skip(s, n.next, b' ')?;
    let w = text::read_word(s, q)?;
    let right = w.as_right()?;
    Some(Holder {
        long: n.long,
        role: n.code,
        right: right,
        next: w.next,
    })
}

// The streams of a grant.
fn of_at(s: &[u8], at: usize, names: &[u64]) -> Option<Streams>
    ensures { result ≡ of_at names.now s.now at }
{
    let p = text::part(s, at, Word::OF)?;
    let o = columns::streams_at(s, p, names)?;
    if o.count == 0 {
        return None;
    }
    let end = text::skip(s, o.next, b')')?;
    Some(Streams { next: end, ..o })
}

// Every column is shown.
fn shown_all(next: usize) -> Shown
    ensures { result ≡ shown_all next }
{
    Shown {
        all: true,
        over: false,
        unknown: false,
        repeated: false,
        mask: 0,
        next: next,
    }
}

// Some columns are shown.
fn shown_listed(c: Columns, next: usize) -> Shown
    ensures { result ≡ shown_listed c next }
{
    Shown {
        all: false,
        over: c.over,
        unknown: c.unknown,
        repeated: c.repeated,
        mask: c.mask,
        next: next,
    }
}

// `*` before a closing bracket.
fn star_at(s: &[u8], at: usize) -> Option<Shown>
    ensures { result ≡ star_at s.now at }
{
    let w = text::read_word(s, at)?;
    if w.code != Word::STAR {
        return None;
    }
    let end = text::skip(s, w.next, b')')?;
    Some(shown_all(end))
}

// What a grant shows.
fn show_at(s: &[u8], at: usize, names: &[u64]) -> Option<Shown>
    ensures { result ≡ show_at names.now s.now at }
{
    let p = text::part(s, at, Word::SHOW)?;
    let first = text::skip(s, p, b' ')?;
    if text::byte(s, first) == b'*' {
        return star_at(s, first);
    }
    let c = columns::columns_at(s, p, names, false)?;
    Some(shown_listed(c, c.next + 1))
}

// The conditions of a grant, where it has some.
fn when_at(s: &[u8], at: usize, names: &[u64], words: &mut [u32]) -> Option<Seen>
    requires { (length s.now ≤ max_line) × (at ≤ length s.now) }
    ensures { WhenRead names.now s.now at words.old words.new result }
{
    let Some(p) = text::part(s, at, Word::WHEN) else {
        return Some(conditions::begun(at, 0));
    };
    // The brackets of the line and of this part are open.
    let i = conditions::read_list(s, p, names, words, Node::NESTING as u32)?;
    Some(Seen {
        next: i.next + 1,
        ..i
    })
}

// A first or a last time by its word, where it is given.
fn limit_at(s: &[u8], at: usize, word: u64) -> Option<Limit>
    requires { (0 < word) × (at ≤ length s.now) }
    ensures { result ≡ limit_at s.now at (name_of word) }
{
    let Some(p) = text::part(s, at, word) else {
        return Some(Limit {
            over: false,
            value: Grant::NONE,
            next: at,
        });
    };
    let q = text::skip(s, p, b' ')?;
    let n = text::read_number(s, q)?;
    let end = text::skip(s, n.next, b')')?;
    let t = n.time();
    Some(Limit {
        over: t.is_none(),
        value: t.unwrap_or(0),
        next: end,
    })
}

// The two numbers of a window, each after a space, and its bracket.
fn span_at(s: &[u8], at: usize) -> Option<Window>
    ensures { result ≡ span_at s.now at }
{
    let p = text::skip(s, at, b' ')?;
    let a = text::read_number(s, p)?;
    let q = text::skip(s, a.next, b' ')?;
    let b = text::read_number(s, q)?;
    let end = text::skip(s, b.next, b')')?;
    let t = a.time();
    let u = b.time();
    let over = text::either(t.is_none(), u.is_none());
    Some(Window {
        given: true,
        over: over,
        size: t.unwrap_or(0),
        offset: u.unwrap_or(0),
        next: end,
    })
}

// The window of a grant, where it has one.
fn window_at(s: &[u8], at: usize) -> Option<Window>
    requires { at ≤ length s.now }
    ensures { result ≡ window_at s.now at }
{
    let Some(p) = text::part(s, at, Word::WINDOW) else {
        return Some(Window {
            given: false,
            over: false,
            size: 0,
            offset: 0,
            next: at,
        });
    };
    span_at(s, p)
}

// ---- the line

// Nothing was read: the line is too long, or of another form.
fn unread(long: bool) -> GrantLine
    ensures { result ≡ unread_line long }
{
    let checks = Checks::unread(long);
    let grant = no_grant();
    GrantLine {
        checks: checks,
        grant: grant,
    }
}

// Returns a grant of zeros.
pub fn no_grant() -> Grant
    ensures { result ≡ no_grant }
{
    Grant {
        role: 0,
        right: 0,
        count: 0,
        streams: [0; schema::Stream::MOST],
        shown: 0,
        words: 0,
        from: 0,
        to: 0,
        size: 0,
        offset: 0,
    }
}

// Whether one of the parts is out of bounds.
fn over_of(h: Holder, o: Streams, w: Shown, c: Seen, e: Rest) -> bool
    ensures { result ≡ over_read h o w c e.from e.to e.window }
{
    if h.long {
        return true;
    }
    if o.over {
        return true;
    }
    if w.over {
        return true;
    }
    if c.over {
        return true;
    }
    if c.deep {
        return true;
    }
    if e.from.over {
        return true;
    }
    if e.to.over {
        return true;
    }
    e.window.over
}

// Whether a column is shown that is none of the grant's streams.
fn shows_other(columns: u32, w: Shown) -> bool
    ensures { result ≡ (not w.all && not (inside w.mask columns)) }
{
    if w.all {
        return false;
    }
    !masks::within(w.mask, columns)
}

// Whether the first time is above the last.
fn unordered(f: Limit, t: Limit) -> bool
    ensures { result ≡ (not (eqb f.value no_time) && ltb t.value f.value) }
{
    if f.value == Grant::NONE {
        return false;
    }
    t.value < f.value
}

// Check 4: more streams than a grant may name; a column that is not theirs; a term that may not stand there; `from` above `to`; a window with `read`.
fn misplaced(columns: u32, h: Holder, o: Streams, w: Shown, c: Seen, e: Rest) -> bool
    ensures { result ≡ misplaced_read columns h o w c e.from e.to e.window }
{
    if Grant::STREAMS < o.count {
        return true;
    }
    if shows_other(columns, w) {
        return true;
    }
    if !masks::within(c.lefts, columns) {
        return true;
    }
    if !masks::within(c.rights, columns | Grant::OTHERS) {
        return true;
    }
    if unordered(e.from, e.to) {
        return true;
    }
    if h.right != Grant::READ {
        return false;
    }
    e.window.given
}

// The grant of the parts.
fn grant_of(columns: u32, h: Holder, o: Streams, w: Shown, c: Seen, e: Rest) -> Grant
    ensures { result ≡ grant_read columns h o w c e.from e.to e.window }
{
    let streams = o.places;
    let shown = if w.all { columns } else { w.mask };
    Grant {
        role: h.role,
        right: h.right,
        count: o.count,
        streams: streams,
        shown: shown,
        words: c.count,
        from: e.from.value,
        to: e.to.value,
        size: e.window.size,
        offset: e.window.offset,
    }
}

// The line of the parts.
fn line_of(names: &[u64], h: Holder, o: Streams, w: Shown, c: Seen, e: Rest) -> GrantLine
    ensures { result ≡ line_read names.now h o w c e.from e.to e.window }
{
    let streams = o.places;
    let columns = grant::columns_mask(names, o.count, streams);
    let over = over_of(h, o, w, c, e);
    let some = text::either(o.unknown, w.unknown);
    let unknown = text::either(some, c.unknown);
    let repeated = text::either(o.repeated, w.repeated);
    let checks = Checks::shown(
        over,
        unknown,
        repeated,
        misplaced(columns, h, o, w, c, e),
        false,
    );
    let grant = grant_of(columns, h, o, w, c, e);
    GrantLine {
        checks: checks,
        grant: grant,
    }
}

// What follows the conditions, and the line of all parts.
fn read_rest(s: &[u8], names: &[u64], h: Holder, o: Streams, w: Shown, c: Seen) -> GrantLine
    requires { c.next ≤ length s.now }
    ensures { RestRead names.now s.now h o w c result }
{
    let Some(f) = limit_at(s, c.next, Word::FROM) else {
        return unread(false);
    };
    let Some(t) = limit_at(s, f.next, Word::TO) else {
        return unread(false);
    };
    let Some(x) = window_at(s, t.next) else {
        return unread(false);
    };
    if !text::closes_at(s, x.next) {
        return unread(false);
    }
    let e = Rest {
        from: f,
        to: t,
        window: x,
    };
    line_of(names, h, o, w, c, e)
}

// The grant line that a text is, its conditions in the words. This decides refusal 1 of the grant call.
fn read(s: &[u8], names: &[u64], words: &mut [u32]) -> GrantLine
    requires { length words.old ≡ grant_words }
    ensures { LineRead names.now s.now words.old words.new result }
{
    let at = match Line::after(s, Word::GRANT) {
        Ok(at) => at,
        Err(e) => return unread(e.long()),
    };
    let Some(h) = holder_at(s, at) else {
        return unread(false);
    };
    let Some(o) = of_at(s, h.next, names) else {
        return unread(false);
    };
    let Some(w) = show_at(s, o.next, names) else {
        return unread(false);
    };
    let Some(c) = when_at(s, w.next, names, words) else {
        return unread(false);
    };
    read_rest(s, names, h, o, w, c)
}

// ---- the call

// Whether a schema, a number of grants and so many words may be lent.
fn lendable(names: &[u64], count: usize, room: usize) -> bool
    ensures { result ≡ lent_sound names.now count room }
{
    if !schema::sound(names) {
        return false;
    }
    if Grant::GRANTS < count {
        return false;
    }
    Grant::WORDS <= room
}

// The first n words of some in the places from one on.
fn copy(words: &mut [u32], at: usize, from: &[u32], n: usize)
    requires { (n ≤ length from.now) × (at + n ≤ length words.old) }
    ensures { words.new ≡ paste words.old at from.now n }
{
    words[at..at + n].copy_from_slice(&from[..n]);
}

// The grant line, where `count` grants were accepted before. Returns the grant, or the refusal with a grant of zeros.
// Leaves the words of its conditions in its place, and all others as they were; refused, all words as they were.
pub fn grant(
    names: &[u64],
    count: usize,
    line: &[u8],
    words: &mut [u32],
) -> Result<Grant, Refused<Grant>>
    ensures { Grants names.now count line.now words.old words.new result }
{
    let mut local = [0u32; Grant::PLACE];
    let l = read(line, names, &mut local);
    let mut checks = l.checks;
    checks.lent = !lendable(names, count, words.len());
    checks.bound = text::either(checks.bound, Grant::GRANTS <= count);
    match checks.result() {
        Ok(()) => {
            let g = l.grant;
            copy(words, count * Grant::PLACE, &local, g.words as usize);
            Ok(g)
        }
        Err(refusal) => Err(Refused {
            refusal,
            held: no_grant(),
        }),
    }
}
