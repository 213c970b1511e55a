// The forms of a query in a line: read one after another, with no recursion, into a table of forms and the words of their conditions.
#![tactic(auto)]

ghost use Rattle.std.specs.Prelude.{◌≡◌, ◌+◌, ◌*◌, ◌≤◌, ◌<◌, length};
ghost use Rattle.syntax.specs.Grammar.{numbered_fn};
ghost use Rattle.syntax.specs.Limits.{max_line, max_forms};
ghost use Rattle.syntax.specs.Readers.{k_in, k_pick, k_keep, k_join, k_fn};
ghost use Rattle.query_read.specs.Seeing.{deep, level, span_of, no_form, rows_own, pick_own, keep_own, join_own, aggregate_own, with_own, no_reading, reading_ended, max_words, FormRead};
ghost use Rattle.query_read.specs.Steps.{part_at, PartRead, OwnRead, max_open, after_form};

use columns::Columns;
use conditions::Seen;
use query::{Form, Query};
use schema::Stream;
use terms::Term;
use text::{Line, Number, Time, Word};

// One form by itself, up to its closing bracket or to the form inside it. `over`: it is out of bounds. `words` words are stored after it;
// `lefts` and `rights` are the codes of its condition's terms as bits, and `lefts` those of a keep's columns.
#[derive(Clone, Copy)]
pub struct Own {
    pub next: usize,
    pub over: bool,
    pub unknown: bool,
    pub repeated: bool,
    pub words: u32,
    pub lefts: u32,
    pub rights: u32,
    pub form: Form,
}

// SIZE and OFFSET of an aggregate.
#[derive(Clone, Copy)]
pub struct Spans {
    pub size: Time,
    pub offset: Time,
}

// The forms of a query, the first Query::FORMS of them in a table, and what is wrong with them by themselves.
#[derive(Clone, Copy)]
pub struct Reading {
    pub next: usize,
    pub over: bool,
    pub unknown: bool,
    pub repeated: bool,
    pub words: u32,
    pub count: u32,
    pub forms: [Form; Reading::FORMS],
    pub lefts: [u32; Reading::FORMS],
    pub rights: [u32; Reading::FORMS],
}

impl Reading {
    // How many forms a query may have besides its conditions.
    pub const FORMS: usize = Query::FORMS as usize;
    // How many words are lent for the conditions of a query: every word costs five bytes of a line or more.
    pub const WORDS: usize = 102;

    // Returns Reading::WORDS, which is the number of the definitions.
    pub fn room() -> usize
        ensures { result ≡ max_words }
    {
        Reading::WORDS
    }
}

// After a form: the outermost ended at a place, or the next one begins there, with so many forms open.
#[derive(Clone, Copy)]
pub enum Next {
    Ended(usize),
    Inside { at: usize, nest: usize },
}

impl Next {
    // How many forms can be open at once: each takes four bytes of a line or more.
    pub const MOST: usize = Line::BYTES / 4;
}

// ---- one form by itself

fn no_form() -> Form
    ensures { result ≡ no_form }
{
    Form {
        kind: Form::ROWS,
        first: 0,
        second: 0,
        third: 0,
        fourth: 0,
    }
}

// Whether a form inside n others nests too deep by its own bracket.
fn is_deep(n: usize) -> bool
    ensures { result ≡ deep n }
{
    Line::DEPTH <= n
}

// How many brackets a condition of a form inside n others may open.
fn level(n: usize) -> u32
    ensures { result ≡ level n }
{
    if Line::DEPTH <= n {
        return 0;
    }
    (Line::DEPTH - 1 - n) as u32
}

// A SIZE or an OFFSET up to the highest, and else 0; below 0 it counts as 0.
fn span_of(n: Number) -> Time
    ensures { result ≡ span_of n.value }
{
    let v = n.value;
    if v < 0 {
        return Time {
            beyond: false,
            value: 0,
        };
    }
    if Number::MOST < v {
        return Time {
            beyond: true,
            value: 0,
        };
    }
    Time {
        beyond: false,
        value: v as u32,
    }
}

// A stream's rows.
fn rows_own(b: u32, n: usize, long: bool, place: u32, next: usize) -> Own
    ensures { result ≡ rows_own b n long place next }
{
    let over = text::either(is_deep(n), long);
    let form = Form {
        kind: Form::ROWS,
        first: place,
        second: 0,
        third: 0,
        fourth: 0,
    };
    Own {
        next: next,
        over: over,
        unknown: place == Stream::MOST as u32,
        repeated: false,
        words: b,
        lefts: 0,
        rights: 0,
        form: form,
    }
}

// A pick by what is seen of its condition.
fn pick_own(i: Seen, next: usize) -> Own
    ensures { result ≡ pick_own i next }
{
    let over = text::either(i.deep, i.over);
    let form = Form {
        kind: Form::PICK,
        first: i.count,
        second: 0,
        third: 0,
        fourth: 0,
    };
    Own {
        next: next,
        over: over,
        unknown: i.unknown,
        repeated: false,
        words: i.count,
        lefts: i.lefts,
        rights: i.rights,
        form: form,
    }
}

// A keep by its columns.
fn keep_own(b: u32, n: usize, c: Columns, next: usize) -> Own
    ensures { result ≡ keep_own b n c.over c.unknown c.repeated c.mask c.order next }
{
    let over = text::either(is_deep(n), c.over);
    let form = Form::keep(c.order);
    Own {
        next: next,
        over: over,
        unknown: c.unknown,
        repeated: c.repeated,
        words: b,
        lefts: c.mask,
        rights: 0,
        form: form,
    }
}

// A join by the codes of its two columns.
fn join_own(b: u32, n: usize, over: bool, left: u32, right: u32, next: usize) -> Own
    ensures { result ≡ join_own b n over left right next }
{
    let bound = text::either(is_deep(n), over);
    let unknown = conditions::undeclared(left, right);
    let form = Form {
        kind: Form::JOIN,
        first: left,
        second: right,
        third: 0,
        fourth: 0,
    };
    Own {
        next: next,
        over: bound,
        unknown: unknown,
        repeated: false,
        words: b,
        lefts: 0,
        rights: 0,
        form: form,
    }
}

// An aggregate by its number, its column's code, SIZE and OFFSET.
fn aggregate_own(b: u32, n: usize, over: bool, f: u32, code: u32, spans: Spans, next: usize) -> Own
    ensures { result ≡ aggregate_own b n over f code spans.size spans.offset next }
{
    let beyond = text::either(spans.size.beyond, spans.offset.beyond);
    let bound = text::either(is_deep(n), text::either(over, beyond));
    let form = Form {
        kind: Form::AGGREGATE,
        first: f,
        second: code,
        third: spans.size.value,
        fourth: spans.offset.value,
    };
    Own {
        next: next,
        over: bound,
        unknown: code == Term::UNKNOWN,
        repeated: false,
        words: b,
        lefts: 0,
        rights: 0,
        form: form,
    }
}

// A stream's rows after `(in`.
fn rows_at(s: &[u8], at: usize, names: &[u64], b: u32, n: usize) -> Option<Own>
    ensures { result ≡ part_at names.now s.now b n k_in at }
{
    let p = text::skip(s, at, b' ')?;
    let m = text::read_name(s, p)?;
    let end = text::skip(s, m.next, b')')?;
    let place = terms::stream_place(names, m.code);
    Some(rows_own(b, n, m.long, place, end))
}

// A pick after its first word, up to the form inside it, its condition's words after the first b.
fn pick_at(s: &[u8], at: usize, names: &[u64], words: &mut [u32], b: u32, n: usize) -> Option<Own>
    requires { (length s.now ≤ max_line) × (max_words ≤ length words.old) × (5 * b ≤ at) }
    ensures { PartRead names.now s.now b n k_pick at words.old words.new result }
{
    let p = text::skip(s, at, b' ')?;
    let i = conditions::read_cond(s, p, names, words, b, level(n))?;
    let next = text::skip(s, i.next, b' ')?;
    Some(pick_own(i, next))
}

// A keep after its first word, up to the form inside it.
fn keep_at(s: &[u8], at: usize, names: &[u64], b: u32, n: usize) -> Option<Own>
    ensures { result ≡ part_at names.now s.now b n k_keep at }
{
    let c = columns::columns_at(s, at, names, true)?;
    let p = c.next;
    if p == at {
        return None;
    }
    Some(keep_own(b, n, c, p + 1))
}

// A join after its first word, up to the first form inside it.
fn join_at(s: &[u8], at: usize, names: &[u64], b: u32, n: usize) -> Option<Own>
    ensures { result ≡ part_at names.now s.now b n k_join at }
{
    let o = text::part(s, at, Word::EQUAL)?;
    let p = text::skip(s, o, b' ')?;
    let l = terms::ref_at(s, p)?;
    let q = text::skip(s, l.next, b' ')?;
    let r = terms::ref_at(s, q)?;
    let end = text::skip(s, r.next, b')')?;
    let next = text::skip(s, end, b' ')?;
    let left = terms::term_code(names, l.first, l.second);
    let right = terms::term_code(names, r.first, r.second);
    let over = text::either(l.over, r.over);
    Some(join_own(b, n, over, left, right, next))
}

// An aggregate after its first word, up to the form inside it.
fn aggregate_at(s: &[u8], at: usize, names: &[u64], f: u32, b: u32, n: usize) -> Option<Own>
    requires { (1 ≤ f) × (f ≤ 5) }
    ensures { result ≡ part_at names.now s.now b n (k_fn (numbered_fn f)) at }
{
    let p = text::skip(s, at, b' ')?;
    let c = terms::ref_at(s, p)?;
    let q = text::skip(s, c.next, b' ')?;
    let z = text::read_number(s, q)?;
    let r = text::skip(s, z.next, b' ')?;
    let w = text::read_number(s, r)?;
    let next = text::skip(s, w.next, b' ')?;
    let code = terms::term_code(names, c.first, c.second);
    let spans = Spans {
        size: span_of(z),
        offset: span_of(w),
    };
    Some(aggregate_own(b, n, c.over, f, code, spans, next))
}

// The form at a place by itself, inside n others, its condition's words after the first b.
fn own_at(s: &[u8], at: usize, names: &[u64], words: &mut [u32], b: u32, n: usize) -> Option<Own>
    requires { (length s.now ≤ max_line) × (max_words ≤ length words.old) × (5 * b ≤ at) }
    ensures { OwnRead names.now s.now b n at words.old words.new result }
{
    let o = text::skip(s, at, b'(')?;
    let w = text::read_word(s, o)?;
    let k = w.as_form()?;
    let p = w.next;
    if k == Form::ROWS {
        return rows_at(s, p, names, b, n);
    }
    if k == Form::PICK {
        return pick_at(s, p, names, words, b, n);
    }
    if k == Form::KEEP {
        return keep_at(s, p, names, b, n);
    }
    if k == Form::JOIN {
        return join_at(s, p, names, b, n);
    }
    aggregate_at(s, p, names, k - Form::AGGREGATE, b, n)
}

// ---- all forms

// No form is read yet.
fn no_reading() -> Reading
    ensures { result ≡ no_reading }
{
    let form = no_form();
    Reading {
        next: 0,
        over: false,
        unknown: false,
        repeated: false,
        words: 0,
        count: 0,
        forms: [form; Reading::FORMS],
        lefts: [0; Reading::FORMS],
        rights: [0; Reading::FORMS],
    }
}

// The forms so far, with one more.
fn with_own(r: Reading, o: Own) -> Reading
    requires { r.count ≤ max_forms }
    ensures { result ≡ with_own r o }
{
    let unknown = text::either(r.unknown, o.unknown);
    let repeated = text::either(r.repeated, o.repeated);
    let at = r.count as usize;
    if Reading::FORMS <= at {
        return Reading {
            over: true,
            unknown: unknown,
            repeated: repeated,
            words: o.words,
            ..r
        };
    }
    let mut forms = r.forms;
    let mut lefts = r.lefts;
    let mut rights = r.rights;
    let form = o.form;
    forms[at] = form;
    lefts[at] = o.lefts;
    rights[at] = o.rights;
    let over = text::either(r.over, o.over);
    Reading {
        next: r.next,
        over: over,
        unknown: unknown,
        repeated: repeated,
        words: o.words,
        count: r.count + 1,
        forms: forms,
        lefts: lefts,
        rights: rights,
    }
}

// What is read, where the outermost form ends at a place.
fn ended(r: Reading, at: usize) -> Reading
    ensures { result ≡ reading_ended r at }
{
    Reading { next: at, ..r }
}

// After a form that ended at a place: the brackets that close, up to where the next form begins or the outermost ends.
fn after(s: &[u8], second: &[bool; Next::MOST], at: usize, nest: usize) -> Option<Next>
    requires { nest ≤ max_open }
    ensures { result ≡ after_form s.now second.now at nest }
{
    let mut p = at;
    let mut n = nest;
    while 0 < n {
        let b = text::byte(s, p);
        if second[n - 1] {
            if b != b' ' {
                return None;
            }
            return Some(Next::Inside { at: p + 1, nest: n });
        }
        if b != b')' {
            return None;
        }
        p += 1;
        n -= 1;
    }
    Some(Next::Ended(p))
}

// The forms from a place on, where the line and the words have room.
fn forms_at(s: &[u8], at: usize, names: &[u64], words: &mut [u32]) -> Option<Reading>
    requires { (length s.now ≤ max_line) × (max_words ≤ length words.old) }
    ensures { FormRead names.now s.now at words.old words.new result }
{
    let mut second = [false; Next::MOST];
    let mut nest: usize = 0;
    let mut p = at;
    let mut r = no_reading();
    while p < s.len() {
        let o = own_at(s, p, names, words, r.words, nest)?;
        r = with_own(r, o);
        let kind = o.form.kind;
        if kind != Form::ROWS {
            second[nest] = kind == Form::JOIN;
            nest += 1;
            p = o.next;
            continue;
        }
        let k = after(s, &second, o.next, nest)?;
        match k {
            Next::Ended(end) => return Some(ended(r, end)),
            Next::Inside {
                at: next,
                nest: open,
            } => {
                p = next;
                nest = open;
                second[nest - 1] = false;
            }
        }
    }
    None
}

// Returns the forms of the query at a place of a line, and the place after it; None where there is none, the line is too long or fewer than Reading::WORDS words are lent.
// Leaves the words of its conditions from the first word on, and all others as they were; where it is not read or out of bounds, as many words, of any value.
pub fn read(s: &[u8], at: usize, names: &[u64], words: &mut [u32]) -> Option<Reading>
    ensures { FormRead names.now s.now at words.old words.new result }
{
    if Line::BYTES < s.len() {
        return None;
    }
    if words.len() < Reading::WORDS {
        return None;
    }
    forms_at(s, at, names, words)
}
