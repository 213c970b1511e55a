// The text of a rewritten query: its table of forms written forwards in one pass. A form opens before the forms inside it; what stands open is kept as a number,
// a bit for each form, by which the brackets close after the last form inside.
#![tactic(auto)]

ghost use Rattle.std.specs.Prelude.{◌≡◌, [], ◌<◌};
ghost use Rattle.text.specs.Words.{name_of};
ghost use Rattle.schema.specs.Schemas.{schema_of};
ghost use Rattle.query.specs.Tables.{forms_in};
ghost use Rattle.print.specs.Writing.{Put};
ghost use Rattle.print_query.specs.Marks.{marks_end, Ended};
ghost use Rattle.print_query.specs.Texts.{words_lent, table_text, pick_opening, keep_opening, join_opening, fn_opening, span_text, aggregate_opening, under_opening, opening_text, bracketed, Turned, Lined};

use grant::Grant;
use print::Bounds;
use query::Form;

// Words with the brackets and spaces around them.
const OPEN_KEEP: u64 = 0x286b656570;

const OPEN_JOIN: u64 = 0x286a6f696e20;

const OPEN_MIN: u64 = 0x286d696e20;

const OPEN_MAX: u64 = 0x286d617820;

const OPEN_COUNT: u64 = 0x28636f756e7420;

const OPEN_AVG: u64 = 0x2861766720;

const OPEN_SUM: u64 = 0x2873756d20;

// Where nothing stands open the number is 1; where all is written it is 0.
const NONE_OPEN: u32 = 1;

// The place after what was written, and what stands open there.
#[derive(Clone, Copy)]
pub struct Cursor {
    pub place: u32,
    pub marks: u32,
}

// Whether a line was written, and how long its text is.
#[derive(Clone, Copy)]
pub struct Printed {
    pub ok: bool,
    pub length: u32,
}

// ---- what a form writes before the queries that it takes

// A pick up to the space before its query.
fn put_pick(
    out: &mut [u8],
    p: u32,
    f: Form,
    words: &[u32],
    granted: &[u32],
    names: &[u64],
    profile: &[u64],
) -> u32
    ensures { Put (pick_opening (schema_of names.now) (words_lent words.now granted.now profile.now) f) out.old p out.new result }
{
    let a = print::put_word(out, p, print::OPEN_PICK);
    let k = f.first as usize;
    let b = print::put_cond(out, a, words, k, names, profile, true);
    print::put(out, b, b' ')
}

// A keep.
fn put_keep(out: &mut [u8], p: u32, f: Form, names: &[u64]) -> u32
    ensures { Put (keep_opening (schema_of names.now) f) out.old p out.new result }
{
    let a = print::put_word(out, p, OPEN_KEEP);
    let b = print::put_columns(out, a, f.order(), names);
    print::put(out, b, b' ')
}

// A join.
fn put_join(out: &mut [u8], p: u32, f: Form, names: &[u64]) -> u32
    ensures { Put (join_opening (schema_of names.now) f) out.old p out.new result }
{
    let a = print::put_word(out, p, OPEN_JOIN);
    let b = print::put_word(out, a, print::OPEN_EQ);
    let c = print::put_col(out, b, f.first, names);
    let d = print::put(out, c, b' ');
    let e = print::put_col(out, d, f.second, names);
    print::put_word(out, e, print::CLOSE_SPACE)
}

// A bracket, the word of an aggregate and a space.
fn fn_opened(n: u32) -> u64
    ensures { name_of result ≡ fn_opening n }
{
    match n {
        1 => OPEN_MIN,
        2 => OPEN_MAX,
        3 => OPEN_COUNT,
        4 => OPEN_AVG,
        _ => OPEN_SUM,
    }
}

// SIZE and OFFSET, each before a space.
fn put_span(out: &mut [u8], p: u32, f: Form) -> u32
    ensures { Put (span_text f) out.old p out.new result }
{
    let a = print::put_nat(out, p, f.third);
    let b = print::put(out, a, b' ');
    let c = print::put_nat(out, b, f.fourth);
    print::put(out, c, b' ')
}

// An aggregate.
fn put_aggregate(out: &mut [u8], p: u32, f: Form, names: &[u64]) -> u32
    ensures { Put (aggregate_opening (schema_of names.now) f) out.old p out.new result }
{
    let a = print::put_word(out, p, fn_opened(f.first));
    let b = print::put_col(out, a, f.second, names);
    let c = print::put(out, b, b' ');
    put_span(out, c, f)
}

// The conditions and times of a view.
fn bounds(f: Form) -> Bounds
    ensures { result ≡ record { words = f.second; from = f.third; to = f.fourth } }
{
    Bounds {
        words: f.second,
        from: f.third,
        to: f.fourth,
    }
}

// A view.
fn put_under(
    out: &mut [u8],
    p: u32,
    f: Form,
    words: &[u32],
    granted: &[u32],
    names: &[u64],
    profile: &[u64],
) -> u32
    ensures { Put (under_opening (schema_of names.now) (words_lent words.now granted.now profile.now) f) out.old p out.new result }
{
    let b = bounds(f);
    let at = f.first as usize * Grant::PLACE;
    let from = at.min(granted.len());
    let end = (at + Grant::PLACE).min(granted.len());
    print::put_pick(out, p, &granted[from..end], b, names, profile)
}

// Any form; a stream's whole text.
fn put_opening(
    out: &mut [u8],
    p: u32,
    f: Form,
    words: &[u32],
    granted: &[u32],
    names: &[u64],
    profile: &[u64],
) -> u32
    ensures { Put (opening_text (schema_of names.now) (words_lent words.now granted.now profile.now) f) out.old p out.new result }
{
    match f.kind {
        Form::ROWS => print::put_source(out, p, f.first, names),
        Form::PICK => put_pick(out, p, f, words, granted, names, profile),
        Form::KEEP => put_keep(out, p, f, names),
        Form::JOIN => put_join(out, p, f, names),
        Form::AGGREGATE => put_aggregate(out, p, f, names),
        _ => put_under(out, p, f, words, granted, names, profile),
    }
}

// ---- what stands open

// Whether a form has a bracket: a view that asks for nothing has none.
fn bracketed(f: Form) -> bool
    ensures { result ≡ bracketed f }
{
    f.kind <= Form::AGGREGATE || bounds(f).any()
}

// The brackets that close after a query, up to a join's left side, and the space after that; what stands open then.
fn put_ends(out: &mut [u8], p: u32, marks: u32) -> Cursor
    ensures { Ended marks out.old p out.new result.place result.marks }
{
    let mut q = p;
    let mut left = marks;
    while NONE_OPEN < left {
        if left % 2 == 1 {
            let s = print::put(out, q, b' ');
            return Cursor {
                place: s,
                marks: left - 1,
            };
        }
        q = print::put(out, q, b')');
        left = left / 2;
    }
    Cursor { place: q, marks: 0 }
}

// What follows a form's opening, and what stands open then.
fn put_turn(out: &mut [u8], p: u32, f: Form, marks: u32) -> Cursor
    requires { marks < marks_end }
    ensures { Turned f marks out.old p out.new result.place result.marks }
{
    if f.kind == Form::ROWS {
        return put_ends(out, p, marks);
    }
    if f.kind == Form::JOIN {
        return Cursor {
            place: p,
            marks: marks * 2 + 1,
        };
    }
    if bracketed(f) {
        return Cursor {
            place: p,
            marks: marks * 2,
        };
    }
    Cursor {
        place: p,
        marks: marks,
    }
}

// ---- the whole text

// Returns how long the text is of the query that a table stands for, up to the furthest place; a query that is missing is written as the first stream's rows, as the table's meaning has it.
// Leaves the text from the first place on where there are places, and all else as it was.
pub fn put_table(
    out: &mut [u8],
    table: &[u32],
    n: u32,
    words: &[u32],
    granted: &[u32],
    names: &[u64],
    profile: &[u64],
) -> u32
    ensures { Put (table_text (schema_of names.now) (words_lent words.now granted.now profile.now) (forms_in table.now n)) out.old 0 out.new result }
{
    let mut q: u32 = 0;
    let mut marks = NONE_OPEN;
    let mut i: u32 = 0;
    // The forms end where nothing stands open: how many there are is not counted before.
    while 0 < marks {
        let f = query::form_in(table, n, i);
        let a = put_opening(out, q, f, words, granted, names, profile);
        let t = put_turn(out, a, f, marks);
        q = t.place;
        marks = t.marks;
        i += 1;
    }
    q
}

// Returns whether there was room for the text of a table's query, and how long it is, up to the furthest place.
// Leaves the text and after it the bytes that were there; all as it was where there was no room.
pub fn line(
    out: &mut [u8],
    table: &[u32],
    n: u32,
    words: &[u32],
    granted: &[u32],
    names: &[u64],
    profile: &[u64],
) -> Printed
    ensures { Lined (table_text (schema_of names.now) (words_lent words.now granted.now profile.now) (forms_in table.now n) []) out.old out.new result }
{
    let k = put_table(&mut out[0..0], table, n, words, granted, names, profile);
    if print::FURTHEST <= k || out.len() < k as usize {
        return Printed {
            ok: false,
            length: k,
        };
    }
    let m = put_table(out, table, n, words, granted, names, profile);
    Printed {
        ok: true,
        length: m,
    }
}
