// Columns of the record compared for all their rows at once: the rows where two columns, or a column and a value, stand so to each other.
#![tactic(auto)]

ghost use Rattle.std.specs.Prelude.{◌≡◌, ◌≤◌, ◌<◌, ◌+◌, ◌*◌, pos, length, get_or};
ghost use Rattle.syntax.specs.Limits.{max_columns, max_rows};
ghost use Rattle.syntax.specs.Grammar.{Op, eq, lt, gt};
ghost use Rattle.model.specs.Meaning.{compares};
ghost use Rattle.masks.specs.Masks.{bit?};
ghost use Rattle.rows.specs.Masks.{one, bits, rows_of, row_bit};
ghost use Rattle.cells.specs.Cells.{most_places};
ghost use Rattle.column_masks.specs.Columns.{strip, near_end, strip_lent, Strip, compared_at, compared_rows, kind_op, matched, holding, held};

use cells::Datum;
use rows::Rows;
use schema::Stream;

const COLUMNS: u32 = Stream::COLUMNS as u32;
// The first cell of a column has a number of 31.
const NEAR: u32 = 2147483648;

// ---- how two numbers may stand to each other

pub trait Test {
    ghost op: { Op };

    fn passes(x: Datum, y: Datum) -> bool
        ensures { result ≡ compares op x.v y.v };
}

pub struct Same;

pub struct Below;

pub struct Above;

impl Test for Same {
    ghost op = { eq };

    fn passes(x: Datum, y: Datum) -> bool {
        x.v == y.v
    }
}

impl Test for Below {
    ghost op = { lt };

    fn passes(x: Datum, y: Datum) -> bool {
        x.v < y.v
    }
}

impl Test for Above {
    ghost op = { gt };

    fn passes(x: Datum, y: Datum) -> bool {
        y.v < x.v
    }
}

// ---- rows four at a time

// Returns four bits as a number, the first the highest.
fn four_bits(d: bool, c: bool, b: bool, a: bool) -> u32
    ensures { (result ≡ ((one d * 2 + one c) * 2 + one b) * 2 + one a) × (result < 16) }
{
    ((d as u32 * 2 + c as u32) * 2 + b as u32) * 2 + a as u32
}

// Returns four numbers of four bits as one, the first the highest.
fn four_digits(d: u32, c: u32, b: u32, a: u32) -> u32
    requires { (a < 16) × (b < 16) × (c < 16) × (d < 16) }
    ensures { (result ≡ ((d * 16 + c) * 16 + b) * 16 + a) × (result < 65536) }
{
    ((d * 16 + c) * 16 + b) * 16 + a
}

// ---- two numbers for each row, at steps through lists

// Returns whether a list of so many holds the numbers of n rows, at most 128, at steps of at most 6 from a number of 31 bits on.
fn strip_lent(size: usize, p: u32, s: u32, n: u32) -> bool
    ensures { result ≡ strip_lent size p s n }
{
    if Rows::MOST < n {
        return false;
    }
    if COLUMNS < s {
        return false;
    }
    if NEAR <= p {
        return false;
    }
    if n == 0 {
        return true;
    }
    ((p + (n - 1) * s) as usize) < size
}

// Returns whether two numbers stand so to each other.
fn pair_at<T: Test>(a: &[i32], i: u32, b: &[i32], j: u32) -> bool
    requires { (i < length a.now) × (j < length b.now) }
    ensures { result ≡ compares T.op (get_or a.now i (pos 0)) (get_or b.now j (pos 0)) }
{
    T::passes(cells::cell_at(a, i), cells::cell_at(b, j))
}

// Where the numbers of rows stand in a list: that of row i at `at + step * i`.
#[derive(Clone, Copy)]
struct Track {
    at: u32,
    step: u32,
}

// Returns of at most 32 rows from one on those whose numbers stand so to each other.
fn pair_word<T: Test>(a: &[i32], x: Track, b: &[i32], y: Track, from: u32, n: u32) -> u32
    requires { (n ≤ 32) × (from ≤ 96) × Strip a.now x.at x.step from n × Strip b.now y.at y.step from n }
    ensures { result ≡ bits (compared_at T.op (strip a.now x.at x.step) (strip b.now y.at y.step)) from n }
{
    let mut m: u32 = 0;
    for i in (0..n).rev() {
        m = m * 2
            + pair_at::<T>(a, x.at + (from + i) * x.step, b, y.at + (from + i) * y.step) as u32;
    }
    m
}

// Returns of at most 128 rows those whose numbers stand so to each other, at any steps.
fn pair_steps<T: Test>(a: &[i32], p: u32, s: u32, b: &[i32], q: u32, t: u32, n: u32) -> Rows
    requires { Strip a.now p s 0 n × Strip b.now q t 0 n }
    ensures { result ≡ rows_of (compared_at T.op (strip a.now p s) (strip b.now q t)) 0 n }
{
    let x = Track { at: p, step: s };
    let y = Track { at: q, step: t };
    Rows {
        a: pair_word::<T>(a, x, b, y, 0, rows::part(n, 0)),
        b: pair_word::<T>(a, x, b, y, 32, rows::part(n, 32)),
        c: pair_word::<T>(a, x, b, y, 64, rows::part(n, 64)),
        d: pair_word::<T>(a, x, b, y, 96, rows::part(n, 96)),
    }
}

// Returns of four rows those whose numbers stand so to each other, of a column in each list.
fn pair_four<T: Test>(a: &[i32], p: u32, b: &[i32], q: u32) -> u32
    requires { (p + 18 < length a.now) × (p + 18 ≤ most_places) × (q + 18 < length b.now) × (q + 18 ≤ most_places) }
    ensures { (result ≡ bits (compared_at T.op (strip a.now p max_columns) (strip b.now q max_columns)) 0 4) × (result < 16) }
{
    four_bits(
        pair_at::<T>(a, p + 3 * COLUMNS, b, q + 3 * COLUMNS),
        pair_at::<T>(a, p + 2 * COLUMNS, b, q + 2 * COLUMNS),
        pair_at::<T>(a, p + COLUMNS, b, q + COLUMNS),
        pair_at::<T>(a, p, b, q),
    )
}

// Returns of 32 rows those whose numbers stand so to each other, of a column in each list.
fn pair_full<T: Test>(a: &[i32], p: u32, b: &[i32], q: u32) -> u32
    requires { (p + 186 < length a.now) × (p + 186 ≤ most_places) × (q + 186 < length b.now) × (q + 186 ≤ most_places) }
    ensures { result ≡ bits (compared_at T.op (strip a.now p max_columns) (strip b.now q max_columns)) 0 32 }
{
    let high = four_digits(
        pair_four::<T>(a, p + 28 * COLUMNS, b, q + 28 * COLUMNS),
        pair_four::<T>(a, p + 24 * COLUMNS, b, q + 24 * COLUMNS),
        pair_four::<T>(a, p + 20 * COLUMNS, b, q + 20 * COLUMNS),
        pair_four::<T>(a, p + 16 * COLUMNS, b, q + 16 * COLUMNS),
    );
    let low = four_digits(
        pair_four::<T>(a, p + 12 * COLUMNS, b, q + 12 * COLUMNS),
        pair_four::<T>(a, p + 8 * COLUMNS, b, q + 8 * COLUMNS),
        pair_four::<T>(a, p + 4 * COLUMNS, b, q + 4 * COLUMNS),
        pair_four::<T>(a, p, b, q),
    );
    high * 65536 + low
}

// Returns of at most 32 rows those whose numbers stand so to each other, of a column in each list.
fn pair_column<T: Test>(a: &[i32], p: u32, b: &[i32], q: u32, n: u32) -> u32
    requires { (n ≤ 32) × Strip a.now p max_columns 0 n × Strip b.now q max_columns 0 n }
    ensures { result ≡ bits (compared_at T.op (strip a.now p max_columns) (strip b.now q max_columns)) 0 n }
{
    if n == Rows::WORD {
        return pair_full::<T>(a, p, b, q);
    }
    let x = Track {
        at: p,
        step: COLUMNS,
    };
    let y = Track {
        at: q,
        step: COLUMNS,
    };
    pair_word::<T>(a, x, b, y, 0, n)
}

// Returns of 128 rows those whose numbers stand so to each other, of a column in each list.
fn pair_all<T: Test>(a: &[i32], p: u32, b: &[i32], q: u32) -> Rows
    requires { (p + 762 < length a.now) × (p + 762 ≤ most_places) × (q + 762 < length b.now) × (q + 762 ≤ most_places) }
    ensures { result ≡ rows_of (compared_at T.op (strip a.now p max_columns) (strip b.now q max_columns)) 0 max_rows }
{
    Rows {
        a: pair_full::<T>(a, p, b, q),
        b: pair_full::<T>(a, p + 32 * COLUMNS, b, q + 32 * COLUMNS),
        c: pair_full::<T>(a, p + 64 * COLUMNS, b, q + 64 * COLUMNS),
        d: pair_full::<T>(a, p + 96 * COLUMNS, b, q + 96 * COLUMNS),
    }
}

// Returns of at most 128 rows those whose numbers stand so to each other, of a column in each list.
fn pair_columns<T: Test>(a: &[i32], p: u32, b: &[i32], q: u32, n: u32) -> Rows
    requires { (p < near_end) × (q < near_end) × Strip a.now p max_columns 0 n × Strip b.now q max_columns 0 n }
    ensures { result ≡ rows_of (compared_at T.op (strip a.now p max_columns) (strip b.now q max_columns)) 0 n }
{
    if n == Rows::MOST {
        return pair_all::<T>(a, p, b, q);
    }
    Rows {
        a: pair_column::<T>(a, p, b, q, rows::part(n, 0)),
        b: pair_column::<T>(a, p + 32 * COLUMNS, b, q + 32 * COLUMNS, rows::part(n, 32)),
        c: pair_column::<T>(a, p + 64 * COLUMNS, b, q + 64 * COLUMNS, rows::part(n, 64)),
        d: pair_column::<T>(a, p + 96 * COLUMNS, b, q + 96 * COLUMNS, rows::part(n, 96)),
    }
}

// Returns of at most 128 rows those whose numbers stand so to each other.
fn pair_mask<T: Test>(a: &[i32], p: u32, s: u32, b: &[i32], q: u32, t: u32, n: u32) -> Rows
    requires { (p < near_end) × (q < near_end) × Strip a.now p s 0 n × Strip b.now q t 0 n }
    ensures { result ≡ rows_of (compared_at T.op (strip a.now p s) (strip b.now q t)) 0 n }
{
    if s != COLUMNS {
        return pair_steps::<T>(a, p, s, b, q, t, n);
    }
    if t != COLUMNS {
        return pair_steps::<T>(a, p, s, b, q, t, n);
    }
    pair_columns::<T>(a, p, b, q, n)
}

// Returns of n rows those whose numbers in two lists stand so to each other; no rows where a list is too short.
fn pair_rows<T: Test>(a: &[i32], p: u32, s: u32, b: &[i32], q: u32, t: u32, n: u32) -> Rows
    ensures { result ≡ compared_rows T.op a.now p s b.now q t n }
{
    if !strip_lent(a.len(), p, s, n) {
        return Rows::none();
    }
    if !strip_lent(b.len(), q, t, n) {
        return Rows::none();
    }
    pair_mask::<T>(a, p, s, b, q, t, n)
}

// Returns of n rows those with the same numbers in two lists: row i has number p + i s of the one and q + i t of the other.
// No rows where n is above 128, a list is too short, a step is above 6, or a first number has 32 bits.
pub fn same_rows(a: &[i32], p: u32, s: u32, b: &[i32], q: u32, t: u32, n: u32) -> Rows
    ensures { result ≡ compared_rows eq a.now p s b.now q t n }
{
    pair_rows::<Same>(a, p, s, b, q, t, n)
}

// Returns of n rows those with the number of the first list below that of the second.
// No rows where n is above 128, a list is too short, a step is above 6, or a first number has 32 bits.
pub fn less_rows(a: &[i32], p: u32, s: u32, b: &[i32], q: u32, t: u32, n: u32) -> Rows
    ensures { result ≡ compared_rows lt a.now p s b.now q t n }
{
    pair_rows::<Below>(a, p, s, b, q, t, n)
}

// ---- the rows of a column and one value
// As instances of the functions above, with the value in place of the second list, these were tried: they are 100 bytes longer on the chip, and pass places that no value has.

// Returns whether a cell stands so to a value.
fn value_at<T: Test>(values: &[i32], i: u32, v: Datum) -> bool
    requires { i < length values.now }
    ensures { result ≡ compares T.op (get_or values.now i (pos 0)) v.v }
{
    T::passes(cells::cell_at(values, i), v)
}

// Returns of four rows those that stand so to a value.
fn value_four<T: Test>(values: &[i32], p: u32, v: Datum) -> u32
    requires { (p + 18 < length values.now) × (p + 18 ≤ most_places) }
    ensures { (result ≡ bits (compared_at T.op (strip values.now p max_columns) (λ i. v.v)) 0 4) × (result < 16) }
{
    four_bits(
        value_at::<T>(values, p + 3 * COLUMNS, v),
        value_at::<T>(values, p + 2 * COLUMNS, v),
        value_at::<T>(values, p + COLUMNS, v),
        value_at::<T>(values, p, v),
    )
}

// Returns of 32 rows those that stand so to a value.
fn value_full<T: Test>(values: &[i32], p: u32, v: Datum) -> u32
    requires { (p + 186 < length values.now) × (p + 186 ≤ most_places) }
    ensures { result ≡ bits (compared_at T.op (strip values.now p max_columns) (λ i. v.v)) 0 32 }
{
    let high = four_digits(
        value_four::<T>(values, p + 28 * COLUMNS, v),
        value_four::<T>(values, p + 24 * COLUMNS, v),
        value_four::<T>(values, p + 20 * COLUMNS, v),
        value_four::<T>(values, p + 16 * COLUMNS, v),
    );
    let low = four_digits(
        value_four::<T>(values, p + 12 * COLUMNS, v),
        value_four::<T>(values, p + 8 * COLUMNS, v),
        value_four::<T>(values, p + 4 * COLUMNS, v),
        value_four::<T>(values, p, v),
    );
    high * 65536 + low
}

// Returns of at most 32 rows those that stand so to a value.
fn value_word<T: Test>(values: &[i32], p: u32, v: Datum, n: u32) -> u32
    requires { (n ≤ 32) × Strip values.now p max_columns 0 n }
    ensures { result ≡ bits (compared_at T.op (strip values.now p max_columns) (λ i. v.v)) 0 n }
{
    if n == Rows::WORD {
        return value_full::<T>(values, p, v);
    }
    let mut m: u32 = 0;
    for i in (0..n).rev() {
        m = m * 2 + value_at::<T>(values, p + i * COLUMNS, v) as u32;
    }
    m
}

// Returns of 128 rows those that stand so to a value.
fn value_all<T: Test>(values: &[i32], p: u32, v: Datum) -> Rows
    requires { (p + 762 < length values.now) × (p + 762 ≤ most_places) }
    ensures { result ≡ rows_of (compared_at T.op (strip values.now p max_columns) (λ i. v.v)) 0 max_rows }
{
    Rows {
        a: value_full::<T>(values, p, v),
        b: value_full::<T>(values, p + 32 * COLUMNS, v),
        c: value_full::<T>(values, p + 64 * COLUMNS, v),
        d: value_full::<T>(values, p + 96 * COLUMNS, v),
    }
}

// Returns of at most 128 rows those that stand so to a value.
fn value_rows<T: Test>(values: &[i32], p: u32, v: Datum, n: u32) -> Rows
    requires { (p < near_end) × Strip values.now p max_columns 0 n }
    ensures { result ≡ rows_of (compared_at T.op (strip values.now p max_columns) (λ i. v.v)) 0 n }
{
    if n == Rows::MOST {
        return value_all::<T>(values, p, v);
    }
    Rows {
        a: value_word::<T>(values, p, v, rows::part(n, 0)),
        b: value_word::<T>(values, p + 32 * COLUMNS, v, rows::part(n, 32)),
        c: value_word::<T>(values, p + 64 * COLUMNS, v, rows::part(n, 64)),
        d: value_word::<T>(values, p + 96 * COLUMNS, v, rows::part(n, 96)),
    }
}

// Returns of at most 128 rows those that stand so to a value.
fn matched_mask(kind: u32, values: &[i32], p: u32, v: Datum, n: u32) -> Rows
    requires { (p < near_end) × Strip values.now p max_columns 0 n }
    ensures { result ≡ rows_of (compared_at (kind_op kind) (strip values.now p max_columns) (λ i. v.v)) 0 n }
{
    if kind == Datum::SAME {
        return value_rows::<Same>(values, p, v, n);
    }
    if kind == Datum::BELOW {
        return value_rows::<Below>(values, p, v, n);
    }
    value_rows::<Above>(values, p, v, n)
}

// Returns of n rows of a column, whose first cell is number p, those whose value is the same as, below or, where the kind is any other, above a value.
// No rows where n is above 128, memory is short, or p has 32 bits.
pub fn matched(kind: u32, values: &[i32], p: u32, v: Datum, n: u32) -> Rows
    ensures { result ≡ matched kind values.now p v.v n }
{
    if !strip_lent(values.len(), p, COLUMNS, n) {
        return Rows::none();
    }
    matched_mask(kind, values, p, v, n)
}

// Returns a word with a bit more where a cell holds a value.
fn with_value(values: &[i32], at: u32, v: Datum, m: u32, b: u32) -> u32
    requires { (at < length values.now) × (m + b < 4294967296) }
    ensures { result ≡ m + one (compares eq (get_or values.now at (pos 0)) v.v) * b }
{
    let x = cells::cell_at(values, at);
    if x.v == v.v {
        return m + b;
    }
    m
}

// Returns of the rows of a word, of which the first has cell p, those with a value.
fn held_word(values: &[i32], p: u32, v: Datum, w: u32) -> u32
    requires { Strip values.now p max_columns 0 32 }
    ensures { result ≡ bits (holding values.now p v.v (bit? w)) 0 32 }
{
    let mut m: u32 = 0;
    let mut rest = w;
    while 0 < rest {
        let i = u32::trailing_zeros(rest);
        let b: u32 = 1 << i;
        m = with_value(values, p + i * COLUMNS, v, m, b);
        rest -= b;
    }
    m
}

// Returns of the rows of a mask those with a value in a column.
fn held_mask(values: &[i32], p: u32, v: Datum, m: Rows) -> Rows
    requires { (p < near_end) × Strip values.now p max_columns 0 max_rows }
    ensures { result ≡ rows_of (holding values.now p v.v (row_bit m)) 0 max_rows }
{
    Rows {
        a: held_word(values, p, v, m.a),
        b: held_word(values, p + 32 * COLUMNS, v, m.b),
        c: held_word(values, p + 64 * COLUMNS, v, m.c),
        d: held_word(values, p + 96 * COLUMNS, v, m.d),
    }
}

// Returns of the rows of a mask those with a value in a column, whose first cell is number p.
// No rows where memory for 128 is short or p has 32 bits.
pub fn held(values: &[i32], p: u32, v: Datum, m: Rows) -> Rows
    ensures { result ≡ held values.now p v.v m }
{
    if !strip_lent(values.len(), p, COLUMNS, Rows::MOST) {
        return Rows::none();
    }
    held_mask(values, p, v, m)
}
