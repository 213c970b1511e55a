// Rows by their times: the rows of a stream whose time stands so to a column, or is within two.
#![tactic(auto)]

ghost use Rattle.std.specs.Prelude.{◌≡◌, ◌≤◌, ◌<◌, ◌*◌, min, pos, length, get_or};
ghost use Rattle.syntax.specs.Grammar.{eq, lt, gt};
ghost use Rattle.syntax.specs.Limits.{max_columns, top};
ghost use Rattle.model.specs.Meaning.{compares};
ghost use Rattle.ledger.specs.Records.{places_size, values_size};
ghost use Rattle.rows.specs.Masks.{one, rows_of};
ghost use Rattle.column_masks.specs.Columns.{strip, compared_at};
ghost use Rattle.time_masks.specs.Times.{column_end, later_of, clocked, in_span, timed};

use cells::Datum;
use column_masks::{Above, Below, Same, Test};
use rows::Rows;
use schema::Stream;
use text::Time;

const COLUMNS: u32 = Stream::COLUMNS as u32;
// From the first cell of a column to its last.
const COLUMN: usize = 763;

// ---- a time and a value

// A time, at most the highest. Without a branch, so that rows are taken four at once.
fn capped(t: u32) -> u32
    ensures { result ≡ min t top }
{
    let bits = t / 2147483648 * 4294967295;
    (t | bits) & Time::TOP
}

// The later of a row's time and another.
pub fn clock(low: Datum, t: u32) -> Datum
    ensures { result.v ≡ later_of low.v t }
{
    let s = capped(t);
    let x = Datum { v: s as i32 };
    if x.v < low.v {
        return low;
    }
    x
}

// A weight where two values stand so to each other, or 0.
fn weight<T: Test>(x: Datum, y: Datum, w: u32) -> u32
    ensures { result ≡ one (compares T.op x.v y.v) * w }
{
    if T::passes(x, y) {
        return w;
    }
    0
}

// A weight where the later of the time at a place and another stands so to a cell's value, or 0. Within its loop, since it is done for each row.
#[inline(always)]
fn weight_at<T: Test>(low: Datum, times: &[u32], at: u32, column: &[i32], q: u32, w: u32) -> u32
    requires { at < length times.now }
    ensures { result ≡ one (compares T.op (later_of low.v (get_or times.now at 0)) (get_or column.now q (pos 0))) * w }
{
    weight::<T>(clock(low, times[at as usize]), cells::value(column, q), w)
}

// Of at most 128 rows those whose time, or a later one, stands so to the number of a column that begins at a place of the values.
// Rows 32 apart are taken together, each with its own word.
fn compared_times<T: Test>(
    low: Datum,
    times: &[u32],
    from: u32,
    values: &[i32],
    p: u32,
    n: u32,
) -> Rows
    requires { (from ≤ 384) × (places_size ≤ length times.now) × (p < column_end) × (values_size ≤ length values.now) }
    ensures { result ≡ rows_of (compared_at T.op (clocked low.v times.now from) (strip values.now p max_columns)) 0 n }
{
    let v = &values[(p as usize)..(p as usize + COLUMN)];
    let mut a: u32 = 0;
    let mut b: u32 = 0;
    let mut c: u32 = 0;
    let mut d: u32 = 0;
    for i in 0..Rows::WORD {
        let w = 1 << i;
        let q = i * COLUMNS;
        a += weight_at::<T>(low, times, from + i, v, q, w);
        b += weight_at::<T>(low, times, from + i + 32, v, q + 192, w);
        c += weight_at::<T>(low, times, from + i + 64, v, q + 384, w);
        d += weight_at::<T>(low, times, from + i + 96, v, q + 576, w);
    }
    let m = Rows {
        a: a,
        b: b,
        c: c,
        d: d,
    };
    m.both(Rows::first(n))
}

// Of at most 128 rows those with such a time that is the number of a column, which begins at a place of the values.
pub fn same_times(low: Datum, times: &[u32], from: u32, values: &[i32], p: u32, n: u32) -> Rows
    requires { (from ≤ 384) × (places_size ≤ length times.now) × (p < column_end) × (values_size ≤ length values.now) }
    ensures { result ≡ rows_of (compared_at eq (clocked low.v times.now from) (strip values.now p max_columns)) 0 n }
{
    compared_times::<Same>(low, times, from, values, p, n)
}

// Of at most 128 rows those with such a time that is one below the number of a column, which begins at a place of the values.
pub fn below_times(low: Datum, times: &[u32], from: u32, values: &[i32], p: u32, n: u32) -> Rows
    requires { (from ≤ 384) × (places_size ≤ length times.now) × (p < column_end) × (values_size ≤ length values.now) }
    ensures { result ≡ rows_of (compared_at lt (clocked low.v times.now from) (strip values.now p max_columns)) 0 n }
{
    compared_times::<Below>(low, times, from, values, p, n)
}

// Of at most 128 rows those with such a time that is one above the number of a column, which begins at a place of the values.
pub fn above_times(low: Datum, times: &[u32], from: u32, values: &[i32], p: u32, n: u32) -> Rows
    requires { (from ≤ 384) × (places_size ≤ length times.now) × (p < column_end) × (values_size ≤ length values.now) }
    ensures { result ≡ rows_of (compared_at gt (clocked low.v times.now from) (strip values.now p max_columns)) 0 n }
{
    compared_times::<Above>(low, times, from, values, p, n)
}

// ---- times within two

// A weight where a time is within two, or 0.
fn time_weight(t: u32, low: u32, high: u32, w: u32) -> u32
    ensures { result ≡ one (in_span low high t) * w }
{
    if t < low {
        return 0;
    }
    if high < t {
        return 0;
    }
    w
}

// Of at most 128 places from one on, those with such a time. Places 32 apart are taken together, each with its own word.
pub fn time_rows(times: &[u32], low: u32, high: u32, from: u32, n: u32) -> Rows
    requires { (from ≤ 384) × (places_size ≤ length times.now) }
    ensures { result ≡ rows_of (timed times.now low high) from n }
{
    let k = rows::part(n, 0);
    let mut a: u32 = 0;
    let mut b: u32 = 0;
    let mut c: u32 = 0;
    let mut d: u32 = 0;
    for i in 0..k {
        let w = 1 << i;
        a += time_weight(times[(from + i) as usize], low, high, w);
        b += time_weight(times[(from + 32 + i) as usize], low, high, w);
        c += time_weight(times[(from + 64 + i) as usize], low, high, w);
        d += time_weight(times[(from + 96 + i) as usize], low, high, w);
    }
    let m = Rows {
        a: a,
        b: b,
        c: c,
        d: d,
    };
    m.both(Rows::first(n))
}
