// The rows that conditions select, for all rows of a stream at once.
#![tactic(auto)]

ghost use Rattle.std.specs.Prelude.{◌≡◌, ℕ, map, true, false, ◌≤◌, ◌<◌, ◌-◌, ◌/◌, ◌%◌, T, ℤ, length};
ghost use Rattle.syntax.specs.Grammar.{test, eq, lt};
ghost use Rattle.syntax.specs.Limits.{max_streams, max_columns, max_rows};
ghost use Rattle.model.specs.Queries.{column, col};
ghost use Rattle.model.specs.Meaning.{compares};
ghost use Rattle.model.specs.Grants.{entry_value, fill_term, fill};
ghost use Rattle.text.specs.Words.{name_of};
ghost use Rattle.ledger.specs.Records.{places_size, values_size};
ghost use Rattle.nodes.specs.Nodes.{unbiased, coded_term, numbered_op, node_at, node_compare, link, conditions_of};
ghost use Rattle.rows.specs.Masks.{rows_of};
ghost use Rattle.column_masks.specs.Columns.{strip, strip_lent, compared_at};
ghost use Rattle.selection.specs.Scopes.{times_fit, scope_fits, profile_in, cond_at, selected, selected_all, timely};
ghost use Rattle.time_masks.specs.Times.{column_end, clocked};
ghost use Rattle.selection.specs.Evaluating.{relate, left_time, side_value, Stands, Lent, left_named, wide, narrow, Taken, Leads, passing, list_passing, list_at, start_of, joined_of, past, low_of, high_of, in_limits, time_at, clock_at, bare, Near, lists, Carried};

use cells::Datum;
use grant::Grant;
use ledger::Ledger;
use nodes::Node;
use rows::Rows;
use schema::Stream;
use terms::Term;
use text::Time;

// The rows that are asked about: those of a stream, by the numbers of its columns and rows. Where `fixed` is one of the lent places, each stands beside
// the row there, which is one of the stream `other` and has `breadth` columns.
#[derive(Clone, Copy)]
pub struct Scope {
    pub stream: u32,
    pub width: u32,
    pub rows: u32,
    pub fixed: u32,
    pub other: u32,
    pub breadth: u32,
}

impl Scope {
    // No left row.
    pub const NONE: u32 = 4294967295;

    // Streams, columns of a stream, rows of a stream, and places for rows.
    const STREAMS: u32 = Stream::MOST as u32;

    const COLUMNS: u32 = Stream::COLUMNS as u32;

    const ROWS: u32 = Rows::MOST;

    const PLACES: u32 = Ledger::PLACES as u32;
}

// Where a side of a comparison takes its values from: one value, a column that begins at a place of the values, or the time.
#[derive(Clone, Copy)]
enum Origin {
    Value(i32),
    Column(u32),
    Time,
}

// Rows so far, and the place of the next condition.
#[derive(Clone, Copy)]
struct Reached {
    rows: Rows,
    at: u32,
}

// ---- two numbers for each row

// The rows where two numbers compare so, by those where they are the same, where the first is below and where it is above;
// 1 to 5 are `=` `/=` `<` `<=` `>`, any other is `>=`.
fn by_head<S: Fn() -> Rows, B: Fn() -> Rows, A: Fn() -> Rows>(
    head: u32,
    n: u32,
    same: S,
    below: B,
    above: A,
) -> Rows
    requires { S.IsAlwaysCallable same × B.IsAlwaysCallable below × A.IsAlwaysCallable above }
    ensures { (f g : ℕ → ℤ) → ((r : _) → S.post same r → r ≡ rows_of (compared_at eq f g) 0 n) → ((r : _) → B.post below r → r ≡ rows_of (compared_at lt f g) 0 n)
        → ((r : _) → A.post above r → r ≡ rows_of (compared_at lt g f) 0 n) → result ≡ rows_of (relate head f g) 0 n }
{
    match head {
        1 => same(),
        2 => Rows::first(n).flip(same()),
        3 => below(),
        4 => Rows::first(n).flip(above()),
        5 => above(),
        _ => Rows::first(n).flip(below()),
    }
}

// The rows where two columns, which begin at places of the values, compare so.
fn related(head: u32, values: &[i32], p: u32, q: u32, n: u32) -> Rows
    requires { (strip_lent (length values.now) p max_columns n ≡ true) × (strip_lent (length values.now) q max_columns n ≡ true) }
    ensures { result ≡ rows_of (relate head (strip values.now p max_columns) (strip values.now q max_columns)) 0 n }
{
    let s = Scope::COLUMNS;
    by_head(
        head,
        n,
        || column_masks::same_rows(values, p, s, values, q, s, n),
        || column_masks::less_rows(values, p, s, values, q, s, n),
        || column_masks::less_rows(values, q, s, values, p, s, n),
    )
}

// The rows where a column, which begins at a place of the values, compares so with a value.
fn by_value(head: u32, values: &[i32], p: u32, v: Datum, n: u32) -> Rows
    requires { strip_lent (length values.now) p max_columns n ≡ true }
    ensures { result ≡ rows_of (relate head (strip values.now p max_columns) (λ i. v.v)) 0 n }
{
    by_head(
        head,
        n,
        || column_masks::matched(Datum::SAME, values, p, v, n),
        || column_masks::matched(Datum::BELOW, values, p, v, n),
        || column_masks::matched(Datum::ABOVE, values, p, v, n),
    )
}

// The head of a comparison whose sides are turned.
fn turned(head: u32) -> u32
    ensures { (x y : ℤ) → compares (numbered_op result) x y ≡ compares (numbered_op head) y x }
{
    if head == 1 {
        return 1;
    }
    if head == 2 {
        return 2;
    }
    if head == 3 {
        return 5;
    }
    if head == 4 {
        return 6;
    }
    if head == 5 {
        return 3;
    }
    4
}

// Whether two values compare so.
fn holds(head: u32, x: Datum, y: Datum) -> bool
    ensures { result ≡ compares (numbered_op head) x.v y.v }
{
    if head == 1 {
        return x.v == y.v;
    }
    if head == 2 {
        return x.v != y.v;
    }
    if head == 3 {
        return x.v < y.v;
    }
    if head == 4 {
        return x.v <= y.v;
    }
    if head == 5 {
        return y.v < x.v;
    }
    y.v <= x.v
}

// All of n rows where two values compare so, or none.
fn settled(head: u32, x: Datum, y: Datum, n: u32) -> Rows
    ensures { result ≡ rows_of (relate head (λ i. x.v) (λ i. y.v)) 0 n }
{
    if holds(head, x, y) {
        return Rows::first(n);
    }
    Rows::none()
}

// ---- two sides compared

// The time of the left row, 0 where there is none.
fn left_time(sc: Scope, times: &[u32]) -> u32
    requires { places_size ≤ length times.now }
    ensures { result ≡ left_time sc times.now }
{
    let at = sc.fixed;
    if at < Scope::PLACES {
        return times[at as usize];
    }
    0
}

// The rows whose time compares so with a column, which begins at a place of the values.
fn by_clock(head: u32, low: Datum, times: &[u32], from: u32, values: &[i32], p: u32, n: u32) -> Rows
    requires { (from ≤ 384) × (places_size ≤ length times.now) × (p < column_end) × (values_size ≤ length values.now) }
    ensures { result ≡ rows_of (relate head (clocked low.v times.now from) (strip values.now p max_columns)) 0 n }
{
    by_head(
        head,
        n,
        || time_masks::same_times(low, times, from, values, p, n),
        || time_masks::below_times(low, times, from, values, p, n),
        || time_masks::above_times(low, times, from, values, p, n),
    )
}

// The rows whose time compares so with a value. Limits include their times, so that here `<=` and `>=` are at hand and not `<` and `>`.
fn by_time(head: u32, v: Datum, sc: Scope, times: &[u32]) -> Rows
    requires { (sc.stream < max_streams) × (sc.rows ≤ max_rows) × (places_size ≤ length times.now) }
    ensures { result ≡ rows_of (relate head (clock_at sc times.now) (λ i. v.v)) 0 sc.rows }
{
    if v.v < 0 {
        return settled(head, Datum { v: 1 }, Datum { v: 0 }, sc.rows);
    }
    let t = v.v as u32;
    if head == 1 {
        return limited(t, t, sc, times);
    }
    if head == 2 {
        return Rows::first(sc.rows).flip(limited(t, t, sc, times));
    }
    if head == 3 {
        return Rows::first(sc.rows).flip(limited(t, Grant::NONE, sc, times));
    }
    if head == 4 {
        return limited(Grant::NONE, t, sc, times);
    }
    if head == 5 {
        return Rows::first(sc.rows).flip(limited(Grant::NONE, t, sc, times));
    }
    limited(t, Grant::NONE, sc, times)
}

// The rows whose time compares so with a side; with itself it does as any value.
// The scope is handed over in parts, which no other comparison then leaves in memory.
fn by_times(
    head: u32,
    r: Origin,
    stream: u32,
    n: u32,
    fixed: u32,
    times: &[u32],
    values: &[i32],
) -> Rows
    requires { (stream < max_streams) × (n ≤ max_rows) × (places_size ≤ length times.now) × (values_size ≤ length values.now) × Near r }
    ensures { result ≡ rows_of (relate head (clock_at (bare stream n fixed) times.now) (side_value r (bare stream n fixed) times.now values.now)) 0 n }
{
    let sc = Scope {
        stream: stream,
        width: 0,
        rows: n,
        fixed: fixed,
        other: 0,
        breadth: 0,
    };
    match r {
        Origin::Value(v) => by_time(head, Datum { v: v }, sc, times),
        Origin::Column(at) => {
            let low = time_masks::clock(Datum { v: 0 }, left_time(sc, times));
            by_clock(head, low, times, stream * Scope::ROWS, values, at, n)
        }
        Origin::Time => settled(head, Datum { v: 0 }, Datum { v: 0 }, n),
    }
}

// The rows where two sides compare so.
fn compared(head: u32, l: Origin, r: Origin, sc: Scope, times: &[u32], values: &[i32]) -> Rows
    requires { Lent sc times.now values.now × Near l × Near r }
    ensures { result ≡ rows_of (relate head (side_value l sc times.now values.now) (side_value r sc times.now values.now)) 0 sc.rows }
{
    match (l, r) {
        (Origin::Time, _) => by_times(head, r, sc.stream, sc.rows, sc.fixed, times, values),
        (_, Origin::Time) => by_times(turned(head), l, sc.stream, sc.rows, sc.fixed, times, values),
        (Origin::Column(p), Origin::Column(q)) => related(head, values, p, q, sc.rows),
        (Origin::Column(p), Origin::Value(v)) => by_value(head, values, p, Datum { v: v }, sc.rows),
        (Origin::Value(v), Origin::Column(p)) => by_value(
            turned(head),
            values,
            p,
            Datum { v: v },
            sc.rows,
        ),
        (Origin::Value(v), Origin::Value(w)) => settled(
            head,
            Datum { v: v },
            Datum { v: w },
            sc.rows,
        ),
    }
}

// ---- the sides of a comparison

// Whether a column by its stream and number is one of the left row.
fn left_names(sc: Scope, s: u32, c: u32) -> bool
    ensures { result ≡ left_named sc s c }
{
    if Scope::PLACES <= sc.fixed {
        return false;
    }
    if s != sc.other {
        return false;
    }
    c < sc.breadth
}

// A column by its code: of the left row its value, one of the stream's, or nothing there.
fn column_side(code: u32, sc: Scope, values: &[i32]) -> Origin
    requires { (code < 24) × (sc.stream < max_streams) × (values_size ≤ length values.now) }
    ensures { Stands sc values.now (column (col (code / max_columns) (code % max_columns))) result }
{
    let s = code / Scope::COLUMNS;
    let c = code % Scope::COLUMNS;
    if left_names(sc, s, c) {
        let x = cells::value(values, sc.fixed * Scope::COLUMNS + c);
        return Origin::Value(x.v);
    }
    if s != sc.stream {
        return Origin::Value(0);
    }
    if sc.width <= c {
        return Origin::Value(0);
    }
    Origin::Column(sc.stream * Scope::ROWS * Scope::COLUMNS + c)
}

// A number, of which the lowest is stored as 0.
fn number_value(value: u64) -> i32
    requires { value < 4294967296 }
    ensures { result ≡ unbiased value }
{
    if value < 2147483648 {
        return -1 - ((2147483647 - value) as i32);
    }
    (value - 2147483648) as i32
}

// The value of a profile entry, or 0 where there is none of that name.
fn entry_value(value: u64, profile: &[u64]) -> i32
    ensures { result ≡ entry_value (profile_in profile.now) (name_of value) }
{
    let (entries, _) = profile.as_chunks::<2>();
    for e in entries {
        if e[0] == value {
            return number_value(e[1] % 4294967296);
        }
    }
    0
}

// What stands for a side by its code, and by the node's value where the code is that of a number or of a profile entry.
fn side_of(code: u32, value: u64, sc: Scope, profile: &[u64], values: &[i32]) -> Origin
    requires { (sc.stream < max_streams) × (values_size ≤ length values.now) × (code ≡ 26 → value < 4294967296) }
    ensures { Stands sc values.now (fill_term (profile_in profile.now) (coded_term code value)) result }
{
    if code < Term::TIME {
        return column_side(code, sc, values);
    }
    if code == Term::TIME {
        return Origin::Time;
    }
    if code == Term::FIGURE {
        return Origin::Value(0);
    }
    if code == Term::NUMBER {
        return Origin::Value(number_value(value));
    }
    Origin::Value(entry_value(value, profile))
}

// The number on a comparison's left is one of more than 32 bits: then a profile entry is on its right.
fn is_wide(n: Node) -> bool
    ensures { result ≡ wide n }
{
    if n.left != Term::NUMBER {
        return false;
    }
    4294967295 < n.value
}

// The rows that a comparison holds of. A number of more than 32 bits is above every profile entry, as 1 is above 0.
fn compare_node(n: Node, sc: Scope, profile: &[u64], times: &[u32], values: &[i32]) -> Rows
    requires { Lent sc times.now values.now × T (narrow n) }
    ensures { result ≡ passing sc times.now values.now profile.now (test (node_compare n)) }
{
    if is_wide(n) {
        return settled(n.head, Datum { v: 1 }, Datum { v: 0 }, sc.rows);
    }
    let l = side_of(n.left, n.value, sc, profile, values);
    let r = side_of(n.right, n.value, sc, profile, values);
    compared(n.head, l, r, sc, times, values)
}

// ---- nodes

// The node that ends at a place, whatever is lent.
fn node_of(words: &[u32], k: u32) -> Node
    ensures { Taken words.now k result }
{
    if k == 0 {
        return nodes::unpacked(0, 0);
    }
    let w = places::word_at(words, k - 1);
    let right = w / 65536 % 256;
    if right == Term::NUMBER {
        return nodes::unpacked(w, places::word_at(words, k.saturating_sub(2)) as u64);
    }
    if right == Term::ENTRY {
        return nodes::unpacked(
            w,
            nodes::joined(
                places::word_at(words, k.saturating_sub(3)),
                places::word_at(words, k.saturating_sub(2)),
            ),
        );
    }
    nodes::unpacked(w, 0)
}

// The head of the node that ends at a place.
fn head_of(words: &[u32], k: u32) -> u32
    ensures { result ≡ (node_at words.now k).head }
{
    if k == 0 {
        return 0;
    }
    places::word_at(words, k - 1) % 256
}

// How many words stand before those of the condition that ends at a place.
fn link_at(words: &[u32], k: u32) -> u32
    ensures { result ≡ link words.now k }
{
    let last = k.saturating_sub(1);
    (places::word_at(words, last) / 16777216).min(last)
}

// Where the first condition ends of those that end at place j and before it, down to a stop; 0 where there is none.
fn first_of(words: &[u32], stop: u32, j: u32) -> u32
    ensures { Leads words.now stop j result }
{
    if j <= stop {
        return 0;
    }
    let mut e = j;
    let mut b = link_at(words, j);
    while stop < b {
        e = b;
        b = link_at(words, e);
    }
    e
}

// The rows that the comparison holds of that ends at a place.
fn compare_at(
    words: &[u32],
    k: u32,
    sc: Scope,
    profile: &[u64],
    times: &[u32],
    values: &[i32],
) -> Rows
    requires { Lent sc times.now values.now }
    ensures { result ≡ passing sc times.now values.now profile.now (test (node_compare (node_at words.now k))) }
{
    compare_node(node_of(words, k), sc, profile, times, values)
}

// ---- conditions and lists of them, which call each other on falling places

// What a list of no conditions holds of: `and` all rows, `or` none.
fn started(any: bool, n: u32) -> Rows
    ensures { result ≡ start_of any n }
{
    if any {
        return Rows::none();
    }
    Rows::first(n)
}

fn joined(any: bool, x: Rows, m: Rows) -> Rows
    ensures { result ≡ joined_of any x m }
{
    if any {
        return x.either(m);
    }
    x.both(m)
}

// Whether the condition that ends at a place is a list of conditions.
fn is_list(words: &[u32], k: u32) -> bool
    ensures { result ≡ lists words.now k }
{
    let head = head_of(words, k);
    if head < Node::AND {
        return false;
    }
    head <= Node::NOT
}

// The rows so far, with the comparisons that end at place j and before it joined, down to a stop or to a list; and where that is.
// A comparison is made here alone, so that what all of them use is read once.
fn leaves(
    words: &[u32],
    stop: u32,
    j: u32,
    any: bool,
    start: Rows,
    sc: Scope,
    profile: &[u64],
    times: &[u32],
    values: &[i32],
) -> Reached
    requires { Lent sc times.now values.now }
    ensures { Carried words.now stop j any sc times.now values.now profile.now start result.at result.rows × (stop < result.at → lists words.now result.at ≡ true) }
{
    let mut m = start;
    let mut at = j;
    while stop < at {
        if is_list(words, at) {
            return Reached { rows: m, at: at };
        }
        let x = compare_at(words, at, sc, profile, times, values);
        m = joined(any, x, m);
        at = link_at(words, at);
    }
    Reached { rows: m, at: at }
}

// The rows that the comparison holds of that ends at a place; of none all rows.
fn leaf(words: &[u32], k: u32, sc: Scope, profile: &[u64], times: &[u32], values: &[i32]) -> Rows
    requires { Lent sc times.now values.now }
    ensures { lists words.now k ≡ false → result ≡ passing sc times.now values.now profile.now (cond_at words.now k) }
{
    let all = Rows::first(sc.rows);
    if k == 0 {
        return all;
    }
    let w = leaves(words, k - 1, k, false, all, sc, profile, times, values);
    w.rows
}

// The rows that the condition holds of that ends at place k.
#[cycle(eval_list)]
fn eval(words: &[u32], k: u32, sc: Scope, profile: &[u64], times: &[u32], values: &[i32]) -> Rows
    requires { Lent sc times.now values.now }
    ensures { result ≡ passing sc times.now values.now profile.now (cond_at words.now k) }
{
    let head = head_of(words, k);
    if head < Node::AND {
        return leaf(words, k, sc, profile, times, values);
    }
    if Node::NOT < head {
        return leaf(words, k, sc, profile, times, values);
    }
    let stop = link_at(words, k);
    if head == Node::NOT {
        let e = first_of(words, stop, k - 1);
        return Rows::first(sc.rows).flip(eval(words, e, sc, profile, times, values));
    }
    if k - 1 <= stop {
        return eval(words, 0, sc, profile, times, values);
    }
    list(
        words,
        stop,
        k - 1,
        head == Node::OR,
        sc,
        profile,
        times,
        values,
    )
}

// The rows that all or any hold of the conditions that end at place j and before it, down to a stop.
#[cycle(eval_list)]
fn list(
    words: &[u32],
    stop: u32,
    j: u32,
    any: bool,
    sc: Scope,
    profile: &[u64],
    times: &[u32],
    values: &[i32],
) -> Rows
    requires { Lent sc times.now values.now }
    ensures { result ≡ list_passing any sc times.now values.now profile.now (list_at words.now stop j) }
{
    let mut m = started(any, sc.rows);
    let mut at = j;
    while stop < at {
        let w = leaves(words, stop, at, any, m, sc, profile, times, values);
        let k = w.at;
        if k <= stop {
            return w.rows;
        }
        let x = eval(words, k, sc, profile, times, values);
        m = joined(any, x, w.rows);
        at = link_at(words, k);
    }
    m
}

// ---- the calls

// The stream is one of four with at most 128 rows, and times are lent for all.
fn times_fit(sc: Scope, times: &[u32]) -> bool
    ensures { result ≡ times_fit sc times.now }
{
    if Scope::STREAMS <= sc.stream {
        return false;
    }
    if Scope::ROWS < sc.rows {
        return false;
    }
    Ledger::PLACES <= times.len()
}

// And values are.
fn fits(sc: Scope, times: &[u32], values: &[i32]) -> bool
    ensures { result ≡ scope_fits sc times.now values.now }
{
    if !times_fit(sc, times) {
        return false;
    }
    Ledger::VALUES <= values.len()
}

// Returns the rows of a scope that the condition selects whose words end at a place, with the caller's values put in; none where memory is short.
pub fn condition(
    words: &[u32],
    k: u32,
    scope: Scope,
    profile: &[u64],
    times: &[u32],
    values: &[i32],
) -> Rows
    ensures { result ≡ selected scope times.now values.now (fill (profile_in profile.now) (cond_at words.now k)) }
{
    if !fits(scope, times, values) {
        return Rows::none();
    }
    eval(words, k, scope, profile, times, values)
}

// Returns the rows of a scope that all conditions of the first n words select, with the caller's values put in; none where memory is short.
pub fn conditions(
    words: &[u32],
    n: u32,
    scope: Scope,
    profile: &[u64],
    times: &[u32],
    values: &[i32],
) -> Rows
    ensures { result ≡ selected_all scope times.now values.now (map (fill (profile_in profile.now)) (conditions_of words.now n)) }
{
    if !fits(scope, times, values) {
        return Rows::none();
    }
    list(words, 0, n, false, scope, profile, times, values)
}

// ---- times

// The first time that is asked of a row beside one of another time.
fn low_time(from: u32, left: u32) -> u32
    ensures { result ≡ low_of from left }
{
    if Time::TOP < from {
        return 0;
    }
    if from <= left {
        return 0;
    }
    from
}

// The last time that is asked of a row.
fn high_time(to: u32) -> u32
    ensures { result ≡ high_of to }
{
    if to < Time::TOP {
        return to;
    }
    Grant::NONE
}

// A time is past the last one that is asked.
fn too_late(to: u32, left: u32) -> bool
    ensures { result ≡ past to left }
{
    if Time::TOP <= to {
        return false;
    }
    to < left
}

// The rows whose time is within two, of which each may be no limit.
fn limited(from: u32, to: u32, sc: Scope, times: &[u32]) -> Rows
    requires { (sc.stream < max_streams) × (sc.rows ≤ max_rows) × (places_size ≤ length times.now) }
    ensures { result ≡ rows_of (λ i. in_limits from to (time_at sc times.now i)) 0 sc.rows }
{
    let left = left_time(sc, times);
    if too_late(to, left) {
        return Rows::none();
    }
    let low = low_time(from, left);
    let high = high_time(to);
    time_masks::time_rows(times, low, high, sc.stream * Scope::ROWS, sc.rows)
}

// Returns the rows of a scope whose time is within two, of which each may be no limit; none where memory is short.
pub fn within(from: u32, to: u32, scope: Scope, times: &[u32]) -> Rows
    ensures { result ≡ timely scope times.now from to }
{
    if !times_fit(scope, times) {
        return Rows::none();
    }
    limited(from, to, scope, times)
}
