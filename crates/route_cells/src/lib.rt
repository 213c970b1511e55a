// The cells of one route: its header and its rows, counted up to a room or written, and the rows selected for it, kept from its count to its cells.
#![tactic(auto)]

ghost use Rattle.std.specs.Prelude.{◌≡◌, ℕ, ◌+◌, ◌*◌, ◌≤◌, ◌<◌, ◌/◌, pos, length, set};
ghost use Rattle.std.proofs.lemmas.List.Edits.{sets};
ghost use Rattle.syntax.specs.Limits.{max_routes};
ghost use Rattle.query.specs.Tables.{query_forms};
ghost use Rattle.sides.specs.Sides.{words_of, left_in};
ghost use Rattle.pairs.specs.Given.{Counted};
ghost use Rattle.route_rows.specs.Rows.{room_end, most_width};
ghost use Rattle.route_cells.specs.Kept.{kept_size, kept_at, words_in, Keepable, Keeping};
ghost use Rattle.route_cells.specs.Routes.{second_number, way_header, left_of, Bounds, Enterable, Turns};

use ledger::Ledger;
use plan::Plan;
use query::Query;
use rewrite::Restriction;
use route_plan::Way;
use route_rows::Aim;
use routes::Route;
use rows::Rows;
use selection::Scope;

// Cells of the header of a route.
pub const HEADER: u32 = 4;

// A number in a cell.
pub fn put_number(cells: &mut [i64], i: u32, v: u64)
    requires { (i < length cells.old) × (v ≤ 4294967296) }
    ensures { cells.new ≡ set cells.old i (pos v) }
{
    cells[i as usize] = v as i64;
}

// The number of a route's second grant, counted from 1; 0 where it has one.
fn second(y: Way) -> u64
    ensures { (result ≡ second_number y) × (result ≤ 4294967296) }
{
    if y.kind != Route::SIDES {
        return 0;
    }
    if y.lone {
        return 0;
    }
    let h: Restriction = y.right;
    h.place as u64 + 1
}

// The header of a route from a place on: the numbers of its grants, its width and how many rows it has.
fn put_header(y: Way, width: u32, rows: u32, cells: &mut [i64], at: u32)
    requires { (at + 4 ≤ length cells.old) × (at ≤ room_end) }
    ensures { cells.new ≡ sets cells.old at (way_header y width rows) }
{
    let g: Restriction = y.left;
    put_number(cells, at, g.place as u64 + 1);
    put_number(cells, at + 1, second(y));
    put_number(cells, at + 2, width as u64);
    put_number(cells, at + 3, rows as u64);
}

// The place after the cells of a route with n rows of a width; past the room where they have none.
fn after(n: u32, width: u32, at: u32, room: u32) -> u32
    requires { (1 ≤ width) × (at ≤ room) × (room ≤ room_end) }
    ensures { (k : ℕ) → Counted k (room / width) n → Counted (at + (4 + k * width)) room result }
{
    if room / width < n {
        return room + 1;
    }
    at + HEADER + n * width
}

// Words of the rows of a route.
pub const MASK: usize = 4;

// The rows that are kept in a place.
fn kept_rows(kept: &[u32], i: u32) -> Rows
    requires { (i < max_routes) × (kept_size ≤ length kept.now) }
    ensures { result ≡ kept_at kept.now i }
{
    let k = i as usize * MASK;
    Rows {
        a: kept[k],
        b: kept[k + 1],
        c: kept[k + 2],
        d: kept[k + 3],
    }
}

// Leaves rows in a place.
fn keep_rows(kept: &mut [u32], i: u32, m: Rows)
    requires { (i < max_routes) × (kept_size ≤ length kept.old) }
    ensures { kept.new ≡ sets kept.old (i * 4) (words_in m) }
{
    let k = i as usize * MASK;
    kept[k] = m.a;
    kept[k + 1] = m.b;
    kept[k + 2] = m.c;
    kept[k + 3] = m.d;
}

// What is wanted of a route: its place among the routes, whether its rows are known, whether it is the last; written from a place of the cells on, or counted as far
// as the room goes.
#[derive(Clone, Copy)]
pub struct Turn {
    pub place: u32,
    pub known: bool,
    pub last: bool,
    pub write: bool,
    pub at: u32,
    pub room: u32,
}

// The rows of a scope that the plan of the route in a place asks of its left stream: as they were kept where they are known, or selected and kept.
fn left_rows(
    p: Plan,
    turn: Turn,
    sc: Scope,
    times: &[u32],
    values: &[i32],
    words: &[u32],
    granted: &[u32],
    profile: &[u64],
    kept: &mut [u32],
) -> Rows
    requires { Keepable (left_in sc times.now values.now (words_of words.now granted.now profile.now) p) turn.place turn.known kept.old }
    ensures { (result ≡ left_in sc times.now values.now (words_of words.now granted.now profile.now) p) × Keeping result turn.place kept.old kept.new }
{
    if turn.known {
        return kept_rows(kept, turn.place);
    }
    let m = sides::left(p, sc, times, values, words, granted, profile);
    keep_rows(kept, turn.place, m);
    m
}

// A place that the cells of a plan's rows, as they are wanted, do not go past, where it is known without a look for pairs.
fn bound(
    p: Plan,
    lefts: Rows,
    rights: Rows,
    l: Ledger,
    names: &[u64],
    values: &[i32],
    aim: Aim,
) -> Option<u32>
    requires { (p.number ≡ 0 → aim.width ≤ most_width) × (aim.at ≤ aim.room + 4) × (aim.room ≤ room_end) }
    ensures { (r : ℕ) → result ≡ Some r → Bounds l names.now values.now p lefts rights aim r }
{
    if p.joined {
        if p.number == 0 {
            let n = answer::most_pairs(p, lefts, rights, l, names, values);
            return Some(aim.at + n * aim.width);
        }
    }
    None
}

// The place after the cells of a route, as wanted: past the room where they are counted and have none.
// Of the last route that is counted it may be a later place in the room.
pub fn enter(
    y: Way,
    turn: Turn,
    q: Query,
    l: Ledger,
    names: &[u64],
    times: &[u32],
    values: &[i32],
    words: &[u32],
    granted: &[u32],
    profile: &[u64],
    kept: &mut [u32],
    cells: &mut [i64],
) -> u32
    requires { Enterable (record { memory = record { ledger = l; names = names.now; times = times.now; values = values.now }; own = words.now; granted = granted.now; profile = profile.now; forms = query_forms q }) y turn.write turn.at turn.room (length cells.old) × Keepable (left_of (record { memory = record { ledger = l; names = names.now; times = times.now; values = values.now }; own = words.now; granted = granted.now; profile = profile.now; forms = query_forms q }) y) turn.place turn.known kept.old }
    ensures { Turns (record { memory = record { ledger = l; names = names.now; times = times.now; values = values.now }; own = words.now; granted = granted.now; profile = profile.now; forms = query_forms q }) y turn.write turn.last turn.at turn.room cells.old cells.new result × Keeping (left_of (record { memory = record { ledger = l; names = names.now; times = times.now; values = values.now }; own = words.now; granted = granted.now; profile = profile.now; forms = query_forms q }) y) turn.place kept.old kept.new }
{
    let p = y.plan(q, names);
    let left = sides::scope(l, names, p.left);
    let lefts = left_rows(p, turn, left, times, values, words, granted, profile, kept);
    let right = sides::right_scope(p, left, l, names);
    let rights = sides::right(p, right, times, values, words, granted, profile);
    let w = route_rows::width(p);
    let aim = Aim {
        write: turn.write,
        at: turn.at + HEADER,
        room: turn.room,
        width: w,
    };
    if turn.last {
        if let Some(end) = bound(p, lefts, rights, l, names, values, aim) {
            if end <= turn.room {
                return end;
            }
        }
    }
    let n = route_rows::rows(
        p, lefts, rights, l, names, times, values, words, granted, profile, aim, cells,
    );
    if !turn.write {
        return after(n, w, turn.at, turn.room);
    }
    put_header(y, w, n, cells, turn.at);
    turn.at + HEADER + n * w
}
