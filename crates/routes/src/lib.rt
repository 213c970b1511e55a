// The routes that a caller's grants open for a query: which grants open it, one at a time, and then every route by the places of its grants.
#![tactic(auto)]

ghost use Rattle.std.specs.Prelude.{◌≡◌, ℕ, [], ◌∷◌, map, ◌&&◌, ◌||◌, cond, ◌+◌, ◌<◌, ◌≤◌, leb, eqb};
ghost use Rattle.lists.specs.Lists.{some?, same_list, select};
ghost use Rattle.syntax.specs.Limits.{max_routes};
ghost use Rattle.text.specs.Words.{name_of};
ghost use Rattle.masks.specs.Masks.{bit?};
ghost use Rattle.grant.specs.Grants.{streams_of};
ghost use Rattle.needs.specs.Asking.{no_stream};
ghost use Rattle.routes.specs.Opening.{belongs_in, stream_bits, streams_asked, equality_held, side_opened, right_opened, pair_opened, figures_opened, opened_bits};
ghost use Rattle.routes.specs.Listing.{none_open, bit_also, with_opened, side_route, lone_route, gate_of, leaves_some, places_in, right_sides, side_routes, routes_in, packed, routes_of, route_at, with_route, with_routes, most_opened, Low};

use grant::Grant;
use needs::Needs;
use rows::Rows;

// ---- whose a grant is

// Whether a role is one of some.
fn role_held(role: u64, roles: &[u64]) -> bool
    ensures { result ≡ some? (same_list (name_of role)) (map name_of roles.now) }
{
    roles.contains(&role)
}

// Returns whether a grant is the caller's: one who has its role, and every profile entry that the comparisons of its words name.
// The profile has names and values in turn.
pub fn belongs(g: Grant, words: &[u32], roles: &[u64], profile: &[u64]) -> bool
    ensures { result ≡ belongs_in g words.now roles.now profile.now }
{
    if !role_held(g.role, roles) {
        return false;
    }
    comparisons::all_known(words, g.words as usize, profile)
}

// ---- what a grant opens

// The bits of the columns of a stream.
fn stream_bits(s: u32) -> u32
    ensures { result ≡ stream_bits s }
{
    if s == 0 {
        return 63;
    }
    if s == 1 {
        return 4032;
    }
    if s == 2 {
        return 258048;
    }
    if s == 3 {
        return 16515072;
    }
    0
}

// Whether a grant is on one stream.
fn on_one(g: Grant, s: u32) -> bool
    ensures { result ≡ same_list (streams_of g) (s ∷ []) }
{
    if g.count != 1 {
        return false;
    }
    g.streams[0] == s
}

// Whether a grant is on two streams.
fn on_two(g: Grant, s: u32, t: u32) -> bool
    ensures { result ≡ same_list (streams_of g) (s ∷ (t ∷ [])) }
{
    if g.count != 2 {
        return false;
    }
    if g.streams[0] != s {
        return false;
    }
    g.streams[1] == t
}

// Whether a grant is on the streams that are asked for.
fn on_asked(n: Needs, g: Grant) -> bool
    ensures { result ≡ same_list (streams_of g) (streams_asked n) }
{
    if n.right == Needs::NONE {
        return on_one(g, n.left);
    }
    on_two(g, n.left, n.right)
}

// Whether one of its conditions is the equality that is asked for.
fn equality_held(n: Needs, g: Grant, words: &[u32]) -> bool
    ensures { result ≡ equality_held n g words.now }
{
    comparisons::equates(words, g.words as usize, n.first, n.second)
}

// Whether it opens one stream.
fn side_opened(n: Needs, g: Grant, s: u32) -> bool
    ensures { result ≡ side_opened n g s }
{
    if g.right != Grant::READ {
        return false;
    }
    if !on_one(g, s) {
        return false;
    }
    let bits = stream_bits(s);
    masks::within((n.need | n.keys) & bits, g.shown)
}

// Whether it opens the right side of a join.
fn right_opened(n: Needs, g: Grant) -> bool
    ensures { result ≡ right_opened n g }
{
    if n.right == Needs::NONE {
        return false;
    }
    side_opened(n, g, n.right)
}

// Whether it opens both streams.
fn pair_opened(n: Needs, g: Grant, words: &[u32]) -> bool
    ensures { result ≡ pair_opened n g words.now }
{
    if n.right == Needs::NONE {
        return false;
    }
    if g.right != Grant::READ {
        return false;
    }
    if !on_two(g, n.left, n.right) {
        return false;
    }
    if !equality_held(n, g, words) {
        return false;
    }
    if n.timed {
        return false;
    }
    masks::within(n.need, g.shown)
}

// Whether its window is not above the aggregate's, and it shows the aggregate's column.
fn window_opened(n: Needs, g: Grant) -> bool
    ensures { result ≡ (bit? g.shown n.column && (leb g.size n.size && leb g.offset n.offset)) }
{
    if !masks::shows(g.shown, n.column) {
        return false;
    }
    if n.size < g.size {
        return false;
    }
    g.offset <= n.offset
}

// Whether the equality of two streams is held, where there are two.
fn linked_opened(n: Needs, g: Grant, words: &[u32]) -> bool
    ensures { result ≡ (eqb n.right no_stream || equality_held n g words.now) }
{
    if n.right == Needs::NONE {
        return true;
    }
    equality_held(n, g, words)
}

// Whether it opens the aggregate.
fn figures_opened(n: Needs, g: Grant, words: &[u32]) -> bool
    ensures { result ≡ figures_opened n g words.now }
{
    if n.aggregate == 0 {
        return false;
    }
    if g.right != n.aggregate {
        return false;
    }
    if !on_asked(n, g) {
        return false;
    }
    if !linked_opened(n, g, words) {
        return false;
    }
    if n.picked {
        return false;
    }
    window_opened(n, g)
}

// A number where a test is passed, and else 0.
fn flag(b: bool, v: u32) -> u32
    ensures { (result ≡ cond b v 0) × (result ≤ v) }
{
    if b {
        return v;
    }
    0
}

// Returns what a grant opens: 1 the left side or the only stream, 2 the right side, 4 both streams, 8 the aggregate, added up.
pub fn opens(n: Needs, g: Grant, words: &[u32]) -> u32
    ensures { result ≡ opened_bits n g words.now }
{
    let a = flag(side_opened(n, g, n.left), Open::LEFT);
    let b = flag(right_opened(n, g), Open::RIGHT);
    let c = flag(pair_opened(n, g, words), Open::PAIR);
    let d = flag(figures_opened(n, g, words), Open::FIGURES);
    a + b + c + d
}

// ---- opened grants

// Which grants open what, as bits by their places in the catalogue; and of each grant by its place the columns that it shows, how many words its
// conditions take, and its first and last time.
#[derive(Clone, Copy)]
pub struct Open {
    pub left: u32,
    pub right: u32,
    pub pair: u32,
    pub figures: u32,
    pub shown: [u32; Grant::GRANTS],
    pub words: [u32; Grant::GRANTS],
    pub from: [u32; Grant::GRANTS],
    pub to: [u32; Grant::GRANTS],
}

// A route: its kind, and the places of its grants, which are the same where it has one.
#[derive(Clone, Copy)]
pub struct Route {
    pub kind: u32,
    pub left: u32,
    pub right: u32,
}

impl Route {
    // A grant for each stream.
    pub const SIDES: u32 = 1;
    // A grant for both streams.
    pub const PAIR: u32 = 2;
    // A grant of the aggregate.
    pub const FIGURES: u32 = 3;

    // The route as one number.
    fn packed(self) -> u32
        requires { Low self }
        ensures { result ≡ packed self }
    {
        self.kind * 65536 + self.left * 256 + self.right
    }
}

// A mask with a place more where a bit is set.
fn bit_also(bits: u32, i: u32, mask: u32, place: u32) -> u32
    ensures { result ≡ bit_also bits i mask place }
{
    if masks::shows(bits, i) {
        return masks::with(mask, place);
    }
    mask
}

// ---- routes

// What decides which routes there are, beside what their grants show: `lone` means one stream, `whole` an aggregate.
#[derive(Clone, Copy)]
pub struct Gate {
    pub left: u32,
    pub right: u32,
    pub pair: u32,
    pub figures: u32,
    pub header: u32,
    pub lone: bool,
    pub whole: bool,
}

// Whether a route leaves a column of the answer.
fn leaves_some(g: Gate, shown: &[u32], x: Route) -> bool
    ensures { result ≡ leaves_some g shown.now x }
{
    if g.whole {
        return true;
    }
    let a = places::word_at(shown, x.left);
    let b = places::word_at(shown, x.right);
    (a | b) & g.header != 0
}

// The places on the right that go with one on the left, as bits: of one stream there is one grant.
fn right_sides(g: Gate, place: u32) -> u32
    requires { place < 32 }
    ensures { places_in result ≡ right_sides g place }
{
    if g.lone {
        return masks::with(0, place);
    }
    g.right
}

// How many routes there are, and the first of them in the order of the answer, each as kind * 65536 + left * 256 + right; 0 in the places past the last.
#[derive(Clone, Copy)]
pub struct Routes {
    pub count: u32,
    pub list: [u32; Routes::MOST],
}

impl Routes {
    // How many routes an answer may have.
    pub const MOST: usize = 16;

    // Returns Routes::MOST, which is the bound of the definitions.
    pub fn most() -> usize
        ensures { result ≡ max_routes }
    {
        Routes::MOST
    }

    // Returns the route in a place, a route of zeros where there is none.
    pub fn route(self, i: u32) -> Route
        ensures { result ≡ route_at self i }
    {
        let k = i as usize;
        if Routes::MOST <= k {
            return Route {
                kind: 0,
                left: 0,
                right: 0,
            };
        }
        let w = self.list[k];
        Route {
            kind: w / 65536,
            left: w / 256 % 256,
            right: w % 256,
        }
    }

    // With a route more: counted, and in the list where there is a place for it.
    fn with(self, x: Route) -> Self
        requires { Low x × (self.count < most_opened) }
        ensures { result ≡ with_route self x }
    {
        let k = self.count as usize;
        let mut r = self;
        r.count = self.count + 1;
        if Routes::MOST <= k {
            return r;
        }
        r.list[k] = x.packed();
        r
    }

    // With a route more where it leaves a column.
    fn with_leaving(self, g: Gate, shown: &[u32], x: Route) -> Self
        requires { Low x × (self.count < most_opened) }
        ensures { (result ≡ with_routes self (select (leaves_some g shown.now) (x ∷ []))) × (result.count ≤ self.count + 1) }
    {
        if !leaves_some(g, shown, x) {
            return self;
        }
        self.with(x)
    }

    // With the routes that the places of a mask have, one each.
    fn with_each<F: Fn(u32) -> Route>(self, g: Gate, shown: &[u32], m: u32, route: F) -> Self
        requires callable { F.IsAlwaysCallable route }
        requires low { (i : ℕ) (x : _) → i < 32 → F.post route i x → Low x }
        requires room { self.count + 32 ≤ most_opened }
        ensures routes { (f : ℕ → _) → ((i : ℕ) (x : _) → i < 32 → F.post route i x → x ≡ f i) → result ≡ with_routes self (select (leaves_some g shown.now) (map f (places_in m))) }
        ensures count { result.count ≤ self.count + 32 }
    {
        let mut r = self;
        let mut i = rows::next_bit(m, 0);
        while i < Rows::WORD {
            r = r.with_leaving(g, shown, route(i));
            i = rows::next_bit(m, i + 1);
        }
        r
    }

    // With the routes of a place on the left.
    fn with_rights(self, g: Gate, shown: &[u32], place: u32) -> Self
        requires { (place < 32) × (self.count + 32 ≤ most_opened) }
        ensures { (result ≡ with_routes self (select (leaves_some g shown.now) (map (side_route place) (right_sides g place)))) × (result.count ≤ self.count + 32) }
    {
        let m = right_sides(g, place);
        self.with_each(
            g,
            shown,
            m,
            |j| Route {
                kind: Route::SIDES,
                left: place,
                right: j,
            },
        )
    }

    // With the routes of all places on the left.
    fn with_sides(self, g: Gate, shown: &[u32]) -> Self
        requires { self.count + 1024 ≤ most_opened }
        ensures { (result ≡ with_routes self (select (leaves_some g shown.now) (side_routes g))) × (result.count ≤ self.count + 1024) }
    {
        let mut r = self;
        let mut i = rows::next_bit(g.left, 0);
        while i < Rows::WORD {
            r = r.with_rights(g, shown, i);
            i = rows::next_bit(g.left, i + 1);
        }
        r
    }

    // With the routes of a kind that has one grant, by the places of a mask.
    fn with_lone(self, g: Gate, shown: &[u32], kind: u32, m: u32) -> Self
        requires { (kind ≤ 3) × (self.count + 32 ≤ most_opened) }
        ensures { (result ≡ with_routes self (select (leaves_some g shown.now) (map (lone_route kind) (places_in m)))) × (result.count ≤ self.count + 32) }
    {
        self.with_each(
            g,
            shown,
            m,
            |i| Route {
                kind: kind,
                left: i,
                right: i,
            },
        )
    }
}

impl Open {
    // What a grant opens.
    pub const LEFT: u32 = 1;

    pub const RIGHT: u32 = 2;

    pub const PAIR: u32 = 4;

    pub const FIGURES: u32 = 8;
    // How many places there are.
    pub const PLACES: u32 = Grant::GRANTS as u32;

    // Returns no grant.
    pub fn new() -> Self
        ensures { result ≡ none_open }
    {
        Open {
            left: 0,
            right: 0,
            pair: 0,
            figures: 0,
            shown: [0; Grant::GRANTS],
            words: [0; Grant::GRANTS],
            from: [0; Grant::GRANTS],
            to: [0; Grant::GRANTS],
        }
    }

    // Returns it with the grant in a place, by what the grant opens; as it is where there is no such place.
    pub fn with_grant(self, place: u32, bits: u32, g: Grant) -> Self
        ensures { result ≡ with_opened self place bits g }
    {
        if Open::PLACES <= place {
            return self;
        }
        let i = place as usize;
        let mut o = self;
        o.left = bit_also(bits, 0, self.left, place);
        o.right = bit_also(bits, 1, self.right, place);
        o.pair = bit_also(bits, 2, self.pair, place);
        o.figures = bit_also(bits, 3, self.figures, place);
        o.shown[i] = g.shown;
        o.words[i] = g.words;
        o.from[i] = g.from;
        o.to[i] = g.to;
        o
    }

    // What decides which routes there are.
    fn gate(self, n: Needs) -> Gate
        ensures { result ≡ gate_of self n }
    {
        Gate {
            left: self.left,
            right: self.right,
            pair: self.pair,
            figures: self.figures,
            header: n.header,
            lone: n.right == Needs::NONE,
            whole: n.aggregate != 0,
        }
    }

    // Returns the routes that the grants open for what a query asks.
    pub fn routes(self, n: Needs) -> Routes
        ensures { result ≡ routes_of (routes_in self n) }
    {
        let g = self.gate(n);
        let shown = self.shown;
        let none = Routes {
            count: 0,
            list: [0; Routes::MOST],
        };
        let sides = none.with_sides(g, &shown);
        let pairs = sides.with_lone(g, &shown, Route::PAIR, g.pair);
        pairs.with_lone(g, &shown, Route::FIGURES, g.figures)
    }
}
