// The rewritten query of a route: the table of a checked query, with each grant's view in the place of the streams that it opens, in lent words.
#![tactic(auto)]

ghost use Rattle.std.specs.Prelude.{◌≡◌, [], ◌∷◌, cond, eqb};
ghost use Rattle.lists.specs.Lists.{select};
ghost use Rattle.masks.specs.Masks.{bit?};
ghost use Rattle.orders.specs.Orders.{order_from, order_within};
ghost use Rattle.grant.specs.Grants.{column_codes};
ghost use Rattle.query.specs.Forms.{rows_form, pick_form};
ghost use Rattle.query.specs.Tables.{query_forms, held, rewritten_from, rewritten_table};
ghost use Rattle.rewrite.specs.Rewrites.{under_of, cut_form, seen_forms, side_forms, side_picks, side_stream, side_rest, side_order, view_forms, joined_forms, pair_forms, sum_forms};

use query::{Form, Query};
use schema::Stream;

// What a rewritten query needs of a grant: its place in the catalogue, the shown columns as bits, how many words its conditions take, its first and last time.
#[derive(Clone, Copy)]
pub struct Restriction {
    pub place: u32,
    pub shown: u32,
    pub words: u32,
    pub from: u32,
    pub to: u32,
}

impl Restriction {
    // Returns the form of its conditions and times.
    pub fn under(self) -> Form
        ensures { result ≡ under_of self }
    {
        Form::under(self.place, self.words, self.from, self.to)
    }
}

// The forms of a query.
fn forms(q: &Query) -> &[Form]
    ensures { result.now ≡ query_forms q.now }
{
    let places: &[Form] = &q.forms;
    &places[..q.count() as usize]
}

// A form as far as its columns are those of a mask.
fn cut(f: Form, mask: u32) -> Form
    ensures { result ≡ cut_form mask f }
{
    if f.kind == Form::KEEP {
        return Form::keep(orders::within(f.order(), mask));
    }
    f
}

// An order with those columns of one stream more that a mask has.
fn with_columns(order: u64, names: &[u64], s: u32, mask: u32) -> u64
    ensures { result ≡ order_from order (select (bit? mask) (column_codes names.now (s ∷ []))) }
{
    let n = schema::width(names, s as usize);
    let mut m = order;
    if Stream::MOST <= s as usize {
        return m;
    }
    for c in 0..n {
        m = orders::with_shown(m, mask, (s as usize * Stream::COLUMNS + c) as u32);
    }
    m
}

// A table with a stream more, as a grant shows it.
fn put_seen(table: &mut [u32], n: u32, names: &[u64], f: Form, g: Restriction) -> u32
    ensures { held table.new result ≡ rewritten_from (held table.old n) (seen_forms names.now g f) }
{
    let shown = with_columns(0, names, f.first, g.shown);
    let kept = query::put_form(table, n, Form::keep(shown));
    let limited = query::put_form(table, kept, g.under());
    query::put_form(table, limited, f)
}

// A table with a form more of a query with a grant for each stream.
fn put_side(table: &mut [u32], n: u32, names: &[u64], f: Form, g: Restriction, mask: u32) -> u32
    ensures { held table.new result ≡ rewritten_from (held table.old n) (cond (eqb f.kind rows_form) (seen_forms names.now g f) (cut_form mask f ∷ [])) }
{
    if f.is_rows() {
        return put_seen(table, n, names, f, g);
    }
    query::put_form(table, n, cut(f, mask))
}

// The grant of the next stream after a form.
fn after(f: Form, g: Restriction, next: Restriction) -> Restriction
    ensures { result ≡ cond (eqb f.kind rows_form) next g }
{
    if f.is_rows() {
        return next;
    }
    g
}

// Returns how many forms the rewritten query of a route has with a grant for each stream, the first stream's and that of the stream after it.
// Leaves the forms in the words from the first on, and all else as it was.
pub fn sides(
    q: Query,
    names: &[u64],
    first: Restriction,
    second: Restriction,
    table: &mut [u32],
) -> u32
    ensures { held table.new result ≡ rewritten_table table.old (side_forms names.now first second (query_forms q)) }
{
    let mask = masks::either(first.shown, second.shown);
    let mut r = 0;
    let mut g = first;
    for f in forms(&q) {
        r = put_side(table, r, names, *f, g, mask);
        g = after(*f, g, second);
    }
    r
}

// The stream of a side, and the forms after it: a form of zeros and none where there is no stream.
fn side(forms: &[Form]) -> (Form, &[Form])
    ensures stream { result.0 ≡ side_stream forms.now }
    ensures rest { result.1.now ≡ side_rest forms.now }
{
    for (i, f) in forms.iter().enumerate() {
        if f.is_rows() {
            return (*f, &forms[i + 1..]);
        }
    }
    (Form::rows(0), &forms[forms.len()..])
}

// The columns of a side, as far as a mask has them: those of its outermost keep, or its stream's.
fn side_columns(forms: &[Form], names: &[u64], mask: u32) -> u64
    ensures { result ≡ order_within mask (side_order names.now forms.now) }
{
    for f in forms {
        if f.is_rows() {
            return with_columns(0, names, f.first, mask);
        }
        if f.kind == Form::KEEP {
            return orders::within(f.order(), mask);
        }
    }
    0
}

// A table with a form more where it is a pick.
fn put_pick(table: &mut [u32], n: u32, f: Form) -> u32
    ensures { held table.new result ≡ rewritten_from (held table.old n) (cond (eqb f.kind pick_form) (f ∷ []) []) }
{
    if f.kind == Form::PICK {
        return query::put_form(table, n, f);
    }
    n
}

// A table with the picks of a side.
fn put_picks(table: &mut [u32], r: u32, forms: &[Form]) -> u32
    ensures { held table.new result ≡ rewritten_from (held table.old r) (side_picks forms.now) }
{
    let mut x = r;
    for f in forms {
        if f.is_rows() {
            return x;
        }
        x = put_pick(table, x, *f);
    }
    x
}

// A table with a grant's view of a join of two streams.
fn put_view(
    table: &mut [u32],
    n: u32,
    names: &[u64],
    g: Restriction,
    join: Form,
    a: Form,
    b: Form,
) -> u32
    ensures { held table.new result ≡ rewritten_from (held table.old n) (view_forms names.now g join a b) }
{
    let left = with_columns(0, names, a.first, g.shown);
    let both = with_columns(left, names, b.first, g.shown);
    let kept = query::put_form(table, n, Form::keep(both));
    let limited = query::put_form(table, kept, g.under());
    let joined = query::put_form(table, limited, join);
    let one = query::put_form(table, joined, a);
    query::put_form(table, one, b)
}

// A table with a join of the forms after it more, as a grant shows it.
fn put_joined(
    table: &mut [u32],
    n: u32,
    names: &[u64],
    g: Restriction,
    join: Form,
    forms: &[Form],
) -> u32
    ensures { held table.new result ≡ rewritten_from (held table.old n) (joined_forms names.now g join forms.now) }
{
    let (a, right) = side(forms);
    let (b, _) = side(right);
    let first = side_columns(forms, names, g.shown);
    let second = side_columns(right, names, g.shown);
    let kept = query::put_form(table, n, Form::keep(orders::joined(first, second)));
    let outer = put_picks(table, kept, right);
    let inner = put_picks(table, outer, forms);
    put_view(table, inner, names, g, join, a, b)
}

// Returns how many forms the rewritten query of a route has with one grant on the pair.
// Leaves the forms in the words from the first on, and all else as it was.
pub fn pair(q: Query, names: &[u64], g: Restriction, table: &mut [u32]) -> u32
    ensures { held table.new result ≡ rewritten_table table.old (pair_forms names.now g (query_forms q)) }
{
    let all = forms(&q);
    let mut r = 0;
    for (i, f) in all.iter().enumerate() {
        if f.kind == Form::JOIN {
            return put_joined(table, r, names, g, *f, &all[i + 1..]);
        }
        r = query::put_form(table, r, cut(*f, g.shown));
    }
    r
}

// Returns how many forms the rewritten query of a route has with an aggregate grant on one stream.
// Leaves the forms in the words from the first on, and all else as it was.
pub fn sum(q: Query, names: &[u64], g: Restriction, table: &mut [u32]) -> u32
    ensures { held table.new result ≡ rewritten_table table.old (sum_forms names.now g (query_forms q)) }
{
    let all = forms(&q);
    let mut r = 0;
    for (i, f) in all.iter().enumerate() {
        r = query::put_form(table, r, *f);
        if f.kind == Form::AGGREGATE {
            let (stream, _) = side(&all[i + 1..]);
            return put_seen(table, r, names, stream, g);
        }
    }
    r
}
