// What a query asks of grants: one struct of numbers, from the table of its forms.
#![tactic(auto)]

ghost use Rattle.std.specs.Prelude.{◌≡◌};
ghost use Rattle.std.specs.Int.Bits.{bit_and};
ghost use Rattle.masks.specs.Masks.{mask_of};
ghost use Rattle.orders.specs.Orders.{codes_in};
ghost use Rattle.query.specs.Tables.{query_forms};
ghost use Rattle.comparisons.specs.Compared.{compared, named_by};
ghost use Rattle.nodes.specs.Nodes.{link};
ghost use Rattle.needs.specs.Asking.{all_columns, code_bit, form_fn, rows_needs, pick_needs, keep_needs, join_needs, aggregate_needs, outer_needs, wide_needs, form_needs, no_needs, needs_in};

use query::{Form, Query};
use terms::Term;

// Its streams (`right` is Needs::NONE where it has one), the columns that its picks and its aggregate name, those of its equality with their codes,
// those of its answer (none of an aggregate's), whether a pick below the join names `time`, whether there is a pick below the aggregate, and the
// aggregate (0 for none, 1 min, 2 max, 3 count, 4 avg, 5 sum) with its column's code, SIZE and OFFSET. Columns are bits by their codes.
#[derive(Clone, Copy)]
pub struct Needs {
    pub left: u32,
    pub right: u32,
    pub need: u32,
    pub keys: u32,
    pub first: u32,
    pub second: u32,
    pub header: u32,
    pub timed: bool,
    pub picked: bool,
    pub aggregate: u32,
    pub column: u32,
    pub size: u32,
    pub offset: u32,
}

// What the first two of some queries ask.
#[derive(Clone, Copy)]
pub struct Sides {
    pub outer: Needs,
    pub inner: Needs,
}

// The bit of a column by its code.
fn code_bit(code: u32) -> u32
    ensures { result ≡ code_bit code }
{
    if Term::TIME <= code {
        return 0;
    }
    masks::with(0, code)
}

// The number of an aggregate's form: any that is none is that of `sum`.
fn fn_number(n: u32) -> u32
    ensures { result ≡ form_fn n }
{
    if n == 0 {
        return Needs::SUM;
    }
    if Needs::SUM < n {
        return Needs::SUM;
    }
    n
}

// The columns of an order.
fn order_columns(order: u64) -> u32
    ensures { result ≡ bit_and (mask_of (codes_in order)) all_columns }
{
    orders::mask_of(order) & Needs::COLUMNS
}

// What the condition whose words end at a place names.
fn pick_named(words: &[u32], k: u32) -> u32
    ensures { result ≡ named_by (compared words.now (link words.now k) k) }
{
    let stop = nodes::link_of(words, k as usize);
    comparisons::named(words, stop, k as usize)
}

impl Needs {
    // No stream.
    pub const NONE: u32 = 4294967295;
    // The bits of all columns.
    pub const COLUMNS: u32 = 16777215;
    // The last of the aggregates.
    pub const SUM: u32 = 5;

    // The rows of a stream.
    fn of_rows(names: &[u64], s: u32) -> Self
        ensures { result ≡ rows_needs names.now s }
    {
        let header = grant::stream_columns(names, s);
        Needs {
            left: s,
            right: Needs::NONE,
            need: 0,
            keys: 0,
            first: 0,
            second: 0,
            header: header,
            timed: false,
            picked: false,
            aggregate: 0,
            column: 0,
            size: 0,
            offset: 0,
        }
    }

    // Whether `time` is that of one stream's rows, and is named.
    fn times(self, named: u32) -> bool
        ensures { result ≡ (pick_needs named self).timed }
    {
        if self.timed {
            return true;
        }
        if self.right != Needs::NONE {
            return false;
        }
        masks::shows(named, Term::TIME)
    }

    // Whether there is a pick below the aggregate, with one more here.
    fn picks(self) -> bool
        ensures { result ≡ (pick_needs 0 self).picked }
    {
        if self.picked {
            return true;
        }
        self.aggregate == 0
    }

    // A pick around it, by what its condition names.
    fn with_pick(self, named: u32) -> Self
        ensures { result ≡ pick_needs named self }
    {
        let timed = self.times(named);
        let picked = self.picks();
        Needs {
            left: self.left,
            right: self.right,
            need: (named & Needs::COLUMNS) | self.need,
            keys: self.keys,
            first: self.first,
            second: self.second,
            header: self.header,
            timed: timed,
            picked: picked,
            aggregate: self.aggregate,
            column: self.column,
            size: self.size,
            offset: self.offset,
        }
    }

    // A keep around it.
    fn with_keep(self, columns: u32) -> Self
        ensures { result ≡ keep_needs columns self }
    {
        let mut n = self;
        n.header = columns;
        n
    }

    // A join of it with a right side, by two columns.
    fn with_join(self, right: Needs, a: u32, b: u32) -> Self
        ensures { result ≡ join_needs a b self right }
    {
        let x = code_bit(a);
        let y = code_bit(b);
        Needs {
            left: self.left,
            right: right.left,
            need: self.need | right.need,
            keys: x | y,
            first: a,
            second: b,
            header: self.header | right.header,
            timed: self.timed | right.timed,
            picked: self.picked | right.picked,
            aggregate: 0,
            column: 0,
            size: 0,
            offset: 0,
        }
    }

    // An aggregate around it.
    fn with_aggregate(self, number: u32, column: u32, size: u32, offset: u32) -> Self
        ensures { result ≡ aggregate_needs number column size offset self }
    {
        let x = code_bit(column);
        let mut n = self;
        n.need = x | self.need;
        n.header = 0;
        n.aggregate = number;
        n.column = column;
        n.size = size;
        n.offset = offset;
        n
    }

    // Returns what a query asks of grants, from the table of its forms and the words of its conditions.
    pub fn of(q: Query, words: &[u32], names: &[u64]) -> Self
        ensures { result ≡ needs_in names.now words.now (query_forms q) }
    {
        let mut s = Sides::none(names);
        for i in (0..q.count()).rev() {
            s = s.with_form(q.form(i), words, names);
        }
        s.outer
    }
}

impl Sides {
    // No query.
    fn none(names: &[u64]) -> Self
        ensures { result ≡ no_needs names.now }
    {
        let n = Needs::of_rows(names, 0);
        Sides { outer: n, inner: n }
    }

    // Another first query.
    fn with_outer(self, n: Needs) -> Self
        ensures { result ≡ outer_needs n self }
    {
        let inner = self.inner;
        Sides {
            outer: n,
            inner: inner,
        }
    }

    // A stream's rows in front.
    fn with_rows(self, names: &[u64], s: u32) -> Self
        ensures { result ≡ record { outer = rows_needs names.now s; inner = self.outer } }
    {
        let n = Needs::of_rows(names, s);
        let inner = self.outer;
        Sides {
            outer: n,
            inner: inner,
        }
    }

    // A join or an aggregate in front of the queries.
    fn with_wide(self, f: Form) -> Self
        ensures { result ≡ wide_needs f self }
    {
        let n = self.outer;
        let a = comparisons::column_code(f.first);
        let b = comparisons::column_code(f.second);
        if f.kind == Form::JOIN {
            let right = self.inner;
            return self.with_outer(n.with_join(right, a, b));
        }
        if f.kind == Form::AGGREGATE {
            return self.with_outer(n.with_aggregate(fn_number(f.first), b, f.third, f.fourth));
        }
        self
    }

    // A form in front of the queries.
    fn with_form(self, f: Form, words: &[u32], names: &[u64]) -> Self
        ensures { result ≡ form_needs names.now words.now f self }
    {
        let n = self.outer;
        if f.kind == Form::ROWS {
            return self.with_rows(names, f.first);
        }
        if f.kind == Form::PICK {
            return self.with_outer(n.with_pick(pick_named(words, f.first)));
        }
        if f.kind == Form::KEEP {
            return self.with_outer(n.with_keep(order_columns(f.order())));
        }
        self.with_wide(f)
    }
}
