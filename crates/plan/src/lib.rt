// What a table of forms asks for, laid out flat.
#![tactic(auto)]

ghost use Rattle.std.specs.Prelude.{◌≡◌};
ghost use Rattle.plan.specs.Plans.{no_view, view_of, no_plan, stream_order, with_rows, with_pick, with_keep, with_join, with_aggregate, with_view, plan_step, plan_in};
ghost use Rattle.query.specs.Tables.{forms_in};

use grant::Grant;
use query::{Form, Query};
use schema::Stream;

// What a grant's view asks of rows: the conditions in so many words at its place in the catalogue, and a first and last time, or Grant::NONE.
#[derive(Clone, Copy)]
pub struct View {
    pub place: u32,
    pub words: u32,
    pub from: u32,
    pub to: u32,
}

impl View {
    // Returns the view that asks for nothing.
    pub fn none() -> View
        ensures { result ≡ no_view }
    {
        View {
            place: 0,
            words: 0,
            from: Grant::NONE,
            to: Grant::NONE,
        }
    }

    // Returns the view of a form.
    pub fn of(f: Form) -> View
        ensures { result ≡ view_of f }
    {
        View {
            place: f.first,
            words: f.second,
            from: f.third,
            to: f.fourth,
        }
    }
}

// The columns of a stream, in their order.
fn stream_order(names: &[u64], s: u32) -> u64
    ensures { result ≡ stream_order names.now s }
{
    let n = schema::width(names, s as usize);
    let mut m: u64 = 0;
    if Stream::MOST <= s as usize {
        return m;
    }
    for c in 0..n {
        m = orders::with_code(m, (s as usize * Stream::COLUMNS + c) as u32);
    }
    m
}

// The streams, or the one as `left`; whether they are joined, and by which columns; the columns of the answer, and those of the right side; the aggregate by
// its number (0 for none), its column, SIZE and OFFSET. `picks` are the places where the words of conditions end: from `start` those of the right side, from
// `rights` those of the left, from `lefts` those of joined rows, from `uppers` those of figures, up to `count`. Each part has a view beside it.
#[derive(Clone, Copy)]
pub struct Plan {
    pub left: u32,
    pub right: u32,
    pub joined: bool,
    pub first: u32,
    pub second: u32,
    pub order: u64,
    pub other: u64,
    pub number: u32,
    pub column: u32,
    pub size: u32,
    pub offset: u32,
    pub start: u32,
    pub rights: u32,
    pub lefts: u32,
    pub uppers: u32,
    pub count: u32,
    pub picks: [u32; Plan::PICKS],
    pub view: View,
    pub lview: View,
    pub rview: View,
}

impl Plan {
    // How many conditions of its own a query can have.
    pub const PICKS: usize = Query::FORMS as usize;

    // Returns the plan of no form.
    pub fn new() -> Plan
        ensures { result ≡ no_plan }
    {
        Plan {
            left: 0,
            right: 0,
            joined: false,
            first: 0,
            second: 0,
            order: 0,
            other: 0,
            number: 0,
            column: 0,
            size: 0,
            offset: 0,
            start: 0,
            rights: 0,
            lefts: 0,
            uppers: 0,
            count: 0,
            picks: [0; Plan::PICKS],
            view: View::none(),
            lview: View::none(),
            rview: View::none(),
        }
    }

    // The plan with a stream more: what came before it may be the right side of a join.
    fn with_rows(self, f: Form, names: &[u64]) -> Plan
        ensures { result ≡ with_rows names.now f self }
    {
        let mut p = self;
        let view = self.view;
        p.left = f.first;
        p.right = self.left;
        p.joined = false;
        p.first = 0;
        p.second = 0;
        p.order = stream_order(names, f.first);
        p.other = self.order;
        p.number = 0;
        p.column = 0;
        p.size = 0;
        p.offset = 0;
        p.start = self.rights;
        p.rights = self.count;
        p.lefts = 0;
        p.uppers = 0;
        p.view = View::none();
        p.lview = View::none();
        p.rview = view;
        p
    }

    // The plan with a condition more.
    fn with_pick(self, f: Form) -> Plan
        ensures { result ≡ with_pick f self }
    {
        let n = self.count as usize;
        let mut p = self;
        if Plan::PICKS <= n {
            return p;
        }
        p.picks[n] = f.first;
        p.count = self.count + 1;
        p
    }

    // The plan with other columns.
    fn with_keep(self, f: Form) -> Plan
        ensures { result ≡ with_keep f self }
    {
        let mut p = self;
        p.order = f.order();
        p
    }

    // The plan with its two sides joined.
    fn with_join(self, f: Form) -> Plan
        ensures { result ≡ with_join f self }
    {
        let mut p = self;
        let lview = self.view;
        p.joined = true;
        p.first = f.first;
        p.second = f.second;
        p.order = orders::joined(self.order, self.other);
        p.number = 0;
        p.column = 0;
        p.size = 0;
        p.offset = 0;
        p.lefts = self.count;
        p.uppers = 0;
        p.view = View::none();
        p.lview = lview;
        p
    }

    // The plan with an aggregate.
    fn with_aggregate(self, f: Form) -> Plan
        ensures { result ≡ with_aggregate f self }
    {
        let mut p = self;
        p.number = f.first;
        p.column = f.second;
        p.size = f.third;
        p.offset = f.fourth;
        p.uppers = self.count;
        p
    }

    // The plan with a grant's view.
    fn with_view(self, f: Form) -> Plan
        ensures { result ≡ with_view f self }
    {
        let mut p = self;
        p.view = View::of(f);
        p
    }

    // Returns the plan with a form more, in front of those that it has.
    pub fn with(self, f: Form, names: &[u64]) -> Plan
        ensures { result ≡ plan_step names.now f self }
    {
        let k = f.kind;
        if k == Form::ROWS {
            return self.with_rows(f, names);
        }
        if k == Form::PICK {
            return self.with_pick(f);
        }
        if k == Form::KEEP {
            return self.with_keep(f);
        }
        if k == Form::JOIN {
            return self.with_join(f);
        }
        if k == Form::AGGREGATE {
            return self.with_aggregate(f);
        }
        self.with_view(f)
    }
}

// Returns the plan of the forms of a rewritten table.
pub fn laid(table: &[u32], n: u32, names: &[u64]) -> Plan
    ensures { result ≡ plan_in names.now (forms_in table.now n) }
{
    let mut p = Plan::new();
    for i in (0..query::count_in(n)).rev() {
        p = p.with(query::form_in(table, n, i), names);
    }
    p
}
