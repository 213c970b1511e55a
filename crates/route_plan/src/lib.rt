// A route of a query: its grants, its rewritten table and its plan.
#![tactic(auto)]

ghost use Rattle.std.specs.Prelude.{◌≡◌};
ghost use Rattle.query.specs.Tables.{query_forms, held, rewritten_table};
ghost use Rattle.route_plan.specs.Ways.{granted_in, way_of, way_forms, way_plan};

use needs::Needs;
use plan::Plan;
use query::Query;
use rewrite::Restriction;
use routes::{Open, Route};

// A route: whether its query has one stream, its kind, and its grants, twice the same where it has one.
#[derive(Clone, Copy)]
pub struct Way {
    pub lone: bool,
    pub kind: u32,
    pub left: Restriction,
    pub right: Restriction,
}

// The opened grant in a place.
fn granted_in(o: Open, i: u32) -> Restriction
    ensures { result ≡ granted_in o i }
{
    Restriction {
        place: i,
        shown: places::word_at(&o.shown, i),
        words: places::word_at(&o.words, i),
        from: places::word_at(&o.from, i),
        to: places::word_at(&o.to, i),
    }
}

impl Way {
    // Returns a route as its query and its grants have it.
    pub fn of(o: Open, n: Needs, x: Route) -> Way
        ensures { result ≡ way_of o n x }
    {
        Way {
            lone: n.right == Needs::NONE,
            kind: x.kind,
            left: granted_in(o, x.left),
            right: granted_in(o, x.right),
        }
    }

    // Returns how many forms the rewritten query of the route has.
    // Leaves the forms in the words from the first on, and all else as it was.
    pub fn put_table(self, q: Query, names: &[u64], table: &mut [u32]) -> u32
        ensures { held table.new result ≡ rewritten_table table.old (way_forms names.now self (query_forms q)) }
    {
        let g = self.left;
        if self.kind == Route::SIDES {
            let h = self.right;
            return rewrite::sides(q, names, g, h, table);
        }
        if self.kind != Route::FIGURES {
            return rewrite::pair(q, names, g, table);
        }
        if self.lone {
            return rewrite::sum(q, names, g, table);
        }
        rewrite::pair(q, names, g, table)
    }

    // Returns the plan of the rewritten query of the route.
    pub fn plan(self, q: Query, names: &[u64]) -> Plan
        ensures { result ≡ way_plan names.now self (query_forms q) }
    {
        let mut table: [u32; query::TABLE_WORDS] = [0; query::TABLE_WORDS];
        let n = self.put_table(q, names, &mut table);
        plan::laid(&table, n, names)
    }
}
