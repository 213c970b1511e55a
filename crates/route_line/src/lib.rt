// The line of one route: the text of its rewritten query, written into lent bytes.
#![tactic(auto)]

ghost use Rattle.query.specs.Tables.{query_forms};
ghost use Rattle.print_query.specs.Texts.{Lined};
ghost use Rattle.route_line.specs.Texts.{way_text};

use print_query::Printed;
use query::Query;
use route_plan::Way;

// Whether there was room for the line of a route, and how long it is.
pub fn write_line(
    y: Way,
    q: Query,
    names: &[u64],
    words: &[u32],
    granted: &[u32],
    profile: &[u64],
    out: &mut [u8],
) -> Printed
    ensures { Lined (way_text (record { names = names.entry.now; own = words.now; granted = granted.now; profile = profile.now; forms = query_forms q }) y) out.old out.new result }
{
    let mut table: [u32; query::TABLE_WORDS] = [0; query::TABLE_WORDS];
    let n = y.put_table(q, names, &mut table);
    print_query::line(out, &table, n, words, granted, names, profile)
}
