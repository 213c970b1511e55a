// What is read of a query's text before a call looks at grants or the record: its checks, its table with the words of its conditions, and what it asks of grants.
#![tactic(auto)]

ghost use Rattle.std.specs.Prelude.{◌≡◌};
ghost use Rattle.query_text.specs.Texts.{told_of, QueryRead, AskRead, LineRead};

use needs::Needs;
use query::Query;
use query_line::Routed;
use query_read::Reading;
use refusal::Checks;

// What is read of a query's text: its checks, the table of its forms with the words of their conditions, and what it asks of grants.
// Of a `line` line also the number of the route, clamped where it is beyond every range.
#[derive(Clone, Copy)]
pub struct Told {
    pub checks: Checks,
    pub query: Query,
    pub needs: Needs,
    pub words: [u32; Reading::WORDS],
    pub number: i64,
}

// A query that was read, with the words of its conditions, and what it asks.
fn with_needs(r: Routed, words: [u32; Reading::WORDS], names: &[u64]) -> Told
    ensures { result ≡ told_of names.now words r }
{
    let a = r.asked;
    let checks = a.checks;
    let query = a.query;
    let needs = Needs::of(query, &words, names);
    Told {
        checks: checks,
        query: query,
        needs: needs,
        words: words,
        number: r.route,
    }
}

// A query by its text alone, made where it is returned: its words are copied once.
pub fn read_query(s: &[u8], names: &[u64]) -> Told
    ensures { QueryRead names.now s.now result }
{
    let mut words: [u32; Reading::WORDS] = [0; Reading::WORDS];
    let a = query_line::query_text(s, names, &mut words);
    let checks = a.checks;
    let query = a.query;
    let needs = Needs::of(query, &words, names);
    Told {
        checks: checks,
        query: query,
        needs: needs,
        words: words,
        number: 0,
    }
}

// The query of an `ask` line.
pub fn read_ask(s: &[u8], names: &[u64]) -> Told
    ensures { AskRead names.now s.now result }
{
    let mut words: [u32; Reading::WORDS] = [0; Reading::WORDS];
    let a = query_line::ask_line(s, names, &mut words);
    with_needs(Routed { route: 0, asked: a }, words, names)
}

// The query of a `line` line, and the number of its route.
pub fn read_line(s: &[u8], names: &[u64]) -> Told
    ensures { LineRead names.now s.now result }
{
    let mut words: [u32; Reading::WORDS] = [0; Reading::WORDS];
    let r = query_line::route_line(s, names, &mut words);
    with_needs(r, words, names)
}

// What a query that was read asks of grants.
pub fn asks(t: Told) -> Needs
    ensures { result ≡ t.needs }
{
    t.needs
}
