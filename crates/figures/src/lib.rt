// Conditions on an answer row of an aggregate. They stand as nodes in words, and are evaluated for one row.
#![tactic(auto)]

ghost use Rattle.std.specs.Prelude.{◌≡◌, ◌∷◌, [], ◌+◌, ◌*◌, ◌-◌, ◌<◌, get_or};
ghost use Rattle.std.specs.Int.Signed.{lt_z, le_z};
ghost use Rattle.model.specs.Queries.{figure};
ghost use Rattle.model.specs.Meaning.{compares, holds};
ghost use Rattle.nodes.specs.Nodes.{node_at, numbered_op, cond_in, list_in};
ghost use Rattle.figures.specs.Figures.{meets, passing, coded_value, tested, connecting, decisive, joined, Leading, Standing};

use nodes::Node;
use terms::Term;

// An answer row: the end of its window, and its figure.
#[derive(Clone, Copy)]
pub struct Answer {
    pub end: u32,
    pub figure: i64,
}

impl Answer {
    // The value of a term by its code, and the number of its comparison.
    fn term(self, code: u32, v: u32) -> i64
        ensures { result ≡ coded_value self code v }
    {
        match code {
            Term::TIME => self.end as i64,
            Term::FIGURE => self.figure,
            Term::NUMBER => v as i64 - 2147483648,
            _ => 0,
        }
    }
}

// Whether two values compare as the head of a node says.
fn compared(head: u32, l: i64, m: i64) -> bool
    ensures { result ≡ compares (numbered_op head) l m }
{
    match head {
        1 => l == m,
        2 => l != m,
        3 => l < m,
        4 => l <= m,
        5 => m < l,
        _ => m <= l,
    }
}

// The word two places before another.
fn word_before(words: &[u32], k: usize) -> u32
    ensures { result ≡ get_or words.now (k - 2) 0 }
{
    if k < 2 {
        return places::word_in(words, 0);
    }
    places::word_in(words, k - 2)
}

// A number that may stand for the value of the node that ends at a place.
fn number_at(words: &[u32], k: usize, n: Node) -> u32
    requires { n ≡ node_at words.now k }
    ensures { Standing n result }
{
    if n.right == Term::NUMBER {
        return word_before(words, k);
    }
    if n.right != Term::ENTRY {
        return 0;
    }
    if n.value < 4294967296 {
        return n.value as u32;
    }
    4294967295
}

impl Answer {
    // Whether the comparison of the node that ends at a place holds.
    fn test(self, words: &[u32], k: usize, n: Node) -> bool
        requires { n ≡ node_at words.now k }
        ensures { result ≡ tested self n }
    {
        let v = number_at(words, k, n);
        let l = self.term(n.left, v);
        let m = self.term(n.right, v);
        compared(n.head, l, m)
    }
}

// Whether a head is one of a condition of conditions.
fn connects(head: u32) -> bool
    ensures { result ≡ connecting head }
{
    if head == Node::AND {
        return true;
    }
    if head == Node::OR {
        return true;
    }
    head == Node::NOT
}

// Whether a condition decides its list.
fn decides(any: bool, b: bool) -> bool
    ensures { result ≡ decisive any b }
{
    if any {
        return b;
    }
    !b
}

// The place of the first condition of the list that ends at place j and goes down to a stop.
fn leading(words: &[u32], stop: usize, j: usize) -> usize
    ensures { Leading words.now stop j result }
{
    if j <= stop {
        return 0;
    }
    let mut e = j;
    let mut b = nodes::link_of(words, j);
    while stop < b {
        e = b;
        b = nodes::link_of(words, e);
    }
    e
}

// Returns whether the condition holds of an answer row that ends at a place, whatever the words hold.
#[cycle(list_passes_passes)]
pub fn passes(words: &[u32], k: usize, a: Answer) -> bool
    ensures { result ≡ holds (figure ∷ []) (record { at = a.end; values = a.figure ∷ [] }) (cond_in (2 * k) words.now k) }
{
    if k == 0 {
        return true;
    }
    let n = nodes::node_at(words, k);
    if !connects(n.head) {
        return a.test(words, k, n);
    }
    let stop = nodes::link_of(words, k);
    if n.head == Node::NOT {
        return !passes(words, leading(words, stop, k - 1), a);
    }
    list_passes(words, stop, k - 1, n.head == Node::OR, a)
}

// Whether all or any hold of the conditions that end at place j and before it, down to a stop.
#[cycle(list_passes_passes)]
fn list_passes(words: &[u32], stop: usize, j: usize, any: bool, a: Answer) -> bool
    ensures { result ≡ meets a (joined any (list_in (2 * j + 1) words.now stop j [])) }
{
    if j <= stop {
        return true;
    }
    let mut at = j;
    while stop < at {
        if decides(any, passes(words, at, a)) {
            return any;
        }
        at = nodes::link_of(words, at);
    }
    !any
}

// Returns whether all conditions hold of an answer row that end at some places, whatever the words and the places hold.
pub fn passes_all(words: &[u32], picks: &[u32], a: Answer) -> bool
    ensures { result ≡ passing words.now picks.now a }
{
    picks.iter().all(|k| passes(words, *k as usize, a))
}
