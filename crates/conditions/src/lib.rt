// Conditions of a line: what they name, and their nodes in words.
#![tactic(auto)]

ghost use Rattle.std.specs.Prelude.{◌≡◌, true, ◌||◌, suc, ◌≤◌, eqb, length, drop};
ghost use Rattle.syntax.specs.Limits.{max_line};
ghost use Rattle.text.specs.Words.{read_end};
ghost use Rattle.text.specs.Readings.{any_cond};
ghost use Rattle.terms.specs.Terms.{unknown_code, comparison_at};
ghost use Rattle.conditions.specs.Seeing.{head_at, deep_seen, begun, CondRead, ListRead, most_words};
ghost use Rattle.conditions.specs.Steps.{counted, Placed, compared_seen, compared_stored, closed_seen, closed_stored, both_seen, Answers, fitted, CondIn, CondsIn, after_cond, skipped_seen, max_nest};

use nodes::Node;
use terms::Term;
use text::Line;

// The head of a condition by its number, and the place after it.
#[derive(Clone, Copy)]
pub struct Headed {
    pub head: u32,
    pub next: usize,
}

// What is read of conditions, up to a place. `count` words are stored after them; `lefts` and `rights` are the codes of their terms as bits.
// `deep`: brackets nest deeper than they may, and nothing else is told.
#[derive(Clone, Copy)]
pub struct Seen {
    pub next: usize,
    pub count: u32,
    pub over: bool,
    pub unknown: bool,
    pub deep: bool,
    pub lefts: u32,
    pub rights: u32,
}

impl Seen {
    // How many words a node's link can tell: it has one byte.
    pub const MOST: u32 = 255;
    // All counts beyond are this one.
    pub const MORE: u32 = 256;
}

// Returns the head of a condition at a place, and the place after it.
pub fn head_at(s: &[u8], at: usize) -> Option<Headed>
    ensures { result ≡ head_at s.now at }
{
    let p = text::skip(s, at, b'(')?;
    let w = text::read_word(s, p)?;
    let n = w.as_head()?;
    Some(Headed {
        head: n,
        next: w.next,
    })
}

// Conditions up to a place, whose brackets nest too deep.
fn deep_seen(next: usize) -> Seen
    ensures { result ≡ deep_seen next }
{
    Seen {
        next: next,
        count: 0,
        over: false,
        unknown: false,
        deep: true,
        lefts: 0,
        rights: 0,
    }
}

// Returns what is seen before the first condition, at a place and after the first b words.
pub fn begun(at: usize, b: u32) -> Seen
    ensures { result ≡ begun at b }
{
    Seen {
        next: at,
        count: b,
        over: false,
        unknown: false,
        deep: false,
        lefts: 0,
        rights: 0,
    }
}

// ---- where a condition ends that nests too deep, with no recursion

// How far a skip has come: the condition ended at a place, or the next one inside it begins there, with so many conditions of conditions open.
#[derive(Clone, Copy)]
pub enum Skip {
    Ended(usize),
    Next { at: usize, nest: usize },
}

impl Skip {
    // How many conditions of conditions can be open at once: each takes four bytes of a line or more.
    pub const MOST: usize = Line::BYTES / 4;
}

// After a condition that ended at a place: the brackets that close, up to where the next condition begins or the outermost ends.
fn after(s: &[u8], single: &[bool; Skip::MOST], at: usize, nest: usize) -> Option<Skip>
    requires { nest ≤ max_nest }
    ensures { result ≡ after_cond s.now single.now at nest }
{
    let mut p = at;
    let mut n = nest;
    while 0 < n {
        let b = text::byte(s, p);
        if b == b')' {
            p += 1;
            n -= 1;
            continue;
        }
        if b != b' ' {
            return None;
        }
        if single[n - 1] {
            return None;
        }
        return Some(Skip::Next { at: p + 1, nest: n });
    }
    Some(Skip::Ended(p))
}

// Where a condition ends that begins at a place, however deep its brackets nest.
fn skip_cond(s: &[u8], at: usize, names: &[u64]) -> Option<usize>
    requires { length s.now ≤ max_line }
    ensures { result ≡ read_end s.now (any_cond (drop at s.now)) }
{
    let mut single = [false; Skip::MOST];
    let mut nest: usize = 0;
    let mut p = at;
    while p < s.len() {
        let h = head_at(s, p)?;
        let n = h.head;
        if n < Node::AND {
            let c = terms::comparison_at(s, h.next, names)?;
            let k = after(s, &single, c.next, nest)?;
            match k {
                Skip::Ended(end) => return Some(end),
                Skip::Next {
                    at: next,
                    nest: open,
                } => {
                    p = next;
                    nest = open;
                    continue;
                }
            }
        }
        let q = h.next;
        if text::byte(s, q) != b' ' {
            return None;
        }
        single[nest] = n == Node::NOT;
        nest += 1;
        p = q + 1;
    }
    None
}

// ---- the reader

// Returns whether one of two terms is not declared.
pub fn undeclared(left: u32, right: u32) -> bool
    ensures { result ≡ (eqb left unknown_code || eqb right unknown_code) }
{
    if left == Term::UNKNOWN {
        return true;
    }
    right == Term::UNKNOWN
}

// A count of words.
fn counted(n: u32) -> u32
    ensures { result ≡ counted n }
{
    if Seen::MOST < n {
        return Seen::MORE;
    }
    n
}

// A node after the first b words, where it has room: how many words there are then.
fn placed(words: &mut [u32], b: u32, n: Node) -> u32
    requires { b ≤ suc most_words }
    ensures { Placed b n words.old words.new result }
{
    nodes::put_node(words, b as usize, n);
    counted(b + nodes::node_words(n) as u32)
}

// A comparison after its head, its node after the first b words.
fn compared(
    s: &[u8],
    at: usize,
    names: &[u64],
    words: &mut [u32],
    head: u32,
    b: u32,
) -> Option<Seen>
    requires { b ≤ suc most_words }
    ensures { Answers result words.new (compared_seen b (comparison_at names.now s.now at)) (compared_stored head b (comparison_at names.now s.now at) words.old) }
{
    let c = terms::comparison_at(s, at, names)?;
    let n = Node {
        head: head,
        left: c.left,
        right: c.right,
        before: b,
        value: c.value,
    };
    let count = placed(words, b, n);
    let unknown = undeclared(c.left, c.right);
    let lefts = masks::with(0, c.left);
    let rights = masks::with(0, c.right);
    Some(Seen {
        next: c.next,
        count: count,
        over: c.over,
        unknown: unknown,
        deep: false,
        lefts: lefts,
        rights: rights,
    })
}

// The closing bracket of `and`, `or` and `not`, whose node follows those inside.
fn closed(s: &[u8], words: &mut [u32], head: u32, b: u32, i: Seen) -> Option<Seen>
    requires { i.count ≤ suc most_words }
    ensures { Answers result words.new (closed_seen s.now i) (closed_stored head b s.now i words.old) }
{
    let at = i.next;
    if text::byte(s, at) != b')' {
        return None;
    }
    if i.deep {
        return Some(deep_seen(at + 1));
    }
    let n = Node {
        head: head,
        left: 0,
        right: 0,
        before: b,
        value: 0,
    };
    let count = placed(words, i.count, n);
    Some(Seen {
        next: at + 1,
        count: count,
        over: i.over,
        unknown: i.unknown,
        deep: false,
        lefts: i.lefts,
        rights: i.rights,
    })
}

// Conditions, and one after them.
fn both(i: Seen, j: Seen) -> Seen
    ensures { result ≡ both_seen i j }
{
    if i.deep {
        return deep_seen(j.next);
    }
    if j.deep {
        return deep_seen(j.next);
    }
    let over = text::either(i.over, j.over);
    let unknown = text::either(i.unknown, j.unknown);
    let lefts = masks::either(i.lefts, j.lefts);
    let rights = masks::either(i.rights, j.rights);
    Seen {
        next: j.next,
        count: j.count,
        over: over,
        unknown: unknown,
        deep: false,
        lefts: lefts,
        rights: rights,
    }
}

// A condition too deep in brackets: only where it ends.
fn skipped(s: &[u8], at: usize, names: &[u64]) -> Option<Seen>
    requires { length s.now ≤ max_line }
    ensures { result ≡ skipped_seen s.now at }
{
    let e = skip_cond(s, at, names)?;
    Some(deep_seen(e))
}

// A condition at a place, its words after the first b; `level` brackets may still be opened.
#[cycle(cond_in_conds_in)]
fn cond_in(
    s: &[u8],
    at: usize,
    names: &[u64],
    words: &mut [u32],
    b: u32,
    level: u32,
) -> Option<Seen>
    requires { (length s.now ≤ max_line) × (b ≤ suc most_words) }
    ensures { CondIn names.now s.now b level at words.old words.new result }
{
    if level == 0 {
        return skipped(s, at, names);
    }
    let h = head_at(s, at)?;
    let n = h.head;
    let p = h.next;
    if n < Node::AND {
        return compared(s, p, names, words, n, b);
    }
    if n < Node::NOT {
        let i = conds_in(s, p, names, words, b, level - 1)?;
        return closed(s, words, n, b, i);
    }
    if text::byte(s, p) != b' ' {
        return None;
    }
    let i = cond_in(s, p + 1, names, words, b, level - 1)?;
    closed(s, words, Node::NOT, b, i)
}

// One or more conditions, each after one space, their words after the first b.
#[cycle(cond_in_conds_in)]
fn conds_in(
    s: &[u8],
    at: usize,
    names: &[u64],
    words: &mut [u32],
    b: u32,
    level: u32,
) -> Option<Seen>
    requires { (length s.now ≤ max_line) × (b ≤ suc most_words) }
    ensures { CondsIn names.now s.now b level at words.old words.new result }
{
    if text::byte(s, at) != b' ' {
        return None;
    }
    let mut r = begun(at, b);
    while r.next < s.len() {
        let p = r.next;
        if s[p] != b' ' {
            return Some(r);
        }
        let i = cond_in(s, p + 1, names, words, r.count, level)?;
        r = both(r, i);
    }
    None
}

// What is read, where its words have room.
fn fitted(i: Seen, room: usize) -> Option<Seen>
    ensures { result ≡ fitted room i }
{
    if i.deep {
        return Some(i);
    }
    if Seen::MOST < i.count {
        return None;
    }
    if room < i.count as usize {
        return None;
    }
    Some(i)
}

// Returns what is seen of a condition at a place of a line where `level` brackets may still be opened; None where there is none or its words have no room.
// Leaves its words after the first b, and all others as they were; where it is not read or too deep, as many words, of any value.
pub fn read_cond(
    s: &[u8],
    at: usize,
    names: &[u64],
    words: &mut [u32],
    b: u32,
    level: u32,
) -> Option<Seen>
    ensures { CondRead names.now s.now b level at words.old words.new result }
{
    if Line::BYTES < s.len() {
        return None;
    }
    if level == 0 {
        return skipped(s, at, names);
    }
    let i = cond_in(s, at, names, words, counted(b), level)?;
    fitted(i, words.len())
}

// Returns what is seen of one or more conditions of a line up to a closing bracket, and the place of that; None as in `read_cond`.
// Leaves their words from the first on, and all others as they were; where they are not read or too deep, as many words, of any value.
pub fn read_list(s: &[u8], at: usize, names: &[u64], words: &mut [u32], level: u32) -> Option<Seen>
    ensures { ListRead names.now s.now level at words.old words.new result }
{
    if Line::BYTES < s.len() {
        return None;
    }
    let i = conds_in(s, at, names, words, 0, level)?;
    if text::byte(s, i.next) != b')' {
        return None;
    }
    fitted(i, words.len())
}
