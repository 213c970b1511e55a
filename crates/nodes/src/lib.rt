// Conditions as nodes in words, one to three words a node: neither a recursion nor a table of grants carries them by value.
#![tactic(auto)]

ghost use Rattle.std.specs.Prelude.{◌≡◌, Bool, suc, ◌+◌, ◌*◌, ◌-◌, ◌≤◌, T, length, get_or};
ghost use Rattle.nodes.specs.Nodes.{node_of, node_at, node_words, link, conditions_of, comparing, reaches, linked, in_mask, terms_sound, node_sound, all_sound, max_nesting, shallow_conds, nodes_sound};
ghost use Rattle.nodes.specs.Storing.{head_word, put_value, put_node};

use terms::Term;
use text::Line;

// A comparison (heads 1 to 6: `=` `/=` `<` `<=` `>` `>=`) with the codes of its terms, or a condition of conditions (7 `and`, 8 `or`, 9 `not`).
// `before` is how many words stand before those of this condition. `value` is a number or the name of a profile entry.
#[derive(Clone, Copy)]
pub struct Node {
    pub head: u32,
    pub left: u32,
    pub right: u32,
    pub before: u32,
    pub value: u64,
}

impl Node {
    // The heads of conditions of conditions.
    pub const AND: u32 = 7;

    pub const OR: u32 = 8;

    pub const NOT: u32 = 9;
    // How deep a condition of a grant may nest: in a line its own bracket and that of `when` are open around it.
    pub const NESTING: usize = Line::DEPTH - 2;

    // Returns Node::NESTING, which is the bound of the definitions.
    pub fn nesting() -> usize
        ensures { result ≡ max_nesting }
    {
        Node::NESTING
    }
}

// The word some places before another, or 0 where there is none.
fn word(words: &[u32], k: usize, d: usize) -> u32
    ensures { result ≡ get_or words.now (k - d) 0 }
{
    places::word_in(words, k.saturating_sub(d))
}

// Returns the value of two halves.
pub fn joined(low: u32, high: u32) -> u64
    ensures { result ≡ low + high * 4294967296 }
{
    low as u64 + high as u64 * 4294967296
}

// Returns the node of a head's word and a value.
pub fn unpacked(w: u32, value: u64) -> Node
    ensures { result ≡ node_of w value }
{
    Node {
        head: w % 256,
        left: w / 256 % 256,
        right: w / 65536 % 256,
        before: w / 16777216,
        value: value,
    }
}

// Returns the node whose words end at a place, whatever they hold; a node of zeros at place 0.
pub fn node_at(words: &[u32], k: usize) -> Node
    ensures { result ≡ node_at words.now k }
{
    if k == 0 {
        return unpacked(0, 0);
    }
    let w = word(words, k, 1);
    let right = w / 65536 % 256;
    if right == Term::NUMBER {
        return unpacked(w, word(words, k, 2) as u64);
    }
    if right == Term::ENTRY {
        return unpacked(w, joined(word(words, k, 3), word(words, k, 2)));
    }
    unpacked(w, 0)
}

// Returns how many words a node takes, 1 to 3.
pub fn node_words(n: Node) -> usize
    ensures { result ≡ node_words n }
{
    if n.right == Term::NUMBER {
        return 2;
    }
    if n.right == Term::ENTRY {
        return 3;
    }
    1
}

// The head's word of a node: four bytes, the head lowest.
fn packed(n: Node) -> u32
    ensures { result ≡ head_word n }
{
    n.head % 256 + n.left % 256 * 256 + n.right % 256 * 65536 + n.before % 256 * 16777216
}

// The words of a node's value after the first b words.
fn put_value(words: &mut [u32], b: usize, n: Node)
    requires { b + node_words n ≤ length words.old }
    ensures { words.new ≡ put_value words.old b n }
{
    if n.right == Term::NUMBER {
        words[b] = (n.value % 4294967296) as u32;
        return;
    }
    if n.right != Term::ENTRY {
        return;
    }
    words[b] = (n.value % 4294967296) as u32;
    words[b + 1] = (n.value / 4294967296 % 4294967296) as u32;
}

// Leaves the node's words after the first b, and all others as they were; all as they were where there is no room for it.
pub fn put_node(words: &mut [u32], b: usize, n: Node)
    ensures { words.new ≡ put_node words.old b n }
{
    let size = node_words(n);
    if words.len() < size {
        return;
    }
    if words.len() - size < b {
        return;
    }
    put_value(words, b, n);
    words[b + size - 1] = packed(n);
}

// Returns how many words stand before those of the condition that ends at a place: fewer than the place, whatever is lent.
pub fn link_of(words: &[u32], k: usize) -> usize
    ensures { result ≡ link words.now k }
{
    ((word(words, k, 1) / 16777216) as usize).min(k.saturating_sub(1))
}

// The list of conditions that ends at a place goes down to a stop.
fn reaches_stop(words: &[u32], stop: usize, j: usize) -> bool
    ensures { result ≡ reaches (suc j) words.now stop j }
{
    let mut at = j;
    while stop < at {
        at = link_of(words, at);
    }
    at == stop
}

// Returns whether a node is a comparison.
pub fn compares(n: Node) -> bool
    ensures { result ≡ comparing n }
{
    if n.head == 0 {
        return false;
    }
    n.head < Node::AND
}

// A node's link fits its head: a comparison has nothing inside, `and` and `or` have one condition or more, `not` has one.
fn links_well(words: &[u32], k: usize, n: Node) -> bool
    ensures { result ≡ linked words.now k n }
{
    let b = n.before as usize;
    if compares(n) {
        return b + node_words(n) == k;
    }
    if n.right != 0 {
        return false;
    }
    if n.head < Node::AND {
        return false;
    }
    if Node::NOT < n.head {
        return false;
    }
    if k <= b + 1 {
        return false;
    }
    if !reaches_stop(words, b, k - 1) {
        return false;
    }
    if n.head < Node::NOT {
        return true;
    }
    link_of(words, k - 1) == b
}

// Whether a term is a column of a mask.
fn masked(mask: u32, code: u32) -> bool
    ensures { result ≡ in_mask mask code }
{
    if Term::TIME <= code {
        return false;
    }
    masks::shows(mask, code)
}

// The terms of a grant's comparison: a column of the mask, and such a column, a number or a profile entry.
fn terms_stand(n: Node, mask: u32) -> bool
    ensures { result ≡ terms_sound mask n }
{
    if !masked(mask, n.left) {
        return false;
    }
    if masked(mask, n.right) {
        return true;
    }
    if n.right == Term::NUMBER {
        return n.value < 4294967296;
    }
    if n.right == Term::ENTRY {
        return schema::valid_name(n.value);
    }
    false
}

fn node_sound(words: &[u32], k: usize, n: Node, mask: u32) -> bool
    ensures { result ≡ node_sound (terms_sound mask) words.now k n }
{
    if !links_well(words, k, n) {
        return false;
    }
    if !compares(n) {
        return true;
    }
    terms_stand(n, mask)
}

// Every node is sound, from the one that ends at a place back to the first.
fn all_sound(words: &[u32], n: usize, mask: u32) -> bool
    ensures { result ≡ all_sound (suc n) (terms_sound mask) words.now n }
{
    let mut k = n;
    while 0 < k {
        let node = node_at(words, k);
        if !node_sound(words, k, node, mask) {
            return false;
        }
        k = k.saturating_sub(node_words(node));
    }
    true
}

// A link as a place.
fn place(before: u32) -> usize
    ensures { result ≡ before }
{
    before as usize
}

// No condition nests too deep, where every node is sound and the last links lead down to the first: from the last node back to the first,
// with how many words stand before each condition that the node is inside of, the outermost in place 1.
fn nests_well(words: &[u32], n: usize) -> bool
    ensures { (ok : Node → Bool) → T (all_sound (suc n) ok words.now n) → T (reaches (suc n) words.now 0 n) → result ≡ shallow_conds (conditions_of words.now n) }
{
    let mut around = [0u32; Node::NESTING];
    let mut depth: usize = 0;
    let mut k = n;
    while 0 < k {
        if k <= place(around[depth]) {
            depth -= 1;
            continue;
        }
        let node = unpacked(word(words, k, 1), 0);
        let b = place(node.before);
        if k <= b {
            return false;
        }
        if node.head < Node::AND {
            k = b;
            continue;
        }
        depth += 1;
        if depth == Node::NESTING {
            return false;
        }
        around[depth] = node.before;
        k -= 1;
    }
    true
}

// Returns whether the first n words may be lent (refusal 12): they are those of a list of conditions over the columns of a mask, none of which
// nests too deep.
pub fn nodes_sound(words: &[u32], n: usize, mask: u32) -> bool
    ensures { result ≡ nodes_sound mask words.now n }
{
    if !all_sound(words, n, mask) {
        return false;
    }
    if !reaches_stop(words, 0, n) {
        return false;
    }
    nests_well(words, n)
}
