// What the comparisons of stored conditions name: columns, the time, profile entries, and the equality of two columns.
#![tactic(auto)]

ghost use Rattle.std.specs.Prelude.{◌≡◌, ◌&&◌, min, eqb};
ghost use Rattle.std.specs.Int.Bits.{bit_or};
ghost use Rattle.lists.specs.Lists.{every, some?};
ghost use Rattle.model.specs.Grants.{has_entry, term_known};
ghost use Rattle.model.specs.Routes.{is_equality};
ghost use Rattle.text.specs.Words.{name_of};
ghost use Rattle.masks.specs.Masks.{mask_of};
ghost use Rattle.nodes.specs.Nodes.{coded_term, conditions_of};
ghost use Rattle.query.specs.Forms.{coded_col};
ghost use Rattle.comparisons.specs.Compared.{own_compare, compared, term_codes, named_by, profile_in, compare_known, column_code, node_equates};

use nodes::Node;
use terms::Term;

// ---- profile entries

// Whether a profile has an entry of a name.
fn has_entry(profile: &[u64], name: u64) -> bool
    ensures { result ≡ has_entry (profile_in profile.now) (name_of name) }
{
    let (entries, _) = profile.as_chunks::<2>();
    entries.iter().any(|e| e[0] == name)
}

// Whether a term is no profile entry, or one that is there.
fn term_known(code: u32, value: u64, profile: &[u64]) -> bool
    ensures { result ≡ term_known (profile_in profile.now) (coded_term code value) }
{
    if code < Term::ENTRY {
        return true;
    }
    has_entry(profile, value)
}

// Whether the profile entries that a node's comparison names are there.
fn node_known(n: Node, profile: &[u64]) -> bool
    ensures { result ≡ every (compare_known (profile_in profile.now)) (own_compare n) }
{
    if !nodes::compares(n) {
        return true;
    }
    if !term_known(n.left, n.value, profile) {
        return false;
    }
    term_known(n.right, n.value, profile)
}

// Returns whether a profile has every entry that a comparison of the first n words names. Words that are not lent name none.
pub fn all_known(words: &[u32], n: usize, profile: &[u64]) -> bool
    ensures { result ≡ every (compare_known (profile_in profile.now)) (compared words.now 0 n) }
{
    let mut k = n.min(words.len());
    while 0 < k {
        let node = nodes::node_at(words, k);
        if !node_known(node, profile) {
            return false;
        }
        k = k.saturating_sub(nodes::node_words(node));
    }
    true
}

// ---- columns and the time

// A mask with the code of a term that is a column of a stream or the time.
fn with_term(mask: u32, code: u32, value: u64) -> u32
    ensures { result ≡ bit_or (mask_of (term_codes (coded_term code value))) mask }
{
    if Term::TIME < code {
        return mask;
    }
    masks::with(mask, code)
}

// A mask with what a node's comparison names.
fn with_node(mask: u32, n: Node) -> u32
    ensures { result ≡ bit_or (named_by (own_compare n)) mask }
{
    if !nodes::compares(n) {
        return mask;
    }
    let m = with_term(mask, n.right, n.value);
    with_term(m, n.left, n.value)
}

// Returns the columns of streams and the time that the comparisons between two places name, as bits by their codes.
pub fn named(words: &[u32], stop: usize, k: usize) -> u32
    ensures { result ≡ named_by (compared words.now stop k) }
{
    let mut at = k;
    let mut m: u32 = 0;
    while stop < at {
        let node = nodes::node_at(words, at);
        m = with_node(m, node);
        at = at.saturating_sub(nodes::node_words(node));
    }
    m
}

// ---- the equality of two columns

// Returns the code of a column; any that no stream has is the aggregate's.
pub fn column_code(code: u32) -> u32
    ensures { result ≡ column_code code }
{
    if code < Term::TIME {
        return code;
    }
    Term::FIGURE
}

// The head of an equality.
const EQUAL: u32 = 1;

// Whether the terms of a node have two codes.
fn has_terms(n: Node, a: u32, b: u32) -> bool
    ensures { result ≡ (eqb n.left a && eqb n.right b) }
{
    if n.left != a {
        return false;
    }
    n.right == b
}

// Whether a node is the equality of two columns by their codes, either first.
fn node_equates(n: Node, a: u32, b: u32) -> bool
    ensures { result ≡ node_equates n (column_code a) (column_code b) }
{
    if n.head != EQUAL {
        return false;
    }
    let x = column_code(a);
    let y = column_code(b);
    if has_terms(n, x, y) {
        return true;
    }
    has_terms(n, y, x)
}

// Returns whether one of the conditions of the first n words is the equality of two columns, either first.
pub fn equates(words: &[u32], n: usize, a: u32, b: u32) -> bool
    ensures { result ≡ some? (is_equality (coded_col a) (coded_col b)) (conditions_of words.now n) }
{
    let mut j = n;
    while 0 < j {
        let node = nodes::node_at(words, j);
        if node_equates(node, a, b) {
            return true;
        }
        j = nodes::link_of(words, j);
    }
    false
}
