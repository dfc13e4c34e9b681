//! The first node of some bytes, as a value.

ghost use Rattle.std.specs.Prelude.{◌≡◌, ℕ, ◌+◌, ◌-◌, ◌*◌, ◌/◌, ◌%◌, ◌<◌, ◌≤◌, List, length, take, drop, IfSome, IfNone, ◌∷◌};
ghost use Rattle.std.specs.Option.{option_map};
ghost use Rattle.zerotrie_base.specs.Kind.{greatest_width};
ghost use Rattle.zerotrie_base.specs.Branches.{before_edges, table_size};
ghost use Rattle.zerotrie_base.specs.Numbers.{BeginsWith};
ghost use Rattle.zerotrie_base.specs.Nodes.{Shape, Begins, BeginsSpan, BeginsBranch};
ghost use Rattle.zerotrie_core.specs.listing.Listed.{node_of};
ghost use Rattle.zerotrie_core.specs.Shapes.{shape, branch_shape};
ghost use Rattle.zerotrie_core.specs.walk.Row.{row_behind};

use crate::branch::Branch;
use zerotrie_base::{ZeroTrieWithOptions, read_varint_meta3};

/// A node, and the bytes after it.
#[derive(Clone, Copy, Debug)]
pub enum Node<'a> {
    /// A value, and the bytes after it.
    Value(usize, &'a [u8]),
    /// A byte that all keys continue with, and the bytes after it.
    Literal(u8, &'a [u8]),
    /// A run of bytes that all keys continue with, and the bytes after it.
    Span(&'a [u8], &'a [u8]),
    /// A branch.
    Branch(Branch<'a>),
}

/// Reads the head of a branch, of one byte or two. A longer one has a width that no kind has.
#[inline(always)]
fn read_head(lead: u8, rest: &[u8]) -> Option<(usize, &[u8])>
    requires { 192 ≤ lead }
    ensures found { IfSome result (λ r. BeginsWith 32 3 r.0 (lead ∷ rest.now) r.1.now) }
    ensures none { IfNone result ((v : ℕ) (after : List ℕ)
        → BeginsWith 32 3 v (lead ∷ rest.now) after → 4128 ≤ v) }
{
    let digit = (lead % 32) as usize;
    if lead < 224 {
        return Some((digit, rest));
    }
    let (next, behind) = rest.split_first()?;
    (*next < 128).then_some((digit * 128 + *next as usize + 32, behind))
}

/// The width of offsets that fit into a `usize`, whose bytes are one more.
const WIDEST: usize = usize::BITS as usize / 8 - 1;

#[inline(always)]
fn greatest_width<K: ZeroTrieWithOptions>() -> usize
    ensures { result ≡ greatest_width K.kind }
{
    if K::EXTENDED { WIDEST } else { 3 }
}

/// Like `table_in`, for a hashed table: the parameters of the perfect hash, then the edges.
#[inline(always)]
fn hashed_table_in(edges: usize, more: usize, body: &[u8]) -> Option<(&[u8], &[u8])>
    requires { (edges ≤ 256) × (more ≤ 2048) }
    ensures some { IfSome result (λ r. (2 * edges + 1 + more ≤ length body.now)
        × (r.0.now ≡ take (2 * edges + 1) body.now) × (r.1.now ≡ drop (edges + 1) body.now)) }
    ensures none { IfNone result (length body.now < 2 * edges + 1 + more) }
{
    if body.len() < 2 * edges + 1 + more {
        return None;
    }
    let (table, _) = body.split_at(2 * edges + 1);
    let (_, behind) = body.split_at(edges + 1);
    Some((table, behind))
}

/// Like `table_in`, for a sorted table, which is the edges.
#[inline(always)]
fn sorted_table_in(edges: usize, more: usize, body: &[u8]) -> Option<(&[u8], &[u8])>
    requires { (edges ≤ 256) × (more ≤ 2048) }
    ensures some { IfSome result (λ r. (edges + more ≤ length body.now)
        × (r.0.now ≡ take edges body.now) × (r.1.now ≡ body.now)) }
    ensures none { IfNone result (length body.now < edges + more) }
{
    if body.len() < edges + more {
        return None;
    }
    let (table, _) = body.split_at(edges);
    Some((table, body))
}

/// Splits off the search table of a branch. Returns it and all bytes from the first edge on, or
/// `None` if the bytes are shorter than the table and `more`.
///
/// Each form of table has its own path, so that finding the edges needs no arithmetic on their
/// number.
#[inline(always)]
fn table_in<K: ZeroTrieWithOptions>(
    edges: usize,
    more: usize,
    body: &[u8],
) -> Option<(&[u8], &[u8])>
    requires { (edges ≤ 256) × (more ≤ 2048) }
    ensures some { IfSome result (λ r. (table_size K.kind edges + more ≤ length body.now)
        × (r.0.now ≡ take (table_size K.kind edges) body.now)
        × (r.1.now ≡ drop (before_edges K.kind edges) body.now)) }
    ensures whole { IfSome result (λ r. edges + more ≤ length r.1.now) }
    ensures ends { IfSome result (λ r. drop (length r.0.now - edges) r.0.now ≡ take edges r.1.now) }
    ensures sized { IfSome result (λ r. edges < length r.0.now → length r.0.now ≡ 2 * edges + 1) }
    ensures none { IfNone result (length body.now < table_size K.kind edges + more) }
{
    if K::USE_PHF && edges >= 16 {
        hashed_table_in(edges, more, body)
    } else {
        sorted_table_in(edges, more, body)
    }
}

/// Reads a head of one byte, or of two if the second alone holds the number of edges, as most do.
/// Returns the number of edges, the width of an offset, and the bytes after the head.
#[inline(always)]
fn read_plain_head(lead: u8, rest: &[u8]) -> Option<(usize, usize, &[u8])>
    requires { 192 ≤ lead }
    ensures begins { IfSome result (λ r.
        BeginsWith 32 3 (256 * (r.1 - 1) + r.0 % 256) (lead ∷ rest.now) r.2.now) }
    ensures edges { IfSome result (λ r. (2 ≤ r.0) × (r.0 ≤ 256)) }
    ensures width { IfSome result (λ r. 1 ≤ r.1) }
{
    if lead < 194 {
        return None;
    }
    if lead < 224 {
        return Some((lead as usize - 192, 1, rest));
    }
    let (next, behind) = rest.split_first()?;
    if lead % 2 == 1 && 98 <= *next && *next < 128 {
        Some((*next as usize - 96, lead as usize / 2 - 110, behind))
    } else {
        None
    }
}

/// Returns the branch with this number of edges and this width, or `None` if it is cut off or not
/// of the kind.
#[inline(always)]
fn branch_in<K: ZeroTrieWithOptions>(edges: usize, width: usize, body: &[u8]) -> Option<Branch<'_>>
    requires edges { (1 ≤ edges) × (edges ≤ 256) }
    requires width { 1 ≤ width }
    ensures some { IfSome result (λ b. (bytes : List ℕ)
        → BeginsWith 32 3 (256 * (width - 1) + edges % 256) bytes body.now
        → Begins K.kind bytes (branch_shape b)) }
    ensures none { IfNone result ((bytes table behind : List ℕ) (e w : ℕ)
        → BeginsWith 32 3 (256 * (width - 1) + edges % 256) bytes body.now
        → BeginsBranch K.kind bytes e w table behind → ⊥) }
{
    if width > greatest_width::<K>() + 1 || edges < 2 {
        return None;
    }
    let (table, behind) = table_in::<K>(edges, width * (edges - 1), body)?;
    Some(Branch {
        edges,
        width,
        table,
        behind,
    })
}

/// Returns the branch that begins with `lead`, or `None` if it is cut off or not of the kind.
#[inline(always)]
fn branch_at<K: ZeroTrieWithOptions>(lead: u8, rest: &[u8]) -> Option<Branch<'_>>
    requires { 192 ≤ lead }
    ensures some { IfSome result (λ b. Begins K.kind (lead ∷ rest.now) (branch_shape b)) }
    ensures none { IfNone result ((edges width : ℕ) (table behind : List ℕ)
        → BeginsBranch K.kind (lead ∷ rest.now) edges width table behind → ⊥) }
{
    if let Some((edges, width, body)) = read_plain_head(lead, rest) {
        return branch_in::<K>(edges, width, body);
    }
    let (head, body) = read_head(lead, rest)?;
    let edges = if head % 256 == 0 { 256 } else { head % 256 };
    branch_in::<K>(edges, head / 256 + 1, body)
}

/// Returns the run of the span that begins with `lead`, and the bytes after it.
#[inline(always)]
fn span_at(lead: u8, rest: &[u8]) -> Option<(&[u8], &[u8])>
    requires { (160 ≤ lead) × (lead < 192) }
    ensures some { IfSome result (λ r. BeginsSpan (lead ∷ rest.now) r.0.now r.1.now) }
    ensures none { IfNone result ((run after : List ℕ)
        → BeginsSpan (lead ∷ rest.now) run after → ⊥) }
{
    let (len, behind) = read_varint_meta3(lead, rest)?;
    if behind.len() < len {
        return None;
    }
    Some(behind.split_at(len))
}

/// Returns the first node of the bytes, or `None` if they begin with no node of the kind.
#[inline(always)]
pub fn first_node<K: ZeroTrieWithOptions>(bytes: &[u8]) -> Option<Node<'_>>
    ensures node { node_of K.kind bytes.now ≡ option_map shape result }
    ensures begins { IfSome result (λ node. Begins K.kind bytes.now (shape node)) }
{
    let (lead, rest) = bytes.split_first()?;
    let lead = *lead;
    if lead >= 192 {
        Some(Node::Branch(branch_at::<K>(lead, rest)?))
    } else if lead < 128 {
        Some(Node::Literal(lead, rest))
    } else if lead < 160 {
        let (value, after) = read_varint_meta3(lead, rest)?;
        Some(Node::Value(value, after))
    } else {
        if !K::SPANS {
            return None;
        }
        let (run, after) = span_at(lead, rest)?;
        Some(Node::Span(run, after))
    }
}

/// Returns what follows a node: for a branch its targets, one after another.
pub(crate) fn row_behind<'a>(node: Node<'a>) -> &'a [u8]
    ensures { result.now ≡ row_behind (shape node.entry) }
{
    match node {
        Node::Value(_, after) | Node::Literal(_, after) | Node::Span(_, after) => after,
        Node::Branch(branch) => branch.targets(),
    }
}
