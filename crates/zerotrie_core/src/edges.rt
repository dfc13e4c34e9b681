//! The edges of a trie, by byte and by number.
//!
//! A literal is one edge. So is each byte of a span, which has the rest of the run after it. A
//! branch has one edge for each target. A value before an edge is skipped.

ghost use Rattle.std.specs.Prelude.{◌≡◌, ◌≤◌, ℕ, [], ◌∷◌, ◌++◌, IfSome, IfNone, false};
ghost use Rattle.std.specs.Option.{option_map};
ghost use Rattle.zerotrie_base.specs.Kind.{Kind, has_spans};
ghost use Rattle.zerotrie_base.specs.Texts.{Lists};
ghost use Rattle.zerotrie_core.specs.Places.{ListsAt, IsStep, IsProbe, FollowsRun};
ghost use Rattle.zerotrie_base.specs.Nodes.Shape.{literal};
ghost use Rattle.zerotrie_core.specs.Shapes.{branch_shape};
ghost use Rattle.zerotrie_core.specs.cursor.Edges.{ListsInside, StepsFrom, ProbesFrom, LiesBehind, place_along, place_after};

use crate::branch::Branch;
use crate::node::{Node, first_node};
use zerotrie_base::{ZeroTrieWithOptions, folded};

/// An edge, and what follows it: the rest of a run, then a trie. After these come `after` bytes
/// more of those that were read.
#[derive(Clone, Copy)]
pub(crate) struct Along<'a> {
    pub edge: u8,
    pub run: &'a [u8],
    pub trie: &'a [u8],
    pub after: usize,
}

impl<'a> Along<'a> {
    #[inline(always)]
    fn plain(edge: u8, trie: &'a [u8], after: usize) -> Self
        ensures edge { result.edge ≡ edge }
        ensures run { result.run.now ≡ [] }
        ensures trie { result.trie.now ≡ trie.now }
        ensures after { result.after ≡ after }
    {
        Along {
            edge,
            run: &[],
            trie,
            after,
        }
    }
}

/// Returns the next byte of a run, if it equals the byte in this kind.
#[inline(always)]
pub(crate) fn run_edge_like<'a, K: ZeroTrieWithOptions>(
    run: &'a [u8],
    trie: &'a [u8],
    byte: u8,
) -> Option<Along<'a>>
    ensures step { IsStep K.kind (ListsInside K.kind run.now trie.now) byte
        (option_map (λ a. a.edge) result) (ListsAt K.kind (place_along result)) }
    ensures run { IfSome result (λ a. (run.now ≡ a.edge ∷ a.run.now) × (a.trie.now ≡ trie.now)) }
    ensures lies { LiesBehind (run.now ++ trie.now) result }
{
    let (edge, run) = run.split_first()?;
    let edge = *edge;
    (folded::<K>(edge) == folded::<K>(byte)).then_some(Along {
        edge,
        run,
        trie,
        after: 0,
    })
}

#[inline(always)]
fn literal_like<K: ZeroTrieWithOptions>(edge: u8, trie: &[u8], byte: u8) -> Option<Along<'_>>
    ensures step { StepsFrom K.kind (literal edge trie.now) byte result }
    ensures run { IfSome result (λ a. a.run.now ≡ []) }
    ensures lies { LiesBehind trie.now result }
{
    (folded::<K>(edge) == folded::<K>(byte)).then_some(Along::plain(edge, trie, 0))
}

#[inline(always)]
fn branch_edge_like<K: ZeroTrieWithOptions>(branch: Branch<'_>, byte: u8) -> Option<Along<'_>>
    ensures step { StepsFrom K.kind (branch_shape branch.entry) byte result }
    ensures run { IfSome result (λ a. a.run.now ≡ []) }
    ensures lies { LiesBehind branch.entry.behind.now result }
{
    let (edge, trie, after) = branch.follow_within::<K>(byte)?;
    Some(Along::plain(edge, trie, after))
}

/// Returns the edge that equals the byte in this kind. Skips values before it.
#[inline(always)]
pub(crate) fn edge_like<K: ZeroTrieWithOptions>(bytes: &[u8], byte: u8) -> Option<Along<'_>>
    ensures step { IsStep K.kind (Lists K.kind bytes.now) byte
        (option_map (λ a. a.edge) result) (ListsAt K.kind (place_along result)) }
    ensures run { IfSome result (λ a. FollowsRun K.kind
        (record { run = []; trie = bytes.now }) a.edge (place_after a)) }
    ensures plain { has_spans K.kind ≡ false → IfSome result (λ a. a.run.now ≡ []) }
    ensures lies { LiesBehind bytes.now result }
{
    let mut rest = bytes;
    while let Some(node) = first_node::<K>(rest) {
        match node {
            Node::Value(_value, after) => rest = after,
            Node::Literal(edge, trie) => return literal_like::<K>(edge, trie, byte),
            Node::Span(run, trie) => return run_edge_like::<K>(run, trie, byte),
            Node::Branch(branch) => return branch_edge_like::<K>(branch, byte),
        }
    }
    None
}

/// Returns the next byte of a run as the only edge, and the number of edges, which is 1.
#[inline(always)]
pub(crate) fn run_edge_numbered<'a>(
    run: &'a [u8],
    trie: &'a [u8],
    index: usize,
) -> Option<(Along<'a>, usize)>
    ensures probe { (kind : Kind) → IsProbe (ListsInside kind run.now trie.now) index
        (option_map {U = ℕ × ℕ} (λ r. (r.0.edge, r.1)) result)
        (ListsAt kind (place_along (option_map (λ r. r.0) result))) }
    ensures run { IfSome result (λ r.
        (run.now ≡ r.0.edge ∷ r.0.run.now) × (r.0.trie.now ≡ trie.now)) }
    ensures lies { LiesBehind (run.now ++ trie.now) (option_map (λ r. r.0) result) }
    ensures few { IfSome result (λ r. r.1 ≤ 256) }
{
    let (edge, run) = run.split_first()?;
    let edge = *edge;
    let along = Along {
        edge,
        run,
        trie,
        after: 0,
    };
    (index == 0).then_some((along, 1))
}

#[inline(always)]
fn literal_numbered(edge: u8, trie: &[u8], index: usize) -> Option<(Along<'_>, usize)>
    ensures probe { (kind : Kind) → ProbesFrom kind (literal edge trie.now) index result }
    ensures run { IfSome result (λ r. r.0.run.now ≡ []) }
    ensures lies { LiesBehind trie.now (option_map (λ r. r.0) result) }
    ensures few { IfSome result (λ r. r.1 ≤ 256) }
{
    (index == 0).then_some((Along::plain(edge, trie, 0), 1))
}

#[inline(always)]
fn branch_edge_numbered(branch: Branch<'_>, index: usize) -> Option<(Along<'_>, usize)>
    ensures probe { (kind : Kind) → ProbesFrom kind (branch_shape branch.entry) index result }
    ensures run { IfSome result (λ r. r.0.run.now ≡ []) }
    ensures lies { LiesBehind branch.entry.behind.now (option_map (λ r. r.0) result) }
    ensures few { IfSome result (λ r. r.1 ≤ 256) }
{
    if index >= branch.edges {
        return None;
    }
    let (trie, after) = branch.target_within(index)?;
    let along = Along::plain(branch.edge_at(index), trie, after);
    Some((along, branch.edges))
}

/// Returns the edge with this number, and the number of edges. Skips values before it.
#[inline(always)]
pub(crate) fn edge_numbered<K: ZeroTrieWithOptions>(
    bytes: &[u8],
    index: usize,
) -> Option<(Along<'_>, usize)>
    ensures probe { IsProbe (Lists K.kind bytes.now) index
        (option_map {U = ℕ × ℕ} (λ r. (r.0.edge, r.1)) result)
        (ListsAt K.kind (place_along (option_map (λ r. r.0) result))) }
    ensures run { IfSome result (λ r. FollowsRun K.kind
        (record { run = []; trie = bytes.now }) r.0.edge (place_after r.0)) }
    ensures plain { has_spans K.kind ≡ false → IfSome result (λ r. r.0.run.now ≡ []) }
    ensures lies { LiesBehind bytes.now (option_map (λ r. r.0) result) }
    ensures few { IfSome result (λ r. r.1 ≤ 256) }
{
    let mut rest = bytes;
    while let Some(node) = first_node::<K>(rest) {
        match node {
            Node::Value(_value, after) => rest = after,
            Node::Literal(edge, trie) => return literal_numbered(edge, trie, index),
            Node::Span(run, trie) => return run_edge_numbered(run, trie, index),
            Node::Branch(branch) => return branch_edge_numbered(branch, index),
        }
    }
    None
}
