//! The nodes of a trie in the order of their bytes, each with its place.
//!
//! A walk keeps the parts that are still to be read: what follows a node, and the targets of a
//! branch. The next part is the last of them.

ghost use Rattle.std.specs.Prelude.{◌≡◌, ℕ, List, Some, ◌+◌, ◌-◌, ◌*◌, ◌<◌, ◌≤◌, ◌++◌, length, take, drop, map, reverse, vec_len, All, OnOk, IfOk, None, ◌^◌};
ghost use Rattle.std.specs.Option.{option_map};
ghost use Rattle.zerotrie_base.specs.Kind.{Kind, kind_with};
ghost use Rattle.std.specs.FinMap.{len};
ghost use Rattle.zerotrie_base.specs.Maps.{Map, Pairs};
ghost use Rattle.zerotrie_base.specs.Nodes.{Begins, targets_behind};
ghost use Rattle.zerotrie_base.specs.Texts.{Lists, Means};
ghost use Rattle.zerotrie_core.specs.Shapes.{shape, branch_shape};
ghost use Rattle.zerotrie_core.specs.listing.Listed.{node_of};
ghost use Rattle.zerotrie_core.specs.walk.Row.{row_behind, values_in};
ghost use Rattle.zerotrie_core.specs.walk.Visits.{Visit, nodes_of, target_parts, parts_behind};
ghost use Rattle.zerotrie_core.specs.walk.Texts.{text_visits};
ghost use Rattle.zerotrie_core.specs.walk.Seen.{part_of, visits_left, IsNext, LiesIn};

mod part;

use crate::branch::Branch;
use crate::node::{Node, first_node, row_behind};
pub use part::Part;
use std::alloc::{AllocError, Allocator, Global};
use std::marker::Model;
use zerotrie_base::{ZeroTrieBuilderOptions, ZeroTrieWithOptions, by_kind};

/// A node and its place.
#[derive(Clone, Copy, Debug)]
pub struct Visit<'a> {
    /// The part that begins with the node.
    pub part: Part<'a>,
    /// The node.
    pub node: Node<'a>,
}

impl<'a> Visit<'a> {
    ghost use Rattle.zerotrie_core.specs.walk.Visits.{own_bytes};
    ghost use Rattle.zerotrie_core.specs.walk.Seen.{visit_of};

    /// Returns the bytes of the node alone: of a branch, those before its targets.
    pub fn own_bytes(&self) -> &'a [u8]
        ensures { result.now ≡ own_bytes (visit_of self.now) }
    {
        let bytes = self.part.bytes;
        let after = row_behind(self.node);
        let (own, _) = bytes.split_at(bytes.len().saturating_sub(after.len()));
        own
    }
}

fn read_node(options: ZeroTrieBuilderOptions, bytes: &[u8]) -> Option<Node<'_>>
    ensures { node_of (kind_with options) bytes.now ≡ option_map shape result }
{
    by_kind!(options.kind(), first_node::<_>(bytes))
}

/// Adds the targets of the branch at the beginning of a part, in their order, up to the first whose
/// offsets fall.
fn push_targets<'a, A: Allocator>(
    parts: &mut Vec<Part<'a>, A>,
    at: Part<'a>,
    branch: Branch<'a>,
) -> Result<(), AllocError>
    requires { let targets = targets_behind branch.edges branch.width branch.behind.now in
        branch.edges + length targets + 1 < length at.bytes.now }
    ensures { OnOk result (map part_of parts.new.items ≡ map part_of parts.old.items
        ++ target_parts (part_of at.entry) branch.entry.edges branch.entry.width branch.entry.behind.now
        branch.entry.edges) }
{
    let first = at.place + (at.bytes.len() - branch.targets().len());
    let mut begin = 0;
    for index in 0..branch.edges {
        let Some(target) = branch.target_at(index) else {
            break;
        };
        parts.push(at.below_edge(first + begin, branch.edge_at(index), target))?;
        begin += target.len();
    }
    Ok(())
}

/// Reverses the order of all parts after the first `len`.
fn reverse_from<T: Drop, A: Allocator>(parts: &mut Vec<T, A>, len: usize)
    requires { len ≤ vec_len parts.old }
    ensures { parts.new.items ≡ take len parts.old.items ++ reverse (drop len parts.old.items) }
{
    let (_, last) = parts.as_mut_slice().split_at_mut(len);
    last.reverse();
}

/// Adds the parts that follow the node at the beginning of a part. The next one is added last.
#[inline(always)]
pub(crate) fn push_behind<'a, A: Allocator>(
    parts: &mut Vec<Part<'a>, A>,
    at: Part<'a>,
    node: Node<'a>,
) -> Result<(), AllocError>
    requires { (kind : Kind) × (node_of kind at.bytes.now ≡ Some (shape node)) }
    ensures { OnOk result (map part_of (reverse parts.new.items)
        ≡ parts_behind (part_of at.entry) (shape node.entry)
        ++ map part_of (reverse parts.old.items)) }
{
    match node {
        Node::Value(_value, after) => parts.push(at.after(after))?,
        Node::Literal(_byte, after) => parts.push(at.after(after))?,
        Node::Span(_run, after) => parts.push(at.after(after))?,
        Node::Branch(branch) => {
            let len = parts.len();
            push_targets(parts, at, branch)?;
            reverse_from(parts, len);
        }
    }
    Ok(())
}

/// Returns the next node of the parts. After an error no part is left.
fn next_of<'a, A: Allocator>(
    options: ZeroTrieBuilderOptions,
    parts: &mut Vec<Part<'a>, A>,
) -> Result<Option<Visit<'a>>, AllocError>
    ensures { IsNext (visits_left (kind_with options) parts.old.items) result
        (visits_left (kind_with options) parts.new.items) }
{
    while let Some(part) = parts.pop() {
        let Some(node) = read_node(options, part.bytes) else {
            continue;
        };
        if let Err(error) = push_behind(parts, part, node) {
            parts.clear();
            return Err(error);
        }
        return Ok(Some(Visit { part, node }));
    }
    Ok(None)
}

/// The nodes of a trie, in the order of their bytes.
///
/// ```
/// let bytes = b"a\xC2bc\x01\x81\x82";                     // the keys "ab" and "ac"
/// let mut nodes = Nodes::new::<Simple>(rt.alloc(), bytes)?;
/// let mut places = Vec::new(rt.alloc());
/// while let Some(visit) = nodes.next_node()? {
///     places.push((visit.part.place, visit.part.depth, visit.part.edge))?;
/// }
/// let listed = [(0, 0, None), (1, 0, None), (5, 1, Some(b'b')), (6, 1, Some(b'c'))];
/// assert_eq!(rt; places.as_slice(), listed.as_slice());
/// ```
///
/// On malformed bytes it returns the nodes up to where none begins, and in a branch up to the first
/// target whose offsets fall. So no byte is read twice. Allocates memory for the branches that are
/// nested.
#[derive(Debug, Drop)]
pub struct Nodes<'a, A: Allocator = Global> {
    options: ZeroTrieBuilderOptions,
    parts: Vec<Part<'a>, A>,
}

impl<'a, A: Allocator> Model for Nodes<'a, A> {
    ghost use Rattle.std.specs.Prelude.{List};
    ghost use Rattle.zerotrie_base.specs.Kind.{kind_with};
    ghost use Rattle.zerotrie_core.specs.walk.Visits.{Visit};
    ghost use Rattle.zerotrie_core.specs.walk.Seen.{visits_left};

    ghost Value = { List Visit };

    ghost view = { λ s. visits_left (kind_with s.options) s.parts.items };
}

impl<'a, A: Allocator> Nodes<'a, A> {
    /// Returns all nodes of the bytes.
    pub fn new<K: ZeroTrieWithOptions>(alloc: A, bytes: &'a [u8]) -> Result<Self, AllocError>
        ensures nodes { IfOk result (λ s. s ≡ nodes_of K.kind bytes.now) }
        ensures most { IfOk result (λ s. length s ≤ length bytes.now) }
        ensures lie { IfOk result (λ s. All (LiesIn K.kind bytes.now) s) }
        ensures text { IfOk result (λ s. (pairs : Pairs) (text : Lists K.kind bytes.now pairs)
            → s ≡ text_visits text 0 0 None None) }
    {
        let mut parts = Vec::new(alloc);
        parts.push(Part::whole(bytes))?;
        Ok(Nodes {
            options: ZeroTrieBuilderOptions::of::<K>(),
            parts,
        })
    }

    /// Returns the next node, or `None` if there is none left.
    ///
    /// The only error is that an allocation failed. After it no node is left.
    pub fn next_node(&mut self) -> Result<Option<Visit<'a>>, AllocError>
        ensures { IsNext self.old result self.new }
    {
        next_of(self.options, &mut self.parts)
    }
}

/// Returns the number of values of a node.
fn values_in(node: &Node<'_>) -> usize
    ensures { result ≡ values_in (shape node.now) }
{
    match node {
        Node::Value(_value, _after) => 1,
        Node::Literal(_, _) | Node::Span(_, _) | Node::Branch(_) => 0,
    }
}

/// Returns the number of pairs, which is the number of keys.
///
/// ```
/// assert_eq!(rt; count_pairs::<Simple>(b"ad\x90\x06ef\x90\x11"), 2);
/// ```
///
/// All nodes form one row, and each shows where it ends. So this reads the bytes once, and does not
/// allocate. On malformed bytes the result is unspecified, but at most the number of bytes; the
/// call never panics or reads outside them.
pub fn count_pairs<K: ZeroTrieWithOptions>(bytes: &[u8]) -> usize
    ensures listed { (pairs : Pairs) → Lists K.kind bytes.now pairs → result ≡ length pairs }
    ensures map { (m : Map) → Means K.kind bytes.now m → result ≡ len m }
    ensures most { result ≤ length bytes.now }
{
    let mut rest = bytes;
    let mut count = 0;
    while let Some(node) = first_node::<K>(rest) {
        count += values_in(&node);
        rest = row_behind(node);
    }
    count
}
