//! Looks up a key in the bytes of a trie.
//!
//! The look-up reads node by node. A value is the result if no byte of the key is left; otherwise
//! it is skipped. A literal must equal the next byte of the key, and a span the next bytes. A
//! branch continues with the target of the next byte. If the kind ignores case, an ASCII letter
//! equals both its cases. On malformed bytes the result is unspecified; it never panics or reads
//! outside them.

ghost use Rattle.std.specs.Prelude.{◌≡◌, ℕ, ◌+◌, ◌<◌, ◌≤◌, length, IsTrue};
ghost use Rattle.zerotrie_base.specs.Maps.{Map, look};
ghost use Rattle.zerotrie_base.specs.Texts.{Means, nodes};
ghost use Rattle.zerotrie_base.specs.Kind.{Kind};
ghost use Rattle.zerotrie_base.specs.Nodes.Shape.{literal, span};
ghost use Rattle.zerotrie_core.specs.Shapes.{shape, branch_shape};
ghost use Rattle.zerotrie_core.specs.reader.Descending.{Descends};
ghost use Rattle.zerotrie_core.specs.reader.Literals.{AreCommon, AreSame};

use crate::branch::Branch;
use crate::node::{Node, first_node};
use crate::simd::literals::common_literals;
use zerotrie_base::{ZeroTrieWithOptions, folded};

/// What the look-up does after it read a node.
pub(crate) enum Descent<'a, 'k> {
    /// It ends with this result.
    Answer(Option<usize>),
    /// It continues in these bytes, with this rest of the key, after this number of nodes.
    Down(&'a [u8], &'k [u8], usize),
}

/// Skips a literal, and the literals after it that match the key.
#[inline(always)]
fn over_literals<'a, 'k, K: ZeroTrieWithOptions>(
    edge: u8,
    rest: &'a [u8],
    key: &'k [u8],
) -> Descent<'a, 'k>
    ensures { Descends K.kind (literal edge rest.now) key.now result }
{
    let Some((byte, after)) = key.split_first() else {
        return Descent::Answer(None);
    };
    if folded::<K>(*byte) != folded::<K>(edge) {
        return Descent::Answer(None);
    }
    let more = common_literals::<K>(rest, after);
    let (_, rest) = rest.split_at(more);
    let (_, after) = after.split_at(more);
    Descent::Down(rest, after, 1 + more)
}

/// Skips a span, which must match the key.
#[inline(always)]
fn over_span<'a, 'k>(run: &'a [u8], rest: &'a [u8], key: &'k [u8]) -> Descent<'a, 'k>
    ensures { (kind : Kind) → Descends kind (span run.now rest.now) key.now result }
{
    if key.starts_with(run) {
        let (_, after) = key.split_at(run.len());
        Descent::Down(rest, after, 1)
    } else {
        Descent::Answer(None)
    }
}

/// Follows the edge of a branch that is the next byte of the key.
#[inline(always)]
fn into_target<'a, 'k, K: ZeroTrieWithOptions>(branch: Branch<'a>, key: &'k [u8]) -> Descent<'a, 'k>
    ensures { Descends K.kind (branch_shape branch.entry) key.now result }
{
    let Some((byte, after)) = key.split_first() else {
        return Descent::Answer(None);
    };
    let Some(place) = branch.place_of::<K>(*byte) else {
        return Descent::Answer(None);
    };
    match branch.target_at(place) {
        None => Descent::Answer(None),
        Some(target) => Descent::Down(target, after, 1),
    }
}

/// Continues after one node.
#[inline(always)]
pub(crate) fn descend<'a, 'k, K: ZeroTrieWithOptions>(
    node: Node<'a>,
    key: &'k [u8],
) -> Descent<'a, 'k>
    ensures { Descends K.kind (shape node.entry) key.now result }
{
    match node {
        Node::Value(value, rest) => {
            if key.is_empty() {
                Descent::Answer(Some(value))
            } else {
                Descent::Down(rest, key, 1)
            }
        }
        Node::Literal(edge, rest) => over_literals::<K>(edge, rest, key),
        Node::Span(run, rest) => over_span(run, rest, key),
        Node::Branch(branch) => into_target::<K>(branch, key),
    }
}

/// Returns the value of a key, and the number of nodes that the look-up read.
///
/// ```
/// let bytes = [0x61, 0x85];               // the key "a" with value 5
/// assert_eq!(rt; get_counted::<Simple>(&bytes, b"a"), (Some(5), 2));
/// assert_eq!(rt; get_counted::<Simple>(&bytes, b"A"), (None, 1));
/// assert_eq!(rt; get_counted::<Ignore>(&bytes, b"A"), (Some(5), 2));
/// assert_eq!(rt; get_counted::<Ignore>(&bytes, b"b"), (None, 1));
///
/// let bytes = [0xA2, 0xC3, 0xA9, 0x85];   // the key "é" with value 5
/// assert_eq!(rt; get_counted::<Hash>(&bytes, "é".as_bytes()), (Some(5), 2));
/// ```
///
/// In `Ignore` an ASCII letter of the key matches both its cases. Any other byte, and in the other
/// kinds each byte, matches only itself. `Hash` and `Ext` also read spans, which are one node each.
/// They find an edge of a branch of 16 edges or more by a perfect hash, unless all edges are
/// compared at once.
///
/// Does not allocate. On valid bytes the number of nodes is at most 2n + 1 for a key of n bytes. On
/// malformed bytes the result is unspecified; it never panics or reads outside them.
#[inline(always)]
pub fn get_counted<K: ZeroTrieWithOptions>(bytes: &[u8], key: &[u8]) -> (Option<usize>, usize)
    ensures value { (m : Map) → Means K.kind bytes.now m → result.0 ≡ look K.kind m key.now }
    ensures count { (m : Map) (means : Means K.kind bytes.now m)
        → result.1 ≡ nodes means.lists key.now }
{
    let mut trie = bytes;
    let mut key = key;
    let mut count = 0;
    while let Some(node) = first_node::<K>(trie) {
        match descend::<K>(node, key) {
            Descent::Answer(answer) => return (answer, count + 1),
            Descent::Down(below, after, nodes) => {
                trie = below;
                key = after;
                count += nodes;
            }
        }
    }
    (None, count)
}

/// Returns the value of a key, or `None` if the trie does not have it.
///
/// On malformed bytes the result is unspecified. It does not allocate.
#[inline(always)]
pub fn get<K: ZeroTrieWithOptions>(bytes: &[u8], key: &[u8]) -> Option<usize>
    ensures { (m : Map) → Means K.kind bytes.now m → result ≡ look K.kind m key.now }
{
    get_counted::<K>(bytes, key).0
}
