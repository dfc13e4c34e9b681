//! The key and the value at a place of a trie.
//!
//! The targets of a branch lie one after another, so one of them has the place. A descent from the
//! root follows the edge of that target at each branch, and passes each other node before the place.

ghost use Rattle.std.specs.Prelude.{◌≡◌, ℕ, ◌+◌, ◌-◌, ◌*◌, ◌<◌, ◌≤◌, [], ◌∷◌, length, drop, slice_index, IfOk};
ghost use Rattle.std.specs.Option.{option_map};
ghost use Rattle.zerotrie_base.specs.Nodes.{end_of};
ghost use Rattle.zerotrie_reverse.specs.Descent.{number_after, row_in, row_with, edge_over, over_edge, front_of, target_begin, over_value, over_span, step_towards, key_at, value_of, value_at};
ghost use Rattle.zerotrie_reverse.specs.Steps.{row_of, passed_of};

use crate::number::number_after;
use std::alloc::{AllocError, Allocator};
use zerotrie_core::{Branch, ZeroTrieWithOptions};

/// What a step passes: bytes of the key, and a number of bytes of the trie.
#[derive(Clone, Copy)]
struct Passed<'a> {
    run: &'a [u8],
    size: usize,
}

/// Returns a branch that is whole. Its search table is not read, so the edges stand for it.
#[inline(always)]
fn branch_with<K: ZeroTrieWithOptions>(
    edges: usize,
    width: usize,
    body: &[u8],
) -> Option<Branch<'_>>
    requires edges { (1 ≤ edges) × (edges ≤ 256) }
    requires width { 1 ≤ width }
    ensures { option_map row_of result ≡ row_with K.kind edges width body.now }
{
    if edges < 2 || width > usize::BITS as usize / 8 {
        return None;
    }
    let before = if K::USE_PHF && edges >= 16 {
        edges + 1
    } else {
        0
    };
    let behind = body.get(before..)?;
    if behind.len() < edges + width * (edges - 1) {
        return None;
    }
    let (table, _) = behind.split_at(edges);
    Some(Branch {
        edges,
        width,
        table,
        behind,
    })
}

/// Returns the branch with this lead, if it is whole.
#[inline(always)]
fn branch_after<K: ZeroTrieWithOptions>(lead: u8, rest: &[u8]) -> Option<Branch<'_>>
    ensures { option_map row_of result ≡ row_in K.kind (number_after 32 lead rest.now) }
{
    let (head, body) = number_after(32, lead, rest)?;
    let edges = if head % 256 == 0 { 256 } else { head % 256 };
    branch_with::<K>(edges, head / 256 + 1, body)
}

/// Returns the number of the edge whose target has the byte this far into the targets.
fn edge_over(branch: Branch<'_>, to: usize) -> usize
    ensures is { result ≡ edge_over (end_of branch.entry.edges branch.entry.width branch.entry.behind.now)
        to 0 (branch.entry.edges - 1) }
    ensures within { result < branch.entry.edges }
    ensures before { 0 < result
        → end_of branch.entry.edges branch.entry.width branch.entry.behind.now (result - 1) ≤ to }
{
    for index in 0..branch.edges - 1 {
        if to < branch.end_at(index) {
            return index;
        }
    }
    branch.edges - 1
}

/// Returns where the target of an edge begins among the targets.
#[inline(always)]
fn target_begin(branch: Branch<'_>, index: usize) -> usize
    requires { index < branch.edges }
    ensures { result ≡ target_begin (row_of branch.entry) index }
{
    if index == 0 {
        0
    } else {
        branch.end_at(index - 1)
    }
}

/// Returns the byte of an edge.
#[inline(always)]
fn edge_at<'a>(branch: Branch<'a>, index: usize) -> &'a [u8]
    requires { index < branch.edges }
    ensures { result.now ≡ slice_index branch.entry.behind.now index ∷ [] }
{
    let (_, from) = branch.behind.split_at(index);
    let (edge, _) = from.split_at(1);
    edge
}

/// Returns the step over the edge of a branch whose target has the place.
#[inline(always)]
fn over_branch<'a>(bytes: &[u8], branch: Branch<'a>, to: usize) -> Passed<'a>
    ensures { passed_of result ≡ over_edge bytes.now (row_of branch.entry)
        (edge_over (end_of branch.entry.edges branch.entry.width branch.entry.behind.now)
        (to - front_of bytes.now (row_of branch.entry)) 0 (branch.entry.edges - 1)) }
{
    let front = bytes.len().saturating_sub(branch.end_at(branch.edges - 1));
    let index = edge_over(branch, to.saturating_sub(front));
    Passed {
        run: edge_at(branch, index),
        size: front + target_begin(branch, index),
    }
}

/// Returns the step over a value, which is a number after this lead.
#[inline(always)]
fn over_value<'a>(bytes: &'a [u8], lead: u8, rest: &'a [u8]) -> Option<Passed<'a>>
    ensures { option_map passed_of result ≡ over_value bytes.now (number_after 16 lead rest.now) }
{
    let (_value, after) = number_after(16, lead, rest)?;
    Some(Passed {
        run: &[],
        size: bytes.len().saturating_sub(after.len()),
    })
}

/// Returns the step over a span, whose length is a number after this lead.
#[inline(always)]
fn over_span<'a>(bytes: &'a [u8], lead: u8, rest: &'a [u8]) -> Option<Passed<'a>>
    ensures { option_map passed_of result ≡ over_span bytes.now (number_after 16 lead rest.now) }
{
    let (len, behind) = number_after(16, lead, rest)?;
    let (run, after) = behind.split_at_checked(len)?;
    Some(Passed {
        run,
        size: bytes.len().saturating_sub(after.len()),
    })
}

/// Returns a step towards the place that is this many bytes away, or `None` if no node begins here.
#[inline(always)]
fn step_towards<K: ZeroTrieWithOptions>(bytes: &[u8], to: usize) -> Option<Passed<'_>>
    ensures { option_map passed_of result ≡ step_towards K.kind bytes.now to }
{
    let (lead, rest) = bytes.split_first()?;
    let lead = *lead;
    if lead < 128 {
        let (run, _) = bytes.split_at(1);
        return Some(Passed { run, size: 1 });
    }
    if lead < 160 {
        return over_value(bytes, lead, rest);
    }
    if lead < 192 {
        return over_span(bytes, lead, rest);
    }
    let branch = branch_after::<K>(lead, rest)?;
    Some(over_branch(bytes, branch, to))
}

/// Returns the bytes from this place on.
#[inline(always)]
fn from_place(bytes: &[u8], place: usize) -> &[u8]
    ensures { result.now ≡ drop place bytes.now }
{
    let (_, from) = bytes.split_at(place.min(bytes.len()));
    from
}

/// Writes the key that a descent to this place reads.
///
/// It is a key of the trie if the place is that of the key's value, and unspecified if it is not.
pub(crate) fn read_key_at<K: ZeroTrieWithOptions, A: Allocator>(
    bytes: &[u8],
    place: usize,
    key: &mut Vec<u8, A>,
) -> Result<(), AllocError>
    ensures { IfOk result (λ _. key.new.items ≡ key_at K.kind bytes.now place) }
{
    key.clear();
    let mut rest = bytes;
    let mut to = place;
    for _step in 0..place {
        if to == 0 {
            break;
        }
        let Some(passed) = step_towards::<K>(rest, to) else {
            break;
        };
        if passed.size > to {
            break;
        }
        key.extend_from_slice(passed.run)?;
        rest = from_place(rest, passed.size);
        to -= passed.size;
    }
    Ok(())
}

/// Returns the number that these bytes begin with, or 0 if none does.
#[inline(always)]
fn value_of(from: &[u8]) -> usize
    ensures { result ≡ value_of from.now }
{
    let Some((lead, rest)) = from.split_first() else {
        return 0;
    };
    match number_after(16, *lead, rest) {
        Some((value, _after)) => value,
        None => 0,
    }
}

/// Returns the value at this place, or 0 if no number begins there.
#[inline(always)]
pub(crate) fn value_at(bytes: &[u8], place: usize) -> usize
    ensures { result ≡ value_at bytes.now place }
{
    value_of(from_place(bytes, place))
}
