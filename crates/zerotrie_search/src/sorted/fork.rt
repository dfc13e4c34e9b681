//! An open branch with the edges that are left.

ghost use Rattle.std.specs.Prelude.{◌≡◌, ◌≤◌, ◌<◌, ◌+◌, ◌∷◌, ◌++◌, ◌&&◌, ℕ, List, [], length, reverse, take, nat_le, IsTrue, ◌↔◌, IfSome, IfOk};
ghost use Rattle.std.proofs.Common.{suc};
ghost use Rattle.zerotrie_base.specs.Kind.{Kind};
ghost use Rattle.zerotrie_base.specs.Maps.{Pairs, behind_all};
ghost use Rattle.zerotrie_base.specs.Nodes.{Begins};
ghost use Rattle.zerotrie_base.specs.Texts.{Lists};
ghost use Rattle.zerotrie_core.specs.ByteSets.{is_in};
ghost use Rattle.zerotrie_core.specs.Shapes.{branch_shape};
ghost use Rattle.zerotrie_search.specs.Paths.{NoneFrom};
ghost use Rattle.zerotrie_search.specs.Forks.{is_among, IsTarget, IsOpen, IsFork, IsOver, TakesLeast, AreForks, ArrivesOrEnds, outer};
ghost use Rattle.zerotrie_search.specs.Walks.{AreOpen, Keeps, DropsOver, Climbs, KeepsFront, Narrows, rooms};

use std::alloc::{AllocError, Allocator};
use zerotrie_core::laws::steps_answer_stored_bytes;
use zerotrie_core::{Branch, ByteSet, ZeroTrieWithOptions};

/// A branch of which some edges are left.
#[derive(Clone, Copy, Debug)]
pub(crate) struct Fork<'a> {
    /// The branch.
    branch: Branch<'a>,
    /// The edges that are left.
    left: ByteSet,
    /// The length of the key before the edges.
    depth: usize,
    /// How many bytes there are for the edges that are left and their targets. Malformed targets may
    /// overlap, and then there are too few.
    room: usize,
}

/// Returns the edges of a branch that are at least `from`.
#[inline(always)]
fn edges_from(branch: &Branch<'_>, from: usize) -> ByteSet
    ensures { (c : ℕ) → is_in result c
        ≡ (nat_le from c && is_among c (take branch.now.edges branch.now.behind.now)) }
{
    let (edges, _) = branch.behind.split_at(branch.edges);
    let mut left = ByteSet::none();
    for edge in edges {
        if from <= *edge as usize {
            left.insert(*edge);
        }
    }
    left
}

/// Returns the target of an edge of just this byte.
#[inline(always)]
pub(crate) fn target_of<'a, K: ZeroTrieWithOptions>(
    branch: Branch<'a>,
    byte: u8,
) -> Option<&'a [u8]>
    ensures shorter { IfSome result (λ target. length target.now ≤ length branch.entry.behind.now) }
    ensures target { (bytes : List ℕ) (pairs : Pairs) → Lists K.kind bytes pairs
        → Begins K.kind bytes (branch_shape branch.entry) → IsTarget K.kind pairs byte result }
{
    steps_answer_stored_bytes();
    let (edge, target) = branch.follow::<K>(byte)?;
    if edge == byte { Some(target) } else { None }
}

impl<'a> Fork<'a> {
    /// Opens a branch at the edges that are at least `from`.
    #[inline(always)]
    pub(crate) fn open(branch: Branch<'a>, from: usize, depth: usize) -> Self
        ensures depth { result.depth ≡ depth }
        ensures branch { result.branch ≡ branch.entry }
        ensures room { result.room ≡ length branch.entry.behind.now }
        ensures left { (c : ℕ) → is_in result.left c
            ≡ (nat_le from c && is_among c (take branch.entry.edges branch.entry.behind.now)) }
    {
        let left = edges_from(&branch, from);
        Fork {
            branch,
            left,
            depth,
            room: branch.behind.len(),
        }
    }

    /// Returns whether no edge is left.
    #[inline(always)]
    pub(crate) fn is_over(&self) -> bool
        ensures { IsTrue result ↔ IsOver self.now }
    {
        self.left.least().is_none()
    }

    /// Takes the least edge that is left, and returns it with its target. Returns `None` if none is
    /// left, or if the branch has no room for the target.
    #[inline(always)]
    pub(crate) fn next<K: ZeroTrieWithOptions>(&mut self) -> Option<(u8, &'a [u8])>
        ensures room { IfSome result (λ r. suc (length r.1.now) + self.new.room ≡ self.old.room) }
        ensures depth { self.new.depth ≡ self.old.depth }
        ensures takes { (pairs : Pairs) → IsOpen K.kind pairs self.old
            → TakesLeast K.kind pairs self.old self.new result }
    {
        let edge = self.left.least()?;
        self.left.remove(edge);
        let target = target_of::<K>(self.branch, edge)?;
        self.room = self.room.checked_sub(target.len() + 1)?;
        Some((edge, target))
    }
}

/// Adds an edge to a key, and keeps the branch that it is from if other edges are left.
#[inline(always)]
pub(crate) fn push<'a, A: Allocator>(
    edge: u8,
    fork: Fork<'a>,
    key: &mut Vec<u8, A>,
    forks: &mut Vec<Fork<'a>, A>,
) -> Result<(), AllocError>
    ensures key { IfOk result (λ _. key.new.items ≡ key.old.items ++ edge ∷ []) }
    ensures keeps { IfOk result (λ _. Keeps fork.entry (reverse forks.old.items)
        (reverse forks.new.items)) }
    ensures forks { IfOk result (λ _. (kind : Kind) (pairs : Pairs)
        → AreForks kind pairs key.old.items (reverse forks.old.items)
        → fork.entry.depth ≡ length key.old.items
        → IsFork kind (behind_all key.old.items pairs) fork.entry (suc edge)
        → AreForks kind pairs key.new.items (reverse forks.new.items)) }
{
    key.push(edge)?;
    if !fork.is_over() {
        forks.push(fork)?;
    }
    Ok(())
}

/// Drops the innermost branch, the last of the open ones, if no edge of it is left.
#[inline(always)]
fn drop_over<'a, A: Allocator>(forks: &mut Vec<Fork<'a>, A>, inner: usize)
    requires { length forks.old.items ≡ suc inner }
    ensures { DropsOver (reverse forks.old.items) (reverse forks.new.items) }
{
    if forks[inner].is_over() {
        forks.truncate(inner);
    }
}

/// Goes back to the innermost branch with an edge left, and enters the least. Returns the target's
/// bytes, or `None` if no branch has one.
#[inline(always)]
pub(crate) fn climb<'a, K: ZeroTrieWithOptions, A: Allocator>(
    key: &mut Vec<u8, A>,
    forks: &mut Vec<Fork<'a>, A>,
) -> Result<Option<&'a [u8]>, AllocError>
    ensures room { IfOk result (λ r. IfSome r (λ target. length target.now
        + rooms (reverse forks.new.items) < rooms (reverse forks.old.items))) }
    ensures kept { IfOk result (λ r. IfSome r (λ _. KeepsFront key.old.items key.new.items)) }
    ensures climbs { IfOk result (λ r. (pairs : Pairs) (limit : ℕ)
        → AreOpen K.kind pairs key.old.items limit (reverse forks.old.items)
        → Climbs K.kind pairs key.old.items (reverse forks.old.items)
        key.new.items (reverse forks.new.items) r) }
    ensures arrives { IfOk result (λ r. (pairs : Pairs) (bound : List ℕ)
        → AreForks K.kind pairs key.old.items (reverse forks.old.items)
        → NoneFrom (behind_all key.old.items pairs) bound
        → ArrivesOrEnds K.kind pairs (key.old.items ++ bound)
        key.new.items (reverse forks.new.items) r) }
{
    let Some(inner) = forks.len().checked_sub(1) else {
        return Ok(None);
    };
    key.truncate(forks[inner].depth);
    let Some((edge, target)) = forks[inner].next::<K>() else {
        return Ok(None);
    };
    drop_over(forks, inner);
    key.push(edge)?;
    Ok(Some(target))
}

/// Drops the branches that are at least this deep.
pub(crate) fn drop_inner<'a, A: Allocator>(forks: &mut Vec<Fork<'a>, A>, depth: usize)
    ensures { reverse forks.new.items ≡ outer depth (reverse forks.old.items) }
{
    let mut count = forks.len();
    while count > 0 && depth <= forks[count - 1].depth {
        count -= 1;
    }
    forks.truncate(count);
}

/// Leaves out the edges outside of a set, of the innermost branch if it is after this many bytes of the
/// key.
pub(crate) fn narrow_inner<'a, A: Allocator>(
    forks: &mut Vec<Fork<'a>, A>,
    depth: usize,
    wanted: &ByteSet,
)
    ensures { Narrows depth wanted.now (reverse forks.old.items) (reverse forks.new.items) }
{
    let count = forks.len();
    if count == 0 {
        return;
    }
    let mut fork = forks[count - 1];
    if fork.depth != depth {
        return;
    }
    fork.left = fork.left.intersect(wanted);
    if fork.is_over() {
        forks.truncate(count - 1);
    } else {
        forks[count - 1] = fork;
    }
}
