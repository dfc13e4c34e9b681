//! The way down along a lower bound.

ghost use Rattle.std.specs.Prelude.{◌≡◌, ◌≢◌, ◌∷◌, ◌<◌, ◌≤◌, ◌+◌, ◌++◌, ℕ, List, [], length, reverse, IfOk, IfSome, if◌then◌else◌};
ghost use Rattle.std.specs.Ordering.{nat_cmp, is_lt};
ghost use Rattle.std.specs.Cmp.Lexicographic.{slice_cmp};
ghost use Rattle.std.specs.Range.Bound.{bound_map};
ghost use Rattle.zerotrie_base.specs.Kind.{kind_with};
ghost use Rattle.zerotrie_base.specs.Maps.{Pairs};
ghost use Rattle.zerotrie_base.specs.Nodes.{Begins};
ghost use Rattle.zerotrie_base.specs.Texts.{Lists};
ghost use Rattle.zerotrie_core.specs.Shapes.{branch_shape};
ghost use Rattle.zerotrie_search.specs.Forks.{Follows, GoesOn, StandsOrEnds, IsPastValue, IsRun, IsShorter, first_bound};
ghost use Rattle.zerotrie_search.specs.Walks.{rooms};

use crate::sorted::fork::{Fork, climb, push};
use std::alloc::{AllocError, Allocator};
use std::cmp::Ordering;
use std::ops::Bound;
use zerotrie_core::{
    Branch, Node, ZeroTrieBuilderOptions, ZeroTrieWithOptions, by_kind, first_node,
};

/// What a step along a bound comes to.
#[derive(Clone, Copy, Debug)]
enum Way<'a, 'k> {
    /// The trie has the bytes so far: what comes next in it, and what is left of the bound.
    Down(&'a [u8], &'k [u8]),
    /// The bytes where the keys from the bound on begin, or `None` if there are none.
    Found(Option<&'a [u8]>),
}

/// Returns whether bytes come before others.
fn is_below(left: &[u8], run: &[u8]) -> bool
    ensures { result ≡ is_lt (slice_cmp nat_cmp left.now run.now) }
{
    left.cmp(run) == Ordering::Less
}

/// Goes along a run of bytes that all keys here continue with.
#[inline(always)]
fn past_run<'a, 'k, K: ZeroTrieWithOptions, A: Allocator>(
    at: &'a [u8],
    run: &[u8],
    after: &'a [u8],
    left: &'k [u8],
    key: &mut Vec<u8, A>,
    forks: &mut Vec<Fork<'a>, A>,
) -> Result<Way<'a, 'k>, AllocError>
    requires { length after.now < length at.now }
    ensures shorter { IfOk result (λ way. IsShorter (length at.now + rooms (reverse forks.old.items))
        way (rooms (reverse forks.new.items))) }
    ensures goes { IfOk result (λ way. (pairs : Pairs) (bound : List ℕ)
        → left.now ≢ [] → Follows K.kind pairs bound left.now key.old.items at.now (reverse forks.old.items)
        → IsRun K.kind at.now run.now after.now
        → GoesOn K.kind pairs bound key.new.items (reverse forks.new.items) way) }
{
    if left.starts_with(run) {
        key.extend_from_slice(run)?;
        let (_, more) = left.split_at(run.len());
        return Ok(Way::Down(after, more));
    }
    if is_below(left, run) {
        return Ok(Way::Found(Some(at)));
    }
    let next = climb::<K, A>(key, forks)?;
    Ok(Way::Found(next))
}

/// Enters the target of a byte, or of the least edge above it.
#[inline(always)]
fn past_branch<'a, 'k, K: ZeroTrieWithOptions, A: Allocator>(
    at: &'a [u8],
    branch: Branch<'a>,
    byte: u8,
    more: &'k [u8],
    key: &mut Vec<u8, A>,
    forks: &mut Vec<Fork<'a>, A>,
) -> Result<Way<'a, 'k>, AllocError>
    requires { Begins K.kind at.now (branch_shape branch) }
    ensures shorter { IfOk result (λ way. IsShorter (length at.now + rooms (reverse forks.old.items))
        way (rooms (reverse forks.new.items))) }
    ensures goes { IfOk result (λ way. (pairs : Pairs) (bound : List ℕ)
        → Follows K.kind pairs bound (byte ∷ more.now) key.old.items at.now (reverse forks.old.items)
        → GoesOn K.kind pairs bound key.new.items (reverse forks.new.items) way) }
{
    let mut fork = Fork::open(branch, byte as usize, key.len());
    let Some((edge, target)) = fork.next::<K>() else {
        let next = climb::<K, A>(key, forks)?;
        return Ok(Way::Found(next));
    };
    push(edge, fork, key, forks)?;
    if edge == byte {
        Ok(Way::Down(target, more))
    } else {
        Ok(Way::Found(Some(target)))
    }
}

/// Goes past one node towards a byte of the bound.
#[inline(always)]
fn past_node<'a, 'k, K: ZeroTrieWithOptions, A: Allocator>(
    at: &'a [u8],
    left: &'k [u8],
    byte: u8,
    more: &'k [u8],
    key: &mut Vec<u8, A>,
    forks: &mut Vec<Fork<'a>, A>,
) -> Result<Way<'a, 'k>, AllocError>
    requires { left.now ≡ byte ∷ more.now }
    ensures shorter { IfOk result (λ way. IsShorter (length at.now + rooms (reverse forks.old.items))
        way (rooms (reverse forks.new.items))) }
    ensures goes { IfOk result (λ way. (pairs : Pairs) (bound : List ℕ)
        → Follows K.kind pairs bound left.now key.old.items at.now (reverse forks.old.items)
        → GoesOn K.kind pairs bound key.new.items (reverse forks.new.items) way) }
{
    match first_node::<K>(at) {
        None => {
            let next = climb::<K, A>(key, forks)?;
            Ok(Way::Found(next))
        }
        Some(Node::Value(_value, after)) => Ok(Way::Down(after, left)),
        Some(Node::Literal(_edge, after)) => {
            let (run, _) = at.split_at(1);
            let way = past_run::<K, A>(at, run, after, left, key, forks)?;
            Ok(way)
        }
        Some(Node::Span(run, after)) => {
            let way = past_run::<K, A>(at, run, after, left, key, forks)?;
            Ok(way)
        }
        Some(Node::Branch(branch)) => {
            let way = past_branch::<K, A>(at, branch, byte, more, key, forks)?;
            Ok(way)
        }
    }
}

/// Returns the bytes without a value at their beginning.
fn past_value<K: ZeroTrieWithOptions>(at: &[u8]) -> &[u8]
    ensures past { (pairs : Pairs) → Lists K.kind at.now pairs → IsPastValue K.kind pairs result.now }
    ensures less { length result.now ≤ length at.now }
{
    match first_node::<K>(at) {
        Some(Node::Value(_value, after)) => after,
        Some(Node::Literal(_edge, _after)) => at,
        Some(Node::Span(_run, _after)) => at,
        Some(Node::Branch(_branch)) => at,
        None => at,
    }
}

/// Goes down along a lower bound, as far as the trie has its bytes. Returns the bytes where the keys
/// from the bound on begin, or `None` if there are none.
fn seek<'a, K: ZeroTrieWithOptions, A: Allocator>(
    bytes: &'a [u8],
    bound: &[u8],
    with_it: bool,
    key: &mut Vec<u8, A>,
    forks: &mut Vec<Fork<'a>, A>,
) -> Result<Option<&'a [u8]>, AllocError>
    requires key { key.old.items ≡ [] }
    requires forks { forks.old.items ≡ [] }
    ensures room { IfOk result (λ r. IfSome r (λ rest. length rest.now
        + rooms (reverse forks.new.items) ≤ length bytes.now)) }
    ensures stands { IfOk result (λ r. (pairs : Pairs) → Lists K.kind bytes.now pairs
        → StandsOrEnds K.kind pairs (if with_it then bound.now else bound.now ++ 0 ∷ [])
        key.new.items (reverse forks.new.items) r) }
{
    let mut at = bytes;
    let mut left = bound;
    while let Some((byte, more)) = left.split_first() {
        match past_node::<K, A>(at, left, *byte, more, key, forks)? {
            Way::Found(next) => return Ok(next),
            Way::Down(after, rest) => {
                at = after;
                left = rest;
            }
        }
    }
    if with_it {
        return Ok(Some(at));
    }
    Ok(Some(past_value::<K>(at)))
}

/// Calls `seek` for the kind that the options name, if there is a lower bound.
pub(crate) fn seek_of<'a, A: Allocator>(
    options: ZeroTrieBuilderOptions,
    bytes: &'a [u8],
    from: Bound<&[u8]>,
    key: &mut Vec<u8, A>,
    forks: &mut Vec<Fork<'a>, A>,
) -> Result<Option<&'a [u8]>, AllocError>
    requires key { key.old.items ≡ [] }
    requires forks { forks.old.items ≡ [] }
    ensures room { IfOk result (λ r. IfSome r (λ rest. length rest.now
        + rooms (reverse forks.new.items) ≤ length bytes.now)) }
    ensures stands { IfOk result (λ r. (pairs : Pairs) → Lists (kind_with options) bytes.now pairs
        → StandsOrEnds (kind_with options) pairs (first_bound (bound_map (λ b. b.now) from.entry))
        key.new.items (reverse forks.new.items) r) }
{
    match from {
        Bound::Unbounded => Ok(Some(bytes)),
        Bound::Included(bound) => {
            by_kind!(options.kind(), seek::<_, A>(bytes, bound, true, key, forks))
        }
        Bound::Excluded(bound) => {
            by_kind!(
                options.kind(),
                seek::<_, A>(bytes, bound, false, key, forks)
            )
        }
    }
}
