//! Builds of a trie whose kind is known only when the program runs, and of an index; and why they
//! fail.

ghost use Rattle.std.specs.Prelude.{◌≡◌, ◌<◌, All, length, IfOk, IfSome, IfNone};
ghost use Rattle.zerotrie_core.specs.Items.{pairs_of};
ghost use Rattle.zerotrie_core.specs.Routes.{IsBuild, Takes};
ghost use Rattle.zerotrie_build.specs.Refused.{IsWhyRefused, key_at};
ghost use Rattle.zerotrie_core.specs.Kinds.{kind_of};
ghost use Rattle.zerotrie_making.specs.Made.{IsIndexed, AreAtFault};
ghost use Rattle.zerotrie_making.specs.Plans.{an_index, kind_for, route_of};

use std::alloc::{AllocError, Global};
use zerotrie_any::{bytes_from_slice, bytes_from_unsorted_slice, kind_for_pairs};
use zerotrie_build::{Refusal, why_iter_refused, why_slice_refused};
use zerotrie_core::{TrieKind, ZeroTrieBuildError, ZeroTrieWithOptions, by_kind};
use zerotrie_index::{ZeroIndexBuildError, build, build_sorted};

/// Returns the kind of a trie of the pairs: the named one, or the one that `ZeroTrie` chooses.
pub(crate) fn kind_for(named: Option<TrieKind>, items: &[(&[u8], usize)]) -> TrieKind
    ensures { kind_of result ≡ kind_for named (pairs_of items.now) }
{
    match named {
        Some(kind) => kind,
        None => kind_for_pairs(items),
    }
}

/// Builds the trie of the pairs, of the kind `K`.
fn bytes_as<K: ZeroTrieWithOptions>(
    alloc: Global,
    sorted: bool,
    items: &[(&[u8], usize)],
) -> Result<Vec<u8>, ZeroTrieBuildError>
    ensures { IsBuild (route_of sorted) K.kind (λ bytes. bytes.items) (pairs_of items.now) result }
{
    if sorted {
        bytes_from_slice::<K>(alloc, items)
    } else {
        bytes_from_unsorted_slice::<K>(alloc, items)
    }
}

/// Builds the trie of the pairs. With `sorted` their keys must ascend.
pub(crate) fn bytes_of(
    alloc: Global,
    kind: TrieKind,
    sorted: bool,
    items: &[(&[u8], usize)],
) -> Result<Vec<u8>, ZeroTrieBuildError>
    ensures { IsBuild (route_of sorted) (kind_of kind) (λ bytes. bytes.items) (pairs_of items.now)
        result }
{
    by_kind!(kind, bytes_as::<_>(alloc, sorted, items))
}

/// Returns which keys show why a build of the pairs fails, in the kind `K`.
fn why_as<K: ZeroTrieWithOptions>(
    alloc: Global,
    sorted: bool,
    items: &[(&[u8], usize)],
) -> Result<Option<Refusal>, AllocError>
    ensures { IfOk result (IsWhyRefused (route_of sorted) K.kind (pairs_of items.now)) }
{
    if sorted {
        Ok(why_slice_refused::<K, &[u8]>(items))
    } else {
        why_iter_refused::<K, &[u8]>(alloc, items)
    }
}

/// Returns which keys show why a build of the pairs fails. `None` if none do.
pub(crate) fn why_refused(
    alloc: Global,
    kind: TrieKind,
    sorted: bool,
    items: &[(&[u8], usize)],
) -> Result<Option<Refusal>, AllocError>
    ensures { IfOk result (IsWhyRefused (route_of sorted) (kind_of kind) (pairs_of items.now)) }
{
    by_kind!(kind, why_as::<_>(alloc, sorted, items))
}

/// The first seed of an index.
const SEED: u64 = 0;

/// Builds the index of the pairs. With `sorted` their keys must ascend.
pub(crate) fn index_bytes_of(
    alloc: Global,
    sorted: bool,
    items: &[(&[u8], usize)],
) -> Result<Vec<u8>, ZeroIndexBuildError>
    ensures { IsIndexed sorted (λ bytes. bytes.items) (pairs_of items.now) result }
{
    if sorted {
        build_sorted(alloc, SEED, items)
    } else {
        build(alloc, SEED, items)
    }
}

/// Reads a key, which shows the proof that its bytes are below 256.
fn read_key(key: &[u8])
    ensures { All (λ b. b < 256) key.now }
{
    let _first = key.first();
}

/// Reads the key of an item.
fn read_key_at(items: &[(&[u8], usize)], index: usize)
    requires { index < length items.now }
    ensures { All (λ b. b < 256) (key_at (pairs_of items.now) index) }
{
    let (key, _) = items[index];
    read_key(key);
}

/// Returns which keys show why a build of an index of the pairs fails. `None` if none do.
pub(crate) fn why_unindexed(
    alloc: Global,
    sorted: bool,
    items: &[(&[u8], usize)],
) -> Result<Option<Refusal>, AllocError>
    ensures some { IfOk result (λ why. IfSome why (AreAtFault an_index sorted
        (pairs_of items.now))) }
    ensures none { IfOk result (λ why. IfNone why (Takes (route_of sorted) (pairs_of items.now))) }
{
    // a trie of this kind takes keys of any bytes, too
    match why_refused(alloc, TrieKind::Hash, sorted, items)? {
        Some(refusal) => {
            read_key_at(items, refusal.first);
            Ok(Some(refusal))
        }
        None => Ok(None),
    }
}
