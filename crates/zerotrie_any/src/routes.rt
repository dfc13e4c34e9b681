//! Builds the bytes of a trie of any kind.

ghost use Rattle.std.specs.Prelude.{◌≡◌, IfOk, OnOk};
ghost use Rattle.std.specs.Iterator.{IsFiniteIterable};
ghost use Rattle.zerotrie_core.specs.Maps.{Ascends};
ghost use Rattle.zerotrie_core.specs.Items.{pairs_of, keyed};
ghost use Rattle.zerotrie_core.specs.Routes.{ascending, any_order, in_order, IsBuild, HoldsOfItsPairs, IsBuildOfAll};
ghost use Rattle.zerotrie_any.specs.Order.{IsByBytes};

use std::alloc::{AllocError, Global};
use std::collections::{BTreeMap, VecDeque};
use zerotrie_build::{ByteSliceWithIndices, ZeroTrieBuilder};
use zerotrie_core::{TrieKey, ZeroTrieBuildError, ZeroTrieBuilderOptions, ZeroTrieWithOptions};

/// Builds the bytes of the trie of a slice, whose keys must ascend strictly by their bytes, also if
/// case is ignored. An empty slice gives no bytes.
///
/// ```
/// let bytes = bytes_from_slice::<Simple>(rt.alloc(), &[(b"ad", 22), (b"adef", 33)])?;
/// assert_eq!(rt; bytes.as_slice(), b"ad\x90\x06ef\x90\x11".as_slice());
/// ```
///
/// In the kinds over ASCII keys they are the one encoding of the map.
///
/// Errors: `Unsorted`, `CapacityExceeded`, `OutOfMemory`; over ASCII keys `NonAsciiError`; if case
/// is ignored `MixedCase`; in the hashed kinds `CouldNotSolvePerfectHash`. See
/// `ZeroTrieBuildError`.
pub fn bytes_from_slice<K: ZeroTrieWithOptions>(
    alloc: Global,
    items: &[(&[u8], usize)],
) -> Result<Vec<u8>, ZeroTrieBuildError>
    ensures { IsBuild ascending K.kind (λ bytes. bytes.items) (pairs_of items.now) result }
{
    let builder: ZeroTrieBuilder<VecDeque<u8>> = ZeroTrieBuilder::from_sorted_tuple_slice(
        alloc,
        ByteSliceWithIndices::from_byte_slice(items),
        ZeroTrieBuilderOptions::of::<K>(),
    )?;
    Ok(builder.data.into_vec())
}

/// Builds the bytes of the trie of a slice in any order. An empty slice gives no bytes. Copies the
/// items only if they must be sorted.
///
/// ```
/// let bytes = bytes_from_unsorted_slice::<Simple>(rt.alloc(), &[(b"adef", 33), (b"ad", 22)])?;
/// assert_eq!(rt; bytes.as_slice(), b"ad\x90\x06ef\x90\x11".as_slice());
/// ```
///
/// The errors are those of `bytes_from_iter`.
pub fn bytes_from_unsorted_slice<K: ZeroTrieWithOptions>(
    alloc: Global,
    items: &[(&[u8], usize)],
) -> Result<Vec<u8>, ZeroTrieBuildError>
    ensures { IsBuild any_order K.kind (λ bytes. bytes.items) (pairs_of items.now) result }
{
    let builder: ZeroTrieBuilder<VecDeque<u8>> = ZeroTrieBuilder::from_tuple_slice(
        alloc,
        items,
        ZeroTrieBuilderOptions::of::<K>(),
    )?;
    Ok(builder.data.into_vec())
}

/// Returns the entries of a map, each key as its bytes. Does not copy the keys.
pub(crate) fn items_of<Key: TrieKey + Ord>(
    alloc: Global,
    entries: &BTreeMap<Key, usize>,
) -> Result<Vec<(&[u8], usize)>, AllocError>
    ensures items { IfOk result (λ items.
        pairs_of items.items ≡ keyed Key.key entries.now.entries) }
    ensures by_bytes { IsByBytes Key.cmp Key.key
        → OnOk result (Ascends (keyed Key.key entries.now.entries)) }
{
    let mut items = Vec::with_capacity(alloc, entries.len())?;
    for (key, value) in entries {
        items.push((key.key_bytes(), *value))?;
    }
    Ok(items)
}

/// Builds the bytes of the trie of a map. An empty map gives no bytes.
///
/// The errors are those of `bytes_from_slice`, but never `Unsorted` if the keys are ordered by
/// their bytes, as byte and string keys are.
pub fn bytes_from_map<K: ZeroTrieWithOptions, Key: TrieKey + Ord>(
    alloc: Global,
    entries: &BTreeMap<Key, usize>,
) -> Result<Vec<u8>, ZeroTrieBuildError>
    ensures build { IsBuild ascending K.kind (λ bytes. bytes.items)
        (keyed Key.key entries.now.entries) result }
    ensures by_bytes { IsByBytes Key.cmp Key.key
        → IsBuild in_order K.kind (λ bytes. bytes.items) (keyed Key.key entries.now.entries)
        result }
{
    let items = items_of(alloc, entries)?;
    bytes_from_slice::<K>(alloc, items.as_slice())
}

/// Builds the bytes of the trie of all pairs of an iterator, in any order. An empty iterator gives
/// no bytes.
///
/// ```
/// let bytes = bytes_from_iter::<Simple, _, _>(rt.alloc(), [("adef", 33), ("ad", 22)])?;
/// assert_eq!(rt; bytes.as_slice(), b"ad\x90\x06ef\x90\x11".as_slice());
/// ```
///
/// Errors: `DuplicateKey`, `CapacityExceeded`, `OutOfMemory`; over ASCII keys `NonAsciiError`; if
/// case is ignored `MixedCase`; in the hashed kinds `CouldNotSolvePerfectHash`. See
/// `ZeroTrieBuildError`.
pub fn bytes_from_iter<
    K: ZeroTrieWithOptions,
    Key: TrieKey + Drop,
    U: IntoIterator<Item = (Key, usize)>,
>(alloc: Global, iter: U) -> Result<Vec<u8>, ZeroTrieBuildError>
where
    U::IntoIter: Drop,
    requires { IsFiniteIterable U.into_iter_gives U.IntoIter.can_next U.IntoIter.remaining iter }
    ensures { IsBuildOfAll (HoldsOfItsPairs U.into_iter_gives U.IntoIter.next_gives Key.key iter)
        K.kind (λ bytes. bytes.items) result }
{
    let builder: ZeroTrieBuilder<VecDeque<u8>> = ZeroTrieBuilder::from_bytes_iter(
        alloc,
        iter,
        ZeroTrieBuilderOptions::of::<K>(),
    )?;
    Ok(builder.data.into_vec())
}
