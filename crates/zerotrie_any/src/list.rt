//! The pairs of a trie, one after another, and its map.

ghost use Rattle.std.specs.Prelude.{◌≡◌, ◌≤◌, IfErr, IfOk, length};
ghost use Rattle.zerotrie_core.specs.Maps.{Map, Pairs, beginning};
ghost use Rattle.zerotrie_core.specs.Texts.{Lists, Means};
ghost use Rattle.zerotrie_core.specs.Listings.{to_come};
ghost use Rattle.zerotrie_core.specs.declared.listing.ListError.TheVariants.{OutOfMemory};
ghost use Rattle.zerotrie_any.specs.Flavors.{flavor_kind};
ghost use Rattle.zerotrie_any.specs.Listed.{IsListed};

use crate::trie::{ZeroTrie, by_flavor};
use std::alloc::{AllocError, Global};
use std::collections::BTreeMap;
use zerotrie_core::{ListError, TrieStore, ZeroTrieIterator, ZeroTrieWithOptions};

/// Returns the map of the trie in these bytes, in the order of the keys' bytes.
///
/// ```
/// let map = map_of::<Simple>(rt.alloc(), b"ad\x90\x06ef\x90\x11")?;
/// assert_eq!(rt; map.len(), 2);
/// ```
///
/// The only error is `OutOfMemory`. On malformed bytes the result is unspecified.
pub fn map_of<K: ZeroTrieWithOptions>(
    alloc: Global,
    bytes: &[u8],
) -> Result<BTreeMap<Vec<u8>, usize>, ListError>
    ensures listed { (m : Map) → Means K.kind bytes.now m → IsListed (λ key. key.items) m result }
    ensures refused { IfErr result (λ e. e ≡ OutOfMemory) }
{
    let mut pairs = Vec::new(alloc);
    for item in ZeroTrieIterator::new::<K>(alloc, bytes) {
        pairs.push(item?)?;
    }
    Ok(BTreeMap::from_iter(alloc, pairs)?)
}

impl<S: TrieStore> ZeroTrie<S> {
    /// Returns an iterator over the pairs, in an unspecified order. Does not allocate before the
    /// first `next`.
    ///
    /// ```
    /// let trie = ZeroTrie::try_from_iter(rt.alloc(), [("xyz", 22), ("abc", 11)])?;
    /// for item in trie.iter(rt.alloc()) {
    ///     let (key, value) = item?;       // (b"abc", 11), then (b"xyz", 22)
    /// }
    /// ```
    ///
    /// An item is `ListError::OutOfMemory` if an allocation fails, and the iterator then ends. On
    /// malformed bytes there are at most as many pairs as bytes.
    pub fn iter(&self, alloc: Global) -> ZeroTrieIterator<'_>
        ensures lists { (pairs : Pairs)
            → Lists (flavor_kind self.now.flavor) (S.stored self.now.store) pairs
            → result ≡ to_come pairs }
        ensures most { length result.pairs ≤ length (S.stored self.now.store) }
    {
        let bytes = self.store.bytes();
        by_flavor!(self.flavor, ZeroTrieIterator::new::<_>(alloc, bytes))
    }

    /// Returns an iterator over the pairs whose keys begin with a prefix, each with its whole key,
    /// in the order of `iter`.
    ///
    /// Reads no part of the trie but the one below the prefix. An error means that an allocation
    /// failed.
    pub fn iter_prefix(
        &self,
        alloc: Global,
        prefix: &[u8],
    ) -> Result<ZeroTrieIterator<'_>, AllocError>
        ensures lists { IfOk result (λ it.
            (pairs : Pairs) → Lists (flavor_kind self.now.flavor) (S.stored self.now.store) pairs
            → it ≡ to_come (beginning (flavor_kind self.now.flavor) prefix.now pairs)) }
        ensures most { IfOk result (λ it. length it.pairs ≤ length (S.stored self.now.store)) }
    {
        let bytes = self.store.bytes();
        by_flavor!(
            self.flavor,
            ZeroTrieIterator::with_prefix::<_>(alloc, bytes, prefix)
        )
    }

    /// Returns the map of the trie, in the order of the keys' bytes.
    ///
    /// ```
    /// let trie = ZeroTrie::try_from_iter(rt.alloc(), [("xyz", 22), ("abc", 11)])?;
    /// assert_eq!(rt; trie.to_btreemap(rt.alloc())?.len(), 2);
    /// ```
    ///
    /// The only error is `OutOfMemory`.
    pub fn to_btreemap(&self, alloc: Global) -> Result<BTreeMap<Vec<u8>, usize>, ListError>
        ensures listed { (m : Map) → Means (flavor_kind self.now.flavor) (S.stored self.now.store) m
            → IsListed (λ key. key.items) m result }
        ensures refused { IfErr result (λ e. e ≡ OutOfMemory) }
    {
        let bytes = self.store.bytes();
        by_flavor!(self.flavor, map_of::<_>(alloc, bytes))
    }
}
