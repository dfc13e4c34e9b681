//! The pairs of a trie, one after another.

ghost use Rattle.std.specs.Prelude.{◌≡◌, ◌≤◌, IfErr, IfOk, length};
ghost use Rattle.zerotrie_core.specs.Maps.{Map, Pairs, beginning};
ghost use Rattle.zerotrie_core.specs.Texts.{Lists, Means};
ghost use Rattle.zerotrie_core.specs.Listings.{to_come};
ghost use Rattle.zerotrie_core.specs.declared.listing.ListError.TheVariants.{OutOfMemory};
ghost use Rattle.zerotrie_any.specs.Listed.{IsListed};

use crate::trie::{HashedKind, HashedTrie};
use std::alloc::{AllocError, Global};
use std::collections::BTreeMap;
use zerotrie_any::{ZeroTrieKeys, map_of};
use zerotrie_core::{ListError, TrieStore, ZeroTrieIterator};

impl<K: HashedKind, S: TrieStore> HashedTrie<K, S> {
    /// Returns an iterator over the pairs, in an unspecified order. Does not allocate before the
    /// first `next`.
    ///
    /// ```
    /// let trie = ZeroTriePerfectHash::try_from_iter(rt.alloc(), [("å", 1), ("ø", 2)])?;
    /// for item in trie.iter(rt.alloc()) {
    ///     let (key, value) = item?;
    ///     assert_eq!(rt; trie.get(key.as_slice()), Some(value));
    /// }
    /// ```
    ///
    /// An item is `ListError::OutOfMemory` if an allocation fails, and the iterator then ends. On
    /// malformed bytes there are at most as many pairs as bytes.
    pub fn iter(&self, alloc: Global) -> ZeroTrieIterator<'_>
        ensures lists { (pairs : Pairs) → Lists K.kind (S.stored self.now.store) pairs
            → result ≡ to_come pairs }
        ensures most { length result.pairs ≤ length (S.stored self.now.store) }
    {
        ZeroTrieIterator::new::<K>(alloc, self.as_bytes())
    }

    /// Returns an iterator over the pairs whose keys begin with a prefix, each with its whole key,
    /// in the order of `iter`.
    ///
    /// Reads no part of the trie but the one below the prefix. An error means that an allocation
    /// failed.
    pub fn iter_prefix(
        &self,
        alloc: Global,
        prefix: &[u8],
    ) -> Result<ZeroTrieIterator<'_>, AllocError>
        ensures lists { IfOk result (λ it.
            (pairs : Pairs) → Lists K.kind (S.stored self.now.store) pairs
            → it ≡ to_come (beginning K.kind prefix.now pairs)) }
        ensures most { IfOk result (λ it. length it.pairs ≤ length (S.stored self.now.store)) }
    {
        ZeroTrieIterator::with_prefix::<K>(alloc, self.as_bytes(), prefix)
    }

    /// Returns an iterator over the keys, in the order of `iter`. Does not allocate before the
    /// first `next`.
    ///
    /// ```
    /// let trie = ZeroTriePerfectHash::try_from_iter(rt.alloc(), [("xyz", 22), ("abc", 11)])?;
    /// let first = trie.keys(rt.alloc()).next().ok_or("no key")??;
    /// assert_eq!(rt; first.as_slice(), b"abc".as_slice());
    /// ```
    pub fn keys(&self, alloc: Global) -> ZeroTrieKeys<'_>
        ensures lists { (pairs : Pairs) → Lists K.kind (S.stored self.now.store) pairs
            → result ≡ to_come pairs }
        ensures most { length result.pairs ≤ length (S.stored self.now.store) }
    {
        ZeroTrieKeys::new::<K>(alloc, self.as_bytes())
    }

    /// Returns the map of the trie, in the order of the keys' bytes.
    ///
    /// ```
    /// let trie = ZeroTriePerfectHash::try_from_iter(rt.alloc(), [("xyz", 22), ("abc", 11)])?;
    /// assert_eq!(rt; trie.to_btreemap(rt.alloc())?.len(), 2);
    /// ```
    ///
    /// The only error is `OutOfMemory`.
    pub fn to_btreemap(&self, alloc: Global) -> Result<BTreeMap<Vec<u8>, usize>, ListError>
        ensures listed { (m : Map) → Means K.kind (S.stored self.now.store) m
            → IsListed (λ key. key.items) m result }
        ensures refused { IfErr result (λ e. e ≡ OutOfMemory) }
    {
        map_of::<K>(alloc, self.as_bytes())
    }
}
