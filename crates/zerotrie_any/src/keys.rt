//! The keys of a trie, one after another.

ghost use Rattle.std.specs.Prelude.{◌≡◌, ◌≤◌, length};
ghost use Rattle.std.specs.Iterator.{at_most};
ghost use Rattle.zerotrie_core.specs.Listings.{to_come};
ghost use Rattle.zerotrie_core.specs.Maps.{Pairs};
ghost use Rattle.zerotrie_core.specs.Texts.{Lists};
ghost use Rattle.zerotrie_any.specs.Flavors.{flavor_kind};

use crate::trie::ZeroTrie;
use std::alloc::Global;
use std::marker::Model;
use zerotrie_core::{ListError, TrieStore, ZeroTrieIterator, ZeroTrieWithOptions};

/// An iterator over the keys of a trie, in the order of `ZeroTrieIterator`.
///
/// An item is a key, or `ListError::OutOfMemory` if an allocation fails. After an error, and after
/// the end, each `next` returns `None`.
#[derive(Debug, Drop)]
pub struct ZeroTrieKeys<'a> {
    pairs: ZeroTrieIterator<'a>,
}

impl<'a> Model for ZeroTrieKeys<'a> {
    ghost use Rattle.zerotrie_core.specs.Listings.{Left};

    ghost Value = { Left };

    ghost view = { λ s. s.pairs };
}

impl<'a> ZeroTrieKeys<'a> {
    ghost use Rattle.zerotrie_core.specs.Listings.{to_come};

    /// Returns the keys of the trie in these bytes. Does not allocate before the first `next`.
    pub fn new<K: ZeroTrieWithOptions>(alloc: Global, bytes: &'a [u8]) -> Self
        ensures lists { (pairs : Pairs) → Lists K.kind bytes.now pairs → result ≡ to_come pairs }
        ensures most { length result.pairs ≤ length bytes.now }
    {
        ZeroTrieKeys {
            pairs: ZeroTrieIterator::new::<K>(alloc, bytes),
        }
    }
}

impl<'a> Iterator for ZeroTrieKeys<'a> {
    type Item = Result<Vec<u8>, ListError>;

    ghost use Rattle.zerotrie_core.specs.Listings.{MemoryOnly, turns_left};
    ghost use Rattle.zerotrie_core.specs.Parts.{ListsPart};

    ghost next_gives = { ListsPart (λ e key. e.0 ≡ key.items) MemoryOnly };

    ghost remaining = { λ s. at_most (turns_left s) };

    fn next(&mut self) -> Option<Result<Vec<u8>, ListError>> {
        match self.pairs.next() {
            None => None,
            Some(Ok((key, _value))) => Some(Ok(key)),
            Some(Err(error)) => Some(Err(error)),
        }
    }
}

impl<S: TrieStore> ZeroTrie<S> {
    /// Returns an iterator over the keys, in the order of `iter`. Does not allocate before the
    /// first `next`.
    ///
    /// ```
    /// let trie = ZeroTrie::try_from_iter(rt.alloc(), [("xyz", 22), ("abc", 11)])?;
    /// let first = trie.keys(rt.alloc()).next().ok_or("no key")??;
    /// assert_eq!(rt; first.as_slice(), b"abc".as_slice());
    /// ```
    pub fn keys(&self, alloc: Global) -> ZeroTrieKeys<'_>
        ensures lists { (pairs : Pairs)
            → Lists (flavor_kind self.now.flavor) (S.stored self.now.store) pairs
            → result ≡ to_come pairs }
        ensures most { length result.pairs ≤ length (S.stored self.now.store) }
    {
        ZeroTrieKeys {
            pairs: self.iter(alloc),
        }
    }
}
