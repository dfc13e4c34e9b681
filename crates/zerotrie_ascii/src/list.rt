//! The pairs of a trie, one after another.

ghost use Rattle.std.specs.Prelude.{◌≡◌, ◌≤◌, IfOk, length};
ghost use Rattle.std.specs.Iterator.{at_most};
ghost use Rattle.std.specs.String.{string_bytes};
ghost use Rattle.zerotrie_core.specs.Maps.{Map, Pairs, beginning};
ghost use Rattle.zerotrie_core.specs.Texts.{Lists, Means};
ghost use Rattle.zerotrie_core.specs.Listings.{to_come, turns_left, ListsOne};
ghost use Rattle.zerotrie_any.specs.Listed.{IsListed};
ghost use Rattle.zerotrie_ascii.specs.ListedTexts.{AreTexts, TextError};

use crate::trie::{AsciiKind, AsciiTrie};
use std::alloc::{AllocError, Global};
use std::collections::BTreeMap;
use std::marker::Model;
use zerotrie_core::{ListError, TrieStore, ZeroTrieIterator};

/// An iterator over the pairs of a trie over ASCII keys, in ascending order of the keys: by their
/// bytes, or if case is ignored by their bytes in lower case.
///
/// An item is a key with its value, or `ListError::OutOfMemory` if an allocation fails. On
/// malformed bytes it may be `ListError::NotText`, if a key is not UTF-8. After an error, and after
/// the end, each `next` returns `None`.
#[derive(Debug, Drop)]
pub struct ZeroTrieStringIterator<'a> {
    inner: ZeroTrieIterator<'a>,
    ended: bool,
}

impl<'a> Model for ZeroTrieStringIterator<'a> {
    ghost use Rattle.std.specs.Prelude.{cond};
    ghost use Rattle.zerotrie_core.specs.Listings.{Left, over};

    ghost Value = { Left };

    ghost view = { λ s. cond s.ended over s.inner };
}

impl<'a> ZeroTrieStringIterator<'a> {
    /// Returns an iterator over the pairs of the trie in these bytes.
    pub(crate) fn new<K: AsciiKind>(alloc: Global, bytes: &'a [u8]) -> Self
        ensures lists { (pairs : Pairs) → Lists K.kind bytes.now pairs → result ≡ to_come pairs }
        ensures texts { (pairs : Pairs) → Lists K.kind bytes.now pairs → AreTexts pairs }
        ensures most { length result.pairs ≤ length bytes.now }
    {
        ZeroTrieStringIterator {
            inner: ZeroTrieIterator::new::<K>(alloc, bytes),
            ended: false,
        }
    }

    /// Returns an iterator over those pairs of the trie in these bytes whose keys begin with a
    /// prefix.
    pub(crate) fn with_prefix<K: AsciiKind>(
        alloc: Global,
        bytes: &'a [u8],
        prefix: &[u8],
    ) -> Result<Self, AllocError>
        ensures lists { IfOk result (λ it. (pairs : Pairs) → Lists K.kind bytes.now pairs
            → it ≡ to_come (beginning K.kind prefix.now pairs)) }
        ensures texts { (pairs : Pairs) → Lists K.kind bytes.now pairs
            → AreTexts (beginning K.kind prefix.now pairs) }
        ensures most { IfOk result (λ it. length it.pairs ≤ length bytes.now) }
    {
        Ok(ZeroTrieStringIterator {
            inner: ZeroTrieIterator::with_prefix::<K>(alloc, bytes, prefix)?,
            ended: false,
        })
    }
}

impl<'a> Iterator for ZeroTrieStringIterator<'a> {
    type Item = Result<(String, usize), ListError>;

    ghost next_gives = { ListsOne (λ key. string_bytes key) TextError };

    ghost remaining = { λ s. at_most (turns_left s) };

    fn next(&mut self) -> Option<Result<(String, usize), ListError>> {
        if self.ended {
            return None;
        }
        match self.inner.next() {
            None => None,
            Some(Err(error)) => {
                self.ended = true;
                Some(Err(error))
            }
            Some(Ok((key, value))) => match String::from_utf8(key) {
                Ok(text) => Some(Ok((text, value))),
                Err(_) => {
                    self.ended = true;
                    Some(Err(ListError::NotText))
                }
            },
        }
    }
}

/// An iterator over the keys of a trie over ASCII keys, in the order of `ZeroTrieStringIterator`.
///
/// An item is a key, or an error as there. After an error, and after the end, each `next` returns
/// `None`.
#[derive(Debug, Drop)]
pub struct ZeroTrieStringKeys<'a> {
    pairs: ZeroTrieStringIterator<'a>,
}

impl<'a> Model for ZeroTrieStringKeys<'a> {
    ghost use Rattle.zerotrie_core.specs.Listings.{Left};

    ghost Value = { Left };

    ghost view = { λ s. s.pairs };
}

impl<'a> ZeroTrieStringKeys<'a> {
    /// Returns an iterator over the keys of the trie in these bytes.
    pub(crate) fn new<K: AsciiKind>(alloc: Global, bytes: &'a [u8]) -> Self
        ensures lists { (pairs : Pairs) → Lists K.kind bytes.now pairs → result ≡ to_come pairs }
        ensures most { length result.pairs ≤ length bytes.now }
    {
        ZeroTrieStringKeys {
            pairs: ZeroTrieStringIterator::new::<K>(alloc, bytes),
        }
    }
}

impl<'a> Iterator for ZeroTrieStringKeys<'a> {
    type Item = Result<String, ListError>;

    ghost use Rattle.zerotrie_core.specs.Parts.{ListsPart};

    ghost next_gives = { ListsPart (λ e key. e.0 ≡ string_bytes key) TextError };

    ghost remaining = { λ s. at_most (turns_left s) };

    fn next(&mut self) -> Option<Result<String, ListError>> {
        match self.pairs.next() {
            None => None,
            Some(Ok((key, _value))) => Some(Ok(key)),
            Some(Err(error)) => Some(Err(error)),
        }
    }
}

impl<K: AsciiKind, S: TrieStore> AsciiTrie<K, S> {
    /// Returns an iterator over the pairs, in ascending order of their keys: by their bytes, or if
    /// case is ignored by their bytes in lower case. Does not allocate before the first `next`.
    ///
    /// ```
    /// let trie = ZeroTrieSimpleAscii::try_from_iter(rt.alloc(), [("xyz", 22), ("abc", 11)])?;
    /// for (item, pair) in trie.iter(rt.alloc()).zip([("abc", 11), ("xyz", 22)]) {
    ///     let (key, value) = item?;
    ///     assert_eq!(rt; (key.as_str(), value), pair);
    /// }
    /// ```
    ///
    /// An item is `ListError::OutOfMemory` if an allocation fails, and the iterator then ends. On
    /// malformed bytes there are at most as many pairs as bytes.
    pub fn iter(&self, alloc: Global) -> ZeroTrieStringIterator<'_>
        ensures lists { (pairs : Pairs) → Lists K.kind (S.stored self.now.store) pairs
            → result ≡ to_come pairs }
        ensures texts { (pairs : Pairs) → Lists K.kind (S.stored self.now.store) pairs
            → AreTexts pairs }
        ensures most { length result.pairs ≤ length (S.stored self.now.store) }
    {
        ZeroTrieStringIterator::new::<K>(alloc, self.as_bytes())
    }

    /// Returns an iterator over the pairs whose keys begin with a prefix, each with its whole key,
    /// in the order of `iter`.
    ///
    /// ```
    /// let trie = ZeroTrieSimpleAscii::try_from_iter(rt.alloc(), [("xyz", 22), ("abc", 11)])?;
    /// let mut pairs = trie.iter_prefix(rt.alloc(), b"ab")?;
    /// let (key, value) = pairs.next().ok_or("no key")??;
    /// assert_eq!(rt; (key.as_str(), value), ("abc", 11));
    /// assert!(rt; pairs.next().is_none());
    /// ```
    ///
    /// Reads no part of the trie but the one below the prefix. An error means that an allocation
    /// failed.
    pub fn iter_prefix(
        &self,
        alloc: Global,
        prefix: &[u8],
    ) -> Result<ZeroTrieStringIterator<'_>, AllocError>
        ensures lists { IfOk result (λ it.
            (pairs : Pairs) → Lists K.kind (S.stored self.now.store) pairs
            → it ≡ to_come (beginning K.kind prefix.now pairs)) }
        ensures texts { (pairs : Pairs) → Lists K.kind (S.stored self.now.store) pairs
            → AreTexts (beginning K.kind prefix.now pairs) }
        ensures most { IfOk result (λ it. length it.pairs ≤ length (S.stored self.now.store)) }
    {
        ZeroTrieStringIterator::with_prefix::<K>(alloc, self.as_bytes(), prefix)
    }

    /// Returns an iterator over the keys, in the order of `iter`. Does not allocate before the
    /// first `next`.
    ///
    /// ```
    /// let trie = ZeroTrieSimpleAscii::try_from_iter(rt.alloc(), [("xyz", 22), ("abc", 11)])?;
    /// let first = trie.keys(rt.alloc()).next().ok_or("no key")??;
    /// assert_eq!(rt; first.as_str(), "abc");
    /// ```
    pub fn keys(&self, alloc: Global) -> ZeroTrieStringKeys<'_>
        ensures lists { (pairs : Pairs) → Lists K.kind (S.stored self.now.store) pairs
            → result ≡ to_come pairs }
        ensures most { length result.pairs ≤ length (S.stored self.now.store) }
    {
        ZeroTrieStringKeys::new::<K>(alloc, self.as_bytes())
    }

    /// Returns the map of the trie, in the order of the keys' bytes.
    ///
    /// ```
    /// let trie = ZeroTrieSimpleAscii::try_from_iter(rt.alloc(), [("xyz", 22), ("abc", 11)])?;
    /// assert_eq!(rt; trie.to_btreemap(rt.alloc())?.len(), 2);
    /// ```
    ///
    /// The only error is `OutOfMemory`, or on malformed bytes `NotText`.
    pub fn to_btreemap(&self, alloc: Global) -> Result<BTreeMap<String, usize>, ListError>
        ensures { (m : Map) → Means K.kind (S.stored self.now.store) m
            → IsListed (λ key. string_bytes key) m result }
    {
        let mut pairs = Vec::new(alloc);
        for item in self.iter(alloc) {
            pairs.push(item?)?;
        }
        Ok(BTreeMap::from_iter(alloc, pairs)?)
    }
}
