//! Sorted listings of tries as streams.

ghost use Rattle.std.specs.Prelude.{◌≡◌, ◌↔◌, IsSome, IfSome, IfOk};
ghost use Rattle.std.specs.FinMap.{entries};
ghost use Rattle.zerotrie_core.specs.Maps.{Map, Ascends};
ghost use Rattle.zerotrie_core.specs.Texts.{Means};
ghost use Rattle.zerotrie_core.specs.Listings.{to_come};
ghost use Rattle.zerotrie_core.specs.WellFormed.{IsWellFormed};

use std::alloc::{AllocError, Allocator, Global};
use std::marker::Model;
use std::ops::Bound;
use zerotrie_core::PairStream;
use zerotrie_search::laws::sorted_listing_ascends;
use zerotrie_search::{Search, ZeroTrieSorted};

/// Lists the pairs of a trie of any kind, or a range of them, in the order of bytes.
///
/// ```
/// use std::ops::Bound;
///
/// // the keys "ab", "ac" and "b" with values 1, 2 and 3
/// let bytes = b"\xC2ab\x06\xC2bc\x01\x81\x82\x83";
/// let from = Bound::Excluded(b"ab".as_slice());
/// let sorted = ZeroTrieSorted::new::<Simple>(rt.alloc(), bytes, from, Bound::Unbounded)?;
/// let mut pairs = SortedTrie::validated(sorted).ok_or("no trie")?;
/// assert!(rt; pairs.advance()?);
/// assert_eq!(rt; (pairs.key(), pairs.value()), (b"ac".as_slice(), 2));
/// ```
///
/// So tries of different kinds can be merged and compared. The order is that of the bytes of the
/// stored keys.
#[derive(Drop)]
pub struct SortedTrie<'a, 'p, A: Allocator = Global> {
    pairs: ZeroTrieSorted<'a, 'p, A>,
}

impl<'a, 'p, A: Allocator> Model for SortedTrie<'a, 'p, A> {
    ghost use Rattle.zerotrie_core.specs.WellFormed.{IsWellFormed};
    ghost use Rattle.zerotrie_sets.specs.Streams.{Stand};

    ghost Value = { Stand };

    ghost view = { λ s. record {
      current = (s.pairs.key, s.pairs.value);
      left = s.pairs.left;
    } };

    ghost invariant = { λ s. IsWellFormed s.pairs.kind s.pairs.bytes };
}

impl<'a, 'p, A: Allocator> SortedTrie<'a, 'p, A> {
    /// Lists what a sorted listing lists. Does not validate the bytes.
    pub fn new(pairs: ZeroTrieSorted<'a, 'p, A>) -> Self
        requires { IsWellFormed pairs.kind pairs.bytes }
        ensures { result.left ≡ pairs.entry.left }
    {
        SortedTrie { pairs }
    }

    /// Lists what a sorted listing lists, or returns `None` if the bytes are not valid.
    pub fn validated(pairs: ZeroTrieSorted<'a, 'p, A>) -> Option<Self>
        ensures valid { IsSome result ↔ IsWellFormed pairs.entry.kind pairs.entry.bytes }
        ensures lists { IfSome result (λ s. s.left ≡ pairs.entry.left) }
    {
        if pairs.is_well_formed() {
            Some(SortedTrie::new(pairs))
        } else {
            None
        }
    }
}

impl<'a> SortedTrie<'a, 'a> {
    /// Lists all pairs of a trie of any type, or returns `None` if its bytes are not valid.
    ///
    /// ```
    /// use zerotrie::{ZeroTriePerfectHash, ZeroTrieSimpleAscii};
    ///
    /// let old = ZeroTriePerfectHash::try_from_iter(rt.alloc(), [("in", 1), ("on", 2)])?;
    /// let new = ZeroTrieSimpleAscii::try_from_iter(rt.alloc(), [("in", 1), ("to", 3)])?;
    /// let first = SortedTrie::of(rt.alloc(), &old)?.ok_or("no trie")?;
    /// let second = SortedTrie::of(rt.alloc(), &new)?.ok_or("no trie")?;
    /// let mut diff = Diff::new(first, second);
    /// assert!(rt; diff.advance()?);
    /// assert_eq!(rt; (diff.key(), diff.change()), (b"on".as_slice(), Change::Removed(2)));
    /// ```
    ///
    /// An error means that an allocation failed.
    pub fn of<T: Search>(alloc: Global, trie: &'a T) -> Result<Option<Self>, AllocError>
        ensures valid { IfOk result (λ s.
            IsSome s ↔ IsWellFormed (T.kind trie.now) (T.bytes trie.now)) }
        ensures lists { IfOk result (λ s. IfSome s (λ s. (m : Map)
            → Means (T.kind trie.now) (T.bytes trie.now) m
            → (s.left ≡ to_come (entries m)) × Ascends s.left.pairs)) }
    {
        sorted_listing_ascends();
        let pairs = trie.stream_sorted(alloc, Bound::Unbounded, Bound::Unbounded)?;
        Ok(SortedTrie::validated(pairs))
    }
}

impl<'a, 'p, A: Allocator> PairStream for SortedTrie<'a, 'p, A> {
    ghost left = { λ s. s.left };

    ghost current = { λ s. s.current };

    fn advance(&mut self) -> Result<bool, AllocError> {
        self.pairs.advance()
    }

    fn key(&self) -> &[u8] {
        self.pairs.key()
    }

    fn value(&self) -> usize {
        self.pairs.value()
    }
}
