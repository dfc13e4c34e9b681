//! Searches of every trie.

ghost use Rattle.std.specs.Prelude.{◌≡◌, ◌≤◌, ◌*◌, ◌&&◌, ℕ, List, length, IfOk};
ghost use Rattle.std.proofs.Common.{suc};
ghost use Rattle.std.specs.FinMap.{entries};
ghost use Rattle.std.specs.Option.{option_map};
ghost use Rattle.std.specs.Range.Bound.{bound_map};
ghost use Rattle.std.specs.declared.ops.Bound.TheVariants.{Included, Excluded, Unbounded};
ghost use Rattle.zerotrie_core.specs.Kind.{kind_with};
ghost use Rattle.zerotrie_base.specs.Kinds.{kind_of};
ghost use Rattle.zerotrie_core.specs.Maps.{Map, begins_with};
ghost use Rattle.zerotrie_core.specs.Texts.{Means};
ghost use Rattle.zerotrie_core.specs.Listings.{to_come};
ghost use Rattle.zerotrie_search.specs.Searches.{accepted};
ghost use Rattle.zerotrie_search.specs.Nearest as near;
ghost use Rattle.zerotrie_search.specs.Sorted.{within, first_of, last_of};

use crate::automaton::Automaton;
use crate::combination::Both;
use crate::fuzzy::Fuzzy;
use crate::nearest::ZeroTrieNearest;
use crate::prefix::KindPrefix;
use crate::search::ZeroTrieSearch;
use crate::sorted::{ZeroTrieSorted, ZeroTrieSortedIterator, last_between};
use std::alloc::{AllocError, Global};
use std::ops::Bound;
use zerotrie_core::{Trie, TrieKind, ZeroTrieBuilderOptions, by_kind};

/// Returns the options of a kind.
fn options_of(kind: TrieKind) -> ZeroTrieBuilderOptions
    ensures { kind_with result ≡ kind_of kind }
{
    by_kind!(kind, ZeroTrieBuilderOptions::of::<_>())
}

/// A trie whose pairs can be searched: each type of trie, over each store.
///
/// ```
/// let words = [("trial", 1), ("trie", 2), ("trio", 3)];
/// let trie = ZeroTrieSimpleAscii::try_from_iter(rt.alloc(), words)?;
/// let mut search = trie.search(rt.alloc(), Subsequence(b"ta"));
/// assert!(rt; search.advance()?);
/// assert_eq!(rt; (search.key(), search.value()), (b"trial".as_slice(), 1));
/// assert!(rt; !search.advance()?);
/// ```
///
/// A search lists the accepted pairs in ascending order of the bytes of their keys, in every kind. It does
/// not allocate for each pair. On malformed bytes it ends too: it lists at most as many pairs as bytes.
pub trait Search: Trie {
    /// Lists the pairs whose keys an automaton accepts.
    fn search<T: Automaton>(&self, alloc: Global, automaton: T) -> ZeroTrieSearch<'_, '_, T>
        ensures pairs { (m : Map) → Means (Self.kind self.now) (Self.bytes self.now) m
            → result.left ≡ to_come (accepted (T.accepts automaton) (entries m)) }
        ensures automaton { result.automaton ≡ automaton }
        ensures most { result.sorted.most ≤ length (Self.bytes self.now) }
        ensures kind { result.sorted.kind ≡ Self.kind self.now }
        ensures bytes { result.sorted.bytes ≡ Self.bytes self.now }
    {
        let (options, bytes) = (options_of(self.trie_kind()), self.as_bytes());
        let pairs = ZeroTrieSorted::all(alloc, options, bytes);
        ZeroTrieSearch::new(alloc, pairs, automaton)
    }

    /// Lists the pairs whose keys begin with a prefix, as the kind compares bytes, and whose whole
    /// keys an automaton accepts.
    ///
    /// ```
    /// let words = [("strip", 1), ("trial", 2), ("trip", 3)];
    /// let trie = ZeroTrieSimpleAscii::try_from_iter(rt.alloc(), words)?;
    /// let mut search = trie.search_prefix(rt.alloc(), b"t", Subsequence(b"ip"));
    /// assert!(rt; search.advance()?);
    /// assert_eq!(rt; search.value(), 3);
    /// assert!(rt; !search.advance()?);
    /// ```
    fn search_prefix<'p, T: Automaton>(
        &self,
        alloc: Global,
        prefix: &'p [u8],
        automaton: T,
    ) -> ZeroTrieSearch<'_, '_, Both<KindPrefix<'p>, T>>
        ensures pairs { (m : Map) → Means (Self.kind self.now) (Self.bytes self.now) m
            → result.left ≡ to_come (accepted
            (λ key. begins_with (Self.kind self.now) prefix.now key && T.accepts automaton key)
            (entries m)) }
        ensures automaton { result.automaton.1 ≡ automaton }
        ensures most { result.sorted.most ≤ length (Self.bytes self.now) }
        ensures kind { result.sorted.kind ≡ Self.kind self.now }
        ensures bytes { result.sorted.bytes ≡ Self.bytes self.now }
    {
        let kind = self.trie_kind();
        self.search(alloc, Both(KindPrefix { kind, prefix }, automaton))
    }

    /// Lists the pairs whose keys are between two bounds and that an automaton accepts.
    ///
    /// ```
    /// use std::ops::Bound;
    ///
    /// let words = [("trial", 1), ("trie", 2), ("trio", 3), ("true", 4)];
    /// let trie = ZeroTriePerfectHash::try_from_iter(rt.alloc(), words)?;
    /// let from = Bound::Excluded(b"trial".as_slice());
    /// let with_i = Subsequence(b"i");
    /// let mut search = trie.search_range(rt.alloc(), from, Bound::Unbounded, with_i)?;
    /// assert!(rt; search.advance()?);
    /// assert_eq!(rt; (search.key(), search.value()), (b"trie".as_slice(), 2));
    /// assert!(rt; search.advance()?);
    /// assert_eq!(rt; (search.key(), search.value()), (b"trio".as_slice(), 3));
    /// assert!(rt; !search.advance()?);
    /// ```
    ///
    /// So a program continues a search behind the last key that it read. It reads no node of keys that
    /// begin as no accepted key does. An error means that an allocation failed.
    fn search_range<'p, T: Automaton + Drop>(
        &self,
        alloc: Global,
        from: Bound<&[u8]>,
        to: Bound<&'p [u8]>,
        automaton: T,
    ) -> Result<ZeroTrieSearch<'_, 'p, T>, AllocError>
        ensures pairs { IfOk result (λ s. (m : Map)
            → Means (Self.kind self.now) (Self.bytes self.now) m
            → s.left ≡ to_come (accepted (T.accepts automaton)
            (within (bound_map (λ b. b.now) from.entry) (bound_map (λ b. b.now) to.entry) m))) }
        ensures automaton { IfOk result (λ s. s.automaton ≡ automaton) }
        ensures most { IfOk result (λ s. s.sorted.most ≤ length (Self.bytes self.now)) }
        ensures kind { IfOk result (λ s. s.sorted.kind ≡ Self.kind self.now) }
        ensures bytes { IfOk result (λ s. s.sorted.bytes ≡ Self.bytes self.now) }
    {
        let pairs = self.stream_sorted(alloc, from, to)?;
        Ok(ZeroTrieSearch::new(alloc, pairs, automaton))
    }

    /// Lists the pairs whose keys come after one, begin with a prefix as the kind compares bytes, and
    /// are accepted as a whole by an automaton.
    ///
    /// ```
    /// let words = [("trial", 1), ("trie", 2), ("trio", 3)];
    /// let trie = ZeroTrieSimpleAscii::try_from_iter(rt.alloc(), words)?;
    /// let mut search = trie.search_after(rt.alloc(), b"", b"trial", Subsequence(b"tr"))?;
    /// assert!(rt; search.advance()?);
    /// assert_eq!(rt; search.value(), 2);
    /// ```
    ///
    /// So a program continues a search behind the last key that it read. An error means that an
    /// allocation failed.
    fn search_after<'p, T: Automaton + Drop>(
        &self,
        alloc: Global,
        prefix: &'p [u8],
        key: &[u8],
        automaton: T,
    ) -> Result<ZeroTrieSearch<'_, 'p, Both<KindPrefix<'p>, T>>, AllocError>
        ensures pairs { IfOk result (λ s. (m : Map)
            → Means (Self.kind self.now) (Self.bytes self.now) m
            → s.left ≡ to_come (accepted
            (λ key. begins_with (Self.kind self.now) prefix.now key && T.accepts automaton key)
            (within (Excluded key.now) Unbounded m))) }
        ensures automaton { IfOk result (λ s. s.automaton.1 ≡ automaton) }
        ensures most { IfOk result (λ s. s.sorted.most ≤ length (Self.bytes self.now)) }
        ensures kind { IfOk result (λ s. s.sorted.kind ≡ Self.kind self.now) }
        ensures bytes { IfOk result (λ s. s.sorted.bytes ≡ Self.bytes self.now) }
    {
        let kind = self.trie_kind();
        let both = Both(KindPrefix { kind, prefix }, automaton);
        self.search_range(alloc, Bound::Excluded(key), Bound::Unbounded, both)
    }

    /// Lists the pairs whose keys are between two bounds in ascending order of bytes, in every kind.
    ///
    /// ```
    /// use std::ops::Bound;
    ///
    /// let words = [("trial", 1), ("trie", 2), ("trio", 3)];
    /// let trie = ZeroTriePerfectHash::try_from_iter(rt.alloc(), words)?;
    /// let from = Bound::Excluded(b"trial".as_slice());
    /// let mut sorted = trie.stream_sorted(rt.alloc(), from, Bound::Unbounded)?;
    /// assert!(rt; sorted.advance()?);
    /// assert_eq!(rt; (sorted.key(), sorted.value()), (b"trie".as_slice(), 2));
    /// ```
    ///
    /// The order is that of the bytes of the stored keys, so where the kind ignores case, upper case
    /// comes first. An error means that an allocation failed.
    fn stream_sorted<'p>(
        &self,
        alloc: Global,
        from: Bound<&[u8]>,
        to: Bound<&'p [u8]>,
    ) -> Result<ZeroTrieSorted<'_, 'p>, AllocError>
        ensures pairs { IfOk result (λ s. (m : Map)
            → Means (Self.kind self.now) (Self.bytes self.now) m
            → s.left ≡ to_come (within (bound_map (λ b. b.now) from.entry)
            (bound_map (λ b. b.now) to.entry) m)) }
        ensures most { IfOk result (λ s. s.most ≤ length (Self.bytes self.now)) }
        ensures kind { IfOk result (λ s. s.kind ≡ Self.kind self.now) }
        ensures bytes { IfOk result (λ s. s.bytes ≡ Self.bytes self.now) }
    {
        let (options, bytes) = (options_of(self.trie_kind()), self.as_bytes());
        let sorted = ZeroTrieSorted::with_options(alloc, options, bytes, from, to)?;
        Ok(sorted)
    }

    /// Lists the pairs whose keys few edits make of a word, the nearest first, and those that are as near
    /// in the order of bytes.
    ///
    /// ```
    /// let words = [("trial", 1), ("trie", 2), ("tries", 3), ("trio", 4)];
    /// let trie = ZeroTriePerfectHash::try_from_iter(rt.alloc(), words)?;
    /// let word = LevenshteinChars::new("trie", 1).ok_or("a long word")?;
    /// let mut nearest = trie.nearest(rt.alloc(), word);
    /// assert!(rt; nearest.advance()?);
    /// assert_eq!(rt; (nearest.key(), nearest.value()), (b"trie".as_slice(), 2));
    /// assert_eq!(rt; nearest.distance(), 0);
    /// assert!(rt; nearest.advance()?);
    /// assert_eq!(rt; (nearest.key(), nearest.value()), (b"tries".as_slice(), 3));
    /// assert_eq!(rt; nearest.distance(), 1);
    /// assert!(rt; nearest.advance()?);
    /// assert_eq!(rt; (nearest.key(), nearest.value()), (b"trio".as_slice(), 4));
    /// assert!(rt; !nearest.advance()?);
    /// ```
    ///
    /// It searches as it is asked. On malformed bytes it lists at most as many pairs as bytes for each
    /// number of edits.
    fn nearest<T: Fuzzy>(&self, alloc: Global, automaton: T) -> ZeroTrieNearest<'_, T>
        ensures pairs { (m : Map) → Means (Self.kind self.now) (Self.bytes self.now) m
            → result.left ≡ to_come (near.nearest (T.measure automaton) (entries m) 0 (suc (T.most automaton))) }
        ensures most { result.most ≤ suc (T.most automaton) * length (Self.bytes self.now) }
        ensures kind { result.kind ≡ Self.kind self.now }
        ensures bytes { result.bytes ≡ Self.bytes self.now }
        ensures automaton { result.automaton ≡ automaton }
    {
        let (options, bytes) = (options_of(self.trie_kind()), self.as_bytes());
        ZeroTrieNearest::with_options(alloc, options, bytes, automaton)
    }

    /// Returns an iterator over the pairs whose keys are between two bounds, in ascending order of
    /// bytes. Each key is in memory of its own.
    ///
    /// ```
    /// use std::ops::Bound;
    ///
    /// let words = [("trial", 1), ("trie", 2), ("trio", 3)];
    /// let trie = ZeroTriePerfectHash::try_from_iter(rt.alloc(), words)?;
    /// let mut sum = 0usize;
    /// for item in trie.iter_sorted(rt.alloc(), Bound::Unbounded, Bound::Included(b"trie"))? {
    ///     sum = sum.wrapping_mul(10).wrapping_add(item?.1);
    /// }
    /// assert_eq!(rt; sum, 12);
    /// ```
    ///
    /// `stream_sorted` lists the same pairs without allocating each key. An error means that an
    /// allocation failed.
    fn iter_sorted<'p>(
        &self,
        alloc: Global,
        from: Bound<&[u8]>,
        to: Bound<&'p [u8]>,
    ) -> Result<ZeroTrieSortedIterator<'_, 'p>, AllocError>
        ensures pairs { IfOk result (λ s. (m : Map)
            → Means (Self.kind self.now) (Self.bytes self.now) m
            → s.left ≡ to_come (within (bound_map (λ b. b.now) from.entry)
            (bound_map (λ b. b.now) to.entry) m)) }
        ensures most { IfOk result (λ s. s.most ≤ length (Self.bytes self.now)) }
        ensures kind { IfOk result (λ s. s.kind ≡ Self.kind self.now) }
        ensures bytes { IfOk result (λ s. s.bytes ≡ Self.bytes self.now) }
    {
        let sorted = self.stream_sorted(alloc, from, to)?;
        Ok(ZeroTrieSortedIterator::new(sorted))
    }

    /// Returns the least pair, by the bytes of its key, whose key is at least this one, or `None` if
    /// there is none.
    ///
    /// ```
    /// let words = [("trial", 1), ("trie", 2), ("trio", 3)];
    /// let trie = ZeroTriePerfectHash::try_from_iter(rt.alloc(), words)?;
    /// let (key, value) = trie.first_from(rt.alloc(), b"tribe")?.ok_or("none")?;
    /// assert_eq!(rt; (key.as_slice(), value), (b"trie".as_slice(), 2));
    /// assert!(rt; trie.first_from(rt.alloc(), b"true")?.is_none());
    /// ```
    ///
    /// It reads the edges of each branch that it passes. On malformed bytes the result is unspecified.
    /// An error means that an allocation failed.
    fn first_from(&self, alloc: Global, key: &[u8]) -> Result<Option<(Vec<u8>, usize)>, AllocError>
        ensures { IfOk result (λ r. (m : Map)
            → Means (Self.kind self.now) (Self.bytes self.now) m
            → option_map {U = List ℕ × ℕ} (λ p. (p.0.items, p.1)) r
            ≡ first_of (within (Included key.now) Unbounded m)) }
    {
        let sorted = self.stream_sorted(alloc, Bound::Included(key), Bound::Unbounded)?;
        let first = sorted.first()?;
        Ok(first)
    }

    /// Returns the least pair, by the bytes of its key, whose key is above this one, or `None` if
    /// there is none.
    ///
    /// ```
    /// let words = [("trial", 1), ("trie", 2), ("trio", 3)];
    /// let trie = ZeroTriePerfectHash::try_from_iter(rt.alloc(), words)?;
    /// let (key, value) = trie.first_after(rt.alloc(), b"trie")?.ok_or("none")?;
    /// assert_eq!(rt; (key.as_slice(), value), (b"trio".as_slice(), 3));
    /// ```
    ///
    /// On malformed bytes the result is unspecified. An error means that an allocation failed.
    fn first_after(&self, alloc: Global, key: &[u8]) -> Result<Option<(Vec<u8>, usize)>, AllocError>
        ensures { IfOk result (λ r. (m : Map)
            → Means (Self.kind self.now) (Self.bytes self.now) m
            → option_map {U = List ℕ × ℕ} (λ p. (p.0.items, p.1)) r
            ≡ first_of (within (Excluded key.now) Unbounded m)) }
    {
        let sorted = self.stream_sorted(alloc, Bound::Excluded(key), Bound::Unbounded)?;
        let first = sorted.first()?;
        Ok(first)
    }

    /// Returns the greatest pair, by the bytes of its key, whose key is below this one, or `None` if
    /// there is none.
    ///
    /// ```
    /// let words = [("trial", 1), ("trie", 2), ("trio", 3)];
    /// let trie = ZeroTriePerfectHash::try_from_iter(rt.alloc(), words)?;
    /// let (key, value) = trie.last_before(rt.alloc(), b"trie")?.ok_or("none")?;
    /// assert_eq!(rt; (key.as_slice(), value), (b"trial".as_slice(), 1));
    /// assert!(rt; trie.last_before(rt.alloc(), b"trial")?.is_none());
    /// ```
    ///
    /// It costs what `first_from` does. On malformed bytes the result is unspecified. An error means
    /// that an allocation failed.
    fn last_before(&self, alloc: Global, key: &[u8]) -> Result<Option<(Vec<u8>, usize)>, AllocError>
        ensures { IfOk result (λ r. (m : Map)
            → Means (Self.kind self.now) (Self.bytes self.now) m
            → option_map {U = List ℕ × ℕ} (λ p. (p.0.items, p.1)) r
            ≡ last_of (within Unbounded (Excluded key.now) m)) }
    {
        self.last_within(alloc, Bound::Unbounded, Bound::Excluded(key))
    }

    /// Returns the greatest pair, by the bytes of its key, whose key is between two bounds, or `None`
    /// if there is none.
    ///
    /// ```
    /// use std::ops::Bound;
    ///
    /// let words = [("trial", 1), ("trie", 2), ("trio", 3)];
    /// let trie = ZeroTriePerfectHash::try_from_iter(rt.alloc(), words)?;
    /// let last = trie.last_within(rt.alloc(), Bound::Unbounded, Bound::Unbounded)?;
    /// assert_eq!(rt; last.map(|pair| pair.1), Some(3));
    /// let to = Bound::Included(b"tribe".as_slice());
    /// let last = trie.last_within(rt.alloc(), Bound::Unbounded, to)?;
    /// assert_eq!(rt; last.map(|pair| pair.1), Some(1));
    /// assert!(rt; trie.last_within(rt.alloc(), Bound::Excluded(b"trial"), to)?.is_none());
    /// ```
    ///
    /// It compares the edges at one place for each byte that it goes back or down. On malformed bytes
    /// the result is unspecified. An error means that an allocation failed.
    fn last_within(
        &self,
        alloc: Global,
        from: Bound<&[u8]>,
        to: Bound<&[u8]>,
    ) -> Result<Option<(Vec<u8>, usize)>, AllocError>
        ensures { IfOk result (λ r. (m : Map)
            → Means (Self.kind self.now) (Self.bytes self.now) m
            → option_map {U = List ℕ × ℕ} (λ p. (p.0.items, p.1)) r
            ≡ last_of (within (bound_map (λ b. b.now) from.entry)
            (bound_map (λ b. b.now) to.entry) m)) }
    {
        let (options, bytes) = (options_of(self.trie_kind()), self.as_bytes());
        last_between(alloc, options, bytes, from, to)
    }
}

impl<R: Trie> Search for R {}
