//! Listings of the pairs of a trie, in any order.

ghost use Rattle.std.specs.Prelude.{◌≡◌, ◌≤◌, ◌+◌, ℕ, List, Bool, true, IfOk};
ghost use Rattle.zerotrie_core.specs.Listings.{Left, ListsOne, MemoryOnly, item_of};
ghost use Rattle.zerotrie_search.specs.Sorted.{moved};

use crate::automaton::Automaton;
use crate::fuzzy::Fuzzy;
use crate::nearest::ZeroTrieNearest;
use crate::search::ZeroTrieSearch;
use crate::sorted::ZeroTrieSorted;
use std::alloc::{AllocError, Allocator};
use zerotrie_core::ZeroTrieStream;

/// Lists pairs of a trie one after another, each key borrowed from one buffer: in the trie's own
/// order, in the order of bytes, or the nearest first.
///
/// ```
/// use std::alloc::AllocError;
/// use std::ops::Bound;
///
/// fn sum<P: TrieListing>(most: usize, pairs: &mut P) -> Result<usize, AllocError> {
///     let mut sum = 0usize;
///     for _ in 0..most {
///         if !pairs.advance()? {
///             break;
///         }
///         sum = sum.wrapping_mul(10).wrapping_add(pairs.value());
///     }
///     Ok(sum)
/// }
///
/// // the keys "ab", "ac" and "b" with values 1, 2 and 3
/// let bytes = b"\xC2ab\x06\xC2bc\x01\x81\x82\x83";
/// let all = Bound::Unbounded;
/// let mut sorted = ZeroTrieSorted::new::<Simple>(rt.alloc(), bytes, all, all)?;
/// assert_eq!(rt; sum(4, &mut sorted)?, 123);
/// ```
///
/// What is listed is known if the bytes are a trie. On any other bytes it is unspecified, but every
/// call returns, and no more pairs come than were promised when the listing was made.
pub trait TrieListing {
    // That the bytes are a trie. A listing in the trie's own order does not depend on it.
    ghost IsValid: { Self → Type 0 };

    // The pairs to come, and whether the listing has ended.
    ghost left: { Self → Left };

    // The current pair.
    ghost current: { Self → List ℕ × ℕ };

    // At most how many pairs are to come on any bytes.
    ghost most: { Self → ℕ };

    // Which keys may come on any bytes.
    ghost takes: { Self → List ℕ → Bool } = { λ _ _. true };

    /// Moves to the next pair, and returns whether there is one. An error ends the listing. The only
    /// error is a failed allocation.
    fn advance(&mut self) -> Result<bool, AllocError>
        ensures lists { IsValid self.old → ListsOne (λ key. key) MemoryOnly (left self.old)
            (item_of result (current self.new)) (left self.new) }
        ensures valid { IsValid self.old → IsValid self.new }
        ensures most { moved result + most self.new ≤ most self.old }
        ensures takes { IfOk result (λ found. found ≡ true
            → takes self.old (current self.new).0 ≡ true) }
        ensures same { takes self.new ≡ takes self.old };

    /// Returns the key of the current pair, the one that the last call of `advance` moved to.
    fn key(&self) -> &[u8]
        ensures { result.now ≡ (current self.now).0 };

    /// Returns the value of the current pair.
    fn value(&self) -> usize
        ensures { result ≡ (current self.now).1 };
}

impl<'a, A: Allocator> TrieListing for ZeroTrieStream<'a, A> {
    ghost use Rattle.std.specs.Prelude.{length};

    ghost IsValid = { λ _. Unit {0} };

    ghost left = { λ s. s.left };

    ghost current = { λ s. (s.key, s.value) };

    ghost most = { λ s. length s.left.pairs };

    fn advance(&mut self) -> Result<bool, AllocError> {
        ZeroTrieStream::advance(self)
    }

    fn key(&self) -> &[u8] {
        ZeroTrieStream::key(self)
    }

    fn value(&self) -> usize {
        ZeroTrieStream::value(self)
    }
}

impl<'a, 'p, A: Allocator> TrieListing for ZeroTrieSorted<'a, 'p, A> {
    ghost use Rattle.zerotrie_core.specs.WellFormed.{IsWellFormed};

    ghost IsValid = { λ s. IsWellFormed s.kind s.bytes };

    ghost left = { λ s. s.left };

    ghost current = { λ s. (s.key, s.value) };

    ghost most = { λ s. s.most };

    fn advance(&mut self) -> Result<bool, AllocError> {
        ZeroTrieSorted::advance(self)
    }

    fn key(&self) -> &[u8] {
        ZeroTrieSorted::key(self)
    }

    fn value(&self) -> usize {
        ZeroTrieSorted::value(self)
    }
}

impl<'a, 'p, T: Automaton, A: Allocator> TrieListing for ZeroTrieSearch<'a, 'p, T, A> {
    ghost use Rattle.zerotrie_core.specs.WellFormed.{IsWellFormed};

    ghost IsValid = { λ s. IsWellFormed s.sorted.kind s.sorted.bytes };

    ghost left = { λ s. s.left };

    ghost current = { λ s. (s.sorted.key, s.sorted.value) };

    ghost most = { λ s. s.sorted.most };

    ghost takes = { λ s key. T.accepts s.automaton key };

    fn advance(&mut self) -> Result<bool, AllocError> {
        ZeroTrieSearch::advance(self)
    }

    fn key(&self) -> &[u8] {
        ZeroTrieSearch::key(self)
    }

    fn value(&self) -> usize {
        ZeroTrieSearch::value(self)
    }
}

impl<'a, T: Fuzzy, A: Allocator + Copy> TrieListing for ZeroTrieNearest<'a, T, A> {
    ghost use Rattle.zerotrie_core.specs.WellFormed.{IsWellFormed};

    ghost IsValid = { λ s. IsWellFormed s.kind s.bytes };

    ghost left = { λ s. s.left };

    ghost current = { λ s. (s.key, s.value) };

    ghost most = { λ s. s.most };

    fn advance(&mut self) -> Result<bool, AllocError> {
        ZeroTrieNearest::advance(self)
    }

    fn key(&self) -> &[u8] {
        ZeroTrieNearest::key(self)
    }

    fn value(&self) -> usize {
        ZeroTrieNearest::value(self)
    }
}
