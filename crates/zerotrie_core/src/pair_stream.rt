//! What lists pairs, each key borrowed from one buffer.

ghost use Rattle.std.specs.Prelude.{◌≡◌, ℕ, List, Bool, true, IfErr, IsTrue};
ghost use Rattle.zerotrie_core.specs.Listings.{Left, ListsOne, MemoryOnly, item_of};

use crate::stream::ZeroTrieStream;
use std::alloc::{AllocError, Allocator};

/// Lists pairs one after another, each key borrowed from one buffer.
///
/// ```
/// use std::alloc::AllocError;
///
/// fn sum<S: PairStream>(most: usize, pairs: &mut S) -> Result<usize, AllocError> {
///     let mut sum = 0usize;
///     for _ in 0..most {
///         if !pairs.advance()? {
///             break;
///         }
///         sum = sum.wrapping_add(pairs.value());
///     }
///     Ok(sum)
/// }
///
/// let mut pairs = ZeroTrieStream::new::<Simple>(rt.alloc(), b"a\x85b\x86");
/// assert_eq!(rt; sum(3, &mut pairs)?, 11);
/// ```
pub trait PairStream {
    // The pairs to come, and whether the stream has ended.
    ghost left: { Self → Left };

    // The current pair.
    ghost current: { Self → List ℕ × ℕ };

    // Whether a call of `advance` may fail. If not, it does not allocate.
    ghost can_fail: { Bool } = { true };

    /// Moves to the next pair, and returns whether there is one. An error ends the stream. The only
    /// error is a failed allocation.
    fn advance(&mut self) -> Result<bool, AllocError>
        ensures lists { ListsOne (λ key. key) MemoryOnly (left self.old)
            (item_of result (current self.new)) (left self.new) }
        ensures fails { IfErr result (λ _. IsTrue can_fail) };

    /// Returns the key of the current pair, the one that the last call of `advance` moved to.
    fn key(&self) -> &[u8]
        ensures { result.now ≡ (current self.now).0 };

    /// Returns the value of the current pair.
    fn value(&self) -> usize
        ensures { result ≡ (current self.now).1 };
}

impl<'a, A: Allocator> PairStream for ZeroTrieStream<'a, A> {
    ghost left = { λ s. s.left };

    ghost current = { λ s. (s.key, s.value) };

    fn advance(&mut self) -> Result<bool, AllocError> {
        ZeroTrieStream::advance(self)
    }

    fn key(&self) -> &[u8] {
        ZeroTrieStream::key(self)
    }

    fn value(&self) -> usize {
        ZeroTrieStream::value(self)
    }
}
