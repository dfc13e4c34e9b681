//! An iterator over the pairs of a trie that allocates each key.

ghost use Rattle.std.specs.Prelude.{◌≡◌, ◌≤◌, length, IfOk, false};
ghost use Rattle.std.specs.Iterator.{at_most};
ghost use Rattle.zerotrie_base.specs.Maps.{Pairs, beginning};
ghost use Rattle.zerotrie_core.specs.Places.{ListsAt};
ghost use Rattle.zerotrie_base.specs.Texts.{Lists};
ghost use Rattle.zerotrie_core.specs.declared.listing.ListError.TheVariants.{OutOfMemory};

use crate::span_cursor::SpanCursor;
use crate::stream::ZeroTrieStream;
use std::alloc::{AllocError, AllocFailed, Allocator, Global};
use std::marker::Model;
use thiserror::Error;
use zerotrie_base::ZeroTrieWithOptions;

/// Why an iteration ended early.
#[derive(Clone, PartialEq, Eq, Debug, Drop, Error)]
pub enum ListError {
    /// An allocation failed.
    #[error("OutOfMemory")]
    OutOfMemory,
    /// A key is not a string. This happens only if the bytes are valid in no kind over ASCII keys.
    #[error("NotText")]
    NotText,
}

impl ListError {
    /// Returns what the error means, and what to do about it.
    pub fn advice(&self) -> &'static str {
        match self {
            ListError::OutOfMemory => "out of memory: free memory, and iterate again",
            ListError::NotText => "a key is not text: validate the bytes, which are no trie",
        }
    }
}

impl From<AllocError> for ListError {
    ghost from_gives = { λ _ e. e ≡ OutOfMemory };

    fn from(_: AllocError) -> Self {
        ListError::OutOfMemory
    }
}

impl<T: Drop> From<AllocFailed<T>> for ListError {
    ghost from_gives = { λ _ e. e ≡ OutOfMemory };

    fn from(_: AllocFailed<T>) -> Self {
        ListError::OutOfMemory
    }
}

/// An iterator over the pairs of a trie, each key in memory of its own.
///
/// ```
/// let bytes = [0x61, 0x85, 0x62, 0x86];   // the keys "a" with value 5 and "ab" with value 6
/// let pairs = [("a", 5), ("ab", 6)];
/// for (item, pair) in ZeroTrieIterator::new::<Simple>(rt.alloc(), &bytes).zip(pairs) {
///     let (key, value) = item?;
///     assert_eq!(rt; (key.as_slice(), value), (pair.0.as_bytes(), pair.1));
/// }
/// ```
///
/// A value comes before what follows it, and the targets of a branch come in the order of its
/// table.
///
/// An item is a key and its value, or `ListError::OutOfMemory` if an allocation failed. After an
/// error or the end, the iterator returns `None`. Over n bytes, valid or not, it returns at most n
/// pairs. A `ZeroTrieStream` returns the same pairs without allocating each key.
#[derive(Debug, Drop)]
pub struct ZeroTrieIterator<'a, A: Allocator = Global> {
    stream: ZeroTrieStream<'a, A>,
}

impl<'a, A: Allocator> Model for ZeroTrieIterator<'a, A> {
    ghost use Rattle.zerotrie_core.specs.Listings.{Left};

    ghost Value = { Left };

    ghost view = { λ s. s.stream.left };
}

impl<'a, A: Allocator + Copy> ZeroTrieIterator<'a, A> {
    ghost use Rattle.zerotrie_core.specs.Listings.{to_come};

    /// Returns an iterator over the pairs of these bytes. Does not allocate before the first
    /// `next`.
    pub fn new<K: ZeroTrieWithOptions>(alloc: A, bytes: &'a [u8]) -> Self
        ensures lists { (pairs : Pairs) → Lists K.kind bytes.now pairs → result ≡ to_come pairs }
        ensures most { length result.pairs ≤ length bytes.now }
        ensures fresh { result.ended ≡ false }
    {
        ZeroTrieIterator {
            stream: ZeroTrieStream::new::<K>(alloc, bytes),
        }
    }

    /// Returns an iterator over the pairs at a cursor, as `ZeroTrieStream::from_cursor` does.
    pub fn from_cursor<K: ZeroTrieWithOptions>(
        alloc: A,
        cursor: SpanCursor<'a>,
    ) -> Result<Self, AllocError>
        ensures lists { IfOk result (λ it.
            (pairs : Pairs) → ListsAt K.kind cursor.entry pairs → it ≡ to_come pairs) }
        ensures most { IfOk result (λ it. length it.pairs ≤ length cursor.entry.trie) }
    {
        Ok(ZeroTrieIterator {
            stream: ZeroTrieStream::from_cursor::<K>(alloc, cursor)?,
        })
    }

    /// Returns an iterator over the pairs whose keys begin with a prefix, as
    /// `ZeroTrieStream::with_prefix` does.
    pub fn with_prefix<K: ZeroTrieWithOptions>(
        alloc: A,
        bytes: &'a [u8],
        prefix: &[u8],
    ) -> Result<Self, AllocError>
        ensures lists { IfOk result (λ it. (pairs : Pairs) → Lists K.kind bytes.now pairs
            → it ≡ to_come (beginning K.kind prefix.now pairs)) }
        ensures most { IfOk result (λ it. length it.pairs ≤ length bytes.now) }
    {
        Ok(ZeroTrieIterator {
            stream: ZeroTrieStream::with_prefix::<K>(alloc, bytes, prefix)?,
        })
    }
}

impl<'a, A: Allocator + Copy> Iterator for ZeroTrieIterator<'a, A> {
    type Item = Result<(Vec<u8, A>, usize), ListError>;

    ghost use Rattle.zerotrie_core.specs.Listings.{ListsOne, MemoryOnly, turns_left};

    ghost next_gives = { ListsOne (λ k. k.items) MemoryOnly };

    ghost remaining = { λ s. at_most (turns_left s) };

    fn next(&mut self) -> Option<Result<(Vec<u8, A>, usize), ListError>> {
        match self.stream.advance() {
            Ok(false) => None,
            Ok(true) => match self.stream.key_copy() {
                Ok(key) => Some(Ok((key, self.stream.value()))),
                Err(_) => {
                    self.stream.end();
                    Some(Err(ListError::OutOfMemory))
                }
            },
            Err(_) => Some(Err(ListError::OutOfMemory)),
        }
    }
}
