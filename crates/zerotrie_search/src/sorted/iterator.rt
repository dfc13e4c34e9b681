//! An iterator over a sorted listing that allocates each key.

ghost use Rattle.std.specs.Prelude.{◌≡◌, IfOk};
ghost use Rattle.std.specs.Iterator.{at_most};
ghost use Rattle.zerotrie_core.specs.Listings.{over};

use crate::sorted::ZeroTrieSorted;
use std::alloc::{AllocError, Allocator, Global};
use std::marker::Model;
use zerotrie_core::ListError;

/// An iterator over the pairs of a sorted listing, each key in memory of its own.
///
/// ```
/// use std::ops::Bound;
///
/// // the keys "ab", "ac" and "b" with values 1, 2 and 3
/// let bytes = b"\xC2ab\x06\xC2bc\x01\x81\x82\x83";
/// let from = Bound::Excluded(b"ab".as_slice());
/// let sorted = ZeroTrieSorted::new::<Simple>(rt.alloc(), bytes, from, Bound::Unbounded)?;
/// let mut keys = Vec::new(rt.alloc());
/// for item in ZeroTrieSortedIterator::new(sorted) {
///     keys.push(item?.0)?;
/// }
/// assert_eq!(rt; (keys[0].as_slice(), keys[1].as_slice()), (b"ac".as_slice(), b"b".as_slice()));
/// ```
///
/// An item is a key and its value, or `ListError::OutOfMemory` if an allocation failed. After an
/// error or the end, the iterator returns `None`. Over n bytes, valid or not, it returns at most n
/// pairs. A `ZeroTrieSorted` returns the same pairs without allocating each key.
#[derive(Drop)]
pub struct ZeroTrieSortedIterator<'a, 'p, A: Allocator = Global> {
    pairs: ZeroTrieSorted<'a, 'p, A>,
}

impl<'a, 'p, A: Allocator> Model for ZeroTrieSortedIterator<'a, 'p, A> {
    ghost use Rattle.zerotrie_search.specs.Sorted.{Sorting};

    ghost Value = { Sorting };

    ghost view = { λ s. s.pairs };
}

impl<'a, 'p, A: Allocator> ZeroTrieSorted<'a, 'p, A> {
    /// Lists nothing more.
    pub fn end(&mut self)
        ensures left { self.new.left ≡ over }
        ensures kind { self.new.kind ≡ self.old.kind }
        ensures bytes { self.new.bytes ≡ self.old.bytes }
    {
        self.ended = true;
    }
}

impl<'a, 'p, A: Allocator + Copy> ZeroTrieSorted<'a, 'p, A> {
    /// Returns a copy of the key.
    fn key_copy(&self) -> Result<Vec<u8, A>, AllocError>
        ensures { IfOk result (λ key. key.items ≡ self.now.key) }
    {
        Vec::from_slice(*self.key.allocator(), self.key.as_slice())
    }
}

impl<'a, 'p, A: Allocator> ZeroTrieSortedIterator<'a, 'p, A> {
    /// Returns an iterator over the pairs that a sorted listing has still to list.
    pub fn new(pairs: ZeroTrieSorted<'a, 'p, A>) -> Self
        ensures { result ≡ pairs.entry }
    {
        ZeroTrieSortedIterator { pairs }
    }
}

impl<'a, 'p, A: Allocator + Copy> Iterator for ZeroTrieSortedIterator<'a, 'p, A> {
    type Item = Result<(Vec<u8, A>, usize), ListError>;

    ghost use Rattle.zerotrie_search.specs.Sorted.{SortsOne, sorted_turns};

    ghost next_gives = { SortsOne (λ k. k.items) };

    ghost remaining = { λ s. at_most (sorted_turns s) };

    fn next(&mut self) -> Option<Result<(Vec<u8, A>, usize), ListError>> {
        match self.pairs.advance() {
            Ok(false) => None,
            Ok(true) => match self.pairs.key_copy() {
                Ok(key) => Some(Ok((key, self.pairs.value()))),
                Err(_) => {
                    self.pairs.end();
                    Some(Err(ListError::OutOfMemory))
                }
            },
            Err(_) => Some(Err(ListError::OutOfMemory)),
        }
    }
}
