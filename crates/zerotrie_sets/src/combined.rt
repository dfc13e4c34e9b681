//! Unions, intersections and differences of two streams.

ghost use Rattle.std.specs.Prelude.{◌≡◌, ◌||◌, ℕ, Option};
ghost use Rattle.zerotrie_core.specs.Maps.{Ascends};
ghost use Rattle.zerotrie_core.specs.Listings.{to_come};
ghost use Rattle.zerotrie_sets.specs.Merges.{joined, chosen};
ghost use Rattle.zerotrie_sets.specs.Operations.{choose, IsCombined};

use crate::choice::{Choice, next_chosen};
use crate::merge::Merge;
use std::alloc::AllocError;
use std::marker::Model;
use zerotrie_core::PairStream;

/// Which of two values of a key is kept.
#[derive(Clone, Copy, Debug, PartialEq, Eq)]
pub enum Keep {
    /// The value that the first stream has.
    First,
    /// The value that the last stream has.
    Last,
}

/// What is made of two streams.
///
/// ```
/// let first = SortedSlice::new(&[(b"a", 1), (b"c", 2)]).ok_or("not sorted")?;
/// let second = SortedSlice::new(&[(b"a", 3), (b"b", 4)]).ok_or("not sorted")?;
/// let mut pairs = Combined::new(first, second, Operation::Difference);
/// assert!(rt; pairs.advance()?);
/// assert_eq!(rt; (pairs.key(), pairs.value()), (b"c".as_slice(), 2));
/// assert!(rt; !pairs.advance()?);
/// ```
#[derive(Clone, Copy, Debug, PartialEq, Eq)]
pub enum Operation {
    /// The keys of either stream.
    Union(Keep),
    /// The keys of both streams.
    Intersection(Keep),
    /// The keys of the first stream that the second one does not have.
    Difference,
    /// The keys of one stream that the other one does not have.
    SymmetricDifference,
}

impl Choice for Operation {
    type Value = usize;

    ghost choose = { λ s first second. choose s first second };

    fn choose(&self, first: Option<usize>, second: Option<usize>) -> Option<usize> {
        match *self {
            Operation::Union(Keep::First) => first.or(second),
            Operation::Union(Keep::Last) => second.or(first),
            Operation::Intersection(Keep::First) => second.and(first),
            Operation::Intersection(Keep::Last) => first.and(second),
            Operation::Difference => match second {
                None => first,
                Some(_value) => None,
            },
            Operation::SymmetricDifference => first.xor(second),
        }
    }
}

/// Lists the union, the intersection or a difference of two streams, in the order of bytes, each
/// key once.
///
/// ```
/// let first = SortedSlice::new(&[(b"a", 1), (b"c", 2)]).ok_or("not sorted")?;
/// let second = SortedSlice::new(&[(b"a", 3), (b"b", 4)]).ok_or("not sorted")?;
/// let mut pairs = Combined::new(first, second, Operation::Union(Keep::Last));
/// assert!(rt; pairs.advance()?);
/// assert_eq!(rt; (pairs.key(), pairs.value()), (b"a".as_slice(), 3));
/// assert!(rt; pairs.advance()?);
/// assert_eq!(rt; (pairs.key(), pairs.value()), (b"b".as_slice(), 4));
/// assert!(rt; pairs.advance()?);
/// assert_eq!(rt; (pairs.key(), pairs.value()), (b"c".as_slice(), 2));
/// assert!(rt; !pairs.advance()?);
/// ```
///
/// It is a stream itself, so a union of many is a union of unions. It does not allocate, apart from
/// what the streams do.
#[derive(Drop)]
pub struct Combined<S: PairStream, T: PairStream> {
    rows: Merge<S, T>,
    operation: Operation,
    value: usize,
}

impl<S: PairStream, T: PairStream> Model for Combined<S, T> {
    ghost use Rattle.zerotrie_sets.specs.Streams.{Stand};
    ghost use Rattle.zerotrie_sets.specs.Operations.{combined_left};

    ghost Value = { Stand };

    ghost view = { λ s. record {
      current = (s.rows.current.0, s.value);
      left = combined_left s.operation s.rows.left;
    } };
}

impl<S: PairStream, T: PairStream> Combined<S, T> {
    /// Combines two streams. Does nothing before the first call of `advance`.
    pub fn new(first: S, second: T, operation: Operation) -> Self
        ensures always { result.left ≡ to_come
            (chosen (choose operation) (joined (S.left first).pairs (T.left second).pairs)) }
        ensures is { Ascends (S.left first).pairs → Ascends (T.left second).pairs
            → IsCombined operation (S.left first).pairs (T.left second).pairs result.left.pairs }
    {
        crate::laws::combined_are_maps();
        Combined {
            rows: Merge::new(first, second),
            operation,
            value: 0,
        }
    }
}

impl<S: PairStream, T: PairStream> PairStream for Combined<S, T> {
    ghost left = { λ s. s.left };

    ghost current = { λ s. s.current };

    ghost can_fail = { S.can_fail || T.can_fail };

    fn advance(&mut self) -> Result<bool, AllocError> {
        match next_chosen(&self.operation, &mut self.rows)? {
            None => Ok(false),
            Some(value) => {
                self.value = value;
                Ok(true)
            }
        }
    }

    fn key(&self) -> &[u8] {
        self.rows.key()
    }

    fn value(&self) -> usize {
        self.value
    }
}
