//! Two streams merged: a row for each key of either.

ghost use Rattle.std.specs.Prelude.{◌≡◌, ◌||◌, IfOk, IfErr, IsTrue, false};
ghost use Rattle.zerotrie_core.specs.Maps.{Ascends};
ghost use Rattle.zerotrie_sets.specs.Laws.{IsMerge};
ghost use Rattle.zerotrie_sets.specs.Streams.{Advances, coming};
ghost use Rattle.zerotrie_sets.specs.Merges.{joined};
ghost use Rattle.zerotrie_sets.specs.Inputs.{pending, row_of, lesser, MergesOne};

use crate::input::{Held, Input};
use std::alloc::AllocError;
use std::cmp::Ordering;
use std::marker::Model;
use zerotrie_core::PairStream;

/// Lists the keys of two streams in the order of bytes, each key once, with the value that each
/// stream has for it.
///
/// ```
/// let first = SortedSlice::new(&[(b"a", 1), (b"c", 2)]).ok_or("not sorted")?;
/// let second = SortedSlice::new(&[(b"a", 3), (b"b", 4)]).ok_or("not sorted")?;
/// let mut rows = Merge::new(first, second);
/// assert!(rt; rows.advance()?);
/// assert_eq!(rt; (rows.key(), rows.first(), rows.second()), (b"a".as_slice(), Some(1), Some(3)));
/// assert!(rt; rows.advance()?);
/// assert_eq!(rt; (rows.key(), rows.first(), rows.second()), (b"b".as_slice(), None, Some(4)));
/// assert!(rt; rows.advance()?);
/// assert_eq!(rt; (rows.key(), rows.first(), rows.second()), (b"c".as_slice(), Some(2), None));
/// assert!(rt; !rows.advance()?);
/// ```
///
/// It does not allocate, apart from what the streams do. If the pairs of a stream do not ascend, it
/// takes the lesser of the two first keys at each step.
#[derive(Drop)]
pub struct Merge<S: PairStream, T: PairStream> {
    first: Input<S>,
    second: Input<T>,
    ended: bool,
}

impl<S: PairStream, T: PairStream> Model for Merge<S, T> {
    ghost use Rattle.zerotrie_sets.specs.Streams.{coming};
    ghost use Rattle.zerotrie_sets.specs.Merges.{Merging, joined};
    ghost use Rattle.zerotrie_sets.specs.Inputs.{pending, row_of};

    ghost Value = { Merging };

    ghost view = { λ s. record {
      current = row_of (S.current s.first.stream) s.first.held (T.current s.second.stream) s.second.held;
      left = coming s.ended (joined
          (pending (S.left s.first.stream) (S.current s.first.stream) s.first.held)
          (pending (T.left s.second.stream) (T.current s.second.stream) s.second.held));
    } };
}

impl<S: PairStream, T: PairStream> Merge<S, T> {
    /// Merges two streams. Does nothing before the first call of `advance`.
    pub fn new(first: S, second: T) -> Self
        ensures always { result.left
            ≡ coming false (joined (S.left first).pairs (T.left second).pairs) }
        ensures is { Ascends (S.left first).pairs → Ascends (T.left second).pairs
            → IsMerge (S.left first).pairs (T.left second).pairs result.left.items }
    {
        crate::laws::rows_are_of_maps();
        Merge {
            first: Input::new(first),
            second: Input::new(second),
            ended: false,
        }
    }

    /// Moves to the next key, and returns whether there is one. An error ends the merge. The only
    /// error is a failed allocation in a stream: a merge of two slices never fails.
    pub fn advance(&mut self) -> Result<bool, AllocError>
        ensures advances { Advances self.old.left result self.new.current self.new.left }
        ensures fails { IfErr result (λ _. IsTrue (S.can_fail || T.can_fail)) }
    {
        if self.ended {
            return Ok(false);
        }
        self.ended = true;
        let found = next_row(&mut self.first, &mut self.second)?;
        self.ended = !found;
        Ok(found)
    }

    /// Returns the current key, the one that the last call of `advance` moved to. Before the first
    /// call and after the end, it is not a key of the streams.
    pub fn key(&self) -> &[u8]
        ensures { result.now ≡ self.now.current.0 }
    {
        match self.first.held {
            Held::Listed => self.first.stream.key(),
            Held::Waiting | Held::Over => self.second.stream.key(),
        }
    }

    /// Returns the value that the first stream has for the current key, if it has the key.
    pub fn first(&self) -> Option<usize>
        ensures { result ≡ self.now.current.1.0 }
    {
        self.first.listed()
    }

    /// Returns the value that the second stream has for the current key, if it has the key.
    pub fn second(&self) -> Option<usize>
        ensures { result ≡ self.now.current.1.1 }
    {
        self.second.listed()
    }
}

/// Returns which of two inputs has the lesser key, or `None` if no pair waits.
fn lesser<S: PairStream, T: PairStream>(first: &Input<S>, second: &Input<T>) -> Option<Ordering>
    ensures { result ≡ lesser (S.current first.now.stream) first.now.held
        (T.current second.now.stream) second.now.held }
{
    match (first.held, second.held) {
        (Held::Waiting, Held::Waiting) => Some(first.stream.key().cmp(second.stream.key())),
        (Held::Waiting, _) => Some(Ordering::Less),
        (_, Held::Waiting) => Some(Ordering::Greater),
        _ => None,
    }
}

/// Moves to the next row, and returns whether there is one.
fn next_row<S: PairStream, T: PairStream>(
    first: &mut Input<S>,
    second: &mut Input<T>,
) -> Result<bool, AllocError>
    ensures merges { IfOk result (MergesOne
        (joined (pending (S.left first.old.stream) (S.current first.old.stream) first.old.held)
        (pending (T.left second.old.stream) (T.current second.old.stream) second.old.held))
        (row_of (S.current first.new.stream) first.new.held
        (T.current second.new.stream) second.new.held)
        (joined (pending (S.left first.new.stream) (S.current first.new.stream) first.new.held)
        (pending (T.left second.new.stream) (T.current second.new.stream) second.new.held))) }
    ensures fails { IfErr result (λ _. IsTrue (S.can_fail || T.can_fail)) }
{
    first.fetch()?;
    second.fetch()?;
    match lesser(first, second) {
        None => return Ok(false),
        Some(Ordering::Less) => first.list(),
        Some(Ordering::Equal) => {
            first.list();
            second.list();
        }
        Some(Ordering::Greater) => second.list(),
    }
    Ok(true)
}
