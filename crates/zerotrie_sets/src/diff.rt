//! What changed from one stream to another.

ghost use Rattle.std.specs.Prelude.{◌≡◌, ◌||◌, ℕ, Option, IfErr, IsTrue, false};
ghost use Rattle.zerotrie_core.specs.Maps.{Ascends};
ghost use Rattle.zerotrie_sets.specs.Streams.{Advances, coming};
ghost use Rattle.zerotrie_sets.specs.Changes.{change, changes, IsDiff};

use crate::choice::{Choice, next_chosen};
use crate::merge::Merge;
use std::alloc::AllocError;
use std::marker::Model;
use zerotrie_core::PairStream;

/// How a key changed from the first stream to the second.
#[derive(Clone, Copy, Debug, PartialEq, Eq)]
pub enum Change {
    /// Only the second stream has the key, with this value.
    Added(usize),
    /// Only the first stream has the key, with this value.
    Removed(usize),
    /// The first stream has the first value for the key, the second one the other value.
    Changed(usize, usize),
}

/// Chooses the keys that changed.
#[derive(Clone, Copy, Debug)]
struct Changes;

impl Choice for Changes {
    type Value = Change;

    ghost choose = { λ _ first second. change first second };

    fn choose(&self, first: Option<usize>, second: Option<usize>) -> Option<Change> {
        match (first, second) {
            (Some(old), Some(new)) => {
                if old == new {
                    None
                } else {
                    Some(Change::Changed(old, new))
                }
            }
            (Some(old), None) => Some(Change::Removed(old)),
            (None, Some(new)) => Some(Change::Added(new)),
            (None, None) => None,
        }
    }
}

/// Lists what changed from the first stream to the second, in the order of bytes. A key that both
/// have with one value is passed over.
///
/// ```
/// let old = SortedSlice::new(&[(b"a", 1), (b"b", 2), (b"c", 3)]).ok_or("not sorted")?;
/// let new = SortedSlice::new(&[(b"a", 1), (b"b", 5), (b"d", 6)]).ok_or("not sorted")?;
/// let mut diff = Diff::new(old, new);
/// assert!(rt; diff.advance()?);
/// assert_eq!(rt; (diff.key(), diff.change()), (b"b".as_slice(), Change::Changed(2, 5)));
/// assert!(rt; diff.advance()?);
/// assert_eq!(rt; (diff.key(), diff.change()), (b"c".as_slice(), Change::Removed(3)));
/// assert!(rt; diff.advance()?);
/// assert_eq!(rt; (diff.key(), diff.change()), (b"d".as_slice(), Change::Added(6)));
/// assert!(rt; !diff.advance()?);
/// ```
///
/// It does not allocate, apart from what the streams do.
#[derive(Drop)]
pub struct Diff<S: PairStream, T: PairStream> {
    rows: Merge<S, T>,
    change: Change,
}

impl<S: PairStream, T: PairStream> Model for Diff<S, T> {
    ghost use Rattle.zerotrie_sets.specs.Changes.{Differing, changes_left};

    ghost Value = { Differing };

    ghost view = { λ s. record {
      current = (s.rows.current.0, s.change);
      left = changes_left s.rows.left;
    } };
}

impl<S: PairStream, T: PairStream> Diff<S, T> {
    /// Compares two streams. Does nothing before the first call of `advance`.
    pub fn new(first: S, second: T) -> Self
        ensures always { result.left
            ≡ coming false (changes (S.left first).pairs (T.left second).pairs) }
        ensures is { Ascends (S.left first).pairs → Ascends (T.left second).pairs
            → IsDiff (S.left first).pairs (T.left second).pairs result.left.items }
    {
        crate::laws::diffs_are_of_maps();
        Diff {
            rows: Merge::new(first, second),
            change: Change::Added(0),
        }
    }

    /// Moves to the next key that changed, and returns whether there is one. An error ends the
    /// listing. The only error is a failed allocation in a stream.
    pub fn advance(&mut self) -> Result<bool, AllocError>
        ensures advances { Advances self.old.left result self.new.current self.new.left }
        ensures fails { IfErr result (λ _. IsTrue (S.can_fail || T.can_fail)) }
    {
        match next_chosen(&Changes, &mut self.rows)? {
            None => Ok(false),
            Some(change) => {
                self.change = change;
                Ok(true)
            }
        }
    }

    /// Returns the current key, the one that the last call of `advance` moved to. Before the first
    /// call and after the end, it is not a key that changed.
    pub fn key(&self) -> &[u8]
        ensures { result.now ≡ self.now.current.0 }
    {
        self.rows.key()
    }

    /// Returns how the current key changed.
    pub fn change(&self) -> Change
        ensures { result ≡ self.now.current.1 }
    {
        self.change
    }
}
