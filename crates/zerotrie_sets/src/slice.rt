//! Sorted slices as streams.

ghost use Rattle.std.specs.Prelude.{◌≡◌, ◌↔◌, ◌≤◌, IsSome, IfSome, IsTrue, length, false};
ghost use Rattle.zerotrie_core.specs.Items.{pairs_of};
ghost use Rattle.zerotrie_core.specs.Maps.{Ascends};
ghost use Rattle.zerotrie_core.specs.Listings.{to_come};

use std::alloc::AllocError;
use std::marker::Model;
use zerotrie_core::PairStream;

/// Lists the pairs of a slice whose keys ascend by bytes.
///
/// ```
/// let mut pairs = SortedSlice::new(&[(b"a", 5), (b"ab", 6)]).ok_or("not sorted")?;
/// assert!(rt; pairs.advance()?);
/// assert_eq!(rt; (pairs.key(), pairs.value()), (b"a".as_slice(), 5));
/// ```
///
/// It does not allocate.
#[derive(Drop)]
pub struct SortedSlice<'a, 'k> {
    pairs: &'a [(&'k [u8], usize)],
    current: usize,
    next: usize,
    ended: bool,
}

impl<'a, 'k> Model for SortedSlice<'a, 'k> {
    ghost use Rattle.std.specs.Prelude.{drop};
    ghost use Rattle.zerotrie_core.specs.Items.{pairs_of};
    ghost use Rattle.zerotrie_sets.specs.Streams.{Stand, left_of, pair_at};

    ghost Value = { Stand };

    ghost view = { λ s. record {
      current = pair_at s.pairs.now s.current;
      left = left_of s.ended (pairs_of (drop s.next s.pairs.now));
    } };
}

/// Returns whether the keys strictly ascend by their bytes.
fn ascends(pairs: &[(&[u8], usize)]) -> bool
    ensures { IsTrue result ↔ Ascends (pairs_of pairs.now) }
{
    for i in 1..pairs.len() {
        let (key, _) = pairs[i - 1];
        let (next, _) = pairs[i];
        if !(key < next) {
            return false;
        }
    }
    true
}

impl<'a, 'k> SortedSlice<'a, 'k> {
    /// Lists the pairs of a slice, or returns `None` if its keys do not strictly ascend by bytes.
    pub fn new(pairs: &'a [(&'k [u8], usize)]) -> Option<Self>
        ensures sorted { IsSome result ↔ Ascends (pairs_of pairs.now) }
        ensures lists { IfSome result (λ s. s.left ≡ to_come (pairs_of pairs.now)) }
    {
        if !ascends(pairs) {
            return None;
        }
        Some(SortedSlice {
            pairs,
            current: 0,
            next: 0,
            ended: false,
        })
    }
}

impl<'a, 'k> PairStream for SortedSlice<'a, 'k> {
    ghost left = { λ s. s.left };

    ghost current = { λ s. s.current };

    ghost can_fail = { false };

    fn advance(&mut self) -> Result<bool, AllocError> {
        if self.ended || self.pairs.len() <= self.next {
            self.ended = true;
            return Ok(false);
        }
        self.current = self.next;
        self.next += 1;
        Ok(true)
    }

    fn key(&self) -> &[u8] {
        match self.pairs.get(self.current) {
            Some(pair) => pair.0,
            None => &[],
        }
    }

    fn value(&self) -> usize {
        match self.pairs.get(self.current) {
            Some(pair) => pair.1,
            None => 0,
        }
    }
}
