//! The pairs of a listing that have the greatest values.

ghost use Rattle.std.specs.Prelude.{◌≡◌, ◌++◌, ◌∷◌, IfOk, OnOk};
ghost use Rattle.zerotrie_core.specs.Maps.{Pairs};
ghost use Rattle.zerotrie_core.specs.Listings.{to_come};
ghost use Rattle.zerotrie_queries.specs.Ranked.{greatest, held_pairs, left_of_held};

use crate::listing::printable::copied;
use std::alloc::{AllocError, Global};
use std::vec::IntoIter;
use zerotrie_search::TrieListing;

/// Keeps the pairs of the greatest values, at most this many, the greatest first. Those of one value keep
/// their order.
fn keep_greatest(held: &mut Vec<(Vec<u8>, usize)>, most: usize) -> Result<(), AllocError>
    ensures { OnOk result (held_pairs held.new.items ≡ greatest most (held_pairs held.old.items)) }
{
    held.sort_by(|a, b| b.1.cmp(&a.1))?;
    held.truncate(most);
    Ok(())
}

/// Adds a pair to those that are held. If they are more than twice as many as count, it drops the others.
fn hold(
    alloc: Global,
    held: &mut Vec<(Vec<u8>, usize)>,
    key: &[u8],
    value: usize,
    most: usize,
) -> Result<(), AllocError>
    ensures { OnOk result ((rest : Pairs) → greatest most (held_pairs held.new.items ++ rest)
        ≡ greatest most (held_pairs held.old.items ++ (key.now, value) ∷ rest)) }
{
    held.push((copied(alloc, key)?, value))?;
    if held.len() / 2 > most {
        keep_greatest(held, most)?;
    }
    Ok(())
}

/// Takes the pairs to come that have the greatest values, at most this many, the greatest first. Those of one
/// value keep their order. Some twice as many are in memory.
fn greatest<P: TrieListing + Drop>(
    alloc: Global,
    mut pairs: P,
    most: usize,
) -> Result<Vec<(Vec<u8>, usize)>, AllocError>
    ensures { IfOk result (λ held. P.IsValid pairs
        → held_pairs held.items ≡ greatest most (P.left pairs).pairs) }
{
    let mut held = Vec::new(alloc);
    while pairs.advance()? {
        hold(alloc, &mut held, pairs.key(), pairs.value(), most)?;
    }
    keep_greatest(&mut held, most)?;
    Ok(held)
}

/// Pairs that are held, one after another.
#[derive(Drop)]
pub(crate) struct HeldPairs {
    rest: IntoIter<(Vec<u8>, usize)>,
    now: (Vec<u8>, usize),
    ended: bool,
}

impl HeldPairs {
    /// Lists the pairs to come that have the greatest values, at most this many, the greatest first. Those of
    /// one value keep their order.
    pub(crate) fn greatest<P: TrieListing + Drop>(
        alloc: Global,
        pairs: P,
        most: usize,
    ) -> Result<Self, AllocError>
        ensures { IfOk result (λ held. P.IsValid pairs
            → left_of_held held ≡ to_come (greatest most (P.left pairs).pairs)) }
    {
        let held = greatest(alloc, pairs, most)?;
        Ok(HeldPairs {
            rest: held.into_iter(),
            now: (Vec::new(alloc), 0),
            ended: false,
        })
    }
}

impl TrieListing for HeldPairs {
    ghost use Rattle.std.specs.Prelude.{length};
    ghost use Rattle.std.specs.Vec.Iter.{into_iter_items};
    ghost use Rattle.zerotrie_queries.specs.Ranked.{left_of_held};

    ghost IsValid = { λ _. Unit {0} };

    ghost left = { λ s. left_of_held s };

    ghost current = { λ s. (s.now.0.items, s.now.1) };

    ghost most = { λ s. length (into_iter_items s.rest) };

    fn advance(&mut self) -> Result<bool, AllocError> {
        if self.ended {
            return Ok(false);
        }
        match self.rest.next() {
            Some(pair) => {
                self.now = pair;
                Ok(true)
            }
            None => {
                self.ended = true;
                Ok(false)
            }
        }
    }

    fn key(&self) -> &[u8] {
        self.now.0.as_slice()
    }

    fn value(&self) -> usize {
        self.now.1
    }
}
