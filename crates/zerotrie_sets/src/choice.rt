//! What is chosen of the rows of a merge.

ghost use Rattle.std.specs.Prelude.{◌≡◌, ◌||◌, ℕ, Option, IfErr, IsTrue};
ghost use Rattle.zerotrie_sets.specs.Choices.{Finds, chosen_left};

use crate::merge::Merge;
use std::alloc::AllocError;
use zerotrie_core::PairStream;

/// Chooses a value of what two streams have for a key, or passes over the key.
pub trait Choice {
    type Value: Copy + Drop;

    // What is chosen.
    ghost choose: { Self → Option ℕ → Option ℕ → Option Self.Value };

    fn choose(&self, first: Option<usize>, second: Option<usize>) -> Option<Self::Value>
        ensures { result ≡ choose self.now first second };
}

/// Moves a merge to the next row of which something is chosen, and returns that.
pub fn next_chosen<S: PairStream, T: PairStream, C: Choice>(
    choice: &C,
    rows: &mut Merge<S, T>,
) -> Result<Option<C::Value>, AllocError>
    ensures finds { Finds (chosen_left (C.choose choice.now) rows.old.left) result
        rows.new.current.0 (chosen_left (C.choose choice.now) rows.new.left) }
    ensures fails { IfErr result (λ _. IsTrue (S.can_fail || T.can_fail)) }
{
    while rows.advance()? {
        let value = choice.choose(rows.first(), rows.second());
        if value.is_some() {
            return Ok(value);
        }
    }
    Ok(None)
}
