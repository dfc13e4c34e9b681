//! The pairs of a listing whose keys an automaton accepts.

ghost use Rattle.std.specs.Prelude.{◌≡◌, ◌≤◌, ◌+◌};
ghost use Rattle.zerotrie_core.specs.Listings.{ListsOne, MemoryOnly, item_of};
ghost use Rattle.zerotrie_search.specs.Searches.{accepted_left};
ghost use Rattle.zerotrie_search.specs.Sorted.{moved};
ghost use Rattle.zerotrie_queries.specs.Kept.{may_keep};

use std::alloc::AllocError;
use zerotrie_search::{Automaton, TrieListing, accepts};

/// Returns whether an automaton accepts a key, or there is none.
fn is_kept<S: Automaton>(condition: &Option<S>, key: &[u8]) -> bool
    ensures { result ≡ may_keep S.accepts condition.now key.now }
{
    match condition {
        Some(automaton) => accepts(automaton, key),
        None => true,
    }
}

/// Moves a listing to its next pair whose key an automaton accepts, and returns whether there is one.
pub(crate) fn next_accepted<P: TrieListing, S: Automaton>(
    pairs: &mut P,
    condition: &Option<S>,
) -> Result<bool, AllocError>
    ensures lists { P.IsValid pairs.old → ListsOne (λ key. key) MemoryOnly
        (accepted_left (may_keep S.accepts condition.now) (P.left pairs.old))
        (item_of result (P.current pairs.new))
        (accepted_left (may_keep S.accepts condition.now) (P.left pairs.new)) }
    ensures valid { P.IsValid pairs.old → P.IsValid pairs.new }
    ensures most { moved result + P.most pairs.new ≤ P.most pairs.old }
{
    while pairs.advance()? {
        if is_kept(condition, pairs.key()) {
            return Ok(true);
        }
    }
    Ok(false)
}
