//! The first pairs of a listing.

ghost use Rattle.std.specs.Prelude.{◌≡◌};
ghost use Rattle.zerotrie_queries.specs.Listed.{first_left, is_spent, one_less};

use std::alloc::AllocError;
use zerotrie_search::TrieListing;

/// The pairs of a listing, at most as many as a limit says.
#[derive(Drop)]
pub(crate) struct FirstPairs<P: TrieListing> {
    pub(crate) source: P,
    pub(crate) limit: Option<usize>,
    pub(crate) ended: bool,
}

/// Returns whether no pair may come any more.
fn is_spent(limit: Option<usize>) -> bool
    ensures { result ≡ is_spent limit }
{
    match limit {
        Some(most) => most == 0,
        None => false,
    }
}

/// Returns what is left of a limit after one pair.
fn one_less(limit: Option<usize>) -> Option<usize>
    ensures { result ≡ one_less limit }
{
    match limit {
        Some(most) => Some(most.saturating_sub(1)),
        None => None,
    }
}

impl<P: TrieListing> TrieListing for FirstPairs<P> {
    ghost IsValid = { λ s. P.IsValid s.source };

    ghost left = { λ s. first_left s.ended s.limit (P.left s.source) };

    ghost current = { λ s. P.current s.source };

    ghost most = { λ s. P.most s.source };

    #[tactic(auto, using(crate::proofs::LimitLemmas::first_ok, crate::proofs::LimitLemmas::first_err, crate::proofs::LimitLemmas::first_spent))]
    fn advance(&mut self) -> Result<bool, AllocError> {
        if self.ended {
            return Ok(false);
        }
        if is_spent(self.limit) {
            self.ended = true;
            return Ok(false);
        }
        let more = self.source.advance()?;
        self.limit = one_less(self.limit);
        Ok(more)
    }

    fn key(&self) -> &[u8] {
        self.source.key()
    }

    fn value(&self) -> usize {
        self.source.value()
    }
}
