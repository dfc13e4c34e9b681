//! One input of a merge: a stream, and what became of its current pair.

ghost use Rattle.std.specs.Prelude.{◌≡◌, ℕ, true, false, IfOk, IfErr, IsTrue};
ghost use Rattle.std.specs.Option.{option_map};
ghost use Rattle.zerotrie_sets.specs.Inputs.{pending, listed, Fetches};
ghost use Rattle.zerotrie_sets.specs.ManyInputs.{after_key, held_after, waiting_key};
ghost use Rattle.zerotrie_sets.specs.declared.input.Held.TheVariants.{Listed};

use std::alloc::AllocError;
use std::cmp::Ordering;
use zerotrie_core::PairStream;

/// What became of the current pair of an input.
#[derive(Clone, Copy, Debug, PartialEq, Eq)]
pub enum Held {
    /// It was listed, or the first call of `advance` is still to come.
    Listed,
    /// It is still to be listed.
    Waiting,
    /// No pair is left.
    Over,
}

/// One input of a merge.
#[derive(Drop)]
pub struct Input<S> {
    pub stream: S,
    pub held: Held,
}

/// Returns what becomes of a current pair with the key `this`, once `key` was listed.
fn held_after(held: Held, this: &[u8], key: &[u8]) -> Held
    ensures { result ≡ held_after key.now held this.now }
{
    match held {
        Held::Waiting => match this.cmp(key) {
            Ordering::Equal => Held::Listed,
            Ordering::Less | Ordering::Greater => Held::Waiting,
        },
        Held::Listed => Held::Listed,
        Held::Over => Held::Over,
    }
}

impl<S: PairStream> Input<S> {
    /// Returns an input of which nothing is listed.
    pub fn new(stream: S) -> Self
        ensures { pending (S.left result.stream) (S.current result.stream) result.held
            ≡ (S.left stream).pairs }
    {
        Input {
            stream,
            held: Held::Listed,
        }
    }

    /// Moves to the first pair that is still to be listed, and returns whether there is one.
    pub fn fetch(&mut self) -> Result<bool, AllocError>
        ensures fetches { IfOk result (Fetches
            (pending (S.left self.old.stream) (S.current self.old.stream) self.old.held)
            (S.left self.new.stream) (S.current self.new.stream) self.new.held) }
        ensures fails { IfErr result (λ _. IsTrue S.can_fail) }
    {
        if matches!(self.held, Held::Listed) {
            self.held = if self.stream.advance()? {
                Held::Waiting
            } else {
                Held::Over
            };
        }
        Ok(matches!(self.held, Held::Waiting))
    }

    /// Lists the pair that waits.
    pub fn list(&mut self)
        ensures stream { self.new.stream ≡ self.old.stream }
        ensures held { self.new.held ≡ Listed }
    {
        self.held = Held::Listed;
    }

    /// Returns the value of the current pair, if it was listed.
    pub fn listed(&self) -> Option<usize>
        ensures { result ≡ listed (S.current self.now.stream) self.now.held }
    {
        match self.held {
            Held::Listed => Some(self.stream.value()),
            Held::Waiting | Held::Over => None,
        }
    }

    /// Lists the pair that waits, if it has this key.
    pub fn list_key(&mut self, key: &[u8])
        ensures { self.new ≡ after_key S.current key.now self.old }
    {
        self.held = held_after(self.held, self.stream.key(), key);
    }

    /// Returns the key of the pair that waits, if one does.
    pub fn waiting(&self) -> Option<&[u8]>
        ensures { option_map (λ k. k.now) result
            ≡ waiting_key self.now.held (S.current self.now.stream).0 }
    {
        match self.held {
            Held::Waiting => Some(self.stream.key()),
            Held::Listed | Held::Over => None,
        }
    }
}
