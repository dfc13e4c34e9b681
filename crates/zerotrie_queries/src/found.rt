//! The keys that a word finds, or those that begin with one.

ghost use Rattle.std.specs.Prelude.{IfSome};
ghost use Rattle.zerotrie_queries.specs.Found.{found_from, found_left};

use zerotrie_core::ByteSet;
use zerotrie_search::{Automaton, BeginsWith};

/// Accepts the keys that the automaton of a word accepts, or if `begins` is set, those that begin
/// with one. So a search by edits needs one automaton for both.
///
/// A state is that of the word's automaton, or `None` if `begins` is set and it accepted the bytes so
/// far.
#[derive(Clone, Copy, Debug)]
pub(crate) struct Found<S> {
    pub(crate) word: BeginsWith<S>,
    pub(crate) begins: bool,
}

impl<S: Automaton> Automaton for Found<S> {
    type State = Option<S::State>;

    ghost accepts = { λ s key. found_from s.begins (S.accepts s.word.0) key };

    ghost accepts_from = { λ s state key. found_left s.begins (S.accepts_from s.word.0) state key };

    ghost IsAfter = { λ s front state. IfSome state (λ inner. S.IsAfter s.word.0 front inner) };

    fn start(&self) -> Option<S::State> {
        Some(self.word.0.start())
    }

    fn step(&self, state: Option<S::State>, byte: u8) -> Option<S::State> {
        if self.begins {
            return self.word.step(state, byte);
        }
        let inner = state?;
        Some(self.word.0.step(inner, byte))
    }

    fn is_match(&self, state: Option<S::State>) -> bool {
        self.word.is_match(state)
    }

    fn can_match(&self, state: Option<S::State>) -> bool {
        match state {
            None => true,
            Some(inner) => self.word.0.can_match(inner),
        }
    }

    fn wanted(&self, state: Option<S::State>) -> Option<ByteSet> {
        if self.begins {
            return self.word.wanted(state);
        }
        let inner = state?;
        self.word.0.wanted(inner)
    }
}
