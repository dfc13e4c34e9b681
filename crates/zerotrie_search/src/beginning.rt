//! Keys that continue another automaton's keys.

ghost use Rattle.std.specs.Prelude.{IfSome};
ghost use Rattle.zerotrie_search.specs.Sets.{some_front, some_front_from};

use crate::automaton::Automaton;
use zerotrie_core::ByteSet;

/// Accepts the keys that begin with a key that the automaton accepts.
///
/// ```
/// let near = Levenshtein::new(b"exmple", 1).ok_or("a long word")?;
/// let automaton = BeginsWith(near);
/// let mut state = automaton.start();
/// for byte in b"examples" {
///     state = automaton.step(state, *byte);
/// }
/// assert!(rt; automaton.is_match(state));
/// ```
///
/// A state is that of the automaton, or `None` once it accepted the bytes so far.
#[derive(Clone, Copy, Debug)]
pub struct BeginsWith<S>(pub S);

impl<S: Automaton> Automaton for BeginsWith<S> {
    type State = Option<S::State>;

    ghost accepts = { λ s key. some_front (S.accepts s.0) key };

    ghost accepts_from = { λ s state key. some_front_from (S.accepts_from s.0) state key };

    ghost IsAfter = { λ s front state. IfSome state (λ inner. S.IsAfter s.0 front inner) };

    fn start(&self) -> Option<S::State> {
        Some(self.0.start())
    }

    fn step(&self, state: Option<S::State>, byte: u8) -> Option<S::State> {
        let inner = state?;
        if self.0.is_match(inner) {
            return None;
        }
        Some(self.0.step(inner, byte))
    }

    fn is_match(&self, state: Option<S::State>) -> bool {
        match state {
            None => true,
            Some(inner) => self.0.is_match(inner),
        }
    }

    fn can_match(&self, state: Option<S::State>) -> bool {
        match state {
            None => true,
            Some(inner) => self.0.can_match(inner),
        }
    }

    fn wanted(&self, state: Option<S::State>) -> Option<ByteSet> {
        let inner = state?;
        if self.0.is_match(inner) {
            return None;
        }
        self.0.wanted(inner)
    }
}
