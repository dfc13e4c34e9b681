//! Automata that are made of others.

ghost use Rattle.std.specs.Prelude.{◌&&◌, ◌||◌, not};

use crate::automaton::Automaton;
use zerotrie_core::ByteSet;

/// Accepts the keys that both automata accept.
///
/// ```
/// let automaton = Both(StartsWith(b"t"), Subsequence(b"e"));
/// let mut state = automaton.start();
/// for byte in b"trade" {
///     state = automaton.step(state, *byte);
/// }
/// assert!(rt; automaton.is_match(state));
/// ```
#[derive(Clone, Copy, Debug)]
pub struct Both<S, T>(pub S, pub T);

impl<S: Automaton, T: Automaton> Automaton for Both<S, T> {
    type State = (S::State, T::State);

    ghost accepts = { λ s key. S.accepts s.0 key && T.accepts s.1 key };

    ghost accepts_from = { λ s state key.
        S.accepts_from s.0 state.0 key && T.accepts_from s.1 state.1 key };

    ghost IsAfter = { λ s front state. S.IsAfter s.0 front state.0 × T.IsAfter s.1 front state.1 };

    fn start(&self) -> (S::State, T::State) {
        (self.0.start(), self.1.start())
    }

    fn step(&self, state: (S::State, T::State), byte: u8) -> (S::State, T::State) {
        (self.0.step(state.0, byte), self.1.step(state.1, byte))
    }

    fn is_match(&self, state: (S::State, T::State)) -> bool {
        self.0.is_match(state.0) && self.1.is_match(state.1)
    }

    fn can_match(&self, state: (S::State, T::State)) -> bool {
        self.0.can_match(state.0) && self.1.can_match(state.1)
    }

    fn wanted(&self, state: (S::State, T::State)) -> Option<ByteSet> {
        match (self.0.wanted(state.0), self.1.wanted(state.1)) {
            (Some(one), Some(other)) => Some(one.intersect(&other)),
            (Some(one), None) => Some(one),
            (None, other) => other,
        }
    }
}

/// Accepts the keys that one of the automata accepts, or both do.
///
/// ```
/// let automaton = Either(StartsWith(b"a"), StartsWith(b"b"));
/// assert!(rt; automaton.is_match(automaton.step(automaton.start(), b'b')));
/// ```
#[derive(Clone, Copy, Debug)]
pub struct Either<S, T>(pub S, pub T);

impl<S: Automaton, T: Automaton> Automaton for Either<S, T> {
    type State = (S::State, T::State);

    ghost accepts = { λ s key. S.accepts s.0 key || T.accepts s.1 key };

    ghost accepts_from = { λ s state key.
        S.accepts_from s.0 state.0 key || T.accepts_from s.1 state.1 key };

    ghost IsAfter = { λ s front state. S.IsAfter s.0 front state.0 × T.IsAfter s.1 front state.1 };

    fn start(&self) -> (S::State, T::State) {
        (self.0.start(), self.1.start())
    }

    fn step(&self, state: (S::State, T::State), byte: u8) -> (S::State, T::State) {
        (self.0.step(state.0, byte), self.1.step(state.1, byte))
    }

    fn is_match(&self, state: (S::State, T::State)) -> bool {
        self.0.is_match(state.0) || self.1.is_match(state.1)
    }

    fn can_match(&self, state: (S::State, T::State)) -> bool {
        self.0.can_match(state.0) || self.1.can_match(state.1)
    }

    fn wanted(&self, state: (S::State, T::State)) -> Option<ByteSet> {
        let one = self.0.wanted(state.0)?;
        let other = self.1.wanted(state.1)?;
        Some(one.unite(&other))
    }
}

/// Accepts the keys that the automaton does not accept.
///
/// ```
/// let automaton = Not(StartsWith(b"a"));
/// assert!(rt; automaton.is_match(automaton.step(automaton.start(), b'b')));
/// ```
///
/// A search passes over no pair unread.
#[derive(Clone, Copy, Debug)]
pub struct Not<S>(pub S);

impl<S: Automaton> Automaton for Not<S> {
    type State = S::State;

    ghost accepts = { λ s key. not (S.accepts s.0 key) };

    ghost accepts_from = { λ s state key. not (S.accepts_from s.0 state key) };

    ghost IsAfter = { λ s front state. S.IsAfter s.0 front state };

    fn start(&self) -> S::State {
        self.0.start()
    }

    fn step(&self, state: S::State, byte: u8) -> S::State {
        self.0.step(state, byte)
    }

    fn is_match(&self, state: S::State) -> bool {
        !self.0.is_match(state)
    }

    fn can_match(&self, _state: S::State) -> bool {
        true
    }
}
