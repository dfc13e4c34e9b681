//! What reads a key byte by byte, and accepts it or not.

ghost use Rattle.std.specs.Prelude.{◌≡◌, ◌<◌, ℕ, List, [], ◌∷◌, ◌++◌, Bool, false, IfSome};
ghost use Rattle.zerotrie_core.specs.ByteSets.{is_in};

use zerotrie_core::ByteSet;

/// A set of keys that is decided byte by byte.
///
/// ```
/// let automaton = StartsWith(b"in");
/// let mut state = automaton.start();
/// assert!(rt; !automaton.is_match(state));
/// for byte in b"into" {
///     state = automaton.step(state, *byte);
///     assert!(rt; automaton.can_match(state));
/// }
/// assert!(rt; automaton.is_match(state));
/// ```
///
/// A state is the set of what may follow, and `accepts_from` says which do. So the first
/// state accepts the keys themselves, and a step takes its byte off the front of what follows.
pub trait Automaton {
    type State: Copy + Drop;

    // Says whether a key is accepted.
    ghost accepts: { Self → List ℕ → Bool };

    // Says whether a key is accepted that goes on with these bytes after the state.
    ghost accepts_from: { Self → Self.State → List ℕ → Bool };

    // Holds of the states that the automaton may be in after these bytes.
    ghost IsAfter: { Self → List ℕ → Self.State → Type 0 };

    /// Returns the state before the first byte.
    fn start(&self) -> Self::State
        ensures after { IsAfter self.now [] result }
        ensures is { (key : List ℕ) → accepts_from self.now result key ≡ accepts self.now key };

    /// Returns the state after one more byte.
    fn step(&self, state: Self::State, byte: u8) -> Self::State
        requires { (front : List ℕ) × IsAfter self.now front state }
        ensures after { (front : List ℕ) → IsAfter self.now front state
            → IsAfter self.now (front ++ byte ∷ []) result }
        ensures is { (key : List ℕ)
            → accepts_from self.now result key ≡ accepts_from self.now state (byte ∷ key) };

    /// Returns whether the bytes before the state are an accepted key.
    fn is_match(&self, state: Self::State) -> bool
        requires { (front : List ℕ) × IsAfter self.now front state }
        ensures { result ≡ accepts_from self.now state [] };

    /// Returns `false` only if no accepted key begins with the bytes before the state.
    fn can_match(&self, state: Self::State) -> bool
        requires { (front : List ℕ) × IsAfter self.now front state }
        ensures { result ≡ false → (key : List ℕ) → accepts_from self.now state key ≡ false };

    /// Returns a set of bytes, such that no accepted key has another one after the state, or `None`
    /// if any byte may follow. Of a branch, a search enters no edge outside the set.
    fn wanted(&self, _state: Self::State) -> Option<ByteSet>
        requires { (front : List ℕ) × IsAfter self.now front _state }
        ensures { IfSome result (λ set. (byte : ℕ) → byte < 256 → is_in set byte ≡ false
            → (key : List ℕ) → accepts_from self.now _state (byte ∷ key) ≡ false) }
    {
        None
    }
}

/// Returns whether an automaton accepts a key.
///
/// ```
/// assert!(rt; accepts(&StartsWith(b"in"), b"into"));
/// ```
pub fn accepts<T: Automaton>(automaton: &T, key: &[u8]) -> bool
    ensures { result ≡ T.accepts automaton.now key.now }
{
    let mut left = key;
    let mut state = automaton.start();
    while let Some((byte, rest)) = left.split_first() {
        state = automaton.step(state, *byte);
        left = rest;
    }
    automaton.is_match(state)
}
