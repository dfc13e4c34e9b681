//! Keys that begin with given bytes.

ghost use Rattle.std.specs.Prelude.{◌≡◌, ℕ, false, is_some};
ghost use Rattle.std.specs.Option.{option_map};
ghost use Rattle.zerotrie_base.specs.Kind.{same_byte};
ghost use Rattle.zerotrie_base.specs.Kinds.{kind_of};
ghost use Rattle.zerotrie_base.specs.Maps.{after_run, begins_with};
ghost use Rattle.zerotrie_core.specs.ByteSets.{is_in};
ghost use Rattle.zerotrie_search.specs.Sets.{begins_left, begins_left_by};

use crate::automaton::Automaton;
use zerotrie_base::both_cases;
use zerotrie_core::{ByteSet, TrieKind, ZeroTrieWithOptions, by_kind, folded};

/// Accepts the keys that begin with these bytes, byte by byte.
///
/// ```
/// let automaton = StartsWith(b"in");
/// let state = automaton.step(automaton.start(), b'i');
/// assert!(rt; automaton.is_match(automaton.step(state, b'n')));
/// assert!(rt; !automaton.can_match(automaton.step(state, b't')));
/// ```
///
/// A state is what is left of the bytes, or `None` once another byte came.
#[derive(Clone, Copy, Debug)]
pub struct StartsWith<'p>(pub &'p [u8]);

impl<'p> Automaton for StartsWith<'p> {
    type State = Option<&'p [u8]>;

    ghost accepts = { λ s key. is_some (after_run s.0.now key) };

    ghost accepts_from = { λ _ left key. begins_left (option_map (λ l. l.now) left) key };

    ghost IsAfter = { λ _ _ _. Unit {0} };

    fn start(&self) -> Option<&'p [u8]> {
        Some(self.0)
    }

    fn step(&self, state: Option<&'p [u8]>, byte: u8) -> Option<&'p [u8]> {
        let left = state?;
        match left.split_first() {
            None => Some(left),
            Some((first, more)) => (*first == byte).then_some(more),
        }
    }

    fn is_match(&self, state: Option<&'p [u8]>) -> bool {
        match state {
            None => false,
            Some(left) => left.is_empty(),
        }
    }

    fn can_match(&self, state: Option<&'p [u8]>) -> bool {
        state.is_some()
    }

    fn wanted(&self, state: Option<&'p [u8]>) -> Option<ByteSet> {
        let (first, _more) = state?.split_first()?;
        Some(ByteSet::from_bytes(&[*first]))
    }
}

/// Returns whether two bytes are the same in the kind `K`.
fn are_same_as<K: ZeroTrieWithOptions>(byte: u8, other: u8) -> bool
    ensures { result ≡ same_byte K.kind byte other }
{
    folded::<K>(byte) == folded::<K>(other)
}

/// Returns whether two bytes are the same in a kind.
fn are_same(kind: TrieKind, byte: u8, other: u8) -> bool
    ensures { result ≡ same_byte (kind_of kind) byte other }
{
    by_kind!(kind, are_same_as::<_>(byte, other))
}

/// Returns the bytes that are the same as this one in the kind `K`.
fn same_as<K: ZeroTrieWithOptions>(byte: u8) -> ByteSet
    ensures { (b : ℕ) → is_in result b ≡ false → same_byte K.kind b byte ≡ false }
{
    let (lower, upper) = both_cases::<K>(byte);
    ByteSet::from_bytes(&[lower, upper])
}

/// Accepts the keys that begin with these bytes, as the kind compares bytes.
///
/// ```
/// let automaton = KindPrefix {
///     kind: TrieKind::Ignore,
///     prefix: b"in",
/// };
/// let state = automaton.step(automaton.start(), b'I');
/// assert!(rt; automaton.is_match(automaton.step(state, b'n')));
/// ```
///
/// A state is what is left of the bytes, or `None` once another byte came.
#[derive(Clone, Copy, Debug)]
pub struct KindPrefix<'p> {
    /// The kind that compares bytes.
    pub kind: TrieKind,
    /// What keys begin with.
    pub prefix: &'p [u8],
}

impl<'p> Automaton for KindPrefix<'p> {
    type State = Option<&'p [u8]>;

    ghost accepts = { λ s key. begins_with (kind_of s.kind) s.prefix.now key };

    ghost accepts_from = { λ s left key. begins_left_by (kind_of s.kind) (option_map (λ l. l.now) left) key };

    ghost IsAfter = { λ _ _ _. Unit {0} };

    fn start(&self) -> Option<&'p [u8]> {
        Some(self.prefix)
    }

    fn step(&self, state: Option<&'p [u8]>, byte: u8) -> Option<&'p [u8]> {
        let left = state?;
        match left.split_first() {
            None => Some(left),
            Some((first, more)) => are_same(self.kind, byte, *first).then_some(more),
        }
    }

    fn is_match(&self, state: Option<&'p [u8]>) -> bool {
        match state {
            None => false,
            Some(left) => left.is_empty(),
        }
    }

    fn can_match(&self, state: Option<&'p [u8]>) -> bool {
        state.is_some()
    }

    fn wanted(&self, state: Option<&'p [u8]>) -> Option<ByteSet> {
        let (first, _more) = state?.split_first()?;
        Some(by_kind!(self.kind, same_as::<_>(*first)))
    }
}
