//! Keys between two bounds.

ghost use Rattle.std.specs.Prelude.{◌≡◌, ℕ, List, [], ◌∷◌, true, false};
ghost use Rattle.std.specs.Option.{option_map};
ghost use Rattle.std.specs.Range.Bound.{bound_map, bounds_contain, is_from_start, is_up_to_end};
ghost use Rattle.std.specs.Ordering.{match_ordering, ordering_then, ordering_reverse, nat_cmp};
ghost use Rattle.std.specs.Cmp.Lexicographic.{slice_cmp};
ghost use Rattle.zerotrie_search.specs.Sets.{by_bytes, from_left, to_left};
ghost use Rattle.zerotrie_search.specs.Ranges.{is_in_left};

use crate::automaton::Automaton;
use std::cmp::Ordering;
use std::ops::Bound;

/// Accepts the keys between two bounds, in the order of bytes.
///
/// ```
/// use std::ops::Bound;
///
/// let automaton = KeyRange { from: Bound::Included(b"b"), to: Bound::Excluded(b"d") };
/// let state = automaton.step(automaton.start(), b'c');
/// assert!(rt; automaton.is_match(state));
/// assert!(rt; !automaton.can_match(automaton.step(automaton.start(), b'd')));
/// ```
///
/// A state is the range of what may follow, or `None` if nothing may.
#[derive(Clone, Copy, Debug)]
pub struct KeyRange<'p> {
    /// Where the range begins.
    pub from: Bound<&'p [u8]>,
    /// Where it ends.
    pub to: Bound<&'p [u8]>,
}

/// Returns how a bound compares to a byte and what follows it: at once, or if equal as the rest of
/// the bound compares to what follows.
fn compared<'p>(bound: &'p [u8], byte: u8) -> (Ordering, &'p [u8])
    ensures from { (key : List ℕ) → slice_cmp nat_cmp bound.now (byte ∷ key)
        ≡ ordering_then result.0 (slice_cmp nat_cmp result.1.now key) }
    ensures to { (key : List ℕ) → slice_cmp nat_cmp (byte ∷ key) bound.now
        ≡ ordering_then (ordering_reverse result.0) (slice_cmp nat_cmp key result.1.now) }
{
    match bound.split_first() {
        None => (Ordering::Less, bound),
        Some((first, rest)) => (first.cmp(&byte), rest),
    }
}

/// Returns how a bound compares to a byte, and if equal the bound of what follows it.
fn bound_after<'p>(bound: Bound<&'p [u8]>, byte: u8) -> (Ordering, Bound<&'p [u8]>)
    ensures from { (key : List ℕ) → is_from_start by_bytes (bound_map (λ b. b.now) bound.entry) (byte ∷ key)
        ≡ match_ordering result.0
        true (is_from_start by_bytes (bound_map (λ b. b.now) result.1) key) false }
    ensures to { (key : List ℕ) → is_up_to_end by_bytes (bound_map (λ b. b.now) bound.entry) (byte ∷ key)
        ≡ match_ordering result.0
        false (is_up_to_end by_bytes (bound_map (λ b. b.now) result.1) key) true }
{
    match bound {
        Bound::Unbounded => (Ordering::Equal, Bound::Unbounded),
        Bound::Included(bytes) => {
            let (order, rest) = compared(bytes, byte);
            (order, Bound::Included(rest))
        }
        Bound::Excluded(bytes) => {
            let (order, rest) = compared(bytes, byte);
            (order, Bound::Excluded(rest))
        }
    }
}

/// Returns the lower bound of what may follow a byte, or `None` if nothing may.
fn from_after<'p>(from: Bound<&'p [u8]>, byte: u8) -> Option<Bound<&'p [u8]>>
    ensures { (key : List ℕ) → from_left (option_map (bound_map (λ b. b.now)) result) key
        ≡ is_from_start by_bytes (bound_map (λ b. b.now) from.entry) (byte ∷ key) }
{
    let (order, rest) = bound_after(from, byte);
    match order {
        Ordering::Less => Some(Bound::Unbounded),
        Ordering::Equal => Some(rest),
        Ordering::Greater => None,
    }
}

/// Returns the upper bound of what may follow a byte, or `None` if nothing may.
fn to_after<'p>(to: Bound<&'p [u8]>, byte: u8) -> Option<Bound<&'p [u8]>>
    ensures { (key : List ℕ) → to_left (option_map (bound_map (λ b. b.now)) result) key
        ≡ is_up_to_end by_bytes (bound_map (λ b. b.now) to.entry) (byte ∷ key) }
{
    let (order, rest) = bound_after(to, byte);
    match order {
        Ordering::Less => None,
        Ordering::Equal => Some(rest),
        Ordering::Greater => Some(Bound::Unbounded),
    }
}

/// Returns whether the empty key is within a lower bound.
fn may_end_from(from: Bound<&[u8]>) -> bool
    ensures { result ≡ is_from_start by_bytes (bound_map (λ b. b.now) from.entry) [] }
{
    match from {
        Bound::Unbounded => true,
        Bound::Included(bytes) => bytes.is_empty(),
        Bound::Excluded(_bytes) => false,
    }
}

/// Returns whether the empty key is within an upper bound. If it is not, no key is.
fn may_end_to(to: Bound<&[u8]>) -> bool
    ensures is { result ≡ is_up_to_end by_bytes (bound_map (λ b. b.now) to.entry) [] }
    ensures none { result ≡ false
        → (key : List ℕ) → is_up_to_end by_bytes (bound_map (λ b. b.now) to.entry) key ≡ false }
{
    match to {
        Bound::Unbounded => true,
        Bound::Included(_bytes) => true,
        Bound::Excluded(bytes) => !bytes.is_empty(),
    }
}

impl<'p> Automaton for KeyRange<'p> {
    type State = Option<KeyRange<'p>>;

    ghost accepts = { λ s key. bounds_contain by_bytes
        (bound_map (λ b. b.now) s.from) (bound_map (λ b. b.now) s.to) key };

    ghost accepts_from = { λ _ left key. is_in_left left key };

    ghost IsAfter = { λ _ _ _. Unit {0} };

    fn start(&self) -> Option<KeyRange<'p>> {
        Some(*self)
    }

    fn step(&self, state: Option<KeyRange<'p>>, byte: u8) -> Option<KeyRange<'p>> {
        let range = state?;
        let from = from_after(range.from, byte)?;
        let to = to_after(range.to, byte)?;
        Some(KeyRange { from, to })
    }

    fn is_match(&self, state: Option<KeyRange<'p>>) -> bool {
        match state {
            None => false,
            Some(range) => may_end_from(range.from) && may_end_to(range.to),
        }
    }

    fn can_match(&self, state: Option<KeyRange<'p>>) -> bool {
        match state {
            None => false,
            Some(range) => may_end_to(range.to),
        }
    }
}
