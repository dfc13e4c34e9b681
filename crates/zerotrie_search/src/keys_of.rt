//! The keys of another trie.

ghost use Rattle.std.specs.Prelude.{◌≡◌, ◌↔◌, ◌∷◌, ℕ, List, [], is_some, IsTrue, IfSome, IsSome};
ghost use Rattle.zerotrie_base.specs.Kind.{Kind, kind_with};
ghost use Rattle.zerotrie_base.specs.Maps.{Pairs, Map, look};
ghost use Rattle.zerotrie_base.specs.Texts.{Lists, Means};
ghost use Rattle.zerotrie_base.specs.Cursors.{met, edge_like};
ghost use Rattle.zerotrie_core.specs.Machine.{behind};
ghost use Rattle.zerotrie_core.specs.Places.{ListsAt};
ghost use Rattle.zerotrie_core.specs.CursorPlaces.{cursor_at};
ghost use Rattle.zerotrie_core.specs.WellFormed.{IsWellFormed};
ghost use Rattle.zerotrie_search.specs.OtherKeys.{Other, has_key, has_at, IsAlong};

use crate::automaton::Automaton;
use std::marker::Model;
use zerotrie_core::laws::steps_look_ahead;
use zerotrie_core::{
    CursorPlace, ZeroTrieBuilderOptions, ZeroTrieWithOptions, by_kind, is_well_formed,
};

/// Accepts the keys of another trie of any kind, as that kind compares bytes.
///
/// ```
/// let words = [("trial", 1), ("trie", 2), ("trio", 3)];
/// let trie = ZeroTrieSimpleAscii::try_from_iter(rt.alloc(), words)?;
/// // the keys "trie" and "try" with values 5 and 6
/// let other = b"tr\xC2iy\x02e\x85\x86";
/// let keys = KeysOf::validated::<Simple>(other).ok_or("no trie")?;
/// let mut search = trie.search(rt.alloc(), keys);
/// assert!(rt; search.advance()?);
/// assert_eq!(rt; search.value(), 2);
/// assert_eq!(rt; search.automaton().value(search.state()), Some(5));
/// assert!(rt; !search.advance()?);
/// ```
///
/// So a search lists what two tries have in common, and `Not` of it what only the first has. A
/// state is a cursor in the other trie.
#[derive(Drop)]
pub struct KeysOf<'b> {
    options: ZeroTrieBuilderOptions,
    bytes: &'b [u8],
}

impl<'b> Model for KeysOf<'b> {
    ghost use Rattle.zerotrie_base.specs.Kind.{kind_with};
    ghost use Rattle.zerotrie_core.specs.WellFormed.{IsWellFormed};
    ghost use Rattle.zerotrie_search.specs.OtherKeys.{Other};

    ghost Value = { Other };

    ghost view = { λ s. record { kind = kind_with s.options; bytes = s.bytes.now } };

    ghost invariant = { λ s. IsWellFormed (kind_with s.options) s.bytes.now };
}

impl<'b> KeysOf<'b> {
    /// Returns the automaton of a trie's keys. Does not validate its bytes.
    pub fn new<K: ZeroTrieWithOptions>(bytes: &'b [u8]) -> Self
        requires { IsWellFormed K.kind bytes.now }
        ensures is { result ≡ record { kind = K.kind; bytes = bytes.now } }
        ensures keys { (m : Map) → Means K.kind bytes.now m
            → (key : List ℕ) → has_key result key ≡ is_some (look K.kind m key) }
    {
        KeysOf {
            options: ZeroTrieBuilderOptions::of::<K>(),
            bytes,
        }
    }

    /// Returns the automaton of a trie's keys, or `None` if the bytes are not valid.
    pub fn validated<K: ZeroTrieWithOptions>(bytes: &'b [u8]) -> Option<Self>
        ensures valid { IsSome result ↔ IsWellFormed K.kind bytes.now }
        ensures is { IfSome result (λ keys. keys ≡ record { kind = K.kind; bytes = bytes.now }) }
        ensures keys { IfSome result (λ keys. (m : Map) → Means K.kind bytes.now m
            → (key : List ℕ) → has_key keys key ≡ is_some (look K.kind m key)) }
    {
        if is_well_formed::<K>(bytes) {
            Some(KeysOf::new::<K>(bytes))
        } else {
            None
        }
    }

    /// Returns the value that the other trie has for the bytes before a state, or `None` if they
    /// are not one of its keys.
    pub fn value(&self, state: CursorPlace) -> Option<usize>
        ensures { (m : Map) → Means self.now.kind self.now.bytes m
            → (front : List ℕ) → IsAlong self.now front state
            → result ≡ look self.now.kind m front }
    {
        steps_look_ahead();
        let mut at = state;
        at.take_value(self.bytes)
    }
}

/// Returns the place after one more byte.
fn stepped<K: ZeroTrieWithOptions>(bytes: &[u8], place: CursorPlace, byte: u8) -> CursorPlace
    ensures { (pairs : Pairs) → ListsAt K.kind (cursor_at bytes.now place) pairs
        → ListsAt K.kind (cursor_at bytes.now result)
        (behind (edge_like K.kind byte (met pairs)) pairs) }
{
    let mut next = place;
    let _edge = next.step::<K>(bytes, byte);
    next
}

/// Calls `stepped` for the kind that the options name.
fn stepped_in(
    options: ZeroTrieBuilderOptions,
    bytes: &[u8],
    place: CursorPlace,
    byte: u8,
) -> CursorPlace
    ensures { (pairs : Pairs) → ListsAt (kind_with options) (cursor_at bytes.now place) pairs
        → ListsAt (kind_with options) (cursor_at bytes.now result)
        (behind (edge_like (kind_with options) byte (met pairs)) pairs) }
{
    by_kind!(options.kind(), stepped::<_>(bytes, place, byte))
}

impl<'b> Automaton for KeysOf<'b> {
    type State = CursorPlace;

    ghost accepts = { λ s key. has_key s key };

    ghost accepts_from = { λ s place key. has_at s.kind (cursor_at s.bytes place) key };

    ghost IsAfter = { λ s front place. IsAlong s front place };

    fn start(&self) -> CursorPlace {
        CursorPlace::new(self.bytes)
    }

    fn step(&self, state: CursorPlace, byte: u8) -> CursorPlace {
        steps_look_ahead();
        stepped_in(self.options, self.bytes, state, byte)
    }

    fn is_match(&self, state: CursorPlace) -> bool {
        let mut place = state;
        place.take_value(self.bytes).is_some()
    }

    fn can_match(&self, state: CursorPlace) -> bool {
        !state.cursor(self.bytes).is_empty()
    }
}
