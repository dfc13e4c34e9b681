//! Laws of the definitions alone, as contracts that a caller's proof can cite.
//!
//! Each function does nothing: a call brings its law into a proof.

ghost use Rattle.std.specs.Prelude.{ℕ, List};
ghost use Rattle.zerotrie_base.specs.Kind.{Kind, IsAscii, simple_ascii};
ghost use Rattle.zerotrie_base.specs.Maps.{Pairs, Ascends};
ghost use Rattle.zerotrie_base.specs.Texts.{Lists};
ghost use Rattle.zerotrie_base.specs.Laws.{FewNodes, ListsTheMap, ListsInOrder};
ghost use Rattle.zerotrie_core.specs.CursorLaws.{StepsAnswer, SuffixAnswers, NoSecondValue, StoredBytes};
ghost use Rattle.zerotrie_core.specs.Faults.{NoFaultInTrie};

pub use zerotrie_base::laws::{
    canonical_exactly, equal_exactly_if_maps_are, length_is_size, meant_fits, one_meaning,
    one_spelling, same_keys_answer_alike,
};

/// On bytes that mean a map, a look-up of a key of n bytes reads at most 2n + 1 nodes.
pub fn few_nodes()
    ensures { FewNodes }
{}

/// After steps along a prefix, with no value taken, a look-up of a key in what is left returns what
/// the whole trie returns for the prefix followed by the key.
pub fn steps_look_ahead()
    ensures pairs { StepsAnswer }
    ensures maps { SuffixAnswers }
{}

/// After `take_value`, a second `take_value` returns `None`.
pub fn no_second_value()
    ensures { NoSecondValue }
{}

/// Stepping along a key returns the stored bytes of that key. If the kind ignores case, the steps
/// may be in any case.
pub fn steps_answer_stored_bytes()
    ensures { StoredBytes }
{}

/// The pairs that bytes of a kind list are the map that they mean, each pair once. In a kind over
/// ASCII keys the pairs ascend by the bytes of their keys, lower-cased if the kind ignores case.
pub fn listing_is_the_map()
    ensures map { ListsTheMap }
    ensures in_order { (kind : Kind) → IsAscii kind → ListsInOrder kind }
    ensures by_bytes { (bytes : List ℕ) (pairs : Pairs) → Lists simple_ascii bytes pairs
        → Ascends pairs }
{}

/// Bytes that mean a map have no fault, in the sense of `first_fault`.
pub fn no_fault_in_a_trie()
    ensures { NoFaultInTrie }
{}
