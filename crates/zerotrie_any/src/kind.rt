//! The kind of a trie of pairs, if the caller names none.

ghost use Rattle.std.specs.Prelude.{◌≡◌, map};
ghost use Rattle.zerotrie_core.specs.Kinds.{kind_of};
ghost use Rattle.zerotrie_any.specs.Auto.{auto_kind, is_simple};

use zerotrie_base::{TriePair, are_ascii};
use zerotrie_core::TrieKind;

/// Returns whether all keys are ASCII and there are fewer than `TrieKind::SIMPLE_LIMIT`.
pub(crate) fn is_simple<P: TriePair>(pairs: &[P]) -> bool
    ensures { result ≡ is_simple (map P.pair pairs.now) }
{
    pairs.len() < TrieKind::SIMPLE_LIMIT && are_ascii(pairs)
}

/// Returns the kind of the `ZeroTrie` of the pairs: `Simple` if all keys are ASCII and there are
/// fewer than `TrieKind::SIMPLE_LIMIT`, and else `Hash`.
///
/// ```
/// assert_eq!(rt; kind_for_pairs(&[("ad", 22), ("adef", 33)]), TrieKind::Simple);
/// assert_eq!(rt; kind_for_pairs(&[("å", 1)]), TrieKind::Hash);
/// ```
pub fn kind_for_pairs<P: TriePair>(pairs: &[P]) -> TrieKind
    ensures { kind_of result ≡ auto_kind (map P.pair pairs.now) }
{
    if is_simple(pairs) {
        TrieKind::Simple
    } else {
        TrieKind::Hash
    }
}
