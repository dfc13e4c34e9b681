//! The pairs of a trie as an ordered map, calls of a cursor over them, and a listing that skips some.

ghost use Rattle.std.specs.Prelude.{◌≡◌, ◌∷◌, ℕ, List, take, IfOk};
ghost use Rattle.std.specs.String.{string_bytes};
ghost use Rattle.zerotrie.specs.Items.{pairs_of, keyed};
ghost use Rattle.zerotrie.specs.Kind.{simple_ascii, perfect_hash};
ghost use Rattle.zerotrie.specs.Listings.{to_come};
ghost use Rattle.zerotrie.specs.Machine.{run};
ghost use Rattle.zerotrie.specs.Maps.{Pairs};
ghost use Rattle.zerotrie.specs.Skips.{Skips, NoneBegins};
ghost use Rattle.zerotrie.specs.Texts.{Lists};
ghost use Rattle.zerotrie.specs.Walks.{ops_of, answers_of};

use std::alloc::{AllocError, Global};
use std::collections::BTreeMap;
use zerotrie::{
    CursorAnswer, CursorOp, Trie, TrieStore, ZeroTrieBuildError, ZeroTriePerfectHash,
    ZeroTrieSimpleAscii, ZeroTrieStream,
};

/// Builds a trie of pairs in ascending order, and returns it as an ordered map: these pairs.
///
/// The errors are those of `ZeroTrieSimpleAscii::try_from_sorted_slice`, and `OutOfMemory`.
pub fn listed_again(
    alloc: Global,
    pairs: &[(&[u8], usize)],
) -> Result<BTreeMap<String, usize>, ZeroTrieBuildError>
    ensures { IfOk result (λ map.
        keyed (λ key. string_bytes key) map.entries ≡ pairs_of pairs.now) }
{
    let trie = ZeroTrieSimpleAscii::try_from_sorted_slice(alloc, pairs)?;
    match trie.to_btreemap(alloc) {
        Ok(map) => Ok(map),
        Err(_) => Err(ZeroTrieBuildError::OutOfMemory),
    }
}

/// Returns the results of a cursor's calls over pairs in ascending order: those of the definition of
/// a cursor over the pairs themselves.
///
/// The errors are those of `ZeroTrieSimpleAscii::try_from_sorted_slice`, and `OutOfMemory`.
pub fn walk_over(
    alloc: Global,
    pairs: &[(&[u8], usize)],
    calls: &[CursorOp],
) -> Result<Vec<CursorAnswer>, ZeroTrieBuildError>
    ensures { IfOk result (λ answers.
        answers_of answers.items ≡ run simple_ascii (ops_of calls.now) (pairs_of pairs.now)) }
{
    let trie = ZeroTrieSimpleAscii::try_from_sorted_slice(alloc, pairs)?;
    Ok(trie.walk(alloc, calls)?)
}

/// Lists the pairs after the first, without those whose keys begin as the first key does, in its first
/// `depth` bytes. Reads nothing of the keys that it leaves out.
///
/// An error means that an allocation failed.
pub fn past_first_group<S: TrieStore>(
    alloc: Global,
    trie: &ZeroTriePerfectHash<S>,
    depth: usize,
) -> Result<ZeroTrieStream<'_>, AllocError>
    ensures skips { IfOk result (λ s. (first : List ℕ × ℕ) (others : Pairs)
        → Lists perfect_hash (S.stored trie.now.store) (first ∷ others)
        → Skips (take depth first.0) (to_come others) s.left) }
    ensures none { IfOk result (λ s. (first : List ℕ × ℕ) (others : Pairs)
        → Lists perfect_hash (S.stored trie.now.store) (first ∷ others)
        → NoneBegins (take depth first.0) s.left.pairs) }
{
    let mut pairs = trie.stream(alloc);
    pairs.advance()?;
    pairs.skip(depth);
    Ok(pairs)
}
