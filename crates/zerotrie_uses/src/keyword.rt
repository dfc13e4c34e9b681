//! The number of a keyword.

ghost use Rattle.std.specs.Prelude.{◌≡◌, ℕ, Contains, IfOk, Some};
ghost use Rattle.zerotrie.specs.Items.{pairs_of};
ghost use Rattle.zerotrie.specs.Keywords.{IsNumberOf};

use std::alloc::Global;
use zerotrie::{ZeroTrieBuildError, ZeroTrieSimpleAscii};

/// Returns the number of a keyword, from pairs in ascending order, or `None` exactly if the word is
/// no keyword.
///
/// The errors are those of `ZeroTrieSimpleAscii::try_from_sorted_slice`.
pub fn find_keyword(
    alloc: Global,
    pairs: &[(&[u8], usize)],
    word: &[u8],
) -> Result<Option<usize>, ZeroTrieBuildError>
    ensures present { IfOk result (λ answer.
        (number : ℕ) → Contains (pairs_of pairs.now) (word.now, number)
        → answer ≡ Some number) }
    ensures exact { IfOk result (λ answer. IsNumberOf (pairs_of pairs.now) word.now answer) }
{
    let trie = ZeroTrieSimpleAscii::try_from_sorted_slice(alloc, pairs)?;
    Ok(trie.get(word))
}
