//! Words that are looked up: keywords, words of any bytes, and header names in any case.

ghost use Rattle.std.specs.Prelude.{◌≡◌, ◌<◌, ℕ, Some, IfOk, All, Contains, length, slice_index, List, None, true, false};
ghost use Rattle.zerotrie.specs.Items.{pairs_of, keyed};
ghost use Rattle.zerotrie.specs.Keywords.{IsNumberOf, IsRecordOf};
ghost use Rattle.std.specs.String.{string_bytes};
ghost use Rattle.std.specs.Str.{str_eq_ignore_ascii_case};

use std::alloc::Global;
use zerotrie::{
    ZeroAsciiIgnoreCaseTrie, ZeroTrie, ZeroTrieBuildError, ZeroTriePerfectHash, ZeroTrieSimpleAscii,
};

/// Looks up one of three literals. The contract states the result outright.
pub fn second_of_three(alloc: Global) -> Result<Option<usize>, ZeroTrieBuildError>
    ensures { IfOk result (λ answer. answer ≡ Some 2) }
{
    let trie = ZeroTrieSimpleAscii::try_from_iter(alloc, [("foo", 1), ("bar", 2), ("bazzoo", 3)])?;
    Ok(trie.get(b"bar"))
}

/// Returns the record of a keyword, or `None` exactly if the word is no keyword. The keywords are in
/// ascending order, each with the index of its record, and their trie fills an array of 15 bytes. It
/// does not allocate.
///
/// The records are indexed without a test: the result of the look-up is the index of some keyword.
/// The errors are those of `ZeroTrieSimpleAscii::from_sorted_u8_tuples`.
pub fn record_of(
    keywords: &[(&[u8], usize)],
    records: &[u8],
    word: &[u8],
) -> Result<Option<u8>, ZeroTrieBuildError>
    requires { All (λ e. e.1 < length records.now) (pairs_of keywords.now) }
    ensures present { IfOk result (λ answer.
        (index : ℕ) → Contains (pairs_of keywords.now) (word.now, index)
        → answer ≡ Some (slice_index records.now index)) }
    ensures exact { IfOk result (λ answer.
        IsRecordOf (pairs_of keywords.now) records.now word.now answer) }
{
    let trie: ZeroTrieSimpleAscii<[u8; 15]> = ZeroTrieSimpleAscii::from_sorted_u8_tuples(keywords)?;
    match trie.get(word) {
        Some(index) => Ok(Some(records[index])),
        None => Ok(None),
    }
}

/// Returns the number of a word, from pairs in any order with keys of any bytes, or `None` exactly if
/// the word is no key.
///
/// The errors are those of `ZeroTrie::try_from_iter`.
pub fn find_word(
    alloc: Global,
    pairs: &[(&[u8], usize)],
    word: &[u8],
) -> Result<Option<usize>, ZeroTrieBuildError>
    ensures present { IfOk result (λ answer.
        (number : ℕ) → Contains (pairs_of pairs.now) (word.now, number)
        → answer ≡ Some number) }
    ensures exact { IfOk result (λ answer. IsNumberOf (pairs_of pairs.now) word.now answer) }
{
    let trie = ZeroTrie::try_from_iter(alloc, pairs.iter().copied())?;
    Ok(trie.get(word))
}

/// Like `find_word`, from pairs that own their keys, as those that a program reads.
///
/// The errors are those of `ZeroTriePerfectHash::try_from_iter`.
pub fn find_owned(
    alloc: Global,
    pairs: Vec<(String, usize)>,
    word: &[u8],
) -> Result<Option<usize>, ZeroTrieBuildError>
    ensures { IfOk result (λ answer.
        IsNumberOf (keyed (λ key. string_bytes key) pairs.items) word.now answer) }
{
    let trie = ZeroTriePerfectHash::try_from_iter(alloc, pairs)?;
    Ok(trie.get(word))
}

/// Returns the number of a header name in any case, from pairs in any order, or `None` exactly if no
/// header has the name.
///
/// The errors are those of `ZeroAsciiIgnoreCaseTrie::try_from_iter`.
pub fn find_header(
    alloc: Global,
    pairs: &[(&[u8], usize)],
    name: &[u8],
) -> Result<Option<usize>, ZeroTrieBuildError>
    ensures present { IfOk result (λ answer.
        (key : List ℕ) (number : ℕ) → Contains (pairs_of pairs.now) (key, number)
        → str_eq_ignore_ascii_case key name.now ≡ true → answer ≡ Some number) }
    ensures absent { IfOk result (λ answer.
        All (λ e. str_eq_ignore_ascii_case e.0 name.now ≡ false) (pairs_of pairs.now)
        → answer ≡ None) }
    ensures found { IfOk result (λ answer. (number : ℕ) → answer ≡ Some number
        → (key : List ℕ) × Contains (pairs_of pairs.now) (key, number)
        × (str_eq_ignore_ascii_case key name.now ≡ true)) }
{
    let trie = ZeroAsciiIgnoreCaseTrie::try_from_iter(alloc, pairs.iter().copied())?;
    Ok(trie.get(name))
}
