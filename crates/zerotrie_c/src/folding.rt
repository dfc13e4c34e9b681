//! The texts of a search, as a kind compares them.

ghost use Rattle.std.specs.Prelude.{◌≡◌, ◌≢◌, true, false, IfOk};
ghost use Rattle.zerotrie_core.specs.Kinds.{kind_of as kind_that_is};
ghost use Rattle.zerotrie_core.specs.declared.TrieKind.TheVariants.{Ignore};
ghost use Rattle.zerotrie_index.specs.Tries.{folded_key};
ghost use Rattle.zerotrie_search.specs.Automata.{word_by};
ghost use Rattle.zerotrie_c.specs.Searched.{search_by, text_by, AreTextsOf, HasTexts};

use crate::searches::{Search, search_by};
use std::alloc::{AllocError, Global};
use zerotrie_core::TrieKind;
use zerotrie_search::{SearchBy, fold_by, fold_word};

/// Returns whether a kind ignores case.
pub fn ignores_case(kind: TrieKind) -> bool
    ensures yes { result ≡ true → kind ≡ Ignore }
    ensures no { result ≡ false → kind ≢ Ignore }
{
    match kind {
        TrieKind::Ignore => true,
        TrieKind::Simple | TrieKind::Hash | TrieKind::Ext => false,
    }
}

/// Returns bytes as a kind compares them.
fn fold(alloc: Global, kind: TrieKind, bytes: &[u8]) -> Result<Vec<u8>, AllocError>
    ensures { IfOk result (λ v. v.items ≡ folded_key (kind_that_is kind) bytes.now) }
{
    let mut folds = Vec::new(alloc);
    folds.extend_from_slice(bytes)?;
    fold_by(kind, folds.as_mut_slice());
    Ok(folds)
}

/// Returns a word as a kind compares it, and a pattern as it is.
pub fn fold_copy(
    alloc: Global,
    kind: TrieKind,
    by: SearchBy,
    word: &[u8],
) -> Result<Vec<u8>, AllocError>
    ensures { IfOk result (λ v. v.items ≡ word_by (kind_that_is kind) by word.now) }
{
    let mut folds = Vec::new(alloc);
    folds.extend_from_slice(word)?;
    fold_word(kind, by, folds.as_mut_slice());
    Ok(folds)
}

/// Returns the text of a search as a kind compares it.
fn fold_text(alloc: Global, kind: TrieKind, search: &Search<'_>) -> Result<Vec<u8>, AllocError>
    ensures { IfOk result (λ v. v.items
        ≡ text_by (search_by search.now.by search.now.edits) (kind_that_is kind) search.now.text.now) }
{
    match search_by(search.by, search.edits) {
        Some(by) => fold_copy(alloc, kind, by, search.text),
        None => fold(alloc, kind, search.text),
    }
}

/// The texts of a search, as a kind compares them.
#[derive(Drop)]
pub struct FoldedTexts {
    folded_text: Vec<u8>,
    folded_to: Vec<u8>,
}

impl FoldedTexts {
    /// Returns the texts of a search, as a kind compares them.
    pub fn new(alloc: Global, kind: TrieKind, search: &Search<'_>) -> Result<Self, AllocError>
        ensures { IfOk result (AreTextsOf (kind_that_is kind) search.now) }
    {
        Ok(FoldedTexts {
            folded_text: fold_text(alloc, kind, search)?,
            folded_to: fold(alloc, kind, search.to)?,
        })
    }

    /// Returns a search with these texts in place of its own.
    pub fn in_place_of<'w>(&'w self, search: &Search<'_>) -> Search<'w>
        ensures { HasTexts self.now search.now result }
    {
        Search {
            by: search.by,
            edits: search.edits,
            from_bound: search.from_bound,
            to_bound: search.to_bound,
            text: self.folded_text.as_slice(),
            to: self.folded_to.as_slice(),
            beginnings: search.beginnings,
        }
    }
}
