//! The words of a choice, as a kind compares them.

ghost use Rattle.std.specs.Prelude.{◌≡◌, IfOk};
ghost use Rattle.std.specs.Range.Bound.{bound_map};
ghost use Rattle.zerotrie_core.specs.Kinds.{kind_of};
ghost use Rattle.zerotrie_index.specs.Tries.{folded_key};
ghost use Rattle.std.specs.Option.{option_map};
ghost use Rattle.zerotrie_queries.specs.Chosen.{below_some, folded_bound, word_of, AreWordsOf, HasWords};

use crate::question::{Choice, Sought};
use crate::sorted::above_prefix;
use std::alloc::{AllocError, Global};
use std::ops::Bound;
use zerotrie_core::TrieKind;
use zerotrie_search::{KeyRange, fold_by, fold_word};

/// Returns bytes as a kind compares them.
fn fold(alloc: Global, kind: TrieKind, bytes: &[u8]) -> Result<Vec<u8>, AllocError>
    ensures { IfOk result (λ v. v.items ≡ folded_key (kind_of kind) bytes.now) }
{
    let mut folds = Vec::new(alloc);
    folds.extend_from_slice(bytes)?;
    fold_by(kind, folds.as_mut_slice());
    Ok(folds)
}

/// Returns a bound as a kind compares keys.
fn fold_bound(
    alloc: Global,
    kind: TrieKind,
    bound: Bound<&[u8]>,
) -> Result<Bound<Vec<u8>>, AllocError>
    ensures { IfOk result (λ b. bound_map (λ v. v.items) b
        ≡ folded_bound kind (bound_map (λ b. b.now) bound.entry)) }
{
    match bound {
        Bound::Included(bytes) => Ok(Bound::Included(fold(alloc, kind, bytes)?)),
        Bound::Excluded(bytes) => Ok(Bound::Excluded(fold(alloc, kind, bytes)?)),
        Bound::Unbounded => Ok(Bound::Unbounded),
    }
}

/// Returns the bytes of a bound.
fn lent(bound: &Bound<Vec<u8>>) -> Bound<&[u8]>
    ensures { bound_map (λ b. b.now) result ≡ bound_map (λ v. v.items) bound.now }
{
    match bound {
        Bound::Included(bytes) => Bound::Included(bytes.as_slice()),
        Bound::Excluded(bytes) => Bound::Excluded(bytes.as_slice()),
        Bound::Unbounded => Bound::Unbounded,
    }
}

/// Returns the word by which keys are sought, as a kind compares them, or no bytes.
fn word_of(alloc: Global, kind: TrieKind, sought: Option<Sought<'_>>) -> Result<Vec<u8>, AllocError>
    ensures { IfOk result (λ v. v.items ≡ word_of kind sought.entry) }
{
    let mut word = Vec::new(alloc);
    if let Some(sought) = sought {
        word.extend_from_slice(sought.word)?;
        fold_word(kind, sought.by, word.as_mut_slice());
    }
    Ok(word)
}

/// The words of a choice, as a kind compares them.
#[derive(Drop)]
pub struct FoldedWords {
    prefix: Vec<u8>,
    from: Bound<Vec<u8>>,
    to: Bound<Vec<u8>>,
    word: Vec<u8>,
    above: Option<Vec<u8>>,
}

impl FoldedWords {
    /// Returns the words of a choice, as a kind compares them.
    pub fn new(alloc: Global, kind: TrieKind, choice: Choice<'_>) -> Result<Self, AllocError>
        ensures { IfOk result (AreWordsOf kind choice.entry) }
    {
        let prefix = fold(alloc, kind, choice.prefix)?;
        let above = above_prefix(alloc, prefix.as_slice())?;
        Ok(FoldedWords {
            prefix,
            from: fold_bound(alloc, kind, choice.range.from)?,
            to: fold_bound(alloc, kind, choice.range.to)?,
            word: word_of(alloc, kind, choice.sought)?,
            above,
        })
    }

    /// Returns a bound above all keys that begin with the prefix.
    pub fn above(&self) -> Bound<&[u8]>
        ensures { bound_map (λ b. b.now) result ≡ below_some (option_map (λ v. v.items) self.now.above) }
    {
        match &self.above {
            Some(bytes) => Bound::Excluded(bytes.as_slice()),
            None => Bound::Unbounded,
        }
    }

    /// Returns a choice with these words in place of its own.
    pub fn in_place_of<'w>(&'w self, choice: Choice<'w>) -> Choice<'w>
        ensures { HasWords self.now choice.entry result }
    {
        Choice {
            prefix: self.prefix.as_slice(),
            range: KeyRange {
                from: lent(&self.from),
                to: lent(&self.to),
            },
            without: choice.without,
            sought: match choice.sought {
                Some(sought) => Some(Sought {
                    by: sought.by,
                    word: self.word.as_slice(),
                    begins: sought.begins,
                }),
                None => None,
            },
        }
    }
}
