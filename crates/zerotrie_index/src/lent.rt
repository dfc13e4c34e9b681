//! A builder that is lent one key after another.

ghost use Rattle.std.specs.Prelude.{◌≡◌, ◌++◌, ◌∷◌, [], IfOk, IfErr};
ghost use Rattle.zerotrie_base.specs.Items.{pairs_of};
ghost use Rattle.zerotrie_index.specs.Built.{IsIndexBuild};
ghost use Rattle.zerotrie_index.specs.Lent.{marked_pairs, LieIn};

use crate::error::ZeroIndexBuildError;
use crate::index::ZeroIndex;
use std::alloc::{AllocError, Global};
use std::marker::Model;

/// Where the key of a pair lies in the text, and its value.
#[derive(Clone, Copy, Drop)]
struct Mark {
    start: usize,
    len: usize,
    value: usize,
}

/// Appends a key to the text, and its mark to the marks.
fn put(
    text: &mut Vec<u8>,
    marks: &mut Vec<Mark>,
    key: &[u8],
    value: usize,
) -> Result<(), AllocError>
    requires { LieIn text.old.items marks.old.items }
    ensures lie { LieIn text.new.items marks.new.items }
    ensures ok { IfOk result (λ _. marked_pairs text.new.items marks.new.items
        ≡ marked_pairs text.old.items marks.old.items ++ (key.now, value) ∷ []) }
    ensures err { IfErr result (λ _. marked_pairs text.new.items marks.new.items
        ≡ marked_pairs text.old.items marks.old.items) }
{
    let start = text.len();
    text.extend_from_slice(key)?;
    marks.push(Mark {
        start,
        len: key.len(),
        value,
    })?;
    Ok(())
}

/// Returns the pairs of a text.
fn items_of<'a>(
    alloc: Global,
    text: &'a [u8],
    marks: &[Mark],
) -> Result<Vec<(&'a [u8], usize)>, AllocError>
    requires { LieIn text.now marks.now }
    ensures { IfOk result (λ items. pairs_of items.items ≡ marked_pairs text.now marks.now) }
{
    let mut items = Vec::with_capacity(alloc, marks.len())?;
    for mark in marks {
        items.push((&text[mark.start..mark.start + mark.len], mark.value))?;
    }
    Ok(items)
}

/// Takes the pairs of an index one after another, in any order, and copies their keys. A listing of
/// a trie can give it each pair.
///
/// ```
/// let mut builder = ZeroIndexBuilder::new(rt.alloc());
/// builder.push(b"to", 1)?;
/// builder.push(b"in", 2)?;
/// let index = builder.build(rt.alloc(), 0)?;
/// assert_eq!(rt; index.get(b"in"), Some(2));
/// ```
#[derive(Drop)]
pub struct ZeroIndexBuilder {
    text: Vec<u8>,
    marks: Vec<Mark>,
}

impl Model for ZeroIndexBuilder {
    ghost use Rattle.zerotrie_base.specs.Maps.{Pairs};
    ghost use Rattle.zerotrie_index.specs.Lent.{marked_pairs, LieIn};

    ghost Value = { Pairs };

    ghost view = { λ b. marked_pairs b.text.items b.marks.items };

    ghost invariant = { λ b. LieIn b.text.items b.marks.items };
}

impl ZeroIndexBuilder {
    /// Returns a builder of no pairs. Does not allocate.
    pub fn new(alloc: Global) -> Self
        ensures { result ≡ [] }
    {
        ZeroIndexBuilder {
            text: Vec::new(alloc),
            marks: Vec::new(alloc),
        }
    }

    /// Appends a pair.
    ///
    /// An error means that an allocation failed. The pairs are then the same as before.
    pub fn push(&mut self, key: &[u8], value: usize) -> Result<(), AllocError>
        ensures ok { IfOk result (λ _. self.new ≡ self.old ++ (key.now, value) ∷ []) }
        ensures err { IfErr result (λ _. self.new ≡ self.old) }
    {
        put(&mut self.text, &mut self.marks, key, value)
    }

    /// Builds the index of the pairs, and tries seeds from this one on.
    ///
    /// The errors are those of `ZeroIndex::try_from_seed`.
    pub fn build(&self, alloc: Global, seed: u64) -> Result<ZeroIndex<Vec<u8>>, ZeroIndexBuildError>
        ensures { IsIndexBuild seed (λ index. index.store.items) self.now result }
    {
        let items = items_of(alloc, self.text.as_slice(), self.marks.as_slice())?;
        ZeroIndex::try_from_seed(alloc, seed, items.as_slice())
    }
}
