//! The pairs of a trie, printed as they come.

ghost use Rattle.std.specs.Prelude.{◌≡◌, ℕ, List, true, false, IfOk, IfErr, IfSome, IfNone, OnOk, OnErr};
ghost use Rattle.zerotrie_core.specs.Maps.{Pairs};
ghost use Rattle.zerotrie_core.specs.Texts.{Lists};
ghost use Rattle.zerotrie_core.specs.Kinds.{kind_of};
ghost use Rattle.zerotrie_queries.specs.Chosen.{AreWordsOf};
ghost use Rattle.zerotrie_queries.specs.Listed.{AreListed, AreListedInPart, AreUnlisted, AreUnprintable, IsListingNoted, IsPrintable, first_picked};
ghost use Rattle.zerotrie_files.specs.Faults.{IsNoted};
ghost use Rattle.zerotrie_queries.specs.declared.listing.ListError.TheVariants.{Failed};

mod distances;
mod forms;
mod greatest;
mod json_object;
mod listed;
mod printable;

use crate::folding::FoldedWords;
use crate::listing::distances::Distances;
use crate::listing::forms::write_pairs;
use crate::listing::listed::listed;
use crate::listing::printable::{first_unprintable_of, takes_all_keys};
use crate::print::Form;
use crate::question::ListQuery;
use std::alloc::{AllocError, Global};
use std::io;
use std::io::Write;
use zerotrie_core::TrieRef;
use zerotrie_files::Noted;

/// Why pairs are not listed, or not all of them.
#[derive(Debug, Drop)]
pub enum ListError {
    /// This key, the first such one, can't be printed in the form: as JSON one that is not UTF-8, and as
    /// it is before a tab one that has a tab or a line feed.
    Unprintable(Vec<u8>),
    /// The output failed, or memory was refused.
    Failed(io::Error),
}

impl From<io::Error> for ListError {
    ghost from_gives = { λ error e. e ≡ Failed error };

    fn from(error: io::Error) -> Self {
        ListError::Failed(error)
    }
}

/// Returns the first key of a selection that can't be printed in a form, if there is one.
fn first_unprintable(
    alloc: Global,
    trie: &TrieRef<'_>,
    form: Form,
    words: &FoldedWords,
    selection: ListQuery<'_>,
) -> Result<Option<Vec<u8>>, AllocError>
    requires { AreWordsOf trie.now.kind selection.choice words.now }
    ensures some { IfOk result (λ key. IfSome key (λ k. AreUnprintable form selection.entry
        trie.now.kind trie.now.bytes.now k.items)) }
    ensures none { IfOk result (λ key. IfNone key ((pairs : Pairs)
        → Lists (kind_of trie.now.kind) trie.now.bytes.now pairs
        → IsPrintable form (first_picked selection.entry trie.now.kind pairs))) }
{
    if takes_all_keys(form) {
        return Ok(None);
    }
    let pairs = listed(alloc, trie, words, selection)?;
    first_unprintable_of(alloc, form, pairs)
}

/// Writes the pairs of a selection, or returns the first key that can't be printed in the form, and writes
/// nothing.
fn write_selection<W: Write>(
    alloc: Global,
    trie: &TrieRef<'_>,
    form: Form,
    selection: ListQuery<'_>,
    output: &mut Noted<W>,
) -> io::Result<Option<Vec<u8>>>
    ensures all { IfOk result (λ key. IfNone key (AreListed form selection.entry trie.now.kind
        trie.now.bytes.now (W.contents output.old.inner) (W.contents output.new.inner))) }
    ensures none { IfOk result (λ key. IfSome key (λ k. AreUnprintable form selection.entry
        trie.now.kind trie.now.bytes.now k.items × (output.new ≡ output.old))) }
    ensures part { OnErr result (AreListedInPart form selection.entry trie.now.kind
        trie.now.bytes.now (W.contents output.old.inner) (W.contents output.new.inner)) }
    ensures noted { IsNoted result output.old.failed output.new.failed }
{
    let words = FoldedWords::new(alloc, trie.kind, selection.choice)?;
    if let Some(key) = first_unprintable(alloc, trie, form, &words, selection)? {
        return Ok(Some(key));
    }
    let pairs = listed(alloc, trie, &words, selection)?;
    let edits = Distances::of(trie.kind, words.in_place_of(selection.choice));
    write_pairs(alloc, form, &edits, pairs, output)?;
    Ok(None)
}

/// Writes the pairs of a selection: the first whose keys are chosen, in its order. It allocates nothing
/// for a pair alone.
///
/// ```
/// // the keys "ab", "ac" and "b" with values 1, 2 and 3
/// let trie = TrieRef {
///     kind: TrieKind::Simple,
///     bytes: b"\xC2ab\x06\xC2bc\x01\x81\x82\x83",
/// };
/// let choice = Choice {
///     prefix: b"",
///     range: KeyRange {
///         from: Bound::Unbounded,
///         to: Bound::Unbounded,
///     },
///     without: None,
///     sought: Some(Sought {
///         by: SearchBy::Fuzzy(1),
///         word: b"ab",
///         begins: false,
///     }),
/// };
/// let nearest = ListQuery {
///     choice,
///     order: Order::Nearest,
///     top: None,
///     limit: None,
/// };
/// let mut lines = Noted::new(Vec::new(rt.alloc()));
/// write_list(rt.alloc(), &trie, Form::Distances, nearest, &mut lines)?;
/// assert_eq!(rt; lines.get_ref().as_slice(), b"ab\t1\t0\nac\t2\t1\nb\t3\t1\n");
/// ```
///
/// It validates no bytes. If they are malformed, it writes pairs that it finds there, and which is
/// unspecified. In the order of the trie it reads the part with the prefix. In the order of bytes it reads
/// the part between the bounds of the range or, if there are none and the kind does not ignore case, the
/// part with the prefix, and skips the keys that begin as none of these keys does.
///
/// The error is `Unprintable` exactly if one of these keys can't be printed in the form, and then nothing
/// was written. After another error a beginning of the answer was.
pub fn write_list<W: Write>(
    alloc: Global,
    trie: &TrieRef<'_>,
    form: Form,
    selection: ListQuery<'_>,
    output: &mut Noted<W>,
) -> Result<(), ListError>
    ensures all { OnOk result (AreListed form selection.entry trie.now.kind trie.now.bytes.now
        (W.contents output.old.inner) (W.contents output.new.inner)) }
    ensures err { IfErr result (AreUnlisted form selection.entry trie.now.kind trie.now.bytes.now
        (W.contents output.old.inner) (W.contents output.new.inner)) }
    ensures noted { IsListingNoted result output.old.failed output.new.failed }
{
    match write_selection(alloc, trie, form, selection, output)? {
        None => Ok(()),
        Some(key) => Err(ListError::Unprintable(key)),
    }
}
