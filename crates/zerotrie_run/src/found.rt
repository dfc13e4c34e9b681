//! Listings, and whether they have a pair.

ghost use Rattle.std.specs.Prelude.{◌≡◌, IfOk, IfErr, OnOk};
ghost use Rattle.zerotrie_files.specs.Faults.{IsOutOfMemory};
ghost use Rattle.zerotrie_queries.specs.Listed.{AreListed, AreUnlisted, IsListingNoted};
ghost use Rattle.zerotrie_run.specs.Runs.{AreFound, limit_shown};

use std::alloc::Global;
use std::io;
use std::io::{ErrorKind, Write};
use zerotrie_core::TrieRef;
use zerotrie_files::Noted;
use zerotrie_queries::{Form, ListError, ListQuery, Style, write_list};

/// Returns whether a listing has a pair: it reads up to the first one.
#[tactic(auto, using(crate::proofs::FoundLemmas::none_found, crate::proofs::FoundLemmas::none_topped))]
fn finds_pair(alloc: Global, trie: &TrieRef<'_>, selection: ListQuery<'_>) -> io::Result<bool>
    ensures found { IfOk result (AreFound selection.entry trie.now.kind trie.now.bytes.now) }
    ensures memory { IfErr result IsOutOfMemory }
{
    if selection.top == Some(0) {
        return Ok(false);
    }
    if selection.limit == Some(0) {
        return Ok(false);
    }
    let mut lines = Noted::new(Vec::new(alloc));
    let first = ListQuery {
        top: None,
        limit: Some(1),
        ..selection
    };
    match write_list(alloc, trie, Form::Lines(Style::Keys), first, &mut lines) {
        Ok(()) => Ok(!lines.get_ref().as_slice().is_empty()),
        // a line can have any key, and only memory can fail
        Err(ListError::Unprintable(_) | ListError::Failed(_)) => {
            Err(io::Error::from(ErrorKind::OutOfMemory))
        }
    }
}

/// Returns the limit of a listing that has a pair or none: one that has none is not searched again.
fn limit_shown(found: bool, limit: Option<usize>) -> Option<usize>
    ensures { result ≡ limit_shown found limit }
{
    if found { limit } else { Some(0) }
}

/// Writes a listing, as `write_list` does, and returns whether it has a pair.
pub fn write_found<W: Write>(
    alloc: Global,
    trie: &TrieRef<'_>,
    form: Form,
    selection: ListQuery<'_>,
    output: &mut Noted<W>,
) -> Result<bool, ListError>
    ensures found { IfOk result (AreFound selection.entry trie.now.kind trie.now.bytes.now) }
    ensures all { OnOk result (AreListed form selection.entry trie.now.kind trie.now.bytes.now
        (W.contents output.old.inner) (W.contents output.new.inner)) }
    ensures err { IfErr result (AreUnlisted form selection.entry trie.now.kind trie.now.bytes.now
        (W.contents output.old.inner) (W.contents output.new.inner)) }
    ensures noted { IsListingNoted result output.old.failed output.new.failed }
{
    let has_one = match finds_pair(alloc, trie, selection) {
        Ok(found) => found,
        Err(error) => return Err(ListError::Failed(error)),
    };
    let shown = ListQuery {
        limit: limit_shown(has_one, selection.limit),
        ..selection
    };
    match write_list(alloc, trie, form, shown, output) {
        Ok(()) => Ok(has_one),
        Err(error) => Err(error),
    }
}
