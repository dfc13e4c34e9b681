//! Opens the trie or the index that is in the bytes of a file.

ghost use Rattle.std.specs.Prelude.{◌≡◌, ◌↔◌, ℕ, List, IfOk, IfErr, IfSome, IfNone, IsTrue};
ghost use Rattle.zerotrie_queries.specs.declared.file.OpenError.TheVariants.{Damaged};
ghost use Rattle.zerotrie_run.specs.Runs.{Opens, OpensBy, OpensFor, ExplainsInFull, IsUnasked, IsUnopened, asks_index};
ghost use Rattle.zerotrie_run.specs.Runs.Content.{of_index};
ghost use Rattle.zerotrie_run.specs.declared.command.Check.TheVariants.{Full};
ghost use Rattle.zerotrie_sealed.specs.Sealed.{IsIndexNumber};
ghost use Rattle.zerotrie_sealed.specs.declared.reading.SealError.TheVariants.{UnknownKind};

use crate::command::{Check, Question, TrieFile};
use std::alloc::Global;
use zerotrie_core::{Trie, TrieKind, TrieRef};
use zerotrie_index::is_well_formed;
use zerotrie_queries::{OpenError, open_unchecked};
use zerotrie_sealed::laws::one_index;
use zerotrie_sealed::{SealError, is_index_number};

/// Opens the trie in the bytes of a file, and validates its bytes, also if they are sealed.
pub fn open_in_full(
    alloc: Global,
    bare: Option<TrieKind>,
    held: &[u8],
) -> Result<TrieRef<'_>, OpenError>
    ensures ok { IfOk result (λ trie. OpensBy Full bare held.now trie.kind trie.bytes.now) }
    ensures err { IfErr result (ExplainsInFull bare held.now) }
{
    let trie = open_unchecked(bare, held)?;
    if trie.is_well_formed() {
        return Ok(trie);
    }
    match trie.first_fault(alloc) {
        Ok(Some(fault)) => Err(OpenError::NotWellFormed(trie.kind, fault)),
        Ok(None) => Ok(trie),
        Err(_) => Err(OpenError::OutOfMemory),
    }
}

/// Opens the trie in the bytes of a file, by the test that is asked for.
fn open<'a>(alloc: Global, file: TrieFile<'_>, held: &'a [u8]) -> Result<TrieRef<'a>, OpenError>
    ensures ok { IfOk result (λ trie. Opens file.entry held.now trie.kind trie.bytes.now) }
    ensures err { IfErr result (IsUnopened file.entry held.now) }
{
    match file.check {
        Check::Skip => open_unchecked(file.bare, held),
        Check::Usual => zerotrie_queries::open(alloc, file.bare, held),
        Check::Full => open_in_full(alloc, file.bare, held),
    }
}

/// Returns whether an index answers a question.
pub fn asks_index(question: Question<'_>) -> bool
    ensures { result ≡ asks_index question.entry }
{
    match question {
        Question::LookUp(query, _) => query.asked.asks_keys(),
        Question::Verify => true,
        Question::List(_, _) | Question::Code(_, _) | Question::Report(_, _) | Question::View(_) =>
            false,
    }
}

/// Returns the index in the bytes of a file, if it answers the question. A test in full validates
/// its bytes.
pub fn open_index<'a>(
    file: TrieFile<'_>,
    question: Question<'_>,
    held: &'a [u8],
) -> Option<&'a [u8]>
    ensures some { IfSome result (λ bytes.
        OpensFor file.entry question.entry held.now (of_index bytes.now)) }
    ensures none { IfNone result ((bytes : List ℕ)
        → OpensFor file.entry question.entry held.now (of_index bytes) → ⊥) }
{
    one_index();
    if file.bare.is_some() || !asks_index(question) {
        return None;
    }
    let bytes = match zerotrie_sealed::open_index(held) {
        Ok(bytes) => bytes,
        Err(_) => return None,
    };
    match file.check {
        Check::Full if !is_well_formed(bytes) => None,
        _ => Some(bytes),
    }
}

/// Returns whether a file is sealed as an index, by why it has no trie.
fn is_index(why: &OpenError) -> bool
    ensures { IsTrue result ↔ ((number : ℕ) × IsIndexNumber number
        × (why.now ≡ Damaged (UnknownKind number))) }
{
    match why {
        OpenError::Damaged(SealError::UnknownKind(number)) => is_index_number(*number),
        OpenError::Damaged(_)
        | OpenError::BadTag(_)
        | OpenError::NotWellFormed(_, _)
        | OpenError::OutOfMemory => false,
    }
}

/// Opens the trie in the bytes of a file. If they are a damaged index, and an index answers the
/// question, the error says what is wrong with its seal.
pub fn open_trie<'a>(
    alloc: Global,
    file: TrieFile<'_>,
    question: Question<'_>,
    held: &'a [u8],
) -> Result<TrieRef<'a>, OpenError>
    ensures ok { IfOk result (λ trie. Opens file.entry held.now trie.kind trie.bytes.now) }
    ensures err { IfErr result (IsUnasked file.entry question.entry held.now) }
{
    let why = match open(alloc, file, held) {
        Ok(trie) => return Ok(trie),
        Err(why) => why,
    };
    if is_index(&why) && asks_index(question) {
        if let Err(fault) = zerotrie_sealed::open_index(held) {
            return Err(OpenError::Damaged(fault));
        }
    }
    Err(why)
}
