//! Messages on a file that is asked.

ghost use Rattle.std.specs.Prelude.{◌≡◌, List, ℕ, false, IfOk, IfSome, IfNone, OnOk};
ghost use Rattle.std.specs.Io.KnownBytes.{Appends};
ghost use Rattle.std.specs.String.{string_bytes};
ghost use Rattle.zerotrie_run.specs.Messages.{IsLineOn, IsNumberLine, TellsAsk, TellsNoTrie, counted_from, fault_words, source_name, tag_words, unprintable_line, unprintable_words};
ghost use Rattle.zerotrie_run.specs.Runs.{HasNumberToo};
ghost use Rattle.zerotrie_run.specs.Told.{TellsMore};

use crate::ask::AskError;
use crate::command::{Question, TrieFile};
use crate::front::Hint;
use crate::messages::key::with_key;
use crate::messages::line::{
    STANDARD_INPUT, STANDARD_OUTPUT, fault_on, line_on, source_name, tell, unwritten,
};
use crate::messages::pairs::other_words;
use crate::stdin_lines::AnswerError;
use std::alloc::{AllocError, Global};
use std::io::Write;
use zerotrie_any::TagError;
use zerotrie_core::{Fault, TrieKind};
use zerotrie_files::Noted;
use zerotrie_queries::{Form, OpenError, of_tagged};
use zerotrie_sealed::{SealError, is_index_number};

/// Returns what the places in a file are counted from.
fn counted_from(file: TrieFile<'_>) -> &'static str
    ensures { result.now ≡ counted_from file.entry.bare }
{
    match file.bare {
        Some(_) => " of the file",
        None => " of the trie in it",
    }
}

/// Returns the rule and the place of the first fault in the bytes of a file.
fn fault_words(
    alloc: Global,
    file: TrieFile<'_>,
    kind: TrieKind,
    fault: Fault,
) -> Result<String, AllocError>
    ensures { IfOk result (λ words. string_bytes words
        ≡ fault_words file.entry.bare kind fault) }
{
    let (kind, why, place) = (kind.name(), fault.cause.text(), fault.place);
    let from = counted_from(file);
    format!(in alloc; "no trie of kind {kind}: {why}, at byte {place}{from}")
}

/// Returns what is said of a file whose kind is not known: which other file it is, that it looks like text,
/// or has no kind.
fn tag_words(why: &TagError, hint: Hint) -> &'static str
    ensures { result.now ≡ tag_words hint why.now }
{
    match (hint, why) {
        (Hint::Text, _) => "it looks like text: build it first",
        (Hint::Other(other), _) => other_words(other),
        (Hint::Nothing, TagError::Empty) => "the file is empty",
        (Hint::Nothing, TagError::InvalidTag) => {
            "not a file of zerotrie build: its first byte is the number of no kind; if it is bare bytes, name their kind by --bare-kind"
        }
    }
}

/// Returns whether a file is sealed as an index, by why it is no sealed trie.
pub fn is_sealed_index(why: SealError) -> bool {
    match why {
        SealError::UnknownKind(number) => is_index_number(number),
        SealError::NoMagic
        | SealError::UnknownVersion(_)
        | SealError::CutShort
        | SealError::TooLong
        | SealError::Checksum => false,
    }
}

/// Returns a line that says that a sealed file is damaged, or holds an index.
fn damaged(alloc: Global, place: &str, why: SealError) -> Result<Vec<u8>, AllocError>
    ensures { IfOk result (λ text. IsLineOn place.now text.items) }
{
    if is_sealed_index(why) {
        return line_on(
            alloc,
            place,
            b"it holds an index, which answers get and verify alone",
        );
    }
    let words = format!(in alloc; "{why}")?;
    line_on(alloc, place, words.as_bytes())
}

/// Returns a line that says why a file has no trie.
pub fn no_trie(
    alloc: Global,
    file: TrieFile<'_>,
    why: &OpenError,
    hint: Hint,
) -> Result<Vec<u8>, AllocError>
    ensures { IfOk result (λ text. TellsNoTrie file.entry why.now hint text.items) }
{
    let path = source_name(file.place);
    match why {
        OpenError::BadTag(why) => line_on(alloc, path, tag_words(why, hint).as_bytes()),
        OpenError::Damaged(why) => damaged(alloc, path, *why),
        OpenError::NotWellFormed(kind, fault) => {
            let words = fault_words(alloc, file, *kind, *fault)?;
            line_on(alloc, path, words.as_bytes())
        }
        OpenError::OutOfMemory => line_on(alloc, path, b"out of memory"),
    }
}

/// Returns the kind whose number a file begins with, if it is read as bare bytes of a kind that was
/// named.
fn number_too(file: TrieFile<'_>, held: &[u8]) -> Option<TrieKind>
    ensures some { IfSome result (λ _. HasNumberToo file.entry.bare held.now) }
    ensures none { IfNone result (HasNumberToo file.entry.bare held.now → ⊥) }
{
    file.bare?;
    let trie = of_tagged(held).ok()?;
    Some(trie.kind)
}

/// Returns a warning if a file that is read as bare bytes begins with the number of a kind. Most often
/// its kind was named again as for its build, and the number is read as the first byte of every key.
fn note_on_number(
    alloc: Global,
    file: TrieFile<'_>,
    held: &[u8],
) -> Result<Option<Vec<u8>>, AllocError>
    ensures some { IfOk result (λ note. IfSome note (λ text.
        IsNumberLine (source_name file.entry.place) text.items)) }
    ensures why { IfOk result (λ note. IfSome note (λ _. HasNumberToo file.entry.bare held.now)) }
    ensures none { IfOk result (λ note. IfNone note (HasNumberToo file.entry.bare held.now → ⊥)) }
{
    let Some(kind) = number_too(file, held) else {
        return Ok(None);
    };
    let name = kind.name();
    let words = format!(in alloc;
        "read as bare bytes, though its first byte is the number of kind {name}: leave out --bare-kind unless every key begins with that byte"
    )?;
    let line = line_on(alloc, source_name(file.place), words.as_bytes())?;
    Ok(Some(line))
}

/// Warns if a file that is read as bare bytes begins with the number of a kind. It fails only if it
/// is out of memory.
pub fn tell_number<M: Write>(
    alloc: Global,
    messages: &mut Noted<M>,
    file: TrieFile<'_>,
    held: &[u8],
) -> Result<(), AllocError>
    ensures quiet { (HasNumberToo file.entry.bare held.now → ⊥) → messages.new ≡ messages.old }
    ensures tells { messages.new.failed ≡ false → (messages.old.failed ≡ false)
        × TellsMore (M.contents messages.old.inner) (M.contents messages.new.inner) }
    ensures notes { OnOk result (messages.new.failed ≡ false
        → HasNumberToo file.entry.bare held.now → (text : List ℕ)
        × IsNumberLine (source_name file.entry.place) text
        × Appends (M.contents messages.old.inner) (M.contents messages.new.inner) text) }
{
    match note_on_number(alloc, file, held)? {
        Some(note) => {
            tell(messages, note.as_slice());
            Ok(())
        }
        None => Ok(()),
    }
}

/// Returns why a form can't have a key, and which one can.
fn unprintable_words(form: Form) -> &'static str
    ensures { result.now ≡ unprintable_words form }
{
    match form {
        Form::Lines(_) => "a key has a tab or a line feed, so leave out --raw: ",
        Form::Json | Form::Distances | Form::Count => {
            "a key is not UTF-8, so take --format jsonl: "
        }
    }
}

/// Returns a line that says that pairs can't be printed in a form, with the key that shows it.
fn unprintable(alloc: Global, place: &str, form: Form, key: &[u8]) -> Result<Vec<u8>, AllocError>
    ensures { IfOk result (λ text. text.items ≡ unprintable_line place.now form key.now) }
{
    let words = with_key(alloc, unprintable_words(form), key)?;
    line_on(alloc, place, words.as_slice())
}

/// Returns a line that says why a question has no answer.
pub fn ask_text(alloc: Global, file: TrieFile<'_>, error: &AskError) -> Result<Vec<u8>, AllocError>
    ensures { IfOk result (λ text. TellsAsk file.entry error.now text.items) }
{
    let path = source_name(file.place);
    match error {
        AskError::Unread(error) => fault_on(alloc, path, error),
        AskError::NoTrie(why, hint) => no_trie(alloc, file, why, *hint),
        AskError::Unprintable(form, key) => unprintable(alloc, path, *form, key.as_slice()),
        AskError::Unanswered(AnswerError::Input(error)) => fault_on(alloc, STANDARD_INPUT, error),
        AskError::Unanswered(AnswerError::NoLines(other)) => {
            line_on(alloc, STANDARD_INPUT, other_words(*other).as_bytes())
        }
        AskError::Unanswered(AnswerError::Output(error)) => unwritten(
            alloc,
            STANDARD_OUTPUT,
            error,
        ),
    }
}

/// Returns whether a file that is tested in full holds an index. Only one that is malformed is an
/// error of the test.
fn is_index(question: Question<'_>, why: SealError) -> bool {
    match question {
        Question::Verify => is_sealed_index(why),
        Question::LookUp(_, _)
        | Question::List(_, _)
        | Question::Code(_, _)
        | Question::Report(_, _)
        | Question::View(_) => false,
    }
}

/// Returns a line that says why this question has no answer.
pub fn question_text(
    alloc: Global,
    file: TrieFile<'_>,
    question: Question<'_>,
    error: &AskError,
) -> Result<Vec<u8>, AllocError>
    ensures { IfOk result (λ text. TellsAsk file.entry error.now text.items) }
{
    match error {
        AskError::NoTrie(OpenError::Damaged(why), _) if is_index(question, *why) => line_on(
            alloc,
            source_name(file.place),
            b"the index in it is malformed",
        ),
        AskError::Unread(_)
        | AskError::NoTrie(_, _)
        | AskError::Unprintable(_, _)
        | AskError::Unanswered(_) => ask_text(alloc, file, error),
    }
}
