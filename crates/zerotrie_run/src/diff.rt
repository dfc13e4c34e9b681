//! A comparison of the tries of two files.

ghost use Rattle.std.specs.Prelude.{◌≡◌, ◌≤◌, ◌⊎◌, ◌+◌, true, false, Ok, Err, IfOk, IfErr};
ghost use Rattle.std.specs.Io.Buffered.{writer_contents};
ghost use Rattle.zerotrie_core.specs.Kinds.{kind_of};
ghost use Rattle.zerotrie_core.specs.WellFormed.{IsWellFormed};
ghost use Rattle.zerotrie_files.specs.Notes.{NothingFailed, SameReads};
ghost use Rattle.zerotrie_run.specs.Failures.{AskFailed, ReadFailed, WriteFailed};
ghost use Rattle.zerotrie_run.specs.Diffs.{old_file, new_file, IsEitherDoubtful, IsDiffed, EndsDiff, diff_fails, TellsIfDoubtful, NotesNumbers, IsUnread, HasNoTrieIn, AreHeldCompared, AreUncompared};
ghost use Rattle.zerotrie_run.specs.Runs.{AreFiles, AreOneStream, HandsOn, IsDoubtful, IsRead, Opens, ask_refusal};
ghost use Rattle.zerotrie_run.specs.Told.{HasDiffReason, TellsMore};
ghost use Rattle.zerotrie_run.specs.declared.command.Check.TheVariants.{Full};
ghost use Rattle.zerotrie_run.specs.declared.command.Place.TheVariants.{Stream};

use crate::ask::AskError;
use crate::command::{Check, Diff, TrieFile};
use crate::front::{hint_of, refused_by_front};
use crate::messages::ask::tell_number;
use crate::open::open_in_full;
use crate::place::{open_place, read_opened};
use crate::stdin_lines::AnswerError;
use std::alloc::Global;
use std::io;
use std::io::{BufWriter, Read, Write};
use zerotrie_core::TrieRef;
use zerotrie_files::{Disk, Noted, Store};
use zerotrie_queries::write_diff;

/// Why two files are not compared, and which of them shows it.
#[derive(Debug, Drop)]
pub struct DiffError<'a> {
    pub file: TrieFile<'a>,
    pub error: AskError,
}

/// Returns the file of the old trie.
fn old_file<'a>(diff: Diff<'a>) -> TrieFile<'a>
    ensures { result ≡ old_file diff.entry }
{
    TrieFile {
        place: diff.old,
        bare: diff.bare,
        check: Check::Full,
    }
}

/// Returns the file of the new trie.
fn new_file<'a>(diff: Diff<'a>) -> TrieFile<'a>
    ensures { result ≡ new_file diff.entry }
{
    TrieFile {
        place: diff.new,
        bare: diff.bare,
        check: Check::Full,
    }
}

/// Reads a file, unless its first bytes show that it has no trie. If it is read as bare bytes and begins with the number of a kind, a message says
/// so.
fn read_file<'a, D: Disk, R: Read, M: Write>(
    alloc: Global,
    file: TrieFile<'a>,
    files: &mut Store<D>,
    input: &mut Noted<R>,
    messages: &mut Noted<M>,
) -> Result<Vec<u8>, DiffError<'a>>
    ensures read { IfOk result (λ held. IsRead file.entry.place (R.remaining input.old.inner)
        (D.story files.old.disk) held.items) }
    ensures err { IfErr result (λ e. (e.file ≡ file.entry)
        × IsUnread file.entry (D.story files.old.disk) e.error) }
    ensures failed { IfErr result (λ e. AskFailed (ReadFailed input.new files.new) ⊥ e.error) }
    ensures same { files.new.disk ≡ files.old.disk }
    ensures untouched { (file.entry.place ≡ Stream) ⊎ (input.new ≡ input.old) }
    ensures once { files.new.opened ≤ files.old.opened + 1 }
    ensures noted { diff_fails result ≡ false
        → SameReads input.old input.new files.old files.new }
    ensures unwritten { files.new.unwritten ≡ files.old.unwritten }
    ensures notes { IfOk result (λ held. messages.new.failed ≡ false
        → TellsIfDoubtful file.entry held.items
        (M.contents messages.old.inner) (M.contents messages.new.inner)) }
    ensures tells { messages.new.failed ≡ false → (messages.old.failed ≡ false)
        × TellsMore (M.contents messages.old.inner) (M.contents messages.new.inner) }
    ensures quiet { (IsDoubtful file.entry (R.remaining input.old.inner)
        (D.story files.old.disk) → ⊥) → messages.new ≡ messages.old }
{
    let opened = match open_place(file.place, files) {
        Ok(opened) => opened,
        Err(error) => {
            return Err(DiffError {
                file,
                error: AskError::Unread(error),
            });
        }
    };
    if let Some((why, hint)) = refused_by_front(file, false, &opened) {
        return Err(DiffError {
            file,
            error: AskError::NoTrie(why, hint),
        });
    }
    let held = match read_opened(alloc, opened, files, input) {
        Ok(held) => held,
        Err(error) => {
            return Err(DiffError {
                file,
                error: AskError::Unread(error),
            });
        }
    };
    match tell_number(alloc, messages, file, held.as_slice()) {
        Ok(()) => Ok(held),
        Err(error) => Err(DiffError {
            file,
            error: AskError::Unread(io::Error::from(error)),
        }),
    }
}

/// Opens the trie in the bytes of a file that is tested in full.
fn open_file<'a, 'h>(
    alloc: Global,
    file: TrieFile<'a>,
    held: &'h [u8],
) -> Result<TrieRef<'h>, DiffError<'a>>
    requires { file.check ≡ Full }
    ensures opens { IfOk result (λ trie. Opens file.entry held.now trie.kind trie.bytes.now) }
    ensures valid { IfOk result (λ trie. IsWellFormed (kind_of trie.kind) trie.bytes.now) }
    ensures err { IfErr result (λ e. (e.file ≡ file.entry)
        × HasNoTrieIn file.entry held.now e.error) }
{
    match open_in_full(alloc, file.bare, held) {
        Ok(trie) => Ok(trie),
        Err(why) => Err(DiffError {
            file,
            error: AskError::NoTrie(why, hint_of(held)),
        }),
    }
}

/// Compares the tries in the bytes of two files, and returns whether they have the same pairs.
fn compare_held<'a, W: Write>(
    alloc: Global,
    diff: Diff<'a>,
    held: &[u8],
    other: &[u8],
    output: &mut Noted<W>,
) -> Result<bool, DiffError<'a>>
    ensures ok { IfOk result (AreHeldCompared diff.entry held.now other.now
        (W.contents output.old.inner) (W.contents output.new.inner)) }
    ensures err { IfErr result (AreUncompared diff.entry held.now other.now
        (W.contents output.old.inner) (W.contents output.new.inner)) }
    ensures noted { diff_fails result ≡ false → output.new.failed ≡ output.old.failed }
    ensures failed { IfErr result (λ e. AskFailed ⊥ (output.new.failed ≡ true) e.error) }
{
    let old = open_file(alloc, old_file(diff), held)?;
    let new = open_file(alloc, new_file(diff), other)?;
    match write_diff(alloc, &old, &new, output) {
        Ok(same) => Ok(same),
        Err(error) => Err(DiffError {
            file: new_file(diff),
            error: AskError::Unanswered(AnswerError::Output(error)),
        }),
    }
}

/// Compares the tries in the bytes of two files, hands on what is printed, and returns whether they
/// have the same pairs.
fn compare_and_hand_on<'a, W: Write + Drop>(
    alloc: Global,
    diff: Diff<'a>,
    held: &[u8],
    other: &[u8],
    output: &mut Noted<BufWriter<W>>,
) -> Result<bool, DiffError<'a>>
    ensures ok { IfOk result (AreHeldCompared diff.entry held.now other.now
        (writer_contents W.contents output.old.inner)
        (writer_contents W.contents output.new.inner)) }
    ensures err { IfErr result (AreUncompared diff.entry held.now other.now
        (writer_contents W.contents output.old.inner)
        (writer_contents W.contents output.new.inner)) }
    ensures handed { IfOk result (λ _. HandsOn output.old.inner output.new.inner) }
    ensures noted { diff_fails result ≡ false → output.new.failed ≡ output.old.failed }
    ensures failed { IfErr result (λ e. AskFailed ⊥ (output.new.failed ≡ true) e.error) }
{
    let same = compare_held(alloc, diff, held, other, output)?;
    match output.hand_on() {
        Ok(()) => Ok(same),
        Err(error) => Err(DiffError {
            file: new_file(diff),
            error: AskError::Unanswered(AnswerError::Output(error)),
        }),
    }
}

/// Compares the tries of two files, and returns whether they have the same pairs. Not both files are
/// standard input.
pub fn compare<'a, D: Disk, R: Read, W: Write + Drop, M: Write>(
    alloc: Global,
    diff: Diff<'a>,
    files: &mut Store<D>,
    input: &mut Noted<R>,
    output: &mut Noted<BufWriter<W>>,
    messages: &mut Noted<M>,
) -> Result<bool, DiffError<'a>>
    requires { AreOneStream diff.old diff.new → ⊥ }
    ensures ok { IfOk result (IsDiffed diff.entry (R.remaining input.old.inner)
        (D.story files.old.disk) (writer_contents W.contents output.old.inner)
        (writer_contents W.contents output.new.inner)) }
    ensures err { IfErr result (λ e. EndsDiff diff.entry (R.remaining input.old.inner)
        (D.story files.old.disk) (writer_contents W.contents output.old.inner)
        (writer_contents W.contents output.new.inner) (ask_refusal e.error)) }
    ensures why { IfErr result (HasDiffReason diff.entry (R.remaining input.old.inner)
        (D.story files.old.disk)) }
    ensures same { files.new.disk ≡ files.old.disk }
    ensures handed { IfOk result (λ _. HandsOn output.old.inner output.new.inner) }
    ensures notes { IfOk result (λ _. messages.new.failed ≡ false
        → NotesNumbers diff.entry (R.remaining input.old.inner) (D.story files.old.disk)
        (M.contents messages.old.inner) (M.contents messages.new.inner)) }
    ensures tells { messages.new.failed ≡ false → (messages.old.failed ≡ false)
        × TellsMore (M.contents messages.old.inner) (M.contents messages.new.inner) }
    ensures quiet { (IsEitherDoubtful diff.entry (R.remaining input.old.inner)
        (D.story files.old.disk) → ⊥) → messages.new ≡ messages.old }
    ensures once { files.new.opened ≤ files.old.opened + 2 }
    ensures noted { diff_fails result ≡ false
        → NothingFailed input.old input.new output.old output.new files.old files.new }
    ensures failed { IfErr result (λ e. AskFailed (ReadFailed input.new files.new)
        (WriteFailed output.new files.new) e.error) }
    ensures unread { AreFiles diff.entry.old diff.entry.new → input.new ≡ input.old }
{
    let held = read_file(alloc, old_file(diff), files, input, messages)?;
    let other = read_file(alloc, new_file(diff), files, input, messages)?;
    compare_and_hand_on(alloc, diff, held.as_slice(), other.as_slice(), output)
}
