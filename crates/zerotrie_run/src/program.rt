//! The program over files and streams.

ghost use Rattle.std.specs.Prelude.{◌≡◌, ◌≤◌, ◌<◌, ◌⊎◌, ◌+◌, false, true, unwrap_or, IfErr, IfOk};
ghost use Rattle.std.specs.Io.KnownBytes.{Appends};
ghost use Rattle.std.specs.Io.Buffered.{writer_contents};
ghost use Rattle.zerotrie_files.specs.Notes.{NothingFailed};
ghost use Rattle.zerotrie_run.specs.Runs.{HandsOn, world};
ghost use Rattle.zerotrie_run.specs.Failures.{ReadFailed, WasClosed, WriteFailed};
ghost use Rattle.zerotrie_run.specs.Commands.{Ends, LeavesInput, LeavesInputBy, ReadsTwice, Runs, TellsNumber, command_fails, command_refusal, found, inputs, refusal_of, tells_made};
ghost use Rattle.zerotrie_run.specs.Statuses.{failure_of, number_of};
ghost use Rattle.zerotrie_run.specs.Told.{HasCommandCause, IsTold, Notes, TellsMore, ended, last_text};
ghost use Rattle.zerotrie_run.specs.declared.status.Status.TheVariants.{Done, Absent, BadUsage, Unread, Unwritten, Closed};

use crate::ask::ask;
use crate::command::{Command, reads_twice};
use crate::diff::compare;
use crate::error::CommandError;
use crate::making::{Making, Recipe, make_file};
use crate::messages::line::{NO_MEMORY, tell, twice_line};
use crate::status::Status;
use std::alloc::{AllocError, Global};
use std::io::{BufWriter, Read, Write};
use zerotrie_files::{Disk, Noted, Store};

/// Returns how a run ends in which something failed: by the notes of the files and streams. If none of
/// them failed, it is out of memory.
fn failure<D: Disk, R: Read, W: Write + Drop>(
    files: &Store<D>,
    input: &Noted<R>,
    output: &Noted<BufWriter<W>>,
) -> Status
    ensures { result ≡ failure_of input.now output.now files.now }
{
    if input.failed() || files.unread() {
        Status::Unread
    } else if output.failed() || files.unwritten() {
        if output.closed() || files.closed() {
            Status::Closed
        } else {
            Status::Unwritten
        }
    } else {
        Status::OutOfMemory
    }
}

/// Returns how a run ends that is refused so, or in which something failed.
fn end_of<D: Disk, R: Read, W: Write + Drop>(
    refusal: Option<Status>,
    files: &Store<D>,
    input: &Noted<R>,
    output: &Noted<BufWriter<W>>,
) -> Status
    ensures { result ≡ unwrap_or refusal (failure_of input.now output.now files.now) }
{
    match refusal {
        Some(status) => status,
        None => failure(files, input, output),
    }
}

/// Says why a run ends so, and returns how it ends: without memory for the message it is out of
/// memory. Says nothing if whoever reads the output has closed it.
fn end<M: Write>(
    messages: &mut Noted<M>,
    status: Status,
    message: Result<Vec<u8>, AllocError>,
) -> Status
    ensures status { result ≡ ended status message }
    ensures told { messages.new.failed ≡ false → (messages.old.failed ≡ false)
        × ((result ≡ Closed) ⊎ Appends (M.contents messages.old.inner)
        (M.contents messages.new.inner) (last_text message)) }
{
    match message {
        Ok(text) => match status {
            Status::Closed => status,
            _ => {
                tell(messages, text.as_slice());
                status
            }
        },
        Err(_) => {
            tell(messages, NO_MEMORY);
            Status::OutOfMemory
        }
    }
}

/// Carries out a command that does not read standard input twice, and returns whether all was found.
fn carry_out<'a, D: Disk, R: Read, W: Write + Drop, M: Write>(
    alloc: Global,
    command: Command<'a>,
    files: &mut Store<D>,
    input: &mut Noted<R>,
    output: &mut Noted<BufWriter<W>>,
    messages: &mut Noted<M>,
) -> Result<bool, CommandError<'a>>
    requires { ReadsTwice command → ⊥ }
    ensures ok { IfOk result (λ all. Runs command.entry (R.remaining input.old.inner)
        (world (D.story files.old.disk) (writer_contents W.contents output.old.inner))
        (world (D.story files.new.disk) (writer_contents W.contents output.new.inner)) (found all)) }
    ensures err { IfErr result (λ e. Ends command.entry (R.remaining input.old.inner)
        (world (D.story files.old.disk) (writer_contents W.contents output.old.inner))
        (world (D.story files.new.disk) (writer_contents W.contents output.new.inner))
        (command_refusal e)) }
    ensures handed { IfOk result (λ _. HandsOn output.old.inner output.new.inner) }
    ensures why { IfErr result (HasCommandCause command.entry (R.remaining input.old.inner)
        (D.story files.old.disk)) }
    ensures notes { IfOk result (λ _. messages.new.failed ≡ false
        → Notes command.entry (R.remaining input.old.inner) (D.story files.old.disk)
        (M.contents messages.old.inner) (M.contents messages.new.inner)) }
    ensures tells { IfErr result (λ _. messages.new.failed ≡ false
        → TellsMore (M.contents messages.old.inner) (M.contents messages.new.inner)) }
    ensures quiet { IfOk result (λ _. tells_made command.entry ≡ false
        → (TellsNumber command.entry (R.remaining input.old.inner) (D.story files.old.disk) → ⊥)
        → messages.new ≡ messages.old) }
    ensures once { files.new.opened ≤ files.old.opened + inputs command.entry }
    ensures noted { command_fails result ≡ false
        → NothingFailed input.old input.new output.old output.new files.old files.new }
    ensures unread { LeavesInputBy command.entry (refusal_of result) → input.new ≡ input.old }
{
    match command {
        Command::Build(build) => {
            let from = [build.from];
            let making = Making {
                from: &from,
                recipe: Recipe::Pairs(build.plan),
                to: build.to,
                no_clobber: build.no_clobber,
                summary: build.summary,
            };
            match make_file(alloc, making, files, input, output, messages) {
                Ok(()) => Ok(true),
                Err(error) => Err(CommandError::Build(build, error)),
            }
        }
        Command::Ask(file, question) => {
            match ask(alloc, file, question, files, input, output, messages) {
                Ok(all) => Ok(all),
                Err(error) => Err(CommandError::Ask(file, question, error)),
            }
        }
        Command::Diff(diff) => match compare(alloc, diff, files, input, output, messages) {
            Ok(same) => Ok(same),
            Err(error) => Err(CommandError::Diff(diff, error)),
        },
        Command::Combine(combine) => {
            let making = Making {
                from: combine.from,
                recipe: Recipe::Tries(combine.combination),
                to: combine.to,
                no_clobber: combine.no_clobber,
                summary: combine.summary,
            };
            match make_file(alloc, making, files, input, output, messages) {
                Ok(()) => Ok(true),
                Err(error) => Err(CommandError::Combine(combine, error)),
            }
        }
    }
}

/// Runs a command, and returns how it ended. A message says what is wrong, after the name of the file
/// or stream that it is about.
///
/// `Runs` defines what is printed and what files hold then, by the command, the files and the
/// input. After a fault a beginning of it was printed, or nothing.
///
/// It ends in `Unread` only if a read of a file or of standard input failed, and in `Unwritten` or
/// `Closed` only if a replacement of a file or a write to the output did: in `Closed` if it failed
/// because the reader has closed the pipe. If nothing failed, it ends by itself or in `OutOfMemory`.
/// If one of these did, its number is 3 or 4: otherwise nothing failed that the files and streams
/// note. A message that can't be written changes nothing. It opens no more files to read than the command
/// names.
///
/// After success, or if a key is absent, no pair is listed or pairs differ, the buffer is flushed if it
/// was empty before. The only messages are then what a build or a combination made, as its summary says,
/// how many files it removed that killed builds of its file left, unless it is to say nothing, and a
/// warning for a file that is read as bare bytes and begins with the number of a kind. If the file and the
/// keys, or two of the files, are standard input, the usage is bad. Standard input is not read unless the
/// command needs it; keys are not read from it if nothing in the file answers.
pub fn run<D: Disk, R: Read, W: Write + Drop, M: Write>(
    alloc: Global,
    command: Command<'_>,
    files: &mut Store<D>,
    input: &mut Noted<R>,
    output: &mut Noted<BufWriter<W>>,
    messages: &mut Noted<M>,
) -> Status
    ensures runs { Runs command.entry (R.remaining input.old.inner)
        (world (D.story files.old.disk)
        (writer_contents W.contents output.old.inner))
        (world (D.story files.new.disk)
        (writer_contents W.contents output.new.inner)) result }
    ensures read_failed { result ≡ Unread → ReadFailed input.new files.new }
    ensures write_failed { result ≡ Unwritten → WriteFailed output.new files.new }
    ensures closed { result ≡ Closed → WriteFailed output.new files.new }
    ensures pipe_closed { result ≡ Closed → WasClosed output.new files.new }
    ensures not_closed { result ≡ Unwritten → WasClosed output.new files.new → ⊥ }
    ensures failed { number_of result < 3
        → NothingFailed input.old input.new output.old output.new files.old files.new }
    ensures once { files.new.opened ≤ files.old.opened + inputs command.entry }
    ensures handed { (result ≡ Done) ⊎ (result ≡ Absent)
        → HandsOn output.old.inner output.new.inner }
    ensures told { messages.new.failed ≡ false
        → IsTold command.entry (R.remaining input.old.inner) (D.story files.old.disk)
        (M.contents messages.old.inner) (M.contents messages.new.inner) result }
    ensures notes { (result ≡ Done) ⊎ (result ≡ Absent) → messages.new.failed ≡ false
        → Notes command.entry (R.remaining input.old.inner) (D.story files.old.disk)
        (M.contents messages.old.inner) (M.contents messages.new.inner) }
    ensures quiet { tells_made command.entry ≡ false
        → (TellsNumber command.entry (R.remaining input.old.inner) (D.story files.old.disk) → ⊥)
        → (result ≡ Done) ⊎ (result ≡ Absent) → messages.new ≡ messages.old }
    ensures usage { ReadsTwice command.entry → result ≡ BadUsage }
    ensures unread { LeavesInput command.entry result → input.new ≡ input.old }
{
    if reads_twice(command) {
        tell(messages, twice_line(command));
        return Status::BadUsage;
    }
    match carry_out(alloc, command, files, input, output, messages) {
        Ok(true) => Status::Done,
        Ok(false) => Status::Absent,
        Err(error) => {
            let status = end_of(error.refusal(), files, input, output);
            end(messages, status, error.text(alloc))
        }
    }
}
