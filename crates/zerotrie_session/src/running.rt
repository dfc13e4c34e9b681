//! One run of the program, over a reader and a writer.

ghost use Rattle.std.specs.Prelude.{◌≡◌, ◌≢◌, ◌↔◌, ℕ, List, false, true, IfOk, IfErr, IfSome, IsSome, IsErrOf};
ghost use Rattle.std.specs.Io.KnownBytes.{Appends};
ghost use Rattle.zerotrie_session.specs.Answers.{Answers};
ghost use Rattle.zerotrie_session.specs.BadLines.{HasBadLine};
ghost use Rattle.zerotrie_session.specs.declared.running.RunError.TheVariants.{OutOfMemory};

use crate::answer::answer_all;
use crate::command::BadLine;
use crate::noted::Noted;
use std::alloc::{AllocError, Global};
use std::io::{Read, Write};
use thiserror::Error;

/// Why a run failed.
#[derive(Clone, PartialEq, Eq, Debug, Drop, Error)]
pub enum RunError {
    /// The reader failed.
    #[error("Read")]
    Read,
    /// The writer failed.
    #[error("Write")]
    Write,
    /// An allocation failed, outside of a build.
    #[error("OutOfMemory")]
    OutOfMemory,
}

impl RunError {
    ghost use Rattle.zerotrie_session.specs.Faults.{fault_text};

    /// Returns the message for standard error.
    pub fn message(&self) -> &'static str
        ensures { result.now ≡ fault_text self.now }
    {
        match self {
            RunError::Read => "read failed",
            RunError::Write => "write failed",
            RunError::OutOfMemory => "out of memory",
        }
    }
}

impl From<AllocError> for RunError {
    ghost from_gives = { λ _ e. e ≡ OutOfMemory };

    fn from(_: AllocError) -> Self {
        RunError::OutOfMemory
    }
}

/// Reads all of the input.
fn read_all<R: Read>(alloc: Global, reader: &mut Noted<R>) -> Result<Vec<u8>, RunError>
    requires { reader.old.failed ≡ false }
    ensures flag { reader.new.failed ≡ true ↔ IsErrOf result RunError.Read }
    ensures ok { IfOk result (λ input.
        IfSome (R.remaining reader.old.inner) (λ known. input.items ≡ known)) }
    ensures err { IfErr result (λ e. e ≢ RunError.Write) }
    ensures endless { reader.new.ended ≡ false → reader.new.failed ≡ false
        → IsErrOf result RunError.OutOfMemory }
{
    let mut input: Vec<u8> = Vec::new(alloc);
    let mut chunk = [0u8; 1024];
    loop {
        let Ok(count) = reader.read(&mut chunk) else {
            return Err(RunError::Read);
        };
        if count == 0 {
            return Ok(input);
        }
        input.extend_from_slice(&chunk[..count])?;
    }
}

/// How a run ended that wrote its output.
#[derive(Clone, Copy, PartialEq, Eq, Debug)]
pub struct Ended {
    /// The status to end with.
    pub status: u8,
    /// The number of the bad line that ended the run, from 1 on, and why it is bad.
    pub bad: Option<(usize, BadLine)>,
}

/// Reads all of the input, then writes the output. Returns the status to end with.
///
/// ```text
/// kind simple     chooses a kind of trie: simple, ignore, hash, ext or auto
/// + 22 ad         adds a pair
/// build           builds the trie of the pairs, and prints ok 4 61649006: its length and its bytes
/// ? ad            prints 22, the number of the key, or none
/// list            prints 22 6164, the value of each pair and its key in hexadecimal
/// walk s61 p0 t   prints s61 p64/1 t22: a step by a byte, a probe of edge 0 of 1, and the value taken
/// ```
///
/// - An empty line is skipped and counted.
/// - A second `kind` begins anew: without pairs, and with the empty trie.
/// - A build takes all pairs since `kind`. If it fails, it prints why, and leaves the empty trie.
/// - A listing has the order of the trie, or of the bytes of the keys if the kind is `auto`.
/// - A walk is one or more calls of a cursor with one space between them. `auto` has no walks.
/// - Any other line is bad, and so is every line but an empty one before the first `kind`. `bad
///   line N` ends the run; `run_explained` returns why.
/// - The status is 2 after a bad line, else 1 if a build failed, else 0.
///
/// Before any error but `Write`, nothing was written. If the reader neither ends nor fails, the error
/// is `OutOfMemory`.
pub fn run<R: Read, W: Write>(
    alloc: Global,
    reader: &mut Noted<R>,
    writer: &mut Noted<W>,
) -> Result<u8, RunError>
    requires reader_is_fresh { reader.old.failed ≡ false }
    requires writer_is_fresh { writer.old.failed ≡ false }
    ensures read { reader.new.failed ≡ true ↔ IsErrOf result RunError.Read }
    ensures write { writer.new.failed ≡ true ↔ IsErrOf result RunError.Write }
    ensures ok { IfOk result (λ status. IfSome (R.remaining reader.old.inner) (λ input.
        (output : List ℕ) × Answers input output status
        × Appends (W.contents writer.old.inner) (W.contents writer.new.inner) output)) }
    ensures unwritten { IfErr result (λ e. e ≢ RunError.Write → writer.new ≡ writer.old) }
    ensures endless { reader.new.ended ≡ false → reader.new.failed ≡ false
        → IsErrOf result RunError.OutOfMemory }
{
    Ok(run_explained(alloc, reader, writer)?.status)
}

/// Does what `run` does, and returns also why a bad line ended the run.
pub fn run_explained<R: Read, W: Write>(
    alloc: Global,
    reader: &mut Noted<R>,
    writer: &mut Noted<W>,
) -> Result<Ended, RunError>
    requires reader_is_fresh { reader.old.failed ≡ false }
    requires writer_is_fresh { writer.old.failed ≡ false }
    ensures read { reader.new.failed ≡ true ↔ IsErrOf result RunError.Read }
    ensures write { writer.new.failed ≡ true ↔ IsErrOf result RunError.Write }
    ensures ok { IfOk result (λ ended. IfSome (R.remaining reader.old.inner) (λ input.
        (output : List ℕ) × Answers input output ended.status
        × Appends (W.contents writer.old.inner) (W.contents writer.new.inner) output)) }
    ensures bad { IfOk result (λ ended. IsSome ended.bad ↔ (ended.status ≡ 2)) }
    ensures why { IfOk result (λ ended. IfSome (R.remaining reader.old.inner) (λ input.
        IfSome ended.bad (λ bad. HasBadLine input bad.0 bad.1))) }
    ensures unwritten { IfErr result (λ e. e ≢ RunError.Write → writer.new ≡ writer.old) }
    ensures endless { reader.new.ended ≡ false → reader.new.failed ≡ false
        → IsErrOf result RunError.OutOfMemory }
{
    let input = read_all(alloc, reader)?;
    let answered = answer_all(alloc, input.as_slice())?;
    if writer.write_all(answered.output.as_bytes()).is_err() || writer.flush().is_err() {
        return Err(RunError::Write);
    }
    Ok(Ended {
        status: answered.status,
        bad: answered.bad,
    })
}
