//! Readers and writers that remember whether a call failed.

ghost use Rattle.std.specs.Prelude.{◌≡◌, ◌≢◌, ◌↔◌, ◌⊎◌, ◌≤◌, ◌+◌, ◌^◌, [], length, true, false, IfOk, IfErr, IfSome, IsTrue, OnOk, OnErr, MatchResult};
ghost use Rattle.std.specs.IoError.{error_kind};
ghost use Rattle.std.specs.Io.KnownBytes.{Appends, Keeps};
ghost use Rattle.std.specs.Io.Buffered.{writer_contents, writer_buffer};
ghost use Rattle.zerotrie_files.specs.Faults.{IsClosed, IsNoted, IsOutOfMemory};
ghost use Rattle.zerotrie_files.specs.Parts.{AppendsPart};
ghost use Rattle.zerotrie_files.specs.Reads.{Gives};

use crate::faults::{is_closed, is_fault};
use crate::writing::write_bytes;
use std::alloc::Global;
use std::io;
use std::io::{BufWriter, ErrorKind, Read, Write};
use std::marker::Model;

/// The size of one read. The lines and answers of so few bytes fit in memory that the allocator
/// keeps for the next read.
const ROOM: usize = 1 << 14;

/// A reader or writer with a flag that is set from its first fault on, and one that is set if a
/// write failed as whoever reads has closed the pipe. A call that a signal interrupts is made
/// again, and is no fault.
#[derive(Debug, Drop)]
pub struct Noted<T> {
    inner: T,
    failed: bool,
    closed: bool,
}

impl<T> Model for Noted<T> {
    ghost use Rattle.zerotrie_files.specs.Faults.{Watched};

    ghost Value = { Watched T };

    ghost view = { λ n. record { inner = n.inner; failed = n.failed; closed = n.closed } };
}

impl<T> Noted<T> {
    /// Returns a reader or writer with no fault so far.
    pub fn new(inner: T) -> Self
        ensures inner { result.inner ≡ inner }
        ensures failed { result.failed ≡ false }
        ensures closed { result.closed ≡ false }
    {
        Noted {
            inner,
            failed: false,
            closed: false,
        }
    }

    /// Returns whether some call failed.
    pub fn failed(&self) -> bool
        ensures { result ≡ self.now.failed }
    {
        self.failed
    }

    /// Returns whether some write failed as whoever reads has closed the pipe.
    pub fn closed(&self) -> bool
        ensures { result ≡ self.now.closed }
    {
        self.closed
    }

    /// Returns the reader or writer itself.
    pub fn get_ref(&self) -> &T
        ensures { result.now ≡ self.now.inner }
    {
        &self.inner
    }
}

impl<R: Read> Noted<R> {
    /// Reads once, at most 16 KiB, appends the bytes to `held`, and returns whether the stream has
    /// ended. A read that a signal interrupts adds nothing. If the read fails, the stream has what
    /// it had.
    pub fn read_more(&mut self, held: &mut Vec<u8>) -> io::Result<bool>
        ensures gives { IfOk result (Gives (R.remaining self.old.inner)
            (R.remaining self.new.inner) held.old.items held.new.items) }
        ensures stays { IfErr result (λ e. IsOutOfMemory e
            ⊎ Keeps (R.remaining self.old.inner) (R.remaining self.new.inner)) }
        ensures few { IfOk result (λ _. length held.new.items ≤ length held.old.items + 2 ^ 14) }
        ensures again { IfErr result (λ e. error_kind e ≢ ErrorKind.Interrupted) }
        ensures noted { IsNoted result self.old.failed self.new.failed }
    {
        let mut room = [0; ROOM];
        match self.inner.read(&mut room) {
            Ok(count) => {
                held.extend_from_slice(&room[..count])?;
                Ok(count == 0)
            }
            Err(error) if error.kind() == ErrorKind::Interrupted => Ok(false),
            Err(error) => {
                self.failed = true;
                Err(error)
            }
        }
    }

    /// Reads the rest of a stream.
    pub fn read_all(&mut self, alloc: Global) -> io::Result<Vec<u8>>
        ensures all { IfOk result (λ bytes.
            IfSome (R.remaining self.old.inner) (λ known. bytes.items ≡ known)) }
        ensures again { IfErr result (λ e. error_kind e ≢ ErrorKind.Interrupted) }
        ensures noted { IsNoted result self.old.failed self.new.failed }
    {
        let mut bytes = Vec::new(alloc);
        let outcome = self.inner.read_to_end(&mut bytes);
        self.failed |= is_fault(&outcome);
        match outcome {
            Ok(_) => Ok(bytes),
            Err(error) => Err(error),
        }
    }
}

impl<W: Write> Noted<W> {
    /// Writes bytes. If it fails, a beginning of them was written.
    pub fn write_bytes(&mut self, bytes: &[u8]) -> io::Result<()>
        ensures all { OnOk result
            (Appends (W.contents self.old.inner) (W.contents self.new.inner) bytes.now) }
        ensures part { OnErr result
            (AppendsPart (W.contents self.old.inner) (W.contents self.new.inner) bytes.now) }
        ensures again { IfErr result (λ e. error_kind e ≢ ErrorKind.Interrupted) }
        ensures noted { MatchResult result (λ _. self.new.failed ≡ self.old.failed)
            (λ _. self.new.failed ≡ true) }
        ensures closed { IsTrue self.new.closed ↔ IsTrue self.old.closed ⊎ IsClosed result }
    {
        let outcome = write_bytes(&mut self.inner, bytes);
        self.failed |= outcome.is_err();
        self.closed |= is_closed(&outcome);
        outcome
    }
}

impl<W: Write + Drop> Noted<BufWriter<W>> {
    /// Writes all that the buffer holds to the writer.
    pub fn hand_on(&mut self) -> io::Result<()>
        ensures bytes { Keeps (writer_contents W.contents self.old.inner)
            (writer_contents W.contents self.new.inner) }
        ensures empty { OnOk result (writer_buffer self.new.inner ≡ []) }
        ensures noted { MatchResult result (λ _. self.new.failed ≡ self.old.failed)
            (λ _. self.new.failed ≡ true) }
        ensures closed { IsTrue self.new.closed ↔ IsTrue self.old.closed ⊎ IsClosed result }
    {
        let outcome = self.inner.flush();
        self.failed |= outcome.is_err();
        self.closed |= is_closed(&outcome);
        outcome
    }
}
