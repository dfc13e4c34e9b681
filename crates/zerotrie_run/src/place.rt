//! Reads and writes of whole files and streams.

ghost use Rattle.std.specs.Prelude.{◌≡◌, ◌≤◌, ◌⊎◌, ◌+◌, Option, true, IfOk, IfErr, OnOk, OnErr};
ghost use Rattle.zerotrie_files.specs.Disks.{Story};
ghost use Rattle.zerotrie_files.specs.Notes.{SameReads, SameWrites};
ghost use Rattle.zerotrie_run.specs.Failures.{IsFailureOf, ReadFailed, WriteFailed};
ghost use Rattle.zerotrie_run.specs.Runs.{world, IsOpenAt, IsRead, IsWritten, IsKept, HandsOn};
ghost use Rattle.std.specs.Io.Buffered.{writer_contents};
ghost use Rattle.zerotrie_run.specs.declared.command.Place.{Place};
ghost use Rattle.zerotrie_run.specs.declared.command.Place.TheVariants.{Stream};

use crate::command::Place;
use std::alloc::Global;
use std::io;
use std::io::{BufWriter, Read, Write};
use zerotrie_files::{Disk, Noted, Store};

/// A place that is open to be read.
#[derive(Drop)]
pub enum Opened<F> {
    File(F),
    /// Standard input.
    Stream,
}

/// Opens a place to be read.
pub fn open_place<D: Disk>(place: Place<'_>, files: &mut Store<D>) -> io::Result<Opened<D::File>>
    ensures opens { IfOk result (IsOpenAt D.File.held place.entry (D.story files.old.disk)) }
    ensures same { files.new.disk ≡ files.old.disk }
    ensures once { files.new.opened ≤ files.old.opened + 1 }
    ensures noted { OnOk result (files.new.unread ≡ files.old.unread) }
    ensures failed { IfErr result (IsFailureOf (files.new.unread ≡ true)) }
    ensures unwritten { files.new.unwritten ≡ files.old.unwritten }
{
    match place {
        Place::File(path) => Ok(Opened::File(files.open(path)?)),
        Place::Stream => Ok(Opened::Stream),
    }
}

/// Reads all bytes of an open place.
pub fn read_opened<D: Disk, R: Read>(
    alloc: Global,
    opened: Opened<D::File>,
    files: &mut Store<D>,
    input: &mut Noted<R>,
) -> io::Result<Vec<u8>>
    ensures read { IfOk result (λ bytes. (place : Place) → (story : Option Story)
        → IsOpenAt D.File.held place story opened
        → IsRead place (R.remaining input.old.inner) story bytes.items) }
    ensures same { files.new.disk ≡ files.old.disk }
    ensures once { files.new.opened ≡ files.old.opened }
    ensures untouched { (place : Place) → (story : Option Story)
        → IsOpenAt D.File.held place story opened
        → (place ≡ Stream) ⊎ (input.new ≡ input.old) }
    ensures noted { OnOk result (SameReads input.old input.new files.old files.new) }
    ensures failed { IfErr result (IsFailureOf (ReadFailed input.new files.new)) }
    ensures unwritten { files.new.unwritten ≡ files.old.unwritten }
{
    match opened {
        Opened::File(file) => files.read(alloc, file),
        Opened::Stream => input.read_all(alloc),
    }
}

/// Opens a place and reads all of its bytes.
pub fn read_place<D: Disk, R: Read>(
    alloc: Global,
    place: Place<'_>,
    files: &mut Store<D>,
    input: &mut Noted<R>,
) -> io::Result<Vec<u8>>
    ensures read { IfOk result (λ bytes.
        IsRead place.entry (R.remaining input.old.inner) (D.story files.old.disk) bytes.items) }
    ensures same { files.new.disk ≡ files.old.disk }
    ensures once { files.new.opened ≤ files.old.opened + 1 }
    ensures untouched { (place.entry ≡ Stream) ⊎ (input.new ≡ input.old) }
    ensures noted { OnOk result (SameReads input.old input.new files.old files.new) }
    ensures failed { IfErr result (IsFailureOf (ReadFailed input.new files.new)) }
    ensures unwritten { files.new.unwritten ≡ files.old.unwritten }
{
    let opened = open_place(place, files)?;
    read_opened(alloc, opened, files, input)
}

/// Writes bytes to a place: replaces its file, or prints them and flushes the buffer. If that
/// fails, the file is unchanged, or a beginning of them was printed. Returns how many files it removed
/// that killed builds of the file left beside it.
pub fn write_place<D: Disk, W: Write + Drop>(
    alloc: Global,
    place: Place<'_>,
    bytes: &[u8],
    files: &mut Store<D>,
    output: &mut Noted<BufWriter<W>>,
) -> io::Result<usize>
    ensures ok { OnOk result (IsWritten place.entry bytes.now
        (world (D.story files.old.disk) (writer_contents W.contents output.old.inner))
        (world (D.story files.new.disk) (writer_contents W.contents output.new.inner))) }
    ensures err { OnErr result (IsKept place.entry bytes.now
        (world (D.story files.old.disk) (writer_contents W.contents output.old.inner))
        (world (D.story files.new.disk) (writer_contents W.contents output.new.inner))) }
    ensures handed { OnOk result (HandsOn output.old.inner output.new.inner) }
    ensures noted { OnOk result (SameWrites output.old output.new files.old files.new) }
    ensures failed { IfErr result (IsFailureOf (WriteFailed output.new files.new)) }
    ensures once { files.new.opened ≡ files.old.opened }
    ensures unread { files.new.unread ≡ files.old.unread }
{
    match place {
        Place::File(path) => files.replace(alloc, path, bytes),
        Place::Stream => {
            output.write_bytes(bytes)?;
            output.hand_on()?;
            Ok(0)
        }
    }
}
