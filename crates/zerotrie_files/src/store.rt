//! Reads and replacements of whole files.

ghost use Rattle.std.specs.Prelude.{◌≡◌, ◌≢◌, ◌↔◌, ◌⊎◌, ◌+◌, ◌-◌, ◌^◌, min, None, MatchBool, IfOk, IfErr, IfSome, IsTrue, OnOk, OnErr, false};
ghost use Rattle.zerotrie_files.specs.Deeds.{IsWriteFault, Reaches, ReachesNone};
ghost use Rattle.zerotrie_files.specs.Disks.{Known, IsOpen, IsUnread};
ghost use Rattle.zerotrie_files.specs.Stores.{ReplacesBeside};
ghost use Rattle.zerotrie_files.specs.Faults.{IsClosed, IsFault, IsNoted, IsOutOfMemory};

use crate::disk::{Disk, OpenFile};
use crate::faults::{is_closed, is_fault};
use crate::found::Found;
use crate::output::write_output;
use std::alloc::Global;
use std::io;
use std::marker::Model;

/// The files of a disk, read and replaced, with a note of what failed and of how many were opened to be
/// read.
#[derive(Drop)]
pub struct Store<D> {
    disk: D,
    opened: u64,
    unread: bool,
    unwritten: bool,
    closed: bool,
}

impl<D> Model for Store<D> {
    ghost use Rattle.zerotrie_files.specs.Faults.{Files};

    ghost Value = { Files D };

    ghost view = { λ s. record {
      disk = s.disk;
      opened = s.opened;
      unread = s.unread;
      unwritten = s.unwritten;
      closed = s.closed;
    } };
}

impl<D: Disk> Store<D> {
    /// Returns the files of a disk, of which no call failed so far.
    pub fn new(disk: D) -> Self
        ensures disk { result.disk ≡ disk }
        ensures opened { result.opened ≡ 0 }
        ensures unread { result.unread ≡ false }
        ensures unwritten { result.unwritten ≡ false }
        ensures closed { result.closed ≡ false }
    {
        Store {
            disk,
            opened: 0,
            unread: false,
            unwritten: false,
            closed: false,
        }
    }

    /// Returns the disk.
    pub fn disk(&self) -> &D
        ensures { result.now ≡ self.now.disk }
    {
        &self.disk
    }

    /// Returns how many files were opened to be read. No more than 2^64 - 1 are counted.
    pub fn opened(&self) -> u64
        ensures { result ≡ self.now.opened }
    {
        self.opened
    }

    /// Returns whether a read failed, for another reason than memory.
    pub fn unread(&self) -> bool
        ensures { result ≡ self.now.unread }
    {
        self.unread
    }

    /// Returns whether a replacement failed, for another reason than memory.
    pub fn unwritten(&self) -> bool
        ensures { result ≡ self.now.unwritten }
    {
        self.unwritten
    }

    /// Returns whether a replacement failed as whoever reads has closed the pipe that the path
    /// names.
    pub fn closed(&self) -> bool
        ensures { result ≡ self.now.closed }
    {
        self.closed
    }

    /// Opens the file of a path to be read.
    pub fn open(&mut self, path: &str) -> io::Result<D::File>
        ensures held { IfOk result (λ file.
            IfSome (D.story self.old.disk) (IsOpen path.now (D.File.held file))) }
        ensures missing { IfErr result (λ e.
            IfSome (D.story self.old.disk) (IsUnread path.now e)) }
        ensures fault { IfErr result D.is_fault }
        ensures same { self.new.disk ≡ self.old.disk }
        ensures opened { self.new.opened ≡ min (self.old.opened + 1) (2 ^ 64 - 1) }
        ensures unread { IsTrue self.new.unread ↔ IsTrue self.old.unread ⊎ IsFault result }
        ensures unwritten { self.new.unwritten ≡ self.old.unwritten }
        ensures closed { self.new.closed ≡ self.old.closed }
        ensures noted { IsNoted result self.old.unread self.new.unread }
    {
        self.opened = self.opened.saturating_add(1);
        let outcome = self.disk.open(path);
        self.unread |= is_fault(&outcome);
        outcome
    }

    /// Reads all of an open file.
    pub fn read(&mut self, alloc: Global, file: D::File) -> io::Result<Vec<u8>>
        ensures held { IfOk result (λ bytes.
            IfSome (D.File.held file) (λ known. bytes.items ≡ known)) }
        ensures missing { IfErr result (λ e. IfSome (D.File.held file) (λ _. IsOutOfMemory e)) }
        ensures fault { IfErr result D.File.is_fault }
        ensures same { self.new.disk ≡ self.old.disk }
        ensures opened { self.new.opened ≡ self.old.opened }
        ensures unread { IsTrue self.new.unread ↔ IsTrue self.old.unread ⊎ IsFault result }
        ensures unwritten { self.new.unwritten ≡ self.old.unwritten }
        ensures closed { self.new.closed ≡ self.old.closed }
        ensures noted { IsNoted result self.old.unread self.new.unread }
    {
        let outcome = file.read_all(alloc);
        self.unread |= is_fault(&outcome);
        outcome
    }

    /// Returns whether there is a file at a path.
    pub fn has(&mut self, path: &str) -> io::Result<bool>
        ensures there { IfOk result (λ there. IfSome (D.story self.old.disk) (λ known.
            MatchBool there (known.now path.now ≢ None) (known.now path.now ≡ None))) }
        ensures fault { IfErr result D.is_fault }
        ensures same { self.new.disk ≡ self.old.disk }
        ensures opened { self.new.opened ≡ self.old.opened }
        ensures unchanged { OnOk result (self.new ≡ self.old) }
        ensures unread { IsTrue self.new.unread ↔ IsTrue self.old.unread ⊎ IsFault result }
        ensures unwritten { self.new.unwritten ≡ self.old.unwritten }
        ensures closed { self.new.closed ≡ self.old.closed }
        ensures noted { IsNoted result self.old.unread self.new.unread }
    {
        let outcome = self.disk.find(path);
        self.unread |= is_fault(&outcome);
        match outcome {
            Ok(Found::Nothing) => Ok(false),
            Ok(_) => Ok(true),
            Err(error) => Err(error),
        }
    }

    /// Replaces the file of a path by the bytes, or makes it, as `write_output` does, and returns how
    /// many files it removed that killed builds left.
    pub fn replace(&mut self, alloc: Global, path: &str, bytes: &[u8]) -> io::Result<usize>
        ensures replaced { Known (D.story self.old.disk) (D.story self.new.disk)
            (ReplacesBeside path.now bytes.now result) }
        ensures writable { OnOk result (IfSome (D.story self.old.disk) (λ known.
            known.now path.now ≢ None → D.is_writable self.old.disk path.now)) }
        ensures reached { OnOk result (Reaches (D.leads self.old.disk path.now)
            (D.is_real self.old.disk path.now) path.now bytes.now
            (D.deeds self.old.disk) (D.deeds self.new.disk)) }
        ensures unreached { OnErr result (ReachesNone path.now bytes.now
            (D.deeds self.old.disk) (D.deeds self.new.disk)) }
        ensures fault { IfErr result (IsWriteFault D.is_fault (D.is_taken self.new.disk)
            (D.leads self.old.disk path.now) (D.is_real self.old.disk path.now) path.now) }
        ensures opened { self.new.opened ≡ self.old.opened }
        ensures unread { self.new.unread ≡ self.old.unread }
        ensures unwritten { IsTrue self.new.unwritten ↔ IsTrue self.old.unwritten ⊎ IsFault result }
        ensures noted { IsNoted result self.old.unwritten self.new.unwritten }
        ensures closed { IsTrue self.new.closed ↔ IsTrue self.old.closed ⊎ IsClosed result }
    {
        let outcome = write_output(alloc, &mut self.disk, path, bytes);
        self.unwritten |= is_fault(&outcome);
        self.closed |= is_closed(&outcome);
        outcome
    }
}
