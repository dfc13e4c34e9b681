//! The calls of a file system that read a file and replace one.

ghost use Rattle.std.specs.Prelude.{◌≡◌, ◌⊎◌, [], List, ℕ, length, Option, true, false, IfOk, IfErr, IfSome, OnOk};
ghost use Rattle.std.specs.String.{string_bytes};
ghost use Rattle.zerotrie_files.specs.Stores.{names_open_file};
ghost use Rattle.std.specs.declared.io.Error.{Error};
ghost use Rattle.zerotrie_files.specs.declared.found.Found.{Found};
ghost use Rattle.zerotrie_files.specs.Deeds.{Deed, Did, DoesOrFails, Gets, filled, moved};
ghost use Rattle.zerotrie_files.specs.Disks.{Story, Known, Stays, IsFound, IsFront, IsOpen, IsUnread, IsPartFrom, IsPartUnread, Makes, Fills, Renames, Removes, RemovesHeld, HasNoStream};
ghost use Rattle.zerotrie_files.specs.Faults.{IsOutOfMemory};

use crate::found::{Found, Mode};
use std::alloc::Global;
use std::io;

/// A file that is open, to be read at places and then as a whole.
pub trait OpenFile {
    /// The bytes that it has. `None` says nothing of them.
    ghost held: { Self → Option (List ℕ) };

    /// The errors that its calls return.
    ghost is_fault: { Error → Type 0 };

    /// Fills the room with its bytes from this place on. A file that has fewer is an error, and so is a
    /// stream, of which nothing is read.
    fn read_part(&self, place: u64, room: &mut [u8]) -> io::Result<()>
        ensures part { IfOk result (λ _. IfSome (held self.now) (IsPartFrom place room.new)) }
        ensures missing { IfErr result (λ e.
            IfSome (held self.now) (IsPartUnread place (length room.old) e)) }
        ensures fault { IfErr result is_fault };

    /// Reads all of its bytes.
    fn read_all(self, alloc: Global) -> io::Result<Vec<u8>>
        ensures all { IfOk result (λ bytes. IfSome (held self) (λ known. bytes.items ≡ known)) }
        ensures missing { IfErr result (λ e. IfSome (held self) (λ _. IsOutOfMemory e)) }
        ensures fault { IfErr result is_fault };
}

/// Where files are read, written, renamed and removed.
pub trait Disk {
    ghost use Rattle.zerotrie_files.specs.declared.found.Found.TheVariants.{Stream};

    /// What the files hold, and held at each moment before, and whether a removal failed. `None`
    /// says nothing of them.
    ghost story: { Self → Option Story };

    /// What it did. `None` says nothing of it.
    ghost deeds: { Self → Option (List Deed) };

    /// What a path leads to.
    ghost leads: { Self → List ℕ → Found → Type 0 };

    /// Whether the second path is the first one without links.
    ghost is_real: { Self → List ℕ → List ℕ → Type 0 };

    /// Whether a path has a file, a link or a folder, or had one that another process removed.
    ghost is_taken: { Self → List ℕ → Type 0 };

    /// The errors that its calls return.
    ghost is_fault: { Error → Type 0 };

    /// Whether the file of a path can be written.
    ghost is_writable: { Self → List ℕ → Type 0 };

    /// An open file.
    type File: OpenFile + Drop;

    /// Opens the file of a path to be read. Nothing changes; but who has only lent the disk opens none.
    fn open(&mut self, path: &str) -> io::Result<Self::File>
        ensures same { self.new ≡ self.old }
        ensures held { IfOk result (λ file.
            IfSome (story self.old) (IsOpen path.now (Self.File.held file))) }
        ensures missing { IfErr result (λ e. IfSome (story self.old) (IsUnread path.now e)) }
        ensures fault { IfErr result is_fault };

    /// Returns what a path leads to, by whatever links. A link to nothing is an error.
    fn find(&self, path: &str) -> io::Result<Found>
        ensures leads { IfOk result (λ found. leads self.now path.now found) }
        ensures there { IfOk result (λ found.
            IfSome (story self.now) (λ known. IsFound (known.now path.now) found)) }
        ensures fault { IfErr result is_fault };

    /// Tests that the file of a path can be written.
    fn test_writable(&self, path: &str) -> io::Result<()>
        ensures writable { OnOk result (is_writable self.now path.now) }
        ensures fault { IfErr result is_fault };

    /// Returns the path of a file without links. A disk that tells what its files hold has none.
    fn real_path(&self, path: &str) -> io::Result<String>
        ensures alone { IfOk result (λ real.
            IfSome (story self.now) (λ _. string_bytes real ≡ path.now)) }
        ensures real { IfOk result (λ real. is_real self.now path.now (string_bytes real)) }
        ensures fault { IfErr result is_fault };

    /// Returns the number of the process, which is part of the name of a new file.
    fn process(&self) -> u32;

    /// Returns a number for the name of a new file: another for each try and, if the system has
    /// such numbers, one that nobody can foretell.
    fn draw(&self, tried: u32) -> u32;

    /// Returns the names in a folder that begin so. Some may be left out.
    fn names(&self, folder: &str, begin: &str) -> io::Result<Vec<String>>;

    /// Holds a file until another one is held or made, and returns its first 8 bytes, or all if it
    /// has fewer. `None` says that it is no regular file, has another name as well, or is no longer
    /// there. One that another process holds is an error.
    fn hold(&mut self, path: &str) -> io::Result<Option<Vec<u8>>>
        ensures story { Known (story self.old) (story self.new) Stays }
        ensures deeds { Did [] (deeds self.old) (deeds self.new) }
        ensures front { IfOk result (λ held. IfSome held (λ front.
            IfSome (story self.new) (IsFront path.now front.items))) };

    /// Removes a file, which is held, atomically.
    fn remove_held(&mut self, path: &str) -> io::Result<()>
        ensures story { Known (story self.old) (story self.new) (RemovesHeld path.now result) }
        ensures deeds { Did [] (deeds self.old) (deeds self.new) };

    /// Makes an empty file, if the path is free, and holds it. Returns `false` if the path has a
    /// file, a link or a folder, which stays, or if another process removed the new file before it
    /// was held.
    fn make(&mut self, path: &str) -> io::Result<bool>
        ensures story { Known (story self.old) (story self.new) (Makes path.now result) }
        ensures deeds { Did [] (deeds self.old) (deeds self.new) }
        ensures taken { IfOk result (λ free. free ≡ false → is_taken self.new path.now) }
        ensures fault { IfErr result is_fault };

    /// Writes the bytes to the file of a path, which was the last to be made, with this mode, and
    /// syncs it before it returns.
    fn fill(&mut self, path: &str, mode: Option<Mode>, bytes: &[u8]) -> io::Result<()>
        ensures story { Known (story self.old) (story self.new) (Fills path.now bytes.now result) }
        ensures deeds { DoesOrFails (filled path.now mode bytes.now) result
            (deeds self.old) (deeds self.new) }
        ensures fault { IfErr result is_fault };

    /// Moves a file to another path, and replaces the file there, atomically.
    fn rename(&mut self, from: &str, to: &str) -> io::Result<()>
        ensures story { Known (story self.old) (story self.new) (Renames from.now to.now result) }
        ensures deeds { DoesOrFails (moved from.now to.now) result
            (deeds self.old) (deeds self.new) }
        ensures fault { IfErr result is_fault };

    /// Removes a file, which `make` made.
    fn remove(&mut self, path: &str) -> io::Result<()>
        ensures story { Known (story self.old) (story self.new) (Removes path.now result) }
        ensures deeds { Did [] (deeds self.old) (deeds self.new) };

    /// Writes the bytes to a device or a pipe, or to the end of an open file. A disk that tells
    /// what its files hold has none of these.
    fn append(&mut self, path: &str, bytes: &[u8]) -> io::Result<()>
        requires { (names_open_file path.now ≡ true) ⊎ leads self.old path.now Stream }
        ensures story { Known (story self.old) (story self.new) (HasNoStream result) }
        ensures deeds { Gets path.now bytes.now result (deeds self.old) (deeds self.new) }
        ensures fault { IfErr result is_fault };
}
