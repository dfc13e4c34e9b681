//! The file that bytes go to.

ghost use Rattle.std.specs.Prelude.{◌≡◌, ◌≢◌, ◌⊎◌, None, true, IfErr, IfSome, OnOk, OnErr};
ghost use Rattle.zerotrie_files.specs.declared.found.Found.TheVariants.{Stream};
ghost use Rattle.zerotrie_files.specs.Deeds.{Gets, IsWriteFault, Reaches, ReachesNone};
ghost use Rattle.zerotrie_files.specs.Disks.{Known, HasNoStream};
ghost use Rattle.zerotrie_files.specs.Stores.{ReplacesBeside, names_open_file};

use crate::disk::Disk;
use crate::found::Found;
use crate::replacing::replace_beside;
use std::alloc::Global;
use std::io;
use std::io::ErrorKind;

/// Returns whether a path names an open file of a process, which is written to and not replaced.
fn is_open_file(path: &str) -> bool
    ensures { result ≡ names_open_file path.now }
{
    path.starts_with("/dev/fd/") || path.starts_with("/dev/std") || path.starts_with("/proc/")
}

/// Writes the bytes to a device, a pipe or an open file. No file was left beside it.
fn append<D: Disk>(disk: &mut D, path: &str, bytes: &[u8]) -> io::Result<usize>
    requires { (names_open_file path.now ≡ true) ⊎ D.leads disk.old path.now Stream }
    ensures story { Known (D.story disk.old) (D.story disk.new) (HasNoStream result) }
    ensures deeds { Gets path.now bytes.now result (D.deeds disk.old) (D.deeds disk.new) }
    ensures fault { IfErr result D.is_fault }
{
    disk.append(path, bytes)?;
    Ok(0)
}

/// Writes the bytes to the file of a path, which it replaces or makes.
///
/// The file is replaced atomically: the bytes go to a new file in its folder, which is synced and
/// renamed, as `replace_beside` does. After a fault all files are as they were. The result is how
/// many files it removed that killed builds of the file left in the folder.
///
/// A symbolic link stays, and the file that it leads to is replaced. The file keeps who may read,
/// write and run it, and no set-id bit. A file that was not there may be read and written by whom
/// the umask allows, and run by nobody.
///
/// A device or a pipe is written in place, and so is a file that is open at `/dev/fd/N`, at its
/// end. After a fault these may have a beginning of the bytes.
///
/// A folder, a link that leads nowhere and a file that can't be written are errors.
pub fn write_output<D: Disk>(
    alloc: Global,
    disk: &mut D,
    path: &str,
    bytes: &[u8],
) -> io::Result<usize>
    ensures replaced { Known (D.story disk.old) (D.story disk.new)
        (ReplacesBeside path.now bytes.now result) }
    ensures writable { OnOk result (IfSome (D.story disk.old) (λ known.
        known.now path.now ≢ None → D.is_writable disk.old path.now)) }
    ensures reached { OnOk result (Reaches (D.leads disk.old path.now) (D.is_real disk.old path.now)
        path.now bytes.now (D.deeds disk.old) (D.deeds disk.new)) }
    ensures unreached { OnErr result
        (ReachesNone path.now bytes.now (D.deeds disk.old) (D.deeds disk.new)) }
    ensures fault { IfErr result (IsWriteFault D.is_fault (D.is_taken disk.new)
        (D.leads disk.old path.now) (D.is_real disk.old path.now) path.now) }
{
    if is_open_file(path) {
        return append(disk, path, bytes);
    }
    match disk.find(path)? {
        Found::Nothing => replace_beside(alloc, disk, path, None, bytes),
        Found::File(mode) => {
            disk.test_writable(path)?;
            let real = disk.real_path(path)?;
            replace_beside(alloc, disk, real.as_str(), Some(mode), bytes)
        }
        Found::Folder => Err(io::Error::from(ErrorKind::IsADirectory)),
        Found::Stream => append(disk, path, bytes),
    }
}
