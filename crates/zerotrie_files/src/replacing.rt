//! Atomic replacement of a file.

ghost use Rattle.std.specs.Prelude.{◌≡◌, ◌≢◌, ◌++◌, [], IfOk, IfErr, OnOk, OnErr, false, codes};
ghost use Rattle.std.specs.String.{string_bytes};
ghost use Rattle.zerotrie_files.specs.Deeds.{Did, FillsAndMoves, FillsAndMovesIf, IsPlaceFault, Places, PlacesNone};
ghost use Rattle.zerotrie_files.specs.Disks.{Known, Replaces, TakesPath};
ghost use Rattle.zerotrie_files.specs.Stores.{own_name, Clears, IsOwnPath, RemovesLeft, ReplacesBeside};

use crate::disk::Disk;
use crate::found::Mode;
use std::alloc::{AllocError, Global};
use std::io;
use std::io::ErrorKind;
use zerotrie_sealed::begins_magic;

/// How many paths beside a file are tried.
const MOST_TRIES: u32 = 100;

/// Fills the new file at `beside` and renames it to the path.
#[tactic(auto, using(crate::proofs::DiskLemmas::filled_alone))]
fn take_path<D: Disk>(
    disk: &mut D,
    path: &str,
    beside: &str,
    mode: Option<Mode>,
    bytes: &[u8],
) -> io::Result<()>
    requires { beside.now ≢ path.now }
    ensures story { Known (D.story disk.old) (D.story disk.new)
        (TakesPath path.now beside.now bytes.now result) }
    ensures deeds { FillsAndMoves path.now beside.now mode bytes.now result
        (D.deeds disk.old) (D.deeds disk.new) }
    ensures fault { IfErr result D.is_fault }
{
    disk.fill(beside, mode, bytes)?;
    disk.rename(beside, path)
}

/// Replaces the file of a path by these bytes, or makes it: writes them to a new file at `beside`
/// with this mode and renames it. Returns `false` if `beside` has a file already, and then no file
/// changes.
///
/// At each moment the file holds its old bytes or all of the new ones, and all other files what
/// they held. After an error the new file is removed, and then all files are as they were. If the
/// removal fails, too, the new file alone is left.
#[tactic(auto, using(crate::proofs::DeedLemmas::placed_if, crate::proofs::DeedLemmas::unplaced_if, crate::proofs::DiskLemmas::then_taken, crate::proofs::DiskLemmas::then_removed, crate::proofs::DiskLemmas::unmade))]
pub fn replace<D: Disk>(
    disk: &mut D,
    path: &str,
    beside: &str,
    mode: Option<Mode>,
    bytes: &[u8],
) -> io::Result<bool>
    requires { beside.now ≢ path.now }
    ensures story { Known (D.story disk.old) (D.story disk.new)
        (Replaces path.now beside.now bytes.now result) }
    ensures deeds { FillsAndMovesIf path.now beside.now mode bytes.now result
        (D.deeds disk.old) (D.deeds disk.new) }
    ensures taken { IfOk result (λ free. free ≡ false → D.is_taken disk.new beside.now) }
    ensures fault { IfErr result D.is_fault }
{
    if !disk.make(beside)? {
        return Ok(false);
    }
    match take_path(disk, path, beside, mode, bytes) {
        Ok(()) => Ok(true),
        Err(error) => {
            let _ = disk.remove(beside);
            Err(error)
        }
    }
}

/// Returns what the names of new files begin with: `.NAME.zerotrie-`.
fn own_front(alloc: Global, name: &str) -> Result<String, AllocError>
    ensures { IfOk result (λ front.
        string_bytes front ≡ codes "." ++ name.now ++ codes ".zerotrie-") }
{
    format!(in alloc; ".{name}.zerotrie-")
}

/// Returns the name of a new file: `.NAME.zerotrie-PROCESS-NUMBER`.
fn own_name(alloc: Global, name: &str, process: u32, number: u32) -> Result<String, AllocError>
    ensures { IfOk result (λ own. string_bytes own ≡ own_name name.now process number) }
{
    let mut own = own_front(alloc, name)?;
    write!(own, "{process}-{number}")?;
    Ok(own)
}

/// Returns the path of a file in a folder.
fn path_in(alloc: Global, folder: &str, name: &str) -> Result<String, AllocError>
    ensures { IfOk result (λ path. string_bytes path ≡ folder.now ++ codes "/" ++ name.now) }
{
    format!(in alloc; "{folder}/{name}")
}

/// Returns the path of a new file beside the file of a path: in the same folder, by the name of the
/// file.
fn path_beside(alloc: Global, path: &str, process: u32, number: u32) -> Result<String, AllocError>
    ensures exact { IfOk result (λ beside.
        IsOwnPath path.now process number (string_bytes beside)) }
    ensures another { IfOk result (λ beside. string_bytes beside ≢ path.now) }
{
    match path.rsplit_once('/') {
        None => own_name(alloc, path, process, number),
        Some((folder, name)) => {
            let own = own_name(alloc, name, process, number)?;
            path_in(alloc, folder, own.as_str())
        }
    }
}

/// Returns the numbers in the name of a new file, after what such names begin with.
fn numbers_in(name: &str, front: &str) -> Option<(u32, u32)> {
    let (process, number) = name.strip_prefix(front)?.split_once('-')?;
    Some((process.parse().ok()?, number.parse().ok()?))
}

/// Removes a file if a killed build left it, and returns whether it did.
fn remove_left<D: Disk>(disk: &mut D, path: &str) -> io::Result<bool>
    ensures story { Known (D.story disk.old) (D.story disk.new) (RemovesLeft path.now) }
    ensures deeds { Did [] (D.deeds disk.old) (D.deeds disk.new) }
{
    match disk.hold(path)? {
        Some(front) if begins_magic(front.as_slice()) => {
            disk.remove_held(path)?;
            Ok(true)
        }
        _ => Ok(false),
    }
}

/// Removes the file of this name in the folder of a path, if a killed build of the file of the path
/// left it, and returns whether it did. `front` is what such names begin with.
#[tactic(auto, using(crate::proofs::LeftLemmas::nothing_cleared, crate::proofs::LeftLemmas::clears_one, crate::proofs::DeedLemmas::did_nothing))]
fn remove_named<D: Disk>(
    alloc: Global,
    disk: &mut D,
    path: &str,
    name: &str,
    front: &str,
) -> io::Result<bool>
    ensures story { Known (D.story disk.old) (D.story disk.new) (Clears path.now) }
    ensures deeds { Did [] (D.deeds disk.old) (D.deeds disk.new) }
{
    match numbers_in(name, front) {
        Some((process, number)) => {
            let left = path_beside(alloc, path, process, number)?;
            remove_left(disk, left.as_str())
        }
        None => Ok(false),
    }
}

/// Removes the files that killed builds left beside the file of a path, and returns how many. One
/// that can't be opened, held or removed stays.
#[tactic(auto, using(crate::proofs::LeftLemmas::nothing_cleared, crate::proofs::LeftLemmas::clears_then, crate::proofs::DeedLemmas::did_nothing, crate::proofs::DeedLemmas::did_then))]
fn remove_all_left<D: Disk>(alloc: Global, disk: &mut D, path: &str) -> io::Result<usize>
    ensures story { Known (D.story disk.old) (D.story disk.new) (Clears path.now) }
    ensures deeds { Did [] (D.deeds disk.old) (D.deeds disk.new) }
{
    let (folder, name) = match path.rsplit_once('/') {
        None => (".", path),
        Some(("", name)) => ("/", name),
        Some(parts) => parts,
    };
    let front = own_front(alloc, name)?;
    let found = disk.names(folder, front.as_str())?;
    let mut removed: usize = 0;
    for own in found.as_slice() {
        if remove_named(alloc, disk, path, own.as_str(), front.as_str()).unwrap_or(false) {
            removed = removed.saturating_add(1);
        }
    }
    Ok(removed)
}

/// Writes the bytes to a new file beside the file of a path with this mode, and renames it. Tries as
/// many names as `replace_beside` says.
fn place_beside<D: Disk>(
    alloc: Global,
    disk: &mut D,
    path: &str,
    mode: Option<Mode>,
    bytes: &[u8],
) -> io::Result<()>
    ensures story { Known (D.story disk.old) (D.story disk.new)
        (ReplacesBeside path.now bytes.now result) }
    ensures placed { OnOk result
        (Places path.now mode bytes.now (D.deeds disk.old) (D.deeds disk.new)) }
    ensures unplaced { OnErr result
        (PlacesNone bytes.now (D.deeds disk.old) (D.deeds disk.new)) }
    ensures fault { IfErr result (IsPlaceFault D.is_fault (D.is_taken disk.new) path.now) }
{
    for tried in 0..MOST_TRIES {
        let beside = path_beside(alloc, path, disk.process(), disk.draw(tried))?;
        if replace(disk, path, beside.as_str(), mode, bytes)? {
            return Ok(());
        }
    }
    Err(io::Error::from(ErrorKind::AlreadyExists))
}

/// Replaces the file of a path by these bytes, or makes it: writes them to a new file at
/// `.NAME.zerotrie-PROCESS-NUMBER` in the same folder with this mode and renames it. NAME is the
/// name of the file, and NUMBER is drawn anew as long as such a file is there already, a hundred
/// times at most: then it fails with `AlreadyExists`.
///
/// At each moment the file holds its old bytes or all of the new ones, and all other files that
/// were there what they held. After an error the new file is removed, and then all files are as
/// they were. If the removal fails, too, the new file alone is left. If the process is ended in
/// between, it may be left as well.
///
/// First it removes the files that were left so, and returns how many: those of such a name that
/// nobody holds and that are empty, begin with the magic of sealed files or are a beginning of it.
/// One that can't be removed stays, and is no error.
#[tactic(auto, using(crate::proofs::LeftLemmas::replaced_after, crate::proofs::LeftLemmas::failed_after, crate::proofs::LeftLemmas::places_after, crate::proofs::LeftLemmas::none_after))]
pub fn replace_beside<D: Disk>(
    alloc: Global,
    disk: &mut D,
    path: &str,
    mode: Option<Mode>,
    bytes: &[u8],
) -> io::Result<usize>
    ensures story { Known (D.story disk.old) (D.story disk.new)
        (ReplacesBeside path.now bytes.now result) }
    ensures placed { OnOk result
        (Places path.now mode bytes.now (D.deeds disk.old) (D.deeds disk.new)) }
    ensures unplaced { OnErr result
        (PlacesNone bytes.now (D.deeds disk.old) (D.deeds disk.new)) }
    ensures fault { IfErr result (IsPlaceFault D.is_fault (D.is_taken disk.new) path.now) }
{
    let removed = remove_all_left(alloc, disk, path).unwrap_or(0);
    place_beside(alloc, disk, path, mode, bytes)?;
    Ok(removed)
}
