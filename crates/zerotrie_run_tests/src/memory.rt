//! A disk in memory, whose moments are known.

ghost use Rattle.std.specs.Prelude.{◌≡◌, ◌≢◌, [], Some, None, option_map, reverse, take, OnOk, OnErr, eqb, codes, false};
ghost use Rattle.std.specs.List.{starts_with};
ghost use Rattle.std.specs.Prelude.{◌++◌, ◌∷◌, List, ℕ};
ghost use Rattle.zerotrie_files.specs.Deeds.Deed.{filled, moved};
ghost use Rattle.zerotrie_files.specs.Stores.{IsBeside};
ghost use Rattle.zerotrie_files.specs.Disks.{IsFound};
ghost use Rattle.zerotrie_run_tests.specs.Steps.{deeds_after, files_after, story_of, IsRemoval};

use std::alloc::Global;
use std::io;
use std::io::ErrorKind;
use zerotrie_files::{Disk, Found, Mode, OpenFile, replace_beside};

/// What a disk did.
#[derive(Drop)]
enum Step {
    /// A file at this path holds these bytes: it was made, or is there from before.
    Wrote(String, Vec<u8>),
    /// The file of this path was filled with these bytes, and got this mode.
    Filled(String, Option<Mode>, Vec<u8>),
    /// The file of the first path has the second.
    Renamed(String, String),
    /// There is no file at this path.
    Removed(String),
}

/// A disk in memory: what it did, step by step, and there is a moment after each step.
///
/// A path says what fails: there is no room for the bytes of a file whose name begins with `.full`,
/// a file whose name begins with `locked` can't be written, none takes a path that begins with
/// `held`, none whose name begins with `.held-on` can be removed, and there is no folder `missing`.
#[derive(Drop)]
pub struct MemoryDisk {
    alloc: Global,
    steps: Vec<Step>,
    unremoved: bool,
}

/// Returns what the file of a path holds after these steps.
fn held_after<'s>(steps: &'s [Step], path: &str) -> Option<&'s [u8]>
    ensures { option_map (λ bytes. bytes.now) result ≡ files_after (reverse steps.now) path.now }
{
    match steps.split_last() {
        None => None,
        Some((step, before)) => match step {
            Step::Wrote(name, bytes) | Step::Filled(name, _, bytes) => {
                if name.as_str() == path {
                    Some(bytes.as_slice())
                } else {
                    held_after(before, path)
                }
            }
            Step::Renamed(from, to) => {
                if to.as_str() == path {
                    held_after(before, from.as_str())
                } else if from.as_str() == path {
                    None
                } else {
                    held_after(before, path)
                }
            }
            Step::Removed(name) => {
                if name.as_str() == path {
                    None
                } else {
                    held_after(before, path)
                }
            }
        },
    }
}

/// Returns the first 8 bytes, or all if there are fewer.
fn front_of(bytes: &[u8]) -> &[u8]
    ensures { result.now ≡ take 8 bytes.now }
{
    match bytes.split_at_checked(8) {
        Some((front, _)) => front,
        None => bytes,
    }
}

impl MemoryDisk {
    /// Returns a disk with no file.
    pub fn new(alloc: Global) -> Self
        ensures steps { result.steps.items ≡ [] }
        ensures unremoved { result.unremoved ≡ false }
    {
        MemoryDisk {
            alloc,
            steps: Vec::new(alloc),
            unremoved: false,
        }
    }

    /// Returns what the file of a path holds. `None` if there is none.
    pub fn held(&self, path: &str) -> Option<&[u8]>
        ensures { option_map (λ bytes. bytes.now) result
            ≡ files_after (reverse self.now.steps.items) path.now }
    {
        held_after(self.steps.as_slice(), path)
    }

    /// Puts a file at a path, whatever its name.
    pub fn put(&mut self, path: &str, bytes: &[u8]) -> io::Result<()> {
        let name = String::from_str(self.alloc, path)?;
        let content = Vec::from_slice(self.alloc, bytes)?;
        self.steps.push(Step::Wrote(name, content))?;
        Ok(())
    }

    /// Removes a file, if that can be done.
    fn try_remove(&mut self, path: &str) -> io::Result<()>
        ensures done { OnOk result (IsRemoval path.now self.old.steps.items self.new.steps.items) }
        ensures undone { OnErr result (self.new.steps.items ≡ self.old.steps.items) }
        ensures unremoved { self.new.unremoved ≡ self.old.unremoved }
    {
        if path.starts_with(".held-on") {
            return Err(io::Error::from(ErrorKind::PermissionDenied));
        }
        let name = String::from_str(self.alloc, path)?;
        self.steps.push(Step::Removed(name))?;
        Ok(())
    }
}

/// An open file of a disk in memory: what it held when it was opened.
#[derive(Drop)]
pub struct MemoryFile(Vec<u8>);

impl OpenFile for MemoryFile {
    ghost held = { λ file. Some file.0.items };

    ghost is_fault = { λ _. Unit {0} };

    fn read_part(&self, place: u64, room: &mut [u8]) -> io::Result<()> {
        let bytes = self.0.as_slice();
        let (_, behind) = bytes.split_at(bytes.len().min(place as usize));
        let Some((part, _)) = behind.split_at_checked(room.len()) else {
            return Err(io::Error::from(ErrorKind::UnexpectedEof));
        };
        room.copy_from_slice(part);
        Ok(())
    }

    fn read_all(self, _alloc: Global) -> io::Result<Vec<u8>> {
        Ok(self.0)
    }
}

impl Disk for MemoryDisk {
    ghost story = { λ disk. Some (story_of disk.steps.items disk.unremoved) };

    ghost deeds = { λ disk. Some (deeds_after disk.steps.items) };

    ghost leads = { λ disk path found.
        IsFound (files_after (reverse disk.steps.items) path) found };

    ghost is_real = { λ _ path real. real ≡ path };

    ghost is_taken = { λ disk path. files_after (reverse disk.steps.items) path ≢ None };

    ghost is_fault = { λ _. Unit {0} };

    ghost is_writable = { λ _ path. starts_with eqb path (codes "locked") ≡ false };

    type File = MemoryFile;

    fn open(&mut self, path: &str) -> io::Result<MemoryFile> {
        match self.held(path) {
            Some(bytes) => Ok(MemoryFile(Vec::from_slice(self.alloc, bytes)?)),
            None => Err(io::Error::from(ErrorKind::NotFound)),
        }
    }

    fn find(&self, path: &str) -> io::Result<Found> {
        match self.held(path) {
            Some(_) => Ok(Found::File(Mode::kept(0o644))),
            None => Ok(Found::Nothing),
        }
    }

    fn test_writable(&self, path: &str) -> io::Result<()> {
        if path.starts_with("locked") {
            return Err(io::Error::from(ErrorKind::PermissionDenied));
        }
        Ok(())
    }

    fn real_path(&self, path: &str) -> io::Result<String> {
        Ok(String::from_str(self.alloc, path)?)
    }

    fn process(&self) -> u32 {
        1
    }

    fn draw(&self, tried: u32) -> u32 {
        tried
    }

    fn names(&self, folder: &str, begin: &str) -> io::Result<Vec<String>> {
        let mut names = Vec::new(self.alloc);
        for step in self.steps.as_slice() {
            if let Step::Wrote(path, _) = step {
                if folder == "." && path.as_str().starts_with(begin) {
                    names.push(String::from_str(self.alloc, path.as_str())?)?;
                }
            }
        }
        Ok(names)
    }

    fn hold(&mut self, path: &str) -> io::Result<Option<Vec<u8>>> {
        match self.held(path) {
            Some(bytes) => Ok(Some(Vec::from_slice(self.alloc, front_of(bytes))?)),
            None => Ok(None),
        }
    }

    fn remove_held(&mut self, path: &str) -> io::Result<()> {
        self.try_remove(path)
    }

    fn make(&mut self, path: &str) -> io::Result<bool> {
        if path.starts_with("missing/") {
            return Err(io::Error::from(ErrorKind::NotFound));
        }
        if self.held(path).is_some() {
            return Ok(false);
        }
        let name = String::from_str(self.alloc, path)?;
        self.steps.push(Step::Wrote(name, Vec::new(self.alloc)))?;
        Ok(true)
    }

    fn fill(&mut self, path: &str, mode: Option<Mode>, bytes: &[u8]) -> io::Result<()> {
        if path.starts_with(".full") {
            return Err(io::Error::from(ErrorKind::StorageFull));
        }
        let name = String::from_str(self.alloc, path)?;
        let content = Vec::from_slice(self.alloc, bytes)?;
        self.steps.push(Step::Filled(name, mode, content))?;
        Ok(())
    }

    fn rename(&mut self, from: &str, to: &str) -> io::Result<()> {
        if to.starts_with("held") {
            return Err(io::Error::from(ErrorKind::StorageFull));
        }
        if self.held(from).is_none() {
            return Err(io::Error::from(ErrorKind::NotFound));
        }
        let old = String::from_str(self.alloc, from)?;
        let new = String::from_str(self.alloc, to)?;
        self.steps.push(Step::Renamed(old, new))?;
        Ok(())
    }

    fn remove(&mut self, path: &str) -> io::Result<()> {
        let outcome = self.try_remove(path);
        self.unremoved |= outcome.is_err();
        outcome
    }

    fn append(&mut self, _path: &str, _bytes: &[u8]) -> io::Result<()> {
        Err(io::Error::from(ErrorKind::Unsupported))
    }
}

/// Replaces a file of a disk in memory, and says what the disk did: it filled a file beside it and moved
/// that to the path, and nothing else.
pub fn replaced(alloc: Global, disk: &mut MemoryDisk, path: &str, bytes: &[u8]) -> io::Result<usize>
    ensures { OnOk result ((beside : List ℕ) × IsBeside path.now beside
        × (deeds_after disk.new.steps.items ≡ deeds_after disk.old.steps.items
        ++ filled beside None bytes.now ∷ moved beside path.now ∷ [])) }
{
    replace_beside(alloc, disk, path, None, bytes)
}
