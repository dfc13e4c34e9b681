//! Files of a user beside one that is replaced.

use crate::memory::MemoryDisk;
use std::alloc::Global;
use std::io;

/// What comes before and after the name of the file that is replaced. Some of these names are such
/// as the program gives, for the first numbers that the disk in memory draws.
pub const AROUND: [(&str, &str); 8] = [
    ("", ".0.tmp"),
    ("", ".3.tmp"),
    ("", ".99.tmp"),
    ("", ".tmp"),
    (".", ".zerotrie-1-0"),
    (".", ".zerotrie-1-1"),
    (".", ".zerotrie-1-3"),
    (".", ""),
];

/// What they hold.
const HELD: &[u8] = b"of a user";

/// Returns the path that a new file gets beside these.
pub fn free_path(alloc: Global, name: &str) -> io::Result<String> {
    Ok(format!(in alloc; ".{name}.zerotrie-1-2")?)
}

/// Makes files of all these names.
pub fn plant(alloc: Global, disk: &mut MemoryDisk, name: &str) -> io::Result<()> {
    for (before, after) in AROUND {
        let path = format!(in alloc; "{before}{name}{after}")?;
        disk.put(path.as_str(), HELD)?;
    }
    Ok(())
}

/// Returns whether all of them are there as they were, and no file is left at the path of a new one.
pub fn are_planted(alloc: Global, disk: &MemoryDisk, name: &str) -> io::Result<bool> {
    for (before, after) in AROUND {
        let path = format!(in alloc; "{before}{name}{after}")?;
        if disk.held(path.as_str()) != Some(HELD) {
            return Ok(false);
        }
    }
    let free = free_path(alloc, name)?;
    Ok(disk.held(free.as_str()).is_none())
}
