//! What files in memory hold after one is replaced.

use super::planted::{are_planted, free_path, plant};
use crate::memory::{MemoryDisk, replaced};
use std::alloc::Global;
use std::io;
use std::io::ErrorKind;
use std::process::Abort;
use std::test::Fail;
use zerotrie_files::{Disk, Store, write_output};

/// Returns a disk with a file, and with files of a user beside it.
fn disk_with(alloc: Global, name: &str) -> io::Result<MemoryDisk> {
    let mut disk = MemoryDisk::new(alloc);
    disk.make(name)?;
    disk.fill(name, None, b"old")?;
    plant(alloc, &mut disk, name)?;
    Ok(disk)
}

/// Returns whether a replacement ends so, and all other files are as they were.
fn ends_so(alloc: Global, name: &str, wanted: Result<(), ErrorKind>) -> io::Result<bool> {
    let mut store = Store::new(disk_with(alloc, name)?);
    let ended = match store.replace(alloc, name, b"new") {
        Ok(_) => Ok(()),
        Err(error) => Err(error.kind()),
    };
    let held: &[u8] = if ended.is_ok() { b"new" } else { b"old" };
    Ok(
        ended == wanted
            && store.disk().held(name) == Some(held)
            && are_planted(alloc, store.disk(), name)?,
    )
}

#[test]
fn files_of_a_user_stay(rt: HostRuntime) -> Result<(), Fail> {
    let alloc = rt.alloc();
    assert!(rt; ends_so(alloc, "a", Ok(()))?);
    assert!(rt; ends_so(alloc, "full", Err(ErrorKind::StorageFull))?);
    assert!(rt; ends_so(alloc, "held", Err(ErrorKind::StorageFull))?);
    assert!(rt; ends_so(alloc, "locked", Err(ErrorKind::PermissionDenied))?);
    Ok(())
}

#[test]
fn a_file_is_replaced_by_two_deeds(rt: HostRuntime) -> Result<(), Fail> {
    let alloc = rt.alloc();
    let mut disk = disk_with(alloc, "a")?;
    assert!(rt; replaced(alloc, &mut disk, "a", b"new")? == 0);
    assert!(rt; disk.held("a") == Some(b"new"));
    Ok(())
}

#[test]
fn a_file_of_a_killed_build_is_removed(rt: HostRuntime) -> Result<(), Fail> {
    let alloc = rt.alloc();
    let mut store = Store::new({
        let mut disk = disk_with(alloc, "a")?;
        disk.put(".a.zerotrie-7-7", b"ztri")?;
        disk
    });
    assert!(rt; store.replace(alloc, "a", b"new")? == 1);
    assert!(rt; store.disk().held(".a.zerotrie-7-7") == None);
    assert!(rt; are_planted(alloc, store.disk(), "a")?);
    Ok(())
}

#[test]
fn a_file_that_cannot_be_removed_is_left(rt: HostRuntime) -> Result<(), Fail> {
    let alloc = rt.alloc();
    let mut disk = disk_with(alloc, "held-on")?;
    assert!(rt; write_output(alloc, &mut disk, "held-on", b"new").is_err());
    assert!(rt; disk.held("held-on") == Some(b"old"));
    let left = free_path(alloc, "held-on")?;
    assert!(rt; disk.held(left.as_str()) == Some(b"new"));
    assert!(rt; disk.remove(left.as_str()).is_err());
    Ok(())
}

#[test]
fn a_file_is_made_at_no_path_that_is_taken(rt: HostRuntime) -> Result<(), Fail> {
    let alloc = rt.alloc();
    let mut disk = MemoryDisk::new(alloc);
    for number in 0..100 {
        let path = format!(in alloc; "folder/.a.zerotrie-1-{number}")?;
        assert!(rt; disk.make(path.as_str())?);
        assert!(rt; !disk.make(path.as_str())?);
    }
    assert!(rt; write_output(alloc, &mut disk, "folder/a", b"new").is_err());
    assert!(rt; disk.held("folder/a").is_none());
    Ok(())
}

#[test]
fn a_store_notes_what_failed(rt: HostRuntime) -> Result<(), Fail> {
    let alloc = rt.alloc();
    let mut store = Store::new(MemoryDisk::new(alloc));
    store.replace(alloc, "a", b"one")?;
    store.replace(alloc, "a", b"two")?;
    let file = store.open("a")?;
    assert!(rt; store.read(alloc, file)?.as_slice() == b"two".as_slice());
    assert!(rt; !store.unread() && !store.unwritten());
    assert!(rt; store.replace(alloc, "full", b"three").is_err());
    assert!(rt; !store.unread() && store.unwritten());
    assert!(rt; store.open("b").is_err());
    assert!(rt; store.unread() && store.opened() == 2);
    Ok(())
}
