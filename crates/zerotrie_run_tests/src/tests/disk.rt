//! What files of the system hold after one is replaced. The tests may run in one folder, so each has
//! names of its own.

use std::fs;
use std::fs::{OpenOptions, Permissions};
use std::io::ErrorKind;
use std::os::fd::AsRawFd;
use std::os::unix::fs::{PermissionsExt, symlink};
use std::process::Abort;
use std::test::Fail;
use zerotrie_files::{Store, SystemDisk};

/// Files of a user beside one called `planted`, some of them of a form that the program gives.
const PLANTED: [&str; 6] = [
    "planted.0.tmp",
    "planted.3.tmp",
    "planted.99.tmp",
    ".planted.zerotrie-1-1",
    ".planted.zerotrie-4194304-4294967295",
    ".planted",
];

/// Returns the files of the system.
fn disk_of(rt: &HostRuntime) -> SystemDisk<'_, HostRuntime> {
    SystemDisk::new(rt, rt.process())
}

/// Returns whether a file holds these bytes.
fn holds(rt: &HostRuntime, path: &str, bytes: &[u8]) -> bool {
    let mut store = Store::new(disk_of(rt));
    let Ok(file) = store.open(path) else {
        return false;
    };
    match store.read(rt.alloc(), file) {
        Ok(held) => held.as_slice() == bytes,
        Err(_) => false,
    }
}

/// Returns whether there is nothing at a path.
fn is_free(rt: &HostRuntime, path: &str) -> bool {
    fs::symlink_metadata(rt, path).is_err()
}

/// Returns whether a file has these bits of a mode.
fn has_mode(rt: &HostRuntime, path: &str, mode: u32) -> bool {
    match fs::metadata(rt, path) {
        Ok(found) => found.permissions().mode() & 0o7777 == mode,
        Err(_) => false,
    }
}

/// Returns how many files of a folder have a name that begins so.
fn count_of(rt: &HostRuntime, folder: &str, begins: &str) -> Result<usize, Fail> {
    let mut count = 0;
    for entry in fs::read_dir(rt, folder)? {
        if entry?.file_name().starts_with(begins) {
            count = usize::wrapping_add(count, 1);
        }
    }
    Ok(count)
}

/// Replaces a file, and returns whether that was done.
fn replaces(rt: &HostRuntime, path: &str, bytes: &[u8]) -> bool {
    Store::new(disk_of(rt))
        .replace(rt.alloc(), path, bytes)
        .is_ok()
}

/// Returns whether the files of a user hold what they held, and there is no other beside them.
fn are_planted(rt: &HostRuntime) -> Result<bool, Fail> {
    for path in PLANTED {
        if !holds(rt, path, path.as_bytes()) {
            return Ok(false);
        }
    }
    Ok(count_of(rt, ".", ".planted")? == 3)
}

#[test]
fn a_file_is_made_and_replaced(rt: HostRuntime) -> Result<(), Fail> {
    fs::write(&rt, "other", b"kept")?;
    assert!(rt; replaces(&rt, "made", b"one"));
    assert!(rt; holds(&rt, "made", b"one"));
    assert!(rt; replaces(&rt, "made", b"a second text"));
    assert!(rt; holds(&rt, "made", b"a second text"));
    assert!(rt; holds(&rt, "other", b"kept"));
    assert!(rt; count_of(&rt, ".", ".made")? == 0);
    Ok(())
}

#[test]
fn files_of_a_user_stay(rt: HostRuntime) -> Result<(), Fail> {
    for path in PLANTED {
        fs::write(&rt, path, path.as_bytes())?;
    }
    assert!(rt; replaces(&rt, "planted", b"one"));
    assert!(rt; are_planted(&rt)?);
    assert!(rt; replaces(&rt, "planted", b"two"));
    assert!(rt; are_planted(&rt)?);
    Ok(())
}

/// Replaces a file, and returns how many files it removed that killed builds left.
fn removes(rt: &HostRuntime, path: &str) -> Result<usize, Fail> {
    Ok(Store::new(disk_of(rt)).replace(rt.alloc(), path, b"new")?)
}

#[test]
fn files_of_killed_builds_are_removed(rt: HostRuntime) -> Result<(), Fail> {
    fs::write(
        &rt,
        ".killed.zerotrie-9892-1387828229",
        b"ztri\x89\x8a\r\n and more",
    )?;
    fs::write(&rt, ".killed.zerotrie-1-2", b"ztri\x89")?;
    fs::write(&rt, ".killed.zerotrie-0-4294967295", b"")?;
    fs::write(&rt, "killed", b"old")?;
    symlink(&rt, "killed", "killed-link")?;
    assert!(rt; removes(&rt, "killed-link")? == 3);
    assert!(rt; count_of(&rt, ".", ".killed")? == 0);
    assert!(rt; holds(&rt, "killed", b"new"));
    assert!(rt; removes(&rt, "./killed")? == 0);
    fs::create_dir(&rt, "of-killed")?;
    fs::write(&rt, "of-killed/.one.zerotrie-1-1", b"")?;
    fs::write(&rt, ".one.zerotrie-1-1", b"")?;
    assert!(rt; removes(&rt, "of-killed/one")? == 1);
    assert!(rt; count_of(&rt, "of-killed", ".one")? == 0);
    assert!(rt; holds(&rt, ".one.zerotrie-1-1", b""));
    Ok(())
}

/// Files beside one called `spared` that no killed build of it left, and what they hold.
const SPARED: [(&str, &[u8]); 11] = [
    (".spared.zerotrie-1-3", b"precious"),
    (".spared.zerotrie-1-4", b"ztri\x89\x8a\rx"),
    (".spared.zerotrie-1-5", b"\x08a\x81"),
    (".spared.zerotrie-x-1", b""),
    (".spared.zerotrie-1", b""),
    (".spared.zerotrie-1-1~", b""),
    (".spared.zerotrie-1-4294967296", b""),
    (".spared.zerotrie-", b""),
    ("spared.zerotrie-1-1", b""),
    ("..spared.zerotrie-1-1", b""),
    (".spared2.zerotrie-1-1", b""),
];

#[test]
fn files_of_others_are_spared(rt: HostRuntime) -> Result<(), Fail> {
    for (path, bytes) in SPARED {
        fs::write(&rt, path, bytes)?;
    }
    symlink(&rt, ".spared.zerotrie-", ".spared.zerotrie-1-6")?;
    fs::create_dir(&rt, ".spared.zerotrie-1-7")?;
    fs::write(&rt, ".spared.zerotrie-1-8", b"")?;
    fs::hard_link(&rt, ".spared.zerotrie-1-8", "spared-twice")?;
    assert!(rt; removes(&rt, "spared")? == 0);
    for (path, bytes) in SPARED {
        assert!(rt; holds(&rt, path, bytes));
    }
    assert!(rt; count_of(&rt, ".", ".spared.zerotrie-")? == 11);
    Ok(())
}

#[test]
fn a_file_that_is_written_is_spared(rt: HostRuntime) -> Result<(), Fail> {
    fs::write(&rt, ".busy.zerotrie-1-1", b"")?;
    let other = OpenOptions::new()
        .write(true)
        .open(&rt, ".busy.zerotrie-1-1")?;
    other.lock()?;
    assert!(rt; removes(&rt, "busy")? == 0);
    assert!(rt; holds(&rt, ".busy.zerotrie-1-1", b""));
    other.unlock()?;
    assert!(rt; removes(&rt, "busy")? == 1);
    assert!(rt; count_of(&rt, ".", ".busy")? == 0);
    Ok(())
}

#[test]
fn a_file_keeps_who_may_read_it(rt: HostRuntime) -> Result<(), Fail> {
    fs::write(&rt, "read", b"old")?;
    fs::set_permissions(&rt, "read", Permissions::from_mode(0o640))?;
    assert!(rt; replaces(&rt, "read", b"new"));
    assert!(rt; has_mode(&rt, "read", 0o640));
    fs::set_permissions(&rt, "read", Permissions::from_mode(0o6755))?;
    assert!(rt; replaces(&rt, "read", b"newer"));
    assert!(rt; has_mode(&rt, "read", 0o755));
    assert!(rt; holds(&rt, "read", b"newer"));
    Ok(())
}

#[test]
fn a_link_stays(rt: HostRuntime) -> Result<(), Fail> {
    fs::write(&rt, "linked", b"old")?;
    symlink(&rt, "linked", "link")?;
    symlink(&rt, "nothing", "dead")?;
    assert!(rt; replaces(&rt, "link", b"new"));
    assert!(rt; fs::symlink_metadata(&rt, "link")?.is_symlink());
    assert!(rt; holds(&rt, "linked", b"new"));
    assert!(rt; count_of(&rt, ".", ".link")? == 0);
    assert!(rt; !replaces(&rt, "dead", b"new"));
    assert!(rt; is_free(&rt, "nothing"));
    Ok(())
}

#[test]
fn an_open_file_is_written_at_its_end(rt: HostRuntime) -> Result<(), Fail> {
    fs::write(&rt, "opened", b"old, ")?;
    let file = OpenOptions::new().write(true).open(&rt, "opened")?;
    let number = file.as_raw_fd();
    let path = format!(in rt.alloc(); "/dev/fd/{number}")?;
    assert!(rt; replaces(&rt, path.as_str(), b"new, "));
    assert!(rt; replaces(&rt, path.as_str(), b"newer"));
    assert!(rt; holds(&rt, "opened", b"old, new, newer"));
    assert!(rt; count_of(&rt, ".", ".opened")? == 0);
    Ok(())
}

#[test]
fn what_cannot_be_replaced_stays(rt: HostRuntime) -> Result<(), Fail> {
    fs::create_dir(&rt, "folder")?;
    let folder = Store::new(disk_of(&rt)).replace(rt.alloc(), "folder", b"new");
    assert!(rt; matches!(&folder, Err(error) if error.kind() == ErrorKind::IsADirectory));
    assert!(rt; !replaces(&rt, "missing/names", b"new"));
    assert!(rt; count_of(&rt, ".", ".folder")? == 0);
    Ok(())
}
