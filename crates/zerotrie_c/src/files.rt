//! Sealed files, and what is in a file.

ghost use Rattle.std.specs.Prelude.{◌≡◌, ◌≢◌, ℕ, List, take, IfSome, IfNone};
ghost use Rattle.zerotrie_sealed.specs.Sealed.{magic, IsSealed};
ghost use Rattle.zerotrie_c.specs.Numbers.{kind_of};
ghost use Rattle.zerotrie_c.specs.Builds.{IsHandedOut};
ghost use Rattle.zerotrie_c.specs.Statuses.{unknown_kind};
ghost use Rattle.zerotrie_c.specs.Files.{seal_status_of, IsOpened, IsIndexOpened, IsIndexSealed};

use crate::builds::hand_out;
use crate::numbers::{
    BUFFER_TOO_SMALL, DAMAGED, DONE, OUT_OF_MEMORY, UNKNOWN_KIND, UNKNOWN_VERSION, kind_of,
};
use crate::tags::{put_both, zerotrie_tagged_kind};
use std::alloc::Global;
use zerotrie_sealed::{
    HEADER_LEN, SealError, begins_sealed, header_of, open, open_index, seal_index,
};

/// Finds the trie in a file that begins as no sealed one.
fn open_tagged(file: &[u8], kind: &mut u32, at: &mut usize, trie_len: &mut usize) -> u32
    ensures { take 8 file.now ≢ magic
        → IsOpened file.now result kind.old kind.new at.old at.new trie_len.old trie_len.new }
{
    let status = zerotrie_tagged_kind(file, kind);
    if status == DONE {
        *at = 1;
        *trie_len = file.len() - 1;
    }
    status
}

/// Returns the status of an error of a file that is to be a sealed one.
fn seal_status_of(error: SealError) -> u32
    ensures { result ≡ seal_status_of error }
{
    match error {
        SealError::UnknownVersion(_) => UNKNOWN_VERSION,
        SealError::NoMagic => DAMAGED,
        SealError::UnknownKind(_) => DAMAGED,
        SealError::CutShort => DAMAGED,
        SealError::TooLong => DAMAGED,
        SealError::Checksum => DAMAGED,
    }
}

/// Finds the trie in a file that begins as a sealed one.
fn open_sealed(file: &[u8], kind: &mut u32, at: &mut usize, trie_len: &mut usize) -> u32
    ensures { take 8 file.now ≡ magic
        → IsOpened file.now result kind.old kind.new at.old at.new trie_len.old trie_len.new }
{
    match open(file) {
        Ok(sealed) => {
            *kind = u32::from(sealed.kind.tag());
            *at = HEADER_LEN;
            *trie_len = sealed.trie.len();
            DONE
        }
        Err(error) => seal_status_of(error),
    }
}

/// Finds the trie in a file, which is sealed or tagged bytes: sets `kind` to its kind, `at` to
/// where its bytes begin, and `trie_len` to their number. It does not validate the trie.
///
/// A sealed file is taken exactly if its parts agree, and the bytes that it finds are those that
/// were sealed. If the file is refused, nothing is written.
#[unsafe(no_mangle)]
pub extern "C" fn zerotrie_open(
    file: &[u8],
    kind: &mut u32,
    at: &mut usize,
    trie_len: &mut usize,
) -> u32
    ensures { IsOpened file.now result kind.old kind.new at.old at.new trie_len.old trie_len.new }
{
    if begins_sealed(file) {
        open_sealed(file, kind, at, trie_len)
    } else {
        open_tagged(file, kind, at, trie_len)
    }
}

/// Writes the sealed file of a trie to the beginning of `out`, if there is room, and sets
/// `sealed_len`.
#[unsafe(no_mangle)]
pub extern "C" fn zerotrie_seal(
    kind: u32,
    bytes: &[u8],
    out: &mut [u8],
    sealed_len: &mut usize,
) -> u32
    ensures known { IfSome (kind_of kind) (λ k. (file : List ℕ) × IsSealed k bytes.now file
        × IsHandedOut file result sealed_len.new out.old out.new) }
    ensures unknown { IfNone (kind_of kind) ((result ≡ unknown_kind)
        × (sealed_len.new ≡ sealed_len.old) × (out.new ≡ out.old)) }
{
    let Some(kind) = kind_of(kind) else {
        return UNKNOWN_KIND;
    };
    let len = HEADER_LEN + bytes.len();
    *sealed_len = len;
    if out.len() < len {
        return BUFFER_TOO_SMALL;
    }
    put_both(&header_of(kind, bytes), bytes, out);
    DONE
}

/// Finds the index in a sealed file, as a whole or in blocks: sets `at` to where its bytes begin,
/// and `index_len` to their number. They reach to the end of the file. It does not validate the
/// index.
///
/// A file is taken exactly if its parts agree, and the bytes that it finds are those that were
/// sealed. If the file is refused, nothing is written.
#[unsafe(no_mangle)]
pub extern "C" fn zerotrie_open_index(file: &[u8], at: &mut usize, index_len: &mut usize) -> u32
    ensures { IsIndexOpened file.now result at.old at.new index_len.old index_len.new }
{
    match open_index(file) {
        Ok(index) => {
            *at = file.len() - index.len();
            *index_len = index.len();
            DONE
        }
        Err(error) => seal_status_of(error),
    }
}

/// Writes the sealed file of an index, in blocks, to the beginning of `out`, if there is room, and
/// sets `sealed_len`.
#[unsafe(no_mangle)]
pub extern "C" fn zerotrie_seal_index(
    alloc: Global,
    index: &[u8],
    out: &mut [u8],
    sealed_len: &mut usize,
) -> u32
    ensures { IsIndexSealed index.now result sealed_len.old sealed_len.new out.old out.new }
{
    match seal_index(alloc, index) {
        Ok(file) => hand_out(file.as_slice(), out, sealed_len),
        Err(_) => OUT_OF_MEMORY,
    }
}
