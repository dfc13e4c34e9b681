//! The blocks of an index, each with its checksum.

ghost use Rattle.std.specs.Prelude.{◌≡◌, ◌<◌, ◌↔◌, IsTrue, OnOk, IfSome, IfNone, ℕ, List, ◌++◌, length};
ghost use Rattle.std.specs.Int.{w32, to_le_bytes};
ghost use Rattle.zerotrie_sealed.specs.Checksum.{crc32c};
ghost use Rattle.zerotrie_sealed.specs.Sealed.{block_count, sums_of};

use crate::checksum::crc32c;
use std::alloc::AllocError;

/// The number of bytes in a block of a sealed index. The last block may have fewer.
pub const BLOCK_LEN: usize = 1 << 16;

/// Returns the number of blocks of an index with as many bytes.
pub(crate) fn block_count(len: usize) -> usize
    ensures { result ≡ block_count len }
{
    len.div_ceil(BLOCK_LEN)
}

/// Returns the first block of the bytes, and what is behind it.
fn first_block(bytes: &[u8]) -> (&[u8], &[u8])
    requires { 0 < length bytes.now }
    ensures shorter { length result.1.now < length bytes.now }
    ensures sums { sums_of bytes.now
        ≡ to_le_bytes w32 (crc32c result.0.now) ++ sums_of result.1.now }
{
    bytes.split_at(BLOCK_LEN.min(bytes.len()))
}

/// Appends the checksum of each block of the bytes.
pub(crate) fn add_sums(bytes: &[u8], sums: &mut Vec<u8>) -> Result<(), AllocError>
    ensures { OnOk result (sums.new.items ≡ sums.old.items ++ sums_of bytes.now) }
{
    let mut rest = bytes;
    while !rest.is_empty() {
        let (block, behind) = first_block(rest);
        sums.extend_from_slice(&crc32c(block).to_le_bytes())?;
        rest = behind;
    }
    Ok(())
}

/// Returns what is behind the checksum of a block, if these bytes begin with it.
fn behind_sum<'a>(sums: &'a [u8], block: &[u8]) -> Option<&'a [u8]>
    ensures some { IfSome result (λ more.
        sums.now ≡ to_le_bytes w32 (crc32c block.now) ++ more.now) }
    ensures none { IfNone result ((more : List ℕ)
        → sums.now ≡ to_le_bytes w32 (crc32c block.now) ++ more → ⊥) }
{
    sums.strip_prefix(&crc32c(block).to_le_bytes())
}

/// Returns whether these are the checksums of all blocks of the bytes.
pub(crate) fn are_sums(sums: &[u8], bytes: &[u8]) -> bool
    ensures { IsTrue result ↔ (sums.now ≡ sums_of bytes.now) }
{
    let mut left = sums;
    let mut rest = bytes;
    while !rest.is_empty() {
        let (block, behind) = first_block(rest);
        let Some(more) = behind_sum(left, block) else {
            return false;
        };
        left = more;
        rest = behind;
    }
    left.is_empty()
}
