//! Look-ups in an index that is read at places, here in the bytes of a slice.

ghost use Rattle.std.specs.Prelude.{◌≡◌, IfOk, IfErr, List, ℕ};
ghost use Rattle.zerotrie_base.specs.Kind.{simple_ascii};
ghost use Rattle.zerotrie_base.specs.Maps.{Pairs, value_at};
ghost use Rattle.zerotrie_sealed.specs.Sealed.{IsSealedInBlocks, IsSealedIndex};
ghost use Rattle.zerotrie_index.specs.Layout.{IsIndex};
ghost use Rattle.zerotrie_uses.specs.declared.slices.SliceError.TheVariants.{OutOfMemory};

use std::alloc::{AllocError, Global};
use zerotrie_index::laws::has_its_blocks;
use zerotrie_index::{ReadAt, SealedIndex, get_at};
use zerotrie_sealed::SealError;
use zerotrie_sealed::laws::index_is_behind;

/// Why nothing is found in a slice.
#[derive(Clone, Copy, PartialEq, Eq, Debug)]
pub enum SliceError {
    /// A read ends behind the slice.
    Ended,
    /// The slice is no index that is sealed in blocks.
    NotSealed(SealError),
    /// An allocation failed.
    OutOfMemory,
}

impl From<AllocError> for SliceError {
    ghost from_gives = { λ _ e. e ≡ OutOfMemory };

    fn from(_: AllocError) -> Self {
        SliceError::OutOfMemory
    }
}

impl From<SealError> for SliceError {
    ghost use Rattle.zerotrie_uses.specs.declared.slices.SliceError.TheVariants.{NotSealed};

    ghost from_gives = { λ why e. e ≡ NotSealed why };

    fn from(why: SealError) -> Self {
        SliceError::NotSealed(why)
    }
}

/// A slice that is read at places: its bytes are known, and a read fails only behind them.
#[derive(Drop)]
pub struct Slice<'a> {
    bytes: &'a [u8],
}

impl<'a> ReadAt for Slice<'a> {
    ghost use Rattle.std.specs.Prelude.{◌≡◌, ◌+◌, ◌<◌, length};
    ghost use Rattle.zerotrie_uses.specs.declared.slices.SliceError.TheVariants.{Ended};

    ghost MayHold = { λ slice bytes. slice.bytes.now ≡ bytes };

    ghost MayRefuse = { λ slice place count e. (e ≡ Ended) × (length slice.bytes.now < place + count) };

    type Error = SliceError;

    fn fill(&mut self, place: u64, room: &mut [u8]) -> Result<(), SliceError> {
        let Ok(start) = usize::try_from(place) else {
            return Err(SliceError::Ended);
        };
        let Some((_, behind)) = self.bytes.split_at_checked(start) else {
            return Err(SliceError::Ended);
        };
        let Some((part, _)) = behind.split_at_checked(room.len()) else {
            return Err(SliceError::Ended);
        };
        room.copy_from_slice(part);
        Ok(())
    }
}

/// Returns the value of a key in an index, as `get` does, and reads few of its bytes. Of an index it
/// fails only if memory does.
pub fn value_at_places(alloc: Global, index: &[u8], key: &[u8]) -> Result<Option<usize>, SliceError>
    ensures found { IfOk result (λ found. (pairs : Pairs) → IsIndex pairs index.now
        → found ≡ value_at simple_ascii pairs key.now) }
    ensures err { IfErr result (λ e. (pairs : Pairs) → IsIndex pairs index.now → e ≡ OutOfMemory) }
{
    get_at(alloc, &mut Slice { bytes: index }, key)
}

/// Returns the value of a key in a file that is sealed in blocks, and tests the blocks that it reads. Of
/// a right file it fails only if memory does.
pub fn value_in_file(alloc: Global, file: &[u8], key: &[u8]) -> Result<Option<usize>, SliceError>
    ensures found { IfOk result (λ found. (index : List ℕ) (pairs : Pairs) → IsSealedIndex index file.now
        → IsIndex pairs index → found ≡ value_at simple_ascii pairs key.now) }
    ensures err { IfErr result (λ e. (index : List ℕ) (pairs : Pairs)
        → IsSealedInBlocks index file.now → IsIndex pairs index → e ≡ OutOfMemory) }
{
    has_its_blocks();
    index_is_behind();
    let mut index = SealedIndex::open(alloc, Slice { bytes: file })?;
    get_at(alloc, &mut index, key)
}
