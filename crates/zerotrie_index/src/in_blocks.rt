//! A sealed index in blocks that is read at places, as in a file: each block that is read is tested.

ghost use Rattle.std.specs.Prelude.{◌≡◌, ◌+◌, ◌-◌, ◌*◌, ◌<◌, ◌≤◌, ◌^◌, ℕ, List, ◌++◌, IfOk, IfErr, IfSome, IfNone, OnOk, length, min};
ghost use Rattle.std.specs.Allocator.{alloc_error};
ghost use Rattle.zerotrie_index.specs.InBlocks.{HasTableOf, IsRightBlock, MayBeIndex, IsCause, FailsInFront, IsFrontFault, FailsInBlock, IsBlockFault, FailsInBlocks, IsPartFault};
ghost use Rattle.zerotrie_index.specs.Placed.{IsPart, MayStill, FailsNoMore, FailsWithin};
ghost use Rattle.zerotrie_sealed.specs.Sealed.{HasFront};
ghost use Rattle.zerotrie_sealed.specs.declared.reading.SealError.TheVariants.{Checksum, CutShort};

use crate::placed::{ReadAt, read_part};
use std::alloc::{AllocError, Global};
use zerotrie_sealed::{BLOCK_LEN, HEADER_LEN, SealError, crc32c, open_table, table_len};

/// An index in a file that is sealed in blocks, of which only the blocks are read that a look-up
/// needs. What is read through it are the bytes of the index.
///
/// Each block is tested by its checksum as it is read: damage in it is `SealError::Checksum`. What
/// isn't read isn't tested. `zerotrie_sealed::open_index` of all bytes finds damage anywhere.
#[derive(Drop)]
pub struct SealedIndex<S> {
    source: S,
    alloc: Global,
    front: Front,
}

/// What the front of a file says of the index behind it.
#[derive(Drop)]
struct Front {
    /// Where the index starts in the file.
    start: u64,
    /// The number of bytes of the index.
    index_len: usize,
    /// The checksums of the blocks.
    sums: Vec<u8>,
}

/// Tests the checksum of the block of this number.
fn test_block(sums: &[u8], number: usize, block: &[u8]) -> Result<(), SealError>
    requires { number < 2 ^ 48 }
    ensures ok { IfOk result (λ _. IsRightBlock sums.now number block.now) }
    ensures err { IfErr result (λ e. (e ≡ Checksum) × (IsRightBlock sums.now number block.now → ⊥)) }
{
    let Some((_, sums)) = sums.split_at_checked(4 * number) else {
        return Err(SealError::Checksum);
    };
    match sums.strip_prefix(&crc32c(block).to_le_bytes()) {
        Some(_) => Ok(()),
        None => Err(SealError::Checksum),
    }
}

/// Reads the table of an index of this length.
fn read_table<S: ReadAt>(alloc: Global, source: &mut S, len: usize) -> Result<Vec<u8>, S::Error>
where
    S::Error: From<AllocError> + From<SealError>,
    ensures part { IfOk result (λ table. IsPart (S.MayHold source.old) 24 table.items) }
    ensures length { IfOk result (λ table. length table.items ≡ len) }
    ensures fits { IfOk result (λ _. 24 + len < 2 ^ 64) }
    ensures err { IfErr result (IsCause (FailsWithin (S.MayRefuse source.old) 24 len)
        (S.Error.From-1.from_gives alloc_error) S.Error.From-2.from_gives
        (λ why. (why ≡ CutShort) × (2 ^ 64 ≤ 24 + len))) }
    ensures same { MayStill (S.MayHold source.old) (S.MayHold source.new) }
    ensures fewer { FailsNoMore (S.MayRefuse source.old) (S.MayRefuse source.new) }
{
    if usize::MAX - HEADER_LEN < len {
        return Err(S::Error::from(SealError::CutShort));
    }
    read_part(alloc, source, HEADER_LEN as u64, len)
}

impl<S: ReadAt + Drop> SealedIndex<S>
where
    S::Error: From<AllocError> + From<SealError>,
{
    /// Reads the header of a file and the table behind it.
    ///
    /// An error is one of a read of the header or of the table, one of an allocation, or what
    /// `table_len` or `open_table` returns, in their order: the file does not begin as an index that
    /// is sealed in blocks.
    pub fn open(alloc: Global, source: S) -> Result<Self, S::Error>
        ensures front { IfOk result (λ index. (file : List ℕ)
            → S.MayHold source file → HasFront index.front.start file) }
        ensures table { IfOk result (λ index. (file : List ℕ) → S.MayHold source file
            → HasTableOf index.front.start index.front.index_len index.front.sums.items file) }
        ensures err { IfErr result (IsCause (FailsInFront (S.MayHold source) (S.MayRefuse source))
            (S.Error.From-1.from_gives alloc_error) S.Error.From-2.from_gives
            (IsFrontFault (S.MayHold source))) }
        ensures same { IfOk result (λ index. MayStill (S.MayHold source) (S.MayHold index.source)) }
        ensures fewer { IfOk result (λ index.
            FailsNoMore (S.MayRefuse source) (S.MayRefuse index.source)) }
    {
        let mut source = source;
        let mut header = [0; HEADER_LEN];
        source.fill(0, &mut header)?;
        let len = table_len(&header)?;
        let table = read_table(alloc, &mut source, len)?;
        let table = open_table(&header, table.as_slice())?;
        let mut sums = Vec::new(alloc);
        sums.extend_from_slice(table.sums)?;
        let front = Front {
            start: (HEADER_LEN + len) as u64,
            index_len: table.index_len,
            sums,
        };
        Ok(SealedIndex {
            source,
            alloc,
            front,
        })
    }

    /// Returns the number of bytes of the index.
    pub fn index_len(&self) -> usize
        ensures { result ≡ self.now.front.index_len }
    {
        self.front.index_len
    }
}

impl Front {
    /// Reads and tests the block of this number.
    fn read_block<S: ReadAt>(
        &self,
        alloc: Global,
        source: &mut S,
        number: usize,
    ) -> Result<Vec<u8>, S::Error>
    where
        S::Error: From<AllocError> + From<SealError>,
        requires small { number < 2 ^ 48 }
        requires inside { 65536 * number < self.now.index_len }
        ensures part { IfOk result (λ block.
            IsPart (S.MayHold source.old) (self.now.start + 65536 * number) block.items) }
        ensures length { IfOk result (λ block.
            length block.items ≡ min 65536 (self.now.index_len - 65536 * number)) }
        ensures right { IfOk result (λ block.
            IsRightBlock self.now.sums.items number block.items) }
        ensures err { IfErr result (IsCause (FailsInBlock (S.MayRefuse source.old) self.now number)
            (S.Error.From-1.from_gives alloc_error) S.Error.From-2.from_gives
            (IsBlockFault (S.MayHold source.old) self.now number)) }
        ensures same { MayStill (S.MayHold source.old) (S.MayHold source.new) }
        ensures fewer { FailsNoMore (S.MayRefuse source.old) (S.MayRefuse source.new) }
    {
        let place = number * BLOCK_LEN;
        let mut block = Vec::new(alloc);
        block.resize(BLOCK_LEN.min(self.index_len - place), 0)?;
        let Some(place) = self.start.checked_add(place as u64) else {
            return Err(S::Error::from(SealError::CutShort));
        };
        source.fill(place, block.as_mut_slice())?;
        test_block(self.sums.as_slice(), number, block.as_slice())?;
        Ok(block)
    }

    /// Appends bytes of the index from this place on: as many as its block has, at most these.
    fn add_part<S: ReadAt>(
        &self,
        alloc: Global,
        source: &mut S,
        place: usize,
        most: usize,
        part: &mut Vec<u8>,
    ) -> Result<(), S::Error>
    where
        S::Error: From<AllocError> + From<SealError>,
        requires some { 0 < most }
        requires inside { place + most ≤ self.now.index_len }
        ensures part { OnOk result ((more : List ℕ)
            × IsPart (MayBeIndex (S.MayHold source.old) self.now) place more
            × (0 < length more) × (length more ≤ most) × (part.new.items ≡ part.old.items ++ more)) }
        ensures err { IfErr result (IsCause (FailsInBlocks (S.MayRefuse source.old) self.now place most)
            (S.Error.From-1.from_gives alloc_error) S.Error.From-2.from_gives
            (IsPartFault (S.MayHold source.old) self.now place most)) }
        ensures same { MayStill (S.MayHold source.old) (S.MayHold source.new) }
        ensures fewer { FailsNoMore (S.MayRefuse source.old) (S.MayRefuse source.new) }
    {
        let block = self.read_block(alloc, source, place / BLOCK_LEN)?;
        let offset = place % BLOCK_LEN;
        let count = most.min(block.len() - offset);
        part.extend_from_slice(&block.as_slice()[offset..offset + count])?;
        Ok(())
    }

    /// Returns where as many bytes of the index from a place on start, if it has them all.
    fn start_of(&self, place: u64, len: usize) -> Option<usize>
        ensures some { IfSome result (λ start. (start ≡ place)
            × (start + len ≤ self.now.index_len) × (start + len < 2 ^ 64)) }
        ensures none { IfNone result (self.now.index_len < place + len) }
    {
        let start = usize::try_from(place).ok()?;
        let most = self.index_len.checked_sub(len)?;
        if most < start {
            return None;
        }
        Some(start)
    }

    /// Reads as many bytes of the index from this place on.
    fn read<S: ReadAt>(
        &self,
        alloc: Global,
        source: &mut S,
        place: u64,
        len: usize,
    ) -> Result<Vec<u8>, S::Error>
    where
        S::Error: From<AllocError> + From<SealError>,
        ensures part { IfOk result (λ part.
            IsPart (MayBeIndex (S.MayHold source.old) self.now) place part.items) }
        ensures length { IfOk result (λ part. length part.items ≡ len) }
        ensures err { IfErr result (IsCause (FailsInBlocks (S.MayRefuse source.old) self.now place len)
            (S.Error.From-1.from_gives alloc_error) S.Error.From-2.from_gives
            (IsPartFault (S.MayHold source.old) self.now place len)) }
        ensures same { MayStill (S.MayHold source.old) (S.MayHold source.new) }
        ensures fewer { FailsNoMore (S.MayRefuse source.old) (S.MayRefuse source.new) }
    {
        let Some(start) = self.start_of(place, len) else {
            return Err(S::Error::from(SealError::CutShort));
        };
        let mut part = Vec::new(alloc);
        while part.len() < len {
            let next = start + part.len();
            self.add_part(alloc, source, next, len - part.len(), &mut part)?;
        }
        Ok(part)
    }
}

impl<S: ReadAt + Drop> ReadAt for SealedIndex<S>
where
    S::Error: From<AllocError> + From<SealError>,
{
    ghost use Rattle.std.specs.Allocator.{alloc_error};
    ghost use Rattle.zerotrie_index.specs.InBlocks.{MayBeIndex, IsCause, FailsInBlocks, IsPartFault};

    ghost MayHold = { λ index bytes. MayBeIndex (S.MayHold index.source) index.front bytes };

    ghost MayRefuse = { λ index place count. IsCause
        (FailsInBlocks (S.MayRefuse index.source) index.front place count)
        (S.Error.From-1.from_gives alloc_error) S.Error.From-2.from_gives
        (IsPartFault (S.MayHold index.source) index.front place count) };

    type Error = S::Error;

    fn fill(&mut self, place: u64, room: &mut [u8]) -> Result<(), S::Error> {
        let part = self
            .front
            .read(self.alloc, &mut self.source, place, room.len())?;
        room.copy_from_slice(part.as_slice());
        Ok(())
    }
}
