//! Opening of indexes: an index, or its table, of a sealed file.

ghost use Rattle.std.specs.Prelude.{◌≡◌, ◌*◌, ◌≤◌, ◌↔◌, IsTrue, IfOk, IfErr, IfSome, IfNone, ℕ, List, ◌++◌, length, take};
ghost use Rattle.std.specs.Int.{w64, to_le_bytes};
ghost use Rattle.zerotrie_sealed.specs.Sealed.{blocks_number, IsIndexNumber, block_count, sums_of, table_of, IsSealedAs, IsSealedInBlocks, IsSealedIndex};
ghost use Rattle.zerotrie_sealed.specs.Faults.{HasKnown, HasSumOf, IsBlocksFault, IsBlocksRightBefore, IsIndexFault, IsIndexRightBefore, HasTableLen, HasTable, length_in, table_in, index_in, IsHeaderFault, IsHeaderRightBefore, IsTableFault, IsTableRightBefore, BeginsWithTable};

use crate::blocks::{are_sums, block_count};
use crate::reading::{SealError, has_checksum, length_in, number_in, whole_in};
use crate::writing::{BLOCKS_NUMBER, HEADER_LEN, INDEX_NUMBER};

/// The table in front of an index in blocks.
#[derive(Clone, Copy, PartialEq, Eq, Debug)]
pub struct IndexTable<'a> {
    /// The number of bytes of the index.
    pub index_len: usize,
    /// The CRC-32C of each block of the index, in four bytes, the lowest first.
    pub sums: &'a [u8],
}

/// Returns whether a number in a header is that of an index: `open` refuses both by `UnknownKind`.
///
/// ```
/// let file = seal_index(rt.alloc(), b"an index")?;
/// assert!(rt; matches!(open(file.as_slice()), Err(SealError::UnknownKind(25))));
/// assert!(rt; is_index_number(25) && is_index_number(24) && !is_index_number(3));
/// ```
pub fn is_index_number(number: u16) -> bool
    ensures { IsTrue result ↔ IsIndexNumber number }
{
    number == INDEX_NUMBER || number == BLOCKS_NUMBER
}

/// Returns the parts of a table, if it is as long as one of an index of the length in it.
fn parts_of(table: &[u8]) -> Option<IndexTable<'_>>
    ensures parts { IfSome result (λ t. table.now ≡ to_le_bytes w64 t.index_len ++ t.sums.now) }
    ensures some { IfSome result (λ _. HasTableLen table.now) }
    ensures none { IfNone result (HasTableLen table.now → ⊥) }
{
    let (len, sums) = table.split_first_chunk::<8>()?;
    let index_len = usize::try_from(u64::from_le_bytes(*len)).ok()?;
    if sums.len() != 4 * block_count(index_len) {
        return None;
    }
    Some(IndexTable { index_len, sums })
}

/// Returns the parts of the table behind a header, if it has the checksum in the header and is as
/// long as it says.
fn table_behind<'a>(header: &[u8], table: &'a [u8]) -> Option<IndexTable<'a>>
    requires { 24 ≤ length header.now }
    ensures parts { IfSome result (λ t. table.now ≡ to_le_bytes w64 t.index_len ++ t.sums.now) }
    ensures some { IfSome result (λ _. HasSumOf table.now header.now × HasTableLen table.now) }
    ensures none { IfNone result (HasSumOf table.now header.now → HasTableLen table.now → ⊥) }
{
    if !has_checksum(header, table) {
        return None;
    }
    parts_of(table)
}

/// Returns the parts of the table in a file, and what is behind it.
fn table_in(file: &[u8]) -> Result<(IndexTable<'_>, &[u8]), SealError>
    requires { 24 ≤ length file.now }
    ensures parts { IfOk result (λ r.
        table_in file.now ≡ to_le_bytes w64 r.0.index_len ++ r.0.sums.now) }
    ensures index { IfOk result (λ r. r.1.now ≡ index_in file.now) }
    ensures table { IfOk result (λ _. HasTable file.now) }
    ensures fault { IfErr result (IsBlocksFault file.now) }
    ensures order { HasKnown IsIndexNumber file.now → IfErr result (IsBlocksRightBefore file.now) }
{
    let (_, bytes) = file.split_at(HEADER_LEN);
    let Some((table, behind)) = bytes.split_at_checked(length_in(file)) else {
        return Err(SealError::CutShort);
    };
    let Some(table) = table_behind(file, table) else {
        return Err(SealError::Checksum);
    };
    Ok((table, behind))
}

/// Returns the index in a file that is sealed in blocks.
fn index_in(file: &[u8]) -> Result<&[u8], SealError>
    requires { 24 ≤ length file.now }
    ensures index { IfOk result (λ index. index.now ≡ index_in file.now) }
    ensures table { IfOk result (λ index. HasTable file.now × (table_in file.now ≡ table_of index.now)) }
    ensures fault { IfErr result (IsBlocksFault file.now) }
    ensures order { HasKnown IsIndexNumber file.now → IfErr result (IsBlocksRightBefore file.now) }
{
    let (table, index) = table_in(file)?;
    if index.len() < table.index_len {
        return Err(SealError::CutShort);
    }
    if table.index_len < index.len() {
        return Err(SealError::TooLong);
    }
    if !are_sums(table.sums, index) {
        return Err(SealError::Checksum);
    }
    Ok(index)
}

/// Returns the index in a sealed file: the bytes that were sealed. Does not copy or
/// validate them, and does not allocate.
///
/// ```
/// let file = seal_index(rt.alloc(), b"an index")?;
/// assert_eq!(rt; open_index(file.as_slice())?, b"an index".as_slice());
/// assert!(rt; open(file.as_slice()).err() == Some(SealError::UnknownKind(BLOCKS_NUMBER)));
///
/// let trie = seal(rt.alloc(), TrieKind::Hash, b"a\x85")?;
/// assert!(rt; open_index(trie.as_slice()).err() == Some(SealError::UnknownKind(3)));
/// ```
///
/// A file is taken exactly if it is what `seal_index` returns for some bytes, or has them sealed as a
/// whole, as earlier versions did, and these are what is returned. What an error says is true of the
/// file, and the parts are looked at in the order of `open`; `UnknownKind` says that it is sealed as
/// no index. In a file of blocks, the table with its checksum comes first, then the length of the
/// index, and then the checksum of each block.
pub fn open_index(file: &[u8]) -> Result<&[u8], SealError>
    ensures ok { IfOk result (λ index. IsSealedIndex index.now file.now) }
    ensures fault { IfErr result (IsIndexFault file.now) }
    ensures order { IfErr result (IsIndexRightBefore file.now) }
    ensures none { IfErr result (λ _. (index : List ℕ) → IsSealedIndex index file.now → ⊥) }
{
    match number_in(file)? {
        BLOCKS_NUMBER => index_in(file),
        INDEX_NUMBER => whole_in(file),
        number => Err(SealError::UnknownKind(number)),
    }
}

/// Returns the number of bytes of the table in front of an index, by the header of its file. It is
/// for files that are read at places; `open_index` needs no such call.
///
/// ```
/// let file = seal_index(rt.alloc(), b"an index")?;
/// let Some((header, _)) = file.split_first_chunk() else { return Ok(()) };
/// assert_eq!(rt; table_len(header)?, 12);
/// ```
///
/// The errors are `NoMagic`, `UnknownVersion` and `UnknownKind`, also of a file that is sealed as a
/// whole, with the number 24. The parts are looked at in this order.
pub fn table_len(header: &[u8; HEADER_LEN]) -> Result<usize, SealError>
    ensures len { IfOk result (λ len. len ≡ length_in header.now) }
    ensures known { IfOk result (λ _. HasKnown (λ number. number ≡ blocks_number) header.now) }
    ensures fault { IfErr result (IsHeaderFault header.now) }
    ensures order { IfErr result (IsHeaderRightBefore header.now) }
    ensures none { IfErr result (λ _. (index file : List ℕ) → take 24 file ≡ header.now
        → IsSealedInBlocks index file → ⊥) }
{
    let number = number_in(header)?;
    if number != BLOCKS_NUMBER {
        return Err(SealError::UnknownKind(number));
    }
    Ok(length_in(header))
}

/// Returns the table in front of an index, by the header and the bytes of the table, as many as
/// `table_len` returns. It says what each block of the index has to be.
///
/// ```
/// let file = seal_index(rt.alloc(), b"an index")?;
/// let Some((header, behind)) = file.split_first_chunk() else { return Ok(()) };
/// let (table, index) = behind.split_at(table_len(header)?);
/// let table = open_table(header, table)?;
/// assert_eq!(rt; table.index_len, 8);
/// assert_eq!(rt; table.sums, crc32c(index).to_le_bytes().as_slice());
/// ```
///
/// What an error says is true of each file that begins with these bytes: none is a sealed index but
/// one as a whole, of which `UnknownKind(24)` is returned. The header is looked at first, then the
/// length of the table and its checksum.
pub fn open_table<'a>(
    header: &[u8; HEADER_LEN],
    table: &'a [u8],
) -> Result<IndexTable<'a>, SealError>
    ensures sealed { IfOk result (λ _. IsSealedAs blocks_number table.now (header.now ++ table.now)) }
    ensures len { IfOk result (λ t. length t.sums.now ≡ 4 * block_count t.index_len) }
    ensures parts { IfOk result (λ t. table.now ≡ to_le_bytes w64 t.index_len ++ t.sums.now) }
    ensures of { IfOk result (λ t. (index file : List ℕ)
        → BeginsWithTable header.now table.now file → IsSealedInBlocks index file
        → (t.index_len ≡ length index) × (t.sums.now ≡ sums_of index)) }
    ensures fault { IfErr result (IsTableFault header.now table.now) }
    ensures order { IfErr result (IsTableRightBefore header.now table.now) }
    ensures none { IfErr result (λ _. (index file : List ℕ)
        → BeginsWithTable header.now table.now file → IsSealedInBlocks index file → ⊥) }
{
    let len = table_len(header)?;
    if table.len() < len {
        return Err(SealError::CutShort);
    }
    if len < table.len() {
        return Err(SealError::TooLong);
    }
    let Some(table) = table_behind(header, table) else {
        return Err(SealError::Checksum);
    };
    Ok(table)
}
