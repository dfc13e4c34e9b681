//! Records: a dense table as one sequence of bytes.

ghost use Rattle.std.specs.Prelude.{◌≡◌, ◌+◌, ◌<◌, ◌≤◌, ◌↔◌, IfOk, IsOkAnd, length};
ghost use Rattle.std.specs.Result.{IsErrOf};
ghost use Rattle.zerotrie.specs.dense.Records.{Parts, record_of, asked, number_at};
ghost use Rattle.zerotrie.specs.dense.Laws.{IsWhole};
ghost use Rattle.zerotrie.specs.dense.Views.{parts_of};

use crate::dense::table::ZeroAsciiDenseSparse2dTrieBorrowed;
use std::alloc::{AllocError, Global};
use thiserror::Error;
use zerotrie_ascii::ZeroTrieSimpleAscii;

/// Bytes are not the record of a dense table.
#[derive(Clone, PartialEq, Eq, Debug, Drop, Error)]
pub enum RecordError {
    /// There are fewer bytes than the first ones say.
    #[error("Truncated")]
    Truncated,
    /// There are more bytes than the first ones say.
    #[error("TrailingBytes")]
    TrailingBytes,
}

impl RecordError {
    /// Returns what the error means, and what to do about it.
    pub fn advice(&self) -> &'static str {
        match self {
            RecordError::Truncated => "the record is cut: give all of its bytes",
            RecordError::TrailingBytes => "bytes follow the record: give its bytes alone",
        }
    }
}

/// Returns the little-endian number in the eight bytes at `place`.
fn number_in(bytes: &[u8], place: usize) -> usize
    requires { place + 8 ≤ length bytes.now }
    ensures { result ≡ number_at bytes.now place }
{
    let (_, rest) = bytes.split_at(place);
    let number = u64::from_le_bytes([
        rest[0], rest[1], rest[2], rest[3], rest[4], rest[5], rest[6], rest[7],
    ]);
    usize::try_from(number).unwrap_or(usize::MAX)
}

impl<'a> ZeroAsciiDenseSparse2dTrieBorrowed<'a> {
    /// Returns the record of the table, which `try_from_record_bytes` reads.
    ///
    /// It has, with numbers in little-endian order: the number of suffixes in two bytes, the
    /// delimiter, the lengths of the two tries and the number of cells in eight bytes each, the two
    /// tries, and the cells of the matrix in two bytes each.
    ///
    /// An error means that an allocation failed.
    pub fn to_record_bytes(&self, alloc: Global) -> Result<Vec<u8>, AllocError>
        ensures { IfOk result (λ bytes. bytes.items ≡ record_of (parts_of self.now)) }
    {
        let primary = self.primary.as_bytes();
        let suffixes = self.suffixes.as_bytes();
        let mut record = Vec::new(alloc);
        record.extend_from_slice(&self.suffix_count.to_le_bytes())?;
        record.extend_from_slice(&[self.delimiter])?;
        record.extend_from_slice(&(primary.len() as u64).to_le_bytes())?;
        record.extend_from_slice(&(suffixes.len() as u64).to_le_bytes())?;
        record.extend_from_slice(&((self.matrix.len() / 2) as u64).to_le_bytes())?;
        record.extend_from_slice(primary)?;
        record.extend_from_slice(suffixes)?;
        record.extend_from_slice(self.matrix)?;
        Ok(record)
    }

    /// Returns the table of a record, which borrows its bytes. Does not allocate.
    ///
    /// ```
    /// use zerotrie::dense::{ZeroAsciiDenseSparse2dTrieBorrowed, ZeroAsciiDenseSparse2dTrieOwned};
    ///
    /// let mut row: BTreeMap<&str, usize> = BTreeMap::new(rt.alloc());
    /// row.insert("US", 8)?;
    /// let mut rows: BTreeMap<&str, BTreeMap<&str, usize>> = BTreeMap::new(rt.alloc());
    /// rows.insert("en", row)?;
    /// let table = ZeroAsciiDenseSparse2dTrieOwned::try_from_btree_map_str(rt.alloc(), &rows, b'/')?;
    /// let record = table.as_borrowed().to_record_bytes(rt.alloc())?;
    /// let again = ZeroAsciiDenseSparse2dTrieBorrowed::try_from_record_bytes(record.as_slice())?;
    /// assert!(rt; again == table.as_borrowed());
    /// ```
    ///
    /// The first 27 bytes of a record say how many it has. With fewer the error is `Truncated`,
    /// with more it is `TrailingBytes`. Does not validate the tries and the matrix.
    pub fn try_from_record_bytes(bytes: &'a [u8]) -> Result<Self, RecordError>
        ensures read { IfOk result (λ t. bytes.now ≡ record_of (parts_of t)) }
        ensures truncated { IsErrOf result RecordError.Truncated
            ↔ (length bytes.now < asked bytes.now) }
        ensures written { (parts : Parts) → IsWhole parts → bytes.now ≡ record_of parts
            → IsOkAnd result (λ t. parts_of t ≡ parts) }
        ensures trailing { IsErrOf result RecordError.TrailingBytes
            ↔ (asked bytes.now < length bytes.now) }
    {
        if bytes.len() < 27 {
            return Err(RecordError::Truncated);
        }
        let primary_len = number_in(bytes, 3);
        let suffixes_len = number_in(bytes, 11);
        let cells = number_in(bytes, 19);
        let asked = 27 + primary_len as u128 + suffixes_len as u128 + 2 * (cells as u128);
        let given = bytes.len() as u128;
        if given < asked {
            return Err(RecordError::Truncated);
        }
        if asked < given {
            return Err(RecordError::TrailingBytes);
        }
        let suffix_count = u16::from_le_bytes([bytes[0], bytes[1]]);
        let delimiter = bytes[2];
        let (_, rest) = bytes.split_at(27);
        let (primary, rest) = rest.split_at(primary_len);
        let (suffixes, matrix) = rest.split_at(suffixes_len);
        Ok(ZeroAsciiDenseSparse2dTrieBorrowed {
            primary: ZeroTrieSimpleAscii::from_bytes(primary),
            suffixes: ZeroTrieSimpleAscii::from_bytes(suffixes),
            matrix,
            suffix_count,
            delimiter,
        })
    }
}
