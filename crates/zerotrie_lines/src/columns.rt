//! The columns that have the pairs.

ghost use Rattle.std.specs.Prelude.{◌≡◌, ◌≤◌, ◌<◌, ◌+◌, ◌^◌, ℕ, Some, IfErr, IfNone, IfOk, IfSome};
ghost use Rattle.csv.specs.Records.{field_at, fields_of};
ghost use Rattle.zerotrie_lines.specs.Records.{AreColumns, IsColumn, LacksName};
ghost use Rattle.zerotrie_lines.specs.Reads.{HasNoColumns, IsNoColumn, IsNoHeader};

use crate::fault::{BadLine, ReadError, at_line};
use crate::reading::Header;
use csv::ByteRecord;
use std::alloc::Global;

/// The columns of the key and of the value, and how many there are.
#[derive(Clone, Copy, Debug)]
pub(crate) struct Columns {
    pub key: usize,
    pub value: usize,
    pub count: usize,
}

/// A key and a value.
pub(crate) const TWO: Columns = Columns {
    key: 0,
    value: 1,
    count: 2,
};

/// Returns the first column from a place on with this name.
fn next_column(names: &ByteRecord, from: usize, name: &[u8]) -> Option<usize>
    ensures some { IfSome result (λ i. (from ≤ i) × (i + 1 < 2 ^ 64)
        × (field_at (fields_of names.now) i ≡ Some name.now)
        × LacksName (fields_of names.now) name.now from i) }
    ensures none { IfNone result ((j : ℕ) → from ≤ j
        → field_at (fields_of names.now) j ≡ Some name.now → ⊥) }
{
    for index in from..names.len() {
        if let Some(field) = names.get(index) {
            if field == name {
                return Some(index);
            }
        }
    }
    None
}

/// Returns the one column with this name.
fn column_named(alloc: Global, names: &ByteRecord, name: &str) -> Result<usize, ReadError>
    ensures ok { IfOk result (IsColumn (fields_of names.now) name.now) }
    ensures err { IfErr result (IsNoHeader (IsNoColumn (fields_of names.now) name.now)) }
{
    let Some(column) = next_column(names, 0, name.as_bytes()) else {
        let name = Vec::from_slice(alloc, name.as_bytes())?;
        return Err(at_line(1, BadLine::NoColumn(name)));
    };
    match next_column(names, column + 1, name.as_bytes()) {
        None => Ok(column),
        Some(_) => {
            let name = Vec::from_slice(alloc, name.as_bytes())?;
            Err(at_line(1, BadLine::SameColumns(name)))
        }
    }
}

impl Header<'_> {
    /// Returns the columns that have the pairs, by the fields of the header.
    pub(crate) fn columns(self, alloc: Global, names: &ByteRecord) -> Result<Columns, ReadError>
        ensures ok { IfOk result (AreColumns self.entry (fields_of names.now)) }
        ensures err { IfErr result (IsNoHeader (HasNoColumns self.entry (fields_of names.now))) }
    {
        match self {
            Header::Absent | Header::Present => Ok(TWO),
            Header::Named(of) => Ok(Columns {
                key: column_named(alloc, names, of.key)?,
                value: column_named(alloc, names, of.value)?,
                count: names.len(),
            }),
        }
    }
}
