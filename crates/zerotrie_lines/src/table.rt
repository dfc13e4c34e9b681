//! Pairs whose keys are one after another in one buffer.

ghost use Rattle.std.specs.Prelude.{◌≡◌, ◌++◌, ◌∷◌, [], map, length, IfOk, OnOk, OnErr};
ghost use Rattle.zerotrie_lines.specs.Tables.{Pairs, pairs_of, lowered_pair};

use std::alloc::{AllocError, Global};
use std::marker::Model;

/// Pairs in the order in which they were added.
///
/// The bytes of all keys are one list, and a pair takes 16 bytes besides.
#[derive(Drop)]
pub struct Table {
    bytes: Vec<u8>,
    marks: Vec<(usize, usize)>,
}

impl Model for Table {
    ghost use Rattle.std.specs.Prelude.{◌≡◌, length};
    ghost use Rattle.zerotrie_lines.specs.Tables.{Pairs};
    ghost use Rattle.zerotrie_lines.specs.Tables.{cut, total};

    ghost Value = { Pairs };

    ghost view = { λ t. cut t.bytes.items t.marks.items };

    ghost invariant = { λ t. total t.marks.items ≡ length t.bytes.items };
}

impl Table {
    /// Returns a table of no pairs.
    pub fn new(alloc: Global) -> Self
        ensures { result ≡ [] }
    {
        Table {
            bytes: Vec::new(alloc),
            marks: Vec::new(alloc),
        }
    }

    /// Adds a pair.
    pub fn push(&mut self, key: &[u8], value: usize) -> Result<(), AllocError>
        ensures ok { OnOk result (self.new ≡ self.old ++ (key.now, value) ∷ []) }
        ensures err { OnErr result (self.new ≡ self.old) }
    {
        let before = self.bytes.len();
        self.bytes.extend_from_slice(key)?;
        if self.marks.push((key.len(), value)).is_err() {
            self.bytes.truncate(before);
            return Err(AllocError);
        }
        Ok(())
    }

    /// Returns how many pairs there are.
    pub fn len(&self) -> usize
        ensures { result ≡ length self.now }
    {
        self.marks.len()
    }

    /// Brings the ASCII letters of all keys into lower case.
    pub fn lower_case(&mut self)
        ensures { self.new ≡ map lowered_pair self.old }
    {
        self.bytes.make_ascii_lowercase();
    }

    /// Returns the pairs as a slice's items, whose keys borrow the table.
    pub fn items(&self, alloc: Global) -> Result<Vec<(&[u8], usize)>, AllocError>
        ensures { IfOk result (λ items. pairs_of items.items ≡ self.now) }
    {
        let mut items = Vec::with_capacity(alloc, self.marks.len())?;
        let mut rest = self.bytes.as_slice();
        for (len, value) in &self.marks {
            let (key, behind) = rest.split_at(*len);
            items.push((key, *value))?;
            rest = behind;
        }
        Ok(items)
    }
}
