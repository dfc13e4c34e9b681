//! Dense tables, over owned and over borrowed bytes.

ghost use Rattle.std.specs.Prelude.{◌≡◌, ◌↔◌, IsTrue};
ghost use Rattle.std.specs.Ordering.{on};
ghost use Rattle.std.specs.Cmp.Rules.{comparing};
ghost use Rattle.std.proofs.Common.{rules};
ghost use Rattle.zerotrie.specs.dense.Records.{same_parts};
ghost use Rattle.zerotrie.specs.dense.Views.{parts_of, owned_parts};

use zerotrie_ascii::ZeroTrieSimpleAscii;

/// A table from a prefix and a suffix to a number, over bytes of its own.
///
/// ```
/// use zerotrie::dense::ZeroAsciiDenseSparse2dTrieOwned;
///
/// let mut row: BTreeMap<&str, usize> = BTreeMap::new(rt.alloc());
/// row.insert("US", 8)?;
/// let mut rows: BTreeMap<&str, BTreeMap<&str, usize>> = BTreeMap::new(rt.alloc());
/// rows.insert("en", row)?;
/// let table = ZeroAsciiDenseSparse2dTrieOwned::try_from_btree_map_str(rt.alloc(), &rows, b'/')?;
/// assert_eq!(rt; table.as_borrowed().get("en", "US"), Some(8));
/// ```
///
/// A prefix names a row, and a suffix a value in it. Most values of a row with many suffixes are in
/// a matrix, of two bytes for each suffix, and the others in a trie.
#[derive(Debug, Drop)]
pub struct ZeroAsciiDenseSparse2dTrieOwned {
    pub(crate) primary: ZeroTrieSimpleAscii<Vec<u8>>,
    pub(crate) suffixes: ZeroTrieSimpleAscii<Vec<u8>>,
    pub(crate) matrix: Vec<u8>,
    pub(crate) suffix_count: u16,
    pub(crate) delimiter: u8,
}

/// A table from a prefix and a suffix to a number, over borrowed bytes: a
/// `ZeroAsciiDenseSparse2dTrieOwned` that borrows.
#[derive(Debug, Drop)]
pub struct ZeroAsciiDenseSparse2dTrieBorrowed<'a> {
    pub(crate) primary: ZeroTrieSimpleAscii<&'a [u8]>,
    pub(crate) suffixes: ZeroTrieSimpleAscii<&'a [u8]>,
    pub(crate) matrix: &'a [u8],
    pub(crate) suffix_count: u16,
    pub(crate) delimiter: u8,
}

impl ZeroAsciiDenseSparse2dTrieOwned {
    /// Returns the same table, which borrows these bytes. Does not allocate.
    pub fn as_borrowed(&self) -> ZeroAsciiDenseSparse2dTrieBorrowed<'_>
        ensures { parts_of result ≡ owned_parts self.now }
    {
        ZeroAsciiDenseSparse2dTrieBorrowed {
            primary: self.primary.as_borrowed(),
            suffixes: self.suffixes.as_borrowed(),
            matrix: self.matrix.as_slice(),
            suffix_count: self.suffix_count,
            delimiter: self.delimiter,
        }
    }
}

impl PartialEq for ZeroAsciiDenseSparse2dTrieBorrowed<'_> {
    ghost eq = { on parts_of same_parts };

    ghost laws = { Prim.search (comparing, rules) };

    fn eq(&self, other: &Self) -> bool
        ensures tells { result ≡ same_parts (parts_of self.now) (parts_of other.now) }
        ensures parts { IsTrue result ↔ (parts_of self.now ≡ parts_of other.now) }
    {
        self.suffix_count == other.suffix_count
            && self.delimiter == other.delimiter
            && self.primary.as_bytes() == other.primary.as_bytes()
            && self.suffixes.as_bytes() == other.suffixes.as_bytes()
            && self.matrix == other.matrix
    }
}

impl Eq for ZeroAsciiDenseSparse2dTrieBorrowed<'_> {
    ghost laws = { Prim.search (comparing, rules) };
}

impl PartialEq for ZeroAsciiDenseSparse2dTrieOwned {
    ghost eq = { on owned_parts same_parts };

    ghost laws = { Prim.search (comparing, rules) };

    fn eq(&self, other: &Self) -> bool
        ensures tells { result ≡ same_parts (owned_parts self.now) (owned_parts other.now) }
        ensures parts { IsTrue result ↔ (owned_parts self.now ≡ owned_parts other.now) }
    {
        self.as_borrowed() == other.as_borrowed()
    }
}

impl Eq for ZeroAsciiDenseSparse2dTrieOwned {
    ghost laws = { Prim.search (comparing, rules) };
}
