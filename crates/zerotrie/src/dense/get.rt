//! Look-ups in a dense table.

ghost use Rattle.std.specs.Prelude.{◌≡◌};
ghost use Rattle.zerotrie_core.specs.Kind.{simple_ascii};
ghost use Rattle.zerotrie_core.specs.Machine.{after_steps};
ghost use Rattle.zerotrie_core.specs.Maps.{Pairs, Map, value_at};
ghost use Rattle.zerotrie_core.specs.Texts.{Lists, Means};
ghost use Rattle.zerotrie.specs.dense.Laws.{Answers, AnswersByMaps, in_matrix};
ghost use Rattle.zerotrie.specs.dense.Reading.{row_answer, beside_value};
ghost use Rattle.zerotrie.specs.dense.Views.{parts_of};

use crate::dense::laws::answer_is_entry;
use crate::dense::table::ZeroAsciiDenseSparse2dTrieBorrowed;
use zerotrie_core::{Simple, laws, step, take_value};

/// Steps by each byte of a key, as long as anything remains.
fn follow(trie: &mut &[u8], key: &[u8])
    ensures { (pairs : Pairs) → Lists simple_ascii trie.old.now pairs
        → Lists simple_ascii trie.new.now (after_steps simple_ascii key.now pairs) }
{
    for byte in key {
        if trie.is_empty() {
            return;
        }
        let _edge = step::<Simple>(trie, *byte);
    }
}

/// Returns the value of a key in a trie.
fn value_after(trie: &[u8], key: &[u8]) -> Option<usize>
    ensures { (pairs : Pairs) → Lists simple_ascii trie.now pairs
        → result ≡ value_at simple_ascii pairs key.now }
{
    let mut left = trie;
    follow(&mut left, key);
    take_value(&mut left)
}

/// Returns the value of a key in a trie, and for the empty key `None`.
fn value_beside(trie: &[u8], key: &[u8]) -> Option<usize>
    ensures { (pairs : Pairs) → Lists simple_ascii trie.now pairs
        → result ≡ beside_value pairs key.now }
{
    if key.is_empty() {
        return None;
    }
    value_after(trie, key)
}

impl<'a> ZeroAsciiDenseSparse2dTrieBorrowed<'a> {
    /// Returns the value of a prefix and a suffix, or `None` if the table does not have it. Does
    /// not allocate.
    ///
    /// ```
    /// use zerotrie::dense::ZeroAsciiDenseSparse2dTrieOwned;
    ///
    /// let mut row: BTreeMap<&str, usize> = BTreeMap::new(rt.alloc());
    /// row.insert("US", 8)?;
    /// let mut rows: BTreeMap<&str, BTreeMap<&str, usize>> = BTreeMap::new(rt.alloc());
    /// rows.insert("en", row)?;
    /// let table = ZeroAsciiDenseSparse2dTrieOwned::try_from_btree_map_str(rt.alloc(), &rows, b'/')?;
    /// let table = table.as_borrowed();
    /// assert_eq!(rt; table.get("en", "US"), Some(8));
    /// assert_eq!(rt; table.get("en", "UK"), None);
    /// ```
    ///
    /// A string that has the delimiter or is not ASCII is in no table. On a table from a malformed
    /// record the result is unspecified; it never panics or reads outside the record.
    pub fn get(&self, prefix: &str, suffix: &str) -> Option<usize>
        ensures entry { Answers (parts_of self.now) prefix.now suffix.now result }
        ensures maps { AnswersByMaps (parts_of self.now) prefix.now suffix.now result }
    {
        self.get_bytes(prefix.as_bytes(), suffix.as_bytes())
    }

    /// Returns the value of a prefix and a suffix, as `get` does, for bytes that need not be UTF-8.
    ///
    /// ```
    /// use zerotrie::dense::ZeroAsciiDenseSparse2dTrieOwned;
    ///
    /// let mut row: BTreeMap<&str, usize> = BTreeMap::new(rt.alloc());
    /// row.insert("US", 8)?;
    /// let mut rows: BTreeMap<&str, BTreeMap<&str, usize>> = BTreeMap::new(rt.alloc());
    /// rows.insert("en", row)?;
    /// let table = ZeroAsciiDenseSparse2dTrieOwned::try_from_btree_map_str(rt.alloc(), &rows, b'/')?;
    /// assert_eq!(rt; table.as_borrowed().get_bytes(b"en", b"US"), Some(8));
    /// assert_eq!(rt; table.as_borrowed().get_bytes(b"en", b"\xFF"), None);
    /// ```
    pub fn get_bytes(&self, prefix: &[u8], suffix: &[u8]) -> Option<usize>
        ensures entry { Answers (parts_of self.now) prefix.now suffix.now result }
        ensures maps { AnswersByMaps (parts_of self.now) prefix.now suffix.now result }
    {
        laws::canonical_exactly();
        answer_is_entry();
        self.answer(prefix, suffix)
    }

    /// Returns the value by the two tries and the matrix.
    fn answer(&self, prefix: &[u8], suffix: &[u8]) -> Option<usize>
        ensures { AnswersByMaps (parts_of self.now) prefix.now suffix.now result }
    {
        if prefix.contains(&self.delimiter) || suffix.contains(&self.delimiter) {
            return None;
        }
        let mut trie = self.primary.as_bytes();
        follow(&mut trie, prefix);
        let row = take_value(&mut trie);
        let _edge = step::<Simple>(&mut trie, self.delimiter);
        match row {
            Some(row) => self.answer_in_row(trie, row, suffix),
            None => value_after(trie, suffix),
        }
    }

    /// Returns the value of a suffix in a dense row. `trie` is what the primary trie has after the
    /// prefix and the delimiter.
    fn answer_in_row(&self, trie: &[u8], row: usize, suffix: &[u8]) -> Option<usize>
        ensures { (pairs : Pairs) (columns : Map) → Lists simple_ascii trie.now pairs
            → Means simple_ascii (parts_of self.now).suffixes columns
            → result ≡ row_answer (parts_of self.now) pairs columns suffix.now row }
    {
        let mut left = trie;
        let offset = take_value(&mut left);
        match value_beside(left, suffix) {
            Some(value) => Some(value),
            None => self.in_matrix(row, offset, self.suffixes.get(suffix)),
        }
    }

    /// Returns the value in the matrix for a row, its offset and a column, if these exist.
    fn in_matrix(&self, row: usize, offset: Option<usize>, column: Option<usize>) -> Option<usize>
        ensures { result ≡ in_matrix (parts_of self.now) row offset column }
    {
        let offset = offset?;
        let column = column?;
        let index = row
            .checked_mul(usize::from(self.suffix_count))?
            .checked_add(column)?;
        if index >= self.matrix.len() / 2 {
            return None;
        }
        let cell = u16::from_le_bytes([self.matrix[2 * index], self.matrix[2 * index + 1]]);
        if cell == u16::MAX {
            return None;
        }
        offset.checked_add(usize::from(cell))
    }
}
