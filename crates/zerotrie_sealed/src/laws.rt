//! Laws of the definitions alone, as contracts that a caller's proof can cite.
//!
//! Each function does nothing: a call brings its law into a proof.

ghost use Rattle.zerotrie_sealed.specs.Laws.{OneTrie, OneContent, NoneLonger, OneByteShows, OneIndex, NoIndexLonger, OneByteOfIndexShows, IndexIsBehind};

/// A file is the seal of one trie at most, in one kind.
pub fn one_trie()
    ensures { OneTrie }
{}

/// A file is the seal of one list of bytes at most, by one number. So no file is that of a trie and
/// of an index.
pub fn one_content()
    ensures { OneContent }
{}

/// No sealed file is the beginning of a longer one: neither a cut file nor one with bytes behind it
/// is sealed.
pub fn none_longer()
    ensures { NoneLonger }
{}

/// A sealed file in which one byte is replaced by another is no sealed file.
pub fn one_byte_shows()
    ensures { OneByteShows }
{}

/// A file is the seal of one index at most, and of no trie as well.
pub fn one_index()
    ensures { OneIndex }
{}

/// No sealed index is the beginning of a longer one.
pub fn no_index_longer()
    ensures { NoIndexLonger }
{}

/// A sealed index in which one byte is replaced by another is no sealed index.
pub fn one_byte_of_index_shows()
    ensures { OneByteOfIndexShows }
{}

/// If a sealed index begins with the front of one in blocks, the index is what is behind it, and the
/// table in the front is that of the index. So what is read there at places is what `open_index` returns.
pub fn index_is_behind()
    ensures { IndexIsBehind }
{}
