//! Laws of the definitions. A law is an empty function: a call of it brings its clause into the
//! caller's proof.

ghost use Rattle.zerotrie_queries.specs.code.Laws.{CodeCountsBytes, CodeNamesKind, CodeSpellsBytes};

/// The numbers in the code of a trie are its bytes, whatever word its name is.
pub fn code_spells_bytes()
    ensures { CodeSpellsBytes }
{}

/// The constant that the code of C names is the number of the kind in `zerotrie.h`.
pub fn code_names_kind()
    ensures { CodeNamesKind }
{}

/// The length in the code of C, which is the size of the array less one, is that of the bytes.
pub fn code_counts_bytes()
    ensures { CodeCountsBytes }
{}
