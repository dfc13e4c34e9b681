//! Dense tables: their parts, look-ups, records and refusals.

use super::*;
use zerotrie::dense::{
    RecordError, ZeroAsciiDenseSparse2dTrieBorrowed, ZeroAsciiDenseSparse2dTrieOwned,
};

/// A table, or the error.
type Built = Result<ZeroAsciiDenseSparse2dTrieOwned, ZeroTrieBuildError>;

fn table_by(alloc: Global, table: &[Entries<'_>], delimiter: u8) -> Built {
    let rows = rows_of(alloc, table)?;
    ZeroAsciiDenseSparse2dTrieOwned::try_from_btree_map_str(alloc, &rows, delimiter)
}

fn record_of(alloc: Global, table: &[Entries<'_>]) -> Result<Vec<u8>, ZeroTrieBuildError> {
    let table = table_by(alloc, table, b'/')?;
    Ok(table.as_borrowed().to_record_bytes(alloc)?)
}

/// The error of reading a record.
fn refusal_of(record: &[u8]) -> Option<RecordError> {
    ZeroAsciiDenseSparse2dTrieBorrowed::try_from_record_bytes(record).err()
}

/// Entries, and the parts of their table: primary trie, trie of the suffixes, number of suffixes,
/// cells.
type Row<'a> = (&'a [Entries<'a>], &'a [u8], &'a [u8], u16, &'a [u16]);

/// Bytes one after another.
fn joined(alloc: Global, parts: &[&[u8]]) -> Result<Vec<u8>, AllocError> {
    let mut all = Vec::new(alloc);
    for part in parts {
        all.extend_from_slice(part)?;
    }
    Ok(all)
}

/// The record with these parts.
fn record_with(alloc: Global, row: &Row<'_>) -> Result<Vec<u8>, AllocError> {
    let (_, primary, suffixes, count, cells) = *row;
    let mut record = joined(
        alloc,
        &[
            &count.to_le_bytes(),
            b"/",
            &(primary.len() as u64).to_le_bytes(),
            &(suffixes.len() as u64).to_le_bytes(),
            &(cells.len() as u64).to_le_bytes(),
            primary,
            suffixes,
        ],
    )?;
    for cell in cells {
        record.extend_from_slice(&cell.to_le_bytes())?;
    }
    Ok(record)
}

/// Returns whether a table finds each value of a row, and none with its texts the other way round.
fn finds_row(
    table: &ZeroAsciiDenseSparse2dTrieBorrowed<'_>,
    prefix: &str,
    row: &[(&str, usize)],
) -> bool {
    for (suffix, value) in row {
        if table.get(prefix, suffix) != Some(*value) || table.get(suffix, prefix).is_some() {
            return false;
        }
    }
    true
}

fn finds(table: &ZeroAsciiDenseSparse2dTrieBorrowed<'_>, entries: &[Entries<'_>]) -> bool {
    for (prefix, row) in entries {
        if !finds_row(table, prefix, row) {
            return false;
        }
    }
    true
}

/// Returns whether a record is read as this table, which finds these entries.
fn is_read(
    table: &ZeroAsciiDenseSparse2dTrieBorrowed<'_>,
    record: &[u8],
    entries: &[Entries<'_>],
) -> bool {
    match ZeroAsciiDenseSparse2dTrieBorrowed::try_from_record_bytes(record) {
        Ok(read) => read == *table && finds(&read, entries),
        Err(_) => false,
    }
}

/// Returns whether the record of a table has these parts, and is read again as the table.
fn has_parts(alloc: Global, table: &ZeroAsciiDenseSparse2dTrieBorrowed<'_>, row: &Row<'_>) -> bool {
    match table.to_record_bytes(alloc) {
        Ok(record) => {
            is_bytes(record_with(alloc, row), &record) && is_read(table, &record, row.0)
        }
        Err(_) => false,
    }
}

/// Returns whether the table of the entries has these parts, and finds each of its entries, also if
/// it is read from its record.
fn is_table_of(alloc: Global, row: &Row<'_>) -> bool {
    match table_by(alloc, row.0, b'/') {
        Ok(table) => has_parts(alloc, &table.as_borrowed(), row),
        Err(_) => false,
    }
}

/// The window of the first row is full: it has the numbers from 52 to 65,586.
const WIDE: &[Entries<'static>] = &[(
    "p",
    &[
        ("a", 50),
        ("b", 52),
        ("c", 53),
        ("c2", 53),
        ("c3", 53),
        ("d", 65_582),
        ("e", 65_583),
        ("f", 65_584),
        ("g", 65_585),
        ("h", 65_586),
        ("high", 65_685),
        ("low", 0),
        ("low2", 0),
    ],
)];

const TABLES: &[Row<'static>] = &[
    (
        &[
            (
                "ar",
                &[("FR", 0), ("IR", 1), ("SA", 2), ("UK", 3), ("US", 4)],
            ),
            ("en", &[("AU", 5), ("FR", 6), ("UK", 7), ("US", 8)]),
            ("fr", &[("FR", 9), ("SA", 10), ("UK", 11), ("US", 12)]),
            ("it", &[("IT", 13)]),
        ],
        b"\xC4aefi\x04\x08\x0Cr\x80/\x80n\x81/\x85r\x82/\x89t/IT\x8D",
        b"\xC5AFISU\x02\x04\x0A\x0CU\x80R\x81\xC2RT\x01\x82\x83A\x84\xC2KS\x01\x85\
        \x86",
        7,
        &[
            65535, 0, 1, 65535, 2, 3, 4, 0, 1, 65535, 65535, 65535, 2, 3, 65535, 0, 65535, 65535,
            1, 2, 3,
        ],
    ),
    (
        &[
            ("aaa", &[("BBB", 1), ("CCC", 2)]),
            ("ddd", &[("BBB", 3), ("EEE", 4)]),
            ("fff", &[("BBB", 5)]),
        ],
        b"\xC3adf\x05\x0Aaa\x80/\x81dd\x81/\x83ff/BBB\x85",
        b"\xC3BCE\x03\x06BB\x80CC\x81EE\x82",
        3,
        &[0, 1, 65535, 0, 65535, 1],
    ),
    (
        &[("aa", &[("", 100), ("BBBB", 101)])],
        b"aa\x80/\x90T",
        b"\x80BBBB\x81",
        2,
        &[0, 1],
    ),
    (
        WIDE,
        b"p\x80/\x90$\xC3ahl\x02\x08\x90\x22igh\x93\xF1\x05ow\x802\x80",
        b"\xC9abcdefghl\x01\x02\x09\x0A\x0B\x0C\x0D\x12\x80\x81\x82\xC223\x01\x83\
        \x84\x85\x86\x87\x88\x89igh\x8Aow\x8B2\x8C",
        13,
        &[
            65535, 0, 1, 1, 1, 65530, 65531, 65532, 65533, 65534, 65535, 65535, 65535,
        ],
    ),
    (
        &[
            ("de", &[("AT", 8), ("CH", 9), ("DE", 7), ("rare3", 102)]),
            ("en", &[("CA", 3), ("GB", 2), ("US", 1), ("rare1", 100)]),
            ("es", &[("ES", 104), ("rare4", 103)]),
            ("fr", &[("BE", 6), ("CA", 5), ("FR", 4), ("rare2", 101)]),
        ],
        b"\xC3def\x16=e/\xC4ACDr\x02\x04\x06T\x88H\x89E\x87are3\x90V\xC2ns\x15/\xC4C\
        GUr\x02\x04\x06A\x83B\x82S\x81are1\x90T/\xC2Er\x03S\x90Xare4\x90Wr/\xC4BCFr\
        \x02\x04\x06E\x86A\x85R\x84are2\x90U",
        b"\xC9ABCDEFGUr\x02\x04\x0A\x0C\x0E\x10\x12\x14T\x80E\x81\xC2AH\x01\x82\x83E\
        \x84S\x85R\x86B\x87S\x88are\xC41234\x01\x02\x03\x89\x8A\x8B\x8C",
        13,
        &[],
    ),
    (&[], b"", b"", 0, &[]),
];

#[test]
fn tables_have_their_parts(rt: HostRuntime) {
    for row in TABLES {
        holds(&rt, is_table_of(rt.alloc(), row));
    }
}

/// Returns whether a table finds its entries, and its record says that it has this many cells.
fn has_cells(
    alloc: Global,
    table: &ZeroAsciiDenseSparse2dTrieBorrowed<'_>,
    entries: &[Entries<'_>],
    cells: usize,
) -> bool {
    match table.to_record_bytes(alloc) {
        Ok(record) => {
            let told = record.as_slice().get(19..27);
            told == Some((cells as u64).to_le_bytes().as_slice()) && finds(table, entries)
        }
        Err(_) => false,
    }
}

fn is_table_with_cells(alloc: Global, entries: &[Entries<'_>], cells: usize) -> bool {
    match table_by(alloc, entries, b'/') {
        Ok(table) => has_cells(alloc, &table.as_borrowed(), entries, cells),
        Err(_) => false,
    }
}

const EMPTY_SUFFIX: &[(&[Entries<'static>], usize)] = &[
    (&[("aa", &[("", 7)])], 0),
    (
        &[("aa", &[("", 0), ("BBBB", 100_000), ("CCCC", 100_001)])],
        0,
    ),
    (&[("aa", &[("", usize::MAX - 1), ("BBBB", usize::MAX)])], 2),
];

#[test]
fn the_empty_suffix_is_found(rt: HostRuntime) {
    for (entries, cells) in EMPTY_SUFFIX {
        holds(&rt, is_table_with_cells(rt.alloc(), entries, *cells));
    }
}

#[test]
fn a_row_without_suffixes_adds_nothing(rt: HostRuntime) -> Result<(), Fail> {
    let alloc = rt.alloc();
    let row: Row<'_> = (
        &[("aaa", &[]), ("bbb", &[("X", 1)])],
        b"bbb/X\x81",
        b"X\x80",
        1,
        &[],
    );
    let record = record_of(alloc, row.0)?;
    same(&rt, record.len(), 35);
    holds(&rt, is_bytes(record_with(alloc, &row), &record));
    Ok(())
}

/// Entries, a delimiter, and the error of building their table.
const REFUSED: &[(&[Entries<'static>], u8, ZeroTrieBuildError)] = &[
    (
        &[("aa/bb", &[("CCC", 1)])],
        b'/',
        ZeroTrieBuildError::IllegalDelimiter,
    ),
    (
        &[("aaa", &[("BB/CC", 1)])],
        b'/',
        ZeroTrieBuildError::IllegalDelimiter,
    ),
    (
        &[("aaa", &[("é", 1)])],
        b'/',
        ZeroTrieBuildError::NonAsciiError,
    ),
    (
        &[("aa", &[("BB", 1)])],
        128,
        ZeroTrieBuildError::NonAsciiError,
    ),
    // A row without suffixes is tested, too.
    (
        &[("aa/bb", &[]), ("aaa", &[]), ("bbb", &[("X", 1)])],
        b'/',
        ZeroTrieBuildError::IllegalDelimiter,
    ),
    (
        &[("aaa", &[]), ("bbb", &[("X", 1)]), ("é", &[])],
        b'/',
        ZeroTrieBuildError::NonAsciiError,
    ),
];

#[test]
fn texts_and_delimiters_are_tested(rt: HostRuntime) {
    for (entries, delimiter, error) in REFUSED {
        holds(
            &rt,
            is_refused(table_by(rt.alloc(), entries, *delimiter), error),
        );
    }
}

/// The numbers below this one, as texts of five digits.
fn numbers_up_to(alloc: Global, end: usize) -> Result<Vec<String>, Fail> {
    let mut texts = Vec::new(alloc);
    for number in 0..end {
        texts.push(format!(in alloc; "{number:05}")?)?;
    }
    Ok(texts)
}

/// Texts as suffixes, each with value 0.
fn suffixes_of<'a>(
    alloc: Global,
    texts: &'a [String],
) -> Result<Vec<(&'a str, usize)>, ZeroTrieBuildError> {
    let mut suffixes = Vec::new(alloc);
    for text in texts {
        suffixes.push((text.as_str(), 0))?;
    }
    Ok(suffixes)
}

/// Returns whether a table of one row with these suffixes returns this error.
fn is_row_refused(alloc: Global, suffixes: &[(&str, usize)], error: &ZeroTrieBuildError) -> bool {
    is_refused(table_by(alloc, &[("p", suffixes)], b'/'), error)
}

#[test]
fn too_many_suffixes_are_refused(rt: HostRuntime) -> Result<(), Fail> {
    let alloc = rt.alloc();
    let texts = numbers_up_to(alloc, 65_536)?;
    let suffixes = suffixes_of(alloc, &texts)?;
    holds(
        &rt,
        is_row_refused(alloc, &suffixes, &ZeroTrieBuildError::CapacityExceeded),
    );
    Ok(())
}

/// Returns whether each front of a record is refused.
fn is_refused_if_cut(record: &[u8]) -> bool {
    for len in 0..record.len() {
        if refusal_of(&record[..len]) != Some(RecordError::Truncated) {
            return false;
        }
    }
    true
}

#[test]
fn records_have_their_length(rt: HostRuntime) -> Result<(), Fail> {
    let entries: [Entries<'_>; 2] = [
        ("aaa", &[("BBB", 1), ("CCC", 2)]),
        ("ddd", &[("BBB", 3), ("EEE", 4)]),
    ];
    let mut record = record_of(rt.alloc(), &entries)?;
    holds(&rt, is_refused_if_cut(&record));
    record.push(0)?;
    same(&rt, refusal_of(&record), Some(RecordError::TrailingBytes));
    Ok(())
}
