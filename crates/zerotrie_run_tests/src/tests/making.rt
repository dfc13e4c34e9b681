//! Files that are made again of their listings, and why others are not made.

use crate::making::{makes, makes_again, parses_value};
use crate::tests::{NAMES, PAIR, PLAN, READ, TAGGED};
use std::alloc::{AllocError, Global};
use std::test::Fail;
use zerotrie_core::{TrieKind, ZeroTrieBuildError};
use zerotrie_lines::{BadLine, TSV};
use zerotrie_making::{
    Duplicates, MakeError, NoPair, NumberedKey, OtherFile, Plan, ReadPlan, Shown, Source,
};

/// Lines of pairs, and their trie of a kind, by the page on the format.
const LISTED: [(TrieKind, &[u8], &[u8]); 5] = [
    (TrieKind::Simple, b"", b""),
    (
        TrieKind::Simple,
        NAMES,
        b"\xC2bf\x0Aa\xC2rz\x01\x82zoo\x83oo\x81",
    ),
    (TrieKind::Ignore, b"a\\tB\t5\n", b"a\tB\x85"),
    (TrieKind::Hash, b"\\xff\\xfe\t3\n", b"\xA2\xFF\xFE\x83"),
    // a key that begins as what gzip makes
    (TrieKind::Hash, b"\\x1f\\x8b\t1\n", b"\x1F\xA1\x8B\x81"),
];

/// Returns whether lines make the trie, and the lines in which it is listed make it again.
fn is_made_again(
    alloc: Global,
    kind: TrieKind,
    lines: &[u8],
    trie: &[u8],
) -> Result<bool, AllocError> {
    let lines = Vec::from_slice(alloc, lines)?;
    match makes_again(alloc, kind, lines) {
        Ok((first, second)) => Ok(first.file.as_slice() == trie && second.file.as_slice() == trie),
        Err(_) => Ok(false),
    }
}

#[test]
fn listings_are_made_again(rt: HostRuntime) -> Result<(), Fail> {
    for (kind, lines, trie) in LISTED {
        assert!(rt; is_made_again(rt.alloc(), kind, lines, trie)?);
    }
    Ok(())
}

/// How an input is read, and why it is no pairs.
#[derive(Drop)]
struct Unread {
    source: Source<'static>,
    input: &'static [u8],
    why: MakeError,
}

/// An input for each error that says that it is no pairs.
const UNREAD: [Unread; 5] = [
    Unread {
        source: Source::Text(TSV),
        input: b"\x1f\x8b\x08",
        why: MakeError::NotText(OtherFile::Gzip),
    },
    Unread {
        source: Source::Text(TSV),
        input: b"a\t1\nb\n",
        why: MakeError::Line(2, BadLine::NoTab),
    },
    Unread {
        source: Source::Json,
        input: b"[1 2]",
        why: MakeError::NotJson(1, 4),
    },
    Unread {
        source: Source::Json,
        input: b"1",
        why: MakeError::NotPairs,
    },
    Unread {
        source: Source::JsonLines(PAIR),
        input: b"[\"a\",1]\n[\"b\"]\n",
        why: MakeError::NotPair(NoPair::Line(2)),
    },
];

/// Returns whether an input makes no file, for this reason.
fn is_unmade(
    alloc: Global,
    read: ReadPlan<'_>,
    input: &[u8],
    why: &MakeError,
) -> Result<bool, AllocError> {
    let plan = Plan { read, file: TAGGED };
    let input = Vec::from_slice(alloc, input)?;
    match makes(alloc, plan, input) {
        Ok(_) => Ok(false),
        Err(error) => Ok(error == *why),
    }
}

/// Returns the key "a" with a number.
fn key_a(alloc: Global, number: usize) -> Result<NumberedKey, AllocError> {
    Ok(NumberedKey {
        number,
        key: Vec::from_slice(alloc, b"a")?,
    })
}

#[test]
fn an_error_says_why_no_file_is_made(rt: HostRuntime) -> Result<(), Fail> {
    let alloc = rt.alloc();
    for row in &UNREAD {
        let read = ReadPlan {
            source: row.source,
            ..READ
        };
        assert!(rt; is_unmade(alloc, read, row.input, &row.why)?);
    }
    let twice = MakeError::Keys(Shown {
        error: ZeroTrieBuildError::DuplicateKey,
        first: key_a(alloc, 1)?,
        second: key_a(alloc, 2)?,
    });
    assert!(rt; is_unmade(alloc, PLAN.read, b"a\t1\na\t2\n", &twice)?);
    let summed = ReadPlan {
        duplicates: Duplicates::Sum,
        ..PLAN.read
    };
    let large = MakeError::SumTooLarge(key_a(alloc, 2)?);
    assert!(rt; is_unmade(alloc, summed, b"a\t18446744073709551615\na\t1\n", &large)?);
    Ok(())
}

#[test]
fn values_are_parsed(rt: HostRuntime) -> Result<(), Fail> {
    assert!(rt; parses_value(b"0018446744073709551615") == None);
    assert!(rt; parses_value(b"18446744073709551615") == Some(usize::MAX));
    assert!(rt; parses_value(b"18446744073709551616") == None);
    Ok(())
}
