//! Questions to indexes.

use crate::tests::{ABSENT, FILE, LONGEST, PAIRS, TYPED, VALUES, disk_with};
use std::alloc::{AllocError, Global};
use std::io::{BufWriter, Read};
use std::test::Fail;
use zerotrie_files::{Noted, Store};
use zerotrie_index::{ZeroIndex, ZeroIndexBuilder};
use zerotrie_run::{Check, Command, Keys, Question, Status, TrieFile, run};
use zerotrie_sealed::{crc32c, seal_index};

/// What is asked of an index, how that ends, what is printed, and what is told.
#[derive(Drop)]
struct OfIndex {
    question: Question<'static>,
    check: Check,
    status: Status,
    printed: &'static [u8],
    told: &'static [u8],
}

/// Questions to the index of the names.
const OF_INDEX: [OfIndex; 4] = [
    OfIndex {
        question: Question::LookUp(VALUES, Keys::Lines),
        check: Check::Usual,
        status: Status::Absent,
        printed: b"none\n1\n",
        told: b"",
    },
    OfIndex {
        question: Question::LookUp(PAIRS, Keys::Words(ABSENT)),
        check: Check::Skip,
        status: Status::Absent,
        printed: b"bar\t2\nunknown\tnone\n",
        told: b"",
    },
    OfIndex {
        question: Question::Verify,
        check: Check::Full,
        status: Status::Done,
        printed: b"",
        told: b"",
    },
    OfIndex {
        question: Question::LookUp(LONGEST, Keys::Lines),
        check: Check::Usual,
        status: Status::BadInput,
        printed: b"",
        told: b"zerotrie: names.trie: it holds an index, which answers get and verify alone\n",
    },
];

/// Asks a file with these bytes.
fn asks_index(rt: &HostRuntime, file: &[u8], row: &OfIndex) -> Result<bool, Fail> {
    let alloc = rt.alloc();
    let mut files = Store::new(disk_with(alloc, &[("names.trie", file)])?);
    let mut output = Noted::new(BufWriter::new(alloc, Vec::new(alloc))?);
    let mut messages = Noted::new(Vec::new(alloc));
    let (first, second) = TYPED;
    let status = run(
        alloc,
        Command::Ask(
            TrieFile {
                check: row.check,
                ..FILE
            },
            row.question,
        ),
        &mut files,
        &mut Noted::new(first.chain(second)),
        &mut output,
        &mut messages,
    );
    Ok(
        status == row.status
            && output.get_ref().get_ref().as_slice() == row.printed
            && messages.get_ref().as_slice() == row.told
            && files.opened() == 1,
    )
}

/// The file of an index as a whole, as earlier versions wrote it.
fn seal_as_a_whole(alloc: Global, index: &[u8]) -> Result<Vec<u8>, AllocError> {
    let mut file = Vec::new(alloc);
    file.extend_from_slice(b"ztri\x89\x8A\r\n\x01\x00\x18\x00")?;
    file.extend_from_slice(&index.len().to_le_bytes())?;
    let mut summed = Vec::new(alloc);
    summed.extend_from_slice(file.as_slice())?;
    summed.extend_from_slice(index)?;
    file.extend_from_slice(&crc32c(summed.as_slice()).to_le_bytes())?;
    file.extend_from_slice(index)?;
    Ok(file)
}

/// An index answers keys and a test, and nothing else.
#[test]
fn an_index_is_asked(rt: HostRuntime) -> Result<(), Fail> {
    let alloc = rt.alloc();
    let index = ZeroIndex::try_from_unsorted_slice(
        alloc,
        &[("foo", 1), ("bar", 2), ("bazzoo", 3)],
    )?;
    for file in &[
        seal_as_a_whole(alloc, index.as_bytes())?,
        seal_index(alloc, index.as_bytes())?,
    ] {
        for row in &OF_INDEX {
            assert!(rt; asks_index(&rt, file.as_slice(), row)?);
        }
    }
    let malformed = OfIndex {
        question: Question::Verify,
        check: Check::Full,
        status: Status::BadInput,
        printed: b"",
        told: b"zerotrie: names.trie: the index in it is malformed\n",
    };
    let file = seal_index(alloc, b"no index")?;
    assert!(rt; asks_index(&rt, file.as_slice(), &malformed)?);
    Ok(())
}

/// Returns the answer to a question to a damaged index, by the test that is asked for.
fn of_damaged(question: Question<'static>, check: Check, told: &'static [u8]) -> OfIndex {
    OfIndex {
        question,
        check,
        status: Status::BadInput,
        printed: b"",
        told,
    }
}

/// Returns whether it is told what is wrong with the seal of an index that has a byte more, or one less,
/// if the question is one to an index.
fn tells_damage(rt: &HostRuntime, sealed: Vec<u8>) -> Result<bool, Fail> {
    let mut file = sealed;
    let values = Question::LookUp(VALUES, Keys::Lines);
    let longest = Question::LookUp(LONGEST, Keys::Lines);
    file.push(0)?;
    let long = b"zerotrie: names.trie: bytes follow what is sealed: get the file alone\n";
    let row = of_damaged(Question::Verify, Check::Full, long);
    let mut all = asks_index(rt, file.as_slice(), &row)?;
    file.pop();
    file.pop();
    let cut = b"zerotrie: names.trie: the file is cut short: get all of it\n";
    for (question, check) in [
        (values, Check::Usual),
        (values, Check::Skip),
        (Question::Verify, Check::Full),
    ] {
        all &= asks_index(rt, file.as_slice(), &of_damaged(question, check, cut))?;
    }
    let index = b"zerotrie: names.trie: it holds an index, which answers get and verify alone\n";
    let row = of_damaged(longest, Check::Usual, index);
    Ok(all && asks_index(rt, file.as_slice(), &row)?)
}

#[test]
fn a_damaged_index_is_told(rt: HostRuntime) -> Result<(), Fail> {
    assert!(rt; tells_damage(&rt, seal_as_a_whole(rt.alloc(), b"no index")?)?);
    assert!(rt; tells_damage(&rt, seal_index(rt.alloc(), b"no index")?)?);
    Ok(())
}

/// A few keys of a large index are read at places, so damage elsewhere does not show.
#[test]
fn few_keys_are_read_at_places(rt: HostRuntime) -> Result<(), Fail> {
    let alloc = rt.alloc();
    let mut builder = ZeroIndexBuilder::new(alloc);
    for number in 0..12_000_u64 {
        builder.push(&number.to_be_bytes(), number as usize)?;
    }
    let index = builder.build(alloc, 0)?;
    let mut file = seal_index(alloc, index.as_bytes())?;
    let found = OfIndex {
        question: Question::LookUp(VALUES, Keys::Words(&[b"\0\0\0\0\0\0\0\x05"])),
        check: Check::Usual,
        status: Status::Done,
        printed: b"5\n",
        told: b"",
    };
    assert!(rt; asks_index(&rt, file.as_slice(), &found)?);
    file.pop();
    file.push(0)?;
    assert!(rt; asks_index(&rt, file.as_slice(), &found)?);
    let damaged = of_damaged(
        Question::Verify,
        Check::Full,
        b"zerotrie: names.trie: the file is damaged: its bytes do not have the checksum that it was written with\n",
    );
    assert!(rt; asks_index(&rt, file.as_slice(), &damaged)?);
    Ok(())
}
