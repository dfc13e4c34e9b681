//! What builds make of texts, and why they refuse them.

use crate::tests::{
    ABSENT, BUILD, FILE, NAMES, OF_JSON_LINES, PAIRS, PLAN, READ, Row, TAGGED, TRIE, are_run,
};
use std::test::Fail;
use zerotrie_lines::{Format, TSV, TextForm};
use zerotrie_making::{Duplicates, FileForm, FilePlan, Plan, ReadPlan, Source};
use zerotrie_run::{Build, Check, Command, Keys, Place, Question, Status, Summary, TrieFile};

/// The file of an index of the names, by the page on the format.
const INDEXED: &[u8] = b"ztri\x89\x8a\r\n\x01\0\x19\0\x0c\0\0\0\0\0\0\0\xf7\x15|.\
    o\0\0\0\0\0\0\0\n\xe1\xfc\x89\
    \0\0\0\0\0\0\0\0\x06\0\0\0\0\0\0\0\0\0\0\0\0\0\0\0\
    \0\0\x04\0\0\0\0\0\0\0@\0\x0c\0\0\0\0\0\0\0\x1b\0\0\0\
    \0\0\0\0\x1b\0\0\0@\0\0\0\x1b\0\0\0\0\0\0\0'\0\0\0\
    \x03\x02\0\0\0\0\0\0\0bar\x06\x03\0\0\0\0\0\0\0bazzoo\x03\x01\0\0\0\0\0\0\0foo";

/// How an index of any pairs is made.
const INDEXING: Build<'static> = Build {
    plan: Plan {
        file: FilePlan {
            form: FileForm::Index,
            ..TAGGED
        },
        ..PLAN
    },
    ..BUILD
};

/// How a trie of the lines of a file is made.
const OF_LINES: Build<'static> = Build {
    plan: Plan {
        read: ReadPlan {
            source: Source::Text(TextForm {
                format: Format::Lines,
                ..TSV
            }),
            ..READ
        },
        ..PLAN
    },
    ..BUILD
};

/// Builds of that file, told and untold, on standard output, of an index, and of no pairs.
const BUILDS: [Row; 5] = [
    Row {
        files: &[("names.tsv", b"")],
        command: Command::Build(BUILD),
        status: Status::Done,
        printed: b"",
        told: b"zerotrie: names.trie: 0 keys, 1 bytes\n",
        left: ("names.trie", b"\0"),
    },
    Row {
        files: &[("names.tsv", NAMES)],
        command: Command::Build(INDEXING),
        status: Status::Done,
        printed: b"",
        told: b"",
        left: ("names.trie", INDEXED),
    },
    Row {
        files: &[("names.tsv", NAMES)],
        command: Command::Build(BUILD),
        status: Status::Done,
        printed: b"",
        told: b"",
        left: ("names.trie", TRIE),
    },
    Row {
        files: &[("names.tsv", NAMES)],
        command: Command::Build(Build {
            to: Place::Stream,
            ..BUILD
        }),
        status: Status::Done,
        printed: TRIE,
        told: b"",
        left: ("names.tsv", NAMES),
    },
    Row {
        files: &[("names.tsv", NAMES)],
        command: Command::Build(Build {
            summary: Summary::Always,
            ..BUILD
        }),
        status: Status::Done,
        printed: b"",
        told: b"zerotrie: names.trie: 3 keys, 18 bytes\n",
        left: ("names.trie", TRIE),
    },
];

/// The file of the names as it is sealed.
const SEALED: &[u8] =
    b"ztri\x89\x8a\r\n\x01\0\0\0\x11\0\0\0\0\0\0\0\xc9\x0b\xf0\x8d\xC2bf\x0Aa\xC2rz\x01\x82zoo\x83oo\x81";

/// The same with another last byte.
const DAMAGED: &[u8] =
    b"ztri\x89\x8a\r\n\x01\0\0\0\x11\0\0\0\0\0\0\0\xc9\x0b\xf0\x8d\xC2bf\x0Aa\xC2rz\x01\x82zoo\x83oo\x82";

/// A build of that file where one is to be left as it is.
const SPARING: Build<'static> = Build {
    plan: Plan {
        file: FilePlan {
            form: FileForm::Sealed,
            ..TAGGED
        },
        ..PLAN
    },
    no_clobber: true,
    ..BUILD
};

/// Sealed files: made and asked, spared, and damaged.
const SEALS: [Row; 7] = [
    Row {
        files: &[("names.tsv", NAMES)],
        command: Command::Build(SPARING),
        status: Status::Done,
        printed: b"",
        told: b"",
        left: ("names.trie", SEALED),
    },
    Row {
        files: &[("names.trie", b"old")],
        command: Command::Build(SPARING),
        status: Status::Taken,
        printed: b"",
        told: b"zerotrie: names.trie: the file is there already, and --no-clobber leaves it\n",
        left: ("names.trie", b"old"),
    },
    Row {
        files: &[("names.trie", SEALED)],
        command: Command::Ask(
            TrieFile {
                check: Check::Full,
                ..FILE
            },
            Question::Verify,
        ),
        status: Status::Done,
        printed: b"",
        told: b"",
        left: ("names.trie", SEALED),
    },
    Row {
        files: &[("names.trie", SEALED)],
        command: Command::Ask(FILE, Question::LookUp(PAIRS, Keys::Words(ABSENT))),
        status: Status::Absent,
        printed: b"bar\t2\nunknown\tnone\n",
        told: b"",
        left: ("names.trie", SEALED),
    },
    Row {
        files: &[("names.trie", b"ztri\x89\x8a\r\n\x01\0")],
        command: Command::Ask(FILE, Question::Verify),
        status: Status::BadInput,
        printed: b"",
        told: b"zerotrie: names.trie: the file is cut short: get all of it\n",
        left: ("names.trie", b"ztri\x89\x8a\r\n\x01\0"),
    },
    Row {
        files: &[("names.trie", DAMAGED)],
        command: Command::Ask(FILE, Question::Verify),
        status: Status::BadInput,
        printed: b"",
        told: b"zerotrie: names.trie: the file is damaged: its bytes do not have the checksum that it was written with\n",
        left: ("names.trie", DAMAGED),
    },
    Row {
        files: &[("names.trie", NAMES)],
        command: Command::Ask(FILE, Question::Verify),
        status: Status::BadInput,
        printed: b"",
        told: b"zerotrie: names.trie: it looks like text: build it first\n",
        left: ("names.trie", NAMES),
    },
];

/// Builds that are refused, and leave the file that was there.
const REFUSED: [Row; 11] = [
    Row {
        files: &[
            ("names.tsv", b"a\t2\nb\t1\na\t18446744073709551614\n"),
            ("names.trie", TRIE),
        ],
        command: Command::Build(Build {
            plan: Plan {
                read: ReadPlan {
                    source: Source::Text(TSV),
                    lower_case: false,
                    duplicates: Duplicates::Sum,
                },
                ..PLAN
            },
            ..BUILD
        }),
        status: Status::Refused,
        printed: b"",
        told: b"zerotrie: names.tsv: line 3: the sum of the values of its key is 2^64 or more: a\n",
        left: ("names.trie", TRIE),
    },
    Row {
        files: &[("names.tsv", b"[\"a\",1]\n[\"b\"]\n"), ("names.trie", TRIE)],
        command: Command::Build(OF_JSON_LINES),
        status: Status::BadInput,
        printed: b"",
        told: b"zerotrie: names.tsv: line 2: no JSON list [key, value], and no object {\"key\": key, \"value\": value} or with the names of --key and --value, whose value is written as a whole number below 2^64\n",
        left: ("names.trie", TRIE),
    },
    Row {
        files: &[("names.tsv", b"\xFF\xFEa\0\r\0\n\0"), ("names.trie", TRIE)],
        command: Command::Build(OF_LINES),
        status: Status::BadInput,
        printed: b"",
        told: b"zerotrie: names.tsv: it looks like UTF-16: make it UTF-8 by iconv -f UTF-16 -t UTF-8\n",
        left: ("names.trie", TRIE),
    },
    Row {
        files: &[("names.tsv", INDEXED), ("names.trie", TRIE)],
        command: Command::Build(OF_LINES),
        status: Status::BadInput,
        printed: b"",
        told: b"zerotrie: names.tsv: it is a trie or an index that zerotrie made: list prints the pairs of a trie\n",
        left: ("names.trie", TRIE),
    },
    Row {
        files: &[("names.tsv", b"a\t1\nb\t2\na\t3\n"), ("names.trie", TRIE)],
        command: Command::Build(INDEXING),
        status: Status::Refused,
        printed: b"",
        told: b"zerotrie: names.tsv: lines 1 and 3 have the same key; --duplicates first, sum or another gives it one value: a\n",
        left: ("names.trie", TRIE),
    },
    Row {
        files: &[("names.tsv", b"a\t1\na\t2\n"), ("names.trie", TRIE)],
        command: Command::Build(BUILD),
        status: Status::Refused,
        printed: b"",
        told: b"zerotrie: names.tsv: lines 1 and 2 have the same key; --duplicates first, sum or another gives it one value: a\n",
        left: ("names.trie", TRIE),
    },
    Row {
        files: &[("names.tsv", b"a\t1\nb\n"), ("names.trie", TRIE)],
        command: Command::Build(BUILD),
        status: Status::BadInput,
        printed: b"",
        told: b"zerotrie: names.tsv: line 2: no tab between a key and its value; if the input has another form, name it by --format\n",
        left: ("names.trie", TRIE),
    },
    Row {
        files: &[("names.trie", TRIE)],
        command: Command::Build(BUILD),
        status: Status::Unread,
        printed: b"",
        told: b"zerotrie: names.tsv: entity not found\n",
        left: ("names.trie", TRIE),
    },
    Row {
        files: &[("names.tsv", NAMES)],
        command: Command::Build(Build {
            to: Place::File("full"),
            ..BUILD
        }),
        status: Status::Unwritten,
        printed: b"",
        told: b"zerotrie: full: no storage space\n",
        left: ("names.tsv", NAMES),
    },
    Row {
        files: &[("names.tsv", NAMES), ("held", TRIE)],
        command: Command::Build(Build {
            to: Place::File("held"),
            ..BUILD
        }),
        status: Status::Unwritten,
        printed: b"",
        told: b"zerotrie: held: no storage space\n",
        left: ("held", TRIE),
    },
    Row {
        files: &[("names.tsv", NAMES)],
        command: Command::Build(Build {
            to: Place::File("missing/names.trie"),
            ..BUILD
        }),
        status: Status::Unwritten,
        printed: b"",
        told: b"zerotrie: missing/names.trie: its folder, or the file that a link leads to, is not there\n",
        left: ("names.tsv", NAMES),
    },
];

#[test]
fn a_file_is_made(rt: HostRuntime) -> Result<(), Fail> {
    are_run(&rt, rt.alloc(), &BUILDS)
}

#[test]
fn sealed_files_are_made_asked_and_spared(rt: HostRuntime) -> Result<(), Fail> {
    are_run(&rt, rt.alloc(), &SEALS)
}

#[test]
fn a_refused_build_leaves_files(rt: HostRuntime) -> Result<(), Fail> {
    are_run(&rt, rt.alloc(), &REFUSED)
}
