//! What changed from one file to another, and what is made of several.

use crate::tests::{NAMES, Row, TRIE, are_run};
use std::test::Fail;
use zerotrie_core::TrieKind;
use zerotrie_making::{Combination, FileForm};
use zerotrie_run::{Combine, Command, Diff, Place, Status, Summary};
use zerotrie_sets::{Rule, Selection};

/// What changed from one file to another.
const DIFF: Command<'static> = Command::Diff(Diff {
    old: Place::File("old"),
    new: Place::File("new"),
    bare: None,
});

/// Tries that have other pairs or the same, and what is not compared.
const DIFFS: [Row; 5] = [
    Row {
        files: &[("old", b"\x00a\x85"), ("new", b"\x00\xC2ab\x01\x86\x87")],
        command: DIFF,
        status: Status::Absent,
        printed: b"~\ta\t5\t6\n+\tb\t7\n",
        told: b"",
        left: ("new", b"\x00\xC2ab\x01\x86\x87"),
    },
    Row {
        files: &[("old", b"\x00b\x87"), ("new", b"\x00a\x85")],
        command: DIFF,
        status: Status::Absent,
        printed: b"+\ta\t5\n-\tb\t7\n",
        told: b"",
        left: ("old", b"\x00b\x87"),
    },
    Row {
        files: &[("old", b"\x00a\x85"), ("new", b"\x00a\x85")],
        command: DIFF,
        status: Status::Done,
        printed: b"",
        told: b"",
        left: ("old", b"\x00a\x85"),
    },
    Row {
        files: &[("old", b"\x00a\x85"), ("new", NAMES)],
        command: DIFF,
        status: Status::BadInput,
        printed: b"",
        told: b"zerotrie: new: it looks like text: build it first\n",
        left: ("new", NAMES),
    },
    Row {
        files: &[("new", b"\x00a\x85")],
        command: DIFF,
        status: Status::Unread,
        printed: b"",
        told: b"zerotrie: old: entity not found\n",
        left: ("new", b"\x00a\x85"),
    },
];

/// Two files, and three.
const TWO: &[Place<'static>] = &[Place::File("one"), Place::File("two")];

const THREE: &[Place<'static>] = &[Place::File("one"), Place::File("two"), Place::File("three")];

/// How the pairs of all files are one trie, in which a key has its first value.
const UNION: Combination = Combination {
    selection: Selection::Union,
    rule: Rule::First,
    kind: None,
    form: FileForm::Tagged,
};

/// The file of them, of which is told only what may be a mistake.
const ALL_PAIRS: Combine<'static> = Combine {
    from: THREE,
    to: Place::File("names.trie"),
    combination: UNION,
    no_clobber: false,
    summary: Summary::IfEmpty,
};

/// The same of two files.
const EITHER: Combine<'static> = Combine {
    from: TWO,
    ..ALL_PAIRS
};

/// The trie of `a` with 5 and `b` with 7.
const BOTH: &[u8] = b"\x00\xC2ab\x01\x85\x87";

/// Three tries that have each key twice, and together the pairs of `BOTH` first.
const TWICE: &[(&str, &[u8])] = &[
    ("one", b"\x00a\x85"),
    ("two", b"\x00\xC2ab\x01\x86\x87"),
    ("three", b"\x00b\x81"),
];

/// Three tries of kinds that differ.
const SEVERAL: &[(&str, &[u8])] = &[
    ("one", b"\x08ETag\x85"),
    ("two", b"\x07ETag\x86"),
    ("three", b"\x08ETag\x87"),
];

/// Files that are made of others, and of which that is told.
const COMBINED: [Row; 13] = [
    Row {
        files: TWICE,
        command: Command::Combine(ALL_PAIRS),
        status: Status::Done,
        printed: b"",
        told: b"",
        left: ("names.trie", BOTH),
    },
    Row {
        files: TWICE,
        command: Command::Combine(Combine {
            summary: Summary::Always,
            ..ALL_PAIRS
        }),
        status: Status::Done,
        printed: b"",
        told: b"zerotrie: names.trie: 2 keys, 7 bytes\n",
        left: ("names.trie", BOTH),
    },
    Row {
        files: TWICE,
        command: Command::Combine(Combine {
            combination: Combination {
                rule: Rule::Sum,
                ..UNION
            },
            ..ALL_PAIRS
        }),
        status: Status::Done,
        printed: b"",
        told: b"",
        left: ("names.trie", b"\x00\xC2ab\x01\x8B\x88"),
    },
    Row {
        files: TWICE,
        command: Command::Combine(Combine {
            combination: Combination {
                selection: Selection::Intersection,
                rule: Rule::Last,
                ..UNION
            },
            ..ALL_PAIRS
        }),
        status: Status::Done,
        printed: b"",
        told: b"zerotrie: names.trie: 0 keys, 1 bytes\n",
        left: ("names.trie", b"\x00"),
    },
    Row {
        files: TWICE,
        command: Command::Combine(Combine {
            combination: Combination {
                selection: Selection::Intersection,
                rule: Rule::Last,
                ..UNION
            },
            ..EITHER
        }),
        status: Status::Done,
        printed: b"",
        told: b"",
        left: ("names.trie", b"\x00a\x86"),
    },
    Row {
        files: &[
            ("one", BOTH),
            ("two", b"\x00b\x81"),
            ("three", b"\x00c\x81"),
        ],
        command: Command::Combine(Combine {
            combination: Combination {
                selection: Selection::Difference,
                ..UNION
            },
            ..ALL_PAIRS
        }),
        status: Status::Done,
        printed: b"",
        told: b"",
        left: ("names.trie", b"\x00a\x85"),
    },
    Row {
        files: &[("one", b"\x08ETag\x85"), ("two", b"\x08ETag\x86")],
        command: Command::Combine(EITHER),
        status: Status::Done,
        printed: b"",
        told: b"",
        left: ("names.trie", b"\x08ETag\x85"),
    },
    Row {
        files: &[("one", b"\x08ETag\x85"), ("two", b"\x08etag\x86")],
        command: Command::Combine(Combine {
            combination: Combination {
                selection: Selection::Intersection,
                rule: Rule::Last,
                ..UNION
            },
            ..EITHER
        }),
        status: Status::Done,
        printed: b"",
        told: b"",
        left: ("names.trie", b"\x08ETag\x86"),
    },
    Row {
        files: &[
            ("one", b"\x08ETag\x85"),
            ("two", b"\x08\xC2ae\x01\x81tag\x86"),
            ("three", b"\x08eTAG\x87"),
        ],
        command: Command::Combine(ALL_PAIRS),
        status: Status::Done,
        printed: b"",
        told: b"",
        left: ("names.trie", b"\x08\xC2aE\x01\x81Tag\x85"),
    },
    Row {
        files: SEVERAL,
        command: Command::Combine(ALL_PAIRS),
        status: Status::Done,
        printed: b"",
        told: b"zerotrie: names.trie: the files have tries of several kinds, so it is of kind simple\n",
        left: ("names.trie", b"\x00ETag\x85"),
    },
    Row {
        files: SEVERAL,
        command: Command::Combine(Combine {
            summary: Summary::Never,
            ..ALL_PAIRS
        }),
        status: Status::Done,
        printed: b"",
        told: b"",
        left: ("names.trie", b"\x00ETag\x85"),
    },
    Row {
        files: SEVERAL,
        command: Command::Combine(Combine {
            combination: Combination {
                kind: Some(TrieKind::Hash),
                ..UNION
            },
            ..ALL_PAIRS
        }),
        status: Status::Done,
        printed: b"",
        told: b"",
        left: ("names.trie", b"\x03ETag\x85"),
    },
    Row {
        files: SEVERAL,
        command: Command::Combine(Combine {
            summary: Summary::Always,
            ..ALL_PAIRS
        }),
        status: Status::Done,
        printed: b"",
        told: b"zerotrie: names.trie: the files have tries of several kinds, so it is of kind simple\n\
            zerotrie: names.trie: 1 key, 6 bytes\n",
        left: ("names.trie", b"\x00ETag\x85"),
    },
];

/// Why no file is made of others.
const UNCOMBINED: [Row; 8] = [
    Row {
        files: TWICE,
        command: Command::Combine(Combine {
            combination: Combination {
                rule: Rule::Refuse,
                ..UNION
            },
            ..ALL_PAIRS
        }),
        status: Status::Refused,
        printed: b"",
        told: b"zerotrie: names.trie: more than one file has this key; --values first, sum or another gives it one value: a\n",
        left: ("one", b"\x00a\x85"),
    },
    Row {
        files: &[("one", b"\x08ETag\x85"), ("two", b"\x08etagX\x86")],
        command: Command::Combine(EITHER),
        status: Status::Refused,
        printed: b"",
        told: b"zerotrie: names.trie: pairs 1 and 2: their keys begin alike but for the case of a letter; take --kind simple, or bring keys into lower case by build --lower-case: ETag and etagX\n",
        left: ("one", b"\x08ETag\x85"),
    },
    Row {
        files: &[("one", BOTH)],
        command: Command::Combine(Combine {
            from: &[Place::Stream, Place::File("one"), Place::Stream],
            ..ALL_PAIRS
        }),
        status: Status::BadUsage,
        printed: b"",
        told: b"zerotrie: standard input can't be two of the files\n",
        left: ("one", BOTH),
    },
    Row {
        files: &[("one", BOTH), ("two", BOTH)],
        command: Command::Combine(Combine {
            from: &[Place::File("one"), Place::Stream, Place::File("two")],
            ..ALL_PAIRS
        }),
        status: Status::BadInput,
        printed: b"",
        told: b"zerotrie: standard input: it looks like text: build it first\n",
        left: ("one", BOTH),
    },
    Row {
        files: &[("one", BOTH), ("two", BOTH), ("three", b"")],
        command: Command::Combine(ALL_PAIRS),
        status: Status::BadInput,
        printed: b"",
        told: b"zerotrie: three: the file is empty\n",
        left: ("one", BOTH),
    },
    Row {
        files: &[("one", BOTH), ("three", BOTH), ("names.trie", TRIE)],
        command: Command::Combine(ALL_PAIRS),
        status: Status::Unread,
        printed: b"",
        told: b"zerotrie: two: entity not found\n",
        left: ("names.trie", TRIE),
    },
    Row {
        files: &[("one", BOTH), ("two", BOTH), ("names.trie", TRIE)],
        command: Command::Combine(Combine {
            no_clobber: true,
            ..EITHER
        }),
        status: Status::Taken,
        printed: b"",
        told: b"zerotrie: names.trie: the file is there already, and --no-clobber leaves it\n",
        left: ("names.trie", TRIE),
    },
    Row {
        files: &[("one", BOTH), ("two", BOTH), ("held", TRIE)],
        command: Command::Combine(Combine {
            to: Place::File("held"),
            ..EITHER
        }),
        status: Status::Unwritten,
        printed: b"",
        told: b"zerotrie: held: no storage space\n",
        left: ("held", TRIE),
    },
];

#[test]
fn files_are_compared(rt: HostRuntime) -> Result<(), Fail> {
    are_run(&rt, rt.alloc(), &DIFFS)
}

#[test]
fn a_file_is_made_of_others(rt: HostRuntime) -> Result<(), Fail> {
    are_run(&rt, rt.alloc(), &COMBINED)
}

#[test]
fn why_no_file_is_made_of_others_is_told(rt: HostRuntime) -> Result<(), Fail> {
    are_run(&rt, rt.alloc(), &UNCOMBINED)
}
