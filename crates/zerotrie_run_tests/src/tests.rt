mod builds;
mod disk;
mod files;
mod indexes;
mod making;
mod planted;
mod several;

use crate::memory::MemoryDisk;
use planted::{are_planted, plant};
use std::alloc::Global;
use std::io;
use std::io::{BufWriter, Cursor, ErrorKind, Read, Write};
use std::ops::Bound;
use std::process::Abort;
use std::test::Fail;
use zerotrie_core::TrieKind;
use zerotrie_files::{Disk, Noted, Store};
use zerotrie_lines::{Format, Names, TSV, TextForm};
use zerotrie_making::{Duplicates, FileForm, FilePlan, Plan, ReadPlan, Source};
use zerotrie_queries::{
    Asked, Choice, Form, Language, ListQuery, Order, Query, ReportForm, Spelling, Style, View,
};
use zerotrie_run::{Build, Check, Command, Keys, Place, Question, Status, Summary, TrieFile, run};
use zerotrie_search::KeyRange;

/// A run of the program: the files that are there, the words that are typed in, and what is to come of it.
struct Row {
    files: &'static [(&'static str, &'static [u8])],
    command: Command<'static>,
    status: Status,
    printed: &'static [u8],
    told: &'static [u8],
    /// A file, and what it holds at the end.
    left: (&'static str, &'static [u8]),
}

/// What is typed in, as two reads give it. The second line has no line feed.
const TYPED: (&[u8], &[u8]) = (b"barn\nf", b"oo");

/// Three pairs, as lines.
const NAMES: &[u8] = b"foo\t1\nbar\t2\nbazzoo\t3\n";

/// Their file.
const TRIE: &[u8] = b"\x00\xC2bf\x0Aa\xC2rz\x01\x82zoo\x83oo\x81";

/// The file of a trie, of the kind that is taken for its pairs.
const TAGGED: FilePlan = FilePlan {
    kind: None,
    sorted: false,
    form: FileForm::Tagged,
};

/// The names of a pair in lines of JSON.
const PAIR: Names<'static> = Names {
    key: "key",
    value: "value",
};

/// The trie of any pairs.
const PLAN: Plan<'static> = Plan {
    read: ReadPlan {
        source: Source::Text(TSV),
        lower_case: false,
        duplicates: Duplicates::Refuse,
    },
    file: TAGGED,
};

/// A build of the file `names.trie`, without a word on what it made.
const BUILD: Build<'static> = Build {
    from: Place::File("names.tsv"),
    to: Place::File("names.trie"),
    plan: PLAN,
    no_clobber: false,
    summary: Summary::IfEmpty,
};

/// How a trie of its lines of JSON is made.
const OF_JSON_LINES: Build<'static> = Build {
    plan: Plan {
        read: ReadPlan {
            source: Source::JsonLines(PAIR),
            ..READ
        },
        ..PLAN
    },
    ..BUILD
};

/// The values of keys, keys with their values, and the longest keys, of texts that are as they are.
const VALUES: Query = Query {
    asked: Asked::Value,
    spelling: Spelling::Plain,
};

const PAIRS: Query = Query {
    asked: Asked::Pair,
    ..VALUES
};

const LONGEST: Query = Query {
    asked: Asked::Longest,
    ..VALUES
};

const KEYS: Query = Query {
    asked: Asked::KeyOf,
    ..VALUES
};

/// The files that the rows make, or try to make.
const MADE: [&str; 3] = ["names.trie", "full", "held"];

/// The file of the names as a trie.
const FILE: TrieFile<'static> = TrieFile {
    place: Place::File("names.trie"),
    bare: None,
    check: Check::Usual,
};

/// All keys.
const ALL: Choice<'static> = Choice {
    prefix: b"",
    range: KeyRange {
        from: Bound::Unbounded,
        to: Bound::Unbounded,
    },
    without: None,
    sought: None,
};

/// All pairs, in the order of the trie.
const LISTED: ListQuery<'static> = ListQuery {
    choice: ALL,
    order: Order::Stored,
    top: None,
    limit: None,
};

const THERE: &[&[u8]] = &[b"bar"];

const ABSENT: &[&[u8]] = &[b"bar", b"unknown"];

/// A key with an escape, and two with malformed ones.
const WRITTEN: &[&[u8]] = &[b"b\\x61r", b"bar\\", b"b\\ar"];

/// The value of a key, one that no key has, and what is no value.
const NUMBERS: &[&[u8]] = &[b"2", b"4", b"-3", b"003"];

/// Questions to that file.
const QUESTIONS: [Row; 6] = [
    Row {
        files: &[("names.trie", TRIE)],
        command: Command::Ask(FILE, Question::LookUp(KEYS, Keys::Words(NUMBERS))),
        status: Status::Absent,
        printed: b"bar\nnone\nnone\nbazzoo\n",
        told: b"",
        left: ("names.trie", TRIE),
    },
    Row {
        files: &[("names.trie", TRIE)],
        command: Command::Ask(FILE, Question::LookUp(KEYS, Keys::Lines)),
        status: Status::Absent,
        printed: b"none\nnone\n",
        told: b"",
        left: ("names.trie", TRIE),
    },
    Row {
        files: &[("names.trie", TRIE)],
        command: Command::Ask(
            FILE,
            Question::LookUp(
                Query {
                    spelling: Spelling::Escaped,
                    ..PAIRS
                },
                Keys::Words(WRITTEN),
            ),
        ),
        status: Status::Absent,
        printed: b"bar\t2\nnone\nnone\n",
        told: b"",
        left: ("names.trie", TRIE),
    },
    Row {
        files: &[("names.trie", TRIE)],
        command: Command::Ask(FILE, Question::LookUp(VALUES, Keys::Words(THERE))),
        status: Status::Done,
        printed: b"2\n",
        told: b"",
        left: ("names.trie", TRIE),
    },
    Row {
        files: &[("names.trie", TRIE)],
        command: Command::Ask(FILE, Question::LookUp(VALUES, Keys::Words(ABSENT))),
        status: Status::Absent,
        printed: b"2\nnone\n",
        told: b"",
        left: ("names.trie", TRIE),
    },
    Row {
        files: &[("names.trie", TRIE)],
        command: Command::Ask(FILE, Question::LookUp(LONGEST, Keys::Lines)),
        status: Status::Done,
        printed: b"bar\t2\nfoo\t1\n",
        told: b"",
        left: ("names.trie", TRIE),
    },
];

/// A trie of one pair, which is shown.
const SHOWN: [Row; 6] = [
    Row {
        files: &[("names.trie", b"\x00a\x85")],
        command: Command::Ask(
            FILE,
            Question::List(
                Form::Lines(Style::Tsv),
                ListQuery {
                    choice: Choice {
                        prefix: b"a",
                        ..ALL
                    },
                    ..LISTED
                },
            ),
        ),
        status: Status::Done,
        printed: b"a\t5\n",
        told: b"",
        left: ("names.trie", b"\x00a\x85"),
    },
    Row {
        files: &[("names.trie", b"\x00a\x85")],
        command: Command::Ask(
            FILE,
            Question::List(
                Form::Lines(Style::Tsv),
                ListQuery {
                    choice: Choice {
                        prefix: b"b",
                        ..ALL
                    },
                    ..LISTED
                },
            ),
        ),
        status: Status::Absent,
        printed: b"",
        told: b"",
        left: ("names.trie", b"\x00a\x85"),
    },
    Row {
        files: &[("names.trie", b"\x00a\x85")],
        command: Command::Ask(FILE, Question::View(View::Dump)),
        status: Status::Done,
        printed: b"0\t0\t\tliteral a\t61\n1\t0\t\tvalue 5\t85\n",
        told: b"",
        left: ("names.trie", b"\x00a\x85"),
    },
    Row {
        files: &[("names.trie", b"\x00a\x85")],
        command: Command::Ask(FILE, Question::Code(Language::Rust, "NAMES")),
        status: Status::Done,
        printed: b"/// The trie: `NAMES.get(key)` is the value of a key.\n\
            pub static NAMES: zerotrie::ZeroTrieSimpleAscii<&'static [u8]> =\n    \
            zerotrie::ZeroTrieSimpleAscii::from_store(&[\n    \
            0x61, 0x85,\n]);\n",
        told: b"",
        left: ("names.trie", b"\x00a\x85"),
    },
    Row {
        files: &[("names.trie", b"\x00a\x85")],
        command: Command::Ask(FILE, Question::Code(Language::JavaScript, "names")),
        status: Status::Done,
        printed: b"import { ZeroTrie } from \"./zerotrie_read.mjs\";\n\n\
            /** The trie: `names.get(key)` is the value of a key. */\n\
            export const names = new ZeroTrie(new Uint8Array([\n    0x61, 0x85,\n]), 0);\n",
        told: b"",
        left: ("names.trie", b"\x00a\x85"),
    },
    Row {
        files: &[("names.trie", b"\x00a\x85")],
        command: Command::Ask(FILE, Question::Report(ReportForm::Lines, None)),
        status: Status::Done,
        printed: b"kind\tsimple\nbytes\t2\npairs\t1\ngreatest value\t5\nbytes a key\t2.00\n\
            depth\t0\nnodes\t2\nliterals\t1\nspans\t0\nbranches\t0\n",
        told: b"",
        left: ("names.trie", b"\x00a\x85"),
    },
];

/// A key with a comma and its value: as a trie, as `csv` and as JSON.
const QUOTED: &[u8] = b"\x00a,b\x83";

const QUOTED_CSV: &[u8] = b"\"a,b\",3\n";

const QUOTED_JSON: &[u8] = b"{\"a,b\":3}\n";

/// How pairs are read of it, if the form is named.
const READ: ReadPlan<'static> = ReadPlan {
    source: Source::Json,
    lower_case: false,
    duplicates: Duplicates::Refuse,
};

/// Pairs that are listed as `csv`, as JSON and as JSON lines, and the trie that is made of what was
/// printed.
const MADE_AGAIN: [Row; 6] = [
    Row {
        files: &[("names.trie", QUOTED)],
        command: Command::Ask(FILE, Question::List(Form::Lines(Style::Csv), LISTED)),
        status: Status::Done,
        printed: QUOTED_CSV,
        told: b"",
        left: ("names.trie", QUOTED),
    },
    Row {
        files: &[("names.tsv", QUOTED_CSV)],
        command: Command::Build(Build {
            plan: Plan {
                read: ReadPlan {
                    source: Source::Text(TextForm {
                        format: Format::Csv,
                        ..TSV
                    }),
                    ..READ
                },
                file: TAGGED,
            },
            ..BUILD
        }),
        status: Status::Done,
        printed: b"",
        told: b"",
        left: ("names.trie", QUOTED),
    },
    Row {
        files: &[("names.trie", QUOTED)],
        command: Command::Ask(FILE, Question::List(Form::Json, LISTED)),
        status: Status::Done,
        printed: QUOTED_JSON,
        told: b"",
        left: ("names.trie", QUOTED),
    },
    Row {
        files: &[("names.tsv", QUOTED_JSON)],
        command: Command::Build(Build {
            plan: Plan {
                read: READ,
                file: TAGGED,
            },
            ..BUILD
        }),
        status: Status::Done,
        printed: b"",
        told: b"",
        left: ("names.trie", QUOTED),
    },
    Row {
        files: &[("names.trie", OF_BYTES)],
        command: Command::Ask(FILE, Question::List(Form::Lines(Style::JsonLines), LISTED)),
        status: Status::Done,
        printed: OF_BYTES_JSON,
        told: b"",
        left: ("names.trie", OF_BYTES),
    },
    Row {
        files: &[("names.tsv", OF_BYTES_JSON)],
        command: Command::Build(OF_JSON_LINES),
        status: Status::Done,
        printed: b"",
        told: b"",
        left: ("names.trie", OF_BYTES),
    },
];

/// The trie of a key that is not UTF-8.
const OF_BYTES: &[u8] = b"\x03\xA2\xFF\xFE\x83";

const OF_BYTES_JSON: &[u8] = b"[[255,254],3]\n";

/// Questions without an answer: the file has no trie, is the keys too, or is not there.
const UNANSWERED: [Row; 6] = [
    Row {
        files: &[("names.trie", b"\x00a")],
        command: Command::Ask(FILE, Question::Report(ReportForm::Lines, None)),
        status: Status::BadInput,
        printed: b"",
        told: b"zerotrie: names.trie: no trie of kind simple: the bytes end where a key has to go on, at byte 1 of the trie in it\n",
        left: ("names.trie", b"\x00a"),
    },
    Row {
        files: &[("names.trie", b"\x00a")],
        command: Command::Ask(FILE, Question::Code(Language::C, "trie")),
        status: Status::BadInput,
        printed: b"",
        told: b"zerotrie: names.trie: no trie of kind simple: the bytes end where a key has to go on, at byte 1 of the trie in it\n",
        left: ("names.trie", b"\x00a"),
    },
    Row {
        files: &[("names.trie", TRIE)],
        command: Command::Ask(
            TrieFile {
                place: Place::Stream,
                ..FILE
            },
            Question::LookUp(VALUES, Keys::Lines),
        ),
        status: Status::BadUsage,
        printed: b"",
        told: b"zerotrie: standard input can't be both the file and the keys\n",
        left: ("names.trie", TRIE),
    },
    Row {
        files: &[("names.tsv", NAMES)],
        command: Command::Ask(FILE, Question::LookUp(VALUES, Keys::Lines)),
        status: Status::Unread,
        printed: b"",
        told: b"zerotrie: names.trie: entity not found\n",
        left: ("names.tsv", NAMES),
    },
    Row {
        files: &[("names.trie", b"")],
        command: Command::Ask(FILE, Question::Verify),
        status: Status::BadInput,
        printed: b"",
        told: b"zerotrie: names.trie: the file is empty\n",
        left: ("names.trie", b""),
    },
    Row {
        files: &[("names.trie", b"\x1f\x8b\x08")],
        command: Command::Ask(FILE, Question::Verify),
        status: Status::BadInput,
        printed: b"",
        told: b"zerotrie: names.trie: it looks like a file of gzip: gunzip it first\n",
        left: ("names.trie", b"\x1f\x8b\x08"),
    },
];

/// The file of the names as bare bytes of a kind, which they are not: the number of a kind stands in front.
const BARE: TrieFile<'static> = TrieFile {
    bare: Some(TrieKind::Simple),
    check: Check::Skip,
    ..FILE
};

/// A question to such a file, of which a note warns.
const NOTED: [Row; 1] = [Row {
    files: &[("names.trie", TRIE)],
    command: Command::Ask(
        BARE,
        Question::List(
            Form::Lines(Style::Values),
            ListQuery {
                choice: Choice {
                    prefix: b"\0c",
                    ..ALL
                },
                ..LISTED
            },
        ),
    ),
    status: Status::Absent,
    printed: b"",
    told: b"zerotrie: names.trie: read as bare bytes, though its first byte is the number of kind simple: leave out --bare-kind unless every key begins with that byte\n",
    left: ("names.trie", TRIE),
}];

/// Returns a disk with these files, and with those of a user beside what the rows make.
fn disk_with(alloc: Global, files: &[(&str, &[u8])]) -> io::Result<MemoryDisk> {
    let mut disk = MemoryDisk::new(alloc);
    for (path, bytes) in files {
        disk.make(path)?;
        disk.fill(path, None, bytes)?;
    }
    for name in MADE {
        plant(alloc, &mut disk, name)?;
    }
    Ok(disk)
}

/// Returns whether the files of a user are as they were.
fn is_spared(alloc: Global, disk: &MemoryDisk) -> io::Result<bool> {
    for name in MADE {
        if !are_planted(alloc, disk, name)? {
            return Ok(false);
        }
    }
    Ok(true)
}

/// Returns whether a run prints, tells, leaves and ends as it is to.
fn is_run(alloc: Global, row: &Row) -> io::Result<bool> {
    let mut files = Store::new(disk_with(alloc, row.files)?);
    let mut output = Noted::new(BufWriter::new(alloc, Vec::new(alloc))?);
    let mut messages = Noted::new(Vec::new(alloc));
    let (first, second) = TYPED;
    let mut input = Noted::new(first.chain(second));
    let status = run(
        alloc,
        row.command,
        &mut files,
        &mut input,
        &mut output,
        &mut messages,
    );
    let (path, bytes) = row.left;
    Ok(
        status == row.status
            && output.get_ref().get_ref().as_slice() == row.printed
            && messages.get_ref().as_slice() == row.told
            && files.disk().held(path) == Some(bytes)
            && is_spared(alloc, files.disk())?,
    )
}

/// Ends the test if a run is not as its row says.
fn are_run<H: Abort>(rt: &H, alloc: Global, rows: &[Row]) -> Result<(), Fail> {
    for row in rows {
        assert!(rt; is_run(alloc, row)?);
    }
    Ok(())
}

#[test]
fn a_file_is_asked(rt: HostRuntime) -> Result<(), Fail> {
    are_run(&rt, rt.alloc(), &QUESTIONS)
}

#[test]
fn a_trie_is_shown(rt: HostRuntime) -> Result<(), Fail> {
    are_run(&rt, rt.alloc(), &SHOWN)
}

#[test]
fn what_is_no_trie_is_not_asked(rt: HostRuntime) -> Result<(), Fail> {
    are_run(&rt, rt.alloc(), &UNANSWERED)
}

#[test]
fn what_is_listed_is_made_again(rt: HostRuntime) -> Result<(), Fail> {
    are_run(&rt, rt.alloc(), &MADE_AGAIN)
}

#[test]
fn a_number_that_is_read_as_a_byte_is_told(rt: HostRuntime) -> Result<(), Fail> {
    are_run(&rt, rt.alloc(), &NOTED)
}

/// A stream that breaks off after some bytes.
#[derive(Drop)]
struct Broken {
    left: &'static [u8],
}

impl Read for Broken {
    fn read(&mut self, buf: &mut [u8]) -> io::Result<usize> {
        if self.left.is_empty() {
            return Err(io::Error::from(ErrorKind::ConnectionReset));
        }
        self.left.read(buf)
    }
}

/// Streams of which a signal interrupts each other call, and that take few bytes at once.
#[derive(Drop)]
struct Interrupted {
    left: &'static [u8],
    written: Vec<u8>,
    calls: u8,
}

impl Interrupted {
    /// Returns a stream that has these bytes to read.
    fn of(alloc: Global, left: &'static [u8]) -> Self {
        Interrupted {
            left,
            written: Vec::new(alloc),
            calls: 0,
        }
    }

    /// Begins a call, or is interrupted.
    fn begin(&mut self) -> io::Result<()> {
        self.calls = u8::wrapping_add(self.calls, 1);
        if self.calls.is_multiple_of(2) {
            Ok(())
        } else {
            Err(io::Error::from(ErrorKind::Interrupted))
        }
    }
}

impl Read for Interrupted {
    fn read(&mut self, buf: &mut [u8]) -> io::Result<usize> {
        self.begin()?;
        self.left.read(buf)
    }
}

impl Write for Interrupted {
    fn write(&mut self, buf: &[u8]) -> io::Result<usize> {
        self.begin()?;
        let taken = &buf[..usize::min(3, buf.len())];
        self.written.extend_from_slice(taken)?;
        Ok(taken.len())
    }

    fn flush(&mut self) -> io::Result<()> {
        Ok(())
    }
}

#[test]
fn an_interrupted_call_is_made_again(rt: HostRuntime) -> Result<(), Fail> {
    let alloc = rt.alloc();
    let mut files = Store::new(disk_with(alloc, &[("names.trie", TRIE)])?);
    let mut output = Noted::new(BufWriter::new(alloc, Interrupted::of(alloc, b""))?);
    let mut messages = Noted::new(Interrupted::of(alloc, b""));
    let mut input = Noted::new(Interrupted::of(alloc, b"barn\nfoo\n"));
    let question = Question::LookUp(LONGEST, Keys::Lines);
    let status = run(
        alloc,
        Command::Ask(FILE, question),
        &mut files,
        &mut input,
        &mut output,
        &mut messages,
    );
    assert!(rt; status == Status::Done);
    assert!(rt; output.get_ref().get_ref().written.as_slice() == b"bar\t2\nfoo\t1\n".as_slice());
    let command = Command::Build(BUILD);
    let status = run(
        alloc,
        command,
        &mut files,
        &mut input,
        &mut output,
        &mut messages,
    );
    assert!(rt; status == Status::Unread);
    assert!(rt;
        messages.get_ref().written.as_slice()
            == b"zerotrie: names.tsv: entity not found\n".as_slice()
    );
    Ok(())
}

/// If an input breaks off, the lines that came whole are answered, and the answers are handed on.
#[test]
fn whole_lines_are_answered_before_a_fault(rt: HostRuntime) -> Result<(), Fail> {
    let alloc = rt.alloc();
    let mut files = Store::new(disk_with(alloc, &[("names.trie", TRIE)])?);
    let mut output = Noted::new(BufWriter::new(alloc, Vec::new(alloc))?);
    let mut messages = Noted::new(Vec::new(alloc));
    let mut input = Noted::new(Broken { left: b"barn\nf" });
    let status = run(
        alloc,
        Command::Ask(FILE, Question::LookUp(LONGEST, Keys::Lines)),
        &mut files,
        &mut input,
        &mut output,
        &mut messages,
    );
    assert!(rt; status == Status::Unread);
    assert!(rt; output.get_ref().get_ref().as_slice() == b"bar\t2\n".as_slice());
    assert!(rt;
        messages.get_ref().as_slice() == b"zerotrie: standard input: connection reset\n".as_slice()
    );
    Ok(())
}

/// If output has no room for a listing, a beginning of it is written, and the run ends in a fault.
#[test]
fn a_beginning_is_printed_as_far_as_there_is_room(rt: HostRuntime) -> Result<(), Fail> {
    let alloc = rt.alloc();
    let mut files = Store::new(disk_with(alloc, &[("names.trie", TRIE)])?);
    let mut output = Noted::new(BufWriter::new(alloc, Cursor::new([0; 7]))?);
    let mut messages = Noted::new(Vec::new(alloc));
    let status = run(
        alloc,
        Command::Ask(FILE, Question::List(Form::Lines(Style::Tsv), LISTED)),
        &mut files,
        &mut Noted::new(b"".as_slice()),
        &mut output,
        &mut messages,
    );
    assert!(rt; status == Status::Unwritten);
    assert!(rt; output.get_ref().get_ref().get_ref().as_slice() == b"bar\t2\nb".as_slice());
    Ok(())
}
