//! Which words ask for which command, and what is said in place of one: rows beside the clauses of `Request`, and the
//! first lines of messages, of which no clause speaks.

use std::alloc::{AllocError, Global};
use std::process::Abort;
use std::test::Fail;
use zerotrie_words::{Reply, Request};

/// Words after the name of the program, and what they ask for, where `..` is for any text. A reply begins with its status;
/// the lines after its first are left out.
const ROWS: &str =
    r#"build a -o b => Build(Build { from: File("a"), to: File("b"), plan: Plan { read: ReadPlan { source: Text(TextForm { format: Tsv, end: CrLf, header: Absent }), lower_case: false, duplicates: Refuse }, file: FilePlan { kind: None, sorted: false, form: Sealed } }, no_clobber: false, summary: IfEmpty })
get f k => Ask(TrieFile { place: File("f"), bare: None, check: Usual }, LookUp(Query { asked: Value, spelling: Plain }, Words([[107]])))
longest f t => Ask(TrieFile { place: File("f"), bare: None, check: Usual }, LookUp(Query { asked: Longest, spelling: Plain }, Words([[116]])))
reverse f 2 => Ask(TrieFile { place: File("f"), bare: None, check: Usual }, LookUp(Query { asked: KeyOf, spelling: Plain }, Words([[50]])))
list f => Ask(TrieFile { place: File("f"), bare: None, check: Usual }, List(Lines(Tsv), ListQuery { choice: Choice { prefix: [], range: KeyRange { from: Unbounded, to: Unbounded }, without: None, sought: None }, order: Stored, top: None, limit: None }))
search f --glob x* => Ask(TrieFile { place: File("f"), bare: None, check: Usual }, List(Lines(Tsv), ListQuery { choice: Choice { prefix: [], range: KeyRange { from: Unbounded, to: Unbounded }, without: None, sought: Some(Sought { by: GlobChars, word: [120, 42], begins: false }) }, order: ByBytes, top: None, limit: None }))
diff a b => Diff(Diff { old: File("a"), new: File("b"), bare: None })
verify f => Ask(TrieFile { place: File("f"), bare: None, check: Full }, Verify)
verify f --bare-kind simple => Ask(TrieFile { place: File("f"), bare: Some(Simple), check: Full }, Verify)
stats f => Ask(TrieFile { place: File("f"), bare: None, check: Usual }, Report(Lines, None))
inspect dump f => Ask(TrieFile { place: File("f"), bare: None, check: Usual }, View(Dump))
inspect dot f => Ask(TrieFile { place: File("f"), bare: None, check: Usual }, View(Dot(100)))
code f --lang rust => Ask(TrieFile { place: File("f"), bare: None, check: Usual }, Code(Rust, "TRIE"))
union a b -o c => Combine(Combine { from: [File("a"), File("b")], to: File("c"), combination: Combination { selection: Union, rule: First, kind: None, form: Sealed }, no_clobber: false, summary: IfEmpty })
intersect a b -o c => Combine(Combine { from: [File("a"), File("b")], to: File("c"), combination: Combination { selection: Intersection, rule: First, kind: None, form: Sealed }, no_clobber: false, summary: IfEmpty })
minus a b -o c => Combine(Combine { from: [File("a"), File("b")], to: File("c"), combination: Combination { selection: Difference, rule: First, kind: None, form: Sealed }, no_clobber: false, summary: IfEmpty })
build a.csv --output b => Build(Build { from: File("a.csv"), to: File("b"), plan: Plan { read: ReadPlan { source: Text(TextForm { format: Csv, end: CrLf, header: Absent }), lower_case: false, duplicates: Refuse }, file: FilePlan { kind: None, sorted: false, form: Sealed } }, no_clobber: false, summary: IfEmpty })
build a.TXT -o b => Build(Build { from: File("a.TXT"), to: File("b"), plan: Plan { read: ReadPlan { source: Text(TextForm { format: Lines, end: CrLf, header: Absent }), lower_case: false, duplicates: Refuse }, file: FilePlan { kind: None, sorted: false, form: Sealed } }, no_clobber: false, summary: IfEmpty })
build a.json -o b => Build(Build { from: File("a.json"), to: File("b"), plan: Plan { read: ReadPlan { source: Json, lower_case: false, duplicates: Refuse }, file: FilePlan { kind: None, sorted: false, form: Sealed } }, no_clobber: false, summary: IfEmpty })
build a.JSONL -o b => Build(Build { from: File("a.JSONL"), to: File("b"), plan: Plan { read: ReadPlan { source: JsonLines(Names { key: "key", value: "value" }), lower_case: false, duplicates: Refuse }, file: FilePlan { kind: None, sorted: false, form: Sealed } }, no_clobber: false, summary: IfEmpty })
build a.ndjson -o b => Build(Build { from: File("a.ndjson"), to: File("b"), plan: Plan { read: ReadPlan { source: JsonLines(Names { key: "key", value: "value" }), lower_case: false, duplicates: Refuse }, file: FilePlan { kind: None, sorted: false, form: Sealed } }, no_clobber: false, summary: IfEmpty })
build - -o - => Build(Build { from: Stream, to: Stream, plan: Plan { read: ReadPlan { source: Text(TextForm { format: Tsv, end: CrLf, header: Absent }), lower_case: false, duplicates: Refuse }, file: FilePlan { kind: None, sorted: false, form: Sealed } }, no_clobber: false, summary: IfEmpty })
build /dev/stdin -o /dev/stdout => Build(Build { from: Stream, to: Stream, plan: Plan { read: ReadPlan { source: Text(TextForm { format: Tsv, end: CrLf, header: Absent }), lower_case: false, duplicates: Refuse }, file: FilePlan { kind: None, sorted: false, form: Sealed } }, no_clobber: false, summary: IfEmpty })
build a -o b -f csv => Build(Build { from: File("a"), to: File("b"), plan: Plan { read: ReadPlan { source: Text(TextForm { format: Csv, end: CrLf, header: Absent }), lower_case: false, duplicates: Refuse }, file: FilePlan { kind: None, sorted: false, form: Sealed } }, no_clobber: false, summary: IfEmpty })
build a.csv -o b --format lines => Build(Build { from: File("a.csv"), to: File("b"), plan: Plan { read: ReadPlan { source: Text(TextForm { format: Lines, end: CrLf, header: Absent }), lower_case: false, duplicates: Refuse }, file: FilePlan { kind: None, sorted: false, form: Sealed } }, no_clobber: false, summary: IfEmpty })
build a -o b --format json => Build(Build { from: File("a"), to: File("b"), plan: Plan { read: ReadPlan { source: Json, lower_case: false, duplicates: Refuse }, file: FilePlan { kind: None, sorted: false, form: Sealed } }, no_clobber: false, summary: IfEmpty })
build a -o b --format jsonl => Build(Build { from: File("a"), to: File("b"), plan: Plan { read: ReadPlan { source: JsonLines(Names { key: "key", value: "value" }), lower_case: false, duplicates: Refuse }, file: FilePlan { kind: None, sorted: false, form: Sealed } }, no_clobber: false, summary: IfEmpty })
build a.json -o b --format tsv => Build(Build { from: File("a.json"), to: File("b"), plan: Plan { read: ReadPlan { source: Text(TextForm { format: Tsv, end: CrLf, header: Absent }), lower_case: false, duplicates: Refuse }, file: FilePlan { kind: None, sorted: false, form: Sealed } }, no_clobber: false, summary: IfEmpty })
build a -o b --raw --eol lf => Build(Build { from: File("a"), to: File("b"), plan: Plan { read: ReadPlan { source: Text(TextForm { format: TsvRaw, end: Lf, header: Absent }), lower_case: false, duplicates: Refuse }, file: FilePlan { kind: None, sorted: false, form: Sealed } }, no_clobber: false, summary: IfEmpty })
build a -o b --eol crlf => Build(Build { from: File("a"), to: File("b"), plan: Plan { read: ReadPlan { source: Text(TextForm { format: Tsv, end: CrLf, header: Absent }), lower_case: false, duplicates: Refuse }, file: FilePlan { kind: None, sorted: false, form: Sealed } }, no_clobber: false, summary: IfEmpty })
build a -o b --header => Build(Build { from: File("a"), to: File("b"), plan: Plan { read: ReadPlan { source: Text(TextForm { format: Tsv, end: CrLf, header: Present }), lower_case: false, duplicates: Refuse }, file: FilePlan { kind: None, sorted: false, form: Sealed } }, no_clobber: false, summary: IfEmpty })
build a.csv -o b --header --eol lf => Build(Build { from: File("a.csv"), to: File("b"), plan: Plan { read: ReadPlan { source: Text(TextForm { format: Csv, end: Lf, header: Present }), lower_case: false, duplicates: Refuse }, file: FilePlan { kind: None, sorted: false, form: Sealed } }, no_clobber: false, summary: IfEmpty })
build a -o b --header -r => Build(Build { from: File("a"), to: File("b"), plan: Plan { read: ReadPlan { source: Text(TextForm { format: TsvRaw, end: CrLf, header: Present }), lower_case: false, duplicates: Refuse }, file: FilePlan { kind: None, sorted: false, form: Sealed } }, no_clobber: false, summary: IfEmpty })
build a.csv -o b --key n --value v => Build(Build { from: File("a.csv"), to: File("b"), plan: Plan { read: ReadPlan { source: Text(TextForm { format: Csv, end: CrLf, header: Named(Names { key: "n", value: "v" }) }), lower_case: false, duplicates: Refuse }, file: FilePlan { kind: None, sorted: false, form: Sealed } }, no_clobber: false, summary: IfEmpty })
build a -o b -r --header --key n --value v => Build(Build { from: File("a"), to: File("b"), plan: Plan { read: ReadPlan { source: Text(TextForm { format: TsvRaw, end: CrLf, header: Named(Names { key: "n", value: "v" }) }), lower_case: false, duplicates: Refuse }, file: FilePlan { kind: None, sorted: false, form: Sealed } }, no_clobber: false, summary: IfEmpty })
build a.jsonl -o b --value v --key n => Build(Build { from: File("a.jsonl"), to: File("b"), plan: Plan { read: ReadPlan { source: JsonLines(Names { key: "n", value: "v" }), lower_case: false, duplicates: Refuse }, file: FilePlan { kind: None, sorted: false, form: Sealed } }, no_clobber: false, summary: IfEmpty })
build a -o b -d first => Build(Build { from: File("a"), to: File("b"), plan: Plan { read: ReadPlan { source: Text(TextForm { format: Tsv, end: CrLf, header: Absent }), lower_case: false, duplicates: First }, file: FilePlan { kind: None, sorted: false, form: Sealed } }, no_clobber: false, summary: IfEmpty })
build a -o b --duplicates last => Build(Build { from: File("a"), to: File("b"), plan: Plan { read: ReadPlan { source: Text(TextForm { format: Tsv, end: CrLf, header: Absent }), lower_case: false, duplicates: Last }, file: FilePlan { kind: None, sorted: false, form: Sealed } }, no_clobber: false, summary: IfEmpty })
build a -o b -d max => Build(Build { from: File("a"), to: File("b"), plan: Plan { read: ReadPlan { source: Text(TextForm { format: Tsv, end: CrLf, header: Absent }), lower_case: false, duplicates: Max }, file: FilePlan { kind: None, sorted: false, form: Sealed } }, no_clobber: false, summary: IfEmpty })
build a -o b --duplicates refuse => Build(Build { from: File("a"), to: File("b"), plan: Plan { read: ReadPlan { source: Text(TextForm { format: Tsv, end: CrLf, header: Absent }), lower_case: false, duplicates: Refuse }, file: FilePlan { kind: None, sorted: false, form: Sealed } }, no_clobber: false, summary: IfEmpty })
build a -o b -l -S --summary => Build(Build { from: File("a"), to: File("b"), plan: Plan { read: ReadPlan { source: Text(TextForm { format: Tsv, end: CrLf, header: Absent }), lower_case: true, duplicates: Refuse }, file: FilePlan { kind: None, sorted: true, form: Sealed } }, no_clobber: false, summary: Always })
build a -o b --lower-case => Build(Build { from: File("a"), to: File("b"), plan: Plan { read: ReadPlan { source: Text(TextForm { format: Tsv, end: CrLf, header: Absent }), lower_case: true, duplicates: Refuse }, file: FilePlan { kind: None, sorted: false, form: Sealed } }, no_clobber: false, summary: IfEmpty })
build a -o b --sorted => Build(Build { from: File("a"), to: File("b"), plan: Plan { read: ReadPlan { source: Text(TextForm { format: Tsv, end: CrLf, header: Absent }), lower_case: false, duplicates: Refuse }, file: FilePlan { kind: None, sorted: true, form: Sealed } }, no_clobber: false, summary: IfEmpty })
build a -o b --no-clobber => Build(Build { from: File("a"), to: File("b"), plan: Plan { read: ReadPlan { source: Text(TextForm { format: Tsv, end: CrLf, header: Absent }), lower_case: false, duplicates: Refuse }, file: FilePlan { kind: None, sorted: false, form: Sealed } }, no_clobber: true, summary: IfEmpty })
build a -o b --no-clobber --summary => Build(Build { from: File("a"), to: File("b"), plan: Plan { read: ReadPlan { source: Text(TextForm { format: Tsv, end: CrLf, header: Absent }), lower_case: false, duplicates: Refuse }, file: FilePlan { kind: None, sorted: false, form: Sealed } }, no_clobber: true, summary: Always })
build a -o b --quiet => Build(Build { from: File("a"), to: File("b"), plan: Plan { read: ReadPlan { source: Text(TextForm { format: Tsv, end: CrLf, header: Absent }), lower_case: false, duplicates: Refuse }, file: FilePlan { kind: None, sorted: false, form: Sealed } }, no_clobber: false, summary: Never })
build a -o b -k simple -t => Build(Build { from: File("a"), to: File("b"), plan: Plan { read: ReadPlan { source: Text(TextForm { format: Tsv, end: CrLf, header: Absent }), lower_case: false, duplicates: Refuse }, file: FilePlan { kind: Some(Simple), sorted: false, form: Tagged } }, no_clobber: false, summary: IfEmpty })
build a -o b --kind ignore --tagged => Build(Build { from: File("a"), to: File("b"), plan: Plan { read: ReadPlan { source: Text(TextForm { format: Tsv, end: CrLf, header: Absent }), lower_case: false, duplicates: Refuse }, file: FilePlan { kind: Some(Ignore), sorted: false, form: Tagged } }, no_clobber: false, summary: IfEmpty })
build a -o b --kind hash --bare => Build(Build { from: File("a"), to: File("b"), plan: Plan { read: ReadPlan { source: Text(TextForm { format: Tsv, end: CrLf, header: Absent }), lower_case: false, duplicates: Refuse }, file: FilePlan { kind: Some(Hash), sorted: false, form: Bare } }, no_clobber: false, summary: IfEmpty })
build a -o b -k ext -b => Build(Build { from: File("a"), to: File("b"), plan: Plan { read: ReadPlan { source: Text(TextForm { format: Tsv, end: CrLf, header: Absent }), lower_case: false, duplicates: Refuse }, file: FilePlan { kind: Some(Ext), sorted: false, form: Bare } }, no_clobber: false, summary: IfEmpty })
build a -o b -k auto => Build(Build { from: File("a"), to: File("b"), plan: Plan { read: ReadPlan { source: Text(TextForm { format: Tsv, end: CrLf, header: Absent }), lower_case: false, duplicates: Refuse }, file: FilePlan { kind: None, sorted: false, form: Sealed } }, no_clobber: false, summary: IfEmpty })
build a -o b -i => Build(Build { from: File("a"), to: File("b"), plan: Plan { read: ReadPlan { source: Text(TextForm { format: Tsv, end: CrLf, header: Absent }), lower_case: false, duplicates: Refuse }, file: FilePlan { kind: None, sorted: false, form: Index } }, no_clobber: false, summary: IfEmpty })
union a b -o c -k hash -t --no-clobber => Combine(Combine { from: [File("a"), File("b")], to: File("c"), combination: Combination { selection: Union, rule: First, kind: Some(Hash), form: Tagged }, no_clobber: true, summary: IfEmpty })
union a -o b => Combine(Combine { from: [File("a")], to: File("b"), combination: Combination { selection: Union, rule: First, kind: None, form: Sealed }, no_clobber: false, summary: IfEmpty })
union a b c -o d --summary => Combine(Combine { from: [File("a"), File("b"), File("c")], to: File("d"), combination: Combination { selection: Union, rule: First, kind: None, form: Sealed }, no_clobber: false, summary: Always })
union -o d a b - c --quiet => Combine(Combine { from: [File("a"), File("b"), Stream, File("c")], to: File("d"), combination: Combination { selection: Union, rule: First, kind: None, form: Sealed }, no_clobber: false, summary: Never })
minus a b c -o d --summary => Combine(Combine { from: [File("a"), File("b"), File("c")], to: File("d"), combination: Combination { selection: Difference, rule: First, kind: None, form: Sealed }, no_clobber: false, summary: Always })
intersect a b a -o a -q => Combine(Combine { from: [File("a"), File("b"), File("a")], to: File("a"), combination: Combination { selection: Intersection, rule: First, kind: None, form: Sealed }, no_clobber: false, summary: Never })
union a b -o c --values first => Combine(Combine { from: [File("a"), File("b")], to: File("c"), combination: Combination { selection: Union, rule: First, kind: None, form: Sealed }, no_clobber: false, summary: IfEmpty })
union a b -o c --values last => Combine(Combine { from: [File("a"), File("b")], to: File("c"), combination: Combination { selection: Union, rule: Last, kind: None, form: Sealed }, no_clobber: false, summary: IfEmpty })
union a b -o c --values sum => Combine(Combine { from: [File("a"), File("b")], to: File("c"), combination: Combination { selection: Union, rule: Sum, kind: None, form: Sealed }, no_clobber: false, summary: IfEmpty })
union a b -o c --values min => Combine(Combine { from: [File("a"), File("b")], to: File("c"), combination: Combination { selection: Union, rule: Min, kind: None, form: Sealed }, no_clobber: false, summary: IfEmpty })
union a b -o c --values max => Combine(Combine { from: [File("a"), File("b")], to: File("c"), combination: Combination { selection: Union, rule: Max, kind: None, form: Sealed }, no_clobber: false, summary: IfEmpty })
union a b -o c --values refuse => Combine(Combine { from: [File("a"), File("b")], to: File("c"), combination: Combination { selection: Union, rule: Refuse, kind: None, form: Sealed }, no_clobber: false, summary: IfEmpty })
union a b -o c --values equal => Combine(Combine { from: [File("a"), File("b")], to: File("c"), combination: Combination { selection: Union, rule: Equal, kind: None, form: Sealed }, no_clobber: false, summary: IfEmpty })
intersect a b -o c --values last => Combine(Combine { from: [File("a"), File("b")], to: File("c"), combination: Combination { selection: Intersection, rule: Last, kind: None, form: Sealed }, no_clobber: false, summary: IfEmpty })
minus - b -o - --index => Combine(Combine { from: [Stream, File("b")], to: Stream, combination: Combination { selection: Difference, rule: First, kind: None, form: Index }, no_clobber: false, summary: IfEmpty })
union - /dev/stdin -o /dev/fd/1 => Combine(Combine { from: [Stream, Stream], to: Stream, combination: Combination { selection: Union, rule: First, kind: None, form: Sealed }, no_clobber: false, summary: IfEmpty })
intersect a /dev/fd/0 -o c --bare => Combine(Combine { from: [File("a"), Stream], to: File("c"), combination: Combination { selection: Intersection, rule: First, kind: None, form: Bare }, no_clobber: false, summary: IfEmpty })
get - k l --keys --bare-kind simple => Ask(TrieFile { place: Stream, bare: Some(Simple), check: Usual }, LookUp(Query { asked: Pair, spelling: Plain }, Words([[107], [108]])))
get f - => Ask(TrieFile { place: File("f"), bare: None, check: Usual }, LookUp(Query { asked: Value, spelling: Plain }, Lines))
get f - -k --escaped --no-check => Ask(TrieFile { place: File("f"), bare: None, check: Skip }, LookUp(Query { asked: Pair, spelling: Escaped }, Lines))
longest f t --all --at . => Ask(TrieFile { place: File("f"), bare: None, check: Usual }, LookUp(Query { asked: Prefixes(Some(46)), spelling: Plain }, Words([[116]])))
longest f t u --all => Ask(TrieFile { place: File("f"), bare: None, check: Usual }, LookUp(Query { asked: Prefixes(None), spelling: Plain }, Words([[116], [117]])))
longest f t --at . => Ask(TrieFile { place: File("f"), bare: None, check: Usual }, LookUp(Query { asked: LongestAt(46), spelling: Plain }, Words([[116]])))
longest f - --at - => Ask(TrieFile { place: File("f"), bare: None, check: Usual }, LookUp(Query { asked: LongestAt(45), spelling: Plain }, Lines))
longest f -- -a => Ask(TrieFile { place: File("f"), bare: None, check: Usual }, LookUp(Query { asked: Longest, spelling: Plain }, Words([[45, 97]])))
reverse f - --no-check => Ask(TrieFile { place: File("f"), bare: None, check: Skip }, LookUp(Query { asked: KeyOf, spelling: Plain }, Lines))
reverse - 2 03 --bare-kind hash => Ask(TrieFile { place: Stream, bare: Some(Hash), check: Usual }, LookUp(Query { asked: KeyOf, spelling: Plain }, Words([[50], [48, 51]])))
list f -p x -f csv -n 3 -S --bare-kind hash => Ask(TrieFile { place: File("f"), bare: Some(Hash), check: Usual }, List(Lines(Csv), ListQuery { choice: Choice { prefix: [120], range: KeyRange { from: Unbounded, to: Unbounded }, without: None, sought: None }, order: ByBytes, top: None, limit: Some(3) }))
list f --prefix=-x --format keys --limit 0 => Ask(TrieFile { place: File("f"), bare: None, check: Usual }, List(Lines(Keys), ListQuery { choice: Choice { prefix: [45, 120], range: KeyRange { from: Unbounded, to: Unbounded }, without: None, sought: None }, order: Stored, top: None, limit: Some(0) }))
list f -r => Ask(TrieFile { place: File("f"), bare: None, check: Usual }, List(Lines(TsvRaw), ListQuery { choice: Choice { prefix: [], range: KeyRange { from: Unbounded, to: Unbounded }, without: None, sought: None }, order: Stored, top: None, limit: None }))
list f --format values => Ask(TrieFile { place: File("f"), bare: None, check: Usual }, List(Lines(Values), ListQuery { choice: Choice { prefix: [], range: KeyRange { from: Unbounded, to: Unbounded }, without: None, sought: None }, order: Stored, top: None, limit: None }))
list f --format json => Ask(TrieFile { place: File("f"), bare: None, check: Usual }, List(Json, ListQuery { choice: Choice { prefix: [], range: KeyRange { from: Unbounded, to: Unbounded }, without: None, sought: None }, order: Stored, top: None, limit: None }))
list f --format jsonl => Ask(TrieFile { place: File("f"), bare: None, check: Usual }, List(Lines(JsonLines), ListQuery { choice: Choice { prefix: [], range: KeyRange { from: Unbounded, to: Unbounded }, without: None, sought: None }, order: Stored, top: None, limit: None }))
list f -q => quiet Ask(TrieFile { place: File("f"), bare: None, check: Usual }, List(Count, ListQuery { choice: Choice { prefix: [], range: KeyRange { from: Unbounded, to: Unbounded }, without: None, sought: None }, order: Stored, top: None, limit: Some(1) }))
list f --quiet -n 0 => quiet Ask(TrieFile { place: File("f"), bare: None, check: Usual }, List(Count, ListQuery { choice: Choice { prefix: [], range: KeyRange { from: Unbounded, to: Unbounded }, without: None, sought: None }, order: Stored, top: None, limit: Some(0) }))
list f -q -n 7 -c => quiet Ask(TrieFile { place: File("f"), bare: None, check: Usual }, List(Count, ListQuery { choice: Choice { prefix: [], range: KeyRange { from: Unbounded, to: Unbounded }, without: None, sought: None }, order: Stored, top: None, limit: Some(1) }))
list f --count --sorted => Ask(TrieFile { place: File("f"), bare: None, check: Usual }, List(Count, ListQuery { choice: Choice { prefix: [], range: KeyRange { from: Unbounded, to: Unbounded }, without: None, sought: None }, order: Stored, top: None, limit: None }))
search f -z ab -n 5 -c => Ask(TrieFile { place: File("f"), bare: None, check: Usual }, List(Count, ListQuery { choice: Choice { prefix: [], range: KeyRange { from: Unbounded, to: Unbounded }, without: None, sought: Some(Sought { by: SwapsChars(2), word: [97, 98], begins: false }) }, order: Closest, top: None, limit: Some(5) }))
search f --fuzzy ab --edits 4 => Ask(TrieFile { place: File("f"), bare: None, check: Usual }, List(Lines(Tsv), ListQuery { choice: Choice { prefix: [], range: KeyRange { from: Unbounded, to: Unbounded }, without: None, sought: Some(Sought { by: SwapsChars(4), word: [97, 98], begins: false }) }, order: Nearest, top: None, limit: None }))
search f --fuzzy ab -e 1 -c => Ask(TrieFile { place: File("f"), bare: None, check: Usual }, List(Count, ListQuery { choice: Choice { prefix: [], range: KeyRange { from: Unbounded, to: Unbounded }, without: None, sought: Some(Sought { by: SwapsChars(1), word: [97, 98], begins: false }) }, order: ByBytes, top: None, limit: None }))
search f --fuzzy ab --edits 4 --no-transpose => Ask(TrieFile { place: File("f"), bare: None, check: Usual }, List(Lines(Tsv), ListQuery { choice: Choice { prefix: [], range: KeyRange { from: Unbounded, to: Unbounded }, without: None, sought: Some(Sought { by: FuzzyChars(4), word: [97, 98], begins: false }) }, order: Nearest, top: None, limit: None }))
search f --fuzzy ab --bytes => Ask(TrieFile { place: File("f"), bare: None, check: Usual }, List(Lines(Tsv), ListQuery { choice: Choice { prefix: [], range: KeyRange { from: Unbounded, to: Unbounded }, without: None, sought: Some(Sought { by: Swaps(2), word: [97, 98], begins: false }) }, order: Closest, top: None, limit: None }))
search f --fuzzy ab --bytes --no-transpose -e 1 => Ask(TrieFile { place: File("f"), bare: None, check: Usual }, List(Lines(Tsv), ListQuery { choice: Choice { prefix: [], range: KeyRange { from: Unbounded, to: Unbounded }, without: None, sought: Some(Sought { by: Fuzzy(1), word: [97, 98], begins: false }) }, order: Nearest, top: None, limit: None }))
search f --fuzzy ab --beginnings => Ask(TrieFile { place: File("f"), bare: None, check: Usual }, List(Lines(Tsv), ListQuery { choice: Choice { prefix: [], range: KeyRange { from: Unbounded, to: Unbounded }, without: None, sought: Some(Sought { by: SwapsChars(2), word: [97, 98], begins: true }) }, order: Closest, top: None, limit: None }))
search f --fuzzy ab --distance -n 3 => Ask(TrieFile { place: File("f"), bare: None, check: Usual }, List(Distances, ListQuery { choice: Choice { prefix: [], range: KeyRange { from: Unbounded, to: Unbounded }, without: None, sought: Some(Sought { by: SwapsChars(2), word: [97, 98], begins: false }) }, order: Closest, top: None, limit: Some(3) }))
search f --fuzzy ab --beginnings --distance => Ask(TrieFile { place: File("f"), bare: None, check: Usual }, List(Distances, ListQuery { choice: Choice { prefix: [], range: KeyRange { from: Unbounded, to: Unbounded }, without: None, sought: Some(Sought { by: SwapsChars(2), word: [97, 98], begins: true }) }, order: Closest, top: None, limit: None }))
search f --not x* => Ask(TrieFile { place: File("f"), bare: None, check: Usual }, List(Lines(Tsv), ListQuery { choice: Choice { prefix: [], range: KeyRange { from: Unbounded, to: Unbounded }, without: Some(Pattern { by_chars: true, text: [120, 42] }), sought: None }, order: ByBytes, top: None, limit: None }))
search f --glob x* --bytes => Ask(TrieFile { place: File("f"), bare: None, check: Usual }, List(Lines(Tsv), ListQuery { choice: Choice { prefix: [], range: KeyRange { from: Unbounded, to: Unbounded }, without: None, sought: Some(Sought { by: Glob, word: [120, 42], begins: false }) }, order: ByBytes, top: None, limit: None }))
search f --subsequence ab => Ask(TrieFile { place: File("f"), bare: None, check: Usual }, List(Lines(Tsv), ListQuery { choice: Choice { prefix: [], range: KeyRange { from: Unbounded, to: Unbounded }, without: None, sought: Some(Sought { by: Subsequence, word: [97, 98], begins: false }) }, order: ByBytes, top: None, limit: None }))
search f --from b --below c => Ask(TrieFile { place: File("f"), bare: None, check: Usual }, List(Lines(Tsv), ListQuery { choice: Choice { prefix: [], range: KeyRange { from: Included([98]), to: Excluded([99]) }, without: None, sought: None }, order: ByBytes, top: None, limit: None }))
search f --below c => Ask(TrieFile { place: File("f"), bare: None, check: Usual }, List(Lines(Tsv), ListQuery { choice: Choice { prefix: [], range: KeyRange { from: Unbounded, to: Excluded([99]) }, without: None, sought: None }, order: ByBytes, top: None, limit: None }))
search f --to c => Ask(TrieFile { place: File("f"), bare: None, check: Usual }, List(Lines(Tsv), ListQuery { choice: Choice { prefix: [], range: KeyRange { from: Unbounded, to: Included([99]) }, without: None, sought: None }, order: ByBytes, top: None, limit: None }))
search f -p a => Ask(TrieFile { place: File("f"), bare: None, check: Usual }, List(Lines(Tsv), ListQuery { choice: Choice { prefix: [97], range: KeyRange { from: Unbounded, to: Unbounded }, without: None, sought: None }, order: ByBytes, top: None, limit: None }))
search f -g x* -p-a --from b --below c => Ask(TrieFile { place: File("f"), bare: None, check: Usual }, List(Lines(Tsv), ListQuery { choice: Choice { prefix: [45, 97], range: KeyRange { from: Included([98]), to: Excluded([99]) }, without: None, sought: Some(Sought { by: GlobChars, word: [120, 42], begins: false }) }, order: ByBytes, top: None, limit: None }))
search f --subsequence ab --from b => Ask(TrieFile { place: File("f"), bare: None, check: Usual }, List(Lines(Tsv), ListQuery { choice: Choice { prefix: [], range: KeyRange { from: Included([98]), to: Unbounded }, without: None, sought: Some(Sought { by: Subsequence, word: [97, 98], begins: false }) }, order: ByBytes, top: None, limit: None }))
list f --from b --below c -p a => Ask(TrieFile { place: File("f"), bare: None, check: Usual }, List(Lines(Tsv), ListQuery { choice: Choice { prefix: [97], range: KeyRange { from: Included([98]), to: Excluded([99]) }, without: None, sought: None }, order: Stored, top: None, limit: None }))
diff a b --bare-kind ext => Diff(Diff { old: File("a"), new: File("b"), bare: Some(Ext) })
diff a b --quiet => quiet Diff(Diff { old: File("a"), new: File("b"), bare: None })
stats f --format json => Ask(TrieFile { place: File("f"), bare: None, check: Usual }, Report(Json, None))
inspect dot f -n 7 => Ask(TrieFile { place: File("f"), bare: None, check: Usual }, View(Dot(7)))
code f --lang c --name names => Ask(TrieFile { place: File("f"), bare: None, check: Usual }, Code(C, "names"))
code f --lang c --alone => Ask(TrieFile { place: File("f"), bare: None, check: Usual }, Code(CAlone, "trie"))
code f --lang rattle => Ask(TrieFile { place: File("f"), bare: None, check: Usual }, Code(Rattle, "get"))
code f --lang js => Ask(TrieFile { place: File("f"), bare: None, check: Usual }, Code(JavaScript, "trie"))
build a => 2 the following required arguments were not provided:
union a b => 2 the following required arguments were not provided:
union -o c => 2 the following required arguments were not provided:
intersect a b => 2 the following required arguments were not provided:
minus a b => 2 the following required arguments were not provided:
code f => 2 the following required arguments were not provided:
get f => 2 the following required arguments were not provided:
reverse f => 2 the following required arguments were not provided:
get => 2 the following required arguments were not provided:
diff a => 2 the following required arguments were not provided:
nope => 2 unrecognized subcommand 'nope'
list f --nope => 2 unexpected argument '--nope' found
search f --glob -x => 2 unexpected argument '-x' found
search f -g --count => 2 a value is required for '--glob <P>' but none was supplied
verify f --no-check => 2 unexpected argument '--no-check' found
list f -N 3 => 2 unexpected argument '-N' found
verify f g => Ask(TrieFile { place: File("f"), bare: None, check: Full }, Verify)
verify => 2 the following required arguments were not provided:
stats f g --format json --bare-kind hash => Ask(TrieFile { place: File("f"), bare: Some(Hash), check: Usual }, Report(Json, Some("f")))
get f k --bare-kind => 2 a value is required for '--bare-kind <K>' but none was supplied
list f --format nope => 2 invalid value 'nope' for '--format <F>'
build a -o b --format nope => 2 invalid value 'nope' for '--format <F>'
build a -o b --kind nope => 2 invalid value 'nope' for '--kind <K>'
build a -o b --eol cr => 2 invalid value 'cr' for '--eol <E>'
minus a b -o c --values last => 2 unexpected argument '--values' found
union a b -o c --values second => 2 invalid value 'second' for '--values <V>'
build a -o b --duplicates all => 2 invalid value 'all' for '--duplicates <D>'
list f --bare-kind auto => 2 invalid value 'auto' for '--bare-kind <K>'
completions sh => 2 invalid value 'sh' for '<SHELL>'
inspect tree f => 2 invalid value 'tree' for '<VIEW>'
code f --lang go => 2 invalid value 'go' for '--lang <L>'
list f --limit x => 2 invalid value 'x' for '--limit <N>': invalid digit found in string
search f --fuzzy a --edits 255 => 2 invalid value '255' for '--edits <E>': 255 is not in 0..=254
list f -c -c => 2 the argument '--count' cannot be used multiple times
build a.json -o b --header => 2 --header is for tsv and csv
build a.jsonl -o b --header => 2 --header is for tsv and csv
build a -o b --header -f lines => 2 --header is for tsv and csv
build a -o b --key n => 2 --key and --value go together
build a.jsonl -o b --value v => 2 --key and --value go together
build a.json -o b --key n --value v => 2 --key and --value are for tsv, csv and jsonl
build a -o b -f lines --key n --value v => 2 --key and --value are for tsv, csv and jsonl
build a -o b --eol lf -f json => 2 --eol is for lines and records: leave it out for json and jsonl
build a -o b --eol lf -f jsonl => 2 --eol is for lines and records: leave it out for json and jsonl
build a -o b --raw -f csv => 2 --raw is for tsv
build a -o b --raw -f jsonl => 2 --raw is for tsv
build a -o b -t -b => 2 --tagged and --bare exclude each other
build a -o b -i -t => 2 --index excludes --tagged and --bare
build a -o b -i -k hash => 2 an index has no kind: leave out --kind or --index
build a -o b --summary -q => 2 --summary and --quiet exclude each other
union a b c -o d --summary -q => 2 --summary and --quiet exclude each other
intersect a b c -o d --summary -q => 2 --summary and --quiet exclude each other
minus a b c -o d --summary -q => 2 --summary and --quiet exclude each other
build a -o a => 2 a and a: IN and OUT are the same file
get f - k => 2 - reads standard input only if no other key, text or value is given; the key - is \x2d with --escaped
reverse f 1 - => 2 - reads standard input only if no other key, text or value is given; the key - is \x2d with --escaped
reverse f 1 --escaped => 2 unexpected argument '--escaped' found
longest f t --at ab => 2 --at asks for one byte
list f -c -f csv => 2 --count prints no pairs: leave out --format and --raw
list f -c -r => 2 --count prints no pairs: leave out --format and --raw
list f -r -f json => 2 --raw is for tsv
search f => 2 give --glob, --fuzzy, --subsequence, --not, --prefix, --from, --below or --to
search f --glob a --subsequence b -p c => 2 give only one of --glob, --fuzzy and --subsequence
search f --glob a --edits 2 => 2 --edits is for --fuzzy
search f --glob [a => 2 --glob and --not ask for a pattern: ..
search f --glob [b-a] => 2 --glob and --not ask for a pattern: ..
search f --fuzzy a -e 8 => 2 --fuzzy allows at most 7 edits, and 254 with --no-transpose
search f --glob a --no-transpose => 2 --no-transpose is for --fuzzy
search f --subsequence a --bytes => 2 --bytes is for --glob, --not and --fuzzy
search f --glob a --beginnings => 2 --beginnings is for --fuzzy
search f --glob a --distance => 2 --distance is for --fuzzy
search f --fuzzy a --distance -f csv => 2 --distance prints tsv: leave out --count, --format and --raw
search f --fuzzy a --distance -c => 2 --distance prints tsv: leave out --count, --format and --raw
search f --below c --to d => 2 give only one of --below and --to
list f --below c --to d => 2 give only one of --below and --to
search f --not [a => 2 --glob and --not ask for a pattern: ..
inspect dump f -n 3 => 2 --limit is for inspect dot
code f --lang js --alone => 2 --alone is for --lang c
code f --lang c --name 1a => 2 --name asks for ASCII letters, digits and _, and no digit in front
code f --lang c --name zerotrie_get => 2 --name asks for no name that begins with zerotrie
code f --lang rust --name fn => 2 --name asks for no keyword of the language
code f --lang rattle --name match => 2 --name asks for no keyword of the language
code f --lang js --name await => 2 --name asks for no keyword of the language
completions bash => 0 # Completions of zerotrie for bash.
man => 0 .TH ZEROTRIE 1 "" "zerotrie 0.3.0" "User Commands"
completions zsh => 0 #compdef zerotrie
completions fish => 0 # Completions of zerotrie for fish.
--version => 0 zerotrie 0.3.0
--help => 0 Makes tries in files and reads them
union --help => 0 Make a trie of the pairs of all FILEs
"#;

/// Returns the words of a row, behind the name of the program.
fn words_of(alloc: Global, row: &str) -> Result<Vec<String>, AllocError> {
    let mut words = Vec::new(alloc);
    words.push(String::from_str(alloc, "zerotrie")?)?;
    for word in row.split(' ') {
        words.push(String::from_str(alloc, word)?)?;
    }
    Ok(words)
}

/// Returns the first line of a reply, after its status.
fn first_line(alloc: Global, reply: &Reply<'_>) -> Result<String, AllocError> {
    let text = match reply {
        Reply::Help(text) | Reply::Misuse(text) => format!(in alloc; "{text}")?,
        Reply::Refusal(why) => format!(in alloc; "{}", why.text())?,
        Reply::OneFile(from, to) => {
            format!(in alloc; "{from} and {to}: IN and OUT are the same file")?
        }
        Reply::OutOfMemory => format!(in alloc; "out of memory")?,
    };
    let line = text.as_str().lines().next().unwrap_or("");
    let line = line.strip_prefix("zerotrie: ").unwrap_or(line);
    format!(in alloc; "{} {line}", reply.status().number())
}

/// Returns what words ask for, as text.
fn asked_by(alloc: Global, words: &[String]) -> Result<String, AllocError> {
    match Request::read(alloc, words) {
        Ok(request) => match request.command(0, false) {
            Ok(command) if request.is_quiet() => format!(in alloc; "quiet {command:?}"),
            Ok(command) => format!(in alloc; "{command:?}"),
            Err(reply) => first_line(alloc, &reply),
        },
        Err(reply) => first_line(alloc, &reply),
    }
}

/// Returns whether a text is the wanted one, in which `..` is for any text.
fn is_as(text: &str, wanted: &str) -> bool {
    match wanted.split_once("..") {
        Some((front, back)) => text.starts_with(front) && text.ends_with(back),
        None => text == wanted,
    }
}

/// Ends the test unless the words of a row ask for what it says.
fn test_row<H: Abort>(rt: &H, alloc: Global, row: &str) -> Result<(), AllocError> {
    let (words, wanted) = row.split_once(" => ").unwrap_or(("", ""));
    let words = words_of(alloc, words)?;
    let asked = asked_by(alloc, words.as_slice())?;
    assert!(rt; is_as(asked.as_str(), wanted), "{row}: {asked}");
    Ok(())
}

#[test]
fn words_ask_for_commands(rt: HostRuntime) -> Result<(), Fail> {
    for row in ROWS.lines() {
        test_row(&rt, rt.alloc(), row)?;
    }
    Ok(())
}
