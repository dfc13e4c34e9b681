//! Pairs that are read from an input.

ghost use Rattle.std.specs.Prelude.{◌≡◌, ◌≤◌, ◌+◌, ◌++◌, ◌∷◌, [], IfOk, IfErr};
ghost use Rattle.zerotrie_lines.specs.Tables.{Pairs, lowered};
ghost use Rattle.zerotrie_lines.specs.Reads.{ReadsLines, ReadsTabbed, ExplainsLines, ExplainsTabbed, Reads, Explains, tabbed};
ghost use Rattle.zerotrie_lines.specs.Lines.{ended_lines, header_rows, text_lines};
ghost use Rattle.zerotrie_lines.specs.declared.fault.ReadError.TheVariants.{OutOfMemory};
ghost use Rattle.zerotrie_lines.specs.declared.reading.Format.TheVariants.{Lines};

use crate::escapes::without_mark;
use crate::fault::{ReadError, at_line};
use crate::lines::{read_pair, take_ended, take_line};
use crate::records::{read_columns, read_records};
use crate::table::Table;
use std::alloc::Global;

/// How an input is pairs. A byte order mark in front of it is left out.
#[derive(Clone, Copy, PartialEq, Eq, Debug)]
pub enum Format {
    /// A line is a key, and its number, from 1 on, the value.
    Lines,
    /// A line is a key with escapes, a tab and the value.
    Tsv,
    /// A line is a key as it is, a tab and the value: a backslash is a byte of the key.
    TsvRaw,
    /// A record is two fields with a comma between them, the key and the value. A field may be
    /// quoted.
    Csv,
}

/// What ends a line.
#[derive(Clone, Copy, PartialEq, Eq, Debug)]
pub enum LineEnd {
    /// A line feed, with or without a carriage return before it. One at the end of the input
    /// belongs to the end of the last line.
    CrLf,
    /// A line feed alone: a carriage return is a byte of the line.
    Lf,
}

/// The names of the columns, or members, that have keys and values.
#[derive(Clone, Copy, PartialEq, Eq, Debug)]
pub struct Names<'a> {
    pub key: &'a str,
    pub value: &'a str,
}

/// Whether a header is in front of the pairs.
#[derive(Clone, Copy, PartialEq, Eq, Debug)]
pub enum Header<'a> {
    /// The first line or record is a pair.
    Absent,
    /// The first line or record is a header, and no pair. It is counted in the numbers of the others.
    Present,
    /// It is, and names columns. A pair is in the two with these names, as they are in the header, and
    /// each line or record has a field for each column. Lines that are keys have no columns.
    Named(Names<'a>),
}

impl Header<'_> {
    /// Returns how many lines or records it is.
    pub fn rows(self) -> usize
        ensures { result ≡ header_rows self.entry }
    {
        match self {
            Header::Absent => 0,
            Header::Present | Header::Named(_) => 1,
        }
    }
}

/// How a text is pairs.
#[derive(Clone, Copy, PartialEq, Eq, Debug)]
pub struct TextForm<'a> {
    /// What a line or record is.
    pub format: Format,
    /// What ends it.
    pub end: LineEnd,
    /// Whether a header is in front.
    pub header: Header<'a>,
}

/// Lines as they are written, without a header.
pub const TSV: TextForm<'static> = TextForm {
    format: Format::Tsv,
    end: LineEnd::CrLf,
    header: Header::Absent,
};

/// Returns the text of the lines that are to be pairs: without a byte order mark and the header.
pub(crate) fn pair_text<'a>(header: Header<'_>, input: &'a [u8]) -> &'a [u8]
    ensures { (end : LineEnd) → ended_lines end result.now
        ≡ text_lines end header.entry input.now }
{
    let mut rest = without_mark(input);
    match header {
        Header::Absent => rest,
        Header::Present | Header::Named(_) => {
            take_line(&mut rest);
            rest
        }
    }
}

/// Reads lines with one tab, whose keys are raw or may have escapes. So many lines were before them.
fn read_two(
    alloc: Global,
    raw: bool,
    end: LineEnd,
    before: usize,
    text: &[u8],
) -> Result<Table, ReadError>
    requires { before ≤ 1 }
    ensures ok { IfOk result (λ table.
        ReadsLines (tabbed raw) (before + 1) (ended_lines end text.now) table) }
    ensures err { IfErr result (ExplainsLines raw (before + 1) (ended_lines end text.now)) }
{
    let mut table = Table::new(alloc);
    let mut key = Vec::new(alloc);
    let mut rest = text;
    let mut number = before;
    while !rest.is_empty() {
        let line = take_ended(end, &mut rest);
        number += 1;
        if let Some(bad) = read_pair(alloc, raw, line, &mut key, &mut table)? {
            return Err(at_line(number, bad));
        }
    }
    Ok(table)
}

/// Reads lines with tabs, whose keys are raw or may have escapes.
fn read_tsv(alloc: Global, raw: bool, form: TextForm<'_>, input: &[u8]) -> Result<Table, ReadError>
    ensures ok { IfOk result (ReadsTabbed raw form.entry.header form.entry.end input.now) }
    ensures err { IfErr result (ExplainsTabbed raw form.entry.header form.entry.end input.now) }
{
    match form.header {
        Header::Absent | Header::Present => {
            let text = pair_text(form.header, input);
            read_two(alloc, raw, form.end, form.header.rows(), text)
        }
        Header::Named(_) => read_columns(alloc, raw, form, input),
    }
}

/// Reads lines that are keys. So many lines were before them.
fn read_keys(alloc: Global, end: LineEnd, before: usize, text: &[u8]) -> Result<Table, ReadError>
    requires { before ≤ 1 }
    ensures ok { IfOk result (λ table.
        ReadsLines Lines (before + 1) (ended_lines end text.now) table) }
    ensures err { IfErr result (λ e. e ≡ OutOfMemory) }
{
    let mut table = Table::new(alloc);
    let mut rest = text;
    let mut number = before;
    while !rest.is_empty() {
        let line = take_ended(end, &mut rest);
        number += 1;
        table.push(line, number)?;
    }
    Ok(table)
}

/// Reads the pairs of an input, one a line or record, in their order. With `lower_case` the ASCII
/// letters of their keys become lower case.
///
/// ```
/// let text = b"ad\t22\na\\td\t33\r\n";
/// assert_eq!(rt; read_pairs(rt.alloc(), TSV, false, text).map(|t| t.len()), Ok(2));
/// let form = TextForm { header: Header::Present, ..TSV };
/// assert_eq!(rt; read_pairs(rt.alloc(), form, false, text).map(|t| t.len()), Ok(1));
/// let table = read_pairs(rt.alloc(), form, false, b"key\tvalue\nad 33\n");
/// assert_eq!(rt; table.map(|t| t.len()), Err(ReadError::Line(2, BadLine::NoTab)));
/// let header = Header::Named(Names { key: "name", value: "id" });
/// let form = TextForm { header, ..form };
/// let table = read_pairs(rt.alloc(), form, false, b"id\tage\tname\n22\t9\tad\n");
/// let table = table.map_err(|_| "no pairs")?;
/// assert_eq!(rt; table.items(rt.alloc())?[0], (b"ad".as_slice(), 22));
/// ```
///
/// It allocates nothing for a line alone. Input without a line or record has no header. An error names the first line or record that is no pair,
/// and why.
pub fn read_pairs(
    alloc: Global,
    form: TextForm<'_>,
    lower_case: bool,
    input: &[u8],
) -> Result<Table, ReadError>
    ensures ok { IfOk result (λ table. (pairs : Pairs) × Reads form.entry input.now pairs
        × (table ≡ lowered lower_case pairs)) }
    ensures err { IfErr result (Explains form.entry input.now) }
{
    let mut table = match form.format {
        Format::Lines => {
            let text = pair_text(form.header, input);
            read_keys(alloc, form.end, form.header.rows(), text)?
        }
        Format::Tsv => read_tsv(alloc, false, form, input)?,
        Format::TsvRaw => read_tsv(alloc, true, form, input)?,
        Format::Csv => read_records(alloc, form, input)?,
    };
    if lower_case {
        table.lower_case();
    }
    Ok(table)
}
