//! Reports of a trie: its nodes by their sort, and its branches by their size.

ghost use Rattle.std.specs.Prelude.{◌≡◌, ◌++◌, OnOk, OnErr};
ghost use Rattle.std.specs.Io.KnownBytes.{Appends};
ghost use Rattle.std.specs.Option.{option_map};
ghost use Rattle.zerotrie_files.specs.Faults.{IsNoted};
ghost use Rattle.zerotrie_files.specs.Parts.{AppendsPart};
ghost use Rattle.zerotrie_queries.specs.reports.Reports.{report_of};
ghost use Rattle.zerotrie_queries.specs.reports.Forms.{reported};

mod branches;
mod count;
mod lines;
mod object;

use crate::reports::lines::{add_heading, add_report};
use crate::reports::object::add_report_object;
pub use branches::Branches;
pub use count::Report;
use std::alloc::{AllocError, Global};
use std::io;
use std::io::Write;
use zerotrie_core::TrieRef;
use zerotrie_files::Noted;

/// How a report is printed.
#[derive(Clone, Copy, PartialEq, Eq, Debug)]
pub enum ReportForm {
    /// Lines of a name, a tab and a number.
    Lines,
    /// One JSON object, and a line feed.
    Json,
}

fn add_in_form(
    text: &mut Vec<u8>,
    form: ReportForm,
    name: Option<&str>,
    report: &Report,
) -> Result<(), AllocError>
    ensures { OnOk result (text.new.items
        ≡ text.old.items ++ reported form (option_map (λ n. n.now) name.entry) report.now) }
{
    match form {
        ReportForm::Lines => {
            add_heading(text, name)?;
            add_report(text, report)
        }
        ReportForm::Json => add_report_object(text, name, report),
    }
}

/// Writes the report of a trie, with the name of its file if one is given: as a line in front, or as a member. If
/// it fails, a beginning of it was written.
pub fn write_trie_report<W: Write>(
    alloc: Global,
    trie: &TrieRef<'_>,
    form: ReportForm,
    name: Option<&str>,
    output: &mut Noted<W>,
) -> io::Result<()>
    ensures all { OnOk result (Appends (W.contents output.old.inner) (W.contents output.new.inner)
        (reported form (option_map (λ n. n.now) name.entry) (report_of trie.now.kind trie.now.bytes.now))) }
    ensures part { OnErr result (AppendsPart (W.contents output.old.inner)
        (W.contents output.new.inner)
        (reported form (option_map (λ n. n.now) name.entry) (report_of trie.now.kind trie.now.bytes.now))) }
    ensures noted { IsNoted result output.old.failed output.new.failed }
{
    let report = Report::of(alloc, trie)?;
    let mut text = Vec::new(alloc);
    add_in_form(&mut text, form, name, &report)?;
    output.write_bytes(text.as_slice())
}
