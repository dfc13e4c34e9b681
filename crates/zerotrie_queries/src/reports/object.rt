//! A report as one JSON object.

ghost use Rattle.std.specs.Prelude.{◌≡◌, ◌++◌, ◌<◌, OnOk, codes, decimal, false};
ghost use Rattle.std.specs.Option.{option_map};
ghost use Rattle.zerotrie_queries.specs.reports.Json.{object_front, member_after, number_or_null, least_edges, most_edges, edge_members, cell_object, cell_objects, size_members, key_members, node_members, branch_member, report_object};

use crate::json_text::add_comma;
use crate::print::add_text;
use crate::reports::count::Report;
use std::alloc::AllocError;
use zerotrie_lines::{write_number, write_quoted};

fn add_number_member(text: &mut Vec<u8>, name: &str, number: usize) -> Result<(), AllocError>
    ensures { OnOk result (text.new.items
        ≡ text.old.items ++ member_after name.now (decimal number)) }
{
    add_text(text, ",\"")?;
    add_text(text, name)?;
    add_text(text, "\":")?;
    write_number(text, number)
}

fn add_greatest_member(text: &mut Vec<u8>, greatest: Option<usize>) -> Result<(), AllocError>
    ensures { OnOk result (text.new.items
        ≡ text.old.items ++ member_after (codes "greatest_value") (number_or_null greatest)) }
{
    match greatest {
        Some(greatest) => add_number_member(text, "greatest_value", greatest),
        None => add_text(text, ",\"greatest_value\":null"),
    }
}

/// Returns the least number of edges in a group.
fn least_edges(group: usize) -> usize
    requires { group < 8 }
    ensures { result ≡ least_edges group }
{
    match group {
        0 => 2,
        1 => 3,
        2 => 5,
        3 => 9,
        4 => 17,
        5 => 33,
        6 => 65,
        _ => 129,
    }
}

/// Returns the greatest number of edges in a group.
fn most_edges(group: usize) -> usize
    requires { group < 8 }
    ensures { result ≡ most_edges group }
{
    match group {
        0 => 2,
        1 => 4,
        2 => 8,
        3 => 16,
        4 => 32,
        5 => 64,
        6 => 128,
        _ => 256,
    }
}

fn add_edge_members(text: &mut Vec<u8>, group: usize) -> Result<(), AllocError>
    requires { group < 8 }
    ensures { OnOk result (text.new.items ≡ text.old.items ++ edge_members group) }
{
    add_text(text, "{\"least_edges\":")?;
    write_number(text, least_edges(group))?;
    add_number_member(text, "most_edges", most_edges(group))
}

fn add_cell_object(text: &mut Vec<u8>, cell: usize, count: usize) -> Result<(), AllocError>
    requires { cell < 64 }
    ensures { OnOk result (text.new.items ≡ text.old.items ++ cell_object cell count) }
{
    add_edge_members(text, cell / 8)?;
    add_number_member(text, "width", cell % 8 + 1)?;
    add_number_member(text, "count", count)?;
    add_text(text, "}")
}

/// Adds the cells that have a branch, with commas between.
fn add_cell_objects(text: &mut Vec<u8>, cells: &[usize; 64]) -> Result<(), AllocError>
    ensures { OnOk result (text.new.items ≡ text.old.items ++ cell_objects false 0 cells.now) }
{
    let mut later = false;
    for cell in 0..64 {
        let count = cells[cell];
        if count != 0 {
            add_comma(text, later)?;
            add_cell_object(text, cell, count)?;
            later = true;
        }
    }
    Ok(())
}

/// Adds the beginning of the object, with the name of a file if one is given.
fn add_front(text: &mut Vec<u8>, name: Option<&str>) -> Result<(), AllocError>
    ensures { OnOk result (text.new.items
        ≡ text.old.items ++ object_front (option_map (λ n. n.now) name.entry)) }
{
    let Some(name) = name else {
        return add_text(text, "{");
    };
    add_text(text, "{\"file\":")?;
    write_quoted(text, name.as_bytes())?;
    add_text(text, ",")
}

fn add_size_members(text: &mut Vec<u8>, report: &Report) -> Result<(), AllocError>
    ensures { OnOk result (text.new.items ≡ text.old.items ++ size_members report.now) }
{
    add_text(text, "\"kind\":\"")?;
    add_text(text, report.kind.name())?;
    add_text(text, "\"")?;
    add_number_member(text, "bytes", report.bytes)?;
    add_number_member(text, "pairs", report.pairs)
}

fn add_key_members(text: &mut Vec<u8>, report: &Report) -> Result<(), AllocError>
    ensures { OnOk result (text.new.items ≡ text.old.items ++ key_members report.now) }
{
    add_greatest_member(text, report.greatest)?;
    add_number_member(text, "depth", report.depth)
}

fn add_node_members(text: &mut Vec<u8>, report: &Report) -> Result<(), AllocError>
    ensures { OnOk result (text.new.items ≡ text.old.items ++ node_members report.now) }
{
    add_number_member(text, "nodes", report.nodes)?;
    add_number_member(text, "literals", report.literals)?;
    add_number_member(text, "spans", report.spans)?;
    add_number_member(text, "branches", report.branches.count)
}

/// Adds the member of the branches by their size, and the end of the object.
fn add_branch_member(text: &mut Vec<u8>, report: &Report) -> Result<(), AllocError>
    ensures { OnOk result (text.new.items ≡ text.old.items ++ branch_member report.now) }
{
    add_text(text, ",\"branch_sizes\":[")?;
    add_cell_objects(text, &report.branches.cells)?;
    add_text(text, "]}\n")
}

/// Adds a report as one JSON object, with the name of its file if one is given, and a line feed.
pub(crate) fn add_report_object(
    text: &mut Vec<u8>,
    name: Option<&str>,
    report: &Report,
) -> Result<(), AllocError>
    ensures { OnOk result (text.new.items
        ≡ text.old.items ++ report_object (option_map (λ n. n.now) name.entry) report.now) }
{
    add_front(text, name)?;
    add_size_members(text, report)?;
    add_key_members(text, report)?;
    add_node_members(text, report)?;
    add_branch_member(text, report)
}
