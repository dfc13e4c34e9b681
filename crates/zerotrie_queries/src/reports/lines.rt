//! The lines of a report: a name, a tab and a number each.

ghost use Rattle.std.specs.Prelude.{◌≡◌, ◌++◌, ◌<◌, ◌*◌, ◌/◌, OnOk, codes};
ghost use Rattle.std.specs.Option.{option_map};
ghost use Rattle.zerotrie_queries.specs.reports.Lines.{text_line, number_line, option_text, ratio_text, group_text, group_name, cell_name, cell_line, cell_lines, heading, size_lines, key_lines, node_lines, report_lines};

use crate::print::add_text;
use crate::reports::count::Report;
use std::alloc::AllocError;
use zerotrie_lines::{write_escaped, write_number};

fn add_text_line(lines: &mut Vec<u8>, name: &str, text: &str) -> Result<(), AllocError>
    ensures { OnOk result (lines.new.items ≡ lines.old.items ++ text_line name.now text.now) }
{
    add_text(lines, name)?;
    lines.push(b'\t')?;
    add_text(lines, text)?;
    lines.push(b'\n')?;
    Ok(())
}

fn add_number_line(lines: &mut Vec<u8>, name: &str, number: usize) -> Result<(), AllocError>
    ensures { OnOk result (lines.new.items ≡ lines.old.items ++ number_line name.now number) }
{
    add_text(lines, name)?;
    lines.push(b'\t')?;
    write_number(lines, number)?;
    lines.push(b'\n')?;
    Ok(())
}

/// Adds a number, or `none`.
fn add_option(lines: &mut Vec<u8>, number: Option<usize>) -> Result<(), AllocError>
    ensures { OnOk result (lines.new.items ≡ lines.old.items ++ option_text number) }
{
    match number {
        Some(number) => write_number(lines, number),
        None => add_text(lines, "none"),
    }
}

/// Returns how many hundredths of a key `rest` bytes are.
fn hundredths(rest: usize, keys: usize) -> usize
    requires { rest < keys }
    ensures part { result ≡ rest * 100 / keys }
    ensures below { result < 100 }
{
    (rest as u128 * 100 / keys as u128) as usize
}

/// Adds how many bytes there are to a key, with two decimals, or `none` if there is no key.
fn add_ratio(lines: &mut Vec<u8>, bytes: usize, keys: usize) -> Result<(), AllocError>
    ensures { OnOk result (lines.new.items ≡ lines.old.items ++ ratio_text bytes keys) }
{
    if keys == 0 {
        return add_text(lines, "none");
    }
    let rest = hundredths(bytes % keys, keys);
    write_number(lines, bytes / keys)?;
    lines.extend_from_slice(&[b'.', b'0' + (rest / 10) as u8, b'0' + (rest % 10) as u8])
}

fn add_greatest_line(lines: &mut Vec<u8>, greatest: Option<usize>) -> Result<(), AllocError>
    ensures { OnOk result (lines.new.items
        ≡ lines.old.items ++ text_line (codes "greatest value") (option_text greatest)) }
{
    add_text(lines, "greatest value\t")?;
    add_option(lines, greatest)?;
    lines.push(b'\n')?;
    Ok(())
}

fn add_ratio_line(lines: &mut Vec<u8>, bytes: usize, keys: usize) -> Result<(), AllocError>
    ensures { OnOk result (lines.new.items
        ≡ lines.old.items ++ text_line (codes "bytes a key") (ratio_text bytes keys)) }
{
    add_text(lines, "bytes a key\t")?;
    add_ratio(lines, bytes, keys)?;
    lines.push(b'\n')?;
    Ok(())
}

/// Returns the numbers of edges in a group.
fn group_text(group: usize) -> &'static str
    ensures { result.now ≡ group_text group }
{
    match group {
        0 => "2",
        1 => "3-4",
        2 => "5-8",
        3 => "9-16",
        4 => "17-32",
        5 => "33-64",
        6 => "65-128",
        _ => "129-256",
    }
}

fn add_group(lines: &mut Vec<u8>, group: usize) -> Result<(), AllocError>
    ensures { OnOk result (lines.new.items ≡ lines.old.items ++ group_name group) }
{
    add_text(lines, "branches of ")?;
    add_text(lines, group_text(group))?;
    add_text(lines, " edges")
}

fn add_cell_name(lines: &mut Vec<u8>, cell: usize) -> Result<(), AllocError>
    ensures { OnOk result (lines.new.items ≡ lines.old.items ++ cell_name cell) }
{
    add_group(lines, cell / 8)?;
    add_text(lines, ", width ")?;
    write_number(lines, cell % 8 + 1)
}

/// Adds the line of a cell, if it has a branch.
fn add_cell(lines: &mut Vec<u8>, cell: usize, count: usize) -> Result<(), AllocError>
    ensures { OnOk result (lines.new.items ≡ lines.old.items ++ cell_line cell count) }
{
    if count == 0 {
        return Ok(());
    }
    add_cell_name(lines, cell)?;
    lines.push(b'\t')?;
    write_number(lines, count)?;
    lines.push(b'\n')?;
    Ok(())
}

/// Adds the lines of all cells that have a branch.
fn add_cells(lines: &mut Vec<u8>, cells: &[usize]) -> Result<(), AllocError>
    ensures { OnOk result (lines.new.items ≡ lines.old.items ++ cell_lines 0 cells.now) }
{
    for cell in 0..cells.len() {
        add_cell(lines, cell, cells[cell])?;
    }
    Ok(())
}

fn add_sizes(lines: &mut Vec<u8>, report: &Report) -> Result<(), AllocError>
    ensures { OnOk result (lines.new.items ≡ lines.old.items ++ size_lines report.now) }
{
    add_text_line(lines, "kind", report.kind.name())?;
    add_number_line(lines, "bytes", report.bytes)?;
    add_number_line(lines, "pairs", report.pairs)
}

fn add_keys(lines: &mut Vec<u8>, report: &Report) -> Result<(), AllocError>
    ensures { OnOk result (lines.new.items ≡ lines.old.items ++ key_lines report.now) }
{
    add_greatest_line(lines, report.greatest)?;
    add_ratio_line(lines, report.bytes, report.pairs)?;
    add_number_line(lines, "depth", report.depth)
}

fn add_nodes(lines: &mut Vec<u8>, report: &Report) -> Result<(), AllocError>
    ensures { OnOk result (lines.new.items ≡ lines.old.items ++ node_lines report.now) }
{
    add_number_line(lines, "nodes", report.nodes)?;
    add_number_line(lines, "literals", report.literals)?;
    add_number_line(lines, "spans", report.spans)?;
    add_number_line(lines, "branches", report.branches.count)
}

/// Adds the line of the name of a file, if one is given.
pub(crate) fn add_heading(lines: &mut Vec<u8>, name: Option<&str>) -> Result<(), AllocError>
    ensures { OnOk result (lines.new.items
        ≡ lines.old.items ++ heading (option_map (λ n. n.now) name.entry)) }
{
    if let Some(name) = name {
        write_escaped(lines, name.as_bytes())?;
        add_text(lines, ":\n")?;
    }
    Ok(())
}

pub(crate) fn add_report(lines: &mut Vec<u8>, report: &Report) -> Result<(), AllocError>
    ensures { OnOk result (lines.new.items ≡ lines.old.items ++ report_lines report.now) }
{
    add_sizes(lines, report)?;
    add_keys(lines, report)?;
    add_nodes(lines, report)?;
    add_cells(lines, &report.branches.cells[..])
}
