//! The pairs of a listing, written in each form.

ghost use Rattle.std.specs.Prelude.{◌≡◌, ◌++◌, ◌<◌, ◌^◌, ℕ, List, [], length, true, false, IfOk, OnOk, OnErr};
ghost use Rattle.std.specs.Io.KnownBytes.{Appends};
ghost use Rattle.zerotrie_files.specs.Faults.{IsNoted};
ghost use Rattle.zerotrie_files.specs.Parts.{AppendsPart};
ghost use Rattle.zerotrie_queries.specs.Listed.{edits_said};
ghost use Rattle.zerotrie_queries.specs.Printed.{lines_of, number_line, pair_line, listed};

use crate::listing::distances::Distances;
use crate::listing::json_object::write_object;
use crate::print::{Form, Style, add_number_line, add_pair};
use std::alloc::{AllocError, Global};
use std::io;
use std::io::Write;
use zerotrie_files::Noted;
use zerotrie_search::TrieListing;

/// The least number of bytes that one write has, but for the last.
const BLOCK: usize = 1 << 16;

/// What the line of a pair is.
pub(crate) trait PairLine {
    // The line.
    ghost line: { Self → List ℕ × ℕ → List ℕ };

    /// Adds the line of a pair to a text.
    fn add_line(&self, text: &mut Vec<u8>, key: &[u8], value: usize) -> Result<(), AllocError>
        ensures { OnOk result (text.new.items ≡ text.old.items ++ line self.now (key.now, value)) };
}

impl PairLine for Style {
    ghost line = { pair_line };

    fn add_line(&self, text: &mut Vec<u8>, key: &[u8], value: usize) -> Result<(), AllocError> {
        add_pair(text, *self, key, value)
    }
}

/// Fills an empty buffer with the lines of the next pairs, up to a block, and returns whether more may
/// follow.
fn add_block<P: TrieListing, L: PairLine>(
    text: &mut Vec<u8>,
    pairs: &mut P,
    line: &L,
) -> Result<bool, AllocError>
    requires { text.old.items ≡ [] }
    ensures lines { IfOk result (λ _. P.IsValid pairs.old
        → text.new.items ++ lines_of (L.line line.now) (P.left pairs.new).pairs
        ≡ lines_of (L.line line.now) (P.left pairs.old).pairs) }
    ensures valid { P.IsValid pairs.old → P.IsValid pairs.new }
    ensures more { IfOk result (λ more. more ≡ true → P.most pairs.new < P.most pairs.old) }
    ensures all { IfOk result (λ more. more ≡ false → P.IsValid pairs.old
        → (P.left pairs.new).pairs ≡ []) }
{
    while text.len() < BLOCK {
        if !pairs.advance()? {
            return Ok(false);
        }
        line.add_line(text, pairs.key(), pairs.value())?;
    }
    Ok(true)
}

/// Writes the lines of pairs, many at once. If it fails, a beginning of them was written.
fn write_lines<P: TrieListing + Drop, L: PairLine, W: Write>(
    alloc: Global,
    mut pairs: P,
    line: &L,
    output: &mut Noted<W>,
) -> io::Result<()>
    ensures all { OnOk result (P.IsValid pairs → Appends (W.contents output.old.inner)
        (W.contents output.new.inner) (lines_of (L.line line.now) (P.left pairs).pairs)) }
    ensures part { OnErr result (P.IsValid pairs → AppendsPart (W.contents output.old.inner)
        (W.contents output.new.inner) (lines_of (L.line line.now) (P.left pairs).pairs)) }
    ensures noted { IsNoted result output.old.failed output.new.failed }
{
    let mut text = Vec::new(alloc);
    loop {
        let more = add_block(&mut text, &mut pairs, line)?;
        output.write_bytes(text.as_slice())?;
        if !more {
            return Ok(());
        }
        text.clear();
    }
}

/// Returns how many pairs are to come.
fn count_pairs<P: TrieListing + Drop>(mut pairs: P) -> Result<usize, AllocError>
    ensures { IfOk result (λ count. P.IsValid pairs
        → length (P.left pairs).pairs < 2 ^ 64 → count ≡ length (P.left pairs).pairs) }
{
    let mut count: usize = 0;
    while pairs.advance()? {
        count = count.saturating_add(1);
    }
    Ok(count)
}

/// Writes a line that says how many pairs are to come.
fn write_count<P: TrieListing + Drop, W: Write>(
    alloc: Global,
    pairs: P,
    output: &mut Noted<W>,
) -> io::Result<()>
    ensures all { OnOk result (P.IsValid pairs → length (P.left pairs).pairs < 2 ^ 64
        → Appends (W.contents output.old.inner) (W.contents output.new.inner)
        (number_line (length (P.left pairs).pairs))) }
    ensures part { OnErr result (P.IsValid pairs → length (P.left pairs).pairs < 2 ^ 64
        → AppendsPart (W.contents output.old.inner) (W.contents output.new.inner)
        (number_line (length (P.left pairs).pairs))) }
    ensures noted { IsNoted result output.old.failed output.new.failed }
{
    let mut line = Vec::new(alloc);
    add_number_line(&mut line, count_pairs(pairs)?)?;
    output.write_bytes(line.as_slice())
}

/// Writes pairs in a form. As one JSON object each key must be UTF-8. If it fails, a beginning of the
/// text was written.
pub(crate) fn write_pairs<P: TrieListing + Drop, W: Write>(
    alloc: Global,
    form: Form,
    edits: &Distances<'_>,
    pairs: P,
    output: &mut Noted<W>,
) -> io::Result<()>
    ensures all { OnOk result (P.IsValid pairs → length (P.left pairs).pairs < 2 ^ 64
        → Appends (W.contents output.old.inner) (W.contents output.new.inner)
        (listed form (edits_said edits.now) (P.left pairs).pairs)) }
    ensures part { OnErr result (P.IsValid pairs → length (P.left pairs).pairs < 2 ^ 64
        → AppendsPart (W.contents output.old.inner) (W.contents output.new.inner)
        (listed form (edits_said edits.now) (P.left pairs).pairs)) }
    ensures noted { IsNoted result output.old.failed output.new.failed }
{
    match form {
        Form::Lines(style) => write_lines(alloc, pairs, &style, output),
        Form::Distances => write_lines(alloc, pairs, edits, output),
        Form::Count => write_count(alloc, pairs, output),
        Form::Json => write_object(alloc, pairs, output),
    }
}
