//! Lines of standard input, which are answered as they come.

ghost use Rattle.std.specs.Prelude.{◌≡◌, ◌≤◌, ◌⊎◌, ℕ, [], length, take, drop, true, false, IfOk, IfErr, OnOk, OnErr};
ghost use Rattle.std.specs.Io.Buffered.{writer_contents};
ghost use Rattle.zerotrie_files.specs.Faults.{IsNoted, IsOutOfMemory};
ghost use Rattle.zerotrie_files.specs.Notes.{SameNotes};
ghost use Rattle.zerotrie_files.specs.Reads.{Gives};
ghost use Rattle.zerotrie_lines.specs.Lines.{ended_lines};
ghost use Rattle.zerotrie_lines.specs.Blocks.{AreWhole, HasFeed};
ghost use Rattle.zerotrie_lines.specs.declared.reading.LineEnd.TheVariants.{CrLf};
ghost use Rattle.zerotrie_making.specs.Others.{IsSettled};
ghost use Rattle.zerotrie_queries.specs.Answers.{AreAnswered, AreAnsweredInPart};
ghost use Rattle.zerotrie_queries.specs.Finders.{Finds};
ghost use Rattle.zerotrie_run.specs.Failures.{AnswerFailed};
ghost use Rattle.zerotrie_run.specs.Runs.{AreNoKeys, KeysAnswered, KeysAnsweredInPart, HandsOn, answer_fails};
ghost use Rattle.zerotrie_run.specs.Streams.{AreAnsweredSoFar, IsUnsettled, text_behind};
ghost use Rattle.zerotrie_run.specs.declared.command.Keys.TheVariants.{Lines};
ghost use Rattle.zerotrie_run.specs.declared.stdin_lines.AnswerError.TheVariants.{Output};

use std::alloc::Global;
use std::io;
use std::io::{BufWriter, ErrorKind, Read, Write};
use zerotrie_files::Noted;
use zerotrie_lines::{LineEnd, read_lines, whole_lines, without_mark};
use zerotrie_making::{OtherFile, is_settled, other_file};
use zerotrie_queries::{Finder, Query, write_answers};

/// Why there is no answer, or not all of it.
#[derive(Debug, Drop)]
pub enum AnswerError {
    /// Standard input can't be read.
    Input(io::Error),
    /// Standard input is no lines, but this other file.
    NoLines(OtherFile),
    /// Output can't be written, or it is out of memory.
    Output(io::Error),
}

impl From<io::Error> for AnswerError {
    ghost from_gives = { λ error e. e ≡ Output error };

    fn from(error: io::Error) -> Self {
        AnswerError::Output(error)
    }
}

/// Answers some lines, flushes the answers, and returns whether all was found.
fn answer_part<W: Write + Drop>(
    alloc: Global,
    finder: &Finder<'_>,
    query: Query,
    part: &[u8],
    output: &mut Noted<BufWriter<W>>,
) -> io::Result<bool>
    ensures answered { IfOk result (AreAnswered query (Finds finder.now query.asked)
        (ended_lines CrLf part.now) (writer_contents W.contents output.old.inner)
        (writer_contents W.contents output.new.inner)) }
    ensures part { OnErr result (AreAnsweredInPart query (Finds finder.now query.asked)
        (ended_lines CrLf part.now) (writer_contents W.contents output.old.inner)
        (writer_contents W.contents output.new.inner)) }
    ensures handed { OnOk result (HandsOn output.old.inner output.new.inner) }
    ensures noted { IsNoted result output.old.failed output.new.failed }
{
    let lines = read_lines(alloc, LineEnd::CrLf, part)?;
    let all = write_answers(alloc, finder, query, lines.as_slice(), output)?;
    output.hand_on()?;
    Ok(all)
}

/// Returns lines without the byte order mark that may be in front of the first lines of an input.
fn text_behind(first: bool, lines: &[u8]) -> &[u8]
    ensures { result.now ≡ text_behind first lines.now }
{
    if first { without_mark(lines) } else { lines }
}

/// Returns how many of the held bytes are answered now: the whole lines, or all if the input has
/// ended.
fn part_len(held: &[u8], before: usize, ended: bool) -> usize
    ensures within { result ≤ length held.now }
    ensures whole { ended ≡ false → AreWhole (take result held.now) }
    ensures last { ended ≡ false → (k : ℕ) → before ≤ k → result ≤ k → HasFeed held.now k → ⊥ }
    ensures all { ended ≡ true → result ≡ length held.now }
{
    if ended {
        held.len()
    } else {
        whole_lines(held, before)
    }
}

/// Drops the first of the held bytes.
fn drop_front(held: &mut Vec<u8>, len: usize)
    requires { len ≤ length held.old.items }
    ensures { held.new.items ≡ drop len held.old.items }
{
    held.drain(..len);
}

/// Reads an input until what was read shows which other file it is, or that it is none of them.
/// Returns whether the input has ended.
fn read_start<R: Read>(input: &mut Noted<R>, held: &mut Vec<u8>) -> io::Result<bool>
    requires { held.old.items ≡ [] }
    ensures gives { IfOk result (λ ended. Gives (R.remaining input.old.inner)
        (R.remaining input.new.inner) [] held.new.items ended) }
    ensures settled { IfOk result (λ ended. (ended ≡ true) ⊎ IsSettled held.new.items) }
    ensures stays { IfErr result (λ e. IsOutOfMemory e
        ⊎ IsUnsettled (R.remaining input.old.inner) (R.remaining input.new.inner)) }
    ensures noted { IsNoted result input.old.failed input.new.failed }
{
    // each loop has to end: no input has as many parts
    for _ in 0..u64::MAX {
        let before = held.len();
        let ended = input.read_more(held)?;
        if ended || is_settled(held.as_slice(), before) {
            return Ok(ended);
        }
    }
    Err(io::Error::from(ErrorKind::OutOfMemory))
}

/// Answers the lines of an input, and returns whether all was found. It answers the lines of one
/// read before the next, so a line is answered as soon as it is there. If a read fails, the answers
/// to all whole lines before it were handed on. In memory are one read and the longest line, the
/// list of its lines and the lines of 4,096 answers. Nothing is answered of what begins with the byte
/// order mark of UTF-16 until it has a zero byte or ends, since it may be UTF-16.
pub fn answer_lines<R: Read, W: Write + Drop>(
    alloc: Global,
    finder: &Finder<'_>,
    query: Query,
    input: &mut Noted<R>,
    output: &mut Noted<BufWriter<W>>,
) -> Result<bool, AnswerError>
    ensures answered { IfOk result (KeysAnswered query Lines (R.remaining input.old.inner)
        (Finds finder.now query.asked) (writer_contents W.contents output.old.inner)
        (writer_contents W.contents output.new.inner)) }
    ensures part { OnErr result (KeysAnsweredInPart query Lines (R.remaining input.old.inner)
        (Finds finder.now query.asked) (writer_contents W.contents output.old.inner)
        (writer_contents W.contents output.new.inner)) }
    ensures none { IfErr result (AreNoKeys Lines (R.remaining input.old.inner)
        (writer_contents W.contents output.old.inner)
        (writer_contents W.contents output.new.inner)) }
    ensures before { IfErr result (λ e. AreAnsweredSoFar query (Finds finder.now query.asked)
        (R.remaining input.old.inner) (R.remaining input.new.inner)
        (writer_contents W.contents output.old.inner) (writer_contents W.contents output.new.inner)
        (HandsOn output.old.inner output.new.inner) e) }
    ensures noted { answer_fails result ≡ false
        → SameNotes input.old input.new output.old output.new }
    ensures failed { IfErr result (AnswerFailed (input.new.failed ≡ true)
        (output.new.failed ≡ true)) }
{
    let mut held = Vec::new(alloc);
    let mut ended = match read_start(input, &mut held) {
        Ok(ended) => ended,
        Err(error) => return Err(AnswerError::Input(error)),
    };
    if let Some(other) = other_file(held.as_slice()) {
        return Err(AnswerError::NoLines(other));
    }
    let mut before = 0;
    let mut first = true;
    let mut all = true;
    // each loop has to end: no input has as many parts
    for _ in 0..u64::MAX {
        let len = part_len(held.as_slice(), before, ended);
        all &= answer_part(
            alloc,
            finder,
            query,
            text_behind(first, &held[..len]),
            output,
        )?;
        first &= len == 0;
        drop_front(&mut held, len);
        if ended {
            return Ok(all);
        }
        before = held.len();
        ended = match input.read_more(&mut held) {
            Ok(ended) => ended,
            Err(error) => return Err(AnswerError::Input(error)),
        };
    }
    Err(AnswerError::Input(io::Error::from(ErrorKind::OutOfMemory)))
}
