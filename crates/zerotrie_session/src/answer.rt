//! The output for an input.

ghost use Rattle.std.specs.Prelude.{◌≡◌, ◌↔◌, ◌++◌, ◌∷◌, [], map, OnOk, OnErr, IfOk, IfSome, IsSome, string_bytes};
ghost use Rattle.zerotrie.specs.Routes.{any_order, IsBuild};
ghost use Rattle.zerotrie_session.specs.Lines.{lines_of};
ghost use Rattle.zerotrie_session.specs.Commands.{kind_of, build, walk};
ghost use Rattle.zerotrie.specs.Walks.{ops_of};
ghost use Rattle.zerotrie_session.specs.BadLines.{HasBadLine};
ghost use Rattle.zerotrie_session.specs.Answers.{Answers, State, without_trie, with_trie};
ghost use Rattle.zerotrie_session.specs.answer.Parsing.{meaning};
ghost use Rattle.zerotrie_session.specs.answer.Tries.{trie_bytes};
ghost use Rattle.zerotrie_session.specs.answer.Sessions.{HasState, AfterLine, AfterRequest};

use crate::command::{BadLine, Choice, Request, parse};
use crate::reply::{write_bad, write_number, write_ok, write_refused, write_walk};
use crate::trie::ChosenTrie;
use std::alloc::{AllocError, Global};
use zerotrie::CursorOp;

/// The output for an input, the status that the run ends with, and for a bad line its number and
/// why it is bad.
#[derive(Debug, Drop)]
pub struct Answered {
    pub output: String,
    pub status: u8,
    pub bad: Option<(usize, BadLine)>,
}

/// How a line ended.
enum Outcome {
    Done,
    Refused,
    Bad(BadLine),
}

/// The state from the first `kind` line on. The pairs are those since the last `kind` line, in
/// order.
#[derive(Drop)]
struct Session<'a> {
    choice: Choice,
    pairs: Vec<(&'a [u8], usize)>,
    trie: ChosenTrie,
}

impl<'a> Session<'a> {
    fn new(alloc: Global, choice: Choice) -> Self
        ensures { HasState result (without_trie choice []) }
    {
        Session {
            choice,
            pairs: Vec::new(alloc),
            trie: ChosenTrie::empty(alloc, choice),
        }
    }

    fn add(&mut self, value: usize, key: &'a [u8]) -> Result<(), AllocError>
        ensures { OnOk result ((s : State) → HasState self.old s →
            HasState self.new (record s { pairs = s.pairs ++ (key.now, value) ∷ [] })) }
    {
        self.pairs.push((key, value))?;
        Ok(())
    }

    /// Builds the trie. If the build returns an error, the trie is empty.
    fn answer_build(&mut self, alloc: Global, output: &mut String) -> Result<Outcome, AllocError>
        ensures { IfOk result (AfterRequest build self.old self.new
            (string_bytes output.old) (string_bytes output.new)) }
    {
        self.trie = ChosenTrie::empty(alloc, self.choice);
        match ChosenTrie::build(alloc, self.choice, self.pairs.as_slice()) {
            Ok(trie) => {
                self.trie = trie;
                write_ok(output, self.trie.as_bytes())?;
                Ok(Outcome::Done)
            }
            Err(error) => {
                write_refused(output, &error)?;
                Ok(Outcome::Refused)
            }
        }
    }

    fn answer_walk(
        &self,
        alloc: Global,
        ops: &[CursorOp],
        output: &mut String,
    ) -> Result<Outcome, AllocError>
        ensures { IfOk result (AfterRequest (walk (ops_of ops.now)) self.now self.now
            (string_bytes output.old) (string_bytes output.new)) }
    {
        match self.trie.walk(alloc, ops)? {
            None => Ok(Outcome::Bad(BadLine::WalkUnderAuto)),
            Some(answers) => {
                write_walk(output, answers.as_slice())?;
                Ok(Outcome::Done)
            }
        }
    }

    fn answer(
        &mut self,
        alloc: Global,
        request: Request<'a>,
        output: &mut String,
    ) -> Result<Outcome, AllocError>
        ensures { IfOk result (AfterRequest (meaning request.entry) self.old self.new
            (string_bytes output.old) (string_bytes output.new)) }
    {
        match request {
            Request::Kind(choice) => *self = Session::new(alloc, choice),
            Request::Add { value, key } => self.add(value, key)?,
            Request::Build => return self.answer_build(alloc, output),
            Request::Query(key) => write_number(output, self.trie.get(key))?,
            Request::List => self.trie.write_list(alloc, output)?,
            Request::Walk(ops) => return self.answer_walk(alloc, ops.as_slice(), output),
        }
        Ok(Outcome::Done)
    }
}

/// Runs a line that is not empty.
fn answer_line<'a>(
    alloc: Global,
    held: &mut Option<Session<'a>>,
    line: &'a [u8],
    output: &mut String,
) -> Result<Outcome, AllocError>
    ensures { IfOk result (AfterLine line.now held.old held.new
        (string_bytes output.old) (string_bytes output.new)) }
{
    let request = match parse(alloc, line)? {
        Ok(request) => request,
        Err(bad) => return Ok(Outcome::Bad(bad)),
    };
    if let Some(session) = held {
        return session.answer(alloc, request, output);
    }
    let Request::Kind(choice) = request else {
        return Ok(Outcome::Bad(BadLine::NoKind));
    };
    *held = Some(Session::new(alloc, choice));
    Ok(Outcome::Done)
}

fn split_lines(alloc: Global, input: &[u8]) -> Result<Vec<&[u8]>, AllocError>
    ensures { IfOk result (λ lines. map (λ line. line.now) lines.items ≡ lines_of input.now) }
{
    input.split(|b| *b == b'\n').collect(alloc)
}

/// Returns the output for an input, up to the first bad line.
pub fn answer_all(alloc: Global, input: &[u8]) -> Result<Answered, AllocError>
    ensures answers { IfOk result (λ answered.
        Answers input.now (string_bytes answered.output) answered.status) }
    ensures bad { IfOk result (λ answered. IsSome answered.bad ↔ (answered.status ≡ 2)) }
    ensures why { IfOk result (λ answered.
        IfSome answered.bad (λ bad. HasBadLine input.now bad.0 bad.1)) }
{
    let lines = split_lines(alloc, input)?;
    let mut held = None;
    let mut output = String::new(alloc);
    let mut status = 0;
    for (index, line) in lines.iter().enumerate() {
        if line.is_empty() {
            continue;
        }
        match answer_line(alloc, &mut held, line, &mut output)? {
            Outcome::Done => {}
            Outcome::Refused => status = 1,
            Outcome::Bad(bad) => {
                let number = index + 1;
                write_bad(&mut output, number)?;
                return Ok(Answered {
                    output,
                    status: 2,
                    bad: Some((number, bad)),
                });
            }
        }
    }
    Ok(Answered {
        output,
        status,
        bad: None,
    })
}
