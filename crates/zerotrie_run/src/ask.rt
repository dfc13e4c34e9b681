//! A question to the trie or the index of a file.

ghost use Rattle.std.specs.Prelude.{◌≡◌, ◌≤◌, ◌+◌, true, false, Err, IfOk, IfErr, MatchResult, OnOk, OnErr};
ghost use Rattle.std.specs.Io.KnownBytes.{Appends};
ghost use Rattle.std.specs.Io.Buffered.{writer_contents};
ghost use Rattle.zerotrie_files.specs.Notes.{NothingFailed, SameNotes};
ghost use Rattle.zerotrie_files.specs.Parts.{AppendsPart};
ghost use Rattle.zerotrie_run.specs.Commands.{ReadsTwice};
ghost use Rattle.zerotrie_queries.specs.Finders.{Finds, TrieFinds};
ghost use Rattle.zerotrie_queries.specs.declared.question.Asked.TheVariants.{KeyOf};
ghost use Rattle.zerotrie_run.specs.Failures.{AnswerFailed, AskFailed, ReadFailed, WriteFailed};
ghost use Rattle.zerotrie_run.specs.Runs.{OpensFor, Content, ContentAnswers, IndexAnswers, IndexAnswersInPart, KeysAnswered, KeysAnsweredInPart, AreNoKeys, HasNoKeys, answer_fails, Answers, IsNoAnswer, IsAsked, IsUnasked, EndsAsk, IsUnanswered, IsDoubtful, LeavesKeys, LeavesInputOf, HandsOn, ask_fails, ask_refusal, asked_refusal, are_lines, of_lines};
ghost use Rattle.zerotrie_run.specs.Told.{HasReason, NotesNumber, TellsMore};
ghost use Rattle.zerotrie_run.specs.declared.command.Command.TheVariants.{Ask};
ghost use Rattle.zerotrie_run.specs.declared.command.Keys.TheVariants.{Lines};
ghost use Rattle.zerotrie_run.specs.declared.ask.AskError.TheVariants.{Unanswered};
ghost use Rattle.zerotrie_run.specs.declared.stdin_lines.AnswerError.TheVariants.{Output};

use crate::at_places::answer_at_places;
use crate::command::{Keys, Question, TrieFile};
use crate::found::write_found;
use crate::front::{Hint, hint_of, refused_by_front};
use crate::messages::ask::tell_number;
use crate::open::{asks_index, open_index, open_trie};
use crate::place::{open_place, read_opened};
use crate::status::Status;
use crate::stdin_lines::{AnswerError, answer_lines};
use std::alloc::Global;
use std::io;
use std::io::{BufWriter, Read, Write};
use zerotrie_core::TrieRef;
use zerotrie_files::{Disk, Noted, Store};
use zerotrie_queries::{
    Asked, Finder, Form, ListError, OpenError, Query, write_answers, write_trie_code,
    write_trie_report, write_trie_view,
};
use zerotrie_reverse::Reverse;

/// Why a question has no answer.
#[derive(Debug, Drop)]
pub enum AskError {
    /// The file can't be read, or memory was refused before it was opened.
    Unread(io::Error),
    /// The file has no trie, nor an index that answers the question, and looks so.
    NoTrie(OpenError, Hint),
    /// The pairs can't be printed in this form, as it can't have this key.
    Unprintable(Form, Vec<u8>),
    /// It can't be answered, or not to the end.
    Unanswered(AnswerError),
}

impl AskError {
    /// Returns how the run ends if the question is refused. `None` if something failed.
    pub fn refusal(&self) -> Option<Status>
        ensures { result ≡ ask_refusal self.now }
    {
        match self {
            AskError::NoTrie(why, _) => match why {
                OpenError::BadTag(_) | OpenError::Damaged(_) | OpenError::NotWellFormed(_, _) => {
                    Some(Status::BadInput)
                }
                OpenError::OutOfMemory => None,
            },
            AskError::Unprintable(_, _) => Some(Status::Refused),
            AskError::Unanswered(AnswerError::NoLines(_)) => Some(Status::BadKeys),
            AskError::Unread(_)
            | AskError::Unanswered(AnswerError::Input(_) | AnswerError::Output(_)) => None,
        }
    }
}

impl From<AnswerError> for AskError {
    ghost from_gives = { λ error e. e ≡ Unanswered error };

    fn from(error: AnswerError) -> Self {
        AskError::Unanswered(error)
    }
}

impl From<io::Error> for AskError {
    ghost from_gives = { λ error e. e ≡ Unanswered (Output error) };

    fn from(error: io::Error) -> Self {
        AskError::Unanswered(AnswerError::Output(error))
    }
}

/// Answers keys or texts: the given words, or the lines of standard input. Returns whether all was
/// found.
fn answer_keys<R: Read, W: Write + Drop>(
    alloc: Global,
    finder: &Finder<'_>,
    query: Query,
    keys: Keys<'_>,
    input: &mut Noted<R>,
    output: &mut Noted<BufWriter<W>>,
) -> Result<bool, AnswerError>
    ensures answered { IfOk result (KeysAnswered query keys.entry (R.remaining input.old.inner)
        (Finds finder.now query.asked) (writer_contents W.contents output.old.inner)
        (writer_contents W.contents output.new.inner)) }
    ensures part { OnErr result (KeysAnsweredInPart query keys.entry (R.remaining input.old.inner)
        (Finds finder.now query.asked) (writer_contents W.contents output.old.inner)
        (writer_contents W.contents output.new.inner)) }
    ensures none { IfErr result (AreNoKeys keys.entry (R.remaining input.old.inner)
        (writer_contents W.contents output.old.inner)
        (writer_contents W.contents output.new.inner)) }
    ensures noted { answer_fails result ≡ false
        → SameNotes input.old input.new output.old output.new }
    ensures failed { IfErr result (AnswerFailed (input.new.failed ≡ true)
        (output.new.failed ≡ true)) }
    ensures unread { are_lines keys.entry ≡ false → input.new ≡ input.old }
{
    match keys {
        Keys::Words(words) => Ok(write_answers(alloc, finder, query, words, output)?),
        Keys::Lines => answer_lines(alloc, finder, query, input, output),
    }
}

/// Answers the values that are lines of standard input, by a table of the keys of a trie.
fn answer_by_table<R: Read, W: Write + Drop>(
    alloc: Global,
    trie: &TrieRef<'_>,
    query: Query,
    input: &mut Noted<R>,
    output: &mut Noted<BufWriter<W>>,
) -> Result<bool, AnswerError>
    requires { query.asked ≡ KeyOf }
    ensures answered { IfOk result (KeysAnswered query Lines (R.remaining input.old.inner)
        (TrieFinds trie.now.kind trie.now.bytes.now) (writer_contents W.contents output.old.inner)
        (writer_contents W.contents output.new.inner)) }
    ensures part { OnErr result (KeysAnsweredInPart query Lines (R.remaining input.old.inner)
        (TrieFinds trie.now.kind trie.now.bytes.now) (writer_contents W.contents output.old.inner)
        (writer_contents W.contents output.new.inner)) }
    ensures none { IfErr result (AreNoKeys Lines (R.remaining input.old.inner)
        (writer_contents W.contents output.old.inner)
        (writer_contents W.contents output.new.inner)) }
    ensures noted { answer_fails result ≡ false
        → SameNotes input.old input.new output.old output.new }
    ensures failed { IfErr result (AnswerFailed (input.new.failed ≡ true)
        (output.new.failed ≡ true)) }
{
    let table = match trie.keys_by_value(alloc) {
        Ok(table) => table,
        Err(error) => return Err(AnswerError::Output(io::Error::from(error))),
    };
    let finder = Finder::Table(&table);
    answer_lines(alloc, &finder, query, input, output)
}

/// Answers keys, texts or values by a trie. Values that are lines are looked up in a table, others
/// by a scan each.
fn answer_by_trie<R: Read, W: Write + Drop>(
    alloc: Global,
    trie: &TrieRef<'_>,
    query: Query,
    keys: Keys<'_>,
    input: &mut Noted<R>,
    output: &mut Noted<BufWriter<W>>,
) -> Result<bool, AnswerError>
    ensures answered { IfOk result (KeysAnswered query keys.entry (R.remaining input.old.inner)
        (TrieFinds trie.now.kind trie.now.bytes.now) (writer_contents W.contents output.old.inner)
        (writer_contents W.contents output.new.inner)) }
    ensures part { OnErr result (KeysAnsweredInPart query keys.entry (R.remaining input.old.inner)
        (TrieFinds trie.now.kind trie.now.bytes.now) (writer_contents W.contents output.old.inner)
        (writer_contents W.contents output.new.inner)) }
    ensures none { IfErr result (AreNoKeys keys.entry (R.remaining input.old.inner)
        (writer_contents W.contents output.old.inner)
        (writer_contents W.contents output.new.inner)) }
    ensures noted { answer_fails result ≡ false
        → SameNotes input.old input.new output.old output.new }
    ensures failed { IfErr result (AnswerFailed (input.new.failed ≡ true)
        (output.new.failed ≡ true)) }
    ensures unread { are_lines keys.entry ≡ false → input.new ≡ input.old }
{
    match (query.asked, keys) {
        (Asked::KeyOf, Keys::Lines) => answer_by_table(alloc, trie, query, input, output),
        (Asked::KeyOf, Keys::Words(_))
        | (
            Asked::Value | Asked::Pair | Asked::Longest | Asked::LongestAt(_) | Asked::Prefixes(_),
            Keys::Words(_) | Keys::Lines,
        ) => {
            let finder = Finder::Trie(*trie);
            answer_keys(alloc, &finder, query, keys, input, output)
        }
    }
}

/// Answers a question to a trie, whose keys may be the lines of standard input, and returns whether
/// all was found.
fn answer<R: Read, W: Write + Drop>(
    alloc: Global,
    trie: &TrieRef<'_>,
    question: Question<'_>,
    input: &mut Noted<R>,
    output: &mut Noted<BufWriter<W>>,
) -> Result<bool, AskError>
    ensures answered { IfOk result (Answers question.entry (R.remaining input.old.inner)
        trie.now.kind trie.now.bytes.now (writer_contents W.contents output.old.inner)
        (writer_contents W.contents output.new.inner)) }
    ensures part { IfErr result (IsNoAnswer question.entry (R.remaining input.old.inner)
        trie.now.kind trie.now.bytes.now (writer_contents W.contents output.old.inner)
        (writer_contents W.contents output.new.inner)) }
    ensures noted { ask_fails result ≡ false → SameNotes input.old input.new output.old output.new }
    ensures failed { IfErr result (AskFailed (input.new.failed ≡ true) (output.new.failed ≡ true)) }
    ensures unread { of_lines question.entry ≡ false → input.new ≡ input.old }
{
    match question {
        Question::LookUp(query, keys) => {
            Ok(answer_by_trie(alloc, trie, query, keys, input, output)?)
        }
        Question::List(form, selection) => {
            match write_found(alloc, trie, form, selection, output) {
                Ok(found) => Ok(found),
                Err(ListError::Unprintable(key)) => Err(AskError::Unprintable(form, key)),
                Err(ListError::Failed(error)) => Err(AskError::from(error)),
            }
        }
        Question::Code(language, name) => {
            write_trie_code(alloc, trie, language, name, output)?;
            Ok(true)
        }
        Question::Verify => Ok(true),
        Question::Report(form, name) => {
            write_trie_report(alloc, trie, form, name, output)?;
            Ok(true)
        }
        Question::View(view) => {
            write_trie_view(alloc, trie, view, output)?;
            Ok(true)
        }
    }
}

/// Answers a question to an index, whose keys may be the lines of standard input, and returns
/// whether all was found.
fn answer_of_index<R: Read, W: Write + Drop>(
    alloc: Global,
    index: &[u8],
    question: Question<'_>,
    input: &mut Noted<R>,
    output: &mut Noted<BufWriter<W>>,
) -> Result<bool, AnswerError>
    ensures answered { IfOk result (IndexAnswers question.entry (R.remaining input.old.inner)
        index.now (writer_contents W.contents output.old.inner)
        (writer_contents W.contents output.new.inner)) }
    ensures part { OnErr result (IndexAnswersInPart question.entry (R.remaining input.old.inner)
        index.now (writer_contents W.contents output.old.inner)
        (writer_contents W.contents output.new.inner)) }
    ensures none { IfErr result (HasNoKeys question.entry (R.remaining input.old.inner)
        (writer_contents W.contents output.old.inner)
        (writer_contents W.contents output.new.inner)) }
    ensures noted { answer_fails result ≡ false
        → SameNotes input.old input.new output.old output.new }
    ensures failed { IfErr result (AnswerFailed (input.new.failed ≡ true)
        (output.new.failed ≡ true)) }
    ensures unread { of_lines question.entry ≡ false → input.new ≡ input.old }
{
    match question {
        Question::LookUp(query, keys) => {
            let finder = Finder::Index(index);
            answer_keys(alloc, &finder, query, keys, input, output)
        }
        Question::List(_, _)
        | Question::Code(_, _)
        | Question::Verify
        | Question::Report(_, _)
        | Question::View(_) => Ok(true),
    }
}

/// Answers a question to what is in the bytes of a file, and returns whether all was found.
fn answer_held<R: Read, W: Write + Drop>(
    alloc: Global,
    file: TrieFile<'_>,
    held: &[u8],
    question: Question<'_>,
    input: &mut Noted<R>,
    output: &mut Noted<BufWriter<W>>,
) -> Result<bool, AskError>
    ensures ok { IfOk result (λ all. (content : Content)
        × OpensFor file.entry question.entry held.now content
        × ContentAnswers content question.entry (R.remaining input.old.inner)
        (writer_contents W.contents output.old.inner)
        (writer_contents W.contents output.new.inner) all) }
    ensures err { IfErr result (IsUnanswered file.entry question.entry (R.remaining input.old.inner)
        held.now (writer_contents W.contents output.old.inner)
        (writer_contents W.contents output.new.inner)) }
    ensures noted { ask_fails result ≡ false
        → SameNotes input.old input.new output.old output.new }
    ensures failed { IfErr result (AskFailed (input.new.failed ≡ true) (output.new.failed ≡ true)) }
    ensures unread { LeavesKeys question.entry (asked_refusal result) → input.new ≡ input.old }
{
    if let Some(index) = open_index(file, question, held) {
        return match answer_of_index(alloc, index, question, input, output) {
            Ok(all) => Ok(all),
            Err(error) => Err(AskError::Unanswered(error)),
        };
    }
    let trie = match open_trie(alloc, file, question, held) {
        Ok(trie) => trie,
        Err(why) => return Err(AskError::NoTrie(why, hint_of(held))),
    };
    answer(alloc, &trie, question, input, output)
}

/// Prints an answer. If that fails, a beginning of it was printed.
fn print<W: Write + Drop>(text: &[u8], output: &mut Noted<BufWriter<W>>) -> io::Result<()>
    ensures ok { OnOk result (Appends (writer_contents W.contents output.old.inner)
        (writer_contents W.contents output.new.inner) text.now) }
    ensures err { OnErr result (AppendsPart (writer_contents W.contents output.old.inner)
        (writer_contents W.contents output.new.inner) text.now) }
    ensures handed { OnOk result (HandsOn output.old.inner output.new.inner) }
    ensures noted { MatchResult result (λ _. output.new.failed ≡ output.old.failed)
        (λ _. output.new.failed ≡ true) }
{
    output.write_bytes(text)?;
    output.hand_on()
}

/// Answers a question to the trie or the index of a file, and returns whether all was found. A few keys
/// are looked up in a large index at places. A large file is refused by its first bytes if they show that
/// it has no trie. Other files are read as a whole. If the file is read as bare bytes and begins with the
/// number of a kind, a message says so.
pub fn ask<D: Disk, R: Read, W: Write + Drop, M: Write>(
    alloc: Global,
    file: TrieFile<'_>,
    question: Question<'_>,
    files: &mut Store<D>,
    input: &mut Noted<R>,
    output: &mut Noted<BufWriter<W>>,
    messages: &mut Noted<M>,
) -> Result<bool, AskError>
    requires { ReadsTwice (Ask file question) → ⊥ }
    ensures ok { IfOk result (λ all. IsAsked file.entry question.entry (R.remaining input.old.inner)
        (D.story files.old.disk) (writer_contents W.contents output.old.inner)
        (writer_contents W.contents output.new.inner) all) }
    ensures err { IfErr result (λ e. EndsAsk file.entry question.entry (R.remaining input.old.inner)
        (D.story files.old.disk) (writer_contents W.contents output.old.inner)
        (writer_contents W.contents output.new.inner) (ask_refusal e)) }
    ensures same { files.new.disk ≡ files.old.disk }
    ensures once { files.new.opened ≤ files.old.opened + 1 }
    ensures handed { IfOk result (λ _. HandsOn output.old.inner output.new.inner) }
    ensures why { IfErr result (HasReason (IsUnasked file.entry question.entry) file.entry question.entry (R.remaining input.old.inner)
        (D.story files.old.disk)) }
    ensures notes { IfOk result (λ _. messages.new.failed ≡ false
        → NotesNumber file.entry (R.remaining input.old.inner) (D.story files.old.disk)
        (M.contents messages.old.inner) (M.contents messages.new.inner)) }
    ensures tells { messages.new.failed ≡ false
        → TellsMore (M.contents messages.old.inner) (M.contents messages.new.inner) }
    ensures quiet { (IsDoubtful file.entry (R.remaining input.old.inner)
        (D.story files.old.disk) → ⊥)
        → messages.new ≡ messages.old }
    ensures noted { ask_fails result ≡ false
        → NothingFailed input.old input.new output.old output.new files.old files.new }
    ensures failed { IfErr result (AskFailed (ReadFailed input.new files.new)
        (WriteFailed output.new files.new)) }
    ensures unread { LeavesInputOf file.entry question.entry (asked_refusal result)
        → input.new ≡ input.old }
{
    let opened = match open_place(file.place, files) {
        Ok(opened) => opened,
        Err(error) => return Err(AskError::Unread(error)),
    };
    if let Some((text, all)) = answer_at_places(alloc, file, question, &opened) {
        print(text.as_slice(), output)?;
        return Ok(all);
    }
    if let Some((why, hint)) = refused_by_front(file, asks_index(question), &opened) {
        return Err(AskError::NoTrie(why, hint));
    }
    let held = match read_opened(alloc, opened, files, input) {
        Ok(held) => held,
        Err(error) => return Err(AskError::Unread(error)),
    };
    let held = held.as_slice();
    if let Err(error) = tell_number(alloc, messages, file, held) {
        return Err(AskError::Unread(io::Error::from(error)));
    }
    let all = answer_held(alloc, file, held, question, input, output)?;
    match output.hand_on() {
        Ok(()) => Ok(all),
        Err(error) => Err(AskError::Unanswered(AnswerError::Output(error))),
    }
}
