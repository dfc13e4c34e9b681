//! A file that is made of what is read: of pairs, or of the tries of others.

ghost use Rattle.std.specs.Prelude.{◌≡◌, ◌≤◌, ◌⊎◌, ◌+◌, ℕ, List, Option, true, false, length, map, IfErr, IfOk, OnErr, OnOk};
ghost use Rattle.std.specs.Io.Buffered.{writer_contents};
ghost use Rattle.zerotrie_files.specs.Disks.{Story};
ghost use Rattle.zerotrie_files.specs.Notes.{NothingFailed, SameReads};
ghost use Rattle.zerotrie_making.specs.declared.error.CombinationError.TheVariants as combination;
ghost use Rattle.zerotrie_making.specs.declared.error.MakeError.TheVariants.{OutOfMemory};
ghost use Rattle.zerotrie_run.specs.Combined.{AreRead, file_of};
ghost use Rattle.zerotrie_run.specs.Commands.{may_tell};
ghost use Rattle.zerotrie_run.specs.Failures.{MakingFailed, ReadFailed, WriteFailed};
ghost use Rattle.zerotrie_run.specs.Makings.{EndsMaking, IsMadeBy, IsMaking, IsUnmade, IsUnreadAt, TakesSoMany, making_fails, making_refusal};
ghost use Rattle.zerotrie_run.specs.Runs.{world, AreAllFiles, HandsOn, HaveTwoStreams, IsFreshAt, IsRead};
ghost use Rattle.zerotrie_run.specs.Told.{TellsMaking};
ghost use Rattle.zerotrie_run.specs.declared.command.Place.TheVariants.{Stream};
ghost use Rattle.zerotrie_run.specs.declared.making.MakingError.TheVariants.{NotMade};

use crate::combine::combine;
use crate::command::{Check, Place, Summary, TrieFile};
use crate::front::{Hint, refused_by_front};
use crate::messages::build::{made_lines, tell_removed};
use crate::messages::line::tell;
use crate::place::{open_place, read_opened, write_place};
use crate::status::Status;
use std::alloc::{AllocError, AllocFailed, Global};
use std::io;
use std::io::{BufWriter, Read, Write};
use zerotrie_files::{Disk, Noted, Store};
use zerotrie_making::{Combination, CombinationError, Made, MakeError, Plan, make};
use zerotrie_queries::OpenError;

/// How a file is made of what is read.
#[derive(Clone, Copy, Debug)]
pub enum Recipe<'a> {
    /// Of the pairs of one input.
    Pairs(Plan<'a>),
    /// Of the tries of files.
    Tries(Combination),
}

/// A file to make: of what, how, and where.
#[derive(Clone, Copy, Debug)]
pub struct Making<'s, 'a> {
    pub from: &'s [Place<'a>],
    pub recipe: Recipe<'a>,
    pub to: Place<'a>,
    /// Whether a file that is there already is left as it is.
    pub no_clobber: bool,
    /// When it is reported at the end what was made.
    pub summary: Summary,
}

/// Why no file is made.
#[derive(Debug, Drop)]
pub enum MakingError<'a> {
    /// There is a file already, which is to be left as it is.
    Taken,
    /// It can't be found out whether there is a file.
    Unfound(io::Error),
    /// This place can't be read.
    Unread(Place<'a>, io::Error),
    /// This file has no trie, and looks so.
    NoTrie(Place<'a>, OpenError, Hint),
    /// What was read makes no file.
    NotMade(CombinationError),
    /// The file can't be written.
    Unwritten(io::Error),
}

impl<'a> MakingError<'a> {
    /// Returns how the run ends if the command is refused. `None` if something failed.
    pub fn refusal(&self) -> Option<Status>
        ensures { result ≡ making_refusal self.now }
    {
        match self {
            MakingError::Taken => Some(Status::Taken),
            MakingError::NoTrie(_, why, _) => match why {
                OpenError::BadTag(_) | OpenError::Damaged(_) | OpenError::NotWellFormed(_, _) => {
                    Some(Status::BadInput)
                }
                OpenError::OutOfMemory => None,
            },
            MakingError::NotMade(CombinationError::NoValue(_, _)) => Some(Status::Refused),
            MakingError::NotMade(CombinationError::NotMade(error)) => Status::of_refusal(error),
            MakingError::Unfound(_) | MakingError::Unread(_, _) | MakingError::Unwritten(_) => None,
        }
    }
}

impl<'a> From<CombinationError> for MakingError<'a> {
    ghost from_gives = { λ why e. e ≡ NotMade why };

    fn from(why: CombinationError) -> Self {
        MakingError::NotMade(why)
    }
}

impl<'a> From<MakeError> for MakingError<'a> {
    ghost from_gives = { λ why e. e ≡ NotMade (combination.NotMade why) };

    fn from(why: MakeError) -> Self {
        MakingError::NotMade(CombinationError::NotMade(why))
    }
}

impl<'a> From<AllocError> for MakingError<'a> {
    ghost from_gives = { λ _ e. e ≡ NotMade (combination.NotMade OutOfMemory) };

    fn from(_: AllocError) -> Self {
        MakingError::NotMade(CombinationError::NotMade(MakeError::OutOfMemory))
    }
}

impl<'a, T: Drop> From<AllocFailed<T>> for MakingError<'a> {
    ghost from_gives = { λ _ e. e ≡ NotMade (combination.NotMade OutOfMemory) };

    fn from(_: AllocFailed<T>) -> Self {
        MakingError::NotMade(CombinationError::NotMade(MakeError::OutOfMemory))
    }
}

/// Refuses to make a file that is there already, if it is to be left as it is.
fn refuse_existing<'a, D: Disk>(
    making: Making<'_, 'a>,
    files: &mut Store<D>,
) -> Result<(), MakingError<'a>>
    ensures fresh { OnOk result (IsFreshAt making.entry.to making.entry.no_clobber
        (D.story files.old.disk)) }
    ensures err { IfErr result (λ e. (input : Option (List ℕ))
        → IsUnmade making.entry input (D.story files.old.disk) e) }
    ensures same { files.new.disk ≡ files.old.disk }
    ensures once { files.new.opened ≡ files.old.opened }
    ensures noted { making_fails result ≡ false → files.new ≡ files.old }
    ensures failed { IfErr result (MakingFailed (files.new.unread ≡ true) ⊥) }
{
    match making.to {
        Place::File(path) if making.no_clobber => match files.has(path) {
            Ok(true) => Err(MakingError::Taken),
            Ok(false) => Ok(()),
            Err(error) => Err(MakingError::Unfound(error)),
        },
        Place::File(_) | Place::Stream => Ok(()),
    }
}

/// Returns how a file is read whose trie is combined with others: all its bytes are tested.
pub fn file_of(place: Place<'_>) -> TrieFile<'_>
    ensures { result ≡ file_of place.entry }
{
    TrieFile {
        place,
        bare: None,
        check: Check::Full,
    }
}

/// Reads all bytes of a place, unless they are for a combination and the first ones show no trie.
fn read_one<'a, D: Disk, R: Read>(
    alloc: Global,
    recipe: Recipe<'a>,
    place: Place<'a>,
    files: &mut Store<D>,
    input: &mut Noted<R>,
) -> Result<Vec<u8>, MakingError<'a>>
    ensures read { IfOk result (λ bytes. IsRead place.entry (R.remaining input.old.inner)
        (D.story files.old.disk) bytes.items) }
    ensures err { IfErr result (IsUnreadAt recipe.entry place.entry (D.story files.old.disk)) }
    ensures failed { IfErr result (MakingFailed (ReadFailed input.new files.new) ⊥) }
    ensures same { files.new.disk ≡ files.old.disk }
    ensures once { files.new.opened ≤ files.old.opened + 1 }
    ensures untouched { (place.entry ≡ Stream) ⊎ (input.new ≡ input.old) }
    ensures unwritten { files.new.unwritten ≡ files.old.unwritten }
    ensures noted { making_fails result ≡ false
        → SameReads input.old input.new files.old files.new }
{
    let opened = match open_place(place, files) {
        Ok(opened) => opened,
        Err(error) => return Err(MakingError::Unread(place, error)),
    };
    if let Recipe::Tries(_) = recipe {
        if let Some((why, hint)) = refused_by_front(file_of(place), false, &opened) {
            return Err(MakingError::NoTrie(place, why, hint));
        }
    }
    match read_opened(alloc, opened, files, input) {
        Ok(bytes) => Ok(bytes),
        Err(error) => Err(MakingError::Unread(place, error)),
    }
}

/// Reads all places, of which at most one is standard input, up to the first that is refused.
fn read_all<'a, D: Disk, R: Read>(
    alloc: Global,
    making: Making<'_, 'a>,
    files: &mut Store<D>,
    input: &mut Noted<R>,
) -> Result<Vec<Vec<u8>>, MakingError<'a>>
    requires { HaveTwoStreams making.from.now → ⊥ }
    ensures read { IfOk result (λ held. AreRead making.entry.from.now (R.remaining input.old.inner)
        (D.story files.old.disk) (map (λ bytes. bytes.items) held.items)) }
    ensures err { IfErr result (IsUnmade making.entry (R.remaining input.old.inner)
        (D.story files.old.disk)) }
    ensures failed { IfErr result (MakingFailed (ReadFailed input.new files.new) ⊥) }
    ensures same { files.new.disk ≡ files.old.disk }
    ensures once { files.new.opened ≤ files.old.opened + length making.entry.from.now }
    ensures unwritten { files.new.unwritten ≡ files.old.unwritten }
    ensures noted { making_fails result ≡ false
        → SameReads input.old input.new files.old files.new }
    ensures unread { AreAllFiles making.entry.from.now → input.new ≡ input.old }
{
    let places = making.from;
    let mut held = Vec::with_capacity(alloc, places.len())?;
    for number in 0..places.len() {
        match read_one(alloc, making.recipe, places[number], files, input) {
            Ok(bytes) => held.push(bytes)?,
            Err(error) => return Err(error),
        }
    }
    Ok(held)
}

/// Makes the file of what was read of the places, and returns whether no kind is named for it and their
/// tries have several.
fn made_of<'a>(
    alloc: Global,
    making: Making<'_, 'a>,
    held: Vec<Vec<u8>>,
) -> Result<(Made, bool), MakingError<'a>>
    requires one { TakesSoMany making.recipe (length making.from.now) }
    requires all { length held.items ≡ length making.from.now }
    ensures ok { IfOk result (λ r. IsMadeBy making.entry.recipe
        (map (λ bytes. bytes.items) held.items) r.0 r.1) }
    ensures err { IfErr result (λ e. (input : Option (List ℕ)) (files : Option Story)
        → AreRead making.entry.from.now input files (map (λ bytes. bytes.items) held.items)
        → IsUnmade making.entry input files e) }
    ensures failed { IfErr result (MakingFailed ⊥ ⊥) }
{
    match making.recipe {
        Recipe::Pairs(plan) => {
            let mut held = held;
            Ok((make(alloc, plan, held.swap_remove(0))?, false))
        }
        Recipe::Tries(combination) => combine(alloc, combination, making.from, held.as_slice()),
    }
}

/// Makes a file of what it reads, and writes it to its place, unless there is a file already that is to be
/// left as it is. It reports that at the end, as its summary says, and then how many files of killed
/// builds were removed.
pub fn make_file<'a, D: Disk, R: Read, W: Write + Drop, M: Write>(
    alloc: Global,
    making: Making<'_, 'a>,
    files: &mut Store<D>,
    input: &mut Noted<R>,
    output: &mut Noted<BufWriter<W>>,
    messages: &mut Noted<M>,
) -> Result<(), MakingError<'a>>
    requires one { TakesSoMany making.recipe (length making.from.now) }
    requires streams { HaveTwoStreams making.from.now → ⊥ }
    ensures ok { OnOk result (IsMaking making.entry (R.remaining input.old.inner)
        (world (D.story files.old.disk) (writer_contents W.contents output.old.inner))
        (world (D.story files.new.disk) (writer_contents W.contents output.new.inner))) }
    ensures err { IfErr result (EndsMaking making.entry (R.remaining input.old.inner)
        (world (D.story files.old.disk) (writer_contents W.contents output.old.inner))
        (world (D.story files.new.disk) (writer_contents W.contents output.new.inner))) }
    ensures handed { OnOk result (HandsOn output.old.inner output.new.inner) }
    ensures done { OnOk result (messages.new.failed ≡ false
        → TellsMaking making.entry (R.remaining input.old.inner) (D.story files.old.disk)
        (M.contents messages.old.inner) (M.contents messages.new.inner)) }
    ensures untold { OnErr result (messages.new ≡ messages.old) }
    ensures quiet { may_tell making.entry.summary ≡ false → messages.new ≡ messages.old }
    ensures once { files.new.opened ≤ files.old.opened + length making.entry.from.now }
    ensures noted { making_fails result ≡ false
        → NothingFailed input.old input.new output.old output.new files.old files.new }
    ensures failed { IfErr result (MakingFailed (ReadFailed input.new files.new)
        (WriteFailed output.new files.new)) }
    ensures unread { AreAllFiles making.entry.from.now → input.new ≡ input.old }
{
    refuse_existing(making, files)?;
    let held = read_all(alloc, making, files, input)?;
    let (made, several) = made_of(alloc, making, held)?;
    let lines = made_lines(alloc, making, several, &made)?;
    match write_place(alloc, making.to, made.file.as_slice(), files, output) {
        Ok(removed) => {
            tell(messages, lines.as_slice());
            tell_removed(alloc, messages, making.summary, making.to, removed);
            Ok(())
        }
        Err(error) => Err(MakingError::Unwritten(error)),
    }
}
