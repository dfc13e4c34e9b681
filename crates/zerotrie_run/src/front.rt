//! What the first bytes of a file show: that it has no trie, and what it looks like.

ghost use Rattle.std.specs.Prelude.{◌≡◌, ◌≤◌, ◌++◌, ℕ, List, Option, true, length, take, IfSome};
ghost use Rattle.zerotrie_files.specs.Disks.{Story};
ghost use Rattle.zerotrie_run.specs.Fronts.{HasNothing, IsHint, IsSettled, begins_as_text, front_len, is_cut_text};
ghost use Rattle.zerotrie_run.specs.Runs.{IsOpenAt, IsRefusedUnread};

use crate::command::TrieFile;
use crate::place::Opened;
use zerotrie_core::TrieKind;
use zerotrie_files::OpenFile;
use zerotrie_making::{OtherFile, other_file};
use zerotrie_queries::{OpenError, looks_like_text, open_unchecked};
use zerotrie_sealed::{SealError, is_index_number};

/// How many bytes of a file show what it looks like.
const FRONT_LEN: usize = 1 << 16;

/// What a file that has no trie looks like.
#[derive(Clone, Copy, PartialEq, Eq, Debug)]
pub enum Hint {
    /// A text.
    Text,
    /// Another file, known by its first bytes.
    Other(OtherFile),
    /// None of these.
    Nothing,
}

/// Returns the first bytes, or all if there are fewer.
fn front_of(held: &[u8], len: usize) -> &[u8]
    ensures { result.now ≡ take len held.now }
{
    match held.split_at_checked(len) {
        Some((front, _)) => front,
        None => held,
    }
}

/// Returns whether the first bytes look like text, of which up to three may be a part of a character.
fn is_cut_text(held: &[u8], len: usize) -> bool
    requires { 3 ≤ len }
    ensures { result ≡ is_cut_text len held.now }
{
    looks_like_text(front_of(held, len))
        || looks_like_text(front_of(held, len - 1))
        || looks_like_text(front_of(held, len - 2))
        || looks_like_text(front_of(held, len - 3))
}

/// Returns whether a file begins as text. If it is longer than its front, the last character of the front
/// may be cut off: one has at most four bytes.
fn begins_as_text(held: &[u8]) -> bool
    ensures { result ≡ begins_as_text held.now }
{
    if held.len() > FRONT_LEN {
        is_cut_text(held, FRONT_LEN)
    } else {
        looks_like_text(held)
    }
}

/// Returns what a file that has no trie looks like, by its first 64 KB and whether it has more.
pub fn hint_of(held: &[u8]) -> Hint
    ensures { IsHint held.now result }
{
    match other_file(front_of(held, FRONT_LEN)) {
        Some(other) => Hint::Other(other),
        None => {
            if begins_as_text(held) {
                Hint::Text
            } else {
                Hint::Nothing
            }
        }
    }
}

/// Returns whether a front that shows this reason shows it whatever follows. A number that may be that of
/// an index shows nothing if one is taken.
fn is_settled(why: &OpenError, takes_index: bool) -> bool
    ensures { result ≡ true → IsSettled takes_index why.now }
{
    match why {
        OpenError::BadTag(_) | OpenError::Damaged(SealError::UnknownVersion(_)) => true,
        OpenError::Damaged(SealError::UnknownKind(number)) => {
            !takes_index || !is_index_number(*number)
        }
        OpenError::Damaged(
            SealError::NoMagic | SealError::CutShort | SealError::TooLong | SealError::Checksum,
        )
        | OpenError::NotWellFormed(_, _)
        | OpenError::OutOfMemory => false,
    }
}

/// Returns why a file that begins so has no trie, whatever follows; nor has it an index, if one is taken.
/// `None` if these bytes do not show it.
fn refusal_of_front(named: Option<TrieKind>, takes_index: bool, front: &[u8]) -> Option<OpenError>
    requires { 24 ≤ length front.now }
    ensures { IfSome result (λ why. (more : List ℕ)
        → HasNothing named takes_index (front.now ++ more) why) }
{
    let why = match open_unchecked(named, front) {
        Ok(_) => return None,
        Err(why) => why,
    };
    if is_settled(&why, takes_index) {
        return Some(why);
    }
    None
}

/// Returns why a large file has no trie, nor an index if one is taken, and what it looks like, if its first
/// bytes show it: only they are read then. `None` if all of it is to be read, also after a fault.
pub fn refused_by_front<F: OpenFile>(
    file: TrieFile<'_>,
    takes_index: bool,
    opened: &Opened<F>,
) -> Option<(OpenError, Hint)>
    ensures { IfSome result (λ r. (story : Option Story)
        → IsOpenAt F.held file.entry.place story opened.now
        → IsRefusedUnread file.entry takes_index story r.0 r.1) }
{
    let Opened::File(open) = opened else {
        return None;
    };
    let mut front = [0; FRONT_LEN + 1];
    match open.read_part(0, &mut front) {
        Ok(()) => {}
        Err(_) => return None,
    }
    let why = refusal_of_front(file.bare, takes_index, &front)?;
    let hint = hint_of(&front);
    Some((why, hint))
}
