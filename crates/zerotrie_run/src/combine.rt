//! A file of the tries of others.

ghost use Rattle.std.specs.Prelude.{◌≡◌, IfErr, IfOk, None, length, map};
ghost use Rattle.std.specs.List.{AllZip};
ghost use Rattle.zerotrie_run.specs.Combined.{IsMadeSo, OfHeld, are_several};
ghost use Rattle.zerotrie_run.specs.Makings.{AreUnopened, IsUncombined, IsUnopenedAt};
ghost use Rattle.zerotrie_run.specs.Runs.{OpensBy};
ghost use Rattle.zerotrie_run.specs.declared.command.Check.TheVariants.{Full};

use crate::command::Place;
use crate::front::hint_of;
use crate::making::MakingError;
use crate::open::open_in_full;
use std::alloc::Global;
use zerotrie_core::{TrieKind, TrieRef};
use zerotrie_making::{Combination, Made, kind_kept, make_combined};

/// Opens the trie in the bytes of a file, and validates them.
fn open_one<'a, 'h>(
    alloc: Global,
    place: Place<'a>,
    held: &'h [u8],
) -> Result<TrieRef<'h>, MakingError<'a>>
    ensures ok { IfOk result (λ trie. OpensBy Full None held.now trie.kind trie.bytes.now) }
    ensures err { IfErr result (IsUnopenedAt place.entry held.now) }
{
    match open_in_full(alloc, None, held) {
        Ok(trie) => Ok(trie),
        Err(why) => Err(MakingError::NoTrie(place, why, hint_of(held))),
    }
}

/// Opens the trie that each file holds.
fn open_all<'a, 'h>(
    alloc: Global,
    from: &[Place<'a>],
    held: &'h [Vec<u8>],
) -> Result<Vec<TrieRef<'h>>, MakingError<'a>>
    requires { length held.now ≡ length from.now }
    ensures ok { IfOk result (λ tries. AllZip (λ bytes trie.
        OpensBy Full None bytes.items trie.kind trie.bytes.now) held.now tries.items) }
    ensures err { IfErr result (AreUnopened from.now (map (λ bytes. bytes.items) held.now)) }
{
    let mut tries = Vec::with_capacity(alloc, held.len())?;
    for number in 0..held.len() {
        let place = from[number];
        match open_one(alloc, place, held[number].as_slice()) {
            Ok(trie) => tries.push(trie)?,
            Err(error) => return Err(error),
        }
    }
    Ok(tries)
}

/// Returns whether no kind is named, and tries have several.
fn have_several_kinds(named: Option<TrieKind>, tries: &[TrieRef<'_>]) -> bool
    ensures { result ≡ are_several named (map (λ trie. trie.kind) tries.now) }
{
    !tries.is_empty() && kind_kept(named, tries).is_none()
}

/// Makes a file of what files hold, and returns whether no kind is named for it and their tries have
/// several.
pub fn combine<'a>(
    alloc: Global,
    combination: Combination,
    from: &[Place<'a>],
    held: &[Vec<u8>],
) -> Result<(Made, bool), MakingError<'a>>
    requires { length held.now ≡ length from.now }
    ensures ok { IfOk result (λ r. OfHeld (map (λ bytes. bytes.items) held.now)
        (λ maps. IsMadeSo combination maps r.0 r.1)) }
    ensures err { IfErr result (IsUncombined combination from.now
        (map (λ bytes. bytes.items) held.now)) }
{
    let tries = open_all(alloc, from, held)?;
    let several = have_several_kinds(combination.kind, tries.as_slice());
    let made = make_combined(alloc, combination, tries.as_slice())?;
    Ok((made, several))
}
