//! Look-ups in an index that is read at places, as in a file: the memory for it does not grow.

ghost use Rattle.std.specs.Prelude.{◌≡◌, ◌⊎◌, ℕ, ◌+◌, ◌≤◌, ◌<◌, ◌^◌, List, ◌++◌, length, IfOk, IfErr, OnOk};
ghost use Rattle.std.specs.Allocator.{alloc_error};
ghost use Rattle.zerotrie_index.specs.Placed.{HasPart, IsPart, AreWords, IsAnswer, IsAnswerOfParts, MayStill, FailsNoMore, FailsWithin, FailsInside};

use crate::hash::{eight_at, hash_of};
use crate::reader::{bucket_of, find_in};
use std::alloc::{AllocError, Global};

/// The most bytes of one read.
const ROOM: usize = 1 << 10;

/// Bytes that are read at places, as those of a file are. The crate's README has an example.
pub trait ReadAt {
    /// Whether it may hold these bytes. What is read belongs to each list of bytes that it may hold; if
    /// there is none, nothing is known of what is read.
    ghost MayHold: { Self → List ℕ → Type 0 };

    /// Whether a read of as many bytes from a place on may fail with this error.
    ghost MayRefuse: { Self → ℕ → ℕ → Self.Error → Type 0 };

    /// Why a read fails.
    type Error;

    /// Fills all of the room with the bytes from this place on.
    fn fill(&mut self, place: u64, room: &mut [u8]) -> Result<(), Self::Error>
        ensures part { IfOk result (λ _. IsPart (MayHold self.old) place room.new) }
        ensures err { IfErr result (MayRefuse self.old place (length room.old)) }
        ensures same { MayStill (MayHold self.old) (MayHold self.new) }
        ensures fewer { FailsNoMore (MayRefuse self.old) (MayRefuse self.new) };
}

/// Reads the two words from this place on.
fn two_words<S: ReadAt>(source: &mut S, place: u64) -> Result<(u64, u64), S::Error>
    ensures words { IfOk result (λ r. (part : List ℕ) × IsPart (S.MayHold source.old) place part
        × ((bytes : List ℕ) → HasPart place part bytes → AreWords bytes place r.0 r.1)) }
    ensures err { IfErr result (S.MayRefuse source.old place 16) }
    ensures same { MayStill (S.MayHold source.old) (S.MayHold source.new) }
    ensures fewer { FailsNoMore (S.MayRefuse source.old) (S.MayRefuse source.new) }
{
    let mut room = [0; 16];
    source.fill(place, &mut room)?;
    Ok((eight_at(&room, 0), eight_at(&room, 8)))
}

/// Reads as many bytes from this place on, at most `ROOM`, and appends them.
fn add_part<S: ReadAt>(
    source: &mut S,
    place: u64,
    count: usize,
    part: &mut Vec<u8>,
) -> Result<(), S::Error>
where
    S::Error: From<AllocError>,
    requires { count ≤ 1024 }
    ensures part { OnOk result ((more : List ℕ) × IsPart (S.MayHold source.old) place more
        × (length more ≡ count) × (part.new.items ≡ part.old.items ++ more)) }
    ensures err { IfErr result (λ e.
        S.MayRefuse source.old place count e ⊎ S.Error.from_gives alloc_error e) }
    ensures same { MayStill (S.MayHold source.old) (S.MayHold source.new) }
    ensures fewer { FailsNoMore (S.MayRefuse source.old) (S.MayRefuse source.new) }
{
    let mut all = [0; ROOM];
    let (room, _) = all.split_at_mut(count);
    source.fill(place, room)?;
    part.extend_from_slice(room)?;
    Ok(())
}

/// Reads as many bytes from this place on. Its memory grows with those that are there.
pub(crate) fn read_part<S: ReadAt>(
    alloc: Global,
    source: &mut S,
    place: u64,
    len: usize,
) -> Result<Vec<u8>, S::Error>
where
    S::Error: From<AllocError>,
    requires { place + len < 2 ^ 64 }
    ensures part { IfOk result (λ part. IsPart (S.MayHold source.old) place part.items) }
    ensures length { IfOk result (λ part. length part.items ≡ len) }
    ensures err { IfErr result (λ e. FailsWithin (S.MayRefuse source.old) place len e
        ⊎ S.Error.from_gives alloc_error e) }
    ensures same { MayStill (S.MayHold source.old) (S.MayHold source.new) }
    ensures fewer { FailsNoMore (S.MayRefuse source.old) (S.MayRefuse source.new) }
{
    let mut part = Vec::new(alloc);
    while part.len() < len {
        let count = (len - part.len()).min(ROOM);
        add_part(source, place + part.len() as u64, count, &mut part)?;
    }
    Ok(part)
}

/// Returns the value of a key in an index that is read at places.
///
/// Reads the seed and the number of buckets, the entry of the key's bucket and the next one, and the
/// records of the bucket if the key is marked there: in three reads, if they have at most 1,024
/// bytes. If the bytes are an index, this is what `get` returns. Of others the result is what it is
/// of each index with the bytes that were read, and unspecified if none has them; the memory that is
/// taken grows with what was read. An error is that of a read or of an allocation. If the bytes are
/// an index, each read is inside it.
pub fn get_at<S: ReadAt>(
    alloc: Global,
    source: &mut S,
    key: &[u8],
) -> Result<Option<usize>, S::Error>
where
    S::Error: From<AllocError>,
    ensures found { IfOk result (IsAnswer (S.MayHold source.old) key.now) }
    ensures read { IfOk result (IsAnswerOfParts (S.MayHold source.old) key.now) }
    ensures err { IfErr result (λ e. FailsInside (S.MayHold source.old) (S.MayRefuse source.old) e
        ⊎ S.Error.from_gives alloc_error e) }
    ensures same { MayStill (S.MayHold source.old) (S.MayHold source.new) }
    ensures fewer { FailsNoMore (S.MayRefuse source.old) (S.MayRefuse source.new) }
{
    let (seed, count) = two_words(source, 0)?;
    let Ok(count) = u32::try_from(count) else {
        return Ok(None);
    };
    let hash = hash_of(seed, key);
    let number = u64::from(bucket_of(count, hash));
    let (entry, next) = two_words(source, 16 + 8 * number)?;
    if (entry >> (hash % 32)) % 2 == 0 {
        return Ok(None);
    }
    let (start, end) = (entry >> 32, next >> 32);
    let Some(len) = end.checked_sub(start) else {
        return Ok(None);
    };
    let pool = 16 + 8 * (u64::from(count) + 1);
    let records = read_part(alloc, source, pool + start, len as usize)?;
    Ok(find_in(records.as_slice(), key))
}
