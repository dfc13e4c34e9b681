//! Makes the usual mistakes, and prints the error that the library returns for each.

use anyhow::Result;
use std::fmt::Display;
use zerotrie::{
    Ignore, Refusal, Simple, ZeroAsciiIgnoreCaseTrie, ZeroTrie, ZeroTriePerfectHash,
    ZeroTrieSimpleAscii, why_iter_refused, why_slice_refused,
};

/// Prints what a call returned.
fn tell<T: Drop, E: Display + Drop>(
    rt: &HostRuntime,
    mistake: &str,
    answer: Result<T, E>,
) -> Result<()> {
    match answer {
        Ok(_) => println!(rt; "{mistake}: taken")?,
        Err(error) => println!(rt; "{mistake}: {error}")?,
    }
    Ok(())
}

/// Prints which keys are the reason for an error of a build.
fn tell_why(rt: &HostRuntime, refusal: Option<Refusal>) -> Result<()> {
    if let Some(refusal) = refusal {
        println!(rt; "  {refusal}")?;
    }
    Ok(())
}

/// Keys that are an error in each kind: those of a slice must ascend, and no key may come twice.
fn keys(rt: &HostRuntime) -> Result<()> {
    let unsorted: [(&[u8], usize); 2] = [(b"to", 1), (b"in", 2)];
    let built = ZeroTrieSimpleAscii::try_from_sorted_slice(rt.alloc(), &unsorted);
    tell(rt, "keys that do not ascend", built)?;
    tell_why(rt, why_slice_refused::<Simple, _>(&unsorted))?;

    let repeated = [("to", 1), ("in", 2), ("to", 3)];
    let built = ZeroTrieSimpleAscii::try_from_iter(rt.alloc(), repeated);
    tell(rt, "a key given twice", built)?;
    tell_why(rt, why_iter_refused::<Simple, _>(rt.alloc(), &repeated)?)
}

/// Keys that are an error in one kind and not in another.
fn kinds(rt: &HostRuntime) -> Result<()> {
    let mixed = [("DAV", 1), ("Host", 2), ("Date", 3)];
    let built = ZeroAsciiIgnoreCaseTrie::try_from_iter(rt.alloc(), mixed);
    tell(rt, "keys that part in case alone", built)?;
    tell_why(rt, why_iter_refused::<Ignore, _>(rt.alloc(), &mixed)?)?;

    let cities = [("Malmo", 1), ("Malmö", 2)];
    let built = ZeroTrieSimpleAscii::try_from_iter(rt.alloc(), cities);
    tell(rt, "a key beyond ASCII", built)?;
    tell_why(rt, why_iter_refused::<Simple, _>(rt.alloc(), &cities)?)?;
    let built = ZeroTriePerfectHash::try_from_iter(rt.alloc(), cities);
    tell(rt, "the same keys in a kind for them", built)
}

/// Arrays of the wrong length. `encoded_len_str` returns the right one.
fn arrays(rt: &HostRuntime) -> Result<()> {
    let items = [("in", 1), ("to", 2)];
    let built = ZeroTrieSimpleAscii::<[u8; 20]>::from_sorted_str_tuples(&items);
    tell(rt, "an array that is too large", built)?;
    let built = ZeroTrieSimpleAscii::<[u8; 5]>::from_sorted_str_tuples(&items);
    tell(rt, "an array that is too small", built)?;
    let len = ZeroTrieSimpleAscii::encoded_len_str(rt.alloc(), &items)?;
    println!(rt; "  the trie has {len} bytes")?;
    Ok(())
}

/// Bytes that are no valid trie of the kind. `load` validates tagged bytes, and `try_from_bytes`
/// untagged ones. `from_bytes` does not validate.
fn bytes(rt: &HostRuntime) -> Result<()> {
    let trie = ZeroTrieSimpleAscii::try_from_iter(rt.alloc(), [("in", 1), ("to", 2)])?;
    let mut tagged = trie.to_tagged_bytes(rt.alloc())?;
    let loaded = ZeroTriePerfectHash::load(tagged.as_slice());
    tell(rt, "the tag of another kind", loaded)?;
    let loaded = ZeroTrieSimpleAscii::load(tagged.as_slice());
    tell(rt, "the tag of its own kind", loaded)?;

    // Validation can't know that these bytes have a tag: it is read as the first byte of each key.
    let bare = ZeroTrieSimpleAscii::try_from_bytes(tagged.as_slice());
    tell(rt, "a tag read as part of the trie", bare)?;
    let bare = ZeroTrieSimpleAscii::from_bytes(tagged.as_slice());
    println!(rt; "  {:?} and {:?}", bare.get(b"in"), bare.get(b"\0in"))?;

    tagged.pop();
    tell(rt, "bytes that were cut", ZeroTrie::load(tagged.as_slice()))?;
    tell(rt, "no bytes", ZeroTrie::load(b""))
}

pub fn main(rt: HostRuntime) -> Result<()> {
    keys(&rt)?;
    kinds(&rt)?;
    arrays(&rt)?;
    bytes(&rt)
}
