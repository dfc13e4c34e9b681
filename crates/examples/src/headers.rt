//! Reads header names in any case, a line each up to an empty one, and prints the usual spelling of
//! each, or `none`.

use anyhow::Result;
use zerotrie::{Ignore, Trie, ZeroAsciiIgnoreCaseTrie, ZeroTrieBuildError, why_iter_refused};

/// The usual spellings. The value of a name is its index here.
static NAMES: [&str; 30] = [
    "Accept",
    "Accept-CH",
    "Accept-Charset",
    "Accept-Encoding",
    "Accept-Language",
    "Accept-Ranges",
    "Age",
    "Allow",
    "Authorization",
    "Cache-Control",
    "Connection",
    "Content-Encoding",
    "Content-Length",
    "Content-Type",
    "Cookie",
    "DAV",
    "Date",
    "ETag",
    "Expires",
    "Host",
    "If-Match",
    "If-None-Match",
    "Last-Modified",
    "Location",
    "Referer",
    "Server",
    "Set-Cookie",
    "User-Agent",
    "Vary",
    "WWW-Authenticate",
];

/// Prints which two names can't be in one trie as they are spelled.
fn say_why(rt: &HostRuntime, pairs: &[(&str, usize)]) -> Result<()> {
    if let Some(refusal) = why_iter_refused::<Ignore, _>(rt.alloc(), pairs)? {
        println!(rt; "{refusal}")?;
        for number in [refusal.first, refusal.second] {
            if let Some((name, _)) = pairs.get(number) {
                println!(rt; "key {number}: {name}")?;
            }
        }
    }
    Ok(())
}

/// Builds the trie of the names: as they are spelled, or else in lower case, which makes no
/// difference to a look-up.
fn build(rt: &HostRuntime) -> Result<ZeroAsciiIgnoreCaseTrie<Vec<u8>>> {
    let mut spelled = Vec::new(rt.alloc());
    let mut lowered = Vec::new(rt.alloc());
    for (number, name) in NAMES.iter().enumerate() {
        spelled.push((*name, number))?;
        lowered.push((name.to_ascii_lowercase(rt.alloc())?, number))?;
    }
    match ZeroAsciiIgnoreCaseTrie::try_from_iter(rt.alloc(), spelled.iter().copied()) {
        Err(ZeroTrieBuildError::MixedCase) => {
            say_why(rt, spelled.as_slice())?;
            Ok(ZeroAsciiIgnoreCaseTrie::try_from_iter(rt.alloc(), lowered)?)
        }
        answer => Ok(answer?),
    }
}

/// Returns the usual spelling of a header's name, which may be in any case.
fn spelling(trie: &ZeroAsciiIgnoreCaseTrie<Vec<u8>>, name: &str) -> Option<&'static str> {
    NAMES.get(trie.get_str(name)?).copied()
}

pub fn main(rt: HostRuntime) -> Result<()> {
    let trie = build(&rt)?;
    println!(rt; "{} names in {} bytes", trie.count(), trie.byte_len())?;
    for line in rt.lines(rt.alloc()) {
        let line = line?;
        if line.is_empty() {
            break;
        }
        let name = spelling(&trie, line.as_str());
        println!(rt; "{}", name.unwrap_or("none"))?;
    }
    Ok(())
}
