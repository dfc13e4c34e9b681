//! Reads prefixes, a line each up to an empty one, and prints the cities whose names begin with
//! them.

use anyhow::Result;
use zerotrie::ZeroTriePerfectHash;

/// Cities, each with its country's calling code.
static CITIES: [(&str, usize); 7] = [
    ("Malmö", 46),
    ("México", 52),
    ("Mérida", 52),
    ("Ålesund", 47),
    ("Århus", 45),
    ("София", 359),
    ("北京", 86),
];

pub fn main(rt: HostRuntime) -> Result<()> {
    let trie = ZeroTriePerfectHash::try_from_iter(rt.alloc(), CITIES)?;
    for line in rt.lines(rt.alloc()) {
        let prefix = line?;
        if prefix.is_empty() {
            break;
        }
        for item in trie.iter_prefix(rt.alloc(), prefix.as_bytes())? {
            let (city, code) = item?;
            println!(rt; "{} +{code}", str::from_utf8(city.as_slice())?)?;
        }
    }
    Ok(())
}
