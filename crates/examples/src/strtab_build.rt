//! Reads strings, a line each up to an empty one, and builds a trie from each string to the number
//! of its line. Writes it as tagged bytes to the file that the argument names; `strtab_load` reads
//! it.

use anyhow::{Context, Result};
use std::{env, fs};
use zerotrie::ZeroTrie;

pub fn main(rt: HostRuntime) -> Result<()> {
    let path = env::args(&rt)?.nth(1).context("give the file of a table")?;
    let mut strings = Vec::new(rt.alloc());
    for line in rt.lines(rt.alloc()) {
        let line = line?;
        if line.is_empty() {
            break;
        }
        strings.push((line, strings.len()))?;
    }
    let trie = ZeroTrie::try_from_iter(rt.alloc(), strings)?;
    let bytes = trie.to_tagged_bytes(rt.alloc())?;
    println!(rt; "{} bytes", bytes.len())?;
    fs::write(&rt, path.as_str(), bytes.as_slice())?;
    Ok(())
}
