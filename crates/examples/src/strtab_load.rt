//! Loads the string table that `strtab_build` wrote to the file that the argument names. Then it
//! reads lines up to an empty one: for a string of the table it prints its number, for a number its
//! string, and else `none`.

use anyhow::{Context, Result};
use std::{env, fs};
use zerotrie::{Trie, ZeroTrie};

pub fn main(rt: HostRuntime) -> Result<()> {
    let path = env::args(&rt)?.nth(1).context("give the file of a table")?;
    let bytes = fs::read(&rt, path.as_str())?;
    let trie = ZeroTrie::load(bytes.as_slice())?;
    println!(rt; "{} strings in {} bytes", trie.count(), trie.byte_len())?;
    for line in rt.lines(rt.alloc()) {
        let line = line?;
        if line.is_empty() {
            break;
        }
        if let Some(number) = trie.get_str(line.as_str()) {
            println!(rt; "{number}")?;
        } else if let Ok(number) = line.as_str().parse::<usize>()
            && let Some(string) = trie.first_key_of(rt.alloc(), number)?
        {
            println!(rt; "{}", str::from_utf8(string.as_slice())?)?;
        } else {
            println!(rt; "none")?;
        }
    }
    Ok(())
}
