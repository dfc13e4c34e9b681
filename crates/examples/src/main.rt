//! Eight example programs, one after another. Each module is a whole program to copy.
#![tactic(auto)]

mod entities;
mod headers;
mod keywords;
mod locales;
mod mistakes;
mod prefixes;
mod strtab_build;
mod strtab_load;

fn main(rt: HostRuntime) -> anyhow::Result<()> {
    println!(rt; "== headers")?;
    headers::main(rt)?;
    println!(rt; "== keywords")?;
    keywords::main(rt)?;
    println!(rt; "== locales")?;
    locales::main(rt)?;
    println!(rt; "== entities")?;
    entities::main(rt)?;
    println!(rt; "== prefixes")?;
    prefixes::main(rt)?;
    println!(rt; "== strtab_build")?;
    strtab_build::main(rt)?;
    println!(rt; "== strtab_load")?;
    strtab_load::main(rt)?;
    println!(rt; "== mistakes")?;
    mistakes::main(rt)
}
