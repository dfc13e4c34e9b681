//! The tests of `zerotrie_run`, which has none of its own: tests are proved together with all of the crate that they
//! stand in. Streams are lists of bytes, and files are in memory, where it is known what they hold: so the clauses on files
//! of `zerotrie_files` and `zerotrie_run` say something of them.
#![tactic(auto)]

mod laws;
mod making;
mod memory;

pub use laws::{asks, builds, combines};
pub use making::{makes, makes_again, makes_listed, parses_value};
pub use memory::{MemoryDisk, replaced};

#[cfg(test)]
mod tests;
