//! The tests of `zerotrie_base`, `zerotrie_core` and `zerotrie_build`, which have none of their
//! own: tests are proved together with the rest of their crate.
#![tactic(auto)]

#[cfg(test)]
mod tests;
