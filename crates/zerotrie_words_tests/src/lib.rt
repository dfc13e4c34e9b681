//! The tests of `zerotrie_words`, which has none of its own: tests are proved together with all of the crate that they
//! stand in.
#![tactic(auto)]

#[cfg(test)]
mod tests;
