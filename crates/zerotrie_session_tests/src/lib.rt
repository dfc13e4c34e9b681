//! The tests of `zerotrie_session`, which has none of its own: tests are proved together with the
//! rest of their crate.
#![tactic(auto)]

#[cfg(test)]
mod tests;
