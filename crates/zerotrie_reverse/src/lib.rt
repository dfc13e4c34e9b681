//! Reverse look-ups: the first key that has a value, by a table of four bytes for each pair.
#![tactic(auto)]

mod descent;
mod number;
mod places;
mod table;
mod tries;

pub use table::{KeysByValue, first_key_by_places};
pub use tries::Reverse;
