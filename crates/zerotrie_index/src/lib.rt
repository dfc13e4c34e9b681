//! An index: flat bytes that answer exact look-ups in a map from byte strings to numbers.
#![tactic(auto)]

mod builder;
mod error;
mod hash;
mod in_blocks;
mod index;
pub mod laws;
mod lent;
mod opened;
mod placed;
mod reader;
mod trie;
mod well_formed;

pub use builder::{BUCKET_LIMIT, SEEDS_TRIED, build, build_all, build_sorted};
pub use error::{NotAnIndex, ZeroIndexBuildError};
pub use hash::hash_of;
pub use in_blocks::SealedIndex;
pub use index::ZeroIndex;
pub use lent::ZeroIndexBuilder;
pub use opened::{OpenedIndex, get};
pub use placed::{ReadAt, get_at};
pub use well_formed::is_well_formed;
