//! Files that are read and replaced as a whole, and streams, with a note of what failed.
//!
//! A fault of a replacement leaves the old file.
#![tactic(auto)]

mod disk;
mod faults;
mod found;
mod noted;
mod output;
mod replacing;
mod store;
mod system;
mod writing;

pub use disk::{Disk, OpenFile};
pub use found::{Found, Mode};
pub use noted::Noted;
pub use output::write_output;
pub use replacing::{replace, replace_beside};
pub use store::Store;
pub use system::SystemDisk;
