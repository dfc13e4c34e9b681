//! Functions over `zerotrie` to copy, each proved from the contracts of the library's calls.
//!
//! Copy a function, the words of `specs/` that its contract cites, and the folder of its name in
//! `proofs/`. They use `zerotrie` alone, but `slices` an index: the definitions of
//! `Rattle.zerotrie.specs` and the lemmas of `Rattle.zerotrie.proofs`.
#![tactic(auto)]

mod completion;
mod constants;
mod cursors;
mod fallbacks;
mod keyword;
mod keywords;
mod listings;
mod slices;
mod stored;

pub use completion::complete;
pub use constants::{
    HEADERS, field_number, header_bytes, header_number, header_trie, method_number,
};
pub use cursors::{find_behind, find_written, suffixes_of};
pub use fallbacks::{fall_back, fall_back_in_hashed, longest_key};
pub use keyword::find_keyword;
pub use keywords::{find_header, find_owned, find_word, record_of, second_of_three};
pub use listings::{listed_again, past_first_group, walk_over};
pub use slices::{Slice, SliceError, value_at_places, value_in_file};
pub use stored::{entry_in_record, find_in_bytes, find_in_json, find_in_json_of_any};
