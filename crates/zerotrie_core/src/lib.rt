//! What reads tries in place: look-ups, listings, cursors and validation, over plain bytes, and for
//! every type of trie by the trait `Trie`. Also the plain encoder.
#![tactic(auto)]

mod borders;
mod branch;
mod byte_set;
mod cursor;
mod cursor_place;
mod edges;
mod faults;
mod here;
pub mod laws;
mod listing;
mod look_ups;
mod node;
mod offsets;
mod pair_stream;
mod plain;
mod prefixes;
mod reader;
mod simd;
mod span_cursor;
mod stream;
mod trie;
mod values;
mod walk;
mod well_formed;

pub use borders::longest_prefix_at;
pub use branch::Branch;
pub use byte_set::ByteSet;
pub use cursor::{AsciiProbeResult, probe, step, take_value};
pub use cursor_place::CursorPlace;
pub use faults::{Fault, FaultCause, first_fault};
pub use listing::{ListError, ZeroTrieIterator};
pub use look_ups::LookUps;
pub use node::{Node, first_node};
pub use pair_stream::PairStream;
pub use plain::plain_encode;
pub use prefixes::{CommonPrefixes, longest_prefix};
pub use reader::{get, get_counted};
pub use span_cursor::{ByteProbeResult, SpanCursor};
pub use stream::ZeroTrieStream;
pub use trie::{Trie, TrieRef};
pub use values::{ZeroTrieValues, first_key_of};
pub use walk::{Nodes, Part, Visit, count_pairs};
pub use well_formed::{is_well_formed, is_well_formed_counted};
pub use zerotrie_base::{
    ConvertStore, Ext, Hash, Ignore, PerfectByteHashMap, PerfectByteHashMapCacheOwned, Simple,
    TrieKey, TrieKind, TrieStore, ZeroTrieBuildError, ZeroTrieBuilderOptions, ZeroTrieWithOptions,
    are_distinct, by_kind, f1, f2, folded, read_varint_meta2, read_varint_meta3,
    write_varint_meta2, write_varint_meta3,
};
