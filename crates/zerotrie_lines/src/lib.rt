//! Pairs of a key and a number, as lines of text.
//!
//! A line is a key with escapes, a tab and a number; or two fields with a comma between them, the
//! key and a number; or more fields, of which a header names the two; or a key alone, whose number is
//! that of its line.
//!
//! A call that appends to a `Vec` fails only if it is out of memory or if the stream that it reads
//! fails. What it appended is then unspecified.
#![tactic(auto)]

mod blocks;
mod columns;
mod copies;
mod escapes;
mod fault;
mod items;
pub mod laws;
mod lines;
mod numbers;
mod plain;
mod reading;
mod records;
mod strings;
mod table;
mod values;

pub use blocks::whole_lines;
pub use escapes::{hex_digit, unescape, without_mark, write_escaped};
pub use fault::{BadLine, BadValue, ReadError, ValueFault};
pub use items::{read_items, take_plain};
pub use lines::{read_lines, take_line, write_pair};
pub use numbers::{parse_number, write_number};
pub use reading::{Format, Header, LineEnd, Names, TSV, TextForm, read_pairs};
pub use strings::write_quoted;
pub use table::Table;
