//! One error for a program.

use crate::dense::RecordError;
use std::alloc::AllocError;
use thiserror::Error;
use zerotrie_any::{JsonError, LoadError, NotWellFormed, TagError};
use zerotrie_core::{ListError, ZeroTrieBuildError};

/// Any error of this library, for a program that builds tries, saves their bytes and loads them:
/// `?` converts each of the library's errors to it.
///
/// ```
/// use zerotrie::{Error, ZeroTrieSimpleAscii};
///
/// fn main(rt: HostRuntime) -> Result<(), Error> {
///     let pairs = [("bar", 2), ("foo", 1)];
///     let trie = ZeroTrieSimpleAscii::try_from_iter(rt.alloc(), pairs)?;
///     let kept = trie.to_tagged_bytes(rt.alloc())?;
///     let again = ZeroTrieSimpleAscii::load(kept.as_slice())?;
///     assert_eq!(rt; again.to_btreemap(rt.alloc())?.len(), 2);
///     Ok(())
/// }
/// ```
///
/// It prints as the error that it contains, and has its advice.
#[derive(Debug, Drop, Error)]
pub enum Error {
    /// A build returned an error.
    #[error(transparent)]
    Build(#[from] ZeroTrieBuildError),
    /// An iterator returned an error.
    #[error(transparent)]
    List(#[from] ListError),
    /// Bytes are not a valid trie.
    #[error(transparent)]
    NotWellFormed(#[from] NotWellFormed),
    /// Tagged bytes do not begin with the tag of a kind that is read.
    #[error(transparent)]
    Tag(#[from] TagError),
    /// Tagged bytes are not a valid trie of a kind that is read.
    #[error(transparent)]
    Load(#[from] LoadError),
    /// A JSON value was not read as a trie, or a trie not written as one.
    #[error(transparent)]
    Json(#[from] JsonError),
    /// Bytes are not the record of a dense table.
    #[error(transparent)]
    Record(#[from] RecordError),
    /// An allocation failed, in a call that has no other error.
    #[error("Out of memory")]
    Memory(#[from(alloc)] AllocError),
}

impl Error {
    /// Returns what to do about the error.
    pub fn advice(&self) -> &'static str {
        match self {
            Error::Build(error) => error.advice(),
            Error::List(error) => error.advice(),
            Error::Tag(error) => error.advice(),
            Error::Json(error) => error.advice(),
            Error::Record(error) => error.advice(),
            Error::NotWellFormed(_) | Error::Load(_) => {
                "get the bytes again, or read them as the kind that wrote them"
            }
            Error::Memory(_) => "free memory, and try again",
        }
    }
}
