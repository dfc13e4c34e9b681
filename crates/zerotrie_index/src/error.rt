//! Errors of builds.

ghost use Rattle.std.specs.Prelude.{◌≡◌};
ghost use Rattle.zerotrie_index.specs.declared.error.ZeroIndexBuildError.TheVariants.{OutOfMemory};

use std::alloc::{AllocError, AllocFailed};
use thiserror::Error;

/// Why a build of an index failed.
#[derive(Clone, PartialEq, Eq, Debug, Drop, Error)]
pub enum ZeroIndexBuildError {
    /// The keys do not strictly ascend by their bytes. Returned exactly if they don't.
    #[error("the keys do not ascend: sort them by their bytes, each once")]
    Unsorted,
    /// A key is there twice. A build of sorted keys returns `Unsorted` instead.
    #[error("a key is there twice: take each key once")]
    DuplicateKey,
    /// Under each seed tried, one bucket would have more than `BUCKET_LIMIT` keys. Keys that nobody
    /// has chosen for that do not come to it: build from another seed.
    #[error("too many keys share a bucket: build from another seed")]
    Crowded,
    /// The records of the pairs would have 2^32 bytes or more.
    #[error("the records of the index would have 4 GiB or more: take fewer pairs")]
    CapacityExceeded,
    /// An allocation failed.
    #[error("out of memory")]
    OutOfMemory,
}

/// Bytes that are not an index.
#[derive(Clone, Copy, PartialEq, Eq, Debug, Error)]
#[error("the bytes are not an index")]
pub struct NotAnIndex;

impl From<AllocError> for ZeroIndexBuildError {
    ghost from_gives = { λ _ e. e ≡ OutOfMemory };

    fn from(_: AllocError) -> Self {
        ZeroIndexBuildError::OutOfMemory
    }
}

impl<T: Drop> From<AllocFailed<T>> for ZeroIndexBuildError {
    ghost from_gives = { λ _ e. e ≡ OutOfMemory };

    fn from(_: AllocFailed<T>) -> Self {
        ZeroIndexBuildError::OutOfMemory
    }
}
