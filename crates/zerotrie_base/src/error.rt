//! Errors of builds.

ghost use Rattle.std.specs.Prelude.{◌≡◌};
ghost use Rattle.zerotrie_base.specs.declared.error.ZeroTrieBuildError.TheVariants.{OutOfMemory};

use std::alloc::{AllocError, AllocFailed};
use thiserror::Error;

/// Why a build of a trie failed.
///
/// ```
/// let error = ZeroTrieBuildError::BufferTooLarge(17);
/// let text = format!(in rt.alloc(); "{error}")?;
/// assert_eq!(rt; text.as_str(), "Buffer too large. Size needed: 17");
/// assert_eq!(rt; error.advice(), "take an array of the size needed");
/// ```
///
/// Each of the first ten variants is returned only if its condition is true of the pairs given.
/// `OutOfMemory` is returned only if an allocation failed, whatever else is true of the pairs. For
/// `NonAsciiError`, `MixedCase`, `DuplicateKey` and `Unsorted`, `why_slice_refused` and
/// `why_iter_refused` return the keys that cause the error.
#[derive(Clone, PartialEq, Eq, Debug, Drop, Error)]
pub enum ZeroTrieBuildError {
    /// A key has a byte of 128 or more, and this kind of trie takes only ASCII keys.
    #[error("Non-ASCII cannot be added to an ASCII-only trie")]
    NonAsciiError,
    /// The targets of a branch would have 2^32 bytes or more, and the kind has offsets of at most
    /// four bytes; or the whole encoding would have 2^64 bytes or more.
    #[error("Reached maximum capacity of trie")]
    CapacityExceeded,
    /// The search found no parameters of a perfect hash for the edges of a branch.
    #[error("Failed to solve the perfect hash function. This is rare! Please report your case to the ICU4X team.")]
    CouldNotSolvePerfectHash,
    /// At the first byte where two keys differ, they differ only in case, and the kind ignores
    /// case.
    ///
    /// Examples are `Accept` and `accept`, `Accept-CH` and `Accept-Charset`, and `DAV` and `Date`.
    /// To avoid the error, lower-case the keys first; look-ups return the same.
    #[error("Mixed-case data added to case-insensitive trie")]
    MixedCase,
    /// A string of a dense table contains the delimiter.
    #[error("Delimiter is contained in one or more strings")]
    IllegalDelimiter,
    /// An iterator returned a key twice.
    #[error("The same key was given twice")]
    DuplicateKey,
    /// The keys of a slice or map do not strictly ascend by their bytes, or those of an array of the
    /// kind that ignores case by their bytes in lower case.
    #[error("Keys are not in strictly ascending order")]
    Unsorted,
    /// The encoding is longer than the array.
    #[error("Buffer too small")]
    BufferTooSmall,
    /// The encoding is shorter than the array. The field is its length in bytes.
    #[error("Buffer too large. Size needed: {0}")]
    BufferTooLarge(usize),
    /// The stack of the array builder is too small for the branches that are open at once.
    #[error("Need more stack")]
    StackExceeded,
    /// An allocation failed.
    #[error("Out of memory")]
    OutOfMemory,
}

impl ZeroTrieBuildError {
    /// Returns what to do about the error, in words that can follow its text and a colon.
    ///
    /// ```
    /// assert_eq!(rt; ZeroTrieBuildError::DuplicateKey.advice(), "give each key once");
    /// ```
    pub fn advice(&self) -> &'static str {
        match self {
            ZeroTrieBuildError::NonAsciiError => "take a kind of trie for keys of any bytes",
            ZeroTrieBuildError::CapacityExceeded =>
                "take the kind of extended capacity, or fewer pairs or suffixes",
            ZeroTrieBuildError::CouldNotSolvePerfectHash =>
                "for keys of random bytes, build an index, or write them in hex in a kind without hashed tables; else change a key",
            ZeroTrieBuildError::MixedCase => "lower-case the keys first",
            ZeroTrieBuildError::IllegalDelimiter => "take a delimiter that is in none of them",
            ZeroTrieBuildError::DuplicateKey => "give each key once",
            ZeroTrieBuildError::Unsorted => "sort the keys by their bytes, each once",
            ZeroTrieBuildError::BufferTooSmall => "take a larger array",
            ZeroTrieBuildError::BufferTooLarge(_) => "take an array of the size needed",
            ZeroTrieBuildError::StackExceeded => "take a larger stack",
            ZeroTrieBuildError::OutOfMemory => "free memory, or build from fewer pairs",
        }
    }
}

impl From<AllocError> for ZeroTrieBuildError {
    ghost from_gives = { λ _ e. e ≡ OutOfMemory };

    fn from(_: AllocError) -> Self {
        ZeroTrieBuildError::OutOfMemory
    }
}

impl<T: Drop> From<AllocFailed<T>> for ZeroTrieBuildError {
    ghost from_gives = { λ _ e. e ≡ OutOfMemory };

    fn from(_: AllocFailed<T>) -> Self {
        ZeroTrieBuildError::OutOfMemory
    }
}
