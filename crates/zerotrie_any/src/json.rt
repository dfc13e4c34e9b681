//! Tries as JSON values: an object from keys to numbers, or a list of pairs.

ghost use Rattle.std.specs.Prelude.{◌≡◌};
ghost use Rattle.zerotrie_any.specs.Json.{JsonKeepsPairs};
ghost use Rattle.zerotrie_any.specs.JsonCalls.{IsOfBuild};
ghost use Rattle.zerotrie_any.specs.declared.json.JsonError.TheVariants.{OutOfMemory};

mod no_pair;
mod reading;
mod writing;

pub use no_pair::{NoPair, why_json_refused};
pub use reading::bytes_from_json;
use std::alloc::{AllocError, AllocFailed};
use thiserror::Error;
pub use writing::json_of;
use zerotrie_core::ZeroTrieBuildError;

/// A JSON value was not read as a trie, or a trie not written as one.
///
/// ```
/// let value = Value::from_str(rt.alloc(), r#"{"port":8080,"share":1.5}"#)?;
/// let error = bytes_from_json::<Simple>(rt.alloc(), &value).err();
/// assert!(rt; error == Some(JsonError::Shape));
/// ```
#[derive(Clone, PartialEq, Eq, Debug, Drop, Error)]
pub enum JsonError {
    /// The value is neither an object from text to numbers nor a list of pairs.
    /// `why_json_refused` returns the part of it that is no pair.
    #[error("Shape")]
    Shape,
    /// A build of the pairs in the value returned this error, which is never `OutOfMemory`.
    #[error("Build")]
    Build(ZeroTrieBuildError),
    /// An allocation failed.
    #[error("OutOfMemory")]
    OutOfMemory,
}

impl JsonError {
    /// Returns what the error means, and what to do about it.
    pub fn advice(&self) -> &'static str {
        match self {
            JsonError::Shape => {
                "the value is no pairs: give an object from text to whole numbers, or a list of pairs of a key and a whole number"
            }
            JsonError::Build(error) => error.advice(),
            JsonError::OutOfMemory => "out of memory: free memory, or give fewer pairs",
        }
    }
}

impl From<AllocError> for JsonError {
    ghost from_gives = { λ _ e. e ≡ OutOfMemory };

    fn from(_: AllocError) -> Self {
        JsonError::OutOfMemory
    }
}

impl<T: Drop> From<AllocFailed<T>> for JsonError {
    ghost from_gives = { λ _ e. e ≡ OutOfMemory };

    fn from(_: AllocFailed<T>) -> Self {
        JsonError::OutOfMemory
    }
}

impl From<ZeroTrieBuildError> for JsonError {
    ghost from_gives = { λ e j. IsOfBuild e j };

    fn from(error: ZeroTrieBuildError) -> Self {
        if error == ZeroTrieBuildError::OutOfMemory {
            JsonError::OutOfMemory
        } else {
            JsonError::Build(error)
        }
    }
}

/// States that the pairs in the JSON value of a map are the map's, so what was written can be read
/// back.
///
/// Does nothing: a call brings the law into a proof.
pub fn json_keeps_the_pairs()
    ensures { JsonKeepsPairs }
{}
