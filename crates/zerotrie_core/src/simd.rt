//! Reads many bytes at once, which only speed asks for.

pub(crate) mod edge_search;
pub(crate) mod lanes;
pub(crate) mod literals;
