//! Where a node has what it keeps.

/// The word of a node that has its key.
pub(crate) const KEY: u32 = 0;

/// The word of a node that has the key's value.
pub(crate) const VALUE: u32 = 1;

/// The word of a node that names the next one of its chain, and 0 in the last.
pub(crate) const NEXT: u32 = 2;
