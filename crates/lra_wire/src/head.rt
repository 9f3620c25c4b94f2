//! The limits of a head.

/// Largest number of bytes of a head.
pub(crate) const MAX_HEAD: usize = 8192;

/// Largest number of fields of a head, and of a trailer.
pub(crate) const MAX_FIELDS: usize = 64;
