//! Bytes of a text, as a list that is owned.
use crate::list_of::ListOf;

/// Bytes of a text, owned. A contract sees the list of them.
pub type ByteList = ListOf<u8>;
