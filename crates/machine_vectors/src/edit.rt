//! An operator's edits, from the lines of a row. For edit_walk.rt of these tests.
use edit_texts::{EditList, read_edits};
use nc_number::NoMemory;
use std::alloc::Global;

/// The edits of a line; one that is not allowed fails its row.
pub(crate) fn edits_of(alloc: Global, line: &str) -> Result<EditList, NoMemory> {
    if line.len() > 1000 {
        return Err(NoMemory);
    }
    match read_edits(alloc, line.as_bytes()) {
        Ok(edits) => Ok(edits),
        Err(_fail) => Err(NoMemory),
    }
}
