//! The numbers of a row.
use std::alloc::{AllocError, Global};

/// The numbers of a text, between blanks; a word that is no number counts 0.
pub(crate) fn numbers(alloc: Global, text: &str) -> Result<Vec<i64>, AllocError> {
    let mut all = Vec::new(alloc);
    for word in text.split_whitespace() {
        all.push(word.parse().unwrap_or(0))?;
    }
    Ok(all)
}

/// The number of this place, or 0.
pub(crate) fn number_at(all: &[i64], place: usize) -> i64 {
    all.get(place).copied().unwrap_or(0)
}
