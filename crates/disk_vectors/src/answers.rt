//! Whether a call of a disk answered what a row wants.
//! medium_tests.rt and system_tests.rt use it.
use disk_model::Failed;

/// Whether the answer is what the row wants: `done` or `failed`.
pub(crate) fn is_done(answer: Result<(), Failed>, wanted: &str) -> bool {
    match answer {
        Ok(()) => wanted == "done",
        Err(Failed) => wanted == "failed",
    }
}

/// Whether the answer is what the row wants: a number or `failed`.
pub(crate) fn is_count(answer: Result<u64, Failed>, wanted: &str) -> bool {
    match answer {
        Ok(count) => wanted.parse::<u64>() == Ok(count),
        Err(Failed) => wanted == "failed",
    }
}
