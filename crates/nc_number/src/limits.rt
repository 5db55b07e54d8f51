//! What a run, a tape and a block may have at most: limits that crates above and their contracts
//! keep.

/// Records of a run.
pub const MOST_RECORDS: u32 = 4_000_000;

/// Records that wait for one write of the journal.
pub const MOST_PENDING: usize = 64;

/// Shared variables that one block reads; a block with more `#` signs is refused.
pub const MOST_READS: usize = 32;

/// Blocks of a tape.
pub const MOST_BLOCKS: usize = 20_000;

/// Bytes of a tape.
pub const LONGEST_TAPE: usize = 4_194_304;

/// Bytes of a line of a tape.
pub const LONGEST_LINE: usize = 512;

/// Brackets that are open at one place of an expression.
pub const MOST_BRACKETS: u32 = 5;

/// Labels of a path.
pub const MOST_LABELS: usize = 65_536;

/// The greatest whole number of a value, of a word or of a code.
pub const LARGEST_WHOLE: u32 = 99_999_999;

/// The last sequence number (N) of a block.
pub const LAST_SEQUENCE: u32 = 99_999;

/// The greatest magnitude of a value, in millionths: 99,999,999.999999.
pub const LARGEST_MICRO: u64 = 99_999_999_999_999;

/// The longest length that a number of a tape or a value can make, in 0.001 mm: 100 km.
pub const LONGEST_SAID: u64 = 100_000_000_000;
