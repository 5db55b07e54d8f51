//! Why the bytes of a run's journal are none: the numbered causes of `Cause::BadRecord` (80). Which
//! of them holds is found in reading.rt, and when a journal is opened and done again.

ghost use Rattle.std.specs.Prelude.{◌≡◌};
ghost use Rattle.run_records.specs.Causes.{cause_number};

use thiserror::Error;

/// Why the bytes of a run's journal spell no header, no batch or no record that may stand there:
/// what is printed after the offset in a report of `Cause::BadRecord`.
#[derive(Clone, Copy, Debug, PartialEq, Eq, Error)]
pub enum BadRecord {
    /// The first byte of a record is the number of no path.
    #[error("no path")]
    NoPath,
    /// The second byte of a record is the number of no kind.
    #[error("no kind")]
    NoKind,
    /// A record has more than 32 stamps.
    #[error("too many stamps")]
    TooManyStamps,
    /// The bytes end before a record does, or a batch goes on after its last record.
    #[error("wrong length")]
    WrongLength,
    /// A batch is empty, or counts no records or more than 64.
    #[error("wrong count")]
    WrongCount,
    /// A record can't follow those before it.
    #[error("not legal")]
    NotLegal,
    /// The first body is no header.
    #[error("no header")]
    NoHeader,
    /// There are more records than a run may have.
    #[error("too many records")]
    TooManyRecords,
    /// The tapes of the header are refused.
    #[error("refused tapes")]
    RefusedTapes,
    /// What an edit sets is not there, or what it gets is out of range.
    #[error("bad edit")]
    BadEdit,
}

impl BadRecord {
    /// The number of the cause, from 1 to 10. Of several causes of one record the least is told.
    pub fn number(self) -> u8
        ensures { result ≡ cause_number self }
    {
        match self {
            BadRecord::NoPath => 1,
            BadRecord::NoKind => 2,
            BadRecord::TooManyStamps => 3,
            BadRecord::WrongLength => 4,
            BadRecord::WrongCount => 5,
            BadRecord::NotLegal => 6,
            BadRecord::NoHeader => 7,
            BadRecord::TooManyRecords => 8,
            BadRecord::RefusedTapes => 9,
            BadRecord::BadEdit => 10,
        }
    }
}
