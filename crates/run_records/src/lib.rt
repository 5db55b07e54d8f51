//! The records of a run, and the header before them, as bytes.
//!
//! A record is what one path did in one step: its kind, and for each read of a shared variable the
//! number of records there were at that moment. Or it is an edit, a correction of an offset or a
//! variable that an operator made between two steps. The layer above leans on this: bytes equal
//! entry and header both ways, each has one spelling, and a spelling is read again whatever follows
//! it. What a record means is not known here.
#![tactic(auto)]

mod bad_record;
mod edit;
mod entry;
mod head;
mod header;
mod laws;
mod lists;
mod numbers;
mod reading;
mod version;

pub use bad_record::BadRecord;
pub use edit::Edit;
pub use entry::{Entry, EntryKind, LONGEST_RECORD, put_entry};
pub use header::{Header, HeaderFault, put_header, take_header};
pub use lists::{EntryList, StampList};
pub use nc_number::{ByteList, NoMemory};
pub use reading::take_entry;
pub use version::Version;

// For users of the library: laws that no crate of the program takes.
pub use laws::{a_header_has_one_spelling, an_entry_has_one_spelling};
