//! What holds of journals, whatever made them; none of these calls does anything.

ghost use Rattle.std.specs.Prelude.{◌≡◌, ◌+◌, ◌*◌, ◌≤◌, List, ℕ, length};
ghost use Rattle.run_records.specs.Entries.{Entry};
ghost use Rattle.run_records.specs.declared.header.Header.{Header};
ghost use Rattle.run_records.specs.declared.version.Version.{Version};
ghost use Rattle.run_records.specs.Headers.{header_bytes};
ghost use Rattle.run_journal.specs.Batches.{records_bytes};
ghost use Rattle.run_journal.specs.Meaning.{Meaning, StandsFor};
ghost use Rattle.run_journal.specs.Stands.{Stands, Holds};

use disk_model::Disk;

/// An image stands for one thing: no run, or an entry that is cut short at one offset, or bodies
/// that are bad for one cause at one offset, or one header and one list of records.
pub fn a_journal_stands_for_one_thing()
    ensures { (image : List ℕ) (a b : Meaning) → StandsFor a image → StandsFor b image → a ≡ b }
{}

/// Whatever a crash may leave of a disk that holds these records stands for them.
pub fn a_held_journal_leaves_its_records<D: Disk>()
    ensures { (disk : D) (header : Header) (version : Version) (entries : List Entry) (end : ℕ)
        → Holds header version entries (D.state disk) end → (c : List ℕ) → (D.state disk).image c
        → Stands header entries c }
{}

/// A journal takes at most five bytes and its header, eight bytes for the raising mark, and six
/// bytes beside its own for each record.
pub fn a_held_journal_is_small<D: Disk>()
    ensures { (disk : D) (header : Header) (version : Version) (entries : List Entry) (end : ℕ)
        → Holds header version entries (D.state disk) end
        → end ≤ 13 + length (header_bytes header) + length (records_bytes entries) + 6 * length entries }
{}
