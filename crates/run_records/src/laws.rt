//! Laws of spelling: the bytes of a record or a header are those of one alone. No crate calls them.

ghost use Rattle.std.specs.Prelude.{◌≡◌, ◌++◌, ℕ, List, None};
ghost use Rattle.run_records.specs.Entries.{Entry};
ghost use Rattle.run_records.specs.declared.header.Header.{Header};
ghost use Rattle.run_records.specs.Spelling.{entry_bytes, IsEntry};
ghost use Rattle.run_records.specs.Headers.{header_bytes, IsShort};
ghost use Rattle.run_records.specs.Causes.{cause_of};

/// The bytes of a record are those of one record alone, and no prefix of another's; whatever
/// follows them, no cause says that they are none.
pub fn an_entry_has_one_spelling()
    ensures one { (entry other : Entry) (rest more : List ℕ) → IsEntry entry → IsEntry other
        → entry_bytes entry ++ rest ≡ entry_bytes other ++ more
        → (entry ≡ other) × (rest ≡ more) }
    ensures read_again { (entry : Entry) (rest : List ℕ) → IsEntry entry → cause_of (entry_bytes entry ++ rest) ≡ None }
{}

/// A header has one spelling: two headers with the same bytes are the same.
pub fn a_header_has_one_spelling()
    ensures { (header other : Header) → IsShort header → IsShort other
        → header_bytes header ≡ header_bytes other → header ≡ other }
{}
