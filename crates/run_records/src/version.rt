//! Versions of the journal, which the header begins with; docs/JOURNAL.md has what differs.
ghost use Rattle.std.specs.Prelude.{◌≡◌};
ghost use Rattle.run_records.specs.Headers.{version_number, header_mark};

/// How the journal of a run may go on. A run of version 1 has no edits; it is raised before its
/// first one.
#[derive(Clone, Copy, Debug, PartialEq, Eq)]
pub enum Version {
    /// Version 1: steps alone.
    One,
    /// Version 2: steps and an operator's edits.
    Two,
}

impl Version {
    /// The number of the version, 1 or 2.
    pub fn number(self) -> u8
        ensures { result ≡ version_number self }
    {
        match self {
            Version::One => 1,
            Version::Two => 2,
        }
    }

    /// The mark that a header of this version begins with: `TWIN`, and the version in two bytes.
    pub(crate) fn mark(self) -> [u8; 6]
        ensures { result ≡ header_mark self }
    {
        [b'T', b'W', b'I', b'N', 0, self.number()]
    }
}
