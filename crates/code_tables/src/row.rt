//! A row of a code table, and which of several rows of a block counts.
ghost use Rattle.std.specs.Prelude.{◌≡◌, ◌≢◌, ◌↔◌, ◌==◌, if◌then◌else◌, IsNone, IfSome, Some, All, Contains};
ghost use Rattle.code_tables.specs.Codes.{last_of_group};

use crate::kind::CodeKind;

/// A row of a code table: the number after G, the modal group, and what the code does.
#[derive(Clone, Copy, Debug, PartialEq, Eq)]
pub struct Row {
    /// The number after G.
    pub code: u16,
    /// Its modal group (group.rt).
    pub group: u8,
    /// What the code does.
    pub kind: CodeKind,
}

/// Of these rows, in a block's order, the one of the group that counts: the last.
pub fn last_of_group(rows: &[Row], group: u8) -> Option<Row>
    ensures last { result ≡ last_of_group rows.now group }
    ensures found { IfSome result (λ row. Contains rows.now row × (row.group ≡ group)) }
    ensures none { IsNone result ↔ All (λ row. row.group ≢ group) rows.now }
{
    let mut last = None;
    for row in rows {
        last = row.or_before(last, group);
    }
    last
}

impl Row {
    /// The last row of the group up to this one, where `last` is the last of those before it.
    pub(crate) fn or_before(&self, last: Option<Row>, group: u8) -> Option<Row>
        ensures { result ≡ (if self.now.group == group then Some self.now else last) }
    {
        if self.group == group {
            Some(*self)
        } else {
            last
        }
    }
}
