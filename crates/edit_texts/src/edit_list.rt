//! The edits of a text, each with its path, 64 at most. reading.rt makes the list.
ghost use Rattle.std.specs.Prelude.{◌≡◌, ◌≤◌, [], length, Some, None, if◌then◌else◌, IfOk};
ghost use Rattle.edit_texts.specs.Edits.{with_said};

use crate::entry::Entry;
use nc_number::{NoMemory, Path};
use run_records::Edit;
use std::alloc::Global;
use std::marker::Model;

/// The most edits of a text: as many as one batch of the journal may have records.
pub const MOST_EDITS: usize = 64;

/// An edit of an offset or a variable of a path.
#[derive(Clone, Copy, Debug, PartialEq, Eq)]
pub struct PathEdit {
    /// The path whose offset or variable is set.
    pub path: Path,
    /// What is set, and to what.
    pub edit: Edit,
}

/// The edits of a text, in order, at most 64.
#[derive(Debug, Drop)]
pub struct EditList {
    /// The edits, in order.
    items: Vec<PathEdit>,
}

impl Model for EditList {
    ghost use Rattle.std.specs.Prelude.{◌≤◌, List, length};
    ghost use Rattle.edit_texts.specs.declared.edit_list.PathEdit.{PathEdit};
    ghost use Rattle.edit_texts.specs.declared.edit_list.TheConstants.{MOST_EDITS};

    ghost Value = { List PathEdit };

    ghost view = { λ l. l.items.items };

    ghost invariant = { λ l. length l.items.items ≤ MOST_EDITS };
}

impl EditList {
    /// A list without edits.
    pub(crate) fn empty(alloc: Global) -> Self
        ensures { result ≡ [] }
    {
        EditList {
            items: Vec::new(alloc),
        }
    }

    /// The edits, in order.
    pub fn as_slice(&self) -> &[PathEdit]
        ensures edits { result.now ≡ self.now }
        ensures few { length self.now ≤ MOST_EDITS }
    {
        self.items.as_slice()
    }

    /// Takes what a line says after the edits before it, and tells whether it is allowed there: the
    /// 65th edit is not. The error is that memory ran out.
    pub(crate) fn take(&mut self, said: Option<Entry>) -> Result<bool, NoMemory>
        ensures { IfOk result (λ taken. with_said self.old said ≡ (if taken then Some self.new else None)) }
    {
        match said {
            None => Ok(false),
            Some(Entry::Nothing) => Ok(true),
            Some(Entry::Edit(edit)) => {
                if self.items.len() >= MOST_EDITS {
                    return Ok(false);
                }
                self.items.push(edit)?;
                Ok(true)
            }
        }
    }
}
