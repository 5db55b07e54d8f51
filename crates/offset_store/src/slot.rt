//! Which offset of a path is meant, as a type, and which one G10 names by its number.
ghost use Rattle.std.specs.Prelude.{◌≡◌};
ghost use Rattle.offset_store.specs.Slots.{work_slot, tool_slot};

use crate::fault::OffsetFault;
use crate::number::{ToolNumber, WorkNumber};
use nc_number::Cause;

/// What is added to the number of a geometry offset when a tape sets it.
const GEOMETRY: i64 = 10_000;

/// One of the offsets of a path.
#[derive(Clone, Copy, Debug, PartialEq, Eq)]
pub enum Slot {
    /// A work offset; number 0 is the external one.
    Work(WorkNumber),
    /// The geometry of a tool offset.
    Geometry(ToolNumber),
    /// The wear of a tool offset.
    Wear(ToolNumber),
}

/// The two forms of G10.
#[derive(Clone, Copy, Debug, PartialEq, Eq)]
pub enum OffsetForm {
    /// `G10 L2 P n` sets a work offset.
    WorkOffset,
    /// `G10 P n` sets a wear or a geometry offset.
    ToolOffset,
}

impl Slot {
    ghost use Rattle.offset_store.specs.Slots.{slot_named};

    /// The offset that G10 names by its P: with L2 work offset P, from 0 to 6; without it wear
    /// offset P, from 1 to 64, or geometry offset P - 10,000, where P is from 10,001 to 10,064.
    /// Alarm 40 exactly where there is none of these, a P that is absent or vacant among them.
    pub fn named(form: OffsetForm, p: Option<i64>) -> Result<Self, OffsetFault>
        ensures { result ≡ slot_named form p }
    {
        let slot = match (form, p) {
            (OffsetForm::WorkOffset, Some(n)) => work_slot(n),
            (OffsetForm::ToolOffset, Some(n)) => tool_slot(n),
            (_, None) => None,
        };
        slot.ok_or(OffsetFault::of(Cause::OffsetNumber))
    }
}

/// The work offset of a number, if it is one of 0 to 6.
fn work_slot(n: i64) -> Option<Slot>
    ensures { result ≡ work_slot n }
{
    WorkNumber::of(n).map(|number| Slot::Work(number))
}

/// The tool offset of a number, if it is one of 1 to 64 (wear) or of 10,001 to 10,064 (geometry).
fn tool_slot(n: i64) -> Option<Slot>
    ensures { result ≡ tool_slot n }
{
    if n > GEOMETRY {
        ToolNumber::of(n - GEOMETRY).map(|number| Slot::Geometry(number))
    } else {
        ToolNumber::of(n).map(|number| Slot::Wear(number))
    }
}
