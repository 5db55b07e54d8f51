//! An edit as the four numbers that its record has: an edit becomes numbers, and numbers that are
//! those of an edit become one. For entry.rt and reading.rt of this crate alone.

ghost use Rattle.std.specs.Prelude.{◌≡◌, IfSome};
ghost use Rattle.run_records.specs.Edits.{numbers_of, offset_numbers, variable_numbers, slot_of, var_of, edit_with, IsEdit};

use crate::Edit;
use common_vars::CommonNumber;
use nc_number::{Point, Value, Var};
use offset_store::{Offset, Slot, ToolNumber, WorkNumber};

/// What is set, by its kind and its number, and two numbers that say what it gets.
#[derive(Clone, Copy, Debug)]
pub(crate) struct EditNumbers {
    /// 1 a work offset, 2 a geometry offset, 3 a wear offset, 4 a common variable.
    pub(crate) what: u8,
    /// The number of the offset, where work offset 0 is the external one and 1 to 6 are those of
    /// G54 to G59, or of the variable.
    pub(crate) number: u16,
    /// Of an offset X in 0.001 mm; of a variable 0 if it is made vacant, and 1 if it gets a value.
    pub(crate) a: i64,
    /// Of an offset Z in 0.001 mm; of a variable its value in millionths, or 0.
    pub(crate) b: i64,
}

/// The numbers of an edit.
pub(crate) fn numbers_of(edit: &Edit) -> EditNumbers
    ensures numbers { result ≡ numbers_of edit.now }
    ensures edit { IsEdit edit.now }
{
    match edit {
        Edit::Offset { slot, to } => offset_numbers(slot, to),
        Edit::Common { variable, to } => variable_numbers(variable, to),
    }
}

/// The numbers of the edit that sets this offset to these lengths.
fn offset_numbers(slot: &Slot, to: &Offset) -> EditNumbers
    ensures numbers { result ≡ offset_numbers slot.now to.now }
    ensures edit { IsEdit (Edit.Offset slot.now to.now) }
{
    let Point { x: a, z: b } = to.get();
    let (what, number) = match slot {
        Slot::Work(n) => (1, n.get()),
        Slot::Geometry(n) => (2, n.get()),
        Slot::Wear(n) => (3, n.get()),
    };
    EditNumbers {
        what,
        number: number as u16,
        a,
        b,
    }
}

/// The numbers of the edit that sets this variable to this value.
fn variable_numbers(variable: &CommonNumber, to: &Var) -> EditNumbers
    ensures numbers { result ≡ variable_numbers variable.now to.now }
    ensures edit { IsEdit (Edit.Common variable.now to.now) }
{
    let number = variable.get() as u16;
    match to {
        Var::Vacant => EditNumbers {
            what: 4,
            number,
            a: 0,
            b: 0,
        },
        Var::Is(value) => EditNumbers {
            what: 4,
            number,
            a: 1,
            b: value.micro(),
        },
    }
}

/// The edit of these numbers, if they are those of one.
pub(crate) fn edit_with(numbers: &EditNumbers) -> Option<Edit>
    ensures { result ≡ edit_with numbers.now }
{
    if numbers.what == 4 {
        let variable = CommonNumber::of(u32::from(numbers.number))?;
        let to = var_of(numbers.a, numbers.b)?;
        Some(Edit::Common { variable, to })
    } else {
        let slot = slot_of(numbers.what, numbers.number)?;
        let to = Offset::of(Point {
            x: numbers.a,
            z: numbers.b,
        })?;
        Some(Edit::Offset { slot, to })
    }
}

/// The offset that these numbers name, if there is one.
fn slot_of(what: u8, number: u16) -> Option<Slot>
    ensures { result ≡ slot_of what number }
{
    let number = i64::from(number);
    match what {
        1 => WorkNumber::of(number).map(|n| Slot::Work(n)),
        2 => ToolNumber::of(number).map(|n| Slot::Geometry(n)),
        3 => ToolNumber::of(number).map(|n| Slot::Wear(n)),
        _ => None,
    }
}

/// What a variable gets by these numbers: vacant, or a value; none if they stand for neither.
fn var_of(a: i64, b: i64) -> Option<Var>
    ensures { result ≡ var_of a b }
{
    if a == 0 {
        if b == 0 { Some(Var::Vacant) } else { None }
    } else if a == 1 {
        Value::of(b).map(|value| Var::Is(value))
    } else {
        None
    }
}
