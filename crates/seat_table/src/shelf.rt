//! The one slot of a table, and the table on the heap: it is put in when the seats are made, and
//! taken out if that fails. For seats.rt of this crate. (This is no shelf of files: see nc_outside
//! for that.)
ghost use Rattle.std.specs.Prelude.{◌≡◌, [], ◌∷◌, IfOk, IfErr, Some};

use std::alloc::{AllocFailed, Global};

/// The table, moved to the heap. If memory ran out, it comes back as the error.
pub(crate) fn lift<C>(alloc: Global, table: C) -> Result<Box<C>, C>
    ensures ok { IfOk result (λ b. b.value ≡ table) }
    ensures err { IfErr result (λ t. t ≡ table) }
{
    match Box::new(alloc, table) {
        Ok(lifted) => Ok(lifted),
        Err(AllocFailed { value }) => Err(value),
    }
}

/// A list of one slot with the table in it. If memory ran out, the table comes back as the error.
pub(crate) fn put_in<C>(alloc: Global, table: C) -> Result<Vec<Option<C>>, C>
    ensures ok { IfOk result (λ v. v.items ≡ Some table ∷ []) }
    ensures err { IfErr result (λ t. t ≡ table) }
{
    let mut slots = Vec::new(alloc);
    if let Err(failed) = slots.push(Some(table)) {
        let AllocFailed { value } = failed;
        slots.destroy_empty();
        let Some(table) = value else { unreachable!() };
        return Err(table);
    }
    Ok(slots)
}

/// The table out of the only slot.
pub(crate) fn take_out<C>(mut slots: Vec<Option<C>>) -> C
    requires { (c : C) × (slots.items ≡ Some c ∷ []) }
    ensures { slots.items ≡ Some result ∷ [] }
{
    let Some(only) = slots.pop() else {
        unreachable!()
    };
    slots.destroy_empty();
    let Some(table) = only else { unreachable!() };
    table
}
