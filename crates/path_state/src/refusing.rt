//! The law on writes of variables that are protected (alarm 31) and of left sides whose number names
//! none (30). For readers: no other crate calls it; docs/GUARANTEES.md names it and this file.
ghost use Rattle.path_state.specs.Protected.{WritesAreRefused};

/// A write is alarm 31 exactly if the variable is protected, as the table of variables says; a left
/// side whose number is written out is alarm 30 exactly if that names none in the system of codes
/// that is in force. Of calculated numbers, and of alarms 33 and 41, nothing is said.
pub fn a_protected_variable_is_not_written()
    ensures { WritesAreRefused }
{}
