//! What is so of the faults of the order of blocks, whatever code looks for them: 65 and 66 deny one
//! list of labels, and a tape has one first fault or none. tape.rt calls all.
ghost use Rattle.std.specs.Prelude.{List};
ghost use Rattle.block_order.specs.declared.program.ControlProgram.{ControlProgram};
ghost use Rattle.flow_laws.specs.Answers.{HasOneFirst, HasSomeFirst};
ghost use Rattle.flow_laws.specs.Waits.{AreWaitFaultsExact};

/// A law: a tape has no fault of waits exactly if it has one list of labels, whatever its variables
/// hold.
///
/// No block is refused by 65 exactly if no jump, no end of a loop and no return leads from one
/// stretch (the blocks up to and with the next wait, end, M99 without P, or call of a loud program)
/// to another; and none by 66 exactly if no chain of nine calls of loud programs, which come to a
/// wait or an end themselves or by their calls, begins in the main program.
pub fn a_tape_has_one_list_where_no_wait_is_at_fault()
    ensures { (tape : List ControlProgram) → AreWaitFaultsExact tape }
{}

/// A law: the first fault of a tape is one line and one cause.
pub fn a_tape_has_one_first_fault()
    ensures { HasOneFirst }
{}

/// A law: no tape is neither sound nor has a first fault.
pub fn no_tape_is_unsound_without_a_fault()
    ensures { HasSomeFirst }
{}
