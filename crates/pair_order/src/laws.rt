//! The law of every two tapes, for the crates above: who calls the function has the law.
ghost use Rattle.std.specs.Prelude.{List};
ghost use Rattle.block_order.specs.declared.program.ControlProgram.{ControlProgram};
ghost use Rattle.pair_order.specs.Pairs.{IsPair, IsNeverStuck};

use block_order::each_step_keeps_the_labels;

/// Two tapes have one list of labels each, and these are equal. Then wherever steps lead, both paths
/// have ended, or the pair can take a step, or a path stands at an alarm. No steps lead to two waits
/// of different codes, or to a path that waits for one that has ended. And the paths meet as the list
/// says.
///
/// A step leads one path where the order of its blocks allows, or both paths past waits at which
/// they stand. Nothing else is asked of a machine.
pub fn no_pair_waits_in_vain()
    ensures { (left right : List ControlProgram) → IsPair left right → IsNeverStuck left right }
{
    each_step_keeps_the_labels();
}
