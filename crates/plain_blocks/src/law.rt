//! What holds of a tape that was written out. The laws are contracts of functions that do nothing.
ghost use Rattle.std.specs.Prelude.{◌≡◌, List, Ok, All};
ghost use Rattle.nc_text.specs.declared.tape.Program.{Program};
ghost use Rattle.plain_blocks.specs.declared.step.Step.{Step};
ghost use Rattle.plain_blocks.specs.declared.walk.Rules.{Rules};
ghost use Rattle.plain_blocks.specs.Calm.{AreOwn, AreCalm, kept_steps};
ghost use Rattle.plain_blocks.specs.Order.{order_tape};
ghost use Rattle.plain_blocks.specs.Walk.{steps_of};

/// Every line of a tape stays whose blocks are all of this control's language, without a thread and
/// a cut along a taper, which it reads and does not run.
pub fn what_is_own_stays()
    ensures { (rules : Rules) (tape : List Program) → AreOwn rules.dialect tape
        → steps_of rules tape ≡ Ok (kept_steps tape) }
{}

/// Only lines give way whose block goes on to the next one, and what is written in their place, by
/// whatever form, is of this control's language and goes on to the next block too. So no wait, end,
/// call, return, jump or loop goes, comes or moves.
pub fn no_wait_moves()
    ensures { (rules : Rules) (tape : List Program) (all : List (List Step)) → steps_of rules tape ≡ Ok all
        → AreCalm rules.dialect (order_tape rules.dialect tape) tape all }
{}
