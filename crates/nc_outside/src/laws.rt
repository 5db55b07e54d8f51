//! A law of the lists of calls that a stepper had: how two of them add up.
ghost use Rattle.std.specs.Prelude.{◌≡◌, ◌++◌, List, Option};
ghost use Rattle.nc_outside.specs.declared.halt.Next.{Next};
ghost use Rattle.nc_outside.specs.declared.stepper.Call.{Call};
ghost use Rattle.nc_outside.specs.Calls.{last_answer_behind, told_by};

/// Of two lists of calls in a row, what the steps answered for the turret is that of the first and
/// then that of the second. The last answer is that of the second, or that of the first if the second has none.
pub fn calls_add_up()
    ensures told { (before behind : List Call)
        → told_by (before ++ behind) ≡ told_by before ++ told_by behind }
    ensures last { (old : Option Next) (before behind : List Call)
        → last_answer_behind old (before ++ behind) ≡ last_answer_behind (last_answer_behind old before) behind }
{}
