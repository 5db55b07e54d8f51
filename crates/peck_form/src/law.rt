//! The laws of what grooves and holes are written out as.
ghost use Rattle.std.specs.Prelude.{◌≡◌, ℕ, List, [], Option};
ghost use Rattle.code_tables.specs.declared.system.System.{System};
ghost use Rattle.nc_text.specs.declared.tape.Block.{Block};
ghost use Rattle.peck_cycle.specs.declared.along.Along.{Along};
ghost use Rattle.plain_form.specs.declared.answer.FormAnswer.TheVariants.{Written};
ghost use Rattle.plain_form.specs.declared.answer.WrittenLine.{WrittenLine};
ghost use Rattle.plain_form.specs.declared.scene.Scene.{Scene};
ghost use Rattle.plain_form.specs.declared.settings.FormSettings.{FormSettings};
ghost use Rattle.peck_form.specs.declared.hole.HoleSaid.{HoleSaid};
ghost use Rattle.peck_form.specs.Groove.{groove_answer};
ghost use Rattle.peck_form.specs.Run.{run_from};
ghost use Rattle.peck_form.specs.Written.{AreHoleLines, AreGrooveLines};

/// A law: each line that a run of holes is written out as has the hole of its block, as often as K
/// says (for K0 never), with what the blocks of the run have named up to it. The hole leads to its
/// bottom and back to the level in force: the run's start (G98), or the point R (G99). No move of it is
/// too deep or past the run's start, whichever of these levels the tool comes from. There is no further
/// line.
pub fn written_holes_are_safe()
    ensures { (blocks : List Block) (system : System) (settings : FormSettings) (said : HoleSaid)
        (lines : List WrittenLine) → run_from blocks system settings said [] ≡ Written lines
        → AreHoleLines system settings said blocks lines }
{}

/// A law: each line that a groove is written out as goes, or has the plain blocks of a groove
/// without a fault. No move of these is too deep, and they lead from where the tool stands back to
/// there.
pub fn a_written_groove_is_safe()
    ensures { (along : Along) (retreat : ℕ) (block : Block) (next : Option Block) (scene : Scene)
        (lines : List WrittenLine) → groove_answer along retreat block next scene ≡ Written lines
        → AreGrooveLines scene lines }
{}
