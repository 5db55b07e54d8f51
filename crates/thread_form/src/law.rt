//! The law of what threads are written out as.
ghost use Rattle.std.specs.Prelude.{◌≡◌, ℕ, List};
ghost use Rattle.nc_text.specs.declared.tape.Block.{Block};
ghost use Rattle.plain_form.specs.declared.answer.FormAnswer.TheVariants.{Written};
ghost use Rattle.plain_form.specs.declared.answer.WrittenLine.{WrittenLine};
ghost use Rattle.plain_form.specs.declared.scene.Scene.{Scene};
ghost use Rattle.plain_form.specs.declared.settings.FormSettings.{FormSettings};
ghost use Rattle.thread_form.specs.Form.{thread_form};
ghost use Rattle.thread_form.specs.Written.{AreThreadLines};

/// A law: each line that a thread is written out as goes, or has the plain blocks of a cycle whose
/// passes have no fault. Each move of these is clear, and they lead from where the tool stands back
/// to there.
pub fn a_written_thread_is_clear()
    ensures { (blocks : List Block) (place : ℕ) (scene : Scene) (settings : FormSettings) (lines : List WrittenLine)
        → thread_form blocks place scene settings ≡ Written lines → AreThreadLines scene lines }
{}
