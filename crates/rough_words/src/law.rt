//! The law of what roughing is written out as.
ghost use Rattle.std.specs.Prelude.{◌≡◌, ℕ, List};
ghost use Rattle.nc_text.specs.declared.tape.Block.{Block};
ghost use Rattle.plain_form.specs.declared.answer.FormAnswer.TheVariants.{Written};
ghost use Rattle.plain_form.specs.declared.answer.WrittenLine.{WrittenLine};
ghost use Rattle.plain_form.specs.declared.scene.Scene.{Scene};
ghost use Rattle.plain_form.specs.declared.settings.FormSettings.{FormSettings};
ghost use Rattle.rough_words.specs.Form.{rough_form};
ghost use Rattle.rough_words.specs.Written.{AreCutLines};

/// A law: each line that roughing is written out as goes, or has the plain blocks of a form without a
/// fault that starts where the tool stands: all of G71's or G72's, those of G70, or, pass after pass, the
/// contour that is moved out for each pass of G73. Counted in any
/// number of parts of 0.001 mm, no point of a pass lies inside the outer bound of the contour with its
/// allowances, none of the rest inside its inner bound, none of G70 inside the inner bound of the contour, and
/// none of a pass of G73 inside that of the contour that is moved out for it.
pub fn a_written_contour_is_not_entered()
    ensures { (blocks : List Block) (place : ℕ) (scene : Scene) (settings : FormSettings) (lines : List WrittenLine)
        → rough_form blocks place scene settings ≡ Written lines → AreCutLines scene lines }
{}
