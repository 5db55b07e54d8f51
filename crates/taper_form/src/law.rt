//! The laws of what cuts along tapers are written out as.
ghost use Rattle.std.specs.Prelude.{◌≡◌, List, []};
ghost use Rattle.code_tables.specs.declared.system.System.{System};
ghost use Rattle.nc_number.specs.declared.point.Point.{Point};
ghost use Rattle.nc_text.specs.declared.tape.Block.{Block};
ghost use Rattle.plain_form.specs.declared.answer.FormAnswer.TheVariants.{Written};
ghost use Rattle.plain_form.specs.declared.answer.WrittenLine.{WrittenLine};
ghost use Rattle.thread_form.specs.declared.taper.TaperSaid.{TaperSaid};
ghost use Rattle.taper_form.specs.declared.cut.TaperCut.{TaperCut};
ghost use Rattle.taper_form.specs.declared.kind.TaperKind.{TaperKind};
ghost use Rattle.taper_form.specs.Cuts.{cut_blocks};
ghost use Rattle.taper_form.specs.Runs.{run_from};
ghost use Rattle.taper_form.specs.Written.{IsRound, AreTaperLines};

/// A law: the blocks of a cut are four moves. The first leads to where the taper's line begins, the
/// second is the cut to its end, and the last one ends where the tool stood before.
#[tactic(auto, using(crate::proofs::Rounds::cut_round))]
pub fn a_taper_is_cut_as_its_words_say()
    ensures { (cut : TaperCut) → IsRound cut (cut_blocks cut) }
{}

/// A law: each line that a run of such cuts is written out as has the cut of its block, with the X, Z,
/// R and F that the blocks of the run have named up to it, and a feed above 0. Its line lies within
/// the travel, and the start does not lie between its ends. There is no further line.
pub fn a_written_taper_is_that_of_its_words()
    ensures { (blocks : List Block) (kind : TaperKind) (system : System) (start : Point) (said : TaperSaid)
        (lines : List WrittenLine) → run_from blocks kind system start said [] ≡ Written lines
        → AreTaperLines kind start said blocks lines }
{}
