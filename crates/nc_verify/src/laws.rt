//! Any three texts have exactly one answer: they are accepted, or they have one refusal. Who calls
//! such a function has its law; it does nothing when it runs.
ghost use Rattle.std.specs.Prelude.{◌≡◌, List};
ghost use Rattle.cell_settings.specs.Cell.{Cell};
ghost use Rattle.flow_laws.specs.Answers.{CantBothFail};
ghost use Rattle.tape_flow.specs.Forms.{ProgramForm};
ghost use Rattle.nc_verify.specs.declared.refusal.Refusal.{Refusal};
ghost use Rattle.nc_verify.specs.Verdict.{AreAccepted, IsRefusalOf, Texts};

use block_order::a_tape_without_faults_is_unforked;
use flow_laws::{
    a_refused_tape_has_one_refusal, lines_of_blocks_rise, no_tape_is_without_an_answer,
};
use label_list::a_pair_is_accepted_by_its_lists;
use tape_flow::an_accepted_tape_is_not_refused;

/// No three texts are both accepted and refused.
pub fn accepted_texts_are_not_refused()
    ensures { (texts : Texts) (cell : Cell) (left right : List ProgramForm) (refusal : Refusal)
        → AreAccepted texts cell left right → IsRefusalOf texts refusal → ⊥ }
{
    an_accepted_tape_is_not_refused();
    a_pair_is_accepted_by_its_lists();
}

/// Three texts have at most one refusal: one number, one path, one line of it, and for labels that
/// differ one line of the other path and one count of equal labels before.
pub fn texts_have_one_refusal()
    ensures { (texts : Texts) (refusal other : Refusal) → IsRefusalOf texts refusal → IsRefusalOf texts other
        → refusal ≡ other }
{
    an_accepted_tape_is_not_refused();
    lines_of_blocks_rise();
    a_refused_tape_has_one_refusal();
}

/// No three texts are neither accepted nor refused: with the two laws above, any three texts have
/// exactly one answer.
pub fn no_texts_are_without_an_answer()
    ensures { (texts : Texts)
        → CantBothFail ((cell : Cell) × (left : List ProgramForm) × (right : List ProgramForm)
        × AreAccepted texts cell left right) ((refusal : Refusal) × IsRefusalOf texts refusal) }
{
    no_tape_is_without_an_answer();
    a_tape_without_faults_is_unforked();
    a_pair_is_accepted_by_its_lists();
}
