//! What holds of every pair that is judged for its waits: exactly one answer, no path that waits in
//! vain at any position of the block-skip switches, and nothing refused that a run accepts, if both
//! texts are plain and name no free switch (specs/Widening.antt). Who
//! calls such a function has its law; it does nothing when it runs.
ghost use Rattle.std.specs.Prelude.{◌≡◌, ℕ, List};
ghost use Rattle.cell_settings.specs.Cell.{Cell};
ghost use Rattle.tape_flow.specs.Forms.{ProgramForm};
ghost use Rattle.nc_verify.specs.Verdict as run;
ghost use Rattle.nc_verify.specs.Verdict.{Texts};
ghost use Rattle.wait_verify.specs.Widening.{ArePlain, IsWidened};
ghost use Rattle.wait_verify.specs.Signs.{AreNamedExactly};
ghost use Rattle.flow_laws.specs.Answers.{CantBothFail};
ghost use Rattle.nc_verify.specs.declared.refusal.Refusal.{Refusal};
ghost use Rattle.wait_verify.specs.Asked.{Asked, at};
ghost use Rattle.wait_verify.specs.Verdict.{Judged, AreAccepted, IsRefusalOf, IsPositionOf, IsNeverStuckAt};

use block_order::a_tape_without_faults_is_unforked;
use flow_laws::{a_tape_has_one_first_fault, no_tape_is_unsound_without_a_fault};
use label_list::a_pair_is_accepted_by_its_lists;
use open_forms::{the_statements_of_a_tape_are_clean, what_reads_in_full_leads_where_it_said};
use pair_order::no_pair_waits_in_vain;

/// In an accepted pair no path waits in vain, at each position of its free block-skip switches, if
/// both paths see that position for the whole run: wherever the orders of their blocks lead, two
/// waits at which both paths stand are of one code, and no path waits for one that has ended.
///
/// Of the machine only this is assumed: a path that has run a block stands where the control of the
/// block lets it.
pub fn accepted_pairs_do_not_wait_in_vain()
    ensures { (asked : Asked) (judged : Judged) → AreAccepted asked judged → (position : ℕ)
        → IsPositionOf asked position → IsNeverStuckAt (at position asked) }
{
    no_pair_waits_in_vain();
}

/// No pair is both accepted and refused.
pub fn accepted_pairs_are_not_refused()
    ensures { (asked : Asked) (judged : Judged) (refusal : Refusal) → AreAccepted asked judged
        → IsRefusalOf asked refusal → ⊥ }
{
    a_pair_is_accepted_by_its_lists();
}

/// A pair has at most one refusal: one number, one path, one line of it, one position of the
/// block-skip switches, and for labels that differ one line of the other path and one count of equal
/// labels before.
pub fn pairs_have_one_refusal()
    ensures { (asked : Asked) (refusal other : Refusal) → IsRefusalOf asked refusal → IsRefusalOf asked other
        → refusal ≡ other }
{
    a_tape_has_one_first_fault();
    a_pair_is_accepted_by_its_lists();
}

/// No pair is neither accepted nor refused: with the two laws above, each pair has exactly one
/// answer.
pub fn no_pair_is_without_an_answer()
    ensures { (asked : Asked) → CantBothFail ((judged : Judged) × AreAccepted asked judged)
        ((refusal : Refusal) × IsRefusalOf asked refusal) }
{
    no_tape_is_unsound_without_a_fault();
    a_tape_without_faults_is_unforked();
    a_pair_is_accepted_by_its_lists();
}

/// Every pair of plain texts that the verdict on a run accepts is accepted for its waits with no free
/// block-skip switch on, with the same lists of labels; and whole, if no switch is free.
///
/// A plain text has nothing that is taken out when it is opened, so no sequence number after another
/// word, and its blocks have no M96, M97 or M198 but as a wait or an argument:
/// these three are plain codes of a run, and refused here. Nor has it a jump to a number that its program
/// has twice, once in another stretch.
pub fn what_a_run_accepts_is_accepted()
    ensures { (texts : Texts) (cell : Cell) (left right : List ProgramForm) → ArePlain texts cell
        → run.AreAccepted texts cell left right → IsWidened texts cell left right }
{
    what_reads_in_full_leads_where_it_said();
    the_statements_of_a_tape_are_clean();
}

/// The block-skip switches whose positions are judged are those that a tape names: a switch is found in
/// a text exactly if one of its lines bears a skip sign of it, at its head, where only blanks, comments
/// and other skip signs are before it.
pub fn a_switch_is_named_by_a_sign()
    ensures { (text : List ℕ) → AreNamedExactly text }
{}
