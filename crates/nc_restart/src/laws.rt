//! What holds of every run and of its restarts: a caller of the function has the law.
ghost use Rattle.std.specs.Prelude.{◌≡◌, List, ℕ, take};
ghost use Rattle.run_records.specs.Entries.{Entry};
ghost use Rattle.run_records.specs.declared.header.Header.{Header};
ghost use Rattle.run_journal.specs.Meaning.{Meaning, a_run};
ghost use Rattle.run_journal.specs.Stands.{Stands};
ghost use Rattle.two_path.specs.Histories.{Event, run};
ghost use Rattle.two_path.specs.Stuck.{IsFree, IsNeverStuck};
ghost use Rattle.nc_verify.specs.declared.verified.Verified.{Verified};
ghost use Rattle.nc_verify.specs.Verdict.{Texts};
ghost use Rattle.nc_restart.specs.Lives.{LeaveEach, AreOneHistory};
ghost use Rattle.nc_restart.specs.Meaning.{HasHistory, StandsForRun};
ghost use Rattle.nc_restart.specs.History.{IsHistory};
ghost use Rattle.nc_restart.specs.Pair.{IsPairOf, IsSamePair, tapes_in, opening_of, machine_behind};

use gate_file::a_file_stands_for_one_thing;
use nc_verify::accepted_texts_are_not_refused;
use path_state::control_goes_as_the_flow_orders;
use run_journal::a_journal_stands_for_one_thing;
use two_path::{
    each_event_keeps_the_history, histories_are_runs, no_legal_history_is_stuck, no_pair_is_stuck,
};

/// Texts that are accepted have one machine, whoever judges them.
pub fn a_machine_hangs_on_its_texts()
    ensures { (texts : Texts) (pair other : Verified) → IsPairOf texts pair → IsPairOf texts other
        → IsSamePair pair other }
{}

/// An image stands for one thing, where the pair and its machine count too: no run, or an entry
/// that is cut short at one offset, or for one cause at one offset no run either, or one header and
/// one history.
pub fn an_image_stands_for_one_run()
    ensures { (image : List ℕ) (a b : Meaning) → StandsForRun a image → StandsForRun b image → a ≡ b }
{
    accepted_texts_are_not_refused();
    a_journal_stands_for_one_thing();
    a_file_stands_for_one_thing();
}

/// An image that a run left stands for the first so many records of its history. So it is never
/// bad.
pub fn an_image_of_a_run_is_never_bad()
    ensures { (header : Header) (history : List Entry) (kept : ℕ) (image : List ℕ) → HasHistory header history
        → Stands header (take kept history) image → StandsForRun (a_run header (take kept history)) image }
{
    histories_are_runs();
}

/// Over any restarts and stops, restarts that are stopped among them, the records are one history
/// of one pair: each image stands for a history that begins with all that the restart before it
/// found.
pub fn restarts_make_one_history()
    ensures { (header : Header) (found : List Entry) (image : List ℕ) (images : List (List ℕ))
        → StandsForRun (a_run header found) image → LeaveEach image images → AreOneHistory header found images }
{
    accepted_texts_are_not_refused();
    a_journal_stands_for_one_thing();
    a_file_stands_for_one_thing();
    each_event_keeps_the_history();
    histories_are_runs();
}

/// No order of turns of an accepted pair leads to paths that can't go on, no wait meets another,
/// and no alarm says that waits differ: not from the machine with which a run of the pair begins,
/// nor from any two paths at the starts of their tapes.
///
/// That the texts are accepted is all that is asked. [`nc_verify::verdict`] answers a pair only
/// then.
pub fn no_accepted_pair_is_stuck()
    ensures begun { (texts : Texts) (pair : Verified) (events : List Event) → IsPairOf texts pair
        → IsFree (tapes_in pair) (run (tapes_in pair) (opening_of pair) events) }
    ensures any { (texts : Texts) (pair : Verified) → IsPairOf texts pair → IsNeverStuck pair.left pair.right }
{
    control_goes_as_the_flow_orders();
    no_pair_is_stuck();
}

/// No history of an accepted pair leads to paths that can't go on, whoever made it and wherever it
/// was cut off, and no wait meets another.
pub fn no_history_is_stuck()
    ensures { (texts : Texts) (pair : Verified) (entries : List Entry) → IsPairOf texts pair → IsHistory pair entries
        → IsFree (tapes_in pair) (machine_behind pair entries) }
{
    control_goes_as_the_flow_orders();
    no_legal_history_is_stuck();
}
