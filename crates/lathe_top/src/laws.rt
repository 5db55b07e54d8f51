//! What holds over any calls and stops. Each law is the contract of a function that does nothing.
//! The words are in specs/Stops.antt, Kept.antt and Turrets.antt.
//! No crate calls these laws: they say to a reader, and to a builder, what the contract of `top`
//! comes to.
ghost use Rattle.std.specs.Prelude.{◌≡◌, ℕ, ◌+◌, ◌*◌, ◌≤◌, List, length};
ghost use Rattle.command_words.specs.Listed.{listed_command};
ghost use Rattle.nc_number.specs.declared.both.Both.{Both};
ghost use Rattle.nc_number.specs.declared.path.Path.{Path};
ghost use Rattle.run_table.specs.declared.resting.Resting.{Resting};
ghost use Rattle.gate_file.specs.Chain.{IsNoRun};
ghost use Rattle.run_journal.specs.Meaning.{a_run};
ghost use Rattle.run_records.specs.Entries.{Entry};
ghost use Rattle.run_records.specs.declared.header.Header.{Header};
ghost use Rattle.nc_restart.specs.Lives.{AreOneHistory};
ghost use Rattle.nc_restart.specs.Meaning.{StandsForRun};
ghost use Rattle.lathe_top.specs.Done.{IsDone};
ghost use Rattle.lathe_top.specs.Kept.{Leaves};
ghost use Rattle.lathe_top.specs.Kinds.{kind_of};
ghost use Rattle.lathe_top.specs.Session.{Session};
ghost use Rattle.lathe_top.specs.Stops.{AreStopped, Around, BecomeOneHistory, CallOver, GoesOnAs, IsCall, IsNoneOrRun, MayLeave, StoppedCall, call_in, images_of, lathe_before, lathe_behind};
ghost use Rattle.lathe_top.specs.Turrets.{due_to};

use disk_model::Disk;
use nc_restart::{an_image_of_a_run_is_never_bad, an_image_stands_for_one_run};
use run_table::a_record_makes_seven_moves_at_most;

/// What a call does, it may do by its kind of command. So what `top` promises is what the laws over
/// calls and stops ask for.
pub fn a_call_leaves_as_its_kind_may<D: Disk, E: Disk>()
    ensures { (call : CallOver D) (around : Around E) (status : ℕ) → call.asked ≡ listed_command around.words
        → IsDone D.state E.state (call_in D.state around call) status
        → Leaves D.state (kind_of call.asked) (lathe_before D.state call) (lathe_behind D.state call) }
{}

/// A stop at any moment of a call of `top`, inside a call of the disk too, leaves one history,
/// whatever the command is.
///
/// The disk tells its bytes. If each image that a crash before the call may leave is no run, or a
/// history of some run, then each image that a stop leaves is so too: none is ever bad. If each of
/// them is a history of one run that begins with certain records, then so is each image that a stop
/// leaves: none of these records is lost. That also holds of `run` over the journal of a run, which
/// it leaves alone, and whatever fails.
pub fn a_stop_leaves_one_history<D: Disk>()
    ensures never_bad { (bytes : List ℕ) (call : CallOver D) → IsCall D.state bytes call
        → ((c : List ℕ) → (D.state call.disk).image c → IsNoneOrRun c)
        → (image : List ℕ) → MayLeave D.state call image → IsNoneOrRun image }
    ensures kept { (bytes : List ℕ) (call : CallOver D) (header : Header) (found : List Entry)
        → IsCall D.state bytes call → ((c : List ℕ) → (D.state call.disk).image c → GoesOnAs header found c)
        → (image : List ℕ) → MayLeave D.state call image → GoesOnAs header found image }
{
    an_image_stands_for_one_run();
    an_image_of_a_run_is_never_bad();
}

/// Over any calls of `top`, each cut off at any moment or after its end, all records are one
/// history of one pair.
///
/// Each call begins on a disk that has what the cut before it left. Until a run is begun there is
/// none; from then on each cut leaves a history of that run which begins with the one that the call
/// found, and so with all that were found before. The commands are any, and restarts may be cut off
/// in restarting. No such history is stuck (`no_history_is_stuck` of nc_restart).
pub fn calls_make_one_history<D: Disk>()
    ensures begun { (bytes : List ℕ) (stops : List (StoppedCall D)) → IsNoRun bytes
        → AreStopped D.state bytes stops → BecomeOneHistory (images_of stops) }
    ensures resumed { (bytes : List ℕ) (header : Header) (found : List Entry) (stops : List (StoppedCall D))
        → StandsForRun (a_run header found) bytes → AreStopped D.state bytes stops
        → AreOneHistory header found (images_of stops) }
{
    an_image_stands_for_one_run();
    an_image_of_a_run_is_never_bad();
}

/// What is due to a turret by a session is its place, three rests at most that are of no record, and
/// eight moves at most for each record that the session may make. (A record tells seven things at most:
/// `a_record_makes_seven_moves_at_most` of run_table.) So a turret that has room for so many calls, of
/// which none fails, never stops a run.
pub fn a_session_hands_eight_moves_a_record_at_most()
    ensures { (s : Session) (limit upto : ℕ) (resting : Both Resting) (path : Path) → upto ≤ length s.history
        → length s.history ≤ length s.found + limit → length (due_to s upto resting path) ≤ 4 + 8 * limit }
{
    a_record_makes_seven_moves_at_most();
}
