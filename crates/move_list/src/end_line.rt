//! The last lines of a report: how many records there are, and how the run ended. Their text is
//! defined in specs/EndText.antt. report.rt, summary.rt and state.rt use them.
ghost use Rattle.std.specs.Prelude.{◌≡◌, ◌+◌, ◌≤◌, ◌++◌, length};
ghost use Rattle.text_pieces.specs.declared.piece.TheConstants.{MOST_BYTES};
ghost use Rattle.nc_number.specs.Causes.{cause_of};
ghost use Rattle.move_list.specs.EndText.{alarm_text, cause_text, end_text, given_text, reason_text, records_text, turret_text};

use nc_moves::Alarm;
use nc_number::{Cause, Path};
use nc_outside::Reason;
use text_pieces::Piece;

/// The cause of an alarm by its number, if the table of causes has one.
fn cause_of(number: u8) -> Option<Cause>
    ensures { result ≡ cause_of number }
{
    Cause::of_number(number)
}

/// Adds what the program gave a macro alarm (#3000=); for other alarms nothing.
#[tactic(auto, unfolding(crate::specs::EndText::given_text))]
fn add_given(piece: &mut Piece, alarm: &Alarm)
    requires { length piece.old + 25 ≤ MOST_BYTES }
    ensures text { piece.new ≡ piece.old ++ given_text alarm.now }
    ensures size { length piece.new ≤ length piece.old + 25 }
{
    if alarm.cause == Cause::MacroAlarm.number() {
        piece.add(b" ");
        piece.add_value(alarm.value);
    }
}

/// Adds the number of an alarm and its name, and of a macro alarm what it was given.
#[tactic(auto, unfolding(crate::specs::EndText::cause_text))]
pub fn add_cause(piece: &mut Piece, alarm: &Alarm)
    requires { length piece.old + 65 ≤ MOST_BYTES }
    ensures text { piece.new ≡ piece.old ++ cause_text alarm.now }
    ensures size { length piece.new ≤ length piece.old + 65 }
{
    piece.add_number(u64::from(alarm.cause));
    piece.add_name(cause_of(alarm.cause));
    add_given(piece, alarm);
}

/// Adds an alarm: its path and line, and its cause.
#[tactic(auto, unfolding(crate::specs::EndText::alarm_text))]
fn add_alarm(piece: &mut Piece, alarm: &Alarm)
    requires { length piece.old + 140 ≤ MOST_BYTES }
    ensures text { piece.new ≡ piece.old ++ alarm_text alarm.now }
    ensures size { length piece.new ≤ length piece.old + 140 }
{
    piece.add(b"alarm ");
    piece.add_path(alarm.path);
    piece.add(b" line ");
    piece.add_number(u64::from(alarm.line));
    piece.add(b" cause ");
    add_cause(piece, alarm);
}

/// Adds that the turret of a path failed.
#[tactic(auto, unfolding(crate::specs::EndText::turret_text))]
fn add_turret_fault(piece: &mut Piece, path: Path)
    requires { length piece.old + 38 ≤ MOST_BYTES }
    ensures text { piece.new ≡ piece.old ++ turret_text path }
    ensures size { length piece.new ≤ length piece.old + 38 }
{
    piece.add(b"turret fault ");
    piece.add_path(path);
}

/// Adds why a run ended.
#[tactic(auto, unfolding(crate::specs::EndText::reason_text))]
fn add_reason(piece: &mut Piece, reason: &Reason)
    requires { length piece.old + 140 ≤ MOST_BYTES }
    ensures text { piece.new ≡ piece.old ++ reason_text reason.now }
    ensures size { length piece.new ≤ length piece.old + 140 }
{
    match reason {
        Reason::Done => piece.add(b"done"),
        Reason::Alarm(alarm) => add_alarm(piece, alarm),
        Reason::Stopped => piece.add(b"stopped"),
        Reason::Full => piece.add(b"full"),
        Reason::DiskFault => piece.add(b"disk fault"),
        Reason::TurretFault(path) => add_turret_fault(piece, *path),
    }
}

/// The line that says how many records there are.
#[tactic(auto, unfolding(crate::specs::EndText::records_text))]
pub(crate) fn records_line(count: u64) -> Piece
    ensures text { result ≡ records_text count }
    ensures size { length result ≤ 29 }
{
    let mut piece = Piece::empty();
    piece.add(b"records ");
    piece.add_number(count);
    piece.add(b"\n");
    piece
}

/// The last two lines of a report: how many records there are, and how the run ended.
#[tactic(auto, unfolding(crate::specs::EndText::end_text))]
pub fn end_lines(count: u64, reason: &Reason) -> Piece
    ensures { result ≡ end_text count reason.now }
{
    let mut piece = records_line(count);
    piece.add(b"end ");
    add_reason(&mut piece, reason);
    piece.add(b"\n");
    piece
}
