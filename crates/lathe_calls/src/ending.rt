//! How a call ends: a text is written, and there is a status. The numbers are those of
//! specs/Statuses.antt. They have copies, which change with them: those that a call of C can give in
//! include/lathe.h, and 12 in the program's main file and page/judge/worker.js too. The modules of
//! this crate that answer use it, and the commands.
ghost use Rattle.std.specs.Prelude.{◌≡◌};
ghost use Rattle.lathe_calls.specs.Answers.{Ends, IsJust, status_behind, tells};
ghost use Rattle.lathe_calls.specs.Statuses.{reason_status};

use nc_outside::{PutFault, Reason, Sink};

/// What a call ends with, and the program.
#[derive(Clone, Copy, Debug, PartialEq, Eq)]
pub enum Status {
    /// The tapes are accepted, both paths ran to their ends, or the text was written.
    Done = 0,
    /// A text is refused (a tape, the settings, edits or zones), or a run has too few meetings to
    /// be branched there.
    Refused = 1,
    /// The words are no command, or an order of turns names no path.
    Usage = 2,
    /// A path raised an alarm.
    Alarm = 3,
    /// A file can't be read: the shelf failed.
    ShelfFault = 4,
    /// The output failed, and the text is cut short.
    SinkFault = 5,
    /// The disk with the journal failed.
    DiskFault = 6,
    /// The turret of a path failed.
    TurretFault = 7,
    /// There is a run on the disk already, or there is none.
    RunOrNone = 8,
    /// The journal on the disk is damaged.
    BadJournal = 9,
    /// As many records were made as the call allows, or the order of turns is over.
    Stopped = 10,
    /// Memory ran out, or a thread was refused.
    NoMemory = 12,
    /// A file is missing, or a file or a text of a call is too long.
    NoFile = 13,
    /// The run has as many records as the settings allow, or would have more with its edits.
    Full = 14,
}

/// The status of the reason for which a run ended.
pub fn reason_status(reason: &Reason) -> u8
    ensures { result ≡ reason_status reason.now }
{
    let status = match reason {
        Reason::Done => Status::Done,
        Reason::Alarm(_) => Status::Alarm,
        Reason::Stopped => Status::Stopped,
        Reason::Full => Status::Full,
        Reason::DiskFault => Status::DiskFault,
        Reason::TurretFault(_) => Status::TurretFault,
    };
    status as u8
}

/// The status after a text was put with this result: the text's own, or that of what went wrong.
pub fn status_behind(put: Result<(), PutFault>, status: u8) -> u8
    ensures { result ≡ status_behind put status }
{
    match put {
        Ok(()) => status,
        Err(PutFault::Failed) => Status::SinkFault as u8,
        Err(PutFault::NoMemory) => Status::NoMemory as u8,
    }
}

/// Writes a text and gives the status that goes with it, or that of what went wrong.
pub fn write_text<K: Sink>(out: &mut K, text: &[u8], status: u8) -> u8
    ensures { Ends (IsJust (tells status text.now)) (K.state out.old) (K.state out.new) result }
{
    status_behind(out.put(text), status)
}
