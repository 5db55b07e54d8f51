//! What a step of a table answers, as text.
//! step_rows.rt uses it.
use nc_outside::Halt;
use run_table::TableStep;
use std::alloc::AllocError;
use two_path::Turn;

/// Writes what a turn was, with its moves by their count alone.
fn put_turn(out: &mut String, turn: &Turn) -> Result<(), AllocError> {
    match turn {
        Turn::Read { variable, stamp } => write!(out, "reads #{variable} at {stamp}"),
        Turn::Did { moves } => write!(out, "did {} moves", moves.list.as_slice().len()),
        Turn::Arrived { code } => write!(out, "arrives {code}"),
        Turn::Met { code } => write!(out, "meets {code}"),
        Turn::Ended { .. } => out.push_str("ends"),
        Turn::Waiting { code } => write!(out, "waits {code}"),
        Turn::Finished => out.push_str("has ended"),
        Turn::Alarm { alarm } => write!(out, "alarm {}", alarm.cause),
        Turn::Halted { alarm } => write!(out, "halted by alarm {}", alarm.cause),
        Turn::Edited => out.push_str("edited"),
    }
}

/// Writes why a table makes no turn.
fn put_halt(out: &mut String, halt: &Halt) -> Result<(), AllocError> {
    match halt {
        Halt::Alarm(alarm) => write!(out, "stopped by alarm {}", alarm.cause),
        Halt::Disk => out.push_str("stopped by its disk"),
        Halt::Turret(path) => write!(out, "stopped by turret {}", path.number()),
        Halt::Full => out.push_str("full"),
        Halt::Budget => out.push_str("spent"),
    }
}

/// Writes what a step came to.
pub(crate) fn put_answer(out: &mut String, answer: &TableStep) -> Result<(), AllocError> {
    match answer {
        TableStep::Turned(turn) => put_turn(out, turn),
        TableStep::Drain(_) => out.push_str("drains"),
        TableStep::Undrained => out.push_str("is not drained"),
        TableStep::DiskFault => out.push_str("disk fault"),
        TableStep::Halted(halt) => put_halt(out, halt),
    }
}
