//! How a file of gates is begun on a disk. What a crash may leave meanwhile is in
//! specs/Creation.antt. For gate.rt of this crate.

ghost use Rattle.std.specs.Prelude.{◌≡◌, ◌+◌, ◌^◌, ◌≤◌, ◌<◌, [], List, ℕ, length, OnOk, IfOk, IfErr};
ghost use Rattle.disk_model.specs.Device.{Reads, HasCause, IsSettled, Only};
ghost use Rattle.disk_model.specs.Moments.{LeavesOnly, Peeks, Uses};
ghost use Rattle.gate_file.specs.Chain.{IsNoRun, IsStaged};
ghost use Rattle.gate_file.specs.Creation.{Begins, RefusesBeginning};
ghost use Rattle.gate_file.specs.Gate.{Keeps, IsCalm};
ghost use Rattle.gate_file.specs.First.{StandsFirst};

use crate::GateFault;
use crate::gate::add_staged;
use disk_model::{Disk, Failed};

/// What stands at the front of a file without a run.
#[derive(Clone, Copy, Debug, PartialEq, Eq)]
pub(crate) enum FirstGate {
    // The file has at most one byte.
    Missing,
    // The first gate is shut.
    Shut,
}

/// Begins a file on the disk, with the staged entries as its first bodies: they are written after
/// the shut first gate, and count once it is opened. Errors: `RunThere` if there is a run,
/// `DiskFault` if a call of the disk failed.
pub(crate) fn begin<D: Disk>(disk: &mut D, staged: &[u8]) -> Result<(), GateFault>
    ensures begun { (bodies : List (List ℕ)) → IsStaged bodies staged.now
        → Begins bodies (D.state disk.old) (D.state disk.new) result }
    ensures small { OnOk result (1 + length staged.now < 2 ^ 62) }
{
    let first = look_first(disk)?;
    shut_first(disk, first)?;
    add_staged(disk, 0, staged)?;
    Ok(())
}

/// What stands first, or `RunThere` if it is a run. It syncs and reads, and writes nothing.
fn look_first<D: Disk>(disk: &mut D) -> Result<FirstGate, GateFault>
    ensures first { IfOk result (λ first. (bytes : List ℕ) → Reads (D.state disk.old) bytes → StandsFirst first bytes) }
    ensures settled { OnOk result (IsSettled (D.state disk.new)) }
    ensures refused { IfErr result (λ fault. RefusesBeginning fault (D.state disk.old) (D.state disk.new)) }
    ensures calm { IsCalm (D.state disk.old) (D.state disk.new) result }
    ensures peeks { Peeks 3 (D.state disk.old) (D.state disk.new) }
{
    disk.sync()?;
    if disk.len()? <= 1 {
        return Ok(FirstGate::Missing);
    }
    let mut gate = [0];
    disk.read_at(0, &mut gate)?;
    if gate[0] != 0 {
        return Err(GateFault::RunThere);
    }
    Ok(FirstGate::Shut)
}

/// Writes a shut gate at the front if the file has none, and syncs.
fn shut_first<D: Disk>(disk: &mut D, first: FirstGate) -> Result<(), Failed>
    ensures shut { OnOk result ((bytes : List ℕ) → Reads (D.state disk.old) bytes
        → Only bytes (D.state disk.old).image → StandsFirst first bytes
        → Keeps [] (D.state disk.new) 0) }
    ensures any_moment { (bytes : List ℕ) → Reads (D.state disk.old) bytes
        → Only bytes (D.state disk.old).image → StandsFirst first bytes
        → LeavesOnly IsNoRun (D.state disk.old) (D.state disk.new) }
    ensures cause { HasCause (D.state disk.old) (D.state disk.new) result }
    ensures uses { Uses 2 1 (D.state disk.old) (D.state disk.new) }
{
    match first {
        FirstGate::Shut => Ok(()),
        FirstGate::Missing => {
            disk.write_at(0, &[0])?;
            disk.sync()?;
            Ok(())
        }
    }
}
