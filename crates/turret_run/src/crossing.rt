//! That a held table may go to another thread, which the prover has to know before a thread gets
//! it. Each law rests on the ones before it, which keeps each proof short.
//! For run.rt of this crate, which calls `held_crosses`.
ghost use denote.Param.Send.{IsSend};
ghost use Rattle.cell_settings.specs.contracts.settings.Settings.{the_row as settings_row};
ghost use Rattle.nc_number.specs.contracts.list_of.ListOf.{the_row as list_row};
ghost use Rattle.nc_verify.specs.contracts.verified.Verified.{the_row as pair_row};
ghost use Rattle.run_records.specs.contracts.lists.EntryList.{the_row as entries_row};
ghost use Rattle.run_table.specs.contracts.held.Held.{the_row as held_row};
ghost use Rattle.run_table.specs.contracts.table.Table.{the_row as table_row};
ghost use Rattle.tape_flow.specs.contracts.flow.Flow.{the_row as flow_row};
ghost use Rattle.tape_flow.specs.contracts.program.FlowProgram.{the_row as program_row};
ghost use Rattle.two_path.specs.contracts.machine.Machine.{the_row as machine_row};

use cell_settings::Settings;
use disk_model::Disk;
use run_records::EntryList;
use run_table::Opening;
use tape_flow::{Flow, FlowBlockList, FlowProgram, FlowProgramList};
use two_path::Machine;

/// A type that is `Send` may go to another thread, as the proofs say it.
fn crosses<T: Send>()
    ensures { IsSend T.row }
{}

/// The programs of a tape may go to another thread.
fn programs_cross()
    ensures { IsSend (list_row program_row) }
{
    crosses::<FlowBlockList>();
    crosses::<FlowProgram>();
    crosses::<FlowProgramList>();
}

/// A tape may go to another thread.
fn flow_crosses()
    ensures { IsSend flow_row }
{
    programs_cross();
    crosses::<Flow>();
}

/// The settings may go to another thread.
fn settings_cross()
    ensures { IsSend settings_row }
{
    crosses::<Settings>();
}

/// An accepted pair may go to another thread.
fn pair_crosses()
    ensures { IsSend pair_row }
{
    flow_crosses();
    settings_cross();
}

/// The machine of two paths may go to another thread.
fn machine_crosses()
    ensures { IsSend machine_row }
{
    crosses::<Machine>();
}

/// The records of a run may go to another thread.
fn entries_cross()
    ensures { IsSend entries_row }
{
    crosses::<EntryList>();
}

/// A table may go to another thread, if its disk may.
fn table_crosses<D: Disk + Send>()
    ensures { IsSend (table_row D.row D.Disk) }
{
    pair_crosses();
    machine_crosses();
    entries_cross();
}

/// A held table may go to another thread, if its disk may.
pub(crate) fn held_crosses<D: Disk + Send, O: Opening<D> + Send + Sync>()
    ensures { IsSend (held_row D.row O.row D.Disk O.Opening) }
{
    table_crosses::<D>();
}
