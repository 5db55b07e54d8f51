//! The faults of waits: a jump that may pass a wait (65), and a ninth call, of a chain of calls,
//! that leads to a wait or an end (66). The other faults of the order are found in block_order. A
//! loud program comes to a wait or an end, itself or by its calls; the others are quiet.
//! checking.rt calls `waiting_fault`.
ghost use Rattle.std.specs.Prelude.{◌≡◌, ◌<◌, IfOk, List};
ghost use Rattle.block_order.specs.Labels.{Counts};
ghost use Rattle.block_order.specs.Loud.{loud};
ghost use Rattle.block_order.specs.Order.{main_number};
ghost use Rattle.block_order.specs.Heard.{AreFlagsOf};
ghost use Rattle.wait_order.specs.TapeFaults.{IsProgramOf, AreProgramsOf, IsTapeStrayLine};
ghost use Rattle.wait_order.specs.Deep.{IsDeepLine};
ghost use Rattle.block_order.specs.Faults.{Fitting, Waiting, IsClear};
ghost use Rattle.block_order.specs.First.{IsFirstOf};
ghost use Rattle.block_order.specs.Shape.{IsReadTape};
ghost use Rattle.wait_order.specs.Searches.{AreSearches};
ghost use Rattle.block_order.specs.TapeTable.{IsProgramTables, IsTapeTables};
ghost use Rattle.wait_order.specs.Waiting.{IsLeast, IsStrayLine};
ghost use Rattle.block_order.specs.declared.program.ControlProgram.{ControlProgram};
ghost use Rattle.nc_number.specs.declared.cause.Cause.{Cause};

use crate::deep::deep_line;
use crate::depth::reached_by_eight;
use crate::search::Search;
use crate::searches::searches;
use crate::stretch::stretches;
use crate::view::ProgramView;
use crate::ways::ProgramWays;
use block_order::{ControlProgram, LoudPrograms, OrderFault, ProgramTables};
use nc_number::{Cause, NoMemory, lesser};
use std::alloc::Global;

/// The O number of the main program, which is the first; 0 if there is none.
fn main_of(programs: &[ControlProgram]) -> u16
    ensures { result ≡ main_number programs.now }
{
    match programs.first() {
        Some(program) => program.number,
        None => 0,
    }
}

/// The line of the first block of a program that may pass a wait. The program is the main one or
/// loud. The only error is out of memory.
fn program_line<'a>(
    alloc: Global,
    programs: &'a [ControlProgram],
    loud: &'a LoudPrograms,
    searches: &[Search],
    own: &'a ProgramTables,
    program: &'a ControlProgram,
) -> Result<Option<u32>, NoMemory>
    requires known { AreFlagsOf programs.now loud.now }
    requires searches { AreSearches programs.now searches.now }
    requires tables { IsProgramTables program.now.blocks own.now }
    requires own { IsProgramOf programs.now program.now }
    requires counts { Counts programs.now program.now.number }
    ensures { IfOk result (IsLeast (IsStrayLine programs.now program.now.number)) }
{
    let blocks = program.blocks.as_slice();
    let found = stretches(alloc, loud, blocks)?;
    let ways = ProgramWays {
        blocks,
        stretches: &found,
        tables: own,
    };
    let view = ProgramView {
        programs,
        loud,
        main: main_of(programs),
        number: program.number,
        ways,
    };
    let line = view.stray_line(alloc, searches)?;
    Ok(line)
}

/// The line of the first block of a program that may pass a wait. If the program is neither the
/// main one nor loud, none of its blocks passes a wait. The only error is out of memory.
fn counted_line<'a>(
    alloc: Global,
    programs: &'a [ControlProgram],
    loud: &'a LoudPrograms,
    searches: &[Search],
    own: &'a ProgramTables,
    program: &'a ControlProgram,
) -> Result<Option<u32>, NoMemory>
    requires known { AreFlagsOf programs.now loud.now }
    requires searches { AreSearches programs.now searches.now }
    requires tables { IsProgramTables program.now.blocks own.now }
    requires own { IsProgramOf programs.now program.now }
    ensures { IfOk result (IsLeast (IsStrayLine programs.now program.now.number)) }
{
    if program.number == main_of(programs) || loud.is_loud(program.number) {
        program_line(alloc, programs, loud, searches, own, program)
    } else {
        Ok(None)
    }
}

/// The line of the tape's first block that may pass a wait. The only error is out of memory.
fn stray_line(
    alloc: Global,
    programs: &[ControlProgram],
    tables: &[ProgramTables],
    loud: &LoudPrograms,
) -> Result<Option<u32>, NoMemory>
    requires known { AreFlagsOf programs.now loud.now }
    requires tables { IsTapeTables programs.now tables.now }
    requires own { AreProgramsOf programs.now }
    ensures { IfOk result (IsLeast (IsTapeStrayLine programs.now)) }
{
    let searches = searches(alloc, programs, loud)?;
    let mut first = None;
    for (at, program) in programs.iter().enumerate() {
        let own = &tables[at];
        let line = counted_line(alloc, programs, loud, &searches, own, program)?;
        first = lesser(first, line);
    }
    Ok(first)
}

/// The fault 65 at a line: a jump that may pass a wait.
fn branch_at_wait(line: u32) -> OrderFault
    ensures line { result.line ≡ line }
    ensures cause { result.cause ≡ Cause.BranchAtWait }
{
    OrderFault {
        line,
        cause: Cause::BranchAtWait,
    }
}

/// The fault 66 at a line: a ninth call that leads to a wait or an end.
fn wait_too_deep(line: u32) -> OrderFault
    ensures line { result.line ≡ line }
    ensures cause { result.cause ≡ Cause.WaitTooDeep }
{
    OrderFault {
        line,
        cause: Cause::WaitTooDeep,
    }
}

/// The fault of the lesser line of the two, and on one line the jump; `None` if neither is given.
fn first_fault(stray: Option<u32>, deep: Option<u32>) -> Option<OrderFault>
    ensures { (tape : List ControlProgram) → IsLeast (IsTapeStrayLine tape) stray → IsLeast (IsDeepLine tape) deep
        → IsFirstOf tape Waiting result }
{
    match (stray, deep) {
        (None, None) => None,
        (Some(line), None) => Some(branch_at_wait(line)),
        (None, Some(line)) => Some(wait_too_deep(line)),
        (Some(line), Some(other)) => {
            if line <= other {
                Some(branch_at_wait(line))
            } else {
                Some(wait_too_deep(other))
            }
        }
    }
}

/// The first fault of waits on a tape that was read, whose O numbers are given once and whose loops
/// fit together:
/// of the least line, and on one line the one with the lesser number; `None` exactly if there is
/// none. The only error is out of memory.
pub(crate) fn waiting_fault(
    alloc: Global,
    programs: &[ControlProgram],
    tables: &[ProgramTables],
    loud: &LoudPrograms,
) -> Result<Option<OrderFault>, NoMemory>
    requires listed { IsReadTape programs.now }
    requires fits { IsClear programs.now Fitting }
    requires tables { IsTapeTables programs.now tables.now }
    requires known { AreFlagsOf programs.now loud.now }
    ensures { IfOk result (IsFirstOf programs.now Waiting) }
{
    let stray = stray_line(alloc, programs, tables, loud)?;
    let reached = reached_by_eight(alloc, programs, loud)?;
    let deep = deep_line(programs, loud, &reached);
    Ok(first_fault(stray, deep))
}
