//! The check of a tape's order, over all stages. What is wrong with programs, loops and jumps is
//! found in block_order; what is wrong with waits in waiting.rt.
ghost use Rattle.std.specs.Prelude.{◌≡◌, IfOk, IfErr};
ghost use Rattle.block_order.specs.Answers.{IfFault};
ghost use Rattle.block_order.specs.Faults.{Fitting, Finding, Waiting, IsClear, IsSound, IsFirst};
ghost use Rattle.block_order.specs.First.{IsFirstOf};
ghost use Rattle.block_order.specs.Shape.{IsReadTape};

use crate::waiting::waiting_fault;
use block_order::{BlockOrder, ControlProgram, DraftOrder, OrderFault};
use nc_number::{Failing, NoMemory};
use std::alloc::Global;

/// The first fault of waits in an order whose programs, loops and jumps are in order; `None` if
/// there is none. The only error is out of memory.
fn fault_of(alloc: Global, draft: &DraftOrder) -> Result<Option<OrderFault>, NoMemory>
    ensures fits { IsClear draft.now Fitting }
    ensures finds { IsClear draft.now Finding }
    ensures first { IfOk result (IsFirstOf draft.now Waiting) }
{
    let programs = draft.as_slice();
    let fault = waiting_fault(alloc, programs, draft.tables(), draft.loud())?;
    Ok(fault)
}

/// The order of these programs, or the first fault: of programs and loops that don't fit together,
/// 60 and 52; else of jumps and calls that don't find what they name, 50, 51 and 53; else of jumps
/// that may pass a wait, 65, and of a ninth call that leads to a wait or an end, 66. Each time the
/// least line is told, and on it the least number. `NoMemory`: out of memory.
pub fn check_order(
    alloc: Global,
    programs: Vec<ControlProgram>,
) -> Result<BlockOrder, Failing<OrderFault>>
    requires listed { IsReadTape programs.items }
    ensures same { IfOk result (λ order. order ≡ programs.items) }
    ensures sound { IfOk result (λ _. IsSound programs.items) }
    ensures first { IfErr result (λ error. IfFault error
        (λ fault. IsFirst programs.items fault.line fault.cause)) }
{
    let draft = match DraftOrder::check(alloc, programs) {
        Ok(draft) => draft,
        Err(error) => return Err(error),
    };
    match fault_of(alloc, &draft) {
        Ok(None) => Ok(draft.judged()),
        Ok(Some(fault)) => Err(Failing::Fault(fault)),
        Err(_) => Err(Failing::NoMemory),
    }
}
