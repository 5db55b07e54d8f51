//! The tape of one path, from its text to the order of its blocks, or its one refusal. How a block
//! is read for its order is in open_order.
//! `verdict` (verifying.rt) calls `ordered_tape` for each path.
ghost use Rattle.std.specs.Prelude.{◌≡◌, ℕ, List, Ok, IfOk, IfErr};
ghost use Rattle.block_order.specs.Answers.{IfFault};
ghost use Rattle.nc_number.specs.Answers.{Gives};
ghost use Rattle.nc_text.specs.Tape.{tape_of};
ghost use Rattle.open_order.specs.declared.premises.Premises.{Premises};
ghost use Rattle.open_text.specs.Opened.{opened_text};
ghost use Rattle.open_order.specs.Exact.{IsOrdered, IsRefused};
ghost use Rattle.wait_verify.specs.Verdict.{IsOrderOf, IsTapeRefusal};

use block_order::BlockOrder;
use nc_number::{Failing, Path};
use nc_text::{Tape, TextFault};
use nc_verify::{Refusal, read_tape};
use open_order::{Premises, open_order};
use open_text::open_text;
use std::alloc::Global;

/// A tape, and the order of its blocks.
#[derive(Drop)]
pub(crate) struct OrderedTape {
    /// The tape as its text reads.
    pub(crate) tape: Tape,
    /// The order of its blocks, in which nothing is wrong.
    pub(crate) order: BlockOrder,
}

/// The tape of a text that is opened first: what no wait depends on is taken out. Blocks of these switches are skipped.
/// Errors: the first bad line, or out of memory.
fn read_text(alloc: Global, skips: u16, text: &[u8]) -> Result<Tape, Failing<TextFault>>
    ensures { Gives (λ tape. tape) result (tape_of skips (opened_text skips text.now)) }
{
    let bytes = open_text(alloc, skips, text)?;
    read_tape(alloc, skips, bytes.as_slice())
}

/// The tape of a path. Errors: the refusal of its reading, or out of memory.
fn tape_of_path(
    alloc: Global,
    skips: u16,
    path: Path,
    text: &[u8],
) -> Result<Tape, Failing<Refusal>>
    ensures reads { IfOk result (λ tape. tape_of skips (opened_text skips text.now) ≡ Ok tape) }
    ensures refused { (premises : Premises)
        → IfErr result (λ error. IfFault error (IsTapeRefusal premises skips path text.now)) }
{
    match read_text(alloc, skips, text) {
        Ok(tape) => Ok(tape),
        Err(Failing::Fault(fault)) => Err(Failing::Fault(Refusal::at_line(
            path,
            fault.line,
            fault.number,
        ))),
        Err(Failing::NoMemory) => Err(Failing::NoMemory),
    }
}

/// The order of the blocks of a path's tape. Errors: its refusal, or out of memory.
fn order_of_path(
    alloc: Global,
    premises: Premises,
    path: Path,
    tape: &Tape,
) -> Result<BlockOrder, Failing<Refusal>>
    ensures ordered { IfOk result (IsOrdered premises tape.now) }
    ensures refused { (skips : ℕ) (text : List ℕ) → tape_of skips (opened_text skips text) ≡ Ok tape.now
        → IfErr result (λ error. IfFault error (IsTapeRefusal premises skips path text)) }
{
    match open_order(alloc, premises, tape.as_slice()) {
        Ok(order) => Ok(order),
        Err(Failing::Fault(fault)) => Err(Failing::Fault(Refusal::at_line(
            path,
            fault.line,
            fault.number,
        ))),
        Err(Failing::NoMemory) => Err(Failing::NoMemory),
    }
}

/// The tape of a path and its order. Errors: the refusal of its reading, or else of its order, or
/// out of memory.
pub(crate) fn ordered_tape(
    alloc: Global,
    premises: Premises,
    skips: u16,
    path: Path,
    text: &[u8],
) -> Result<OrderedTape, Failing<Refusal>>
    ensures ordered { IfOk result (λ ordered. IsOrderOf premises skips text.now ordered.tape ordered.order) }
    ensures refused { IfErr result (λ error. IfFault error (IsTapeRefusal premises skips path text.now)) }
{
    let tape = match tape_of_path(alloc, skips, path, text) {
        Ok(tape) => tape,
        Err(error) => return Err(error),
    };
    match order_of_path(alloc, premises, path, &tape) {
        Ok(order) => Ok(OrderedTape { tape, order }),
        Err(error) => Err(error),
    }
}
