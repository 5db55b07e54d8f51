//! The tape of one path, from its text to its flow. The settings and the pair are in verifying.rt.
ghost use Rattle.std.specs.Prelude.{◌≡◌, map, IfOk, IfErr};
ghost use Rattle.block_order.specs.Answers.{IfFault};
ghost use Rattle.cell_settings.specs.View.{view};
ghost use Rattle.nc_number.specs.Answers.{Gives};
ghost use Rattle.nc_text.specs.Tape.{tape_of};
ghost use Rattle.tape_flow.specs.Forms.{program_form};
ghost use Rattle.nc_verify.specs.Verdict.{IsFlowOf, IsTapeRefusal, skips_of};

use crate::refusal::Refusal;
use cell_settings::Settings;
use nc_number::{Failing, Path};
use nc_text::{Reader, Tape, TextFault};
use std::alloc::Global;
use tape_flow::{Flow, compile};

/// The tape of a text, where blocks of these switches are skipped; or its refusal, with its line.
pub fn read_tape(alloc: Global, skips: u16, text: &[u8]) -> Result<Tape, Failing<TextFault>>
    ensures { Gives (λ tape. tape) result (tape_of skips text.now) }
{
    let mut reader = Reader::new(alloc, skips)?;
    match reader.feed(text) {
        Ok(()) => reader.finish(),
        Err(fault) => Err(fault),
    }
}

/// The block-skip switches of a path that are on, a bit for each.
pub fn skips_of(settings: &Settings, path: Path) -> u16
    ensures { result ≡ skips_of path (view settings.now) }
{
    settings.skips[path.index()]
}

/// The flow of a path's tape, or the refusal of its reading, or else of its flow.
pub(crate) fn flow_of(
    alloc: Global,
    settings: &Settings,
    path: Path,
    text: &[u8],
) -> Result<Flow, Failing<Refusal>>
    ensures flow { IfOk result (λ flow. IsFlowOf (view settings.now) path text.now (map program_form flow.programs)) }
    ensures refused { IfErr result (λ error. IfFault error (IsTapeRefusal (view settings.now) path text.now)) }
{
    let tape = match read_tape(alloc, skips_of(settings, path), text) {
        Ok(tape) => tape,
        Err(Failing::Fault(fault)) => return Err(Failing::Fault(Refusal::at_line(
            path,
            fault.line,
            fault.number,
        ))),
        Err(Failing::NoMemory) => return Err(Failing::NoMemory),
    };
    match compile(alloc, &tape, settings) {
        Ok(flow) => Ok(flow),
        Err(Failing::Fault(fault)) => Err(Failing::Fault(Refusal::at_line(
            path,
            fault.line,
            fault.number,
        ))),
        Err(Failing::NoMemory) => Err(Failing::NoMemory),
    }
}
