//! The lines of a run: up to the first one without a corner.
ghost use Rattle.std.specs.Prelude.{◌≡◌, [], IfOk};
ghost use Rattle.nc_number.specs.Position.{IsPosition};
ghost use Rattle.corner_words.specs.Run.{run_from};

use crate::said::{RunLine, line_said};
use nc_number::{ListOf, Point};
use nc_text::Block;
use plain_form::{PlainCause, PlainFault};
use std::alloc::{AllocError, Global};

/// The lines of a run.
pub(crate) type RunLineList = ListOf<RunLine>;

/// A run that was read.
#[derive(Debug, Drop)]
pub(crate) enum RunRead {
    /// Its lines, of which the last has no corner.
    Lines(RunLineList),
    /// The line at fault, and why.
    Stops(PlainFault),
}

/// The run that begins with the first of these blocks, in this line of the tape, from a point. The
/// corner of a last block has no line behind it.
pub(crate) fn run_lines(
    alloc: Global,
    first: u32,
    start: &Point,
    blocks: &[Block],
) -> Result<RunRead, AllocError>
    requires { IsPosition start.now }
    ensures { IfOk result (λ run. run ≡ run_from first start.now [] blocks.now) }
{
    let mut lines = Vec::new(alloc);
    let mut last = first;
    let mut from = *start;
    for block in blocks {
        let line = match line_said(block, &from) {
            Ok(line) => line,
            Err(fault) => return Ok(RunRead::Stops(fault)),
        };
        last = line.line;
        from = line.to;
        lines.push(line)?;
        if line.corner.is_none() {
            return Ok(RunRead::Lines(ListOf::of(lines)));
        }
    }
    Ok(RunRead::Stops(PlainFault {
        line: last,
        cause: PlainCause::Corner,
    }))
}
