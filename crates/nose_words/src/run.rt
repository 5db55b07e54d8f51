//! The lines of a run: from G41 or G42 to the line that leads off the contour.
ghost use Rattle.std.specs.Prelude.{◌≡◌, ◌++◌, ◌∷◌, [], All, IfOk, OnOk};
ghost use Rattle.nc_number.specs.Position.{IsPosition};
ghost use Rattle.nose_words.specs.Said.{LeadsToPosition, LeadThere};
ghost use Rattle.nose_words.specs.Run.{lines_of_said, open_run, ended, run_from, LeadToPositions};

use crate::said::{NoseLine, Standing, block_said};
use nc_number::{ListOf, Value};
use nc_text::Block;
use plain_form::{PlainCause, PlainFault};
use std::alloc::{AllocError, Global};

/// The lines of a run.
pub(crate) type NoseLineList = ListOf<NoseLine>;

/// A run that was read.
#[derive(Debug, Drop)]
pub(crate) enum RunRead {
    /// Its lines: to the contour, along it, and off it.
    Whole {
        /// Those to the contour and along it.
        lines: NoseLineList,
        /// The one that leads off it.
        off: NoseLine,
    },
    /// The line at fault, and why.
    Stops(PlainFault),
}

/// Puts a line.
pub(crate) fn push_line(lines: &mut Vec<NoseLine>, line: &NoseLine) -> Result<(), AllocError>
    ensures { OnOk result (lines.new.items ≡ lines.old.items ++ line.now ∷ []) }
{
    let feed: Option<Value> = line.feed;
    lines.push(NoseLine {
        line: line.line,
        behind_code: line.behind_code,
        to: line.to,
        pace: line.pace,
        feed,
    })?;
    Ok(())
}

/// Puts the line that a block says, if it says one.
#[tactic(auto, using(crate::proofs::Leading::lead_on))]
fn push_said(lines: &mut Vec<NoseLine>, line: &Option<NoseLine>) -> Result<(), AllocError>
    requires lines { All LeadsToPosition lines.now.items }
    requires line { LeadThere line.now }
    ensures lines { OnOk result (lines.new.items ≡ lines.old.items ++ lines_of_said line.now) }
    ensures lead { OnOk result (All LeadsToPosition lines.new.items) }
{
    match line {
        Some(line) => push_line(lines, line),
        None => Ok(()),
    }
}

/// The run that ends with the line that a block says: it says one.
fn ended(lines: Vec<NoseLine>, line: Option<NoseLine>, first: u32) -> RunRead
    requires lines { All LeadsToPosition lines.items }
    requires line { LeadThere line }
    ensures run { result ≡ ended lines.items line first }
    ensures positions { LeadToPositions result }
{
    match line {
        Some(off) => RunRead::Whole {
            lines: ListOf::of(lines),
            off,
        },
        None => open_run(first),
    }
}

/// That the run which began in this line of the tape has no G40.
fn open_run(first: u32) -> RunRead
    ensures { result ≡ open_run first }
{
    RunRead::Stops(PlainFault {
        line: first,
        cause: PlainCause::Missing(b'G'),
    })
}

/// The run that begins with the first of these blocks, in this line of the tape. One that has no end
/// misses its G40.
pub(crate) fn run_lines(
    alloc: Global,
    first: u32,
    start: &Standing,
    blocks: &[Block],
) -> Result<RunRead, AllocError>
    requires { IsPosition start.now.from }
    ensures run { IfOk result (λ run. run ≡ run_from first start.now [] blocks.now) }
    ensures positions { IfOk result LeadToPositions }
{
    let mut lines = Vec::new(alloc);
    let mut standing = *start;
    for block in blocks {
        let said = match block_said(block, &standing) {
            Ok(said) => said,
            Err(cause) => {
                return Ok(RunRead::Stops(PlainFault {
                    line: block.line,
                    cause,
                }));
            }
        };
        if said.last {
            return Ok(ended(lines, said.line, first));
        }
        push_said(&mut lines, &said.line)?;
        standing = said.behind;
    }
    Ok(open_run(first))
}
