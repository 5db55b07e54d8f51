//! How many blocks a tape has with its cycles written out: the check of refusal 94.
ghost use Rattle.std.specs.Prelude.{◌≡◌, ◌≤◌, IfOk};
ghost use Rattle.nc_number.specs.Answers.{Gives};
ghost use Rattle.nc_number.specs.declared.limits.TheConstants.{MOST_BLOCKS};
ghost use Rattle.cycle_form.specs.Sizes.{blocks_with, first_line, size_verdict};

use crate::fault::CycleFault;
use crate::part::Part;
use nc_number::{Failing, MOST_BLOCKS};
use std::alloc::{AllocError, Global};

/// The first of these lines; 0 if there is none, but every part has a line.
fn first_line(lines: &[u32]) -> u32
    ensures { result ≡ first_line lines.now }
{
    match lines.first() {
        Some(line) => *line,
        None => 0,
    }
}

/// The count of blocks with those of a part in place of its lines. The only error is out of memory.
fn blocks_with(alloc: Global, blocks: u128, part: &Part) -> Result<u128, AllocError>
    requires { blocks ≤ MOST_BLOCKS }
    ensures { IfOk result (λ more. more ≡ blocks_with blocks part.now) }
{
    let made = part.blocks(alloc)?.len() as u128;
    Ok((blocks + made).saturating_sub(part.lines().len() as u128))
}

/// Whether a tape of so many blocks has at most 20,000 once these parts are written out.
///
/// Errors: 94 at the first line of the part with which it first has more; out of memory.
pub fn check_sizes(alloc: Global, blocks: usize, parts: &[Part]) -> Result<(), Failing<CycleFault>>
    requires { blocks ≤ MOST_BLOCKS }
    ensures { Gives (λ _. tt) result (size_verdict blocks parts.now) }
{
    let mut count = blocks as u128;
    for part in parts {
        count = blocks_with(alloc, count, part)?;
        if count > MOST_BLOCKS as u128 {
            return Err(Failing::Fault(CycleFault::TooLarge(first_line(part.lines()))));
        }
    }
    Ok(())
}
