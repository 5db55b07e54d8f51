//! How a text of zones is read: line by line, into the zones of a cell or its first bad line.
ghost use Rattle.std.specs.Prelude.{◌≡◌, ◌<◌, ◌^◌, length};
ghost use Rattle.nc_number.specs.Answers.{GivesBy};
ghost use Rattle.nc_number.specs.Causes.{cause_number};
ghost use Rattle.nc_number.specs.declared.cause.Cause.TheVariants as Cause;
ghost use Rattle.zone_cell.specs.Zones.{zones_of};
ghost use Rattle.zone_cell.specs.Faults.{fault_line};

use crate::cell::Zones;
use crate::named::read_line;
use field_lines::cut_line;
use nc_number::{Cause, Failing};
use std::alloc::Global;
use thiserror::Error;

/// The line of a text of zones that is not allowed, counted from 1.
#[derive(Clone, Copy, Debug, PartialEq, Eq, Error)]
#[error("line {line} of the zones is not allowed")]
pub struct ZoneFault {
    /// The first line that is not allowed, from 1.
    pub line: u32,
}

impl ZoneFault {
    /// The number of the refusal, that of [`BadZone`](Cause::BadZone).
    pub fn number(self) -> u8
        ensures { result ≡ cause_number Cause.BadZone }
    {
        Cause::BadZone.number()
    }
}

/// Reads a text of zones.
///
/// A line is empty, a comment that begins with `(`, or one of `frame p X.. Z..`, `mirror p` and
/// `gap X.. Z..`. A later frame of a path and a later gap take the place of an earlier one.
pub fn read_zones(alloc: Global, text: &[u8]) -> Result<Zones, Failing<ZoneFault>>
    requires { length text.now < 2 ^ 32 }
    // The zones that the text gives, or the first line that is not allowed, unless memory runs out.
    ensures exact { GivesBy (λ zones. zones) fault_line result (zones_of text.now) }
{
    let mut zones = Zones::standard();
    let mut rest = text;
    let mut line = 0u32;
    while !rest.is_empty() {
        let (front, after) = cut_line(rest);
        line += 1;
        match read_line(alloc, front)? {
            Some(entry) => zones.take(entry),
            None => return Err(Failing::Fault(ZoneFault { line })),
        }
        rest = after;
    }
    Ok(zones)
}
