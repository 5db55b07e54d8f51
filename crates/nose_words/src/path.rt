//! The path of a tool's nose along the lines of a run.
ghost use Rattle.std.specs.Prelude.{◌≡◌, ◌≤◌, All, IfOk, IfErr, Ok, Err, map};
ghost use Rattle.nc_number.specs.Position.{IsPosition};
ghost use Rattle.plane_ways.specs.declared.place.TheConstants.{FAR};
ghost use Rattle.plane_ways.specs.Plane.{IsWithin};
ghost use Rattle.nose_path.specs.declared.nose.TheConstants.{LARGEST_RADIUS};
ghost use Rattle.nose_path.specs.Legs.{AreNear};
ghost use Rattle.nose_words.specs.Said.{LeadsToPosition};
ghost use Rattle.nose_words.specs.Told.{IsSmall};
ghost use Rattle.nose_words.specs.Path.{end_place, line_number, fault_cause, fault_of, nose_of, ends_of, contour_path, run_path};

use crate::said::NoseLine;
use crate::told::Tip;
use nc_number::{ListOf, Point};
use nose_path::{Ends, Nose, NoseCause, NoseFault, StartUp, centre_of, nose_path};
use plain_form::{PlainCause, PlainFault};
use plane_ways::{Line, Place, Side, place_of};
use std::alloc::{AllocError, Global};

/// The legs of a path.
pub(crate) type LegList = ListOf<Line>;

/// A path that was looked for.
#[derive(Debug, Drop)]
pub(crate) enum PathRead {
    /// Its legs: to the contour, beside each of its lines, and off it.
    Legs(LegList),
    /// The line at fault, and why.
    Stops(PlainFault),
}

/// The places to which lines lead.
fn places_to(alloc: Global, lines: &[NoseLine]) -> Result<Vec<Place>, AllocError>
    requires { All LeadsToPosition lines.now }
    ensures places { IfOk result (λ places. places.items ≡ map end_place lines.now) }
    ensures near { IfOk result (λ places. All (IsWithin FAR) places.items) }
{
    let mut places = Vec::new(alloc);
    for line in lines {
        places.push(place_of(&line.to))?;
    }
    Ok(places)
}

/// The line of the tape at which a leg stands: that of the last one is the line that leads off.
fn line_number(lines: &[NoseLine], off: u32, leg: usize) -> u32
    ensures { result ≡ line_number lines.now off leg }
{
    match lines.get(leg) {
        Some(line) => line.line,
        None => off,
    }
}

/// Why there is no path.
fn fault_cause(cause: NoseCause) -> PlainCause
    ensures { result ≡ fault_cause cause }
{
    match cause {
        NoseCause::NoLength => PlainCause::Missing(b'X'),
        NoseCause::UsedUp | NoseCause::TooNear => PlainCause::Nose,
    }
}

/// The line of the tape that is at fault.
fn fault_of(lines: &[NoseLine], off: u32, fault: &NoseFault) -> PlainFault
    ensures { result ≡ fault_of lines.now off fault.now }
{
    PlainFault {
        line: line_number(lines, off, fault.leg),
        cause: fault_cause(fault.cause),
    }
}

/// The nose in force: compensation begins and ends square to the contour.
fn nose_of(side: Side, tip: &Tip) -> Nose
    ensures { result ≡ nose_of side tip.now }
{
    Nose {
        side,
        radius: tip.radius,
        start_up: StartUp::Square,
    }
}

/// What lies before and after the contour of a run that begins at a point.
fn ends_of(tip: &Tip, start: &Point, off: &Point) -> Ends
    requires tip { IsSmall tip.now }
    requires start { IsPosition start.now }
    requires off { IsPosition off.now }
    ensures ends { result ≡ ends_of tip.now start.now off.now }
    ensures near { AreNear result }
{
    Ends {
        start: centre_of(tip.number, tip.radius, start),
        before: place_of(start),
        after: place_of(off),
        end: centre_of(tip.number, tip.radius, off),
    }
}

/// The legs along a contour that the first of these lines leads to, or why there are none.
fn legs_along(
    alloc: Global,
    nose: &Nose,
    ends: &Ends,
    lead: &NoseLine,
    along: &[NoseLine],
) -> Result<Result<Vec<Line>, NoseFault>, AllocError>
    requires nose { nose.now.radius ≤ LARGEST_RADIUS }
    requires ends { AreNear ends.now }
    requires lead { LeadsToPosition lead.now }
    requires along { All LeadsToPosition along.now }
    ensures path { IfOk result (λ path. IfOk path (λ v. contour_path nose.now ends.now lead.now along.now ≡ Ok v.items)) }
    ensures fault { IfOk result (λ path. IfErr path (λ fault. contour_path nose.now ends.now lead.now along.now ≡ Err fault)) }
{
    let first = place_of(&lead.to);
    let points = places_to(alloc, along)?;
    nose_path(alloc, nose, ends, &first, &points)
}

/// The path of this nose along lines that begin at a point; `off` leads off their contour.
pub(crate) fn run_path(
    alloc: Global,
    side: Side,
    tip: &Tip,
    start: &Point,
    lines: &[NoseLine],
    off: &NoseLine,
) -> Result<PathRead, AllocError>
    requires tip { IsSmall tip.now }
    requires start { IsPosition start.now }
    requires lines { All LeadsToPosition lines.now }
    requires off { LeadsToPosition off.now }
    ensures { IfOk result (λ path. path ≡ run_path side tip.now start.now lines.now off.now) }
{
    let Some((lead, along)) = lines.split_first() else {
        return Ok(PathRead::Stops(PlainFault {
            line: off.line,
            cause: PlainCause::Missing(b'X'),
        }));
    };
    let nose = nose_of(side, tip);
    let ends = ends_of(tip, start, &off.to);
    match legs_along(alloc, &nose, &ends, lead, along)? {
        Ok(legs) => Ok(PathRead::Legs(ListOf::of(legs))),
        Err(fault) => Ok(PathRead::Stops(fault_of(lines, off.line, &fault))),
    }
}
