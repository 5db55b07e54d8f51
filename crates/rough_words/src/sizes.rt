//! The sizes of a form: what words say, and what the machine decides.
ghost use Rattle.std.specs.Prelude.{◌≡◌, ◌≤◌, Some, IfOk, IfSome};
ghost use Rattle.nc_number.specs.declared.limits.TheConstants.{LONGEST_SAID};
ghost use Rattle.rough_words.specs.Heads.{IsNearHead};
ghost use Rattle.rough_words.specs.Sizings.{size_within, required, across_said, along_said, sizes_of, IsNearSizes};

use crate::frames::allowance;
use crate::head::Head;
use arc_contour::Way;
use contour_words::fault;
use plain_form::{FormSettings, PlainCause, PlainFault};
use rough_forms::Frame;

/// The sizes of a form, as they are seen, in 0.001 mm.
#[derive(Clone, Copy, Debug)]
pub struct Sizes {
    /// The depth of a cut.
    pub depth: u64,
    /// How far a pass draws back.
    pub retreat: u64,
    /// The allowance across the passes.
    pub across: u64,
    /// The allowance along them.
    pub along: u64,
}

/// The size that a word says, or else a setting; at most 100 km.
fn size_within(said: Option<u64>, setting: Option<u64>) -> Option<u64>
    ensures size { result ≡ size_within said setting }
    ensures near { IfSome result (λ l. l ≤ LONGEST_SAID) }
{
    let size = said.or(setting)?;
    if size <= 100_000_000_000 {
        Some(size)
    } else {
        None
    }
}

/// A size, or a refusal where there is none.
pub(crate) fn required(line: u32, cause: PlainCause, size: Option<u64>) -> Result<u64, PlainFault>
    requires { IfSome size (λ l. l ≤ LONGEST_SAID) }
    ensures size { result ≡ required line cause size }
    ensures near { IfOk result (λ l. l ≤ LONGEST_SAID) }
{
    match size {
        Some(size) => Ok(size),
        None => Err(fault(line, cause)),
    }
}

/// The allowance of a call across the passes, as the tape has it.
fn across_said(head: &Head) -> i64
    ensures { result ≡ across_said head.now }
{
    match head.way {
        Way::Along => head.x,
        Way::Across => head.z,
    }
}

/// The allowance of a call along the passes, as the tape has it.
fn along_said(head: &Head) -> i64
    ensures { result ≡ along_said head.now }
{
    match head.way {
        Way::Along => head.z,
        Way::Across => head.x,
    }
}

/// The sizes of a form: a depth and a retreat that no word says are the settings'; an allowance does
/// not lead into the part.
#[tactic(auto, unfolding(crate::specs::Sizings::sizes_of))]
pub(crate) fn sizes_of(
    head: &Head,
    settings: &FormSettings,
    frame: &Frame,
) -> Result<Sizes, PlainFault>
    requires { IsNearHead head.now }
    ensures sizes { result ≡ sizes_of head.now settings.now frame.now }
    ensures near { IfOk result IsNearSizes }
{
    let line = head.call.line;
    let depth = required(
        line,
        PlainCause::Setting,
        size_within(head.cut.depth, settings.rough_depth),
    )?;
    let retreat = required(
        line,
        PlainCause::Setting,
        size_within(head.cut.retreat, Some(settings.rough_retreat)),
    )?;
    let across = required(
        line,
        PlainCause::Allowance,
        allowance(frame.across, across_said(head)),
    )?;
    let along = required(
        line,
        PlainCause::Allowance,
        allowance(frame.along, along_said(head)),
    )?;
    Ok(Sizes {
        depth,
        retreat,
        across,
        along,
    })
}
