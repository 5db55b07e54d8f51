//! Where in a tape a reader stands: before, between or after the two `%` lines, or at a refusal.
//! feed.rt, open_line.rt and step.rt ask it; what a line does at each stage is in step.rt.
ghost use Rattle.std.specs.Prelude.{◌≡◌};
ghost use Rattle.nc_text.specs.Reading.{is_body, refusal_of};

use crate::fault::TextFault;

/// Where in a tape a reader stands.
#[derive(Clone, Copy, Debug)]
pub(crate) enum Stage {
    /// Before the first line that begins with `%`.
    Leader,
    /// Between the first and the second line that begin with `%`: the lines of the programs.
    Body,
    /// After the second line that begins with `%`.
    Rest,
    /// The text is refused, whatever follows.
    Refused(TextFault),
}

/// Whether the reader stands in the programs. Only there lines are kept whole, but for the `%` line
/// that ends them.
pub(crate) fn is_body(stage: Stage) -> bool
    ensures { result ≡ is_body stage }
{
    match stage {
        Stage::Leader => false,
        Stage::Body => true,
        Stage::Rest => false,
        Stage::Refused(_) => false,
    }
}

/// The refusal of the text, if it is refused. It stays, whatever follows.
pub(crate) fn refusal_of(stage: Stage) -> Option<TextFault>
    ensures { result ≡ refusal_of stage }
{
    match stage {
        Stage::Leader => None,
        Stage::Body => None,
        Stage::Rest => None,
        Stage::Refused(fault) => Some(fault),
    }
}
