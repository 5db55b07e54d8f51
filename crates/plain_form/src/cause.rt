//! Why a block can't be written out.
use thiserror::Error;

/// Why a block can't be written out. A letter is that of the word at fault.
#[derive(Clone, Copy, Debug, PartialEq, Eq, Error)]
pub enum PlainCause {
    /// The control knows the block, and no form takes it.
    #[error("no form takes this block")]
    NoForm,
    /// Where the tool stands is not known.
    #[error("the position is not known")]
    Position,
    /// The feed is not known.
    #[error("the feed is not known")]
    Feed,
    /// The unit of lengths is not known.
    #[error("the unit is not known")]
    Unit,
    /// Whether lengths are places or ways is not known, or they are ways (G91).
    #[error("lengths are ways")]
    Incremental,
    /// The word's value is calculated.
    #[error("{0} is calculated")]
    Calculated(u8),
    /// The form needs the word.
    #[error("{0} is missing")]
    Missing(u8),
    /// The form does not take the word.
    #[error("{0} is not taken")]
    Unexpected(u8),
    /// The form does not take the word's value.
    #[error("{0} is out of range")]
    Range(u8),
    /// The line needs a line of the settings.
    #[error("a setting is missing")]
    Setting,
    /// The blocks that P and Q name are no contour.
    #[error("no contour")]
    Contour,
    /// The contour goes back where its cycle does not take that.
    #[error("the contour goes back")]
    Direction,
    /// The start lies inside the part.
    #[error("the start lies inside the part")]
    Start,
    /// The contour with its allowances crosses itself.
    #[error("an allowance crosses the contour")]
    Allowance,
    /// An arc has no circle.
    #[error("an arc has no circle")]
    Arc,
    /// The form has more than 1,000 passes or pecks.
    #[error("too many passes")]
    Passes,
    /// A corner is longer than its lines.
    #[error("a corner is too long")]
    Corner,
    /// The nose of the tool does not fit.
    #[error("the nose does not fit")]
    Nose,
    /// A sequence number that goes may be the target of a jump.
    #[error("a jump may lead here")]
    Target,
    /// A wait, a jump, a loop, a call or an end stands in the form.
    #[error("control does not go on here")]
    Control,
    /// The line has a skip sign.
    #[error("a skip sign")]
    Skip,
}

/// A line that can't be written out, and why.
#[derive(Clone, Copy, Debug, PartialEq, Eq, Error)]
#[error("refusal 96 at line {line}")]
pub struct PlainFault {
    /// The line, from 1.
    pub line: u32,
    /// Why.
    pub cause: PlainCause,
}

impl PlainCause {
    ghost use Rattle.std.specs.Prelude.{◌≡◌};
    ghost use Rattle.plain_form.specs.Causes.{cause_name, cause_letter};

    /// The name under which the cause is printed.
    pub fn name(self) -> &'static str
        ensures { result.now ≡ cause_name self }
    {
        match self {
            PlainCause::NoForm => "NoForm",
            PlainCause::Position => "Position",
            PlainCause::Feed => "Feed",
            PlainCause::Unit => "Unit",
            PlainCause::Incremental => "Incremental",
            PlainCause::Calculated(_) => "Calculated",
            PlainCause::Missing(_) => "Missing",
            PlainCause::Unexpected(_) => "Unexpected",
            PlainCause::Range(_) => "Range",
            PlainCause::Setting => "Setting",
            PlainCause::Contour => "Contour",
            PlainCause::Direction => "Direction",
            PlainCause::Start => "Start",
            PlainCause::Allowance => "Allowance",
            PlainCause::Arc => "Arc",
            PlainCause::Passes => "Passes",
            PlainCause::Corner => "Corner",
            PlainCause::Nose => "Nose",
            PlainCause::Target => "Target",
            PlainCause::Control => "Control",
            PlainCause::Skip => "Skip",
        }
    }

    /// The letter of the word at fault, if the cause is about one.
    pub fn letter(self) -> Option<u8>
        ensures { result ≡ cause_letter self }
    {
        match self {
            PlainCause::Calculated(letter) => Some(letter),
            PlainCause::Missing(letter) => Some(letter),
            PlainCause::Unexpected(letter) => Some(letter),
            PlainCause::Range(letter) => Some(letter),
            _ => None,
        }
    }
}
