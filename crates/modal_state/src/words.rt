//! The F, S and T words of a block: what they set. modal.rt takes them.
ghost use Rattle.std.specs.Prelude.{◌≡◌};
ghost use Rattle.std.specs.Result.{result_err};
ghost use Rattle.modal_state.specs.Said.{said_or, tool_offset};

use crate::fault::ModalFault;
use nc_number::{Cause, TOOL_OFFSETS, Var};

/// What the F, S and T words of a block say, each evaluated. A value that is vacant says nothing,
/// as if there were no such word.
#[derive(Clone, Copy, Debug, PartialEq, Eq)]
pub struct ModalWords {
    /// F, in whole units.
    pub feed: Var,
    /// S, in whole units.
    pub speed: SpeedWord,
    /// T aabb: the tool, of which the last two digits are its offset.
    pub tool: Option<u16>,
}

/// The S word of a block, by what it sets.
#[derive(Clone, Copy, Debug, PartialEq, Eq)]
pub enum SpeedWord {
    /// In a block without G50, or G92 of system B: the speed of the spindle, or the surface speed.
    Speed(Var),
    /// In a block with G50, or G92 of system B: the highest speed of the spindle, and nothing else.
    Limit(Var),
}

impl ModalWords {
    ghost use Rattle.modal_state.specs.Words.{tool_fault};

    /// Alarm 40, if the tool has an offset that does not exist.
    pub(crate) fn check(&self) -> Result<(), ModalFault>
        ensures { result_err result ≡ tool_fault self.now.tool }
    {
        match self.tool {
            Some(tool) if offset_of(tool) > TOOL_OFFSETS => Err(ModalFault::of(
                Cause::OffsetNumber,
            )),
            _ => Ok(()),
        }
    }
}

impl SpeedWord {
    ghost use Rattle.modal_state.specs.Words.{speed_after, limit_after};

    /// The speed after the block, of which this was in force before.
    pub(crate) fn speed_or(&self, before: &Var) -> Var
        ensures { result ≡ speed_after self.now before.now }
    {
        match self {
            SpeedWord::Speed(s) => said_or(s, before),
            SpeedWord::Limit(_) => *before,
        }
    }

    /// The highest speed after the block, of which this was in force before.
    pub(crate) fn limit_or(&self, before: &Var) -> Var
        ensures { result ≡ limit_after self.now before.now }
    {
        match self {
            SpeedWord::Speed(_) => *before,
            SpeedWord::Limit(s) => said_or(s, before),
        }
    }
}

/// What a word says, or what was in force where it says nothing.
pub(crate) fn said_or(said: &Var, before: &Var) -> Var
    ensures { result ≡ said_or said.now before.now }
{
    match said {
        Var::Vacant => *before,
        Var::Is(value) => Var::Is(*value),
    }
}

/// The tool offset of a tool: its last two digits.
pub(crate) fn offset_of(tool: u16) -> u8
    ensures { result ≡ tool_offset tool }
{
    (tool % 100) as u8
}
