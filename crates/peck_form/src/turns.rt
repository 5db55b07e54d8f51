//! The codes that turn the spindle of a tap about at the bottom, and back at its end.
ghost use Rattle.std.specs.Prelude.{◌≡◌, ◌++◌, OnOk};
ghost use Rattle.peck_form.specs.Turns.{code_value, turns_by, turns_of, turn_lines, spindle_lines};

use crate::kind::HoleKind;
use nc_number::Value;
use nc_text::Block;
use plain_form::{FormSettings, TapTurns, plain_line, push_number};
use std::alloc::{AllocError, Global};

/// The codes, as words say them; none on a machine that turns the spindle by itself.
#[derive(Clone, Copy, Debug, PartialEq, Eq)]
pub(crate) struct Turns {
    /// The code that turns it about.
    pub about: Option<Value>,
    /// The code that turns it back.
    pub back: Option<Value>,
}

/// The number of an M code, if words can say it.
fn code_value(code: u32) -> Option<Value>
    ensures { result ≡ code_value code }
{
    Value::of_units(i64::from(code))
}

/// The codes as words say them.
fn turns_by(turns: &Option<TapTurns>) -> Turns
    ensures { result ≡ turns_by turns.now }
{
    match turns {
        Some(codes) => Turns {
            about: code_value(codes.reverse),
            back: code_value(codes.forward),
        },
        None => Turns {
            about: None,
            back: None,
        },
    }
}

/// The codes of a machine.
pub(crate) fn turns_of(settings: &FormSettings) -> Turns
    ensures { result ≡ turns_of settings.now }
{
    turns_by(&settings.tap_turns)
}

/// Puts the block of an M code that turns the spindle, if the holes are tapped.
pub(crate) fn push_turn(
    alloc: Global,
    kind: HoleKind,
    code: &Option<Value>,
    lines: &mut Vec<Block>,
) -> Result<(), AllocError>
    ensures { OnOk result (lines.new.items ≡ lines.old.items ++ turn_lines kind code.now) }
{
    match kind {
        HoleKind::Tap => push_spindle(alloc, code, lines),
        HoleKind::Drill | HoleKind::Bore => Ok(()),
    }
}

/// Puts the block of an M code, if there is one.
fn push_spindle(
    alloc: Global,
    code: &Option<Value>,
    lines: &mut Vec<Block>,
) -> Result<(), AllocError>
    ensures { OnOk result (lines.new.items ≡ lines.old.items ++ spindle_lines code.now) }
{
    let Some(code) = *code else {
        return Ok(());
    };
    let mut words = Vec::new(alloc);
    push_number(alloc, &mut words, b'M', code)?;
    lines.push(plain_line(words))?;
    Ok(())
}
