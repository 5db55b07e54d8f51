//! Which modal state is in force behind the codes and words of a block. Tests call `modal_of_rows`.
ghost use Rattle.std.specs.Prelude.{◌≡◌};
ghost use Rattle.block_words.specs.Codes.{rows};
ghost use Rattle.block_values.specs.InForce.{modal_after, speed_word, settings_said, has_limit, modal_of_rows};
ghost use Rattle.block_values.specs.Seen.{values_seen};

use crate::values::Values;
use block_forms::FlowWords;
use code_tables::{CodeKind, Row};
use modal_state::{Modal, ModalWords, SpeedWord};
use nc_number::Var;

/// The modal state behind a block: its G codes, by their rows in the block's order, set their
/// groups, and then F, S and T are taken. Beside G50 S is the highest speed. Alarm 40, as its
/// number, exactly if the tool offset of T is none of 0 to 64.
pub fn modal_of_rows(
    modal: &Modal,
    rows: &[Row],
    feed: Var,
    speed: Var,
    tool: Option<u16>,
) -> Result<Modal, u8>
    ensures { result ≡ modal_of_rows modal.now rows.now (settings_said feed speed tool) }
{
    let mut after = *modal;
    after.take(rows);
    let words = ModalWords {
        feed,
        speed: speed_word(has_limit(rows), speed),
        tool,
    };
    match after.take_values(&words) {
        Ok(()) => Ok(after),
        Err(fault) => Err(fault.number),
    }
}

/// The modal state behind the codes and words of a block; alarm 40, as its number, if T names no
/// tool offset from 0 to 64.
pub fn modal_after(modal: &Modal, words: &FlowWords, values: &Values) -> Result<Modal, u8>
    ensures { result ≡ modal_after modal.now words.now.dialect.system words.now.words (values_seen values.now) }
{
    modal_of_rows(
        modal,
        words.rows.as_slice(),
        values.feed,
        values.speed,
        values.tool,
    )
}

/// Whether G50 is among these rows.
fn has_limit(rows: &[Row]) -> bool
    ensures { result ≡ has_limit rows.now }
{
    rows.iter().any(|row| matches!(row.kind, CodeKind::Limit))
}

/// What S of a block says: the highest speed beside G50, else the speed.
fn speed_word(limits: bool, speed: Var) -> SpeedWord
    ensures { result ≡ speed_word limits speed }
{
    if limits {
        SpeedWord::Limit(speed)
    } else {
        SpeedWord::Speed(speed)
    }
}
