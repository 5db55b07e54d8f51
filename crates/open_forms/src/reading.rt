//! A block, read for its control alone: its words by controls.rt, its statement by statement.rt.
ghost use Rattle.std.specs.Prelude.{◌≡◌};
ghost use Rattle.open_forms.specs.Controls.{open_control, control_or_number};

use crate::controls::control_of_words;
use crate::statement::control_of_statement;
use block_forms::{Dialect, FormFault};
use block_order::Control;
use nc_number::Cause;
use nc_text::{Block, Body};

/// The control, or the refusal by its number.
fn numbered(read: Result<Control, Cause>) -> Result<Control, FormFault>
    ensures { result ≡ control_or_number read }
{
    match read {
        Ok(control) => Ok(control),
        Err(cause) => Err(FormFault {
            number: cause.number(),
        }),
    }
}

/// What a block does to the order of blocks.
///
/// Nothing else that it says is looked into. It is refused if its control can't be told, and if a
/// code of it may call or wait in a way that is not known here: of several refusals with the one of
/// the least number, 5, 20, 22, 24, 54, 56 to 59, 61 or 64.
pub fn open_control(block: &Block, dialect: &Dialect) -> Result<Control, FormFault>
    ensures { result ≡ control_or_number (open_control dialect.now block.now.body) }
{
    match &block.body {
        Body::Words(words) => numbered(control_of_words(*dialect, words.as_slice())),
        Body::Statement(text) => numbered(control_of_statement(text.as_slice())),
    }
}
