//! A block that is not refused, and the call that it is.
ghost use Rattle.std.specs.Prelude.{◌≡◌, ◌≤◌, true, None};
ghost use Rattle.nc_number.specs.declared.limits.TheConstants.{MOST_READS};
ghost use Rattle.block_forms.specs.Controls.{is_allowed};
ghost use Rattle.block_forms.specs.Variables.{variables_of_body};
ghost use Rattle.block_forms.specs.Views.{refusal_of_body, control_of, call_of, kind_of_call, called_by};

use crate::body::FlowBody;
use crate::called::{CallKind, Called};
use block_order::Control;
use block_words::Purpose;

/// A block that is not refused.
///
/// By its type its control is that of its body and one that is allowed, no refusal holds of what it
/// says, and it names at most 32 variables.
#[derive(Drop)]
pub struct FlowBlock {
    /// The number of its line, from 1.
    pub line: u32,
    /// Its sequence number, at most 99,999.
    pub sequence: Option<u32>,
    /// What stands in it.
    pub body: FlowBody,
    /// What it does to the order of blocks.
    pub control: Control,
    ghost controls: { control ≡ control_of body },
    ghost allowed: { is_allowed control ≡ true },
    ghost accepted: { refusal_of_body body ≡ None },
    ghost few: { variables_of_body body ≤ MOST_READS },
}

impl FlowBlock {
    ghost use Rattle.std.specs.Prelude.{IfSome};

    /// The call that the block is, by M98 or by G65, if it is one.
    pub fn calls(&self) -> Option<Called>
        ensures value { result ≡ call_of self.now.body self.now.control }
        ensures program { IfSome result (λ called. called.program ≤ 9999) }
        ensures repeats { IfSome result (λ called. (1 ≤ called.repeats) × (called.repeats ≤ 9999)) }
    {
        match &self.body {
            FlowBody::Words(words) => called_by(kind_of_call(words.purpose), self.control),
            FlowBody::Statement(_) => None,
        }
    }
}

/// How a block of this purpose calls: by G65 if its words are a macro call, else by M98.
fn kind_of_call(purpose: Purpose) -> CallKind
    ensures { result ≡ kind_of_call purpose }
{
    match purpose {
        Purpose::MacroCall => CallKind::Macro,
        _ => CallKind::Subprogram,
    }
}

/// The call that a control is; none if the block does something else to the order of blocks.
fn called_by(kind: CallKind, control: Control) -> Option<Called>
    ensures { result ≡ called_by kind control }
{
    match control {
        Control::Call { program, repeats } => Some(Called {
            program,
            repeats,
            kind,
        }),
        _ => None,
    }
}
