//! What is known behind a block, by what is known before it and by its text.
ghost use Rattle.std.specs.Prelude.{◌≡◌};
ghost use Rattle.macro_expr.specs.Tree.{variable_of as name_of, sentence_of};
ghost use Rattle.block_words.specs.Codes.{is_macro, rows as rows_in, one_shot as one_shot_in};
ghost use Rattle.known_blocks.specs.Heard.{silence, heard_words as words_heard};
ghost use Rattle.block_values.specs.Values.{is_dwell};
ghost use Rattle.known_blocks.specs.Behind.{known_behind_codes, known_behind_motion, known_behind_words, may_offset_variable, may_offset, known_behind_sentence, known_behind as known_behind_body, known_behind_block};

use crate::codes::{known_in_force, may_shift};
use crate::heard::{Heard, heard_words};
use crate::known::Known;
use crate::places::{known_axis, known_end};
use block_forms::{FlowBody, FlowWords};
use block_order::Control;
use block_words::Purpose;
use code_tables::{CodeKind, Row};
use common_vars::{Variable, variable_of};
use macro_expr::{Statement, VarRef};

/// What is known behind the words of a block with these codes.
fn known_behind_codes(
    rows: &[Row],
    one_shot: Option<CodeKind>,
    heard: &Heard,
    known: &Known,
) -> Known
    ensures { result ≡ known_behind_codes rows.now one_shot heard.now known.now }
{
    let in_force = known_in_force(rows, heard, known);
    let now = in_force.counted(may_shift(rows, heard));
    let x = known_axis(now.incremental, heard.x, heard.u);
    let z = known_axis(now.incremental, heard.z, heard.w);
    known_end(one_shot, x, z, &now)
}

/// Whether the codes of a block make it a dwell.
fn is_dwell(purpose: Purpose) -> bool
    ensures { result ≡ is_dwell purpose }
{
    matches!(purpose, Purpose::Dwell)
}

/// Whether the codes of a block make it a macro call.
fn is_macro(purpose: Purpose) -> bool
    ensures { result ≡ is_macro purpose }
{
    matches!(purpose, Purpose::MacroCall)
}

/// What is known behind a block of words that is no macro call.
fn known_behind_motion(words: &FlowWords, known: &Known) -> Known
    ensures { result
        ≡ known_behind_motion words.now.purpose words.now.dialect.system words.now.words known.now }
{
    let heard = heard_words(is_dwell(words.purpose), words.words.as_slice());
    known_behind_codes(words.rows.as_slice(), words.one_shot, &heard, known)
}

/// What is known behind a block of words; a macro call moves nothing by itself.
fn known_behind_words(words: &FlowWords, known: &Known) -> Known
    ensures { result
        ≡ known_behind_words words.now.purpose words.now.dialect.system words.now.words known.now }
{
    if is_macro(words.purpose) {
        *known
    } else {
        known_behind_motion(words, known)
    }
}

/// Whether this variable is a part of a work offset.
fn may_offset_variable(variable: Option<Variable>) -> bool
    ensures { result ≡ may_offset_variable variable }
{
    matches!(variable, Some(Variable::Work(_, _)))
}

/// Whether an assignment to this left side may set a work offset.
fn may_offset(left: &VarRef) -> bool
    ensures { result ≡ may_offset (name_of left.now) }
{
    match left {
        VarRef::Fixed(number) => may_offset_variable(variable_of(*number)),
        VarRef::Computed(_) => true,
    }
}

/// What is known behind a statement.
fn known_behind_statement(statement: &Statement, known: &Known) -> Known
    ensures { result ≡ known_behind_sentence (sentence_of statement.now) known.now }
{
    match statement {
        Statement::Assign(left, _) | Statement::IfThen(_, left, _) => known.counted(may_offset(
            left,
        )),
        _ => *known,
    }
}

/// What is known behind a block that the next one follows.
fn known_behind_body(body: &FlowBody, known: &Known) -> Known
    ensures { result ≡ known_behind_body body.now known.now }
{
    match body {
        FlowBody::Words(words) => known_behind_words(words, known),
        FlowBody::Statement(statement) => known_behind_statement(&statement.statement, known),
    }
}

/// What is known behind a block of this control, if it is not an entry. A wait is passed, and
/// nothing else of its block is done.
pub fn known_behind(body: &FlowBody, control: Control, known: &Known) -> Known
    ensures { result ≡ known_behind_block body.now control known.now }
{
    match (body, control) {
        (FlowBody::Words(_), Control::Wait(_)) => *known,
        _ => known_behind_body(body, known),
    }
}
