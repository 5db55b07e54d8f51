//! A tape written out, or why it is refused: read (comma_words), what becomes of its blocks found
//! (plain_blocks) and sized, put together, and read again.
ghost use Rattle.std.specs.Prelude.{◌≡◌, ◌<◌, ◌^◌, length, All};
ghost use Rattle.nc_number.specs.Answers.{Gives};
ghost use Rattle.cell_settings.specs.Cell.{settings_of};
ghost use Rattle.nc_text.specs.Tape.{tape_of};
ghost use Rattle.comma_words.specs.Reading.{comma_tape};
ghost use Rattle.plain_blocks.specs.Order.{HasNumber};
ghost use Rattle.tape_plain.specs.Plain.{dialect_in, plain_by, plain_text, sized_steps, steps_by_rules, steps_in, written_text, shop_text, own_text, plain_by_commas, plain_quiet, plain_of};
ghost use Rattle.output_lines.specs.Lines.{without_outputs};

use crate::again::{all_kept, checked};
use crate::comments::comments_of;
use crate::draft::{edits_of, size_of};
use crate::fault::PlainTapeFault;
use crate::rules::rules_of;
use block_forms::Dialect;
use cell_settings::read_settings;
use comma_words::{comma_tape, read_tape};
use form_lines::{cell_text, read_choices};
use line_edits::edited;
use nc_number::Failing;
use nc_text::Program;
use output_lines::without_outputs;
use plain_blocks::{Rules, StepList, written_tape};
use plain_form::FormSettings;
use std::alloc::Global;

/// These steps, if a tape has at most 20,000 blocks with them.
fn sized(all: Vec<StepList>) -> Result<Vec<StepList>, Failing<PlainTapeFault>>
    ensures { Gives (λ all. all.items) result (sized_steps all.items) }
{
    match size_of(&all) {
        Ok(_) => Ok(all),
        Err(fault) => Err(Failing::Fault(fault)),
    }
}

/// What becomes of the blocks of a tape, if they can be written out and the tape does not grow too
/// large.
fn steps_by_rules(
    alloc: Global,
    rules: &Rules,
    tape: &[Program],
) -> Result<Vec<StepList>, Failing<PlainTapeFault>>
    requires { All HasNumber tape.now }
    ensures { Gives (λ all. all.items) result (steps_by_rules rules.now tape.now) }
{
    match written_tape(alloc, rules, tape) {
        Ok(all) => sized(all),
        Err(Failing::Fault(fault)) => Err(Failing::Fault(PlainTapeFault::NotPlain(fault))),
        Err(Failing::NoMemory) => Err(Failing::NoMemory),
    }
}

/// The text with what becomes of the blocks of its tape, if it reads as that.
fn written(
    alloc: Global,
    rules: Rules,
    text: &[u8],
    tape: &[Program],
    all: &[StepList],
) -> Result<Vec<u8>, Failing<PlainTapeFault>>
    ensures { Gives (λ bytes. bytes.items) result
        (written_text rules.dialect rules.settings text.now tape.now all.now) }
{
    let comments = comments_of(alloc, text)?;
    let edits = edits_of(alloc, &comments, all)?;
    let bytes = edited(alloc, text, &edits)?;
    match checked(alloc, rules, tape, all, &edits, bytes) {
        Ok(bytes) => Ok(bytes),
        Err(fault) => Err(fault),
    }
}

/// The text of a tape that was read from this one with words after commas.
fn shop_text(
    alloc: Global,
    dialect: &Dialect,
    forms: FormSettings,
    text: &[u8],
    tape: &[Program],
) -> Result<Vec<u8>, Failing<PlainTapeFault>>
    requires { All HasNumber tape.now }
    ensures { Gives (λ bytes. bytes.items) result
        (shop_text dialect.now forms text.now tape.now (steps_in dialect.now forms text.now tape.now)) }
{
    let rules = rules_of(alloc, dialect, forms, text, tape)?;
    let all = match steps_by_rules(alloc, &rules, tape) {
        Ok(all) => all,
        Err(fault) => return Err(fault),
    };
    match written(alloc, rules, text, tape, &all) {
        Ok(bytes) => Ok(bytes),
        Err(fault) => Err(fault),
    }
}

/// The text of a tape that was read from this one as it stands: the text itself, if all blocks stay.
fn own_text(
    alloc: Global,
    dialect: &Dialect,
    forms: FormSettings,
    text: &[u8],
    tape: &[Program],
) -> Result<Vec<u8>, Failing<PlainTapeFault>>
    requires { All HasNumber tape.now }
    ensures { Gives (λ bytes. bytes.items) result
        (own_text dialect.now forms text.now tape.now (steps_in dialect.now forms text.now tape.now)) }
{
    let rules = rules_of(alloc, dialect, forms, text, tape)?;
    let all = match steps_by_rules(alloc, &rules, tape) {
        Ok(all) => all,
        Err(fault) => return Err(fault),
    };
    if all_kept(&all) {
        let bytes = Vec::from_slice(alloc, text)?;
        return Ok(bytes);
    }
    match written(alloc, rules, text, tape, &all) {
        Ok(bytes) => Ok(bytes),
        Err(fault) => Err(fault),
    }
}

/// The text of a tape in which words may stand after commas, or why it is refused.
fn comma_text(
    alloc: Global,
    dialect: &Dialect,
    forms: FormSettings,
    text: &[u8],
) -> Result<Vec<u8>, Failing<PlainTapeFault>>
    ensures { Gives (λ bytes. bytes.items) result (plain_by_commas dialect.now forms text.now (comma_tape text.now)) }
{
    match comma_tape(alloc, text) {
        Ok(tape) => shop_text(alloc, dialect, forms, text, &tape),
        Err(Failing::Fault(fault)) => Err(Failing::Fault(PlainTapeFault::Unreadable(fault))),
        Err(Failing::NoMemory) => Err(Failing::NoMemory),
    }
}

/// The text of a tape without statements that print or write a file, or why it is refused: one that
/// reads as it stands has no word after a comma.
fn quiet_text(
    alloc: Global,
    dialect: &Dialect,
    forms: FormSettings,
    quiet: &[u8],
) -> Result<Vec<u8>, Failing<PlainTapeFault>>
    ensures { Gives (λ bytes. bytes.items) result (plain_quiet dialect.now forms quiet.now) }
{
    match read_tape(alloc, quiet) {
        Ok(tape) => own_text(alloc, dialect, forms, quiet, tape.as_slice()),
        Err(Failing::Fault(_)) => comma_text(alloc, dialect, forms, quiet),
        Err(Failing::NoMemory) => Err(Failing::NoMemory),
    }
}

/// The text of a tape that may have such statements, or why it is refused.
fn loud_text(
    alloc: Global,
    dialect: &Dialect,
    forms: FormSettings,
    text: &[u8],
) -> Result<Vec<u8>, Failing<PlainTapeFault>>
    ensures { Gives (λ bytes. bytes.items) result (plain_quiet dialect.now forms (without_outputs text.now)) }
{
    let quiet = without_outputs(alloc, text)?;
    match quiet_text(alloc, dialect, forms, &quiet) {
        Ok(bytes) => Ok(bytes),
        Err(fault) => Err(fault),
    }
}

/// The text of a tape in the language that this control runs: a line whose block is one of it stays
/// byte for byte, and any other gives way to plain blocks, each with the line's number as a comment. The
/// comments of such a line stand with the first of its blocks. A statement that prints or writes a file
/// (DPRNT, BPRNT, POPEN, PCLOS, SETVN) becomes a comment.
///
/// Errors: the refusal of a text that reads as no tape, with no block skipped, its words after commas
/// (`,C`, `,R`, `,A`) and those statements allowed; else 96 at the block
/// that can't be written out, or that breaks its form; else 94 at the line with whose blocks the
/// tape has more than 20,000; else that of the text that was written, at the line of the tape for which
/// its line stands, where it does not read as what should stand there, or would not stay if it was
/// written out again: such as 15 where a line is too long with its comments.
#[tactic(auto, unfolding(crate::specs::Plain::plain_of))]
pub fn plain_tape(
    alloc: Global,
    dialect: &Dialect,
    forms: FormSettings,
    text: &[u8],
) -> Result<Vec<u8>, Failing<PlainTapeFault>>
    ensures exact { Gives (λ bytes. bytes.items) result (plain_of dialect.now forms text.now) }
{
    match read_tape(alloc, text) {
        Ok(tape) => own_text(alloc, dialect, forms, text, tape.as_slice()),
        Err(Failing::Fault(_)) => loud_text(alloc, dialect, forms, text),
        Err(Failing::NoMemory) => Err(Failing::NoMemory),
    }
}

/// The text of a tape in the language that this control runs, as the lines of the cell say that it
/// is read, and with these choices of forms.
fn plain_in_cell(
    alloc: Global,
    cell: &[u8],
    forms: FormSettings,
    text: &[u8],
) -> Result<Vec<u8>, Failing<PlainTapeFault>>
    requires { length cell.now < 2 ^ 32 }
    ensures exact { Gives (λ bytes. bytes.items) result (plain_by (settings_of cell.now) forms text.now) }
{
    match read_settings(alloc, cell) {
        Ok(cell) => plain_tape(alloc, &Dialect::of(&cell), forms, text),
        Err(Failing::Fault(fault)) => Err(Failing::Fault(PlainTapeFault::BadSetting(fault.line))),
        Err(Failing::NoMemory) => Err(Failing::NoMemory),
    }
}

/// The text of a tape in the language that this control runs, as the settings say that it is read
/// and what the machine decides of forms.
///
/// Errors: 90 at the first line of the settings that is not allowed; else those of [`plain_tape`].
pub fn plain_text(
    alloc: Global,
    settings: &[u8],
    text: &[u8],
) -> Result<Vec<u8>, Failing<PlainTapeFault>>
    requires { length settings.now < 2 ^ 32 }
    ensures exact { Gives (λ bytes. bytes.items) result (plain_text settings.now text.now) }
{
    let forms = read_choices(alloc, settings)?;
    let cell = cell_text(alloc, settings)?;
    match plain_in_cell(alloc, &cell, forms, text) {
        Ok(bytes) => Ok(bytes),
        Err(fault) => Err(fault),
    }
}
