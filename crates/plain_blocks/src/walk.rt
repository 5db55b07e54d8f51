//! The walk over the blocks of a tape: what becomes of each.
ghost use Rattle.std.specs.Prelude.{◌≡◌, ◌++◌, ◌∷◌, [], true, slice_get, All, IfOk, OnOk, ℕ};
ghost use Rattle.std.specs.Option.{option_copied};
ghost use Rattle.nc_number.specs.Answers.{Gives};
ghost use Rattle.known_blocks.specs.Entries.{is_among, some_return_in};
ghost use Rattle.plain_blocks.specs.Order.{order_tape, HasNumber};
ghost use Rattle.plain_blocks.specs.Walk.{is_left_by, is_entered_by, is_entry_at, known_at, is_marked, line_cause, keeps_number, pass_line, pass_lines, lines_at, no_form, replaced_by, replaced_from, with_answer, step_at, one_at, walk_from, program_steps, steps_from, steps_of};

use crate::asking::{ask, scene_of};
use crate::order::{order_blocks, order_tape};
use crate::passing::{goes_on, own_block, pass_blocks};
use crate::step::{Replaced, Step, StepList};
use crate::targets::{Stand, stands_of};
use block_forms::Dialect;
use block_order::{Control, ControlProgram};
use known_blocks::{Aims, Known};
use nc_number::{Failing, ListOf};
use nc_text::{Block, Program};
use plain_form::{FormAnswer, FormSettings, PlainCause, PlainFault, WrittenLine};
use std::alloc::{AllocError, Global};

/// For each line of a text whether it has a mark, from line 1 on.
pub type MarkList = ListOf<bool>;

/// What holds over the whole walk.
#[derive(Debug, Drop)]
pub struct Rules {
    /// How the tape is read.
    pub dialect: Dialect,
    /// The choices of the machine.
    pub settings: FormSettings,
    /// What is known before every block, however a path comes to it.
    pub anywhere: Known,
    /// For each line of the text whether it has a skip sign, from line 1 on.
    pub skips: MarkList,
}

/// Whether a path may come behind the block in this place otherwise than from it; so it may where
/// there is none.
fn is_left_by(stands: &[Stand], place: usize) -> bool
    ensures { result ≡ is_left_by stands.now place }
{
    match stands.get(place) {
        Some(stand) => matches!(stand.control, Control::EndLoop(_) | Control::Call { .. }),
        None => true,
    }
}

/// Whether a path may come to the block in this place from elsewhere.
fn is_entered_by(stands: &[Stand], place: usize) -> bool
    ensures { result ≡ is_entered_by stands.now place }
{
    match stands.get(place) {
        Some(stand) => stand.target || matches!(stand.control, Control::While(_) | Control::Do(_)),
        None => false,
    }
}

/// Whether a path may come to the block in this place otherwise than from the one before it.
fn is_entry_at(stands: &[Stand], place: usize) -> bool
    ensures { result ≡ is_entry_at stands.now place }
{
    if place == 0 {
        return true;
    }
    is_left_by(stands, place - 1) || is_entered_by(stands, place)
}

/// What is known before the block in this place, by what is known behind the one before it.
fn known_at(rules: &Rules, stands: &[Stand], place: usize, known: &Known) -> Known
    ensures { result ≡ known_at rules.now stands.now place known.now }
{
    if is_entry_at(stands, place) {
        rules.anywhere
    } else {
        *known
    }
}

/// Whether the line has a mark.
fn is_marked(marks: &[bool], line: u32) -> bool
    ensures { result ≡ is_marked marks.now line }
{
    match marks.get((line as usize).saturating_sub(1)) {
        Some(marked) => *marked,
        None => false,
    }
}

/// Why a line may not be written out: it does more than go on, a path may be led to its number,
/// which goes, or it has a skip sign.
fn line_cause(rules: &Rules, keeps: bool, stand: &Stand) -> Option<PlainCause>
    ensures { result ≡ line_cause rules.now keeps stand.now }
{
    if !goes_on(stand.control) {
        return Some(PlainCause::Control);
    }
    if !keeps && stand.target {
        return Some(PlainCause::Target);
    }
    if is_marked(rules.skips.as_slice(), stand.line) {
        return Some(PlainCause::Skip);
    }
    None
}

/// Whether the number of a line stays: it is the first of its form, and a block stands in its place.
fn keeps_number(is_first: bool, blocks: &[Block]) -> bool
    ensures { result ≡ keeps_number is_first blocks.now }
{
    if blocks.is_empty() {
        return false;
    }
    is_first
}

/// What is known behind a line that is written out, or why it may not be.
fn pass_line(
    alloc: Global,
    rules: &Rules,
    is_first: bool,
    stand: &Stand,
    known: &Known,
    blocks: &[Block],
) -> Result<Known, Failing<PlainFault>>
    ensures { Gives (λ known. known) result (pass_line rules.now is_first stand.now known.now blocks.now) }
{
    let keeps = keeps_number(is_first, blocks);
    if let Some(cause) = line_cause(rules, keeps, stand) {
        return Err(Failing::Fault(PlainFault {
            line: stand.line,
            cause,
        }));
    }
    match pass_blocks(alloc, &rules.dialect, known, blocks) {
        Ok(known) => Ok(known),
        Err(Failing::Fault(cause)) => Err(Failing::Fault(PlainFault {
            line: stand.line,
            cause,
        })),
        Err(Failing::NoMemory) => Err(Failing::NoMemory),
    }
}

/// What is known behind the line of the block in this place, if there is one, or why it may not be
/// written out.
fn line_at(
    alloc: Global,
    rules: &Rules,
    stands: &[Stand],
    is_first: bool,
    place: usize,
    known: &Known,
    line: &WrittenLine,
) -> Result<Known, Failing<PlainFault>>
    ensures { Gives (λ known. known) result
        (lines_at rules.now stands.now is_first place known.now line.now) }
{
    match stands.get(place) {
        Some(stand) => pass_line(alloc, rules, is_first, stand, known, line.blocks.as_slice()),
        None => Err(Failing::Fault(PlainFault {
            line: 0,
            cause: PlainCause::Contour,
        })),
    }
}

/// What is known behind the lines of a form that begins in this place, or why they may not be
/// written out.
fn pass_lines(
    alloc: Global,
    rules: &Rules,
    stands: &[Stand],
    start: usize,
    known: &Known,
    lines: &[WrittenLine],
) -> Result<Known, Failing<PlainFault>>
    ensures { Gives (λ known. known) result (pass_lines rules.now stands.now true start known.now lines.now) }
{
    let mut behind = *known;
    let mut is_first = true;
    let mut place = start;
    for line in lines {
        behind = match line_at(alloc, rules, stands, is_first, place, &behind, line) {
            Ok(known) => known,
            Err(fault) => return Err(fault),
        };
        is_first = false;
        place = place.saturating_add(1);
    }
    Ok(behind)
}

/// Puts that plain blocks stand in place of this block's line, if there is one.
fn push_replaced(
    steps: &mut Vec<Step>,
    stand: Option<&Stand>,
    line: WrittenLine,
) -> Result<(), AllocError>
    ensures { OnOk result (steps.new.items ≡ steps.old.items ++ replaced_by (option_copied stand.entry) line) }
{
    match stand {
        Some(stand) => {
            steps.push(Step::Written(Replaced {
                line: stand.line,
                sequence: stand.sequence,
                blocks: line.blocks,
            }))?;
            Ok(())
        }
        None => Ok(()),
    }
}

/// The block in this place, if there is one.
fn stand_at(stands: &[Stand], place: usize) -> Option<&Stand>
    ensures { option_copied result ≡ slice_get stands.now place }
{
    stands.get(place)
}

/// Puts what becomes of the lines of a form that begins in this place.
fn push_written(
    steps: &mut Vec<Step>,
    stands: &[Stand],
    start: usize,
    lines: Vec<WrittenLine>,
) -> Result<(), AllocError>
    ensures { OnOk result (steps.new.items ≡ steps.old.items ++ replaced_from stands.now start lines.items) }
{
    let mut place = start;
    for line in lines {
        push_replaced(steps, stand_at(stands, place), line)?;
        place = place.saturating_add(1);
    }
    Ok(())
}

/// The refusal of the block of this line, which no form takes.
fn no_form(line: u32) -> Failing<PlainFault>
    ensures { result ≡ no_form line }
{
    Failing::Fault(PlainFault {
        line,
        cause: PlainCause::NoForm,
    })
}

/// What is known behind the block in this place once its form has answered, whose lines are put to
/// the steps.
fn with_answer(
    alloc: Global,
    rules: &Rules,
    stands: &[Stand],
    place: usize,
    line: u32,
    known: &Known,
    answer: FormAnswer,
    steps: &mut Vec<Step>,
) -> Result<Known, Failing<PlainFault>>
    ensures { Gives (λ known. record { known = known; steps = steps.new.items }) result
        (with_answer rules.now stands.now place line known.now steps.old.items answer) }
{
    let lines = match answer {
        FormAnswer::NotMine => return Err(no_form(line)),
        FormAnswer::Refused(fault) => return Err(Failing::Fault(fault)),
        FormAnswer::Written(lines) => lines.into_vec(),
    };
    if lines.is_empty() {
        return Err(no_form(line));
    }
    let behind = match pass_lines(alloc, rules, stands, place, known, &lines) {
        Ok(known) => known,
        Err(fault) => return Err(fault),
    };
    push_written(steps, stands, place, lines)?;
    Ok(behind)
}

/// What is known behind the block in this place, and what becomes of it, put to the steps: a block
/// of this control's language stays, unless it begins a thread with a taper; else the forms are
/// asked.
fn step_at(
    alloc: Global,
    rules: &Rules,
    blocks: &[Block],
    stands: &[Stand],
    place: usize,
    block: &Block,
    known: &Known,
    steps: &mut Vec<Step>,
) -> Result<Known, Failing<PlainFault>>
    ensures { Gives (λ known. record { known = known; steps = steps.new.items }) result
        (step_at rules.now blocks.now stands.now place block.now known.now steps.old.items) }
{
    if let Some(passing) = own_block(alloc, &rules.dialect, known, block)? {
        steps.push(Step::Kept)?;
        return Ok(passing.known);
    }
    let scene = scene_of(rules.dialect.system, known);
    let answer = ask(alloc, blocks, place, &scene, &rules.settings)?;
    with_answer(
        alloc, rules, stands, place, block.line, known, answer, steps,
    )
}

/// What is known behind the block in this place, and what becomes of it, put to the steps, unless a
/// form took it already.
fn one_at(
    alloc: Global,
    rules: &Rules,
    blocks: &[Block],
    stands: &[Stand],
    place: usize,
    block: &Block,
    known: &Known,
    steps: &mut Vec<Step>,
) -> Result<Known, Failing<PlainFault>>
    ensures { Gives (λ known. record { known = known; steps = steps.new.items }) result
        (one_at rules.now blocks.now stands.now place block.now known.now steps.old.items) }
{
    if place < steps.len() {
        return Ok(*known);
    }
    let before = known_at(rules, stands, place, known);
    step_at(alloc, rules, blocks, stands, place, block, &before, steps)
}

/// What becomes of the blocks of a program.
fn walk(
    alloc: Global,
    rules: &Rules,
    blocks: &[Block],
    stands: &[Stand],
) -> Result<Vec<Step>, Failing<PlainFault>>
    ensures { Gives (λ steps. steps.items) result
        (walk_from rules.now blocks.now stands.now rules.now.anywhere [] 0 blocks.now) }
{
    let mut steps: Vec<Step> = Vec::new(alloc);
    let mut known = rules.anywhere;
    for (place, block) in blocks.iter().enumerate() {
        known = match one_at(
            alloc, rules, blocks, stands, place, block, &known, &mut steps,
        ) {
            Ok(known) => known,
            Err(fault) => return Err(fault),
        };
    }
    Ok(steps)
}

/// What becomes of the blocks of a program of a tape of this order; `returns` are the numbers of the
/// tape's M99.
fn program_steps(
    alloc: Global,
    rules: &Rules,
    order: &[ControlProgram],
    returns: &Aims,
    blocks: &[Block],
) -> Result<Vec<Step>, Failing<PlainFault>>
    requires noted { (n : ℕ) → is_among returns.now n ≡ some_return_in order.now n }
    ensures { Gives (λ steps. steps.items) result (program_steps rules.now order.now blocks.now) }
{
    let own = order_blocks(alloc, &rules.dialect, blocks)?;
    let stands = stands_of(alloc, returns, &own)?;
    match walk(alloc, rules, blocks, &stands) {
        Ok(steps) => Ok(steps),
        Err(fault) => Err(fault),
    }
}

/// What becomes of the blocks of programs of a tape of this order; `returns` are the numbers of the
/// tape's M99.
fn programs_steps(
    alloc: Global,
    rules: &Rules,
    order: &[ControlProgram],
    returns: &Aims,
    tape: &[Program],
) -> Result<Vec<StepList>, Failing<PlainFault>>
    requires noted { (n : ℕ) → is_among returns.now n ≡ some_return_in order.now n }
    ensures { Gives (λ steps. steps.items) result (steps_from rules.now order.now [] tape.now) }
{
    let mut all = Vec::new(alloc);
    for program in tape {
        match program_steps(alloc, rules, order, returns, program.blocks.as_slice()) {
            Ok(steps) => all.push(StepList::of(steps))?,
            Err(fault) => return Err(fault),
        }
    }
    Ok(all)
}

/// What becomes of the blocks of a tape, program by program: a block of this control's language
/// stays, and forms write the others out.
///
/// Errors: 96 at the block that no form takes, or at the block that breaks its form, of the first
/// form in the order of the text that can't be written out; out of memory.
pub fn written_tape(
    alloc: Global,
    rules: &Rules,
    tape: &[Program],
) -> Result<Vec<StepList>, Failing<PlainFault>>
    requires { All HasNumber tape.now }
    ensures { Gives (λ steps. steps.items) result (steps_of rules.now tape.now) }
{
    let order = order_tape(alloc, &rules.dialect, tape)?;
    let returns = Aims::of_returns(alloc, &order)?;
    match programs_steps(alloc, rules, &order, &returns, tape) {
        Ok(steps) => Ok(steps),
        Err(fault) => Err(fault),
    }
}
