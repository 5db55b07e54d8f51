//! From a text to what the machine decides of the forms.
ghost use Rattle.std.specs.Prelude.{◌≡◌, ◌++◌, OnOk, IfOk};
ghost use Rattle.std.specs.Str.Lines.{lines};
ghost use Rattle.form_lines.specs.Choosing.{with_choice, with_choices, idle_of, idle_letters, nose_of, noses_in, choices_of_line, choices_of, choices_said};
ghost use Rattle.plain_form.specs.Settings.{standard};

use crate::choice::Choice;
use crate::naming::read_line;
use field_lines::cut_line;
use nc_number::ByteList;
use plain_form::{FormSettings, Nose, NoseList};
use std::alloc::{AllocError, Global};

/// Takes a choice; letters are taken together, and so are noses.
fn take(settings: &mut FormSettings, choice: &Choice)
    ensures { settings.new ≡ with_choice settings.old choice.now }
{
    match *choice {
        Choice::RoughDepth(depth) => settings.rough_depth = Some(depth),
        Choice::RoughRetreat(way) => settings.rough_retreat = way,
        Choice::ThreadRoots(roots) => settings.thread_roots = roots,
        Choice::ThreadPasses(passes) => settings.thread_finishing = passes,
        Choice::ThreadPullOut(tenths) => settings.thread_pull_out = tenths,
        Choice::ThreadAngle(degrees) => settings.thread_angle = degrees,
        Choice::ThreadLeast(depth) => settings.thread_least = depth,
        Choice::ThreadLeft(depth) => settings.thread_left = depth,
        Choice::GrooveRetreat(way) => settings.groove_retreat = way,
        Choice::PeckRetreat(way) => settings.peck_retreat = way,
        Choice::PeckClearance(way) => settings.peck_clearance = way,
        Choice::TapCodes(codes) => settings.tap_turns = codes,
        Choice::Idle(_) => {}
        Choice::ToolNose(_) => {}
        Choice::SecondHome(at) => settings.second_home = Some(at),
    }
}

/// Takes choices, one after the other.
fn take_all(settings: &mut FormSettings, choices: &[Choice])
    ensures { settings.new ≡ with_choices settings.old choices.now }
{
    for choice in choices {
        take(settings, choice);
    }
}

/// Puts the letter of a choice that names one.
fn push_letter(letters: &mut Vec<u8>, choice: &Choice) -> Result<(), AllocError>
    ensures { OnOk result (letters.new.items ≡ letters.old.items ++ idle_of choice.now) }
{
    match *choice {
        Choice::Idle(letter) => {
            letters.push(letter)?;
            Ok(())
        }
        _ => Ok(()),
    }
}

/// The letters that choices name.
fn letters_of(alloc: Global, choices: &[Choice]) -> Result<Vec<u8>, AllocError>
    ensures { IfOk result (λ letters. letters.items ≡ idle_letters choices.now) }
{
    let mut letters = Vec::new(alloc);
    for choice in choices {
        push_letter(&mut letters, choice)?;
    }
    Ok(letters)
}

/// Puts the nose of a choice that says one.
fn push_nose(noses: &mut Vec<Nose>, choice: &Choice) -> Result<(), AllocError>
    ensures { OnOk result (noses.new.items ≡ noses.old.items ++ nose_of choice.now) }
{
    match *choice {
        Choice::ToolNose(nose) => {
            noses.push(nose)?;
            Ok(())
        }
        _ => Ok(()),
    }
}

/// The noses that choices say.
fn noses_of(alloc: Global, choices: &[Choice]) -> Result<Vec<Nose>, AllocError>
    ensures { IfOk result (λ noses. noses.items ≡ noses_in choices.now) }
{
    let mut noses = Vec::new(alloc);
    for choice in choices {
        push_nose(&mut noses, choice)?;
    }
    Ok(noses)
}

/// Puts the choice of a line, if it says one.
fn push_choice(alloc: Global, choices: &mut Vec<Choice>, line: &[u8]) -> Result<(), AllocError>
    ensures { OnOk result (choices.new.items ≡ choices.old.items ++ choices_of_line line.now) }
{
    match read_line(alloc, line)? {
        Some(choice) => {
            choices.push(choice)?;
            Ok(())
        }
        None => Ok(()),
    }
}

/// The choices of the lines of a text.
fn choices_of(alloc: Global, text: &[u8]) -> Result<Vec<Choice>, AllocError>
    ensures { IfOk result (λ choices. choices.items ≡ choices_of (lines text.now)) }
{
    let mut choices = Vec::new(alloc);
    let mut rest = text;
    while !rest.is_empty() {
        let (front, after) = cut_line(rest);
        push_choice(alloc, &mut choices, front)?;
        rest = after;
    }
    Ok(choices)
}

/// What the machine decides of the forms, as the lines of a text say it: each takes the place of an
/// earlier one of its name, but letters and noses are added. Other lines say nothing. The only error is out of
/// memory.
pub fn read_choices(alloc: Global, text: &[u8]) -> Result<FormSettings, AllocError>
    ensures { IfOk result (λ settings. settings ≡ choices_said text.now) }
{
    let choices = choices_of(alloc, text)?;
    let mut settings = FormSettings::standard(alloc);
    take_all(&mut settings, &choices);
    let letters = letters_of(alloc, &choices)?;
    settings.idle = ByteList::of(letters);
    let noses = noses_of(alloc, &choices)?;
    settings.noses = NoseList::of(noses);
    Ok(settings)
}
