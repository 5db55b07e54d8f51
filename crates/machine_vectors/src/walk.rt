//! A row of these tests: a machine of a pair takes turns, and a second one does their records
//! again. turn_rows.rt, record_rows.rt and edit_rows.rt try their rows by `failure_of`.
ghost use Rattle.std.specs.Prelude.{◌≡◌, ◌<◌, OnOk, IfOk};
ghost use Rattle.two_path.specs.Machine.{without_reads};
ghost use Rattle.two_path.specs.Joined.{AreAtTheirWaits};

use crate::answer::put_turn;
use crate::edit_walk::{put_edit, put_edit_record};
use crate::held::{put_difference, put_held, state_of};
use crate::pair::flow_of;
use crate::record::entry_of;
use cell_settings::Settings;
use nc_number::{NoMemory, Path};
use run_records::Entry;
use std::alloc::{AllocError, Global};
use std::test::Fail;
use tape_flow::Flow;
use two_path::{Illegal, Machine, Turn, Turned, a_machine_begins_without_waits};

/// A machine of the pair before its first turn.
fn opened(
    alloc: Global,
    left: &Flow,
    right: &Flow,
    settings: &Settings,
) -> Result<Machine, NoMemory>
    ensures no_reads { IfOk result (λ m. without_reads m.machine ≡ m.machine) }
    ensures waits { IfOk result (λ m. AreAtTheirWaits left.now.order right.now.order m.machine) }
{
    a_machine_begins_without_waits();
    match Machine::new(alloc, left, right, settings) {
        Ok(machine) => Ok(machine),
        Err(fail) => Err(fail),
    }
}

/// Makes room for a record. There is none for more than a thousand.
pub(crate) fn make_room(machine: &mut Machine) -> Result<(), NoMemory>
    ensures machine { machine.new.machine ≡ machine.old.machine }
    ensures room { OnOk result (0 < machine.new.room) }
    ensures few { OnOk result (machine.new.machine.count < 1000) }
{
    machine.reserve(1)?;
    if machine.count() < 1000 {
        Ok(())
    } else {
        Err(NoMemory)
    }
}

/// What a record came to that is done again.
fn put_outcome(out: &mut String, outcome: &Result<Turn, Illegal>) -> Result<(), AllocError> {
    match outcome {
        Ok(turn) => put_turn(out, turn),
        Err(_illegal) => out.push_str("illegal"),
    }
}

/// What the turn of a record is that is done again.
fn put_again(
    out: &mut String,
    machine: &mut Machine,
    left: &Flow,
    right: &Flow,
    entry: &Entry,
) -> Result<(), NoMemory>
    requires no_reads { without_reads machine.old.machine ≡ machine.old.machine }
    requires waits { AreAtTheirWaits left.now.order right.now.order machine.old.machine }
    ensures no_reads { without_reads machine.new.machine ≡ machine.new.machine }
    ensures waits { AreAtTheirWaits left.now.order right.now.order machine.new.machine }
{
    make_room(machine)?;
    match put_outcome(out, &machine.apply(left, right, entry)) {
        Ok(()) => Ok(()),
        Err(_fail) => Err(NoMemory),
    }
}

/// What the turn of a record is that is done again, where that is not the answer.
pub(crate) fn put_other(
    out: &mut String,
    alloc: Global,
    machine: &mut Machine,
    left: &Flow,
    right: &Flow,
    entry: &Entry,
    answer: &str,
) -> Result<(), NoMemory>
    requires no_reads { without_reads machine.old.machine ≡ machine.old.machine }
    requires waits { AreAtTheirWaits left.now.order right.now.order machine.old.machine }
    ensures no_reads { without_reads machine.new.machine ≡ machine.new.machine }
    ensures waits { AreAtTheirWaits left.now.order right.now.order machine.new.machine }
{
    let mut again = String::new(alloc);
    put_again(&mut again, machine, left, right, entry)?;
    Ok(put_unless(out, again.as_str(), answer)?)
}

/// The text of a turn that was done again, unless it is the answer.
fn put_unless(out: &mut String, again: &str, answer: &str) -> Result<(), AllocError> {
    if again == answer {
        return Ok(());
    }
    write!(out, " and again {again}")
}

/// The text of what a turn was.
fn answer_of(alloc: Global, turn: &Turn) -> Result<String, AllocError> {
    let mut answer = String::new(alloc);
    put_turn(&mut answer, turn)?;
    Ok(answer)
}

/// A turn, whose record the second machine does again with the same answer.
fn put_turned(
    out: &mut String,
    alloc: Global,
    second: &mut Machine,
    left: &Flow,
    right: &Flow,
    turned: &Turned,
) -> Result<(), NoMemory>
    requires no_reads { without_reads second.old.machine ≡ second.old.machine }
    requires waits { AreAtTheirWaits left.now.order right.now.order second.old.machine }
    ensures no_reads { without_reads second.new.machine ≡ second.new.machine }
    ensures waits { AreAtTheirWaits left.now.order right.now.order second.new.machine }
{
    let answer = answer_of(alloc, &turned.turn)?;
    out.push_str(answer.as_str())?;
    match &turned.entry {
        Some(entry) => put_other(out, alloc, second, left, right, entry, answer.as_str()),
        None => Ok(()),
    }
}

/// A turn of the path on both machines.
fn put_both(
    out: &mut String,
    alloc: Global,
    machine: &mut Machine,
    second: &mut Machine,
    left: &Flow,
    right: &Flow,
    path: Path,
) -> Result<(), NoMemory>
    requires waits { AreAtTheirWaits left.now.order right.now.order machine.old.machine }
    requires no_reads { without_reads second.old.machine ≡ second.old.machine }
    requires second_waits { AreAtTheirWaits left.now.order right.now.order second.old.machine }
    ensures waits { AreAtTheirWaits left.now.order right.now.order machine.new.machine }
    ensures no_reads { without_reads second.new.machine ≡ second.new.machine }
    ensures second_waits { AreAtTheirWaits left.now.order right.now.order second.new.machine }
{
    make_room(machine)?;
    put_turned(
        out,
        alloc,
        second,
        left,
        right,
        &machine.turn(left, right, path),
    )
}

/// Where the machines of a pair do not hold the same, what they hold.
pub(crate) fn put_disagreement(
    out: &mut String,
    alloc: Global,
    machine: &Machine,
    second: &Machine,
    left: &Flow,
    right: &Flow,
) -> Result<(), AllocError> {
    let held = state_of(alloc, machine, left, right)?;
    put_difference(out, alloc, held.as_str(), second, left, right)
}

/// A turn of the path on both machines, which then hold the same.
fn put_step(
    out: &mut String,
    alloc: Global,
    machine: &mut Machine,
    second: &mut Machine,
    left: &Flow,
    right: &Flow,
    path: Path,
) -> Result<(), NoMemory>
    requires waits { AreAtTheirWaits left.now.order right.now.order machine.old.machine }
    requires no_reads { without_reads second.old.machine ≡ second.old.machine }
    requires second_waits { AreAtTheirWaits left.now.order right.now.order second.old.machine }
    ensures waits { AreAtTheirWaits left.now.order right.now.order machine.new.machine }
    ensures no_reads { without_reads second.new.machine ≡ second.new.machine }
    ensures second_waits { AreAtTheirWaits left.now.order right.now.order second.new.machine }
{
    put_both(out, alloc, machine, second, left, right, path)?;
    Ok(put_disagreement(out, alloc, machine, second, left, right)?)
}

/// The answer to a record, which changes nothing where it is illegal.
fn put_answered(
    out: &mut String,
    alloc: Global,
    answer: &str,
    before: &str,
    second: &Machine,
    left: &Flow,
    right: &Flow,
) -> Result<(), AllocError> {
    out.push_str(answer)?;
    if answer == "illegal" {
        put_difference(out, alloc, before, second, left, right)
    } else {
        Ok(())
    }
}

/// A record that the second machine is given, and its answer.
pub(crate) fn put_given(
    out: &mut String,
    alloc: Global,
    second: &mut Machine,
    left: &Flow,
    right: &Flow,
    entry: &Entry,
    before: &str,
) -> Result<(), NoMemory>
    requires no_reads { without_reads second.old.machine ≡ second.old.machine }
    requires waits { AreAtTheirWaits left.now.order right.now.order second.old.machine }
    ensures no_reads { without_reads second.new.machine ≡ second.new.machine }
    ensures waits { AreAtTheirWaits left.now.order right.now.order second.new.machine }
{
    let mut answer = String::new(alloc);
    put_again(&mut answer, second, left, right, entry)?;
    Ok(put_answered(out, alloc, answer.as_str(), before, second, left, right)?)
}

/// A record that the second machine is given, from its text.
fn put_record(
    out: &mut String,
    alloc: Global,
    second: &mut Machine,
    left: &Flow,
    right: &Flow,
    text: &str,
) -> Result<(), NoMemory>
    requires no_reads { without_reads second.old.machine ≡ second.old.machine }
    requires waits { AreAtTheirWaits left.now.order right.now.order second.old.machine }
    ensures no_reads { without_reads second.new.machine ≡ second.new.machine }
    ensures waits { AreAtTheirWaits left.now.order right.now.order second.new.machine }
{
    let before = state_of(alloc, second, left, right)?;
    put_given(
        out,
        alloc,
        second,
        left,
        right,
        &entry_of(text),
        before.as_str(),
    )
}

/// One word of a row: `1` or `2` is a turn of that path, `?` asks what the second machine holds,
/// `edit` and a line is that edit on both machines, `edited` and a line is the record of that edit,
/// and all else is the record of a step.
fn put_word(
    out: &mut String,
    alloc: Global,
    machine: &mut Machine,
    second: &mut Machine,
    left: &Flow,
    right: &Flow,
    word: &str,
) -> Result<(), NoMemory>
    requires waits { AreAtTheirWaits left.now.order right.now.order machine.old.machine }
    requires no_reads { without_reads second.old.machine ≡ second.old.machine }
    requires second_waits { AreAtTheirWaits left.now.order right.now.order second.old.machine }
    ensures waits { AreAtTheirWaits left.now.order right.now.order machine.new.machine }
    ensures no_reads { without_reads second.new.machine ≡ second.new.machine }
    ensures second_waits { AreAtTheirWaits left.now.order right.now.order second.new.machine }
{
    match word {
        "1" => put_step(out, alloc, machine, second, left, right, Path::One),
        "2" => put_step(out, alloc, machine, second, left, right, Path::Two),
        "?" => Ok(put_held(out, alloc, second, left, right)?),
        _ => put_line(out, alloc, machine, second, left, right, word),
    }
}

/// One word of a row that is an edit or a record.
fn put_line(
    out: &mut String,
    alloc: Global,
    machine: &mut Machine,
    second: &mut Machine,
    left: &Flow,
    right: &Flow,
    word: &str,
) -> Result<(), NoMemory>
    requires waits { AreAtTheirWaits left.now.order right.now.order machine.old.machine }
    requires no_reads { without_reads second.old.machine ≡ second.old.machine }
    requires second_waits { AreAtTheirWaits left.now.order right.now.order second.old.machine }
    ensures waits { AreAtTheirWaits left.now.order right.now.order machine.new.machine }
    ensures no_reads { without_reads second.new.machine ≡ second.new.machine }
    ensures second_waits { AreAtTheirWaits left.now.order right.now.order second.new.machine }
{
    let (first, line) = word.split_once(' ').unwrap_or((word, ""));
    match first {
        "edit" => put_edit(out, alloc, machine, second, left, right, line),
        "edited" => put_edit_record(out, alloc, second, left, right, line),
        _ => put_record(out, alloc, second, left, right, word),
    }
}

/// What stands between two answers.
fn put_comma(out: &mut String) -> Result<(), AllocError> {
    if out.is_empty() {
        return Ok(());
    }
    out.push_str(", ")
}

/// All words of a row, on both machines of its pair.
fn put_words(
    out: &mut String,
    alloc: Global,
    machine: &mut Machine,
    second: &mut Machine,
    left: &Flow,
    right: &Flow,
    words: &str,
) -> Result<(), NoMemory>
    requires waits { AreAtTheirWaits left.now.order right.now.order machine.old.machine }
    requires no_reads { without_reads second.old.machine ≡ second.old.machine }
    requires second_waits { AreAtTheirWaits left.now.order right.now.order second.old.machine }
{
    for word in words.split(',') {
        put_comma(out)?;
        put_word(out, alloc, machine, second, left, right, word.trim())?;
    }
    Ok(())
}

/// What both machines answer to the words of a row.
fn text_of(
    alloc: Global,
    machine: &mut Machine,
    second: &mut Machine,
    left: &Flow,
    right: &Flow,
    words: &str,
) -> Result<String, Fail>
    requires waits { AreAtTheirWaits left.now.order right.now.order machine.old.machine }
    requires no_reads { without_reads second.old.machine ≡ second.old.machine }
    requires second_waits { AreAtTheirWaits left.now.order right.now.order second.old.machine }
{
    let mut out = String::new(alloc);
    put_words(&mut out, alloc, machine, second, left, right, words)?;
    Ok(out)
}

/// What the machine and a second one answer to the words of a row.
fn answers_beside(
    alloc: Global,
    machine: &mut Machine,
    left: &Flow,
    right: &Flow,
    settings: &Settings,
    words: &str,
) -> Result<String, Fail>
    requires { AreAtTheirWaits left.now.order right.now.order machine.old.machine }
{
    let mut second = opened(alloc, left, right, settings)?;
    text_of(alloc, machine, &mut second, left, right, words)
}

/// What the machines of the pair answer to the words of a row.
fn answers_of(
    alloc: Global,
    left: &Flow,
    right: &Flow,
    settings: &Settings,
    words: &str,
) -> Result<String, Fail> {
    let mut machine = opened(alloc, left, right, settings)?;
    answers_beside(alloc, &mut machine, left, right, settings, words)
}

/// What the machines of a flow and a tape answer to the words of a row.
fn play_beside(
    alloc: Global,
    settings: &Settings,
    left: &Flow,
    right: &str,
    words: &str,
) -> Result<String, Fail> {
    let right = flow_of(alloc, right, settings)?;
    answers_of(alloc, left, &right, settings, words)
}

/// What the machines of the two tapes, whose blocks these are, answer to the words of a row.
fn play(
    alloc: Global,
    settings: &Settings,
    left: &str,
    right: &str,
    words: &str,
) -> Result<String, Fail> {
    let left = flow_of(alloc, left, settings)?;
    play_beside(alloc, settings, &left, right, words)
}

/// No text if a row `left|right|words|answers` is so, and else the row and what was answered.
pub(crate) fn failure_of(alloc: Global, settings: &Settings, row: &str) -> Result<String, Fail> {
    let (left, rest) = row.split_once('|').unwrap_or((row, ""));
    let (right, rest) = rest.split_once('|').unwrap_or((rest, ""));
    let (words, wanted) = rest.split_once('|').unwrap_or((rest, ""));
    let got = play(alloc, settings, left, right, words)?;
    if got.as_str() == wanted {
        return Ok(String::new(alloc));
    }
    Ok(format!(in alloc; "{row} but {got}")?)
}
