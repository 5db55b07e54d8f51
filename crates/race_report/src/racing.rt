//! How the races of a pair are found: for each shared variable, the first among the least lines of
//! the parts (part_lines).
ghost use Rattle.std.specs.Prelude.{◌≡◌, ◌≤◌, ◌+◌, IfOk, OnOk, length, true};
ghost use Rattle.part_lines.specs.PartLines.{AreLeastLines};
ghost use Rattle.race_report.specs.Lines.{sought_line};
ghost use Rattle.race_report.specs.RaceLists.{shared_by, IsRaceList};
ghost use Rattle.race_report.specs.Tables.{ArePairLines, ArePathLines};
ghost use Rattle.race_report.specs.Found.{race_between, race_at, first_from, IsListedBelow, IsAnswer};

use crate::list::RaceList;
use crate::meeting::may_race;
use crate::race::Race;
use crate::sought::Sought;
use crate::table::{line_at, table_of};
use nc_number::{Both, NoMemory, Path};
use nc_verify::Verified;
use part_lines::least_lines;
use std::alloc::Global;
use tape_flow::Flow;

/// The most parts that an accepted path may have: one more than it may have labels.
const MOST_PARTS: usize = 65_537;

/// The least lines of the parts of a path, for one variable.
#[derive(Debug, Drop)]
pub(crate) struct PathLines {
    /// Among the blocks that may write it.
    pub(crate) writes: Vec<Option<u32>>,
    /// Among the blocks that name it.
    pub(crate) names: Vec<Option<u32>>,
}

/// The least line of each part of a path, among the blocks that do what is looked for.
fn lines_in(
    alloc: Global,
    sought: Sought,
    variable: u32,
    flow: &Flow,
) -> Result<Vec<Option<u32>>, NoMemory>
    ensures { IfOk result (λ found. AreLeastLines flow.now.order (sought_line flow.now sought variable) found.items) }
{
    let table = table_of(alloc, sought, variable, flow)?;
    least_lines(alloc, &flow.order, &table)
}

/// The least lines of the parts of a path, for one variable.
fn path_lines(alloc: Global, variable: u32, flow: &Flow) -> Result<PathLines, NoMemory>
    ensures { IfOk result (ArePathLines flow.now variable) }
{
    Ok(PathLines {
        writes: lines_in(alloc, Sought::Writes, variable, flow)?,
        names: lines_in(alloc, Sought::Names, variable, flow)?,
    })
}

/// The least lines of the parts of both paths, for one variable.
fn pair_lines(
    alloc: Global,
    variable: u32,
    left: &Flow,
    right: &Flow,
) -> Result<Both<PathLines>, NoMemory>
    ensures { IfOk result (ArePairLines left.now right.now variable) }
{
    Ok(Both {
        one: path_lines(alloc, variable, left)?,
        two: path_lines(alloc, variable, right)?,
    })
}

/// The race behind so many waits, if the writer has the one line and the other path has the other.
fn race_between(
    variable: u32,
    after: u32,
    writer: Path,
    write: Option<u32>,
    name: Option<u32>,
) -> Option<Race>
    ensures { result ≡ race_between variable after writer write name }
{
    match (write, name) {
        (Some(write_line), Some(other_line)) => Some(Race {
            variable,
            after,
            writer,
            write_line,
            other_line,
        }),
        _ => None,
    }
}

/// The first race of the variable behind so many waits, if there is one, path 1 as the writer
/// before path 2.
fn race_at(lines: &Both<PathLines>, variable: u32, after: u32) -> Option<Race>
    ensures { result ≡ race_at lines.now variable after }
{
    let place = after as usize;
    let one = race_between(
        variable,
        after,
        Path::One,
        line_at(&lines.one.writes, place),
        line_at(&lines.two.names, place),
    );
    if one.is_some() {
        return one;
    }
    race_between(
        variable,
        after,
        Path::Two,
        line_at(&lines.two.writes, place),
        line_at(&lines.one.names, place),
    )
}

/// The first race of the variable among these least lines, if there is one.
fn first_race(lines: &Both<PathLines>, variable: u32) -> Option<Race>
    requires { length lines.now.one.writes.items ≤ MOST_PARTS }
    ensures { result ≡ first_from lines.now variable (length lines.now.one.writes.items) 0 }
{
    for after in 0..lines.one.writes.len() as u32 {
        let race = race_at(lines, variable, after);
        if race.is_some() {
            return race;
        }
    }
    None
}

/// The first race of a variable that both paths share, if it has one.
fn race_of(alloc: Global, verified: &Verified, variable: u32) -> Result<Option<Race>, NoMemory>
    requires { shared_by verified.now.settings variable ≡ true }
    ensures { IfOk result (IsAnswer (shared_by verified.now.settings) verified.now.left verified.now.right variable) }
{
    let left = verified.left();
    let right = verified.right();
    if !may_race(variable, left, right) {
        return Ok(None);
    }
    let lines = pair_lines(alloc, variable, left, right)?;
    Ok(first_race(&lines, variable))
}

/// Adds the first race of a variable to the list, if it has one.
fn add_race(
    alloc: Global,
    verified: &Verified,
    races: &mut Vec<Race>,
    variable: u32,
) -> Result<(), NoMemory>
    requires shared { shared_by verified.now.settings variable ≡ true }
    requires listed { IsListedBelow
        (shared_by verified.now.settings) verified.now.left verified.now.right variable races.old.items }
    ensures { OnOk result (IsListedBelow (shared_by verified.now.settings) verified.now.left verified.now.right
        (variable + 1) races.new.items) }
{
    match race_of(alloc, verified, variable)? {
        Some(race) => {
            races.push(race)?;
            Ok(())
        }
        None => Ok(()),
    }
}

/// The races of a pair, by their variables: of each shared variable that has a race the first one,
/// by the number of waits before it, then path 1 as the writer, then the least lines.
pub fn races(alloc: Global, verified: &Verified) -> Result<RaceList, NoMemory>
    ensures { IfOk result (IsRaceList (shared_by verified.now.settings) verified.now.left verified.now.right) }
{
    let settings = verified.settings();
    let mut races = Vec::new(alloc);
    for variable in 100..100 + settings.shared100 {
        add_race(alloc, verified, &mut races, variable)?;
    }
    for variable in 500..500 + settings.shared500 {
        add_race(alloc, verified, &mut races, variable)?;
    }
    Ok(RaceList::of(races))
}
