//! The lines of the blocks of a path that do what is looked for, as a table by O numbers, which
//! part_lines reads to find the least line of each part.
//! racing.rt calls `table_of` for each path, variable and thing that is looked for.
ghost use Rattle.std.specs.Prelude.{◌≡◌, ◌≢◌, ◌<◌, ◌∷◌, ℕ, Some, None, List, IfOk, OnOk, length, map};
ghost use Rattle.std.specs.Option.{option_copied};
ghost use Rattle.tape_flow.specs.declared.flow.Flow.{Flow};
ghost use Rattle.tape_flow.specs.declared.program.FlowProgram.{FlowProgram};
ghost use Rattle.race_report.specs.Lines.{does, line_if, sought_line};
ghost use Rattle.race_report.specs.Tables.{kept_lines, table_line, line_at, IsToldWith};

use crate::naming::does;
use crate::sought::Sought;
use block_forms::FlowBlock;
use nc_number::NoMemory;
use part_lines::BlockLines;
use std::alloc::Global;
use tape_flow::{Flow, FlowProgram};

/// The lines of the programs that were looked through.
#[derive(Drop)]
pub(crate) struct LineTable {
    /// The lines of each program, at its O number.
    programs: Vec<Option<ProgramLines>>,
}

impl BlockLines for LineTable {
    ghost use Rattle.race_report.specs.Tables.{table_line};

    ghost line = { table_line };

    fn line(&self, program: u16, place: usize) -> Option<u32> {
        match self.get(program) {
            Some(program) => line_at(&program.lines, place),
            None => None,
        }
    }
}

/// The line at a place, if there is one.
pub(crate) fn line_at(lines: &[Option<u32>], place: usize) -> Option<u32>
    ensures { result ≡ line_at lines.now place }
{
    match lines.get(place) {
        Some(line) => *line,
        None => None,
    }
}

/// The lines of one program.
#[derive(Debug, Drop)]
pub(crate) struct ProgramLines {
    /// For each block its line, if it does what is looked for.
    pub(crate) lines: Vec<Option<u32>>,
}

/// The line of a block, if it does what is looked for.
fn block_line(sought: Sought, variable: u32, block: &FlowBlock) -> Option<u32>
    ensures { result ≡ line_if (does sought variable block.now) block.now.line }
{
    if does(sought, variable, block) {
        Some(block.line)
    } else {
        None
    }
}

/// For each block of a program, in their order, its line, if it does what is looked for.
fn program_lines(
    alloc: Global,
    sought: Sought,
    variable: u32,
    blocks: &[FlowBlock],
) -> Result<ProgramLines, NoMemory>
    ensures { IfOk result (λ program. program.lines.items
        ≡ map (λ block. line_if (does sought variable block) block.line) blocks.now) }
{
    let mut lines = Vec::new(alloc);
    for block in blocks {
        lines.push(block_line(sought, variable, block))?;
    }
    Ok(ProgramLines { lines })
}

impl LineTable {
    /// A table without a program.
    fn new(alloc: Global) -> Self
        ensures { (q : ℕ) → kept_lines result q ≡ None }
    {
        LineTable {
            programs: Vec::new(alloc),
        }
    }

    /// The lines of the program with this O number, if they are kept.
    fn get(&self, program: u16) -> Option<&ProgramLines>
        ensures { option_copied result ≡ kept_lines self.now program }
    {
        match self.programs.get(program as usize) {
            Some(kept) => kept.as_ref(),
            None => None,
        }
    }

    /// Makes room for a program of this O number.
    fn make_room(&mut self, program: u16) -> Result<(), NoMemory>
        ensures room { OnOk result (program < length self.new.programs.items) }
        ensures same { (q : ℕ) → kept_lines self.new q ≡ kept_lines self.old q }
    {
        for _at in self.programs.len()..program as usize + 1 {
            self.programs.push(None)?;
        }
        Ok(())
    }

    /// Keeps the lines of the program with this O number.
    fn keep(&mut self, program: u16, lines: ProgramLines) -> Result<(), NoMemory>
        ensures kept { OnOk result (kept_lines self.new program ≡ Some lines) }
        ensures others { (q : ℕ) → q ≢ program → kept_lines self.new q ≡ kept_lines self.old q }
    {
        self.make_room(program)?;
        self.programs[program as usize] = Some(lines);
        Ok(())
    }
}

/// Keeps the lines of a program, if none of a program of its O number are kept.
fn add_program(
    alloc: Global,
    sought: Sought,
    variable: u32,
    program: &FlowProgram,
    table: &mut LineTable,
) -> Result<(), NoMemory>
    ensures { OnOk result ((flow : Flow) (rest : List FlowProgram)
        → IsToldWith flow sought variable table.old (program.now ∷ rest)
        → IsToldWith flow sought variable table.new rest) }
{
    if table.get(program.number).is_some() {
        return Ok(());
    }
    let lines = program_lines(alloc, sought, variable, program.blocks.as_slice())?;
    table.keep(program.number, lines)?;
    Ok(())
}

/// The table of the lines of all blocks of a path that do what is looked for.
pub(crate) fn table_of(
    alloc: Global,
    sought: Sought,
    variable: u32,
    flow: &Flow,
) -> Result<LineTable, NoMemory>
    ensures { IfOk result (λ table. (program place : ℕ) → table_line table program place
        ≡ sought_line flow.now sought variable program place) }
{
    let mut table = LineTable::new(alloc);
    for program in flow.programs.as_slice() {
        add_program(alloc, sought, variable, program, &mut table)?;
    }
    Ok(table)
}
