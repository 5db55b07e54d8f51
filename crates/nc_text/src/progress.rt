//! What was read of a tape so far, and what one line more does to it: it is counted, or refused.
//! step.rt calls it for each line, feed.rt at the end. Going back is in going_back.rt.
ghost use Rattle.std.specs.Prelude.{◌≡◌, ◌<◌, ◌≤◌, ◌++◌, false, Ok, Err, OnOk, OnErr};
ghost use Rattle.std.specs.Option.{option_to_list};
ghost use Rattle.nc_text.specs.Lines.{size_of};
ghost use Rattle.nc_text.specs.Tape.{nothing_read, is_past_end, next, percent_refusal, outer_refusal, said_refusal, is_block, is_said_in_range, with_said, with_program, tape_begun, after_outer, after_percent, after_said, answer_without_end, answer_at_end};
ghost use Rattle.nc_number.specs.Answers.{Gives};
ghost use Rattle.nc_number.specs.declared.limits.TheConstants.{LONGEST_LINE, LONGEST_TAPE, MOST_BLOCKS};
ghost use Rattle.nc_text.specs.Mark.{Grows};
ghost use Rattle.line_text.specs.LineShape.{IsSaid, IsSaidShape};
ghost use Rattle.nc_text.specs.ReadShape.{IsReadShape, IsReadShape-prop};
ghost use Rattle.line_text.specs.declared.said.Said.TheVariants as said;

use crate::fault::TextFault;
use crate::programs::{add_block, begin_program};
use crate::tape::{Program, Tape};
use line_text::{Refusal, Said, SaidBlock};
use nc_number::{Failing, LONGEST_LINE, LONGEST_TAPE, MOST_BLOCKS};
use std::alloc::{AllocError, Global};

/// What was read before the present line.
#[derive(Debug, Drop)]
pub(crate) struct Progress {
    /// How many lines were read.
    pub lines: u32,
    /// How many bytes they had, with their line feeds; at most 4 MiB.
    pub bytes: u32,
    /// The number of the first line that begins with `%`, or 0 before it.
    pub percent: u32,
    /// How many blocks there are, of all programs; at most 20,000.
    pub blocks: u32,
    /// The programs before the one that is being read.
    pub done: Vec<Program>,
    /// The program that is being read, if an O number came.
    pub current: Option<Program>,
    ghost few_lines: { lines ≤ bytes },
    ghost few_bytes: { bytes ≤ LONGEST_TAPE },
    ghost few_blocks: { blocks ≤ MOST_BLOCKS },
    ghost shaped: { IsReadShape lines blocks (done.items ++ option_to_list current) } by { IsReadShape-prop lines blocks (done.items ++ option_to_list current) },
}

impl Progress {
    ghost use Rattle.nc_text.specs.View.{before_of, Passes};

    /// What was read before the first line: nothing.
    pub(crate) fn new(alloc: Global) -> Self
        ensures { before_of result ≡ nothing_read }
    {
        Progress {
            lines: 0,
            bytes: 0,
            percent: 0,
            blocks: 0,
            done: Vec::new(alloc),
            current: None,
        }
    }

    /// Whether a line of this length, with its line feed if it has one, makes the text longer than
    /// 4 MiB.
    fn is_past_end(&self, len: u32, ended: bool) -> bool
        ensures { result ≡ is_past_end (before_of self.now) len ended }
    {
        u64::from(self.bytes) + size_of(len, ended) > LONGEST_TAPE as u64
    }

    /// The least refusal of a line that begins with `%`: 15 if it is too long, 17 if the tape is.
    fn percent_refusal(&self, len: u32, ended: bool) -> Option<Refusal>
        ensures { result ≡ percent_refusal (before_of self.now) len ended }
    {
        if len as usize > LONGEST_LINE {
            Some(Refusal::LineTooLong)
        } else if self.is_past_end(len, ended) {
            Some(Refusal::TapeTooLong)
        } else {
            None
        }
    }

    /// The least refusal of a line before the first or after the second `%` line: the tape is too
    /// long.
    fn outer_refusal(&self, len: u32, ended: bool) -> Option<Refusal>
        ensures { result ≡ outer_refusal (before_of self.now) len ended }
    {
        if self.is_past_end(len, ended) {
            Some(Refusal::TapeTooLong)
        } else {
            None
        }
    }

    /// The least refusal, in the order of their numbers, of a line that is readable by itself.
    fn said_refusal(&self, len: u32, ended: bool, said: &Said) -> Option<Refusal>
        ensures { result ≡ said_refusal (before_of self.now) len ended said.now }
    {
        let is_block = is_block(said);
        if is_block && self.current.is_none() {
            Some(Refusal::NoProgramNumber)
        } else if len as usize > LONGEST_LINE {
            Some(Refusal::LineTooLong)
        } else if is_block && self.blocks as usize >= MOST_BLOCKS {
            Some(Refusal::TooManyBlocks)
        } else if self.is_past_end(len, ended) {
            Some(Refusal::TapeTooLong)
        } else if !is_in_range(said) {
            Some(Refusal::WordRange)
        } else {
            None
        }
    }

    /// Counts a line that adds neither a program nor a block.
    fn pass(&mut self, len: u32, ended: bool)
        requires some { 0 < size_of len ended }
        requires fits { is_past_end (before_of self.old) len ended ≡ false }
        ensures { before_of self.new ≡ next (before_of self.old) len ended }
    {
        self.bytes += size_of(len, ended) as u32;
        self.lines += 1;
    }

    /// The line that was passed last is the first `%` line.
    pub(crate) fn begin(&mut self)
        ensures { before_of self.new ≡ tape_begun (before_of self.old) }
    {
        self.percent = self.lines;
    }

    /// Counts a line that begins a program. If memory runs out, all is as before.
    fn pass_program(
        &mut self,
        alloc: Global,
        number: u32,
        len: u32,
        ended: bool,
    ) -> Result<(), AllocError>
        requires some { 0 < size_of len ended }
        requires fits { is_past_end (before_of self.old) len ended ≡ false }
        requires range { (1 ≤ number) × (number ≤ 9999) }
        ensures ok { OnOk result (before_of self.new ≡ next (with_program (before_of self.old) number) len ended) }
        ensures as_before { OnErr result (before_of self.new ≡ before_of self.old) }
    {
        let line = self.lines + 1;
        begin_program(alloc, &mut self.done, &mut self.current, line, number)?;
        self.bytes += size_of(len, ended) as u32;
        self.lines = line;
        Ok(())
    }

    /// Counts a line that says a block. If memory runs out, all is as before.
    fn pass_block(&mut self, block: SaidBlock, len: u32, ended: bool) -> Result<(), AllocError>
        requires some { 0 < size_of len ended }
        requires fits { is_past_end (before_of self.old) len ended ≡ false }
        requires few { self.old.blocks < MOST_BLOCKS }
        requires shape { IsSaidShape LONGEST_LINE block.sequence block.body }
        ensures ok { OnOk result (before_of self.new
            ≡ next (with_said (before_of self.old) (said.Block block)) len ended) }
        ensures as_before { OnErr result (before_of self.new ≡ before_of self.old) }
    {
        let line = self.lines + 1;
        add_block(&mut self.current, line, block)?;
        self.blocks += 1;
        self.bytes += size_of(len, ended) as u32;
        self.lines = line;
        Ok(())
    }

    /// Takes a line before the first `%` line, or one after the second. Error: the tape is too
    /// long.
    pub(crate) fn pass_outer(&mut self, len: u32, ended: bool) -> Result<(), Refusal>
        requires { 0 < size_of len ended }
        ensures step { Passes result (before_of self.new) (after_outer (before_of self.old) len ended) }
        ensures grows { Grows (before_of self.old) (before_of self.new) }
    {
        if let Some(refusal) = self.outer_refusal(len, ended) {
            return Err(refusal);
        }
        self.pass(len, ended);
        Ok(())
    }

    /// Takes a line that begins with `%`. Error: the line or the tape is too long.
    pub(crate) fn pass_percent(&mut self, len: u32, ended: bool) -> Result<(), Refusal>
        requires { 0 < size_of len ended }
        ensures step { Passes result (before_of self.new) (after_percent (before_of self.old) len ended) }
        ensures grows { Grows (before_of self.old) (before_of self.new) }
    {
        if let Some(refusal) = self.percent_refusal(len, ended) {
            return Err(refusal);
        }
        self.pass(len, ended);
        Ok(())
    }

    /// Takes a line of the programs that is readable by itself. Errors: its least refusal, or
    /// memory.
    pub(crate) fn pass_said(
        &mut self,
        alloc: Global,
        len: u32,
        ended: bool,
        said: Said,
    ) -> Result<(), Failing<Refusal>>
        requires some { 0 < size_of len ended }
        requires shape { len ≤ LONGEST_LINE → IsSaid LONGEST_LINE said }
        ensures step { Gives (λ _. before_of self.new) result (after_said (before_of self.old) len ended (Ok said)) }
        ensures grows { Grows (before_of self.old) (before_of self.new) }
    {
        if let Some(refusal) = self.said_refusal(len, ended, &said) {
            return Err(Failing::Fault(refusal));
        }
        match said {
            Said::Nothing => self.pass(len, ended),
            Said::Program(None) => self.pass(len, ended),
            Said::Program(Some(number)) => self.pass_program(alloc, number, len, ended)?,
            Said::Block(block) => self.pass_block(block, len, ended)?,
        }
        Ok(())
    }

    /// The refusal of a tape without a second `%` line: 13 at its first `%` line if it has no O
    /// number, else 14 at its last line.
    pub(crate) fn unfinished(&self) -> TextFault
        ensures { answer_without_end (before_of self.now) ≡ Err result }
    {
        if self.current.is_none() {
            no_program(self.percent)
        } else {
            TextFault {
                number: Refusal::NoEnd.number(),
                line: self.lines,
            }
        }
    }

    /// The tape after its second `%` line. Errors: it has no O number, or memory.
    pub(crate) fn finish(self) -> Result<Tape, Failing<TextFault>>
        ensures { Gives (λ tape. tape) result (answer_at_end (before_of self)) }
    {
        let Progress {
            lines: _,
            bytes: _,
            percent,
            blocks: _,
            done,
            current,
        } = self;
        match current {
            None => Err(Failing::Fault(no_program(percent))),
            Some(program) => {
                let mut programs = done;
                programs.push(program)?;
                Ok(Tape::of(programs))
            }
        }
    }
}

/// The refusal, 13, of a tape without any O number: at its first `%` line.
fn no_program(percent: u32) -> TextFault
    ensures { result ≡ record { number = 13; line = percent } }
{
    TextFault {
        number: Refusal::NoProgramNumber.number(),
        line: percent,
    }
}

/// The bytes of a line of this length, with its line feed if it has one.
fn size_of(len: u32, ended: bool) -> u64
    ensures { result ≡ size_of len ended }
{
    if ended {
        u64::from(len) + 1
    } else {
        u64::from(len)
    }
}

/// Whether the line says a block. Only a block needs an O number before it, and counts among the
/// 20,000 of a tape.
fn is_block(said: &Said) -> bool
    ensures { result ≡ is_block said.now }
{
    match said {
        Said::Nothing => false,
        Said::Program(_) => false,
        Said::Block(_) => true,
    }
}

/// Whether the O number, or each sequence number of the block, is in its range. That refusal has
/// the greatest number, so it is asked last.
fn is_in_range(said: &Said) -> bool
    ensures { result ≡ is_said_in_range said.now }
{
    match said {
        Said::Nothing => true,
        Said::Program(number) => number.is_some(),
        Said::Block(block) => block.in_range,
    }
}
