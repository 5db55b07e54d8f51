//! What a flow lends of a place (the open programs of a path, or in one program the index of a
//! block): its block, its line, the label that a path comes to there, and the mark of a block. Tests
//! alone ask for marks, and no crate calls `seek`. The definitions are in specs/Places.antt.
ghost use Rattle.std.specs.Prelude.{◌≡◌, ◌==◌, Some, length, slice_get};
ghost use Rattle.std.specs.Option.{option_copied, option_map};
ghost use Rattle.block_forms.specs.Blocks.{block_form};
ghost use Rattle.block_order.specs.Labels.{start};
ghost use Rattle.block_order.specs.Loud.{loud, mark_of};
ghost use Rattle.block_order.specs.Order.{blocks, control_at, main_number, seek};
ghost use Rattle.tape_flow.specs.Controls.{control_block};
ghost use Rattle.tape_flow.specs.Places.{flow_program, flow_blocks, flow_block, last_line, line_in, line_at};
ghost use Rattle.tape_flow.specs.Places.{label_of, label_at, first_mark, mark_of_block, mark_at};

use crate::flow::Flow;
use crate::program::FlowProgram;
use block_forms::FlowBlock;
use block_order::{BlockOrder, Control, ControlProgram, Frame, Label, Mark, Place};

/// The program at a place of the list, its index. The order finds the place, since it lists the
/// same programs.
fn get_program(programs: &[FlowProgram], place: usize) -> Option<&FlowProgram>
    ensures { option_copied result ≡ slice_get programs.now place }
{
    programs.get(place)
}

/// The block at a place of a program; none past its last block.
fn get_block(blocks: &[FlowBlock], place: usize) -> Option<&FlowBlock>
    ensures { option_copied result ≡ slice_get blocks.now place }
{
    blocks.get(place)
}

/// The block at a place of a program; none without a program, or past its last block.
fn block_of(program: Option<&FlowProgram>, block: u32) -> Option<&FlowBlock>
    ensures { option_copied result ≡ slice_get (flow_blocks (option_copied program.entry)) block }
{
    match program {
        Some(program) => get_block(program.blocks.as_slice(), block as usize),
        None => None,
    }
}

/// The line of the program's last block, or of its O number where it has none.
pub fn last_line(program: &ControlProgram) -> u32
    ensures { result ≡ last_line program.now }
{
    let blocks = program.blocks.as_slice();
    match blocks.get(blocks.len().saturating_sub(1)) {
        Some(block) => block.line,
        None => program.line,
    }
}

/// The line of a block. A path that ran past the last block of a program stands at the last block's
/// line, or at that of the O number if there is no block.
fn line_in(program: &ControlProgram, block: u32) -> u32
    ensures { result ≡ line_in (Some program.now) block }
{
    match program.blocks.as_slice().get(block as usize) {
        Some(block) => block.line,
        None => last_line(program),
    }
}

/// Whether this is the one place after the last block, where a path runs off.
fn is_past(program: &ControlProgram, block: u32) -> bool
    ensures { result ≡ (block == length program.now.blocks) }
{
    block as usize == program.blocks.as_slice().len()
}

/// The label of a block of this control, if it has one; without a caller the block is one of the
/// main program, where M99 is `Again`.
fn label_of(caller: Option<Frame>, control: Option<Control>) -> Option<Label>
    ensures { result ≡ label_of caller control }
{
    match (caller, control) {
        (_, None) => Some(Label::Off),
        (_, Some(Control::Wait(code))) => Some(Label::Wait(code)),
        (_, Some(Control::End)) => Some(Label::End),
        (None, Some(Control::Back)) => Some(Label::Again),
        (_, Some(_)) => None,
    }
}

/// The mark of a block of this control, if it has one: at a mark the labels of a program go on, end
/// or turn to another program. A call has a mark only if its program reaches a wait or an end.
fn mark_of(order: &BlockOrder, control: Control) -> Option<Mark>
    ensures { result ≡ first_mark (mark_of (loud order.now) control) }
{
    match control {
        Control::Wait(code) => Some(Mark::Wait(code)),
        Control::End => Some(Mark::End),
        Control::Call { program, repeats } if order.is_loud(program) => Some(Mark::Call {
            program,
            repeats,
        }),
        Control::Back => Some(Mark::Back),
        _ => None,
    }
}

impl Flow {
    /// The O number of the main program.
    pub fn main(&self) -> u16
        ensures { result ≡ main_number self.now.order }
    {
        self.order.main()
    }

    /// Where a path begins: the first block of the main program.
    pub fn start(&self) -> Place
        ensures { result ≡ start self.now.order }
    {
        Place::start(self.main())
    }

    /// The program with this O number, found by the order's index.
    fn program(&self, number: u16) -> Option<&FlowProgram>
        ensures { option_copied result ≡ flow_program self.now.programs number }
    {
        match self.order.place_of(number) {
            Some(place) => get_program(self.programs.as_slice(), place),
            None => None,
        }
    }

    /// A block of a program, counted from 0; none where the tape has no such program, or the
    /// program no such block.
    pub fn block(&self, program: u16, block: u32) -> Option<&FlowBlock>
        ensures value { option_copied result ≡ flow_block self.now.programs program block }
        ensures ordered { option_map (λ block. control_block (block_form block.now)) result
            ≡ slice_get (blocks self.now.order program) block }
    {
        block_of(self.program(program), block)
    }

    /// What a block of a program does to the order, if there is such a block.
    fn control(&self, program: u16, block: u32) -> Option<Control>
        ensures { result ≡ control_at (blocks self.now.order program) block }
    {
        match self.order.block(program, block) {
            Some(block) => Some(block.control),
            None => None,
        }
    }

    /// Where a search for a sequence number leads: to the next block of that number behind the
    /// block, else to the first one of its program.
    pub fn seek(&self, program: u16, block: u32, number: u32) -> Option<u32>
        ensures { result ≡ seek (blocks self.now.order program) block number }
    {
        self.order.seek(program, block, number)
    }

    /// The line at which a path stands; past the last block of its program the last block's, or
    /// that of the O number where there is no block.
    pub fn line(&self, at: &Place) -> u32
        ensures { result ≡ line_at self.now.order at.now }
    {
        let running = at.running();
        match self.order.program(running.program) {
            Some(program) => line_in(program, running.block),
            None => 0,
        }
    }

    /// The label that a path comes to at the place: a wait, an end, `Again` at an M99 of the main
    /// program, `Off` past the last block of a program; else none.
    pub fn label(&self, at: &Place) -> Option<Label>
        ensures { result ≡ label_at self.now.order at.now }
    {
        let running = at.running();
        label_of(at.caller(), self.control(running.program, running.block))
    }

    /// The mark of a block of this program. A program that reaches no wait and no end has no marks,
    /// unless it is the main program.
    fn mark_of_block(&self, program: u16, control: Option<Control>) -> Option<Mark>
        ensures { result ≡ mark_of_block self.now.order program control }
    {
        match control {
            Some(control) if program == self.main() || self.order.is_loud(program) => mark_of(
                &self.order,
                control,
            ),
            _ => None,
        }
    }

    /// The mark at a block of a program: `Past` behind its last block; in the main program, and in
    /// programs that reach a wait or an end, a wait, an end, an M99 without P and a call of a
    /// program that reaches a wait or an end. None where the tape has no such program.
    pub fn mark(&self, program: u16, block: u32) -> Option<Mark>
        ensures { result ≡ mark_at self.now.order program block }
    {
        match self.order.program(program) {
            Some(found) if is_past(found, block) => Some(Mark::Past),
            Some(_) => self.mark_of_block(program, self.control(program, block)),
            None => None,
        }
    }
}
