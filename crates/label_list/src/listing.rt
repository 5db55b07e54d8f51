//! The list of labels of a path: that of the main program and of each loud one that is called (a
//! loud program has a wait or an end, or calls one that has) is made once, and they are joined as
//! the calls lead. No other crate calls `labels`.
ghost use Rattle.std.specs.Prelude.{◌≡◌, ◌≤◌, ◌++◌, ◌∷◌, [], Some, length, IfOk, IfErr, OnOk};
ghost use Rattle.nc_number.specs.declared.limits.TheConstants.{MOST_LABELS};
ghost use Rattle.block_order.specs.declared.control.Control.TheVariants as Control;
ghost use Rattle.block_order.specs.declared.label.Label.TheVariants as Label;
ghost use Rattle.block_order.specs.Answers.{IfFault};
ghost use Rattle.block_order.specs.Order.{program_of};
ghost use Rattle.loud_calls.specs.Calls.{IsReady, IsShort, IsShortCall};
ghost use Rattle.loud_calls.specs.Known.{piece_known};
ghost use Rattle.label_list.specs.Lists.{label_with_line, off_line, path_labels};
ghost use Rattle.label_list.specs.Pieces.{AreKnown, IsPiece, IsTaken};
ghost use Rattle.label_list.specs.Pieces.{labels_to_come, FailsAt, FailsInCall, FailsLong, IsListTooLong};

use crate::fault::PairFault;
use crate::labelled::Labelled;
use crate::list::LabelList;
use crate::piece::{Ending, Piece, push_at};
use block_order::{BlockOrder, Control, ControlBlock, Label, MOST_CALLS};
use loud_calls::{KnownPrograms, runs_have_one_list, unknown_call};
use nc_number::Failing;
use std::alloc::Global;
use tape_flow::{Flow, last_line};

/// The line of the place past a program's last block: that block's, or the O number's if the
/// program has no block; 0 if the tape lacks the program.
fn off_line(order: &BlockOrder, number: u16) -> u32
    ensures { result ≡ off_line (program_of order.now number) }
{
    match order.program(number) {
        Some(program) => last_line(program),
        None => 0,
    }
}

/// Adds the labels of a call to those of the calling program. The answer is how the calling program
/// ends there, if it does.
fn take_call(
    order: &BlockOrder,
    known: &KnownPrograms<Piece>,
    labels: &mut Vec<Labelled>,
    line: u32,
    program: u16,
    repeats: u16,
) -> Result<Option<Ending>, Failing<PairFault>>
    requires known { AreKnown order.now known.now }
    requires ready { IsReady order.now (piece_known known.now) (Control.Call program repeats) }
    requires few { length labels.old.items ≤ MOST_LABELS }
    ensures taken { IfOk result (IsTaken order.now line (Control.Call program repeats)
        labels.old.items labels.new.items) }
    ensures many { IfErr result (λ error. IfFault error
        (FailsAt order.now line (Control.Call program repeats) labels.old.items)) }
{
    if repeats == 0 || !order.is_loud(program) {
        return Ok(None);
    }
    match known.get(program) {
        Some(piece) => match piece.append_to(labels, repeats) {
            Ok(ending) => Ok(ending),
            Err(error) => Err(error),
        }
        None => Ok(None),
    }
}

/// Adds what a block gives to the labels of its program. The answer is how the program ends there,
/// if it does.
fn take_block(
    order: &BlockOrder,
    known: &KnownPrograms<Piece>,
    labels: &mut Vec<Labelled>,
    block: &ControlBlock,
) -> Result<Option<Ending>, Failing<PairFault>>
    requires known { AreKnown order.now known.now }
    requires ready { IsReady order.now (piece_known known.now) block.now.control }
    requires few { length labels.old.items ≤ MOST_LABELS }
    ensures taken { IfOk result (IsTaken order.now block.now.line block.now.control
        labels.old.items labels.new.items) }
    ensures many { IfErr result (λ error. IfFault error
        (FailsAt order.now block.now.line block.now.control labels.old.items)) }
{
    let line = block.line;
    match block.control {
        Control::Wait(code) => match push_at(labels, Label::Wait(code), line, None) {
            Ok(ending) => Ok(ending),
            Err(error) => Err(error),
        }
        Control::End => match push_at(labels, Label::End, line, Some(Ending::Stops)) {
            Ok(ending) => Ok(ending),
            Err(error) => Err(error),
        }
        Control::Back => Ok(Some(Ending::Returns(line))),
        Control::Call { program, repeats } => match take_call(
            order, known, labels, line, program, repeats,
        ) {
            Ok(ending) => Ok(ending),
            Err(error) => Err(error),
        }
        _ => Ok(None),
    }
}

/// Makes and keeps the labels of the loud program that a block calls, if it calls one whose labels
/// are not made yet.
#[cycle(calls)]
fn learn_call(
    alloc: Global,
    order: &BlockOrder,
    known: &mut KnownPrograms<Piece>,
    control: &Control,
    left: u8,
) -> Result<(), Failing<PairFault>>
    requires known { AreKnown order.now known.old }
    requires short { IsShortCall order.now left control.now }
    ensures known { OnOk result (AreKnown order.now known.new) }
    ensures ready { OnOk result (IsReady order.now (piece_known known.new) control.now) }
    ensures many { IfErr result (λ error. IfFault error (FailsInCall order.now control.now)) }
{
    let Some(program) = unknown_call(order, known, control) else {
        return Ok(());
    };
    match piece_of(alloc, order, known, program, left) {
        Ok(piece) => {
            known.keep(program, piece)?;
            Ok(())
        }
        Err(error) => Err(error),
    }
}

/// The labels of a program in which fewer than so many calls of loud programs follow, one in
/// another.
#[cycle(calls)]
fn piece_of(
    alloc: Global,
    order: &BlockOrder,
    known: &mut KnownPrograms<Piece>,
    number: u16,
    left: u8,
) -> Result<Piece, Failing<PairFault>>
    requires known { AreKnown order.now known.old }
    requires short { IsShort order.now left number }
    ensures known { OnOk result (AreKnown order.now known.new) }
    ensures piece { IfOk result (λ piece. IsPiece order.now number piece.labels.items piece.ending) }
    ensures many { IfErr result (λ error. IfFault error (FailsLong order.now number)) }
{
    let mut labels = Vec::new(alloc);
    for block in order.blocks(number) {
        match learn_call(alloc, order, known, &block.control, left - 1) {
            Ok(()) => {}
            Err(error) => return Err(error),
        }
        match take_block(order, known, &mut labels, block) {
            Ok(None) => {}
            Ok(Some(ending)) => return Ok(Piece { labels, ending }),
            Err(error) => return Err(error),
        }
    }
    match push_at(&mut labels, Label::Off, off_line(order, number), None) {
        Ok(_) => Ok(Piece {
            labels,
            ending: Ending::Stops,
        }),
        Err(error) => Err(error),
    }
}

/// The labels of a path, made of those of its main program: behind its M99 there is `Again`, as the
/// path begins anew.
fn with_start(piece: Piece) -> Result<Vec<Labelled>, Failing<PairFault>>
    requires { length piece.labels.items ≤ MOST_LABELS }
    ensures list { IfOk result (λ labels. labels.items ≡ piece.labels.items
        ++ labels_to_come (Some piece.ending) (λ line. label_with_line Label.Again line ∷ []) []) }
    ensures few { IfOk result (λ labels. length labels.items ≤ MOST_LABELS) }
    ensures many { IfErr result (λ error. IfFault error (IsListTooLong (piece.labels.items
        ++ labels_to_come (Some piece.ending) (λ line. label_with_line Label.Again line ∷ []) []))) }
{
    let Piece { mut labels, ending } = piece;
    match ending {
        Ending::Stops => Ok(labels),
        Ending::Returns(line) => match push_at(&mut labels, Label::Again, line, None) {
            Ok(_) => Ok(labels),
            Err(error) => Err(error),
        },
    }
}

/// The labels of the main program, and of what follows its M99.
pub(crate) fn main_labels(
    alloc: Global,
    order: &BlockOrder,
) -> Result<Vec<Labelled>, Failing<PairFault>>
    ensures list { IfOk result (λ labels. labels.items ≡ path_labels order.now) }
    ensures few { IfOk result (λ labels. length labels.items ≤ MOST_LABELS) }
    ensures many { IfErr result (λ error. IfFault error (IsListTooLong (path_labels order.now))) }
{
    runs_have_one_list(order);
    let mut known = KnownPrograms::new(alloc);
    match piece_of(alloc, order, &mut known, order.main(), MOST_CALLS as u8 + 1) {
        Ok(piece) => match with_start(piece) {
            Ok(labels) => Ok(labels),
            Err(error) => Err(error),
        }
        Err(error) => Err(error),
    }
}

/// The labels of a path: what its tape comes to that the other path can tell.
///
/// The list of each program is made once, and repeats of an empty one are skipped.
///
/// Errors: 70 if there are more than 65,536 labels; the path is left to the caller. `NoMemory`: out
/// of memory.
pub fn labels(alloc: Global, flow: &Flow) -> Result<LabelList, Failing<PairFault>>
    ensures list { IfOk result (λ list. list ≡ path_labels flow.now.order) }
    ensures many { IfErr result (λ error. IfFault error (IsListTooLong (path_labels flow.now.order))) }
{
    match main_labels(alloc, &flow.order) {
        Ok(labels) => Ok(LabelList::of(labels)),
        Err(error) => Err(error),
    }
}
