//! The least lines of a path: those of the main program and of each loud one that is called (a loud
//! program has a wait or an end, or calls one that has) are made once and joined as the calls lead.
ghost use Rattle.std.specs.Prelude.{◌≡◌, Some, None, Option, IfOk, OnOk};
ghost use Rattle.block_order.specs.declared.control.Control.TheVariants as Control;
ghost use Rattle.loud_calls.specs.Calls.{IsReady, IsShort, IsShortCall};
ghost use Rattle.loud_calls.specs.Known.{piece_known};
ghost use Rattle.part_lines.specs.PartLines.{AreLeastLines};
ghost use Rattle.part_lines.specs.Pieces.{lines_of_path, quiet_known, AreKnown, IsPiece, IsTaken};

use crate::lines::BlockLines;
use crate::piece::{Ending, Piece, PieceLines};
use crate::quiet::{QuietLines, quiet_lines};
use block_order::{BlockOrder, Control, MOST_CALLS};
use loud_calls::{KnownPrograms, runs_have_one_list, unknown_call};
use nc_number::{NoMemory, lesser};
use std::alloc::Global;

/// Adds the lines of a call to those of the calling program. The answer is how the calling program
/// ends there, if it does.
fn take_call<L: BlockLines>(
    order: &BlockOrder,
    lines: &L,
    quiet: &QuietLines,
    known: &KnownPrograms<Piece>,
    own: &mut PieceLines,
    program: u16,
    repeats: u16,
) -> Result<Option<Ending>, NoMemory>
    requires known { AreKnown order.now (L.line lines.now) (quiet_known quiet.now) known.now }
    requires ready { IsReady order.now (piece_known known.now) (Control.Call program repeats) }
    ensures { IfOk result (IsTaken order.now (L.line lines.now) (quiet_known quiet.now)
        (Control.Call program repeats) own.old own.new) }
{
    if repeats == 0 || !order.is_loud(program) {
        return Ok(None);
    }
    match known.get(program) {
        Some(piece) => match piece.add_to(own, repeats) {
            Ok(ending) => Ok(ending),
            Err(error) => Err(error),
        },
        None => Ok(None),
    }
}

/// Adds what comes behind a block to the lines of its program. The answer is how the program ends
/// there, if it does.
fn take_block<L: BlockLines>(
    order: &BlockOrder,
    lines: &L,
    quiet: &QuietLines,
    known: &KnownPrograms<Piece>,
    own: &mut PieceLines,
    control: &Control,
) -> Result<Option<Ending>, NoMemory>
    requires known { AreKnown order.now (L.line lines.now) (quiet_known quiet.now) known.now }
    requires ready { IsReady order.now (piece_known known.now) control.now }
    ensures { IfOk result (IsTaken order.now (L.line lines.now) (quiet_known quiet.now) control.now own.old own.new) }
{
    match *control {
        Control::Wait(_) => {
            own.pass()?;
            Ok(None)
        }
        Control::End => Ok(Some(Ending::Stops)),
        Control::Back => Ok(Some(Ending::Returns)),
        Control::Call { program, repeats } => take_call(
            order, lines, quiet, known, own, program, repeats,
        ),
        _ => Ok(None),
    }
}

/// Makes and keeps the lines of the loud program that a block calls, if it calls one whose lines
/// are not made yet.
#[cycle(calls)]
fn learn_call<L: BlockLines>(
    alloc: Global,
    order: &BlockOrder,
    lines: &L,
    quiet: &QuietLines,
    known: &mut KnownPrograms<Piece>,
    control: &Control,
    left: u8,
) -> Result<(), NoMemory>
    requires known { AreKnown order.now (L.line lines.now) (quiet_known quiet.now) known.old }
    requires short { IsShortCall order.now left control.now }
    ensures known { OnOk result (AreKnown order.now (L.line lines.now) (quiet_known quiet.now) known.new) }
    ensures ready { OnOk result (IsReady order.now (piece_known known.new) control.now) }
{
    let Some(program) = unknown_call(order, known, control) else {
        return Ok(());
    };
    let piece = piece_of(alloc, order, lines, quiet, known, program, left)?;
    known.keep(program, piece)
}

/// The lines of a program in which fewer than so many calls of loud programs follow, one in
/// another.
#[cycle(calls)]
fn piece_of<L: BlockLines>(
    alloc: Global,
    order: &BlockOrder,
    lines: &L,
    quiet: &QuietLines,
    known: &mut KnownPrograms<Piece>,
    number: u16,
    left: u8,
) -> Result<Piece, NoMemory>
    requires known { AreKnown order.now (L.line lines.now) (quiet_known quiet.now) known.old }
    requires short { IsShort order.now left number }
    ensures known { OnOk result (AreKnown order.now (L.line lines.now) (quiet_known quiet.now) known.new) }
    ensures piece { IfOk result
        (λ piece. IsPiece order.now (L.line lines.now) (quiet_known quiet.now) number piece.lines piece.ending) }
{
    let mut own = PieceLines::new(alloc);
    let blocks = order.blocks(number);
    for place in 0..blocks.len() {
        let block = &blocks[place];
        learn_call(alloc, order, lines, quiet, known, &block.control, left - 1)?;
        own.see(quiet.seen(order, lines.line(number, place), &block.control));
        match take_block(order, lines, quiet, known, &mut own, &block.control)? {
            Some(ending) => return Ok(Piece { lines: own, ending }),
            None => {}
        }
    }
    Ok(Piece {
        lines: own,
        ending: Ending::Stops,
    })
}

/// The lines of a whole path, made of those of its main program: its round is closed. Behind its
/// M99 the last part goes on with the blocks of the first.
fn closed(piece: Piece) -> Result<Vec<Option<u32>>, NoMemory>
    ensures { IfOk result (λ found. found.items ≡ lines_of_path piece.lines piece.ending) }
{
    let Piece { lines, ending } = piece;
    let PieceLines { mut done, last } = lines;
    let end = match ending {
        Ending::Returns => lesser(last, done.first().copied().flatten()),
        Ending::Stops => last,
    };
    done.push(end)?;
    Ok(done)
}

/// The least line of each part of a path, for each number of waits up to those of its list.
///
/// Behind an M99 of the main program the path begins anew, so its last part has the blocks of the
/// first too. The only error is that memory runs out.
pub fn least_lines<L: BlockLines>(
    alloc: Global,
    order: &BlockOrder,
    lines: &L,
) -> Result<Vec<Option<u32>>, NoMemory>
    ensures { IfOk result (λ found. AreLeastLines order.now (L.line lines.now) found.items) }
{
    runs_have_one_list(order);
    let quiet = quiet_lines(alloc, &order, lines)?;
    let mut known = KnownPrograms::new(alloc);
    let main = order.main();
    let piece = piece_of(
        alloc,
        &order,
        lines,
        &quiet,
        &mut known,
        main,
        MOST_CALLS as u8 + 1,
    )?;
    closed(piece)
}
