//! The line of a verdict, `accepted` or `refused ..`, into a sink. Its definition is in
//! specs/Printed.antt.
ghost use Rattle.std.specs.Prelude.{◌≡◌, ◌+◌, ◌≤◌, ℕ, List, ◌++◌, length, codes};
ghost use Rattle.std.specs.Option.{option_copied};
ghost use Rattle.text_pieces.specs.declared.piece.TheConstants.{MOST_BYTES};
ghost use Rattle.nc_verify.specs.Printed.{IsPut, IsVerdictText, about_text, mismatch_text, other_text, position_text, refused_text, switch_text, switches_text};

use crate::putting::put_piece;
use crate::refusal::Refusal;
use nc_number::Cause;
use nc_outside::{PutFault, Sink};
use text_pieces::Piece;

/// Adds the place of path 2's label, and how many labels before are equal.
#[tactic(auto, unfolding(crate::specs::Printed::other_text))]
fn add_other(piece: &mut Piece, refusal: &Refusal)
    requires { length piece.old + 79 ≤ MOST_BYTES }
    ensures text { piece.new ≡ piece.old ++ other_text refusal.now }
    ensures size { length piece.new ≤ length piece.old + 79 }
{
    piece.add_place(2, refusal.other);
    piece.add_numbered(b" after ", u64::from(refusal.after));
}

/// Adds where the labels of the paths differ.
#[tactic(auto, unfolding(crate::specs::Printed::mismatch_text))]
fn add_mismatch(piece: &mut Piece, refusal: &Refusal)
    requires { length piece.old + 131 ≤ MOST_BYTES }
    ensures text { piece.new ≡ piece.old ++ mismatch_text refusal.now }
    ensures size { length piece.new ≤ length piece.old + 131 }
{
    piece.add_place(1, refusal.line);
    add_other(piece, refusal);
}

/// Adds where a refusal of this cause is: a line of the settings, a path, two lines, or a path and
/// a line.
fn add_about(piece: &mut Piece, cause: Option<Cause>, refusal: &Refusal)
    requires { length piece.old + 131 ≤ MOST_BYTES }
    ensures text { piece.new ≡ piece.old ++ about_text cause refusal.now }
    ensures size { length piece.new ≤ length piece.old + 131 }
{
    match cause {
        Some(Cause::BadSetting) => piece.add_numbered(b" line ", u64::from(refusal.line)),
        Some(Cause::TooManyLabels) => piece.add_numbered(b" path ", u64::from(refusal.path)),
        Some(Cause::WaitMismatch) => add_mismatch(piece, refusal),
        _ => piece.add_place(refusal.path, refusal.line),
    }
}

/// Adds a block-skip switch after a blank, if it is on: bit n is switch n.
fn add_switch(piece: &mut Piece, switches: u16, switch: u8)
    requires room { length piece.old + 21 ≤ MOST_BYTES }
    requires switch { switch ≤ 9 }
    ensures text { piece.new ≡ piece.old ++ switch_text switches switch }
    ensures size { length piece.new ≤ length piece.old + 21 }
{
    if (switches >> switch) % 2 == 1 {
        piece.add_numbered(b" ", u64::from(switch));
    }
}

/// Adds three switches, from one on.
#[tactic(auto, unfolding(crate::specs::Printed::switches_text))]
fn add_switches(piece: &mut Piece, switches: u16, switch: u8)
    requires room { length piece.old + 63 ≤ MOST_BYTES }
    requires switch { switch ≤ 7 }
    ensures text { piece.new ≡ piece.old ++ switches_text switches switch }
    ensures size { length piece.new ≤ length piece.old + 63 }
{
    add_switch(piece, switches, switch);
    add_switch(piece, switches, switch + 1);
    add_switch(piece, switches, switch + 2);
}

/// Adds the position of the block-skip switches at which a pair is refused, if one is on.
#[tactic(auto, unfolding(crate::specs::Printed::position_text))]
fn add_position(piece: &mut Piece, switches: u16)
    requires { length piece.old + 197 ≤ MOST_BYTES }
    ensures text { piece.new ≡ piece.old ++ position_text switches }
    ensures size { length piece.new ≤ length piece.old + 197 }
{
    if switches == 0 {
        return;
    }
    piece.add(b" skip");
    add_switches(piece, switches, 1);
    add_switches(piece, switches, 4);
    add_switches(piece, switches, 7);
    piece.add(b" on");
}

/// The line of a refusal of this cause.
#[tactic(auto, unfolding(crate::specs::Printed::refused_text))]
fn refused_line(cause: Option<Cause>, refusal: &Refusal) -> Piece
    ensures { result ≡ refused_text cause refusal.now }
{
    let mut piece = Piece::empty();
    piece.add_numbered(b"refused ", u64::from(refusal.number));
    piece.add_name(cause);
    add_about(&mut piece, cause, refusal);
    add_position(&mut piece, refusal.switches);
    piece.add(b"\n");
    piece
}

/// The line of a pair that is accepted.
fn accepted_line() -> Piece
    ensures { result ≡ codes "accepted\n" }
{
    let mut piece = Piece::empty();
    piece.add(b"accepted\n");
    piece
}

/// The line of a verdict.
fn verdict_line(refusal: Option<&Refusal>) -> Piece
    ensures { IsVerdictText (option_copied refusal.entry) result }
{
    match refusal {
        Some(refusal) => refused_line(Cause::of_number(refusal.number), refusal),
        None => accepted_line(),
    }
}

/// Writes the line of a verdict: `accepted`, or `refused` with the number and the name of the
/// refusal and what it is about.
///
/// Errors: those of the sink; it then holds a part of the line, from its start. Takes no memory
/// itself.
pub fn write_verdict<K: Sink>(refusal: Option<&Refusal>, sink: &mut K) -> Result<(), PutFault>
    ensures { (text : List ℕ) × IsVerdictText (option_copied refusal.entry) text
        × IsPut (K.state sink.old) (K.state sink.new) text result }
{
    put_piece(sink, &verdict_line(refusal))
}
