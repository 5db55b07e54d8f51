//! The text that `waits` prints of an accepted pair: how often the paths meet, a line for each
//! meeting and for the end, the switches that change them, and what was taken on trust. Its definition is in specs/Printed.antt.
ghost use Rattle.std.specs.Prelude.{◌≡◌, ◌+◌, ◌≤◌, ◌++◌, OnOk, codes, length};
ghost use Rattle.text_pieces.specs.declared.piece.TheConstants.{MOST_BYTES};
ghost use Rattle.nc_number.specs.Printed.{value_text};
ghost use Rattle.text_pieces.specs.Pieces.{text_with_number};
ghost use Rattle.open_order.specs.Basis.{trust_view};
ghost use Rattle.wait_verify.specs.Printed.{label_text, meeting_text, meetings_text, geometry_text, geometries_text, numbers_text, codes_text, trust_text, head_text, line_text, hanging_text, hangings_text, waits_text};

use crate::pair::WaitPair;
use block_order::Label;
use label_list::Labelled;
use nc_number::{LARGEST_MICRO, NoMemory, Value};
use open_order::{Hanging, Trust};
use std::collections::BTreeSet;
use text_pieces::{Piece, push_numbered, push_piece};

/// Adds a label: a wait by its M code, or how the path ends; at most 21 bytes.
fn add_label(piece: &mut Piece, label: Label)
    requires { length piece.old + 21 ≤ MOST_BYTES }
    ensures text { piece.new ≡ piece.old ++ label_text label }
    ensures size { length piece.new ≤ length piece.old + 21 }
{
    match label {
        Label::Wait(code) => piece.add_numbered(b"M", u64::from(code)),
        Label::End => piece.add(b"end"),
        Label::Again => piece.add(b"again"),
        Label::Off => piece.add(b"off"),
    }
}

/// The line of a label that both paths come to, with the line of each tape.
#[tactic(auto, unfolding(crate::specs::Printed::meeting_text))]
fn meeting_line(one: &Labelled, two: &Labelled) -> Piece
    ensures { result ≡ meeting_text one.now two.now }
{
    let mut piece = Piece::empty();
    add_label(&mut piece, one.label);
    piece.add_numbered(b" path 1 line ", u64::from(one.line));
    piece.add_numbered(b" path 2 line ", u64::from(two.line));
    piece.add(b"\n");
    piece
}

/// Adds the line of a label that both paths come to. The only error is out of memory.
fn push_meeting(text: &mut Vec<u8>, one: &Labelled, two: &Labelled) -> Result<(), NoMemory>
    ensures { OnOk result (text.new.items ≡ text.old.items ++ meeting_text one.now two.now) }
{
    push_piece(text, &meeting_line(one, two))
}

/// Adds a line for each label of both lists, as far as both go. The only error is out of memory.
fn push_meetings(text: &mut Vec<u8>, left: &[Labelled], right: &[Labelled]) -> Result<(), NoMemory>
    ensures { OnOk result (text.new.items ≡ text.old.items ++ meetings_text left.now right.now) }
{
    for place in 0..left.len().min(right.len()) {
        push_meeting(text, &left[place], &right[place])?;
    }
    Ok(())
}

/// A G code after a blank.
fn code_piece(value: Value) -> Piece
    ensures { result ≡ codes " G" ++ value_text value }
{
    let mut piece = Piece::empty();
    piece.add(b" G");
    piece.add_value(value);
    piece
}

/// A G code after a blank, from its value in 0.000001; nothing if that is greater than a value may
/// be, which no code is.
fn geometry_piece(micro: u64) -> Piece
    ensures { result ≡ geometry_text micro }
{
    if micro > LARGEST_MICRO {
        return Piece::empty();
    }
    match Value::of(micro as i64) {
        Some(value) => code_piece(value),
        None => Piece::empty(),
    }
}

/// Adds a G code after a blank. The only error is out of memory.
fn push_geometry(text: &mut Vec<u8>, micro: u64) -> Result<(), NoMemory>
    ensures { OnOk result (text.new.items ≡ text.old.items ++ geometry_text micro) }
{
    push_piece(text, &geometry_piece(micro))
}

/// Adds the G codes, each after a blank. The only error is out of memory.
fn push_geometries(text: &mut Vec<u8>, numbers: &BTreeSet<u64>) -> Result<(), NoMemory>
    ensures { OnOk result (text.new.items ≡ text.old.items ++ geometries_text numbers.now.keys) }
{
    for micro in numbers {
        push_geometry(text, *micro)?;
    }
    Ok(())
}

/// Adds the M codes, each after a blank. The only error is out of memory.
fn push_auxiliaries(text: &mut Vec<u8>, numbers: &BTreeSet<u32>) -> Result<(), NoMemory>
    ensures { OnOk result (text.new.items ≡ text.old.items ++ numbers_text (codes " M") numbers.now.keys) }
{
    for code in numbers {
        push_numbered(text, b" M", u64::from(*code))?;
    }
    Ok(())
}

/// Adds the programs that the tapes lack, each after a blank. The only error is out of memory.
fn push_programs(text: &mut Vec<u8>, numbers: &BTreeSet<u16>) -> Result<(), NoMemory>
    ensures { OnOk result (text.new.items ≡ text.old.items ++ numbers_text (codes " O") numbers.now.keys) }
{
    for number in numbers {
        push_numbered(text, b" O", u64::from(*number))?;
    }
    Ok(())
}

/// Adds the codes and programs that were taken on trust, each after a blank. The only error is out
/// of memory.
fn push_codes(text: &mut Vec<u8>, trust: &Trust) -> Result<(), NoMemory>
    ensures { OnOk result (text.new.items ≡ text.old.items ++ codes_text (trust_view trust.now)) }
{
    push_geometries(text, &trust.geometry)?;
    push_auxiliaries(text, &trust.auxiliary)?;
    push_programs(text, &trust.programs)
}

/// Adds the line of what was taken on trust, if anything was. The only error is out of memory.
fn push_trust(text: &mut Vec<u8>, trust: &Trust) -> Result<(), NoMemory>
    ensures { OnOk result (text.new.items ≡ text.old.items ++ trust_text (trust_view trust.now)) }
{
    if trust.is_empty() {
        return Ok(());
    }
    text.extend_from_slice(b"goes on")?;
    push_codes(text, trust)?;
    text.extend_from_slice(b"\n")?;
    Ok(())
}

/// The line `waits 4`: how often the paths meet. Each label but the last is a wait.
fn head_line(left: &[Labelled]) -> Piece
    ensures { result ≡ head_text left.now }
{
    let mut piece = Piece::empty();
    piece.add_numbered(b"waits ", left.len().saturating_sub(1) as u64);
    piece.add(b"\n");
    piece
}

/// Adds the line `waits 4`: how often the paths meet. The only error is out of memory.
fn push_head(text: &mut Vec<u8>, left: &[Labelled]) -> Result<(), NoMemory>
    ensures { OnOk result (text.new.items ≡ text.old.items ++ head_text left.now) }
{
    push_piece(text, &head_line(left))
}

/// Adds the line of a tape after these bytes, if there is one.
fn add_line(piece: &mut Piece, before: &[u8], line: Option<u32>)
    requires { length piece.old + length before.now + 20 ≤ MOST_BYTES }
    ensures text { piece.new ≡ piece.old ++ line_text before.now line }
    ensures size { length piece.new ≤ length piece.old + length before.now + 20 }
{
    if let Some(line) = line {
        piece.add_numbered(before, u64::from(line));
    }
}

/// The line of a block-skip switch that changes waits or ends.
#[tactic(auto, unfolding(crate::specs::Printed::hanging_text))]
fn hanging_line(hanging: &Hanging) -> Piece
    ensures { result ≡ hanging_text hanging.now }
{
    let mut piece = Piece::empty();
    piece.add_numbered(b"skip ", u64::from(hanging.switch));
    add_line(&mut piece, b" path 1 line ", hanging.one);
    add_line(&mut piece, b" path 2 line ", hanging.two);
    piece.add(b"\n");
    piece
}

/// Adds the line of a block-skip switch. The only error is out of memory.
fn push_hanging(text: &mut Vec<u8>, hanging: &Hanging) -> Result<(), NoMemory>
    ensures { OnOk result (text.new.items ≡ text.old.items ++ hanging_text hanging.now) }
{
    push_piece(text, &hanging_line(hanging))
}

/// Adds a line for each of the block-skip switches. The only error is out of memory.
fn push_hangings(text: &mut Vec<u8>, switches: &[Hanging]) -> Result<(), NoMemory>
    ensures { OnOk result (text.new.items ≡ text.old.items ++ hangings_text switches.now) }
{
    for hanging in switches {
        push_hanging(text, hanging)?;
    }
    Ok(())
}

/// Adds the text of an accepted pair at the end of a text: how often the paths meet; each meeting
/// with its code and the line of each path; how both paths end, `end`, `again` after an M99 of the
/// main programs, or `off` past their last blocks; the block-skip switches that change these; and the
/// codes and programs that were taken on trust. The only error is out of memory.
pub fn push_waits(text: &mut Vec<u8>, pair: &WaitPair) -> Result<(), NoMemory>
    ensures { OnOk result (text.new.items
        ≡ text.old.items ++ waits_text pair.now.labels.one pair.now.labels.two (trust_view pair.now.trust)) }
{
    let left = pair.labels.one.as_slice();
    push_head(text, left)?;
    push_meetings(text, left, pair.labels.two.as_slice())?;
    push_hangings(text, pair.trust.switches.as_slice())?;
    push_trust(text, &pair.trust)
}
