//! Made tapes, written line by line. The laws of their lines, waits and sizes are in laws.rt.
ghost use Rattle.std.specs.Prelude.{◌≡◌, ◌≤◌, ◌++◌, IfOk, OnOk, length};
ghost use Rattle.std.specs.Fmt.{decimal};
ghost use Rattle.tape_maker.specs.MadeTape.{cut_depth, cut_diameter, cut_line, line_with_end, made_tape, round_lines, text_of, variable_line, wait_line};

use itoa::Buffer;
use nc_number::{NoMemory, Path};
use std::alloc::Global;

/// How many rounds a tape has.
const ROUNDS: u32 = 50;

/// How many cuts a round has.
const CUTS: u32 = 98;

/// The most bytes of a made tape (proofs/Sizes.antt has the same number).
pub const LONGEST_MADE: usize = 74_389;

/// The tapes of path 1 and path 2 that the number stands for.
///
/// Every number has its pair; the number turns the places of the cuts and the codes of the waits.
/// Lengths are in whole millimetres, diameters from 10 to 99 and depths from 0 to 79. The waits are
/// of M100 to M197, which are waiting codes of a control with the usual settings, and `M30` ends
/// the program. The one error is that memory ran out.
#[tactic(auto, using(crate::proofs::Sizes::made_length))]
pub fn make_tapes(alloc: Global, number: u32) -> Result<(Vec<u8>, Vec<u8>), NoMemory>
    ensures first { IfOk result (λ tapes. tapes.0.items ≡ made_tape Path.One number) }
    ensures second { IfOk result (λ tapes. tapes.1.items ≡ made_tape Path.Two number) }
    ensures short { IfOk result (λ tapes. (length tapes.0.items ≤ LONGEST_MADE)
        × (length tapes.1.items ≤ LONGEST_MADE)) }
{
    let first = tape(alloc, Path::One, number)?;
    let second = tape(alloc, Path::Two, number)?;
    Ok((first, second))
}

/// The made tape of a path.
fn tape(alloc: Global, path: Path, number: u32) -> Result<Vec<u8>, NoMemory>
    ensures { IfOk result (λ tape. tape.items ≡ made_tape path number) }
{
    let mut text = Vec::new(alloc);
    text.extend_from_slice(b"%\nO0001\nG00 X200. Z100.\nG99 F0.2\n")?;
    for round in 1..ROUNDS + 1 {
        put_round(&mut text, path, number, round)?;
    }
    text.extend_from_slice(b"M30\n%\n")?;
    Ok(text)
}

/// Adds the lines of a round.
fn put_round(text: &mut Vec<u8>, path: Path, number: u32, round: u32) -> Result<(), NoMemory>
    ensures { OnOk result (text.new.items ≡ text.old.items ++ text_of (round_lines path number round)) }
{
    for cut in 0..CUTS {
        put_cut(text, path, number, round, cut)?;
    }
    put_line(text, line_on_variable(path, round))?;
    put_wait(text, number, round)
}

/// Adds the line of a cut.
#[tactic(auto, unfolding(crate::specs::MadeTape::cut_line))]
fn put_cut(
    text: &mut Vec<u8>,
    path: Path,
    number: u32,
    round: u32,
    cut: u32,
) -> Result<(), NoMemory>
    ensures { OnOk result (text.new.items ≡ text.old.items ++ line_with_end (cut_line path number round cut)) }
{
    put_number(text, b"G01 X", diameter(path, number, round, cut))?;
    put_number(text, b". Z-", depth(number, round, cut))?;
    put_line(text, b".")
}

/// The diameter of a cut, in whole millimetres: 10 to 99.
fn diameter(path: Path, number: u32, round: u32, cut: u32) -> u64
    ensures { result ≡ cut_diameter path number round cut }
{
    let place = u64::from(number) + 7 * u64::from(round) + 3 * u64::from(cut);
    10 + (place + u64::from(path.number())) % 90
}

/// How far a cut goes before the zero of Z, in whole millimetres: 0 to 79.
fn depth(number: u32, round: u32, cut: u32) -> u64
    ensures { result ≡ cut_depth number round cut }
{
    (u64::from(number) + u64::from(round) + u64::from(cut)) % 80
}

/// The line on a variable in a round: path 1 counts `#501` up in the odd rounds, and path 2 copies
/// it to `#502` in the even ones (the settings say which of these the paths share); in its other
/// rounds a path counts its local variable `#1` up.
#[tactic(auto, unfolding(crate::specs::MadeTape::variable_line))]
fn line_on_variable(path: Path, round: u32) -> &'static [u8]
    ensures { result.now ≡ variable_line path round }
{
    match (path, round % 2) {
        (Path::One, 1) => b"#501=#501+1",
        (Path::Two, 0) => b"#502=#501",
        _ => b"#1=#1+1",
    }
}

/// Adds the line of the wait that ends a round.
#[tactic(auto, unfolding(crate::specs::MadeTape::wait_line))]
fn put_wait(text: &mut Vec<u8>, number: u32, round: u32) -> Result<(), NoMemory>
    ensures { OnOk result (text.new.items ≡ text.old.items ++ line_with_end (wait_line number round)) }
{
    let code = 100 + (u64::from(number) + u64::from(round)) % 98;
    put_number(text, b"M", code)?;
    put_line(text, b"")
}

/// Adds a text, and a number in decimal digits.
fn put_number(text: &mut Vec<u8>, before: &[u8], number: u64) -> Result<(), NoMemory>
    ensures { OnOk result (text.new.items ≡ text.old.items ++ before.now ++ decimal number) }
{
    let mut buffer = Buffer::new();
    text.extend_from_slice(before)?;
    text.extend_from_slice(buffer.format(number).as_bytes())?;
    Ok(())
}

/// Adds a text, and the end of its line.
fn put_line(text: &mut Vec<u8>, line: &[u8]) -> Result<(), NoMemory>
    ensures { OnOk result (text.new.items ≡ text.old.items ++ line_with_end line.now) }
{
    text.extend_from_slice(line)?;
    text.extend_from_slice(b"\n")?;
    Ok(())
}
