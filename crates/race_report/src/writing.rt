//! The list of races as `races` prints it, into a sink. Its text is defined in specs/Texts.antt.
ghost use Rattle.std.specs.Prelude.{◌≡◌, ◌+◌, ◌≤◌, ◌++◌, length};
ghost use Rattle.nc_verify.specs.Printed.{IsPut};
ghost use Rattle.race_report.specs.Texts.{race_text, head_text, races_text, list_text};

use crate::list::RaceList;
use crate::race::Race;
use nc_outside::{PutFault, Sink};
use nc_verify::put_piece;
use text_pieces::Piece;

/// The line of a race.
#[tactic(auto, unfolding(crate::specs::Texts::race_text))]
fn race_line(race: &Race) -> Piece
    ensures { result ≡ race_text race.now }
{
    let mut piece = Piece::empty();
    piece.add_numbered(b"#", u64::from(race.variable));
    piece.add_numbered(b" after ", u64::from(race.after));
    piece.add_place(race.writer.number(), race.write_line);
    piece.add_place(race.writer.other().number(), race.other_line);
    piece.add(b"\n");
    piece
}

/// Puts the line of a race.
fn put_race<K: Sink>(sink: &mut K, race: &Race) -> Result<(), PutFault>
    ensures { IsPut (K.state sink.old) (K.state sink.new) (race_text race.now) result }
{
    put_piece(sink, &race_line(race))
}

/// Puts a line for each race.
fn put_races<K: Sink>(sink: &mut K, races: &[Race]) -> Result<(), PutFault>
    ensures { IsPut (K.state sink.old) (K.state sink.new) (races_text races.now) result }
{
    for race in races {
        match put_race(sink, race) {
            Ok(()) => {}
            Err(fault) => return Err(fault),
        }
    }
    Ok(())
}

/// The line of how many races there are: `races N`.
#[tactic(auto, unfolding(crate::specs::Texts::head_text))]
pub fn head_line(count: u64) -> Piece
    ensures { result ≡ head_text count }
{
    let mut piece = Piece::empty();
    piece.add_numbered(b"races ", count);
    piece.add(b"\n");
    piece
}

/// Puts how many races there are.
fn put_head<K: Sink>(sink: &mut K, count: u64) -> Result<(), PutFault>
    ensures { IsPut (K.state sink.old) (K.state sink.new) (head_text count) result }
{
    put_piece(sink, &head_line(count))
}

/// Writes how many races there are, and a line for each: the variable, after how many waits, the
/// path that may write it and the line, and the other path and its line.
///
/// Errors: those of the sink; it then holds a part of the text, from its start. Takes no memory
/// itself.
pub fn write_races<K: Sink>(list: &RaceList, sink: &mut K) -> Result<(), PutFault>
    ensures { IsPut (K.state sink.old) (K.state sink.new) (list_text list.now) result }
{
    let races = list.as_slice();
    match put_head(sink, races.len() as u64) {
        Ok(()) => put_races(sink, races),
        Err(fault) => Err(fault),
    }
}
