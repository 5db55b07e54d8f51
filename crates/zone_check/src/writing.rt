//! The text of a list of zones: how many there are, a line for each, and whether all are clear.
ghost use Rattle.std.specs.Prelude.{◌≡◌, ◌++◌};
ghost use Rattle.nc_verify.specs.Printed.{IsPut};
ghost use Rattle.zone_cell.specs.Lines.{zone_text, zone_texts, head_text, end_text, hits_of, list_text};

use nc_outside::{PutFault, Sink};
use nc_verify::put_piece;
use zone_cell::{Zone, end_line, head_line, zone_line};

/// Puts the line of a zone.
fn put_zone<K: Sink>(sink: &mut K, number: u64, zone: &Zone) -> Result<(), PutFault>
    ensures { IsPut (K.state sink.old) (K.state sink.new) (zone_text number zone.now) result }
{
    put_piece(sink, &zone_line(number, zone))
}

/// Puts the line before the zones.
fn put_head<K: Sink>(sink: &mut K, count: u64) -> Result<(), PutFault>
    ensures { IsPut (K.state sink.old) (K.state sink.new) (head_text count) result }
{
    put_piece(sink, &head_line(count))
}

/// Puts the line after the zones.
fn put_end<K: Sink>(sink: &mut K, hits: u64) -> Result<(), PutFault>
    ensures { IsPut (K.state sink.old) (K.state sink.new) (end_text hits) result }
{
    put_piece(sink, &end_line(hits))
}

/// How many zones are not clear.
fn hits(zones: &[Zone]) -> u64
    ensures { result ≡ hits_of zones.now }
{
    zones.iter().filter(|zone| !zone.clear).count() as u64
}

/// Puts a line for each zone.
fn put_zones<K: Sink>(sink: &mut K, zones: &[Zone]) -> Result<(), PutFault>
    ensures { IsPut (K.state sink.old) (K.state sink.new)
        (zone_texts 0 zones.now) result }
{
    let mut number = 0u64;
    for zone in zones {
        put_zone(sink, number, zone)?;
        number += 1;
    }
    Ok(())
}

/// Puts the lines of the zones, and the last line.
fn put_rest<K: Sink>(sink: &mut K, zones: &[Zone]) -> Result<(), PutFault>
    ensures { IsPut (K.state sink.old) (K.state sink.new)
        (zone_texts 0 zones.now ++ end_text (hits_of zones.now)) result }
{
    match put_zones(sink, zones) {
        Ok(()) => put_end(sink, hits(zones)),
        Err(fault) => Err(fault),
    }
}

/// Writes a list of zones: how many there are; a line for each, with its number from 0, the edges
/// of path 1's area and of path 2's, and `clear` or `hit`; and whether all are clear, or how many
/// are hit.
///
/// Errors: those of the sink, which then holds a part of the text, from its start.
pub fn write_zones<K: Sink>(zones: &[Zone], sink: &mut K) -> Result<(), PutFault>
    ensures { IsPut (K.state sink.old) (K.state sink.new) (list_text zones.now) result }
{
    match put_head(sink, zones.len() as u64) {
        Ok(()) => put_rest(sink, zones),
        Err(fault) => Err(fault),
    }
}
