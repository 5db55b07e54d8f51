//! Puts one piece of a text into a sink: the one call by which the lines of a verdict, a report, a
//! trace, races and zones are written. writing.rt calls it.
ghost use Rattle.nc_verify.specs.Printed.{IsPut};

use nc_outside::{PutFault, Sink};
use text_pieces::Piece;

/// Puts a piece; one without a byte is not put. Errors: those of the sink.
pub fn put_piece<K: Sink>(sink: &mut K, piece: &Piece) -> Result<(), PutFault>
    ensures { IsPut (K.state sink.old) (K.state sink.new) piece.now result }
{
    let bytes = piece.as_slice();
    if bytes.is_empty() {
        return Ok(());
    }
    sink.put(bytes)
}
