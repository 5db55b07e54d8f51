//! Two pieces that are put into a sink, one behind the other. For line_turret.rt of this crate.
ghost use Rattle.std.specs.Prelude.{◌≡◌, ℕ, ◌++◌, take, OnOk, OnErr};
ghost use Rattle.nc_outside.specs.Written.{TellsOn, Writes};

use nc_outside::{PutFault, Sink};
use text_pieces::Piece;

/// Puts a piece into the sink, if it has a byte. After an error a part of it may be there, from its
/// start.
fn put_piece<K: Sink>(sink: &mut K, piece: &Piece) -> Result<(), PutFault>
    ensures ok { OnOk result (Writes (K.state sink.old) (K.state sink.new) piece.now) }
    ensures err { OnErr result ((n : ℕ) × Writes (K.state sink.old) (K.state sink.new) (take n piece.now)) }
    ensures tells { TellsOn (K.state sink.old) (K.state sink.new) }
{
    if piece.as_slice().is_empty() {
        return Ok(());
    }
    if let Err(fault) = sink.put(piece.as_slice()) {
        return Err(fault);
    }
    Ok(())
}

/// Puts two pieces into the sink, one behind the other. After an error a part of both together may
/// be there, from its start.
pub(crate) fn put_both<K: Sink>(sink: &mut K, first: &Piece, second: &Piece) -> Result<(), PutFault>
    ensures ok { OnOk result (Writes (K.state sink.old) (K.state sink.new) (first.now ++ second.now)) }
    ensures err { OnErr result ((n : ℕ)
        × Writes (K.state sink.old) (K.state sink.new) (take n (first.now ++ second.now))) }
    ensures tells { TellsOn (K.state sink.old) (K.state sink.new) }
{
    if let Err(fault) = put_piece(sink, first) {
        return Err(fault);
    }
    if let Err(fault) = put_piece(sink, second) {
        return Err(fault);
    }
    Ok(())
}
