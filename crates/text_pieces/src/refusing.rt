//! The line of output for a refusal that has no path. It takes no memory.
ghost use Rattle.std.specs.Prelude.{◌≡◌, ◌≤◌, length};
ghost use Rattle.text_pieces.specs.Refusals.{refusal_text, refused_line_text, refused_text};

use crate::piece::Piece;
use nc_number::Cause;

/// The number and the name of a refusal.
#[tactic(auto, unfolding(crate::specs::Refusals::refusal_text))]
fn refusal(cause: Cause) -> Piece
    ensures text { result ≡ refusal_text cause }
    ensures size { length result ≤ 48 }
{
    let mut piece = Piece::empty();
    piece.add_numbered(b"refused ", u64::from(cause.number()));
    piece.add_name(Some(cause));
    piece
}

/// The line of a refusal, with its number and its name.
#[tactic(auto, unfolding(crate::specs::Refusals::refused_text))]
pub fn refused(cause: Cause) -> Piece
    ensures { result ≡ refused_text cause }
{
    let mut piece = refusal(cause);
    piece.add(b"\n");
    piece
}

/// The line of a refusal at a line of its text, counted from 1.
#[tactic(auto, unfolding(crate::specs::Refusals::refused_line_text))]
pub fn refused_at(cause: Cause, line: u32) -> Piece
    ensures { result ≡ refused_line_text cause line }
{
    let mut piece = refusal(cause);
    piece.add_numbered(b" line ", u64::from(line));
    piece.add(b"\n");
    piece
}
