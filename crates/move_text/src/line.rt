//! How a place and a move are printed, each as a line. A piece holds at most 512 bytes; the numbers
//! in the clauses are the room that a text may take.
ghost use Rattle.std.specs.Prelude.{◌≡◌, ◌+◌, ◌≤◌, [], ◌++◌, length};
ghost use Rattle.text_pieces.specs.declared.piece.TheConstants.{MOST_BYTES};
ghost use Rattle.move_text.specs.MoveText.{centre_text, feed_text, line_text, move_text, placed_text};

use nc_moves::{Centre, Move};
use nc_number::{Point, Value};
use text_pieces::Piece;

/// Adds the centre of an arc from its start, or its radius, in mm. 52 bytes hold two letters, their
/// blanks and two lengths of at most 24 bytes.
#[tactic(auto, unfolding(crate::specs::MoveText::centre_text))]
fn add_centre(piece: &mut Piece, centre: Centre)
    requires { length piece.old + 52 ≤ MOST_BYTES }
    ensures text { piece.new ≡ piece.old ++ centre_text centre }
    ensures size { length piece.new ≤ length piece.old + 52 }
{
    match centre {
        Centre::Offset { i, k } => {
            piece.add(b" I");
            piece.add_length(i);
            piece.add(b" K");
            piece.add_length(k);
        }
        Centre::Radius { r } => {
            piece.add(b" R");
            piece.add_length(r);
        }
    }
}

/// Adds a feed, and whether it is per revolution or per minute.
#[tactic(auto, unfolding(crate::specs::MoveText::feed_text))]
fn add_feed(piece: &mut Piece, feed: Value, per_rev: bool)
    requires { length piece.old + 30 ≤ MOST_BYTES }
    ensures text { piece.new ≡ piece.old ++ feed_text feed per_rev }
    ensures size { length piece.new ≤ length piece.old + 30 }
{
    piece.add(b" F");
    piece.add_value(feed);
    piece.add(if per_rev { b" rev" } else { b" min" });
}

/// Adds a move. The longest is an arc.
#[tactic(auto, unfolding(crate::specs::MoveText::move_text))]
fn add_move(piece: &mut Piece, what: &Move)
    requires { length piece.old + 140 ≤ MOST_BYTES }
    ensures text { piece.new ≡ piece.old ++ move_text what.now }
    ensures size { length piece.new ≤ length piece.old + 140 }
{
    match *what {
        Move::Rapid { to } => {
            piece.add(b"rapid");
            piece.add_point(to);
        }
        Move::Feed { to, feed, per_rev } => {
            piece.add(b"feed");
            piece.add_point(to);
            add_feed(piece, feed, per_rev);
        }
        Move::Thread { to, lead } => {
            piece.add(b"thread");
            piece.add_point(to);
            piece.add(b" F");
            piece.add_value(lead);
        }
        Move::Arc {
            clockwise,
            to,
            centre,
            feed,
            per_rev,
        } => {
            piece.add(if clockwise {
                b"cw".as_slice()
            } else {
                b"ccw".as_slice()
            });
            piece.add_point(to);
            add_centre(piece, centre);
            add_feed(piece, feed, per_rev);
        }
        Move::Dwell { ms } => {
            piece.add(b"dwell ");
            piece.add_number(ms);
        }
        Move::Speed { surface, s } => {
            piece.add(if surface {
                b"speed G96 S"
            } else {
                b"speed G97 S"
            });
            piece.add_number(u64::from(s));
        }
        Move::Limit { s } => {
            piece.add(b"limit S");
            piece.add_number(u64::from(s));
        }
        Move::Tool { t } => {
            piece.add(b"tool T");
            piece.add_four_digits(t);
        }
        Move::Aux { m } => {
            piece.add(b"aux M");
            piece.add_code(m);
        }
    }
}

/// The line of a move: the line of the tape whose block made it, and the move.
#[tactic(auto, unfolding(crate::specs::MoveText::line_text))]
pub fn move_line(line: u32, what: &Move) -> Piece
    ensures { result ≡ line_text line what.now }
{
    let mut piece = Piece::empty();
    piece.add_number(u64::from(line));
    piece.add(b" ");
    add_move(&mut piece, what);
    piece.add(b"\n");
    piece
}

/// The line of a place: the point at which a turret begins.
#[tactic(auto, unfolding(crate::specs::MoveText::placed_text))]
pub fn place_line(at: Point) -> Piece
    ensures { result ≡ placed_text at }
{
    let mut piece = Piece::empty();
    piece.add(b"place");
    piece.add_point(at);
    piece.add(b"\n");
    piece
}
