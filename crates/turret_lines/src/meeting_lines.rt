//! The lines that a stream has for waits: at which its path stands, and that it has met there. For
//! line_turret.rt of this crate.
ghost use Rattle.std.specs.Prelude.{◌≡◌};
ghost use Rattle.turret_lines.specs.Meetings.{meeting_text, met_behind, met_text, wait_text};

use text_pieces::Piece;

/// How many meetings a stream tells once something comes behind the wait at which it stands, if it
/// stands at one.
pub(crate) fn met_behind(met: u64, waits: Option<u16>) -> u64
    ensures { result ≡ met_behind met waits }
{
    match waits {
        None => met,
        Some(_) => met.saturating_add(1),
    }
}

/// The line that the path has met at the wait of this code, which was its n-th meeting.
#[tactic(auto, unfolding(crate::specs::Meetings::met_text))]
fn met_line(n: u64, code: u16) -> Piece
    ensures { result ≡ met_text n code }
{
    let mut piece = Piece::empty();
    piece.add(b"met ");
    piece.add_number(n);
    piece.add(b" M");
    piece.add_code(code);
    piece.add(b"\n");
    piece
}

/// What a stream has before the next line, if it tells so many meetings: the line of one more, if
/// it stands at a wait.
pub(crate) fn meeting_line(met: u64, waits: Option<u16>) -> Piece
    ensures { result ≡ meeting_text met waits }
{
    match waits {
        None => Piece::empty(),
        Some(code) => met_line(met.saturating_add(1), code),
    }
}

/// The line of a wait of this code, at which the path stands.
#[tactic(auto, unfolding(crate::specs::Meetings::wait_text))]
pub(crate) fn wait_line(code: u16) -> Piece
    ensures { result ≡ wait_text code }
{
    let mut piece = Piece::empty();
    piece.add(b"wait M");
    piece.add_code(code);
    piece.add(b"\n");
    piece
}
