//! The single lines of a trace, each as a piece of text. They are defined in specs/TraceText.antt.
//! For this crate alone: blocks.rt and tracing.rt put them.
ghost use Rattle.std.specs.Prelude.{◌≡◌, ◌+◌, ◌≤◌, ◌++◌, length};
ghost use Rattle.text_pieces.specs.declared.piece.TheConstants.{MOST_BYTES};
ghost use Rattle.trace_list.specs.TraceText.{event_text, head_text, met_text, path_text, point_line, trace_line_text, waits_text};
ghost use Rattle.trace_list.specs.TraceText as said;

use move_list::add_cause;
use nc_moves::Alarm;
use nc_number::{Both, Path, Point};
use text_pieces::Piece;

/// How the line of an event begins: the path's number and a line of its tape.
#[tactic(auto, unfolding(crate::specs::TraceText::event_text))]
fn event(path: Path, line: u32) -> Piece
    ensures text { result ≡ event_text path line }
    ensures size { length result ≤ 41 }
{
    let mut piece = Piece::empty();
    piece.add_number(u64::from(path.number()));
    piece.add(b" ");
    piece.add_number(u64::from(line));
    piece
}

/// A line of an event with a word and a point.
#[tactic(auto, unfolding(crate::specs::TraceText::point_line))]
fn point_line(path: Path, line: u32, word: &[u8], at: Point) -> Piece
    requires { length word.now ≤ 40 }
    ensures { result ≡ point_line path line word.now at }
{
    let mut piece = event(path, line);
    piece.add(word);
    piece.add_point(at);
    piece.add(b"\n");
    piece
}

/// The line that says where a turret begins.
#[tactic(auto, unfolding(crate::specs::TraceText::trace_line_text))]
pub(crate) fn at_line(path: Path, at: Point) -> Piece
    ensures { result ≡ trace_line_text (said.At path at) }
{
    point_line(path, 0, b" at", at)
}

/// The line of a reference position.
#[tactic(auto, unfolding(crate::specs::TraceText::trace_line_text))]
pub(crate) fn home_line(path: Path, at: Point) -> Piece
    ensures { result ≡ trace_line_text (said.Home path at) }
{
    point_line(path, 0, b" home", at)
}

/// The line of a shift: machine minus work coordinates, from this line of the tape on.
#[tactic(auto, unfolding(crate::specs::TraceText::trace_line_text))]
pub(crate) fn shift_line(path: Path, line: u32, by: Point) -> Piece
    ensures { result ≡ trace_line_text (said.Shift path line by) }
{
    point_line(path, line, b" shift", by)
}

/// The line of the spindle's way: whether it keeps a surface speed (G96) or not (G97).
#[tactic(auto, unfolding(crate::specs::TraceText::trace_line_text))]
pub(crate) fn spindle_line(path: Path, line: u32, surface: bool) -> Piece
    ensures { result ≡ trace_line_text (said.Spindle path line surface) }
{
    let mut piece = event(path, line);
    piece.add(if surface {
        b" spindle G96\n"
    } else {
        b" spindle G97\n"
    });
    piece
}

/// The line of a path that comes to a wait.
#[tactic(auto, unfolding(crate::specs::TraceText::trace_line_text))]
pub(crate) fn wait_line(path: Path, line: u32, code: u16) -> Piece
    ensures { result ≡ trace_line_text (said.Wait path line code) }
{
    let mut piece = event(path, line);
    piece.add(b" wait M");
    piece.add_code(code);
    piece.add(b"\n");
    piece
}

/// How the line of a meeting begins: its number and its code.
#[tactic(auto, unfolding(crate::specs::TraceText::met_text))]
fn met(number: u64, code: u16) -> Piece
    ensures text { result ≡ met_text number code }
    ensures size { length result ≤ 47 }
{
    let mut piece = Piece::empty();
    piece.add(b"met ");
    piece.add_number(number);
    piece.add(b" M");
    piece.add_code(code);
    piece
}

/// The lines of both waits of a meeting.
#[tactic(auto, unfolding(crate::specs::TraceText::waits_text))]
fn add_waits(piece: &mut Piece, lines: Both<u32>)
    requires { length piece.old + 80 ≤ MOST_BYTES }
    ensures text { piece.new ≡ piece.old ++ waits_text lines.one lines.two }
    ensures size { length piece.new ≤ length piece.old + 80 }
{
    piece.add_numbered(b" path 1 line ", u64::from(lines.one));
    piece.add_numbered(b" path 2 line ", u64::from(lines.two));
    piece.add(b"\n");
}

/// The line of a meeting: its number, its code, and the lines of both waits.
#[tactic(auto, unfolding(crate::specs::TraceText::trace_line_text))]
pub(crate) fn met_line(number: u64, code: u16, lines: Both<u32>) -> Piece
    ensures { result ≡ trace_line_text (said.Met number code lines.one lines.two) }
{
    let mut piece = met(number, code);
    add_waits(&mut piece, lines);
    piece
}

/// The line of an alarm.
#[tactic(auto, unfolding(crate::specs::TraceText::trace_line_text))]
pub(crate) fn alarm_line(alarm: &Alarm) -> Piece
    ensures { result ≡ trace_line_text (said.Raised alarm.now) }
{
    let mut piece = event(alarm.path, alarm.line);
    piece.add(b" alarm ");
    add_cause(&mut piece, alarm);
    piece.add(b"\n");
    piece
}

/// The line of a path that ends.
#[tactic(auto, unfolding(crate::specs::TraceText::trace_line_text))]
pub(crate) fn ended_line(path: Path, line: u32) -> Piece
    ensures { result ≡ trace_line_text (said.Ended path line) }
{
    let mut piece = event(path, line);
    piece.add(b" end\n");
    piece
}

/// What stands before a move on its line.
#[tactic(auto, unfolding(crate::specs::TraceText::path_text))]
pub(crate) fn path_front(path: Path) -> Piece
    ensures { result ≡ path_text path }
{
    let mut piece = Piece::empty();
    piece.add_number(u64::from(path.number()));
    piece.add(b" ");
    piece
}

/// The first line of a trace, with the number of its form: page/reading.js reads this form alone,
/// and changes with it.
#[tactic(auto, unfolding(crate::specs::TraceText::head_text))]
pub(crate) fn head_line() -> Piece
    ensures { result ≡ head_text }
{
    let mut piece = Piece::empty();
    piece.add(b"trace 2\n");
    piece
}
