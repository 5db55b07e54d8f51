//! The lines of the findings of a run, each as a piece.
ghost use Rattle.std.specs.Prelude.{◌≡◌, ◌+◌, ◌≤◌, ◌++◌, length};
ghost use Rattle.text_pieces.specs.declared.piece.TheConstants.{MOST_BYTES};
ghost use Rattle.zone_cell.specs.HitLines.{source_text, doer_text, tool_text, pair_text, bar_text, way_text, outcome_text, met_text, finding_text};

use crate::finding::Finding;
use nc_number::Path;
use text_pieces::Piece;
use zone_moves::{Hit, Source, Stretch};

/// Adds what a path does: it makes a move of a line, or stands.
fn add_source(piece: &mut Piece, source: Source)
    requires { length piece.old + 26 ≤ MOST_BYTES }
    ensures text { piece.new ≡ piece.old ++ source_text source }
    ensures size { length piece.new ≤ length piece.old + 26 }
{
    match source {
        Source::Line(line) => piece.add_numbered(b" line ", u64::from(line)),
        Source::Start => piece.add(b" stands"),
    }
}

/// Adds a path, and what it does.
#[tactic(auto, unfolding(crate::specs::HitLines::doer_text))]
fn add_doer(piece: &mut Piece, path: Path, stretch: &Stretch)
    requires { length piece.old + 52 ≤ MOST_BYTES }
    ensures text { piece.new ≡ piece.old ++ doer_text path stretch.now }
    ensures size { length piece.new ≤ length piece.old + 52 }
{
    piece.add(b" ");
    piece.add_path(path);
    add_source(piece, stretch.source);
}

/// Adds the tool of a path.
#[tactic(auto, unfolding(crate::specs::HitLines::tool_text))]
fn add_tool(piece: &mut Piece, stretch: &Stretch)
    requires { length piece.old + 26 ≤ MOST_BYTES }
    ensures text { piece.new ≡ piece.old ++ tool_text stretch.now }
    ensures size { length piece.new ≤ length piece.old + 26 }
{
    piece.add_numbered(b" tool ", u64::from(stretch.tool));
}

/// Adds two stretches that come within the gap.
#[tactic(auto, unfolding(crate::specs::HitLines::pair_text))]
fn add_pair(piece: &mut Piece, one: &Stretch, two: &Stretch)
    requires { length piece.old + 156 ≤ MOST_BYTES }
    ensures text { piece.new ≡ piece.old ++ pair_text one.now two.now }
    ensures size { length piece.new ≤ length piece.old + 156 }
{
    add_doer(piece, Path::One, one);
    add_doer(piece, Path::Two, two);
    add_tool(piece, one);
    add_tool(piece, two);
}

/// Adds a stretch that comes within the gap of a box.
#[tactic(auto, unfolding(crate::specs::HitLines::bar_text))]
fn add_bar(piece: &mut Piece, path: Path, stretch: &Stretch, number: u32)
    requires { length piece.old + 156 ≤ MOST_BYTES }
    ensures text { piece.new ≡ piece.old ++ bar_text path stretch.now number }
    ensures size { length piece.new ≤ length piece.old + 156 }
{
    add_doer(piece, path, stretch);
    piece.add_numbered(b" fixed ", u64::from(number));
    add_tool(piece, stretch);
}

/// Adds what is hit.
fn add_way(piece: &mut Piece, hit: &Hit)
    requires { length piece.old + 156 ≤ MOST_BYTES }
    ensures text { piece.new ≡ piece.old ++ way_text hit.now }
    ensures size { length piece.new ≤ length piece.old + 156 }
{
    match hit {
        Hit::Paths { one, two } => add_pair(piece, one, two),
        Hit::Fixed {
            path,
            stretch,
            number,
        } => add_bar(piece, *path, stretch, *number),
    }
}

/// Adds how the line of a segment ends: nothing is hit in it, or what.
fn add_outcome(piece: &mut Piece, hit: &Option<Hit>)
    requires { length piece.old + 161 ≤ MOST_BYTES }
    ensures text { piece.new ≡ piece.old ++ outcome_text hit.now }
{
    match hit {
        None => piece.add(b" clear\n"),
        Some(hit) => {
            piece.add(b" hit");
            add_way(piece, hit);
            piece.add(b"\n");
        }
    }
}

/// Adds the line before a segment that begins with a meeting.
fn add_met(piece: &mut Piece, met: Option<u16>)
    requires { length piece.old + 25 ≤ MOST_BYTES }
    ensures text { piece.new ≡ piece.old ++ met_text met }
    ensures size { length piece.new ≤ length piece.old + 25 }
{
    match met {
        None => {}
        Some(code) => {
            piece.add_numbered(b"met ", u64::from(code));
            piece.add(b"\n");
        }
    }
}

/// The lines of a segment: the meeting that it begins with, and whether anything is hit in it.
#[tactic(auto, unfolding(crate::specs::HitLines::finding_text))]
pub fn finding_lines(number: u64, finding: &Finding) -> Piece
    ensures { result ≡ finding_text number finding.now }
{
    let mut piece = Piece::empty();
    add_met(&mut piece, finding.met);
    piece.add_number(number);
    add_outcome(&mut piece, &finding.hit);
    piece
}
