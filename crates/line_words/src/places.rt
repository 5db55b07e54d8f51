//! Where a line begins and ends.
ghost use Rattle.std.specs.Prelude.{◌≡◌, IfSome};
ghost use Rattle.nc_number.specs.Position.{IsPosition};
ghost use Rattle.line_words.specs.Lines.{position_of, begin_of, end_of};

use cycle_words::place_said;
use nc_number::Point;
use nc_text::Word;
use plain_form::Scene;

/// G00, in millionths.
pub const RAPID_CODE: i64 = 0;

/// G01, in millionths.
pub const LINE_CODE: i64 = 1_000_000;

/// The point, if it may be a position.
pub fn position_of(point: Point) -> Option<Point>
    ensures point { result ≡ position_of point }
    ensures position { IfSome result IsPosition }
{
    if point.is_position() {
        Some(point)
    } else {
        None
    }
}

/// Where the tool stands, if it is known and may be a position.
pub fn begin_of(scene: &Scene) -> Option<Point>
    ensures begin { result ≡ begin_of scene.now }
    ensures position { IfSome result IsPosition }
{
    let x = scene.x?;
    let z = scene.z?;
    position_of(Point { x, z })
}

/// Where the line that the words say ends, if that may be a position: X or U and Z or W, from where it
/// begins.
pub fn end_of(words: &[Word], from: &Point) -> Option<Point>
    requires { IsPosition from.now }
    ensures end { result ≡ end_of from.now words.now }
    ensures position { IfSome result IsPosition }
{
    position_of(Point {
        x: place_said(words, b'X', b'U', from.x),
        z: place_said(words, b'Z', b'W', from.z),
    })
}
