//! The bodies of tools: boxes round the programmed point, and the one of the tool in force.
ghost use Rattle.std.specs.Prelude.{◌≡◌, All, if◌then◌else◌};
ghost use Rattle.zone_moves.specs.Bodies.{bare, is_body_of, last_body, body_of, IsBody, IsBodyArea};

use nc_number::{Path, Point};
use zone_area::Area;

/// The body of a tool of a path: a box round the programmed point.
#[derive(Clone, Copy, Debug, PartialEq, Eq)]
pub struct Body {
    /// The path whose tool it is.
    pub path: Path,
    /// The tool, as the first two digits of a T word name it; 0 is each tool without a body.
    pub tool: u16,
    /// The box, from the programmed point, in 0.001 mm; X is a diameter.
    pub area: Area,
}

/// Whether the body is of this tool of the path.
fn is_body_of(path: Path, tool: u16, body: &Body) -> bool
    ensures { result ≡ is_body_of path tool body.now }
{
    body.path == path && body.tool == tool
}

/// The last body of a tool among these, or the one before them if it has none.
fn last_body(path: Path, tool: u16, before: Area, bodies: &[Body]) -> Area
    requires before { IsBodyArea before }
    requires bodies { All IsBody bodies.now }
    ensures body { result ≡ last_body path tool before bodies.now }
    ensures near { IsBodyArea result }
{
    let mut found = before;
    for body in bodies {
        found = later_body(path, tool, found, body);
    }
    found
}

/// The body if it is of this tool of the path, or else the one before it.
fn later_body(path: Path, tool: u16, before: Area, body: &Body) -> Area
    requires before { IsBodyArea before }
    requires body { IsBody body.now }
    ensures body { result ≡ if is_body_of path tool body.now then body.now.area else before }
    ensures near { IsBodyArea result }
{
    if is_body_of(path, tool, body) {
        body.area
    } else {
        before
    }
}

/// The body of a tool of a path: the last of its own; else the last of tool 0; else the programmed
/// point alone.
pub(crate) fn body_of(path: Path, tool: u16, bodies: &[Body]) -> Area
    requires { All IsBody bodies.now }
    ensures body { result ≡ body_of bodies.now path tool }
    ensures near { IsBodyArea result }
{
    let origin = Point { x: 0, z: 0 };
    let bare = Area {
        low: origin,
        high: origin,
    };
    last_body(path, tool, last_body(path, 0, bare, bodies), bodies)
}
