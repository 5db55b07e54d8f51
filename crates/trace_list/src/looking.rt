//! What a trace looks at between two records: where both paths stand, and what a block changes
//! without a move. The words are in specs/Trace.antt.
//! blocks.rt and tracing.rt use it, and who tells the same changes in another form.
ghost use Rattle.std.specs.Prelude.{◌≡◌};
ghost use Rattle.nc_number.specs.Both.{of_path};
ghost use Rattle.two_path.specs.Turns.{tapes_of};
ghost use Rattle.trace_list.specs.Trace.{is_same_point, is_same_way, look_of, standing_of};
ghost use Rattle.path_state.specs.Looks.{shift_now};

use nc_number::{Both, Path, Point};
use path_state::PathState;
use tape_flow::Flow;
use two_path::Machine;

/// What blocks of a path change without a move.
#[derive(Clone, Copy, Debug, PartialEq, Eq)]
pub struct Look {
    /// Machine minus work coordinates, in 0.001 mm.
    pub shift: Point,
    /// Whether the spindle keeps a surface speed.
    pub surface: bool,
}

/// What a trace looks at before a record of a path.
#[derive(Clone, Copy)]
pub(crate) struct Standing {
    /// The line of its tape at which each path stands.
    pub(crate) lines: Both<u32>,
    /// What is in force for the path of the record.
    pub(crate) look: Look,
}

impl Standing {
    /// The line at which the path stands.
    pub(crate) fn line(&self, path: Path) -> u32
        ensures { result ≡ of_path self.now.lines path }
    {
        *self.lines.of(path)
    }
}

/// Machine minus work coordinates of a path, by the offsets in force.
fn shift_of(path: &PathState) -> Point
    ensures { result ≡ shift_now path.now }
{
    let modal = path.modal();
    path.offsets().shift(modal.work(), modal.offset())
}

/// Whether the spindle of a path keeps a surface speed.
fn keeps_surface_speed(path: &PathState) -> bool
    ensures { result ≡ (look_of path.now).surface }
{
    path.modal().is_surface_speed()
}

/// What is in force for a path.
pub fn look_of(path: &PathState) -> Look
    ensures { result ≡ look_of path.now }
{
    Look {
        shift: shift_of(path),
        surface: keeps_surface_speed(path),
    }
}

/// Where both paths stand, and what is in force for one of them.
pub(crate) fn standing_of(machine: &Machine, left: &Flow, right: &Flow, path: Path) -> Standing
    ensures { result ≡ standing_of (tapes_of left.now right.now) path machine.now.machine }
{
    Standing {
        lines: Both {
            one: machine.path(Path::One).line(left),
            two: machine.path(Path::Two).line(right),
        },
        look: look_of(machine.path(path)),
    }
}

/// Whether these are one point.
pub fn is_same_point(a: Point, b: Point) -> bool
    ensures { result ≡ is_same_point a b }
{
    a.x == b.x && a.z == b.z
}

/// Whether a spindle keeps a surface speed both times, or neither time.
pub fn is_same_way(a: bool, b: bool) -> bool
    ensures { result ≡ is_same_way a b }
{
    if a { b } else { !b }
}
