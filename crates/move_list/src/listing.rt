//! What is listed of a machine beside the standing of its paths: the offsets that are not 0, and
//! the variables that are not vacant. The lines are defined in specs/State.antt.
//! For this crate alone: state.rt uses it.
ghost use Rattle.std.specs.Prelude.{◌≡◌, ◌+◌, ◌≤◌, ◌<◌, length};
ghost use Rattle.nc_number.specs.Both.{of_path};
ghost use Rattle.common_vars.specs.Common.{IsCommon};
ghost use Rattle.path_state.specs.View.{Fixed};
ghost use Rattle.path_state.specs.Looks.{is_shared};
ghost use Rattle.move_list.specs.State.{IsListed, SharesAs, count_of, first_of, is_zero, line_of, offset_line, own_line, shared_line, variable_line};

use cell_settings::Settings;
use nc_number::{Path, Point, TOOL_OFFSETS, Var};
use path_state::PathState;
use text_pieces::Piece;
use two_path::Machine;

/// What has a line for each of its numbers that is set.
#[derive(Clone, Copy, Debug, PartialEq, Eq)]
pub(crate) enum Listing {
    /// The work offsets, 0 for the external one and 1 to 6 for G54 to G59.
    Work,
    /// The geometry offsets.
    Geometry,
    /// The wear offsets.
    Wear,
    /// The local variables of the running level.
    Locals,
    /// The common variables of the path's own from #100 on.
    OwnHundreds,
    /// The common variables of the path's own from #500 on.
    OwnUpper,
    /// The variables from #100 on that both paths share.
    SharedHundreds,
    /// The variables from #500 on that both paths share.
    SharedUpper,
}

impl Listing {
    /// The first number of the listing.
    pub(crate) fn first(self) -> u16
        ensures number { result ≡ first_of self }
        ensures small { result ≤ 500 }
    {
        match self {
            Listing::Work => 0,
            Listing::Geometry => 1,
            Listing::Wear => 1,
            Listing::Locals => 1,
            Listing::OwnHundreds => 100,
            Listing::OwnUpper => 500,
            Listing::SharedHundreds => 100,
            Listing::SharedUpper => 500,
        }
    }

    /// How many numbers the listing has.
    pub(crate) fn count(self) -> u16
        ensures count { result ≡ count_of self }
        ensures small { result ≤ 500 }
    {
        match self {
            Listing::Work => 7,
            Listing::Geometry | Listing::Wear => TOOL_OFFSETS as u16,
            Listing::Locals => 33,
            Listing::OwnHundreds => 100,
            Listing::OwnUpper => 500,
            Listing::SharedHundreds => 100,
            Listing::SharedUpper => 500,
        }
    }
}

/// Whether an offset is 0 in both axes.
fn is_zero(at: &Point) -> bool
    ensures { result ≡ is_zero at.now }
{
    at.x.unsigned_abs() == 0 && at.z.unsigned_abs() == 0
}

/// The line of an offset, or nothing if it is 0 in both axes.
#[tactic(auto, unfolding(crate::specs::State::offset_line))]
fn offset_line(name: &[u8], n: u16, at: Point) -> Piece
    requires { length name.now ≤ 20 }
    ensures { result ≡ offset_line name.now n at }
{
    let mut piece = Piece::empty();
    if is_zero(&at) {
        return piece;
    }
    piece.add(name);
    piece.add_number(u64::from(n));
    piece.add_point(at);
    piece.add(b"\n");
    piece
}

/// The line of a variable, or nothing if it is vacant.
#[tactic(auto, unfolding(crate::specs::State::variable_line))]
fn variable_line(name: &[u8], v: u16, holds: &Var) -> Piece
    requires { length name.now ≤ 20 }
    ensures { result ≡ variable_line name.now v holds.now }
{
    let mut piece = Piece::empty();
    if let Var::Is(value) = holds {
        piece.add(name);
        piece.add_number(u64::from(v));
        piece.add(b" ");
        piece.add_value(*value);
        piece.add(b"\n");
    }
    piece
}

/// Whether both paths share the variable of this number, by the settings.
fn is_shared(settings: &Settings, v: u16) -> bool
    ensures { (fixed : Fixed) → SharesAs settings.now fixed → result ≡ is_shared fixed v }
{
    let v = u32::from(v);
    (100 <= v && v < 100 + settings.shared100) || (500 <= v && v < 500 + settings.shared500)
}

/// The line of a common variable of the path's own, or nothing if it is vacant or shared.
fn own_line(state: &PathState, settings: &Settings, v: u16) -> Piece
    requires common { IsCommon v }
    requires shares { SharesAs settings.now state.now.fixed }
    ensures { result ≡ own_line state.now v }
{
    if is_shared(settings, v) {
        Piece::empty()
    } else {
        variable_line(b"own #", v, &state.own(u32::from(v)))
    }
}

/// The line of a variable that both paths share, or nothing if it is vacant or not shared.
fn shared_line(machine: &Machine, settings: &Settings, v: u16) -> Piece
    requires shares { SharesAs settings.now machine.now.machine.paths.one.path.fixed }
    ensures { result ≡ shared_line machine.now.machine v }
{
    if is_shared(settings, v) {
        variable_line(b"shared #", v, &machine.shared(u32::from(v)))
    } else {
        Piece::empty()
    }
}

/// The line of a number of a listing, or nothing if it is not set.
pub(crate) fn line_of(
    machine: &Machine,
    settings: &Settings,
    path: Path,
    listing: Listing,
    n: u16,
) -> Piece
    requires listed { IsListed listing n }
    requires own { SharesAs settings.now (of_path machine.now.machine.paths path).path.fixed }
    requires shared { SharesAs settings.now machine.now.machine.paths.one.path.fixed }
    ensures { result ≡ line_of machine.now.machine (of_path machine.now.machine.paths path).path listing n }
{
    let state = machine.path(path);
    match listing {
        Listing::Work => offset_line(b"work ", n, state.offsets().work(n as u8)),
        Listing::Geometry => offset_line(b"geometry ", n, state.offsets().geometry(n as u8)),
        Listing::Wear => offset_line(b"wear ", n, state.offsets().wear(n as u8)),
        Listing::Locals => variable_line(b"local #", n, &state.local(n as u8)),
        Listing::OwnHundreds => own_line(state, settings, n),
        Listing::OwnUpper => own_line(state, settings, n),
        Listing::SharedHundreds => shared_line(machine, settings, n),
        Listing::SharedUpper => shared_line(machine, settings, n),
    }
}
