//! The text of a machine, put in order; its single lines are in standing.rt and listing.rt. It is
//! defined in specs/State.antt.
ghost use Rattle.std.specs.Prelude.{◌++◌};
ghost use Rattle.nc_number.specs.declared.path.Path.TheVariants.{One, Two};
ghost use Rattle.nc_number.specs.Both.{of_path};
ghost use Rattle.nc_verify.specs.Printed.{IsPut};
ghost use Rattle.two_path.specs.Turns.{blocks_of, tapes_of};
ghost use Rattle.move_list.specs.EndText.{records_text};
ghost use Rattle.two_path.specs.Start.{machine_at_start};
ghost use Rattle.move_list.specs.State.{IsListed, IsMachineOf, SharesAs, line_of, listing_text, listings_text, path_lines, shared_lines, standing_of, state_text};

use crate::end_line::records_line;
use crate::listing::{Listing, line_of};
use crate::standing::standing_lines;
use cell_settings::Settings;
use nc_number::Path;
use nc_outside::{PutFault, Sink};
use nc_verify::{Verified, put_piece};
use path_state::control_goes_as_the_flow_orders;
use tape_flow::Flow;
use two_path::Machine;

/// Puts the line of a number of a listing.
fn put_line<K: Sink>(
    sink: &mut K,
    machine: &Machine,
    settings: &Settings,
    path: Path,
    listing: Listing,
    n: u16,
) -> Result<(), PutFault>
    requires listed { IsListed listing n }
    requires own { SharesAs settings.now (of_path machine.now.machine.paths path).path.fixed }
    requires shared { SharesAs settings.now machine.now.machine.paths.one.path.fixed }
    ensures { IsPut (K.state sink.old) (K.state sink.new)
        (line_of machine.now.machine (of_path machine.now.machine.paths path).path listing n) result }
{
    put_piece(sink, &line_of(machine, settings, path, listing, n))
}

/// Puts the lines that a path always has.
fn put_standing<K: Sink>(
    sink: &mut K,
    flow: &Flow,
    machine: &Machine,
    path: Path,
) -> Result<(), PutFault>
    ensures { IsPut (K.state sink.old) (K.state sink.new)
        (standing_of (blocks_of flow.now) path machine.now.machine) result }
{
    put_piece(sink, &standing_lines(flow, machine, path))
}

/// Puts the line that says how many records there are.
fn put_records<K: Sink>(sink: &mut K, machine: &Machine) -> Result<(), PutFault>
    ensures { IsPut (K.state sink.old) (K.state sink.new) (records_text machine.now.machine.count) result }
{
    put_piece(sink, &records_line(u64::from(machine.count())))
}

/// Puts the lines of a listing of a path.
fn put_listing<K: Sink>(
    sink: &mut K,
    machine: &Machine,
    settings: &Settings,
    path: Path,
    listing: Listing,
) -> Result<(), PutFault>
    requires own { SharesAs settings.now (of_path machine.now.machine.paths path).path.fixed }
    requires shared { SharesAs settings.now machine.now.machine.paths.one.path.fixed }
    ensures { IsPut (K.state sink.old) (K.state sink.new)
        (listing_text machine.now.machine (of_path machine.now.machine.paths path).path listing) result }
{
    for i in 0..listing.count() {
        put_line(sink, machine, settings, path, listing, listing.first() + i)?;
    }
    Ok(())
}

/// Puts listings of a path in order.
fn put_listings<K: Sink>(
    sink: &mut K,
    machine: &Machine,
    settings: &Settings,
    path: Path,
    listings: &[Listing],
) -> Result<(), PutFault>
    requires own { SharesAs settings.now (of_path machine.now.machine.paths path).path.fixed }
    requires shared { SharesAs settings.now machine.now.machine.paths.one.path.fixed }
    ensures { IsPut (K.state sink.old) (K.state sink.new)
        (listings_text machine.now.machine (of_path machine.now.machine.paths path).path listings.now) result }
{
    for listing in listings {
        put_listing(sink, machine, settings, path, *listing)?;
    }
    Ok(())
}

/// Puts the lines of a path.
fn put_path<K: Sink>(
    sink: &mut K,
    flow: &Flow,
    machine: &Machine,
    settings: &Settings,
    path: Path,
) -> Result<(), PutFault>
    requires own { SharesAs settings.now (of_path machine.now.machine.paths path).path.fixed }
    requires shared { SharesAs settings.now machine.now.machine.paths.one.path.fixed }
    ensures { IsPut (K.state sink.old) (K.state sink.new)
        (path_lines (blocks_of flow.now) path machine.now.machine) result }
{
    match put_standing(sink, flow, machine, path) {
        Ok(()) => put_listings(
            sink,
            machine,
            settings,
            path,
            &[
                Listing::Work,
                Listing::Geometry,
                Listing::Wear,
                Listing::Locals,
                Listing::OwnHundreds,
                Listing::OwnUpper,
            ],
        ),
        Err(fault) => Err(fault),
    }
}

/// Puts what both paths share, and the number of records.
fn put_shared<K: Sink>(sink: &mut K, machine: &Machine, settings: &Settings) -> Result<(), PutFault>
    requires { SharesAs settings.now machine.now.machine.paths.one.path.fixed }
    ensures { IsPut (K.state sink.old) (K.state sink.new) (shared_lines machine.now.machine) result }
{
    match put_listings(
        sink,
        machine,
        settings,
        Path::One,
        &[Listing::SharedHundreds, Listing::SharedUpper],
    ) {
        Ok(()) => put_records(sink, machine),
        Err(fault) => Err(fault),
    }
}

/// Puts the lines of path 2, and what both paths share.
fn put_rest<K: Sink>(
    sink: &mut K,
    right: &Flow,
    machine: &Machine,
    settings: &Settings,
) -> Result<(), PutFault>
    requires own { SharesAs settings.now machine.now.machine.paths.two.path.fixed }
    requires shared { SharesAs settings.now machine.now.machine.paths.one.path.fixed }
    ensures { IsPut (K.state sink.old) (K.state sink.new)
        (path_lines (blocks_of right.now) Two machine.now.machine ++ shared_lines machine.now.machine) result }
{
    match put_path(sink, right, machine, settings, Path::Two) {
        Ok(()) => put_shared(sink, machine, settings),
        Err(fault) => Err(fault),
    }
}

/// Puts the text of a machine.
fn put_state<K: Sink>(
    sink: &mut K,
    left: &Flow,
    right: &Flow,
    machine: &Machine,
    settings: &Settings,
) -> Result<(), PutFault>
    requires one { SharesAs settings.now machine.now.machine.paths.one.path.fixed }
    requires two { SharesAs settings.now machine.now.machine.paths.two.path.fixed }
    ensures { IsPut (K.state sink.old) (K.state sink.new)
        (state_text (tapes_of left.now right.now) machine.now.machine) result }
{
    match put_path(sink, left, machine, settings, Path::One) {
        Ok(()) => put_rest(sink, right, machine, settings),
        Err(fault) => Err(fault),
    }
}

/// A machine of the pair shares the variables that the settings say.
fn machines_share_as_the_settings_say(verified: &Verified, machine: &Machine)
    requires { IsMachineOf (tapes_of verified.now.left verified.now.right)
        (machine_at_start verified.now.left verified.now.right verified.now.settings) machine.now.machine }
    ensures one { SharesAs verified.now.settings machine.now.machine.paths.one.path.fixed }
    ensures two { SharesAs verified.now.settings machine.now.machine.paths.two.path.fixed }
{
    control_goes_as_the_flow_orders();
}

/// Writes the text of a machine of the pair: of each path where it stands, where its turret stands,
/// what is in force, its open calls, its offsets that are not 0 and its variables that are not
/// vacant; the shared variables that are not vacant; and the number of records. It takes no memory.
///
/// Errors: those of the sink, which then holds a part of the text, from its start.
pub fn write_state<K: Sink>(
    verified: &Verified,
    machine: &Machine,
    sink: &mut K,
) -> Result<(), PutFault>
    requires { IsMachineOf (tapes_of verified.now.left verified.now.right)
        (machine_at_start verified.now.left verified.now.right verified.now.settings) machine.now.machine }
    ensures { IsPut (K.state sink.old) (K.state sink.new)
        (state_text (tapes_of verified.now.left verified.now.right) machine.now.machine) result }
{
    machines_share_as_the_settings_say(verified, machine);
    put_state(
        sink,
        verified.left(),
        verified.right(),
        machine,
        verified.settings(),
    )
}
