//! How both paths lie in the cell, the gap that they are to keep, and the zone of two areas.
ghost use Rattle.std.specs.Prelude.{◌≡◌};
ghost use Rattle.zone_area.specs.Range.{IsNearArea};
ghost use Rattle.zone_cell.specs.Entry.{IsAllowed};
ghost use Rattle.zone_cell.specs.Zones.{standard, with_entry, zone_of_areas};

use crate::entry::Entry;
use nc_number::{Both, Path, Point};
use std::marker::Model;
use zone_area::{Area, Frame, is_clear};

/// How the paths lie in the cell, and how far apart they are to stay.
#[derive(Debug, Drop)]
pub struct Zones {
    /// How each path lies in the cell.
    frames: Both<Frame>,
    /// How far apart the paths are to stay, in 0.001 mm; X is a diameter.
    gap: Point,
}

impl Model for Zones {
    ghost use Rattle.zone_cell.specs.Zones;

    ghost Value = { Zones.ZonesView };

    ghost view = { λ z. record { frames = z.frames; gap = z.gap } };

    ghost invariant = { λ z. Zones.AreNear (record { frames = z.frames; gap = z.gap }) };
}

/// What both paths may pass between two meetings, as it lies in the cell.
#[derive(Clone, Copy, Debug, PartialEq, Eq)]
pub struct Zone {
    /// The area of each path, as it lies in the cell.
    pub areas: Both<Area>,
    /// The areas lie more than the gap apart in X or in Z.
    pub clear: bool,
}

impl Zones {
    /// The zones of an empty text: no frame, no mirror, no gap.
    pub(crate) fn standard() -> Zones
        ensures { result ≡ standard }
    {
        let origin = Point { x: 0, z: 0 };
        let frame = Frame {
            mirror: false,
            mirror_z: false,
            shift: origin,
        };
        Zones {
            frames: Both {
                one: frame,
                two: frame,
            },
            gap: origin,
        }
    }

    /// Takes what a line says.
    pub(crate) fn take(&mut self, entry: Entry)
        requires { IsAllowed entry }
        ensures { self.new ≡ with_entry self.old entry }
    {
        match entry {
            Entry::Nothing => {}
            Entry::Frame {
                path: Path::One,
                to,
            } => self.frames.one.shift = to,
            Entry::Frame {
                path: Path::Two,
                to,
            } => self.frames.two.shift = to,
            Entry::Mirror(Path::One) => self.frames.one.mirror = true,
            Entry::Mirror(Path::Two) => self.frames.two.mirror = true,
            Entry::Gap(gap) => self.gap = gap,
        }
    }

    /// The zone of an area of each path.
    pub fn zone(&self, areas: &Both<Area>) -> Zone
        requires one { IsNearArea areas.now.one }
        requires two { IsNearArea areas.now.two }
        ensures { result ≡ zone_of_areas self.now areas.now }
    {
        let one = self.frames.one.in_cell(&areas.one);
        let two = self.frames.two.in_cell(&areas.two);
        Zone {
            areas: Both { one, two },
            clear: is_clear(&self.gap, &one, &two),
        }
    }
}
