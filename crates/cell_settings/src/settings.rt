//! The settings of the cell, as a type that keeps their ranges, and what one line more makes of
//! them.
ghost use Rattle.std.specs.Prelude.{◌≡◌, ◌^◌, ◌-◌, ◌<◌, ◌≤◌, bit_and, bit_or, All, OnOk};
ghost use Rattle.cell_settings.specs.Settings.{IsWaitRange, IsSwitches};
ghost use Rattle.nc_number.specs.declared.limits.TheConstants.{MOST_RECORDS};
ghost use Rattle.nc_number.specs.Position.{IsPosition};
ghost use Rattle.cell_settings.specs.Preset.{IsPreset};

use crate::entry::Entry;
use crate::preset::{Preset, PresetList};
use code_tables::System;
use nc_number::{MOST_RECORDS, Point};
use std::alloc::{AllocFailed, Global};

/// The settings of the cell. In a list of two the first item is path 1's, the second path 2's.
#[derive(Debug, Drop)]
pub struct Settings {
    /// The first waiting code.
    pub wait_low: u16,
    /// The last waiting code.
    pub wait_high: u16,
    /// How many variables from #100 on both paths share.
    pub shared100: u32,
    /// How many variables from #500 on both paths share.
    pub shared500: u32,
    /// Whether the P of a wait names the paths by bits, and not by their numbers.
    pub bits: bool,
    /// The system of the G codes of both tapes.
    pub system: System,
    /// For each path its skip switches that are fixed as on: bit n is switch n, 1 to 9.
    pub skips: [u16; 2],
    /// For each path its skip switches that are fixed as off: bit n is switch n, 1 to 9.
    pub unskips: [u16; 2],
    /// For each path its opening position, in machine coordinates.
    pub place: [Point; 2],
    /// For each path its reference position, in machine coordinates.
    pub home: [Point; 2],
    /// How many records the journal may have.
    pub records: u32,
    /// The offsets that the paths begin with; all others are 0.
    pub presets: PresetList,
    ghost wait_range: { IsWaitRange wait_low wait_high },
    ghost shared100_range: { shared100 ≤ 100 },
    ghost shared500_range: { shared500 ≤ 500 },
    ghost switches: { All IsSwitches skips },
    ghost off_switches: { All IsSwitches unskips },
    ghost places: { All IsPosition place },
    ghost homes: { All IsPosition home },
    ghost fewest_records: { 1 ≤ records },
    ghost most_records: { records ≤ MOST_RECORDS },
    ghost offsets: { All IsPreset presets },
}

impl Settings {
    ghost use Rattle.cell_settings.specs.Cell.{standard, with_entry};
    ghost use Rattle.cell_settings.specs.View.{view};
    ghost use Rattle.cell_settings.specs.Entry.{IsAllowed};

    /// The settings of an empty text.
    pub(crate) fn standard(alloc: Global) -> Self
        ensures { view result ≡ standard }
    {
        let origin = Point { x: 0, z: 0 };
        Settings {
            wait_low: 100,
            wait_high: 197,
            shared100: 0,
            shared500: 100,
            bits: true,
            system: System::A,
            skips: [0, 0],
            unskips: [0, 0],
            place: [origin, origin],
            home: [origin, origin],
            records: MOST_RECORDS,
            presets: PresetList::empty(alloc),
        }
    }

    /// Takes what a line says. The only error is out of memory, at an offset.
    pub(crate) fn take(&mut self, entry: Entry) -> Result<(), AllocFailed<Preset>>
        requires { IsAllowed entry }
        ensures { OnOk result (view self.new ≡ with_entry (view self.old) entry) }
    {
        match entry {
            Entry::Nothing => {}
            Entry::Wait { low, high } => {
                self.wait_low = low;
                self.wait_high = high;
            }
            Entry::Shared100(count) => self.shared100 = count,
            Entry::Shared500(count) => self.shared500 = count,
            Entry::Paths { bits } => self.bits = bits,
            Entry::Codes { system } => self.system = system,
            Entry::Skip { path, switch } => {
                let at = path.index();
                self.skips[at] = with_switch(self.skips[at], switch);
                self.unskips[at] = without_switch(self.unskips[at], switch);
            }
            Entry::Unskip { path, switch } => {
                let at = path.index();
                self.skips[at] = without_switch(self.skips[at], switch);
                self.unskips[at] = with_switch(self.unskips[at], switch);
            }
            Entry::Place { path, to } => self.place[path.index()] = to,
            Entry::Home { path, to } => self.home[path.index()] = to,
            Entry::Offset(preset) => self.presets.set(preset)?,
            Entry::Records(count) => self.records = count,
        }
        Ok(())
    }
}

/// The switches of a path with one more: bit n is switch n.
fn with_switch(mask: u16, switch: u8) -> u16
    requires mask { IsSwitches mask }
    requires least { 1 ≤ switch }
    requires greatest { switch ≤ 9 }
    ensures value { result ≡ bit_or mask (2 ^ switch) }
    ensures kept { IsSwitches result }
{
    mask | 1 << switch
}

/// The switches of a path without one: bit n is switch n. A mask has the bits 0 to 9.
fn without_switch(mask: u16, switch: u8) -> u16
    requires mask { IsSwitches mask }
    requires greatest { switch ≤ 9 }
    ensures value { result ≡ bit_and mask (1023 - 2 ^ switch) }
    ensures kept { IsSwitches result }
{
    mask & (1_023 - (1 << switch))
}
