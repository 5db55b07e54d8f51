//! How a tape is read, as the settings say: which M codes wait, and of which system its G codes are.
ghost use Rattle.std.specs.Prelude.{◌≡◌};
ghost use Rattle.code_tables.specs.Codes.{row_of};
ghost use Rattle.code_tables.specs.Systems.{rows_of_system};

use cell_settings::Settings;
use code_tables::{Row, System, row_of_code};

/// What the settings say of how a tape is read: which M codes wait for the other path, how the P of
/// a wait names both paths, and which system its G codes are of.
#[derive(Clone, Copy, Debug, PartialEq, Eq)]
pub struct Dialect {
    /// The first waiting code, 100 or above.
    pub low: u16,
    /// The last waiting code.
    pub high: u16,
    /// P names the paths by bits: 3 for both. Else by their numbers, one after the other: 12 or 21.
    pub bits: bool,
    /// The system of the G codes.
    pub system: System,
}

/// The row of a G code, if the system has it.
#[tactic(auto, using(crate::proofs::TableEnds::no_row_beyond))]
pub fn row_of(system: System, code: u32) -> Option<Row>
    ensures { result ≡ row_of (rows_of_system system) code }
{
    if code > 65_535 {
        return None;
    }
    row_of_code(system, code as u16)
}

impl Dialect {
    ghost use Rattle.block_words.specs.Codes.{is_waiting};
    ghost use Rattle.block_words.specs.Purposes.{names_both};

    /// The dialect of these settings.
    pub fn of(settings: &Settings) -> Dialect
        ensures low { result.low ≡ settings.now.wait_low }
        ensures high { result.high ≡ settings.now.wait_high }
        ensures bits { result.bits ≡ settings.now.bits }
        ensures system { result.system ≡ settings.now.system }
    {
        Dialect {
            low: settings.wait_low,
            high: settings.wait_high,
            bits: settings.bits,
            system: settings.system,
        }
    }

    /// Whether the M code waits for the other path.
    pub fn is_waiting(&self, code: u32) -> bool
        ensures { result ≡ is_waiting self.now code }
    {
        u32::from(self.low) <= code && code <= u32::from(self.high)
    }

    /// Whether the P of a wait names both paths.
    pub fn names_both(&self, paths: u32) -> bool
        ensures { result ≡ names_both self.now.bits paths }
    {
        if self.bits {
            paths == 3
        } else {
            paths == 12 || paths == 21
        }
    }
}
