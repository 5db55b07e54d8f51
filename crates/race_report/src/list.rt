//! The list of races that `races` answers; only racing.rt makes one.
ghost use Rattle.std.specs.Prelude.{◌≡◌, ◌↔◌, [], IsTrue};

use crate::race::Race;
use std::marker::Model;

/// The races of a pair. Contracts see them as a list.
#[derive(Debug, Drop)]
pub struct RaceList {
    /// The races, by their variables.
    races: Vec<Race>,
}

impl Model for RaceList {
    ghost use Rattle.std.specs.Prelude.{List};
    ghost use Rattle.race_report.specs.declared.race.Race.{Race};

    ghost Value = { List Race };

    ghost view = { λ list. list.races.items };
}

impl RaceList {
    /// The list of these races.
    pub(crate) fn of(races: Vec<Race>) -> Self
        ensures { result ≡ races.items }
    {
        RaceList { races }
    }

    /// The races, by their variables.
    pub fn as_slice(&self) -> &[Race]
        ensures { result.now ≡ self.now }
    {
        self.races.as_slice()
    }
}

/// Whether there is no race. Takes no memory.
pub fn no_race(list: &RaceList) -> bool
    ensures { IsTrue result ↔ (list.now ≡ []) }
{
    list.as_slice().is_empty()
}
