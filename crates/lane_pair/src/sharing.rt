//! A place for the table of seats that threads share, taken before there is a table.
//! For gathering.rt, jobs.rt and pair.rt of this crate.
ghost use Rattle.std.specs.Prelude.{◌≡◌, IfOk, Some, None};

use nc_number::NoMemory;
use seat_table::{SeatTable, Turns};
use std::alloc::Global;
use std::marker::Model;
use std::sync::{Arc, Wait};
use std::thread;

/// A place for a table of seats, or the table in it, which its owners share. Contracts see which
/// table it is.
#[derive(Drop)]
pub(crate) struct Bench<C: Turns> {
    /// The place, which is empty until the table is put into it.
    seats: Arc<Option<SeatTable<C>>, Global>,
}

impl<C: Turns> Model for Bench<C> {
    ghost use Rattle.std.specs.Prelude.{Option};
    ghost use Rattle.std.specs.Arc.{arc_value};
    ghost use Rattle.atomic_table.specs.Seated.{TableId};

    ghost Value = { Option TableId };

    ghost view = { λ b. arc_value b.seats };
}

impl<C: Turns + Drop> Bench<C> {
    /// An empty place.
    pub(crate) fn vacant(alloc: Global) -> Result<Bench<C>, NoMemory>
        ensures { IfOk result (λ b. b ≡ None) }
    {
        let seats = Arc::new(alloc, None)?;
        Ok(Bench { seats })
    }

    /// The place with this table in it. It waits for as long as the place has another owner.
    pub(crate) fn with<R: Wait>(self, rt: &R, table: SeatTable<C>) -> Bench<C>
        ensures { result ≡ Some table }
    {
        let mut seats = self.seats;
        for _ in rt.forever() {
            if let Some(place) = Arc::get_mut(&mut seats) {
                *place = Some(table);
                return Bench { seats };
            }
            thread::yield_now();
        }
        unreachable!()
    }

    /// The same place for another owner.
    pub(crate) fn share<R: Wait>(&self, rt: &R) -> Bench<C>
        ensures { result ≡ self.now }
    {
        for _ in rt.forever() {
            if let Ok(seats) = Arc::try_clone(&self.seats) {
                return Bench { seats };
            }
            thread::yield_now();
        }
        unreachable!()
    }

    /// The table in the place.
    pub(crate) fn seats(&self) -> &SeatTable<C>
        requires { (table : _) × (self.now ≡ Some table) }
        ensures { (table : _) → self.now ≡ Some table → result.now ≡ table }
    {
        match &*self.seats {
            Some(seats) => seats,
            None => unreachable!(),
        }
    }

    /// The table, taken out of the place. It waits for as long as the place has another owner.
    pub(crate) fn into_table<R: Wait>(self, rt: &R) -> SeatTable<C>
        requires { (table : _) × (self ≡ Some table) }
        ensures { (table : _) → self ≡ Some table → result ≡ table }
    {
        let mut seats = self.seats;
        for _ in rt.forever() {
            match Arc::try_unwrap(seats) {
                Ok(Some(table)) => return table,
                Ok(None) => unreachable!(),
                Err(shared) => seats = shared,
            }
            thread::yield_now();
        }
        unreachable!()
    }
}
