//! The end of a line at which the drive of a turret takes. The other end is in line_in.rt. The drive
//! takes items here, and answers each mark (the item by which a drain asks how many moves were
//! taken) once its turret is at rest.
ghost use Rattle.std.specs.Prelude.{◌≡◌, ◌++◌, [], true, false, length, List, ℕ};
ghost use Rattle.drive_line.specs.Driving.{IsAtRest};
ghost use Rattle.drive_line.specs.Line.{moves_among, mark_counts, has_end, is_mark, Takes};

use crate::counting::next_count;
use crate::wire::{WireIn, WireOut};
use crate::{Driven, Item};
use nc_outside::Turret;
use std::marker::{Model, PhantomData};
use std::sync::Wait;

/// The end at which the drive of a turret takes. It means its line, the items that it took, and
/// whether it owes an answer to the last, a mark. It answered each other mark with the number of
/// the moves that it took before.
#[derive(Drop)]
pub struct LineOut<T: Turret> {
    /// The wire of the items.
    forth: WireOut<Item>,
    /// The wire of the answers.
    back: WireIn<u64>,
    /// How many moves were taken.
    taken: u64,
    /// Whether the end was taken.
    ended: bool,
    /// Whether the last item is a mark that is not answered yet.
    asked: bool,
    /// Whose drive takes here.
    of: PhantomData<T>,
}

impl<T: Turret> Model for LineOut<T> {
    ghost use Rattle.drive_line.specs.Line.{Taking, IsTaking};

    ghost Value = { Taking };

    ghost view = { λ l. record {
      line = record { forth = l.forth.wire; back = l.back.wire };
      items = l.forth.items;
      asked = l.asked;
    } };

    ghost invariant = { λ l. IsTaking l.taken l.ended l.asked l.forth.items l.back.items };
}

impl<T: Turret> LineOut<T> {
    /// The end of a new line over these two wires.
    pub(crate) fn over(forth: WireOut<Item>, back: WireIn<u64>) -> Self
        requires { (forth.items ≡ []) × (back.items ≡ []) }
        ensures { result ≡ record {
          line = record { forth = forth.wire; back = back.wire };
          items = [];
          asked = false;
        } }
    {
        LineOut {
            forth,
            back,
            taken: 0,
            ended: false,
            asked: false,
            of: PhantomData,
        }
    }

    /// The wires that it was made of: that of its items, and that of the answers, and whether it
    /// took the end.
    pub(crate) fn into_wires(self) -> (WireOut<Item>, WireIn<u64>, bool)
        ensures line { self.line ≡ record { forth = result.0.wire; back = result.1.wire } }
        ensures items { result.0.items ≡ self.items }
        ensures given { (rest : List ℕ) × (mark_counts 0 self.items ≡ result.1.items ++ rest) }
        ensures ended { result.2 ≡ has_end self.items }
    {
        (self.forth, self.back, self.ended)
    }

    /// The next item, and the end again behind the end. Where the line is empty it waits. A mark is
    /// to be answered before the next is taken.
    pub fn take<R: Wait>(&mut self, rt: &R) -> Item
        requires { self.old.asked ≡ false }
        ensures line { self.new.line ≡ self.old.line }
        ensures taken { Takes self.old.items self.new.items result }
        ensures asked { self.new.asked ≡ is_mark result }
    {
        if self.ended {
            return Item::End;
        }
        let item = self.forth.take(rt);
        match item {
            Item::Move(_) => self.taken = next_count(rt, self.taken),
            Item::Mark(_) => self.asked = true,
            Item::Finish => {}
            Item::End => self.ended = true,
        }
        item
    }

    /// Answers a mark with the number of the moves that were taken. Its turret took all of them and
    /// stands still behind them, or it failed and the run was halted for that.
    pub fn answer<R: Wait>(&mut self, rt: &R, driven: &Driven<T>)
        requires asked { self.old.asked ≡ true }
        requires rest { IsAtRest driven.now (length (moves_among self.old.items)) }
        ensures line { self.new.line ≡ self.old.line }
        ensures items { self.new.items ≡ self.old.items }
        ensures answered { self.new.asked ≡ false }
    {
        let _ = driven;
        self.back.send(rt, self.taken);
        self.asked = false;
    }
}
