//! The end of a line at which the worker of a path sends. The other end is in line_out.rt.
ghost use Rattle.std.specs.Prelude.{◌≡◌, ℕ, List, false, [], ◌∷◌, ◌+◌, ◌++◌, All, Contains};
ghost use Rattle.drive_line.specs.Line.{has_end, mark_counts, EndIsLast, IsDrained};

use crate::Item;
use crate::counting::next_count;
use crate::wire::{WireIn, WireOut};
use nc_outside::{Drain, LinedMove};
use std::marker::Model;
use std::sync::Wait;

/// A line was drained behind so many moves. Only `LineIn::drain` makes one, and nothing makes a
/// second of it.
#[derive(Debug, Drop)]
pub struct Drained {
    /// How many moves were sent before the drain.
    count: u64,
}

impl Drain for Drained {
    ghost count = { λ d. d.count };

    /// How many moves were sent before the drain.
    fn count(&self) -> u64 {
        self.count
    }
}

/// The end at which a worker sends. It means its line, the items that it sent and the answers that
/// it received. Nothing is sent behind the item `End`, and each mark (the item by which a drain
/// asks for an answer) has been answered.
#[derive(Drop)]
pub struct LineIn {
    /// The wire of the items.
    forth: WireIn<Item>,
    /// The wire of the answers.
    back: WireOut<u64>,
    /// How many moves were sent.
    sent: u64,
}

impl Model for LineIn {
    ghost use Rattle.drive_line.specs.Line.{Sending, IsSending};

    ghost Value = { Sending };

    ghost view = { λ l. record {
      line = record { forth = l.forth.wire; back = l.back.wire };
      items = l.forth.items;
      received = l.back.items;
    } };

    ghost invariant = { λ l. IsSending l.sent l.forth.items l.back.items };
}

impl LineIn {
    /// The end of a new line over these two wires.
    pub(crate) fn over(forth: WireIn<Item>, back: WireOut<u64>) -> Self
        requires { (forth.items ≡ []) × (back.items ≡ []) }
        ensures { result ≡ record {
          line = record { forth = forth.wire; back = back.wire };
          items = [];
          received = [];
        } }
    {
        LineIn {
            forth,
            back,
            sent: 0,
        }
    }

    /// The wires that it was made of: that of its items, and that of the answers.
    pub(crate) fn into_wires(self) -> (WireIn<Item>, WireOut<u64>)
        ensures line { self.line ≡ record { forth = result.0.wire; back = result.1.wire } }
        ensures items { (result.0.items ≡ self.items) × (result.1.items ≡ self.received) }
        ensures last { EndIsLast self.items }
        ensures answered { All (Contains self.received) (mark_counts 0 self.items) }
    {
        (self.forth, self.back)
    }

    /// Sends a move behind those that were sent. Where the line is full it waits, and past 2^64 - 1
    /// moves for ever.
    pub fn send<R: Wait>(&mut self, rt: &R, what: LinedMove)
        requires { has_end self.old.items ≡ false }
        ensures line { self.new.line ≡ self.old.line }
        ensures items { self.new.items ≡ self.old.items ++ Item.Move what ∷ [] }
        ensures open { has_end self.new.items ≡ false }
        ensures received { self.new.received ≡ self.old.received }
    {
        self.sent = next_count(rt, self.sent);
        self.forth.send(rt, Item::Move(what));
    }

    /// Sends the mark of a wait of this code, and waits for answers until one has the number of the
    /// moves that were sent.
    pub fn drain<R: Wait>(&mut self, rt: &R, code: u16) -> Drained
        requires { has_end self.old.items ≡ false }
        ensures drained { IsDrained code self.old self.new result.count }
        ensures open { has_end self.new.items ≡ false }
    {
        self.forth.send(rt, Item::Mark(code));
        await_answer(rt, &mut self.back, self.sent);
        Drained { count: self.sent }
    }

    /// Sends that the path has ended, at which the turret is to stand still. Where the line is full
    /// it waits.
    pub fn finish<R: Wait>(&mut self, rt: &R)
        requires { has_end self.old.items ≡ false }
        ensures line { self.new.line ≡ self.old.line }
        ensures items { self.new.items ≡ self.old.items ++ Item.Finish ∷ [] }
        ensures open { has_end self.new.items ≡ false }
        ensures received { self.new.received ≡ self.old.received }
    {
        self.forth.send(rt, Item::Finish);
    }

    /// Sends the end. Where the line is full it waits.
    pub fn end_line<R: Wait>(&mut self, rt: &R)
        requires { has_end self.old.items ≡ false }
        ensures line { self.new.line ≡ self.old.line }
        ensures items { self.new.items ≡ self.old.items ++ Item.End ∷ [] }
        ensures received { self.new.received ≡ self.old.received }
    {
        self.forth.send(rt, Item::End);
    }
}

/// Takes answers until one is this number.
fn await_answer<R: Wait>(rt: &R, back: &mut WireOut<u64>, count: u64)
    ensures wire { back.new.wire ≡ back.old.wire }
    ensures items { (others : List ℕ) × (back.new.items ≡ back.old.items ++ (others ++ count ∷ [])) }
{
    for _ in rt.forever() {
        if back.take(rt) == count {
            return;
        }
    }
    unreachable!()
}
