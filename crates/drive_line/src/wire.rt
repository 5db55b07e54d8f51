//! A bounded channel from one end to one other: first in, first out.
//! A line is made of two wires, one forth and one back. Orders to a thread go along one too.
ghost use Rattle.std.specs.Prelude.{◌≡◌, ◌<◌, List, true, [], ◌∷◌, ◌++◌, IfOk, MatchOption};
ghost use Rattle.crossbeam_channel.specs.Claims.{view, IsSeatAt};
ghost use Rattle.crossbeam_channel.specs.Ends.{sends_on, receives_on};
ghost use Rattle.drive_line.specs.Wire.{log};

use crossbeam_channel::protocol::{Join, Lesson, Outcome, Protocol, Split};
use crossbeam_channel::{Pass, RuledReceiver, RuledSender, bounded_with};
use std::alloc::{AllocError, Global};
use std::collections::LinkedList;
use std::marker::Model;
use std::sync::Wait;
use std::thread;

/// What a pass of the channel may do, and what it has sent and taken. No value of it is made.
pub struct Log<T> {
    /// Whether the pass may send.
    pub sends: bool,
    /// Whether it may take.
    pub takes: bool,
    /// What it has sent.
    pub sent: LinkedList<T>,
    /// What it has taken.
    pub taken: LinkedList<T>,
}

/// The rule of the channel: what was sent is what was taken, and then what the channel holds.
pub struct FirstOut;

impl<T> Protocol<T, Log<T>> for FirstOut {
    ghost use Rattle.std.specs.Prelude.{true, []};
    ghost use Rattle.drive_line.specs.Wire.{log, IsInOrder};

    ghost holds = { IsInOrder };

    ghost first = { log true true [] [] };
}

/// The two ends, cut apart and put together.
struct Ends;

impl<T> Split<Log<T>> for Ends {
    ghost use Rattle.std.specs.Prelude.{true, false, []};
    ghost use Rattle.drive_line.specs.Wire.{log};

    ghost left = { λ v. log true false v.sent [] };

    ghost right = { λ v. log false true [] v.taken };
}

impl<T> Join<Log<T>> for Ends {
    ghost use Rattle.std.specs.Prelude.{true, false, []};
    ghost use Rattle.drive_line.specs.Wire.{log};

    ghost both = { λ v w. log true true v.sent w.taken };

    ghost spent = { log false false [] [] };
}

/// An item was sent.
struct Sent;

impl<T> Outcome<T, Log<T>> for Sent {
    ghost then = { λ v x w. w ≡ log v.sends v.takes (v.sent ++ x ∷ []) v.taken };
}

impl<T> Lesson<T, Log<T>> for Sent {
    ghost fact = { λ v items. Unit {0} };
}

/// An item was taken.
struct Taken;

impl<T> Outcome<T, Log<T>> for Taken {
    ghost then = { λ v x w. w ≡ log v.sends v.takes v.sent (v.taken ++ x ∷ []) };
}

impl<T> Lesson<T, Log<T>> for Taken {
    ghost fact = { λ v items. Unit {0} };
}

/// What was sent is what was taken, and then what the channel holds.
struct Whole;

impl<T> Lesson<T, Log<T>> for Whole {
    ghost fact = { λ v items. v.sent ≡ v.taken ++ items };
}

/// The end of the channel that sends by the rule.
type Sender<T> = RuledSender<T, Log<T>, FirstOut>;

/// The end that takes by it.
type Receiver<T> = RuledReceiver<T, Log<T>, FirstOut>;

/// Sends the item, and returns when it is in the channel. In a full channel it sleeps; a channel
/// whose other end is gone is tried again.
fn send_on<T: Drop, R: Wait>(rt: &R, sender: &Sender<T>, pass: &mut Pass<T, Log<T>>, item: T)
    requires { IsSeatAt (sends_on sender.now) pass.old × ((view pass.old).sends ≡ true) }
    ensures channel { IsSeatAt (sends_on sender.now) pass.new }
    ensures sent { view pass.new ≡ log (view pass.old).sends (view pass.old).takes
        ((view pass.old).sent ++ item ∷ []) (view pass.old).taken }
{
    let mut item = item;
    for _ in rt.forever() {
        match sender.send_as::<Sent, R>(rt, pass, item) {
            Ok(()) => return,
            Err(error) => item = error.into_inner(),
        }
        thread::yield_now();
    }
    unreachable!()
}

/// How often a taker looks for an item before it sleeps until one is sent. The moves of a run whose
/// disk does not make it wait follow one another faster than a sleeper wakes.
const LOOKS: u32 = 64;

/// An item, if one is seen in so many looks. Between two of them other threads may run.
fn look_on<T: Drop, R: Wait>(
    rt: &R,
    receiver: &Receiver<T>,
    pass: &mut Pass<T, Log<T>>,
) -> Option<T>
    requires { IsSeatAt (receives_on receiver.now) pass.old × ((view pass.old).takes ≡ true) }
    ensures channel { IsSeatAt (receives_on receiver.now) pass.new }
    ensures taken { MatchOption result (view pass.new ≡ view pass.old)
        (λ item. view pass.new ≡ log (view pass.old).sends (view pass.old).takes
        (view pass.old).sent ((view pass.old).taken ++ item ∷ [])) }
{
    for _ in 0..LOOKS {
        if let Ok(item) = receiver.try_recv_as::<Taken, R>(rt, pass) {
            return Some(item);
        }
        thread::yield_now();
    }
    None
}

/// Takes an item. At an empty channel it sleeps; a channel whose other end is gone is tried again.
fn await_on<T: Drop, R: Wait>(rt: &R, receiver: &Receiver<T>, pass: &mut Pass<T, Log<T>>) -> T
    requires { IsSeatAt (receives_on receiver.now) pass.old × ((view pass.old).takes ≡ true) }
    ensures channel { IsSeatAt (receives_on receiver.now) pass.new }
    ensures taken { view pass.new ≡ log (view pass.old).sends (view pass.old).takes
        (view pass.old).sent ((view pass.old).taken ++ result ∷ []) }
{
    for _ in rt.forever() {
        if let Ok(item) = receiver.recv_as::<Taken, R>(rt, pass) {
            return item;
        }
        thread::yield_now();
    }
    unreachable!()
}

/// Takes an item: looks a while at an empty channel, and then sleeps until there is one.
fn take_on<T: Drop, R: Wait>(rt: &R, receiver: &Receiver<T>, pass: &mut Pass<T, Log<T>>) -> T
    requires { IsSeatAt (receives_on receiver.now) pass.old × ((view pass.old).takes ≡ true) }
    ensures channel { IsSeatAt (receives_on receiver.now) pass.new }
    ensures taken { view pass.new ≡ log (view pass.old).sends (view pass.old).takes
        (view pass.old).sent ((view pass.old).taken ++ result ∷ []) }
{
    match look_on(rt, receiver, pass) {
        Some(item) => item,
        None => await_on(rt, receiver, pass),
    }
}

/// The end that sends. It means its wire and what it has sent.
#[derive(Drop)]
pub struct WireIn<T: Drop> {
    /// The channel's end.
    sender: Sender<T>,
    /// The pass, with what it has sent.
    pass: Pass<T, Log<T>>,
}

impl<T: Drop> Model for WireIn<T> {
    ghost use Rattle.std.specs.Prelude.{◌≡◌, true, false, []};
    ghost use Rattle.crossbeam_channel.specs.Claims.{view as seen, IsSeatAt};
    ghost use Rattle.crossbeam_channel.specs.Ends.{sends_on, ruled_capacity};
    ghost use Rattle.drive_line.specs.Wire.{log, WireEnd, wire_of};

    ghost Value = { WireEnd T };

    ghost view = { λ e. record {
      wire = wire_of (ruled_capacity (sends_on e.sender)) e.pass;
      items = (seen e.pass).sent;
    } };

    ghost invariant = { λ e. IsSeatAt (sends_on e.sender) e.pass
        × (seen e.pass ≡ log true false (seen e.pass).sent []) };
}

/// The end that takes. It means its wire and what it has taken.
#[derive(Drop)]
pub struct WireOut<T: Drop> {
    /// The channel's end.
    receiver: Receiver<T>,
    /// The pass, with what it has taken.
    pass: Pass<T, Log<T>>,
}

impl<T: Drop> Model for WireOut<T> {
    ghost use Rattle.std.specs.Prelude.{◌≡◌, true, false, []};
    ghost use Rattle.crossbeam_channel.specs.Claims.{view as seen, IsSeatAt};
    ghost use Rattle.crossbeam_channel.specs.Ends.{receives_on, ruled_capacity};
    ghost use Rattle.drive_line.specs.Wire.{log, WireEnd, wire_of};

    ghost Value = { WireEnd T };

    ghost view = { λ e. record {
      wire = wire_of (ruled_capacity (receives_on e.receiver)) e.pass;
      items = (seen e.pass).taken;
    } };

    ghost invariant = { λ e. IsSeatAt (receives_on e.receiver) e.pass
        × (seen e.pass ≡ log false true [] (seen e.pass).taken) };
}

/// The two ends of a new wire that holds at most `bound` items. The only error is that memory runs
/// out.
pub fn new_wire<T: Drop>(alloc: Global, bound: usize) -> Result<(WireIn<T>, WireOut<T>), AllocError>
    requires { 0 < bound }
    ensures one { IfOk result (λ r. r.0.wire ≡ r.1.wire) }
    ensures empty { IfOk result (λ r. (r.0.items ≡ []) × (r.1.items ≡ [])) }
    ensures bound { IfOk result (λ r. r.0.wire.bound ≡ bound) }
{
    let (sender, receiver, mut pass) = bounded_with::<T, Log<T>, FirstOut, Global>(alloc, bound)?;
    let other = sender.another::<Ends>(&mut pass);
    let taking = WireOut {
        receiver,
        pass: other,
    };
    Ok((WireIn { sender, pass }, taking))
}

impl<T: Drop> WireIn<T> {
    /// Sends an item, if it returns.
    pub fn send<R: Wait>(&mut self, rt: &R, item: T)
        ensures wire { self.new.wire ≡ self.old.wire }
        ensures items { self.new.items ≡ self.old.items ++ item ∷ [] }
    {
        send_on(rt, &self.sender, &mut self.pass, item);
    }
}

impl<T: Drop> WireOut<T> {
    /// Takes the next item, if it returns.
    pub fn take<R: Wait>(&mut self, rt: &R) -> T
        ensures wire { self.new.wire ≡ self.old.wire }
        ensures items { self.new.items ≡ self.old.items ++ result ∷ [] }
    {
        take_on(rt, &self.receiver, &mut self.pass)
    }
}

/// Puts the two ends of a wire together: what was taken is a beginning of what was sent.
pub fn close_wire<T: Drop>(sending: WireIn<T>, taking: WireOut<T>)
    requires { sending.wire ≡ taking.wire }
    ensures { (rest : List T) × (sending.items ≡ taking.items ++ rest) }
{
    let WireIn { sender, mut pass } = sending;
    let WireOut { pass: other, .. } = taking;
    sender.absorb::<Ends>(&mut pass, other);
    sender.learn_as::<Whole>(&mut pass);
}
