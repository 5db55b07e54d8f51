//! What a seat at the table knows, the rule of the table, and what each step on its words tells.
//! These types are for proofs alone, and no value of most of them is made. What the seats do is in
//! `taking`. seats.rt and taking.rt name these types.
ghost use Rattle.std.specs.Prelude.{◌≡◌, List, []};
ghost use Rattle.nc_number.specs.declared.path.Path.TheVariants.{One, Two};
ghost use Rattle.nc_outside.specs.declared.stepper.Call.{Call as Called};
ghost use Rattle.seat_table.specs.Knowing.{Kept, steps, halts, right_of, first_knowledge, took, gave, knowledge_cut_off, knowledge_left, joined_knowledge, no_knowledge, knowledge_with_calls};

use crate::turning::Turns;
use atomic_table::{Join, Play, Split, TableRule};
use nc_number::Both;
use nc_outside::{Call, Got, Halt};
use std::collections::LinkedList;
use std::marker::{Brand, PhantomData};

/// The tellings of a path: the moves and rests that its steps answered for its turret, in order.
pub type Tellings = LinkedList<Got>;

/// A halt of the table: why, and its tellings. (Specs call it the table's stop.)
pub struct Stop {
    /// Why the table has halted.
    pub why: Halt,
    /// The tellings of both paths that it had then.
    pub told: Both<Tellings>,
}

/// What a seat is for: to step paths, and to halt the run for the turrets of paths.
pub struct Rights {
    /// For each path: whether it may step that path.
    pub steps: Both<bool>,
    /// For each path: whether it is the seat that halts the run for that path's turret.
    pub halts: Both<bool>,
}

/// What a seat knows. No value of it is made.
pub struct Knows {
    /// What the seat may do.
    pub rights: Rights,
    /// Tellings of both paths. Those of a path that it may step are the table's; those of another
    /// path may be out of date.
    pub lists: Both<Tellings>,
    /// The halt of the table, if it had halted when the seat last gave the turn back. A seat that
    /// took others in has what they knew too.
    pub stops: LinkedList<Stop>,
    /// Whether it has the turn. Then the next two fields tell what it found.
    pub busy: bool,
    /// The tellings that it found as it took the turn.
    pub found: Both<Tellings>,
    /// The halt of the table, if it had halted then.
    pub found_stop: Option<Stop>,
    /// The calls that a stepper over it had.
    pub calls: LinkedList<Call>,
}

/// The rule: while nobody has the turn, each seat that may step a path lists that path's tellings of
/// the table. If a seat knows that the table has halted, the table is what it was then.
pub struct Law;

impl<C: Turns> TableRule<Option<C>, Knows, ()> for Law {
    ghost holds = { λ _. Kept C.told C.reason };

    ghost first = { λ _. first_knowledge };
}

/// The step that takes the turn.
pub struct Take;

impl<C: Turns> Play<Option<C>, Knows> for Take {
    ghost then = { took C.told C.reason };
}

/// The step that gives the turn back.
pub struct Give;

impl<C: Turns> Play<Option<C>, Knows> for Give {
    ghost then = { gave C.told C.reason };
}

/// The step that counts the end of a wait, or a seat that falls asleep or wakes: the seat knows
/// what it knew.
pub struct Count;

impl<S> Play<S, Knows> for Count {
    ghost then = { λ _ m _ w. w ≡ m };
}

/// The step that asks the seat with the turn to wake this one: the seat knows what it knew.
pub struct Ask;

impl<S> Play<S, Knows> for Ask {
    ghost then = { λ _ m _ w. w ≡ m };
}

/// The calls that a note is of. Who notes them chooses them.
pub trait Noted {
    ghost calls: { List Called };
}

impl Noted for Brand {
    ghost calls = { [] };
}

/// The step that notes calls of a stepper over the seat.
pub struct Note<N> {
    /// The calls that are noted.
    of: PhantomData<N>,
}

impl<S, N: Noted> Play<S, Knows> for Note<N> {
    ghost then = { λ _ m _ w. w ≡ (knowledge_with_calls N.calls m.0, m.1) };
}

/// Cuts off the seat that steps path 2.
pub struct CutSecond;

impl Split<Knows> for CutSecond {
    ghost left = { knowledge_left (right_of (steps Two)) };

    ghost right = { knowledge_cut_off (right_of (steps Two)) };
}

/// Cuts off the seat that halts for the turret of path 1.
pub struct CutFirstHalt;

impl Split<Knows> for CutFirstHalt {
    ghost left = { knowledge_left (right_of (halts One)) };

    ghost right = { knowledge_cut_off (right_of (halts One)) };
}

/// Cuts off the seat that halts for the turret of path 2.
pub struct CutSecondHalt;

impl Split<Knows> for CutSecondHalt {
    ghost left = { knowledge_left (right_of (halts Two)) };

    ghost right = { knowledge_cut_off (right_of (halts Two)) };
}

/// Puts two seats together: one has the rights, tellings and stops of both and its own calls, the
/// other nothing.
pub struct Glue;

impl Join<Knows> for Glue {
    ghost both = { joined_knowledge };

    ghost spent = { no_knowledge };
}
