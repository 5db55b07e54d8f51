//! One turn: the table is taken out of its slot, does one thing, and is put back. The table has
//! three words: 0 tells whether a seat has the turn, and whether another sleeps for it; 1 counts
//! the waits that ended; 2 counts the seats that sleep in a wait. For seats.rt of this crate.
ghost use Rattle.std.specs.Prelude.{◌≡◌, ◌≢◌, ◌&&◌, ◌||◌, not, true, false, [], ◌∷◌, MatchOption, IsTrue, is_some, Some, None};
ghost use Rattle.nc_number.specs.declared.path.Path.TheVariants.{One, Two};
ghost use Rattle.nc_outside.specs.declared.halt.Next.TheVariants.{Halted};
ghost use Rattle.seat_table.specs.Passes.{IsAsAtStop};
ghost use Rattle.seat_table.specs.Taking.{Tries, AnswersWhy, IsGiven, IsHalt};
ghost use Rattle.seat_table.specs.Turning.{Answers};
ghost use Rattle.nc_number.specs.Both.{of_path};
ghost use Rattle.seat_table.specs.Knowing.{Right, steps, halts, has, lists_of, stop_of, stop_list, idle, knowledge_with_calls, Idle, IsAt, IsOf, Took, Keeps, KeepsStop, list_at, stop_at};
ghost use Rattle.seat_table.specs.declared.knowing.Stop.{Stop};

use crate::knowing::{Ask, Count, Give, Glue, Knows, Law, Note, Noted, Take};
use crate::turning::Turns;
use atomic_table::{Seat, Shared, Table};
use nc_number::{Both, Path};
use nc_outside::{Call, Halt, Next};
use std::alloc::Global;
use std::sync::Wait;
use std::thread;

/// A seat at the table, with what it knows.
pub(crate) type Place<C> = Seat<Option<C>, Knows>;

/// What came of one try to step.
#[derive(Drop)]
pub enum Tried {
    /// Another seat has the turn.
    Busy,
    /// The path waits.
    Waits,
    /// The path made a step.
    Stepped(Next),
}

/// What a turn tells the table, which adds no record.
#[derive(Drop)]
pub enum Notice {
    /// The turret of the path has what was answered to it.
    Drained(Path),
    /// The run is to halt.
    Halt(Halt),
}

/// How often a seat looks for the turn before it sleeps until the turn is given back. A step in
/// memory is done by then, and one that waits for a disk is not.
const LOOKS: u32 = 64;

/// Takes the turn if nobody has it, and the table with it. The word of the turn is 0 if nobody has
/// it, 1 if a seat has it, and 2 if besides another seat sleeps until it is given back.
fn take<C: Turns>(shared: &Shared<Option<C>, Knows, (), Law>, place: &mut Place<C>) -> Option<C>
    requires table { IsAt place.old.table_id shared.now.table_id }
    requires idle { Idle place.old.me }
    requires right { (r : Right) × (has r place.old.me.0.rights ≡ true) }
    ensures same { (place.new.table_id ≡ place.old.table_id) × (place.new.id ≡ place.old.id) }
    ensures took { MatchOption result (place.new.me ≡ place.old.me)
        (λ c. Took C.told C.reason place.old.me c place.new.me) }
{
    if shared.compare_exchange::<Take>(place, 0, 0, 1) != 0 {
        return None;
    }
    let Some(table) = shared.exchange(place, 0, None) else {
        unreachable!()
    };
    Some(table)
}

/// Puts the table back, gives the turn back, and wakes the seats that sleep until then.
fn give<C: Turns>(shared: &Shared<Option<C>, Knows, (), Law>, place: &mut Place<C>, table: C)
    requires table { IsAt place.old.table_id shared.now.table_id }
    requires busy { (place.old.me.0.busy ≡ true) × (place.old.me.1 ≡ (0, None) ∷ []) }
    requires others { (p : Path) → has (steps p) place.old.me.0.rights ≡ false
        → C.told table p ≡ of_path place.old.me.0.found p }
    requires stop { KeepsStop place.old.me.0.found_stop (stop_of C.told C.reason table) }
    ensures same { (place.new.table_id ≡ place.old.table_id) × (place.new.id ≡ place.old.id) }
    ensures gave { place.new.me ≡ (
      idle place.old.me.0.rights (lists_of C.told table)
          (stop_list (stop_of C.told C.reason table)) place.old.me.0.calls,
      [],
    ) }
{
    let before = shared.exchange(place, 0, Some(table));
    let None = before else { unreachable!() };
    if shared.swap::<Give>(place, 0, 0) == 2 {
        shared.wake_all(0);
    }
}

/// Lets the seat that has the turn go on: yields, and after LOOKS looks sleeps until the turn is
/// given back.
fn stand_by<C: Turns, R: Wait>(
    rt: &R,
    shared: &Shared<Option<C>, Knows, (), Law>,
    place: &mut Place<C>,
    looks: u32,
)
    requires { IsAt place.old.table_id shared.now.table_id }
    ensures { (place.new.table_id ≡ place.old.table_id) × (place.new.id ≡ place.old.id)
        × (place.new.me ≡ place.old.me) }
{
    if looks < LOOKS {
        thread::yield_now();
    } else if shared.compare_exchange::<Ask>(place, 0, 1, 2) != 0 {
        shared.park(rt, 0, 2);
    }
}

/// Counts that a wait is over, and wakes the seats that sleep until then. A wake is a call of the
/// system, so it is made only if a seat is counted as asleep.
fn count_change<C: Turns>(shared: &Shared<Option<C>, Knows, (), Law>, place: &mut Place<C>)
    requires { IsAt place.old.table_id shared.now.table_id }
    ensures { (place.new.table_id ≡ place.old.table_id) × (place.new.id ≡ place.old.id)
        × (place.new.me ≡ place.old.me) }
{
    shared.fetch_add::<Count>(place, 1, 1);
    if shared.peek(2) != 0 {
        shared.wake_all(1);
    }
}

/// Sleeps until a wait is over, unless one has ended since just before the turn in which the path
/// waited (`seen` is what word 1 counted then). A seat that counts an end looks for sleepers after
/// that, and a sleeper is counted before it looks at the count of ends: so one of the two sees the
/// other.
fn await_change<C: Turns, R: Wait>(
    rt: &R,
    shared: &Shared<Option<C>, Knows, (), Law>,
    place: &mut Place<C>,
    seen: u64,
)
    requires { IsAt place.old.table_id shared.now.table_id }
    ensures { (place.new.table_id ≡ place.old.table_id) × (place.new.id ≡ place.old.id)
        × (place.new.me ≡ place.old.me) }
{
    shared.fetch_add::<Count>(place, 2, 1);
    shared.park(rt, 1, (seen % (1 << 32)) as u32);
    shared.fetch_sub::<Count>(place, 2, 1);
}

/// Whether each path waits.
fn who_waits<C: Turns>(table: &C) -> Both<bool>
    ensures { (result.one ≡ C.waits table.now One) × (result.two ≡ C.waits table.now Two) }
{
    Both {
        one: table.waits(Path::One),
        two: table.waits(Path::Two),
    }
}

/// Whether a path that waited before does not wait any more.
fn is_freed(before: Both<bool>, after: Both<bool>) -> bool
    ensures { result ≡ ((before.one && not after.one) || (before.two && not after.two)) }
{
    (before.one && !after.one) || (before.two && !after.two)
}

/// Counts a change if a path that waited does not wait any more. A path sleeps only after a turn in
/// which it waited, and only the end of that wait is worth a wake.
fn count_freed<C: Turns>(
    shared: &Shared<Option<C>, Knows, (), Law>,
    place: &mut Place<C>,
    before: Both<bool>,
    after: Both<bool>,
)
    requires { IsAt place.old.table_id shared.now.table_id }
    ensures { (place.new.table_id ≡ place.old.table_id) × (place.new.id ≡ place.old.id)
        × (place.new.me ≡ place.old.me) }
{
    if is_freed(before, after) {
        count_change(shared, place);
    }
}

/// Notes calls that a stepper over the seat had. It takes no turn.
pub(crate) fn note<C: Turns, N: Noted>(
    shared: &Shared<Option<C>, Knows, (), Law>,
    place: &mut Place<C>,
)
    requires table { IsAt place.old.table_id shared.now.table_id }
    requires idle { Idle place.old.me }
    ensures same { (place.new.table_id ≡ place.old.table_id) × (place.new.id ≡ place.old.id) }
    ensures noted { place.new.me ≡ (knowledge_with_calls N.calls place.old.me.0, place.old.me.1) }
{
    shared.load::<Note<N>>(place, 1);
}

/// One try to step the path: takes the turn, steps, and gives the turn back.
fn turn<C: Turns>(
    shared: &Shared<Option<C>, Knows, (), Law>,
    place: &mut Place<C>,
    path: Path,
) -> Tried
    requires table { IsAt place.old.table_id shared.now.table_id }
    requires idle { Idle place.old.me × (has (steps path) place.old.me.0.rights ≡ true) }
    requires alone { (p : Path) → p ≢ path → has (steps p) place.old.me.0.rights ≡ false }
    ensures same { (place.new.table_id ≡ place.old.table_id) × Idle place.new.me
        × Keeps place.old.me place.new.me }
    ensures list { Tries (list_at path place.old.me) result (list_at path place.new.me) }
    ensures stop { KeepsStop (stop_at place.old.me) (stop_at place.new.me) }
    ensures halted { (s : Stop) → stop_at place.old.me ≡ Some s → AnswersWhy s result }
{
    let Some(mut table) = take(shared, place) else {
        return Tried::Busy;
    };
    let before = who_waits(&table);
    let next = table.turn_step(path);
    let after = who_waits(&table);
    give(shared, place, table);
    let Some(next) = next else {
        return Tried::Waits;
    };
    count_freed(shared, place, before, after);
    Tried::Stepped(next)
}

/// Tells the table that a path was drained, or that the run is to halt.
fn tell<C: Turns>(table: &mut C, notice: &Notice)
    requires { IsGiven notice.now }
    ensures told { (p : Path) → C.told table.new p ≡ C.told table.old p }
    ensures stop { KeepsStop (stop_of C.told C.reason table.old) (stop_of C.told C.reason table.new) }
    ensures halt { IsHalt notice.now → IsTrue (is_some (stop_of C.told C.reason table.new)) }
{
    match notice {
        Notice::Drained(path) => table.drained(*path),
        Notice::Halt(why) => table.halt(*why),
    }
}

/// One try to tell the table: false if another seat has the turn.
fn tell_turn<C: Turns>(
    shared: &Shared<Option<C>, Knows, (), Law>,
    place: &mut Place<C>,
    notice: &Notice,
) -> bool
    requires table { IsAt place.old.table_id shared.now.table_id }
    requires idle { Idle place.old.me × ((r : Right) × (has r place.old.me.0.rights ≡ true)) }
    requires notice { IsGiven notice.now }
    ensures same { (place.new.table_id ≡ place.old.table_id) × Idle place.new.me
        × Keeps place.old.me place.new.me }
    ensures list { (p : Path) → has (steps p) place.old.me.0.rights ≡ true
        → list_at p place.new.me ≡ list_at p place.old.me }
    ensures stop { KeepsStop (stop_at place.old.me) (stop_at place.new.me) }
    ensures halt { IsTrue result → IsHalt notice.now → IsTrue (is_some (stop_at place.new.me)) }
{
    let Some(mut table) = take(shared, place) else {
        return false;
    };
    let before = who_waits(&table);
    tell(&mut table, notice);
    let after = who_waits(&table);
    give(shared, place, table);
    count_freed(shared, place, before, after);
    true
}

/// A step of the path, once the seat has the turn and the path does not wait. A path that waits
/// sleeps until its wait is over.
pub(crate) fn step_until<C: Turns, R: Wait>(
    rt: &R,
    shared: &Shared<Option<C>, Knows, (), Law>,
    place: &mut Place<C>,
    path: Path,
) -> Next
    requires table { IsAt place.old.table_id shared.now.table_id }
    requires seat { IsOf (steps path) place.old.me }
    ensures same { (place.new.table_id ≡ place.old.table_id) × IsOf (steps path) place.new.me }
    ensures calls { place.new.me.0.calls ≡ place.old.me.0.calls }
    ensures list { Answers (list_at path place.old.me) result (list_at path place.new.me) }
    ensures stop { KeepsStop (stop_at place.old.me) (stop_at place.new.me) }
    ensures halted { (s : Stop) → stop_at place.old.me ≡ Some s → result ≡ Halted s.why }
{
    let mut looks = 0u32;
    for _ in rt.forever() {
        let seen = shared.peek(1);
        match turn(shared, place, path) {
            Tried::Stepped(next) => return next,
            Tried::Busy => stand_by(rt, shared, place, looks),
            Tried::Waits => await_change(rt, shared, place, seen),
        }
        looks = looks.saturating_add(1);
    }
    unreachable!()
}

/// Gives the table this notice, once the seat has the turn.
pub(crate) fn tell_until<C: Turns, R: Wait>(
    rt: &R,
    shared: &Shared<Option<C>, Knows, (), Law>,
    place: &mut Place<C>,
    notice: Notice,
)
    requires table { IsAt place.old.table_id shared.now.table_id }
    requires idle { Idle place.old.me × ((r : Right) × (has r place.old.me.0.rights ≡ true)) }
    requires notice { IsGiven notice }
    ensures same { (place.new.table_id ≡ place.old.table_id) × Idle place.new.me
        × Keeps place.old.me place.new.me }
    ensures list { (p : Path) → has (steps p) place.old.me.0.rights ≡ true
        → list_at p place.new.me ≡ list_at p place.old.me }
    ensures stop { KeepsStop (stop_at place.old.me) (stop_at place.new.me) }
    ensures halt { IsHalt notice → IsTrue (is_some (stop_at place.new.me)) }
{
    let mut looks = 0u32;
    for _ in rt.forever() {
        if tell_turn(shared, place, &notice) {
            return;
        }
        stand_by(rt, shared, place, looks);
        looks = looks.saturating_add(1);
    }
    unreachable!()
}

/// Puts the four seats together and gives the table, whose tellings are those that the seats list.
pub(crate) fn close_all<C: Turns>(
    table: Table<Option<C>, Knows, (), Law, Global>,
    first: Place<C>,
    second: Place<C>,
    first_halt: Place<C>,
    second_halt: Place<C>,
) -> C
    requires sized { (table.shared.table_id.words ≡ 3) × (table.shared.table_id.slots ≡ 1) }
    requires seats { (first.table_id ≡ table.shared.table_id)
        × (second.table_id ≡ table.shared.table_id) }
    requires halters { (first_halt.table_id ≡ table.shared.table_id)
        × (second_halt.table_id ≡ table.shared.table_id) }
    requires paths { IsOf (steps One) first.me × IsOf (steps Two) second.me }
    requires halts { IsOf (halts One) first_halt.me × IsOf (halts Two) second_halt.me }
    ensures first { C.told result One ≡ list_at One first.me }
    ensures second { C.told result Two ≡ list_at Two second.me }
    ensures stops { IsAsAtStop C.told C.reason result (stop_at first.me)
        × IsAsAtStop C.told C.reason result (stop_at second.me) }
    ensures halts { IsAsAtStop C.told C.reason result (stop_at first_halt.me)
        × IsAsAtStop C.told C.reason result (stop_at second_halt.me) }
{
    let mut place = first;
    table.shared.join_seat::<Glue>(&mut place, second);
    table.shared.join_seat::<Glue>(&mut place, first_halt);
    table.shared.join_seat::<Glue>(&mut place, second_halt);
    let mut closed = table.close_with(place);
    let slot = closed.take(0);
    closed.free();
    let Some(held) = slot else { unreachable!() };
    held
}
