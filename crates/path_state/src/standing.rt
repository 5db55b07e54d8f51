//! Where a path stands: its place, how its open calls were made, and the levels of their local
//! variables. Which moves the order of blocks allows is block_order's.
//! For this crate alone.
ghost use Rattle.std.specs.Prelude.{◌≡◌, ◌+◌, ◌≤◌, ◌∷◌, [], List, Option, Some, None, length, reverse};
ghost use Rattle.nc_number.specs.declared.value.Var.{Var};
ghost use Rattle.block_order.specs.Moves.{place_behind, place_at};
ghost use Rattle.block_order.specs.Frames.{start_of, MayPass};
ghost use Rattle.local_levels.specs.Stack.{base_level, local, with_local};
ghost use Rattle.path_state.specs.Standing.{calls_below, levels_below, levels_anew, macros};
ghost use Rattle.path_state.specs.Standing.{standing_moved, without_call, standing_of_return, standing_behind};
ghost use Rattle.path_state.specs.Routes.{route_end, route_end_or_cause};

use crate::route::Route;
use arrayvec::ArrayVec;
use block_forms::CallKind;
use block_order::{BlockOrder, Control, MOST_CALLS, Place};
use local_levels::{LOCALS, Levels};
use nc_number::{Cause, Var};
use std::marker::Model;

/// The place of a path, for each open call how it was called, and the levels of local variables.
#[derive(Debug, Drop)]
pub(crate) struct Standing {
    /// The open programs, each with its block.
    place: Place,
    /// For each open call how the program was called, the outer one first.
    calls: ArrayVec<CallKind, MOST_CALLS>,
    /// A level of local variables for the main program, and one for each open call of a macro.
    levels: Levels,
}

impl Model for Standing {
    ghost use Rattle.std.specs.Prelude.{reverse};
    ghost use Rattle.path_state.specs.Standing;
    ghost use Rattle.path_state.specs.Standing.{IsMatched};

    ghost Value = { Standing.Standing };

    ghost view = { λ s. record { place = s.place; calls = reverse s.calls.items; levels = s.levels } };

    ghost invariant = { λ s. IsMatched (record { place = s.place; calls = reverse s.calls.items; levels = s.levels }) };
}

/// Opens the level of the latest call anew, if it is the call of a macro.
fn repeat_call(calls: &[CallKind], levels: &mut Levels)
    requires { macros (reverse calls.now) + 1 ≡ length levels.old }
    ensures { levels.new ≡ levels_anew (reverse calls.now) levels.old }
{
    if let Some(CallKind::Macro) = calls.last() {
        levels.repeat_level();
    }
}

/// Takes the latest call away, with its level if it is the call of a macro.
fn close_call(calls: &mut ArrayVec<CallKind, MOST_CALLS>, levels: &mut Levels)
    requires { macros (reverse calls.old.items) + 1 ≡ length levels.old }
    ensures calls { reverse calls.new.items ≡ calls_below (reverse calls.old.items) }
    ensures levels { levels.new ≡ levels_below (reverse calls.old.items) levels.old }
{
    if calls.is_empty() {
        return;
    }
    match calls.remove(calls.len() - 1) {
        CallKind::Macro => levels.close_level(),
        CallKind::Subprogram => {}
    }
}

impl Standing {
    /// The first block of the main program, which has this O number; no call is open.
    pub(crate) fn start(main: u16) -> Standing
        ensures { result ≡ record { place = start_of main; calls = []; levels = base_level ∷ [] } }
    {
        Standing {
            place: Place::start(main),
            calls: ArrayVec::new(),
            levels: Levels::new(),
        }
    }

    /// The place without calls and levels.
    pub(crate) fn place(&self) -> &Place
        ensures { result.now ≡ self.now.place }
    {
        &self.place
    }

    /// The levels of local variables.
    pub(crate) fn levels(&self) -> &Levels
        ensures { result.now ≡ self.now.levels }
    {
        &self.levels
    }

    /// How many calls are open.
    pub(crate) fn depth(&self) -> u8
        ensures counted { result + 1 ≡ length self.now.place }
        ensures limit { result ≤ MOST_CALLS }
    {
        self.place.depth()
    }

    /// What `#i` of the running level holds.
    pub(crate) fn local(&self, i: u8) -> Var
        requires from_one { 1 ≤ i }
        requires to_last { i ≤ LOCALS }
        ensures { result ≡ local i self.now.levels }
    {
        self.levels.get(i)
    }

    /// Lets a local variable of the running level hold the value.
    pub(crate) fn set_local(&mut self, i: u8, value: Var)
        requires from_one { 1 ≤ i }
        requires to_last { i ≤ LOCALS }
        ensures { self.new ≡ record self.old { levels = with_local i value self.old.levels } }
    {
        self.levels.set(i, value);
    }

    /// Where a block of words of this control leads when it is done.
    ///
    /// Errors: [`Cause::TooDeep`], 32, if it calls and eight calls are open, or would run the
    /// program no time, as no call of a tape does; [`Cause::NoSequence`], 50, and
    /// [`Cause::IntoLoop`], 53, if it returns to a sequence number, as for a jump from the call, in
    /// the main program from the running block.
    pub(crate) fn route(&self, order: &BlockOrder, control: Control) -> Result<Route, Cause>
        ensures { (arguments : Option (List Var))
            → standing_behind order.now self.now arguments control ≡ route_end_or_cause self.now arguments result }
    {
        match control {
            Control::Call { program, repeats } => {
                if usize::from(self.place.depth()) == MOST_CALLS || repeats == 0 {
                    Err(Cause::TooDeep)
                } else {
                    Ok(Route::Call { program, repeats })
                }
            }
            Control::Back => Ok(Route::Back),
            Control::BackTo(number) => Ok(Route::BackTo(self.place.jump_back(order, number)?)),
            _ => Ok(Route::Next),
        }
    }

    /// Goes to the next block, from a wait as from any other block.
    pub(crate) fn pass(&mut self)
        requires { MayPass self.old.place }
        ensures { self.new ≡ standing_moved self.old (place_behind self.old.place) }
    {
        self.place.next();
    }

    /// Goes to another block of the running program.
    pub(crate) fn to(&mut self, block: u32)
        ensures { self.new ≡ standing_moved self.old (place_at block self.old.place) }
    {
        self.place.to(block);
    }

    /// Opens a call of a subprogram, whose local variables are the caller's; stays if eight calls
    /// are open, or if it is to run no time.
    fn call_subprogram(&mut self, program: u16, repeats: u16)
        requires { MayPass self.old.place }
        ensures { self.new ≡ route_end self.old None (Route.Call program repeats) }
    {
        if repeats > 0 && self.place.call(program, repeats).is_ok() {
            self.calls.push(CallKind::Subprogram);
        }
    }

    /// Opens a call of a macro, whose local variables begin as the arguments; stays if eight calls
    /// are open, or if the macro is to run no time.
    pub(crate) fn call_macro(&mut self, program: u16, repeats: u16, arguments: &[Var; LOCALS])
        requires { MayPass self.old.place }
        ensures { self.new ≡ route_end self.old (Some arguments.now) (Route.Call program repeats) }
    {
        if repeats > 0 && self.place.call(program, repeats).is_ok() {
            self.calls.push(CallKind::Macro);
            self.levels.open_level(arguments);
        }
    }

    /// Goes back, as M99 leads: to the next repeat, behind the call, or to the start of the main
    /// program.
    fn back(&mut self)
        ensures { self.new ≡ standing_of_return self.old }
    {
        let left = self.place.running().left;
        self.place.back();
        if left > 0 {
            repeat_call(self.calls.as_slice(), &mut self.levels);
        } else {
            close_call(&mut self.calls, &mut self.levels);
        }
    }

    /// Goes back to a block of the caller, in the main program to one of its own.
    fn back_to(&mut self, block: u32)
        ensures { self.new ≡ route_end self.old None (Route.BackTo block) }
    {
        self.place.back_to(block);
        close_call(&mut self.calls, &mut self.levels);
    }

    /// Goes where the route leads. A call is that of a subprogram; if eight are open it stays.
    pub(crate) fn go(&mut self, route: Route)
        requires { MayPass self.old.place }
        ensures { self.new ≡ route_end self.old None route }
    {
        match route {
            Route::Next => self.place.next(),
            Route::Call { program, repeats } => self.call_subprogram(program, repeats),
            Route::Back => self.back(),
            Route::BackTo(block) => self.back_to(block),
        }
    }
}
