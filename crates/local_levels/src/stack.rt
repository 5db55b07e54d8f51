//! The levels of local variables `#1` to `#33` of one path.
ghost use Rattle.std.specs.Prelude.{◌≡◌, ◌+◌, ◌<◌, ◌≤◌, ◌∷◌, [], length};
ghost use Rattle.local_levels.specs.Stack.{base_level, opened_level, local, with_local, reopened_stack, stack_below};

use arrayvec::ArrayVec;
use nc_number::Var;
use std::marker::Model;

/// How many local variables a level has: `#1` to `#33`.
pub const LOCALS: usize = 33;

/// How many levels may be open above the base level.
pub const MOST_OPEN: usize = 8;

/// One level of local variables. `#i` stands at index `i - 1`.
#[derive(Clone, Copy, Debug)]
pub struct Level {
    /// What the level was opened with.
    pub arguments: [Var; LOCALS],
    /// What its variables hold now.
    pub values: [Var; LOCALS],
}

impl Level {
    /// A level that begins with these arguments.
    fn opened(arguments: &[Var; LOCALS]) -> Level
        ensures { result ≡ opened_level arguments.now }
    {
        let mut level = Level {
            arguments: [Var::Vacant; LOCALS],
            values: [Var::Vacant; LOCALS],
        };
        level.arguments.copy_from_slice(arguments);
        level.values.copy_from_slice(arguments);
        level
    }
}

impl Default for Level {
    /// A level whose variables are all vacant.
    fn default() -> Level
        ensures { result ≡ base_level }
    {
        Level::opened(&[Var::Vacant; LOCALS])
    }
}

/// The levels of one path: the running level, and those that wait for it below.
#[derive(Debug, Drop)]
pub struct Levels {
    /// The level whose variables the path reads and writes.
    running: Level,
    /// The levels that wait for it, the base level first.
    below: ArrayVec<Level, MOST_OPEN>,
}

impl Model for Levels {
    ghost use Rattle.std.specs.Prelude.{List, ◌∷◌, reverse};
    ghost use Rattle.local_levels.specs.declared.stack.Level.{Level};

    ghost Value = { List Level };

    ghost view = { λ levels. levels.running ∷ reverse levels.below.items };
}

impl Levels {
    /// The base level alone, all of it vacant.
    pub fn new() -> Levels
        ensures { result ≡ base_level ∷ [] }
    {
        Levels {
            running: Level::opened(&[Var::Vacant; LOCALS]),
            below: ArrayVec::new(),
        }
    }

    /// Opens a level whose variables hold `arguments`, as a macro call does.
    pub fn open_level(&mut self, arguments: &[Var; LOCALS])
        requires { length self.old ≤ MOST_OPEN }
        ensures { self.new ≡ opened_level arguments.now ∷ self.old }
    {
        self.below.push(self.running);
        self.running = Level::opened(arguments);
    }

    /// Opens the running level anew, with the arguments that it was opened with, as each repeat
    /// of a macro call does.
    pub fn repeat_level(&mut self)
        requires { 1 < length self.old }
        ensures { self.new ≡ reopened_stack self.old }
    {
        self.running = Level::opened(&self.running.arguments);
    }

    /// Closes the running level, as the return of a macro call does: the variables of the level
    /// below are as they were before the call.
    pub fn close_level(&mut self)
        requires { 1 < length self.old }
        ensures { self.new ≡ stack_below self.old }
    {
        self.running = self.below.remove(self.below.len() - 1);
    }

    /// What `#i` of the running level holds.
    pub fn get(&self, i: u8) -> Var
        requires from_one { 1 ≤ i }
        requires to_last { i ≤ LOCALS }
        ensures { result ≡ local i self.now }
    {
        let place = i as usize - 1;
        self.running.values[place]
    }

    /// Lets `#i` of the running level hold `v`.
    pub fn set(&mut self, i: u8, v: Var)
        requires from_one { 1 ≤ i }
        requires to_last { i ≤ LOCALS }
        ensures { self.new ≡ with_local i v self.old }
    {
        self.running.values[i as usize - 1] = v;
    }

    /// How many levels are open above the base level.
    pub fn depth(&self) -> u8
        ensures counted { result + 1 ≡ length self.now }
        ensures limit { result ≤ MOST_OPEN }
    {
        self.below.len() as u8
    }
}
