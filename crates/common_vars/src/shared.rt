//! The common variables that the paths share, with every write of the run. The laws at the end speak
//! of the list of writes.
ghost use Rattle.std.specs.Prelude.{◌≡◌, ◌↔◌, ◌+◌, ◌<◌, ◌≤◌, ℕ, List, [], ◌∷◌, ◌++◌, if◌then◌else◌, All, IsTrue, IfOk, IsOk, OnOk};
ghost use Rattle.common_vars.specs.declared.links.Write.{Write};
ghost use Rattle.common_vars.specs.Writes.{IsShared, is_write_of, value_after};

use crate::links::{Node, Write, linked, value_at};
use crate::own::NUMBERS;
use nc_number::{NoMemory, Var};
use std::alloc::Global;
use std::marker::Model;

/// The common variables that the paths share, as the list of their writes.
#[derive(Debug, Drop)]
pub struct Shared {
    /// How many variables from #100 on are shared.
    shared100: u32,
    /// How many variables from #500 on are shared.
    shared500: u32,
    /// The writes so far, earliest first.
    nodes: Vec<Node>,
    /// The latest node of each variable, at its number.
    latest: Vec<Option<usize>>,
}

impl Model for Shared {
    ghost use Rattle.std.specs.Prelude.{◌≤◌, ◌-◌, map, length, vec_capacity};
    ghost use Rattle.common_vars.specs.Writes.{Writes};
    ghost use Rattle.common_vars.specs.Links.{AreLinked, AreEnds};

    ghost Value = { Writes };

    ghost view = { λ shared. record {
      shared100 = shared.shared100;
      shared500 = shared.shared500;
      writes = map (λ node. node.write) shared.nodes.items;
      room = vec_capacity shared.nodes - length shared.nodes.items;
    } };

    ghost invariant = { λ shared.
        (shared.shared100 ≤ 100) × (shared.shared500 ≤ 500)
        × AreLinked shared.nodes.items × AreEnds shared.nodes.items shared.latest.items };
}

/// Whether both paths share `#v`, if the first `shared100` variables from `#100` on and the
/// first `shared500` from `#500` on are shared.
pub fn is_shared(shared100: u32, shared500: u32, v: u32) -> bool
    ensures { IsTrue result ↔ IsShared shared100 shared500 v }
{
    (v >= 100 && v - 100 < shared100) || (v >= 500 && v - 500 < shared500)
}

impl Shared {
    /// Shared variables of which none was written. The first `shared100` from `#100` on and the
    /// first `shared500` from `#500` on are shared. The only error is out of memory.
    pub fn new(alloc: Global, shared100: u32, shared500: u32) -> Result<Shared, NoMemory>
        requires lower { shared100 ≤ 100 }
        requires upper { shared500 ≤ 500 }
        ensures hundreds { IfOk result (λ shared. shared.shared100 ≡ shared100) }
        ensures upper { IfOk result (λ shared. shared.shared500 ≡ shared500) }
        ensures unwritten { IfOk result (λ shared. shared.writes ≡ []) }
    {
        let latest = vec![in alloc; None; NUMBERS]?;
        Ok(Shared {
            shared100,
            shared500,
            nodes: Vec::new(alloc),
            latest,
        })
    }

    /// Whether `#v` is shared.
    pub fn holds(&self, v: u32) -> bool
        ensures { IsTrue result ↔ IsShared self.now.shared100 self.now.shared500 v }
    {
        is_shared(self.shared100, self.shared500, v)
    }

    /// Makes room for `n` more writes. The only error is out of memory.
    pub fn reserve(&mut self, n: usize) -> Result<(), NoMemory>
        ensures writes { self.new.writes ≡ self.old.writes }
        ensures hundreds { self.new.shared100 ≡ self.old.shared100 }
        ensures upper { self.new.shared500 ≡ self.old.shared500 }
        ensures room { OnOk result (n ≤ self.new.room) }
        ensures enough { n ≤ self.old.room → IsOk result }
        ensures no_less { self.old.room ≤ self.new.room }
    {
        self.nodes.reserve(n)?;
        Ok(())
    }

    /// Lets `#v` hold `to` from the record on with which there are `stamp` records.
    pub fn write(&mut self, stamp: u32, v: u32, to: Var)
        requires room { 0 < self.old.room }
        requires shared { IsShared self.old.shared100 self.old.shared500 v }
        requires in_order { All (λ w. w.stamp ≤ stamp) self.old.writes }
        ensures written { self.new.writes ≡ self.old.writes ++ record { stamp = stamp; variable = v; value = to } ∷ [] }
        ensures hundreds { self.new.shared100 ≡ self.old.shared100 }
        ensures upper { self.new.shared500 ≡ self.old.shared500 }
        ensures room_left { self.new.room + 1 ≡ self.old.room }
    {
        let write = Write {
            stamp,
            variable: v,
            value: to,
        };
        let place = self.nodes.len();
        self.nodes
            .push_reserved(linked(&self.nodes, self.latest[v as usize], write));
        self.latest[v as usize] = Some(place);
    }

    /// What `#v` holds after the first `stamp` records.
    pub fn at(&self, stamp: u32, v: u32) -> Var
        requires { IsShared self.now.shared100 self.now.shared500 v }
        ensures { result ≡ value_after stamp v self.now.writes }
    {
        value_at(&self.nodes, self.latest[v as usize], stamp, v)
    }
}

/// A write is seen by its variable from its stamp on, and by nothing else.
pub fn a_write_is_seen_from_its_stamp_on()
    ensures { (writes : List Write) (w : Write) (k v : ℕ)
        → value_after k v (writes ++ w ∷ []) ≡ (if is_write_of k v w then w.value else value_after k v writes) }
{}

/// What a variable holds after the first k records is the same, whatever later records write.
pub fn later_writes_change_no_earlier_value()
    ensures { (writes later : List Write) (k v : ℕ) → All (λ w. k < w.stamp) later
        → value_after k v (writes ++ later) ≡ value_after k v writes }
{}

/// After the record of the last write no value changes, however many records come.
pub fn nothing_changes_behind_the_last_write()
    ensures { (writes : List Write) (last k v : ℕ) → All (λ w. w.stamp ≤ last) writes → last ≤ k
        → value_after k v writes ≡ value_after last v writes }
{}
