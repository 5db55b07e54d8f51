//! The common variables of one path. Those that both paths share are in shared.rt.
ghost use Rattle.std.specs.Prelude.{◌≡◌, ◌↔◌, ℕ, List, IsTrue, IfOk, unwrap_or};
ghost use Rattle.nc_number.specs.declared.value.Var.{Var};
ghost use Rattle.common_vars.specs.Common.{IsCommon, AreCommon, none_written, value_of, with_value, after_writes, latest_of};

use nc_number::{NoMemory, Var};
use std::alloc::Global;
use std::marker::Model;

/// One more than the greatest number of a common variable.
pub(crate) const NUMBERS: usize = 1000;

/// Whether `v` names a common variable: `#100` to `#199`, or `#500` to `#999`.
pub fn is_common(v: u32) -> bool
    ensures { IsTrue result ↔ IsCommon v }
{
    matches!(v, 100..=199 | 500..=999)
}

/// The common variables of one path, each at its own number.
#[derive(Debug, Drop)]
pub struct Own {
    /// What each variable holds, at its number; 1000 of them.
    values: Vec<Var>,
}

impl Model for Own {
    ghost use Rattle.std.specs.Prelude.{◌≡◌, List, length};
    ghost use Rattle.nc_number.specs.declared.value.Var.{Var};

    ghost Value = { List Var };

    ghost view = { λ own. own.values.items };

    ghost invariant = { λ own. length own.values.items ≡ 1000 };
}

impl Own {
    /// The variables of a path, all of them vacant. The only error is out of memory.
    pub fn new(alloc: Global) -> Result<Own, NoMemory>
        ensures { IfOk result (λ own. own ≡ none_written) }
    {
        let values = vec![in alloc; Var::Vacant; NUMBERS]?;
        Ok(Own { values })
    }

    /// What `#v` holds.
    pub fn get(&self, v: u32) -> Var
        requires { IsCommon v }
        ensures { result ≡ value_of v self.now }
    {
        self.values[v as usize]
    }

    /// Lets `#v` hold `to`.
    pub fn set(&mut self, v: u32, to: Var)
        requires { IsCommon v }
        ensures { self.new ≡ with_value v to self.old }
    {
        self.values[v as usize] = to;
    }
}

/// The common variables are their list of writes: each holds what the latest write of it wrote,
/// and is vacant if it was never written.
pub fn each_variable_holds_its_latest_write()
    ensures { (writes : List (ℕ × Var)) (v : ℕ) → IsCommon v → AreCommon writes
        → value_of v (after_writes writes none_written) ≡ unwrap_or (latest_of v writes) Var.Vacant }
{}
