//! The stack of the evaluation of a macro expression: room for 16 values (`OPERANDS`, code.rt),
//! without any memory. running.rt and stepping.rt use it.
ghost use Rattle.std.specs.Prelude.{◌≡◌, ◌<◌, [], ◌∷◌, length};

use crate::code::OPERANDS;
use nc_number::Var;
use std::marker::Model;

/// The operands of an evaluation, the last one first.
#[derive(Drop)]
pub struct Operands {
    /// The places of the stack, the first operand first.
    values: [Var; OPERANDS],
    /// How many of them are in use.
    height: usize,
}

impl Model for Operands {
    ghost use Rattle.std.specs.Prelude.{◌≤◌, List, take, reverse};
    ghost use Rattle.nc_number.specs.declared.value.Var.{Var};
    ghost use Rattle.macro_eval.specs.declared.code.TheConstants.{OPERANDS};

    ghost Value = { List Var };

    ghost view = { λ stack. reverse (take stack.height stack.values) };

    ghost invariant = { λ stack. stack.height ≤ OPERANDS };
}

impl Operands {
    /// An empty stack.
    pub(crate) fn new() -> Operands
        ensures { result ≡ [] }
    {
        Operands {
            values: [Var::Vacant; OPERANDS],
            height: 0,
        }
    }

    /// Puts a value on top.
    pub(crate) fn push(&mut self, value: Var)
        requires { length self.old < OPERANDS }
        ensures { self.new ≡ value ∷ self.old }
    {
        self.values[self.height] = value;
        self.height += 1;
    }

    /// Takes the value on top.
    pub(crate) fn pop(&mut self) -> Var
        requires { 0 < length self.old }
        ensures { self.old ≡ result ∷ self.new }
    {
        self.height -= 1;
        self.values[self.height]
    }
}
