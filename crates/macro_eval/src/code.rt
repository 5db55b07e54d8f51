//! A macro expression as code for a stack, and its making from a tree of macro_expr. running.rt runs
//! it.
ghost use Rattle.std.specs.Prelude.{◌≡◌, ◌-◌, ◌<◌, nat_le, ◌∷◌, reverse, true, IfOk, OnOk};
ghost use Rattle.macro_expr.specs.Tree.{tree_of, right_depth};
ghost use Rattle.macro_eval.specs.Postfix.{postfix, code_before, fits};

use macro_expr::{Expr, Fun, Op, VarRef};
use nc_number::{NoMemory, Value};
use std::alloc::Global;
use std::marker::Model;

/// How many operands the stack of an evaluation holds. An expression of the tape, whose brackets
/// nest five deep, needs 13 at most.
pub(crate) const OPERANDS: usize = 16;

/// One instruction of postfix code.
#[derive(Clone, Copy, Debug, PartialEq, Eq)]
pub enum Instr {
    /// Puts the number on the stack.
    Number(Value),
    /// Puts what the variable holds on the stack.
    Variable(u32),
    /// Takes a number, and puts what the variable of that number holds.
    LookUp,
    /// Takes a value, and puts it with a sign; `true` is minus.
    Sign(bool),
    /// Takes a value, and puts the function of it.
    Call(Fun),
    /// Takes two values, and puts what the operator makes of them.
    Join(Op),
}

/// An expression as postfix code, whose operands the stack can hold. Contracts see its tree.
#[derive(Debug, Drop)]
pub struct Code {
    /// The instructions, first to last.
    instrs: Vec<Instr>,
}

impl Model for Code {
    ghost use Rattle.std.specs.Prelude.{List};
    ghost use Rattle.std.specs.Coded.{code_by, coded_list};
    ghost use denote.Enum.Declared.{row};
    ghost use Rattle.macro_expr.specs.Tree.{Tree};
    ghost use Rattle.macro_eval.specs.contracts.code.Instr.{the_type as instr_type};
    ghost use Rattle.macro_eval.specs.declared.code.Instr.{Instr};
    ghost use Rattle.macro_eval.specs.Postfix.{postfix, tree_of_code, tree_is, IsCode};

    ghost Value = { Tree };

    /// A tree is told by its instructions, of which it is got back.
    ghost coded = { code_by (List Instr) (coded_list (row instr_type).coded) postfix tree_of_code tree_is };

    ghost view = { λ code. tree_of_code code.instrs.items };

    ghost invariant = { λ code. IsCode code.instrs.items };
}

impl Code {
    /// Its instructions, first to last.
    pub fn instrs(&self) -> &[Instr]
        ensures all { result.now ≡ postfix self.now }
        ensures runs { fits OPERANDS result.now 0 ≡ true }
    {
        &self.instrs
    }
}

/// The code of an expression.
///
/// `NoMemory`: out of memory. An expression whose right operands stand 16 deep or deeper inside one
/// another is refused in the same way; none that the tape can write is.
#[tactic(auto, using(crate::specs::Postfix::tree_is))]
pub fn compile(alloc: Global, tree: &Expr) -> Result<Code, NoMemory>
    ensures { IfOk result (λ code. code ≡ tree_of tree.now) }
{
    if !is_shallow(tree, OPERANDS - 1) {
        return Err(NoMemory);
    }
    let instrs = postfix(alloc, tree)?;
    Ok(Code { instrs })
}

/// The instructions of the code, in just the room that they need.
fn postfix(alloc: Global, tree: &Expr) -> Result<Vec<Instr>, NoMemory>
    requires { right_depth (tree_of tree.now) < OPERANDS }
    ensures { IfOk result (λ instrs. instrs.items ≡ postfix (tree_of tree.now)) }
{
    let mut written = Vec::new(alloc);
    emit_backwards(&mut written, tree)?;
    written.reverse();
    Ok(Vec::from_slice(alloc, &written)?)
}

/// Whether at most `room` right operands of the tree stand inside one another.
///
/// It calls itself on right operands alone, `room` deep at most.
fn is_shallow(tree: &Expr, room: usize) -> bool
    ensures { result ≡ nat_le (right_depth (tree_of tree.now)) room }
{
    let mut part = tree;
    loop {
        match part {
            Expr::Lit(_) | Expr::Look(VarRef::Fixed(_)) => return true,
            Expr::Look(VarRef::Computed(inner)) | Expr::Sign(_, inner) | Expr::Call(_, inner) =>
                part = inner,
            Expr::Two(_, left, right) => {
                if room == 0 || !is_shallow(right, room - 1) {
                    return false;
                }
                part = left;
            }
        }
    }
}

/// Adds the code of the tree after the instructions, the last instruction first. The only error is
/// out of memory.
///
/// It calls itself on right operands alone, as deep as they stand inside one another.
fn emit_backwards(instrs: &mut Vec<Instr>, tree: &Expr) -> Result<(), NoMemory>
    requires { right_depth (tree_of tree.now) < OPERANDS }
    ensures { OnOk result (reverse instrs.new.items ≡ code_before (tree_of tree.now) (reverse instrs.old.items)) }
{
    let mut part = tree;
    loop {
        match part {
            Expr::Lit(value) => return put(instrs, Instr::Number(*value)),
            Expr::Look(VarRef::Fixed(n)) => return put(instrs, Instr::Variable(*n)),
            Expr::Look(VarRef::Computed(inner)) => {
                put(instrs, Instr::LookUp)?;
                part = inner;
            }
            Expr::Sign(minus, inner) => {
                put(instrs, Instr::Sign(*minus))?;
                part = inner;
            }
            Expr::Call(function, inner) => {
                put(instrs, Instr::Call(*function))?;
                part = inner;
            }
            Expr::Two(op, left, right) => {
                put(instrs, Instr::Join(*op))?;
                emit_backwards(instrs, right)?;
                part = left;
            }
        }
    }
}

/// Pushes an instruction, which will come before those that were pushed earlier. The only error is
/// out of memory.
fn put(instrs: &mut Vec<Instr>, instr: Instr) -> Result<(), NoMemory>
    ensures { OnOk result (reverse instrs.new.items ≡ instr ∷ reverse instrs.old.items) }
{
    instrs.push(instr)?;
    Ok(())
}
