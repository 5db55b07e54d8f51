//! The codes of a macro statement, in the order in which they are evaluated.
ghost use Rattle.std.specs.Prelude.{◌≡◌, ◌≤◌, [], ◌∷◌, ◌++◌, length, IfOk, OnOk};
ghost use Rattle.macro_expr.specs.Tree.{tree_of, variable_of, test_of, aim_of, sentence_of, trees_of_sentence, evaluated_name, evaluated_test, evaluated_aim};

use crate::code::{Code, compile};
use macro_expr::{Cond, Expr, Statement, Target, VarRef};
use nc_number::NoMemory;
use std::alloc::Global;
use std::marker::Model;

/// The codes of what a statement evaluates, in their order. Contracts see their trees.
#[derive(Debug, Drop)]
pub struct CodeList {
    /// The codes, the one that is evaluated first at the head.
    codes: Vec<Code>,
}

impl Model for CodeList {
    ghost use Rattle.std.specs.Prelude.{List};
    ghost use Rattle.std.specs.Coded.{code_by, coded_list};
    ghost use denote.Enum.Declared.{row};
    ghost use Rattle.macro_expr.specs.Tree.{Tree};
    ghost use Rattle.macro_eval.specs.contracts.code.Instr.{the_type as instr_type};
    ghost use Rattle.macro_eval.specs.declared.code.Instr.{Instr};
    ghost use Rattle.macro_eval.specs.Postfix.{postfix, tree_of_code, tree_is};

    ghost Value = { List Tree };

    ghost coded = { coded_list
        (code_by (List Instr) (coded_list (row instr_type).coded) postfix tree_of_code tree_is) };

    ghost view = { λ list. list.codes.items };
}

impl CodeList {
    /// The codes, the one that is evaluated first at the head.
    pub fn codes(&self) -> &[Code]
        ensures { result.now ≡ self.now }
    {
        &self.codes
    }
}

/// The codes of a statement: of a condition left and right, then of a calculated number on the left
/// side, then of the value; of a jump that of its calculated target.
///
/// The errors are those of [`compile`].
pub fn compile_statement(alloc: Global, statement: &Statement) -> Result<CodeList, NoMemory>
    ensures { IfOk result (λ list. list ≡ trees_of_sentence (sentence_of statement.now)) }
{
    let mut codes = Vec::with_capacity(alloc, count(statement))?;
    put_statement(alloc, &mut codes, statement)?;
    Ok(CodeList { codes })
}

/// How many codes the statement has.
fn count(statement: &Statement) -> usize
    ensures { result ≡ length (trees_of_sentence (sentence_of statement.now)) }
{
    match statement {
        Statement::Assign(variable, _) => count_name(variable) + 1,
        Statement::Goto(target) => count_target(target),
        Statement::IfGoto(_, target) => 2 + count_target(target),
        Statement::IfThen(_, variable, _) => 2 + count_name(variable) + 1,
        Statement::WhileDo(_, _) => 2,
        Statement::DoOnly(_) | Statement::EndLoop(_) => 0,
    }
}

/// How many codes the number of a variable takes: 1 if it is calculated, else 0.
fn count_name(variable: &VarRef) -> usize
    ensures count { result ≡ length (evaluated_name (variable_of variable.now)) }
    ensures bound { result ≤ 1 }
{
    match variable {
        VarRef::Fixed(_) => 0,
        VarRef::Computed(_) => 1,
    }
}

/// How many codes the target of a jump takes: 1 if it is calculated, else 0.
fn count_target(target: &Target) -> usize
    ensures count { result ≡ length (evaluated_aim (aim_of target.now)) }
    ensures bound { result ≤ 1 }
{
    match target {
        Target::Fixed(_) => 0,
        Target::Computed(_) => 1,
    }
}

/// Adds the code of each expression of the statement, in the order of evaluation. The errors are
/// those of `compile`.
fn put_statement(
    alloc: Global,
    codes: &mut Vec<Code>,
    statement: &Statement,
) -> Result<(), NoMemory>
    ensures { OnOk result (codes.new.items ≡ codes.old.items ++ trees_of_sentence (sentence_of statement.now)) }
{
    match statement {
        Statement::Assign(variable, tree) => put_assignment(alloc, codes, variable, tree),
        Statement::Goto(target) => put_target(alloc, codes, target),
        Statement::IfGoto(condition, target) => {
            put_condition(alloc, codes, condition)?;
            put_target(alloc, codes, target)
        }
        Statement::IfThen(condition, variable, tree) => {
            put_condition(alloc, codes, condition)?;
            put_assignment(alloc, codes, variable, tree)
        }
        Statement::WhileDo(condition, _) => put_condition(alloc, codes, condition),
        Statement::DoOnly(_) | Statement::EndLoop(_) => Ok(()),
    }
}

/// Adds the codes of both sides of a comparison. The errors are those of `compile`.
fn put_condition(alloc: Global, codes: &mut Vec<Code>, condition: &Cond) -> Result<(), NoMemory>
    ensures { OnOk result (codes.new.items ≡ codes.old.items ++ evaluated_test (test_of condition.now)) }
{
    put(alloc, codes, &condition.left)?;
    put(alloc, codes, &condition.right)
}

/// Adds the code of the variable's number, if it is calculated, and then that of the value. The
/// errors are those of `compile`.
fn put_assignment(
    alloc: Global,
    codes: &mut Vec<Code>,
    variable: &VarRef,
    tree: &Expr,
) -> Result<(), NoMemory>
    ensures { OnOk result
        (codes.new.items ≡ codes.old.items ++ (evaluated_name (variable_of variable.now) ++ tree_of tree.now ∷ [])) }
{
    put_name(alloc, codes, variable)?;
    put(alloc, codes, tree)
}

/// Adds the code of a variable's number, if it is calculated. The errors are those of `compile`.
fn put_name(alloc: Global, codes: &mut Vec<Code>, variable: &VarRef) -> Result<(), NoMemory>
    ensures { OnOk result (codes.new.items ≡ codes.old.items ++ evaluated_name (variable_of variable.now)) }
{
    match variable {
        VarRef::Fixed(_) => Ok(()),
        VarRef::Computed(number) => put(alloc, codes, number),
    }
}

/// Adds the code of a jump's target, if it is calculated. The errors are those of `compile`.
fn put_target(alloc: Global, codes: &mut Vec<Code>, target: &Target) -> Result<(), NoMemory>
    ensures { OnOk result (codes.new.items ≡ codes.old.items ++ evaluated_aim (aim_of target.now)) }
{
    match target {
        Target::Fixed(_) => Ok(()),
        Target::Computed(number) => put(alloc, codes, number),
    }
}

/// Adds the code of one expression. The errors are those of `compile`.
fn put(alloc: Global, codes: &mut Vec<Code>, tree: &Expr) -> Result<(), NoMemory>
    ensures { OnOk result (codes.new.items ≡ codes.old.items ++ tree_of tree.now ∷ []) }
{
    let code = compile(alloc, tree)?;
    codes.push(code)?;
    Ok(())
}
