//! Macro statements, read from left to right: assignments, jumps, loops. Each function gives what
//! it read and the text after it. parse.rt calls `statement_at`.
ghost use Rattle.macro_expr.specs.Tree.{tree_of, variable_of, test_of, aim_of, sentence_of};
ghost use Rattle.nc_number.specs.Answers.{Gives};
ghost use Rattle.macro_expr.specs.Statements.{relation_at, condition_at, test_at, target_at, loop_at, assignment_at, branch_at, if_at, while_at, statement_for, statement_at};

use crate::reading::{bracket_at, digits_at, inside, variable_at, word_at};
use crate::stop::Stop;
use crate::tree::{Cond, Expr, Rel, Statement, Target, VarRef};
use crate::words::{
    Keyword, begins_with_digit, behind, digits, leading_keyword, loop_of, relation,
};
use nc_number::{Failing, LAST_SEQUENCE, MOST_BRACKETS};
use std::alloc::Global;

/// The comparison that stands at the head, such as `EQ`.
#[tactic(auto, unfolding(crate::specs::Statements::relation_at))]
fn relation_at(text: &[u8]) -> Result<(Rel, &[u8]), Failing<Stop>>
    ensures { Gives (λ x. (x.0, x.1.now)) result (relation_at text.now) }
{
    match relation(text) {
        Some((rel, rest)) => Ok((rel, rest)),
        None => Err(Failing::Fault(Stop::Expression)),
    }
}

/// A condition in brackets: two expressions that are compared.
#[tactic(auto, unfolding(crate::specs::Statements::condition_at))]
fn condition_at(alloc: Global, text: &[u8]) -> Result<(Cond, &[u8]), Failing<Stop>>
    ensures { Gives (λ x. (test_of x.0, x.1.now)) result (condition_at text.now) }
{
    let text = word_at(text, b"[")?;
    let (left, text) = inside(alloc, MOST_BRACKETS, text)?;
    let (rel, text) = relation_at(text)?;
    let (right, text) = inside(alloc, MOST_BRACKETS, text)?;
    let text = word_at(text, b"]")?;
    Ok((Cond { left, rel, right }, text))
}

/// The condition after IF or WHILE; if it does not read, reading stops because there is none,
/// whatever the cause.
#[tactic(auto, unfolding(crate::specs::Statements::test_at))]
fn test_at(alloc: Global, text: &[u8]) -> Result<(Cond, &[u8]), Failing<Stop>>
    ensures { Gives (λ x. (test_of x.0, x.1.now)) result (test_at text.now) }
{
    match condition_at(alloc, text) {
        Ok(found) => Ok(found),
        Err(Failing::NoMemory) => Err(Failing::NoMemory),
        Err(Failing::Fault(_)) => Err(Failing::Fault(Stop::Condition)),
    }
}

/// Where a jump leads: a sequence number, a variable, or an expression in brackets.
#[tactic(auto, unfolding(crate::specs::Statements::target_at))]
fn target_at(alloc: Global, text: &[u8]) -> Result<(Target, &[u8]), Failing<Stop>>
    ensures { Gives (λ x. (aim_of x.0, x.1.now)) result (target_at text.now) }
{
    if begins_with_digit(text) {
        let (number, rest) = digits_at(text)?;
        if number > LAST_SEQUENCE {
            return Err(Failing::Fault(Stop::Sequence));
        }
        return Ok((Target::Fixed(number), rest));
    }
    if matches!(text, [b'#', ..]) {
        let (variable, rest) = variable_at(alloc, MOST_BRACKETS, text)?;
        return Ok((Target::Computed(Expr::Look(variable)), rest));
    }
    let (tree, rest) = bracket_at(alloc, MOST_BRACKETS, text)?;
    Ok((Target::Computed(tree), rest))
}

/// The number of a loop: 1, 2 or 3.
#[tactic(auto, unfolding(crate::specs::Statements::loop_at))]
fn loop_at(text: &[u8]) -> Result<(u8, &[u8]), Failing<Stop>>
    ensures { Gives (λ x. (x.0, x.1.now)) result (loop_at text.now) }
{
    let (number, rest) = digits(text);
    match loop_of(number) {
        Some(m) => Ok((m, rest)),
        None => Err(Failing::Fault(Stop::Loop)),
    }
}

/// A variable and what it is to hold.
#[tactic(auto, unfolding(crate::specs::Statements::assignment_at))]
fn assignment_at(alloc: Global, text: &[u8]) -> Result<((VarRef, Expr), &[u8]), Failing<Stop>>
    ensures { Gives (λ x. ((variable_of x.0.0, tree_of x.0.1), x.1.now)) result (assignment_at text.now) }
{
    let (variable, text) = variable_at(alloc, MOST_BRACKETS, text)?;
    let text = word_at(text, b"=")?;
    let (tree, text) = inside(alloc, MOST_BRACKETS + 1, text)?;
    Ok(((variable, tree), text))
}

/// What stands after the condition of an IF: GOTO and a target, or THEN and an assignment.
#[tactic(auto, unfolding(crate::specs::Statements::branch_at))]
fn branch_at(
    alloc: Global,
    condition: Cond,
    text: &[u8],
) -> Result<(Statement, &[u8]), Failing<Stop>>
    ensures { Gives (λ x. (sentence_of x.0, x.1.now)) result (branch_at (test_of condition) text.now) }
{
    if let Some(rest) = behind(text, b"GOTO") {
        let (target, rest) = target_at(alloc, rest)?;
        return Ok((Statement::IfGoto(condition, target), rest));
    }
    let text = word_at(text, b"THEN")?;
    let ((variable, tree), text) = assignment_at(alloc, text)?;
    Ok((Statement::IfThen(condition, variable, tree), text))
}

/// What stands behind IF: a condition, and then a jump or an assignment.
#[tactic(auto, unfolding(crate::specs::Statements::if_at))]
fn if_at(alloc: Global, text: &[u8]) -> Result<(Statement, &[u8]), Failing<Stop>>
    ensures { Gives (λ x. (sentence_of x.0, x.1.now)) result (if_at text.now) }
{
    let (condition, text) = test_at(alloc, text)?;
    branch_at(alloc, condition, text)
}

/// What stands behind WHILE: a condition, and the DO of a loop.
#[tactic(auto, unfolding(crate::specs::Statements::while_at))]
fn while_at(alloc: Global, text: &[u8]) -> Result<(Statement, &[u8]), Failing<Stop>>
    ensures { Gives (λ x. (sentence_of x.0, x.1.now)) result (while_at text.now) }
{
    let (condition, text) = test_at(alloc, text)?;
    let text = word_at(text, b"DO")?;
    let (number, text) = loop_at(text)?;
    Ok((Statement::WhileDo(condition, number), text))
}

/// What stands behind the word that begins a statement.
fn statement_for(
    alloc: Global,
    word: Keyword,
    text: &[u8],
) -> Result<(Statement, &[u8]), Failing<Stop>>
    ensures { Gives (λ x. (sentence_of x.0, x.1.now)) result (statement_for word text.now) }
{
    match word {
        Keyword::If => if_at(alloc, text),
        Keyword::While => while_at(alloc, text),
        Keyword::Goto => {
            let (target, text) = target_at(alloc, text)?;
            Ok((Statement::Goto(target), text))
        }
        Keyword::Do => {
            let (number, text) = loop_at(text)?;
            Ok((Statement::DoOnly(number), text))
        }
        Keyword::End => {
            let (number, text) = loop_at(text)?;
            Ok((Statement::EndLoop(number), text))
        }
    }
}

/// A statement at the head of the text, and what stands after it.
#[tactic(auto, unfolding(crate::specs::Statements::statement_at))]
pub(crate) fn statement_at(alloc: Global, text: &[u8]) -> Result<(Statement, &[u8]), Failing<Stop>>
    ensures { Gives (λ x. (sentence_of x.0, x.1.now)) result (statement_at text.now) }
{
    if matches!(text, [b'#', ..]) {
        let ((variable, tree), text) = assignment_at(alloc, text)?;
        return Ok((Statement::Assign(variable, tree), text));
    }
    match leading_keyword(text) {
        Some((word, text)) => statement_for(alloc, word, text),
        None => Err(Failing::Fault(Stop::Expression)),
    }
}
