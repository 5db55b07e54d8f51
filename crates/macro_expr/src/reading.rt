//! Macro expressions, read from left to right: a function for each rule of the grammar, which gives
//! what it read and the text after it. Its functions call one another, as deep as brackets nest:
//! `levels` counts the brackets that may still open. parse.rt and statements.rt read with it.
ghost use Rattle.std.specs.Prelude.{◌-◌, ◌<◌, Ok};
ghost use Rattle.macro_expr.specs.Tree.{tree_of, variable_of, Joined};
ghost use Rattle.nc_number.specs.Answers.{Gives};
ghost use Rattle.macro_expr.specs.Reading.{word_at, literal_of, number_at, digits_at, bracket_at, variable_behind, variable_at, function_at, prim_at, signed_at, product_at, operand_at, chain_at, sum_at, expression_inside};

use crate::stop::Stop;
use crate::tree::{Expr, Op, VarRef};
use crate::words::{
    Rank, begins_with_digit, behind, digits, function_of, letters, number_bytes, operator, sign,
};
use nc_number::{Failing, Value, is_literal, parse_word};
use std::alloc::Global;

/// The text after the word, which must stand here.
#[tactic(auto, unfolding(crate::specs::Reading::word_at))]
pub(crate) fn word_at<'a>(text: &'a [u8], word: &[u8]) -> Result<&'a [u8], Failing<Stop>>
    ensures { Gives (λ rest. rest.now) result (word_at word.now text.now) }
{
    match behind(text, word) {
        Some(rest) => Ok(rest),
        None => Err(Failing::Fault(Stop::Expression)),
    }
}

/// The value that digits write, with a point or without; reading stops if it is no literal, or one
/// of too many digits.
#[tactic(auto, unfolding(crate::specs::Reading::literal_of))]
fn literal_of(digits: &[u8]) -> Result<Value, Failing<Stop>>
    ensures { Gives (λ value. value) result (literal_of digits.now) }
{
    if !is_literal(digits) {
        return Err(Failing::Fault(Stop::Expression));
    }
    match parse_word(digits) {
        Ok(literal) => Ok(literal.value),
        Err(_) => Err(Failing::Fault(Stop::Expression)),
    }
}

/// A number that is written out, with a point or without and without a sign.
#[tactic(auto, unfolding(crate::specs::Reading::number_at))]
fn number_at(text: &[u8]) -> Result<(Expr, &[u8]), Failing<Stop>>
    ensures { Gives (λ x. (tree_of x.0, x.1.now)) result (number_at text.now) }
{
    let (number, rest) = number_bytes(text);
    let value = literal_of(number)?;
    Ok((Expr::Lit(value), rest))
}

/// A whole number without sign and point.
#[tactic(auto, unfolding(crate::specs::Reading::digits_at))]
pub(crate) fn digits_at(text: &[u8]) -> Result<(u32, &[u8]), Failing<Stop>>
    ensures { Gives (λ x. (x.0, x.1.now)) result (digits_at text.now) }
{
    let (number, rest) = digits(text);
    let value = literal_of(number)?;
    Ok(((value.micro().unsigned_abs() / 1_000_000) as u32, rest))
}

/// Both expressions with the operator between them.
fn joined(alloc: Global, op: Op, left: Expr, right: Expr) -> Result<Expr, Failing<Stop>>
    ensures { Gives (λ e. tree_of e) result (Ok (Joined op (tree_of left) (tree_of right))) }
{
    Ok(Expr::Two(op, Box::new(alloc, left)?, Box::new(alloc, right)?))
}

/// An expression in brackets, which count as one of `levels` open ones.
#[cycle(reading)]
#[tactic(auto, unfolding(crate::specs::Reading::bracket_at))]
pub(crate) fn bracket_at(
    alloc: Global,
    levels: u32,
    text: &[u8],
) -> Result<(Expr, &[u8]), Failing<Stop>>
    ensures { Gives (λ x. (tree_of x.0, x.1.now)) result (bracket_at (expression_inside levels) text.now) }
{
    let text = word_at(text, b"[")?;
    let (tree, text) = inside(alloc, levels, text)?;
    let text = word_at(text, b"]")?;
    Ok((tree, text))
}

/// A variable: `#` and its number, or `#` and an expression in brackets.
#[cycle(reading)]
#[tactic(auto, unfolding(crate::specs::Reading::variable_at, crate::specs::Reading::variable_behind))]
pub(crate) fn variable_at(
    alloc: Global,
    levels: u32,
    text: &[u8],
) -> Result<(VarRef, &[u8]), Failing<Stop>>
    ensures { Gives (λ x. (variable_of x.0, x.1.now)) result (variable_at (expression_inside levels) text.now) }
{
    let text = word_at(text, b"#")?;
    if begins_with_digit(text) {
        let (number, text) = digits_at(text)?;
        return Ok((VarRef::Fixed(number), text));
    }
    let (tree, text) = bracket_at(alloc, levels, text)?;
    Ok((VarRef::Computed(Box::new(alloc, tree)?), text))
}

/// A function and its brackets.
#[cycle(reading)]
#[tactic(auto, unfolding(crate::specs::Reading::function_at))]
fn function_at(alloc: Global, levels: u32, text: &[u8]) -> Result<(Expr, &[u8]), Failing<Stop>>
    ensures { Gives (λ x. (tree_of x.0, x.1.now)) result (function_at (expression_inside levels) text.now) }
{
    let (name, text) = letters(text);
    let Some(function) = function_of(name) else {
        return Err(Failing::Fault(Stop::Function));
    };
    let (tree, text) = bracket_at(alloc, levels, text)?;
    Ok((Expr::Call(function, Box::new(alloc, tree)?), text))
}

/// What an operator joins: a number, a variable, a function, or an expression in brackets.
#[cycle(reading)]
#[tactic(auto, unfolding(crate::specs::Reading::prim_at))]
fn prim_at(alloc: Global, levels: u32, text: &[u8]) -> Result<(Expr, &[u8]), Failing<Stop>>
    ensures { Gives (λ x. (tree_of x.0, x.1.now)) result (prim_at (expression_inside levels) text.now) }
{
    match text {
        [b'#', ..] => {
            let (variable, text) = variable_at(alloc, levels, text)?;
            Ok((Expr::Look(variable), text))
        }
        [b'[', ..] => bracket_at(alloc, levels, text),
        [b'A'..=b'Z', ..] => function_at(alloc, levels, text),
        _ => number_at(text),
    }
}

/// The first operand of a sum: with a sign, if there is one.
#[cycle(reading)]
#[tactic(auto, unfolding(crate::specs::Reading::signed_at))]
fn signed_at(alloc: Global, levels: u32, text: &[u8]) -> Result<(Expr, &[u8]), Failing<Stop>>
    ensures { Gives (λ x. (tree_of x.0, x.1.now)) result (signed_at (expression_inside levels) text.now) }
{
    let Some((minus, text)) = sign(text) else {
        return prim_at(alloc, levels, text);
    };
    let (tree, text) = prim_at(alloc, levels, text)?;
    Ok((Expr::Sign(minus, Box::new(alloc, tree)?), text))
}

/// A product: operands with `*`, `/`, AND and MOD between them, or one alone.
#[cycle(reading)]
#[tactic(auto, unfolding(crate::specs::Reading::product_at))]
fn product_at(alloc: Global, levels: u32, text: &[u8]) -> Result<(Expr, &[u8]), Failing<Stop>>
    ensures { Gives (λ x. (tree_of x.0, x.1.now)) result (product_at (expression_inside levels) text.now) }
{
    let (first, text) = prim_at(alloc, levels, text)?;
    chain_at(alloc, Rank::Product, levels, first, text)
}

/// What stands between the operators of this rank: products in a sum, single operands in a product.
#[cycle(reading)]
fn operand_at(
    alloc: Global,
    rank: Rank,
    levels: u32,
    text: &[u8],
) -> Result<(Expr, &[u8]), Failing<Stop>>
    ensures { Gives (λ x. (tree_of x.0, x.1.now)) result (operand_at rank (expression_inside levels) text.now) }
{
    match rank {
        Rank::Product => prim_at(alloc, levels, text),
        Rank::Sum => product_at(alloc, levels, text),
    }
}

/// The operators of this rank and what they join to `first`, from left to right.
#[cycle(reading)]
fn chain_at<'a>(
    alloc: Global,
    rank: Rank,
    levels: u32,
    first: Expr,
    text: &'a [u8],
) -> Result<(Expr, &'a [u8]), Failing<Stop>>
    ensures { Gives (λ x. (tree_of x.0, x.1.now)) result
        (chain_at rank (expression_inside levels) (tree_of first) text.now) }
{
    let mut left = first;
    let mut rest = text;
    for _round in 0..text.len() {
        let Some((op, operand)) = operator(rank, rest) else {
            return Ok((left, rest));
        };
        let (right, behind) = operand_at(alloc, rank, levels, operand)?;
        left = joined(alloc, op, left, right)?;
        rest = behind;
    }
    Ok((left, rest))
}

/// A sum: an expression whose brackets may nest `levels` deep.
#[cycle(reading)]
#[tactic(auto, unfolding(crate::specs::Reading::sum_at))]
fn sum_at(alloc: Global, levels: u32, text: &[u8]) -> Result<(Expr, &[u8]), Failing<Stop>>
    ensures { Gives (λ x. (tree_of x.0, x.1.now)) result (sum_at (expression_inside levels) text.now) }
{
    let (first, text) = signed_at(alloc, levels, text)?;
    let (product, text) = chain_at(alloc, Rank::Product, levels, first, text)?;
    chain_at(alloc, Rank::Sum, levels, product, text)
}

/// An expression whose brackets may nest `levels - 1` deep; with `levels` 0 there is none.
#[cycle(reading)]
#[tactic(auto, unfolding(crate::specs::Reading::expression_inside))]
pub(crate) fn inside(
    alloc: Global,
    levels: u32,
    text: &[u8],
) -> Result<(Expr, &[u8]), Failing<Stop>>
    ensures { Gives (λ x. (tree_of x.0, x.1.now)) result (expression_inside levels text.now) }
{
    if levels == 0 {
        return Err(Failing::Fault(Stop::Expression));
    }
    sum_at(alloc, levels - 1, text)
}
