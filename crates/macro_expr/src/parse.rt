//! From the text of a macro expression or statement to its tree, or to the least refusal that holds
//! of it: the public functions of this crate. Tests do too.
ghost use Rattle.std.specs.Prelude.{◌≡◌, ◌≤◌, ◌==◌, ℕ, List, false, length, IfOk, Ok, Err, if◌then◌else◌};
ghost use Rattle.std.specs.List.{All};
ghost use Rattle.nc_number.specs.declared.fault.Failing.TheVariants.{Fault};
ghost use Rattle.macro_expr.specs.declared.stop.Stop.TheVariants.{Expression};
ghost use Rattle.macro_expr.specs.Tree.{Tree, Sentence, tree_of, sentence_of, right_depth, variables, variables_in, trees_of_sentence, IsInRange};
ghost use Rattle.macro_expr.specs.Grammar.{IsExpression, IsStatement};
ghost use Rattle.nc_number.specs.Answers.{Gives};
ghost use Rattle.macro_expr.specs.Statements.{expression_at, statement_at, whole_reading};
ghost use Rattle.macro_expr.specs.Limits.{clean_text, variable_signs, refusal_of, answer_to};
ghost use Rattle.macro_expr.specs.Answers.{HasTree, HasSentence, expression_of, statement_of};

use crate::limits::{cleaned, has_deep_brackets, has_long_number, has_many_variables};
use crate::reading::inside;
use crate::statements::statement_at;
use crate::stop::Stop;
use crate::tree::{Expr, ExprFault, Statement};
use nc_number::{Cause, Failing, MOST_BRACKETS};
use std::alloc::Global;

/// The refusal of a text whose reading stops for this cause: the least of those that hold, 20 only
/// if there is no other.
fn refusal_of(text: &[u8], stop: Stop) -> ExprFault
    ensures { result ≡ refusal_of text.now stop }
{
    if has_long_number(text) {
        return ExprFault::of(Cause::TooManyDigits);
    }
    if has_deep_brackets(text) {
        return ExprFault::of(Cause::TooManyBrackets);
    }
    stop.refusal(has_many_variables(text))
}

/// The answer for a cleaned text, by what reading made of it.
fn answer<T: Drop>(text: &[u8], read: Result<T, Failing<Stop>>) -> Result<T, Failing<ExprFault>>
    ensures { result ≡ answer_to text.now read }
{
    match read {
        Ok(_) if has_many_variables(text) => Err(Failing::Fault(ExprFault::of(
            Cause::TooManyVariables,
        ))),
        Ok(tree) => Ok(tree),
        Err(Failing::Fault(stop)) => Err(Failing::Fault(refusal_of(text, stop))),
        Err(Failing::NoMemory) => Err(Failing::NoMemory),
    }
}

/// What was read, if nothing stands after it; else the text is no expression or statement.
fn alone<T: Drop>(tree: T, rest: &[u8]) -> Result<T, Failing<Stop>>
    ensures { result ≡ (if length rest.now == 0 then Ok tree else Err (Fault Expression)) }
{
    if rest.is_empty() {
        Ok(tree)
    } else {
        Err(Failing::Fault(Stop::Expression))
    }
}

/// The tree of a cleaned text that is one expression, or why reading stops.
fn read_expression(alloc: Global, text: &[u8]) -> Result<Expr, Failing<Stop>>
    ensures { Gives (λ tree. tree_of tree) result (whole_reading (expression_at text.now)) }
{
    let (tree, rest) = inside(alloc, MOST_BRACKETS + 1, text)?;
    alone(tree, rest)
}

/// The tree of a cleaned text that is one statement, or why reading stops.
fn read_statement(alloc: Global, text: &[u8]) -> Result<Statement, Failing<Stop>>
    ensures { Gives (λ tree. sentence_of tree) result (whole_reading (statement_at text.now)) }
{
    let (tree, rest) = statement_at(alloc, text)?;
    alone(tree, rest)
}

/// The tree of an expression, or the least refusal of its text.
fn answer_expression(alloc: Global, text: &[u8]) -> Result<Expr, Failing<ExprFault>>
    ensures { Gives (λ tree. tree_of tree) result (expression_of text.now) }
{
    let text = cleaned(alloc, text)?;
    let read = read_expression(alloc, &text);
    answer(&text, read)
}

/// The tree of a statement, or the least refusal of its text.
fn answer_statement(alloc: Global, text: &[u8]) -> Result<Statement, Failing<ExprFault>>
    ensures { Gives (λ tree. sentence_of tree) result (statement_of text.now) }
{
    let text = cleaned(alloc, text)?;
    let read = read_statement(alloc, &text);
    answer(&text, read)
}

/// The tree of an expression, all of the text.
///
/// Spaces, tabs and comments are left out, and lower case letters are read as upper case. A text
/// that has a tree and names no more than [`MOST_READS`] variables gets it. Of several refusals the
/// least number is given, 20 only where there is no other: 5, 21 and 25 are conditions of the whole
/// text, and the others are that of the first place where reading from left to right stops.
pub fn parse_expr(alloc: Global, text: &[u8]) -> Result<Expr, Failing<ExprFault>>
    // The tree is the one that the grammar gives the text, which names no more variables than a
    // block may read.
    ensures found { IfOk result (λ tree. HasTree text.now (tree_of tree)) }

    // Such a text gets its tree, unless memory runs out.
    ensures only { (tree : Tree) → HasTree text.now tree → Gives (λ tree. tree_of tree) result (Ok tree) }

    // Which refusal it is.
    ensures exact { Gives (λ tree. tree_of tree) result (expression_of text.now) }

    // Right operands stand in one another twelve deep at most: two in the whole, and two in each of
    // five brackets.
    ensures shallow { IfOk result (λ tree. right_depth (tree_of tree) ≤ 12) }

    // The tree names no more variables than the text.
    ensures named { IfOk result (λ tree. variables (tree_of tree) ≤ variable_signs (clean_text false text.now)) }
{
    answer_expression(alloc, text)
}

/// The tree of a statement, all of the text: what a block holds in place of words.
///
/// It reads the text, and answers of several refusals, as [`parse_expr`] does.
pub fn parse_statement(alloc: Global, text: &[u8]) -> Result<Statement, Failing<ExprFault>>
    // The tree is the one that the grammar gives the text, which names no more variables than a
    // block may read.
    ensures found { IfOk result (λ tree. HasSentence text.now (sentence_of tree)) }

    // Such a text gets its tree, unless memory runs out.
    ensures only { (tree : Sentence) → HasSentence text.now tree → Gives (λ tree. sentence_of tree) result (Ok tree) }

    // Which refusal it is.
    ensures exact { Gives (λ tree. sentence_of tree) result (statement_of text.now) }

    // In each expression of it, right operands stand in one another twelve deep at most; and all
    // its expressions together name no more variables than the text.
    ensures shallow { IfOk result (λ tree. All (λ e. right_depth e ≤ 12) (trees_of_sentence (sentence_of tree))) }
    ensures named { IfOk result
        (λ tree. variables_in (trees_of_sentence (sentence_of tree)) ≤ variable_signs (clean_text false text.now)) }

    // A loop number is 1, 2 or 3, and a sequence number that is written out at most 99,999.
    ensures ranges { IfOk result (λ tree. IsInRange (sentence_of tree)) }
{
    answer_statement(alloc, text)
}

/// A law: no text has two trees, as an expression or as a statement.
pub fn no_text_has_two_trees()
    ensures expressions { (text : List ℕ) (a b : Tree) → IsExpression text a → IsExpression text b → a ≡ b }
    ensures statements { (text : List ℕ) (a b : Sentence) → IsStatement text a → IsStatement text b → a ≡ b }
{}
