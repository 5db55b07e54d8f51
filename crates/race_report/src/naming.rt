//! Which variables a block names, and which it may write, by its text alone. One whose number is
//! computed may be any. The definitions are those of named_vars.
//! meeting.rt and table.rt ask `does` of each block.
ghost use Rattle.std.specs.Prelude.{◌≡◌};
ghost use Rattle.macro_expr.specs.Tree.{variable_of, sentence_of, trees_of_sentence};
ghost use Rattle.named_vars.specs.Names.{names, may_be, some_names, sentence_may_write, sentence_names, word_names, words_name, body_names, body_may_write};
ghost use Rattle.race_report.specs.Reads.{may_read, some_read};
ghost use Rattle.race_report.specs.Lines.{does};

use crate::sought::Sought;
use block_forms::{FlowBlock, FlowBody, FlowStatement, FlowWord, WordValue};
use macro_eval::{Code, Instr};
use macro_expr::{Statement, VarRef};

/// Whether the instruction puts what the variable holds on the stack, or what a variable of a
/// computed number holds.
fn may_read(instr: &Instr, variable: u32) -> bool
    ensures { result ≡ may_read instr.now variable }
{
    match instr {
        Instr::Variable(number) => *number == variable,
        Instr::LookUp => true,
        _ => false,
    }
}

/// Whether one of the instructions may read the variable.
fn some_read(instrs: &[Instr], variable: u32) -> bool
    ensures { result ≡ some_read instrs.now variable }
{
    for instr in instrs {
        if may_read(instr, variable) {
            return true;
        }
    }
    false
}

/// Whether the expression names the variable: by its number, or by one that is computed.
fn names(code: &Code, variable: u32) -> bool
    ensures { result ≡ names code.now variable }
{
    some_read(code.instrs(), variable)
}

/// Whether the left side of an assignment may be the variable.
fn may_be(left: &VarRef, variable: u32) -> bool
    ensures { result ≡ may_be (variable_of left.now) variable }
{
    match left {
        VarRef::Fixed(number) => *number == variable,
        VarRef::Computed(_) => true,
    }
}

/// Whether the statement may write the variable, by itself or behind THEN.
fn may_write(statement: &Statement, variable: u32) -> bool
    ensures { result ≡ sentence_may_write (sentence_of statement.now) variable }
{
    match statement {
        Statement::Assign(left, _) | Statement::IfThen(_, left, _) => may_be(left, variable),
        _ => false,
    }
}

/// Whether one of the expressions names the variable.
fn some_names(codes: &[Code], variable: u32) -> bool
    ensures { result ≡ some_names codes.now variable }
{
    for code in codes {
        if names(code, variable) {
            return true;
        }
    }
    false
}

/// Whether the value of a word names the variable; a fixed one names none.
fn word_names(value: &WordValue, variable: u32) -> bool
    ensures { result ≡ word_names value.now variable }
{
    match value {
        WordValue::Fixed(_) => false,
        WordValue::Computed { code, .. } => names(code, variable),
    }
}

/// Whether one of the words names the variable.
fn words_name(words: &[FlowWord], variable: u32) -> bool
    ensures { result ≡ words_name words.now variable }
{
    for word in words {
        if word_names(&word.value, variable) {
            return true;
        }
    }
    false
}

/// Whether a statement names the variable, also on the left side of an assignment.
fn statement_names(statement: &FlowStatement, variable: u32) -> bool
    ensures { result ≡ sentence_names (sentence_of statement.now.statement) variable }
{
    may_write(&statement.statement, variable) || some_names(statement.codes.codes(), variable)
}

/// Whether anything in the block names the variable.
fn body_names(body: &FlowBody, variable: u32) -> bool
    ensures { result ≡ body_names body.now variable }
{
    match body {
        FlowBody::Words(words) => words_name(words.words.as_slice(), variable),
        FlowBody::Statement(statement) => statement_names(statement, variable),
    }
}

/// Whether the block may write the variable; words write none.
fn body_may_write(body: &FlowBody, variable: u32) -> bool
    ensures { result ≡ body_may_write body.now variable }
{
    match body {
        FlowBody::Words(_) => false,
        FlowBody::Statement(statement) => may_write(&statement.statement, variable),
    }
}

/// Whether the block does to the variable what is looked for.
pub(crate) fn does(sought: Sought, variable: u32, block: &FlowBlock) -> bool
    ensures { result ≡ does sought variable block.now }
{
    match sought {
        Sought::Writes => body_may_write(&block.body, variable),
        Sought::Names => body_names(&block.body, variable),
    }
}
