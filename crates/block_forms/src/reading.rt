//! A block read from its text, or the least of the refusals that hold of it. The definition is
//! `block_or_refusal` (specs/Forms.antt).
ghost use Rattle.std.specs.Prelude.{◌≡◌, ◌≤◌, IfOk, None, true};
ghost use Rattle.nc_number.specs.Answers.{GivesBy};
ghost use Rattle.nc_number.specs.declared.limits.TheConstants.{MOST_READS};
ghost use Rattle.nc_number.specs.Literals.{IsLiteral, behind_sign, has_minus, word_literal};
ghost use Rattle.macro_expr.specs.Answers.{expression_of, statement_of};
ghost use Rattle.macro_expr.specs.Limits.{variable_signs};
ghost use Rattle.macro_expr.specs.Tree.{sentence_of, variables_in, trees_of_sentence, IsInRange};
ghost use Rattle.block_words.specs.declared.dialect.Dialect.{Dialect};
ghost use Rattle.block_forms.specs.Refusals.{refusal_of};
ghost use Rattle.block_forms.specs.Controls.{control_of_words, control_of_sentence, waits_by_a_code};
ghost use Rattle.block_forms.specs.Forms.{fixed_value, computed_value, value_of, word_of, all_words, signs_in, has_many_variables, sentence_or_refusal, words_or_refusal, OfWords, OfSentence, form_at, block_or_refusal};
ghost use Rattle.block_forms.specs.Variables.{variables_of_value, variables_of_words};
ghost use Rattle.block_forms.specs.Blocks.{block_form};

use crate::block::FlowBlock;
use crate::body::FlowBody;
use crate::controls::control_of_statement;
use crate::fault::FormFault;
use crate::gathering::Gathered;
use crate::statement::FlowStatement;
use crate::words::FlowWords;
use block_words::{Dialect, FlowWord, FlowWordList, WordValue};
use macro_eval::{compile, compile_statement};
use macro_expr::{parse_expr, parse_statement};
use nc_number::{Cause, Failing, MOST_READS, is_literal, parse_word, unsigned};
use nc_text::{Block, Body, Word};
use std::alloc::Global;

/// Whether the text begins with a minus, which is then the word's own sign and not the
/// expression's.
fn is_minus(text: &[u8]) -> bool
    ensures { result ≡ has_minus text.now }
{
    matches!(text, [b'-', ..])
}

/// A value that is written out. It is refused for its digits alone; its range is asked later, with
/// the other words.
fn read_literal(text: &[u8]) -> Result<WordValue, Failing<FormFault>>
    requires { IsLiteral text.now }
    ensures exact { GivesBy (λ value. value) (λ fault. fault.number) result (fixed_value (word_literal text.now)) }
    ensures named { IfOk result (λ value. variables_of_value value ≡ 0) }
{
    match parse_word(text) {
        Ok(literal) => Ok(WordValue::Fixed(literal)),
        Err(_) => Err(Failing::Fault(FormFault::of(Cause::TooManyDigits))),
    }
}

/// A variable or an expression behind the word's own sign, as its code; its tree is dropped.
#[tactic(auto, using(crate::proofs::FewVariables::fewer_in_value))]
fn read_expression(alloc: Global, text: &[u8]) -> Result<WordValue, Failing<FormFault>>
    ensures exact { GivesBy (λ value. value) (λ fault. fault.number) result
        (computed_value (has_minus text.now) (expression_of (behind_sign text.now))) }
    ensures named { IfOk result (λ value. variables_of_value value ≤ variable_signs text.now) }
{
    let minus = is_minus(text);
    match parse_expr(alloc, unsigned(text)) {
        Ok(tree) => {
            let code = compile(alloc, &tree)?;
            Ok(WordValue::Computed { minus, code })
        }
        Err(Failing::Fault(fault)) => Err(Failing::Fault(FormFault {
            number: fault.number,
        })),
        Err(Failing::NoMemory) => Err(Failing::NoMemory),
    }
}

/// The value of a word: a literal, or an expression. What is neither is refused as an expression.
fn read_value(alloc: Global, text: &[u8]) -> Result<WordValue, Failing<FormFault>>
    ensures exact { GivesBy (λ value. value) (λ fault. fault.number) result (value_of text.now) }
    ensures named { IfOk result (λ value. variables_of_value value ≤ variable_signs text.now) }
{
    if is_literal(text) {
        read_literal(text)
    } else {
        read_expression(alloc, text)
    }
}

/// What a word says: its letter and its value, or the refusal of the value.
fn read_word(alloc: Global, word: &Word) -> Result<FlowWord, Failing<FormFault>>
    ensures exact { GivesBy (λ word. word) (λ fault. fault.number) result (word_of word.now) }
    ensures named { IfOk result (λ read. variables_of_value read.value ≤ variable_signs word.now.text) }
{
    match read_value(alloc, word.text.as_slice()) {
        Ok(value) => Ok(FlowWord {
            letter: word.letter,
            value,
        }),
        Err(fault) => Err(fault),
    }
}

/// What all words say, or the least number of the refusals of those that don't read.
fn read_all(alloc: Global, words: &[Word]) -> Result<FlowWordList, Failing<FormFault>>
    ensures exact { GivesBy (λ words. words) (λ fault. fault.number) result (all_words words.now) }
    ensures named { IfOk result (λ read. variables_of_words read ≤ signs_in words.now) }
{
    let mut gathered = Gathered::empty(alloc, words.len())?;
    for word in words {
        if gathered.add(read_word(alloc, word)).is_err() {
            return Err(Failing::NoMemory);
        }
    }
    gathered.finish()
}

/// How many signs of variables, `#`, the text has, those inside expressions too.
fn count_signs(text: &[u8]) -> usize
    ensures { result ≡ variable_signs text.now }
{
    text.iter().filter(|b| **b == b'#').count()
}

/// Whether the words name more variables than one block may read.
fn names_many_variables(words: &[Word]) -> bool
    ensures { result ≡ has_many_variables words.now }
{
    let mut room = MOST_READS;
    for word in words {
        let signs = count_signs(word.text.as_slice());
        if room < signs {
            return true;
        }
        room -= signs;
    }
    false
}

/// What the words of a block say, and what its codes make of them.
///
/// A block that is not allowed is refused with the least number of the refusals that hold of it: of
/// words that don't read 5 and 20 to 25, of the block's variables 25, and of what its words say 54
/// to 64.
pub fn read_words(
    alloc: Global,
    words: &[Word],
    dialect: &Dialect,
) -> Result<FlowWords, Failing<FormFault>>
    ensures exact { GivesBy (λ read. read.words) (λ fault. fault.number) result
        (words_or_refusal dialect.now words.now) }
    ensures dialect { IfOk result (λ read. read.dialect ≡ dialect.now) }
    ensures accepted { IfOk result (λ read. refusal_of read.dialect read.words ≡ None) }
    ensures few { IfOk result (λ read. variables_of_words read.words ≤ MOST_READS) }
{
    let list = match read_all(alloc, words) {
        Ok(list) => list,
        Err(fault) => return Err(fault),
    };
    if names_many_variables(words) {
        return Err(Failing::Fault(FormFault::of(Cause::TooManyVariables)));
    }
    let read = FlowWords::of(alloc, *dialect, list)?;
    match read.refusal() {
        Some(cause) => Err(Failing::Fault(FormFault::of(cause))),
        None => Ok(read),
    }
}

/// What a statement says.
///
/// It is refused if its text has no tree: with 5, 20 to 25, or 64 of a sequence number past 99,999.
pub fn read_statement(alloc: Global, text: &[u8]) -> Result<FlowStatement, Failing<FormFault>>
    ensures exact { GivesBy (λ read. sentence_of read.statement) (λ fault. fault.number) result
        (sentence_or_refusal (statement_of text.now)) }
    ensures ranges { IfOk result (λ read. IsInRange (sentence_of read.statement)) }
    ensures few { IfOk result (λ read. variables_in (trees_of_sentence (sentence_of read.statement)) ≤ MOST_READS) }
{
    match parse_statement(alloc, text) {
        Ok(statement) => {
            let codes = compile_statement(alloc, &statement)?;
            Ok(FlowStatement { statement, codes })
        }
        Err(Failing::Fault(fault)) => Err(Failing::Fault(FormFault {
            number: fault.number,
        })),
        Err(Failing::NoMemory) => Err(Failing::NoMemory),
    }
}

/// The block of a statement, with what it does to the order of blocks.
#[tactic(auto, using(crate::proofs::Accepted::sentence_allowed, crate::proofs::Accepted::sentence_waits))]
fn block_of_statement(line: u32, sequence: Option<u32>, statement: FlowStatement) -> FlowBlock
    requires ranges { IsInRange (sentence_of statement.statement) }
    requires few { variables_in (trees_of_sentence (sentence_of statement.statement)) ≤ MOST_READS }
    ensures form { block_form result ≡ form_at line sequence (OfSentence (sentence_of statement.statement))
        (control_of_sentence (sentence_of statement.statement)) }
    ensures waits { (dialect : Dialect) → waits_by_a_code dialect result.control ≡ true }
{
    let control = control_of_statement(&statement.statement);
    FlowBlock {
        line,
        sequence,
        body: FlowBody::Statement(statement),
        control,
    }
}

/// The block of words that are not refused, with what they do to the order of blocks.
#[tactic(auto, using(crate::proofs::Accepted::words_allowed, crate::proofs::Accepted::words_wait))]
fn block_of_words(line: u32, sequence: Option<u32>, words: FlowWords) -> FlowBlock
    requires accepted { refusal_of words.dialect words.words ≡ None }
    requires few { variables_of_words words.words ≤ MOST_READS }
    ensures form { block_form result ≡ form_at line sequence (OfWords words.dialect words.words)
        (control_of_words words.dialect words.words) }
    ensures waits { waits_by_a_code words.dialect result.control ≡ true }
{
    let control = words.control();
    FlowBlock {
        line,
        sequence,
        body: FlowBody::Words(words),
        control,
    }
}

/// What a block of the tape says and does to the order of blocks.
///
/// It is refused as its words are; a statement that does not read with 5, 20 to 25 or 64.
pub fn read_block(
    alloc: Global,
    block: &Block,
    dialect: &Dialect,
) -> Result<FlowBlock, Failing<FormFault>>
    ensures exact { GivesBy (λ read. block_form read) (λ fault. fault.number) result
        (block_or_refusal dialect.now block.now) }
    ensures waits { IfOk result (λ read. waits_by_a_code dialect.now read.control ≡ true) }
{
    match &block.body {
        Body::Words(words) => match read_words(alloc, words.as_slice(), dialect) {
            Ok(words) => Ok(block_of_words(block.line, block.sequence, words)),
            Err(fault) => Err(fault),
        },
        Body::Statement(text) => match read_statement(alloc, text.as_slice()) {
            Ok(statement) => Ok(block_of_statement(block.line, block.sequence, statement)),
            Err(fault) => Err(fault),
        },
    }
}
