//! A block whose words this control knows but for some that change nothing here, or that has several
//! M codes: a block each for the M codes, in their order; the other words stand with the first.
ghost use Rattle.std.specs.Prelude.{◌≡◌, ◌++◌, OnOk, IfOk, count_by, false};
ghost use Rattle.nc_text.specs.declared.tape.Block.{Block};
ghost use Rattle.small_forms.specs.Codes.{is_machine_code, seen_behind, first_words, first_from, later_blocks, later_from, one_line, blocks_of, words_answer, body_answer, codes_form};
ghost use Rattle.small_forms.specs.Idle.{taste_of};

use crate::idle::{Taste, is_changed, kept_words, names_spindle};
use code_tables::System;
use nc_text::{Block, BlockList, Body, Word};
use plain_form::{
    FormAnswer, FormSettings, Scene, WrittenLine, WrittenLineList, plain_line, push_word,
};
use std::alloc::{AllocError, Global};

/// Whether the word is an M code.
fn is_machine_code(word: &Word) -> bool
    ensures { result ≡ is_machine_code word.now }
{
    word.letter == b'M'
}

/// Whether an M code was seen, this word included.
fn seen_behind(seen: bool, word: &Word) -> bool
    ensures { result ≡ seen_behind seen word.now }
{
    seen || is_machine_code(word)
}

/// Puts the word, unless it is an M code behind another.
fn push_first(
    alloc: Global,
    words: &mut Vec<Word>,
    seen: bool,
    word: &Word,
) -> Result<(), AllocError>
    ensures { OnOk result (words.new.items ≡ words.old.items ++ first_words seen word.now) }
{
    if seen && is_machine_code(word) {
        return Ok(());
    }
    push_word(alloc, words, word.letter, word.text.as_slice())
}

/// The words but for the M codes behind the first.
fn first_block(alloc: Global, words: &[Word]) -> Result<Vec<Word>, AllocError>
    ensures { IfOk result (λ first. first.items ≡ first_from false words.now) }
{
    let mut first = Vec::new(alloc);
    let mut seen = false;
    for word in words {
        push_first(alloc, &mut first, seen, word)?;
        seen = seen_behind(seen, word);
    }
    Ok(first)
}

/// Puts a block of the word, if it is an M code behind another.
fn push_later(
    alloc: Global,
    blocks: &mut Vec<Block>,
    seen: bool,
    word: &Word,
) -> Result<(), AllocError>
    ensures { OnOk result (blocks.new.items ≡ blocks.old.items ++ later_blocks seen word.now) }
{
    if !(seen && is_machine_code(word)) {
        return Ok(());
    }
    let mut words = Vec::new(alloc);
    push_word(alloc, &mut words, word.letter, word.text.as_slice())?;
    blocks.push(plain_line(words))?;
    Ok(())
}

/// Puts the blocks of the M codes behind the first.
fn push_laters(alloc: Global, blocks: &mut Vec<Block>, words: &[Word]) -> Result<(), AllocError>
    ensures { OnOk result (blocks.new.items ≡ blocks.old.items ++ later_from false words.now) }
{
    let mut seen = false;
    for word in words {
        push_later(alloc, blocks, seen, word)?;
        seen = seen_behind(seen, word);
    }
    Ok(())
}

/// The line of these blocks as an answer.
fn one_line(alloc: Global, blocks: Vec<Block>) -> Result<FormAnswer, AllocError>
    ensures { IfOk result (λ answer. answer ≡ one_line blocks.items) }
{
    let mut lines = Vec::new(alloc);
    lines.push(WrittenLine {
        blocks: BlockList::of(blocks),
    })?;
    Ok(FormAnswer::Written(WrittenLineList::of(lines)))
}

/// The blocks of words with M codes: none for no words.
fn blocks_of(alloc: Global, words: &[Word]) -> Result<Vec<Block>, AllocError>
    ensures { IfOk result (λ blocks. blocks.items ≡ blocks_of words.now) }
{
    let mut blocks = Vec::new(alloc);
    if words.is_empty() {
        return Ok(blocks);
    }
    let first = first_block(alloc, words)?;
    blocks.push(plain_line(first))?;
    push_laters(alloc, &mut blocks, words)?;
    Ok(blocks)
}

/// What words are written as.
fn codes_answer(alloc: Global, words: &[Word]) -> Result<FormAnswer, AllocError>
    ensures { IfOk result (λ answer. answer ≡ one_line (blocks_of words.now)) }
{
    let blocks = blocks_of(alloc, words)?;
    one_line(alloc, blocks)
}

/// How many M codes there are.
fn count_codes(words: &[Word]) -> usize
    ensures { result ≡ count_by is_machine_code words.now }
{
    words.iter().filter(|word| is_machine_code(word)).count()
}

/// What words are written as, if they change by `taste` or have several M codes.
fn words_answer(alloc: Global, taste: &Taste<'_>, words: &[Word]) -> Result<FormAnswer, AllocError>
    ensures { IfOk result (λ answer. answer ≡ words_answer (taste_of taste.now) words.now) }
{
    if !is_changed(taste, words) && count_codes(words) < 2 {
        return Ok(FormAnswer::NotMine);
    }
    let kept = kept_words(alloc, taste, words)?;
    codes_answer(alloc, &kept)
}

/// What a block is written as.
fn body_answer(
    alloc: Global,
    system: System,
    idle: &[u8],
    body: &Body,
) -> Result<FormAnswer, AllocError>
    ensures { IfOk result (λ answer. answer ≡ body_answer system idle.now body.now) }
{
    match body {
        Body::Words(words) => {
            let words = words.as_slice();
            let beside = names_spindle(words);
            let taste = Taste {
                system,
                idle,
                beside,
            };
            words_answer(alloc, &taste, words)
        }
        Body::Statement(_) => Ok(FormAnswer::NotMine),
    }
}

/// The form of a block that has words which change nothing here, G31, or two or more M codes.
pub fn codes_form(
    alloc: Global,
    blocks: &[Block],
    place: usize,
    scene: &Scene,
    settings: &FormSettings,
) -> Result<FormAnswer, AllocError>
    ensures { IfOk result (λ answer. answer ≡ codes_form blocks.now place scene.now settings.now) }
{
    match blocks.get(place) {
        Some(block) => body_answer(alloc, scene.system, settings.idle.as_slice(), &block.body),
        None => Ok(FormAnswer::NotMine),
    }
}
