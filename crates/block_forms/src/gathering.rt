//! The words of a block, gathered one by one with the least refusal of those that don't read. For
//! this crate alone: the loop of reading.rt fills it.
ghost use Rattle.std.specs.Prelude.{◌≡◌, ◌≤◌, ◌+◌, List, ℕ, Result, OnOk, IfOk};
ghost use Rattle.nc_number.specs.Answers.{GivesBy};
ghost use Rattle.block_words.specs.declared.word.FlowWord.{FlowWord};
ghost use Rattle.block_forms.specs.Variables.{variables_of_value, variables_of_words};
ghost use Rattle.block_forms.specs.Forms.{lesser, word_and_rest, answer_so_far};

use crate::fault::FormFault;
use block_words::{FlowWord, FlowWordList};
use nc_number::{Failing, NoMemory};
use std::alloc::Global;

/// The words of a block that were read so far, and the least number of the refusals of those that
/// don't read.
#[derive(Drop)]
pub(crate) struct Gathered {
    /// The words that were read.
    words: Vec<FlowWord>,
    /// The least number of a refusal, if a word doesn't read.
    least: Option<u8>,
}

/// The lesser one of two numbers, or the second if there is no first.
fn lesser(before: Option<u8>, number: u8) -> u8
    ensures { result ≡ lesser before number }
{
    match before {
        Some(before) if before <= number => before,
        _ => number,
    }
}

impl Gathered {
    ghost use Rattle.std.specs.Prelude.{[], None};

    /// No words, with room for so many. The error is that memory ran out.
    pub(crate) fn empty(alloc: Global, words: usize) -> Result<Gathered, NoMemory>
        ensures words { IfOk result (λ it. it.words.items ≡ []) }
        ensures least { IfOk result (λ it. it.least ≡ None) }
    {
        Ok(Gathered {
            words: Vec::with_capacity(alloc, words)?,
            least: None,
        })
    }

    /// Takes one word more. What was gathered with any rest is what was gathered before with the
    /// word and the rest.
    #[tactic(auto, using(crate::proofs::WordByWord::one_that_reads, crate::proofs::WordByWord::one_that_does_not, crate::proofs::FewVariables::one_more_named))]
    pub(crate) fn add(&mut self, word: Result<FlowWord, Failing<FormFault>>) -> Result<(), NoMemory>
        ensures exact { (due : Result FlowWord ℕ) (rest : Result (List FlowWord) ℕ)
            → GivesBy (λ word. word) (λ fault. fault.number) word due
            → OnOk result (answer_so_far self.new.words.items self.new.least rest
            ≡ answer_so_far self.old.words.items self.old.least (word_and_rest due rest)) }
        ensures named { (signs : ℕ) → IfOk word (λ word. variables_of_value word.value ≤ signs)
            → OnOk result (variables_of_words self.new.words.items
            ≤ variables_of_words self.old.words.items + signs) }
    {
        match word {
            Ok(word) => self.words.push(word)?,
            Err(Failing::Fault(fault)) => self.least = Some(lesser(self.least, fault.number)),
            Err(Failing::NoMemory) => return Err(NoMemory),
        }
        Ok(())
    }

    /// The words, or the least number of a refusal.
    pub(crate) fn finish(self) -> Result<FlowWordList, Failing<FormFault>>
        ensures exact { GivesBy (λ words. words) (λ fault. fault.number) result
            (answer_so_far self.words.items self.least (Ok [])) }
        ensures words { IfOk result (λ words. words ≡ self.words.items) }
    {
        let Gathered { words, least } = self;
        match least {
            Some(number) => Err(Failing::Fault(FormFault { number })),
            None => Ok(FlowWordList::of(words)),
        }
    }
}
