//! The words of a block, evaluated one by one in the order of the text and taken into its values.
ghost use Rattle.std.specs.Prelude.{◌≡◌, Result, Ok, Err, IfOk, IfErr, OnOk};
ghost use Rattle.nc_number.specs.declared.cause.Cause.{Cause};
ghost use Rattle.block_values.specs.Values.{Values as Said, nothing_said, computed_literal, taken_var, word_with, words_with};
ghost use Rattle.block_values.specs.Within.{AreLengthsSaid};
ghost use Rattle.block_values.specs.Outcomes.{reading_none};
ghost use Rattle.block_values.specs.Seen.{values_seen, sense_seen, outcome_of};

use crate::outcome::Stop;
use crate::sense::Sense;
use crate::values::{Values, take_word};
use block_words::{FlowWord, WordValue};
use macro_eval::{Eval, Scope, evaluate};
use nc_number::{Cause, Literal, Value, Var, neg};

/// A computed number, behind the word's own sign, counts as one with a point.
pub(crate) fn computed(minus: bool, value: Value) -> Literal
    ensures { result ≡ computed_literal minus value }
{
    Literal {
        value: if minus { neg(value) } else { value },
        point: true,
    }
}

/// Takes a word whose value was computed; a vacant one counts as absent.
fn take_var(
    sense: &Sense,
    letter: u8,
    minus: bool,
    value: Var,
    said: &mut Values,
) -> Result<(), Cause>
    ensures taken { OnOk result
        (taken_var (sense_seen sense.now) letter minus value (values_seen said.old) ≡ Ok (values_seen said.new)) }
    ensures refused { IfErr result
        (λ cause. taken_var (sense_seen sense.now) letter minus value (values_seen said.old) ≡ Err cause) }
    ensures within { AreLengthsSaid said.old → AreLengthsSaid said.new }
{
    match value {
        Var::Vacant => Ok(()),
        Var::Is(number) => take_word(sense, letter, &computed(minus, number), said),
    }
}

/// The answer of a step that took no read: its cause, if it has one, is an alarm.
fn answer<'a>(step: Result<(), Cause>, left: &'a [Var]) -> (Result<(), Stop>, &'a [Var])
    ensures { (word : Result Said Cause) (said : Said) → OnOk step (word ≡ Ok said)
        → IfErr step (λ cause. word ≡ Err cause)
        → outcome_of (λ done. said) result.0 result.1.now ≡ reading_none word left.now }
{
    match step {
        Ok(()) => (Ok(()), left),
        Err(cause) => (Err(Stop::of(cause)), left),
    }
}

/// Evaluates one word and takes it into the values.
fn word_taken<'a, S: Scope>(
    word: &FlowWord,
    sense: &Sense,
    scope: &S,
    said: &mut Values,
    reads: &'a [Var],
) -> (Result<(), Stop>, &'a [Var])
    ensures within { AreLengthsSaid said.old → AreLengthsSaid said.new }
    ensures said { outcome_of (λ done. values_seen said.new) result.0 result.1.now
        ≡ word_with (S.table scope.now) (sense_seen sense.now) word.now.letter word.now.value
        (values_seen said.old) reads.now }
{
    let FlowWord { letter, value } = word;
    match value {
        WordValue::Fixed(literal) => answer(take_word(sense, *letter, literal, said), reads),
        WordValue::Computed { minus, code } => {
            let (evaluated, left) = evaluate(code, scope, reads);
            match evaluated {
                Eval::Got(value) => answer(take_var(sense, *letter, *minus, value, said), left),
                Eval::Need(variable) => (Err(Stop::Needs(variable)), left),
                Eval::Fault(number) => (Err(Stop::fault(number)), left),
            }
        }
    }
}

/// What the words of a block say, each evaluated and converted before the next, and the reads that
/// are left: or the shared variable that must be read next, or the first alarm.
///
/// Alarms: those of [`evaluate`], 56 of I, K and R that mean nothing, and 64 of a number out of the
/// range of its word.
pub fn words_taken<'a, S: Scope>(
    words: &[FlowWord],
    sense: &Sense,
    scope: &S,
    reads: &'a [Var],
) -> (Result<Values, Stop>, &'a [Var])
    ensures within { IfOk result.0 AreLengthsSaid }
    ensures said { outcome_of values_seen result.0 result.1.now
        ≡ words_with (S.table scope.now) (sense_seen sense.now) words.now nothing_said reads.now }
{
    let mut said = Values::nothing();
    let mut left = reads;
    for word in words {
        let (step, rest) = word_taken(word, sense, scope, &mut said, left);
        left = rest;
        if let Err(stop) = step {
            return (Err(stop), left);
        }
    }
    (Ok(said), left)
}
