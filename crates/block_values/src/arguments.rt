//! The arguments of a macro call (G65): which local variable an address sets, and to which value.
ghost use Rattle.std.specs.Prelude.{◌≡◌, ◌≤◌, IfSome, pos, int_div};
ghost use Rattle.block_values.specs.Arguments.{local_of, argument, with_argument, with_var, argument_with, arguments_with};
ghost use Rattle.block_values.specs.Seen.{outcome_of};

use crate::outcome::Stop;
use crate::words::computed;
use block_words::{FlowWord, WordValue, is_one_of};
use local_levels::LOCALS;
use macro_eval::{Eval, Scope, evaluate};
use nc_number::{Literal, Value, Var};

/// The local variable that an address of a macro call sets, from 1 to 26.
pub fn local_of(letter: u8) -> Option<u8>
    ensures local { result ≡ local_of letter }
    ensures range { IfSome result (λ i. (1 ≤ i) × (i ≤ 26)) }
{
    match letter {
        b'A' => Some(1),
        b'B' => Some(2),
        b'C' => Some(3),
        b'D' => Some(7),
        b'E' => Some(8),
        b'F' => Some(9),
        b'H' => Some(11),
        b'I' => Some(4),
        b'J' => Some(5),
        b'K' => Some(6),
        b'M' => Some(13),
        b'Q' => Some(17),
        b'R' => Some(18),
        b'S' => Some(19),
        b'T' => Some(20),
        b'U' => Some(21),
        b'V' => Some(22),
        b'W' => Some(23),
        b'X' => Some(24),
        b'Y' => Some(25),
        b'Z' => Some(26),
        _ => None,
    }
}

/// A thousandth of the value, the fraction of a millionth dropped.
fn thousandth(value: Value) -> Value
    ensures { result ≡ int_div value (pos 1000) }
{
    match Value::of(value.micro() / 1_000) {
        Some(part) => part,
        None => value,
    }
}

/// The value of an argument: a number without a point counts thousandths for X, Z, U, W, I, K and
/// R, and whole units for every other letter.
pub fn argument(letter: u8, literal: &Literal) -> Value
    ensures { result ≡ argument letter literal.now }
{
    if !literal.point && is_one_of(b"XZUWIKR", letter) {
        thousandth(literal.value())
    } else {
        literal.value()
    }
}

/// Gives the local variable of the address the value; an address that has none sets nothing.
fn set_argument(letter: u8, value: Value, arguments: &mut [Var; LOCALS])
    ensures { arguments.new ≡ with_argument (local_of letter) value arguments.old }
{
    if let Some(i) = local_of(letter) {
        arguments[i as usize - 1] = Var::Is(value);
    }
}

/// Gives the local variable of the address a computed value; a vacant one leaves it as it is.
fn set_computed(letter: u8, minus: bool, value: Var, arguments: &mut [Var; LOCALS])
    ensures { arguments.new ≡ with_var letter minus value arguments.old }
{
    match value {
        Var::Vacant => {}
        Var::Is(number) => {
            let counted = argument(letter, &computed(minus, number));
            set_argument(letter, counted, arguments);
        }
    }
}

/// Evaluates one argument and puts it into its local variable.
fn argument_taken<'a, S: Scope>(
    word: &FlowWord,
    scope: &S,
    arguments: &mut [Var; LOCALS],
    reads: &'a [Var],
) -> (Result<(), Stop>, &'a [Var])
    ensures { outcome_of (λ done. arguments.new) result.0 result.1.now
        ≡ argument_with (S.table scope.now) word.now.letter word.now.value arguments.old reads.now }
{
    let FlowWord { letter, value } = word;
    match value {
        WordValue::Fixed(literal) => {
            set_argument(*letter, argument(*letter, literal), arguments);
            (Ok(()), reads)
        }
        WordValue::Computed { minus, code } => {
            let (evaluated, left) = evaluate(code, scope, reads);
            match evaluated {
                Eval::Got(number) => {
                    set_computed(*letter, *minus, number, arguments);
                    (Ok(()), left)
                }
                Eval::Need(variable) => (Err(Stop::Needs(variable)), left),
                Eval::Fault(number) => (Err(Stop::fault(number)), left),
            }
        }
    }
}

/// Puts the arguments of a macro call into the local variables of its level, each evaluated before
/// the next, and answers the reads that are left: or the shared variable that must be read next, or
/// the first alarm. A vacant argument leaves its variable as it is.
///
/// Alarms: those of [`evaluate`].
pub fn arguments_taken<'a, S: Scope>(
    words: &[FlowWord],
    scope: &S,
    arguments: &mut [Var; LOCALS],
    reads: &'a [Var],
) -> (Result<(), Stop>, &'a [Var])
    ensures { outcome_of (λ done. arguments.new) result.0 result.1.now
        ≡ arguments_with (S.table scope.now) words.now arguments.old reads.now }
{
    let mut left = reads;
    for word in words {
        let (step, rest) = argument_taken(word, scope, arguments, left);
        left = rest;
        if let Err(stop) = step {
            return (Err(stop), left);
        }
    }
    (Ok(()), left)
}
