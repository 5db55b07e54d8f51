//! From three texts to the meetings of a pair and what was taken on trust, or to the pair's one
//! refusal: the answer of `waits`.
ghost use Rattle.std.specs.Prelude.{◌≡◌, ◌∷◌, ◌<◌, ◌^◌, ℕ, List, length, Ok, IfOk, IfErr};
ghost use Rattle.block_order.specs.Answers.{IfFault};
ghost use Rattle.cell_settings.specs.Cell.{settings_of};
ghost use Rattle.cell_settings.specs.View.{view};
ghost use Rattle.label_list.specs.Accepted.{IsAcceptedPair};
ghost use Rattle.label_list.specs.Lists.{path_labels};
ghost use Rattle.nc_verify.specs.Verdict.{IsPairRefusal, dialect_in};
ghost use Rattle.wait_verify.specs.declared.standing.Standing.{Standing};
ghost use Rattle.wait_verify.specs.declared.switches.TheConstants.{LAST_POSITION};
ghost use Rattle.wait_verify.specs.Asked.{question_of, at};
ghost use Rattle.wait_verify.specs.Hangings.{hangings_to};
ghost use Rattle.open_order.specs.Basis.{trust_view};
ghost use Rattle.open_order.specs.Trusted.{no_trust, with_tape};
ghost use Rattle.wait_verify.specs.Verdict.{Judged, IsToldAt, IsRefusalAt, IsStandingAt, IsToldRefusal, HasOthers, IsLaterRefusal, with_hangings, IsTold, IsRefusalOf};

use crate::hangings::hangings;
use crate::pair::WaitPair;
use crate::standing::Standing;
use crate::switches::{LAST_POSITION, free_switches, is_position, skips_at};
use crate::tape::{OrderedTape, ordered_tape};
use block_forms::Dialect;
use cell_settings::Settings;
use nc_number::{Both, Failing, NoMemory, Path};
use nc_text::Tape;
use nc_verify::{Refusal, meet, settings_of};
use open_order::{Outside, Premises, Trust, add_tape, no_trust};
use std::alloc::Global;

/// How the tapes are read under these settings, and which programs they may lack.
fn premises_of(settings: &Settings, outside: Option<Outside>) -> Premises
    ensures dialect { result.dialect ≡ dialect_in (view settings.now) }
    ensures outside { result.outside ≡ outside }
{
    Premises {
        dialect: Dialect::of(settings),
        outside,
    }
}

/// The codes and calls of two tapes that are taken to go on to the next block. The only error is
/// out of memory.
fn trust_in(alloc: Global, premises: Premises, left: &Tape, right: &Tape) -> Result<Trust, NoMemory>
    ensures { IfOk result (λ trust. trust_view trust
        ≡ with_tape premises (with_tape premises no_trust left.now) right.now) }
{
    let mut trust = no_trust(alloc);
    add_tape(&mut trust, premises, left.as_slice())?;
    add_tape(&mut trust, premises, right.as_slice())?;
    Ok(trust)
}

/// The labels and the trust of two tapes with their orders. Errors: the refusal of the two as a
/// pair, or out of memory.
fn tell(
    alloc: Global,
    premises: Premises,
    left: &OrderedTape,
    right: &OrderedTape,
) -> Result<WaitPair, Failing<Refusal>>
    ensures accepted { IfOk result (λ _. IsAcceptedPair left.now.order right.now.order) }
    ensures left { IfOk result (λ pair. pair.labels.one ≡ path_labels left.now.order) }
    ensures right { IfOk result (λ pair. pair.labels.two ≡ path_labels right.now.order) }
    ensures trust { IfOk result (λ pair. trust_view pair.trust
        ≡ with_tape premises (with_tape premises no_trust left.now.tape) right.now.tape) }
    ensures refused { IfErr result (λ error. IfFault error (IsPairRefusal left.now.order right.now.order)) }
{
    let labels = match meet(alloc, &left.order, &right.order) {
        Ok(labels) => labels,
        Err(error) => return Err(error),
    };
    match trust_in(alloc, premises, &left.tape, &right.tape) {
        Ok(trust) => Ok(WaitPair { labels, trust }),
        Err(_) => Err(Failing::NoMemory),
    }
}

/// The meetings of a pair at a position of its free block-skip switches, and what is taken on trust.
/// Errors: the refusal of the pair at this position, or out of memory.
fn judge_at(
    alloc: Global,
    left: &[u8],
    right: &[u8],
    settings: &Settings,
    outside: Option<Outside>,
    position: u16,
) -> Result<WaitPair, Failing<Refusal>>
    ensures told { (text : List ℕ) → settings_of text ≡ Ok (view settings.now)
        → IfOk result (λ pair. (judged : Judged) × IsToldAt (at position (question_of left.now right.now text outside))
        judged pair.labels.one pair.labels.two (trust_view pair.trust)) }
    ensures refused { (text : List ℕ) → settings_of text ≡ Ok (view settings.now)
        → IfErr result (λ error. IfFault error (IsRefusalAt (at position (question_of left.now right.now text outside)))) }
{
    let premises = premises_of(settings, outside);
    let first = skips_at(settings, Path::One, position);
    let second = skips_at(settings, Path::Two, position);
    let one = match ordered_tape(alloc, premises, first, Path::One, left) {
        Ok(tape) => tape,
        Err(error) => return Err(error),
    };
    let two = match ordered_tape(alloc, premises, second, Path::Two, right) {
        Ok(tape) => tape,
        Err(error) => return Err(error),
    };
    match tell(alloc, premises, &one, &two) {
        Ok(pair) => Ok(pair),
        Err(error) => Err(error),
    }
}

/// The labels of a pair at a position of its free block-skip switches. Errors: the refusal of the
/// pair, which tells the position, or out of memory.
fn stand_at(
    alloc: Global,
    left: &[u8],
    right: &[u8],
    settings: &Settings,
    outside: Option<Outside>,
    position: u16,
) -> Result<Standing, Failing<Refusal>>
    ensures told { (text : List ℕ) → settings_of text ≡ Ok (view settings.now)
        → IfOk result (IsStandingAt (question_of left.now right.now text outside) position) }
    ensures refused { (text : List ℕ) → settings_of text ≡ Ok (view settings.now)
        → IfErr result (λ error. IfFault error (IsToldRefusal (question_of left.now right.now text outside) position)) }
{
    match judge_at(alloc, left, right, settings, outside, position) {
        Ok(pair) => Ok(Standing::of(position, pair.labels)),
        Err(Failing::Fault(refusal)) => Err(Failing::Fault(refusal.at_position(position))),
        Err(Failing::NoMemory) => Err(Failing::NoMemory),
    }
}

/// The labels of a pair at each position of its free block-skip switches, the given first one and
/// then the others in rising order. Errors: the refusal at the first other position at which the
/// pair is refused, or out of memory.
fn stand_at_others(
    alloc: Global,
    left: &[u8],
    right: &[u8],
    settings: &Settings,
    outside: Option<Outside>,
    free: u16,
    first: Standing,
) -> Result<Vec<Standing>, Failing<Refusal>>
    ensures told { (text : List ℕ) → settings_of text ≡ Ok (view settings.now)
        → IfOk result (λ standings. HasOthers (question_of left.now right.now text outside) free LAST_POSITION first standings.items) }
    ensures refused { (text : List ℕ) → settings_of text ≡ Ok (view settings.now)
        → IfErr result (λ error. IfFault error (IsLaterRefusal (question_of left.now right.now text outside) free)) }
{
    let mut standings = Vec::new(alloc);
    standings.push(first)?;
    for below in 0..LAST_POSITION {
        let position = below + 1;
        if is_position(free, position) {
            match stand_at(alloc, left, right, settings, outside, position) {
                Ok(standing) => standings.push(standing)?,
                Err(error) => return Err(error),
            }
        }
    }
    Ok(standings)
}

/// What is told of a pair with these labels at all positions, the first one first: the labels there,
/// what is taken on trust, and the switches that change the labels. The only error is out of memory.
fn told(alloc: Global, trust: Trust, standings: Vec<Standing>) -> Result<WaitPair, NoMemory>
    requires { 0 < length standings.items }
    ensures one { IfOk result (λ pair. (first : Standing) (others : List Standing) → standings.items ≡ first ∷ others
        → pair.labels.one ≡ first.one) }
    ensures two { IfOk result (λ pair. (first : Standing) (others : List Standing) → standings.items ≡ first ∷ others
        → pair.labels.two ≡ first.two) }
    ensures trust { IfOk result (λ pair. trust_view pair.trust
        ≡ with_hangings (trust_view trust) (hangings_to 9 standings.items)) }
{
    let switches = hangings(alloc, standings.as_slice())?;
    let mut standings = standings;
    let Standing {
        switches: _,
        one,
        two,
    } = standings.swap_remove(0);
    let labels = Both { one, two };
    let Trust {
        geometry,
        auxiliary,
        programs,
        switches: _,
    } = trust;
    let trust = Trust {
        geometry,
        auxiliary,
        programs,
        switches,
    };
    Ok(WaitPair { labels, trust })
}

/// The meetings of a pair: the tape of path 1, that of path 2, the settings of the cell, and which
/// programs the tapes may lack. The pair is judged at every position of the block-skip switches that
/// its tapes name and the settings do not fix; both paths see the same position.
///
/// Its refusal is that of the first position at which it is refused, and there the first of these:
/// 90 of the settings; that of path 1's tape, of its reading before the order of its blocks; that of
/// path 2's tape; 70 of path 1, of path 2; 72. The only other error is out of memory.
pub fn verdict(
    alloc: Global,
    left: &[u8],
    right: &[u8],
    settings: &[u8],
    outside: Option<Outside>,
) -> Result<WaitPair, Failing<Refusal>>
    requires { length settings.now < 2 ^ 32 }
    ensures told { IfOk result (λ pair. (judged : Judged) × IsTold (question_of left.now right.now settings.now outside)
        judged pair.labels.one pair.labels.two (trust_view pair.trust)) }
    ensures refused { IfErr result (λ error. IfFault error
        (IsRefusalOf (question_of left.now right.now settings.now outside))) }
{
    let cell = match settings_of(alloc, settings) {
        Ok(cell) => cell,
        Err(error) => return Err(error),
    };
    let WaitPair { labels, trust } = match judge_at(alloc, left, right, &cell, outside, 0) {
        Ok(pair) => pair,
        Err(error) => return Err(error),
    };
    let first = Standing::of(0, labels);
    let free = free_switches(&cell, left, right);
    let standings = match stand_at_others(alloc, left, right, &cell, outside, free, first) {
        Ok(standings) => standings,
        Err(error) => return Err(error),
    };
    match told(alloc, trust, standings) {
        Ok(pair) => Ok(pair),
        Err(_) => Err(Failing::NoMemory),
    }
}
