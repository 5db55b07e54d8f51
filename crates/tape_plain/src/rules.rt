//! What holds over a whole tape before it is written out.
ghost use Rattle.std.specs.Prelude.{◌≡◌, IfOk};
ghost use Rattle.std.specs.List.{list_any};
ghost use Rattle.tape_plain.specs.Rules.{is_ways, has_ways, is_absolute, known_anywhere, rules_of};

use crate::noting::skips_of;
use block_forms::Dialect;
use code_tables::System;
use known_blocks::Known;
use nc_number::NoMemory;
use nc_text::{Body, Program};
use plain_blocks::{MarkList, Rules};
use plain_form::{FormSettings, has_code};
use std::alloc::Global;

/// Whether the words have G91, which makes lengths ways.
fn is_ways(body: &Body) -> bool
    ensures { result ≡ is_ways body.now }
{
    match body {
        Body::Words(words) => has_code(words.as_slice(), 91_000_000),
        Body::Statement(_) => false,
    }
}

/// Whether a block of a program has G91.
fn has_ways(program: &Program) -> bool
    ensures { result ≡ has_ways program.now }
{
    let blocks = program.blocks.as_slice();
    blocks.iter().any(|block| is_ways(&block.body))
}

/// Whether a program of a tape has a block with G91.
fn some_ways(tape: &[Program]) -> bool
    ensures { result ≡ list_any has_ways tape.now }
{
    tape.iter().any(|program| has_ways(program))
}

/// Whether X and Z are where a block goes on the whole tape: system A has no G91, and a tape of
/// system B may have none.
fn is_absolute(system: System, tape: &[Program]) -> bool
    ensures { result ≡ is_absolute system tape.now }
{
    match system {
        System::A => true,
        System::B => !some_ways(tape),
    }
}

/// What is known before every block of a tape: lengths are places if they can be nothing else.
fn known_anywhere(system: System, tape: &[Program]) -> Known
    ensures { result ≡ known_anywhere system tape.now }
{
    let nothing = Known::nothing();
    if is_absolute(system, tape) {
        Known {
            incremental: Some(false),
            ..nothing
        }
    } else {
        nothing
    }
}

/// What holds over the whole tape.
pub(crate) fn rules_of(
    alloc: Global,
    dialect: &Dialect,
    forms: FormSettings,
    text: &[u8],
    tape: &[Program],
) -> Result<Rules, NoMemory>
    ensures { IfOk result (λ rules. rules ≡ rules_of dialect.now forms text.now tape.now) }
{
    let skips = skips_of(alloc, text)?;
    Ok(Rules {
        dialect: *dialect,
        settings: forms,
        anywhere: known_anywhere(dialect.system, tape),
        skips: MarkList::of(skips),
    })
}
