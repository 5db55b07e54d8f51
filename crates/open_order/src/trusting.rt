//! What the tapes of a pair take on trust, gathered over all blocks. `waits` prints it in its line
//! `goes on`.
ghost use Rattle.std.specs.Prelude.{◌≡◌, OnOk, Some};
ghost use Rattle.open_order.specs.declared.code.Code.TheVariants as Code;
ghost use Rattle.open_order.specs.Basis.{basis, trust_view};
ghost use Rattle.open_order.specs.Trusted.{no_trust, with_code, with_words, with_body, with_block, with_blocks, with_programs, with_tape};

use crate::code::{Code, called_outside, word_code};
use crate::contour::is_macro_call;
use crate::hanging::Hanging;
use crate::premises::Premises;
use crate::reading::Reading;
use block_forms::Dialect;
use nc_number::NoMemory;
use nc_text::{Block, Body, Program, Word};
use std::alloc::Global;
use std::collections::BTreeSet;

/// Codes and calls that are taken to go on to the next block, each once and in order.
#[derive(Drop)]
pub struct Trust {
    /// G codes that this control does not run, by their millionths.
    pub geometry: BTreeSet<u64>,
    /// M codes that are no waits, and none of the standard ones.
    pub auxiliary: BTreeSet<u32>,
    /// The O numbers of programs that are called and that the tapes lack.
    pub programs: BTreeSet<u16>,
    /// The block-skip switches that change the waits or the end of a path, in rising order. Blocks
    /// name none: who judges a pair at each position of its switches puts them here.
    pub switches: Vec<Hanging>,
}

impl Trust {
    ghost use Rattle.std.specs.Prelude.{◌≡◌};
    ghost use Rattle.open_order.specs.Basis.{trust_view};
    ghost use Rattle.open_order.specs.Trusted.{is_nothing};

    /// Whether no code and no program is taken on trust.
    pub fn is_empty(&self) -> bool
        ensures { result ≡ is_nothing (trust_view self.now) }
    {
        self.geometry.is_empty() && self.auxiliary.is_empty() && self.programs.is_empty()
    }
}

/// Nothing is taken on trust yet.
pub fn no_trust(alloc: Global) -> Trust
    ensures { trust_view result ≡ no_trust }
{
    Trust {
        geometry: BTreeSet::new(alloc),
        auxiliary: BTreeSet::new(alloc),
        programs: BTreeSet::new(alloc),
        switches: Vec::new(alloc),
    }
}

/// Keeps a G code, in millionths, once, however often it is there.
fn add_geometry(trust: &mut Trust, micro: u64) -> Result<(), NoMemory>
    ensures { OnOk result (trust_view trust.new ≡ with_code (trust_view trust.old) (Some (Code.Geometry micro))) }
{
    trust.geometry.insert(micro)?;
    Ok(())
}

/// Keeps an M code once, however often it is there.
fn add_auxiliary(trust: &mut Trust, code: u32) -> Result<(), NoMemory>
    ensures { OnOk result (trust_view trust.new ≡ with_code (trust_view trust.old) (Some (Code.Auxiliary code))) }
{
    trust.auxiliary.insert(code)?;
    Ok(())
}

/// Keeps an O number once, however often it is called.
fn add_program(trust: &mut Trust, number: u16) -> Result<(), NoMemory>
    ensures { OnOk result (trust_view trust.new ≡ with_code (trust_view trust.old) (Some (Code.Subprogram number))) }
{
    trust.programs.insert(number)?;
    Ok(())
}

/// Keeps one code more, if there is one.
fn add_code(trust: &mut Trust, code: Option<Code>) -> Result<(), NoMemory>
    ensures { OnOk result (trust_view trust.new ≡ with_code (trust_view trust.old) code) }
{
    match code {
        Some(Code::Geometry(micro)) => add_geometry(trust, micro),
        Some(Code::Auxiliary(code)) => add_auxiliary(trust, code),
        Some(Code::Subprogram(number)) => add_program(trust, number),
        None => Ok(()),
    }
}

/// Keeps the codes that the words of a block name.
fn add_words(trust: &mut Trust, dialect: &Dialect, words: &[Word]) -> Result<(), NoMemory>
    ensures { OnOk result (trust_view trust.new ≡ with_words dialect.now (trust_view trust.old) words.now) }
{
    for word in words {
        add_code(trust, word_code(dialect, word))?;
    }
    Ok(())
}

/// Keeps the codes of a block. A macro call has none, since its words but G, N, O, P and L are
/// arguments, and a statement has none.
fn add_body(trust: &mut Trust, dialect: &Dialect, body: &Body) -> Result<(), NoMemory>
    ensures { OnOk result (trust_view trust.new ≡ with_body dialect.now (trust_view trust.old) body.now) }
{
    match body {
        Body::Words(words) => {
            let words = words.as_slice();
            if is_macro_call(words) {
                Ok(())
            } else {
                add_words(trust, dialect, words)
            }
        }
        Body::Statement(_) => Ok(()),
    }
}

/// Keeps the codes of a block, and the program that it calls if the tape lacks it.
fn add_block(trust: &mut Trust, reading: &Reading<'_>, block: &Block) -> Result<(), NoMemory>
    ensures { OnOk result (trust_view trust.new ≡ with_block (basis reading.now) (trust_view trust.old) block.now) }
{
    add_body(trust, &reading.premises.dialect, &block.body)?;
    add_code(trust, called_outside(reading, block))
}

/// Keeps the codes and calls of the blocks of a program, in turn.
fn add_blocks(trust: &mut Trust, reading: &Reading<'_>, blocks: &[Block]) -> Result<(), NoMemory>
    ensures { OnOk result (trust_view trust.new ≡ with_blocks (basis reading.now) (trust_view trust.old) blocks.now) }
{
    for block in blocks {
        add_block(trust, reading, block)?;
    }
    Ok(())
}

/// Keeps the codes and calls of the programs of a tape, in turn.
fn add_programs(trust: &mut Trust, reading: &Reading<'_>) -> Result<(), NoMemory>
    ensures { OnOk result (trust_view trust.new
        ≡ with_programs (basis reading.now) (trust_view trust.old) reading.now.tape.now) }
{
    for program in reading.tape {
        add_blocks(trust, reading, program.blocks.as_slice())?;
    }
    Ok(())
}

/// Adds what a tape takes on trust. The only error is that memory ran out.
pub fn add_tape(trust: &mut Trust, premises: Premises, tape: &[Program]) -> Result<(), NoMemory>
    ensures { OnOk result (trust_view trust.new ≡ with_tape premises (trust_view trust.old) tape.now) }
{
    add_programs(trust, &Reading { premises, tape })
}
