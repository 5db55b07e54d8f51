//! The code of motion that is in force before a cycle, and again after it.
ghost use Rattle.std.specs.Prelude.{◌≡◌, ◌++◌, OnOk};
ghost use Rattle.cycle_words.specs.Motion.{is_straight, is_cut, kind_cause, motion_cause, scene_cause, cuts_before, code_lines};

use crate::causes::first_cause;
use crate::scenes::way_cause;
use code_tables::CodeKind;
use nc_text::Block;
use plain_form::{PlainCause, Scene, plain_line, push_word};
use std::alloc::{AllocError, Global};

/// Whether the code is G00 or G01.
fn is_straight(kind: CodeKind) -> bool
    ensures { result ≡ is_straight kind }
{
    matches!(kind, CodeKind::Rapid | CodeKind::Feed)
}

/// Whether the code is G01.
fn is_cut(kind: CodeKind) -> bool
    ensures { result ≡ is_cut kind }
{
    matches!(kind, CodeKind::Feed)
}

/// Why a code can't be put in force again.
fn kind_cause(kind: CodeKind) -> Option<PlainCause>
    ensures { result ≡ kind_cause kind }
{
    if is_straight(kind) {
        None
    } else {
        Some(PlainCause::NoForm)
    }
}

/// Why the code in force can't be put in force again after a cycle: it is not known, or it is none
/// of G00 and G01.
fn motion_cause(motion: &Option<CodeKind>) -> Option<PlainCause>
    ensures { result ≡ motion_cause motion.now }
{
    match *motion {
        Some(kind) => kind_cause(kind),
        None => Some(PlainCause::Position),
    }
}

/// Why no cycle can be written out here: lengths can't be read, or the code in force can't be put
/// in force again.
pub fn scene_cause(scene: &Scene) -> Option<PlainCause>
    ensures { result ≡ scene_cause scene.now }
{
    first_cause(way_cause(scene), motion_cause(&scene.motion))
}

/// Whether the code in force is G01.
fn cuts_before(motion: &Option<CodeKind>) -> bool
    ensures { result ≡ cuts_before motion.now }
{
    match *motion {
        Some(kind) => is_cut(kind),
        None => false,
    }
}

/// Puts the block that puts the code before a cycle in force again. The blocks of a cycle leave G00
/// in force, so there is one for G01 alone.
pub fn push_code_before(
    alloc: Global,
    motion: &Option<CodeKind>,
    lines: &mut Vec<Block>,
) -> Result<(), AllocError>
    ensures { OnOk result (lines.new.items ≡ lines.old.items ++ code_lines motion.now) }
{
    if !cuts_before(motion) {
        return Ok(());
    }
    let mut words = Vec::new(alloc);
    push_word(alloc, &mut words, b'G', b"01")?;
    lines.push(plain_line(words))?;
    Ok(())
}
