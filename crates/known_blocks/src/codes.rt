//! Which codes, which feed and which tool are known to be in force behind a block. behind.rt asks it.
ghost use Rattle.std.specs.Prelude.{◌≡◌};
ghost use Rattle.code_tables.specs.declared.group.TheConstants.{ABSOLUTE_GROUP, FEED_GROUP, MOTION_GROUP};
ghost use Rattle.modal_state.specs.Modal.{is_incremental, is_per_rev};
ghost use Rattle.known_blocks.specs.InForce.{known_code, feed_after, known_feed, known_tool, known_in_force, is_shifted, may_shift};

use crate::heard::Heard;
use crate::known::Known;
use code_tables::{
    ABSOLUTE_GROUP, CodeKind, FEED_GROUP, MOTION_GROUP, Row, WORK_GROUP, last_of_group,
};
use nc_number::Var;

/// What a block with an axis word does behind these rows.
fn known_motion_code(rows: &[Row], before: Option<CodeKind>) -> Option<CodeKind>
    ensures { result ≡ known_code (λ kind. kind) rows.now MOTION_GROUP before }
{
    match last_of_group(rows, MOTION_GROUP) {
        Some(row) => Some(row.kind),
        None => before,
    }
}

/// Whether X and Z are how far a block goes, behind these rows.
fn known_incremental(rows: &[Row], before: Option<bool>) -> Option<bool>
    ensures { result ≡ known_code is_incremental rows.now ABSOLUTE_GROUP before }
{
    match last_of_group(rows, ABSOLUTE_GROUP) {
        Some(row) => Some(matches!(row.kind, CodeKind::Incremental)),
        None => before,
    }
}

/// Whether F is by the revolution, behind these rows.
fn known_per_rev(rows: &[Row], before: Option<bool>) -> Option<bool>
    ensures { result ≡ known_code is_per_rev rows.now FEED_GROUP before }
{
    match last_of_group(rows, FEED_GROUP) {
        Some(row) => Some(matches!(row.kind, CodeKind::PerRev)),
        None => before,
    }
}

/// F behind a block that says this of it, if it is known.
fn feed_after(said: &Var, before: Option<Var>) -> Option<Var>
    ensures { result ≡ feed_after said.now before }
{
    match said {
        Var::Vacant => before,
        Var::Is(value) => Some(Var::Is(*value)),
    }
}

/// F behind a block, of which one word may be calculated.
fn known_feed(heard: &Option<Var>, before: Option<Var>) -> Option<Var>
    ensures { result ≡ known_feed heard.now before }
{
    match heard {
        Some(said) => feed_after(said, before),
        None => None,
    }
}

/// T behind a block.
fn known_tool(heard: Option<Option<u32>>, before: Option<u32>) -> Option<u32>
    ensures { result ≡ known_tool heard before }
{
    match heard {
        None => None,
        Some(None) => before,
        Some(Some(tool)) => Some(tool),
    }
}

/// What is known behind the codes, F and T of a block; of X and Z as before.
pub(crate) fn known_in_force(rows: &[Row], heard: &Heard, known: &Known) -> Known
    ensures { result ≡ known_in_force rows.now heard.now known.now }
{
    Known {
        x: known.x,
        z: known.z,
        motion: known_motion_code(rows, known.motion),
        incremental: known_incremental(rows, known.incremental),
        per_rev: known_per_rev(rows, known.per_rev),
        feed: known_feed(&heard.feed, known.feed),
        tool: known_tool(heard.tool, known.tool),
    }
}

/// Whether the zero from which X and Z count may change: a work offset or a tool is called.
pub(crate) fn may_shift(rows: &[Row], heard: &Heard) -> bool
    ensures { result ≡ may_shift rows.now heard.now }
{
    is_shifted(last_of_group(rows, WORK_GROUP), heard.tool)
}

/// Whether a row of a work offset, or a T word, may change it.
fn is_shifted(work: Option<Row>, tool: Option<Option<u32>>) -> bool
    ensures { result ≡ is_shifted work tool }
{
    match (work, tool) {
        (None, Some(None)) => false,
        _ => true,
    }
}
