//! What is in force for a path: the type, and what a block's G codes and words make of it. The words
//! F, S and T themselves are in words.rt.
ghost use Rattle.std.specs.Prelude.{◌≡◌, ◌≤◌, ◌∷◌, [], IsTrue, IfSome, OnOk, OnErr};
ghost use Rattle.std.specs.Result.{result_err};
ghost use Rattle.nc_number.specs.Position.{IsPosition};
ghost use Rattle.code_tables.specs.declared.group.TheConstants.{WORK_GROUP, SPINDLE_GROUP, ABSOLUTE_GROUP, FEED_GROUP};
ghost use Rattle.code_tables.specs.Codes.{is_work_code, last_of_group, names_work_offsets};
ghost use Rattle.modal_state.specs.Modal.{opening_modal, absolute_code, per_rev_code, in_force_after, work_after, motion_after, is_surface, is_per_rev, is_incremental, does_after, with_codes, code_of, work_of};
ghost use Rattle.nc_number.specs.declared.point.TheConstants.{TOOL_OFFSETS};
ghost use Rattle.modal_state.specs.Words.{with_words, tool_fault};

use crate::fault::ModalFault;
use crate::words::{ModalWords, offset_of, said_or};
use code_tables::{
    ABSOLUTE_GROUP, CodeKind, FEED_GROUP, FIRST_WORK_CODE, LAST_WORK_CODE, MOTION_GROUP,
    NOSE_GROUP, Row, SPINDLE_GROUP, System, UNIT_GROUP, WORK_GROUP, last_of_group,
};
use nc_number::{Point, Var};
use std::marker::Model;

/// What is in force for a path: the code of each modal group, what the codes do whatever their
/// numbers, and what its words set last.
///
/// One of G54 to G59 is in force, the tool offset is one that exists, or 0 for none, and the cycle
/// in force ends at a position.
#[derive(Clone, Copy, Debug, PartialEq, Eq)]
pub struct Modal {
    /// The motion code, as 1 for G01.
    g01: u16,
    /// The spindle code: 96 or 97.
    g02: u16,
    /// The code of absolute or incremental input, or 0 where the system has no such codes.
    g03: u16,
    /// The feed code.
    g05: u16,
    /// The unit code: 20 or 21.
    g06: u16,
    /// The code of nose radius compensation, as 40.
    g07: u16,
    /// The work offset code, from 54 to 59.
    g14: u16,
    /// What a block with an axis word does.
    motion: CodeKind,
    /// S is a constant surface speed.
    surface: bool,
    /// F is by the revolution.
    per_rev: bool,
    /// X and Z are how far a block goes.
    incremental: bool,
    /// What F set last, in whole units.
    feed: Var,
    /// What S set last as a speed.
    speed: Var,
    /// The whole number of the last T word.
    tool: u16,
    /// The last two digits of the T word: the tool offset, or 0 for none.
    offset: u8,
    /// What S set last as the highest speed.
    limit: Var,
    /// Where the cycle in force ends, in machine coordinates.
    cycle: Option<Point>,
}

// Clauses see all that is in force.
impl Model for Modal {
    ghost use Rattle.modal_state.specs.View.{ModalView, IsSound};

    ghost Value = { ModalView };

    ghost use Rattle.modal_state.specs.Fields.{view_of};

    ghost view = { view_of };

    ghost invariant = { λ m. IsSound (view_of m) };

    ghost inverse = { λ v. record {
      g01 = v.g01;
      g02 = v.g02;
      g03 = v.g03;
      g05 = v.g05;
      g06 = v.g06;
      g07 = v.g07;
      g14 = v.g14;
      motion = v.motion;
      surface = v.surface;
      per_rev = v.per_rev;
      incremental = v.incremental;
      feed = v.feed;
      speed = v.speed;
      tool = v.tool;
      offset = v.offset;
      limit = v.limit;
      cycle = v.cycle;
    } };
}

impl Modal {
    /// What is in force as a tape of this system begins: G00, G97, feed by the revolution, G21, G40
    /// and G54; in system B also G90; and nothing else.
    pub fn for_system(system: System) -> Self
        ensures { result ≡ opening_modal system }
    {
        Modal {
            g01: 0,
            g02: 97,
            g03: absolute_code(system),
            g05: per_rev_code(system),
            g06: 21,
            g07: 40,
            g14: 54,
            motion: CodeKind::Rapid,
            surface: false,
            per_rev: true,
            incremental: false,
            feed: Var::Vacant,
            speed: Var::Vacant,
            tool: 0,
            offset: 0,
            limit: Var::Vacant,
            cycle: None,
        }
    }

    /// The code in force of a group. Groups 01, 02, 05, 06, 07 and 14 have one, group 03 in a
    /// system that has such codes, and no other.
    pub fn code(&self, group: u8) -> Option<u16>
        ensures { result ≡ code_of self.now group }
    {
        match group {
            MOTION_GROUP => Some(self.g01),
            SPINDLE_GROUP => Some(self.g02),
            ABSOLUTE_GROUP if self.g03 != 0 => Some(self.g03),
            FEED_GROUP => Some(self.g05),
            UNIT_GROUP => Some(self.g06),
            NOSE_GROUP => Some(self.g07),
            WORK_GROUP => Some(self.g14),
            _ => None,
        }
    }

    /// What a block with an axis word does.
    pub fn motion(&self) -> CodeKind
        ensures { result ≡ self.now.motion }
    {
        self.motion
    }

    /// What a block with an axis word does after G codes of these rows: what the last motion code
    /// among them does.
    pub fn motion_after(&self, rows: &[Row]) -> CodeKind
        ensures { result ≡ motion_after self.now rows.now }
    {
        last_in(rows, MOTION_GROUP).map_or(self.motion, |row| row.kind)
    }

    /// Whether S is a constant surface speed.
    pub fn is_surface_speed(&self) -> bool
        ensures { result ≡ self.now.surface }
    {
        self.surface
    }

    /// Whether F is by the revolution.
    pub fn is_per_revolution(&self) -> bool
        ensures { result ≡ self.now.per_rev }
    {
        self.per_rev
    }

    /// Whether X and Z are how far a block goes, and not where.
    pub fn is_incremental(&self) -> bool
        ensures { result ≡ self.now.incremental }
    {
        self.incremental
    }

    /// The work offset in force, from 1 at G54 to 6 at G59.
    pub fn work(&self) -> u8
        ensures work { result ≡ work_of self.now }
        ensures range { (1 ≤ result) × (result ≤ 6) }
    {
        (self.g14 - FIRST_WORK_CODE) as u8 + 1
    }

    /// What F set last, in whole units.
    pub fn feed(&self) -> Var
        ensures { result ≡ self.now.feed }
    {
        self.feed
    }

    /// What S set last in a block without G50, or G92 of system B.
    pub fn speed(&self) -> Var
        ensures { result ≡ self.now.speed }
    {
        self.speed
    }

    /// What S set last in a block with G50, or G92 of system B: the highest speed of the spindle.
    pub fn limit(&self) -> Var
        ensures { result ≡ self.now.limit }
    {
        self.limit
    }

    /// The whole number of the last T word, of which the last two digits are the tool offset.
    pub fn tool(&self) -> u16
        ensures { result ≡ self.now.tool }
    {
        self.tool
    }

    /// The tool offset in force, from 1 to 64, or 0 for none.
    pub fn offset(&self) -> u8
        ensures offset { result ≡ self.now.offset }
        ensures range { result ≤ TOOL_OFFSETS }
    {
        self.offset
    }

    /// Where the cycle in force ends, in machine coordinates, from its first block on.
    pub fn cycle(&self) -> Option<Point>
        ensures cycle { result ≡ self.now.cycle }
        ensures position { IfSome result IsPosition }
    {
        self.cycle
    }

    /// Takes the G codes of a block, given by their rows in the block's order.
    ///
    /// The end of a cycle is dropped where the code of the motion group changed. Codes that count
    /// in their own block alone, and those without effect, change nothing. In the rows of a code
    /// table each code of the work group names a work offset; a row that names none would set none.
    pub fn take(&mut self, rows: &[Row])
        ensures codes { self.new ≡ with_codes self.old rows.now }
        ensures work { IsTrue (names_work_offsets rows.now) →
            self.new.g14 ≡ in_force_after rows.now WORK_GROUP self.old.g14 }
    {
        let motion = in_force_after(rows, MOTION_GROUP, self.g01);
        if motion != self.g01 {
            self.cycle = None;
        }
        self.motion = self.motion_after(rows);
        self.g01 = motion;
        self.g02 = in_force_after(rows, SPINDLE_GROUP, self.g02);
        self.g03 = in_force_after(rows, ABSOLUTE_GROUP, self.g03);
        self.g05 = in_force_after(rows, FEED_GROUP, self.g05);
        self.g06 = in_force_after(rows, UNIT_GROUP, self.g06);
        self.g07 = in_force_after(rows, NOSE_GROUP, self.g07);
        self.g14 = work_after(rows, self.g14);
        self.surface = surface_after(rows, self.surface);
        self.per_rev = per_rev_after(rows, self.per_rev);
        self.incremental = incremental_after(rows, self.incremental);
    }

    /// Takes F, S and T of a block: alarm 40 exactly where the tool offset of T is none of 0 to 64.
    /// Then nothing changes.
    pub fn take_values(&mut self, words: &ModalWords) -> Result<(), ModalFault>
        ensures fault { result_err result ≡ tool_fault words.now.tool }
        ensures taken { OnOk result (self.new ≡ with_words self.old words.now) }
        ensures err { OnErr result (self.new ≡ self.old) }
    {
        words.check()?;
        self.feed = said_or(&words.feed, &self.feed);
        self.speed = words.speed.speed_or(&self.speed);
        self.limit = words.speed.limit_or(&self.limit);
        if let Some(tool) = words.tool {
            self.tool = tool;
            self.offset = offset_of(tool);
        }
        Ok(())
    }

    /// Lets the cycle in force end at this point, in machine coordinates; or nowhere, as when none
    /// is in force.
    pub fn set_cycle(&mut self, end: Option<Point>)
        requires { IfSome end IsPosition }
        ensures { self.new ≡ record self.old { cycle = end } }
    {
        self.cycle = end;
    }
}

/// The code of absolute input in this system, or 0 where it has none.
fn absolute_code(system: System) -> u16
    ensures { result ≡ absolute_code system }
{
    match system {
        System::A => 0,
        System::B => 90,
    }
}

/// The code of feed by the revolution in this system.
fn per_rev_code(system: System) -> u16
    ensures { result ≡ per_rev_code system }
{
    match system {
        System::A => 99,
        System::B => 95,
    }
}

/// The last of these rows that is of the group. Most blocks have one row or none, of which there is
/// no walk.
fn last_in(rows: &[Row], group: u8) -> Option<Row>
    ensures { result ≡ last_of_group rows.now group }
{
    match rows {
        [] => None,
        [row] => row_in(row, group),
        _ => last_of_group(rows, group),
    }
}

/// The row, if it is of the group.
fn row_in(row: &Row, group: u8) -> Option<Row>
    ensures { result ≡ last_of_group (row.now ∷ []) group }
{
    if row.group == group { Some(*row) } else { None }
}

/// The code of a group after these rows, where this one was in force before them.
fn in_force_after(rows: &[Row], group: u8, before: u16) -> u16
    ensures { result ≡ in_force_after rows.now group before }
{
    last_in(rows, group).map_or(before, |row| row.code)
}

/// Whether S is a constant surface speed after these rows; `before` says whether it was before.
fn surface_after(rows: &[Row], before: bool) -> bool
    ensures { result ≡ does_after is_surface rows.now SPINDLE_GROUP before }
{
    last_in(rows, SPINDLE_GROUP).map_or(before, |row| is_surface(row.kind))
}

/// Whether the code makes S a constant surface speed.
fn is_surface(kind: CodeKind) -> bool
    ensures { result ≡ is_surface kind }
{
    matches!(kind, CodeKind::Surface)
}

/// Whether F is by the revolution after these rows; `before` says whether it was before.
fn per_rev_after(rows: &[Row], before: bool) -> bool
    ensures { result ≡ does_after is_per_rev rows.now FEED_GROUP before }
{
    last_in(rows, FEED_GROUP).map_or(before, |row| is_per_rev(row.kind))
}

/// Whether the code makes F a feed by the revolution.
fn is_per_rev(kind: CodeKind) -> bool
    ensures { result ≡ is_per_rev kind }
{
    matches!(kind, CodeKind::PerRev)
}

/// Whether X and Z are incremental after these rows; `before` says whether they were before.
fn incremental_after(rows: &[Row], before: bool) -> bool
    ensures { result ≡ does_after is_incremental rows.now ABSOLUTE_GROUP before }
{
    last_in(rows, ABSOLUTE_GROUP).map_or(before, |row| is_incremental(row.kind))
}

/// Whether the code makes X and Z how far a block goes.
fn is_incremental(kind: CodeKind) -> bool
    ensures { result ≡ is_incremental kind }
{
    matches!(kind, CodeKind::Incremental)
}

/// The code of the work offset after these rows: their last one if that is of G54 to G59, else
/// `before`, the one that was in force.
fn work_after(rows: &[Row], before: u16) -> u16
    requires { IsTrue (is_work_code before) }
    ensures code { result ≡ work_after rows.now before }
    ensures work { IsTrue (is_work_code result) }
    ensures named { IsTrue (names_work_offsets rows.now) →
        result ≡ in_force_after rows.now WORK_GROUP before }
{
    let code = in_force_after(rows, WORK_GROUP, before);
    if code >= FIRST_WORK_CODE && code <= LAST_WORK_CODE {
        code
    } else {
        before
    }
}
