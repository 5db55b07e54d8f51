//! The state of one path, how it begins, and what may be seen of it. What its blocks do is in
//! decision.rt and taking.rt.
ghost use Rattle.std.specs.Prelude.{◌≡◌, ◌≤◌, ◌+◌, ℕ, List, All, Some, IfOk, length};
ghost use Rattle.nc_number.specs.Path.{is_same};
ghost use Rattle.nc_number.specs.Position.{IsPosition};
ghost use Rattle.block_order.specs.declared.control.Control.TheVariants.{Wait};
ghost use Rattle.block_order.specs.declared.control.Control.{Control};
ghost use Rattle.block_order.specs.declared.frame.Frame.{Frame};
ghost use Rattle.block_order.specs.Frames.{MayPass};
ghost use Rattle.block_order.specs.Steps.{place_behind, control_of_place};
ghost use Rattle.common_vars.specs.Common.{IsCommon, value_of};
ghost use Rattle.local_levels.specs.Stack.{local};
ghost use Rattle.cell_settings.specs.Preset.{IsPreset};
ghost use Rattle.offset_store.specs.Offsets.{no_offsets};
ghost use Rattle.tape_flow.specs.Places.{line_at};
ghost use Rattle.path_state.specs.Standing.{standing_of};
ghost use Rattle.path_state.specs.Opening.{opening_path, with_preset, with_presets};

use crate::standing::Standing;
use block_order::{BlockOrder, Place};
use cell_settings::{Preset, Settings, preset_slot};
use common_vars::Own;
use local_levels::LOCALS;
use modal_state::Modal;
use nc_number::{NoMemory, Path, Point, Var};
use offset_store::Offsets;
use std::alloc::Global;
use std::marker::Model;
use tape_flow::Flow;

/// What is fixed for a path.
#[derive(Clone, Copy, Debug, PartialEq, Eq)]
pub(crate) struct Fixed {
    /// Its reference position, in 0.001 mm.
    pub(crate) home: Point,
    /// How many variables from `#100` on both paths share.
    pub(crate) shared100: u32,
    /// How many variables from `#500` on both paths share.
    pub(crate) shared500: u32,
}

/// The state of one path.
///
/// Its turret stands at a position in range, its offsets exist, and there is a level of local
/// variables for each open call by G65.
#[derive(Debug, Drop)]
pub struct PathState {
    /// Its place, its open calls and their levels of local variables.
    pub(crate) standing: Standing,
    /// The common variables of its own.
    pub(crate) own: Own,
    /// What is in force.
    pub(crate) modal: Modal,
    /// Its work offsets and tool offsets.
    pub(crate) offsets: Offsets,
    /// Where its turret stands, in machine coordinates (0.001 mm).
    pub(crate) position: Point,
    /// What no block and no edit changes.
    pub(crate) fixed: Fixed,
}

impl Model for PathState {
    ghost use Rattle.path_state.specs.View.{PathView};
    ghost use Rattle.path_state.specs.Kept.{IsKept, path_of};

    ghost Value = { PathView };

    ghost view = { λ p. path_of p.standing p.own p.modal p.offsets p.position p.fixed };

    ghost invariant = { λ p. IsKept (path_of p.standing p.own p.modal p.offsets p.position p.fixed) };
}

/// Each block of a checked tape has a number for the one behind it.
#[tactic(auto, using(crate::proofs::NextBlocks::may_pass))]
pub(crate) fn blocks_have_next(order: &BlockOrder)
    ensures { (place : List Frame) (control : Control)
        → control_of_place order.now place ≡ Some control → MayPass place }
{
    let _ = order.as_slice();
}

/// Whether a line of the settings speaks of this path.
fn is_for(path: Path, preset: &Preset) -> bool
    ensures { result ≡ is_same preset.now.path path }
{
    matches!(
        (preset.path, path),
        (Path::One, Path::One) | (Path::Two, Path::Two)
    )
}

/// Sets the offset that a line of the settings speaks of, if it speaks of this path.
fn set_preset(path: Path, preset: &Preset, offsets: &mut Offsets)
    requires { IsPreset preset.now }
    ensures { offsets.new ≡ with_preset path preset.now offsets.old }
{
    if is_for(path, preset) {
        offsets.put(&preset_slot(preset), preset.to);
    }
}

/// The offsets that the settings have for the path; all others are 0.
fn preset_offsets(path: Path, presets: &[Preset]) -> Offsets
    requires { All IsPreset presets.now }
    ensures { result ≡ with_presets path presets.now no_offsets }
{
    let mut offsets = Offsets::new();
    for preset in presets {
        set_preset(path, preset, &mut offsets);
    }
    offsets
}

impl PathState {
    /// A path at the first block of its main program, with nothing said: its system of G codes, its
    /// turret, its offsets, its reference position and the shared variables are as the settings
    /// have them.
    pub fn new(
        alloc: Global,
        flow: &Flow,
        settings: &Settings,
        path: Path,
    ) -> Result<PathState, NoMemory>
        ensures { IfOk result (λ state. state ≡ opening_path flow.now settings.now path) }
    {
        let own = Own::new(alloc)?;
        Ok(PathState {
            standing: Standing::start(flow.main()),
            own,
            modal: Modal::for_system(settings.system),
            offsets: preset_offsets(path, settings.presets.as_slice()),
            position: settings.place[path.index()],
            fixed: Fixed {
                home: settings.home[path.index()],
                shared100: settings.shared100,
                shared500: settings.shared500,
            },
        })
    }

    /// Its place, its calls and its levels of local variables.
    pub(crate) fn standing(&self) -> &Standing
        ensures { result.now ≡ standing_of self.now }
    {
        &self.standing
    }

    /// Goes on to the block behind a wait at which the path stands.
    pub fn pass_wait(&mut self, flow: &Flow)
        requires { (code : ℕ) × (control_of_place flow.now.order self.old.place ≡ Some (Wait code)) }
        ensures { self.new ≡ record self.old { place = place_behind self.old.place } }
    {
        blocks_have_next(&flow.order);
        self.standing.pass();
    }

    /// Where its turret stands, in machine coordinates.
    pub fn position(&self) -> Point
        ensures position { result ≡ self.now.position }
        ensures range { IsPosition result }
    {
        self.position
    }

    /// The line of the block at which it stands; past the last block of its program the last line.
    pub fn line(&self, flow: &Flow) -> u32
        ensures { result ≡ line_at flow.now.order self.now.place }
    {
        flow.line(self.standing.place())
    }

    /// What is in force: codes, F, S, T and the cycle's end.
    pub fn modal(&self) -> &Modal
        ensures { result.now ≡ self.now.modal }
    {
        &self.modal
    }

    /// Its offsets.
    pub fn offsets(&self) -> &Offsets
        ensures { result.now ≡ self.now.offsets }
    {
        &self.offsets
    }

    /// What `#i` of the running level holds, `i` from 1 to 33.
    pub fn local(&self, i: u8) -> Var
        requires from_one { 1 ≤ i }
        requires to_last { i ≤ LOCALS }
        ensures { result ≡ local i self.now.levels }
    {
        self.standing.local(i)
    }

    /// What `#v` holds of its own common variables.
    pub fn own(&self, v: u32) -> Var
        requires { IsCommon v }
        ensures { result ≡ value_of v self.now.own }
    {
        self.own.get(v)
    }

    /// How many calls are open.
    pub fn depth(&self) -> u8
        ensures { result + 1 ≡ length self.now.place }
    {
        self.standing.depth()
    }

    /// Its place: the open programs, each with its block.
    pub fn place(&self) -> &Place
        ensures { result.now ≡ self.now.place }
    {
        self.standing.place()
    }
}
