//! The law that plain blocks run as their moves.
ghost use Rattle.std.specs.Prelude.{◌≡◌, ◌∷◌, List, ℤ, false, Some};
ghost use Rattle.std.specs.Int.{is_negative};
ghost use Rattle.nc_number.specs.declared.point.Point.{Point};
ghost use Rattle.nc_number.specs.declared.value.Var.{Var};
ghost use Rattle.nc_number.specs.Arithmetic.{is_zero};
ghost use Rattle.block_order.specs.declared.control.Control.TheVariants.{Next};
ghost use Rattle.block_order.specs.declared.program.ControlProgram.{ControlProgram};
ghost use Rattle.block_forms.specs.declared.words.FlowWords.{FlowWords};
ghost use Rattle.block_forms.specs.declared.body.FlowBody.TheVariants.{Words};
ghost use Rattle.rough_cycle.specs.declared.block.PlainBlock.{PlainBlock};
ghost use Rattle.nc_number.specs.declared.path.Path.{Path};
ghost use Rattle.cell_settings.specs.declared.settings.Settings.{Settings};
ghost use Rattle.block_order.specs.declared.frame.Frame.{Frame};
ghost use Rattle.tape_flow.specs.declared.flow.Flow.{Flow};
ghost use Rattle.path_state.specs.Opening.{opening_path};
ghost use Rattle.known_blocks.specs.declared.known.Known.{Known};
ghost use Rattle.known_state.specs.Agreement.{Agrees, shift_under};
ghost use Rattle.known_state.specs.Before.{known_before};
ghost use Rattle.known_state.specs.Runs.{ComesTo};
ghost use Rattle.nc_moves.specs.declared.motion.Move.{Move};
ghost use Rattle.rough_cycle.specs.Moves.{AreClear};
ghost use Rattle.path_state.specs.View.{PathView};
ghost use Rattle.path_state.specs.Effect.{effect_of_body};
ghost use Rattle.plain_runs.specs.Runs.{words_of_plain, IsThere, RunsAs, DoesAll, DoesPart, IsKnownStart, AreWordsOf, KeepOut};

/// A plain block, run by a path that stands at `from` while X and Z are where a block goes, makes
/// its one move, to the point that it leads to, or raises the alarm of a point out of the travel.
pub fn plain_blocks_run_as_their_moves()
    ensures moves { (tape : List ControlProgram) (path : PathView) (reads : List Var) (words : FlowWords) (from : Point) (feed : ℤ)
        (block : PlainBlock) → words.words ≡ words_of_plain feed block
        → is_negative feed ≡ false → is_zero feed ≡ false → IsThere from path
        → RunsAs path from feed block (effect_of_body tape path.fixed path (Words words) Next reads) }
    // So a path that does blocks which were proved clear enters no contour.
    ensures clear { (tape : List ControlProgram) (path after : PathView) (all : List FlowWords) (blocks : List PlainBlock)
        (moves : List Move) (p from : Point) (points : List Point) (feed : ℤ) → AreWordsOf feed all blocks
        → is_negative feed ≡ false → is_zero feed ≡ false → IsThere from path → AreClear p points from blocks
        → DoesAll tape path all after moves
        → KeepOut p points (shift_under path.modal path.offsets) from moves }
    // In each run: as often as a path comes to such blocks, and the text says that it stands at their
    // start, under absolute input.
    ensures runs { (flow : Flow) (settings : Settings) (path : Path) (at after : PathView) (f : Frame) (stack : List Frame)
        (all : List FlowWords) (blocks : List PlainBlock) (moves : List Move) (p from : Point) (points : List Point) (feed : ℤ)
        → ComesTo flow (opening_path flow settings path) at → at.place ≡ f ∷ stack
        → IsKnownStart (known_before flow f.program f.block) from → AreWordsOf feed all blocks
        → is_negative feed ≡ false → is_zero feed ≡ false → AreClear p points from blocks
        → DoesPart flow at all after moves
        → KeepOut p points (shift_under at.modal at.offsets) from moves }
    // What is known before a block says where a path stands that comes to it.
    ensures known { (known : Known) (path : PathView) (from : Point) → Agrees known path → known.x ≡ Some from.x
        → known.z ≡ Some from.z → known.incremental ≡ Some false → IsThere from path }
{}
