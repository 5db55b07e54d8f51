//! The law that a block reads and writes only the shared variables that its text names: on it rests
//! that races can be found without running a pair. No crate calls the function.
ghost use Rattle.std.specs.Prelude.{◌≡◌, ◌∷◌, ℕ, true, List, Some};
ghost use Rattle.nc_number.specs.declared.value.Var.{Var};
ghost use Rattle.nc_moves.specs.declared.motion.Move.{Move};
ghost use Rattle.block_order.specs.declared.frame.Frame.{Frame};
ghost use Rattle.tape_flow.specs.declared.flow.Flow.{Flow};
ghost use Rattle.path_state.specs.View.{PathView};
ghost use Rattle.path_state.specs.Statements.{Write};
ghost use Rattle.path_state.specs.Effect.{Need, Done, effect_of};
ghost use Rattle.named_vars.specs.Names.{block_names, block_may_write};

/// Whatever a path holds, its block reads no shared variable but those that its text names, and
/// writes none but those that its text may write.
pub fn a_block_does_as_its_text_says()
    ensures reads { (flow : Flow) (path : PathView) (reads : List Var) (f : Frame) (stack : List Frame) (v : ℕ)
        → path.place ≡ f ∷ stack → effect_of flow path reads ≡ Need v → block_names flow f.program f.block v ≡ true }
    ensures writes { (flow : Flow) (path after : PathView) (reads : List Var) (f : Frame) (stack : List Frame)
        (write : Write) (moves : List Move) → path.place ≡ f ∷ stack
        → effect_of flow path reads ≡ Done after (Some write) moves
        → block_may_write flow f.program f.block write.variable ≡ true }
{}
