//! The laws of one path's control: where its blocks lead, and what they read and write. Each law is
//! the contract of a function that does nothing.
ghost use Rattle.std.specs.Prelude.{◌≡◌, ◌≢◌, ◌<◌, ℕ, true, List, length, map, Option, Some, None};
ghost use Rattle.nc_number.specs.declared.value.Var.{Var};
ghost use Rattle.nc_moves.specs.declared.motion.Move.{Move};
ghost use Rattle.block_order.specs.declared.control.Control.{Control};
ghost use Rattle.block_order.specs.declared.control.Control.TheVariants.{Wait, End};
ghost use Rattle.block_order.specs.declared.program.ControlProgram.{ControlProgram};
ghost use Rattle.block_order.specs.Faults.{IsSound};
ghost use Rattle.block_order.specs.Labels.{IsUnforked};
ghost use Rattle.block_order.specs.Steps.{IsPlace, control_of_place};
ghost use Rattle.nc_text.specs.declared.tape.Program.{Program};
ghost use Rattle.block_forms.specs.declared.body.FlowBody.{FlowBody};
ghost use Rattle.block_words.specs.declared.dialect.Dialect.{Dialect};
ghost use Rattle.block_forms.specs.Variables.{variables_of_body};
ghost use Rattle.tape_flow.specs.declared.flow.Flow.{Flow};
ghost use Rattle.tape_flow.specs.Exact.{IsAccepted};
ghost use Rattle.tape_flow.specs.Forms.{program_form};
ghost use Rattle.path_state.specs.View.{Fixed, PathView};
ghost use Rattle.path_state.specs.Looks.{is_shared};
ghost use Rattle.path_state.specs.Statements.{Write};
ghost use Rattle.path_state.specs.Effect.{Need, Done, AtWait, past_the_last, effect_of_body, effect_of};
ghost use Rattle.path_state.specs.Controlled.{IsControlled, KeepsFixed, AsksForShared};
ghost use Rattle.path_state.specs.Ahead.{KeepsAhead};

/// Whatever a path holds and whatever was read, a block that is done leads where the order of the
/// flow's blocks allows, and a path is at a wait or an end only if it stands on one; what is fixed
/// for the path stays.
pub fn control_goes_as_the_flow_orders()
    ensures control { (flow : Flow) → IsControlled flow }
    ensures fixed { (flow : Flow) (path : PathView) (reads : List Var)
        → KeepsFixed path (effect_of flow path reads) }
{}

/// Whatever was read, a path that stands on a wait is at it, no block follows an end, and past the
/// last block of a program there is the alarm of it.
pub fn waits_and_ends_stop_a_path()
    ensures waits { (flow : Flow) (path : PathView) (code : ℕ) (reads : List Var)
        → control_of_place flow.order path.place ≡ Some (Wait code) → effect_of flow path reads ≡ AtWait code }
    ensures ends { (flow : Flow) (path : PathView) (reads : List Var)
        → control_of_place flow.order path.place ≡ Some End
        → (after : PathView) (write : Option Write) (moves : List Move)
        → effect_of flow path reads ≢ Done after write moves }
    ensures past { (flow : Flow) (path : PathView) (reads : List Var)
        → control_of_place flow.order path.place ≡ None → effect_of flow path reads ≡ past_the_last }
{}

/// If all runs of a flow come to one list of labels, a block that is done keeps the labels ahead of
/// its path, but for an M99 of the main program with no call open; a path is at a wait only if they
/// begin with it, and at an end only if they are that end alone.
pub fn each_block_keeps_the_labels()
    ensures { (flow : Flow) → IsUnforked flow.order → (path : PathView) (reads : List Var)
        → IsPlace flow.order path.place → KeepsAhead flow.order path (effect_of flow path reads) }
{}

/// The order of an accepted tape's flow is sound, and all its runs come to one list of labels.
pub fn the_flow_of_an_accepted_tape_is_unforked()
    ensures sound { (flow : Flow) (dialect : Dialect) (tape : List Program)
        → IsAccepted dialect tape (map program_form flow.programs) → IsSound flow.order }
    ensures unforked { (flow : Flow) (dialect : Dialect) (tape : List Program)
        → IsAccepted dialect tape (map program_form flow.programs) → IsUnforked flow.order }
{}

/// What a block needs is a variable that both paths share.
pub fn what_is_needed_is_shared()
    ensures { (flow : Flow) (path : PathView) (reads : List Var) (variable : ℕ)
        → effect_of flow path reads ≡ Need variable → is_shared path.fixed variable ≡ true }
{}

/// What a block writes beside its path is a variable that both paths share.
pub fn what_is_written_is_shared()
    ensures { (flow : Flow) (path : PathView) (reads : List Var)
        (after : PathView) (write : Write) (moves : List Move)
        → effect_of flow path reads ≡ Done after (Some write) moves
        → is_shared path.fixed write.variable ≡ true }
{}

/// A block asks for no more values than it names variables, each mention counted: 32 at most.
pub fn a_block_asks_for_each_variable_once_at_most()
    ensures body { (tape : List ControlProgram) (fixed : Fixed) (path : PathView) (body : FlowBody)
        (control : Control) (reads : List Var) (variable : ℕ)
        → effect_of_body tape fixed path body control reads ≡ Need variable
        → length reads < variables_of_body body }
    ensures block { (flow : Flow) (path : PathView) (reads : List Var)
        → AsksForShared path reads (effect_of flow path reads) }
{}
