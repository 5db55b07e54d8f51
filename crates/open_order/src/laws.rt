//! Laws that are said for readers, and that no crate calls: that the refusal of a tape's blocks is that
//! of the least line, and that a jump may take any block of a number that stands twice.
ghost use Rattle.std.specs.Prelude.{◌≡◌, ℕ, List, Err};
ghost use Rattle.nc_text.specs.declared.tape.Program.{Program};
ghost use Rattle.nc_text.specs.Shape.{IsTapeShape};
ghost use Rattle.open_order.specs.declared.premises.Premises.{Premises};
ghost use Rattle.block_order.specs.declared.program.ControlProgram.{ControlProgram};
ghost use Rattle.open_order.specs.Exact.{refusal, IsOrdered};
ghost use Rattle.open_order.specs.Least.{IsLeastRefused};
ghost use Rattle.open_order.specs.Reading.{programs_read};
ghost use Rattle.open_order.specs.Together.{AreTogether};

/// If a tape is refused for a block, that block has the least line of all that are refused.
pub fn the_first_refused_block_has_the_least_line()
    ensures { (premises : Premises) (tape : List Program) (line number : ℕ) → IsTapeShape tape
        → programs_read premises tape ≡ Err (refusal line number) → IsLeastRefused premises tape line number }
{}

/// On a tape that has an order, a jump to a number that its program has twice may take any block of that
/// number: they all lie in the stretch of the jump, and the labels ahead stay as they were.
pub fn a_jump_may_take_any_block_of_its_number()
    ensures { (premises : Premises) (tape : List Program) (order : List ControlProgram)
        → IsOrdered premises tape order → AreTogether order }
{}
