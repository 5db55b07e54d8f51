//! The laws of the parts of a path, which hold of every tape.
ghost use Rattle.std.specs.Prelude.{◌≡◌, List};
ghost use Rattle.block_order.specs.declared.program.ControlProgram.{ControlProgram};
ghost use Rattle.block_order.specs.Labels.{IsUnforked, list};
ghost use Rattle.part_order.specs.Parts.{StandsInParts, PartsRepeat, path_waits};

/// Wherever a path comes after n waits, whatever its variables hold, the block there is one of its
/// part n.
pub fn each_block_stands_in_its_part()
    ensures { (tape : List ControlProgram) → IsUnforked tape → StandsInParts tape }
{}

/// Parts repeat with the waits of the list: with w waits no part but 0 to w need be looked at, as
/// the blocks of each later part are in an earlier one.
pub fn parts_repeat_with_the_waits()
    ensures { (tape : List ControlProgram) → PartsRepeat tape }
{}

/// Two tapes with one list of labels have equally many waits.
pub fn equal_lists_have_equally_many_waits()
    ensures { (left right : List ControlProgram) → list left ≡ list right → path_waits left ≡ path_waits right }
{}
