//! Laws of the report's lines, each the contract of a function that does nothing.
ghost use Rattle.std.specs.Prelude.{◌≡◌, ◌∷◌, ◌++◌, List, length, map};
ghost use Rattle.nc_number.specs.declared.path.Path.{Path};
ghost use Rattle.nc_number.specs.declared.point.Point.{Point};
ghost use Rattle.nc_outside.specs.declared.got.Got.TheVariants.{Placed, Moved};
ghost use Rattle.nc_outside.specs.declared.lined_move.LinedMove.{LinedMove};
ghost use Rattle.move_text.specs.MoveText.{placed_text};
ghost use Rattle.turret_lines.specs.Stream.{stream_of};
ghost use Rattle.run_records.specs.Entries.{Entry};
ghost use Rattle.two_path.specs.Histories.{fold};
ghost use Rattle.two_path.specs.Machine.{MachineView};
ghost use Rattle.two_path.specs.Turns.{Tapes};
ghost use Rattle.two_path.specs.Made.{moves_of};
ghost use Rattle.move_list.specs.Report.{head_text, lines_text, path_text};

/// A turret that was placed at a point, got exactly these moves and no wait, and writes what it gets,
/// writes the line of its place and then exactly the lines that a report has for these moves.
pub fn law_of_streams()
    ensures stream { (at : Point) (moves : List LinedMove)
        → stream_of (Placed at ∷ map Moved moves) ≡ placed_text at ++ lines_text moves }
    ensures report { (path : Path) (moves : List LinedMove)
        → path_text path moves ≡ head_text path (length moves) ++ lines_text moves }
{}

/// The moves of a path's records are those of the first records, and after them those of the
/// records that were made later.
pub fn law_of_later_moves()
    ensures { (tapes : Tapes) (m : MachineView) (path : Path) (before later : List Entry)
        → moves_of tapes m path (before ++ later)
        ≡ moves_of tapes m path before ++ moves_of tapes (fold tapes m before) path later }
{}
