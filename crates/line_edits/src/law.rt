//! The law that a text without edits is itself.
ghost use Rattle.std.specs.Prelude.{◌≡◌, ℕ, List, []};
ghost use Rattle.nc_text.specs.Lines.{lines_of};
ghost use Rattle.line_edits.specs.Splice.{edited_lines};

/// A text without edits stays byte for byte.
pub fn a_text_without_edits_stays()
    ensures { (text : List ℕ) → edited_lines 1 [] (lines_of text) ≡ text }
{}
