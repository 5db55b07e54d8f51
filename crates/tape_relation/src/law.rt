//! The laws that nc_text's definition of reading a tape (`tape_of`) is the relation of this crate:
//! for a whole text, for the words of a line, and for the value of a word.
//! They are for readers: no other crate calls them.

ghost use Rattle.std.specs.Prelude.{◌≡◌, ◌↔◌, ℕ, true, List, Ok, Err};
ghost use Rattle.nc_text.specs.declared.tape.Program.{Program};
ghost use Rattle.nc_text.specs.declared.fault.TextFault.{TextFault};
ghost use Rattle.line_text.specs.declared.sign.Sign.{Sign};
ghost use Rattle.line_text.specs.declared.piece.Piece.{Piece};
ghost use Rattle.nc_text.specs.Lines.{Line, lines_of};
ghost use Rattle.nc_text.specs.Tape.{tape_of};
ghost use Rattle.line_text.specs.Values.{is_value};
ghost use Rattle.tape_relation.specs.Parts.{AreLines};
ghost use Rattle.tape_relation.specs.Relation.{IsTape, IsFault};
ghost use Rattle.tape_relation.specs.Value.{IsValue};
ghost use Rattle.tape_relation.specs.Words.{AreWords};
ghost use Rattle.tape_relation.specs.Cut.{IsCut};

/// A law: a text has the tape, or the fault, that the relation says, and no other. `lines` says the
/// same of the lines of a text.
pub fn the_reader_reads_the_relation()
    ensures lines { (text : List ℕ) (lines : List Line) → (lines_of text ≡ lines) ↔ AreLines text lines }
    ensures tape { (skips : ℕ) (text : List ℕ) (tape : List Program)
        → (tape_of skips text ≡ Ok tape) ↔ IsTape skips text tape }
    ensures fault { (skips : ℕ) (text : List ℕ) (fault : TextFault)
        → (tape_of skips text ≡ Err fault) ↔ IsFault skips text fault }
{}

/// A law: what the reader takes for a value is a literal, or, with a sign or without, a variable or
/// a text in balanced brackets.
pub fn a_value_has_the_grammar()
    ensures { (text : List ℕ) → (is_value text ≡ true) ↔ IsValue text }
{}

/// A law: the words into which the reader cuts signs are the words that the signs spell by the
/// grammar.
pub fn a_line_is_cut_into_its_words()
    ensures { (signs : List Sign) (words : List Piece) → IsCut signs words ↔ AreWords signs words }
{}
