//! The law of what the edits of a text are, apart from any reader: the contract of a function that
//! does nothing. For readers; no other proof rests on it.
ghost use Rattle.std.specs.Prelude.{◌≡◌, ◌↔◌, ℕ, List, Ok, Err};
ghost use Rattle.edit_texts.specs.declared.edit_list.PathEdit.{PathEdit};
ghost use Rattle.edit_texts.specs.Edits.{edits_of};
ghost use Rattle.edit_texts.specs.Given.{AreEditsOf, IsFirstBad};

/// A text whose lines are all allowed, with 64 edits at most, gives all of them, in order. Each
/// other text is refused with the first line that is not allowed, or that is the 65th edit.
pub fn a_text_gives_the_edits_of_its_lines()
    ensures edits { (text : List ℕ) (edits : List PathEdit) → (edits_of text ≡ Ok edits) ↔ AreEditsOf text edits }
    ensures bad { (text : List ℕ) (line : ℕ) → (edits_of text ≡ Err line) ↔ IsFirstBad text line }
{}
