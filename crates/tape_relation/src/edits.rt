//! Laws of edits: which changes of a tape's text leave its tape as it is, in the words of a part
//! programmer. They speak of nc_text's `tape_of`. They are for readers: no other crate calls them.
//! Bytes: 10 is the line feed, 13 the carriage return.

ghost use Rattle.std.specs.Prelude.{◌≡◌, ◌∷◌, [], ◌++◌, true, false, map, List, ℕ, ◌<◌, Ok, length};
ghost use Rattle.std.specs.Char.{to_ascii_uppercase};
ghost use Rattle.line_text.specs.declared.said.Said.TheVariants as said;
ghost use Rattle.line_text.specs.Said.{line_says};
ghost use Rattle.line_text.specs.Signs.{is_blank};
ghost use Rattle.nc_text.specs.Tape.{tape_of};
ghost use Rattle.nc_text.specs.Lines.{lines_of};
ghost use Rattle.tape_relation.specs.Alike.{IsAlike, Fits};
ghost use Rattle.tape_relation.specs.Edited.{are_whole, with_line, with_returns, IsLine, IsLastLine, IsSkipped, HasOnlyComments, EndsWithoutReturn, HasNoReturn, HaveRoom, MayHaveBlank};
ghost use Rattle.tape_relation.specs.Changed.{lowered_answer, forget_places};
ghost use Rattle.std.specs.List.{AllZip};

/// A law: lower case reads as upper case. A text has the same answer with all its letters in upper
/// case.
pub fn lower_case_reads_as_upper_case()
    ensures { (skips : ℕ) (text : List ℕ) → tape_of skips (map to_ascii_uppercase text) ≡ tape_of skips text }
{}

/// A law: a tape is read line by line. Texts of at most 4 MiB with as many lines, which say the
/// same one by one (`IsAlike`), have the same answer.
pub fn lines_that_say_the_same_read_the_same()
    ensures { (skips : ℕ) (a b : List ℕ) → Fits a → Fits b → AllZip (IsAlike skips) (lines_of a) (lines_of b)
        → tape_of skips a ≡ tape_of skips b }
{}

/// A law: an empty line after others, in a text of at most 4 MiB, only raises the numbers of the
/// lines after it by one.
pub fn an_empty_line_only_moves_lines()
    ensures { (skips : ℕ) (front back : List ℕ) → are_whole front ≡ true → 0 < length front
        → Fits (front ++ 10 ∷ back)
        → tape_of skips (front ++ back)
        ≡ lowered_answer (length (lines_of front)) (tape_of skips (front ++ 10 ∷ back)) }
{}

/// A law: a line that says nothing reads as an empty line (`emptied`). If lines stand before it, it
/// may be taken out (`taken_out`): then only the lines after it are numbered one less. `last` is
/// for the last line of a text, if no line feed ends it. `IsLine` and `IsLastLine` say how long the
/// line and the text may be.
pub fn a_line_that_says_nothing_reads_as_no_line()
    ensures emptied { (skips : ℕ) (front line back : List ℕ) → IsLine front line back
        → line_says skips line true ≡ Ok said.Nothing
        → tape_of skips (with_line front line back) ≡ tape_of skips (with_line front [] back) }
    ensures taken_out { (skips : ℕ) (front line back : List ℕ) → IsLine front line back → 0 < length front
        → line_says skips line true ≡ Ok said.Nothing
        → tape_of skips (front ++ back)
        ≡ lowered_answer (length (lines_of front)) (tape_of skips (with_line front line back)) }
    ensures last { (skips : ℕ) (front line : List ℕ) → IsLastLine front line → 0 < length front
        → line_says skips line false ≡ Ok said.Nothing
        → tape_of skips front ≡ lowered_answer (length (lines_of front)) (tape_of skips (front ++ line)) }
{}

/// A law: a line of nothing but closed comments and ignored bytes is no block. It reads as an empty
/// line (`emptied`), and if lines stand before it, it may be taken out (`taken_out`; `last` is for
/// the last line, if no line feed ends it).
pub fn a_line_of_comments_is_no_block()
    ensures emptied { (skips : ℕ) (front line back : List ℕ) → IsLine front line back
        → HasOnlyComments line true
        → tape_of skips (with_line front line back) ≡ tape_of skips (with_line front [] back) }
    ensures taken_out { (skips : ℕ) (front line back : List ℕ) → IsLine front line back → 0 < length front
        → HasOnlyComments line true
        → tape_of skips (front ++ back)
        ≡ lowered_answer (length (lines_of front)) (tape_of skips (with_line front line back)) }
    ensures last { (skips : ℕ) (front line : List ℕ) → IsLastLine front line → 0 < length front
        → HasOnlyComments line false
        → tape_of skips front ≡ lowered_answer (length (lines_of front)) (tape_of skips (front ++ line)) }
{}

/// A law: a readable block whose switch is set reads as an empty line (`emptied`), and if lines
/// stand before it, it may be taken out (`taken_out`; `last` is for the last line, if no line feed
/// ends it).
pub fn a_skipped_block_reads_as_no_line()
    ensures emptied { (skips : ℕ) (front line back : List ℕ) → IsLine front line back
        → IsSkipped skips line true
        → tape_of skips (with_line front line back) ≡ tape_of skips (with_line front [] back) }
    ensures taken_out { (skips : ℕ) (front line back : List ℕ) → IsLine front line back → 0 < length front
        → IsSkipped skips line true
        → tape_of skips (front ++ back)
        ≡ lowered_answer (length (lines_of front)) (tape_of skips (with_line front line back)) }
    ensures last { (skips : ℕ) (front line : List ℕ) → IsLastLine front line → 0 < length front
        → IsSkipped skips line false
        → tape_of skips front ≡ lowered_answer (length (lines_of front)) (tape_of skips (front ++ line)) }
{}

/// A law: a carriage return before a line feed changes nothing, if the line stays within 512 bytes
/// and the text within 4 MiB. Lines may end with both, or with the line feed alone: one line
/// (`one_line`) or all of them (`each_line`).
pub fn a_carriage_return_changes_nothing()
    ensures one_line { (skips : ℕ) (front line back : List ℕ) → EndsWithoutReturn line
        → IsLine front (line ++ 13 ∷ []) back
        → tape_of skips (with_line front (line ++ 13 ∷ []) back) ≡ tape_of skips (with_line front line back) }
    ensures each_line { (skips : ℕ) (text : List ℕ) → HasNoReturn text → HaveRoom text
        → Fits (with_returns text) → tape_of skips (with_returns text) ≡ tape_of skips text }
{}

/// A law: a space or a tab in a line changes nothing but places of words, which are not compared.
/// It may not stand before the `%` of a line, nor after its carriage return (`MayHaveBlank`).
/// `ended` is for a line with a line feed, `last` for the last line without one.
pub fn a_blank_changes_only_places()
    ensures ended { (skips blank : ℕ) (front left right back : List ℕ) → is_blank blank ≡ true
        → MayHaveBlank left right → IsLine front (left ++ blank ∷ right) back
        → forget_places (tape_of skips (with_line front (left ++ blank ∷ right) back))
        ≡ forget_places (tape_of skips (with_line front (left ++ right) back)) }
    ensures last { (skips blank : ℕ) (front left right : List ℕ) → is_blank blank ≡ true
        → MayHaveBlank left right → IsLastLine front (left ++ blank ∷ right) → 0 < length (left ++ right)
        → forget_places (tape_of skips (front ++ (left ++ blank ∷ right)))
        ≡ forget_places (tape_of skips (front ++ (left ++ right))) }
{}
