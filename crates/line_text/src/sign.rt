//! The bytes of a line of a tape that count: its signs. line.rt reads them into the line's buffer;
//! front.rt and cut.rt cut blocks and words out of them. specs/Signs defines what is computed here;
//! its table of characters stands once more, apart, in the relation of tapes.
ghost use Rattle.std.specs.Prelude.{◌≡◌, ◌+◌, ◌-◌, ◌^◌, ◌<◌, ◌≤◌, ◌++◌, ◌&&◌, false, not, length, IfOk, OnOk};
ghost use Rattle.line_text.specs.Signs.{is_blank, is_allowed, inside_behind, counted_sign, scan_of, without_return, without_blanks, without_last, signs_of, are_allowed};
ghost use Rattle.line_text.specs.Places.{ArePlaced};
ghost use Rattle.std.specs.List.{suffix_len};

use std::alloc::AllocError;

/// A byte of a line that counts, in upper case, and its place in the line. A comment is its opening
/// bracket.
#[derive(Clone, Copy, Debug, PartialEq, Eq)]
pub struct Sign {
    /// Its place in the line, counted from 0.
    pub place: u32,
    /// The byte, in upper case.
    pub byte: u8,
}

/// Whether the byte is a space or a tabulator, which are ignored everywhere.
fn is_blank(byte: u8) -> bool
    ensures { result ≡ is_blank byte }
{
    byte == b' ' || byte == b'\t'
}

/// Whether the byte, in upper case, is a character that a tape may have outside comments.
fn is_allowed(byte: u8) -> bool
    ensures { result ≡ is_allowed byte }
{
    byte.is_ascii_uppercase()
        || byte.is_ascii_digit()
        || byte == b'.'
        || byte == b'+'
        || byte == b'-'
        || byte == b'/'
        || byte == b'('
        || byte == b')'
        || byte == b'#'
        || byte == b'['
        || byte == b']'
        || byte == b'='
        || byte == b'*'
}

/// Whether each sign is a character that a tape may have outside comments.
pub(crate) fn are_allowed(signs: &[Sign]) -> bool
    ensures { result ≡ are_allowed signs.now }
{
    signs.iter().all(|sign| is_allowed(sign.byte))
}

/// A line without the carriage return directly before its line feed; `ended` says whether it has a
/// line feed.
fn without_return(line: &[u8], ended: bool) -> &[u8]
    ensures { result.now ≡ without_return line.now ended }
{
    if !ended {
        return line;
    }
    match line {
        [front @ .., b'\r'] => front,
        _ => line,
    }
}

/// How many blanks a line ends with. The semicolon that ends a block may stand before them.
fn blanks_at_end(line: &[u8]) -> usize
    ensures count { result ≡ suffix_len is_blank line.now }
    ensures within { result ≤ length line.now }
{
    line.iter().rev().take_while(|b| is_blank(**b)).count()
}

/// A line without the blanks that it ends with.
fn without_blanks(line: &[u8]) -> &[u8]
    ensures { result.now ≡ without_blanks line.now }
{
    let (front, _) = line.split_at(line.len() - blanks_at_end(line));
    front
}

/// A line without the semicolon that may end its block.
fn without_semicolon(line: &[u8]) -> &[u8]
    ensures { result.now ≡ without_last 59 line.now }
{
    match line {
        [front @ .., b';'] => front,
        _ => line,
    }
}

/// Whether the byte after this one stands in a comment; `inside` says it of this one.
fn inside_behind(inside: bool, byte: u8) -> bool
    ensures { result ≡ inside_behind inside byte }
{
    if inside { byte != b')' } else { byte == b'(' }
}

/// Puts a byte into the list, in upper case, if it is no blank and stands in no comment.
fn push_sign(list: &mut Vec<Sign>, inside: bool, place: u32, byte: u8) -> Result<(), AllocError>
    ensures { OnOk result (list.new.items
        ≡ list.old.items ++ counted_sign (not inside && not (is_blank byte)) place byte) }
{
    if !inside && !is_blank(byte) {
        let byte = byte.to_ascii_uppercase();
        list.push(Sign { place, byte })?;
    }
    Ok(())
}

/// Puts the bytes of a line that count into the list, and answers whether its last comment is open.
fn scan(list: &mut Vec<Sign>, line: &[u8]) -> Result<bool, AllocError>
    requires { length line.now < 2 ^ 32 - 1 }
    ensures list { OnOk result (list.new.items ≡ (scan_of line.now false 0).list) }
    ensures unclosed { IfOk result (λ unclosed. unclosed ≡ (scan_of line.now false 0).unclosed) }
    ensures placed { OnOk result (ArePlaced list.new.items) }
    ensures short { OnOk result (length list.new.items < 2 ^ 32) }
{
    list.clear();
    list.reserve(line.len())?;
    let mut inside = false;
    let mut place = 0u32;
    for byte in line {
        push_sign(list, inside, place, *byte)?;
        inside = inside_behind(inside, *byte);
        place += 1;
    }
    Ok(inside)
}

/// Puts the signs of a line into the list, and answers whether the line ends inside a comment;
/// `ended` says whether a line feed ends the line.
#[tactic(auto, unfolding(crate::specs::Signs::signs_of))]
pub(crate) fn read_signs(list: &mut Vec<Sign>, line: &[u8], ended: bool) -> Result<bool, AllocError>
    requires { length line.now < 2 ^ 32 - 1 }
    ensures list { OnOk result (list.new.items ≡ (signs_of line.now ended).list) }
    ensures unclosed { IfOk result (λ unclosed. unclosed ≡ (signs_of line.now ended).unclosed) }
    ensures placed { OnOk result (ArePlaced list.new.items) }
    ensures short { OnOk result (length list.new.items < 2 ^ 32) }
{
    let content = without_semicolon(without_blanks(without_return(line, ended)));
    scan(list, content)
}
