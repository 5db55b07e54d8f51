//! Where a line of a tape ends: the first line feed of a text.
//! feed.rt cuts a piece with it, step.rt the lines of a piece.
ghost use Rattle.std.specs.Prelude.{◌≡◌, ◌<◌, ◌∷◌, ◌++◌, length, MatchOption, IfSome};
ghost use Rattle.nc_text.specs.Lines.{IsOneLine};

/// What stands before the first line feed and what stands after it, if there is one.
pub(crate) fn cut_at_line_feed(text: &[u8]) -> Option<(&[u8], &[u8])>
    ensures cut { MatchOption result (IsOneLine text.now)
        (λ parts. (text.now ≡ parts.0.now ++ 10 ∷ parts.1.now) × IsOneLine parts.0.now) }
    ensures shorter { IfSome result (λ parts. length parts.1.now < length text.now) }
{
    for (at, byte) in text.iter().enumerate() {
        if *byte == b'\n' {
            let (front, rest) = text.split_at(at);
            let (_, behind) = rest.split_at(1);
            return Some((front, behind));
        }
    }
    None
}
