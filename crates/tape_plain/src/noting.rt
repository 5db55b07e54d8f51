//! Which lines of a text have a skip sign.
ghost use Rattle.std.specs.Prelude.{◌≡◌, IfOk};
ghost use Rattle.tape_plain.specs.Skips.{opening, sight_behind, skips_from, skips_of};

use std::alloc::{AllocError, Global};

/// What was seen of a line so far.
#[derive(Clone, Copy, Debug, PartialEq, Eq)]
pub struct Sight {
    /// Whether its block has begun.
    pub began: bool,
    /// Whether it began with a skip sign.
    pub skip: bool,
    /// Whether a comment is open.
    pub inside: bool,
}

/// Nothing was seen of the line yet.
fn opening() -> Sight
    ensures { result ≡ opening }
{
    Sight {
        began: false,
        skip: false,
        inside: false,
    }
}

/// What was seen of the line once this byte of it was seen.
fn sight_behind(sight: Sight, byte: u8) -> Sight
    ensures { result ≡ sight_behind sight byte }
{
    if sight.inside {
        return Sight {
            began: sight.began,
            skip: sight.skip,
            inside: byte != b')',
        };
    }
    if byte == b'(' {
        return Sight {
            began: sight.began,
            skip: sight.skip,
            inside: true,
        };
    }
    if byte <= b' ' || sight.began {
        return sight;
    }
    Sight {
        began: true,
        skip: byte == b'/',
        inside: false,
    }
}

/// For each line of the text whether its block begins with a skip sign, from line 1 on.
pub(crate) fn skips_of(alloc: Global, text: &[u8]) -> Result<Vec<bool>, AllocError>
    ensures { IfOk result (λ skips. skips.items ≡ skips_of text.now) }
{
    let mut skips = Vec::new(alloc);
    let mut sight = opening();
    for byte in text {
        if *byte == b'\n' {
            skips.push(sight.skip)?;
            sight = opening();
            continue;
        }
        sight = sight_behind(sight, *byte);
    }
    skips.push(sight.skip)?;
    Ok(skips)
}
