//! What a turret got, for clauses alone: it has no bytes, so its two functions are proved by hand
//! (proofs/told). For line_turret.rt of this crate alone.
ghost use Rattle.std.specs.Prelude.{◌≡◌, List, [], ◌∷◌, ◌++◌};
ghost use Rattle.std.specs.Borrow.{ftrue};
ghost use Rattle.nc_outside.specs.declared.got.Got.{Got};

use nc_outside::Got;
use std::marker::Model;

/// What a turret got, in order. Only clauses read it, and it takes no memory.
#[derive(Drop)]
pub struct Told {
    pub ghost got: { List Got },
}

impl Model for Told {
    ghost also_owns = { λ _. ftrue };
}

// It owns nothing.
unsafe impl Send for Told {}

impl Told {
    /// The empty list: what a turret got that was not called yet.
    pub(crate) fn nothing() -> Told
        ensures { result.got ≡ [] }
    {
        Told {}
    }

    /// What a turret got before, and this place or move after it.
    pub(crate) fn with(_before: &Told, _what: &Got) -> Told
        ensures { result.got ≡ _before.now.got ++ _what.now ∷ [] }
    {
        Told {}
    }
}
