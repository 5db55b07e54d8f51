//! A list of names that only clauses read: what a shelf in memory was asked for. It has no bytes,
//! so its two functions are proved by hand (proofs/asked). For memory_shelf.rt of this crate alone.
ghost use Rattle.std.specs.Prelude.{◌≡◌, ℕ, List, [], ◌∷◌, ◌++◌};
ghost use Rattle.std.specs.Borrow.{ftrue};

use std::marker::{Model, PhantomData};

/// The names that a shelf was asked for, in order. It takes no memory.
#[derive(Drop)]
pub struct Asked {
    /// Nothing: the names are in clauses alone.
    marker: PhantomData<u8>,
    pub ghost names: { List (List ℕ) },
}

impl Model for Asked {
    ghost also_owns = { λ _. ftrue };
}

impl Asked {
    /// The list without a name.
    pub(crate) fn none() -> Asked
        ensures { result.names ≡ [] }
    {
        Asked {
            marker: PhantomData,
        }
    }

    /// Adds a name after the others.
    pub(crate) fn note(&mut self, _name: &[u8])
        ensures { self.new.names ≡ self.old.names ++ _name.now ∷ [] }
    {}
}
