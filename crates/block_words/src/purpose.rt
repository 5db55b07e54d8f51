//! What a block is for, which decides the meaning of its P and L. Which purpose a block has is found
//! by the functions of codes.rt. The meaning of each purpose is in specs/Purposes.antt and
//! specs/Ranges.antt.
ghost use Rattle.std.specs.Prelude.{◌≡◌};

/// What decides the meaning of the addresses P and L, and in a dwell of X and U.
#[derive(Clone, Copy, Debug, PartialEq, Eq)]
pub enum Purpose {
    /// G65: a call of a macro, in which every other letter is an argument.
    MacroCall,
    /// M98: a call of a subprogram.
    Subprogram,
    /// M99: a return.
    Return,
    /// A waiting M code.
    Wait,
    /// G04: a dwell.
    Dwell,
    /// G10: the setting of an offset.
    Setting,
    /// None of these: the block has no use for P and L.
    Other,
}

impl Purpose {
    ghost use Rattle.block_words.specs.Purposes.{fixed_letters, is_idle_p, is_idle_l};

    /// The letters whose words must be written out.
    pub fn fixed_letters(self) -> &'static [u8]
        ensures { result.now ≡ fixed_letters self }
    {
        match self {
            Purpose::MacroCall => b"GNOPL",
            Purpose::Subprogram | Purpose::Return => b"GNOMPL",
            Purpose::Setting => b"GNOML",
            Purpose::Wait | Purpose::Dwell | Purpose::Other => b"GNOM",
        }
    }

    /// Whether P has no meaning in the block.
    pub fn is_idle_p(self) -> bool
        ensures { result ≡ is_idle_p self }
    {
        matches!(self, Purpose::Other)
    }

    /// Whether L has no meaning in the block.
    pub fn is_idle_l(self) -> bool
        ensures { result ≡ is_idle_l self }
    {
        !matches!(
            self,
            Purpose::MacroCall | Purpose::Subprogram | Purpose::Setting
        )
    }
}
