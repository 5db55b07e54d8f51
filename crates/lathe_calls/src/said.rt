//! What a call says beside its text: its status, and how long the whole is. answering.rt, handing.rt
//! and happening.rt make it.
ghost use Rattle.std.specs.Prelude.{◌≡◌};
ghost use Rattle.lathe_calls.specs.Said.{answer_with};

/// What a call says of what it handed out: the status, as the program's, and how many items the
/// whole has, also those that found no room.
#[derive(Clone, Copy, Debug, PartialEq, Eq)]
pub struct Said {
    /// The status of the call, as the program exits with it.
    pub status: u8,
    /// The length of the whole of what is due: bytes of a text, or events. It may be more than the
    /// room.
    pub len: usize,
}

impl Said {
    /// There is nothing to hand out, only this status.
    pub fn nothing(status: u8) -> Said
        ensures { result ≡ answer_with status 0 }
    {
        Said { status, len: 0 }
    }
}
