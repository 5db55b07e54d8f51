//! A sink that is a text in memory.
//! `answer` (answering.rt) has its text written there before it hands it out.
ghost use Rattle.std.specs.Prelude.{◌≡◌, ◌≢◌, [], ◌++◌, Err, if◌then◌else◌, is_ok};
ghost use Rattle.lathe_calls.specs.Texts.{sink_with};

use nc_outside::{PutFault, Sink};
use std::alloc::Global;
use std::marker::Model;

/// A text in memory. It fails only if memory runs out.
#[derive(Drop)]
pub struct TextSink {
    /// The bytes of the text.
    bytes: Vec<u8>,
}

impl Model for TextSink {
    ghost use Rattle.std.specs.Prelude.{ℕ, List};

    ghost Value = { List ℕ };

    ghost view = { λ text. text.bytes.items };
}

impl TextSink {
    /// A text without a byte.
    pub fn empty(alloc: Global) -> Self
        ensures { result ≡ [] }
    {
        TextSink {
            bytes: Vec::new(alloc),
        }
    }

    /// What was written.
    pub fn as_slice(&self) -> &[u8]
        ensures { result.now ≡ self.now }
    {
        self.bytes.as_slice()
    }
}

impl Sink for TextSink {
    ghost state = { sink_with };

    /// Always 0: out of memory is no fault that is counted.
    fn faults(&self) -> u64 {
        0
    }

    /// Appends the whole piece, or nothing if memory runs out.
    fn put(&mut self, piece: &[u8]) -> Result<(), PutFault>
        ensures never { result ≢ Err PutFault.Failed }
        ensures new { self.new ≡ (if is_ok result then self.old ++ piece.now else self.old) }
    {
        self.bytes.extend_from_slice(piece)?;
        Ok(())
    }
}
