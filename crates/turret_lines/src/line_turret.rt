//! A turret that writes a line for each thing that it gets.
ghost use Rattle.std.specs.Prelude.{◌≡◌, true, false, [], ◌∷◌, OnOk, OnErr, IsErr};
ghost use Rattle.std.specs.Option.{ForSome};
ghost use Rattle.nc_outside.specs.Faults.{CountsFault};
ghost use Rattle.nc_outside.specs.Received.{Receives};
ghost use Rattle.turret_lines.specs.Meetings.{is_written, standing_of, wait_in};
ghost use Rattle.turret_lines.specs.Stream.{HasPart, HasStream, got_text, stream_of, told_state};

use crate::meeting_lines::{meeting_line, met_behind, wait_line};
use crate::putting::put_both;
use crate::told::Told;
use move_text::{move_line, place_line};
use nc_number::Point;
use nc_outside::{Failed, Got, LinedMove, Rest, Sink, Turret};
use text_pieces::Piece;

/// A turret that writes a line to a sink for its place and for each move, as the report of a run
/// prints them. Before a wait it writes `wait M101`, with the code of the wait. Before the next line
/// behind that it writes `met 1 M101`: this path has met there, for the first time in this stream.
/// At its place and at the end of its path it writes nothing more.
///
/// It tells what it got. If the sink tells what was written, that is the lines of what the turret
/// got, and nothing else until a call has failed; a call that failed may have left a part of its
/// lines, from their start. After that each further call fails, and writes nothing.
#[derive(Drop)]
pub struct LineTurret<K: Sink + Drop> {
    /// Where the lines go.
    sink: K,
    /// What it got, for clauses alone.
    told: Told,
    /// How many meetings its stream tells.
    met: u64,
    /// The code of the wait at which its path stands, if nothing came behind it.
    waits: Option<u16>,
    /// How many calls it has had.
    calls: u64,
    /// How many calls have failed.
    faults: u64,
    ghost stands: { record { met = met; waits = waits } ≡ standing_of told.got },
    ghost whole: { faults ≡ 0 → ForSome (K.state sink).written (λ bytes. bytes ≡ stream_of told.got) },
    ghost parted: { ∥ ForSome (K.state sink).written (λ bytes. HasPart bytes told.got) ∥₁ },
}

impl<K: Sink + Drop> LineTurret<K> {
    /// A turret that got nothing yet, over a sink without bytes.
    pub fn new(sink: K) -> Self
        requires fresh { ForSome (K.state sink).written (λ bytes. bytes ≡ []) }
        ensures state { told_state result.told.got result.calls result.faults ≡ told_state [] 0 0 }
        ensures sink { K.state result.sink ≡ K.state sink }
    {
        LineTurret {
            sink,
            told: Told::nothing(),
            met: 0,
            waits: None,
            calls: 0,
            faults: 0,
        }
    }

    /// The sink of the turret. If it tells what was written, that is the lines of what the turret
    /// got; after a fault a part of what comes next may follow.
    pub fn sink(&self) -> &K
        ensures lines { HasStream (K.state result.now).written self.now.told.got self.now.faults }
    {
        &self.sink
    }

    /// Writes the line of a place, a move or a wait, behind that of the meeting at the wait before it,
    /// and keeps it as got; it rests at that wait, if it is one. After a call has failed each further
    /// one fails too, and writes nothing.
    fn write(&mut self, line: &Piece, what: &Got, waits: Option<u16>) -> Result<(), Failed>
        requires written { is_written what.now ≡ true }
        requires line { line.now ≡ got_text what.now }
        requires waits { waits ≡ wait_in what.now }
        ensures ok { OnOk result (Receives (told_state self.old.told.got self.old.calls self.old.faults)
            (told_state self.new.told.got self.new.calls self.new.faults) (what.now ∷ []) 1) }
        ensures err { OnErr result (Receives (told_state self.old.told.got self.old.calls self.old.faults)
            (told_state self.new.told.got self.new.calls self.new.faults) [] 1) }
        ensures fault { CountsFault self.old.faults self.new.faults (IsErr result) }
    {
        let calls = self.calls.saturating_add(1);
        let faults = self.faults.saturating_add(1);
        if self.faults > 0 {
            self.calls = calls;
            self.faults = faults;
            return Err(Failed);
        }
        let met = meeting_line(self.met, self.waits);
        match put_both(&mut self.sink, &met, line) {
            Ok(()) => {
                self.told = Told::with(&self.told, what);
                self.met = met_behind(self.met, self.waits);
                self.waits = waits;
                self.calls = calls;
                Ok(())
            }
            Err(_) => {
                self.calls = calls;
                self.faults = faults;
                Err(Failed)
            }
        }
    }

    /// Keeps a rest as got that has no line. After a call has failed each further one fails too.
    fn keep(&mut self, what: &Got) -> Result<(), Failed>
        requires { is_written what.now ≡ false }
        ensures ok { OnOk result (Receives (told_state self.old.told.got self.old.calls self.old.faults)
            (told_state self.new.told.got self.new.calls self.new.faults) (what.now ∷ []) 1) }
        ensures err { OnErr result (Receives (told_state self.old.told.got self.old.calls self.old.faults)
            (told_state self.new.told.got self.new.calls self.new.faults) [] 1) }
        ensures fault { CountsFault self.old.faults self.new.faults (IsErr result) }
    {
        let calls = self.calls.saturating_add(1);
        let faults = self.faults.saturating_add(1);
        if self.faults > 0 {
            self.calls = calls;
            self.faults = faults;
            return Err(Failed);
        }
        self.told = Told::with(&self.told, what);
        self.calls = calls;
        Ok(())
    }
}

impl<K: Sink + Drop> Turret for LineTurret<K> {
    ghost state = { λ t. told_state t.told.got t.calls t.faults };

    /// How many calls have failed, up to the last value of a u64.
    fn faults(&self) -> u64 {
        self.faults
    }

    /// Writes the line of the turret's place.
    fn place(&mut self, at: Point) -> Result<(), Failed> {
        self.write(&place_line(at), &Got::Placed(at), None)
    }

    /// Writes the line of a move.
    fn hand(&mut self, what: &LinedMove) -> Result<(), Failed> {
        self.write(&move_line(what.line, &what.what), &Got::Moved(*what), None)
    }

    /// Writes the line of a wait, and for another rest nothing. What it got before is written.
    fn settle(&mut self, at: Rest) -> Result<(), Failed> {
        match at {
            Rest::Wait(code) => self.write(&wait_line(code), &Got::Rested(at), Some(code)),
            Rest::Place => self.keep(&Got::Rested(at)),
            Rest::End => self.keep(&Got::Rested(at)),
        }
    }
}

/// Only a type whose values may go to another thread fits here.
fn crosses<T: Send>() {}

/// A law, and no code: a turret may go to another thread if its sink may.
pub fn line_turrets_cross<K: Sink + Drop + Send>() {
    crosses::<LineTurret<K>>();
}
