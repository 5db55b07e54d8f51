//! A stepper that answers a stated list, for tests of what is over a stepper.
ghost use Rattle.std.specs.Prelude.{◌≡◌, ◌<◌, [], ◌∷◌, ◌++◌, Some, drop, vec_len, vec_capacity};
ghost use Rattle.nc_outside.specs.Kept.{next_answer};

use crate::{Call, Drain, Drainable, Halt, Next, Stepper};
use nc_number::Path;
use std::alloc::Global;
use std::collections::VecDeque;
use std::marker::Model;
use std::sync::Wait;

/// Answers a stated list, and after it that the path has finished. It keeps its calls; if there
/// is no memory for one more, that call does not return.
#[derive(Drop)]
pub struct ListStepper<'r, R> {
    /// Waits for memory.
    rt: &'r R,
    /// The answers that are still to come.
    coming: VecDeque<Next>,
    /// The calls so far, in order.
    calls: Vec<Call>,
}

impl<'r, R> Model for ListStepper<'r, R> {
    ghost use Rattle.nc_outside.specs.Kept.{KeptCalls};

    ghost Value = { KeptCalls };

    ghost view = { λ s. record { coming = s.coming.items; calls = s.calls.items } };
}

impl<'r, R> ListStepper<'r, R> {
    /// A stepper that had no call yet and is to answer these, the first first.
    pub fn new(rt: &'r R, alloc: Global, answers: Vec<Next>) -> Self
        ensures { result ≡ record { coming = answers.items; calls = [] } }
    {
        ListStepper {
            rt,
            coming: VecDeque::from_vec(answers),
            calls: Vec::new(alloc),
        }
    }

    /// The calls that it had, in order.
    pub fn calls(&self) -> &[Call]
        ensures { result.now ≡ self.now.calls }
    {
        self.calls.as_slice()
    }
}

/// Makes room for one call more. If there is no memory for it, it does not return.
fn make_room<R: Wait>(rt: &R, calls: &mut Vec<Call>)
    ensures items { calls.new.items ≡ calls.old.items }
    ensures room { vec_len calls.new < vec_capacity calls.new }
{
    for _ in rt.forever() {
        match calls.reserve(1) {
            Ok(()) => return,
            Err(_) => {}
        }
    }
    unreachable!()
}

impl<'r, R: Wait> ListStepper<'r, R> {
    /// Keeps one call.
    fn note(&mut self, call: Call)
        ensures { self.new ≡ record self.old { calls = self.old.calls ++ call ∷ [] } }
    {
        make_room(self.rt, &mut self.calls);
        self.calls.push_reserved(call);
    }
}

impl<'r, R: Wait> Stepper for ListStepper<'r, R> {
    type Origin = ();

    ghost calls = { λ s. Some s.calls };

    ghost origin = { λ _. tt };

    /// The next answer of the list, or that the path has finished if none is left.
    fn step(&mut self, path: Path) -> Next
        ensures answer { result ≡ next_answer self.old }
        ensures new { self.new ≡ record {
          coming = drop 1 self.old.coming;
          calls = self.old.calls ++ Call.Step path result ∷ [];
        } }
    {
        let answer = self.coming.pop_front().unwrap_or(Next::Finished);
        let told = answer.copy();
        self.note(Call::Step { path, answer: told });
        answer
    }

    /// Keeps the halt among the calls.
    fn halt(&mut self, why: Halt)
        ensures new { self.new ≡ record self.old { calls = self.old.calls ++ Call.Halt why ∷ [] } }
    {
        self.note(Call::Halt(why));
    }
}

impl<'r, R: Wait, P: Drain> Drainable<P> for ListStepper<'r, R> {
    /// Keeps the drain among the calls, with its count.
    fn drained(&mut self, path: Path, proof: P)
        ensures new { self.new ≡ record self.old { calls = self.old.calls ++ Call.Drained path (P.count proof) ∷ [] } }
    {
        self.note(Call::Drained {
            path,
            count: proof.count(),
        });
    }
}
