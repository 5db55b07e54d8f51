//! A test of the stepper in memory (nc_outside) that answers as its list says: its answers, and the
//! calls that it keeps.
use nc_moves::{MoveList, Moves};
use nc_number::Path;
use nc_outside::{Call, Drain, Drainable, Halt, ListStepper, Next, Stepper};
use std::test::Fail;

/// That a line was drained along which so many moves were sent.
#[derive(Drop)]
struct Sent {
    /// How many moves were sent.
    count: u64,
}

impl Drain for Sent {
    ghost count = { λ sent. sent.count };

    fn count(&self) -> u64 {
        self.count
    }
}

/// What a call was, in a word, with its path.
fn told(call: &Call) -> (&'static str, Path) {
    match call {
        Call::Step { path, answer } => (word(answer), *path),
        Call::Drained { path, .. } => ("drained", *path),
        Call::Halt(Halt::Turret(path)) => ("halt", *path),
        Call::Halt(_) => ("another halt", Path::Two),
    }
}

/// The word for what a step answered.
fn word(answer: &Next) -> &'static str {
    match answer {
        Next::Silent => "silent",
        Next::Moves(_) => "moves",
        Next::Drain(_) => "drain",
        Next::Finished => "finished",
        Next::Halted(_) => "halted",
    }
}

/// Makes a step of the path, and gives the word for its answer.
fn step<S: Stepper>(stepper: &mut S, path: Path) -> &'static str {
    word(&stepper.step(path))
}

#[test]
fn it_answers_its_list_and_keeps_every_call(rt: HostRuntime) -> Result<(), Fail> {
    let alloc = rt.alloc();
    let mut answers = Vec::new(alloc);
    let list = MoveList::empty();
    answers.push(Next::Moves(Moves { line: 4, list }))?;
    answers.push(Next::Drain(101))?;
    let mut stepper = ListStepper::new(&rt, alloc, answers);
    assert_eq!(rt; step(&mut stepper, Path::One), "moves");
    assert_eq!(rt; step(&mut stepper, Path::One), "drain");
    stepper.drained(Path::One, Sent { count: 1 });
    assert_eq!(rt; step(&mut stepper, Path::Two), "finished");
    stepper.halt(Halt::Turret(Path::One));
    let mut seen = Vec::new(alloc);
    for call in stepper.calls() {
        seen.push(told(call))?;
    }
    let calls = [
        ("moves", Path::One),
        ("drain", Path::One),
        ("drained", Path::One),
        ("finished", Path::Two),
        ("halt", Path::One),
    ];
    assert_eq!(rt; seen.as_slice(), calls.as_slice());
    Ok(())
}
