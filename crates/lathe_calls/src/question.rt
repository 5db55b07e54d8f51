//! What is asked of three texts: a variant for each question. A new one needs its line in
//! specs/Due.antt and its arm in answering.rt.
use open_order::Outside;

/// What is asked of three texts.
#[derive(Clone, Copy, Debug, PartialEq, Eq)]
pub enum Question {
    /// The verdict.
    Verify,
    /// The report of the run whose paths take turns, of so many records at most.
    Run(u32),
    /// The trace of that run, with the races of the pair.
    Trace(u32),
    /// The state of the machine after the records of that run.
    State(u32),
    /// The meetings of both tapes, read for their waits alone; they may lack the programs outside.
    Waits(Option<Outside>),
    /// The races of the pair for shared variables.
    Races,
}
