//! What is asked of one tape and its settings: a variant for each question. A new one needs its
//! line in specs/Due.antt and its arm in answering.rt.

/// What is asked of one tape and its settings.
#[derive(Clone, Copy, Debug, PartialEq, Eq)]
pub enum TapeQuestion {
    /// The tape with its roughing cycles as plain blocks. The settings are not looked at.
    Expand,
    /// The tape in the language that the control runs, as the settings say that it is read.
    Plain,
}
