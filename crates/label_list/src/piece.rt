//! The labels of one program, as they grow, and how it ends. For this crate alone: listing.rt makes
//! and joins pieces.
ghost use Rattle.std.specs.Prelude.{◌≡◌, ◌≤◌, ◌∷◌, [], length, OnOk, IfOk, IfErr};
ghost use Rattle.nc_number.specs.declared.limits.TheConstants.{MOST_LABELS};
ghost use Rattle.block_order.specs.Answers.{IfFault};
ghost use Rattle.label_list.specs.Lists.{label_with_line};
ghost use Rattle.label_list.specs.Pieces.{repeated_labels, copies, stop_of, IsTooLong, IsAppended};

use crate::fault::PairFault;
use crate::labelled::Labelled;
use block_order::Label;
use nc_number::{Failing, MOST_LABELS};

/// What comes behind the labels of a program.
#[derive(Clone, Copy, Debug, PartialEq, Eq)]
pub(crate) enum Ending {
    /// Nothing: the path ends there.
    Stops,
    /// The caller goes on: the program returns by an M99 at this line.
    Returns(u32),
}

/// The labels of a program, and what comes behind them.
#[derive(Debug, Drop)]
pub(crate) struct Piece {
    /// Its labels with their lines, in their order.
    pub(crate) labels: Vec<Labelled>,
    /// Whether the path ends with the program or the caller goes on.
    pub(crate) ending: Ending,
}

/// Adds a label, or refuses it with 70 if there are 65,536 already.
pub(crate) fn push_label(
    labels: &mut Vec<Labelled>,
    label: Labelled,
) -> Result<(), Failing<PairFault>>
    ensures added { OnOk result (IsAppended labels.old.items labels.new.items (label ∷ [])) }
    ensures many { IfErr result (λ error. IfFault error (IsTooLong labels.old.items (label ∷ []))) }
{
    if labels.len() >= MOST_LABELS {
        return Err(Failing::Fault(PairFault::too_many_labels()));
    }
    labels.push(label)?;
    Ok(())
}

/// Adds a label at a line. The answer is the given ending: how the program ends behind it, if it
/// does.
pub(crate) fn push_at(
    labels: &mut Vec<Labelled>,
    label: Label,
    line: u32,
    ending: Option<Ending>,
) -> Result<Option<Ending>, Failing<PairFault>>
    ensures added { OnOk result (IsAppended labels.old.items labels.new.items (label_with_line label line ∷ [])) }
    ensures ending { IfOk result (λ told. told ≡ ending) }
    ensures many { IfErr result (λ error. IfFault error
        (IsTooLong labels.old.items (label_with_line label line ∷ []))) }
{
    match push_label(labels, Labelled { label, line }) {
        Ok(()) => Ok(ending),
        Err(error) => Err(error),
    }
}

/// Adds the labels of a program.
fn append(labels: &mut Vec<Labelled>, more: &[Labelled]) -> Result<(), Failing<PairFault>>
    requires { length labels.old.items ≤ MOST_LABELS }
    ensures added { OnOk result (IsAppended labels.old.items labels.new.items more.now) }
    ensures many { IfErr result (λ error. IfFault error (IsTooLong labels.old.items more.now)) }
{
    for label in more {
        match push_label(labels, *label) {
            Ok(()) => {}
            Err(error) => return Err(error),
        }
    }
    Ok(())
}

/// Adds the labels of a program so many times. Repeats without a label cost nothing.
fn append_times(
    labels: &mut Vec<Labelled>,
    more: &[Labelled],
    times: u16,
) -> Result<(), Failing<PairFault>>
    requires { length labels.old.items ≤ MOST_LABELS }
    ensures added { OnOk result (IsAppended labels.old.items labels.new.items (repeated_labels times more.now)) }
    ensures many { IfErr result (λ error. IfFault error (IsTooLong labels.old.items (repeated_labels times more.now))) }
{
    if more.is_empty() {
        return Ok(());
    }
    for _time in 0..times {
        match append(labels, more) {
            Ok(()) => {}
            Err(error) => return Err(error),
        }
    }
    Ok(())
}

impl Piece {
    /// Adds these labels to those of the program that makes the call so many times, at least once.
    /// The answer is the ending of that program, if nothing comes behind these labels.
    pub(crate) fn append_to(
        &self,
        labels: &mut Vec<Labelled>,
        times: u16,
    ) -> Result<Option<Ending>, Failing<PairFault>>
        requires { length labels.old.items ≤ MOST_LABELS }
        ensures added { OnOk result (IsAppended labels.old.items labels.new.items
            (copies self.now.ending times self.now.labels.items)) }
        ensures stops { IfOk result (λ ending. ending ≡ stop_of self.now.ending) }
        ensures many { IfErr result (λ error. IfFault error (IsTooLong labels.old.items
            (copies self.now.ending times self.now.labels.items))) }
    {
        match self.ending {
            Ending::Stops => match append(labels, self.labels.as_slice()) {
                Ok(()) => Ok(Some(Ending::Stops)),
                Err(error) => Err(error),
            },
            Ending::Returns(_) => match append_times(labels, self.labels.as_slice(), times) {
                Ok(()) => Ok(None),
                Err(error) => Err(error),
            },
        }
    }
}
