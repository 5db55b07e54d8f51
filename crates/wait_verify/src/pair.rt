//! What `waits` tells of an accepted pair: `verdict` answers it, `push_waits` prints it.
use label_list::LabelList;
use nc_number::Both;
use open_order::Trust;

/// What is told of a pair whose paths wait for each other in one order: the labels of both paths,
/// and what was taken on trust.
#[derive(Drop)]
pub struct WaitPair {
    /// The labels of each path with no free switch on: its waits and its end. Both have the same
    /// ones, each with the lines of its own tape.
    pub labels: Both<LabelList>,
    /// The codes and calls that are taken to go on to the next block, and the block-skip switches
    /// that change the labels.
    pub trust: Trust,
}
