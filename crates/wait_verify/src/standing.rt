//! The labels of a pair at one position of its block-skip switches. positions.rt lists them,
//! hangings.rt compares them.
use label_list::LabelList;
use nc_number::Both;

/// The labels of both paths at a position of the block-skip switches.
#[derive(Drop)]
pub struct Standing {
    /// The free switches that are on: bit n is switch n.
    pub switches: u16,
    /// The labels of path 1.
    pub one: LabelList,
    /// The labels of path 2.
    pub two: LabelList,
}

impl Standing {
    ghost use Rattle.std.specs.Prelude.{◌≡◌};

    /// The labels of both paths at this position.
    pub(crate) fn of(switches: u16, labels: Both<LabelList>) -> Self
        ensures { result ≡ record { switches = switches; one = labels.one; two = labels.two } }
    {
        let Both { one, two } = labels;
        Standing { switches, one, two }
    }
}
