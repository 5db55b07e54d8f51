//! The axis along which a cycle cuts, and blocks that move along it or beside it.
ghost use Rattle.std.specs.Prelude.{◌≡◌};
ghost use Rattle.peck_cycle.specs.Axes.{block_along, block_beside};

use plain_block::{Course, PlainBlock};

/// The axis along which a cycle cuts. The other one is beside it. Places in X are diameters.
#[derive(Clone, Copy, Debug, PartialEq, Eq)]
pub enum Along {
    /// Along Z: G74, G83, G84, G85.
    Z,
    /// In X: G75, G87, G88, G89.
    X,
}

impl Along {
    /// A block that moves along the axis alone.
    pub(crate) fn block(&self, course: Course, to: i64) -> PlainBlock
        ensures { result ≡ block_along self.now course to }
    {
        match *self {
            Along::Z => PlainBlock::along_to(course, to),
            Along::X => PlainBlock::across_to(course, to),
        }
    }

    /// A block that moves beside it alone.
    pub(crate) fn beside(&self, course: Course, to: i64) -> PlainBlock
        ensures { result ≡ block_beside self.now course to }
    {
        match *self {
            Along::Z => PlainBlock::across_to(course, to),
            Along::X => PlainBlock::along_to(course, to),
        }
    }
}
