//! The list of the labels of a path, as a type: it is never too long, and only its last label ends
//! the path.
ghost use Rattle.std.specs.Prelude.{◌≡◌, ◌≤◌, length};
ghost use Rattle.nc_number.specs.declared.limits.TheConstants.{MOST_LABELS};
ghost use Rattle.label_list.specs.Lists.{IsEnded, IsListed};

use crate::labelled::Labelled;
use std::marker::Model;

/// The labels of a path in their order, at most 65,536. The last one, and no other, is `End`,
/// `Again` or `Off`.
#[derive(Debug, Drop)]
pub struct LabelList {
    /// The labels with their lines.
    labels: Vec<Labelled>,
}

impl Model for LabelList {
    ghost use Rattle.std.specs.Prelude.{List};
    ghost use Rattle.label_list.specs.declared.labelled.Labelled.{Labelled};
    ghost use Rattle.label_list.specs.Lists.{IsListed};

    ghost Value = { List Labelled };

    ghost view = { λ list. list.labels.items };

    ghost invariant = { λ list. IsListed list.labels.items };
}

impl LabelList {
    /// The list of these labels, which end as a path ends.
    pub(crate) fn of(labels: Vec<Labelled>) -> Self
        requires { IsListed labels.items }
        ensures { result ≡ labels.items }
    {
        LabelList { labels }
    }

    /// The labels, in their order.
    pub fn as_slice(&self) -> &[Labelled]
        ensures same { result.now ≡ self.now }
        ensures ended { IsEnded self.now }
        ensures few { length self.now ≤ MOST_LABELS }
    {
        self.labels.as_slice()
    }
}
