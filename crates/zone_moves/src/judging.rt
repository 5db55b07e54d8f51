//! Whether the stretches of both paths are clear of each other and of what stands in the cell, or
//! what is hit first.
ghost use Rattle.std.specs.Prelude.{◌≡◌, IfOk};
ghost use Rattle.zone_moves.specs.Judged.{pair_hit, barred_hit, judged};
ghost use Rattle.nc_number.specs.declared.path.Path.TheVariants.{One, Two};

use crate::cell::Cell;
use crate::fixed::{Barred, first_barred};
use crate::pairs::first_pair;
use crate::stretch::Stretch;
use crate::trail::Trail;
use nc_number::{Both, NoMemory, Path};
use std::alloc::Global;

/// What comes within the gap.
#[derive(Clone, Copy, Debug, PartialEq, Eq)]
pub enum Hit {
    /// A stretch of each path.
    Paths {
        one: Stretch,
        two: Stretch,
    },
    /// A stretch of a path, and the fixed box of this number.
    Fixed {
        path: Path,
        stretch: Stretch,
        number: u32,
    },
}

/// The hit of two stretches, if there are two, else one that is found later.
fn pair_hit(pair: Option<Both<Stretch>>, later: Option<Hit>) -> Option<Hit>
    ensures { result ≡ pair_hit pair later }
{
    match pair {
        Some(Both { one, two }) => Some(Hit::Paths { one, two }),
        None => later,
    }
}

/// The hit of a stretch and a box, if there is one, else one that is found later.
fn barred_hit(path: Path, barred: Option<Barred>, later: Option<Hit>) -> Option<Hit>
    ensures { result ≡ barred_hit path barred later }
{
    match barred {
        Some(Barred { stretch, fixed }) => Some(Hit::Fixed {
            path,
            stretch,
            number: fixed.number,
        }),
        None => later,
    }
}

/// What is hit: the first stretch of path 1 that comes within the gap of one of path 2, with the
/// first such one; else the first stretch of path 1 that comes within the gap of a box that bars it,
/// else that of path 2. None if all keep the gap. The only error is out of memory.
pub fn judge(
    alloc: Global,
    cell: &Cell,
    left: &Trail,
    right: &Trail,
) -> Result<Option<Hit>, NoMemory>
    ensures { IfOk result (λ hit. hit ≡ judged cell.now left.now.stretches right.now.stretches) }
{
    let gap = cell.gap();
    let pair = first_pair(alloc, &gap, left.stretches(), right.stretches())?;
    let one = first_barred(&gap, Path::One, cell.boxes(), left.stretches());
    let two = first_barred(&gap, Path::Two, cell.boxes(), right.stretches());
    Ok(pair_hit(
        pair,
        barred_hit(Path::One, one, barred_hit(Path::Two, two, None)),
    ))
}
