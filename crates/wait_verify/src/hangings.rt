//! The block-skip switches on which the waits or the end of a path depend: the lists of labels at
//! all positions, compared. specs/Hangings.antt defines them.
ghost use Rattle.std.specs.Prelude.{[], ◌≡◌, ◌∷◌, ◌≤◌, IfOk};
ghost use Rattle.wait_verify.specs.Hangings.{labels_of, first_change, change_from, change_in, hanging_of, hangs, hangings_to};

use crate::standing::Standing;
use crate::switches::with_switch;
use label_list::Labelled;
use nc_number::{NoMemory, Path};
use open_order::Hanging;
use std::alloc::Global;

/// The labels of a path at a position.
fn labels_of(path: Path, standing: &Standing) -> &[Labelled]
    ensures { result.now ≡ labels_of path standing.now }
{
    match path {
        Path::One => standing.one.as_slice(),
        Path::Two => standing.two.as_slice(),
    }
}

/// The line of the first label, if there is one.
fn first_line(labels: &[Labelled]) -> Option<u32>
    ensures { result ≡ first_change [] labels.now }
{
    match labels {
        [] => None,
        [first, ..] => Some(first.line),
    }
}

/// The line of the first label of which another list of the path has none at that place, or one of
/// another line.
fn first_change(own: &[Labelled], other: &[Labelled]) -> Option<u32>
    ensures { result ≡ first_change own.now other.now }
{
    let mut left = own;
    let mut right = other;
    while let Some((one, more)) = left.split_first() {
        let Some((two, others)) = right.split_first() else {
            return Some(one.line);
        };
        if one.line != two.line {
            return Some(one.line);
        }
        left = more;
        right = others;
    }
    first_line(right)
}

/// The first change of a path's list from a position to the one with these switches, if that is
/// among all.
fn change_from(path: Path, own: &Standing, switches: u16, all: &[Standing]) -> Option<u32>
    ensures { result ≡ change_from path own.now switches all.now }
{
    for other in all {
        if other.switches == switches {
            return first_change(labels_of(path, own), labels_of(path, other));
        }
    }
    None
}

/// The first change of a path's list that a switch makes, from one of all positions to the same with
/// the switch.
fn change_in(path: Path, switch: u8, all: &[Standing]) -> Option<u32>
    requires { switch ≤ 9 }
    ensures { result ≡ change_in path switch all.now all.now }
{
    for own in all {
        let change = change_from(path, own, with_switch(own.switches, switch), all);
        if change.is_some() {
            return change;
        }
    }
    None
}

/// What a switch changes at all positions.
fn hanging_of(all: &[Standing], switch: u8) -> Hanging
    requires { switch ≤ 9 }
    ensures { result ≡ hanging_of all.now switch }
{
    Hanging {
        switch,
        one: change_in(Path::One, switch, all),
        two: change_in(Path::Two, switch, all),
    }
}

/// Whether the switch changes the list of a path.
fn hangs(hanging: Hanging) -> bool
    ensures { result ≡ hangs hanging }
{
    hanging.one.is_some() || hanging.two.is_some()
}

/// The switches that change the list of a path, in rising order, by the labels at all positions. The
/// only error is out of memory.
pub(crate) fn hangings(alloc: Global, all: &[Standing]) -> Result<Vec<Hanging>, NoMemory>
    ensures { IfOk result (λ found. found.items ≡ hangings_to 9 all.now) }
{
    let mut found = Vec::new(alloc);
    for below in 0..9u8 {
        let hanging = hanging_of(all, below + 1);
        if hangs(hanging) {
            found.push(hanging)?;
        }
    }
    Ok(found)
}
