//! The blocks of a program that may not stand in a contour, and its marks, counted once: so each
//! contour of the program is judged by two counts, and each block knows its stretch.
//! specs/Counts.antt defines them.
//! cycles.rt and doubles.rt ask for them.
ghost use Rattle.std.specs.Prelude.{◌≡◌, ◌+◌, ◌<◌, ◌≤◌, ◌^◌, ◌==◌, length, get_or, IfOk};
ghost use Rattle.block_order.specs.Loud.{loud};
ghost use Rattle.block_order.specs.Order.{blocks};
ghost use Rattle.open_order.specs.declared.counts.Counting.TheVariants as Counting;
ghost use Rattle.open_order.specs.Contours.{disturbs, is_calm};
ghost use Rattle.open_order.specs.Counts.{is_mark, is_counted, count_behind, counts_from};

use block_order::{BlockOrder, Control, ControlBlock};
use nc_number::NoMemory;
use std::alloc::Global;

/// Which blocks of a program are counted.
#[derive(Clone, Copy, Debug, PartialEq, Eq)]
pub(crate) enum Counting {
    /// Those that may not stand in a contour.
    Disturbing,
    /// The marks, which cut the program into stretches.
    Marks,
}

/// Whether a block of this control may not stand in a contour: a wait, an end, an M99, or a call of
/// a program that waits or ends.
fn disturbs(order: &BlockOrder, control: Control) -> bool
    ensures { result ≡ disturbs (loud order.now) control }
{
    match control {
        Control::Wait(_) | Control::End | Control::Back | Control::BackTo(_) => true,
        Control::Call {
            program,
            repeats: _,
        } => order.is_loud(program),
        _ => false,
    }
}

/// Whether a block of this control is a mark, behind which another stretch begins: a wait, an end, an
/// M99 without a number, or a call of a program that waits or ends.
fn is_mark(order: &BlockOrder, control: Control) -> bool
    ensures { result ≡ is_mark (loud order.now) control }
{
    match control {
        Control::Wait(_) | Control::End | Control::Back => true,
        Control::Call {
            program,
            repeats: _,
        } => order.is_loud(program),
        _ => false,
    }
}

/// Whether a block of this control is counted.
fn is_counted(order: &BlockOrder, counting: Counting, control: Control) -> bool
    ensures { result ≡ is_counted (loud order.now) counting control }
{
    match counting {
        Counting::Disturbing => disturbs(order, control),
        Counting::Marks => is_mark(order, control),
    }
}

/// The count with a block of this control.
fn count_behind(order: &BlockOrder, counting: Counting, count: u64, control: Control) -> u64
    requires { count + 1 < 2 ^ 64 }
    ensures value { result ≡ count_behind (loud order.now) counting count control }
    ensures more { result ≤ count + 1 }
{
    if is_counted(order, counting, control) {
        count + 1
    } else {
        count
    }
}

/// How many of the first blocks are counted: of none, of one, and so on up to all. The only error is out
/// of memory.
fn counts_in(
    alloc: Global,
    order: &BlockOrder,
    counting: Counting,
    inside: &[ControlBlock],
) -> Result<Vec<u64>, NoMemory>
    ensures { IfOk result (λ counts. counts.items ≡ counts_from (loud order.now) counting 0 inside.now) }
{
    let mut counts = Vec::new(alloc);
    let mut count = 0u64;
    for block in inside {
        counts.push(count)?;
        count = count_behind(order, counting, count, block.control);
    }
    counts.push(count)?;
    Ok(counts)
}

/// How many of the first blocks of a program are counted. The only error is out of memory.
pub(crate) fn counts_of(
    alloc: Global,
    order: &BlockOrder,
    counting: Counting,
    program: u16,
) -> Result<Vec<u64>, NoMemory>
    ensures { IfOk result (λ counts. counts.items
        ≡ counts_from (loud order.now) counting 0 (blocks order.now program)) }
{
    counts_in(alloc, order, counting, order.blocks(program))
}

/// Whether as many blocks may not stand in a contour before this one as up to that one.
fn is_same_count(counts: &[u64], first: usize, last: usize) -> bool
    requires rises { first ≤ last }
    requires within { last + 1 < length counts.now }
    ensures { result ≡ (get_or counts.now first 0 == get_or counts.now (last + 1) 0) }
{
    counts[first] == counts[last + 1]
}

/// Whether a contour is allowed: it does not end before it begins, and no block of it is one that
/// may not stand in a contour.
pub(crate) fn is_calm(
    order: &BlockOrder,
    program: u16,
    counts: &[u64],
    first: usize,
    last: usize,
) -> bool
    requires within { last < length (blocks order.now program) }
    requires counts { counts.now ≡ counts_from (loud order.now) Counting.Disturbing 0 (blocks order.now program) }
    ensures { result ≡ is_calm (loud order.now) (blocks order.now program) first last }
{
    if first > last {
        return false;
    }
    is_same_count(counts, first, last)
}
