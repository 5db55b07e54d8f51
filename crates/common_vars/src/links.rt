//! The writes of shared variables, linked so that an early value is found in few steps. Only
//! shared.rt uses the links; contracts above speak of the writes.
ghost use Rattle.std.specs.Prelude.{◌≡◌, ℕ, ◌<◌, IfSome, length, map};
ghost use Rattle.common_vars.specs.Writes.{value_after};
ghost use Rattle.common_vars.specs.Links.{AreLinked, IsLatestBefore, IsSomeBefore};

use nc_number::Var;
use std::marker::Model;
use std::mem::size_of;

/// One write of a shared variable.
#[derive(Clone, Copy, Debug)]
pub struct Write {
    /// How many records of the run there are up to that of the write, which counts too.
    pub stamp: u32,
    /// The variable's number.
    pub variable: u32,
    /// What the variable holds from then on.
    pub value: Var,
}

/// The place of a node, or none, in the room of one number.
#[derive(Debug, Drop)]
pub(crate) struct Link {
    /// The place counted from 1, or 0 for none.
    from_one: usize,
}

// Clauses see the place, if there is one.
impl Model for Link {
    ghost use Rattle.std.specs.Prelude.{ℕ, ◌-◌, ◌==◌, if◌then◌else◌, Option, Some, None};

    ghost Value = { Option ℕ };

    ghost view = { λ link. if link.from_one == 0 then None else Some (link.from_one - 1) };
}

impl Link {
    /// The link to a place, or to none. In its number 0 is none.
    fn to(place: Option<usize>) -> Link
        requires { IfSome place (λ i. i < usize.MAX) }
        ensures { result ≡ place }
    {
        Link {
            from_one: match place {
                Some(place) => place + 1,
                None => 0,
            },
        }
    }

    /// The place that the link leads to, if it leads to one.
    fn place(&self) -> Option<usize>
        ensures { result ≡ self.now }
    {
        if self.from_one == 0 {
            None
        } else {
            Some(self.from_one - 1)
        }
    }
}

/// A write, linked to earlier writes of the same variable.
#[derive(Debug, Drop)]
pub struct Node {
    /// The write itself.
    pub(crate) write: Write,
    /// The write of the same variable before this one.
    pub(crate) previous: Link,
    /// A write of the same variable further back, so chosen that any earlier write is a few steps
    /// away: a node jumps over two jumps of equal span, or else to the write before it.
    pub(crate) jump: Link,
    /// How many writes back `jump` leads.
    pub(crate) span: usize,
}

/// A run has a node for each write of a shared variable.
const _: () = prove!(size_of::<Node>() <= 48);

/// Where the jump of the node at a place leads, or none; with no place, none.
fn jump_from(nodes: &[Node], place: Option<usize>) -> Option<usize>
    requires linked { AreLinked nodes.now }
    requires inside { IfSome place (λ i. i < length nodes.now) }
    ensures inside { IfSome result (λ i. i < length nodes.now) }
    ensures variable { (v : ℕ) → IsSomeBefore nodes.now (length nodes.now) v place
        → IsSomeBefore nodes.now (length nodes.now) v result }
{
    nodes[place?].jump.place()
}

/// How many writes of its variable the jump of the node at a place goes back; with no place, 0.
fn span_at(nodes: &[Node], place: Option<usize>) -> usize
    requires { IfSome place (λ i. i < length nodes.now) }
{
    match place {
        Some(i) => nodes[i].span,
        None => 0,
    }
}

/// The node of a write that comes after `nodes`, and whose variable was last written at `previous`.
pub(crate) fn linked(nodes: &[Node], previous: Option<usize>, write: Write) -> Node
    requires linked { AreLinked nodes.now }
    requires previous { IsSomeBefore nodes.now (length nodes.now) write.variable previous }
    ensures write { result.write ≡ write }
    ensures previous { result.previous ≡ previous }
    ensures jump { IsSomeBefore nodes.now (length nodes.now) write.variable result.jump }
{
    let near = jump_from(nodes, previous);
    let span = span_at(nodes, previous);
    if span != span_at(nodes, near) {
        return Node {
            write,
            previous: Link::to(previous),
            jump: Link::to(previous),
            span: 1,
        };
    }
    Node {
        write,
        previous: Link::to(previous),
        jump: Link::to(jump_from(nodes, near)),
        span: span.saturating_mul(2).saturating_add(1),
    }
}

/// What variable `v` holds after the first `stamp` records, if `latest` is its latest node.
///
/// Each step either jumps or goes to the write before. The spans are those of skew binary
/// numbers, so that the steps are at most about three times the logarithm of the number of writes
/// of `v`.
pub(crate) fn value_at(nodes: &[Node], latest: Option<usize>, stamp: u32, v: u32) -> Var
    requires linked { AreLinked nodes.now }
    requires latest { IsLatestBefore nodes.now (length nodes.now) v latest }
    ensures { result ≡ value_after stamp v (map (λ node. node.write) nodes.now) }
{
    let mut place = latest;
    while let Some(here) = place {
        let node = &nodes[here];
        if node.write.stamp <= stamp {
            return node.write.value;
        }
        place = match node.jump.place() {
            Some(far) if nodes[far].write.stamp > stamp => Some(far),
            _ => node.previous.place(),
        };
    }
    Var::Vacant
}
