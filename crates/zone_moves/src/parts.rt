//! A list of stretches in two parts, by where they lie. For contact.rt of this crate.
ghost use Rattle.std.specs.Prelude.{◌≡◌, ◌∷◌, ◌++◌, [], All, IfOk, OnOk};
ghost use Rattle.zone_moves.specs.Parts.{no_parts, parts_with, are_both, ArePartsOf, IsSpan};
ghost use Rattle.zone_moves.specs.Stretches.{IsPlaced};

use crate::span::{Span, widest_span};
use crate::stretch::Stretch;
use nc_number::NoMemory;
use std::alloc::Global;
use std::marker::Model;

/// Stretches in two parts.
#[derive(Debug, Drop)]
pub(crate) struct Parts {
    /// Those that lie before the middle.
    before: Vec<Stretch>,
    /// The others.
    behind: Vec<Stretch>,
}

impl Model for Parts {
    ghost use Rattle.zone_moves.specs.Parts;
    ghost use Rattle.zone_moves.specs.Parts.{ArePlaced};

    ghost Value = { Parts.PartsView };

    ghost view = { λ p. record { before = p.before.items; behind = p.behind.items } };

    ghost invariant = { λ p. ArePlaced (record { before = p.before.items; behind = p.behind.items }) };
}

impl Parts {
    /// No stretches.
    fn new(alloc: Global) -> Parts
        ensures { result ≡ no_parts }
    {
        Parts {
            before: Vec::new(alloc),
            behind: Vec::new(alloc),
        }
    }

    /// Adds a stretch that lies before the middle. The only error is out of memory.
    fn add_before(&mut self, stretch: &Stretch) -> Result<(), NoMemory>
        requires { IsPlaced stretch.now }
        ensures { OnOk result (self.new ≡ record self.old { before = self.old.before ++ stretch.now ∷ [] }) }
    {
        self.before.push(*stretch)?;
        Ok(())
    }

    /// Adds a stretch that does not. The only error is out of memory.
    fn add_behind(&mut self, stretch: &Stretch) -> Result<(), NoMemory>
        requires { IsPlaced stretch.now }
        ensures { OnOk result (self.new ≡ record self.old { behind = self.old.behind ++ stretch.now ∷ [] }) }
    {
        self.behind.push(*stretch)?;
        Ok(())
    }

    /// Adds a stretch to one of the parts. The only error is out of memory.
    fn add(&mut self, is_before: bool, stretch: &Stretch) -> Result<(), NoMemory>
        requires { IsPlaced stretch.now }
        ensures { OnOk result (self.new ≡ parts_with self.old is_before stretch.now) }
    {
        if is_before {
            self.add_before(stretch)
        } else {
            self.add_behind(stretch)
        }
    }

    /// Whether both parts have some.
    pub(crate) fn are_both(&self) -> bool
        ensures { result ≡ are_both self.now }
    {
        !self.before.is_empty() && !self.behind.is_empty()
    }

    /// Those that lie before the middle.
    pub(crate) fn before(&self) -> &[Stretch]
        ensures before { result.now ≡ self.now.before }
        ensures placed { All IsPlaced result.now }
    {
        self.before.as_slice()
    }

    /// Those that do not.
    pub(crate) fn behind(&self) -> &[Stretch]
        ensures behind { result.now ≡ self.now.behind }
        ensures placed { All IsPlaced result.now }
    {
        self.behind.as_slice()
    }
}

/// The stretches in two parts, by whether they lie before the middle of a span.
fn parted_at(alloc: Global, span: &Span, stretches: &[Stretch]) -> Result<Parts, NoMemory>
    requires span { IsSpan span.now }
    requires stretches { All IsPlaced stretches.now }
    ensures { IfOk result (λ parts. ArePartsOf parts stretches.now) }
{
    let mut parts = Parts::new(alloc);
    for stretch in stretches {
        parts.add(span.is_before(&stretch.area), stretch)?;
    }
    Ok(parts)
}

/// The stretches in two parts, by the edges that lie farthest apart. Both have some of them unless
/// all lie in one place. The only error is out of memory.
pub(crate) fn parted(alloc: Global, stretches: &[Stretch]) -> Result<Parts, NoMemory>
    requires { All IsPlaced stretches.now }
    ensures { IfOk result (λ parts. ArePartsOf parts stretches.now) }
{
    match stretches {
        [] => Ok(Parts::new(alloc)),
        [first, rest @ ..] => parted_at(alloc, &widest_span(first, rest), stretches),
    }
}
