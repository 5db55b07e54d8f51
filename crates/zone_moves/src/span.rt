//! How far apart the same edges of stretches lie, and which edges are best to part them by. It decides
//! how long a search takes, and nothing of what is found.
ghost use Rattle.std.specs.Prelude.{◌≤◌, All, unsigned_abs};
ghost use Rattle.zone_area.specs.Range.{far_in_cell, IsInCell};
ghost use Rattle.zone_moves.specs.Parts.{IsSpan};
ghost use Rattle.zone_moves.specs.Stretches.{IsPlaced};

use crate::stretch::Stretch;
use zone_area::Area;

/// An edge of an area.
#[derive(Clone, Copy, Debug, PartialEq, Eq)]
pub(crate) enum Edge {
    /// The least X.
    Left,
    /// The greatest X.
    Right,
    /// The least Z.
    Below,
    /// The greatest Z.
    Above,
}

/// Between which lengths an edge of some areas lies.
#[derive(Clone, Copy, Debug, PartialEq, Eq)]
pub(crate) struct Span {
    /// Which edge.
    edge: Edge,
    /// Where the first of the areas has it, in 0.001 mm.
    least: i64,
    /// Where the last of them has it, in 0.001 mm.
    greatest: i64,
}

/// Where an area has an edge.
fn place_of(edge: Edge, area: &Area) -> i64
    requires { IsInCell area.now }
    ensures { unsigned_abs result ≤ far_in_cell }
{
    match edge {
        Edge::Left => area.low.x,
        Edge::Right => area.high.x,
        Edge::Below => area.low.z,
        Edge::Above => area.high.z,
    }
}

/// The span with a place more.
fn widened(span: Span, place: i64) -> Span
    requires span { IsSpan span }
    requires place { unsigned_abs place ≤ far_in_cell }
    ensures { IsSpan result }
{
    let Span {
        edge,
        least,
        greatest,
    } = span;
    if place < least {
        Span {
            edge,
            least: place,
            greatest,
        }
    } else if greatest < place {
        Span {
            edge,
            least,
            greatest: place,
        }
    } else {
        span
    }
}

/// Between which lengths this edge of the stretches lies.
fn span_of(edge: Edge, first: &Stretch, rest: &[Stretch]) -> Span
    requires first { IsPlaced first.now }
    requires rest { All IsPlaced rest.now }
    ensures { IsSpan result }
{
    let place = place_of(edge, &first.area);
    let mut span = Span {
        edge,
        least: place,
        greatest: place,
    };
    for stretch in rest {
        span = widened(span, place_of(edge, &stretch.area));
    }
    span
}

/// The wider of two spans.
fn wider(span: Span, other: Span) -> Span
    requires span { IsSpan span }
    requires other { IsSpan other }
    ensures { IsSpan result }
{
    if span.greatest - span.least < other.greatest - other.least {
        other
    } else {
        span
    }
}

/// The widest span of the edges of the stretches.
pub(crate) fn widest_span(first: &Stretch, rest: &[Stretch]) -> Span
    requires first { IsPlaced first.now }
    requires rest { All IsPlaced rest.now }
    ensures { IsSpan result }
{
    let across = wider(
        span_of(Edge::Left, first, rest),
        span_of(Edge::Right, first, rest),
    );
    let along = wider(
        span_of(Edge::Below, first, rest),
        span_of(Edge::Above, first, rest),
    );
    wider(across, along)
}

impl Span {
    /// Whether the edge of the area lies before the middle of the span.
    pub(crate) fn is_before(&self, area: &Area) -> bool
        requires span { IsSpan self.now }
        requires area { IsInCell area.now }
    {
        let place = place_of(self.edge, area);
        place + place < self.least + self.greatest
    }
}
