//! A part of a tape that stands for plain blocks, and the law that its moves stay out of its
//! contour. form.rt and finish.rt make parts. How its moves are made is in rough_cycle.
ghost use Rattle.std.specs.Prelude.{◌≡◌, IfOk};
ghost use Rattle.rough_cycle.specs.Form.{rough_of};
ghost use Rattle.cycle_form.specs.Parts.{PartView, IsSoundPart, IsClearPart, part_blocks, is_called};

use nc_number::{Point, Value};
use rough_cycle::{PlainBlock, RoughForm, no_move_enters_the_contour};
use std::alloc::{AllocError, Global};
use std::marker::Model;

/// What a part of a tape does.
#[derive(Clone, Copy, Debug, PartialEq, Eq)]
pub enum PartKind {
    /// G71 with its contour: the passes, and along the contour with its allowances.
    Roughing,
    /// G70: along the contour, from this start.
    Finishing(Point),
}

/// A part of a tape that is written out as plain blocks: G71 with the contour that it calls, or
/// G70.
///
/// By its type the form is one (`IsForm`), its lengths are those that literals can write, and a
/// finish starts above and before the contour.
#[derive(Debug, Drop)]
pub struct Part {
    /// Whether it is a G71 or a G70.
    kind: PartKind,
    /// The contour, the cut and the allowances, in 0.001 mm.
    rough: RoughForm,
    /// The sequence number of the contour's first block.
    first: u32,
    /// The sequence number of its last block.
    last: u32,
    /// The feed of its cuts.
    feed: Value,
    /// The lines of the text that its blocks take the place of, from 1.
    lines: Vec<u32>,
}

impl Model for Part {
    ghost use Rattle.rough_cycle.specs.Form.{rough_of};
    ghost use Rattle.cycle_form.specs.Parts.{PartView, IsSoundPart};

    ghost Value = { PartView };

    ghost view = { λ p. record {
      kind = p.kind;
      rough = rough_of p.rough;
      first = p.first;
      last = p.last;
      feed = p.feed;
      lines = p.lines.items;
    } };

    ghost invariant = { λ p. IsSoundPart (record {
      kind = p.kind;
      rough = rough_of p.rough;
      first = p.first;
      last = p.last;
      feed = p.feed;
      lines = p.lines.items;
    }) };
}

impl Part {
    /// A part of these lines, along the contour between these sequence numbers, which is sound.
    pub(crate) fn of(
        kind: PartKind,
        rough: RoughForm,
        first: u32,
        last: u32,
        feed: Value,
        lines: Vec<u32>,
    ) -> Self
        requires { IsSoundPart (record {
          kind = kind;
          rough = rough_of rough;
          first = first;
          last = last;
          feed = feed;
          lines = lines.items;
        }) }
        ensures { result ≡ record {
          kind = kind;
          rough = rough_of rough;
          first = first;
          last = last;
          feed = feed;
          lines = lines.items;
        } }
    {
        Part {
            kind,
            rough,
            first,
            last,
            feed,
            lines,
        }
    }

    /// The plain blocks that it stands for. The only error is out of memory.
    pub fn blocks(&self, alloc: Global) -> Result<Vec<PlainBlock>, AllocError>
        ensures { IfOk result (λ blocks. blocks.items ≡ part_blocks self.now) }
    {
        match self.kind {
            PartKind::Roughing => self.rough.rough_blocks(alloc),
            PartKind::Finishing(start) => self.rough.finish_blocks(alloc, &start),
        }
    }

    /// The feed of its cuts.
    pub fn feed(&self) -> Value
        ensures { result ≡ self.now.feed }
    {
        self.feed
    }

    /// The lines of the blocks that it takes the place of, in the order of the text.
    pub fn lines(&self) -> &[u32]
        ensures { result.now ≡ self.now.lines }
    {
        self.lines.as_slice()
    }

    /// Whether it is a G71 along the contour between these sequence numbers.
    pub(crate) fn is_called(&self, first: u32, last: u32) -> bool
        ensures { result ≡ is_called first last self.now }
    {
        match self.kind {
            PartKind::Roughing => self.first == first && self.last == last,
            PartKind::Finishing(_) => false,
        }
    }

    /// Its contour, cut and allowances; by the type they are a form.
    pub(crate) fn rough(&self) -> &RoughForm
        ensures form { rough_of result.now ≡ self.now.rough }
        ensures sound { IsSoundPart self.now }
    {
        &self.rough
    }
}

/// A law: no whole point on a move of a sound part lies inside its contour: for G71 the contour
/// with its allowances, for G70 the contour itself.
pub fn a_sound_part_is_clear()
    ensures { (part : PartView) → IsSoundPart part → IsClearPart part }
{
    no_move_enters_the_contour();
}
