//! The nose of the tool in force.
ghost use Rattle.std.specs.Prelude.{◌≡◌, IfOk, IfSome};
ghost use Rattle.nose_words.specs.Told.{is_same_nose, met, told_by, told_of, tip_of, tip_told, offset_tip, tool_tip, IsSmall};

use plain_form::{Nose, PlainCause};

/// A nose as its path needs it.
#[derive(Clone, Copy, Debug, PartialEq, Eq)]
pub(crate) struct Tip {
    /// The radius in 0.0005 mm.
    pub radius: u128,
    /// Where its centre lies from the programmed point, 0 to 9.
    pub number: u8,
}

/// What the machine says of the nose of an offset.
#[derive(Clone, Copy, Debug, PartialEq, Eq)]
pub(crate) enum Told {
    /// Nothing.
    Nothing,
    /// One nose.
    One(Nose),
    /// Several that are not the same.
    Several,
}

/// The largest radius of a nose: 1 m, in 0.001 mm.
const LARGEST_NOSE: u64 = 1_000_000;

/// Whether two noses have the same form.
fn is_same_nose(one: &Nose, other: &Nose) -> bool
    ensures { result ≡ is_same_nose one.now other.now }
{
    one.radius == other.radius && one.tip == other.tip
}

/// What is told with one nose more.
fn met(nose: &Nose, told: &Told) -> Told
    ensures { result ≡ met nose.now told.now }
{
    match told {
        Told::Nothing => Told::One(*nose),
        Told::One(other) => {
            if is_same_nose(nose, other) {
                Told::One(*other)
            } else {
                Told::Several
            }
        }
        Told::Several => Told::Several,
    }
}

/// What is told of an offset with one nose more, which may be that of another one.
fn told_by(offset: u32, nose: &Nose, told: &Told) -> Told
    ensures { result ≡ told_by offset nose.now told.now }
{
    if nose.offset == offset {
        met(nose, told)
    } else {
        *told
    }
}

/// What these noses tell of an offset.
fn told_of(offset: u32, noses: &[Nose]) -> Told
    ensures { result ≡ told_of offset noses.now }
{
    let mut told = Told::Nothing;
    for nose in noses {
        told = told_by(offset, nose, &told);
    }
    told
}

/// A nose as its path needs it, if its radius is at most 1 m.
fn tip_of(nose: &Nose) -> Option<Tip>
    ensures tip { result ≡ tip_of nose.now }
    ensures small { IfSome result IsSmall }
{
    if nose.radius <= LARGEST_NOSE {
        Some(Tip {
            radius: 2 * u128::from(nose.radius),
            number: nose.tip,
        })
    } else {
        None
    }
}

/// The nose that is told, if it is one.
fn tip_told(told: &Told) -> Option<Tip>
    ensures tip { result ≡ tip_told told.now }
    ensures small { IfSome result IsSmall }
{
    match told {
        Told::One(nose) => tip_of(nose),
        Told::Nothing | Told::Several => None,
    }
}

/// The nose of an offset; offset 0 has a radius of 0.
fn offset_tip(offset: u32, noses: &[Nose]) -> Option<Tip>
    ensures tip { result ≡ offset_tip offset noses.now }
    ensures small { IfSome result IsSmall }
{
    if offset == 0 {
        return Some(Tip {
            radius: 0,
            number: 0,
        });
    }
    tip_told(&told_of(offset, noses))
}

/// The nose of the tool whose T word was the last one, by the last two digits of its number: or that
/// no T word is known, or that no line of the settings tells the nose, or two do so differently.
pub(crate) fn tool_tip(tool: &Option<u32>, noses: &[Nose]) -> Result<Tip, PlainCause>
    ensures tip { result ≡ tool_tip tool.now noses.now }
    ensures small { IfOk result IsSmall }
{
    let Some(tool) = *tool else {
        return Err(PlainCause::Missing(b'T'));
    };
    match offset_tip(tool % 100, noses) {
        Some(tip) => Ok(tip),
        None => Err(PlainCause::Setting),
    }
}
