//! The direction of an angle, by turns through its digits, and how far a line goes along one axis while
//! it goes so far along the other.
ghost use Rattle.std.specs.Prelude.{◌≡◌, ◌≤◌, ◌*ℤ◌, unsigned_abs, int_div};
ghost use Rattle.line_words.specs.declared.angle.TheConstants.{LONG_WAY};
ghost use Rattle.line_words.specs.Angles.{clamped, spun_cosine, spun_sine, spin, spun, spun_by, quarter, direction_of, differ, nearest, IsFlat};

/// How long a direction is, about: its parts are in these parts of 1.
pub const LONG_WAY: i128 = 1_000_000_000_000;

/// The most that a part of a direction is taken for.
const LONGEST_PART: i128 = 2_000_000_000_000;

/// A direction: its cosine and its sine, in parts of `LONG_WAY`.
#[derive(Clone, Copy, Debug, PartialEq, Eq)]
pub struct Heading {
    /// Along the axis.
    pub cosine: i128,
    /// Away from it.
    pub sine: i128,
}

/// Along the axis.
const AHEAD: Heading = Heading {
    cosine: 1_000_000_000_000,
    sine: 0,
};

/// 10 degrees, 1 degree, and 0.1, 0.01 and 0.001.
const TEN: Heading = Heading {
    cosine: 984_807_753_012,
    sine: 173_648_177_667,
};

const ONE: Heading = Heading {
    cosine: 999_847_695_156,
    sine: 17_452_406_437,
};

const TENTH: Heading = Heading {
    cosine: 999_998_476_913,
    sine: 1_745_328_366,
};

const HUNDREDTH: Heading = Heading {
    cosine: 999_999_984_769,
    sine: 174_532_924,
};

const THOUSANDTH: Heading = Heading {
    cosine: 999_999_999_848,
    sine: 17_453_293,
};

/// A part of a direction, held within twice its length.
fn clamped(part: i128) -> i128
    ensures part { result ≡ clamped part }
    ensures near { unsigned_abs result ≤ 2000000000000 }
{
    if part > LONGEST_PART {
        LONGEST_PART
    } else if part < -LONGEST_PART {
        -LONGEST_PART
    } else {
        part
    }
}

/// The product of two parts.
pub(crate) fn product(a: i128, b: i128) -> i128
    requires a { unsigned_abs a ≤ 2000000000000 }
    requires b { unsigned_abs b ≤ 2000000000000 }
    ensures product { result ≡ a *ℤ b }
    ensures near { unsigned_abs result ≤ 4000000000000000000000000 }
{
    a * b
}

/// A part of a direction that was turned, from a sum of products.
fn turned_part(sum: i128) -> i128
    ensures part { result ≡ clamped (int_div sum LONG_WAY) }
    ensures near { unsigned_abs result ≤ 2000000000000 }
{
    clamped(sum / LONG_WAY)
}

/// The cosine of a direction turned by another one.
fn spun_cosine(at: &Heading, by: &Heading) -> i128
    requires at { IsFlat at.now }
    requires by { IsFlat by.now }
    ensures cosine { result ≡ spun_cosine at.now by.now }
    ensures near { unsigned_abs result ≤ 2000000000000 }
{
    turned_part(product(at.cosine, by.cosine) - product(at.sine, by.sine))
}

/// The sine of it.
fn spun_sine(at: &Heading, by: &Heading) -> i128
    requires at { IsFlat at.now }
    requires by { IsFlat by.now }
    ensures sine { result ≡ spun_sine at.now by.now }
    ensures near { unsigned_abs result ≤ 2000000000000 }
{
    turned_part(product(at.sine, by.cosine) + product(at.cosine, by.sine))
}

/// A direction turned by another one.
fn spin(at: &Heading, by: &Heading) -> Heading
    requires at { IsFlat at.now }
    requires by { IsFlat by.now }
    ensures spin { result ≡ spin at.now by.now }
    ensures flat { IsFlat result }
{
    Heading {
        cosine: spun_cosine(at, by),
        sine: spun_sine(at, by),
    }
}

/// A direction turned by another one so many times.
#[tactic(auto, using(crate::proofs::Spins::spun_on))]
fn spun(start: &Heading, by: &Heading, times: u64) -> Heading
    requires start { IsFlat start.now }
    requires by { IsFlat by.now }
    ensures spun { result ≡ spun times by.now start.now }
    ensures flat { IsFlat result }
{
    let mut at = *start;
    let mut left = times;
    while left > 0 {
        at = spin(&at, by);
        left -= 1;
    }
    at
}

/// The direction of an angle below 90 degrees, in 0.001 degrees: a turn for each of its digits.
fn spun_by(angle: u64) -> Heading
    ensures spun { result ≡ spun_by angle }
    ensures flat { IsFlat result }
{
    let tens = spun(&AHEAD, &TEN, angle / 10_000);
    let ones = spun(&tens, &ONE, angle / 1_000 % 10);
    let tenths = spun(&ones, &TENTH, angle / 100 % 10);
    let hundredths = spun(&tenths, &HUNDREDTH, angle / 10 % 10);
    spun(&hundredths, &THOUSANDTH, angle % 10)
}

/// The direction a quarter of a turn further.
fn quarter(at: &Heading) -> Heading
    requires at { IsFlat at.now }
    ensures quarter { result ≡ quarter at.now }
    ensures flat { IsFlat result }
{
    Heading {
        cosine: -at.sine,
        sine: at.cosine,
    }
}

/// The direction of an angle in 0.001 degrees, or the opposite one: a line has both.
pub(crate) fn direction_of(angle: u64) -> Heading
    ensures direction { result ≡ direction_of angle }
    ensures flat { IsFlat result }
{
    let acute = spun_by(angle % 90_000);
    if angle / 90_000 % 2 == 0 {
        acute
    } else {
        quarter(&acute)
    }
}

/// Whether just one of two numbers is negative.
fn differ(n: i128, d: i128) -> bool
    ensures { result ≡ differ n d }
{
    if n < 0 { 0 <= d } else { d < 0 }
}

/// n / d, to the nearest whole number, a half away from 0; d is not 0.
pub(crate) fn nearest(n: i128, d: i128) -> i128
    requires n { unsigned_abs n ≤ 4000000000000000000000000 }
    requires d { unsigned_abs d ≤ 4000000000000 }
    ensures nearest { result ≡ nearest n d }
    ensures near { unsigned_abs result ≤ 8000000000004000000000000 }
{
    let whole = d.unsigned_abs();
    if whole == 0 {
        return 0;
    }
    let size = ((2 * n.unsigned_abs() + whole) / (2 * whole)) as i128;
    if differ(n, d) { -size } else { size }
}
