//! Numbers that may be missing, such as lines: the lesser of two.
ghost use Rattle.std.specs.Prelude.{◌≡◌};
ghost use Rattle.nc_number.specs.Options.{lesser};

/// The lesser of two numbers, or the one that there is.
pub fn lesser(one: Option<u32>, other: Option<u32>) -> Option<u32>
    ensures { result ≡ lesser one other }
{
    match (one, other) {
        (Some(number), Some(second)) => Some(number.min(second)),
        (Some(number), None) => Some(number),
        (None, second) => second,
    }
}
