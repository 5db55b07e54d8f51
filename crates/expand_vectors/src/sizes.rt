//! Tests of the limits of roughing cycles, 1,000 passes and 20,000 blocks, and of what lies inside
//! a contour.
use crate::written::answer;
use nc_number::Point;
use rough_cycle::inside;
use std::alloc::{AllocError, Global};
use std::test::Fail;

/// A form of 1,000 passes: five blocks that become 4,006.
const DEEP: &[u8] = b"G00 X42.001 Z2.\nG71 U1 R0\nG71 P10 Q20 U0 W0 F0.2\nN10 G00 X40.\nN20 Z-5.\n";

/// A form of 992 passes: five blocks that become 3,974.
const LESS_DEEP: &[u8] =
    b"G00 X41.985 Z2.\nG71 U1 R0\nG71 P10 Q20 U0 W0 F0.2\nN10 G00 X40.\nN20 Z-5.\n";

/// A tape with these lines before four deep forms and one that is less deep.
fn deep_tape(alloc: Global, lines: &[u8]) -> Result<Vec<u8>, AllocError> {
    let mut text = Vec::new(alloc);
    text.extend_from_slice(b"%\nO1\n")?;
    text.extend_from_slice(lines)?;
    for _ in 0..4u8 {
        text.extend_from_slice(DEEP)?;
    }
    text.extend_from_slice(LESS_DEEP)?;
    text.extend_from_slice(b"M30\n%\n")?;
    Ok(text)
}

/// How many lines a text has.
fn count_lines(text: &[u8]) -> usize {
    text.iter().filter(|byte| **byte == b'\n').count()
}

/// One block, the five forms and M30 become 20,000 blocks.
#[test]
fn a_tape_may_have_20_000_blocks(rt: HostRuntime) -> Result<(), Fail> {
    let text = deep_tape(rt.alloc(), b"G00\n")?;
    let written = answer(rt.alloc(), &text)?;
    assert_eq!(rt; count_lines(&written), 20_003);
    Ok(())
}

/// With one block more the last form is too much.
#[test]
fn the_part_that_is_too_much_is_named(rt: HostRuntime) -> Result<(), Fail> {
    let text = deep_tape(rt.alloc(), b"G00\nG00\n")?;
    let refused = answer(rt.alloc(), &text)?;
    assert!(rt; refused.as_slice() == b"refused 94 line 26".as_slice());
    Ok(())
}

/// A form whose start has this X, with passes of 0.001 mm down to X40.
fn deep_form(alloc: Global, start: &str) -> Result<Vec<u8>, AllocError> {
    let text = format!(in alloc;
        "%\nO1\nG00 X{start} Z2.\nG71 U1 R0\nG71 P10 Q20 U0 W0 F0.2\nN10 G00 X40.\nN20 Z-5.\nM30\n%\n"
    )?;
    Vec::from_slice(alloc, text.as_bytes())
}

/// A form has at most 1,000 passes.
#[test]
fn a_form_has_at_most_1_000_passes(rt: HostRuntime) -> Result<(), Fail> {
    let text = deep_form(rt.alloc(), "42.001")?;
    let written = answer(rt.alloc(), &text)?;
    assert_eq!(rt; count_lines(&written), 4_010);
    let text = deep_form(rt.alloc(), "42.003")?;
    let refused = answer(rt.alloc(), &text)?;
    assert!(rt; refused.as_slice() == b"refused 93 line 4".as_slice());
    Ok(())
}

/// Points on a contour and at its corners are not inside.
#[test]
fn what_lies_inside_a_contour(rt: HostRuntime) {
    let contour = [
        Point {
            x: 40_000,
            z: 2_000,
        },
        Point {
            x: 40_000,
            z: -10_000,
        },
        Point {
            x: 46_000,
            z: -10_000,
        },
        Point {
            x: 46_000,
            z: -16_000,
        },
    ];
    assert!(rt;
        !inside(
            &contour,
            Point {
                x: 43_000,
                z: -10_000
            }
        )
    );
    assert!(rt;
        inside(
            &contour,
            Point {
                x: 39_999,
                z: -10_000
            }
        )
    );
    assert!(rt;
        inside(
            &contour,
            Point {
                x: 45_999,
                z: -12_000
            }
        )
    );
}
