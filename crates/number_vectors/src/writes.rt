//! Tests of common_vars: what a path wrote to its own variables, which variables are shared, and
//! what a shared one holds at each moment of a run.
use crate::values::holding;
use common_vars::{Own, Shared, is_common, is_shared};
use nc_number::Var;
use std::test::Fail;

/// How many writes the test of many writes makes.
const WRITES: u32 = 200_000;

/// The value of the variable in 0.000001, or 0 if it is vacant.
fn micro(variable: Var) -> i64 {
    variable.or_zero().micro()
}

#[test]
fn a_path_reads_what_it_wrote(rt: HostRuntime) -> Result<(), Fail> {
    let mut own = Own::new(rt.alloc())?;
    own.set(199, holding(4));
    own.set(500, holding(5));
    own.set(199, holding(6));
    let read = [own.get(199), own.get(500), own.get(999)].map(|variable| micro(variable));
    assert!(rt; read == [6, 5, 0]);
    let common = [99, 100, 199, 200, 499, 500, 999, 1000].map(|v| is_common(v));
    let wanted = [false, true, true, false, false, true, true, false];
    assert!(rt; common == wanted);
    Ok(())
}

#[test]
fn the_first_ones_from_each_hundred_on_are_shared(rt: HostRuntime) {
    for (shared100, shared500, v, shared) in [
        (0, 0, 100, false),
        (0, 0, 500, false),
        (1, 1, 99, false),
        (1, 1, 100, true),
        (1, 1, 101, false),
        (1, 1, 499, false),
        (1, 1, 500, true),
        (1, 1, 501, false),
        (100, 500, 199, true),
        (100, 500, 200, false),
        (100, 500, 999, true),
        (100, 500, 1000, false),
        (0, 100, 599, true),
        (0, 100, 600, false),
        (0, 100, 0, false),
    ] {
        assert!(rt; is_shared(shared100, shared500, v) == shared, "#{v}");
    }
}

/// Each moment of 200,000 writes is asked for. A search that passed each later write would take
/// about twenty thousand million steps here.
#[test]
fn early_moments_of_many_writes_are_found_at_once(rt: HostRuntime) -> Result<(), Fail> {
    let mut shared = Shared::new(rt.alloc(), 0, 500)?;
    shared.reserve(WRITES as usize)?;
    for stamp in 0..WRITES {
        shared.write(stamp, 500, holding(i64::from(stamp)));
    }
    for stamp in 0..WRITES {
        assert_eq!(rt; micro(shared.at(stamp, 500)), i64::from(stamp));
    }
    Ok(())
}

#[test]
fn each_moment_of_the_run_has_its_value(rt: HostRuntime) -> Result<(), Fail> {
    let mut shared = Shared::new(rt.alloc(), 10, 500)?;
    assert!(rt; shared.holds(100) && !shared.holds(110));
    shared.reserve(3)?;
    shared.write(2, 500, holding(1));
    shared.write(4, 100, holding(7));
    shared.write(4, 500, holding(3));
    let moments = [0, 1, 2, 3, 4, 9];
    let upper = moments.map(|k| micro(shared.at(k, 500)));
    let lower = moments.map(|k| micro(shared.at(k, 100)));
    assert!(rt; upper == [0, 0, 1, 1, 3, 3]);
    assert!(rt; lower == [0, 0, 0, 0, 7, 7]);
    Ok(())
}
