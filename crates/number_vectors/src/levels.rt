//! Test of local_levels: a call opens a level of local variables, and a return brings back the
//! locals of the caller.
use crate::values::holding;
use local_levels::{LOCALS, Levels};
use nc_number::Var;

/// The depth, and what the first two locals hold, 0 standing for vacant.
fn shown(levels: &Levels) -> [i64; 3] {
    [
        i64::from(levels.depth()),
        levels.get(1).or_zero().micro(),
        levels.get(2).or_zero().micro(),
    ]
}

#[test]
fn a_return_brings_back_the_locals_of_the_caller(rt: HostRuntime) {
    let mut levels = Levels::new();
    levels.set(1, holding(7));
    let mut arguments = [Var::Vacant; LOCALS];
    arguments[1] = holding(5);
    levels.open_level(&arguments);
    let opened = shown(&levels);
    levels.set(1, holding(3));
    levels.set(2, holding(4));
    let set = shown(&levels);
    levels.repeat_level();
    let repeated = shown(&levels);
    levels.close_level();
    let closed = shown(&levels);
    assert!(rt; opened == [1, 0, 5]);
    assert!(rt; set == [1, 3, 4]);
    assert!(rt; repeated == [1, 0, 5]);
    assert!(rt; closed == [0, 7, 0]);
}
