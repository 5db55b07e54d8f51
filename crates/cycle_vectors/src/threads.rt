//! Tests of the blocks of G76 and G92.
use crate::examples::{example, has_blocks, in_one_cut};
use crate::written::lead;
use nc_number::Point;
use std::test::Fail;
use thread_cycle::{RootRounding, ThreadCycle, TipAngle};

/// The blocks of the example: depths of 1.8, 1.8 by the root of 2, of 3, 3.48 and 3.68; 2.125 ahead
/// at the whole depth, and before it as much less as the flank of the groove is off its middle.
const EXAMPLE: &str =
    " RZ128960 RX64400 TX64400Z31000 TX76400Z25000 RX80000 RZ128530 RX62910 TX62910Z31000 TX74910Z25000 RX80000 RZ128200 RX61766 TX61766Z31000 TX73766Z25000 RX80000 RZ127990 RX61040 TX61040Z31000 TX73040Z25000 RX80000 RZ127875 RX60640 TX60640Z31000 TX72640Z25000 RX80000 RZ130000";

#[test]
fn the_manuals_example_has_five_passes(rt: HostRuntime) -> Result<(), Fail> {
    assert!(rt; has_blocks(rt.alloc(), &example(), EXAMPLE)?);
    Ok(())
}

/// The depths 1.8, 2.546, 3.118, 3.48 and 3.68: roots of 2 and of 3 that are not whole are rounded
/// up, and the tip begins as much farther ahead as the flank of its groove says.
#[test]
fn a_control_may_round_roots_up(rt: HostRuntime) -> Result<(), Fail> {
    let mut cycle = example();
    cycle.rounding = RootRounding::Up;
    assert!(rt;
        has_blocks(
            rt.alloc(),
            &cycle,
            " RZ128960 RX64400 TX64400Z31000 TX76400Z25000 RX80000 RZ128529 RX62908 TX62908Z31000 TX74908Z25000 RX80000 RZ128199 RX61764 TX61764Z31000 TX73764Z25000 RX80000 RZ127990 RX61040 TX61040Z31000 TX73040Z25000 RX80000 RZ127875 RX60640 TX60640Z31000 TX72640Z25000 RX80000 RZ130000"
        )?
    );
    Ok(())
}

#[test]
fn the_least_depth_follows_where_the_root_is_less(rt: HostRuntime) -> Result<(), Fail> {
    let mut cycle = in_one_cut();
    cycle.first = 2_000;
    cycle.least = 1_500;
    cycle.pull_out = 0;
    assert!(rt;
        has_blocks(
            rt.alloc(),
            &cycle,
            " RZ128844 RX64000 TX64000Z25000 RX80000 RZ127978 RX61000 TX61000Z25000 RX80000 RZ127875 RX60640 TX60640Z25000 RX80000 RZ127875 RX60640 TX60640Z25000 RX80000 RZ130000"
        )?
    );
    Ok(())
}

#[test]
fn a_taper_rises_along_each_pass(rt: HostRuntime) -> Result<(), Fail> {
    let mut cycle = in_one_cut();
    cycle.taper = 1_000;
    assert!(rt;
        has_blocks(
            rt.alloc(),
            &cycle,
            " RZ127875 RX62600 TX60755Z31000 TX72755Z25000 RX80000 RZ127875 RX62600 TX60755Z31000 TX72755Z25000 RX80000 RZ130000"
        )?
    );
    Ok(())
}

#[test]
fn a_pull_out_ends_at_the_starts_x(rt: HostRuntime) -> Result<(), Fail> {
    let mut cycle = in_one_cut();
    cycle.taper = 1_000;
    cycle.start.x = 70_000;
    assert!(rt;
        has_blocks(
            rt.alloc(),
            &cycle,
            " RZ127875 RX62600 TX60755Z31000 TX69999Z26378 RX70000 RZ127875 RX62600 TX60755Z31000 TX69999Z26378 RX70000 RZ130000"
        )?
    );
    Ok(())
}

#[test]
fn an_inner_thread_is_cut_outwards(rt: HostRuntime) -> Result<(), Fail> {
    let mut cycle = in_one_cut();
    cycle.start.x = 50_000;
    cycle.taper = -100;
    cycle.pull_out = 0;
    assert!(rt;
        has_blocks(
            rt.alloc(),
            &cycle,
            " RZ127875 RX60444 TX60640Z25000 RX50000 RZ127875 RX60444 TX60640Z25000 RX50000 RZ130000"
        )?
    );
    Ok(())
}

#[test]
fn a_thread_may_run_towards_greater_z(rt: HostRuntime) -> Result<(), Fail> {
    let mut cycle = in_one_cut();
    cycle.start.z = 25_000;
    cycle.target.z = 130_000;
    cycle.tip = TipAngle::Degrees0;
    assert!(rt;
        has_blocks(
            rt.alloc(),
            &cycle,
            " RZ25000 RX60640 TX60640Z124000 TX72640Z130000 RX80000 RZ25000 RX60640 TX60640Z124000 TX72640Z130000 RX80000 RZ25000"
        )?
    );
    Ok(())
}

/// G92 X40. Z-20. R0.5 F2. from X50. Z5.
#[test]
fn a_single_pass_is_a_cycle_without_depth(rt: HostRuntime) -> Result<(), Fail> {
    let cycle = ThreadCycle {
        start: Point {
            x: 50_000,
            z: 5_000,
        },
        target: Point {
            x: 40_000,
            z: -20_000,
        },
        taper: 500,
        depth: 0,
        first: 0,
        least: 0,
        left: 0,
        finishing: 1,
        pull_out: 0,
        tip: TipAngle::Degrees60,
        rounding: RootRounding::Down,
        lead: lead(2),
    };
    assert!(rt;
        has_blocks(
            rt.alloc(),
            &cycle,
            " RZ5000 RX41000 TX40000Z-20000 RX50000 RZ5000"
        )?
    );
    Ok(())
}

#[test]
fn more_than_1_000_passes_are_too_many(rt: HostRuntime) -> Result<(), Fail> {
    let mut cycle = in_one_cut();
    cycle.least = 0;
    cycle.first = 1;
    assert!(rt; has_blocks(rt.alloc(), &cycle, "too many")?);
    Ok(())
}
