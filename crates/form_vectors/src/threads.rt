//! Tests of threads that are written out.
use crate::reading::{standing, tape_of, text_of};
use code_tables::System;
use nc_number::NoMemory;
use plain_form::{FormSettings, Roots, Scene};
use std::alloc::Global;
use std::test::Fail;
use thread_form::thread_form;

/// The answer to the first block of these lines.
pub(crate) fn answer_to(alloc: Global, lines: &str, scene: &Scene) -> Result<String, NoMemory> {
    let settings = FormSettings::standard(alloc);
    answer_by(alloc, lines, scene, &settings)
}

/// The same with the choices of a machine.
fn answer_by(
    alloc: Global,
    lines: &str,
    scene: &Scene,
    settings: &FormSettings,
) -> Result<String, NoMemory> {
    let Some(tape) = tape_of(alloc, lines)? else {
        return Ok(String::from_str(alloc, "no tape")?);
    };
    let Some(program) = tape.as_slice().first() else {
        return Ok(String::from_str(alloc, "no program")?);
    };
    let answer = thread_form(alloc, program.blocks.as_slice(), 0, scene, settings)?;
    Ok(text_of(alloc, &answer)?)
}

/// The manual's example: five passes, each left a lead before its end.
#[test]
fn g76_stands_in_two_lines(rt: HostRuntime) -> Result<(), Fail> {
    let scene = standing(80_000, 130_000, System::A);
    let text = answer_to(
        rt.alloc(),
        "G76 P011060 Q100 R200|G76 X60.64 Z25. P3680 Q1800 F6.",
        &scene,
    )?;
    assert!(rt;
        text.as_str()
            == "[ G00Z128.960 G00X64.400 G32X64.400Z31.000F6 G32X76.400Z25.000F6 G00X80.000 G00Z128.530 G00X62.910 G32X62.910Z31.000F6 G32X74.910Z25.000F6 G00X80.000 G00Z128.200 G00X61.766 G32X61.766Z31.000F6 G32X73.766Z25.000F6 G00X80.000 G00Z127.990 G00X61.040 G32X61.040Z31.000F6 G32X73.040Z25.000F6 G00X80.000 G00Z127.875 G00X60.640 G32X60.640Z31.000F6 G32X72.640Z25.000F6 G00X80.000 G00Z130.000][]"
    );
    Ok(())
}

/// Two cuts of 1 and 1.3 by the root of 2, cut short by the depth: the machine leaves nothing and
/// makes one pass at the whole depth. The tip is straight, so all begin at the start's Z.
#[test]
fn g76_may_stand_in_one_line(rt: HostRuntime) -> Result<(), Fail> {
    let scene = standing(30_000, 5_000, System::A);
    let text = answer_to(rt.alloc(), "G76 X20. Z-20. K1.3 D1000 A0 P1 F2.", &scene)?;
    assert!(rt;
        text.as_str()
            == "[ G00Z5.000 G00X20.600 G32X20.600Z-20.000F2 G00X30.000 G00Z5.000 G00X20.000 G32X20.000Z-20.000F2 G00X30.000 G00Z5.000 G00X20.000 G32X20.000Z-20.000F2 G00X30.000 G00Z5.000]"
    );
    Ok(())
}

/// The cone rises by 2 in X over 25 in Z; the second block goes on with Z, R and F in force.
#[test]
fn g92_with_a_taper_goes_on_to_the_next_motion(rt: HostRuntime) -> Result<(), Fail> {
    let scene = standing(50_000, 5_000, System::A);
    let text = answer_to(rt.alloc(), "G92 X40. Z-20. R-1. F2.|U-11.|G00 X60.", &scene)?;
    assert!(rt;
        text.as_str()
            == "[ G00Z5.000 G00X38.000 G32X40.000Z-20.000F2 G00X50.000 G00Z5.000][ G00Z5.000 G00X37.000 G32X39.000Z-20.000F2 G00X50.000 G00Z5.000]"
    );
    Ok(())
}

/// In system B the cycle is G78, and a thread along a line is G33.
#[test]
fn g78_is_the_cycle_of_system_b(rt: HostRuntime) -> Result<(), Fail> {
    let scene = standing(50_000, 5_000, System::B);
    let text = answer_to(rt.alloc(), "G78 X40. Z-20. R-1. F2.|G00 X60.", &scene)?;
    assert!(rt;
        text.as_str() == "[ G00Z5.000 G00X38.000 G33X40.000Z-20.000F2 G00X50.000 G00Z5.000]"
    );
    Ok(())
}

/// Without R the profile has the cycle.
#[test]
fn g92_without_a_taper_is_not_its_own(rt: HostRuntime) -> Result<(), Fail> {
    let scene = standing(50_000, 5_000, System::A);
    let text = answer_to(rt.alloc(), "G92 X40. Z-20. F2.", &scene)?;
    assert!(rt; text.as_str() == "not mine");
    Ok(())
}

/// The second cut is 1 by the root of 2, 1.41421..: a machine may round it up to 1.415.
#[test]
fn a_root_may_be_rounded_up(rt: HostRuntime) -> Result<(), Fail> {
    let alloc = rt.alloc();
    let scene = standing(30_000, 5_000, System::A);
    let mut settings = FormSettings::standard(alloc);
    settings.thread_roots = Roots::Up;
    let lines = "G76 X20. Z-20. K1.5 D1000 A0 P1 F2.";
    let text = answer_by(alloc, lines, &scene, &settings)?;
    assert!(rt;
        text.as_str()
            == "[ G00Z5.000 G00X21.000 G32X21.000Z-20.000F2 G00X30.000 G00Z5.000 G00X20.170 G32X20.170Z-20.000F2 G00X30.000 G00Z5.000 G00X20.000 G32X20.000Z-20.000F2 G00X30.000 G00Z5.000 G00X20.000 G32X20.000Z-20.000F2 G00X30.000 G00Z5.000]"
    );
    Ok(())
}
