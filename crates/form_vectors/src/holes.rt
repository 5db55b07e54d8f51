//! Tests of grooves and holes that are written out.
use crate::reading::{cutting, standing, tape_of, text_of};
use code_tables::System;
use nc_number::{ByteList, NoMemory};
use peck_form::peck_form;
use plain_form::{FormSettings, Scene};
use std::alloc::Global;
use std::test::Fail;

/// The answer to the first block of these lines.
pub(crate) fn answer_to(alloc: Global, lines: &str, scene: &Scene) -> Result<String, NoMemory> {
    let settings = FormSettings::standard(alloc);
    answer_by(alloc, lines, 0, scene, &settings)
}

/// The answer to the block in a place, with the choices of a machine.
fn answer_by(
    alloc: Global,
    lines: &str,
    place: usize,
    scene: &Scene,
    settings: &FormSettings,
) -> Result<String, NoMemory> {
    let Some(tape) = tape_of(alloc, lines)? else {
        return Ok(String::from_str(alloc, "no tape")?);
    };
    let Some(program) = tape.as_slice().first() else {
        return Ok(String::from_str(alloc, "no program")?);
    };
    let answer = peck_form(alloc, program.blocks.as_slice(), place, scene, settings)?;
    Ok(text_of(alloc, &answer)?)
}

/// Whether the answer is this one.
fn is_answer(alloc: Global, lines: &str, scene: &Scene, wanted: &str) -> Result<bool, NoMemory> {
    let text = answer_to(alloc, lines, scene)?;
    Ok(text.as_str() == wanted)
}

#[test]
fn grooves_are_cut_in_columns(rt: HostRuntime) -> Result<(), Fail> {
    let scene = standing(50_000, 5_000, System::A);
    for row in [
        "G74 R1.|G74 Z-10. Q8000 F0.1=[ G00X50.000 G01Z-3.000F0.1 G00Z-2.000 G01Z-10.000F0.1 G00Z5.000 G00X50.000][]",
        "G74 R1.|G74 X46. Z-1. P2000 Q9000 R0.5 F0.1=[ G00X50.000 G01Z-1.000F0.1 G00X50.000 G00Z5.000 G00X46.000 G01Z-1.000F0.1 G00X47.000 G00Z5.000 G00X50.000][]",
        "G75 R1.|G75 X40. W-3. P3000 Q2000 F0.1=[ G00Z5.000 G01X44.000F0.1 G00X46.000 G01X40.000F0.1 G00X50.000 G00Z3.000 G01X44.000F0.1 G00X46.000 G01X40.000F0.1 G00X50.000 G00Z2.000 G01X44.000F0.1 G00X46.000 G01X40.000F0.1 G00X50.000 G00Z5.000][]",
        "G75 X46. P3000=[ G00Z5.000 G01X46.000 G00X50.000 G00Z5.000]",
    ] {
        let (lines, wanted) = row.split_once("=").unwrap_or((row, ""));
        assert!(rt; is_answer(rt.alloc(), lines, &scene, wanted)?);
    }
    Ok(())
}

/// The point R lies 3 before the start, the machine clears 0.5 before the depth that is reached.
#[test]
fn holes_go_on_to_g80(rt: HostRuntime) -> Result<(), Fail> {
    let scene = standing(50_000, 5_000, System::A);
    for row in [
        "G83 X0 Z-6. R-3. Q5000 P200 F0.1|G80=[ G00X0.000 G00Z2.000 G01Z-3.000F0.1 G00Z2.000 G00Z-2.500 G01Z-6.000F0.1 G04X0.200 G00Z5.000]",
        "G83 X20. Z-6. R-3. F0.1|X10.|W-9.|G00 X60.=[ G00X20.000 G00Z2.000 G01Z-6.000F0.1 G00Z5.000][ G00X10.000 G00Z2.000 G01Z-6.000F0.1 G00Z5.000][ G00Z2.000 G01Z-7.000F0.1 G00Z5.000]",
        "G84 X0 Z-6. R-3. F1.|G80=[ G00X0.000 G00Z2.000 G01Z-6.000F1 M4 G01Z2.000F1 G00Z5.000 M3]",
        "G85 X0 Z-6. R-3. P100 F0.1|G80=[ G00X0.000 G00Z2.000 G01Z-6.000F0.1 G04X0.100 G01Z2.000F0.1 G00Z5.000]",
        "G83 X20. Z-6. R-3. Q6000 P200 F0.1|G84 X10. F1.|G80=[ G00X20.000 G00Z2.000 G01Z-4.000F0.1 G00Z2.000 G00Z-3.500 G01Z-6.000F0.1 G04X0.200 G00Z5.000][ G00X10.000 G00Z2.000 G01Z-6.000F1 G04X0.200 M4 G01Z2.000F1 G00Z5.000 M3]",
        "G87 Z-3. X30. R-4. Q5000 F0.1|G80=[ G00Z-3.000 G00X42.000 G01X32.000F0.1 G00X42.000 G00X33.000 G01X30.000F0.1 G00X50.000]",
        "G83 X0 Z-6. K0 R-3. F0.1|X2. K2|G80=[ G00X0.000][ G00X2.000 G00Z2.000 G01Z-6.000F0.1 G00Z5.000 G00Z2.000 G01Z-6.000F0.1 G00Z5.000]",
    ] {
        let (lines, wanted) = row.split_once("=").unwrap_or((row, ""));
        assert!(rt; is_answer(rt.alloc(), lines, &scene, wanted)?);
    }
    Ok(())
}

/// Under G99 of system B the tool goes back to the point R; G98 goes on to the level before.
#[test]
fn system_b_names_the_level(rt: HostRuntime) -> Result<(), Fail> {
    let scene = standing(50_000, 5_000, System::B);
    let wanted =
        "[ G00X20.000 G00Z2.000 G01Z-6.000F0.1 G00Z2.000][ G00X10.000 G00Z2.000 G01Z-6.000F0.1 G00Z5.000]";
    let lines = "G99 G83 X20. Z-6. R-3. F0.1|G98 X10.|G80";
    assert!(rt; is_answer(rt.alloc(), lines, &scene, wanted)?);
    Ok(())
}

/// Another code of holes counts the point R from the level before the run, not from the point R at
/// which the tool stands.
#[test]
fn another_code_goes_on_with_the_run(rt: HostRuntime) -> Result<(), Fail> {
    let scene = standing(50_000, 5_000, System::B);
    let wanted =
        "[ G00X20.000 G00Z2.000 G01Z-6.000F0.1 G00Z2.000][ G00X10.000 G00Z2.000 G01Z-7.000F1 M4 G01Z2.000F1 M3 G00][ G00X5.000 G00Z2.000 G01Z-7.000F1 G01Z2.000F1 G00Z5.000]";
    let lines = "G99 G83 X20. Z-6. R-3. F0.1|G84 X10. Z-7. F1.|G98 G85 X5.|G80";
    assert!(rt; is_answer(rt.alloc(), lines, &scene, wanted)?);
    let scene = standing(50_000, 5_000, System::A);
    let wanted = "[ G00X20.000 G00Z2.000 G01Z-6.000F0.1 G00Z5.000]";
    let lines = "G83 X20. Z-6. R-3. F0.1|G87 X10. Z-7. F1.|G80";
    assert!(rt; is_answer(rt.alloc(), lines, &scene, wanted)?);
    Ok(())
}

/// On a machine that says `idle C` a hole that turns C alone is one at the same place.
#[test]
fn a_hole_may_turn_c_alone(rt: HostRuntime) -> Result<(), Fail> {
    let alloc = rt.alloc();
    let scene = standing(50_000, 5_000, System::A);
    let mut settings = FormSettings::standard(alloc);
    settings.idle = ByteList::of(Vec::from_slice(alloc, b"C")?);
    settings.peck_retreat = Some(1_000);
    let lines = "G83 C0 Z-6. R-3. Q5000 F0.1|C90.|G80";
    let text = answer_by(alloc, lines, 0, &scene, &settings)?;
    assert!(rt;
        text.as_str()
            == "[ G00Z2.000 G01Z-3.000F0.1 G00Z-2.000 G01Z-6.000F0.1 G00Z5.000][ G00Z2.000 G01Z-3.000F0.1 G00Z-2.000 G01Z-6.000F0.1 G00Z5.000]"
    );
    Ok(())
}

/// The R of the first groove, 0.25 as a radius, holds for the second one, of the other code.
#[test]
fn the_retreat_stays_in_force(rt: HostRuntime) -> Result<(), Fail> {
    let alloc = rt.alloc();
    let settings = FormSettings::standard(alloc);
    let scene = standing(50_000, 5_000, System::A);
    let lines = "G74 R0.25|G74 Z3. Q1000|G75 X46. P1000";
    let text = answer_by(alloc, lines, 2, &scene, &settings)?;
    assert!(rt;
        text.as_str() == "[ G00Z5.000 G01X48.000 G00X48.500 G01X46.000 G00X50.000 G00Z5.000]"
    );
    Ok(())
}

/// Where G01 is in force it is again after the cycle; the machine draws back by 0.5.
#[test]
fn the_code_of_motion_is_in_force_again(rt: HostRuntime) -> Result<(), Fail> {
    let scene = cutting(50_000, 5_000);
    for row in [
        "G74 Z-1. Q2000 F0.1=[ G00X50.000 G01Z3.000F0.1 G00Z3.500 G01Z1.000F0.1 G00Z1.500 G01Z-1.000F0.1 G00Z5.000 G00X50.000 G01]",
        "G83 X0 Z-6. R-3. F0.1|X2.|G80=[ G00X0.000 G00Z2.000 G01Z-6.000F0.1 G00Z5.000 G01][ G00X2.000 G00Z2.000 G01Z-6.000F0.1 G00Z5.000 G01]",
    ] {
        let (lines, wanted) = row.split_once("=").unwrap_or((row, ""));
        assert!(rt; is_answer(rt.alloc(), lines, &scene, wanted)?);
    }
    Ok(())
}

/// A machine with a floating holder that turns about by itself has no code for it.
#[test]
fn a_tap_may_turn_by_itself(rt: HostRuntime) -> Result<(), Fail> {
    let alloc = rt.alloc();
    let scene = standing(50_000, 5_000, System::A);
    let mut settings = FormSettings::standard(alloc);
    settings.tap_turns = None;
    let lines = "G84 X0 Z-6. R-3. F1.|G80";
    let text = answer_by(alloc, lines, 0, &scene, &settings)?;
    assert!(rt; text.as_str() == "[ G00X0.000 G00Z2.000 G01Z-6.000F1 G01Z2.000F1 G00Z5.000]");
    Ok(())
}
