//! Tests of cuts along tapers and of G30: what is due, and the lines of the tape.
use crate::reading::{standing, tape_of, text_of};
use code_tables::System;
use nc_number::{NoMemory, Point};
use plain_form::{FormSettings, Scene};
use reference_form::reference_form;
use std::alloc::Global;
use std::test::Fail;
use taper_form::taper_form;

/// The answer of the form of tapers to the first block of these lines.
fn taper(alloc: Global, lines: &str, scene: &Scene) -> Result<String, NoMemory> {
    let Some(tape) = tape_of(alloc, lines)? else {
        return Ok(String::from_str(alloc, "no tape")?);
    };
    let Some(program) = tape.as_slice().first() else {
        return Ok(String::from_str(alloc, "no program")?);
    };
    let answer = taper_form(alloc, program.blocks.as_slice(), 0, scene)?;
    Ok(text_of(alloc, &answer)?)
}

/// The answer of the form of G30 to it, with a second reference position at X200. Z150.
fn reference(alloc: Global, lines: &str, scene: &Scene) -> Result<String, NoMemory> {
    let Some(tape) = tape_of(alloc, lines)? else {
        return Ok(String::from_str(alloc, "no tape")?);
    };
    let Some(program) = tape.as_slice().first() else {
        return Ok(String::from_str(alloc, "no program")?);
    };
    let settings = FormSettings {
        second_home: Some(Point {
            x: 200_000,
            z: 150_000,
        }),
        ..FormSettings::standard(alloc)
    };
    let answer = reference_form(alloc, program.blocks.as_slice(), 0, scene, &settings)?;
    Ok(text_of(alloc, &answer)?)
}

#[test]
fn a_taper_is_four_moves(rt: HostRuntime) -> Result<(), Fail> {
    let scene = standing(50_000, 5_000, System::A);
    for row in [
        "[ G00X38.000 G01X40.000Z-20.000F0.1 G01X50.000F0.1 G00Z5.000][ G00X36.000 G01X38.000Z-20.000F0.1 G01X50.000F0.1 G00Z5.000]=G90 X40. Z-20. R-1. F0.1|X38.|G00 X60.",
        "[ G00Z-5.000 G01X20.000Z-2.000F0.2 G01Z5.000F0.2 G00X50.000][ G00Z-4.000 G01X20.000Z-4.000F0.2 G01Z5.000F0.2 G00X50.000]=G94 X20. Z-2. R-3.|W-9. R0|G00 Z10.",
        "line 3: range R=G90 X40. Z-20. R6.|G00 X60.",
        "line 3: range R=G94 X40. Z-20. R26.|G00 X60.",
        "line 3: range X=G90 X999999. Z-20. R1.|G00 X60.",
        "line 3: range Z=G90 X40. Z-999999. R1.|G00 X60.",
        "line 3: range F=G90 X40. Z-20. R-1. F0|G00 X60.",
        "line 3: missing Z=G90 X40. R-1.|G00 X60.",
        "line 3: missing X=G90 Z-20. R-1.|G00 X60.",
        "line 3: unexpected U=G90 X40. U-1. Z-20. R-1.|G00 X60.",
        "line 3: calculated R=G90 X40. Z-20. R#1|G00 X60.",
        "line 4: unexpected G=G90 X40. Z-20. R-1.|G94 X38.|G00 X60.",
        "line 4: unexpected M=G90 X40. Z-20. R-1.|M08|G00 X60.",
        "not mine=G90 X40. Z-20.|X38. R-1.",
        "not mine=G92 X40. Z-20. R-1.",
        "not mine=X38. R-1.",
    ] {
        let (wanted, lines) = row.split_once("=").unwrap_or((row, ""));
        let text = taper(rt.alloc(), lines, &scene)?;
        assert_eq!(rt; text.as_str(), wanted);
    }
    Ok(())
}

#[test]
fn g30_is_two_rapids(rt: HostRuntime) -> Result<(), Fail> {
    let scene = standing(50_000, 5_000, System::A);
    for row in [
        "[ G00U0W0 G53X200.000Z150.000]=G30 U0 W0",
        "[ G00X60.M09 G53X200.000]=G30 P2 X60. M09",
        "line 3: range P=G30 P3 U0",
        "line 3: missing X=G30",
        "line 3: calculated W=G30 W#1",
        "line 3: unexpected T=G30 U0 W0 T0100",
        "not mine=G28 U0 W0",
    ] {
        let (wanted, lines) = row.split_once("=").unwrap_or((row, ""));
        let text = reference(rt.alloc(), lines, &scene)?;
        assert_eq!(rt; text.as_str(), wanted);
    }
    Ok(())
}
