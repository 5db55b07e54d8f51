//! Tests of lines that are refused, each with its cause.
use crate::holes::answer_to as hole;
use crate::reading::standing;
use crate::threads::answer_to as thread;
use code_tables::System;
use std::test::Fail;

#[test]
fn a_thread_is_refused_with_its_cause(rt: HostRuntime) -> Result<(), Fail> {
    let scene = standing(80_000, 130_000, System::A);
    for row in [
        "line 4: missing P=G76 P011060 Q100 R200|G76 X60.64 Z25. Q1800 F6.",
        "line 4: missing Q=G76 P011060 Q100 R200|G76 X60.64 Z25. P3680 F6.",
        "line 4: missing X=G76 P011060 Q100 R200|G76 Z25. P3680 Q1800 F6.",
        "line 4: missing Z=G76 P011060 Q100 R200|G76 X60.64 P3680 Q1800 F6.",
        "line 3: range P=G76 P011061 Q100 R200|G76 X60.64 Z25. P3680 Q1800 F6.",
        "line 3: range P=G76 P1011060 Q100 R200|G76 X60.64 Z25. P3680 Q1800 F6.",
        "line 3: range Q=G76 P011060 Q.1 R200|G76 X60.64 Z25. P3680 Q1800 F6.",
        "line 3: range R=G76 P011060 Q100 R-200|G76 X60.64 Z25. P3680 Q1800 F6.",
        "line 3: range R=G76 P011060 Q100 R3680|G76 X60.64 Z25. P3680 Q1800 F6.",
        "line 3: unexpected S=G76 P011060 Q100 R200 S100|G76 X60.64 Z25. P3680 Q1800 F6.",
        "line 3: missing K=G76 P011060 Q100 R200 U1.|G76 X60.64 Z25. P3680 Q1800 F6.",
        "line 3: no form.=G76 P011060 Q100 R200|G00 X60.64",
        "line 3: no form.=G76 P011060 Q100 R200",
        "line 3: missing K=G76 X60.64 Z25. P3680 Q1800 F6.",
        "line 4: calculated P=G76 P011060 Q100 R200|G76 X60.64 Z25. P#1 Q1800 F6.",
        "line 4: range P=G76 P011060 Q100 R200|G76 X60.64 Z25. P3.68 Q1800 F6.",
        "line 4: range Z=G76 P011060 Q100 R200|G76 X60.64 Z128. P3680 Q1800 F6.",
        "line 4: start.=G76 P011060 Q100 R200|G76 X74. Z25. P3680 Q1800 F6.",
        "line 4: range F=G76 P011060 Q100 R200|G76 X60.64 Z25. P3680 Q1800 F0",
        "line 4: unexpected M=G76 P011060 Q100 R200|G76 X60.64 Z25. P3680 Q1800 F6. M08",
        "line 3: range P=G76 X20. Z-20. K1.3 D1000 P2 F2.",
        "line 3: range A=G76 X20. Z-20. K1.3 D1000 A50 F2.",
        "line 4: unexpected U=G76 P011060 Q100 R200|G76 X60.64 U-1. Z25. P3680 Q1800 F6.",
        "line 3: unexpected W=G76 X60.64 Z25. W-1. K3.68 D1800 F6.",
        "line 3: range I=G76 X60.64 Z25. I-105.001 K3.68 D1800 F6.",
        "line 3: range K=G76 X60.64 Z25. K0 D1800 F6.",
        "line 3: unexpected U=G92 X60. U-1. Z25. R-1. F6.|G00 X90.",
        "line 3: range R=G92 X60. Z25. R-105.001 F6.|G00 X90.",
        "line 3: missing X=G92 Z-20. R-1. F2.|G00 X90.",
        "line 4: no form.=G92 X40. Z-20. R-1. F2.|F3.|G00 X90.",
        "line 4: unexpected M=G92 X40. Z-20. R-1. F2.|M08|G00 X90.",
        "line 4: unexpected G=G92 X40. Z-20. R-1. F2.|G90 X38.|G00 X90.",
    ] {
        let (wanted, lines) = row.split_once("=").unwrap_or((row, ""));
        let text = thread(rt.alloc(), lines, &scene)?;
        assert_eq!(rt; text.as_str(), wanted);
    }
    Ok(())
}

#[test]
fn a_groove_or_a_hole_is_refused_with_its_cause(rt: HostRuntime) -> Result<(), Fail> {
    let scene = standing(50_000, 5_000, System::A);
    for row in [
        "line 4: range Q=G74 R1.|G74 X40. Z-20. P2000 F0.1",
        "line 4: range P=G74 R1.|G74 X40. Z-20. Q2000 F0.1",
        "line 4: range Z=G74 R1.|G74 X40. P2000 Q2000 F0.1",
        "line 4: range R=G74 R1.|G74 Z-20. Q2000 R-1. F0.1",
        "line 4: passes.=G74 R1.|G74 Z-20. Q20 F0.1",
        "line 3: no form.=G74 R1.|G75 X40. P2000 F0.1",
        "line 3: range P=G75 U1. R1.|G75 X40. P2000 F0.1",
        "line 3: unexpected U=G75 X40. U-1. P2000 F0.1",
        "line 3: unexpected W=G83 X0 Z-20. W-1. R-3. F0.1|G80",
        "line 3: unexpected Q=G84 X0 Z-20. R-3. Q2000 F1.|G80",
        "line 3: unexpected Q=G89 X0 Z-20. R-3. Q2000 F1.|G80",
        "line 3: unexpected G=G83 G84 X0 Z-20. R-3. F0.1|G80",
        "line 3: range X=G87 X44. Z-3. R-3. F0.1|G80",
        "line 3: missing Z=G83 X0 R-3. Q2000 F0.1|G80",
        "line 3: range R=G83 X0 Z-20. R3. Q2000 F0.1|G80",
        "line 3: range Q=G83 X0 Z-20. R-3. Q2. F0.1|G80",
        "line 3: unexpected C=G83 C90. Z-20. R-3. Q2000 F0.1|G80",
        "line 4: no form.=G83 X0 Z-20. R-3. Q2000 F0.1|F0.2|G80",
        "line 4: unexpected M=G83 X0 Z-20. R-3. Q2000 F0.1|M08|G80",
        "line 3: range K=G83 X0 Z-20. R-3. Q2000 F0.1 K101|G80",
        "line 4: range K=G83 X0 Z-20. R-3. Q2000 F0.1|U-2. K2|G80",
        "line 3: unexpected G=G99 G83 X0 Z-20. R-3. Q2000 F0.1|G80",
    ] {
        let (wanted, lines) = row.split_once("=").unwrap_or((row, ""));
        let text = hole(rt.alloc(), lines, &scene)?;
        assert!(rt; text.as_str() == wanted);
    }
    Ok(())
}
