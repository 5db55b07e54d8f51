//! Tests of what cycles may not say, each with its nearest neighbour that they may.
use crate::examples::example;
use crate::written::lead;
use std::test::Fail;
use thread_cycle::{ThreadCycle, ThreadFault};

/// The name of the fault of a cycle, or `fit`.
fn fault_name(cycle: &ThreadCycle) -> &'static str {
    match cycle.fault() {
        None => "fit",
        Some(ThreadFault::AllLeft) => "all left",
        Some(ThreadFault::TooLarge) => "too large",
        Some(ThreadFault::NoPass) => "no pass",
        Some(ThreadFault::NoLead) => "no lead",
        Some(ThreadFault::Short) => "short",
        Some(ThreadFault::Steep) => "steep",
        Some(ThreadFault::BelowCrest) => "below the crest",
    }
}

#[test]
fn less_than_the_depth_is_left(rt: HostRuntime) -> Result<(), Fail> {
    let mut cycle = example();
    cycle.left = 3_679;
    assert!(rt; fault_name(&cycle) == "fit");
    cycle.left = 3_680;
    assert!(rt; fault_name(&cycle) == "all left");
    Ok(())
}

#[test]
fn a_length_is_one_that_a_word_can_say(rt: HostRuntime) -> Result<(), Fail> {
    let mut cycle = example();
    cycle.least = 100_000_000_000;
    assert!(rt; fault_name(&cycle) == "fit");
    cycle.least = 100_000_000_001;
    assert!(rt; fault_name(&cycle) == "too large");
    Ok(())
}

#[test]
fn a_thread_has_a_lead(rt: HostRuntime) -> Result<(), Fail> {
    let mut cycle = example();
    cycle.lead = lead(0);
    assert!(rt; fault_name(&cycle) == "no lead");
    Ok(())
}

#[test]
fn a_cycle_has_a_pass_at_the_whole_depth(rt: HostRuntime) -> Result<(), Fail> {
    let mut cycle = example();
    cycle.finishing = 0;
    assert!(rt; fault_name(&cycle) == "no pass");
    Ok(())
}

/// At the whole depth passes begin 2.125 ahead.
#[test]
fn a_thread_is_longer_than_its_infeed(rt: HostRuntime) -> Result<(), Fail> {
    let mut cycle = example();
    cycle.target.z = 127_874;
    assert!(rt; fault_name(&cycle) == "fit");
    cycle.target.z = 127_875;
    assert!(rt; fault_name(&cycle) == "short");
    Ok(())
}

#[test]
fn a_taper_rises_at_45_degrees_at_most(rt: HostRuntime) -> Result<(), Fail> {
    let mut cycle = example();
    cycle.taper = -105_000;
    assert!(rt; fault_name(&cycle) == "fit");
    cycle.taper = -105_001;
    assert!(rt; fault_name(&cycle) == "steep");
    Ok(())
}

/// The crest of the example is at X68.
#[test]
fn a_thread_starts_off_its_crest(rt: HostRuntime) -> Result<(), Fail> {
    let mut cycle = example();
    cycle.start.x = 68_000;
    assert!(rt; fault_name(&cycle) == "fit");
    cycle.start.x = 67_999;
    assert!(rt; fault_name(&cycle) == "below the crest");
    cycle.start.x = 80_000;
    cycle.taper = 6_001;
    assert!(rt; fault_name(&cycle) == "below the crest");
    Ok(())
}

/// The crest of an inner thread to the same target is at X53.28.
#[test]
fn an_inner_thread_starts_off_its_crest(rt: HostRuntime) -> Result<(), Fail> {
    let mut cycle = example();
    cycle.start.x = 53_280;
    assert!(rt; fault_name(&cycle) == "fit");
    cycle.start.x = 53_281;
    assert!(rt; fault_name(&cycle) == "below the crest");
    Ok(())
}
