//! Tests of the moves of G83 to G89, from 9 to a point R at 2 and a bottom at -5.
use crate::written::text_of;
use peck_cycle::{Along, DrillCycle, PeckFault, Pecks, Retreat, ReturnLevel, WayOut};
use std::alloc::{AllocError, Global};
use std::test::Fail;

/// A hole in pecks of 3, back by 1.
fn drilled(retreat: Retreat, returns: ReturnLevel) -> DrillCycle {
    DrillCycle {
        start: 9_000,
        pecks: Pecks {
            along: Along::Z,
            level: 2_000,
            bottom: -5_000,
            peck: 3_000,
            back: 1_000,
            retreat,
        },
        dwell: Some(300),
        way_out: WayOut::AtRapid,
        returns,
    }
}

/// A hole in one cut, left by a feed.
fn tapped(dwell: Option<u64>, returns: ReturnLevel) -> DrillCycle {
    DrillCycle {
        start: 9_000,
        pecks: Pecks::one_cut(Along::Z, 2_000, -5_000),
        dwell,
        way_out: WayOut::AtFeed,
        returns,
    }
}

/// The text of a hole's blocks, or of its fault.
fn hole_text(alloc: Global, hole: &DrillCycle) -> Result<String, AllocError> {
    match hole.fault() {
        Some(fault) => String::from_str(alloc, fault_name(fault)),
        None => {
            let blocks = hole.blocks(alloc)?;
            text_of(alloc, blocks)
        }
    }
}

/// The name of a fault.
fn fault_name(fault: PeckFault) -> &'static str {
    match fault {
        PeckFault::TooLarge => "too large",
        PeckFault::NoDepth => "no depth",
        PeckFault::NoPeck => "no peck",
        PeckFault::NoStep => "no step",
        PeckFault::WrongSide => "wrong side",
    }
}

#[test]
fn the_point_r_lies_before_the_bottom(rt: HostRuntime) -> Result<(), Fail> {
    let mut hole = drilled(Retreat::Short, ReturnLevel::PointR);
    hole.start = 1_000;
    let text = hole_text(rt.alloc(), &hole)?;
    assert!(rt; text.as_str() == "wrong side");
    Ok(())
}

#[test]
fn a_hole_has_a_depth(rt: HostRuntime) -> Result<(), Fail> {
    let mut hole = drilled(Retreat::Short, ReturnLevel::PointR);
    hole.pecks.bottom = 2_000;
    let text = hole_text(rt.alloc(), &hole)?;
    assert!(rt; text.as_str() == "no depth");
    Ok(())
}

#[test]
fn a_peck_has_a_depth(rt: HostRuntime) -> Result<(), Fail> {
    let mut hole = drilled(Retreat::Short, ReturnLevel::PointR);
    hole.pecks.peck = 0;
    let text = hole_text(rt.alloc(), &hole)?;
    assert!(rt; text.as_str() == "no peck");
    Ok(())
}

#[test]
fn a_deep_hole_is_cleared_at_the_point_r(rt: HostRuntime) -> Result<(), Fail> {
    let hole = drilled(Retreat::ToLevel, ReturnLevel::Start);
    let text = hole_text(rt.alloc(), &hole)?;
    assert!(rt;
        text.as_str() == " RZ2000 CZ-1000 RZ2000 RZ0 CZ-4000 RZ2000 RZ-3000 CZ-5000 P300 RZ9000"
    );
    Ok(())
}

#[test]
fn a_short_retreat_breaks_the_chip(rt: HostRuntime) -> Result<(), Fail> {
    let hole = drilled(Retreat::Short, ReturnLevel::PointR);
    let text = hole_text(rt.alloc(), &hole)?;
    assert!(rt; text.as_str() == " RZ2000 CZ-1000 RZ0 CZ-4000 RZ-3000 CZ-5000 P300 RZ2000");
    Ok(())
}

#[test]
fn a_tap_feeds_in_and_out(rt: HostRuntime) -> Result<(), Fail> {
    let hole = tapped(None, ReturnLevel::PointR);
    let text = hole_text(rt.alloc(), &hole)?;
    assert!(rt; text.as_str() == " RZ2000 CZ-5000 CZ2000");
    Ok(())
}

#[test]
fn a_bore_rests_at_its_bottom(rt: HostRuntime) -> Result<(), Fail> {
    let hole = tapped(Some(500), ReturnLevel::Start);
    let text = hole_text(rt.alloc(), &hole)?;
    assert!(rt; text.as_str() == " RZ2000 CZ-5000 P500 CZ2000 RZ9000");
    Ok(())
}

/// A hole in X has its places there, as diameters: here from X60. to X40. with pecks of 5 a side.
#[test]
fn a_hole_in_x_counts_diameters(rt: HostRuntime) -> Result<(), Fail> {
    let hole = in_x();
    let text = hole_text(rt.alloc(), &hole)?;
    assert!(rt;
        text.as_str() == " RX62000 CX52000 RX62000 RX54000 CX42000 RX62000 RX44000 CX40000 RX62000"
    );
    Ok(())
}

/// That hole: the point R at X62.
fn in_x() -> DrillCycle {
    DrillCycle {
        start: 70_000,
        pecks: Pecks {
            along: Along::X,
            level: 62_000,
            bottom: 40_000,
            peck: 10_000,
            back: 2_000,
            retreat: Retreat::ToLevel,
        },
        dwell: None,
        way_out: WayOut::AtRapid,
        returns: ReturnLevel::PointR,
    }
}
