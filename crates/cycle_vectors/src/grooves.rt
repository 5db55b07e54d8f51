//! Tests of the moves of G74 and G75.
use crate::written::text_of;
use peck_cycle::{Along, GrooveCycle, PeckFault, Pecks, Retreat};
use std::alloc::{AllocError, Global};
use std::test::Fail;

/// Pecks of 3 from 2 to -5, back by 1; columns from 40 to 36 by a step; off by 0.5 at the bottom.
fn groove(step: u32) -> GrooveCycle {
    GrooveCycle {
        pecks: Pecks {
            along: Along::Z,
            level: 2_000,
            bottom: -5_000,
            peck: 3_000,
            back: 1_000,
            retreat: Retreat::Short,
        },
        from: 40_000,
        to: 36_000,
        step: u64::from(step),
        relief: 500,
    }
}

/// The text of a groove's blocks, or of its fault.
fn groove_text(alloc: Global, groove: &GrooveCycle) -> Result<String, AllocError> {
    match groove.fault() {
        Some(PeckFault::NoStep) => String::from_str(alloc, "no step"),
        Some(_) => String::from_str(alloc, "fault"),
        None => {
            let blocks = groove.blocks(alloc)?;
            text_of(alloc, blocks)
        }
    }
}

#[test]
fn columns_lead_on(rt: HostRuntime) -> Result<(), Fail> {
    let text = groove_text(rt.alloc(), &groove(0))?;
    assert!(rt; text.as_str() == "no step");
    Ok(())
}

/// G75 X30. Z-30. P4000 Q2000 R0 from X50. Z-28., back by 0.5: places in X are diameters.
#[test]
fn a_groove_in_x_counts_diameters(rt: HostRuntime) -> Result<(), Fail> {
    let groove = GrooveCycle {
        pecks: Pecks {
            along: Along::X,
            level: 50_000,
            bottom: 30_000,
            peck: 8_000,
            back: 1_000,
            retreat: Retreat::Short,
        },
        from: -28_000,
        to: -30_000,
        step: 2_000,
        relief: 0,
    };
    let text = groove_text(rt.alloc(), &groove)?;
    assert!(rt;
        text.as_str()
            == " RZ-28000 CX42000 RX43000 CX34000 RX35000 CX30000 RX50000 RZ-30000 CX42000 RX43000 CX34000 RX35000 CX30000 RX50000 RZ-28000"
    );
    Ok(())
}

#[test]
fn a_groove_is_cut_in_columns(rt: HostRuntime) -> Result<(), Fail> {
    let text = groove_text(rt.alloc(), &groove(4_000))?;
    assert!(rt;
        text.as_str()
            == " RX40000 CZ-1000 RZ0 CZ-4000 RZ-3000 CZ-5000 RX40000 RZ2000 RX36000 CZ-1000 RZ0 CZ-4000 RZ-3000 CZ-5000 RX36500 RZ2000 RX40000"
    );
    Ok(())
}

#[test]
fn the_last_column_is_at_the_end(rt: HostRuntime) -> Result<(), Fail> {
    let text = groove_text(rt.alloc(), &groove(3_000))?;
    assert!(rt;
        text.as_str()
            == " RX40000 CZ-1000 RZ0 CZ-4000 RZ-3000 CZ-5000 RX40000 RZ2000 RX37000 CZ-1000 RZ0 CZ-4000 RZ-3000 CZ-5000 RX37500 RZ2000 RX36000 CZ-1000 RZ0 CZ-4000 RZ-3000 CZ-5000 RX36500 RZ2000 RX40000"
    );
    Ok(())
}

#[test]
fn more_than_1_000_columns_are_too_many(rt: HostRuntime) -> Result<(), Fail> {
    let text = groove_text(rt.alloc(), &groove(3))?;
    assert!(rt; text.as_str() == "too many");
    Ok(())
}
