//! A test of `LogTurret` (real_outside): it takes every move and never fails.
use nc_moves::Move;
use nc_number::Point;
use nc_outside::{LinedMove, Rest, Turret};
use real_outside::LogTurret;
use std::test::Fail;

#[test]
fn every_move_is_taken(rt: HostRuntime) -> Result<(), Fail> {
    let mut turret = LogTurret;
    assert_eq!(rt; turret.place(Point { x: 1, z: -1 }), Ok(()));
    let tool = LinedMove {
        line: 1,
        what: Move::Tool { t: 101 },
    };
    assert_eq!(rt; turret.hand(&tool), Ok(()));
    assert_eq!(rt; turret.settle(Rest::End), Ok(()));
    assert_eq!(rt; turret.faults(), 0);
    Ok(())
}
