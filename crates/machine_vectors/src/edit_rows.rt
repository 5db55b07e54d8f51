//! Tests of an operator's edits of a machine (two_path), and of its turns and records behind them.
//! walk.rt tries the rows.
use crate::pair::default_settings;
use crate::walk::failure_of;
use std::test::Fail;

/// The blocks of both tapes, the first at line 3, where `~` stands for the end of a line; turns,
/// edits and records; and the answers.
const ROWS: &str = "\
#1=#500+#501~M30|M30|1,edit var 1 500 7,1,1,1,?|reads #500 at 0, edited, reads #500 at 1, reads #501 at 1, did, 2 records #500 7 #501 vacant path 1 line 4 X0.000 Z0.000 #1 7 #2 vacant path 2 line 3 X0.000 Z0.000 #1 vacant #2 vacant
#1=#500~M30|M30|1,edit work 2 55 X1. Z2.,1,1|reads #500 at 0, edited, reads #500 at 1, did
#1=#500~M30|M30|edited var 2 501 3,1 did 0,1 did 1,?|edited, illegal, did, 2 records #500 vacant #501 3 path 1 line 4 X0.000 Z0.000 #1 vacant #2 vacant path 2 line 3 X0.000 Z0.000 #1 vacant #2 vacant
#1=#500~M30|#1=#500~M30|edited work 1 54 X1. Z2.,2 did 0,2 did 1,1 did 0,1 did 2|edited, illegal, did, illegal, did
#500=1~#1=#500~M30|M30|1 did,edited var 2 500 5,1 did 1,1 did 3,1 did 2,?|did, edited, illegal, illegal, did, 3 records #500 5 #501 vacant path 1 line 5 X0.000 Z0.000 #1 5 #2 vacant path 2 line 3 X0.000 Z0.000 #1 vacant #2 vacant
#1=#500~M30|#1=#500~M30|edit var 2 500 -1.5,1,1,2,2,?|edited, reads #500 at 1, did, reads #500 at 2, did, 3 records #500 -1.5 #501 vacant path 1 line 4 X0.000 Z0.000 #1 -1.5 #2 vacant path 2 line 4 X0.000 Z0.000 #1 -1.5 #2 vacant
#1=#600~M30|#1=#600~M30|edit var 1 600 7,1,2,?|edited, did, did, 3 records #500 vacant #501 vacant path 1 line 4 X0.000 Z0.000 #1 7 #2 vacant path 2 line 4 X0.000 Z0.000 #1 vacant #2 vacant
#600=5~#1=#600~M30|M30|1,edit var 1 600 vacant,1,?|did, edited, did, 3 records #500 vacant #501 vacant path 1 line 5 X0.000 Z0.000 #1 vacant #2 vacant path 2 line 3 X0.000 Z0.000 #1 vacant #2 vacant
#500=5~#1=#500~M30|M30|1,edit var 2 500 vacant,1,1,?|did, edited, reads #500 at 2, did, 3 records #500 vacant #501 vacant path 1 line 5 X0.000 Z0.000 #1 vacant #2 vacant path 2 line 3 X0.000 Z0.000 #1 vacant #2 vacant
G00 X10. Z0.~M30|G00 X10. Z0.~M30|edit work 1 54 X-1. Z5.,1,2|edited, did rapid X9.000 Z5.000, did rapid X10.000 Z0.000
G00 X10. Z0.~M30|G00 X10. Z0.~M30|edit work 2 0 X-1. Z5.,1,2|edited, did rapid X10.000 Z0.000, did rapid X9.000 Z5.000
T0101~G00 X10. Z0.~M30|M30|1,edit tool 1 1 X2. Z0,edit wear 1 1 X0.5 Z-1.,1|did another move, edited, edited, did rapid X12.500 Z-1.000
M101~#1=#500~M30|#500=1~M101~M30|1,2,edit var 1 500 9,2,1,1,?|arrives 101, did, edited, meets 101, reads #500 at 4, did, 5 records #500 9 #501 vacant path 1 line 5 X0.000 Z0.000 #1 9 #2 vacant path 2 line 5 X0.000 Z0.000 #1 vacant #2 vacant
M101~M30|M101~M30|1,edit var 2 600 1,1,2|arrives 101, edited, waits 101, meets 101
M30|M30|1,2,edit work 2 54 X1. Z1.,1,?|ends, ends, edited, has ended, 3 records #500 vacant #501 vacant path 1 line 3 X0.000 Z0.000 #1 vacant #2 vacant ended path 2 line 3 X0.000 Z0.000 #1 vacant #2 vacant ended
#3000=1~M30|M30|1,edit var 1 500 1,edited var 1 500 1,?|alarm 33 path 1 line 3 1, halted, illegal, 1 records #500 vacant #501 vacant path 1 line 3 X0.000 Z0.000 #1 vacant #2 vacant path 2 line 3 X0.000 Z0.000 #1 vacant #2 vacant alarm";

#[test]
fn edits_and_what_follows_them(rt: HostRuntime) -> Result<(), Fail> {
    let alloc = rt.alloc();
    let settings = default_settings(alloc)?;
    for row in ROWS.lines() {
        let failure = failure_of(alloc, &settings, row)?;
        assert_eq!(&rt; failure.as_str(), "");
    }
    Ok(())
}
