//! Tests of the turns of a machine (two_path), and of what they answer. walk.rt tries the rows.
use crate::pair::default_settings;
use crate::walk::failure_of;
use std::test::Fail;

/// The blocks of both tapes, the first at line 3, where `~` stands for the end of a line; whose
/// turn it is; and the answers.
const ROWS: &str = "\
#500=#500+1~M30|#500=#500+1~M30|1,1,2,2,?|reads #500 at 0, did, reads #500 at 1, did, 2 records #500 2 #501 vacant path 1 line 4 X0.000 Z0.000 #1 vacant #2 vacant path 2 line 4 X0.000 Z0.000 #1 vacant #2 vacant
#500=#500+1~M30|#500=#500+1~M30|1,2,1,2,?|reads #500 at 0, reads #500 at 0, did, did, 2 records #500 1 #501 vacant path 1 line 4 X0.000 Z0.000 #1 vacant #2 vacant path 2 line 4 X0.000 Z0.000 #1 vacant #2 vacant
#500=#500+1~M30|#500=#500+1~M30|2,1,2,1,1,2|reads #500 at 0, reads #500 at 0, did, did, ends, ends
#1=1/3~#2=#1*3~#3=99999999.999999+0.000001~M30|M30|2,1,1,1,1,2,?|ends, did, did, alarm 1 path 1 line 5, halted by alarm 1 path 1 line 5, halted by alarm 1 path 1 line 5, 4 records #500 vacant #501 vacant path 1 line 5 X0.000 Z0.000 #1 0.333333 #2 0.999999 path 2 line 3 X0.000 Z0.000 #1 vacant #2 vacant ended alarm
M101~M102~M30|M102~M101~M30|1,2,1,2|arrives 101, alarm 74 path 2 line 3, halted by alarm 74 path 2 line 3, halted by alarm 74 path 2 line 3
M101~M102~M30|M102~M101~M30|2,1,2,1|arrives 102, alarm 74 path 1 line 3, halted by alarm 74 path 1 line 3, halted by alarm 74 path 1 line 3
M101~M30|M101~M30|1,1,2,1,2,1,2,?|arrives 101, waits 101, meets 101, ends, ends, has ended, has ended, 4 records #500 vacant #501 vacant path 1 line 4 X0.000 Z0.000 #1 vacant #2 vacant ended path 2 line 4 X0.000 Z0.000 #1 vacant #2 vacant ended
M101~M30|M101~M30|2,2,1,2,1,2,1|arrives 101, waits 101, meets 101, ends, ends, has ended, has ended
M101~M30|M101~M30|1,?|arrives 101, 1 records #500 vacant #501 vacant path 1 line 3 X0.000 Z0.000 #1 vacant #2 vacant waits 101 path 2 line 3 X0.000 Z0.000 #1 vacant #2 vacant
M101~M30|M30|1,2,1|arrives 101, ends, waits 101
M30|M101~M30|2,1,2|arrives 101, ends, waits 101
G00 X10. Z5.~M30|G00 X30.~M30|1,2,1,2,?|did rapid X10.000 Z5.000, did rapid X30.000 Z0.000, ends, ends, 4 records #500 vacant #501 vacant path 1 line 4 X10.000 Z5.000 #1 vacant #2 vacant ended path 2 line 4 X30.000 Z0.000 #1 vacant #2 vacant ended
X10. M30|X20. M02|1,2,1,2|ends rapid X10.000 Z0.000, ends rapid X20.000 Z0.000, has ended, has ended
#3000=7~M30|M30|1,1,2|alarm 33 path 1 line 3 7, halted by alarm 33 path 1 line 3 7, halted by alarm 33 path 1 line 3 7
M30|#3000=7~M30|2,1,2|alarm 33 path 2 line 3 7, halted by alarm 33 path 2 line 3 7, halted by alarm 33 path 2 line 3 7
M101~M30|X[1/0]~M101~M30|1,2,1|arrives 101, alarm 2 path 2 line 3, halted by alarm 2 path 2 line 3
X[1/0]~M30|M30|2,1,2|ends, alarm 2 path 1 line 3, halted by alarm 2 path 1 line 3
X[1/#500]~M30|M30|1,1,2|reads #500 at 0, alarm 2 path 1 line 3, halted by alarm 2 path 1 line 3
#1=#500~#2=#500~M30|#500=5~M30|1,2,1,1,1,?|reads #500 at 0, did, did, reads #500 at 2, did, 3 records #500 5 #501 vacant path 1 line 5 X0.000 Z0.000 #1 vacant #2 5 path 2 line 4 X0.000 Z0.000 #1 vacant #2 vacant
#1=#500+#500~M30|#500=5~M30|1,2,1,1,?|reads #500 at 0, did, reads #500 at 1, did, 2 records #500 5 #501 vacant path 1 line 4 X0.000 Z0.000 #1 5 #2 vacant path 2 line 4 X0.000 Z0.000 #1 vacant #2 vacant
#500=7~M30|#1=#500~G00 X#1~M30|1,2,2,2|did, reads #500 at 1, did, did rapid X7.000 Z0.000
M101~#1=#500~M30|#500=1~M101~M30|1,2,2,1,1,?|arrives 101, did, meets 101, reads #500 at 3, did, 4 records #500 1 #501 vacant path 1 line 5 X0.000 Z0.000 #1 1 #2 vacant path 2 line 5 X0.000 Z0.000 #1 vacant #2 vacant
M99|M30|1,1,2,1|did, did, ends, did";

#[test]
fn turns_and_what_they_answer(rt: HostRuntime) -> Result<(), Fail> {
    let alloc = rt.alloc();
    let settings = default_settings(alloc)?;
    for row in ROWS.lines() {
        let failure = failure_of(alloc, &settings, row)?;
        assert_eq!(&rt; failure.as_str(), "");
    }
    Ok(())
}
