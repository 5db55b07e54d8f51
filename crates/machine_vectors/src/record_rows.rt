//! Tests of the records that a machine (two_path) is given, and of which ones it refuses. walk.rt
//! tries the rows.
use crate::pair::default_settings;
use crate::walk::failure_of;
use std::test::Fail;

/// The blocks of both tapes, the first at line 3, where `~` stands for the end of a line; turns,
/// and records with their stamps; and the answers. An illegal record leaves the machine as it was.
const ROWS: &str = "\
#500=#500+1~M30|#500=#500+1~M30|1 did 1,1 did 0,2 did 2,2 did 1|illegal, did, illegal, did
#500=#500+1~M30|#500=#500+1~M30|1 did,1 did 0 0,1 ended 0,1 arrived,1 met,1 alarmed 0,1 did 0|illegal, illegal, illegal, illegal, illegal, illegal, did
#500=#500+1~M30|#500=#500+1~M30|2 did 1,2 did,2 did 0|illegal, illegal, did
#1=#500+#501~M30|#500=1~#501=1~M30|2,2,1 did 2 1,1 did 1 3,1 did 1 2,?|did, did, illegal, illegal, did, 3 records #500 1 #501 1 path 1 line 4 X0.000 Z0.000 #1 2 #2 vacant path 2 line 5 X0.000 Z0.000 #1 vacant #2 vacant
#2=1~#1=#500~M30|#500=1~M30|1,1 did 0,2,1 did 0,1 did 1,?|did, illegal, did, illegal, did, 3 records #500 1 #501 vacant path 1 line 5 X0.000 Z0.000 #1 vacant #2 1 path 2 line 4 X0.000 Z0.000 #1 vacant #2 vacant
IF [#500 EQ 7] THEN #3000=1~M30|#500=7~M30|2,1 alarmed 0,1 did 1,1 did 0|did, illegal, illegal, did
IF [#500 EQ 7] THEN #3000=1~M30|#500=7~M30|2,1 did 1,1 alarmed 1,1 did 0,2 ended|did, illegal, alarm 33 path 1 line 3 1, illegal, illegal
#1=#500~M30|#500=7~M30|2,1 did 0,?|did, did, 2 records #500 7 #501 vacant path 1 line 4 X0.000 Z0.000 #1 vacant #2 vacant path 2 line 4 X0.000 Z0.000 #1 vacant #2 vacant
#3000=1~M30|M30|1,2 ended,1 alarmed|alarm 33 path 1 line 3 1, illegal, illegal
M101~M30|M101~M30|1 met,2 met,1 arrived 0,1 did,1|illegal, illegal, illegal, illegal, arrives 101
M101~M30|M101~M30|1,1 met,1 arrived,1 did,2 arrived,2 alarmed,2 met,?|arrives 101, illegal, illegal, illegal, illegal, illegal, meets 101, 2 records #500 vacant #501 vacant path 1 line 4 X0.000 Z0.000 #1 vacant #2 vacant path 2 line 4 X0.000 Z0.000 #1 vacant #2 vacant
M101~M30|M101~M30|2,2 met,2 arrived,1 arrived,1 met|arrives 101, illegal, illegal, illegal, meets 101
M101~M30|M102~M30|1,2 met,2 arrived,2 alarmed,1 ended|arrives 101, illegal, illegal, alarm 74 path 2 line 3, illegal
M30|M30|1,1 ended,1 did,2 did,2 ended|ends, illegal, illegal, illegal, ends
M101~#1=#500~M30|#500=1~M101~M30|1,2,2,1 did 2,1 did 1,1 did 3|arrives 101, did, meets 101, illegal, illegal, did";

#[test]
fn records_and_which_are_refused(rt: HostRuntime) -> Result<(), Fail> {
    let alloc = rt.alloc();
    let settings = default_settings(alloc)?;
    for row in ROWS.lines() {
        let failure = failure_of(alloc, &settings, row)?;
        assert_eq!(&rt; failure.as_str(), "");
    }
    Ok(())
}
