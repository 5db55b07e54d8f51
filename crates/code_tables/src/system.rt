//! The two G-code systems as tables. A further code is a row here and in specs/SystemA.antt or
//! SystemB.antt.
ghost use Rattle.std.specs.Prelude.{◌≡◌, IsTrue};
ghost use Rattle.code_tables.specs.Codes.{codes_stand_once, names_work_offsets, row_of};
ghost use Rattle.code_tables.specs.SystemA.{system_a_rows};
ghost use Rattle.code_tables.specs.SystemB.{system_b_rows};
ghost use Rattle.code_tables.specs.Systems.{rows_of_system};

use crate::group::{
    ABSOLUTE_GROUP, FEED_GROUP, IDLE_GROUP, MOTION_GROUP, NOSE_GROUP, ONE_SHOT_GROUP,
    SPINDLE_GROUP, UNIT_GROUP, WORK_GROUP,
};
use crate::kind::CodeKind;
use crate::row::Row;
use crate::table::CodeTable;

/// Fanuc's G-code systems for lathes: which numbers stand for what. A is the usual one.
#[derive(Clone, Copy, Debug, PartialEq, Eq)]
pub enum System {
    /// G90, G92 and G94 are cycles; X and Z are absolute, U and W incremental.
    A,
    /// G77, G78 and G79 are cycles; X and Z are absolute under G90 and incremental under G91.
    B,
}

/// The row of a code in the table of this system, if it has one.
pub fn row_of_code(system: System, code: u16) -> Option<Row>
    ensures { result ≡ row_of (rows_of_system system) code }
{
    match system {
        System::A => system_a().find(code),
        System::B => system_b().find(code),
    }
}

// The rows of a table, group by group: each code with its kind.
macro_rules! code_rows {
    ($($group:ident: $($code:literal $kind:ident),+;)+) => {
        [$($(Row {
            code: $code,
            group: $group,
            kind: CodeKind::$kind,
        }),+),+]
    };
}

/// The G codes of Fanuc's system A for lathes, as far as this control knows them.
pub fn system_a() -> CodeTable<32>
    ensures rows { result ≡ system_a_rows }
    ensures once { IsTrue (codes_stand_once result) }
    ensures work { IsTrue (names_work_offsets result) }
{
    CodeTable::new(code_rows! {
        MOTION_GROUP: 0 Rapid, 1 Feed, 2 ArcCw, 3 ArcCcw, 32 Thread, 90 CycleTurn, 92 CycleThread, 94 CycleFace;
        SPINDLE_GROUP: 96 Surface, 97 Spindle;
        FEED_GROUP: 98 PerMin, 99 PerRev;
        UNIT_GROUP: 20 Inch, 21 Metric;
        NOSE_GROUP: 40 NoseOff, 41 NoseOn, 42 NoseOn;
        WORK_GROUP: 54 Work, 55 Work, 56 Work, 57 Work, 58 Work, 59 Work;
        ONE_SHOT_GROUP: 4 Dwell, 10 Setting, 28 Home, 50 Limit, 53 Machine, 65 MacroCall;
        IDLE_GROUP: 18 Idle, 67 Idle, 80 Idle;
    })
}

/// The G codes of Fanuc's system B for lathes, as far as this control knows them.
pub fn system_b() -> CodeTable<34>
    ensures rows { result ≡ system_b_rows }
    ensures once { IsTrue (codes_stand_once result) }
    ensures work { IsTrue (names_work_offsets result) }
{
    CodeTable::new(code_rows! {
        MOTION_GROUP: 0 Rapid, 1 Feed, 2 ArcCw, 3 ArcCcw, 33 Thread, 77 CycleTurn, 78 CycleThread, 79 CycleFace;
        SPINDLE_GROUP: 96 Surface, 97 Spindle;
        ABSOLUTE_GROUP: 90 Absolute, 91 Incremental;
        FEED_GROUP: 94 PerMin, 95 PerRev;
        UNIT_GROUP: 20 Inch, 21 Metric;
        NOSE_GROUP: 40 NoseOff, 41 NoseOn, 42 NoseOn;
        WORK_GROUP: 54 Work, 55 Work, 56 Work, 57 Work, 58 Work, 59 Work;
        ONE_SHOT_GROUP: 4 Dwell, 10 Setting, 28 Home, 53 Machine, 65 MacroCall, 92 Limit;
        IDLE_GROUP: 18 Idle, 67 Idle, 80 Idle;
    })
}
