//! The table of alarms and refusals: the one place in code of their numbers and names. Each crate
//! that raises one takes it from here; what raises it is in that crate. specs/Causes.antt has the
//! same rows, and proofs/CauseTable.antt a line for each.
ghost use Rattle.std.specs.Prelude.{◌≡◌, ◌≢◌, Some, IsNone, IfSome, All};
ghost use Rattle.nc_number.specs.Causes.{cause_number, cause_name, every_cause};

/// Why a tape is refused, an alarm stops a run, or a journal or a setting can't be used.
#[derive(Clone, Copy, Debug, PartialEq, Eq)]
pub enum Cause {
    /// A result is past the range of a value.
    Overflow,
    /// A division, or a MOD, by 0.
    ZeroDivide,
    /// The root of a value below 0.
    NegativeRoot,
    /// A number that must be whole is not: of AND, OR and XOR, a variable's, a sequence's.
    NotWhole,
    /// A literal of more than 8 whole digits, leading zeros not counted, or more than 6 fraction
    /// digits.
    TooManyDigits,
    /// A byte that is not allowed where it stands.
    BadCharacter,
    /// A letter without a value, something that begins no word, or a word beside an O number or a
    /// skip sign before it (`/O2`).
    NoNumber,
    /// A line ends inside a comment.
    OpenComment,
    /// The first block is no O number, or the tape has no O number or no `%` line.
    NoProgramNumber,
    /// The tape has no second `%` line.
    NoEnd,
    /// A line of more than 512 bytes.
    LineTooLong,
    /// The 20,001st block of a tape.
    TooManyBlocks,
    /// The 4,194,305th byte of a tape.
    TapeTooLong,
    /// No statement or expression, for no narrower cause.
    BadExpression,
    /// A sixth open bracket.
    TooManyBrackets,
    /// IF or WHILE without a condition.
    BadCondition,
    /// Letters that name no function.
    UnknownFunction,
    /// The number of a DO or END is not 1, 2 or 3.
    BadLoopNumber,
    /// More than 32 `#` signs in a block.
    TooManyVariables,
    /// A variable that does not exist, or a reading of `#3000`.
    VariableRange,
    /// Writing a variable that is read only.
    Protected,
    /// A call with eight open.
    TooDeep,
    /// The program raised it by `#3000=`.
    MacroAlarm,
    /// An offset that does not exist, or a G10 without the number of one.
    OffsetNumber,
    /// A target of a move or an offset past 99,999.999 mm.
    PositionRange,
    /// The end of an arc does not lie on its circle, or lies farther from its start than 2 R.
    ArcRadius,
    /// An arc without I, K and R.
    NoCentre,
    /// A feed, an arc, a thread or a cycle while F is vacant or 0.
    FeedZero,
    /// A jump to a sequence number that stands nowhere in its program.
    NoSequence,
    /// A call of a program that the tape lacks.
    NoProgram,
    /// A DO without its END, an END without its DO, or loops that overlap.
    LoopMismatch,
    /// A jump into a loop that does not hold it.
    IntoLoop,
    /// A word that must be fixed is computed.
    NotFixed,
    /// A letter or a code that is unknown or not allowed there.
    UnknownCode,
    /// A waiting M code beside another word than N and P.
    WaitNotAlone,
    /// The P of a wait does not name both paths.
    WaitPaths,
    /// Two M words in a block.
    TwoM,
    /// An O number given before.
    ProgramTwice,
    /// A call without its program, or with words that don't fit together; or a P or an L that means
    /// nothing in its block.
    BadCall,
    /// An absolute and an incremental word of one axis in a block.
    AxisTwice,
    /// The path went past its program's last block.
    RanOff,
    /// A word out of its range.
    WordRange,
    /// A jump that may pass a wait or an end, or a loop that holds one.
    BranchAtWait,
    /// A wait or an end that would be reached only through nine open calls.
    WaitTooDeep,
    /// More than 65,536 labels of a path.
    TooManyLabels,
    /// The waits of the two paths differ, or one path ends where the other waits.
    WaitMismatch,
    /// The paths wait at different codes.
    WaitDiffers,
    /// The journal holds what is no header, no batch or no legal record there; `BadRecord` of
    /// run_records says which.
    BadRecord,
    /// The disk failed.
    DiskFault,
    /// There is no run to go on with or to show.
    NoRun,
    /// A run is there already.
    RunThere,
    /// The journal ends inside a body.
    Cut,
    /// The journal has no room for more records.
    JournalFull,
    /// A line of the settings that is none, or is out of its range.
    BadSetting,
    /// A line of an operator's edits that is none, or is out of its range.
    BadEdit,
    /// A line of a text of zones that is none, or is out of its range.
    BadZone,
    /// A roughing cycle that stands in no form that can be written out, or on a tape with G91 or
    /// G20.
    BadCycle,
    /// A tape that would have more than 20,000 blocks once it is written out.
    TooLarge,
    /// The run has no such meeting.
    NoMeeting,
    /// A block that can't be written out in plain blocks.
    NotPlain,
}

// The table: the number of each cause. What is printed as its name is the variant's.
macro_rules! cause_table {
    ($reading:ident $($cause:expr)?) => {
        $reading! {
            $($cause;)?
            1 Overflow,
            2 ZeroDivide,
            3 NegativeRoot,
            4 NotWhole,
            5 TooManyDigits,
            10 BadCharacter,
            11 NoNumber,
            12 OpenComment,
            13 NoProgramNumber,
            14 NoEnd,
            15 LineTooLong,
            16 TooManyBlocks,
            17 TapeTooLong,
            20 BadExpression,
            21 TooManyBrackets,
            22 BadCondition,
            23 UnknownFunction,
            24 BadLoopNumber,
            25 TooManyVariables,
            30 VariableRange,
            31 Protected,
            32 TooDeep,
            33 MacroAlarm,
            40 OffsetNumber,
            41 PositionRange,
            42 ArcRadius,
            43 NoCentre,
            44 FeedZero,
            50 NoSequence,
            51 NoProgram,
            52 LoopMismatch,
            53 IntoLoop,
            54 NotFixed,
            56 UnknownCode,
            57 WaitNotAlone,
            58 WaitPaths,
            59 TwoM,
            60 ProgramTwice,
            61 BadCall,
            62 AxisTwice,
            63 RanOff,
            64 WordRange,
            65 BranchAtWait,
            66 WaitTooDeep,
            70 TooManyLabels,
            72 WaitMismatch,
            74 WaitDiffers,
            80 BadRecord,
            81 DiskFault,
            82 NoRun,
            83 RunThere,
            84 Cut,
            85 JournalFull,
            90 BadSetting,
            91 BadEdit,
            92 BadZone,
            93 BadCycle,
            94 TooLarge,
            95 NoMeeting,
            96 NotPlain,
        }
    };
}

// The number of a cause, by the table.
macro_rules! number {
    ($of:expr; $($number:literal $cause:ident,)+) => {
        match $of {
            $(Cause::$cause => $number,)+
        }
    };
}

// The name of a cause, by the table.
macro_rules! name {
    ($of:expr; $($number:literal $cause:ident,)+) => {
        match $of {
            $(Cause::$cause => stringify!($cause),)+
        }
    };
}

// All causes of the table.
macro_rules! every {
    ($($number:literal $cause:ident,)+) => {
        [$(Cause::$cause,)+]
    };
}

/// All causes, in the order of their numbers.
const EVERY_CAUSE: [Cause; 60] = cause_table!(every);

/// One of these causes that has the number, if there is one.
fn of_number(causes: &[Cause], number: u8) -> Option<Cause>
    ensures found { IfSome result (λ cause. cause_number cause ≡ number) }
    ensures none { IsNone result → All (λ cause. cause_number cause ≢ number) causes.now }
{
    causes
        .iter()
        .find(|cause| cause.number() == number)
        .copied()
}

impl Cause {
    /// The number of the alarm or the refusal.
    pub fn number(self) -> u8
        ensures { result ≡ cause_number self }
    {
        cause_table!(number self)
    }

    /// The name that is printed beside the number.
    pub fn name(self) -> &'static str
        ensures { result.now ≡ cause_name self }
    {
        cause_table!(name self)
    }

    /// The cause of that number, if there is one.
    pub fn of_number(number: u8) -> Option<Cause>
        ensures number { IfSome result (λ cause. cause_number cause ≡ number) }
        ensures found { (cause : Cause) → cause_number cause ≡ number → result ≡ Some cause }
    {
        of_number(&EVERY_CAUSE, number)
    }
}
