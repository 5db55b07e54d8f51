//! The table of meanings: what docs/ERRORS.md says of each cause, word for word. That has an example
//! and a remedy besides.
ghost use Rattle.std.specs.Prelude.{◌<◌, length};

use nc_number::Cause;

/// What a cause means, in a sentence that ends with a full stop.
pub fn meaning(cause: Cause) -> &'static str
    ensures { 0 < length result.now }
{
    match cause {
        Cause::Overflow => {
            "a calculated value is larger than 99,999,999.999999, or smaller than the same \
             below zero."
        }
        Cause::ZeroDivide => {
            "a division by 0, or a MOD by 0. A variable that was never written counts as 0."
        }
        Cause::NegativeRoot => "the square root of a value below 0.",
        Cause::NotWhole => {
            "a number that must be whole has a fraction: of a variable (`#[1.5]`), of a jump, \
             or in AND, OR and XOR, where a number below 0 is refused too."
        }
        Cause::TooManyDigits => {
            "a number has more than 8 digits before the point (leading zeros are not \
             counted), or more than 6 after it."
        }
        Cause::BadCharacter => {
            "a character that is not allowed here. After `;` only blanks may follow, and text \
             belongs in ( )."
        }
        Cause::NoNumber => {
            "a letter has no number after it, something there begins no word, or a `/` or \
             another word stands beside an O number."
        }
        Cause::OpenComment => "a comment is not closed on its line.",
        Cause::NoProgramNumber => {
            "the first block of the tape is no O number, or there is no line that begins with \
             %, so no program begins."
        }
        Cause::NoEnd => "the tape has no second line that begins with %.",
        Cause::LineTooLong => "a line has more than 512 bytes.",
        Cause::TooManyBlocks => "the tape has more than 20,000 blocks.",
        Cause::TapeTooLong => "the tape has more than 4,194,304 bytes.",
        Cause::BadExpression => {
            "a statement or an expression is not complete, or has something in it that no \
             rule allows."
        }
        Cause::TooManyBrackets => "brackets are nested more than five deep.",
        Cause::BadCondition => "IF or WHILE has no condition in brackets.",
        Cause::UnknownFunction => "an expression names a function that this profile does not have.",
        Cause::BadLoopNumber => "the number of a DO or an END is not 1, 2 or 3.",
        Cause::TooManyVariables => "a block names more than 32 variables.",
        Cause::VariableRange => "a variable that does not exist here, or a reading of #3000.",
        Cause::Protected => "a variable that can only be read is written.",
        Cause::TooDeep => "a call while eight calls are open already.",
        Cause::MacroAlarm => {
            "the tape raised this alarm itself by #3000=; the number after it is the value \
             that it wrote."
        }
        Cause::OffsetNumber => {
            "an offset that does not exist: T.. with an offset above 64, or G10 without a \
             number, or with one that names no offset."
        }
        Cause::PositionRange => "a target or an offset is past 99,999.999 mm.",
        Cause::ArcRadius => {
            "the end of the arc is not on its circle: it is more than 0.010 mm off by I and \
             K, or the ends are farther apart than 2 R."
        }
        Cause::NoCentre => "an arc has none of I, K and R.",
        Cause::FeedZero => "a cut, an arc, a thread or a cycle while no feed is given, or F is 0.",
        Cause::NoSequence => "a jump names a sequence number that its program does not have.",
        Cause::NoProgram => "a call names a program that this tape does not have.",
        Cause::LoopMismatch => {
            "a WHILE or DO has no END of its number, an END has no WHILE or DO, or loops \
             overlap."
        }
        Cause::IntoLoop => "a jump leads into a loop from outside it.",
        Cause::NotFixed => {
            "a word must be a number here, and is calculated: G, N, O, M, P and L of a call, \
             L of G10."
        }
        Cause::UnknownCode => {
            "a G code or a letter that this profile does not have, or not in this place. \
             docs/LANGUAGE.md lists what there is."
        }
        Cause::WaitNotAlone => "a waiting M code has another word beside it than N and P.",
        Cause::WaitPaths => "the P of a wait does not name both paths.",
        Cause::TwoM => "a block has two M codes.",
        Cause::ProgramTwice => "an O number is given twice in this tape.",
        Cause::BadCall => {
            "a call lacks its P, or has words that do not fit together, or P or L means \
             nothing in this block."
        }
        Cause::AxisTwice => "a block moves one axis both ways: X beside U, or Z beside W.",
        Cause::RanOff => {
            "the path went past the last block of its program: M30, M02 or M99 is missing."
        }
        Cause::WordRange => {
            "a word is out of its range: S above 99999, T above 9999, M above 999, a negative \
             F, an N number that is not 0 to 99999, an O number that is not 1 to 9999."
        }
        Cause::BranchAtWait => {
            "a jump may pass a wait or an end (M30, M02, M99), or a loop holds one. So which \
             waits come depends on variables."
        }
        Cause::WaitTooDeep => "a wait or an end would be reached only through nine open calls.",
        Cause::TooManyLabels => "a path comes to more than 65,536 waits and ends.",
        Cause::WaitMismatch => {
            "after so many equal waits the next ones differ, or one path ends while the other \
             waits. On the machine this is a deadlock."
        }
        Cause::WaitDiffers => "both paths wait at different codes.",
        Cause::BadRecord => {
            "the journal has a record that can't be one, or that is not legal in its place."
        }
        Cause::DiskFault => {
            "the disk failed, or the file of the journal can't be opened, read or written."
        }
        Cause::NoRun => "there is no run to continue or to show.",
        Cause::RunThere => "the folder has the journal of a run already.",
        Cause::Cut => "the journal ends inside one of its entries.",
        Cause::JournalFull => "the journal has as many records as the settings allow.",
        Cause::BadSetting => {
            "this line of the settings is no setting, or a number in it is out of range."
        }
        Cause::BadEdit => {
            "this line of the file of `edit` is no edit, or a number in it is out of range, \
             or it is the 65th edit."
        }
        Cause::BadZone => {
            "this line of the file of `zones` is no line of it, or a number in it is out of \
             range."
        }
        Cause::BadCycle => {
            "a G70 or G71 stands in no form that `expand` writes out, or its form needs more \
             than 1,000 passes; or the tape has a G91 or a G20."
        }
        Cause::TooLarge => {
            "written out, the whole tape has more than 20,000 blocks; the line is that of the \
             cycle with which it first has."
        }
        Cause::NoMeeting => "the run in the journal has fewer meetings than the branch is to have.",
        Cause::NotPlain => "a block that can't be written out in plain blocks.",
    }
}
