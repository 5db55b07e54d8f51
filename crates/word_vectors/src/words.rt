//! Words of the command line with the commands that they give, as one table. It tests `read_words`
//! of clap_reading.

use clap_reading::read_words;
use command_words::{Command, Name, ProgramRange, TurretFiles, WordsFault};
use std::alloc::{AllocError, Global};
use std::test::Fail;

/// Words, with one space between two, and what they give. Two spaces hold an empty word.
/// A file of a turret stands after a `>`, as `1>a`.
const ROWS: &str = "verify l r s -> verify [l] [r] [s]
verify -> usage
verify l -> usage
verify l r -> verify [l] [r]
verify l r s t -> usage
verify  r s -> verify [] [r] [s]
verify    -> verify [] [] []
verify - - - -> verify [-] [-] [-]
verify verify run moves -> verify [verify] [run] [moves]
verify help state make -> verify [help] [state] [make]
verify a=b c.d é -> verify [a=b] [c.d] [é]
verify -- l r s -> verify [l] [r] [s]
verify l -- r s -> verify [l] [r] [s]
verify l r s -- -> verify [l] [r] [s]
verify -- --help -x --blocks -> verify [--help] [-x] [--blocks]
verify -- l -- s -> verify [l] [--] [s]
verify  r -> verify [] [r]
verify   -> verify [] []
verify - - -> verify [-] [-]
verify verify run -> verify [verify] [run]
verify -- l r -> verify [l] [r]
verify l -- r -> verify [l] [r]
verify l r -- -> verify [l] [r]
verify -- l -> usage
verify -- -- -- -> verify [--] [--]
verify -- l r s t -> usage
verify l r s -- -- -> usage
-- verify l r s -> usage
verify l r s --blocks 5 -> usage
verify l r s --blocks=5 -> usage
verify l r -x -> usage
verify l r --x -> usage
verify --help -> usage
verify l r s -h -> usage
verify l r s --version -> usage
verify l r s -V -> usage
Verify l r s -> usage
verif l r s -> usage
waits l r s -> waits [l] [r] [s]
waits l r -> waits [l] [r]
waits l r --outside 1-2 -> waits [l] [r] 1 2
waits l --outside=1-2 r -> waits [l] [r] 1 2
waits l --outside 1-2 -> usage
waits l -> usage
waits l r s t -> usage
waits l r s --outside 9000-9999 -> waits [l] [r] [s] 9000 9999
waits --outside=1-1 l r s -> waits [l] [r] [s] 1 1
waits l r s --outside 0009000-0009999 -> waits [l] [r] [s] 9000 9999
waits l r s --outside 9999-9000 -> usage
waits l r s --outside 0-9 -> usage
waits l r s --outside 9000-10000 -> usage
waits l r s --outside 9000 -> usage
waits l r s --outside 9000- -> usage
waits l r s --outside=-9000 -> usage
waits l r s --outside 1-2-3 -> usage
waits l r s --outside -> usage
waits l r s --outside 1-2 --outside 1-2 -> usage
waits l r s --blocks 7 -> usage
verify l r s --outside 1-2 -> usage
races l r s -> races [l] [r] [s]
races l r -> races [l] [r]
races l -> usage
races l r s t -> usage
races l -- r s -> races [l] [r] [s]
races l r s --blocks 5 -> usage
races l r s --outside 1-2 -> usage
Races l r s -> usage
trace l r s -> trace [l] [r] [s] 100000
trace l r -> trace [l] [r] 100000
trace l r --blocks 7 -> trace [l] [r] 7
trace -- l --blocks -> trace [l] [--blocks] 100000
trace l -> usage
trace l r s t -> usage
trace l r s --blocks 7 -> trace [l] [r] [s] 7
trace --blocks=1000000 l r s -> trace [l] [r] [s] 1000000
trace l r s --blocks 1000001 -> usage
trace l r s --blocks 0 -> usage
trace l r s --turret1 a -> usage
trace -- l r --blocks -> trace [l] [r] [--blocks] 100000
run l r s -> run [l] [r] [s] 100000
run l r -> run [l] [r] 100000
run l -> usage
run l r --blocks 5 -> run [l] [r] 5
run l --blocks 5 r -> run [l] [r] 5
run l --blocks r -> usage
run l --blocks 5 -> usage
run l r --turret1 a -> run [l] [r] 100000 1>a
run --turret1 a --turret2 b l r --blocks=9 -> run [l] [r] 9 1>a 2>b
run l r s t -> usage
run l r s --blocks 1 -> run [l] [r] [s] 1
run l r s --blocks 1000000 -> run [l] [r] [s] 1000000
run l r s --blocks 1000001 -> usage
run l r s --blocks 0 -> usage
run l r s --blocks 0000001 -> run [l] [r] [s] 1
run l r s --blocks 00000001 -> usage
run l r s --blocks 10000000 -> usage
run l r s --blocks=50 -> run [l] [r] [s] 50
run l r s --blocks= -> usage
run l r s --blocks  -> usage
run l r s --blocks -> usage
run --blocks 5 l r s -> run [l] [r] [s] 5
run l --blocks 5 r s -> run [l] [r] [s] 5
run l r --blocks=5 s -> run [l] [r] [s] 5
run --blocks l r s -> usage
run --blocks 5 --blocks 6 l r s -> usage
run --blocks 5 l r s --blocks=5 -> usage
run --blocks=5 --blocks=5 l r s -> usage
run --blocks 5 -- l r s -> run [l] [r] [s] 5
run l r --blocks 5 -- s -> run [l] [r] [s] 5
run -- l r s --blocks 5 -> usage
run -- l --blocks 5 -> run [l] [--blocks] [5] 100000
run l r -- --blocks=5 -> run [l] [r] [--blocks=5] 100000
run --blocks -- l r s -> usage
run -- -- -- -- -> run [--] [--] [--] 100000
run --blocks=5 -- -- --blocks -h -> run [--] [--blocks] [-h] 5
run l r s --blocks -5 -> usage
run l r s --blocks=-5 -> usage
run l r s --blocks - -> usage
run l r s --blocks +5 -> usage
run l r s --blocks 5x -> usage
run l r s --blocks 5.0 -> usage
run l r s --blocks=5=5 -> usage
run l r s --block 5 -> usage
run l r s --Blocks 5 -> usage
run l r s -blocks 5 -> usage
run l r s -b5 -> usage
--blocks 5 run l r s -> usage
run l r s --turret1 a -> run [l] [r] [s] 100000 1>a
run l r s --turret2=b -> run [l] [r] [s] 100000 2>b
run --turret2 b l --turret1=a r s --blocks 5 -> run [l] [r] [s] 5 1>a 2>b
run l r s --turret1=a=b --turret2 - -> run [l] [r] [s] 100000 1>a=b 2>-
run l r s --turret1 a --turret1 a -> usage
run l r s --turret1=a --blocks 5 --turret1 b -> usage
run l r s --turret1= -> usage
run l r s --turret2  -> usage
run l r s --turret1 -> usage
run l r s --turret1 --turret2 b -> usage
run l r s --turret3 c -> usage
run l r s --turret a -> usage
run l r s -turret1 a -> usage
run l r s -- --turret1 a -> usage
run -- l r --turret1=a -> run [l] [r] [--turret1=a] 100000
verify l r s --turret1 a -> usage
resume -> resume 100000
resume --turret1 a --blocks=7 --turret2 b -> resume 7 1>a 2>b
resume --blocks 50 -> resume 50
resume --blocks=50 -> resume 50
resume -- -> resume 100000
resume --blocks 50 -- -> resume 50
resume -- --blocks 50 -> usage
resume 50 -> usage
resume --blocks 50 --blocks 50 -> usage
edit q -> edit [q]
edit -- --q -> edit [--q]
edit -> usage
edit q r -> usage
edit q --blocks 7 -> usage
edit q --turret1 a -> usage
edit --q -> usage
edits q -> usage
moves -> moves
moves x -> usage
moves --blocks 5 -> usage
moves --turret1 a -> usage
state -> state
state state -> usage
zones q -> zones [q]
zones -- --q -> zones [--q]
zones -> usage
zones q r -> usage
zones q l r -> zones [q] [l] [r]
zones q l r s -> zones [q] [l] [r] [s]
zones -- q l r s -> zones [q] [l] [r] [s]
zones q l -- r --s -> zones [q] [l] [r] [--s]
zones  l  s -> zones [] [l] [] [s]
zones q l r s t -> usage
zones q -- l -> usage
zones q l r --blocks 7 -> usage
zones q l r --settings s -> usage
zones -q l r -> usage
zones q --blocks 7 -> usage
zones --q -> usage
branch 0 -> branch 0
branch 1 -> branch 1
branch 4000000 -> branch 4000000
branch 0000012 -> branch 12
branch -- 3 -> branch 3
branch -> usage
branch 4000001 -> usage
branch 00000001 -> usage
branch x -> usage
branch -1 -> usage
branch +1 -> usage
branch 1.0 -> usage
branch 1 2 -> usage
branch 1 --blocks 7 -> usage
branch 1 --turret1 a -> usage
branches 1 -> usage
zone q -> usage
make 0 -> make 0
make 0000007 -> make 7
make 999999 -> make 999999
make 1000000 -> usage
make 00000007 -> usage
make -7 -> usage
make -- 7 -> make 7
make -- -7 -> usage
make -- -- -> usage
make -> usage
make 7 --blocks 5 -> usage
make --turret1=a 7 --turret2 b -> make 7 1>a 2>b
expand l -> expand [l]
expand -- --tape -> expand [--tape]
expand -> usage
expand l r -> usage
expand l --blocks 7 -> usage
expand --tape l -> usage
plain t -> plain [t]
plain t s -> plain [t] [s]
plain -- --t s -> plain [--t] [s]
plain -- t --s -> plain [t] [--s]
plain -> usage
plain t s u -> usage
plain t --blocks 7 -> usage
plain --tape t -> usage
plain t --settings s -> usage
expan l -> usage
help -> usage
--help -> usage
codes -> usage
 -> usage";

/// Each row's words give the row's command.
#[test]
fn commands_of_words(rt: HostRuntime) -> Result<(), Fail> {
    for line in ROWS.lines() {
        let (row, want) = line.split_once(" -> ").ok_or("a row")?;
        let words = words_of(rt.alloc(), row)?;
        let answer = shown(rt.alloc(), read_words(rt.alloc(), words.as_slice()))?;
        assert_eq!(rt; answer.as_str(), want, "{row}");
    }
    Ok(())
}

/// The words of a row, cut at each space.
fn words_of(alloc: Global, row: &str) -> Result<Vec<String>, AllocError> {
    let mut words = Vec::new(alloc);
    for word in row.split(' ') {
        words.push(String::from_str(alloc, word)?)?;
    }
    Ok(words)
}

/// A command, or why there is none, as the rows write it.
fn shown(alloc: Global, answer: Result<Command, WordsFault>) -> Result<String, AllocError> {
    match answer {
        Ok(Command::Verify(left, right, settings)) => {
            let pair = pair_shown(alloc, &left, &right, &settings)?;
            let pair = pair.as_str();
            format!(in alloc; "verify{pair}")
        }
        Ok(Command::Waits(left, right, settings, outside)) => {
            let pair = pair_shown(alloc, &left, &right, &settings)?;
            let pair = pair.as_str();
            let outside = range_shown(alloc, outside)?;
            let outside = outside.as_str();
            format!(in alloc; "waits{pair}{outside}")
        }
        Ok(Command::Races(left, right, settings)) => {
            let pair = pair_shown(alloc, &left, &right, &settings)?;
            let pair = pair.as_str();
            format!(in alloc; "races{pair}")
        }
        Ok(Command::Trace(left, right, settings, blocks)) => {
            let pair = pair_shown(alloc, &left, &right, &settings)?;
            let pair = pair.as_str();
            format!(in alloc; "trace{pair} {blocks}")
        }
        Ok(Command::Run(left, right, settings, blocks, files)) => {
            let pair = pair_shown(alloc, &left, &right, &settings)?;
            let pair = pair.as_str();
            let files = files_shown(alloc, &files)?;
            let files = files.as_str();
            format!(in alloc; "run{pair} {blocks}{files}")
        }
        Ok(Command::Resume(blocks, files)) => {
            let files = files_shown(alloc, &files)?;
            let files = files.as_str();
            format!(in alloc; "resume {blocks}{files}")
        }
        Ok(Command::Edit(edits)) => {
            let edits = edits.as_str();
            format!(in alloc; "edit [{edits}]")
        }
        Ok(Command::Moves) => String::from_str(alloc, "moves"),
        Ok(Command::State) => String::from_str(alloc, "state"),
        Ok(Command::Branch(meetings)) => format!(in alloc; "branch {meetings}"),
        Ok(Command::Zones(zones)) => {
            let zones = zones.as_str();
            format!(in alloc; "zones [{zones}]")
        }
        Ok(Command::ZonesOf(zones, left, right, settings)) => {
            let pair = pair_shown(alloc, &left, &right, &settings)?;
            let pair = pair.as_str();
            let zones = zones.as_str();
            format!(in alloc; "zones [{zones}]{pair}")
        }
        Ok(Command::Make(number, files)) => {
            let files = files_shown(alloc, &files)?;
            let files = files.as_str();
            format!(in alloc; "make {number}{files}")
        }
        Ok(Command::Expand(tape)) => {
            let tape = tape.as_str();
            format!(in alloc; "expand [{tape}]")
        }
        Ok(Command::Plain(tape, settings)) => {
            let tape = tape.as_str();
            match settings {
                Some(settings) => {
                    let settings = settings.as_str();
                    format!(in alloc; "plain [{tape}] [{settings}]")
                }
                None => format!(in alloc; "plain [{tape}]"),
            }
        }
        Err(WordsFault::Usage) => String::from_str(alloc, "usage"),
        Err(WordsFault::NoMemory) => String::from_str(alloc, "no memory"),
    }
}

/// The names of a pair as the rows write them: a space before each, and nothing for settings that
/// were left out.
fn pair_shown(
    alloc: Global,
    left: &Name,
    right: &Name,
    settings: &Option<Name>,
) -> Result<String, AllocError> {
    let left = left.as_str();
    let right = right.as_str();
    match settings {
        Some(settings) => {
            let settings = settings.as_str();
            format!(in alloc; " [{left}] [{right}] [{settings}]")
        }
        None => format!(in alloc; " [{left}] [{right}]"),
    }
}

/// A range of programs as the rows write it: a space before each end, and nothing if there is none.
fn range_shown(alloc: Global, outside: Option<ProgramRange>) -> Result<String, AllocError> {
    match outside {
        Some(range) => {
            let least = range.least;
            let greatest = range.greatest;
            format!(in alloc; " {least} {greatest}")
        }
        None => Ok(String::new(alloc)),
    }
}

/// The files of turrets as the rows write them: ` 1>` and ` 2>` before the names.
fn files_shown(alloc: Global, files: &TurretFiles) -> Result<String, AllocError> {
    let mut shown = String::new(alloc);
    if let Some(one) = &files.one {
        shown.push_str(" 1>")?;
        shown.push_str(one.as_str())?;
    }
    if let Some(two) = &files.two {
        shown.push_str(" 2>")?;
        shown.push_str(two.as_str())?;
    }
    Ok(shown)
}

/// No words at all give no command.
#[test]
fn no_words_are_no_command(rt: HostRuntime) {
    let words: Vec<String> = Vec::new(rt.alloc());
    let answer = read_words(rt.alloc(), words.as_slice());
    assert!(rt; matches!(answer, Err(WordsFault::Usage)));
}
