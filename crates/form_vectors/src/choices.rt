//! Tests of the lines that say what the machine decides of the forms.
use form_lines::{cell_text, read_choices};
use plain_form::{FormSettings, Roots};
use std::test::Fail;

/// Each line has its effect; a later one of its name takes the place of an earlier one.
#[test]
fn each_line_says_its_choice(rt: HostRuntime) -> Result<(), Fail> {
    let text =
        b"thread roots up\nthread passes 2\nthread pullout 10\n thread  angle 55 \nthread least 50\nthread left 30\ngroove retreat 250\npeck retreat 1000\npeck clearance 300\ntap codes 304 303\nidle C\nidle B\nthread passes 3\nrough depth 2000\nrough retreat 300\n";
    let settings = read_choices(rt.alloc(), text)?;
    assert!(rt; settings.thread_roots == Roots::Up);
    assert!(rt;
        settings.thread_finishing == 3
            && settings.thread_pull_out == 10
            && settings.thread_angle == 55
    );
    assert!(rt; settings.thread_least == 50 && settings.thread_left == 30);
    assert!(rt;
        settings.groove_retreat == 250
            && settings.peck_retreat == Some(1_000)
            && settings.peck_clearance == 300
    );
    assert!(rt; settings.rough_depth == Some(2_000) && settings.rough_retreat == 300);
    assert!(rt; settings.idle.as_slice() == b"CB".as_slice());
    Ok(())
}

/// A line of another name, or with a value that is none, stays with the lines of the cell.
#[test]
fn other_lines_stay(rt: HostRuntime) -> Result<(), Fail> {
    for row in [
        "wait 100 197\nthread roots up\ncodes B|wait 100 197\n\ncodes B",
        "thread roots left|thread roots left",
        "thread passes 0|thread passes 0",
        "tap none\n|",
        "idle c\n|idle c",
        "(thread roots up)|(thread roots up)",
        "|",
    ] {
        let (text, wanted) = row.split_once("|").unwrap_or((row, ""));
        let cell = cell_text(rt.alloc(), text.as_bytes())?;
        assert!(rt; cell.as_slice() == wanted.as_bytes());
    }
    Ok(())
}

/// Without such a line the machine's choices are the usual ones.
#[test]
fn no_line_says_nothing(rt: HostRuntime) -> Result<(), Fail> {
    let alloc = rt.alloc();
    let settings = read_choices(alloc, b"wait 100 197\n")?;
    let usual = FormSettings::standard(alloc);
    assert!(rt;
        settings.thread_finishing == usual.thread_finishing
            && settings.groove_retreat == usual.groove_retreat
    );
    assert!(rt; settings.idle.as_slice().is_empty());
    Ok(())
}
