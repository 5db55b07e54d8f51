//! Tests of what block_values gives the one who runs a block, without a path: what a block leaves
//! in force (`modal_of_rows`), its motion (`motion_of`), and all its moves in their order
//! (`all_moves`).
use crate::lone_path::{put_var, units};
use crate::move_text::put_move;
use block_values::{MotionWords, all_moves, modal_of_rows, motion_of};
use code_tables::{CodeKind, Row, System, system_a, system_b};
use modal_state::Modal;
use nc_moves::{Move, MoveList};
use nc_number::{Point, Var};
use offset_store::Offsets;
use std::alloc::{AllocError, Global};
use std::test::Fail;

/// Moves as text, each with a `~` behind it.
fn moves_text(alloc: Global, moves: &MoveList) -> Result<String, AllocError> {
    let mut out = String::new(alloc);
    for what in moves.as_slice() {
        put_move(&mut out, what)?;
        out.push('~')?;
    }
    Ok(out)
}

/// All moves of a block with S1200, this tool and this code of M, whose motion is a rest of half a
/// second.
fn rest_text(alloc: Global, tool: u16, code: u32) -> Result<String, AllocError> {
    let mut motion = MoveList::empty();
    motion.push(Move::Dwell { ms: 500 });
    let speed = units(1_200);
    let moves = all_moves(
        false,
        &Modal::for_system(System::A),
        speed,
        Some(tool),
        &motion,
        Some(code),
    );
    moves_text(alloc, &moves)
}

/// All moves of a block with G50 S1200 and this code of M, without a tool and a motion.
fn limit_text(alloc: Global, code: u32) -> Result<String, AllocError> {
    let motion = MoveList::empty();
    let speed = units(1_200);
    let moves = all_moves(
        true,
        &Modal::for_system(System::A),
        speed,
        None,
        &motion,
        Some(code),
    );
    moves_text(alloc, &moves)
}

#[test]
fn a_block_gets_its_speed_its_tool_its_motion_and_its_code(rt: HostRuntime) -> Result<(), Fail> {
    let got = rest_text(rt.alloc(), 101, 3)?;
    assert_eq!(&rt;
        got.as_str(),
        "speed G97 S1200~tool T0101~dwell 500~aux M03~"
    );
    let got = limit_text(rt.alloc(), 30)?;
    assert_eq!(&rt; got.as_str(), "limit S1200~");
    Ok(())
}

/// The speed, the highest speed and the number of the tool's offset that are in force.
fn modal_text(alloc: Global, modal: &Modal) -> Result<String, AllocError> {
    let mut out = String::new(alloc);
    put_var(&mut out, &modal.speed())?;
    out.push(' ')?;
    put_var(&mut out, &modal.limit())?;
    let offset = modal.offset();
    write!(&mut out, " offset {offset}")?;
    Ok(out)
}

/// What a block of these codes of system A with a speed and a tool leaves in force, or its alarm.
fn text_after(alloc: Global, codes: &[Row], speed: Var, tool: u16) -> Result<String, AllocError> {
    match modal_of_rows(
        &Modal::for_system(System::A),
        codes,
        Var::Vacant,
        speed,
        Some(tool),
    ) {
        Ok(after) => modal_text(alloc, &after),
        Err(number) => format!(in alloc; "alarm {number}"),
    }
}

/// What G50 of system A with a speed and a tool leaves in force.
fn text_after_g50(alloc: Global, speed: Var, tool: u16) -> Result<String, AllocError> {
    match system_a().find(50) {
        Some(row) => text_after(alloc, &[row], speed, tool),
        None => String::from_str(alloc, "no G50"),
    }
}

#[test]
fn a_speed_beside_g50_is_the_highest_and_an_offset_that_does_not_exist_is_refused(
    rt: HostRuntime,
) -> Result<(), Fail> {
    let got = text_after_g50(rt.alloc(), units(2_000), 101)?;
    assert_eq!(&rt; got.as_str(), "vacant 2000 offset 1");
    let got = text_after(rt.alloc(), &[], Var::Vacant, 165)?;
    assert_eq!(&rt; got.as_str(), "alarm 40");
    Ok(())
}

/// What is in force behind G91 of system B.
fn incremental() -> Modal {
    let mut modal = Modal::for_system(System::B);
    if let Some(row) = system_b().find(91) {
        modal.take(&[row]);
    }
    modal
}

/// The moves of the words X40. W-5. by a code of this kind from X50. Z2., without an offset and
/// without a feed, or their alarm. `has_l`: the block has an L.
fn motion_text(
    alloc: Global,
    modal: &Modal,
    kind: CodeKind,
    has_l: bool,
) -> Result<String, AllocError> {
    let words = MotionWords {
        x: Some(40_000),
        z: None,
        u: None,
        w: Some(-5_000),
        i: None,
        k: None,
        r: None,
        number: None,
        rest: 0,
    };
    let at = Point {
        x: 50_000,
        z: 2_000,
    };
    let home = Point {
        x: 300_000,
        z: 200_000,
    };
    let offsets = Offsets::new();
    match motion_of(at, home, modal, &offsets, kind, has_l, &words) {
        Ok(motion) => moves_text(alloc, &motion.moves),
        Err(number) => format!(in alloc; "alarm {number}"),
    }
}

#[test]
fn a_rapid_leads_to_its_target_and_a_cut_wants_a_feed(rt: HostRuntime) -> Result<(), Fail> {
    let modal = Modal::for_system(System::A);
    let rapid = motion_text(rt.alloc(), &modal, CodeKind::Rapid, false)?;
    assert_eq!(&rt; rapid.as_str(), "rapid X40.000 Z-3.000~");
    let cut = motion_text(rt.alloc(), &modal, CodeKind::Feed, false)?;
    assert_eq!(&rt; cut.as_str(), "alarm 44");
    let set = motion_text(rt.alloc(), &modal, CodeKind::Setting, true)?;
    assert_eq!(&rt; set.as_str(), "alarm 40");
    Ok(())
}

#[test]
fn under_g91_x_is_incremental_and_g53_is_refused(rt: HostRuntime) -> Result<(), Fail> {
    let modal = incremental();
    let rapid = motion_text(rt.alloc(), &modal, CodeKind::Rapid, false)?;
    assert_eq!(&rt; rapid.as_str(), "rapid X90.000 Z-3.000~");
    let machine = motion_text(rt.alloc(), &modal, CodeKind::Machine, false)?;
    assert_eq!(&rt; machine.as_str(), "alarm 56");
    let set = motion_text(rt.alloc(), &modal, CodeKind::Setting, true)?;
    assert_eq!(&rt; set.as_str(), "alarm 40");
    Ok(())
}
