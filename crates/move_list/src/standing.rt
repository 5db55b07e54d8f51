//! The lines that each path always has in the text of a state: where it stands, where its turret
//! stands, what is in force, and how many calls are open. They are defined in specs/State.antt.
//! For this crate alone: state.rt uses it.
ghost use Rattle.std.specs.Prelude.{◌≡◌, ◌+◌, ◌-◌, ◌≤◌, ◌++◌, length};
ghost use Rattle.text_pieces.specs.declared.piece.TheConstants.{MOST_BYTES};
ghost use Rattle.two_path.specs.Turns.{blocks_of};
ghost use Rattle.move_list.specs.State.{depth_text, group_text, groups_text, in_force_text, modal_text, place_text, position_text, standing_of, var_text, words_text};

use crate::condition::{Condition, add_condition, condition_of};
use code_tables::{
    ABSOLUTE_GROUP, FEED_GROUP, MOTION_GROUP, NOSE_GROUP, SPINDLE_GROUP, UNIT_GROUP, WORK_GROUP,
};
use modal_state::Modal;
use nc_number::{Path, Point, Var};
use tape_flow::Flow;
use text_pieces::Piece;
use two_path::Machine;

/// Adds a variable: vacant, or its value.
#[tactic(auto, unfolding(crate::specs::State::var_text))]
fn add_var(piece: &mut Piece, var: &Var)
    requires { length piece.old + 24 ≤ MOST_BYTES }
    ensures text { piece.new ≡ piece.old ++ var_text var.now }
    ensures size { length piece.new ≤ length piece.old + 24 }
{
    match var {
        Var::Vacant => piece.add(b"vacant"),
        Var::Is(value) => piece.add_value(*value),
    }
}

/// Adds the line of where a path stands, and how.
#[tactic(auto, unfolding(crate::specs::State::place_text))]
fn add_place(piece: &mut Piece, path: Path, line: u32, condition: Condition)
    requires { length piece.old + 90 ≤ MOST_BYTES }
    ensures text { piece.new ≡ piece.old ++ place_text path line condition }
    ensures size { length piece.new ≤ length piece.old + 90 }
{
    piece.add_path(path);
    piece.add(b" line ");
    piece.add_number(u64::from(line));
    piece.add(b" ");
    add_condition(piece, condition);
    piece.add(b"\n");
}

/// Adds the line of where the turret stands, in machine coordinates.
#[tactic(auto, unfolding(crate::specs::State::position_text))]
fn add_position(piece: &mut Piece, at: Point)
    requires { length piece.old + 55 ≤ MOST_BYTES }
    ensures text { piece.new ≡ piece.old ++ position_text at }
    ensures size { length piece.new ≤ length piece.old + 55 }
{
    piece.add(b"at");
    piece.add_point(at);
    piece.add(b"\n");
}

/// Adds a code in force; nothing for a group that the system lacks.
#[tactic(auto, unfolding(crate::specs::State::in_force_text))]
fn add_in_force(piece: &mut Piece, code: Option<u16>)
    requires { length piece.old + 23 ≤ MOST_BYTES }
    ensures text { piece.new ≡ piece.old ++ in_force_text code }
    ensures size { length piece.new ≤ length piece.old + 23 }
{
    match code {
        Some(code) => {
            piece.add(b" G");
            piece.add_code(code);
        }
        None => {}
    }
}

/// Adds the code in force of a modal group.
fn add_group(piece: &mut Piece, modal: &Modal, group: u8)
    requires { length piece.old + 23 ≤ MOST_BYTES }
    ensures text { piece.new ≡ piece.old ++ group_text modal.now group }
    ensures size { length piece.new ≤ length piece.old + 23 }
{
    add_in_force(piece, modal.code(group));
}

/// Adds the codes in force of all modal groups.
#[tactic(auto, unfolding(crate::specs::State::groups_text))]
fn add_groups(piece: &mut Piece, modal: &Modal)
    requires { length piece.old + 161 ≤ MOST_BYTES }
    ensures text { piece.new ≡ piece.old ++ groups_text modal.now }
    ensures size { length piece.new ≤ length piece.old + 161 }
{
    add_group(piece, modal, MOTION_GROUP);
    add_group(piece, modal, SPINDLE_GROUP);
    add_group(piece, modal, ABSOLUTE_GROUP);
    add_group(piece, modal, FEED_GROUP);
    add_group(piece, modal, UNIT_GROUP);
    add_group(piece, modal, NOSE_GROUP);
    add_group(piece, modal, WORK_GROUP);
}

/// Adds the line of the codes in force.
#[tactic(auto, unfolding(crate::specs::State::modal_text))]
fn add_modal(piece: &mut Piece, modal: &Modal)
    requires { length piece.old + 167 ≤ MOST_BYTES }
    ensures text { piece.new ≡ piece.old ++ modal_text modal.now }
    ensures size { length piece.new ≤ length piece.old + 167 }
{
    piece.add(b"modal");
    add_groups(piece, modal);
    piece.add(b"\n");
}

/// Adds the line of what F, S and T set last.
#[tactic(auto, unfolding(crate::specs::State::words_text))]
fn add_words(piece: &mut Piece, modal: &Modal)
    requires { length piece.old + 72 ≤ MOST_BYTES }
    ensures text { piece.new ≡ piece.old ++ words_text modal.now }
    ensures size { length piece.new ≤ length piece.old + 72 }
{
    piece.add(b"feed ");
    add_var(piece, &modal.feed());
    piece.add(b" speed ");
    add_var(piece, &modal.speed());
    piece.add(b" tool T");
    piece.add_four_digits(modal.tool());
    piece.add(b"\n");
}

/// Adds the line of how many calls are open.
#[tactic(auto, unfolding(crate::specs::State::depth_text))]
fn add_depth(piece: &mut Piece, depth: u8)
    requires { length piece.old + 27 ≤ MOST_BYTES }
    ensures text { piece.new ≡ piece.old ++ depth_text depth }
    ensures size { length piece.new ≤ length piece.old + 27 }
{
    piece.add(b"depth ");
    piece.add_number(u64::from(depth));
    piece.add(b"\n");
}

/// The lines that a path of the machine always has.
#[tactic(auto, unfolding(crate::specs::State::standing_text))]
pub(crate) fn standing_lines(flow: &Flow, machine: &Machine, path: Path) -> Piece
    ensures { result ≡ standing_of (blocks_of flow.now) path machine.now.machine }
{
    let state = machine.path(path);
    let mut piece = Piece::empty();
    add_place(
        &mut piece,
        path,
        state.line(flow),
        condition_of(machine, path),
    );
    add_position(&mut piece, state.position());
    add_modal(&mut piece, state.modal());
    add_words(&mut piece, state.modal());
    add_depth(&mut piece, state.depth());
    piece
}
