//! Tests of lists of moves (nc_moves): their order, and their room.
use crate::move_text::are_moves;
use nc_moves::{MOVES_PER_BLOCK, Move, MoveList, Moves};

#[test]
fn moves_keep_their_order(rt: HostRuntime) {
    let mut list = MoveList::empty();
    assert!(rt; list.as_slice().is_empty());
    list.push(Move::Tool { t: 101 });
    list.append(&[]);
    list.append(&[Move::Aux { m: 3 }, Move::Limit { s: 1800 }]);
    assert!(rt; are_moves(list.as_slice(), "tool T101, aux M3, limit S1800"));
}

#[test]
fn a_block_has_room_for_eight_moves(rt: HostRuntime) {
    let mut list = MoveList::empty();
    for m in 0..8u16 {
        assert!(rt; list.as_slice().len() < MOVES_PER_BLOCK);
        list.push(Move::Aux { m });
    }
    assert!(rt; list.as_slice().len() == MOVES_PER_BLOCK);
    list.append(&[]);
    let moves = Moves { line: 4, list };
    let all = "aux M0, aux M1, aux M2, aux M3, aux M4, aux M5, aux M6, aux M7";
    assert!(rt; are_moves(moves.list.as_slice(), all));
}
