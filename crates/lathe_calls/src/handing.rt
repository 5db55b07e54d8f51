//! How a caller gets what is due: the front of it in the caller's room, and the length of the
//! whole.
ghost use Rattle.std.specs.Prelude.{◌≡◌, length};
ghost use Rattle.lathe_calls.specs.Said.{IsHanded, room_with, answer_with};

use crate::ending::Status;
use crate::event::Event;
use crate::said::Said;

/// Copies the front of a text into the room, as far as it holds, and tells how long the whole text
/// is.
pub fn hand_out(text: &[u8], room: &mut [u8]) -> usize
    ensures room { room.new ≡ room_with text.now room.old }
    ensures len { result ≡ length text.now }
{
    let count = text.len().min(room.len());
    room[..count].copy_from_slice(&text[..count]);
    text.len()
}

/// Copies the front of a list of events into the room, as far as it holds, and tells how long the
/// whole list is.
fn hand_out_events(list: &[Event], room: &mut [Event]) -> usize
    ensures room { room.new ≡ room_with list.now room.old }
    ensures len { result ≡ length list.now }
{
    let count = list.len().min(room.len());
    room[..count].copy_from_slice(&list[..count]);
    list.len()
}

/// Hands out a text that was told with this status. If memory ran out, nothing is handed out.
pub fn hand_text(status: u8, text: &[u8], room: &mut [u8]) -> Said
    ensures { IsHanded status text.now room.old room.new result }
{
    if status == Status::NoMemory as u8 {
        return Said::nothing(Status::NoMemory as u8);
    }
    Said {
        status,
        len: hand_out(text, room),
    }
}

/// Hands out events, which go with this status.
pub(crate) fn hand_events(status: u8, list: &[Event], room: &mut [Event]) -> Said
    ensures said { result ≡ answer_with status (length list.now) }
    ensures room { room.new ≡ room_with list.now room.old }
{
    Said {
        status,
        len: hand_out_events(list, room),
    }
}
