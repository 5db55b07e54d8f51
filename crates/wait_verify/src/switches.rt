//! The block-skip switches of a pair: which its tapes name, which the settings leave free, and what
//! is on at a position of the free ones. specs/Switches.antt defines them.
ghost use Rattle.std.specs.Prelude.{◌≡◌, ◌^◌, ◌||◌, ◌==◌, ◌≤◌, bit_and, bit_or};
ghost use Rattle.cell_settings.specs.View.{view};
ghost use Rattle.nc_verify.specs.Verdict.{skips_of};
ghost use Rattle.wait_verify.specs.Asked.{Asked};
ghost use Rattle.wait_verify.specs.Switches.{is_gap, is_switch, spot_behind_head, spot_behind, switch_by, named_behind, named_from, named_switches, free_of, free_switches, is_position, switches_at, cell_at};

use cell_settings::Settings;
use nc_number::Path;

/// The greatest position of nine switches and of bit 0, which is no switch.
pub const LAST_POSITION: u16 = 1_023;

/// Where a byte of a tape stands in its line.
#[derive(Clone, Copy, Debug, PartialEq, Eq)]
pub enum Spot {
    /// At the head, where a skip sign may stand: before it are only blanks, comments and skip signs.
    Head,
    /// After a skip sign, before the digit that may name its switch.
    Slash,
    /// In a comment at the head.
    Note,
    /// In the block, after the head.
    Block,
}

/// Whether a byte says nothing at the head of a line: a blank, a comma, which is read as a blank, a
/// carriage return or a zero byte.
fn is_gap(byte: u8) -> bool
    ensures { result ≡ is_gap byte }
{
    (byte == b' ' || (byte == b'\t' || byte == b',')) || (byte == b'\r' || byte == 0)
}

/// Whether the byte is a digit from 1 to 9, which names a switch.
fn is_switch(byte: u8) -> bool
    ensures { result ≡ is_switch byte }
{
    b'1' <= byte && byte <= b'9'
}

/// Where the byte after this one stands, if this one stands at the head of a line.
fn spot_behind_head(byte: u8) -> Spot
    ensures { result ≡ spot_behind_head byte }
{
    if byte == b'/' {
        Spot::Slash
    } else if byte == b'(' {
        Spot::Note
    } else if is_gap(byte) || byte == b'\n' {
        Spot::Head
    } else {
        Spot::Block
    }
}

/// Where the byte after this one stands.
fn spot_behind(spot: Spot, byte: u8) -> Spot
    ensures { result ≡ spot_behind spot byte }
{
    match spot {
        Spot::Head => spot_behind_head(byte),
        Spot::Slash => {
            if is_gap(byte) {
                Spot::Slash
            } else if is_switch(byte) {
                Spot::Head
            } else {
                spot_behind_head(byte)
            }
        }
        Spot::Note => {
            if byte == b')' || byte == b'\n' {
                Spot::Head
            } else {
                Spot::Note
            }
        }
        Spot::Block => {
            if byte == b'\n' {
                Spot::Head
            } else {
                Spot::Block
            }
        }
    }
}

/// The switch that a byte names after a skip sign: a digit from 1 to 9, else 1.
fn switch_by(byte: u8) -> u8
    ensures value { result ≡ switch_by byte }
    ensures range { result ≤ 9 }
{
    if is_switch(byte) { byte - b'0' } else { 1 }
}

/// The switches with one more: bit n is switch n.
pub(crate) fn with_switch(switches: u16, switch: u8) -> u16
    requires { switch ≤ 9 }
    ensures { result ≡ bit_or switches (2 ^ switch) }
{
    switches | 1 << switch
}

/// The switches named so far, with that of a skip sign that ends before this byte.
fn named_behind(spot: Spot, byte: u8, named: u16) -> u16
    ensures { result ≡ named_behind spot byte named }
{
    match spot {
        Spot::Slash => {
            if is_gap(byte) {
                named
            } else {
                with_switch(named, switch_by(byte))
            }
        }
        Spot::Head => named,
        Spot::Note => named,
        Spot::Block => named,
    }
}

/// The switches that the blocks of a tape name by a skip sign at their head: bit n is switch n.
fn named_switches(text: &[u8]) -> u16
    ensures { result ≡ named_switches text.now }
{
    let mut spot = Spot::Head;
    let mut named = 0u16;
    for byte in text {
        named = named_behind(spot, *byte, named);
        spot = spot_behind(spot, *byte);
    }
    named_behind(spot, b'\n', named)
}

/// The named switches that no line of the settings fixes.
fn free_of(on: u16, off: u16, named: u16) -> u16
    ensures { result ≡ free_of on off named }
{
    named & (u16::MAX - (on | off))
}

/// The switches that a tape of the pair names and whose path has them free: bit n is switch n.
pub(crate) fn free_switches(settings: &Settings, left: &[u8], right: &[u8]) -> u16
    ensures { (asked : Asked) → asked.texts.left ≡ left.now → asked.texts.right ≡ right.now
        → result ≡ free_switches asked (view settings.now) }
{
    let one = free_of(settings.skips[0], settings.unskips[0], named_switches(left));
    let two = free_of(
        settings.skips[1],
        settings.unskips[1],
        named_switches(right),
    );
    one | two
}

/// Whether only free switches are on at a position.
pub(crate) fn is_position(free: u16, position: u16) -> bool
    ensures { result ≡ is_position free position }
{
    (position | free) == free
}

/// The switches that are on at a position: those that are fixed as on, and those of the position
/// that are not fixed as off.
fn switches_at(position: u16, on: u16, off: u16) -> u16
    ensures { result ≡ switches_at position on off }
{
    on | position & (u16::MAX - off)
}

/// The block-skip switches of a path that are on at a position.
pub(crate) fn skips_at(settings: &Settings, path: Path, position: u16) -> u16
    ensures { result ≡ skips_of path (cell_at position (view settings.now)) }
{
    match path {
        Path::One => switches_at(position, settings.skips[0], settings.unskips[0]),
        Path::Two => switches_at(position, settings.skips[1], settings.unskips[1]),
    }
}
