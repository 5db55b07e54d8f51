//! The header of a run, and its bytes: it is spelled and read here.

ghost use Rattle.std.specs.Prelude.{◌≡◌, ◌+◌, ◌*◌, ◌^◌, ◌≤◌, ◌<◌, ◌++◌, [], ◌∷◌, ℕ, List, length, take, drop, IfOk, IfErr, IfSome, IfNone, OnOk};
ghost use Rattle.run_records.specs.declared.header.Header.{Header};
ghost use Rattle.run_records.specs.declared.version.Version.{Version};
ghost use Rattle.run_records.specs.declared.header.HeaderFault.TheVariants.{NoMemory as Memory};
ghost use Rattle.run_records.specs.Headers.{text_bytes, header_mark, header_bytes, IsShort};

use crate::Version;
use byteorder::{BigEndian, ByteOrder};
use nc_number::{ByteList, NoMemory};
use std::alloc::{AllocError, Global};
use thiserror::Error;

/// The least number of bytes that no header has.
const TOO_LONG: usize = 1 << 32;

/// What a run is made with: the texts of the settings and of the two tapes, and the version of the
/// journal that begins with them.
#[derive(Debug, Drop)]
pub struct Header {
    /// How the journal may go on.
    pub version: Version,
    /// The text of the settings.
    pub settings: ByteList,
    /// The tape of path 1.
    pub left: ByteList,
    /// The tape of path 2.
    pub right: ByteList,
}

/// Why bytes are no header.
#[derive(Clone, Copy, Debug, PartialEq, Eq, Error)]
pub enum HeaderFault {
    /// The bytes spell no header: `BadRecord::NoHeader`.
    #[error("bad header")]
    Bad,
    /// There is no memory left.
    #[error("out of memory")]
    NoMemory,
}

impl From<AllocError> for HeaderFault {
    ghost from_gives = { λ _ fault. fault ≡ Memory };

    /// Memory that runs out while a header is read is `NoMemory`.
    fn from(_e: AllocError) -> HeaderFault {
        HeaderFault::NoMemory
    }
}

/// The bytes of a header. The error is that memory ran out.
pub fn put_header(alloc: Global, header: &Header) -> Result<Vec<u8>, NoMemory>
    requires { IsShort header.now }
    ensures { IfOk result (λ bytes. bytes.items ≡ header_bytes header.now) }
{
    let mut bytes = Vec::from_slice(alloc, &header.version.mark())?;
    put_text(&mut bytes, header.settings.as_slice())?;
    put_text(&mut bytes, header.left.as_slice())?;
    put_text(&mut bytes, header.right.as_slice())?;
    Ok(bytes)
}

/// Adds the length of a text in four bytes, and the text. The error is that memory ran out.
fn put_text(into: &mut Vec<u8>, text: &[u8]) -> Result<(), NoMemory>
    requires { length text.now < 2 ^ 32 }
    ensures { OnOk result (into.new.items ≡ into.old.items ++ text_bytes text.now) }
{
    let mut size = [0; 4];
    BigEndian::write_u32(&mut size, text.len() as u32);
    into.extend_from_slice(&size)?;
    into.extend_from_slice(text)?;
    Ok(())
}

/// Reads the header that these bytes spell, all of them. The error is `Bad` only if they spell
/// none; else it is that memory ran out.
pub fn take_header(alloc: Global, bytes: &[u8]) -> Result<Header, HeaderFault>
    ensures header { IfOk result (λ header. bytes.now ≡ header_bytes header) }
    ensures short { IfOk result IsShort }
    ensures bad { IfErr result (λ fault. fault ≡ HeaderFault.Bad → (header : Header) → IsShort header
        → bytes.now ≡ header_bytes header → ⊥) }
{
    if bytes.len() >= TOO_LONG {
        return Err(HeaderFault::Bad);
    }
    let Some((version, settings, left, right)) = parts_of(bytes) else {
        return Err(HeaderFault::Bad);
    };
    Ok(Header {
        version,
        settings: ByteList::of(settings.to_vec(alloc)?),
        left: ByteList::of(left.to_vec(alloc)?),
        right: ByteList::of(right.to_vec(alloc)?),
    })
}

/// The version and the three texts of the header that the bytes spell, if they spell one.
fn parts_of(bytes: &[u8]) -> Option<(Version, &[u8], &[u8], &[u8])>
    ensures some { IfSome result (λ parts. bytes.now ≡ header_mark parts.0
        ++ text_bytes parts.1.now ++ text_bytes parts.2.now ++ text_bytes parts.3.now) }
    ensures none { IfNone result ((header : Header) → IsShort header → bytes.now ≡ header_bytes header → ⊥) }
{
    let Some((version, rest)) = behind_mark(bytes) else {
        return None;
    };
    let Some((settings, rest)) = text_at(rest) else {
        return None;
    };
    let Some((left, rest)) = text_at(rest) else {
        return None;
    };
    let Some((right, rest)) = text_at(rest) else {
        return None;
    };
    if !rest.is_empty() {
        return None;
    }
    Some((version, settings, left, right))
}

/// The version by the mark at the front, and what follows the mark; none if there is no mark.
fn behind_mark(bytes: &[u8]) -> Option<(Version, &[u8])>
    ensures some { IfSome result (λ found. bytes.now ≡ header_mark found.0 ++ found.1.now) }
    ensures none { IfNone result ((version : Version) (rest : List ℕ) → bytes.now ≡ header_mark version ++ rest → ⊥) }
{
    match bytes {
        [b'T', b'W', b'I', b'N', 0, 1, rest @ ..] => Some((Version::One, rest)),
        [b'T', b'W', b'I', b'N', 0, 2, rest @ ..] => Some((Version::Two, rest)),
        _ => None,
    }
}

/// The text at the front, which follows its length, and what comes after it; none if the bytes are
/// too few.
fn text_at(bytes: &[u8]) -> Option<(&[u8], &[u8])>
    ensures some { IfSome result (λ found. (bytes.now ≡ text_bytes found.0.now ++ found.1.now)
        × (length found.0.now < 2 ^ 32)) }
    ensures none { IfNone result ((text rest : List ℕ) → length text < 2 ^ 32
        → bytes.now ≡ text_bytes text ++ rest → ⊥) }
{
    if bytes.len() < 4 {
        return None;
    }
    let (size, rest) = bytes.split_at(4);
    let size = BigEndian::read_u32(size) as usize;
    if rest.len() < size {
        return None;
    }
    Some(rest.split_at(size))
}
