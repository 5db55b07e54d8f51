//! What the fields of a line say of the forms, by its first word: a function for each name, as
//! specs/Naming.antt defines them.
ghost use Rattle.std.specs.Prelude.{◌≡◌, IfOk};
ghost use Rattle.field_lines.specs.Field.{texts};
ghost use Rattle.field_lines.specs.Line.{line_says};
ghost use Rattle.form_lines.specs.Naming.{length_in, depth_of, way_back, rough_of, roots_of, passes_of, pull_out_of, angle_of, least_of, left_of, thread_of, clearance_of, length_back, retreat_of, peck_of, groove_of, three_say, two_say, turns_of, literal_length, length_at, reference_at, reference_said, four_say, letter_of, radius_at_most, radius_in, nose_said, five_say, choice_of};

use crate::choice::Choice;
use field_lines::{line_fields, number_in};
use nc_number::{Point, is_literal, parse_word};
use plain_form::{Nose, Roots, TapTurns};
use std::alloc::{AllocError, Global};

/// The largest radius of a nose: 1 m, in 0.001 mm.
pub(crate) const LARGEST_NOSE: i64 = 1_000_000;

/// The last number of a tool's offset.
pub(crate) const LAST_OFFSET: u32 = 64;

/// A length in 0.001 mm, without a sign.
#[tactic(auto, unfolding(crate::specs::Naming::length_in))]
fn length_in(text: &[u8]) -> Option<u64>
    ensures { result ≡ length_in text.now }
{
    let n = number_in(0, 99_999_999, text)?;
    Some(u64::from(n))
}

/// What the value of `rough depth` says.
#[tactic(auto, unfolding(crate::specs::Naming::depth_of))]
fn depth(value: &[u8]) -> Option<Choice>
    ensures { result ≡ depth_of value.now }
{
    let n = length_in(value)?;
    Some(Choice::RoughDepth(n))
}

/// What the value of `rough retreat` says.
#[tactic(auto, unfolding(crate::specs::Naming::way_back))]
fn way_back(value: &[u8]) -> Option<Choice>
    ensures { result ≡ way_back value.now }
{
    let n = length_in(value)?;
    Some(Choice::RoughRetreat(n))
}

/// What a name and a value say of roughing.
#[tactic(auto, unfolding(crate::specs::Naming::rough_of))]
fn rough(name: &[u8], value: &[u8]) -> Option<Choice>
    ensures { result ≡ rough_of name.now value.now }
{
    if name == b"depth".as_slice() {
        depth(value)
    } else if name == b"retreat".as_slice() {
        way_back(value)
    } else {
        None
    }
}

/// What the value of `thread roots` says.
fn roots(value: &[u8]) -> Option<Choice>
    ensures { result ≡ roots_of value.now }
{
    if value == b"down".as_slice() {
        Some(Choice::ThreadRoots(Roots::Down))
    } else if value == b"up".as_slice() {
        Some(Choice::ThreadRoots(Roots::Up))
    } else {
        None
    }
}

/// What the value of `thread passes` says: 1 to 99.
#[tactic(auto, unfolding(crate::specs::Naming::passes_of))]
fn passes(value: &[u8]) -> Option<Choice>
    ensures { result ≡ passes_of value.now }
{
    let n = number_in(1, 99, value)?;
    Some(Choice::ThreadPasses(n as u8))
}

/// What the value of `thread pullout` says: 0 to 99.
#[tactic(auto, unfolding(crate::specs::Naming::pull_out_of))]
fn pull_out(value: &[u8]) -> Option<Choice>
    ensures { result ≡ pull_out_of value.now }
{
    let n = number_in(0, 99, value)?;
    Some(Choice::ThreadPullOut(n as u8))
}

/// What the value of `thread angle` says: 0 to 80.
#[tactic(auto, unfolding(crate::specs::Naming::angle_of))]
fn angle(value: &[u8]) -> Option<Choice>
    ensures { result ≡ angle_of value.now }
{
    let n = number_in(0, 80, value)?;
    Some(Choice::ThreadAngle(n as u8))
}

/// What the value of `thread least` says.
#[tactic(auto, unfolding(crate::specs::Naming::least_of))]
fn least(value: &[u8]) -> Option<Choice>
    ensures { result ≡ least_of value.now }
{
    let n = length_in(value)?;
    Some(Choice::ThreadLeast(n))
}

/// What the value of `thread left` says.
#[tactic(auto, unfolding(crate::specs::Naming::left_of))]
fn left(value: &[u8]) -> Option<Choice>
    ensures { result ≡ left_of value.now }
{
    let n = length_in(value)?;
    Some(Choice::ThreadLeft(n))
}

/// What a name and a value say of threads.
#[tactic(auto, unfolding(crate::specs::Naming::thread_of))]
fn thread(name: &[u8], value: &[u8]) -> Option<Choice>
    ensures { result ≡ thread_of name.now value.now }
{
    if name == b"roots".as_slice() {
        roots(value)
    } else if name == b"passes".as_slice() {
        passes(value)
    } else if name == b"pullout".as_slice() {
        pull_out(value)
    } else if name == b"angle".as_slice() {
        angle(value)
    } else if name == b"least".as_slice() {
        least(value)
    } else if name == b"left".as_slice() {
        left(value)
    } else {
        None
    }
}

/// What the value of `peck clearance` says.
#[tactic(auto, unfolding(crate::specs::Naming::clearance_of))]
fn clearance(value: &[u8]) -> Option<Choice>
    ensures { result ≡ clearance_of value.now }
{
    let n = length_in(value)?;
    Some(Choice::PeckClearance(n))
}

/// What a length of `peck retreat` says.
#[tactic(auto, unfolding(crate::specs::Naming::length_back))]
fn length_back(value: &[u8]) -> Option<Choice>
    ensures { result ≡ length_back value.now }
{
    let n = length_in(value)?;
    Some(Choice::PeckRetreat(Some(n)))
}

/// What the value of `peck retreat` says: a length, or back to the level.
#[tactic(auto, unfolding(crate::specs::Naming::retreat_of))]
fn retreat(value: &[u8]) -> Option<Choice>
    ensures { result ≡ retreat_of value.now }
{
    if value == b"level".as_slice() {
        Some(Choice::PeckRetreat(None))
    } else {
        length_back(value)
    }
}

/// What a name and a value say of pecks.
#[tactic(auto, unfolding(crate::specs::Naming::peck_of))]
fn peck(name: &[u8], value: &[u8]) -> Option<Choice>
    ensures { result ≡ peck_of name.now value.now }
{
    if name == b"clearance".as_slice() {
        clearance(value)
    } else if name == b"retreat".as_slice() {
        retreat(value)
    } else {
        None
    }
}

/// What the value of `groove retreat` says.
#[tactic(auto, unfolding(crate::specs::Naming::groove_of))]
fn groove(value: &[u8]) -> Option<Choice>
    ensures { result ≡ groove_of value.now }
{
    let n = length_in(value)?;
    Some(Choice::GrooveRetreat(n))
}

/// What three fields say.
#[tactic(auto, unfolding(crate::specs::Naming::three_say))]
fn three(form: &[u8], name: &[u8], value: &[u8]) -> Option<Choice>
    ensures { result ≡ three_say form.now name.now value.now }
{
    if form == b"thread".as_slice() {
        thread(name, value)
    } else if form == b"peck".as_slice() {
        peck(name, value)
    } else if form == b"rough".as_slice() {
        rough(name, value)
    } else if form == b"groove".as_slice() && name == b"retreat".as_slice() {
        groove(value)
    } else {
        None
    }
}

/// What the value of `idle` says: a letter.
fn letter(value: &[u8]) -> Option<Choice>
    ensures { result ≡ letter_of value.now }
{
    match value {
        [letter] => {
            if letter.is_ascii_uppercase() {
                Some(Choice::Idle(*letter))
            } else {
                None
            }
        }
        _ => None,
    }
}

/// What two fields say.
#[tactic(auto, unfolding(crate::specs::Naming::two_say))]
fn two(name: &[u8], value: &[u8]) -> Option<Choice>
    ensures { result ≡ two_say name.now value.now }
{
    if name == b"idle".as_slice() {
        letter(value)
    } else if name == b"tap".as_slice() && value == b"none".as_slice() {
        Some(Choice::TapCodes(None))
    } else {
        None
    }
}

/// The length in 0.001 mm that a literal writes.
fn literal_length(text: &[u8]) -> Option<i64>
    ensures { result ≡ literal_length text.now }
{
    if !is_literal(text) {
        return None;
    }
    match parse_word(text) {
        Ok(literal) => Some(literal.increments()),
        Err(_) => None,
    }
}

/// The length of a field that is this letter and a literal.
fn length_at(letter: u8, field: &[u8]) -> Option<i64>
    ensures { result ≡ length_at letter field.now }
{
    match field {
        [] => None,
        [first, text @ ..] => {
            if *first == letter {
                literal_length(text)
            } else {
                None
            }
        }
    }
}

/// A second reference position, if a machine can have it.
fn position(at: Point) -> Option<Choice>
    ensures { result ≡ reference_at at }
{
    if at.is_position() {
        Some(Choice::SecondHome(at))
    } else {
        None
    }
}

/// What the values of `second reference` say: X and Z in machine coordinates.
#[tactic(auto, unfolding(crate::specs::Naming::reference_said))]
fn reference(across: &[u8], along: &[u8]) -> Option<Choice>
    ensures { result ≡ reference_said across.now along.now }
{
    let x = length_at(b'X', across)?;
    let z = length_at(b'Z', along)?;
    position(Point { x, z })
}

/// What the values of `tap codes` say: the code that turns the spindle about, and the one back.
#[tactic(auto, unfolding(crate::specs::Naming::turns_of))]
fn turns(about: &[u8], back: &[u8]) -> Option<Choice>
    ensures { result ≡ turns_of about.now back.now }
{
    let reverse = number_in(0, 99_999_999, about)?;
    let forward = number_in(0, 99_999_999, back)?;
    Some(Choice::TapCodes(Some(TapTurns { reverse, forward })))
}

/// What four fields say.
#[tactic(auto, unfolding(crate::specs::Naming::four_say))]
fn four(form: &[u8], name: &[u8], about: &[u8], back: &[u8]) -> Option<Choice>
    ensures { result ≡ four_say form.now name.now about.now back.now }
{
    if form == b"tap".as_slice() && name == b"codes".as_slice() {
        turns(about, back)
    } else if form == b"second".as_slice() && name == b"reference".as_slice() {
        reference(about, back)
    } else {
        None
    }
}

/// The radius of a nose in 0.001 mm, if it is none below 0 and at most 1 m.
fn radius_at_most(radius: i64) -> Option<u64>
    ensures { result ≡ radius_at_most radius }
{
    if 0 <= radius && radius <= LARGEST_NOSE {
        Some(radius.unsigned_abs())
    } else {
        None
    }
}

/// The radius of a nose of a field that is R and a literal.
#[tactic(auto, unfolding(crate::specs::Naming::radius_in))]
fn radius_in(field: &[u8]) -> Option<u64>
    ensures { result ≡ radius_in field.now }
{
    let radius = length_at(b'R', field)?;
    radius_at_most(radius)
}

/// What the values of `nose` say: the path, the number of the offset, the radius, and the tip.
#[tactic(auto, unfolding(crate::specs::Naming::nose_said))]
fn nose(path: &[u8], offset: &[u8], radius: &[u8], tip: &[u8]) -> Option<Choice>
    ensures { result ≡ nose_said path.now offset.now radius.now tip.now }
{
    let _path = number_in(1, 2, path)?;
    let offset = number_in(1, LAST_OFFSET, offset)?;
    let radius = radius_in(radius)?;
    let tip = number_in(0, 9, tip)?;
    Some(Choice::ToolNose(Nose {
        offset,
        radius,
        tip: tip as u8,
    }))
}

/// What five fields say.
#[tactic(auto, unfolding(crate::specs::Naming::five_say))]
fn five(form: &[u8], path: &[u8], offset: &[u8], radius: &[u8], tip: &[u8]) -> Option<Choice>
    ensures { result ≡ five_say form.now path.now offset.now radius.now tip.now }
{
    if form == b"nose".as_slice() {
        nose(path, offset, radius, tip)
    } else {
        None
    }
}

/// What the fields of a line say of the forms, if they do.
#[tactic(auto, unfolding(crate::specs::Naming::choice_of))]
fn read_fields(fields: &[&[u8]]) -> Option<Choice>
    ensures { result ≡ choice_of (texts fields.now) }
{
    match fields {
        [name, value] => two(name, value),
        [form, name, value] => three(form, name, value),
        [form, name, first, second] => four(form, name, first, second),
        [form, path, offset, radius, tip] => five(form, path, offset, radius, tip),
        _ => None,
    }
}

/// What a line says of the forms, if it does. The only error is out of memory.
#[tactic(auto, unfolding(field_lines::specs::Line::line_says))]
pub(crate) fn read_line(alloc: Global, line: &[u8]) -> Result<Option<Choice>, AllocError>
    ensures { IfOk result (λ choice. choice ≡ line_says choice_of line.now) }
{
    match line_fields(alloc, line)? {
        Some(fields) => Ok(read_fields(fields.as_slice())),
        None => Ok(None),
    }
}
