//! From three texts to an accepted pair, or to its one refusal.
ghost use Rattle.std.specs.Prelude.{◌≡◌, ◌<◌, ◌^◌, Ok, length, map, IfOk, IfErr};
ghost use Rattle.block_order.specs.Answers.{IfFault};
ghost use Rattle.cell_settings.specs.Cell.{settings_of};
ghost use Rattle.cell_settings.specs.View.{view};
ghost use Rattle.label_list.specs.Accepted.{IsAcceptedPair};
ghost use Rattle.tape_flow.specs.Forms.{program_form};
ghost use Rattle.nc_verify.specs.Verdict.{AreAccepted, AreRefusedSettings, IsRefusalOf, IsPairRefusal};

use crate::meeting::meet;
use crate::refusal::Refusal;
use crate::tape::flow_of;
use crate::verified::Verified;
use cell_settings::{Settings, read_settings};
use nc_number::{Failing, Path};
use std::alloc::Global;
use tape_flow::Flow;

/// The settings of a text, or their refusal: 90, with the first line that is not allowed.
pub fn settings_of(alloc: Global, text: &[u8]) -> Result<Settings, Failing<Refusal>>
    requires { length text.now < 2 ^ 32 }
    ensures settings { IfOk result (λ settings. settings_of text.now ≡ Ok (view settings)) }
    ensures refused { IfErr result (λ error. IfFault error (AreRefusedSettings text.now)) }
{
    match read_settings(alloc, text) {
        Ok(settings) => Ok(settings),
        Err(Failing::Fault(fault)) => Err(Failing::Fault(Refusal::at_setting(fault))),
        Err(Failing::NoMemory) => Err(Failing::NoMemory),
    }
}

/// Whether two flows are an accepted pair: else a path has too many labels, path 1 before path 2,
/// or the labels differ.
fn accept(alloc: Global, left: &Flow, right: &Flow) -> Result<(), Failing<Refusal>>
    ensures accepted { IfOk result (λ _. IsAcceptedPair left.now.order right.now.order) }
    ensures refused { IfErr result (λ error. IfFault error (IsPairRefusal left.now.order right.now.order)) }
{
    match meet(alloc, &left.order, &right.order) {
        Ok(_) => Ok(()),
        Err(error) => Err(error),
    }
}

/// The verdict of three texts: the tape of path 1, that of path 2, and the settings of the cell.
///
/// Their refusal is the first of these: 90 of the settings; that of path 1's tape, of its reading
/// before its flow; that of path 2's tape; 70 of path 1, of path 2; 72.
pub fn verdict(
    alloc: Global,
    left: &[u8],
    right: &[u8],
    settings: &[u8],
) -> Result<Verified, Failing<Refusal>>
    requires { length settings.now < 2 ^ 32 }
    ensures accepted { IfOk result (λ verified. AreAccepted
        (record { left = left.now; right = right.now; settings = settings.now }) (view verified.settings)
        (map program_form verified.left.programs) (map program_form verified.right.programs)) }
    ensures refused { IfErr result (λ error. IfFault error (IsRefusalOf
        (record { left = left.now; right = right.now; settings = settings.now }))) }
{
    let settings = match settings_of(alloc, settings) {
        Ok(settings) => settings,
        Err(error) => return Err(error),
    };
    let one = match flow_of(alloc, &settings, Path::One, left) {
        Ok(flow) => flow,
        Err(error) => return Err(error),
    };
    let two = match flow_of(alloc, &settings, Path::Two, right) {
        Ok(flow) => flow,
        Err(error) => return Err(error),
    };
    match accept(alloc, &one, &two) {
        Ok(()) => Ok(Verified::of(one, two, settings)),
        Err(error) => Err(error),
    }
}
