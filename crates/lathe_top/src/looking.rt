//! The commands that only look: no turret is called, and a disk is only read. What they show is
//! written by crate `lathe_looks`.
//! For control.rt of this crate.
ghost use Rattle.std.specs.Prelude.{option_map};
ghost use Rattle.lathe_calls.specs.Answers.{Ends};
ghost use Rattle.command_words.specs.declared.making.TheConstants.{DEFAULT_BLOCKS};
ghost use Rattle.lathe_calls.specs.Due.{IsDueTo};
ghost use Rattle.tape_calls.specs.Expanded.{IsExpanded};
ghost use Rattle.tape_calls.specs.Plained.{IsPlained};
ghost use Rattle.lathe_looks.specs.Named.{only_text, pair_texts, tape_named, tape_texts, tape_with_settings, zones_and_pair, zones_before, zones_named};
ghost use Rattle.lathe_looks.specs.Shown.{IsShowing, IsShown};
ghost use Rattle.lathe_looks.specs.Zoned.{AreZonesFor, IsPlanned};
ghost use Rattle.lathe_looks.specs.Texts.{files_in};
ghost use Rattle.lathe_top.specs.Held.{lathe_of, lathe_left};
ghost use Rattle.lathe_top.specs.Lathe.{AreAtRest};
ghost use Rattle.lathe_top.specs.OverFiles.{IsOfFilesAlone, IsOverFiles};
ghost use Rattle.lathe_top.specs.Zoned.{IsZoned};

use crate::held::{Ended, Lathe};
use command_words::DEFAULT_BLOCKS;
use disk_model::Disk;
use lathe_calls::Question;
use lathe_looks::{
    FileNames, Showing, Shown, ask, ask_zones, expand, plain, plan_of_file, show, show_zones,
};
use nc_outside::{Shelf, Sink, Turret};
use std::alloc::Global;
use zone_cell::Plan;

/// Answers a question of the files of a pair. Neither the disk nor a turret is called.
pub(crate) fn answer_pair<H: Shelf, D: Disk, T: Turret, K: Sink>(
    alloc: Global,
    names: &FileNames<'_>,
    question: Question,
    shelf: &mut H,
    lathe: Lathe<D, T>,
    out: &mut K,
) -> Ended<D, T>
    ensures { Ends (IsOfFilesAlone pair_texts (files_in names.now) (IsDueTo question)
        (lathe_of D.state T.state lathe) (lathe_left D.state T.state result) (H.state shelf.old) (H.state shelf.new))
        (K.state out.old) (K.state out.new) result.status }
{
    Ended::at_rest(ask(alloc, names, question, shelf, out), lathe)
}

/// Writes the zones of the run of a pair's files whose paths take turns, or what is hit in it, by a
/// file. Neither the disk nor a turret is called.
pub(crate) fn judge_zones<H: Shelf, D: Disk, T: Turret, K: Sink>(
    alloc: Global,
    zones: &str,
    names: &FileNames<'_>,
    shelf: &mut H,
    lathe: Lathe<D, T>,
    out: &mut K,
) -> Ended<D, T>
    ensures { Ends (IsOfFilesAlone zones_and_pair (zones_before zones.now (files_in names.now)) (AreZonesFor DEFAULT_BLOCKS)
        (lathe_of D.state T.state lathe) (lathe_left D.state T.state result) (H.state shelf.old) (H.state shelf.new))
        (K.state out.old) (K.state out.new) result.status }
{
    Ended::at_rest(
        ask_zones(alloc, zones, names, DEFAULT_BLOCKS, shelf, out),
        lathe,
    )
}

/// Writes a tape with its roughing cycles as plain blocks. Neither the disk nor a turret is called.
pub(crate) fn write_out<H: Shelf, D: Disk, T: Turret, K: Sink>(
    alloc: Global,
    tape: &str,
    shelf: &mut H,
    lathe: Lathe<D, T>,
    out: &mut K,
) -> Ended<D, T>
    ensures { Ends (IsOfFilesAlone only_text (tape_named tape.now) IsExpanded
        (lathe_of D.state T.state lathe) (lathe_left D.state T.state result) (H.state shelf.old) (H.state shelf.new))
        (K.state out.old) (K.state out.new) result.status }
{
    Ended::at_rest(expand(alloc, tape, shelf, out), lathe)
}

/// Writes a shop's tape in the language that the control runs. Neither the disk nor a turret is
/// called.
pub(crate) fn write_plain<H: Shelf, D: Disk, T: Turret, K: Sink>(
    alloc: Global,
    tape: &str,
    settings: Option<&str>,
    shelf: &mut H,
    lathe: Lathe<D, T>,
    out: &mut K,
) -> Ended<D, T>
    ensures { Ends (IsOfFilesAlone tape_texts (tape_with_settings tape.now (option_map (λ s. s.now) settings.entry))
        IsPlained (lathe_of D.state T.state lathe) (lathe_left D.state T.state result)
        (H.state shelf.old) (H.state shelf.new))
        (K.state out.old) (K.state out.new) result.status }
{
    Ended::at_rest(plain(alloc, tape, settings, shelf, out), lathe)
}

/// Writes what the journal on the disk holds. No turret is called.
pub(crate) fn look<D: Disk, T: Turret, K: Sink>(
    alloc: Global,
    showing: Showing,
    lathe: Lathe<D, T>,
    out: &mut K,
) -> Ended<D, T>
    ensures { Ends (λ answer. IsShown (IsShowing showing) (D.state lathe.disk) (D.state result.lathe.disk) answer
        × AreAtRest (lathe_of D.state T.state lathe) (lathe_left D.state T.state result))
        (K.state out.old) (K.state out.new) result.status }
{
    let Lathe { disk, turrets } = lathe;
    let Shown { status, disk } = show(alloc, showing, disk, out);
    Ended::at_rest(status, Lathe { disk, turrets })
}

/// Writes the zones of the run on the disk, or what is hit in it, by a file. No turret is called, and
/// the disk only if the file was read.
pub(crate) fn show_zoned<H: Shelf, D: Disk, T: Turret, K: Sink>(
    alloc: Global,
    name: &str,
    shelf: &mut H,
    lathe: Lathe<D, T>,
    out: &mut K,
) -> Ended<D, T>
    ensures { Ends (IsOverFiles only_text (zones_named name.now) IsZoned
        (lathe_of D.state T.state lathe) (lathe_left D.state T.state result) (H.state shelf.old) (H.state shelf.new))
        (K.state out.old) (K.state out.new) result.status }
{
    match plan_of_file(alloc, name, shelf, out) {
        Ok(plan) => look_by(alloc, &plan, lathe, out),
        Err(status) => Ended::at_rest(status, lathe),
    }
}

/// Writes the zones of the run on the disk, or what is hit in it. No turret is called.
fn look_by<D: Disk, T: Turret, K: Sink>(
    alloc: Global,
    plan: &Plan,
    lathe: Lathe<D, T>,
    out: &mut K,
) -> Ended<D, T>
    ensures { Ends (λ answer. IsShown (IsPlanned plan.now) (D.state lathe.disk) (D.state result.lathe.disk) answer
        × AreAtRest (lathe_of D.state T.state lathe) (lathe_left D.state T.state result))
        (K.state out.old) (K.state out.new) result.status }
{
    let Lathe { disk, turrets } = lathe;
    let Shown { status, disk } = show_zones(alloc, plan, disk, out);
    Ended::at_rest(status, Lathe { disk, turrets })
}
