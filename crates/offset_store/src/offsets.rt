//! All offsets of a path, their shift, and an offset that is changed or put.
ghost use Rattle.std.specs.Prelude.{◌≡◌, ◌≤◌, ◌+ℤ◌, unsigned_abs, IfOk, OnOk, OnErr};
ghost use Rattle.std.specs.Result.{result_err};
ghost use Rattle.nc_number.specs.Position.{IsPosition, IsWithin, origin};
ghost use Rattle.nc_number.specs.declared.point.TheConstants.{TOOL_OFFSETS};
ghost use Rattle.offset_store.specs.declared.number.TheConstants.{LAST_WORK};
ghost use Rattle.offset_store.specs.Lists.{offset_at};
ghost use Rattle.offset_store.specs.declared.slot.OffsetForm.TheVariants.{WorkOffset, ToolOffset};
ghost use Rattle.offset_store.specs.Changes.{point_at, with_point, changed_point, in_range};
ghost use Rattle.offset_store.specs.Offsets.{no_offsets, work_in_force, shift_of, shift_travel, set_fault, with_set};

use crate::change::changed_point;
use crate::fault::OffsetFault;
use crate::list::{ORIGIN, OffsetList};
use crate::slot::{OffsetForm, Slot};
use nc_number::{Axis, Point, TRAVEL};
use std::marker::Model;

/// The offsets of a path, in 0.001 mm. Work offset 0 is the external one; place 0 of the tool
/// offsets is no offset, and stays 0. The lists have one place more than the greatest number:
/// `LAST_WORK` is 6, `TOOL_OFFSETS` 64 (specs/Offsets.antt has 7 and 65 too).
#[derive(Debug, Drop)]
pub struct Offsets {
    /// The work offsets, 0 to 6.
    work: OffsetList<7>,
    /// The geometry of the tool offsets, 0 to 64.
    geometry: OffsetList<65>,
    /// The wear of the tool offsets, 0 to 64.
    wear: OffsetList<65>,
}

// Clauses see the three lists, each offset at the place of its number.
impl Model for Offsets {
    ghost use Rattle.offset_store.specs.Table.{OffsetTable, IsSound};

    ghost Value = { OffsetTable };

    ghost view = { λ o. record { work = o.work; geometry = o.geometry; wear = o.wear } };

    ghost invariant = { λ o. IsSound (record { work = o.work; geometry = o.geometry; wear = o.wear }) };
}

impl Offsets {
    /// The offsets of a path, every one of them 0.
    pub fn new() -> Self
        ensures { result ≡ no_offsets }
    {
        Offsets {
            work: OffsetList::new(),
            geometry: OffsetList::new(),
            wear: OffsetList::new(),
        }
    }

    /// Work offset `n`: 0 is the external one, 1 to 6 are those of G54 to G59.
    pub fn work(&self, n: u8) -> Point
        requires { n ≤ LAST_WORK }
        ensures offset { result ≡ offset_at self.now.work n }
        ensures position { IsPosition result }
    {
        self.work.at(n)
    }

    /// Geometry offset `n`, from 1; 0 is no offset, and gives 0.
    pub fn geometry(&self, n: u8) -> Point
        requires { n ≤ TOOL_OFFSETS }
        ensures offset { result ≡ offset_at self.now.geometry n }
        ensures position { IsPosition result }
        ensures none { n ≡ 0 → result ≡ origin }
    {
        self.geometry.at(n)
    }

    /// Wear offset `n`, from 1; 0 is no offset, and gives 0.
    pub fn wear(&self, n: u8) -> Point
        requires { n ≤ TOOL_OFFSETS }
        ensures offset { result ≡ offset_at self.now.wear n }
        ensures position { IsPosition result }
        ensures none { n ≡ 0 → result ≡ origin }
    {
        self.wear.at(n)
    }

    /// What is added to programmed coordinates to get machine coordinates while this work offset (1
    /// to 6, or 0 for the external one alone) and this tool offset (1 to 64, or 0 for none) are in
    /// force.
    pub fn shift(&self, work: u8, offset: u8) -> Point
        requires work { work ≤ LAST_WORK }
        requires offset { offset ≤ TOOL_OFFSETS }
        ensures sum { result ≡ shift_of self.now work offset }
        ensures range { IsWithin shift_travel result }
    {
        let external = self.work(0);
        let workpiece = self.work_in_force(work);
        let geometry = self.geometry(offset);
        let wear = self.wear(offset);
        Point {
            x: sum_of(external.x, workpiece.x, geometry.x, wear.x),
            z: sum_of(external.z, workpiece.z, geometry.z, wear.z),
        }
    }

    /// The work offset in force beside the external one; for 0 there is none, and it is 0.
    fn work_in_force(&self, work: u8) -> Point
        requires { work ≤ LAST_WORK }
        ensures offset { result ≡ work_in_force self.now work }
        ensures position { IsPosition result }
    {
        if work == 0 { ORIGIN } else { self.work(work) }
    }

    /// The offset of a slot.
    pub fn at(&self, slot: &Slot) -> Point
        ensures offset { result ≡ point_at self.now slot.now }
        ensures position { IsPosition result }
    {
        match slot {
            Slot::Work(n) => self.work.at(n.get()),
            Slot::Geometry(n) => self.geometry.at(n.get()),
            Slot::Wear(n) => self.wear.at(n.get()),
        }
    }

    /// What the words of G10 make of an offset: X and Z set, U and W add, and an axis without a
    /// word stays. Alarm 41 exactly where a part is then past 99,999.999 mm. It looks only.
    pub fn changed(&self, slot: &Slot, x: Axis, z: Axis) -> Result<Point, OffsetFault>
        ensures point { result ≡ in_range (changed_point (point_at self.now slot.now) x z) }
        ensures position { IfOk result IsPosition }
    {
        changed_point(&self.at(slot), x, z)
    }

    /// Sets an offset to a point that may be a position.
    pub fn put(&mut self, slot: &Slot, to: Point)
        requires { IsPosition to }
        ensures table { self.new ≡ with_point self.old slot.now to }
        ensures there { point_at self.new slot.now ≡ to }
    {
        match slot {
            Slot::Work(n) => self.work.put(n.get(), to),
            Slot::Geometry(n) => self.geometry.put(n.get(), to),
            Slot::Wear(n) => self.wear.put(n.get(), to),
        }
    }

    /// Sets work offset `n`: alarm 40 where it is none of 0 to 6, else 41 where a part of the point
    /// is past the range.
    pub fn set_work(&mut self, n: i64, to: Point) -> Result<(), OffsetFault>
        ensures fault { result_err result ≡ set_fault WorkOffset n to }
        ensures set { OnOk result (self.new ≡ with_set self.old WorkOffset n to) }
        ensures err { OnErr result (self.new ≡ self.old) }
    {
        self.set(OffsetForm::WorkOffset, n, to)
    }

    /// Sets wear offset `p`, from 1 to 64, or geometry offset `p` - 10,000, from 1 to 64: alarm 40
    /// where `p` is neither, else 41 where a part of the point is past the range.
    pub fn set_tool(&mut self, p: i64, to: Point) -> Result<(), OffsetFault>
        ensures fault { result_err result ≡ set_fault ToolOffset p to }
        ensures set { OnOk result (self.new ≡ with_set self.old ToolOffset p to) }
        ensures err { OnErr result (self.new ≡ self.old) }
    {
        self.set(OffsetForm::ToolOffset, p, to)
    }

    /// Sets the offset that G10 names by this number: alarm 40 if there is none, else 41 if a part
    /// of the point is past the range.
    fn set(&mut self, form: OffsetForm, n: i64, to: Point) -> Result<(), OffsetFault>
        ensures fault { result_err result ≡ set_fault form n to }
        ensures set { OnOk result (self.new ≡ with_set self.old form n to) }
        ensures err { OnErr result (self.new ≡ self.old) }
    {
        let slot = Slot::named(form, Some(n))?;
        let to = self.changed(&slot, Axis::To(to.x), Axis::To(to.z))?;
        self.put(&slot, to);
        Ok(())
    }
}

/// The shift along one axis, from what each offset adds along it, in 0.001 mm.
fn sum_of(external: i64, workpiece: i64, geometry: i64, wear: i64) -> i64
    requires external { unsigned_abs external ≤ TRAVEL }
    requires workpiece { unsigned_abs workpiece ≤ TRAVEL }
    requires geometry { unsigned_abs geometry ≤ TRAVEL }
    requires wear { unsigned_abs wear ≤ TRAVEL }
    ensures sum { result ≡ external +ℤ workpiece +ℤ (geometry +ℤ wear) }
    ensures range { unsigned_abs result ≤ shift_travel }
{
    external + workpiece + (geometry + wear)
}
