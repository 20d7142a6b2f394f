//! Taking what is at paths one by one, and in areas.
ghost use Rattle.std.specs.Prelude.{◌≡◌, true, false, OnOk, IfErr, IfSome};
ghost use Rattle.unit_paths.specs.Paths.{parent};
ghost use Rattle.unit_paths.specs.Kinds.{is_dependency};
ghost use Rattle.unit_paths.specs.Slots.{slot_of, is_slot};
ghost use Rattle.disk.specs.Captures.{failures_after_capture};
ghost use Rattle.disk.specs.Capturing.{AtSome, IsSlotIn, Takes};
ghost use Rattle.disk.specs.Partials.{IsDependencySlotOf, IsIn, IsNoneOrDirectory, IsReasonAgainstPart, TakesMoreOrStops, can_contain_slots};

use crate::capture_error::CaptureError;
use crate::disk::{Disk, Found, Oddity};
use crate::partial::Area;
use crate::taking::{Taken, listed, path_of_units};
use link_tree::{Place, Slot, TreePath};
use std::alloc::Global;

impl Taken {
    /// Takes what is at a path that is no slot. Something that can't be an entry counts as nothing.
    fn take_other<D: Disk>(
        &mut self,
        alloc: Global,
        disk: &mut D,
        path: &TreePath,
    ) -> Result<(), CaptureError>
        requires { is_slot path.now ≡ false }
        ensures goes { TakesMoreOrStops (D.holds disk.old) self.old self.new result (λ q. q ≡ path.now) }
        ensures kept { D.holds disk.new ≡ D.holds disk.old }
        ensures counted { D.failures disk.new ≡ failures_after_capture (D.failures disk.old) result }
    {
        if self.found.has(path) {
            return Ok(());
        }
        match disk.look(alloc, path)? {
            Found::Nothing => Ok(()),
            Found::Entry(entry) => self.add(alloc, path.copy()?, entry),
            Found::Odd(_) => Ok(()),
        }
    }

    /// Takes what is at a path. Something that can't be an entry is an error at a slot.
    pub(crate) fn take_at<D: Disk>(
        &mut self,
        alloc: Global,
        disk: &mut D,
        path: &TreePath,
    ) -> Result<(), CaptureError>
        ensures goes { TakesMoreOrStops (D.holds disk.old) self.old self.new result (λ q. q ≡ path.now) }
        ensures kept { D.holds disk.new ≡ D.holds disk.old }
        ensures counted { D.failures disk.new ≡ failures_after_capture (D.failures disk.old) result }
    {
        if Slot::of(path).is_some() {
            return self.take(alloc, disk, path);
        }
        self.take_other(alloc, disk, path)
    }

    /// Takes what is at the slots in a directory, if it can contain any.
    fn take_if_directory<D: Disk>(
        &mut self,
        alloc: Global,
        disk: &mut D,
        directory: &TreePath,
    ) -> Result<(), CaptureError>
        ensures goes { Takes (D.holds disk.old) self.old self.new result (IsSlotIn directory.now) }
        ensures kept { D.holds disk.new ≡ D.holds disk.old }
        ensures counted { D.failures disk.new ≡ failures_after_capture (D.failures disk.old) result }
    {
        if !directory.is_bad_shape() {
            return Ok(());
        }
        self.take_directory(alloc, disk, directory)
    }

    /// The same for each of these directories.
    fn take_directories<D: Disk>(
        &mut self,
        alloc: Global,
        disk: &mut D,
        directories: &[TreePath],
    ) -> Result<(), CaptureError>
        ensures goes { Takes (D.holds disk.old) self.old self.new result (AtSome directories.now IsSlotIn) }
        ensures kept { D.holds disk.new ≡ D.holds disk.old }
        ensures counted { D.failures disk.new ≡ failures_after_capture (D.failures disk.old) result }
    {
        for directory in directories {
            self.take_if_directory(alloc, disk, directory)?;
        }
        Ok(())
    }

    /// Takes what is at the slots of dependencies in a directory of units.
    fn take_dependencies<D: Disk>(
        &mut self,
        alloc: Global,
        disk: &mut D,
        place: Place,
    ) -> Result<(), CaptureError>
        ensures goes { Takes (D.holds disk.old) self.old self.new result (IsDependencySlotOf place) }
        ensures kept { D.holds disk.new ≡ D.holds disk.old }
        ensures counted { D.failures disk.new ≡ failures_after_capture (D.failures disk.old) result }
    {
        let directory = path_of_units(alloc, place)?;
        let paths = listed(alloc, disk, &directory)?;
        self.take_directories(alloc, disk, &paths)
    }

    /// Takes what is at the slots of an area.
    pub(crate) fn take_area<D: Disk>(
        &mut self,
        alloc: Global,
        disk: &mut D,
        area: Area,
    ) -> Result<(), CaptureError>
        ensures goes { Takes (D.holds disk.old) self.old self.new result (IsIn area) }
        ensures kept { D.holds disk.new ≡ D.holds disk.old }
        ensures counted { D.failures disk.new ≡ failures_after_capture (D.failures disk.old) result }
    {
        match area {
            Area::Units(place) => self.take_units(alloc, disk, place),
            Area::Dependencies(place) => self.take_dependencies(alloc, disk, place),
            Area::Presets => {
                let presets = [Place::Etc, Place::Run, Place::Vendor];
                self.take_all_presets(alloc, disk, &presets)
            }
        }
    }
}

/// Whether slots can be in what was found: it is nothing, or a directory.
fn can_contain_slots(found: &Found) -> bool
    ensures { result ≡ can_contain_slots found.now }
{
    match found {
        Found::Nothing => true,
        Found::Entry(_) => false,
        Found::Odd(oddity) => match oddity {
            Oddity::Directory => true,
            Oddity::Special => false,
            Oddity::TooLarge => false,
            Oddity::BadTarget => false,
        },
    }
}

/// Checks that the directory of a slot of a dependency is a directory, or doesn't exist yet. If a
/// link is there instead, the slot is not read through it, and no entry is written through it.
pub(crate) fn expect_directory<D: Disk>(
    alloc: Global,
    disk: &mut D,
    path: &TreePath,
) -> Result<(), CaptureError>
    ensures directory { OnOk result (IfSome (D.holds disk.old) (λ t. is_dependency (slot_of path.now) ≡ true → IsNoneOrDirectory t (parent path.now))) }
    ensures reason { IfErr result (λ e. IfSome (D.holds disk.old) (λ t. IsReasonAgainstPart t e)) }
    ensures kept { D.holds disk.new ≡ D.holds disk.old }
    ensures counted { D.failures disk.new ≡ failures_after_capture (D.failures disk.old) result }
{
    if !Slot::is_of_dependency(path) {
        return Ok(());
    }
    let Some(directory) = path.copy()?.into_parent() else {
        return Ok(());
    };
    let found = disk.look(alloc, &directory)?;
    if can_contain_slots(&found) {
        return Ok(());
    }
    Err(CaptureError::NoDirectory(directory))
}
