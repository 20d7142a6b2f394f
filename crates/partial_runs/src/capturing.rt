//! Capturing all that calls looked at.
ghost use Rattle.std.specs.Prelude.{◌≡◌};
ghost use Rattle.disk.specs.Captures.{failures_after_capture};
ghost use Rattle.disk.specs.Partials.{IsIn, AreCaptured};
ghost use Rattle.tree_access.specs.Keys.{Agree};
ghost use Rattle.partial_runs.specs.Captures.{AgreesOnReading, AreAllCaptured, Captures, everything};
ghost use Rattle.partial_trees.specs.Parts.{AgreeOnRows};

use disk::{Area, CaptureError, Disk, Partial};
use footprint::{Key, Operation, Reading};
use history::Row;
use link_tree::{Place, TreePath};
use std::alloc::Global;

/// All slots of dependencies.
const LINKS: [Area; 4] = [
    Area::Dependencies(Place::Etc),
    Area::Dependencies(Place::Run),
    Area::Dependencies(Place::Local),
    Area::Dependencies(Place::Vendor),
];

/// All slots.
const EVERYTHING: [Area; 5] = [
    Area::Units(Place::Etc),
    Area::Units(Place::Run),
    Area::Units(Place::Local),
    Area::Units(Place::Vendor),
    Area::Presets,
];

/// Captures a path, unless it was captured before.
fn capture_path<D: Disk>(
    alloc: Global,
    disk: &mut D,
    partial: &mut Partial,
    path: &TreePath,
) -> Result<(), CaptureError>
    ensures captures { Captures (D.holds disk.old) partial.old partial.new result (λ t found. AreCaptured t found (λ q. q ≡ path.now)) }
    ensures kept { D.holds disk.new ≡ D.holds disk.old }
    ensures counted { D.failures disk.new ≡ failures_after_capture (D.failures disk.old) result }
{
    if partial.has_path(path) {
        return Ok(());
    }
    partial.take_path(alloc, disk, path)
}

/// Captures an area, unless it was captured before.
fn capture_area<D: Disk>(
    alloc: Global,
    disk: &mut D,
    partial: &mut Partial,
    area: Area,
) -> Result<(), CaptureError>
    ensures captures { Captures (D.holds disk.old) partial.old partial.new result (λ t found. AreCaptured t found (IsIn area)) }
    ensures kept { D.holds disk.new ≡ D.holds disk.old }
    ensures counted { D.failures disk.new ≡ failures_after_capture (D.failures disk.old) result }
{
    if partial.has_area(area) {
        return Ok(());
    }
    partial.take_area(alloc, disk, area)
}

/// Captures each of these areas.
fn capture_areas<D: Disk>(
    alloc: Global,
    disk: &mut D,
    partial: &mut Partial,
    areas: &[Area],
) -> Result<(), CaptureError>
    ensures captures { Captures (D.holds disk.old) partial.old partial.new result (λ t found. AreAllCaptured t found areas.now) }
    ensures kept { D.holds disk.new ≡ D.holds disk.old }
    ensures counted { D.failures disk.new ≡ failures_after_capture (D.failures disk.old) result }
{
    for area in areas {
        capture_area(alloc, disk, partial, *area)?;
    }
    Ok(())
}

/// Captures all slots.
fn capture_everything<D: Disk>(
    alloc: Global,
    disk: &mut D,
    partial: &mut Partial,
) -> Result<(), CaptureError>
    ensures captures { Captures (D.holds disk.old) partial.old partial.new result (λ t found. AreAllCaptured t found everything) }
    ensures kept { D.holds disk.new ≡ D.holds disk.old }
    ensures counted { D.failures disk.new ≡ failures_after_capture (D.failures disk.old) result }
{
    capture_areas(alloc, disk, partial, &EVERYTHING)
}

/// Captures all that a key looks at. Links that belong to a name may have any name, so that all of
/// the scope's directory are captured.
fn capture_key<D: Disk>(
    alloc: Global,
    disk: &mut D,
    partial: &mut Partial,
    key: &Key,
) -> Result<(), CaptureError>
    ensures captures { Captures (D.holds disk.old) partial.old partial.new result (λ t found. Agree key.now found t.entries) }
    ensures kept { D.holds disk.new ≡ D.holds disk.old }
    ensures counted { D.failures disk.new ≡ failures_after_capture (D.failures disk.old) result }
{
    match key {
        Key::Cell(path) => capture_path(alloc, disk, partial, path),
        Key::Marked(scope, _) => capture_area(alloc, disk, partial, Area::Units(scope.place())),
        Key::Presets => capture_area(alloc, disk, partial, Area::Presets),
        Key::Links => capture_areas(alloc, disk, partial, &LINKS),
    }
}

/// Captures all that a reading looked at.
fn capture_reading<D: Disk>(
    alloc: Global,
    disk: &mut D,
    partial: &mut Partial,
    reading: &Reading,
) -> Result<(), CaptureError>
    ensures captures { Captures (D.holds disk.old) partial.old partial.new result (λ t found. AgreesOnReading found t.entries reading.now) }
    ensures kept { D.holds disk.new ≡ D.holds disk.old }
    ensures counted { D.failures disk.new ≡ failures_after_capture (D.failures disk.old) result }
{
    for observation in reading.as_slice() {
        capture_key(alloc, disk, partial, &observation.key)?;
    }
    Ok(())
}

/// Captures all that rows looked at.
fn capture_rows<D: Disk, O: Operation>(
    alloc: Global,
    disk: &mut D,
    partial: &mut Partial,
    rows: &[Row<O>],
) -> Result<(), CaptureError>
    ensures captures { Captures (D.holds disk.old) partial.old partial.new result (λ t found. AgreeOnRows rows.now found t.entries) }
    ensures kept { D.holds disk.new ≡ D.holds disk.old }
    ensures counted { D.failures disk.new ≡ failures_after_capture (D.failures disk.old) result }
{
    for row in rows {
        capture_reading(alloc, disk, partial, &row.reading)?;
    }
    Ok(())
}

/// Captures all slots, and all that rows looked at.
fn capture_everything_and_rows<D: Disk, O: Operation>(
    alloc: Global,
    disk: &mut D,
    partial: &mut Partial,
    rows: &[Row<O>],
) -> Result<(), CaptureError>
    ensures captures { Captures (D.holds disk.old) partial.old partial.new result (λ t found. AgreeOnRows rows.now found t.entries) }
    ensures kept { D.holds disk.new ≡ D.holds disk.old }
    ensures counted { D.failures disk.new ≡ failures_after_capture (D.failures disk.old) result }
{
    capture_everything(alloc, disk, partial)?;
    capture_rows(alloc, disk, partial, rows)
}

/// Captures all that rows looked at, and in a late round all slots too.
pub(crate) fn capture_more<D: Disk, O: Operation>(
    alloc: Global,
    disk: &mut D,
    partial: &mut Partial,
    rows: &[Row<O>],
    is_late: bool,
) -> Result<(), CaptureError>
    ensures captures { Captures (D.holds disk.old) partial.old partial.new result (λ t found. AgreeOnRows rows.now found t.entries) }
    ensures kept { D.holds disk.new ≡ D.holds disk.old }
    ensures counted { D.failures disk.new ≡ failures_after_capture (D.failures disk.old) result }
{
    if is_late {
        return capture_everything_and_rows(alloc, disk, partial, rows);
    }
    capture_rows(alloc, disk, partial, rows)
}
