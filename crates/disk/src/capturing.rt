//! Captures what a disk holds.
ghost use Rattle.std.specs.Prelude.{◌≡◌, ℕ, IfOk, IfErr, IfSome};
ghost use Rattle.link_tree.specs.Shape.{IsTree};
ghost use Rattle.disk.specs.Captures.{IsCapture, IsReasonAgainst, failures_after_capture};
ghost use Rattle.disk.specs.Capturing.{IsBegun, SlotsAreCaptured};

use crate::capture_error::CaptureError;
use crate::captured::Captured;
use crate::disk::Disk;
use crate::taking::Taken;
use link_tree::{Place, Tree, TreePath};
use std::alloc::{AllocError, Global};

fn copies(alloc: Global, paths: &[TreePath]) -> Result<Vec<TreePath>, AllocError>
    ensures { IfOk result (λ copies. copies.items ≡ paths.now) }
{
    let mut copies = Vec::new(alloc);
    for path in paths {
        copies.push(path.copy()?)?;
    }
    Ok(copies)
}

/// What is at slots, and the links that must be followed.
fn slots_taken<D: Disk>(
    alloc: Global,
    disk: &mut D,
    also: &[TreePath],
) -> Result<Taken, CaptureError>
    ensures taken { IfOk result (λ taken. IfSome (D.holds disk.old) (λ t. IsBegun t also.now taken.found taken.wanted.items × SlotsAreCaptured t taken.found)) }
    ensures reason { IfErr result (λ e. IfSome (D.holds disk.old) (λ t. IsReasonAgainst t also.now e)) }
    ensures kept { D.holds disk.new ≡ D.holds disk.old }
    ensures counted { D.failures disk.new ≡ failures_after_capture (D.failures disk.old) result }
{
    let mut taken = Taken {
        found: Captured::none(alloc),
        wanted: copies(alloc, also)?,
    };
    let units = [Place::Etc, Place::Run, Place::Local, Place::Vendor];
    taken.take_all_units(alloc, disk, &units)?;
    let presets = [Place::Etc, Place::Run, Place::Vendor];
    taken.take_all_presets(alloc, disk, &presets)?;
    Ok(taken)
}

/// What is at slots, and what links lead to from there.
fn found<D: Disk>(alloc: Global, disk: &mut D, also: &[TreePath]) -> Result<Captured, CaptureError>
    ensures found { IfOk result (λ found. IfSome (D.holds disk.old) (λ t. IsCapture t also.now found)) }
    ensures reason { IfErr result (λ e. IfSome (D.holds disk.old) (λ t. IsReasonAgainst t also.now e)) }
    ensures kept { D.holds disk.new ≡ D.holds disk.old }
    ensures counted { D.failures disk.new ≡ failures_after_capture (D.failures disk.old) result }
{
    let mut taken = slots_taken(alloc, disk, also)?;
    taken.follow_all(alloc, disk)?;
    Ok(taken.found)
}

/// Captures what is at slots and at the other paths that were requested, and where links lead from
/// there, link after link, as the tree of an inventory. Slots are the paths at which commands place
/// entries, in the four directories of units and the three of presets. Links are followed by their
/// texts, as in `link_tree::canonical`, except those to `/dev/null`; if a link leads to nothing, or
/// to something odd, nothing is captured at its target. No other path is read, and nothing is
/// changed.
///
/// # Errors
///
/// - `Odd`: a directory, a device, a file of over 1,048,576 bytes, or a link whose target no
///   inventory can contain, is at a slot.
/// - `NoDirectory`: something else exists instead of a directory of slots.
/// - `TooMany`: there are over 65,536 entries.
/// - `BadShape`: one of them is beneath another, or above a slot. No disk that holds a tree results
///   in this.
/// - `Failed`: the disk failed. `OutOfMemory`.
pub fn capture<D: Disk>(
    alloc: Global,
    disk: &mut D,
    also: &[TreePath],
) -> Result<Tree, CaptureError>
    ensures captured { IfOk result (λ tree. IfSome (D.holds disk.old) (λ t. IsTree t.entries → IsCapture t also.now tree)) }
    ensures reason { IfErr result (λ e. IfSome (D.holds disk.old) (λ t. IsReasonAgainst t also.now e)) }
    ensures kept { D.holds disk.new ≡ D.holds disk.old }
    ensures counted { D.failures disk.new ≡ failures_after_capture (D.failures disk.old) result }
{
    let found = found(alloc, disk, also)?;
    found.to_tree(alloc)
}
