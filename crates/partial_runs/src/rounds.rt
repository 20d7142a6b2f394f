//! Round after round: calls run on what was captured, and what they look at besides is captured.
ghost use Rattle.std.specs.Prelude.{◌≡◌, ◌≤◌, ◌<◌, length, IsNone, IfErr, IfOk, IfSome, OnOk};
ghost use Rattle.std.specs.FinMap as map;
ghost use Rattle.link_tree.specs.Shape.{IsTree};
ghost use Rattle.disk.specs.Captures.{failures_after_capture};
ghost use Rattle.disk.specs.Partials.{IsPartial, IsReasonAgainstPart, found_in};
ghost use Rattle.partial_runs.specs.Runs.{IsRunOnAll};

use crate::calls::make_calls;
use crate::capturing::capture_more;
use disk::{CaptureError, Disk, Partial};
use footprint::Operation;
use history::{History, Operator, Request};
use std::alloc::Global;

/// From this round on, all slots are captured: calls that went on so long look at many, one after
/// another.
const LATE: u32 = 15;

/// There is no round after these: each round but the last finds an entry more, and a part has at
/// most 65,536 entries.
const MAX_ROUNDS: u32 = 65_537;

/// One round: calls run on what was captured, and then all that they looked at is captured, in a
/// late round all slots as well. If no entry more is found by that, the calls have all that they
/// looked at, and their history is returned.
fn run_round<D: Disk, O: Operation>(
    alloc: Global,
    disk: &mut D,
    partial: &mut Partial,
    calls: &[(Operator, Request<O>)],
    is_late: bool,
) -> Result<Option<History<O>>, CaptureError>
    requires few { length calls.now ≤ 1000000 }
    ensures same { IfOk result (λ ended. IfSome ended (λ history. IfSome (D.holds disk.old) (λ t. IsPartial t partial.old → IsTree t.entries → IsRunOnAll O.asks O.meaning t calls.now history.first history.rows))) }
    ensures more { IfOk result (λ ended. IsNone ended → (map.len (found_in partial.old) < map.len (found_in partial.new)) × (map.len (found_in partial.new) ≤ 65536)) }
    ensures stays { OnOk result (IfSome (D.holds disk.old) (λ t. IsPartial t partial.old → IsPartial t partial.new)) }
    ensures reason { IfErr result (λ e. IfSome (D.holds disk.old) (λ t. IsPartial t partial.old → IsReasonAgainstPart t e)) }
    ensures kept { D.holds disk.new ≡ D.holds disk.old }
    ensures counted { D.failures disk.new ≡ failures_after_capture (D.failures disk.old) result }
{
    let before = partial.len();
    let tree = partial.tree(alloc)?;
    let history = make_calls(alloc, tree, calls)?;
    capture_more(alloc, disk, partial, history.rows(), is_late)?;
    if before < partial.len() {
        return Ok(None);
    }
    Ok(Some(history))
}

/// Runs calls on as much of a disk as they look at. Their history begins with a part of what the
/// disk holds; the rows are those of the calls on all that the disk holds, and so are the changes
/// in all.
///
/// At first nothing is captured. In each round the calls run on the part that was captured so far,
/// and what they looked at is captured. A round that finds no entry more is the last. In the
/// sixteenth round all slots are captured, so that calls that look at one unit after another need
/// no more of them; what is left then are files to which links lead.
///
/// # Errors
///
/// Those of a capture, for what the calls look at, and for all slots from the sixteenth round on:
///
/// - `Odd`: at a slot is something that is no entry.
/// - `NoDirectory`: something else is there instead of a directory of slots.
/// - `TooMany`: these are over 65,536 entries.
/// - `BadShape`: one of them is beneath another, or above a slot. No disk that holds a tree results
///   in this.
/// - `Failed`: the disk failed. `OutOfMemory`.
pub fn run_on_part<D: Disk, O: Operation>(
    alloc: Global,
    disk: &mut D,
    calls: &[(Operator, Request<O>)],
) -> Result<History<O>, CaptureError>
    requires few { length calls.now ≤ 1000000 }
    ensures same { IfOk result (λ history. IfSome (D.holds disk.old) (λ t. IsTree t.entries → IsRunOnAll O.asks O.meaning t calls.now history.first history.rows)) }
    ensures reason { IfErr result (λ e. IfSome (D.holds disk.old) (λ t. IsReasonAgainstPart t e)) }
    ensures kept { D.holds disk.new ≡ D.holds disk.old }
    ensures counted { D.failures disk.new ≡ failures_after_capture (D.failures disk.old) result }
{
    let mut partial = Partial::none(alloc);
    for round in 0..MAX_ROUNDS {
        let ended = run_round(alloc, disk, &mut partial, calls, LATE <= round)?;
        if let Some(history) = ended {
            return Ok(history);
        }
    }
    // A part has no more entries than that.
    unreachable!()
}
