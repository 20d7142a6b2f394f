//! Where a link leads: path_resolution(7) without a file system, so links that are directories on
//! the way aren't followed.
ghost use Rattle.std.specs.Prelude.{◌≡◌, ◌+◌, ◌≤◌, ◌<◌, length, OnOk, IfOk, IsOk};
ghost use Rattle.std.specs.List.{slice_split};
ghost use Rattle.smallvec.specs.SmallVec.{small_vec_len};
ghost use Rattle.unit_paths.specs.Paths.{is_slash, parent};
ghost use Rattle.unit_paths.specs.Canonical.{with_part, walked, start_of, merged, canonical, is_null_target, may_end_with_null};

use crate::fault::MAX_PATH;
use crate::part::is_part;
use crate::path::TreePath;
use crate::target::Target;
use crate::text::{cut_at_last_slash, cut_at_slash, parent_len};
use smallvec::SmallVec;
use std::alloc::{AllocError, Global};

/// Capacity for a path, a slash and a target, each of at most 4,095 bytes: within it a walk
/// allocates nothing.
const WALK_BYTES: usize = 8192;

/// The text that a walk has reached.
type Walk = SmallVec<u8, WALK_BYTES>;

/// Where a link at this path with this target leads: path_resolution(7). An absolute target is
/// resolved on its own, another from the link's directory. Empty parts and `.` are skipped, and
/// `..` removes the part before it, if there is one. Then `/lib/systemd/` at the beginning is read
/// as `/usr/lib/systemd/`. The target may be any text, of any length.
///
/// `None` if the result is the root, has over 4,095 bytes, or has a NUL, TAB or LF. Fails only if
/// memory runs out.
pub fn canonical(
    alloc: Global,
    link: &TreePath,
    target: &[u8],
) -> Result<Option<TreePath>, AllocError>
    ensures { IfOk result (λ path. path ≡ canonical link.now target.now) }
{
    let text = walk_from(alloc, link.text(), target)?;
    Ok(TreePath::of_text(merged(alloc, text.as_slice())?))
}

/// Whether a link at this path with this target leads to `/dev/null`, which masks a unit:
/// systemctl(1), `mask`. It allocates nothing.
pub fn is_null_target(link: &TreePath, target: &Target) -> bool
    ensures { result ≡ is_null_target link.now target.now }
{
    // (most links lead elsewhere, as their last part shows; most masks are written exactly so)
    let text = target.text();
    text == b"/dev/null".as_slice() || may_end_with_null(text) && walks_to_null(link, target)
}

/// Whether a walk over the target may end with `null`: its last part is `null`, is skipped, or is
/// `..`.
fn may_end_with_null(target: &[u8]) -> bool
    ensures { result ≡ may_end_with_null target.now }
{
    let (_, end) = cut_at_last_slash(target);
    !is_part(end) || end == b"null".as_slice()
}

/// Whether the walk over the target ends at `/dev/null`.
fn walks_to_null(link: &TreePath, target: &Target) -> bool
    ensures { result ≡ is_null_target link.now target.now }
{
    let text = walk_from(link.allocator(), link.text(), target.text()).unwrap();
    text.as_slice() == b"/dev/null".as_slice()
}

/// The result of a walk over the target, from the link's directory or from the root.
fn walk_from(alloc: Global, link: &[u8], target: &[u8]) -> Result<Walk, AllocError>
    ensures text { IfOk result (λ text. text.items ≡ walked (start_of link.now target.now) (slice_split is_slash target.now)) }
    ensures inline { length link.now ≤ MAX_PATH → length target.now ≤ MAX_PATH → IsOk result }
{
    let mut text = start_of(alloc, link, target)?;
    walk(&mut text, target)?;
    Ok(text)
}

/// Where the walk begins: at the root for an absolute target, otherwise in the link's directory.
#[tactic(auto, unfolding(crate::specs::Canonical::start_of, crate::specs::Canonical::begins_with_slash))]
fn start_of(alloc: Global, link: &[u8], target: &[u8]) -> Result<Walk, AllocError>
    ensures text { IfOk result (λ start. start.items ≡ start_of link.now target.now) }
    ensures inline { length link.now ≤ MAX_PATH → IsOk result }
    ensures room { length link.now ≤ MAX_PATH → IfOk result (λ start. (start.capacity ≡ WALK_BYTES) × (small_vec_len start ≤ MAX_PATH)) }
{
    match target {
        [b'/', ..] => Ok(SmallVec::new(alloc)),
        _ => {
            let mut start = SmallVec::from_slice(alloc, link)?;
            leave_part(&mut start);
            Ok(start)
        }
    }
}

/// Removes the last part; the root stays.
fn leave_part(text: &mut Walk)
    ensures text { text.new.items ≡ parent text.old.items }
    ensures shorter { small_vec_len text.new ≤ small_vec_len text.old }
    ensures capacity { text.new.capacity ≡ text.old.capacity }
{
    let end = parent_len(text.as_slice());
    text.truncate(end);
}

/// Walks over the parts of the target.
fn walk(text: &mut Walk, target: &[u8]) -> Result<(), AllocError>
    ensures text { OnOk result (text.new.items ≡ walked text.old.items (slice_split is_slash target.now)) }
    ensures inline { text.old.capacity ≡ WALK_BYTES → small_vec_len text.old + length target.now < WALK_BYTES → IsOk result }
{
    let mut rest = target;
    'parts: while let Some((part, after)) = cut_at_slash(rest) {
        take_part(text, part)?;
        rest = after;
    }
    take_part(text, rest)
}

/// One step of the walk.
#[tactic(auto, unfolding(crate::specs::Canonical::with_part))]
fn take_part(text: &mut Walk, part: &[u8]) -> Result<(), AllocError>
    ensures text { OnOk result (text.new.items ≡ with_part text.old.items part.now) }
    ensures inline { text.old.capacity ≡ WALK_BYTES → small_vec_len text.old + length part.now < WALK_BYTES → IsOk result × (text.new.capacity ≡ WALK_BYTES) }
    ensures longer { OnOk result (small_vec_len text.new ≤ small_vec_len text.old + length part.now + 1) }
{
    if is_part(part) {
        text.push(b'/')?;
        text.extend_from_slice(part)?;
    } else if part == b"..".as_slice() {
        leave_part(text);
    }
    Ok(())
}

/// The text with `/lib/systemd/` at its beginning read as `/usr/lib/systemd/`: `/lib` is a link to
/// `/usr/lib`, file-hierarchy(7).
#[tactic(auto, unfolding(crate::specs::Canonical::merged))]
fn merged(alloc: Global, text: &[u8]) -> Result<Vec<u8>, AllocError>
    ensures { IfOk result (λ whole. whole.items ≡ merged text.now) }
{
    if !text.starts_with(b"/lib/systemd/") {
        return Vec::from_slice(alloc, text);
    }
    let mut whole = Vec::from_slice(alloc, b"/usr")?;
    whole.extend_from_slice(text)?;
    Ok(whole)
}
