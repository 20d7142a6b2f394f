//! Paths on the host, of what is beneath a root.
ghost use Rattle.std.specs.Prelude.{◌≡◌, ◌<◌, ◌++◌, length, IfSome, IfNone, OnOk};
ghost use Rattle.unit_paths.specs.Paths.{is_slash};
ghost use Rattle.root_runs.specs.Roots.{without_slashes, rooted};

use crate::escapes::push_each_shown;
use std::alloc::AllocError;

fn is_slash(b: u8) -> bool
    ensures { result ≡ is_slash b }
{
    b == b'/'
}

/// A text without the slash at its end, if it has one.
#[tactic(auto, using(crate::proofs::Slashes::slash_is_cut, crate::proofs::Slashes::other_end_stays, crate::proofs::Slashes::nothing_stays))]
fn without_slash(text: &[u8]) -> Option<&[u8]>
    ensures cut { IfSome result (λ front. without_slashes front.now ≡ without_slashes text.now) }
    ensures shorter { IfSome result (λ front. length front.now < length text.now) }
    ensures stays { IfNone result (without_slashes text.now ≡ text.now) }
{
    match text.split_last() {
        Some((last, front)) => { if is_slash(*last) { Some(front) } else { None } }
        None => None,
    }
}

/// A text without the slashes at its end.
fn without_slashes(text: &[u8]) -> &[u8]
    ensures { result.now ≡ without_slashes text.now }
{
    let mut rest = text;
    'slashes: while let Some(front) = without_slash(rest) {
        rest = front;
    }
    rest
}

/// Appends a path beneath a root as it is on the host, as people are shown it. If memory runs out,
/// a part may have been appended.
pub(crate) fn push_rooted(out: &mut Vec<u8>, root: &[u8], path: &[u8]) -> Result<(), AllocError>
    ensures { OnOk result (out.new.items ≡ out.old.items ++ rooted root.now path.now) }
{
    push_each_shown(out, without_slashes(root))?;
    push_each_shown(out, path)
}
