//! What a run does once its calls were made on what was captured.
ghost use Rattle.std.specs.Prelude.{◌≡◌, option_copied};
ghost use Rattle.root_runs.specs.Plans.{plan_of, is_vendors, first_of_vendor};

use link_tree::{Change, TreePath};
use root_words::How;

/// What a run does.
#[derive(Clone, Copy, Debug, PartialEq, Eq)]
pub enum Plan {
    /// Nothing, since a call was refused.
    Leave,
    /// Nothing, since something of the vendor's would change.
    Forbid,
    /// It reports what would change.
    Report,
    /// It makes the changes.
    Make,
}

/// What a run does, if a call was refused or not, and if something of the vendor's would change or
/// not.
pub fn plan_of(how: How, is_refused: bool, is_vendors: bool) -> Plan
    ensures { result ≡ plan_of how is_refused is_vendors }
{
    if is_refused && !how.keep_going {
        Plan::Leave
    } else if is_vendors && !how.vendor {
        Plan::Forbid
    } else if how.dry_run {
        Plan::Report
    } else {
        Plan::Make
    }
}

/// Whether a path is the vendor's: beneath `/usr`, but not beneath `/usr/local`, which is the
/// administrator's. file-hierarchy(7), hier(7).
pub fn is_vendors(path: &TreePath) -> bool
    ensures { result ≡ is_vendors path.now }
{
    path.text().starts_with(b"/usr/") && !path.text().starts_with(b"/usr/local/")
}

/// The first change of something that is the vendor's.
pub fn first_of_vendor(changes: &[Change]) -> Option<&Change>
    ensures { option_copied result ≡ first_of_vendor changes.now }
{
    changes.iter().find(|change| is_vendors(&change.path))
}
