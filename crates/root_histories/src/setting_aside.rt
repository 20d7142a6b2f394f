//! Earlier histories.

use crate::kept_root::KeptRoot;
use root_access::Failure;

/// Lets a new history begin with this text. The one so far becomes `history.N`, and N is returned.
/// So a root never is without its history, also if the run is cut short.
///
/// Errors: the system's own; `Unsynced` if all was done, and may not last.
pub fn set_aside(root: &mut KeptRoot<'_>, text: &[u8]) -> Result<u32, Failure> {
    Ok(root.disk.directory().begin_another(text)?)
}
