//! `forget`: a history is removed.

use kept_roots::HistoryFile;
use root_histories::{
    Context, Failure, KeptRoot, Stop, Taken, end, read_kept, take, unless_of_text,
};

/// A history of another root isn't removed. One that is in the root belongs to it.
fn check(cx: Context<'_>, root: &mut KeptRoot<'_>) -> Result<(), Failure> {
    if root.disk.directory().has(HistoryFile::Next)? {
        return Err(Failure::StillPromised);
    }
    if cx.asked.history.is_none() {
        return Ok(());
    }
    match read_kept(cx, root) {
        Ok(_kept) => Ok(()),
        Err(failure) => unless_of_text(failure),
    }
}

fn forget_history(cx: Context<'_>, root: &mut KeptRoot<'_>) -> Result<u8, Failure> {
    check(cx, root)?;
    root.disk.directory().forget()?;
    Ok(0)
}

/// Removes the history of a root, which stays as it is.
///
/// Errors: `NoHistory` if there is none; `StillPromised` if a run on it was cut short; the history
/// that `--history` names is that of another root; the system's own.
pub fn forget(cx: Context<'_>) -> Result<u8, Failure> {
    match take(cx)? {
        Taken::Plain(_) => Err(Failure::NoHistory),
        Taken::Kept(root) => {
            let mut root = root;
            let ended = match forget_history(cx, &mut root) {
                Ok(status) => Ok(status),
                Err(failure) => Err(Stop::Failed(failure)),
            };
            end(cx, root, ended)
        }
    }
}
