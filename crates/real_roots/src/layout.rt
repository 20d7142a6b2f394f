//! Refuses roots in which slots are not where inventories have them.

use crate::identity::Identity;
use crate::root::{Reached, Root};
use crate::trouble::{Hindrance, Trouble, at, hindered};
use std::fs;

/// The four directories of units and the three of presets.
pub(crate) const DIRECTORIES: [&str; 7] = [
    "/etc/systemd/system",
    "/run/systemd/system",
    "/usr/local/lib/systemd/system",
    "/usr/lib/systemd/system",
    "/etc/systemd/system-preset",
    "/run/systemd/system-preset",
    "/usr/lib/systemd/system-preset",
];

/// The directories in /lib that inventories read as those in /usr/lib.
const IN_LIB: [(&str, &str); 2] = [
    ("/lib/systemd/system", "/usr/lib/systemd/system"),
    (
        "/lib/systemd/system-preset",
        "/usr/lib/systemd/system-preset",
    ),
];

/// The identity of a directory, if it exists.
fn identity_of(
    rt: &HostRuntime,
    root: &mut Root,
    directory: &str,
) -> Result<Option<Identity>, Trouble> {
    match root.reach(rt, directory)? {
        Reached::There(here) => Ok(Some(here.identity)),
        Reached::Missing(_) | Reached::Nowhere => Ok(None),
    }
}

/// Whether /lib/systemd is a directory of its own. Its directories of units and of presets must be
/// those of /usr/lib/systemd.
pub(crate) fn has_own_lib(rt: &HostRuntime, root: &mut Root) -> Result<bool, Trouble> {
    for (in_lib, in_usr) in IN_LIB {
        let found = identity_of(rt, root, in_lib)?;
        if found.is_some() && found != identity_of(rt, root, in_usr)? {
            return Err(hindered(rt.alloc(), in_lib, Hindrance::SplitUsr));
        }
    }
    let lib = identity_of(rt, root, "/lib/systemd")?;
    Ok(lib.is_some() && lib != identity_of(rt, root, "/usr/lib/systemd")?)
}

/// Whether a directory doesn't exist, or has nothing in it.
fn is_without_entries(rt: &HostRuntime, root: &mut Root, directory: &str) -> Result<bool, Trouble> {
    match root.reach(rt, directory)? {
        Reached::There(_) => {
            let mut found = at(rt.alloc(), directory, fs::read_dir(rt, "."))?;
            Ok(found.next().is_none())
        }
        Reached::Missing(_) | Reached::Nowhere => Ok(true),
    }
}

/// Refuses a root whose configuration is in /usr/etc.
pub(crate) fn check_etc(rt: &HostRuntime, root: &mut Root) -> Result<(), Trouble> {
    if is_without_entries(rt, root, "/etc")? && !is_without_entries(rt, root, "/usr/etc")? {
        return Err(hindered(rt.alloc(), "/usr/etc", Hindrance::ConfigurationInUsr));
    }
    Ok(())
}
