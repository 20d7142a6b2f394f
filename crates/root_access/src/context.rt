//! What all parts of a run on a root need.

use crate::failure::Failure;
use real_roots::at;
use root_words::Asked;
use std::fs;

/// What a run is asked for, and on which root.
#[derive(Clone, Copy)]
pub struct Context<'a> {
    pub rt: &'a HostRuntime,
    pub asked: &'a Asked,
    /// The root, as it was given.
    pub root: &'a str,
    /// Its canonical path, which doesn't depend on the working directory.
    pub path: &'a str,
}

/// The canonical path of a root.
///
/// Error: the system's own.
pub fn canonical_root(rt: &HostRuntime, root: &str) -> Result<String, Failure> {
    Ok(at(rt.alloc(), root, fs::canonicalize(rt, root))?.into_string())
}
