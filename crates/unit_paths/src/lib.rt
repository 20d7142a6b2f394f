//! The paths of unit files and links: which texts are paths and targets, where a link leads, and
//! which paths are slots, at which commands place entries. systemd.unit(5), "Unit File Load Path".
#![tactic(auto)]

mod canonical_form;
mod compare;
mod fault;
mod laws;
mod part;
mod path;
mod place;
mod shape;
mod slot;
mod target;
mod text;

pub use canonical_form::{canonical, is_null_target};
pub use fault::{MAX_PATH, PathError, TargetError};
pub use laws::{
    bad_shapes_are_close_to_slots, links_lead_to_paths, paths_lie_beneath, slots_are_spelled,
    targets_lead_part_by_part,
};
pub use path::TreePath;
pub use place::{Place, Scope};
pub use slot::{Dependency, Slot};
pub use target::Target;
