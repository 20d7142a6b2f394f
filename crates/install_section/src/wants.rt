//! What units want, as far as it is known.
ghost use Rattle.std.specs.Prelude.{◌≡◌, OnOk, IfOk};
ghost use Rattle.std.specs.FinMap as map;
ghost use Rattle.unit_paths.specs.Slots.{is_slot};
ghost use Rattle.install_section.specs.declared.wants.WantedError.TheVariants as errors;

use crate::links::Links;
use link_tree::TreePath;
use std::alloc::{AllocError, Global};
use unit_file::Notices;
use unit_name::UnitName;

/// What the units so far want, and what is wrong with it.
#[derive(Debug, Drop)]
pub(crate) struct Wants {
    pub links: Links,
    pub notices: Notices,
    /// The least unit that would need an instance.
    pub nameless: Option<UnitName>,
    /// The least path that is wanted with two targets.
    pub clash: Option<TreePath>,
}

/// The links that units want, and the notices about the words that were skipped.
#[derive(Debug, Drop)]
pub struct Wanted {
    pub links: Links,
    /// A notice for each word of `WantedBy=`, `RequiredBy=`, `UpheldBy=` and `Alias=` that asks for
    /// no link.
    pub notices: Notices,
}

/// Why units can't be enabled.
#[derive(Debug, Drop)]
pub enum WantedFault {
    /// A word of this template asks for a link to an instance of it, but it has no default
    /// instance. It is the least such unit, in byte order.
    NeedsInstance(UnitName),
    /// Two links to different files are wanted at this path. It is the least such path, in byte
    /// order.
    Clash(TreePath),
}

/// Why `wanted` returns no links.
#[derive(Debug, Drop)]
pub enum WantedError {
    /// See `WantedFault`.
    NeedsInstance(UnitName),
    /// See `WantedFault`.
    Clash(TreePath),
    /// Memory ran out.
    OutOfMemory,
}

impl From<AllocError> for WantedError {
    ghost from_gives = { λ _ e. e ≡ errors.OutOfMemory };

    fn from(_e: AllocError) -> WantedError {
        WantedError::OutOfMemory
    }
}
