//! The names of units: systemd.unit(5), "Description" and "Specifiers".
#![tactic(auto)]

mod ample;
mod compare;
mod cut;
mod fault;
mod kind;
mod laws;
mod name;
mod part;
mod specifier;

pub use fault::{ExpandError, InstanceError, InstanceFault, MAX_NAME, NameError, NameFault};
pub use kind::{Kind, UnitType};
pub use laws::{
    instances_keep_the_rest, names_have_no_fault, parts_are_read, words_are_expanded_by_pieces,
};
pub use name::{UnitName, is_unit_name, kind_in};
pub use specifier::expand;
