//! What `is-enabled` answers after a command: laws that combine questions with commands.
#![tactic(auto)]

mod laws;

pub use laws::{
    enabled_units_are_told_enabled, masked_units_are_told_masked,
    names_disabled_are_not_told_enabled,
};
