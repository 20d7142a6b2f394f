//! Which units a distribution or an administrator wants enabled: systemd.preset(5).
#![tactic(auto)]

mod deciding;
mod file;
mod file_name;
mod laws;
mod line;
mod pattern;
mod policy;
mod rule;
mod winners;

pub use laws::{
    policies_agree, the_first_directory_wins, the_first_rule_decides, the_rest_is_disabled,
    without_presets_units_are_enabled,
};
pub use pattern::pattern_matches;
pub use policy::{Policy, Rules};
pub use rule::{Instances, Rule, Verdict};
