//! Commands that install units and undo that: systemctl(1), "Unit File Commands".
#![tactic(auto)]

mod check;
mod disable;
mod enable;
mod following;
mod judging;
mod laws;
mod preset;
mod reenable;

pub use check::Check;
pub use disable::Disable;
pub use enable::Enable;
pub use laws::{
    disable_again_changes_nothing, disable_removes_what_belongs_to_the_names,
    disable_takes_enabled_units_away, enable_again_changes_nothing, enable_joins_the_wanted_links,
    preset_again_changes_nothing, preset_is_disable_and_then_enable,
    preset_judges_by_the_first_tree, preset_without_rules_enables_and_under_disable_all_disables,
    reenable_is_disable_and_then_enable, reenable_keeps_the_ways_to_linked_units,
    reenable_of_enabled_units_changes_nothing, the_first_unit_amiss_is_refused,
};
pub use preset::Preset;
pub use reenable::Reenable;
