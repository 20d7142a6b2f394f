//! What operations look at, as sets of keys: a law for each command and each question.
#![tactic(auto)]

mod laws;

pub use laws::{
    add_looks_its_units_up_and_at_their_slots, check_looks_its_units_up,
    closures_look_in_order_of_discovery, closures_look_their_units_up,
    dependencies_look_at_all_links, disable_looks_its_units_up_and_at_their_links,
    enable_looks_its_units_up_and_at_its_links, get_default_looks_its_target_up,
    is_enabled_looks_at_its_unit_and_its_links, link_follows_its_paths_and_looks_at_their_slots,
    mask_looks_at_its_slots, operations_look_at_what_they_change,
    other_operations_never_look_at_all_links, place_looks_at_its_slot,
    preset_looks_as_disable_and_then_as_enable, reenable_looks_as_disable_and_then_as_enable,
    remove_looks_at_its_slot, set_default_looks_its_unit_up_and_at_the_link,
    unmask_looks_at_its_slots,
};
