//! Which notices commands report: a law for each command.
#![tactic(auto)]

mod laws;

pub use laws::{
    commands_on_slots_report_nothing, disable_reports_words_of_also,
    enable_reports_words_of_its_lists, no_two_notices_have_one_line,
    preset_reports_listed_instances_and_both_parts, reenable_reports_both_parts,
};
