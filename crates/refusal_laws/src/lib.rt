//! Why commands are refused: laws that say which refusal is answered, and exactly when.
#![tactic(auto)]

mod laws;

pub use laws::{
    add_is_refused_for_these_reasons, enable_is_refused_for_these_reasons,
    link_is_refused_for_these_reasons, set_default_is_refused_for_these_reasons,
};
