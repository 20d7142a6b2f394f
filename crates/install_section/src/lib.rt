//! Which units are enabled together, and which links they want: systemd.unit(5), "[Install] Section
//! Options".
#![tactic(auto)]

mod closed;
mod closing;
mod laws;
mod links;
mod members;
mod section;
mod wanting;
mod wants;
mod wish;
mod word;

pub use closed::{Closed, Closure, ClosureError, ClosureFault};
pub use closing::{closure, closure_into};
pub use laws::{
    clash_is_the_least, closure_is_least, instance_is_needed_by_the_least, links_are_asked_for,
    notices_are_of_skipped_words, notices_of_links_are_of_skipped_words,
    order_of_given_units_is_free, refused_where_too_many, sections_look_no_further,
};
pub use links::Links;
pub use members::{MAX_UNITS, Members};
pub use section::{Section, section_into};
pub use wanting::{wanted, wanted_into};
pub use wants::{Wanted, WantedError, WantedFault};
