//! The text of a history that is kept with a root: the inventory of its first tree, a header, and
//! for each run its calls between two lines of words and sums. A text that others changed is
//! refused, with the line at which a sum differs.
#![tactic(auto)]

mod faults;
mod inventories;
mod kept_text;
mod label;
mod laws;
mod line_words;
mod lines;
mod memory_sink;
mod reading;
mod runs;
mod sums;
mod text;
mod time;
mod words;

pub use faults::{LineFault, PushError, TextError};
pub use inventories::sum_of_slots;
pub use label::{Label, MAX_LABEL};
pub use laws::{accepted_lines_are_lines, lines_are_read_back, texts_are_read_back};
pub use reading::MAX_LINES;
pub use runs::Run;
pub use sums::Sum;
pub use text::KeptText;
pub use time::Time;
pub use words::{Header, RunWords};
