//! The words and lines of scripts and of the texts of histories: how any bytes are written as one
//! word and read back, which number a word represents, and the laws of both.
#![tactic(auto)]

mod escapes;
mod laws;
mod numbers;

pub use escapes::{push_escaped, unescaped};
pub use laws::{any_text_is_a_word, numbers_are_digits};
pub use numbers::number_of;
