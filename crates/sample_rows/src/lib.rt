//! Rows of tests: a text with a line for each row, instead of a test function for each.
//!
//! A row is KIND, ONE, TWO and ANSWER, with tabs between them. In these, `\n`, `\r`, `\t`, `\\` and
//! `\xHH` are one byte each. Fields that are missing at the end are empty. Empty lines and lines
//! that begin with `#` aren't rows.
#![tactic(auto)]

mod answers;
mod fields;
mod running;

pub use answers::{is, number_of, yes_or_no};
pub use fields::Row;
pub use running::{assert_rows, unlike};
