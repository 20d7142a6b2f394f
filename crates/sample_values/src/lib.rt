//! Values from their texts, for tests with enough memory: each is made again if a growth was
//! refused.
//!
//! If a text isn't that of a value, or if memory runs out twice, the result is `AllocError`, and
//! the test fails.
#![tactic(auto)]

mod trees;
mod values;

pub use trees::tree;
pub use values::{file, link, name, path};
