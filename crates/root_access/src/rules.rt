//! The rules of calls.

/// The version of the rules by which calls change a tree. A history can be continued only under the
/// rules by which it was written.
pub const RULES: u32 = 1;
