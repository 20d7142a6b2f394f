pub(crate) mod changes;
mod entries;
mod keeping;
mod large;
pub(crate) mod names;
mod reading;
pub(crate) mod writing;
