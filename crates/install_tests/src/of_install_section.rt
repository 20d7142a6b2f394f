mod aliases;
mod closures;
mod large;
mod links;
mod units;

pub(crate) use units::{closed, names};
