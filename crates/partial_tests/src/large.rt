//! Scripts on roots of twenty entries and more. They grow memory too often for a run with each
//! growth refused.

mod chains;
mod scripts;
