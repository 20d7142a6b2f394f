//! Tests of `kept_runs`.

mod memory_root;
mod runs;
mod samples;
