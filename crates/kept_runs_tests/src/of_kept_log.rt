//! Tests of `kept_log`.

mod logs;
mod sample;
mod tables;
