//! Tests of `kept_texts`.

mod faults;
mod large;
mod sample;
mod texts;
