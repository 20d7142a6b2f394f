//! Scripts whose operators work concurrently, each in a session with a thread of its own.
#![tactic(auto)]

mod fault;
mod operators;
mod serving;

pub use fault::SessionsFault;
pub use serving::run_with_sessions;

#[cfg(test)]
mod tests;
