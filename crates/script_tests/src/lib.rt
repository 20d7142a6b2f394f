//! Tests of `unit_script`, from outside it: with tests of its own it would be proved twice. Those of
//! failing streams are of `link_tree`'s reader and writer too, and those of faults of sessions and of
//! runs with sessions are of `session_script`.
#![tactic(auto)]

#[cfg(test)]
mod actions;
#[cfg(test)]
mod bad_lines;
#[cfg(test)]
mod faults;
#[cfg(test)]
mod lines;
#[cfg(test)]
mod plans;
#[cfg(test)]
mod refusals;
#[cfg(test)]
mod replies;
#[cfg(test)]
mod session_faults;
#[cfg(test)]
mod stale_question;
#[cfg(test)]
mod streams;
#[cfg(test)]
mod verbs;
#[cfg(test)]
mod with_sessions;
