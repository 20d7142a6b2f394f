//! What the text of a history says of a run besides its calls.

use jiff::Timestamp;
use kept_texts::{Label, RunWords, Time};
use root_access::{Failure, RULES, read_some};
use std::env;
use std::time::{SystemTime, UNIX_EPOCH};

/// The program and its version.
const PROGRAM: &[u8] = b"unitroot-1";

/// The number in a variable of the environment, if it is one.
fn number_of(rt: &HostRuntime, name: &str) -> Option<i64> {
    let text = env::var(rt, name).ok()?;
    text.parse::<i64>().ok()
}

/// The seconds since 1970 of the system's clock, or 0 if it can't be read.
fn clock(rt: &HostRuntime) -> i64 {
    match SystemTime::now(rt) {
        Ok(now) => match now.duration_since(UNIX_EPOCH) {
            Ok(since) => i64::try_from(since.as_secs()).unwrap_or(0),
            Err(_) => 0,
        },
        Err(_) => 0,
    }
}

/// The time of a run, as `2026-12-01T08:30:05Z`: that of `SOURCE_DATE_EPOCH` if it is set, else that
/// of the system's clock.
fn time_of_run(rt: &HostRuntime) -> Result<Time, Failure> {
    let seconds = number_of(rt, "SOURCE_DATE_EPOCH").unwrap_or(clock(rt));
    let Ok(time) = Timestamp::from_second(seconds) else {
        return Err(Failure::BadTime);
    };
    let text = format!(in rt.alloc(); "{time}")?;
    match Time::parse(text.as_str().as_bytes()) {
        Some(time) => Ok(time),
        None => Err(Failure::BadTime),
    }
}

/// A text as a label. Nothing is known of what has no text, or a very long one.
pub fn label_of(rt: &HostRuntime, text: &[u8]) -> Result<Label, Failure> {
    let text = Vec::from_slice(rt.alloc(), text)?;
    if let Some(label) = Label::of_text(text) {
        return Ok(label);
    }
    match Label::of_text(Vec::from_slice(rt.alloc(), b"-")?) {
        Some(label) => Ok(label),
        None => Err(Failure::OutOfMemory),
    }
}

/// What a variable of the environment is, unless it is empty.
pub fn variable(rt: &HostRuntime, name: &str) -> Option<String> {
    match env::var(rt, name) {
        Ok(value) if !value.is_empty() => Some(value),
        _ => None,
    }
}

/// Who is logged in, by `SUDO_USER` or `LOGNAME`; `-` if neither says it.
fn login_of(rt: &HostRuntime) -> Result<Label, Failure> {
    let login = variable(rt, "SUDO_USER").or(variable(rt, "LOGNAME"));
    let login = match &login {
        Some(login) => login.as_str(),
        None => "-",
    };
    label_of(rt, login.as_bytes())
}

/// What is said of this run, or of what others did before it: its time, who is logged in, the
/// program.
///
/// Errors: no calendar has the time; out of memory.
pub fn words_of_run(rt: &HostRuntime, outside: bool) -> Result<RunWords, Failure> {
    Ok(RunWords {
        time: time_of_run(rt)?,
        login: login_of(rt)?,
        program: label_of(rt, PROGRAM)?,
        rules: RULES,
        outside,
    })
}

/// A random number by which a history differs from others.
pub fn new_id(rt: &HostRuntime) -> Result<[u8; 16], Failure> {
    let bytes = read_some(rt, "/dev/urandom", 16)?;
    let mut id = [0; 16];
    for (to, from) in id.iter_mut().zip(bytes.iter()) {
        *to = *from;
    }
    Ok(id)
}
