//! Times as they are shown and given: in the local zone.

use jiff::Timestamp;
use jiff::civil::DateTime;
use jiff::tz::{SystemTimeZone, TimeZone, TimeZoneDatabase};
use kept_texts::Time;
use std::alloc::{AllocError, Global};

/// The time zone of the system.
#[derive(Drop)]
pub struct LocalZone {
    /// None if the system doesn't say which: then it is UTC.
    system: Option<SystemTimeZone>,
    database: TimeZoneDatabase,
}

/// The zones of the system's files, if they are needed for this one: a zone that the environment
/// names. All files are read then.
fn database_for(rt: &HostRuntime, system: &SystemTimeZone) -> TimeZoneDatabase {
    let none = TimeZoneDatabase::new(rt.alloc());
    let is_known = system.time_zone(&none).is_ok();
    if is_known {
        return none;
    }
    match TimeZoneDatabase::from_env(rt) {
        Ok(database) => database,
        Err(_) => none,
    }
}

impl LocalZone {
    /// Reads which zone it is. The root must not be locked yet, since a relative path is resolved in
    /// the working directory.
    pub fn read(rt: &HostRuntime) -> LocalZone {
        match SystemTimeZone::read(rt) {
            Ok(system) => {
                let database = database_for(rt, &system);
                LocalZone {
                    system: Some(system),
                    database,
                }
            }
            Err(_) => LocalZone {
                system: None,
                database: TimeZoneDatabase::new(rt.alloc()),
            },
        }
    }

    fn time_zone(&self) -> TimeZone<'_> {
        match &self.system {
            Some(system) => system.time_zone(&self.database).unwrap_or(TimeZone::UTC),
            None => TimeZone::UTC,
        }
    }

    /// A time as it is shown: `2026-11-24 10:12:03`. One that no calendar has is shown as it is
    /// kept.
    pub fn shown(&self, alloc: Global, time: &Time) -> Result<Vec<u8>, AllocError> {
        let Some(timestamp) = timestamp_of(time.text()) else {
            return Vec::from_slice(alloc, time.text());
        };
        let local = self.time_zone().to_datetime(timestamp);
        let text = format!(in alloc; "{local}")?;
        let mut shown = Vec::new(alloc);
        for b in text.as_str().as_bytes() {
            shown.push(if *b == b'T' { b' ' } else { *b })?;
        }
        Ok(shown)
    }

    /// The time in UTC of a date and a time of this zone.
    fn in_utc(&self, alloc: Global, local: &[u8]) -> Result<Option<Time>, AllocError> {
        let Some(local) = datetime_of(local) else {
            return Ok(None);
        };
        match self.time_zone().to_timestamp(local) {
            Ok(timestamp) => {
                let text = format!(in alloc; "{timestamp}")?;
                Ok(Time::parse(text.as_str().as_bytes()))
            }
            Err(_) => Ok(None),
        }
    }

    /// The time that a word of `--since` names, if it names one.
    pub fn time_of(&self, alloc: Global, word: &[u8]) -> Result<Option<Time>, AllocError> {
        if let Some(local) = local_of(alloc, word)? {
            return self.in_utc(alloc, &local);
        }
        match timestamp_of(word) {
            Some(_) => Ok(Time::parse(word)),
            None => Ok(None),
        }
    }
}

fn timestamp_of(text: &[u8]) -> Option<Timestamp> {
    let text = str::from_utf8(text).ok()?;
    text.parse::<Timestamp>().ok()
}

fn datetime_of(text: &[u8]) -> Option<DateTime> {
    let text = str::from_utf8(text).ok()?;
    text.parse::<DateTime>().ok()
}

/// Whether a text has digits where the form has zeros, and is like the form elsewhere.
fn has_form(text: &[u8], form: &[u8]) -> bool {
    text.len() == form.len()
        && text.iter().zip(form.iter()).all(|(b, c)| {
            if *c == b'0' {
                b.is_ascii_digit()
            } else {
                *b == *c
            }
        })
}

/// A date and a time with a `T` between them, from this text before it and this one after it.
fn joined(alloc: Global, date: &[u8], time: &[u8]) -> Result<Vec<u8>, AllocError> {
    let mut text = Vec::from_slice(alloc, date)?;
    text.push(b'T')?;
    text.extend_from_slice(time)?;
    Ok(text)
}

/// The date and the time that a word of `--since` names in the local zone. A day begins at midnight.
fn local_of(alloc: Global, word: &[u8]) -> Result<Option<Vec<u8>>, AllocError> {
    if has_form(word, b"0000-00-00") {
        return Ok(Some(joined(alloc, word, b"00:00:00")?));
    }
    if has_form(word, b"0000-00-00 00:00") || has_form(word, b"0000-00-00 00:00:00") {
        let date = word.get(..10).unwrap_or(&[]);
        let time = word.get(11..).unwrap_or(&[]);
        return Ok(Some(joined(alloc, date, time)?));
    }
    Ok(None)
}
