//! What was given: before the command, and after it.

use crate::asked::{How, Output};
use crate::building::{FIRST, SECOND, THIRD, WORDS};
use clap::ArgMatches;
use std::alloc::{AllocError, Global};

/// The options before the command, and the options and words after it.
#[derive(Clone, Copy)]
pub(crate) struct Given<'m, 'a, 'b> {
    pub before: &'m ArgMatches<'a>,
    pub after: &'m ArgMatches<'b>,
}

/// Adds copies of these texts.
fn push_texts(
    texts: &mut Vec<String>,
    added: Option<&[&str]>,
    alloc: Global,
) -> Result<(), AllocError> {
    for text in added.unwrap_or(&[]) {
        texts.push(String::from_str(alloc, text)?)?;
    }
    Ok(())
}

fn push_text(
    texts: &mut Vec<String>,
    added: Option<&str>,
    alloc: Global,
) -> Result<(), AllocError> {
    match added {
        Some(text) => {
            texts.push(String::from_str(alloc, text)?)?;
            Ok(())
        }
        None => Ok(()),
    }
}

/// Whether `--legend=BOOL` or `--no-legend` says that there is a legend, if either is given.
fn legend_of(matches: &ArgMatches<'_>) -> Option<bool> {
    if matches.get_flag("no-legend") {
        Some(false)
    } else {
        matches.get_one::<bool>("legend")
    }
}

impl<'m, 'a, 'b> Given<'m, 'a, 'b> {
    /// Whether this option without a value is given.
    pub(crate) fn flag(&self, option: &str) -> bool {
        self.before.get_flag(option) || self.after.get_flag(option)
    }

    /// The last value of this option.
    pub(crate) fn last(&self, option: &str) -> Option<&'m str> {
        match self.after.get_str(option) {
            Some(value) => {
                let value: &'m str = value;
                Some(value)
            }
            None => {
                let value: &'m str = self.before.get_str(option)?;
                Some(value)
            }
        }
    }

    /// As `last`, for keeps.
    pub(crate) fn text(&self, alloc: Global, option: &str) -> Result<Option<String>, AllocError> {
        match self.last(option) {
            Some(value) => Ok(Some(String::from_str(alloc, value)?)),
            None => Ok(None),
        }
    }

    /// All values of this option.
    pub(crate) fn all(&self, alloc: Global, option: &str) -> Result<Vec<String>, AllocError> {
        let mut texts = Vec::new(alloc);
        push_texts(&mut texts, self.before.get_strs(option), alloc)?;
        push_texts(&mut texts, self.after.get_strs(option), alloc)?;
        Ok(texts)
    }

    /// The one word after the command, or the first one, if there is one.
    pub(crate) fn word(&self) -> Option<&'b str> {
        self.after.get_str(FIRST)
    }

    /// As `word`, for keeps, and empty if there is none.
    pub(crate) fn first(&self, alloc: Global) -> Result<String, AllocError> {
        String::from_str(alloc, self.word().unwrap_or(""))
    }

    /// The word after the command, if there is one and it isn't `-`.
    pub(crate) fn file(&self, alloc: Global) -> Result<Option<String>, AllocError> {
        match self.word() {
            None => Ok(None),
            Some("-") => Ok(None),
            Some(word) => Ok(Some(String::from_str(alloc, word)?)),
        }
    }

    /// The words after the command, without the first of a command that has one.
    pub(crate) fn words(&self, alloc: Global) -> Result<Vec<String>, AllocError> {
        let mut words = Vec::new(alloc);
        push_texts(&mut words, self.after.get_strs(WORDS), alloc)?;
        Ok(words)
    }

    /// The words of `place`.
    pub(crate) fn placed(&self, alloc: Global) -> Result<Vec<String>, AllocError> {
        let mut words = Vec::new(alloc);
        push_text(&mut words, self.word(), alloc)?;
        push_text(&mut words, self.after.get_str(SECOND), alloc)?;
        push_text(&mut words, self.after.get_str(THIRD), alloc)?;
        Ok(words)
    }

    /// How changes are made.
    pub(crate) fn how(&self) -> How {
        How {
            dry_run: self.flag("dry-run"),
            keep_going: self.flag("keep-going"),
            vendor: self.flag("vendor"),
        }
    }

    /// What is printed. `--quiet` leaves the legend out too, unless it is asked for.
    pub(crate) fn output(&self) -> Output {
        let quiet = self.flag("quiet");
        let legend = match legend_of(self.after) {
            Some(legend) => legend,
            None => legend_of(self.before).unwrap_or(!quiet),
        };
        Output {
            quiet,
            json: self.flag("json"),
            legend,
        }
    }
}
