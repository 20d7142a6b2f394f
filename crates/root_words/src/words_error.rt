//! Why a command line was not read.
ghost use Rattle.std.specs.Prelude.{◌≡◌};
ghost use Rattle.root_words.specs.Statuses.{of_clap, status_of};
ghost use Rattle.root_words.specs.declared.words_error.WordsError.TheVariants.{OutOfMemory};

use clap::Error as ClapError;
use clap::error::ErrorKind;
use std::alloc::{AllocError, AllocFailed, Global};
use thiserror::Error;

/// Why a command line was not read.
#[derive(Debug, Drop, Error)]
pub enum WordsError {
    /// `--help`, `--version`, or words that clap refuses, with the text to show. That of help and
    /// of the version is for standard output.
    #[error("{0}")]
    Clap(ClapError),
    /// What `unitroot` doesn't do, as a sentence without a stop.
    #[error("{0}")]
    Refused(String),
    #[error("out of memory")]
    OutOfMemory,
}

impl From<AllocError> for WordsError {
    ghost from_gives = { λ _ e. e ≡ OutOfMemory };

    fn from(_e: AllocError) -> WordsError {
        WordsError::OutOfMemory
    }
}

impl<T: Drop> From<AllocFailed<T>> for WordsError {
    ghost from_gives = { λ _ e. e ≡ OutOfMemory };

    fn from(_e: AllocFailed<T>) -> WordsError {
        WordsError::OutOfMemory
    }
}

impl From<ClapError> for WordsError {
    ghost from_gives = { λ e error. error ≡ of_clap e };

    fn from(e: ClapError) -> WordsError {
        match e.kind() {
            ErrorKind::OutOfMemory => WordsError::OutOfMemory,
            _ => WordsError::Clap(e),
        }
    }
}

impl WordsError {
    /// The status with which the program ends: 0 after help and the version, 1 if memory ran out,
    /// 2 after bad words and what `unitroot` doesn't do.
    pub fn status(&self) -> u8
        ensures { result ≡ status_of self.now }
    {
        match self {
            WordsError::Clap(e) => match e.kind() {
                ErrorKind::DisplayHelp => 0,
                ErrorKind::DisplayVersion => 0,
                ErrorKind::OutOfMemory => 1,
                _ => 2,
            },
            WordsError::Refused(_) => 2,
            WordsError::OutOfMemory => 1,
        }
    }

    /// What `unitroot` doesn't do, as this sentence says.
    pub(crate) fn refused(alloc: Global, sentence: &str) -> WordsError {
        match String::from_str(alloc, sentence) {
            Ok(text) => WordsError::Refused(text),
            Err(e) => WordsError::from(e),
        }
    }

    /// As `refused`: the sentence is these texts, one after another.
    pub(crate) fn refused_words(alloc: Global, texts: &[&str]) -> WordsError {
        match joined(alloc, texts) {
            Ok(text) => WordsError::Refused(text),
            Err(e) => WordsError::from(e),
        }
    }
}

fn joined(alloc: Global, texts: &[&str]) -> Result<String, AllocError> {
    let mut all = String::new(alloc);
    for text in texts {
        all.push_str(text)?;
    }
    Ok(all)
}
