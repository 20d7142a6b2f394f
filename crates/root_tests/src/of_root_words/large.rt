//! All rows. They grow memory too often for a run with each growth refused.

use super::{answer, answered_rows, first_line, rows};
use root_words::{WordsError, read_words};
use std::alloc::{AllocError, Global};
use std::test::Fail;

#[test]
fn words_ask_for_calls(rt: HostRuntime) -> Result<(), Fail> {
    assert_eq!(rt; answered_rows(&rt, rows::ROWS)?, 400);
    Ok(())
}

fn words_of(alloc: Global, texts: &[&str]) -> Result<Vec<String>, AllocError> {
    let mut words = Vec::new(alloc);
    words.push(String::from_str(alloc, "unitroot")?)?;
    for text in texts {
        words.push(String::from_str(alloc, text)?)?;
    }
    Ok(words)
}

/// What the words make clap show.
fn shown(alloc: Global, texts: &[&str]) -> Result<String, AllocError> {
    let words = words_of(alloc, texts)?;
    match read_words(alloc, words.as_slice()) {
        Err(WordsError::Clap(e)) => format!(in alloc; "{e}"),
        _ => Ok(String::new(alloc)),
    }
}

fn widest(text: &str) -> usize {
    let mut most = 0;
    for line in text.split('\n') {
        most = most.max(line.chars().count());
    }
    most
}

/// The names of all commands.
const COMMANDS: &str = "list-unit-files enable disable reenable preset preset-all is-enabled mask \
    unmask link add-wants add-requires get-default set-default list-dependencies status place \
    remove run keep log show undo redo recover forget capture diff apply";

/// The number of commands whose help is wider than 80 columns, or has no example or no `--root`.
fn bad_helps(rt: &HostRuntime) -> Result<usize, Fail> {
    let mut count = 0usize;
    for name in COMMANDS.split(' ') {
        let help = shown(rt.alloc(), &[name, "--help"])?;
        let is_good = help.as_str().contains("\nExample:\n  unitroot --root=")
            && help.as_str().contains("--root <DIR>")
            && widest(help.as_str()) <= 80;
        if !is_good {
            eprintln!(rt; "{help}")?;
            count = count.saturating_add(1);
        }
    }
    Ok(count)
}

#[test]
fn help_fits_80_columns(rt: HostRuntime) -> Result<(), Fail> {
    let help = shown(rt.alloc(), &["--help"])?;
    assert_eq!(rt; widest(help.as_str()), 80);
    assert_eq!(rt; bad_helps(&rt)?, 0);
    let tip = shown(rt.alloc(), &["enabel", "a"])?;
    assert_eq!(rt; tip.as_str().contains("'is-enabled', 'enable'\n"), true);
    Ok(())
}

/// Whether a long word arrives as it is: as a name, and as a value.
fn long_word_arrives(alloc: Global) -> Result<bool, AllocError> {
    let mut word = String::new(alloc);
    for _step in 0..65537 {
        word.push('a')?;
    }
    let words = words_of(alloc, &["--as", word.as_str(), "mask", word.as_str()])?;
    let given = answer(alloc, words.as_slice())?;
    let wanted = format!(in alloc; "as=<{word}> mask <{word}>")?;
    Ok(given.as_str() == wanted.as_str() && first_line(given.as_str()).len() > 131074)
}

#[test]
fn long_words_arrive(rt: HostRuntime) -> Result<(), Fail> {
    assert_eq!(rt; long_word_arrives(rt.alloc())?, true);
    Ok(())
}
