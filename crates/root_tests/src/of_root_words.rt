//! What words ask for, as rows of words and texts.

mod answers;
mod fields;
mod large;
mod rows;

use answers::push_asked;
use fields::{row_words, unescaped};
use root_words::{WordsError, read_words};
use std::alloc::{AllocError, Global};
use std::test::Fail;

/// The first line of a text.
fn first_line(text: &str) -> &str {
    match text.split_once('\n') {
        Some((line, _)) => line,
        None => text,
    }
}

fn push_error(alloc: Global, text: &mut String, error: &WordsError) -> Result<(), AllocError> {
    let status = error.status();
    match error {
        WordsError::Clap(e) => {
            let shown = format!(in alloc; "{e}")?;
            let line = first_line(shown.as_str());
            write!(text, "{status} clap {line}")
        }
        WordsError::Refused(sentence) => write!(text, "{status} {sentence}"),
        WordsError::OutOfMemory => Err(AllocError),
    }
}

/// What the words ask for as one line, or the status and the first line of the error.
fn answer(alloc: Global, words: &[String]) -> Result<String, AllocError> {
    let mut text = String::new(alloc);
    match read_words(alloc, words) {
        Ok(asked) => push_asked(&mut text, &asked)?,
        Err(e) => push_error(alloc, &mut text, &e)?,
    }
    Ok(text)
}

/// What the words of a row give, if it isn't the row's answer.
fn other_answer(alloc: Global, row: &str) -> Result<Option<String>, AllocError> {
    let (words, answer_text) = row.split_once(" => ").unwrap_or((row, ""));
    let words = row_words(alloc, words)?;
    let given = answer(alloc, words.as_slice())?;
    let wanted = unescaped(alloc, answer_text)?;
    Ok(if given.as_str() == wanted.as_str() {
        None
    } else {
        Some(given)
    })
}

/// As `other_answer`, once more if a growth was refused.
fn ample_other_answer(alloc: Global, row: &str) -> Result<Option<String>, AllocError> {
    match other_answer(alloc, row) {
        Ok(other) => Ok(other),
        Err(_) => other_answer(alloc, row),
    }
}

/// The number of rows whose words give their answer. The other rows are printed.
fn answered_rows(rt: &HostRuntime, rows: &str) -> Result<usize, Fail> {
    let mut count = 0usize;
    for row in rows.split('\n') {
        if row.is_empty() || row.starts_with('#') {
            continue;
        }
        match ample_other_answer(rt.alloc(), row)? {
            None => count = count.saturating_add(1),
            Some(other) => eprintln!(rt; "{row}\n  gives {other}")?,
        }
    }
    Ok(count)
}

/// One command line, asked for again if a growth was refused.
#[test]
fn refused_growths_are_reported(rt: HostRuntime) -> Result<(), Fail> {
    let row = "--root=/r | place | /p | file | a b | --as=anna => \
        root=</r> as=<anna> place </p> <file> <a b>";
    assert_eq!(rt; answered_rows(&rt, row)?, 1);
    Ok(())
}
