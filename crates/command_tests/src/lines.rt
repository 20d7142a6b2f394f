//! Lines as users write them: a verb, options and arguments, separated by spaces. And lines of
//! answers.
use footprint::Units;
use link_tree::Scope;
use sample_values::name;
use std::alloc::{AllocError, Global};

/// What is before the first of these bytes, and what is after it.
fn cut(text: &[u8], at: u8) -> (&[u8], &[u8]) {
    let mut parts = text.splitn(2, |b| *b == at);
    let before = parts.next().unwrap_or(b"");
    (before, parts.next().unwrap_or(b""))
}

/// The first word, and those that follow it.
pub(crate) fn first_word(words: &[u8]) -> (&[u8], &[u8]) {
    cut(words, b' ')
}

/// What the verb is given.
pub(crate) fn arguments(line: &[u8]) -> &[u8] {
    first_word(line).1
}

/// Whether the line has this verb.
pub(crate) fn has_verb(line: &[u8], verb: &[u8]) -> bool {
    first_word(line).0 == verb
}

/// The lines before and after a comma.
pub(crate) fn two_lines(line: &[u8]) -> (&[u8], &[u8]) {
    let (first, second) = cut(line, b',');
    (first, second.trim_ascii_start())
}

/// Whether the two lines have these verbs.
pub(crate) fn have_verbs(line: &[u8], verb: &[u8], other: &[u8]) -> bool {
    let (first, second) = two_lines(line);
    has_verb(first, verb) && has_verb(second, other)
}

/// The scope by the option that words may begin with, and the other words.
pub(crate) fn scope_of(words: &[u8]) -> (Scope, &[u8]) {
    match words.strip_prefix(b"--runtime ") {
        Some(rest) => (Scope::Run, rest),
        None => (Scope::Etc, words),
    }
}

/// The units with these names.
pub(crate) fn units(alloc: Global, names: &[u8]) -> Result<Units, AllocError> {
    let mut units = Units::none(alloc);
    for text in names.split(|b| *b == b' ') {
        units.push(name(alloc, text)?)?;
    }
    Ok(units)
}

/// The scope and the units that a line names.
pub(crate) fn scope_and_units(alloc: Global, line: &[u8]) -> Result<(Scope, Units), AllocError> {
    let (scope, names) = scope_of(arguments(line));
    Ok((scope, units(alloc, names)?))
}

/// A line, with its end.
pub(crate) fn push_line(out: &mut Vec<u8>, front: &[u8], text: &[u8]) -> Result<(), AllocError> {
    out.extend_from_slice(front)?;
    out.extend_from_slice(text)?;
    out.extend_from_slice(b"\n")
}

/// A text of lines without its last line end, which it must have.
pub(crate) fn without_last_end(text: Vec<u8>) -> Result<Vec<u8>, AllocError> {
    let mut text = text;
    match text.last() {
        Some(b'\n') => text.truncate(text.len() - 1),
        Some(_) => text.extend_from_slice(b" (no line end)")?,
        None => {}
    }
    Ok(text)
}
