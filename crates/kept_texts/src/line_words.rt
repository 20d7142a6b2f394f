//! What the lines of a history that aren't calls say. A line says some words if it is the line
//! that is written for them: what its parts may mean is found first, and then it is written again.
ghost use Rattle.std.specs.Prelude.{◌≡◌, ◌+◌, length, map as list_map, IfOk, IfSome};
ghost use Rattle.std.specs.Option.{option_map};
ghost use Rattle.std.specs.Str.{bytes_eq};
ghost use Rattle.kept_texts.specs.Lines.{header_line, run_line, end_line};
ghost use Rattle.kept_texts.specs.Sayings.{parts_of, after_key, label_of_word, label_after, number_after, id_after, sum_after, header_of_parts, header_meant, run_of_parts, run_meant, end_of_parts, end_meant, header_said, run_said, end_said};

use crate::label::Label;
use crate::lines::{push_end, push_header, push_run_line, push_text_sum};
use crate::sums::{Sum, id_bytes, sum_bytes};
use crate::time::Time;
use crate::words::{Header, RunWords};
use script_words::{number_of, unescaped};
use std::alloc::{AllocError, Global};

/// A header and the sum at its end.
#[derive(Debug, Drop)]
pub(crate) struct HeaderLine {
    pub(crate) header: Header,
    pub(crate) sum: Sum,
}

/// The sums in the last line of a run.
#[derive(Clone, Copy, Debug)]
pub(crate) struct EndLine {
    pub(crate) tree: Sum,
    pub(crate) sum: Sum,
}

/// What follows a key.
pub(crate) fn after_key<'a>(key: &[u8], part: &'a [u8]) -> Option<&'a [u8]>
    ensures rest { option_map (λ rest. rest.now) result ≡ after_key key.now part.now }
    ensures within { IfSome result (λ rest. length key.now + length rest.now ≡ length part.now) }
{
    if part.starts_with(key) {
        Some(&part[key.len()..])
    } else {
        None
    }
}

fn label_of(alloc: Global, word: &[u8]) -> Result<Option<Label>, AllocError>
    ensures { IfOk result (λ label. label ≡ label_of_word word.now) }
{
    match unescaped(alloc, word)? {
        Some(text) => Ok(Label::of_text(text)),
        None => Ok(None),
    }
}

fn label_after(alloc: Global, key: &[u8], part: &[u8]) -> Result<Option<Label>, AllocError>
    ensures { IfOk result (λ label. label ≡ label_after key.now part.now) }
{
    match after_key(key, part) {
        Some(word) => label_of(alloc, word),
        None => Ok(None),
    }
}

fn number_after(key: &[u8], part: &[u8]) -> Option<u32>
    ensures { result ≡ number_after key.now part.now }
{
    number_of(after_key(key, part)?)
}

fn sum_after(key: &[u8], part: &[u8]) -> Option<Sum>
    ensures { result ≡ sum_after key.now part.now }
{
    let bytes = sum_bytes(after_key(key, part)?)?;
    Some(Sum { bytes })
}

fn id_after(key: &[u8], part: &[u8]) -> Option<[u8; 16]>
    ensures { result ≡ id_after key.now part.now }
{
    id_bytes(after_key(key, part)?)
}

/// The parts of a line between its spaces.
#[tactic(auto, unfolding(crate::specs::Sayings::parts_of))]
fn parts_of<'a>(alloc: Global, line: &'a [u8]) -> Result<Vec<&'a [u8]>, AllocError>
    ensures { IfOk result (λ parts. list_map (λ part. part.now) parts.items ≡ parts_of line.now) }
{
    line.split(|b| *b == b' ').collect(alloc)
}

fn header_of_parts(
    alloc: Global,
    id: &[u8],
    root: &[u8],
    text: &[u8],
) -> Result<Option<HeaderLine>, AllocError>
    ensures { IfOk result (λ words. words ≡ header_of_parts id.now root.now text.now) }
{
    let Some(id) = id_after(b"id=", id) else {
        return Ok(None);
    };
    let Some(sum) = sum_after(b"text=sha256:", text) else {
        return Ok(None);
    };
    match label_after(alloc, b"root=", root)? {
        Some(root) => Ok(Some(HeaderLine {
            header: Header { id, root },
            sum,
        })),
        None => Ok(None),
    }
}

fn header_meant(alloc: Global, parts: &[&[u8]]) -> Result<Option<HeaderLine>, AllocError>
    ensures { IfOk result (λ words. words ≡ header_meant (list_map (λ part. part.now) parts.now)) }
{
    match parts {
        [_, _, _, id, root, text] => header_of_parts(alloc, id, root, text),
        _ => Ok(None),
    }
}

fn run_of_parts(
    alloc: Global,
    time: &[u8],
    login: &[u8],
    program: &[u8],
    rules: &[u8],
    outside: bool,
) -> Result<Option<RunWords>, AllocError>
    ensures { IfOk result (λ words. words ≡ run_of_parts time.now login.now program.now rules.now outside) }
{
    let Some(time) = Time::parse(time) else {
        return Ok(None);
    };
    let Some(rules) = number_after(b"rules=", rules) else {
        return Ok(None);
    };
    let Some(login) = label_after(alloc, b"login=", login)? else {
        return Ok(None);
    };
    match label_after(alloc, b"program=", program)? {
        Some(program) => Ok(Some(RunWords {
            time,
            login,
            program,
            rules,
            outside,
        })),
        None => Ok(None),
    }
}

fn run_meant(alloc: Global, parts: &[&[u8]]) -> Result<Option<RunWords>, AllocError>
    ensures { IfOk result (λ words. words ≡ run_meant (list_map (λ part. part.now) parts.now)) }
{
    match parts {
        [_, _, time, login, program, rules, rest @ ..] => {
            run_of_parts(alloc, time, login, program, rules, !rest.is_empty())
        }
        _ => Ok(None),
    }
}

fn end_of_parts(tree: &[u8], text: &[u8]) -> Option<EndLine>
    ensures { result ≡ end_of_parts tree.now text.now }
{
    let tree = sum_after(b"tree=sha256:", tree)?;
    let sum = sum_after(b"text=sha256:", text)?;
    Some(EndLine { tree, sum })
}

fn end_meant(parts: &[&[u8]]) -> Option<EndLine>
    ensures { result ≡ end_meant (list_map (λ part. part.now) parts.now) }
{
    match parts {
        [_, _, tree, text] => end_of_parts(tree, text),
        _ => None,
    }
}

fn is_header_line(alloc: Global, line: &[u8], words: &HeaderLine) -> Result<bool, AllocError>
    ensures { IfOk result (λ is. is ≡ bytes_eq (header_line words.now) line.now) }
{
    let mut written = Vec::new(alloc);
    push_header(&mut written, &words.header)?;
    push_text_sum(&mut written, &words.sum)?;
    Ok(written.as_slice() == line)
}

fn is_run_line(alloc: Global, line: &[u8], words: &RunWords) -> Result<bool, AllocError>
    ensures { IfOk result (λ is. is ≡ bytes_eq (run_line words.now) line.now) }
{
    let mut written = Vec::new(alloc);
    push_run_line(&mut written, words)?;
    Ok(written.as_slice() == line)
}

fn is_end_line(alloc: Global, line: &[u8], words: &EndLine) -> Result<bool, AllocError>
    ensures { IfOk result (λ is. is ≡ bytes_eq (end_line words.now) line.now) }
{
    let mut written = Vec::new(alloc);
    push_end(&mut written, &words.tree)?;
    push_text_sum(&mut written, &words.sum)?;
    Ok(written.as_slice() == line)
}

/// The words of which a line is the header line.
#[tactic(auto, unfolding(crate::specs::Sayings::header_said))]
pub(crate) fn header_said(alloc: Global, line: &[u8]) -> Result<Option<HeaderLine>, AllocError>
    ensures { IfOk result (λ words. words ≡ header_said line.now) }
{
    let parts = parts_of(alloc, line)?;
    let Some(words) = header_meant(alloc, &parts)? else {
        return Ok(None);
    };
    if is_header_line(alloc, line, &words)? {
        Ok(Some(words))
    } else {
        Ok(None)
    }
}

/// The words of which a line is the first line of a run.
#[tactic(auto, unfolding(crate::specs::Sayings::run_said))]
pub(crate) fn run_said(alloc: Global, line: &[u8]) -> Result<Option<RunWords>, AllocError>
    ensures { IfOk result (λ words. words ≡ run_said line.now) }
{
    let parts = parts_of(alloc, line)?;
    let Some(words) = run_meant(alloc, &parts)? else {
        return Ok(None);
    };
    if is_run_line(alloc, line, &words)? {
        Ok(Some(words))
    } else {
        Ok(None)
    }
}

/// The sums of which a line is the last line of a run.
#[tactic(auto, unfolding(crate::specs::Sayings::end_said))]
pub(crate) fn end_said(alloc: Global, line: &[u8]) -> Result<Option<EndLine>, AllocError>
    ensures { IfOk result (λ words. words ≡ end_said line.now) }
{
    let parts = parts_of(alloc, line)?;
    let Some(words) = end_meant(&parts) else {
        return Ok(None);
    };
    if is_end_line(alloc, line, &words)? {
        Ok(Some(words))
    } else {
        Ok(None)
    }
}
