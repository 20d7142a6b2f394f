//! Lines of scripts that are refused: which word is at fault, and what would be right.

use super::is;
use byte_streams::ReadError;
use root_runs::{Hint, bad_lines, bad_word_at, call_lines, push_line_fault, push_shown};
use sample_rows::{Row, assert_rows};
use std::alloc::{AllocError, Global};
use std::test::Fail;
use unit_script::{Reason, call_of_words};

/// A line, and the reason for which it is refused, the word at fault in brackets, and the hint.
const ROWS: &[u8] = b"\
    line\talice enable ssh.service\t\taccepted\n\
    line\tAlice enable ssh.service\t\tbad operator [Alice]\n\
    line\talice\t\tunknown verb\n\
    line\talice fly\t\tunknown verb [fly]\n\
    line\tenable ssh.service\t\t\
        unknown verb [ssh.service]: enable is a verb: the operator is missing\n\
    line\tenable enable ssh.service\t\taccepted\n\
    line\talice start ssh.service\t\tunknown verb [start]: a verb of running machines\n\
    line\talice daemon-reload\t\tunknown verb [daemon-reload]: a verb of running machines\n\
    line\talice --now enable ssh.service\t\tunknown verb [--now]: unknown option\n\
    line\talice enable\t\twrong arguments\n\
    line\talice enable ssh.service ssh\t\t\
        bad name [ssh]: names have a suffix, ssh.service?\n\
    line\talice enable --runtime ssh\t\tbad name [ssh]: names have a suffix, ssh.service?\n\
    line\talice enable --now ssh.service\t\tbad name [--now]: unknown option\n\
    line\talice enable ssh.service --runtime\t\tbad name [--runtime]: unknown option\n\
    line\talice set-default --runtime\t\tbad name [--runtime]: unknown option\n\
    line\talice is-enabled /home\t\tbad name [/home]\n\
    line\talice dependencies --reverse x\t\tbad name [x]: names have a suffix, x.service?\n\
    line\talice dependencies --reverse --reverse\t\tbad name [--reverse]: unknown option\n\
    line\talice dependencies --runtime\t\tbad name [--runtime]: unknown option\n\
    line\talice add-wants m.target x.service y\t\tbad name [y]: names have a suffix, y.service?\n\
    line\talice mask a\\x1bb.service\t\tbad name [a\\\\x1bb.service]\n\
    line\talice link /a b\t\tbad path [b]\n\
    line\talice link --runtime --runtime\t\tbad path [--runtime]: unknown option\n\
    line\talice remove --runtime\t\tbad path [--runtime]: unknown option\n\
    line\talice place x link y\t\tbad path [x]\n\
    line\talice place /x link \\x00\t\tbad target [\\\\x00]\n\
    line\talice place /x file \\\\\t\tbad text [\\\\]\n\
    line\talice place /x file\t\taccepted\n\
    line\talice undo x\t\tbad number [x]\n\
    line\talice redo 4294967296\t\tbad number [4294967296]\n\
    long\t\t\tnone\n\
    \n\
    # the bad lines of a script, and the numbers of those with a call\n\
    longest line\t\t\t\n\
    # the reason, 200 bytes of the line, and two back quotes\n\
    longer line\t\t\tline too long 217\n\
    script\talice mask a.service\\n\t\tcalls 1\\n\n\
    script\t# x\\n\\nalice mask a.service\\nalice mask ssh\\nbob fly a\\nbob undo 1\t\t\
        line 4: bad name: `ssh` in `alice mask ssh`: names have a suffix, ssh.service?\\n\
        line 5: unknown verb: `fly` in `bob fly a`\\n\
        calls 3 6\\n\n\
    script\tbob\\n Bob mask a.service\\nbob enable\\nbob place /x file \\\\\\nbob mask \\x1b\t\t\
        line 1: unknown verb: `bob`\\n\
        line 2: bad operator: `Bob` in ` Bob mask a.service`\\n\
        line 3: wrong arguments: `bob enable`\\n\
        line 4: bad text: `\\\\` in `bob place /x file \\\\`\\n\
        line 5: bad name: `\\\\x1b` in `bob mask \\\\x1b`\\n\
        calls\\n\n\
    script\tbob link a b\\nbob place /x link \\x00\\nbob redo x\t\t\
        line 1: bad path: `a` in `bob link a b`\\n\
        line 2: bad target: `\\\\x00` in `bob place /x link \\\\x00`\\n\
        line 3: bad number: `x` in `bob redo x`\\n\
        calls\\n\n\
    ";

fn words(alloc: Global, line: &[u8]) -> Result<Vec<&[u8]>, AllocError> {
    line.split(|b| *b == b' ')
        .filter(|word| !word.is_empty())
        .collect(alloc)
}

/// Why the words of a line are refused, if they are.
fn reason_of(alloc: Global, words: &[&[u8]]) -> Result<Option<Reason>, AllocError> {
    let Some((operator, rest)) = words.split_first() else {
        return Ok(None);
    };
    match call_of_words(alloc, operator, rest) {
        Ok(_call) => Ok(None),
        Err(ReadError::Fault(reason)) => Ok(Some(reason)),
        Err(ReadError::ReadFault | ReadError::OutOfMemory) => Err(AllocError),
    }
}

/// Adds the word at fault, if there is one, and the hint.
fn push_word(
    alloc: Global,
    out: &mut Vec<u8>,
    words: &[&[u8]],
    reason: Reason,
) -> Result<(), AllocError> {
    let Some(place) = bad_word_at(alloc, words, reason)? else {
        return Ok(());
    };
    let word = words.get(place).copied().unwrap_or(b"no word");
    let operator = words.first().copied().unwrap_or(b"no operator");
    out.extend_from_slice(b" [")?;
    push_shown(out, word)?;
    out.extend_from_slice(b"]")?;
    Hint::of(alloc, reason, operator, word)?.push(out, operator, word)
}

fn fault(alloc: Global, line: &[u8]) -> Result<Vec<u8>, AllocError> {
    let words = words(alloc, line)?;
    let Some(reason) = reason_of(alloc, &words)? else {
        return Vec::from_slice(alloc, b"accepted");
    };
    let mut out = format!(in alloc; "{reason}")?.into_bytes();
    push_word(alloc, &mut out, &words, reason)?;
    Ok(out)
}

/// Adds the bad lines of a script.
fn push_bad_lines(alloc: Global, out: &mut Vec<u8>, script: &[u8]) -> Result<(), AllocError> {
    for bad in &bad_lines(alloc, script)? {
        let number = bad.number;
        let line = script.split(|b| *b == b'\n').nth(number.saturating_sub(1));
        out.extend_from_slice(format!(in alloc; "line {number}: ")?.as_str().as_bytes())?;
        push_line_fault(out, bad.reason, line.unwrap_or(b"no line"))?;
        out.push(b'\n')?;
    }
    Ok(())
}

/// The bad lines of a script, and the numbers of those with a call.
fn script(alloc: Global, script: &[u8]) -> Result<Vec<u8>, AllocError> {
    let mut out = Vec::new(alloc);
    push_bad_lines(alloc, &mut out, script)?;
    out.extend_from_slice(b"calls")?;
    for number in &call_lines(alloc, script)? {
        out.extend_from_slice(format!(in alloc; " {number}")?.as_str().as_bytes())?;
    }
    out.push(b'\n')?;
    Ok(out)
}

/// The reasons why the lines of a script are refused, each with the length of what is reported.
fn reasons(alloc: Global, script: &[u8]) -> Result<Vec<u8>, AllocError> {
    let mut out = Vec::new(alloc);
    for bad in &bad_lines(alloc, script)? {
        let mut text = Vec::new(alloc);
        push_line_fault(&mut text, bad.reason, script)?;
        let reason = bad.reason;
        let length = text.len();
        out.extend_from_slice(format!(in alloc; "{reason} {length}")?.as_str().as_bytes())?;
    }
    Ok(out)
}

/// A comment of this many bytes.
fn comment(alloc: Global, length: usize) -> Result<Vec<u8>, AllocError> {
    let mut line = Vec::new(alloc);
    for _ in 0..length {
        line.push(b'#')?;
    }
    Ok(line)
}

fn answer(alloc: Global, row: &Row) -> Result<Vec<u8>, AllocError> {
    if is(&row.kind, b"line") {
        return fault(alloc, &row.one);
    }
    if is(&row.kind, b"script") {
        return script(alloc, &row.one);
    }
    if is(&row.kind, b"longest line") {
        return reasons(alloc, &comment(alloc, 65_536)?);
    }
    if is(&row.kind, b"longer line") {
        return reasons(alloc, &comment(alloc, 65_537)?);
    }
    match bad_word_at(alloc, &[b"a", b"mask", b"b"], Reason::LineTooLong)? {
        None => Vec::from_slice(alloc, b"none"),
        Some(_) => Vec::from_slice(alloc, b"some"),
    }
}

#[test]
fn words_at_fault_are_found(rt: HostRuntime) -> Result<(), Fail> {
    assert_rows(rt.alloc(), ROWS, answer)
}
