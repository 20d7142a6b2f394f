//! Texts that others changed: each fault with its line.
use super::sample::TEXT;
use kept_texts::{KeptText, TextError};
use sample_rows::{Row, assert_rows, is};
use std::alloc::{AllocError, Global};
use std::test::Fail;

const ROWS: &[u8] = b"\
    # The text with ONE once replaced by TWO.\n\
    replace\tinventory 1\tinventory 2\tline 1: no inventory and no line `== calls` at the beginning\n\
    replace\t== calls\t== call\tline 1: no inventory and no line `== calls` at the beginning\n\
    replace\tF\\t7\tF\\t07\tline 1: no inventory and no line `== calls` at the beginning\n\
    replace\tcalls\\n\tcalls\\n\\n\tline 11: no header\n\
    replace\tunitroot-history\tunitroot_history\tline 11: no header\n\
    replace\tunitroot-history 1\tunitroot-history 2\tline 11: written by another format\n\
    replace\tunitroot-history 1\tunitroot-history 10\tline 11: written by another format\n\
    replace\tid=00\tid=0g\tline 11: bad header\n\
    replace\tid=000102\tid=0102\tline 11: bad header\n\
    replace\t0a0b0c\t0A0b0c\tline 11: bad header\n\
    replace\troot=/srv/a\\\\sb\troot=\tline 11: bad header\n\
    replace\troot=/srv/a\\\\sb\troot=/srv/a\\\\xb\tline 11: bad header\n\
    replace\troot=/srv/a\\\\sb\troot=/srv/a b\tline 11: bad header\n\
    replace\troot=/srv/a\\\\sb\troot=/srv/a\\tb\tline 11: bad header\n\
    replace\t text=\t  text=\tline 11: bad header\n\
    replace\troot=/srv\troot=/srw\tline 11: changed by others: its sum differs\n\
    replace\tmulti-user\tmulti-usex\tline 11: changed by others: its sum differs\n\
    replace\tc136\tc137\tline 11: changed by others: its sum differs\n\
    replace\t08:30:05Z\t8:30:05Z\tline 12: bad run\n\
    replace\t08:30:05Z\t08:30:05z\tline 12: bad run\n\
    replace\tlogin=anna\tlogin=\tline 12: bad run\n\
    replace\tlogin=anna\tlogin\tline 12: bad run\n\
    replace\tlogin=anna\tlogin=an na\tline 12: bad run\n\
    replace\trules=1\trules=01\tline 12: bad run\n\
    replace\trules=1\trules=\tline 12: bad run\n\
    replace\trules=1\trules=1 outsides\tline 12: bad run\n\
    replace\trules=1\trules=1 \tline 12: bad run\n\
    replace\t4294967295\t4294967296\tline 18: bad run\n\
    replace\tlogin=\\\\t\tlogin=\\t\tline 18: bad run\n\
    replace\tlogin=anna\tlogin=anne\tline 17: changed by others: its sum differs\n\
    replace\tenable\tdisable\tline 17: changed by others: its sum differs\n\
    replace\t\\n\\n  \\n\t\\n  \\n\tline 16: changed by others: its sum differs\n\
    replace\trules=1\trules=1 outside\tline 17: changed by others: its sum differs\n\
    replace\t8fdf\t8fde\tline 17: changed by others: its sum differs\n\
    replace\tcb72\tcb73\tline 17: changed by others: its sum differs\n\
    replace\t65c6\t65c7\tline 19: changed by others: its sum differs\n\
    replace\t outside\t\tline 19: changed by others: its sum differs\n\
    replace\t# run 2026-12-02\t\\n# run 2026-12-02\tline 18: a line outside of a run\n\
    replace\t# run 2026-12-02\tx\\n# run 2026-12-02\tline 18: a line outside of a run\n\
    replace\tanna enable ssh.service\t# run 2026-12-02\tline 13: the run before it has no end\n\
    replace\tbob status\t#\tline 16: a comment that is neither the beginning nor the end of a run\n\
    replace\tbob status\t# run\tline 16: a comment that is neither the beginning nor the end of a run\n\
    replace\tbob status\t# end \tline 16: bad end\n\
    replace\tcb72\tCB72\tline 17: bad end\n\
    replace\tcb72\tcb7\tline 17: bad end\n\
    replace\t# end tree=sha256:\t# end tree=sha1:\tline 17: bad end\n\
    # The text up to ONE.\n\
    cut\t# unitroot\t\tline 11: cut short\n\
    cut\tid=00\t\tline 11: cut short\n\
    cut\t# run 2026-12-01\t\t0 runs\n\
    cut\tanna enable\t\tline 13: cut short\n\
    cut\tbob\t\tline 16: cut short\n\
    cut\tstatus\t\tline 16: cut short\n\
    cut\t# end \t\tline 17: cut short\n\
    cut\t# run 2026-12-02\t\t1 runs\n\
    cut\t outside\t\tline 18: cut short\n\
    cut\t# end tree=sha256:b089\t\tline 19: cut short\n\
    cut\t147d\\n\t\tline 19: cut short\n\
    cut\t\\n# end tree=sha256:b089\t\tline 18: cut short\n";

/// What comes before the first occurrence of a part, and what comes after it.
fn around<'a>(text: &'a [u8], part: &[u8]) -> Option<(&'a [u8], &'a [u8])> {
    for i in 0..text.len() {
        if let Some(rest) = text[i..].strip_prefix(part) {
            return Some((&text[..i], rest));
        }
    }
    None
}

fn changed(alloc: Global, row: &Row) -> Result<Vec<u8>, AllocError> {
    let Some((front, rest)) = around(TEXT, &row.one) else {
        return Ok(Vec::new(alloc));
    };
    let mut text = Vec::from_slice(alloc, front)?;
    if is(row, b"replace") {
        text.extend_from_slice(&row.two)?;
        text.extend_from_slice(rest)?;
    }
    Ok(text)
}

fn count_or_fault(alloc: Global, text: Vec<u8>) -> Result<usize, TextError> {
    let read = KeptText::read(alloc, text)?;
    Ok(read.runs().len())
}

fn answer(alloc: Global, row: &Row) -> Result<Vec<u8>, AllocError> {
    let text = changed(alloc, row)?;
    let answer = match count_or_fault(alloc, text) {
        Ok(count) => format!(in alloc; "{count} runs")?,
        Err(TextError::OutOfMemory) => return Err(AllocError),
        Err(fault) => format!(in alloc; "{fault}")?,
    };
    Vec::from_slice(alloc, answer.as_bytes())
}

#[test]
fn faults_have_their_lines(rt: HostRuntime) -> Result<(), Fail> {
    assert_rows(rt.alloc(), ROWS, answer)
}
