//! Texts that are written, and read again.
use super::sample::{AFTER_SECOND, SECOND, TEXT, begun, written};
use crate::words::{TIME, words};
use kept_texts::{KeptText, PushError, Run, TextError};
use sample_values::tree;
use std::alloc::{AllocError, Global};
use std::test::Fail;
use unit_name::ample;

fn push_run(alloc: Global, told: &mut Vec<u8>, run: &Run) -> Result<(), AllocError> {
    let by = if run.words.outside { "others" } else { "calls" };
    let line = format!(in alloc;
        "{} {} by {}, {}\n",
        run.line, run.calls, by, run.words.rules
    )?;
    told.extend_from_slice(line.as_bytes())?;
    told.extend_from_slice(run.words.login.text())?;
    Ok(told.push(b'\n')?)
}

/// The root, and for each run its line, how many calls it has, who made it, by which rules, and the
/// login.
fn told(alloc: Global, text: &KeptText) -> Result<Vec<u8>, AllocError> {
    let mut told = Vec::from_slice(alloc, text.header().root.text())?;
    told.push(b'\n')?;
    for run in text.runs() {
        push_run(alloc, &mut told, run)?;
    }
    Ok(told)
}

const TOLD: &[u8] = b"/srv/a b\n12 2 by calls, 1\nanna\n18 0 by others, 4294967295\n\t\n\\ \n";

const TOLD_AFTER_SECOND: &[u8] =
    b"/srv/a b\n7 2 by calls, 1\nanna\n13 0 by others, 4294967295\n\t\n\\ \n";

fn read(alloc: Global, text: &[u8]) -> Result<Box<KeptText>, AllocError> {
    let bytes = Vec::from_slice(alloc, text)?;
    match KeptText::read(alloc, bytes) {
        Ok(text) => Ok(Box::new(alloc, text)?),
        Err(TextError::OutOfMemory | TextError::Fault(..)) => Err(AllocError),
    }
}

fn again(alloc: Global, text: &[u8]) -> Result<Vec<u8>, AllocError> {
    let read = read(alloc, text)?;
    told(alloc, &read)
}

#[test]
fn texts_are_written_and_read(rt: HostRuntime) -> Result<(), Fail> {
    let alloc = rt.alloc();
    let text = written(alloc)?;
    assert_eq!(rt; text.bytes(), TEXT);
    assert_eq!(rt; ample!(told(alloc, &text), AllocError)?.as_slice(), TOLD);
    assert_eq!(rt; ample!(again(alloc, TEXT), AllocError)?.as_slice(), TOLD);
    Ok(())
}

fn after_second(alloc: Global) -> Result<Box<KeptText>, AllocError> {
    let text = written(alloc)?;
    let second = tree(alloc, SECOND)?;
    Ok(Box::new(alloc, text.with_first(alloc, &second)?)?)
}

#[test]
fn first_trees_are_replaced(rt: HostRuntime) -> Result<(), Fail> {
    let alloc = rt.alloc();
    let text = ample!(after_second(alloc), AllocError)?;
    assert_eq!(rt; text.bytes(), AFTER_SECOND);
    assert_eq!(rt;
        ample!(told(alloc, &text), AllocError)?.as_slice(),
        TOLD_AFTER_SECOND
    );
    assert_eq!(rt;
        ample!(again(alloc, AFTER_SECOND), AllocError)?.as_slice(),
        TOLD_AFTER_SECOND
    );
    Ok(())
}

/// Why a run with these lines isn't appended, and whether the text then is as it was.
fn refused(alloc: Global, lines: &[u8]) -> Result<(Option<PushError>, bool), AllocError> {
    let mut text = begun(alloc)?;
    let before = Vec::from_slice(alloc, text.bytes())?;
    let left = tree(alloc, SECOND)?;
    let words = words(alloc, TIME, b"anna")?;
    let why = ample!(text.push_run(&words, lines, &left), PushError::OutOfMemory).err();
    Ok((why, text.bytes() == before.as_slice()))
}

const REFUSED: [&[u8]; 5] = [
    b"anna status",
    b"# run \n",
    b"anna status\n#\n",
    b"\n# end\n",
    b"anna status\n ",
];

#[test]
fn lines_of_no_calls_are_refused(rt: HostRuntime) -> Result<(), Fail> {
    let alloc = rt.alloc();
    for lines in REFUSED {
        let found = ample!(refused(alloc, lines), AllocError)?;
        assert_eq!(rt; found, (Some(PushError::BadLines), true));
    }
    let found = ample!(refused(alloc, b" # run \n"), AllocError)?;
    assert_eq!(rt; found, (None, false));
    Ok(())
}
