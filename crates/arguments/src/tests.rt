use crate::{ArgumentError, Arguments, arguments_of};
use std::alloc::{AllocError, Global};
use std::test::Fail;

fn words_of(alloc: Global, texts: &[&str]) -> Result<Vec<String>, AllocError> {
    let mut words = Vec::new(alloc);
    for text in texts {
        words.push(String::from_str(alloc, text)?)?;
    }
    Ok(words)
}

fn read(alloc: Global, texts: &[&str]) -> Result<Arguments, ArgumentError> {
    arguments_of(alloc, &words_of(alloc, texts)?)
}

/// Like `read`, but tries once more if an allocation failed.
fn read_with_memory(alloc: Global, texts: &[&str]) -> Result<Arguments, ArgumentError> {
    match read(alloc, texts) {
        Err(ArgumentError::OutOfMemory) => read(alloc, texts),
        given => given,
    }
}

#[test]
fn one_flag_is_known(rt: HostRuntime) -> Result<(), Fail> {
    let alloc = rt.alloc();
    let given: [(&[&str], Result<bool, ArgumentError>); 16] = [
        (&[], Ok(false)),
        (&["unitadm"], Ok(false)),
        (&["unitadm", "--"], Ok(false)),
        (&["unitadm", "--sessions"], Ok(true)),
        (&["unitadm", "--sessions", "--"], Ok(true)),
        (&["unitadm", "--help"], Err(ArgumentError::BadArguments)),
        (&["unitadm", "--version"], Err(ArgumentError::BadArguments)),
        (&["unitadm", "-h"], Err(ArgumentError::BadArguments)),
        (&["unitadm", "inventory"], Err(ArgumentError::BadArguments)),
        (
            &["unitadm", "--sessions", "--sessions"],
            Err(ArgumentError::BadArguments),
        ),
        (
            &["unitadm", "--", "--sessions"],
            Err(ArgumentError::BadArguments),
        ),
        (&["unitadm", "--", "--"], Err(ArgumentError::BadArguments)),
        (
            &["unitadm", "--sessions="],
            Err(ArgumentError::BadArguments),
        ),
        (&["unitadm", "--sess"], Err(ArgumentError::BadArguments)),
        (&["unitadm", "-"], Err(ArgumentError::BadArguments)),
        (&["unitadm", ""], Err(ArgumentError::BadArguments)),
    ];
    for (texts, want) in &given {
        let read = read_with_memory(alloc, texts).map(|arguments| arguments.sessions);
        assert_eq!(rt; read, *want);
    }
    Ok(())
}

#[test]
fn each_error_has_a_status(rt: HostRuntime) -> Result<(), Fail> {
    assert_eq!(rt; ArgumentError::BadArguments.status(), 2);
    assert_eq!(rt; ArgumentError::OutOfMemory.status(), 1);
    Ok(())
}
