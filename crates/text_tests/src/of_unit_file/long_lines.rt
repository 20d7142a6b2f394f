//! Lines of about the maximum length.
use std::alloc::{AllocError, Global};
use std::test::Fail;
use unit_file::{InstallError, InstallFault, MAX_LINE, install_of};
use unit_name::ample;

/// The bytes, repeated this number of times, and then the end.
fn repeated(alloc: Global, bytes: &[u8], times: usize, end: &[u8]) -> Result<Vec<u8>, AllocError> {
    let mut file = Vec::with_capacity(alloc, 2 * MAX_LINE)?;
    for _time in 0..times {
        file.extend_from_slice(bytes)?;
    }
    file.extend_from_slice(end)?;
    Ok(file)
}

/// Whether a file of these bytes, repeated this number of times, and then the end, is wanted by
/// something.
fn is_wanted(alloc: Global, bytes: &[u8], times: usize, end: &[u8]) -> Result<bool, InstallError> {
    let file = repeated(alloc, bytes, times, end)?;
    let text = install_of(alloc, &file)?;
    Ok(!text.wanted_by.is_empty())
}

#[test]
fn a_line_has_at_most_a_mebibyte(rt: HostRuntime) {
    // What is repeated, how often, what follows, and whether a line is too long.
    let rows: [(&[u8], usize, &[u8], bool); 13] = [
        (b"a", MAX_LINE, b"", false),
        (b"a", MAX_LINE, b"\n[Install]", false),
        (b"a", MAX_LINE, b"\r\n", false),
        (b"a", MAX_LINE, b"\r", true),
        (b"a", MAX_LINE, b"a", true),
        (b"a", MAX_LINE, b" \n", true),
        (b"a", MAX_LINE, b"a\n[Install]\n", true),
        (b"#", MAX_LINE, b"#\nWantedBy=a", false),
        (b"a", MAX_LINE, b"\\\n", true),
        (b"a", MAX_LINE - 1, b"\\\n#\n", false),
        (b"a", MAX_LINE - 1, b"\\\n#\na", true),
        (b"aaa\\\n# a comment\n", MAX_LINE / 4, b"", false),
        (b"aaa\\\n# a comment\n", MAX_LINE / 4, b"a", true),
    ];
    for (bytes, times, end, is_long) in rows {
        let is_wanted = ample!(
            is_wanted(rt.alloc(), bytes, times, end),
            InstallError::OutOfMemory
        );
        let expected = if is_long {
            Err(InstallError::Bad(InstallFault::LineTooLong))
        } else {
            Ok(false)
        };
        assert_eq!(rt; is_wanted, expected);
    }
}
