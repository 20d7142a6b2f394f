//! Lines, sections and keys of unit files.
use super::{lines_of, read};
use sample_rows::{Row, assert_rows};
use std::alloc::{AllocError, Global};
use std::test::Fail;

/// A file, and its [Install] section.
const ROWS: &[u8] = b"\
    # No section.\n\
    file\t\t\t\n\
    file\t\\n\\r\\n\\\\\t\t\n\
    \n\
    # Lines are joined behind a backslash, and comments are dropped.\n\
    file\t[Install]\\nWantedBy=a.target \\\\\\n# c\\nb.target\\nWantedBy=\\n\
        WantedBy=c.target\\n[X]\\nWantedBy=d.target\t\tWantedBy=c.target\\n\n\
    file\t[Install]\\nWantedBy=a.target \\\\\\n# c\\nb.target\\nWantedBy=c.target\\n[X]\\n\
        WantedBy=d.target\t\tWantedBy=a.target b.target c.target\\n\n\
    \n\
    # A backslash at the end of the file.\n\
    file\t[Install]\\nWantedBy=a\\\\\t\tWantedBy=a\\n\n\
    file\t[Install]\\nWantedBy=a\\\\\\n\t\tWantedBy=a\\n\n\
    file\t[Install]\\nWantedBy=a\\\\\\n#\t\tWantedBy=a\\n\n\
    \n\
    # A CR is part of a line's end before a LF alone.\n\
    file\t[Install]\\nWantedBy=a\\\\\\r\\n\t\tWantedBy=a\\n\n\
    file\t[Install]\\nWantedBy=a\\\\\\r\t\tWantedBy=a\\\\\\n\n\
    file\t[Install]\\r\\nWantedBy=a\\r\\r\\n\\rAlias=b\\rc\\r\t\tWantedBy=a\\nAlias=b c\\n\n\
    file\t[Install]\\nWantedBy=a\\\\\\r\\r\\nAlias=b\t\tWantedBy=a\\\\\\nAlias=b\\n\n\
    \n\
    # After another backslash, too.\n\
    file\t[Install]\\nWantedBy=a\\\\\\\\\\nb\\n\t\tWantedBy=a\\\\ b\\n\n\
    file\t[Install]\\nWantedBy=a \\\\ \\nAlias=b\t\tWantedBy=a \\\\\\nAlias=b\\n\n\
    \n\
    # An empty line ends a continuation, a comment doesn't.\n\
    file\t[Install]\\nWantedBy=a \\\\\\n\\nAlias=b\\n\t\tWantedBy=a\\nAlias=b\\n\n\
    file\t[Install]\\nWantedBy=a \\\\\\n\\t # c \\\\\\n;d\\nAlias=b\\n\t\tWantedBy=a Alias=b\\n\n\
    file\t[Install]\\nWantedBy=a \\\\\\n[X]\\nAlias=b\\n\t\tWantedBy=a [X]\\nAlias=b\\n\n\
    \n\
    # A comment is one before its backslash is looked at, and begins a line.\n\
    file\t[Install]\\n# c \\\\\\nWantedBy=a\\n\t\tWantedBy=a\\n\n\
    file\t[Install]\\nWantedBy=a # b\\n\t\tWantedBy=a # b\\n\n\
    file\t#[Install]\\nWantedBy=a\\n\t\t\n\
    \n\
    # Any bytes.\n\
    file\t[Install]\\n\\xff\\n\\x00\\nWantedBy=\\xff\\xfe \\x00\\n\t\t\
        WantedBy=\\xff\\xfe \\x00\\n\n\
    \n\
    # The headers of sections are exact.\n\
    file\t \\t[Install]\\t \\nWantedBy=a\t\tWantedBy=a\\n\n\
    file\t[Install]x\\nWantedBy=a\t\t\n\
    file\t[Install]\\n[X]x\\nWantedBy=a\t\tWantedBy=a\\n\n\
    file\t[Install]\\n[\\nWantedBy=a\t\tWantedBy=a\\n\n\
    file\t[Install]\\n[]\\nWantedBy=a\t\t\n\
    file\t[Install]\\n[a]b]\\nWantedBy=a\t\t\n\
    file\t[ Install ]\\nWantedBy=a\t\t\n\
    file\t[install]\\nWantedBy=a\t\t\n\
    file\t[Install\\\\\\n]\\nWantedBy=a\t\t\n\
    file\t\\xef\\xbb\\xbf[Install]\\nWantedBy=a\t\t\n\
    \n\
    # So are keys.\n\
    file\t[Install]\\nwantedby=a\\nWantedBy a\\nAlso\\n=b\\nupheldBy=c\\nBoundBy=d\t\t\n\
    file\t[Install]\\nWantedBy=a=b\\nAlso==c\t\tWantedBy=a=b\\nAlso==c\\n\n\
    file\t[Install]\\n\\tRequiredBy \\t=\\t a\\t\\tb \\nRequiredBy=a\t\tRequiredBy=a b a\\n\n\
    file\t[Install]\\nAlias=\"a b\" 'c' a\\x0cb\\x0b\t\tAlias=\"a b\" 'c' a\\x0cb\\x0b\\n\n\
    \n\
    # An empty value drops the values before it, but not those of Also=.\n\
    file\t[Install]\\nWantedBy=a\\nRequiredBy=b\\nAlias=c\\nWantedBy= \\t\t\t\
        RequiredBy=b\\nAlias=c\\n\n\
    file\t[Install]\\nAlias=a\\nAlias=\\nAlias=b\t\tAlias=b\\n\n\
    file\t[Install]\\nRequiredBy=a\\nRequiredBy=\\nRequiredBy=b c\t\tRequiredBy=b c\\n\n\
    file\t[Install]\\nAlso=a\\nAlso=\\nAlso=b\t\tAlso=a b\\n\n\
    \n\
    # The last value of DefaultInstance= is the one that counts.\n\
    file\t[Install]\\nDefaultInstance=a\\nDefaultInstance= b  c \t\tDefaultInstance=b  c\\n\n\
    file\t[Install]\\nDefaultInstance=a\\nDefaultInstance=\t\t\n\
    file\t[Install]\\nDefaultInstance=\\nDefaultInstance=%i\t\tDefaultInstance=%i\\n\n\
    file\t[Install]\\nDefaultInstance=a\\n[Unit]\\nDefaultInstance=b\t\tDefaultInstance=a\\n\n";

fn answer(alloc: Global, row: &Row) -> Result<Vec<u8>, AllocError> {
    let text = read(alloc, &row.one)?;
    lines_of(alloc, &text)
}

#[test]
fn lines_sections_and_keys_are_exact(rt: HostRuntime) -> Result<(), Fail> {
    assert_rows(rt.alloc(), ROWS, answer)
}
