//! Words that are completed to names, and bytes that are shown.

use super::is;
use root_runs::{Suffix, named, push_shown};
use sample_rows::{Row, assert_rows};
use std::alloc::{AllocError, Global};
use std::test::Fail;

/// A word and its name, as systemctl 252 completes it: with `.service` as an argument of `mask`,
/// with `.target` as the target of `add-wants`.
const ROWS: &[u8] = b"\
    # valid names are themselves\n\
    service\tssh.service\t\tssh.service\n\
    service\ta@b.service\t\ta@b.service\n\
    service\tfoo.bar.socket\t\tfoo.bar.socket\n\
    service\t-.mount\t\t-.mount\n\
    target\tssh.service\t\tssh.service\n\
    \n\
    # other words get a suffix, unless they are a name without it\n\
    service\tssh\t\tssh.service\n\
    target\tssh\t\tssh.target\n\
    service\ta.b\t\ta.b.service\n\
    service\tssh.services\t\tssh.services.service\n\
    service\t.service\t\t.service.service\n\
    service\tfoo.\t\tfoo..service\n\
    service\t.\t\t..service\n\
    service\t..\t\t...service\n\
    service\t-\t\t-.service\n\
    service\ta@\t\ta@.service\n\
    service\ta@b\t\ta@b.service\n\
    service\ta@b@c\t\ta@b@c.service\n\
    service\ta:b_c-d.e\t\ta:b_c-d.e.service\n\
    service\ta\\\\b\t\ta\\\\b.service\n\
    service\ta\\\\x20b\t\ta\\\\x20b.service\n\
    \n\
    # bytes that names may not have are escaped, and slashes become dashes\n\
    service\ta b\t\ta\\\\x20b.service\n\
    service\ta b.service\t\ta\\\\x20b.service\n\
    service\ta.service b\t\ta.service\\\\x20b.service\n\
    service\t\\xc3\\xa9\t\t\\\\xc3\\\\xa9.service\n\
    service\tx*\t\tx\\\\x2a.service\n\
    service\t[ab]\t\t\\\\x5bab\\\\x5d.service\n\
    service\ta?.service\t\ta\\\\x3f.service\n\
    service\ta~b\t\ta\\\\x7eb.service\n\
    service\ta+b\t\ta\\\\x2bb.service\n\
    service\ta%b\t\ta\\\\x25b.service\n\
    service\ta\\tb\t\ta\\\\x09b.service\n\
    service\ta\"b\t\ta\\\\x22b.service\n\
    service\ta\\xffb\t\ta\\\\xffb.service\n\
    target\ta/b\t\ta-b.target\n\
    target\t./x\t\t.-x.target\n\
    target\tdev/x\t\tdev-x.target\n\
    \n\
    # absolute paths are mount points and devices\n\
    target\t/home\t\thome.mount\n\
    target\t/home/\t\thome.mount\n\
    target\t//home//x/\t\thome-x.mount\n\
    target\t/\t\t-.mount\n\
    target\t//\t\t-.mount\n\
    target\t/.\t\t-.mount\n\
    target\t/./\t\t-.mount\n\
    target\t/a/./b\t\ta-b.mount\n\
    target\t/.hid\t\t\\\\x2ehid.mount\n\
    target\t/a/.hid\t\ta-.hid.mount\n\
    target\t/...\t\t\\\\x2e...mount\n\
    target\t/a..\t\ta...mount\n\
    target\t/a-b\t\ta\\\\x2db.mount\n\
    target\t/a b\t\ta\\\\x20b.mount\n\
    target\t/a.b\t\ta.b.mount\n\
    target\t/a\\\\b\t\ta\\\\x5cb.mount\n\
    target\t/a:b@c\t\ta:b\\\\x40c.mount\n\
    target\t/\\xc3\\xa9\t\t\\\\xc3\\\\xa9.mount\n\
    target\t/a*\t\ta\\\\x2a.mount\n\
    target\t/@\t\t\\\\x40.mount\n\
    target\t/x.service\t\tx.service.mount\n\
    target\t/home/x.target\t\thome-x.target.mount\n\
    target\t/dev\t\tdev.mount\n\
    target\t/dev/\t\tdev.mount\n\
    target\t/dev/sda\t\tdev-sda.device\n\
    target\t//dev/x\t\tdev-x.device\n\
    target\t/dev/./x\t\tdev-x.device\n\
    target\t/sys/a-b\t\tsys-a\\\\x2db.device\n\
    target\t/sysx\t\tsysx.mount\n\
    \n\
    # a path with .. is no path\n\
    target\t/a/../b\t\t-a-..-b.target\n\
    target\t/dev/../x\t\t-dev-..-x.target\n\
    target\t/..\t\t-...target\n\
    target\t/a/..\t\t-a-...target\n\
    \n\
    # what systemctl refuses becomes no name\n\
    service\t\t\t.service\n\
    service\t@\t\t@.service\n\
    service\t@.service\t\t@.service.service\n\
    \n\
    # text is shown as it is, and control characters and other bytes as \\xNN\n\
    shown\tssh.service\t\tssh.service\n\
    shown\ta\\\\x2db.mount\t\ta\\\\x2db.mount\n\
    shown\t\\xc3\\xa9\\xe2\\x86\\x92\\xf0\\x9f\\x98\\x80.\t\t\\xc3\\xa9\\xe2\\x86\\x92\\xf0\\x9f\\x98\\x80.\n\
    shown\ta\\x1b[31mb\t\ta\\\\x1b[31mb\n\
    shown\t\\x00\\t\\n\\x1f\\x7f\t\t\\\\x00\\\\x09\\\\x0a\\\\x1f\\\\x7f\n\
    shown\t\\x80\\xff\\xc3\t\t\\\\x80\\\\xff\\\\xc3\n\
    shown\t\\xc2\\x9b31m\\xc2\\xa0\t\t\\\\xc2\\\\x9b31m\\xc2\\xa0\n\
    shown\t\\xc3\\xc3\\xa9\\xe2\\x86x\t\t\\\\xc3\\xc3\\xa9\\\\xe2\\\\x86x\n\
    shown\t\\xc0\\x80\\xed\\xa0\\x80\\xf4\\x90\\x80\\x80\t\t\
        \\\\xc0\\\\x80\\\\xed\\\\xa0\\\\x80\\\\xf4\\\\x90\\\\x80\\\\x80\n\
    shown\t\t\t\n\
    ";

/// Bytes as they are shown, after a text that must stay if memory runs out.
fn shown(alloc: Global, bytes: &[u8]) -> Result<Vec<u8>, AllocError> {
    let mut out = Vec::new(alloc);
    if push_shown(&mut out, bytes).is_err() {
        if !out.is_empty() {
            return Vec::from_slice(alloc, b"a part was left");
        }
        push_shown(&mut out, bytes)?;
    }
    Ok(out)
}

fn answer(alloc: Global, row: &Row) -> Result<Vec<u8>, AllocError> {
    if is(&row.kind, b"service") {
        named(alloc, &row.one, Suffix::Service)
    } else if is(&row.kind, b"target") {
        named(alloc, &row.one, Suffix::Target)
    } else if is(&row.kind, b"shown") {
        shown(alloc, &row.one)
    } else {
        Vec::from_slice(alloc, b"unknown kind")
    }
}

#[test]
fn words_are_completed_and_bytes_shown(rt: HostRuntime) -> Result<(), Fail> {
    assert_rows(rt.alloc(), ROWS, answer)
}
