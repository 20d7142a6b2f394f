//! Which changes touch a key.
use crate::changes::change;
use crate::keys::key;
use footprint::touches;
use link_tree::Change;
use sample_rows::{Row, assert_rows, is};
use std::alloc::{AllocError, Global};
use std::test::Fail;

const ROWS: &[u8] = b"\
    # touches: which of the keys TWO the change ONE touches: its path, the entry before and the\n\
    # one after. A mask has no links.\n\
    touches\t/etc/systemd/system/x.service||/dev/null\t\
        /etc/systemd/system/x.service /etc/systemd/system/y.service /run/systemd/system/x.service \
        etc:x.service run:x.service presets links\t/etc/systemd/system/x.service\n\
    touches\t/run/systemd/system/a.target.wants/x.service||/dev/null\tlinks presets run:x.service\t\
        links\n\
    # A link belongs to its own name, and to that of the file to which it leads.\n\
    touches\t/etc/systemd/system/a.target.wants/x.service||/usr/lib/systemd/system/y.service\t\
        etc:x.service etc:y.service run:x.service run:y.service etc:a.target etc:z.service\t\
        etc:x.service etc:y.service\n\
    # The target needs no slash.\n\
    touches\t/etc/systemd/system/a.service||b.service\t\
        etc:a.service etc:b.service run:a.service run:b.service\tetc:a.service etc:b.service\n\
    # An instance belongs to its template too.\n\
    touches\t/etc/systemd/system/a.target.wants/web@a.service||\
        /usr/lib/systemd/system/web@.service\t\
        etc:web@a.service etc:web@.service etc:web@b.service etc:web.service\t\
        etc:web@a.service etc:web@.service\n\
    # An instance has no links but those of its own name.\n\
    touches\t/etc/systemd/system/b.service||/usr/lib/systemd/system/web@a.service\t\
        etc:b.service etc:web@a.service etc:web@.service\tetc:b.service\n\
    # Files are presets or cells. A file belongs to no name.\n\
    touches\t/etc/systemd/system-preset/1.preset||:enable x.service\\n\t\
        presets links etc:x.service\tpresets\n\
    touches\t/etc/systemd/system/a.service||:b.service\t\
        /etc/systemd/system/a.service etc:a.service etc:b.service\t/etc/systemd/system/a.service\n\
    # The entry before counts too.\n\
    touches\t/run/systemd/system/a.service|b.service|/dev/null\t\
        run:a.service run:b.service etc:a.service\trun:a.service run:b.service\n";

fn is_touched(alloc: Global, change: &Change, key_text: &[u8]) -> Result<bool, AllocError> {
    let key = key(alloc, key_text)?;
    Ok(touches(change, &key))
}

fn push_word(text: &mut Vec<u8>, word: &[u8]) -> Result<(), AllocError> {
    if !text.is_empty() {
        text.push(b' ')?;
    }
    text.extend_from_slice(word)
}

/// Those of these keys that a change touches.
fn touched(alloc: Global, change: &Change, keys: &[u8]) -> Result<Vec<u8>, AllocError> {
    let mut text = Vec::new(alloc);
    for key in keys.split(|b| *b == b' ') {
        if is_touched(alloc, change, key)? {
            push_word(&mut text, key)?;
        }
    }
    Ok(text)
}

fn answer(alloc: Global, row: &Row) -> Result<Vec<u8>, AllocError> {
    if !is(row, b"touches") {
        return Vec::from_slice(alloc, b"unknown kind");
    }
    let change = change(alloc, &row.one)?;
    touched(alloc, &change, &row.two)
}

#[test]
fn links_belong_to_names(rt: HostRuntime) -> Result<(), Fail> {
    assert_rows(rt.alloc(), ROWS, answer)
}
