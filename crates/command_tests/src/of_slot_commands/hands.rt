//! Entries that are placed and removed by hand.
use crate::lines::{arguments, first_word, has_verb};
use crate::questions::{OfLine, asked};
use link_tree::Entry;
use sample_rows::{Row, assert_rows};
use sample_values::{file, link, path};
use slot_commands::{PlaceEntry, RemoveEntry};
use std::alloc::{AllocError, Global};
use std::test::Fail;

const TREE: &[u8] = b"unitadm-inventory 1\n\
    F\t1\t/opt/x\nx\n\
    F\t1\t/usr/lib/systemd/system/a.service\na\n\
    L\t/etc/systemd/system/a.service\t/dev/null\n\
    end\n";

const ROWS: &[u8] = b"\
    # Entries are placed in slots\n\
    run\tplace /usr/lib/systemd/system/n.service file n\t\tdone\\n+ /usr/lib/systemd/system/n.service file n\n\
    run\tplace /etc/systemd/system-preset/5.preset link y\t\tdone\\n+ /etc/systemd/system-preset/5.preset -> y\n\
    # The slot must be one, and empty\n\
    run\tplace /opt/x link y\t\tnot a slot: /opt/x\n\
    run\tplace /opt/y link y\t\tnot a slot: /opt/y\n\
    run\tplace /usr/lib/systemd/system/a.service link y\t\texists: /usr/lib/systemd/system/a.service\n\
    run\tplace /usr/lib/systemd/system/a.service file n\t\texists: /usr/lib/systemd/system/a.service\n\
    # Entries are removed from slots\n\
    run\tremove /usr/lib/systemd/system/a.service\t\tdone\\n- /usr/lib/systemd/system/a.service file a\n\
    run\tremove /etc/systemd/system/a.service\t\tdone\\n- /etc/systemd/system/a.service -> /dev/null\n\
    # The slot must be one, and have an entry\n\
    run\tremove /opt/x\t\tnot a slot: /opt/x\n\
    run\tremove /opt/y\t\tnot a slot: /opt/y\n\
    run\tremove /usr/lib/systemd/system/none.service\t\tabsent: /usr/lib/systemd/system/none.service\n\
    # Nothing but the slot is looked at\n\
    reads\tplace /etc/systemd/system/a.service link y\t\t/etc/systemd/system/a.service\n\
    reads\tremove /etc/systemd/system/a.service\t\t/etc/systemd/system/a.service\n\
    reads\tplace /opt/x link y\t\t\n\
    reads\tremove /opt/x\t\t\n\
    # Each of its parts makes it another command\n\
    same\tplace /x link a\tplace /y link a\tno\n\
    same\tplace /x link a\tplace /x file a\tno\n\
    same\tremove /x\tremove /y\tno\n";

/// `link TARGET`, or `file` and its bytes.
fn entry_of(alloc: Global, words: &[u8]) -> Result<Entry, AllocError> {
    let (kind, text) = first_word(words);
    if kind == b"link".as_slice() {
        return link(alloc, text);
    }
    file(alloc, text)
}

impl OfLine for PlaceEntry {
    fn of_line(alloc: Global, line: &[u8]) -> Result<PlaceEntry, AllocError> {
        let (slot, words) = first_word(arguments(line));
        let path = path(alloc, slot)?;
        let entry = entry_of(alloc, words)?;
        Ok(PlaceEntry { path, entry })
    }
}

impl OfLine for RemoveEntry {
    fn of_line(alloc: Global, line: &[u8]) -> Result<RemoveEntry, AllocError> {
        let path = path(alloc, arguments(line))?;
        Ok(RemoveEntry { path })
    }
}

fn answer(alloc: Global, row: &Row) -> Result<Vec<u8>, AllocError> {
    if has_verb(&row.one, b"place") {
        asked::<PlaceEntry>(alloc, row, TREE)
    } else {
        asked::<RemoveEntry>(alloc, row, TREE)
    }
}

#[test]
fn entries_are_placed_in_empty_slots_and_removed_from_slots(rt: HostRuntime) -> Result<(), Fail> {
    assert_rows(rt.alloc(), ROWS, answer)
}
