//! link.
use crate::lines::{arguments, scope_of};
use crate::questions::{OfLine, asked};
use sample_rows::{Row, assert_rows};
use sample_values::path;
use slot_commands::{LinkUnits, Paths};
use std::alloc::{AllocError, Global};
use std::test::Fail;

/// `l` leads to `app`, `b` is linked in another spelling, and a file is in the way of `x`.
const TREE: &[u8] = b"unitadm-inventory 1\n\
    F\t1\t/opt/app.service\na\n\
    F\t1\t/opt/b.service\nb\n\
    L\t/opt/d.service\te.service\n\
    L\t/opt/e.service\tnone\n\
    F\t0\t/opt/empty.service\n\n\
    L\t/opt/l.service\tapp.service\n\
    L\t/opt/null.service\t/dev/null\n\
    L\t/opt/nulled\t/dev/null\n\
    F\t1\t/opt/readme\nr\n\
    F\t1\t/opt/x.service\nx\n\
    F\t1\t/srv/app.service\ns\n\
    L\t/etc/systemd/system/b.service\t../../../opt/b.service\n\
    F\t1\t/etc/systemd/system/x.service\ny\n\
    F\t1\t/usr/lib/systemd/system/ssh.service\ns\n\
    end\n";

const ROWS: &[u8] = b"\
    # Files are linked under their names, if they are not yet found by them\n\
    run\tlink /opt/l.service /opt/app.service /opt/b.service /usr/lib/systemd/system/ssh.service\t\tdone\\n\
    + /etc/systemd/system/app.service -> /opt/app.service\\n\
    + /etc/systemd/system/l.service -> /opt/l.service\n\
    run\tlink --runtime /opt/b.service /opt/app.service\t\tdone\\n\
    + /run/systemd/system/app.service -> /opt/app.service\\n\
    + /run/systemd/system/b.service -> /opt/b.service\n\
    # Each path is linked on the tree of the earlier ones\n\
    run\tlink /opt/app.service /opt/app.service\t\tdone\\n\
    + /etc/systemd/system/app.service -> /opt/app.service\n\
    run\tlink /opt/app.service /etc/systemd/system/app.service\t\tdone\\n\
    + /etc/systemd/system/app.service -> /opt/app.service\n\
    run\tlink /opt/app.service /srv/app.service\t\texists: /etc/systemd/system/app.service\n\
    # It is refused by where a path leads\n\
    run\tlink /opt/app.service /opt/none.service\t\tnot found: /opt/none.service\n\
    run\tlink /opt/app.service /opt/null.service\t\tmasked: /opt/null.service\n\
    run\tlink /opt/app.service /opt/empty.service\t\tmasked: /opt/empty.service\n\
    run\tlink /opt/app.service /opt/d.service\t\tdangling: /opt/e.service\n\
    # It is refused by the name and by the slot\n\
    run\tlink /opt/app.service /opt/readme\t\tbad type: /opt/readme\n\
    run\tlink /opt/app.service /opt/nulled\t\tmasked: /opt/nulled\n\
    run\tlink /opt/app.service /opt/x.service\t\texists: /etc/systemd/system/x.service\n\
    # It looks at what it finds up to the refused path\n\
    reads\tlink /usr/lib/systemd/system/ssh.service /opt/l.service /opt/d.service /opt/b.service\t\t\
    /etc/systemd/system/l.service\\n\
    /opt/app.service\\n\
    /opt/d.service\\n\
    /opt/e.service\\n\
    /opt/l.service\\n\
    /opt/none\\n\
    /usr/lib/systemd/system/ssh.service\n\
    # Each of its parts makes it another command\n\
    same\tlink /opt/a.service\tlink /opt/b.service\tno\n\
    same\tlink /opt/a.service\tlink --runtime /opt/a.service\tno\n";

fn paths(alloc: Global, texts: &[u8]) -> Result<Paths, AllocError> {
    let mut paths = Paths::none(alloc);
    for text in texts.split(|b| *b == b' ') {
        paths.push(path(alloc, text)?)?;
    }
    Ok(paths)
}

impl OfLine for LinkUnits {
    fn of_line(alloc: Global, line: &[u8]) -> Result<LinkUnits, AllocError> {
        let (scope, texts) = scope_of(arguments(line));
        let paths = paths(alloc, texts)?;
        Ok(LinkUnits { scope, paths })
    }
}

fn answer(alloc: Global, row: &Row) -> Result<Vec<u8>, AllocError> {
    asked::<LinkUnits>(alloc, row, TREE)
}

#[test]
fn files_are_linked_under_their_names(rt: HostRuntime) -> Result<(), Fail> {
    assert_rows(rt.alloc(), ROWS, answer)
}
