//! is-enabled and get-default.
use crate::lines::{arguments, has_verb};
use crate::questions::{OfLine, asked};
use sample_rows::{Row, assert_rows};
use sample_values::name;
use states::{GetDefault, IsEnabled};
use std::alloc::{AllocError, Global};
use std::test::Fail;

/// A unit for each word, and one that has a link of its own name.
const STATES: &[u8] = b"unitadm-inventory 1\n\
    L\t/etc/systemd/system/al.service\t/usr/lib/systemd/system/a.service\n\
    L\t/etc/systemd/system/e.service\t/dev/null\n\
    L\t/etc/systemd/system/h.service\t/opt/h.service\n\
    L\t/etc/systemd/system/j.service\t/opt/j.service\n\
    L\t/etc/systemd/system/l.service\t/usr/lib/systemd/system/l.service\n\
    F\t28\t/opt/h.service\n[Install]\nWantedBy=m.target\n\n\
    F\t28\t/opt/i.service\n[Install]\nWantedBy=m.target\n\n\
    L\t/run/systemd/system/f.service\t/dev/null\n\
    L\t/run/systemd/system/i.service\t/opt/i.service\n\
    L\t/run/systemd/system/m.target.wants/g.service\t/usr/lib/systemd/system/g.service\n\
    F\t28\t/usr/lib/systemd/system/a.service\n[Install]\nWantedBy=m.target\n\n\
    F\t28\t/usr/lib/systemd/system/b.service\n[Install]\nWantedBy=m.target\n\n\
    F\t25\t/usr/lib/systemd/system/c.service\n[Install]\nAlso=a.service\n\n\
    F\t2\t/usr/lib/systemd/system/d.service\n#\n\n\
    F\t2\t/usr/lib/systemd/system/g.service\n#\n\n\
    F\t28\t/usr/lib/systemd/system/l.service\n[Install]\nWantedBy=m.target\n\n\
    end\n";

/// `default.target` is another name of a target.
const DEFAULT: &[u8] = b"unitadm-inventory 1\n\
    L\t/etc/systemd/system/default.target\t/usr/lib/systemd/system/m.target\n\
    F\t2\t/usr/lib/systemd/system/m.target\n#\n\n\
    end\n";

const MASKED: &[u8] = b"unitadm-inventory 1\n\
    L\t/etc/systemd/system/default.target\t/dev/null\n\
    end\n";

const ROWS: &[u8] = b"\
    # The first word that holds is answered\n\
    ask\tis-enabled a.service\t\tenabled\n\
    ask\tis-enabled al.service\t\talias\n\
    ask\tis-enabled b.service\t\tdisabled\n\
    ask\tis-enabled c.service\t\tindirect\n\
    ask\tis-enabled d.service\t\tstatic\n\
    ask\tis-enabled e.service\t\tmasked\n\
    ask\tis-enabled f.service\t\tmasked-runtime\n\
    ask\tis-enabled g.service\t\tenabled-runtime\n\
    ask\tis-enabled h.service\t\tlinked\n\
    ask\tis-enabled i.service\t\tlinked-runtime\n\
    ask\tis-enabled j.service\t\tnot-found\n\
    ask\tis-enabled k.service\t\tnot-found\n\
    ask\tis-enabled l.service\t\tdisabled\n\
    # Links are looked for only if the name is neither masked nor an alias\n\
    reads\tis-enabled e.service\t\t/etc/systemd/system/e.service\n\
    reads\tis-enabled al.service\t\t/etc/systemd/system/al.service\\n/usr/lib/systemd/system/a.service\n\
    reads\tis-enabled h.service\t\t\
    /etc/systemd/system/h.service\\n/opt/h.service\\netc h.service\\nrun h.service\n\
    # The default target is answered by the own name of the unit\n\
    ask\tget-default\tdefault\tis m.target\n\
    ask\tget-default\tmasked\tmasked: default.target\n\
    ask\tget-default\t\tnot found: default.target\n\
    # Another unit makes it another question\n\
    same\tis-enabled a.service\tis-enabled b.service\tno\n\
    same\tget-default\tget-default\tyes\n";

impl OfLine for IsEnabled {
    fn of_line(alloc: Global, line: &[u8]) -> Result<IsEnabled, AllocError> {
        let unit = name(alloc, arguments(line))?;
        Ok(IsEnabled { unit })
    }
}

impl OfLine for GetDefault {
    fn of_line(_alloc: Global, _line: &[u8]) -> Result<GetDefault, AllocError> {
        Ok(GetDefault {})
    }
}

fn inventory(tree: &[u8]) -> &'static [u8] {
    if tree == b"default".as_slice() {
        DEFAULT
    } else if tree == b"masked".as_slice() {
        MASKED
    } else {
        STATES
    }
}

fn answer(alloc: Global, row: &Row) -> Result<Vec<u8>, AllocError> {
    if has_verb(&row.one, b"is-enabled") {
        asked::<IsEnabled>(alloc, row, inventory(&row.two))
    } else {
        asked::<GetDefault>(alloc, row, inventory(&row.two))
    }
}

#[test]
fn the_first_word_that_holds_is_answered(rt: HostRuntime) -> Result<(), Fail> {
    assert_rows(rt.alloc(), ROWS, answer)
}
