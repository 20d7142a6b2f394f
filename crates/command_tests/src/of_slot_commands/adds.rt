//! add-wants and add-requires.
use crate::lines::{arguments, first_word, has_verb, scope_of, units};
use crate::questions::{OfLine, asked};
use sample_rows::{Row, assert_rows};
use sample_values::name;
use slot_commands::{AddTo, AddedDependency};
use std::alloc::{AllocError, Global};
use std::test::Fail;

/// `getty@` has a default instance, `bare@` has none, and `bad@` one that doesn't make a valid
/// name; `c` is listed elsewhere.
const TREE: &[u8] = b"unitadm-inventory 1\n\
    F\t30\t/usr/lib/systemd/system/bad@.service\n[Install]\nDefaultInstance=a/b\n\n\
    F\t6\t/usr/lib/systemd/system/bare@.service\n[Unit]\n\
    F\t1\t/usr/lib/systemd/system/c.target\nc\n\
    L\t/usr/lib/systemd/system/default.target\tgraphical.target\n\
    F\t31\t/usr/lib/systemd/system/getty@.service\n[Install]\nDefaultInstance=tty1\n\n\
    F\t1\t/usr/lib/systemd/system/graphical.target\ng\n\
    F\t1\t/usr/lib/systemd/system/ssh.service\ns\n\
    L\t/usr/lib/systemd/system/sshd.service\tssh.service\n\
    F\t1\t/usr/lib/systemd/system/t@.target\nt\n\
    L\t/etc/systemd/system/c.target.wants/ssh.service\t/opt/ssh.service\n\
    L\t/etc/systemd/system/d.target\tnone\n\
    L\t/etc/systemd/system/m.target\t/dev/null\n\
    end\n";

/// The default target leads to another.
const DEFAULT: &[u8] = b"unitadm-inventory 1\n\
    L\t/usr/lib/systemd/system/default.target\tgraphical.target\n\
    F\t1\t/usr/lib/systemd/system/graphical.target\ng\n\
    F\t1\t/usr/lib/systemd/system/multi-user.target\nm\n\
    F\t1\t/usr/lib/systemd/system/ssh.service\ns\n\
    end\n";

const ROWS: &[u8] = b"\
    # The target wants or requires each unit, by the name that it has itself\n\
    run\tadd-wants default.target sshd.service getty@.service ssh.service\t\tdone\\n\
    + /etc/systemd/system/graphical.target.wants/getty@tty1.service -> /usr/lib/systemd/system/getty@.service\\n\
    + /etc/systemd/system/graphical.target.wants/ssh.service -> /usr/lib/systemd/system/ssh.service\n\
    run\tadd-requires --runtime default.target ssh.service getty@.service\t\tdone\\n\
    + /run/systemd/system/graphical.target.requires/getty@tty1.service -> /usr/lib/systemd/system/getty@.service\\n\
    + /run/systemd/system/graphical.target.requires/ssh.service -> /usr/lib/systemd/system/ssh.service\n\
    # A template lists templates by their own names\n\
    run\tadd-wants t@.target getty@.service bare@.service getty@a.service\t\tdone\\n\
    + /etc/systemd/system/t@.target.wants/bare@.service -> /usr/lib/systemd/system/bare@.service\\n\
    + /etc/systemd/system/t@.target.wants/getty@.service -> /usr/lib/systemd/system/getty@.service\\n\
    + /etc/systemd/system/t@.target.wants/getty@a.service -> /usr/lib/systemd/system/getty@.service\n\
    # It is refused by its target\n\
    run\tadd-wants none.target none.service\t\tnot found: none.target\n\
    run\tadd-wants m.target ssh.service\t\tmasked: m.target\n\
    run\tadd-wants d.target ssh.service\t\tdangling: /etc/systemd/system/d.target\n\
    # It is refused by a unit\n\
    run\tadd-wants default.target ssh.service none.service\t\tnot found: none.service\n\
    run\tadd-wants default.target ssh.service m.target\t\tmasked: m.target\n\
    run\tadd-wants default.target ssh.service d.target\t\tdangling: /etc/systemd/system/d.target\n\
    run\tadd-wants c.target getty@.service ssh.service\t\texists: /etc/systemd/system/c.target.wants/ssh.service\n\
    # A template must have a default instance, if it is listed under no template\n\
    run\tadd-wants default.target ssh.service bare@.service\t\tneeds instance: bare@.service\n\
    run\tadd-wants default.target ssh.service bad@.service\t\tneeds instance: bad@.service\n\
    run\tadd-wants t@a.target bare@.service\t\tneeds instance: bare@.service\n\
    # It looks at all that it finds and at its link, or at what it finds up to the refusal\n\
    reads\tadd-wants default.target ssh.service\tdefault\t\
    /etc/systemd/system/default.target\\n\
    /etc/systemd/system/graphical.target.wants/ssh.service\\n\
    /etc/systemd/system/ssh.service\\n\
    /run/systemd/system/default.target\\n\
    /run/systemd/system/ssh.service\\n\
    /usr/lib/systemd/system/default.target\\n\
    /usr/lib/systemd/system/graphical.target\\n\
    /usr/lib/systemd/system/ssh.service\\n\
    /usr/local/lib/systemd/system/default.target\\n\
    /usr/local/lib/systemd/system/ssh.service\n\
    reads\tadd-wants d.target ssh.service\t\t/etc/systemd/system/d.target\\n/etc/systemd/system/none\n\
    # Each of its parts makes it another command\n\
    same\tadd-wants a.target a.service\tadd-wants b.target a.service\tno\n\
    same\tadd-wants a.target a.service\tadd-requires a.target a.service\tno\n\
    same\tadd-wants a.target a.service\tadd-wants --runtime a.target a.service\tno\n\
    same\tadd-wants a.target a.service\tadd-wants a.target b.service\tno\n";

fn dependency_of(line: &[u8]) -> AddedDependency {
    if has_verb(line, b"add-requires") {
        AddedDependency::Requires
    } else {
        AddedDependency::Wants
    }
}

impl OfLine for AddTo {
    fn of_line(alloc: Global, line: &[u8]) -> Result<AddTo, AllocError> {
        let (scope, words) = scope_of(arguments(line));
        let (target, names) = first_word(words);
        let target = name(alloc, target)?;
        let units = units(alloc, names)?;
        Ok(AddTo {
            scope,
            dependency: dependency_of(line),
            target,
            units,
        })
    }
}

fn inventory(tree: &[u8]) -> &'static [u8] {
    if tree == b"default".as_slice() {
        DEFAULT
    } else {
        TREE
    }
}

fn answer(alloc: Global, row: &Row) -> Result<Vec<u8>, AllocError> {
    asked::<AddTo>(alloc, row, inventory(&row.two))
}

#[test]
fn units_are_listed_under_their_target(rt: HostRuntime) -> Result<(), Fail> {
    assert_rows(rt.alloc(), ROWS, answer)
}
