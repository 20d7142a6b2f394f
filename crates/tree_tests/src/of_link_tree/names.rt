//! The links that belong to a name, as they are looked up. It is proved that a tree lists only its
//! links; tested here are the lists themselves, and what would be hidden by code that gives up if
//! memory runs out.
use crate::of_link_tree::changes::set_link;
use crate::rows::texts_of;
use link_tree::{Scope, Tree, belongs};
use sample_rows::{Row, assert_rows, is, yes_or_no};
use sample_values::{name, path, tree};
use std::alloc::{AllocError, Global};
use std::test::Fail;
use unit_name::{UnitName, ample};

const ROWS: &[u8] = b"\
    # The links of a scope that belong to a name.\n\
    belonging\tEtc\tssh.service\t\
        /etc/systemd/system/multi-user.target.wants/ssh.service\\n\
        /etc/systemd/system/rescue.target.wants/ssh.service\\n\
        /etc/systemd/system/sshd.service\\n\n\
    belonging\tEtc\tsshd.service\t/etc/systemd/system/sshd.service\\n\n\
    belonging\tRun\tssh.service\t/run/systemd/system/multi-user.target.wants/ssh.service\\n\n\
    belonging\tRun\tsshd.service\t\n\
    belonging\tEtc\tgetty@tty1.service\t\
        /etc/systemd/system/getty.target.wants/getty@tty1.service\\n\n\
    belonging\tEtc\tgetty@.service\t\
        /etc/systemd/system/getty.target.wants/getty@tty1.service\\n\n\
    belonging\tEtc\tgetty@tty9.service\t\n\
    belonging\tEtc\tautovt@.service\t/etc/systemd/system/autovt@.service\\n\n\
    belonging\tEtc\tmasked.service\t\n\
    belonging\tEtc\town.service\t/etc/systemd/system/own.service\\n\n\
    belonging\tEtc\tfile.service\t\n\
    \n\
    # After a change they are right, also if memory ran out in it at first: all is as before then.\n\
    change\t\t\tyes\n";

/// Three links to one unit, one of which gives it another name; an alias of a template's instance; a
/// link to an instance; masked units; links of the other scope, and one of no scope.
pub(crate) const LINKS: &[u8] = b"unitadm-inventory 1\n\
L\t/etc/systemd/system/sshd.service\t/lib/systemd/system/ssh.service\n\
L\t/etc/systemd/system/rescue.target.wants/ssh.service\t/lib/systemd/system/ssh.service\n\
L\t/etc/systemd/system/multi-user.target.wants/ssh.service\t/lib/systemd/system/ssh.service\n\
L\t/etc/systemd/system/getty.target.wants/getty@tty1.service\t/lib/systemd/system/getty@.service\n\
L\t/etc/systemd/system/autovt@.service\t/lib/systemd/system/getty@tty9.service\n\
L\t/etc/systemd/system/masked.service\t/dev/null\n\
L\t/etc/systemd/system/own.service\town.service\n\
F\t0\t/etc/systemd/system/file.service\n\n\
L\t/run/systemd/system/multi-user.target.wants/ssh.service\t/lib/systemd/system/ssh.service\n\
L\t/lib/systemd/system/opensshd.service\tssh.service\n\
end\n";

/// The links that belong to a name in the tree of `LINKS`.
fn belonging(alloc: Global, scope: &[u8], unit: &[u8]) -> Result<Vec<u8>, AllocError> {
    let tree = tree(alloc, LINKS)?;
    let unit = name(alloc, unit)?;
    if scope == b"Etc".as_slice() {
        texts_of(alloc, tree.belonging(Scope::Etc, &unit))
    } else {
        texts_of(alloc, tree.belonging(Scope::Run, &unit))
    }
}

/// Whether the links that are looked up are those of all entries of the tree that belong to the
/// name, in its order.
fn are_all(tree: &Tree, scope: Scope, name: &UnitName) -> bool {
    let listed = tree.belonging(scope, name);
    let mut at = 0;
    for (path, entry) in tree.iter() {
        if belongs(scope, name, path, entry) {
            match listed.get(at) {
                Some(next) if next == path => at = at.saturating_add(1),
                _ => return false,
            }
        }
    }
    at == listed.len()
}

/// The unit of this number.
fn numbered(alloc: Global, number: u32) -> Result<UnitName, AllocError> {
    name(alloc, format!(in alloc; "u{number}.service")?.as_bytes())
}

/// Whether this holds for each of the units.
pub(crate) fn are_all_of_each(alloc: Global, tree: &Tree) -> Result<bool, AllocError> {
    for number in 0..13u32 {
        let name = numbered(alloc, number)?;
        if !are_all(tree, Scope::Etc, &name) || !are_all(tree, Scope::Run, &name) {
            return Ok(false);
        }
    }
    Ok(true)
}

/// Where the change of this number is made: in one of six directories of both scopes.
fn place(alloc: Global, number: u32) -> Result<String, AllocError> {
    let place = match number % 2 {
        0 => "etc",
        _ => "run",
    };
    let beneath = match number % 3 {
        0 => "",
        1 => "a.target.wants/",
        _ => "b.target.requires/",
    };
    let unit = number % 13;
    format!(in alloc; "/{place}/systemd/system/{beneath}u{unit}.service")
}

/// The new entry: a link to another unit, to the same, to null, or nothing.
fn target(alloc: Global, number: u32) -> Result<String, AllocError> {
    let unit = (number / 5) % 13;
    match (number / 7) % 6 {
        0 => format!(in alloc; "/lib/systemd/system/u{unit}.service"),
        1 => format!(in alloc; "../u{unit}.service"),
        2 => format!(in alloc; "u{unit}.service"),
        3 => format!(in alloc; "/dev/null"),
        4 => format!(in alloc; "/lib/systemd/system/u{unit}@x.service"),
        _ => format!(in alloc; ""),
    }
}

/// Makes the change of this number.
pub(crate) fn relink(alloc: Global, tree: &mut Tree, number: u32) -> Result<(), AllocError> {
    let slot = path(alloc, place(alloc, number)?.as_bytes())?;
    let target = target(alloc, number)?;
    set_link(alloc, tree, &slot, target.as_bytes())
}

/// Makes a change. If memory runs out, the tree and its lists are as they were, and it is made again.
fn relink_or_keep(alloc: Global, tree: &mut Tree) -> Result<bool, AllocError> {
    let entries = tree.len();
    if let Err(AllocError) = relink(alloc, tree, 0) {
        if tree.len() != entries || !ample!(are_all_of_each(alloc, tree), AllocError)? {
            return Ok(false);
        }
        relink(alloc, tree, 0)?;
    }
    are_all_of_each(alloc, tree)
}

fn change(alloc: Global) -> Result<Vec<u8>, AllocError> {
    let mut tree = tree(alloc, LINKS)?;
    yes_or_no(alloc, relink_or_keep(alloc, &mut tree)?)
}

fn answer(alloc: Global, row: &Row) -> Result<Vec<u8>, AllocError> {
    if is(row, b"belonging") {
        belonging(alloc, &row.one, &row.two)
    } else if is(row, b"change") {
        change(alloc)
    } else {
        Vec::from_slice(alloc, b"unknown kind")
    }
}

#[test]
fn links_are_looked_up_by_their_names(rt: HostRuntime) -> Result<(), Fail> {
    assert_rows(rt.alloc(), ROWS, answer)
}
