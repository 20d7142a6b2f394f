use sample_rows::{Row, assert_rows, is, yes_or_no};
use sample_values::{name, path};
use std::alloc::{AllocError, Global};
use std::test::Fail;
use unit_paths::{Dependency, Place, Scope, Slot, TreePath};

const ROWS: &[u8] = b"\
    # Slots have five forms. After the slot of a dependency: which one.\n\
    slot\t/etc/systemd/system/ssh.service\t\tUnit(Etc), of Etc\n\
    slot\t/run/systemd/system/a@b.service\t\tUnit(Run), of Run\n\
    slot\t/usr/local/lib/systemd/system/a.mount\t\tUnit(Local)\n\
    slot\t/usr/lib/systemd/system/a@.socket\t\tUnit(Vendor)\n\
    slot\t/etc/systemd/system/a.target.wants/b.service\t\tWants(Etc), wants, of Etc\n\
    slot\t/usr/lib/systemd/system/a.target.requires/b.service\t\tRequires(Vendor), requires\n\
    slot\t/run/systemd/system/a.target.upholds/b.service\t\tUpholds(Run), upholds, of Run\n\
    slot\t/usr/local/lib/systemd/system/a@.target.upholds/b@c.service\t\tUpholds(Local), upholds\n\
    slot\t/etc/systemd/system-preset/10-a.preset\t\tPreset(Etc)\n\
    slot\t/run/systemd/system-preset/.b.preset\t\tPreset(Run)\n\
    slot\t/usr/lib/systemd/system-preset/a.preset\t\tPreset(Vendor)\n\
    slot\t/usr/local/lib/systemd/system-preset/a.preset\t\tnone\n\
    slot\t/usr/lib/systemd/system-preset/.preset\t\tnone\n\
    slot\t/usr/lib/systemd/system-preset/a.conf\t\tnone\n\
    slot\t/etc/systemd/system/ssh.conf\t\tnone\n\
    slot\t/etc/systemd/system/a.target.wants\t\tnone\n\
    slot\t/etc/systemd/system/a.wants/b.service\t\tnone\n\
    slot\t/etc/systemd/system/a.upholds/b.service\t\tnone\n\
    slot\t/etc/systemd/system/a.target.upholds/README\t\tnone\n\
    slot\t/etc/systemd/system/a.target.Upholds/b.service\t\tnone\n\
    slot\t/etc/systemd/system/.upholds/b.service\t\tnone\n\
    slot\t/etc/systemd/system-preset/a.target.upholds/b.service\t\tnone\n\
    slot\t/etc/systemd/system/a.target.wants/x/b.service\t\tnone\n\
    slot\t/lib/systemd/system/ssh.service\t\tnone\n\
    slot\t/ssh.service\t\tnone\n\
    \n\
    # Units have slots.\n\
    slot of\tEtc\tgetty@tty1.service\t\
        /etc/systemd/system/getty@tty1.service is Unit(Etc), of Etc\n\
    slot of\tRun\tgetty@tty1.service\t\
        /run/systemd/system/getty@tty1.service is Unit(Run), of Run\n\
    slot of\tLocal\tgetty@tty1.service\t\
        /usr/local/lib/systemd/system/getty@tty1.service is Unit(Local)\n\
    slot of\tVendor\tgetty@tty1.service\t\
        /usr/lib/systemd/system/getty@tty1.service is Unit(Vendor)\n\
    \n\
    # So have the dependencies of other units, as t@.target.\n\
    wants\tEtc\tgetty@tty1.service\t\
        /etc/systemd/system/t@.target.wants/getty@tty1.service is Wants(Etc), wants, of Etc\n\
    requires\tLocal\tgetty@tty1.service\t\
        /usr/local/lib/systemd/system/t@.target.requires/getty@tty1.service is Requires(Local), requires\n\
    upholds\tRun\tgetty@tty1.service\t\
        /run/systemd/system/t@.target.upholds/getty@tty1.service is Upholds(Run), upholds, of Run\n\
    \n\
    # The directories of units in the two scopes, and all directories of presets.\n\
    scope\tEtc\t\t/etc/systemd/system\n\
    scope\tRun\t\t/run/systemd/system\n\
    presets\tEtc\t\t/etc/systemd/system-preset\n\
    presets\tRun\t\t/run/systemd/system-preset\n\
    presets\tLocal\t\t/usr/local/lib/systemd/system-preset\n\
    presets\tVendor\t\t/usr/lib/systemd/system-preset\n\
    \n\
    # At some paths no entry can be, since they are above or beneath a slot.\n\
    bad shape\t/etc/systemd/system/a.service/b\t\tyes\n\
    bad shape\t/etc/systemd/system/a.service/b/c\t\tyes\n\
    bad shape\t/etc/systemd/system/a.target.wants/b.service/c\t\tyes\n\
    bad shape\t/etc/systemd/system/a.target.upholds/b.service/c\t\tyes\n\
    bad shape\t/etc/systemd/system\t\tyes\n\
    bad shape\t/etc/systemd/system/a.target.wants\t\tyes\n\
    bad shape\t/etc/systemd/system/a.target.upholds\t\tyes\n\
    bad shape\t/etc/systemd/system/a.target.upholds/README/deep\t\tno\n\
    bad shape\t/etc/systemd/system/a.upholds\t\tno\n\
    bad shape\t/etc/systemd/system-preset\t\tyes\n\
    bad shape\t/etc\t\tyes\n\
    bad shape\t/usr/local\t\tyes\n\
    bad shape\t/etc/systemd/system/a.service\t\tno\n\
    bad shape\t/etc/systemd/system/a.wants\t\tno\n\
    bad shape\t/etc/systemd/system/a.conf/b\t\tno\n\
    bad shape\t/usr/local/lib/systemd/system-preset\t\tno\n\
    bad shape\t/etc/systemd/user\t\tno\n\
    bad shape\t/lib\t\tno\n";

/// Whether the tests for kinds of slots agree with the slot of a path.
fn are_alike(slot: Option<Slot>, path: &TreePath) -> bool {
    Slot::is_of_unit(path) == matches!(slot, Some(Slot::Unit(_)))
        && Slot::is_of_preset(path) == matches!(slot, Some(Slot::Preset(_)))
        && Slot::is_of_dependency(path) == Slot::dependency_of(path).is_some()
}

/// The dependency whose slot a path is, and the scope in which it is the slot of a unit or a
/// dependency.
fn push_kinds(out: &mut Vec<u8>, path: &TreePath) -> Result<(), AllocError> {
    match Slot::dependency_of(path) {
        Some(Dependency::Wants) => out.extend_from_slice(b", wants")?,
        Some(Dependency::Requires) => out.extend_from_slice(b", requires")?,
        Some(Dependency::Upholds) => out.extend_from_slice(b", upholds")?,
        None => {}
    }
    match Slot::scope_of(path) {
        Some(Scope::Etc) => out.extend_from_slice(b", of Etc"),
        Some(Scope::Run) => out.extend_from_slice(b", of Run"),
        None => Ok(()),
    }
}

/// What a path is the slot of.
fn kind_of(alloc: Global, path: &TreePath) -> Result<Vec<u8>, AllocError> {
    let slot = Slot::of(path);
    if !are_alike(slot, path) {
        return Vec::from_slice(alloc, b"the tests for kinds say otherwise");
    }
    let mut out = match slot {
        Some(slot) => format!(in alloc; "{slot:?}")?.into_bytes(),
        None => Vec::from_slice(alloc, b"none")?,
    };
    push_kinds(&mut out, path)?;
    Ok(out)
}

fn kind_at(alloc: Global, text: &[u8]) -> Result<Vec<u8>, AllocError> {
    let path = path(alloc, text)?;
    kind_of(alloc, &path)
}

fn place_named(word: &[u8]) -> Place {
    if word == b"Etc".as_slice() {
        Place::Etc
    } else if word == b"Run".as_slice() {
        Place::Run
    } else if word == b"Local".as_slice() {
        Place::Local
    } else {
        Place::Vendor
    }
}

fn scope_directory(word: &[u8]) -> &'static str {
    match place_named(word) {
        Place::Etc => Scope::Etc.place().directory(),
        _ => Scope::Run.place().directory(),
    }
}

/// The path of a slot, and what it is the slot of.
fn described(alloc: Global, slot: &TreePath) -> Result<Vec<u8>, AllocError> {
    let kind = kind_of(alloc, slot)?;
    [slot.text(), b" is ", kind.as_slice()].concat(alloc)
}

fn unit_slot(alloc: Global, place: Place, unit: &[u8]) -> Result<Vec<u8>, AllocError> {
    let unit = name(alloc, unit)?;
    let slot = place.slot(alloc, &unit)?;
    described(alloc, &slot)
}

/// The slot of a unit among those that `t@.target` needs.
fn dependency_slot(
    alloc: Global,
    place: Place,
    dependency: Dependency,
    unit: &[u8],
) -> Result<Vec<u8>, AllocError> {
    let of = name(alloc, b"t@.target")?;
    let unit = name(alloc, unit)?;
    let slot = place.dependency_slot(alloc, dependency, &of, &unit)?;
    described(alloc, &slot)
}

fn is_bad_shape(alloc: Global, text: &[u8]) -> Result<Vec<u8>, AllocError> {
    let path = path(alloc, text)?;
    yes_or_no(alloc, path.is_bad_shape())
}

fn answer(alloc: Global, row: &Row) -> Result<Vec<u8>, AllocError> {
    let place = place_named(&row.one);
    if is(row, b"slot") {
        kind_at(alloc, &row.one)
    } else if is(row, b"bad shape") {
        is_bad_shape(alloc, &row.one)
    } else if is(row, b"slot of") {
        unit_slot(alloc, place, &row.two)
    } else if is(row, b"wants") {
        dependency_slot(alloc, place, Dependency::Wants, &row.two)
    } else if is(row, b"requires") {
        dependency_slot(alloc, place, Dependency::Requires, &row.two)
    } else if is(row, b"upholds") {
        dependency_slot(alloc, place, Dependency::Upholds, &row.two)
    } else if is(row, b"scope") {
        Vec::from_slice(alloc, scope_directory(&row.one).as_bytes())
    } else if is(row, b"presets") {
        Vec::from_slice(alloc, place.preset_directory().as_bytes())
    } else {
        Vec::from_slice(alloc, b"unknown kind")
    }
}

#[test]
fn slots_have_five_forms(rt: HostRuntime) -> Result<(), Fail> {
    assert_rows(rt.alloc(), ROWS, answer)
}
