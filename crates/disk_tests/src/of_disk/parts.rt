//! Capturing parts of roots.
use super::capturing::{came_of, put_strange, shared_root, word_of};
use super::fake::Failing;
use super::root::Root;
use disk::{Area, CaptureError, Partial};
use link_tree::{Place, Tree, TreePath};
use sample_rows::{Row, assert_rows};
use sample_values::{path, tree};
use std::alloc::{AllocError, Global};
use std::test::Fail;
use unit_name::ample;

/// Slots of each kind, and other entries.
const WHOLE: &[u8] = b"unitadm-inventory 1
L\t/etc/systemd/system/a.service\t/opt/a.service
F\t1\t/etc/systemd/system/a.service.d/drop-in.conf
d
L\t/etc/systemd/system/m.target.upholds/u.service\t../u.service
L\t/etc/systemd/system/m.target.wants/w.service\t../w.service
L\t/etc/systemd/system/x.target.requires/r.service\t/srv/r.service
F\t1\t/etc/systemd/system-preset/50-local.preset
p
F\t1\t/opt/a.service
a
F\t1\t/run/systemd/system-preset/60-run.preset
p
F\t1\t/run/systemd/system/run.service
r
L\t/usr/lib/systemd/system/m.target.wants/v.service\t../v.service
F\t1\t/usr/lib/systemd/system/v.service
v
F\t1\t/usr/local/lib/systemd/system-preset/10-unread.preset
p
end
";

const ROWS: &[u8] = b"\
    # take: the words of ONE, one after another. A path and an area is captured: presets, units and\n\
    # a directory, dependencies and a directory. After ? it is asked whether that was captured. At the\n\
    # end: how many entries were found, as they are, in how many calls of the disk.\n\
    take\t\t\t: 0 entries; calls 0; failed calls 0\n\
    # An entry, whose link isn't followed, and an absent path.\n\
    take\t/etc/systemd/system/a.service ?/etc/systemd/system/a.service ?/opt/a.service\t\t\
        ok yes no : 1 entries; calls 1; failed calls 0\n\
    take\t?/run/systemd/system/n.service /run/systemd/system/n.service \
        ?/run/systemd/system/n.service\t\tno ok yes : 0 entries; calls 1; failed calls 0\n\
    take\t/opt/a.service /srv/n /opt/a.service\t\tok ok ok : 1 entries; calls 2; failed calls 0\n\
    # The directory of a dependency is looked at before its slot.\n\
    take\t/etc/systemd/system/m.target.upholds/u.service\t\tok : 1 entries; calls 2; failed calls 0\n\
    take\t/run/systemd/system/n.target.wants/n.service\t\tok : 0 entries; calls 2; failed calls 0\n\
    # The slots of units and of dependencies of a directory.\n\
    take\tunits/etc/systemd/system ?units/etc/systemd/system ?dependencies/etc/systemd/system \
        ?units/run/systemd/system ?presets\t\tok yes yes no no : 4 entries; calls 8; failed calls 0\n\
    # All its slots were captured with it, absent ones too, and no others.\n\
    take\tunits/etc/systemd/system ?/etc/systemd/system/n.service \
        ?/etc/systemd/system/n.target.wants/n.service ?/etc/systemd/system/n.target.upholds/n.service \
        ?/run/systemd/system/n.service ?/etc/systemd/system-preset/n.preset \
        ?/etc/systemd/system/a.service.d/drop-in.conf ?/opt/a.service\t\t\
        ok yes yes yes no no no no : 4 entries; calls 8; failed calls 0\n\
    # The dependencies alone: no unit is looked at.\n\
    take\tdependencies/etc/systemd/system ?dependencies/etc/systemd/system ?units/etc/systemd/system \
        ?/etc/systemd/system/m.target.upholds/n.service ?/etc/systemd/system/a.service\t\t\
        ok yes no yes no : 3 entries; calls 7; failed calls 0\n\
    # What was found is not looked at again.\n\
    take\tdependencies/usr/lib/systemd/system units/usr/lib/systemd/system\t\t\
        ok ok : 2 entries; calls 6; failed calls 0\n\
    take\tunits/usr/local/lib/systemd/system\t\tok : 0 entries; calls 1; failed calls 0\n\
    # Presets, of three directories.\n\
    take\tpresets ?presets ?/run/systemd/system-preset/n.preset ?/run/systemd/system/run.service\t\t\
        ok yes yes no : 2 entries; calls 5; failed calls 0\n\
    # odd at: the same, with a directory at TWO. At a slot it is reported, if that is looked at.\n\
    odd at\t/etc/systemd/system/a.service\t/etc/systemd/system/a.service\t\
        odd : 0 entries; calls 1; failed calls 0\n\
    odd at\tunits/etc/systemd/system\t/etc/systemd/system/x.target.requires/r.service\t\
        odd : 3 entries; calls 8; failed calls 0\n\
    odd at\tdependencies/etc/systemd/system\t/etc/systemd/system/m.target.upholds/u.service\t\
        odd : 0 entries; calls 3; failed calls 0\n\
    odd at\tdependencies/etc/systemd/system\t/etc/systemd/system/a.service\t\
        ok : 3 entries; calls 7; failed calls 0\n\
    odd at\tpresets\t/run/systemd/system-preset/60-run.preset\t\
        odd : 1 entries; calls 4; failed calls 0\n\
    odd at\t/run/systemd/system/run.service\t/etc/systemd/system/a.service\t\
        ok : 1 entries; calls 1; failed calls 0\n\
    # Elsewhere it counts as nothing.\n\
    odd at\t/opt/a.service ?/opt/a.service\t/opt/a.service\t\
        ok yes : 0 entries; calls 1; failed calls 0\n\
    # no directory at: with a file in place of the directory TWO, which is listed.\n\
    no directory at\tunits/etc/systemd/system\t/etc/systemd/system/m.target.upholds\t\
        no directory : 1 entries; calls 3; failed calls 0\n\
    no directory at\tdependencies/etc/systemd/system\t/etc/systemd/system/x.target.requires\t\
        no directory : 2 entries; calls 6; failed calls 0\n\
    no directory at\tunits/run/systemd/system\t/etc/systemd/system\t\
        ok : 1 entries; calls 2; failed calls 0\n\
    # beneath: with a file at TWO. In place of the directory of a dependency it is reported.\n\
    beneath\t/etc/systemd/system/m.target.upholds/u.service\t/etc/systemd/system/m.target.upholds\t\
        no directory : 0 entries; calls 1; failed calls 0\n\
    beneath\t/etc/systemd/system/n.target.requires/n.service\t/etc/systemd/system/n.target.requires\t\
        no directory : 0 entries; calls 1; failed calls 0\n\
    odd at\t/etc/systemd/system/m.target.wants/w.service\t/etc/systemd/system/m.target.wants\t\
        ok : 1 entries; calls 2; failed calls 0\n\
    # Beneath another entry no tree can have it.\n\
    beneath\t/opt/a.service /opt/a.service/b\t/opt/a.service/b\t\
        ok ok : bad shape; calls 2; failed calls 0\n";

/// What a word of a row names.
#[derive(Drop)]
enum Named {
    Path(TreePath),
    Area(Area),
}

/// The directory of units of this path. If there is none, the result is `AllocError`, which makes a
/// test fail.
fn place_at(directory: &[u8]) -> Result<Place, AllocError> {
    for place in [Place::Etc, Place::Run, Place::Local, Place::Vendor] {
        if place.directory().as_bytes() == directory {
            return Ok(place);
        }
    }
    Err(AllocError)
}

/// Reads a word: a path, or an area by its kind and directory.
fn parse_word(alloc: Global, word: &[u8]) -> Result<Named, AllocError> {
    if word == b"presets".as_slice() {
        return Ok(Named::Area(Area::Presets));
    }
    if let Some(directory) = word.strip_prefix(b"units") {
        return Ok(Named::Area(Area::Units(place_at(directory)?)));
    }
    if let Some(directory) = word.strip_prefix(b"dependencies") {
        return Ok(Named::Area(Area::Dependencies(place_at(directory)?)));
    }
    Ok(Named::Path(path(alloc, word)?))
}

/// Whether what a word names was captured.
fn has(alloc: Global, partial: &Partial, word: &[u8]) -> Result<bool, AllocError> {
    match parse_word(alloc, word)? {
        Named::Path(path) => Ok(partial.has_path(&path)),
        Named::Area(area) => Ok(partial.has_area(area)),
    }
}

fn take_named(
    alloc: Global,
    root: &mut Root,
    partial: &mut Partial,
    word: &[u8],
) -> Result<(), CaptureError> {
    match parse_word(alloc, word)? {
        Named::Path(path) => partial.take_path(alloc, root, &path),
        Named::Area(area) => partial.take_area(alloc, root, area),
    }
}

/// What a word results in.
fn result_of(
    alloc: Global,
    root: &mut Root,
    partial: &mut Partial,
    word: &[u8],
) -> Result<&'static str, AllocError> {
    if let Some(asked) = word.strip_prefix(b"?") {
        return Ok(if has(alloc, partial, asked)? {
            "yes"
        } else {
            "no"
        });
    }
    match take_named(alloc, root, partial, word) {
        Ok(()) => Ok("ok"),
        Err(error) => Ok(word_of(came_of(error)?)),
    }
}

/// Whether all these entries are in the other tree.
fn is_within(part: &Tree, whole: &Tree) -> bool {
    for (path, entry) in part.iter() {
        match whole.get(path) {
            Some(there) => {
                if !there.same(entry) {
                    return false;
                }
            }
            None => return false,
        }
    }
    true
}

/// How many entries the tree of a part has, or why it has no tree.
fn push_tree(
    alloc: Global,
    partial: &Partial,
    whole: &Tree,
    out: &mut Vec<u8>,
) -> Result<(), AllocError> {
    match partial.tree(alloc) {
        Ok(tree) => {
            let len = tree.len();
            let known = partial.len();
            let text = format!(in alloc; "{len} entries")?;
            out.extend_from_slice(text.as_bytes())?;
            if known != len || !is_within(&tree, whole) {
                out.extend_from_slice(b", others than there are")?;
            }
            Ok(())
        }
        Err(error) => out.extend_from_slice(word_of(came_of(error)?).as_bytes()),
    }
}

/// Takes the words of a row.
fn push_results(
    alloc: Global,
    root: &mut Root,
    partial: &mut Partial,
    words: &[u8],
    out: &mut Vec<u8>,
) -> Result<(), AllocError> {
    for word in words.split(|b| *b == b' ') {
        if !word.is_empty() {
            let result = result_of(alloc, root, partial, word)?;
            out.extend_from_slice(result.as_bytes())?;
            out.push(b' ')?;
        }
    }
    out.extend_from_slice(b": ")
}

fn answer(alloc: Global, whole: &Tree, row: &Row) -> Result<Vec<u8>, AllocError> {
    let mut out = Vec::new(alloc);
    let mut root = shared_root(alloc, whole, Failing::NEVER)?;
    put_strange(alloc, &mut root, &row.kind, &row.two)?;
    let mut partial = Box::new(alloc, Partial::none(alloc))?;
    push_results(alloc, &mut root, &mut partial, &row.one, &mut out)?;
    push_tree(alloc, &partial, whole, &mut out)?;
    let (calls, failures) = (root.calls, root.failures);
    let text = format!(in alloc; "; calls {calls}; failed calls {failures}")?;
    out.extend_from_slice(text.as_bytes())?;
    Ok(out)
}

#[test]
fn paths_and_areas_are_captured(rt: HostRuntime) -> Result<(), Fail> {
    let whole = ample!(tree(rt.alloc(), WHOLE), AllocError)?;
    assert_rows(rt.alloc(), ROWS, |alloc, row| answer(alloc, &whole, row))
}

/// What is captured while one call fails: word by word, until one fails.
const TAKEN: &[u8] = b"/opt/a.service /etc/systemd/system/m.target.wants/w.service \
    dependencies/etc/systemd/system units/etc/systemd/system presets";

fn take_all(alloc: Global, root: &mut Root, partial: &mut Partial) -> Result<(), CaptureError> {
    for word in TAKEN.split(|b| *b == b' ') {
        take_named(alloc, root, partial, word)?;
    }
    Ok(())
}

/// Whether a failure of this call is reported, and counted once; or if there is no such call,
/// whether all is captured.
fn is_reported(alloc: Global, whole: &Tree, call: u32) -> Result<bool, AllocError> {
    let mut root = shared_root(alloc, whole, Failing::once(call))?;
    let mut partial = Box::new(alloc, Partial::none(alloc))?;
    let failed = match take_all(alloc, &mut root, &mut partial) {
        Ok(()) => false,
        Err(CaptureError::Failed) => true,
        Err(_) => return Err(AllocError),
    };
    let has_failed = call < root.calls;
    Ok(failed == has_failed && root.failures == u64::from(has_failed))
}

/// The first of this number of calls whose failure isn't reported, if there is one.
fn unreported(alloc: Global, calls: u32) -> Result<Option<u32>, AllocError> {
    let whole = tree(alloc, WHOLE)?;
    for call in 0..calls {
        if !is_reported(alloc, &whole, call)? {
            return Ok(Some(call));
        }
    }
    Ok(None)
}

/// Each call fails in turn, and that is reported.
#[test]
fn failures_of_parts_are_reported(rt: HostRuntime) -> Result<(), Fail> {
    assert_eq!(rt; ample!(unreported(rt.alloc(), 25), AllocError)?, None);
    Ok(())
}
