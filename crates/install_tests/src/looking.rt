//! Calls that look up units, paths and presets. Each is made once. If memory runs out for it, all
//! that it was given is as it was: the tree, the units, and the list to which some calls add the
//! paths that they look at. Then it is made again.
use crate::of_install_section::{closed, names};
use crate::trees::tree;
use install_section::{
    ClosureError, ClosureFault, Section, Wanted, WantedError, WantedFault, closure, closure_into,
    section_into, wanted, wanted_into,
};
use link_tree::{Entry, Scope, Tree, push_decimal};
use load_path::{Cells, End, Found, find_into, follow_entry_into, follow_into};
use preset_rules::{Instances, Policy, Rule, Rules, Verdict};
use sample_rows::{Row, assert_rows, is};
use sample_values::{name, path};
use std::alloc::{AllocError, Global};
use std::test::Fail;
use unit_file::Notices;
use unit_name::UnitName;

const ROWS: &[u8] = b"\
    # Each call is made with the tree ONE, the units or the path TWO, and a list of one path. The\n\
    # answer is what it returns, and how many paths it adds to the list. A file that is read is\n\
    # looked at once more.\n\
    find\ta.service [Install]\\n\ta.service\t\
        a.service /usr/lib/systemd/system/a.service +4\n\
    find\ta.service [Install]\\n\tnone.service\tmissing +4\n\
    find\t/etc/systemd/system/a.service -> /dev/null\ta.service\tmasked +1\n\
    find\t/etc/systemd/system/a.service -> b.service\ta.service\t\
        dangling /etc/systemd/system/a.service +2\n\
    section\ta.service [Install]\\nAlso=b.service c.service\\n\ta.service\t\
        /usr/lib/systemd/system/a.service b.service c.service +5\n\
    section\ta.service [Install]\\n\tnone.service\tnone +4\n\
    closure into\ta.service [Install]\\nAlso=b.service d\\n|b.service [Install]\\n\ta.service\t\
        a.service b.service !d +14\n\
    closure\ta.service [Install]\\nAlso=b.service d\\n|b.service [Install]\\n\ta.service\t\
        a.service b.service !d 8 +0\n\
    wanted into\ta.service [Install]\\nAlias=b.service d\\n\ta.service c.service\t\
        /etc/systemd/system/b.service /usr/lib/systemd/system/a.service !d +9\n\
    wanted\ta.service [Install]\\nAlias=b.service d\\n\ta.service c.service\t\
        /etc/systemd/system/b.service /usr/lib/systemd/system/a.service !d +0\n\
    wanted into\tt@.service [Install]\\nWantedBy=m.target\\n\tt@.service\t\
        needs t@.service +5\n\
    wanted\ta.service [Install]\\nAlias=c.service\\n|b.service [Install]\\nAlias=c.service\\n\t\
        a.service b.service\tclash /etc/systemd/system/c.service +0\n\
    follow\t/etc/systemd/system/a.service -> b.service|/etc/systemd/system/b.service x\t\
        /etc/systemd/system/a.service\tfile /etc/systemd/system/b.service +2\n\
    follow\t/etc/systemd/system/a.service x\t/etc/systemd/system/none.service\tmissing +1\n\
    follow\t/etc/systemd/system/a.service -> b.service\t/etc/systemd/system/a.service\t\
        dangling /etc/systemd/system/a.service +2\n\
    entry\t/etc/systemd/system/a.service -> b.service|/etc/systemd/system/b.service x\t\
        /etc/systemd/system/a.service\tfile /etc/systemd/system/b.service +1\n\
    entry\t/etc/systemd/system/a.service -> /dev/null\t/etc/systemd/system/a.service\tnull +0\n\
    rules\t/etc/systemd/system-preset/1.preset -> /etc/systemd/system/b.service|\
        /etc/systemd/system/b.service -> c.service|/etc/systemd/system/c.service disable *\\n\t\t\
        disable * +3\n\
    rules\t/etc/systemd/system-preset/1.preset enable a@.service x y\\nignore b*\\n\t\t\
        enable a@.service x y ignore b* +0\n\
    # a policy also has the paths that were looked at\n\
    policy\t/etc/systemd/system-preset/1.preset -> /etc/systemd/system/b.service|\
        /etc/systemd/system/b.service -> c.service|/etc/systemd/system/c.service disable *\\n\t\t\
        disable * 2 +0\n\
    verdict\t/etc/systemd/system-preset/1.preset enable a@.service x y\\nignore b*\\n\ta@.service\t\
        enable x y +0\n\
    verdict\t/etc/systemd/system-preset/1.preset enable a@.service x y\\nignore b*\\n\tb.service\t\
        ignore +0\n";

/// Adds a word and a space.
fn push_word(out: &mut Vec<u8>, word: &[u8]) -> Result<(), AllocError> {
    out.extend_from_slice(word)?;
    out.extend_from_slice(b" ")
}

fn push_words(out: &mut Vec<u8>, one: &[u8], other: &[u8]) -> Result<(), AllocError> {
    push_word(out, one)?;
    push_word(out, other)
}

/// Adds a count of at most nine.
fn push_count(out: &mut Vec<u8>, count: usize) -> Result<(), AllocError> {
    let digit = u8::try_from(count).unwrap_or(9).min(9);
    push_word(out, &[b'0'.saturating_add(digit)])
}

/// Adds what a name was found to be.
fn push_found(out: &mut Vec<u8>, found: &Found) -> Result<(), AllocError> {
    match found {
        Found::Missing => push_word(out, b"missing"),
        Found::Masked(_) => push_word(out, b"masked"),
        Found::Dangling(link) => push_words(out, b"dangling", link.text()),
        Found::Unit {
            real,
            file,
            place: _,
        } => push_words(out, real.text(), file.text()),
    }
}

/// Adds where a path leads.
fn push_end(out: &mut Vec<u8>, end: &End) -> Result<(), AllocError> {
    match end {
        End::Missing => push_word(out, b"missing"),
        End::Null => push_word(out, b"null"),
        End::File(file) => push_words(out, b"file", file.text()),
        End::Dangling(link) => push_words(out, b"dangling", link.text()),
    }
}

/// Adds the path of a section's file, and the words of `Also=`.
fn push_section(out: &mut Vec<u8>, section: &Option<Section>) -> Result<(), AllocError> {
    let Some(section) = section else {
        return push_word(out, b"none");
    };
    push_word(out, section.file.text())?;
    for word in section.text.also.as_slice() {
        push_word(out, word.bytes())?;
    }
    Ok(())
}

fn push_units(out: &mut Vec<u8>, units: &[UnitName]) -> Result<(), AllocError> {
    for unit in units {
        push_word(out, unit.text())?;
    }
    Ok(())
}

/// Adds the word of each notice.
fn push_notices(out: &mut Vec<u8>, notices: &Notices) -> Result<(), AllocError> {
    for notice in notices.iter() {
        out.extend_from_slice(b"!")?;
        push_word(out, notice.word.bytes())?;
    }
    Ok(())
}

/// Adds the links that units want.
fn push_wanted(out: &mut Vec<u8>, wanted: &Wanted) -> Result<(), AllocError> {
    for (path, file) in wanted.links.iter() {
        push_words(out, path.text(), file.text())?;
    }
    push_notices(out, &wanted.notices)
}

fn push_instances(out: &mut Vec<u8>, instances: &Instances) -> Result<(), AllocError> {
    for instance in instances.as_slice() {
        push_word(out, instance.bytes())?;
    }
    Ok(())
}

fn push_rule(out: &mut Vec<u8>, rule: &Rule) -> Result<(), AllocError> {
    match rule {
        Rule::Enable { pattern, instances } => {
            push_words(out, b"enable", pattern.bytes())?;
            push_instances(out, instances)
        }
        Rule::Disable { pattern } => push_words(out, b"disable", pattern.bytes()),
        Rule::Ignore { pattern } => push_words(out, b"ignore", pattern.bytes()),
    }
}

fn push_rules(out: &mut Vec<u8>, rules: &Rules) -> Result<(), AllocError> {
    for rule in rules.as_slice() {
        push_rule(out, rule)?;
    }
    Ok(())
}

fn push_verdict(out: &mut Vec<u8>, verdict: &Verdict) -> Result<(), AllocError> {
    match verdict {
        Verdict::Enable(instances) => {
            push_word(out, b"enable")?;
            push_instances(out, instances)
        }
        Verdict::Disable => push_word(out, b"disable"),
        Verdict::Ignore => push_word(out, b"ignore"),
    }
}

/// What a call is given: a tree, units, and a list to which paths are added.
#[derive(Drop)]
struct Given {
    tree: Box<Tree>,
    units: Vec<UnitName>,
    cells: Cells,
}

/// Adds where the entry at a path leads.
fn push_entry(
    alloc: Global,
    text: &[u8],
    given: &mut Given,
    out: &mut Vec<u8>,
) -> Result<(), AllocError> {
    let path = path(alloc, text)?;
    let Some(entry) = given.tree.get(&path) else {
        return push_word(out, b"none");
    };
    let end = follow_entry_into(alloc, &given.tree, &path, entry, &mut given.cells)?;
    push_end(out, &end)
}

/// Adds what a policy says of a unit. If memory runs out, its rules are as they were, and it is
/// asked again.
fn push_said(
    alloc: Global,
    policy: &Policy,
    text: &[u8],
    out: &mut Vec<u8>,
) -> Result<(), AllocError> {
    let unit = name(alloc, text)?;
    let mut before = Vec::new(alloc);
    push_rules(&mut before, policy.rules())?;
    if let Ok(verdict) = policy.verdict(alloc, &unit) {
        return push_verdict(out, &verdict);
    }
    let mut now = Vec::new(alloc);
    push_rules(&mut now, policy.rules())?;
    if now != before {
        return push_word(out, b"changed");
    }
    let verdict = policy.verdict(alloc, &unit)?;
    push_verdict(out, &verdict)
}

/// The calls of presets.
fn push_presets(
    alloc: Global,
    row: &Row,
    given: &mut Given,
    out: &mut Vec<u8>,
) -> Result<(), AllocError> {
    if is(row, b"rules") {
        let rules = Rules::of_into(alloc, given.tree.entries(), &given.tree, &mut given.cells)?;
        return push_rules(out, &rules);
    }
    let policy = Box::new(alloc, Policy::of(alloc, &given.tree)?)?;
    if is(row, b"verdict") {
        return push_said(alloc, &policy, &row.two, out);
    }
    push_rules(out, policy.rules())?;
    push_count(out, policy.cells().as_slice().len())
}

/// Adds the links that units want. The paths that are looked at are added to the list.
fn push_wanted_into(alloc: Global, given: &mut Given, out: &mut Vec<u8>) -> Result<(), AllocError> {
    match wanted_into(
        alloc,
        &given.tree,
        &given.units,
        Scope::Etc,
        false,
        &mut given.cells,
    )? {
        Ok(wanted) => push_wanted(out, &wanted),
        Err(WantedFault::NeedsInstance(unit)) => push_words(out, b"needs", unit.text()),
        Err(WantedFault::Clash(path)) => push_words(out, b"clash", path.text()),
    }
}

fn push_wanted_alone(alloc: Global, given: &Given, out: &mut Vec<u8>) -> Result<(), AllocError> {
    let closure = closed(alloc, &given.tree, &given.units)?;
    match wanted(alloc, &given.tree, &closure, Scope::Etc, false) {
        Ok(wanted) => push_wanted(out, &wanted),
        Err(WantedError::NeedsInstance(unit)) => push_words(out, b"needs", unit.text()),
        Err(WantedError::Clash(path)) => push_words(out, b"clash", path.text()),
        Err(WantedError::OutOfMemory) => Err(AllocError),
    }
}

/// Adds the units that are enabled together. The paths that are looked at are added to the list.
fn push_closure_into(
    alloc: Global,
    given: &mut Given,
    out: &mut Vec<u8>,
) -> Result<(), AllocError> {
    match closure_into(alloc, &given.tree, &given.units, &mut given.cells)? {
        Ok(closed) => {
            push_units(out, closed.units.as_slice())?;
            push_notices(out, &closed.notices)
        }
        Err(ClosureFault::TooMany) => push_word(out, b"too-many"),
    }
}

/// Adds the units that are enabled together, and how many paths were looked at.
fn push_closure(alloc: Global, given: &Given, out: &mut Vec<u8>) -> Result<(), AllocError> {
    match closure(alloc, &given.tree, &given.units) {
        Ok(closure) => {
            push_units(out, closure.units.as_slice())?;
            push_notices(out, &closure.notices)?;
            push_count(out, closure.cells.as_slice().len())
        }
        Err(ClosureError::TooMany(_)) => push_word(out, b"too-many"),
        Err(ClosureError::OutOfMemory) => Err(AllocError),
    }
}

/// The calls of the units of a list.
fn push_of_units(
    alloc: Global,
    row: &Row,
    given: &mut Given,
    out: &mut Vec<u8>,
) -> Result<(), AllocError> {
    if is(row, b"closure into") {
        push_closure_into(alloc, given, out)
    } else if is(row, b"closure") {
        push_closure(alloc, given, out)
    } else if is(row, b"wanted into") {
        push_wanted_into(alloc, given, out)
    } else if is(row, b"wanted") {
        push_wanted_alone(alloc, given, out)
    } else {
        push_presets(alloc, row, given, out)
    }
}

/// Makes the call of a row, and adds what it returns. There is room for that, so that memory runs
/// out for the call alone.
fn push_call(
    alloc: Global,
    row: &Row,
    given: &mut Given,
    out: &mut Vec<u8>,
) -> Result<(), AllocError> {
    if is(row, b"find") {
        let unit = name(alloc, &row.two)?;
        let found = find_into(alloc, &given.tree, &unit, &mut given.cells)?;
        push_found(out, &found)
    } else if is(row, b"section") {
        let unit = name(alloc, &row.two)?;
        let section = section_into(alloc, &given.tree, &unit, &mut given.cells)?;
        push_section(out, &section)
    } else if is(row, b"follow") {
        let path = path(alloc, &row.two)?;
        let end = follow_into(alloc, &given.tree, &path, &mut given.cells)?;
        push_end(out, &end)
    } else if is(row, b"entry") {
        push_entry(alloc, &row.two, given, out)
    } else {
        push_of_units(alloc, row, given, out)
    }
}

/// The path that is in a list before a call.
const FIRST: &[u8] = b"/run/systemd/system/first.service";

/// The units of a row, if it has any and not a path.
fn units_of(alloc: Global, row: &Row) -> Result<Vec<UnitName>, AllocError> {
    if row.two.is_empty() || row.two.starts_with(b"/") {
        return Ok(Vec::new(alloc));
    }
    names(alloc, &row.two)
}

fn given_of(alloc: Global, row: &Row) -> Result<Given, AllocError> {
    let mut cells = Cells::new(alloc);
    cells.push(path(alloc, FIRST)?)?;
    Ok(Given {
        tree: tree(alloc, &row.one)?,
        units: units_of(alloc, row)?,
        cells,
    })
}

fn push_tree(out: &mut Vec<u8>, tree: &Tree) -> Result<(), AllocError> {
    for (path, entry) in tree.iter() {
        let kind = if matches!(entry, Entry::Link(_)) {
            b"L"
        } else {
            b"F"
        };
        push_word(out, kind)?;
        push_words(out, path.text(), entry.bytes())?;
    }
    Ok(())
}

/// All that is given to a call.
fn text_of(alloc: Global, given: &Given) -> Result<Vec<u8>, AllocError> {
    let mut text = Vec::new(alloc);
    push_tree(&mut text, &given.tree)?;
    push_units(&mut text, &given.units)?;
    for cell in given.cells.as_slice() {
        push_word(&mut text, cell.text())?;
    }
    Ok(text)
}

/// Makes the call of a row, and makes it again if memory runs out. Adds what it returns, and what
/// is wrong.
fn push_answer(
    alloc: Global,
    row: &Row,
    given: &mut Given,
    out: &mut Vec<u8>,
) -> Result<(), AllocError> {
    let before = text_of(alloc, given)?;
    if push_call(alloc, row, given, out).is_ok() {
        return Ok(());
    }
    if text_of(alloc, given)? != before {
        return push_word(out, b"changed");
    }
    match push_call(alloc, row, given, out) {
        Ok(()) => Ok(()),
        Err(AllocError) => push_word(out, b"out-of-memory-twice"),
    }
}

/// More bytes than an answer has.
const ROOM: usize = 1000;

fn answer(alloc: Global, row: &Row) -> Result<Vec<u8>, AllocError> {
    let mut given = given_of(alloc, row)?;
    let mut out = Vec::with_capacity(alloc, ROOM)?;
    push_answer(alloc, row, &mut given, &mut out)?;
    let added = given.cells.as_slice().len().saturating_sub(1);
    out.extend_from_slice(b"+")?;
    push_decimal(&mut out, added)?;
    Ok(out)
}

#[test]
fn what_is_looked_up_is_as_it_was_without_memory(rt: HostRuntime) -> Result<(), Fail> {
    assert_rows(rt.alloc(), ROWS, answer)
}
