//! What calls print, and with which status they end.
ghost use Rattle.std.specs.Prelude.{◌≤◌, length, vec_len};
ghost use Rattle.history.specs.declared.history.TheConstants.{MAX_ROWS};

use super::is;
use byte_streams::FromRead;
use history::{History, MAX_ROWS, Row as HistoryRow};
use link_tree::{Change, Tree};
use root_runs::{
    Plan, count_refused, enabled_status, first_of_vendor, has_refused, login_operator, plan_of,
    push_answers, push_change_messages, push_messages, push_missing_warning, push_refusals,
    push_report, push_unmade,
};
use root_words::How;
use sample_rows::{Row, assert_rows};
use sample_values::{file, link, path, tree};
use std::alloc::{AllocError, Global};
use std::test::Fail;
use unit_script::{Action, Call, history_of, read_script};

/// Lines that are made on the tree below, and what is printed; changes, and what is said of them.
const ROWS: &[u8] = b"\
    # words that are skipped\n\
    messages\ta enable u.service\t\t\
        u.service: Alias=u.socket is skipped: \
        u.socket is no name that the unit can have as an alias.\\n\
        u.service: Also=%z is skipped: %z has an unknown specifier.\\n\
        u.service: Also=al.service is skipped: al.service is an alias of another unit.\\n\
        u.service: Also=d.service is skipped: d.service is a link that leads to no unit file.\\n\
        u.service: Also=n.service is skipped: n.service is masked.\\n\
        u.service: Also=none.service is skipped: none.service does not exist.\\n\
        u.service: Also=x is skipped: x is no unit's name.\\n\
        u.service: RequiredBy=y is skipped: y is no unit's name.\\n\n\
    \n\
    # calls that are refused\n\
    messages\ta enable n.service\\na enable none.service\t\t\
        Failed to enable n.service: it is masked.\\n\
        Failed to enable none.service: it does not exist.\\n\n\
    messages\ta enable d.service\t\t\
        Failed to enable /etc/systemd/system/d.service: this link leads nowhere.\\n\n\
    messages\ta enable t@.service\t\t\
        Failed to enable t@.service: it is a template, and needs an instance.\\n\n\
    messages\ta enable al.service\t\tFailed to enable al.service: it is an alias of u.service.\\n\n\
    messages\ta mask u.service\\na mask n.service\t\t\n\
    messages\ta mask al.service\t\t\
        Failed to mask /etc/systemd/system/al.service: something else is there.\\n\n\
    messages\ta link /opt/x\t\tFailed to link /opt/x: it has the wrong type.\\n\n\
    messages\ta add-wants m.target none.service\t\t\
        Failed to add a dependency on m.target: it does not exist.\\n\n\
    messages\ta set-default u.service\t\tFailed to set the default to u.service: it has the wrong type.\\n\n\
    messages\ta get-default\t\tFailed to get the default, default.target: it does not exist.\\n\n\
    messages\ta place /opt/x file\t\t\
        Failed to place /opt/x: no unit, dependency or preset is read from this path.\\n\n\
    messages\ta remove /etc/systemd/system/\\x1b[m.service\t\t\
        Failed to remove /etc/systemd/system/\\\\x1b[m.service: \
        no unit, dependency or preset is read from this path.\\n\n\
    messages\ta remove /etc/systemd/system/x.service\t\t\
        Failed to remove /etc/systemd/system/x.service: nothing is there.\\n\n\
    messages\ta undo 3\\na redo 1\\na mask x.service\\na redo 3\\na undo 3\\na undo 3\t\t\
        Failed to undo row 3: there is no such row.\\n\
        Failed to redo row 1: it is no accepted command.\\n\
        Failed to redo row 3: it is not undone.\\n\
        Failed to undo row 3: it was undone by row 5.\\n\n\
    messages\ta mask x.service\\na unmask x.service\\na undo 1\t\t\
        Failed to undo row 1: it is blocked by row 2.\\n\n\
    \n\
    # what was asked for\n\
    answers\ta is-enabled v.service\\na is-enabled n.service\\na is-enabled none.service\t\t\
        disabled\\nmasked\\nnot-found\\n\n\
    answers\ta set-default g.target\\na get-default\t\tg.target\\n\n\
    answers\ta add-wants g.target u.service t@1.service\\na dependencies g.target\t\t\
        t@1.service\\nu.service\\n\n\
    answers\ta enable none.service\\na undo 1\\na redo 1\t\t\n\
    \n\
    # the status of is-enabled\n\
    status\ta is-enabled v.service\t\t1\n\
    status\ta is-enabled none.service\t\t4\n\
    status\ta is-enabled none.service\\na is-enabled v.service\t\t1\n\
    status\ta is-enabled none.service\\na is-enabled g.target\\na is-enabled v.service\t\t0\n\
    status\ta is-enabled al.service\t\t0\n\
    status\ta is-enabled n.service\t\t1\n\
    status\ta mask x.service\t\t4\n\
    \n\
    # how many were refused\n\
    refused\ta enable none.service\\na undo 1\\na redo 1\\na mask x.service\\na undo 4\t\t3 yes\n\
    refused\ta is-enabled none.service\\na mask x.service\t\t0 no\n\
    \n\
    # what a script prints\n\
    report\ta mask x.service\\na undo 1\t\t\
        1 a ok\\n  + /etc/systemd/system/x.service -> /dev/null\\n\
        2 a undid 1\\n  - /etc/systemd/system/x.service -> /dev/null\\n\
        == changes\\n  - /etc/x file 0\\n  + /etc/x -> /dev/null\\n\n\
    report\ta mask x.service\\na undo 1\t1\t\
        2 a undid 1\\n  - /etc/systemd/system/x.service -> /dev/null\\n\
        == changes\\n  - /etc/x file 0\\n  + /etc/x -> /dev/null\\n\n\
    report\ta mask x.service\t5\t\
        == changes\\n  - /etc/x file 0\\n  + /etc/x -> /dev/null\\n\n\
    dry report\t\t\t== changes (dry run)\\n  - /etc/x file 0\\n  + /etc/x -> /dev/null\\n\n\
    unmade\ta mask x.service\\na enable none.service\\na is-enabled v.service\\na undo 1\\n\
        a get-default\\na mask v.service\t\t\
        nothing was changed: 2 of 6 calls were refused\\n\
        1 a would be ok\\n  + /etc/systemd/system/x.service -> /dev/null\\n\
        2 a refused: none.service not found\\n\
        3 a state disabled no\\n\
        4 a undid 1\\n  - /etc/systemd/system/x.service -> /dev/null\\n\
        5 a refused: default.target not found\\n\
        6 a would be ok\\n  + /etc/systemd/system/v.service -> /dev/null\\n\n\
    unmade\ta mask x.service\\na enable none.service\\na undo 1\t1\t\
        nothing was changed: 1 of 2 calls were refused\\n\
        2 a refused: none.service not found\\n\
        3 a undid 1\\n  - /etc/systemd/system/x.service -> /dev/null\\n\n\
    unmade\ta mask x.service\t9\tnothing was changed: 0 of 0 calls were refused\\n\n\
    refusals\ta mask x.service\\na enable none.service\\na undo 7\t\t\
        2 of 3 calls were refused:\\n\
        line 12: Failed to enable none.service: it does not exist.\\n\
        line 13: Failed to undo row 7: there is no such row.\\n\n\
    \n\
    # what changes\n\
    changed\t/\t/etc/systemd/system/x.service\t\
        Removed \"/etc/systemd/system/x.service\".\\n\
        Created symlink /etc/systemd/system/x.service \\xe2\\x86\\x92 /dev/null.\\n\n\
    changed\t/tmp/r//\t/etc/systemd/system/x.service\t\
        Removed \"/tmp/r/etc/systemd/system/x.service\".\\n\
        Created symlink /tmp/r/etc/systemd/system/x.service \\xe2\\x86\\x92 /dev/null.\\n\n\
    would change\tr\\x1b\t/etc/\\xff\t\
        Would remove \"r\\\\x1b/etc/\\\\xff\".\\n\
        Would create symlink r\\\\x1b/etc/\\\\xff \\xe2\\x86\\x92 /dev/null.\\n\n\
    placed\t/r\t/etc/x\tCreated file \"/r/etc/x\" of 3 bytes.\\n\n\
    would place\t\t/etc/x\tWould create file \"/etc/x\" of 3 bytes.\\n\n\
    missing\tshh.service\t\tshh.service does not exist.\\n\n\
    \n\
    # what a run does: refused, vendor's; then the options\n\
    plan\trefused\t\tleave\n\
    plan\trefused\tkeep-going\tmake\n\
    plan\trefused\tdry-run\tleave\n\
    plan\tvendor's\t\tforbid\n\
    plan\tvendor's\tdry-run\tforbid\n\
    plan\tvendor's\tvendor\tmake\n\
    plan\trefused vendor's\tkeep-going\tforbid\n\
    plan\t\tdry-run\treport\n\
    plan\t\t\tmake\n\
    \n\
    # who is logged in: SUDO_USER, LOGNAME\n\
    login\tanna\tbob\tanna\n\
    login\tAnna\tbob\tbob\n\
    login\t\tBob\troot\n\
    login\t\t\troot\n\
    \n\
    vendor's\t/usr/lib/systemd/system/x.service\t\tyes\n\
    vendor's\t/usr/local/lib/systemd/system/x.service\t\tno\n\
    vendor's\t/usr/local\t\tyes\n\
    vendor's\t/etc/usr/x\t\tno\n\
    ";

/// A unit with words that ask for nothing, for each reason that a word can have; a template and a
/// target.
const TREE: &[u8] = b"unitadm-inventory 1\n\
    L\t/etc/systemd/system/al.service\t/usr/lib/systemd/system/u.service\n\
    L\t/etc/systemd/system/d.service\tgone\n\
    L\t/etc/systemd/system/n.service\t/dev/null\n\
    F\t7\t/opt/x\n\
    [Unit]\n\n\
    F\t7\t/usr/lib/systemd/system/g.target\n\
    [Unit]\n\n\
    F\t28\t/usr/lib/systemd/system/t@.service\n\
    [Install]\nWantedBy=g.target\n\n\
    F\t110\t/usr/lib/systemd/system/u.service\n\
    [Install]\nAlso=%z x none.service n.service d.service al.service\n\
    Alias=u.socket\nWantedBy=m.target\nRequiredBy=y\n\n\
    F\t28\t/usr/lib/systemd/system/v.service\n\
    [Install]\nWantedBy=g.target\n\n\
    end\n";

/// The history of lines on the tree.
fn history(alloc: Global, lines: &[u8]) -> Result<Box<History<Action>>, AllocError> {
    let mut script = Vec::from_slice(alloc, b"== calls\n")?;
    script.extend_from_slice(lines)?;
    let Ok(calls) = read_script(alloc, &mut FromRead::new(script.as_slice())) else {
        return Err(AllocError);
    };
    let tree = Box::into_inner(tree(alloc, TREE)?);
    if calls.len() > MAX_ROWS {
        return Err(AllocError);
    }
    Ok(Box::new(alloc, history_of(alloc, tree, calls)?)?)
}

fn messages(alloc: Global, lines: &[u8]) -> Result<Vec<u8>, AllocError> {
    let history = history(alloc, lines)?;
    let mut out = Vec::new(alloc);
    push_messages(&mut out, history.rows())?;
    Ok(out)
}

fn answers(alloc: Global, lines: &[u8]) -> Result<Vec<u8>, AllocError> {
    let history = history(alloc, lines)?;
    let mut out = Vec::new(alloc);
    push_answers(&mut out, history.rows())?;
    Ok(out)
}

fn status(alloc: Global, lines: &[u8]) -> Result<Vec<u8>, AllocError> {
    let history = history(alloc, lines)?;
    let status = enabled_status(history.rows());
    Ok(format!(in alloc; "{status}")?.into_bytes())
}

fn refused(alloc: Global, lines: &[u8]) -> Result<Vec<u8>, AllocError> {
    let history = history(alloc, lines)?;
    let count = count_refused(history.rows());
    let has = if has_refused(history.rows()) {
        "yes"
    } else {
        "no"
    };
    Ok(format!(in alloc; "{count} {has}")?.into_bytes())
}

/// How many rows are those of earlier runs, by a digit.
fn before(digit: &[u8]) -> usize {
    match digit {
        [digit] => digit.saturating_sub(b'0') as usize,
        _ => 0,
    }
}

fn report(
    alloc: Global,
    lines: &[u8],
    before: usize,
    dry_run: bool,
) -> Result<Vec<u8>, AllocError> {
    let history = history(alloc, lines)?;
    let changes = masked(alloc, b"/etc/x")?;
    let mut out = Vec::new(alloc);
    push_report(&mut out, &history, before, changes.as_slice(), dry_run)?;
    Ok(out)
}

fn unmade(alloc: Global, lines: &[u8], before: usize) -> Result<Vec<u8>, AllocError> {
    let history = history(alloc, lines)?;
    let mut out = Vec::new(alloc);
    push_unmade(&mut out, &history, before)?;
    Ok(out)
}

/// The refused ones of three calls, which are in lines 11 to 13.
fn refusals(alloc: Global, lines: &[u8]) -> Result<Vec<u8>, AllocError> {
    let history = history(alloc, lines)?;
    let mut out = Vec::new(alloc);
    push_refusals(&mut out, &[11, 12, 13], history.rows())?;
    Ok(out)
}

/// A file at a path that becomes a link to `/dev/null`.
fn masked(alloc: Global, at: &[u8]) -> Result<Box<[Change; 1]>, AllocError> {
    let change = Change {
        path: path(alloc, at)?,
        before: Some(file(alloc, b"")?),
        after: Some(link(alloc, b"/dev/null")?),
    };
    Ok(Box::new(alloc, [change])?)
}

/// A file of three bytes that is placed at a path.
fn placed(alloc: Global, at: &[u8]) -> Result<Box<[Change; 1]>, AllocError> {
    let change = Change {
        path: path(alloc, at)?,
        before: None,
        after: Some(file(alloc, b"a\nb")?),
    };
    Ok(Box::new(alloc, [change])?)
}

/// What is said of changes. If memory runs out, nothing may be left of it.
fn said(
    alloc: Global,
    root: &[u8],
    dry_run: bool,
    changes: &[Change],
) -> Result<Vec<u8>, AllocError> {
    let mut out = Vec::new(alloc);
    if push_change_messages(&mut out, root, dry_run, changes).is_err() {
        if !out.is_empty() {
            return Vec::from_slice(alloc, b"a part was left");
        }
        push_change_messages(&mut out, root, dry_run, changes)?;
    }
    Ok(out)
}

fn missing(alloc: Global, name: &[u8]) -> Result<Vec<u8>, AllocError> {
    let mut out = Vec::new(alloc);
    push_missing_warning(&mut out, name)?;
    Ok(out)
}

fn plan(facts: &[u8], options: &[u8]) -> &'static [u8] {
    let how = How {
        dry_run: is(options, b"dry-run"),
        keep_going: is(options, b"keep-going"),
        vendor: is(options, b"vendor"),
    };
    let is_refused = facts.starts_with(b"refused");
    let is_vendors = facts.ends_with(b"vendor's");
    match plan_of(how, is_refused, is_vendors) {
        Plan::Leave => b"leave",
        Plan::Forbid => b"forbid",
        Plan::Report => b"report",
        Plan::Make => b"make",
    }
}

fn vendors(alloc: Global, at: &[u8]) -> Result<Vec<u8>, AllocError> {
    let changes = placed(alloc, at)?;
    let is_found = first_of_vendor(changes.as_slice()).is_some();
    Vec::from_slice(alloc, if is_found { b"yes" } else { b"no".as_slice() })
}

fn answer(alloc: Global, row: &Row) -> Result<Vec<u8>, AllocError> {
    let kind = row.kind.as_slice();
    if is(kind, b"messages") {
        messages(alloc, &row.one)
    } else if is(kind, b"answers") {
        answers(alloc, &row.one)
    } else if is(kind, b"status") {
        status(alloc, &row.one)
    } else if is(kind, b"refused") {
        refused(alloc, &row.one)
    } else if is(kind, b"report") {
        report(alloc, &row.one, before(&row.two), false)
    } else if is(kind, b"dry report") {
        report(alloc, &row.one, before(&row.two), true)
    } else if is(kind, b"unmade") {
        unmade(alloc, &row.one, before(&row.two))
    } else if is(kind, b"refusals") {
        refusals(alloc, &row.one)
    } else if is(kind, b"changed") {
        said(alloc, &row.one, false, masked(alloc, &row.two)?.as_slice())
    } else if is(kind, b"would change") {
        said(alloc, &row.one, true, masked(alloc, &row.two)?.as_slice())
    } else if is(kind, b"placed") {
        said(alloc, &row.one, false, placed(alloc, &row.two)?.as_slice())
    } else if is(kind, b"would place") {
        said(alloc, &row.one, true, placed(alloc, &row.two)?.as_slice())
    } else if is(kind, b"missing") {
        missing(alloc, &row.one)
    } else if is(kind, b"plan") {
        Vec::from_slice(alloc, plan(&row.one, &row.two))
    } else if is(kind, b"login") {
        Vec::from_slice(alloc, login_operator(&row.one, &row.two).text())
    } else if is(kind, b"vendor's") {
        vendors(alloc, &row.one)
    } else {
        Vec::from_slice(alloc, b"unknown kind")
    }
}

#[test]
fn calls_print_and_end(rt: HostRuntime) -> Result<(), Fail> {
    assert_rows(rt.alloc(), ROWS, answer)
}
