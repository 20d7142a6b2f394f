//! Links that are made all at once, and what is looked at.
use super::texts::{push_key, read_as};
use footprint::{Answer, Key, Outcome, Refusal, StateWord};
use link_tree::{Change, Entry, Scope, Slot, TreePath};
use load_path::{End, Found};
use sample_rows::{Row, assert_rows, is};
use sample_values::{name, path, tree};
use std::alloc::{AllocError, Global};
use std::test::Fail;
use transaction::{Transaction, WantedLinks};

/// `b` leads to its file in another spelling, `c` elsewhere, and a file is at `d`.
const TREE: &[u8] = b"unitadm-inventory 1
L\t/etc/systemd/system/b.service\t../../../usr/lib/systemd/system/b.service
L\t/etc/systemd/system/c.service\t/opt/c.service
F\t1\t/etc/systemd/system/d.service
d
L\t/etc/systemd/system/m.target.wants/a.service\t/usr/lib/systemd/system/a.service
F\t1\t/usr/lib/systemd/system/a.service
a
end
";

const ROWS: &[u8] = b"\
    # wanted: how TREE changes if links are wanted (`+z`: z.service leads to its file) or not\n\
    # (`-c`: nothing is there), all at once. For each change the entry before and the one after,\n\
    # and behind `|` the cells that are read.\n\
    wanted\t+z -c +b -d -y +a\t\ta.service + /usr/lib/systemd/system/a.service\\n\
        c.service - /opt/c.service\\nd.service - d\\n\
        z.service + /usr/lib/systemd/system/z.service\\n\
        | a.service b.service c.service d.service y.service z.service\n\
    # The least path at which something else exists is refused, and all are read.\n\
    wanted\t+d +z +c +a\t\texists c.service| a.service c.service d.service z.service\n\
    wanted\t+d -c\t\texists d.service| c.service d.service\n\
    # What is wanted last counts.\n\
    wanted\t+c -c\t\tc.service - /opt/c.service\\n| c.service\n\
    wanted\t-c +c\t\texists c.service| c.service\n\
    # cleared: the same if the links in `/etc` are cleared that belong to ONE or TWO.\n\
    cleared\ta.service\tb.service\t\
        b.service - ../../../usr/lib/systemd/system/b.service\\n\
        a.service - /usr/lib/systemd/system/a.service\\n\
        | b.service a.service\n\
    # looks: what is found if a unit is looked up, a link is followed and the links of\n\
    # dependencies are counted. All that is looked at is noted: these keys come last.\n\
    looks\ta.service /etc/systemd/system/c.service links\t\t\
        /usr/lib/systemd/system/a.service\\n\
        /etc/systemd/system/c.service\\n\
        1\\n\
        /etc/systemd/system/a.service\\n\
        /etc/systemd/system/c.service\\n\
        /opt/c.service\\n\
        /run/systemd/system/a.service\\n\
        /usr/lib/systemd/system/a.service\\n\
        /usr/local/lib/systemd/system/a.service\\n\
        links\\n\n\
    # reads: what the keys ONE read. No presets are an empty set.\n\
    reads\tpresets\t\tpresets\\nunitadm-inventory 1\\nend\\n\n";

/// Wants a link at a slot if there is a `+`, and otherwise none there.
fn put(
    wanted: &mut WantedLinks,
    sign: u8,
    at: &TreePath,
    file: &TreePath,
) -> Result<(), AllocError> {
    if Slot::of(at).is_none() {
        return Err(AllocError);
    }
    match sign {
        b'+' => wanted.link(at.copy()?, file.copy()?),
        _ => wanted.clear(at.copy()?),
    }
}

fn put_at(
    alloc: Global,
    wanted: &mut WantedLinks,
    sign: u8,
    at: &[u8],
    file: &[u8],
) -> Result<(), AllocError> {
    let at = path(alloc, at)?;
    let file = path(alloc, file)?;
    put(wanted, sign, &at, &file)
}

fn want(alloc: Global, wanted: &mut WantedLinks, word: &[u8]) -> Result<(), AllocError> {
    let [sign, letter] = word else {
        return Err(AllocError);
    };
    let mut at = *b"/etc/systemd/system/x.service";
    at[20] = *letter;
    let mut file = *b"/usr/lib/systemd/system/x.service";
    file[24] = *letter;
    put_at(alloc, wanted, *sign, &at, &file)
}

/// Wants links, each to the file of its name: `+a` a link at `a.service`, `-a` none there.
fn wanted(alloc: Global, words: &[u8]) -> Result<WantedLinks, AllocError> {
    let mut wanted = WantedLinks::none(alloc);
    for word in words.split(|b| *b == b' ') {
        want(alloc, &mut wanted, word)?;
    }
    Ok(wanted)
}

fn push_entry(text: &mut Vec<u8>, sign: &[u8], entry: &Option<Entry>) -> Result<(), AllocError> {
    if let Some(entry) = entry {
        text.extend_from_slice(sign)?;
        text.extend_from_slice(entry.bytes())?;
    }
    Ok(())
}

pub(crate) fn push_change(text: &mut Vec<u8>, change: &Change) -> Result<(), AllocError> {
    text.extend_from_slice(change.path.file_name())?;
    push_entry(text, b" - ", &change.before)?;
    push_entry(text, b" + ", &change.after)?;
    text.extend_from_slice(b"\n")
}

/// The names at which something was changed, with the entry before and the one after, or the
/// refusal; and then the names of the cells that were read.
fn push_outcome(text: &mut Vec<u8>, outcome: &Outcome) -> Result<(), AllocError> {
    if let Answer::Refused(Refusal::Exists(path)) = &outcome.answer {
        text.extend_from_slice(b"exists ")?;
        text.extend_from_slice(path.file_name())?;
    }
    for change in outcome.changes.as_slice() {
        push_change(text, change)?;
    }
    text.push(b'|')?;
    for observation in outcome.reading.as_slice() {
        if let Key::Cell(path) = &observation.key {
            text.push(b' ')?;
            text.extend_from_slice(path.file_name())?;
        }
    }
    Ok(())
}

fn text_of(alloc: Global, outcome: &Outcome) -> Result<Vec<u8>, AllocError> {
    let mut text = Vec::new(alloc);
    push_outcome(&mut text, outcome)?;
    Ok(text)
}

/// What is reported about links that are wanted.
fn made(
    alloc: Global,
    transaction: Transaction<'_>,
    wanted: &WantedLinks,
) -> Result<Vec<u8>, AllocError> {
    let mut txn = transaction;
    let done = txn.all_at_once(alloc, wanted);
    let outcome = Box::new(alloc, txn.outcome_of_steps(alloc, done)?)?;
    text_of(alloc, &outcome)
}

/// What is reported about the links that are wanted by these words.
fn told(alloc: Global, words: &[u8]) -> Result<Vec<u8>, AllocError> {
    let tree = tree(alloc, TREE)?;
    let wanted = wanted(alloc, words)?;
    made(alloc, Transaction::new(alloc, &tree), &wanted)
}

fn push_line(text: &mut Vec<u8>, line: &[u8]) -> Result<(), AllocError> {
    text.extend_from_slice(line)?;
    text.extend_from_slice(b"\n")
}

/// The file of a unit.
fn push_found(text: &mut Vec<u8>, found: &Found) -> Result<(), AllocError> {
    match found {
        Found::Unit { file, .. } => push_line(text, file.text()),
        _ => Ok(()),
    }
}

/// The link that leads nowhere.
fn push_end(text: &mut Vec<u8>, end: &End) -> Result<(), AllocError> {
    match end {
        End::Dangling(link) => push_line(text, link.text()),
        _ => Ok(()),
    }
}

/// The keys of all that a transaction looked at.
fn push_keys(
    alloc: Global,
    transaction: Transaction<'_>,
    text: &mut Vec<u8>,
) -> Result<(), AllocError> {
    let answered = transaction.answer(alloc, Answer::State(StateWord::Static))?;
    let outcome = Box::new(alloc, answered)?;
    for observation in outcome.reading.as_slice() {
        push_key(text, &observation.key)?;
        text.push(b'\n')?;
    }
    Ok(())
}

fn find(
    alloc: Global,
    unit: &[u8],
    txn: &mut Transaction<'_>,
    text: &mut Vec<u8>,
) -> Result<(), AllocError> {
    let unit = name(alloc, unit)?;
    let found = txn.find(alloc, &unit)?;
    push_found(text, &found)
}

fn follow(
    alloc: Global,
    link: &[u8],
    txn: &mut Transaction<'_>,
    text: &mut Vec<u8>,
) -> Result<(), AllocError> {
    let link = path(alloc, link)?;
    let end = txn.follow(alloc, &link)?;
    push_end(text, &end)
}

fn count_links(
    alloc: Global,
    txn: &mut Transaction<'_>,
    text: &mut Vec<u8>,
) -> Result<(), AllocError> {
    let count = txn.entries(alloc, Key::Links)?.len();
    let line = format!(in alloc; "{count}\n")?;
    text.extend_from_slice(line.as_bytes())
}

/// Looks a unit up, follows a link, or counts the links of dependencies.
fn look(
    alloc: Global,
    word: &[u8],
    txn: &mut Transaction<'_>,
    text: &mut Vec<u8>,
) -> Result<(), AllocError> {
    if word == b"links".as_slice() {
        return count_links(alloc, txn, text);
    }
    if word.starts_with(b"/") {
        return follow(alloc, word, txn, text);
    }
    find(alloc, word, txn, text)
}

fn push_looks(alloc: Global, words: &[u8], text: &mut Vec<u8>) -> Result<(), AllocError> {
    let tree = tree(alloc, TREE)?;
    let mut txn = Transaction::new(alloc, &tree);
    for word in words.split(|b| *b == b' ') {
        look(alloc, word, &mut txn, text)?;
    }
    push_keys(alloc, txn, text)
}

/// What is found, a line for each, and the keys of all that.
fn looks(alloc: Global, words: &[u8]) -> Result<Vec<u8>, AllocError> {
    let mut text = Vec::new(alloc);
    push_looks(alloc, words, &mut text)?;
    Ok(text)
}

/// Wants none of the links in `/etc` that belong to one of two names.
fn wanted_away(
    alloc: Global,
    one: &[u8],
    other: &[u8],
    txn: &mut Transaction<'_>,
) -> Result<WantedLinks, AllocError> {
    let names = [name(alloc, one)?, name(alloc, other)?];
    let links = txn.links_of_all(alloc, Scope::Etc, &names)?;
    WantedLinks::cleared(alloc, &links)
}

/// What is made if the links in `/etc` are cleared that belong to one of two names.
fn cleared(alloc: Global, one: &[u8], other: &[u8]) -> Result<Vec<u8>, AllocError> {
    let tree = tree(alloc, TREE)?;
    let mut txn = Transaction::new(alloc, &tree);
    let wanted = wanted_away(alloc, one, other, &mut txn)?;
    made(alloc, txn, &wanted)
}

fn answer(alloc: Global, row: &Row) -> Result<Vec<u8>, AllocError> {
    if is(row, b"wanted") {
        return told(alloc, &row.one);
    }
    if is(row, b"cleared") {
        return cleared(alloc, &row.one, &row.two);
    }
    if is(row, b"looks") {
        return looks(alloc, &row.one);
    }
    if is(row, b"reads") {
        return read_as(alloc, TREE, &row.one);
    }
    Vec::from_slice(alloc, b"unknown kind")
}

#[test]
fn links_are_made_and_cleared_all_at_once(rt: HostRuntime) -> Result<(), Fail> {
    assert_rows(rt.alloc(), ROWS, answer)
}
