//! Capturing roots.
use super::fake::Failing;
use super::root::Root;
use disk::{CaptureError, Oddity, capture};
use link_tree::{Tree, TreePath};
use sample_rows::{Row, assert_rows, is};
use sample_values::{path, tree};
use std::alloc::{AllocError, Global};
use std::test::Fail;
use tree_steps::are_same;
use unit_name::ample;

/// Slots of each kind, chains of links out of them, and many entries that are neither.
const WHOLE: &[u8] = b"unitadm-inventory 1
L\t/etc/systemd/system/a.service\t/opt/a.service
F\t1\t/etc/systemd/system/a.service.d/drop-in.conf
d
L\t/etc/systemd/system/away.service\t/opt/nothing.service
L\t/etc/systemd/system/loop.service\t/opt/loop/one
L\t/etc/systemd/system/masked.service\t/dev/null
L\t/etc/systemd/system/multi-user.target.wants/w.service\t../w.service
L\t/etc/systemd/system/x.target.requires/r.service\t/srv/r.service
F\t1\t/etc/systemd/system-preset/50-local.preset
p
F\t1\t/run/systemd/system-preset/60-run.preset
p
F\t1\t/run/systemd/system/run.service
r
F\t1\t/usr/lib/systemd/system-preset/90-systemd.preset
p
F\t1\t/usr/lib/systemd/system/w.service
w
F\t1\t/usr/local/lib/systemd/system-preset/10-unread.preset
p
F\t1\t/usr/local/lib/systemd/system/local.service
l
L\t/opt/a.service\t../srv/b.service
L\t/opt/loop/one\ttwo
L\t/opt/loop/two\tone
F\t1\t/srv/b.service
b
F\t1\t/srv/asked.service
k
F\t1\t/srv/other.service
o
F\t1\t/srv/r.service
r
F\t1\t/dev/null
n
end
";

const CAPTURED: &[u8] = b"unitadm-inventory 1
L\t/etc/systemd/system/a.service\t/opt/a.service
L\t/etc/systemd/system/away.service\t/opt/nothing.service
L\t/etc/systemd/system/loop.service\t/opt/loop/one
L\t/etc/systemd/system/masked.service\t/dev/null
L\t/etc/systemd/system/multi-user.target.wants/w.service\t../w.service
L\t/etc/systemd/system/x.target.requires/r.service\t/srv/r.service
F\t1\t/etc/systemd/system-preset/50-local.preset
p
F\t1\t/run/systemd/system-preset/60-run.preset
p
F\t1\t/run/systemd/system/run.service
r
F\t1\t/usr/lib/systemd/system-preset/90-systemd.preset
p
F\t1\t/usr/lib/systemd/system/w.service
w
F\t1\t/usr/local/lib/systemd/system/local.service
l
L\t/opt/a.service\t../srv/b.service
L\t/opt/loop/one\ttwo
L\t/opt/loop/two\tone
F\t1\t/srv/b.service
b
F\t1\t/srv/r.service
r
end
";

/// A link to a link, and a target that leads beneath the second link.
const THROUGH: &[u8] = b"unitadm-inventory 1
L\t/etc/systemd/system/a.service\t/opt/app
L\t/etc/systemd/system/b.service\t/opt/app/b.service
L\t/opt/app\t/srv
end
";

const ROWS: &[u8] = b"\
    # capture: what is captured of the tree ONE, and how many calls failed. Slots are captured,\n\
    # and what their links lead to. What is captured is captured again as it is.\n\
    capture\twhole\t\tas wanted; failed calls 0\n\
    capture\tcaptured\t\tas wanted; failed calls 0\n\
    # odd at: the same, with a directory at TWO. At a slot it is reported.\n\
    odd at\twhole\t/usr/lib/systemd/system/w.service\todd: Directory; failed calls 0\n\
    odd at\twhole\t/usr/lib/systemd/system-preset/90-systemd.preset\t\
        odd: Directory; failed calls 0\n\
    # Elsewhere it counts as nothing: the last file of a chain, and a file to which no link\n\
    # leads.\n\
    odd at\twhole\t/srv/b.service\t16 entries; failed calls 0\n\
    odd at\twhole\t/srv/other.service\tas wanted; failed calls 0\n\
    # no directory at: with a file in place of the directory TWO. If it has slots, that is\n\
    # reported.\n\
    no directory at\twhole\t/etc/systemd/system/multi-user.target.wants\t\
        no directory; failed calls 0\n\
    no directory at\twhole\t/etc/systemd/system-preset\tno directory; failed calls 0\n\
    no directory at\twhole\t/etc/systemd/system/a.service.d\tas wanted; failed calls 0\n\
    # beneath: with a file at TWO, beneath a link. An inventory can't say that.\n\
    beneath\tthrough\t/opt/app/b.service\tbad shape; failed calls 0\n\
    # asked for: with what is at these paths too. There is nothing at the other.\n\
    asked for\twhole\t/srv/asked.service /srv/nothing\t18 entries; failed calls 0\n";

/// The trees of the three inventories.
#[derive(Drop)]
struct Trees {
    whole: Box<Tree>,
    captured: Box<Tree>,
    through: Box<Tree>,
}

impl Trees {
    fn named(&self, word: &[u8]) -> &Tree {
        if word == b"captured".as_slice() {
            return &self.captured;
        }
        if word == b"through".as_slice() {
            return &self.through;
        }
        &self.whole
    }
}

fn read_trees(alloc: Global) -> Result<Trees, AllocError> {
    Ok(Trees {
        whole: tree(alloc, WHOLE)?,
        captured: tree(alloc, CAPTURED)?,
        through: tree(alloc, THROUGH)?,
    })
}

/// What a capture resulted in.
#[derive(Clone, Copy)]
pub(crate) enum Came {
    Equal,
    Other(usize),
    Odd(Oddity),
    NoDirectory,
    TooMany,
    BadShape,
    Failed,
}

/// What an error is reported as. If memory ran out, the result is `AllocError`.
pub(crate) fn came_of(error: CaptureError) -> Result<Came, AllocError> {
    match error {
        CaptureError::Odd(_slot, oddity) => Ok(Came::Odd(oddity)),
        CaptureError::NoDirectory(_directory) => Ok(Came::NoDirectory),
        CaptureError::TooMany => Ok(Came::TooMany),
        CaptureError::BadShape => Ok(Came::BadShape),
        CaptureError::Failed => Ok(Came::Failed),
        CaptureError::OutOfMemory => Err(AllocError),
    }
}

fn capture_on(
    alloc: Global,
    root: &mut Root,
    also: &[TreePath],
    wanted: &Tree,
) -> Result<Came, AllocError> {
    match capture(alloc, root, also) {
        Ok(tree) => Ok(if are_same(&tree, wanted) {
            Came::Equal
        } else {
            Came::Other(tree.len())
        }),
        Err(error) => came_of(error),
    }
}

pub(crate) fn shared_root(
    alloc: Global,
    tree: &Tree,
    failing: Failing,
) -> Result<Box<Root>, AllocError> {
    let tree = Box::new(alloc, tree.share()?)?;
    Root::new(alloc, tree, failing)
}

/// Puts something odd into a root. If it is none of these, the result is `AllocError`, which makes
/// a test fail.
pub(crate) fn put_strange(
    alloc: Global,
    root: &mut Root,
    strange: &[u8],
    at: &[u8],
) -> Result<(), AllocError> {
    if strange == b"capture".as_slice() || strange == b"asked for".as_slice() {
        return Ok(());
    }
    if strange == b"take".as_slice() {
        return Ok(());
    }
    let at = path(alloc, at)?;
    if strange == b"odd at".as_slice() {
        root.odd = Some(at);
    } else if strange == b"no directory at".as_slice() {
        root.no_directory = Some(at);
    } else if strange == b"beneath".as_slice() {
        root.beneath = Some(at);
    } else {
        return Err(AllocError);
    }
    Ok(())
}

fn push_path(alloc: Global, paths: &mut Vec<TreePath>, text: &[u8]) -> Result<(), AllocError> {
    let path = path(alloc, text)?;
    Ok(paths.push(path)?)
}

fn asked_for(alloc: Global, row: &Row) -> Result<Vec<TreePath>, AllocError> {
    let mut paths = Vec::new(alloc);
    if is(row, b"asked for") {
        for text in row.two.split(|b| *b == b' ') {
            push_path(alloc, &mut paths, text)?;
        }
    }
    Ok(paths)
}

pub(crate) fn word_of(came: Came) -> &'static str {
    match came {
        Came::Equal => "as wanted",
        Came::Other(_) => "other",
        Came::Odd(_) => "odd",
        Came::NoDirectory => "no directory",
        Came::TooMany => "too many",
        Came::BadShape => "bad shape",
        Came::Failed => "failed",
    }
}

fn text_of(alloc: Global, came: Came, failures: u64) -> Result<Vec<u8>, AllocError> {
    let word = word_of(came);
    let text = match came {
        Came::Other(len) => format!(in alloc; "{len} entries; failed calls {failures}")?,
        Came::Odd(oddity) => format!(in alloc; "odd: {oddity:?}; failed calls {failures}")?,
        _ => format!(in alloc; "{word}; failed calls {failures}")?,
    };
    Ok(text.into_bytes())
}

fn answer(alloc: Global, trees: &Trees, row: &Row) -> Result<Vec<u8>, AllocError> {
    let mut root = shared_root(alloc, trees.named(&row.one), Failing::NEVER)?;
    put_strange(alloc, &mut root, &row.kind, &row.two)?;
    let also = asked_for(alloc, row)?;
    let came = capture_on(alloc, &mut root, &also, &trees.captured)?;
    text_of(alloc, came, root.failures)
}

#[test]
fn slots_and_what_links_lead_to(rt: HostRuntime) -> Result<(), Fail> {
    let trees = ample!(read_trees(rt.alloc()), AllocError)?;
    assert_rows(rt.alloc(), ROWS, |alloc, row| answer(alloc, &trees, row))
}

/// Whether a capture in which one call fails reports that, and the root counts one failure; or if
/// there is no such call, whether all is captured.
fn is_reported(alloc: Global, trees: &Trees, call: u32) -> Result<bool, AllocError> {
    let mut root = shared_root(alloc, &trees.whole, Failing::once(call))?;
    let came = capture_on(alloc, &mut root, &[], &trees.captured)?;
    let has_failed = call < root.calls;
    let is_right = match came {
        Came::Failed => has_failed,
        Came::Equal => !has_failed,
        _ => false,
    };
    Ok(is_right && root.failures == u64::from(has_failed))
}

/// The first of this number of calls whose failure isn't reported, if there is one.
fn unreported(alloc: Global, calls: u32) -> Result<Option<u32>, AllocError> {
    let trees = read_trees(alloc)?;
    for call in 0..calls {
        if !is_reported(alloc, &trees, call)? {
            return Ok(Some(call));
        }
    }
    Ok(None)
}

/// Each call fails in turn, and that is reported.
#[test]
fn failures_are_reported(rt: HostRuntime) -> Result<(), Fail> {
    assert_eq!(rt; ample!(unreported(rt.alloc(), 40), AllocError)?, None);
    Ok(())
}
