//! Names that are looked up, paths that are followed, and instances of templates. If memory runs
//! out for a call, all that it was given is as it was, and it is made again.
use crate::of_link_tree::writing::inventory_of;
use link_tree::{Tree, TreePath};
use load_path::{Cells, End, Found, find, follow, put_in};
use sample_rows::{Row, assert_rows, is};
use sample_values::{name, path, tree};
use std::alloc::{AllocError, Global};
use std::test::Fail;
use unit_name::{Kind, UnitName};

/// `a` and `b` lead to each other, and `c` leads to a file by two links. `m` is masked, and `u@` is
/// another name of a template.
const TREE: &[u8] = b"unitadm-inventory 1\n\
L\t/etc/systemd/system/a.service\tb.service\n\
L\t/etc/systemd/system/b.service\ta.service\n\
L\t/etc/systemd/system/c.service\td.service\n\
L\t/etc/systemd/system/d.service\t/lib/systemd/system/e.service\n\
L\t/etc/systemd/system/m.service\t/dev/null\n\
L\t/etc/systemd/system/u@.service\t/usr/lib/systemd/system/t@.service\n\
F\t1\t/usr/lib/systemd/system/e.service\ne\n\
F\t1\t/usr/lib/systemd/system/t@.service\nt\n\
end\n";

const ROWS: &[u8] = b"\
    # What is found under the name ONE, and after it all paths that are looked at.\n\
    find\ta.service\t\tdangling /etc/systemd/system/b.service | \
        /etc/systemd/system/a.service /etc/systemd/system/b.service \n\
    find\tc.service\t\te.service /usr/lib/systemd/system/e.service | \
        /etc/systemd/system/c.service /etc/systemd/system/d.service \
        /usr/lib/systemd/system/e.service \n\
    find\tm.service\t\tmasked | /etc/systemd/system/m.service \n\
    find\tnone.service\t\tmissing | /etc/systemd/system/none.service \
        /run/systemd/system/none.service /usr/local/lib/systemd/system/none.service \
        /usr/lib/systemd/system/none.service \n\
    find\tu@x.service\t\tt@x.service /usr/lib/systemd/system/t@.service | \
        /etc/systemd/system/u@x.service /run/systemd/system/u@x.service \
        /usr/local/lib/systemd/system/u@x.service /usr/lib/systemd/system/u@x.service \
        /etc/systemd/system/u@.service /usr/lib/systemd/system/t@.service \n\
    \n\
    # Where the path ONE leads, and all paths that are looked at.\n\
    follow\t/etc/systemd/system/a.service\t\tdangling /etc/systemd/system/b.service | \
        /etc/systemd/system/a.service /etc/systemd/system/b.service \n\
    follow\t/etc/systemd/system/c.service\t\tfile /usr/lib/systemd/system/e.service | \
        /etc/systemd/system/c.service /etc/systemd/system/d.service \
        /usr/lib/systemd/system/e.service \n\
    follow\t/etc/systemd/system/m.service\t\tnull | /etc/systemd/system/m.service \n\
    follow\t/opt/none\t\tmissing | /opt/none \n\
    \n\
    # The template ONE with the instance TWO.\n\
    put in\tu@.service\ttty1\tu@tty1.service \n\
    put in\tu@.service\ta/b\tnone \n";

/// Adds a word and a space.
fn push_word(out: &mut Vec<u8>, word: &[u8]) -> Result<(), AllocError> {
    out.extend_from_slice(word)?;
    out.extend_from_slice(b" ")
}

fn push_words(out: &mut Vec<u8>, one: &[u8], other: &[u8]) -> Result<(), AllocError> {
    push_word(out, one)?;
    push_word(out, other)
}

fn push_found(out: &mut Vec<u8>, found: &Found) -> Result<(), AllocError> {
    match found {
        Found::Missing => push_word(out, b"missing"),
        Found::Masked(_) => push_word(out, b"masked"),
        Found::Dangling(link) => push_words(out, b"dangling", link.text()),
        Found::Unit {
            real,
            file,
            place: _,
        } => push_words(out, real.text(), file.text()),
    }
}

fn push_end(out: &mut Vec<u8>, end: &End) -> Result<(), AllocError> {
    match end {
        End::Missing => push_word(out, b"missing"),
        End::Null => push_word(out, b"null"),
        End::File(file) => push_words(out, b"file", file.text()),
        End::Dangling(link) => push_words(out, b"dangling", link.text()),
    }
}

/// Adds the paths that were looked at.
fn push_cells(out: &mut Vec<u8>, cells: &Cells) -> Result<(), AllocError> {
    push_word(out, b"|")?;
    for path in cells.as_slice() {
        push_word(out, path.text())?;
    }
    Ok(())
}

/// What a call may be given: a tree, and the name or the path that ONE is; the other is any.
#[derive(Drop)]
struct Given {
    tree: Box<Tree>,
    name: UnitName,
    path: TreePath,
}

fn push_look(alloc: Global, given: &Given, out: &mut Vec<u8>) -> Result<(), AllocError> {
    let look = find(alloc, &given.tree, &given.name)?;
    push_found(out, &look.found)?;
    push_cells(out, &look.cells)
}

fn push_trail(alloc: Global, given: &Given, out: &mut Vec<u8>) -> Result<(), AllocError> {
    let trail = follow(alloc, &given.tree, &given.path)?;
    push_end(out, &trail.end)?;
    push_cells(out, &trail.cells)
}

/// Adds the instance of a template, if there is one.
fn push_instance(
    alloc: Global,
    template: &UnitName,
    instance: &[u8],
    out: &mut Vec<u8>,
) -> Result<(), AllocError> {
    if template.kind() == Kind::Plain {
        return push_word(out, b"plain");
    }
    match put_in(alloc, template, Some(instance))? {
        Some(name) => push_word(out, name.text()),
        None => push_word(out, b"none"),
    }
}

/// Makes the call of a row, and adds what it returns. There is room for that, so that memory runs
/// out for the call alone.
fn push_call(alloc: Global, row: &Row, given: &Given, out: &mut Vec<u8>) -> Result<(), AllocError> {
    if is(row, b"find") {
        push_look(alloc, given, out)
    } else if is(row, b"follow") {
        push_trail(alloc, given, out)
    } else {
        push_instance(alloc, &given.name, &row.two, out)
    }
}

fn given_of(alloc: Global, row: &Row) -> Result<Given, AllocError> {
    let one = row.one.as_slice();
    let is_path = is(row, b"follow");
    let unit = if is_path {
        b"other.service".as_slice()
    } else {
        one
    };
    let at = if is_path { one } else { b"/other".as_slice() };
    Ok(Given {
        tree: tree(alloc, TREE)?,
        name: name(alloc, unit)?,
        path: path(alloc, at)?,
    })
}

/// All that is given to a call.
fn text_of(alloc: Global, given: &Given) -> Result<Vec<u8>, AllocError> {
    let mut text = inventory_of(alloc, &given.tree)?;
    push_words(&mut text, given.name.text(), given.path.text())?;
    Ok(text)
}

/// Makes the call of a row, and makes it again if memory runs out. Adds what it returns, or what is
/// wrong.
fn push_answer(
    alloc: Global,
    row: &Row,
    given: &Given,
    out: &mut Vec<u8>,
) -> Result<(), AllocError> {
    let before = text_of(alloc, given)?;
    if push_call(alloc, row, given, out).is_ok() {
        return Ok(());
    }
    if text_of(alloc, given)? != before {
        return push_word(out, b"changed");
    }
    match push_call(alloc, row, given, out) {
        Ok(()) => Ok(()),
        Err(AllocError) => push_word(out, b"out-of-memory-twice"),
    }
}

/// More bytes than an answer has.
const ROOM: usize = 1000;

fn answer(alloc: Global, row: &Row) -> Result<Vec<u8>, AllocError> {
    let given = given_of(alloc, row)?;
    let mut out = Vec::with_capacity(alloc, ROOM)?;
    push_answer(alloc, row, &given, &mut out)?;
    Ok(out)
}

#[test]
fn trees_are_looked_at_or_as_they_were(rt: HostRuntime) -> Result<(), Fail> {
    assert_rows(rt.alloc(), ROWS, answer)
}
