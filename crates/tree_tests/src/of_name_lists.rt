//! Lists of paths by names. If memory runs out for a call, each list is as it was, and the call is
//! made again.
use crate::rows::texts_of;
use link_tree::TreePath;
use name_lists::{Listing, NameLists, relisted};
use sample_rows::{Row, assert_rows, is};
use sample_values::path;
use std::alloc::{AllocError, Global};
use std::test::Fail;

const ROWS: &[u8] = b"\
    # The paths ONE, with the path TWO in its place (+) or without it (-).\n\
    relisted\t/a /c\t+/b\t/a\\n/b\\n/c\\n\n\
    relisted\t/a /c\t+/c\t/a\\n/c\\n\n\
    relisted\t/a /c\t+/d\t/a\\n/c\\n/d\\n\n\
    relisted\t\t+/a\t/a\\n\n\
    relisted\t/a /b /c\t-/b\t/a\\n/c\\n\n\
    relisted\t/a /c\t-/b\t/a\\n/c\\n\n\
    relisted\t/a\t-/a\t\n\
    \n\
    # The lists of a and b after changes: a name has these paths (=), or one more (+). A copy from\n\
    # before a change keeps its lists.\n\
    changed\ta=/x b=/y\t\ta\\n/x\\nb\\n/y\\n\n\
    changed\ta=/x,/y a+/w a+/v b=/z\t\ta\\n/x\\n/y\\n/w\\n/v\\nb\\n/z\\n\n\
    changed\ta+/x b+/y a=/z b=\t\ta\\n/z\\nb\\n\n";

/// The paths of a text, separated by this byte; there may be none.
fn paths(alloc: Global, text: &[u8], between: u8) -> Result<Vec<TreePath>, AllocError> {
    let mut paths = Vec::new(alloc);
    for word in text.split(|b| *b == between) {
        if !word.is_empty() {
            paths.push(path(alloc, word)?)?;
        }
    }
    Ok(paths)
}

/// The sign that a word begins with, and what follows it.
fn signed(word: &[u8]) -> (u8, &[u8]) {
    match word {
        [sign, rest @ ..] => (*sign, rest),
        [] => (b'?', b""),
    }
}

/// The name of one letter that a word begins with, the sign after it, and what follows that.
fn named(word: &[u8]) -> (&[u8], u8, &[u8]) {
    let (sign, rest) = signed(word.get(1..).unwrap_or(b""));
    (word.get(..1).unwrap_or(b""), sign, rest)
}

/// The text of paths to which a path is added, or from which it is removed.
fn relisted_text(
    alloc: Global,
    listed: bool,
    path: &TreePath,
    paths: &[TreePath],
) -> Result<Vec<u8>, AllocError> {
    let before = texts_of(alloc, paths)?;
    if let Ok(list) = relisted(alloc, listed, path, paths) {
        return texts_of(alloc, &list);
    }
    if texts_of(alloc, paths)? != before {
        return Vec::from_slice(alloc, b"the paths are changed");
    }
    texts_of(alloc, &relisted(alloc, listed, path, paths)?)
}

fn relisted_of(alloc: Global, row: &Row) -> Result<Vec<u8>, AllocError> {
    let (sign, text) = signed(&row.two);
    let path = path(alloc, text)?;
    let paths = paths(alloc, &row.one, b' ')?;
    relisted_text(alloc, sign == b'+', &path, &paths)
}

/// How the list of a name changes.
fn listing(alloc: Global, sign: u8, text: &[u8]) -> Result<Listing, AllocError> {
    if sign == b'+' {
        return Ok(Listing::OneMore(path(alloc, text)?));
    }
    Ok(Listing::Whole(paths(alloc, text, b',')?))
}

/// The lists of two names.
fn text_of(alloc: Global, lists: &NameLists) -> Result<Vec<u8>, AllocError> {
    let mut text = Vec::new(alloc);
    for name in [b"a", b"b"] {
        text.extend_from_slice(name)?;
        text.push(b'\n')?;
        text.extend_from_slice(&texts_of(alloc, lists.get(name))?)?;
    }
    Ok(text)
}

/// Makes the change of a word. Returns whether all lists were as before if memory ran out.
fn change(alloc: Global, lists: &mut NameLists, word: &[u8]) -> Result<bool, AllocError> {
    let (name, sign, text) = named(word);
    let first = listing(alloc, sign, text)?;
    let second = listing(alloc, sign, text)?;
    let before = text_of(alloc, lists)?;
    if lists.change(alloc, name, first).is_ok() {
        return Ok(true);
    }
    if text_of(alloc, lists)? != before {
        return Ok(false);
    }
    lists.change(alloc, name, second)?;
    Ok(true)
}

/// Makes the change of a word, and returns whether a copy from before it has the lists that it had.
fn change_beside_copy(
    alloc: Global,
    lists: &mut NameLists,
    word: &[u8],
) -> Result<bool, AllocError> {
    let copy = lists.clone()?;
    let before = text_of(alloc, &copy)?;
    let is_kept = change(alloc, lists, word)?;
    Ok(is_kept && text_of(alloc, &copy)? == before)
}

fn changed(alloc: Global, words: &[u8]) -> Result<Vec<u8>, AllocError> {
    let mut lists = NameLists::none(alloc)?;
    for word in words.split(|b| *b == b' ') {
        if !change_beside_copy(alloc, &mut lists, word)? {
            return Vec::from_slice(alloc, b"other lists are changed");
        }
    }
    text_of(alloc, &lists)
}

fn answer(alloc: Global, row: &Row) -> Result<Vec<u8>, AllocError> {
    if is(row, b"relisted") {
        relisted_of(alloc, row)
    } else if is(row, b"changed") {
        changed(alloc, &row.one)
    } else {
        Vec::from_slice(alloc, b"unknown kind")
    }
}

#[test]
fn names_have_lists_of_paths(rt: HostRuntime) -> Result<(), Fail> {
    assert_rows(rt.alloc(), ROWS, answer)
}
