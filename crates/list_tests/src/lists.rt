//! The names of unit files, and their table.
use crate::trees::tree;
use footprint::Units;
use link_tree::Tree;
use sample_rows::{Row, assert_rows, is};
use std::alloc::{AllocError, Global};
use std::test::Fail;
use unit_file::Word;
use unit_lists::{push_table, selected_lines, selected_names, unit_files, unit_lines};
use unit_name::UnitName;

const ROWS: &[u8] = b"\
    # The names of all unit files of the tree ONE.\n\
    names\t\t\t\n\
    names\tS/b.service x|S/a.service x|E/a.service -> /dev/null\t\ta.service b.service \n\
    names\tS/m.target x|S/z.service x|S/x.socket x|S/k.automount x\t\tk.automount z.service x.socket \
        m.target \n\
    names\tS/b.service x|S/B.service x|S/C.service x|S/a.service x|S/_.service x\t\t\
        _.service a.service B.service b.service C.service \n\
    names\tS/a-b.service x|S/a.b.service x|S/a:b.service x|S/a@.service x|S/a_b.service x|\
        S/ab.service x|S/a\\\\x2db.service x\t\t\
        a-b.service a.b.service a:b.service a@.service a\\\\x2db.service a_b.service ab.service \n\
    names\tS/.a.service x|E/a.service.wants/b.service -> S/b.service|P/1.preset disable *\t\t\n\
    names\tE/a.service -> nowhere|R/b.service -> S/c.service|L/c.service x|S/c.service y\t\t\
        a.service b.service c.service \n\
    # The table of the tree ONE: of the names that match one of the patterns in TWO, of one of the types\n\
    # after the first semicolon, with one of the states after the second.\n\
    table\t\t\tUNIT FILE STATE PRESET\\n\\n0 unit files listed.\\n\n\
    rows\t\t\t\n\
    table\tS/a.service [Install]\\nWantedBy=m.target\\n\t\t\
        UNIT FILE STATE    PRESET\\na.service disabled enabled\\n\\n1 unit files listed.\\n\n\
    rows\tS/a.service [Install]\\nWantedBy=m.target\\n\t\ta.service disabled enabled\\n\n\
    table\tE/dangling.service -> nowhere\t\t\
        UNIT FILE        STATE PRESET\\ndangling.service bad   enabled\\n\\n1 unit files listed.\\n\n\
    rows\tS/t@.service x|E/m.target -> /dev/null|E/a.service -> x.service|S/t.service x|\
        P/1.preset disable *\t\t\
        a.service  bad    disabled\\nt.service  static -\\nt@.service static -\\n\
        m.target   masked disabled\\n\n\
    rows\tS/a.service [Install]\\nAlso=b.service\\n|E/b.service -> S/c.service|S/c.service x|\
        R/d.service -> /dev/null|P/1.preset ignore a*\\ndisable c*\\n\t\t\
        a.service indirect       ignored\\nb.service alias          -\\n\
        c.service enabled        disabled\\nd.service masked-runtime enabled\\n\n\
    rows\tS/a.service x|S/ab.service x|S/b.service x|S/b.socket x\ta*\t\
        a.service  static -\\nab.service static -\\n\n\
    rows\tS/a.service x|S/ab.service x|S/b.service x|S/b.socket x\t?.service [b]*;service socket\t\
        a.service static -\\nb.service static -\\nb.socket  static -\\n\n\
    rows\tS/a.service x|S/b.socket x|E/c.socket -> /dev/null\t;socket;masked bad\t\
        c.socket masked enabled\\n\n\
    rows\tS/a.service x\ta\t\n\
    rows\tS/a.service x\t;loaded\t\n";

/// The words of the part of a text after this many semicolons.
fn words(alloc: Global, text: &[u8], part: usize) -> Result<Vec<Word>, AllocError> {
    let mut words = Vec::new(alloc);
    let part = text.split(|b| *b == b';').nth(part).unwrap_or(b"");
    for word in part.split(|b| *b == b' ') {
        if !word.is_empty() {
            words.push(Word::from_slice(alloc, word)?)?;
        }
    }
    Ok(words)
}

fn push_names(out: &mut Vec<u8>, names: &[UnitName]) -> Result<(), AllocError> {
    for name in names {
        out.extend_from_slice(name.text())?;
        out.push(b' ')?;
    }
    Ok(())
}

/// The names that are listed, separated by spaces.
pub(crate) fn names_text(alloc: Global, names: &Units) -> Result<Vec<u8>, AllocError> {
    let mut text = Vec::new(alloc);
    push_names(&mut text, names.as_slice())?;
    Ok(text)
}

fn names_of(alloc: Global, tree: &Tree) -> Result<Vec<u8>, AllocError> {
    let names = unit_files(alloc, tree)?;
    names_text(alloc, &names)
}

fn selected(alloc: Global, tree: &Tree, two: &[u8]) -> Result<Units, AllocError> {
    let names = unit_files(alloc, tree)?;
    let patterns = words(alloc, two, 0)?;
    let types = words(alloc, two, 1)?;
    selected_names(alloc, names.as_slice(), &patterns, &types)
}

/// The table; if memory runs out, the text is as it was.
fn push_lines(
    alloc: Global,
    out: &mut Vec<u8>,
    tree: &Tree,
    two: &[u8],
    legend: bool,
) -> Result<(), AllocError> {
    let names = selected(alloc, tree, two)?;
    let lines = unit_lines(alloc, tree, names.as_slice())?;
    let states = words(alloc, two, 2)?;
    let lines = selected_lines(alloc, lines, &states)?;
    push_table(out, &lines, legend)
}

fn table_of(alloc: Global, tree: &Tree, two: &[u8], legend: bool) -> Result<Vec<u8>, AllocError> {
    let mut text = Vec::new(alloc);
    push_lines(alloc, &mut text, tree, two, legend)?;
    Ok(text)
}

fn answer(alloc: Global, row: &Row) -> Result<Vec<u8>, AllocError> {
    let tree = tree(alloc, &row.one)?;
    if is(row, b"names") {
        return names_of(alloc, &tree);
    }
    table_of(alloc, &tree, &row.two, is(row, b"table"))
}

#[test]
fn unit_files_are_listed(rt: HostRuntime) -> Result<(), Fail> {
    assert_rows(rt.alloc(), ROWS, answer)
}
