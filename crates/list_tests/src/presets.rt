//! The units to which a preset of all units applies.
use crate::lists::names_text;
use crate::trees::tree;
use footprint::Units;
use link_tree::Tree;
use sample_rows::{Row, assert_rows, is};
use sample_values::name;
use std::alloc::{AllocError, Global};
use std::test::Fail;
use unit_lists::{Chosen, Mode, PresetError, names_in_mode, preset_names};

const ROWS: &[u8] = b"\
    # The units of a preset of all units of the tree ONE with the mode TWO, those that a disable is for, and\n\
    # how many are masked, aliases and dangling.\n\
    all\t\tfull\t- 0 0 0\n\
    all\tS/a.service [Install]\\nWantedBy=m.target\\n|S/b.service x|S/c.socket [Install]\\nAlso=a.service\\n\
        \tfull\ta.service c.socket - 0 0 0\n\
    all\tE/a.service -> /dev/null|S/a.service [Install]\\nAlias=b.service\\n|E/c.service -> nowhere|\
        E/d.service -> S/e.service|S/e.service [Install]\\nAlias=d.service\\n|S/f.service \tfull\t\
        e.service - 2 1 1\n\
    all\tS/a@.service [Install]\\nWantedBy=m.target\\n|E/a@1.service -> S/a@.service|\
        E/b@2.service -> S/a@.service\tfull\ta@.service a@1.service - 0 1 0\n\
    all\tS/a.service [Install]\\nUpheldBy=m.target\\n|S/b.service [Install]\\nRequiredBy=m.target\\n|\
        S/c.service [Install]\\nDefaultInstance=x\\n\tfull\ta.service b.service - 0 0 0\n\
    all\tS/a.service [Install]\\nAlias=x.service\\n|S/b.service [Install]\\nAlias=y.service\\n|\
        S/c.service [Install]\\nAlias=z.service\\n|P/1.preset enable a*\\nignore c*\\ndisable *\\n\tfull\t\
        a.service b.service c.service - 0 0 0\n\
    all\tS/a.service [Install]\\nAlias=x.service\\n|S/b.service [Install]\\nAlias=y.service\\n|\
        S/c.service [Install]\\nAlias=z.service\\n|P/1.preset enable a*\\nignore c*\\ndisable *\\n\tenable\t\
        a.service - 0 0 0\n\
    all\tS/a.service [Install]\\nAlias=x.service\\n|S/b.service [Install]\\nAlias=y.service\\n|\
        S/c.service [Install]\\nAlias=z.service\\n|P/1.preset enable a*\\nignore c*\\ndisable *\\n\tdisable\t\
        b.service - 0 0 0\n\
    all\tS/a.service x|S/b.service x|S/c.service x|E/m.target.wants/a.service -> S/a.service|\
        R/m.target.wants/b.service -> S/b.service|P/1.preset disable *\\n\tfull\t\
        - a.service b.service 0 0 0\n\
    all\tS/a.service x|S/b.service x|S/c.service [Install]\\nAlias=d.service\\n|\
        E/m.target.wants/a.service -> S/a.service|E/m.target.wants/b.service -> S/b.service|\
        P/1.preset disable b*\\n\tdisable\t- b.service 0 0 0\n\
    all\tS/a.service x|E/m.target.wants/a.service -> S/a.service|P/1.preset disable *\\n\tenable\t\
        - 0 0 0\n\
    # Those of the units TWO that a preset of enabled units alone is for.\n\
    those\tP/1.preset enable a*\\nignore c*\\ndisable *\\n\tc.service a.service b.service ab.service\t\
        a.service ab.service \n\
    # How many bytes a line has before the names: the most, and one more.\n\
    most\tS/a.service [Install]\\nAlias=x.service\\n\t65526\ta.service - 0 0 0\n\
    most\tS/a.service [Install]\\nAlias=x.service\\n\t65527\ttoo long\n\
    most\t\t65537\t- 0 0 0\n";

fn mode(text: &[u8]) -> Mode {
    if text == b"enable".as_slice() {
        return Mode::EnableOnly;
    }
    if text == b"disable".as_slice() {
        return Mode::DisableOnly;
    }
    Mode::Full
}

fn number(text: &[u8]) -> usize {
    text.iter().fold(0, |number: usize, b| {
        number
            .saturating_mul(10)
            .saturating_add(usize::from(b.saturating_sub(b'0')))
    })
}

fn chosen_text(alloc: Global, chosen: &Chosen) -> Result<Vec<u8>, AllocError> {
    let mut text = names_text(alloc, &chosen.names)?;
    let masked = chosen.masked;
    let aliases = chosen.aliases;
    let dangling = chosen.dangling;
    text.extend_from_slice(b"- ")?;
    let bare = names_text(alloc, &chosen.bare)?;
    text.extend_from_slice(&bare)?;
    let counts = format!(in alloc; "{masked} {aliases} {dangling}")?;
    text.extend_from_slice(counts.as_bytes())?;
    Ok(text)
}

fn all_text(alloc: Global, tree: &Tree, mode: Mode, before: usize) -> Result<Vec<u8>, AllocError> {
    match preset_names(alloc, tree, mode, before) {
        Ok(chosen) => chosen_text(alloc, &chosen),
        Err(PresetError::TooManyUnits) => Vec::from_slice(alloc, b"too many"),
        Err(PresetError::LineTooLong) => Vec::from_slice(alloc, b"too long"),
        Err(PresetError::OutOfMemory) => Err(AllocError),
    }
}

fn units(alloc: Global, text: &[u8]) -> Result<Units, AllocError> {
    let mut units = Units::none(alloc);
    for word in text.split(|b| *b == b' ') {
        units.push(name(alloc, word)?)?;
    }
    Ok(units)
}

fn those_text(alloc: Global, tree: &Tree, text: &[u8]) -> Result<Vec<u8>, AllocError> {
    let given = units(alloc, text)?;
    let those = names_in_mode(alloc, tree, Mode::EnableOnly, given.as_slice())?;
    names_text(alloc, &those)
}

fn answer(alloc: Global, row: &Row) -> Result<Vec<u8>, AllocError> {
    let tree = tree(alloc, &row.one)?;
    if is(row, b"those") {
        return those_text(alloc, &tree, &row.two);
    }
    if is(row, b"most") {
        return all_text(alloc, &tree, Mode::Full, number(&row.two));
    }
    all_text(alloc, &tree, mode(&row.two), 0)
}

#[test]
fn units_are_chosen(rt: HostRuntime) -> Result<(), Fail> {
    assert_rows(rt.alloc(), ROWS, answer)
}
