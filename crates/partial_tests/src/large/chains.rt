//! Twenty units, each of which names the next in its `Also=`: more than sixteen rounds.
use crate::comparing::compared;
use crate::root::Root;
use link_tree::Tree;
use sample_rows::{Row, assert_rows};
use sample_values::tree;
use std::alloc::{AllocError, Global};
use std::test::Fail;
use unit_name::ample;

const UNITS: u32 = 20;

/// The lines of a unit's file, which names the next unit; the last one names the first.
fn push_file(
    alloc: Global,
    inventory: &mut Vec<u8>,
    directory: &str,
    number: u32,
) -> Result<(), AllocError> {
    let next = number % UNITS + 1;
    let contents = format!(in alloc; "[Install]\nWantedBy=x.target\nAlso=u{next}.service\n")?;
    let length = contents.len();
    let line = format!(in alloc; "F\t{length}\t{directory}/u{number}.service\n{contents}\n")?;
    inventory.extend_from_slice(line.as_bytes())
}

/// The line of a link to such a file elsewhere.
fn push_link(alloc: Global, inventory: &mut Vec<u8>, number: u32) -> Result<(), AllocError> {
    let line = format!(in alloc;
        "L\t/etc/systemd/system/u{number}.service\t/opt/u{number}.service\n"
    )?;
    inventory.extend_from_slice(line.as_bytes())
}

/// Files in a directory, with links to them or not, and two more files at slots.
fn inventory(alloc: Global, directory: &str, has_links: bool) -> Result<Vec<u8>, AllocError> {
    let mut inventory = Vec::from_slice(
        alloc,
        b"unitadm-inventory 1\n\
        F\t7\t/usr/local/lib/systemd/system/other.service\n[Unit]\n\n\
        F\t10\t/usr/lib/systemd/system-preset/90.preset\ndisable *\n\n",
    )?;
    for number in 1..UNITS + 1 {
        push_file(alloc, &mut inventory, directory, number)?;
        if has_links {
            push_link(alloc, &mut inventory, number)?;
        }
    }
    inventory.extend_from_slice(b"end\n")?;
    Ok(inventory)
}

fn chain(alloc: Global, kind: &[u8]) -> Result<Box<Tree>, AllocError> {
    let inventory = if kind == b"linked".as_slice() {
        inventory(alloc, "/opt", true)?
    } else {
        inventory(alloc, "/usr/lib/systemd/system", false)?
    };
    tree(alloc, &inventory)
}

const ROWS: &[u8] = b"\
    # The units' files are at slots, or elsewhere with links to them. After sixteen rounds all\n\
    # slots are captured: so the two files that no call looks at are among the entries.\n\
    units\talice enable u1.service\t\t1 rows as on all; 22 of 22 entries\n\
    linked\talice enable u1.service\t\t1 rows as on all; 42 of 42 entries\n\
    linked\talice enable u1.service; bob disable u20.service; alice undo 1; bob undo 2; \
        alice undo 1\t\t\
        5 rows as on all; 42 of 42 entries\n";

fn answer(alloc: Global, row: &Row) -> Result<Vec<u8>, AllocError> {
    let chain = chain(alloc, &row.kind)?;
    let mut root = Root::new(alloc, &chain)?;
    compared(alloc, &mut root, &row.one)
}

#[test]
fn chains_have_many_rounds(rt: HostRuntime) -> Result<(), Fail> {
    assert_rows(rt.alloc(), ROWS, answer)
}
