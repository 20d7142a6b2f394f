//! The maximum number of units, and one more.
use crate::questions::checked_result;
use footprint::{Operation, Units};
use install_commands::{Disable, Enable};
use link_tree::Scope;
use sample_rows::{Row, assert_rows, is, number_of};
use sample_values::{name, tree};
use std::alloc::{AllocError, Global};
use std::test::Fail;

fn digit(n: usize) -> u8 {
    b'0' + (n % 10) as u8
}

/// `u@NNNN.service`, or of another prefix.
fn numbered_text(prefix: u8, n: usize) -> [u8; 14] {
    let [a, b, c, d] = [digit(n / 1000), digit(n / 100), digit(n / 10), digit(n)];
    [
        prefix, b'@', a, b, c, d, b'.', b's', b'e', b'r', b'v', b'i', b'c', b'e',
    ]
}

fn push_numbered(alloc: Global, units: &mut Units, prefix: u8, n: usize) -> Result<(), AllocError> {
    let name = name(alloc, &numbered_text(prefix, n))?;
    units.push(name)
}

/// This number of different units.
fn numbered(alloc: Global, prefix: u8, count: usize) -> Result<Units, AllocError> {
    let mut units = Units::none(alloc);
    for n in 0..count {
        push_numbered(alloc, &mut units, prefix, n)?;
    }
    Ok(units)
}

/// The unit that each name of prefix `u` is an instance of.
const TREE: &[u8] = b"unitadm-inventory 1\n\
    F\t1\t/usr/lib/systemd/system/u@.service\n#\n\
    end\n";

/// The command, the prefix of the units' names, how many units there are, and what the command
/// results in.
const ROWS: &[u8] = b"\
    enable\tu\t1024\tdone\n\
    enable\tu\t1025\ttoo many\n\
    disable\tu\t1024\tdone\n\
    disable\tu\t1025\ttoo many\n\
    # Names that no unit has do not count\n\
    disable\tv\t1025\tdone\n";

fn row_units(alloc: Global, row: &Row) -> Result<Units, AllocError> {
    let prefix = row.one.first().copied().unwrap_or(b' ');
    numbered(alloc, prefix, number_of(&row.two))
}

fn result_of<O: Operation>(alloc: Global, command: &O) -> Result<Vec<u8>, AllocError> {
    let tree = tree(alloc, TREE)?;
    checked_result(alloc, command, command, &tree, false)
}

fn answer(alloc: Global, row: &Row) -> Result<Vec<u8>, AllocError> {
    let units = row_units(alloc, row)?;
    let scope = Scope::Etc;
    if is(row, b"enable") {
        result_of(alloc, &Enable { scope, units })
    } else {
        result_of(alloc, &Disable { scope, units })
    }
}

#[test]
fn so_many_units_are_taken_together_and_no_more(rt: HostRuntime) -> Result<(), Fail> {
    assert_rows(rt.alloc(), ROWS, answer)
}
