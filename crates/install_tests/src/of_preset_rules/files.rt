//! Which preset files are used.
use super::verdicts::{policy, policy_of_file, verdict, verdict_text};
use crate::trees::tree;
use link_tree::Tree;
use load_path::Cells;
use preset_rules::{Rules, Verdict};
use sample_rows::{Row, assert_rows, is};
use sample_values::name;
use std::alloc::{AllocError, Global};
use std::test::Fail;

/// A file after seven links from `a2.service` on, and after eight from `a1.service` on.
const CHAIN: &[u8] = b"\
    /etc/systemd/system/a9.service disable *\n|\
    /etc/systemd/system/a8.service -> a9.service|\
    /etc/systemd/system/a7.service -> a8.service|\
    /etc/systemd/system/a6.service -> a7.service|\
    /etc/systemd/system/a5.service -> a6.service|\
    /etc/systemd/system/a4.service -> a5.service|\
    /etc/systemd/system/a3.service -> a4.service|\
    /etc/systemd/system/a2.service -> a3.service|\
    /etc/systemd/system/a1.service -> a2.service";

/// The only file in `/lib/systemd/system-preset` of Debian's package `systemd` 252.39-1~deb12u2,
/// `90-systemd.preset`.
const DEBIAN: &[u8] = b"\
#  SPDX-License-Identifier: LGPL-2.1-or-later
#
#  This file is part of systemd.
#
#  systemd is free software; you can redistribute it and/or modify it
#  under the terms of the GNU Lesser General Public License as published by
#  the Free Software Foundation; either version 2.1 of the License, or
#  (at your option) any later version.

# Settings for systemd units distributed with systemd itself. Most of these
# should be enabled by default, even if the distribution follows a general
# default-off policy.

enable remote-fs.target
enable remote-cryptsetup.target
enable machines.target

enable getty@.service
enable systemd-timesyncd.service
enable systemd-networkd.service
enable systemd-network-generator.service
enable systemd-resolved.service
enable systemd-homed.service
enable systemd-userdbd.socket
enable systemd-pstore.service
enable systemd-boot-update.service

disable console-getty.service
disable debug-shell.service

disable halt.target
disable kexec.target
disable poweroff.target
enable reboot.target
disable rescue.target
disable exit.target

disable systemd-networkd-wait-online.service
disable systemd-time-wait-sync.service
disable systemd-boot-check-no-failures.service
disable proc-sys-fs-binfmt_misc.mount

disable syslog.socket

disable systemd-journal-gatewayd.*
disable systemd-journal-remote.*
disable systemd-journal-upload.*
";

const ROWS: &[u8] = b"\
    # preset: what the preset files ONE say of the unit TWO. Of files of one name the one in\n\
    # `/etc` counts, or else the one in `/run`. They are read in the order of their names.\n\
    preset\t\tssh.service\tenable\n\
    preset\t/usr/lib/systemd/system-preset/10-a.preset disable ssh.service\\n|\
        /etc/systemd/system-preset/10-a.preset enable ssh.service\\n|\
        /usr/lib/systemd/system-preset/20-b.preset disable *\\n\tssh.service\tenable\n\
    preset\t/run/systemd/system-preset/10-a.preset disable ssh.service\\n|\
        /etc/systemd/system-preset/10-a.preset enable ssh.service\\n\tssh.service\tenable\n\
    preset\t/usr/lib/systemd/system-preset/10-a.preset enable ssh.service\\n|\
        /run/systemd/system-preset/10-a.preset disable ssh.service\\n\tssh.service\tdisable\n\
    preset\t/usr/lib/systemd/system-preset/20-b.preset enable ssh.service\\n|\
        /usr/lib/systemd/system-preset/10-a.preset disable *\\n\tssh.service\tdisable\n\
    preset\t/etc/systemd/system-preset/10-a.preset disable *\\n|\
        /run/systemd/system-preset/05-c.preset enable ssh.service\\n\tssh.service\tenable\n\
    # That is their byte order: 9 comes after 10.\n\
    preset\t/etc/systemd/system-preset/9-a.preset disable *\\n|\
        /etc/systemd/system-preset/10-a.preset enable ssh.service\\n\tssh.service\tenable\n\
    # A link to `/dev/null` or to nothing, and a file without rules, hides the other files of its\n\
    # name.\n\
    preset\t/usr/lib/systemd/system-preset/10-a.preset disable *\\n|\
        /etc/systemd/system-preset/10-a.preset -> /dev/null\tssh.service\tenable\n\
    preset\t/usr/lib/systemd/system-preset/10-a.preset disable *\\n|\
        /etc/systemd/system-preset/10-a.preset -> ../../../dev/null\tssh.service\tenable\n\
    preset\t/usr/lib/systemd/system-preset/10-a.preset disable *\\n|\
        /etc/systemd/system-preset/10-a.preset -> /nothing\tssh.service\tenable\n\
    preset\t/usr/lib/systemd/system-preset/10-a.preset disable *\\n|\
        /etc/systemd/system-preset/10-a.preset\tssh.service\tenable\n\
    preset\t/usr/lib/systemd/system-preset/10-a.preset disable *\\n|\
        /etc/systemd/system-preset/10-a.preset enable \\xff\\nenable\tssh.service\tenable\n\
    preset\t/etc/systemd/system-preset/10-a.preset -> 10-a.preset\tssh.service\tenable\n\
    preset\t/usr/lib/systemd/system-preset/20-b.preset disable *\\n|\
        /etc/systemd/system-preset/10-a.preset # enable ssh.service\tssh.service\tdisable\n\
    # Links are followed.\n\
    preset\t/usr/lib/systemd/system/p.service disable *\\n|\
        /run/systemd/system-preset/10-a.preset -> /usr/lib/systemd/system/p.service\tssh.service\t\
        disable\n\
    preset\t/usr/lib/systemd/system-preset/20-b.preset disable *\\n|\
        /etc/systemd/system-preset/10-a.preset -> /lib/systemd/system-preset/20-b.preset\t\
        ssh.service\tdisable\n\
    # No other file is a preset.\n\
    preset\t/etc/systemd/system/x.service disable *\\n\tssh.service\tenable\n\
    # read: how many rules the preset files ONE have, and the paths to which those that are links\n\
    # lead.\n\
    read\t/usr/lib/systemd/system/p.service disable *\\n|\
        /usr/lib/systemd/system-preset/10-a.preset -> /hidden|\
        /etc/systemd/system-preset/10-a.preset -> /usr/lib/systemd/system/p.service|\
        /usr/lib/systemd/system-preset/20-b.preset -> /nothing|\
        /run/systemd/system-preset/05-c.preset -> /dev/null\t\t1\\n\
        /usr/lib/systemd/system/p.service\\n/nothing\\n\n\
    # in another tree: the preset files are those of ONE, and their links are followed in TWO.\n\
    # The answer is the number of rules, the number of paths to which links lead, and what the\n\
    # rules say of ssh.service.\n\
    in another tree\t/run/systemd/system-preset/10-a.preset -> /usr/lib/systemd/system/p.service|\
        /usr/lib/systemd/system/p.service enable ssh.service\\n\t\
        /usr/lib/systemd/system/p.service disable *\\n|\
        /etc/systemd/system-preset/10-a.preset enable ssh.service\\n\t1, 2, disable\n\
    # behind links: the same of the preset files ONE, which are links into the chain. A file\n\
    # behind eight links is read. Behind nine it counts as an empty one, which hides the other\n\
    # files of its name.\n\
    behind links\t/usr/lib/systemd/system-preset/10-a.preset -> /etc/systemd/system/a2.service\t\t\
        1, 8, disable\n\
    behind links\t/usr/lib/systemd/system-preset/10-a.preset -> /etc/systemd/system/a2.service|\
        /etc/systemd/system-preset/10-a.preset -> /etc/systemd/system/a1.service\t\t0, 8, enable\n\
    # debian: what the file of Debian says of the unit ONE. `systemctl preset` of that version\n\
    # does so.\n\
    debian\tremote-fs.target\t\tenable\n\
    debian\tremote-cryptsetup.target\t\tenable\n\
    debian\tmachines.target\t\tenable\n\
    debian\tgetty@.service\t\tenable\n\
    debian\tgetty@tty1.service\t\tenable\n\
    debian\tsystemd-timesyncd.service\t\tenable\n\
    debian\tsystemd-networkd.service\t\tenable\n\
    debian\tsystemd-networkd.socket\t\tenable\n\
    debian\tsystemd-resolved.service\t\tenable\n\
    debian\tsystemd-userdbd.socket\t\tenable\n\
    debian\tsystemd-pstore.service\t\tenable\n\
    debian\tsystemd-boot-update.service\t\tenable\n\
    debian\treboot.target\t\tenable\n\
    debian\tssh.service\t\tenable\n\
    debian\tconsole-getty.service\t\tdisable\n\
    debian\tdebug-shell.service\t\tdisable\n\
    debian\thalt.target\t\tdisable\n\
    debian\tkexec.target\t\tdisable\n\
    debian\tpoweroff.target\t\tdisable\n\
    debian\trescue.target\t\tdisable\n\
    debian\texit.target\t\tdisable\n\
    debian\tsystemd-networkd-wait-online.service\t\tdisable\n\
    debian\tsystemd-time-wait-sync.service\t\tdisable\n\
    debian\tsystemd-boot-check-no-failures.service\t\tdisable\n\
    debian\tproc-sys-fs-binfmt_misc.mount\t\tdisable\n\
    debian\tsyslog.socket\t\tdisable\n\
    debian\tsystemd-journal-gatewayd.service\t\tdisable\n\
    debian\tsystemd-journal-gatewayd.socket\t\tdisable\n\
    debian\tsystemd-journal-remote.socket\t\tdisable\n\
    debian\tsystemd-journal-upload.service\t\tdisable\n";

fn preset(alloc: Global, presets: &[u8], unit: &[u8]) -> Result<Vec<u8>, AllocError> {
    let policy = policy(alloc, presets)?;
    let verdict = verdict(alloc, &policy, unit)?;
    verdict_text(alloc, &verdict)
}

fn debian(alloc: Global, unit: &[u8]) -> Result<Vec<u8>, AllocError> {
    let at = b"/usr/lib/systemd/system-preset/90-systemd.preset";
    let policy = policy_of_file(alloc, at, DEBIAN)?;
    let verdict = verdict(alloc, &policy, unit)?;
    verdict_text(alloc, &verdict)
}

fn read(alloc: Global, presets: &[u8]) -> Result<Vec<u8>, AllocError> {
    let policy = policy(alloc, presets)?;
    let rules = policy.rules().as_slice().len();
    let mut text = format!(in alloc; "{rules}\n")?.into_bytes();
    for cell in policy.cells().as_slice() {
        text.extend_from_slice(cell.text())?;
        text.push(b'\n')?;
    }
    Ok(text)
}

/// How many rules there are, how many paths were looked at for them, and the verdict.
fn told(
    alloc: Global,
    rules: &Rules,
    cells: &Cells,
    verdict: &Verdict,
) -> Result<Vec<u8>, AllocError> {
    let rules = rules.as_slice().len();
    let cells = cells.as_slice().len();
    let mut text = format!(in alloc; "{rules}, {cells}, ")?.into_bytes();
    let said = verdict_text(alloc, verdict)?;
    text.extend_from_slice(&said)?;
    Ok(text)
}

fn told_among(alloc: Global, presets: &Tree, tree: &Tree) -> Result<Vec<u8>, AllocError> {
    let unit = name(alloc, b"ssh.service")?;
    let mut cells = Cells::new(alloc);
    let rules = Rules::of_into(alloc, presets.entries(), tree, &mut cells)?;
    let verdict = rules.verdict(alloc, &unit)?;
    told(alloc, &rules, &cells, &verdict)
}

fn in_another_tree(alloc: Global, presets: &[u8], others: &[u8]) -> Result<Vec<u8>, AllocError> {
    let presets = tree(alloc, presets)?;
    let others = tree(alloc, others)?;
    told_among(alloc, &presets, &others)
}

fn behind_links(alloc: Global, presets: &[u8]) -> Result<Vec<u8>, AllocError> {
    let mut text = Vec::from_slice(alloc, CHAIN)?;
    text.push(b'|')?;
    text.extend_from_slice(presets)?;
    let policy = policy(alloc, &text)?;
    let verdict = verdict(alloc, &policy, b"ssh.service")?;
    told(alloc, policy.rules(), policy.cells(), &verdict)
}

fn answer(alloc: Global, row: &Row) -> Result<Vec<u8>, AllocError> {
    if is(row, b"preset") {
        return preset(alloc, &row.one, &row.two);
    }
    if is(row, b"read") {
        return read(alloc, &row.one);
    }
    if is(row, b"in another tree") {
        return in_another_tree(alloc, &row.one, &row.two);
    }
    if is(row, b"behind links") {
        return behind_links(alloc, &row.one);
    }
    if is(row, b"debian") {
        return debian(alloc, &row.one);
    }
    Vec::from_slice(alloc, b"unknown kind")
}

#[test]
fn files_are_chosen_by_their_names(rt: HostRuntime) -> Result<(), Fail> {
    assert_rows(rt.alloc(), ROWS, answer)
}
