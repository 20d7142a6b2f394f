//! Unit files in the style of real packages.
use super::{lines_of, read};
use sample_rows::{Row, assert_rows};
use std::alloc::{AllocError, Global};
use std::test::Fail;
use unit_file::InstallText;

/// A file, and its [Install] section.
const ROWS: &[u8] = b"\
    file\tssh.service\t\t\
        WantedBy=multi-user.target\\nAlias=sshd.service\\nAlso=ssh.socket\\n\n\
    file\tssh.socket\t\t\
        WantedBy=sockets.target\\nRequiredBy=ssh.service\\n\n\
    file\tgetty@.service\t\t\
        WantedBy=getty.target\\nDefaultInstance=tty1\\n\n\
    file\tisolated.target\t\t\
        WantedBy=multi-user.target graphical.target rescue.target\\nRequiredBy=basic.target\\n\n\
    file\tcontinued.service\t\t\
        WantedBy=multi-user.target graphical.target\\nAlso=b.socket\\n\n\
    file\twindows.service\t\t\
        WantedBy=a.target b.target\\nAlias=c.service\\n\n\
    file\tbackup.timer\t\t\
        WantedBy=timers.target\\nAlso=backup.service\\n\n\
    file\thome.mount\t\t\
        RequiredBy=local-fs.target\\n\n\
    file\tweb@.service\t\t\
        WantedBy=multi-user.target\\nRequiredBy=container@%i.service\\n\
        Alias=web-%i.service\\nAlso=web-helper@%i.service\\n\n\
    file\tstatic.service\t\t\n\
    file\tsections.service\t\t\
        WantedBy=c.target\\nRequiredBy=a.service\\nAlso=x.service y.service\\n\n\
    file\tagent.service\t\t\
        RequiredBy=d.target\\nUpheldBy=b.target c.target\\nAlias=e.service\\n\n\
    file\tmachine@.slice\t\t\
        Also=machine.slice\\nDefaultInstance=not/valid\\n\n";

const FILES: [(&[u8], &[u8]); 13] = [
    (b"ssh.service", SERVICE),
    (b"ssh.socket", SOCKET),
    (b"getty@.service", GETTY),
    (b"isolated.target", TARGET),
    (b"continued.service", CONTINUED),
    (b"windows.service", WINDOWS),
    (b"backup.timer", TIMER),
    (b"home.mount", MOUNT),
    (b"web@.service", TEMPLATE),
    (b"static.service", STATIC),
    (b"sections.service", SECTIONS),
    (b"agent.service", AGENT),
    (b"machine@.slice", SLICE),
];

fn file_named<'a>(files: &[(&[u8], &'a [u8])], name: &[u8]) -> &'a [u8] {
    for (other, bytes) in files {
        if *other == name {
            return bytes;
        }
    }
    b"[Install]\nWantedBy=unknown-name.target\n"
}

fn lines_of_copy(alloc: Global, text: &InstallText) -> Result<Vec<u8>, AllocError> {
    let copy = Box::new(alloc, text.copy()?)?;
    lines_of(alloc, &copy)
}

/// The section of a file, which its copy has too.
fn answer(alloc: Global, row: &Row) -> Result<Vec<u8>, AllocError> {
    let text = read(alloc, file_named(&FILES, &row.one))?;
    let lines = lines_of(alloc, &text)?;
    if lines_of_copy(alloc, &text)? != lines {
        return Vec::from_slice(alloc, b"another copy");
    }
    Ok(lines)
}

#[test]
fn files_are_read(rt: HostRuntime) -> Result<(), Fail> {
    assert_rows(rt.alloc(), ROWS, answer)
}

const SERVICE: &[u8] = b"[Unit]\n\
    Description=Secure Shell server\n\
    After=network.target auditd.service\n\
    ConditionPathExists=!/etc/ssh/sshd_not_to_be_run\n\
    \n\
    [Service]\n\
    EnvironmentFile=-/etc/default/ssh\n\
    ExecStartPre=/usr/sbin/sshd -t\n\
    ExecStart=/usr/sbin/sshd -D $SSHD_OPTS\n\
    Restart=on-failure\n\
    \n\
    [Install]\n\
    WantedBy=multi-user.target\n\
    Alias=sshd.service\n\
    Also=ssh.socket\n";

const SOCKET: &[u8] = b"[Unit]\n\
    Description=Secure Shell socket\n\
    \n\
    [Socket]\n\
    ListenStream=22\n\
    Accept=no\n\
    \n\
    [Install]\n\
    WantedBy=sockets.target\n\
    RequiredBy=ssh.service\n";

const GETTY: &[u8] = b"#  This file is part of an example.\n\
    [Unit]\n\
    Description=Getty on %I\n\
    \n\
    [Service]\n\
    # the VT is cleared by TTYVTDisallocate\n\
    ExecStart=-/sbin/agetty -o '-p -- \\\\u' --noclear %I $TERM\n\
    UtmpIdentifier=%I\n\
    \n\
    [Install]\n\
    WantedBy=getty.target\n\
    DefaultInstance=tty1\n";

const TARGET: &[u8] = b"[Unit]\n\
    Description=Example target\n\
    AllowIsolate=yes\n\
    [Install]\n\
    WantedBy=multi-user.target\n\
    WantedBy=graphical.target rescue.target\n\
    RequiredBy=basic.target\n";

const CONTINUED: &[u8] = b"[Install]\n\
    WantedBy=multi-user.target \\\n\
    # it was in rescue.target once \\\n\
    ; and is no more\n\
    \x20   graphical.target \\\n\
    \x20   \\\n\
    \n\
    Also=b.socket\n";

const WINDOWS: &[u8] = b"[Unit]\r\n\
    Description=Lines end at CR and LF\r\n\
    \r\n\
    [Install]\r\n\
    WantedBy=a.target \\\r\n\
    ; a comment\r\n\
    \x20 b.target\r\n\
    Alias=c.service\r\n";

const TIMER: &[u8] = b"[Unit]\n\
    Description=Daily backup\n\
    \n\
    [Timer]\n\
    OnCalendar=*-*-* 02:00:00\n\
    Persistent=true\n\
    \n\
    [Install]\n\
    WantedBy = timers.target\n\
    Also\t=\tbackup.service\n";

const MOUNT: &[u8] = b"[Unit]\n\
    Before=local-fs.target\n\
    [Mount]\n\
    What=/dev/disk/by-uuid/0e1a\n\
    Where=/home\n\
    Options=rw,noatime\n\
    [Install]\n\
    RequiredBy=local-fs.target";

const TEMPLATE: &[u8] = b"[Service]\n\
    ExecStart=/usr/bin/web --instance %i\n\
    \n\
    [Install]\n\
    WantedBy=multi-user.target\n\
    RequiredBy=container@%i.service\n\
    Alias=web-%i.service\n\
    Also=web-helper@%i.service\n";

const STATIC: &[u8] = b"[Unit]\n\
    Description=Nothing is installed\n\
    WantedBy=multi-user.target\n\
    [Service]\n\
    Type=oneshot\n\
    ExecStart=/bin/true\n";

const SECTIONS: &[u8] = b"WantedBy=lost.target\n\
    [Install]\n\
    WantedBy=a.target\n\
    RequiredBy=a.service\n\
    Also=x.service\n\
    [X-Vendor]\n\
    WantedBy=lost.target\n\
    DefaultInstance=lost\n\
    [Install]\n\
    WantedBy=b.target\n\
    WantedBy=\n\
    WantedBy=c.target\n\
    Also=\n\
    Also=y.service\n";

const AGENT: &[u8] = b"[Install]\n\
    UpheldBy=a.target\n\
    UpheldBy=\n\
    RequiredBy=d.target\n\
    UpheldBy=b.target\n\
    Alias=e.service\n\
    upheldby=lost.target\n\
    UpheldBy = c.target\n";

const SLICE: &[u8] = b"[Install]\n\
    UpholdsNothing=yes\n\
    DefaultInstance=a\n\
    Also=machine.slice\n\
    DefaultInstance=not/valid\n";
