//! A text with two runs. `TEXT` and `AFTER_SECOND` were made by a program in another language.
use crate::words::{TIME, label, words};
use kept_texts::{Header, KeptText, PushError, RunWords, Time};
use sample_values::tree;
use std::alloc::{AllocError, Global};
use unit_name::ample;

/// The first tree.
const FIRST: &[u8] = b"\
    unitadm-inventory 1\n\
    F\t7\t/opt/x.service\n\
    # run \n\
    \n\
    F\t37\t/usr/lib/systemd/system/ssh.service\n\
    [Install]\n\
    WantedBy=multi-user.target\n\
    \n\
    end\n";

/// Another first tree.
pub(crate) const SECOND: &[u8] = b"\
    unitadm-inventory 1\n\
    F\t0\t/opt/x.service\n\
    \n\
    end\n";

/// The trees that the runs leave.
const LEFT: &[u8] = b"\
    unitadm-inventory 1\n\
    L\t/etc/systemd/system/multi-user.target.wants/ssh.service\t/usr/lib/systemd/system/ssh.\
    service\n\
    F\t7\t/opt/x.service\n\
    # run \n\
    \n\
    F\t37\t/usr/lib/systemd/system/ssh.service\n\
    [Install]\n\
    WantedBy=multi-user.target\n\
    \n\
    end\n";

const LEFT_BY_OTHERS: &[u8] = b"\
    unitadm-inventory 1\n\
    L\t/etc/systemd/system/multi-user.target.wants/ssh.service\t/usr/lib/systemd/system/ssh.\
    service\n\
    F\t7\t/opt/x.service\n\
    # run \n\
    \n\
    end\n";

/// The text after `FIRST`.
pub(crate) const TEXT: &[u8] = b"\
    unitadm-inventory 1\n\
    F\t7\t/opt/x.service\n\
    # run \n\
    \n\
    F\t37\t/usr/lib/systemd/system/ssh.service\n\
    [Install]\n\
    WantedBy=multi-user.target\n\
    \n\
    end\n\
    == calls\n\
    # unitroot-history 1 id=000102030405060708090a0b0c0d0e0f root=/srv/a\\sb text=sha256:c13\
    6401010067a4520b4fa73c67c6d7eaf14633de76d1a5c68066f9ee35d081b\n\
    # run 2026-12-01T08:30:05Z login=anna program=unitroot-0.9 rules=1\n\
    anna enable ssh.service\n\
    \n\
    \x20 \n\
    bob status\n\
    # end tree=sha256:8fdfbf247bdc96f640855cdf42a590055e042b76bd706aed5f71da70c8846f0c text=\
    sha256:cb72c3635ca9ee97f6f2e4e2b75cf590c03cbafeb5c5834c2a679e957b93e081\n\
    # run 2026-12-02T06:00:00Z login=\\t\\n\\\\\\s program=- rules=4294967295 outside\n\
    # end tree=sha256:b089e8d0050f3677ec385d4e80fefc00f2ed5ff47217618608eedd5c9a7b326e text=\
    sha256:65c604699bb59634b8a3bf5c9ce290a2f1228907508795073f1d357d18da147d\n";

/// The same runs after `SECOND`.
pub(crate) const AFTER_SECOND: &[u8] = b"\
    unitadm-inventory 1\n\
    F\t0\t/opt/x.service\n\
    \n\
    end\n\
    == calls\n\
    # unitroot-history 1 id=000102030405060708090a0b0c0d0e0f root=/srv/a\\sb text=sha256:ee5\
    99b9ad5eff2ba83e4332ff7c8d3815866e53d0bffe0666df2c5aa13123b58\n\
    # run 2026-12-01T08:30:05Z login=anna program=unitroot-0.9 rules=1\n\
    anna enable ssh.service\n\
    \n\
    \x20 \n\
    bob status\n\
    # end tree=sha256:8fdfbf247bdc96f640855cdf42a590055e042b76bd706aed5f71da70c8846f0c text=\
    sha256:93986ffcdd2d44e5c45b60c5c865069879e292d77911890f4df7346e5ca3caa7\n\
    # run 2026-12-02T06:00:00Z login=\\t\\n\\\\\\s program=- rules=4294967295 outside\n\
    # end tree=sha256:b089e8d0050f3677ec385d4e80fefc00f2ed5ff47217618608eedd5c9a7b326e text=\
    sha256:efc6f8f4b8f915a9f6567d4304c1f212ad957d4a98446a2b24623822e344e1a9\n";

fn words_of_others(alloc: Global) -> Result<RunWords, AllocError> {
    let Some(time) = Time::parse(b"2026-12-02T06:00:00Z") else {
        return Err(AllocError);
    };
    Ok(RunWords {
        time,
        login: label(alloc, b"\t\n\\ ")?,
        program: label(alloc, b"-")?,
        rules: 4_294_967_295,
        outside: true,
    })
}

/// The text of a history that has no runs.
pub(crate) fn begun(alloc: Global) -> Result<Box<KeptText>, AllocError> {
    let header = Header {
        id: [0, 1, 2, 3, 4, 5, 6, 7, 8, 9, 10, 11, 12, 13, 14, 15],
        root: label(alloc, b"/srv/a b")?,
    };
    let first = tree(alloc, FIRST)?;
    Ok(Box::new(alloc, KeptText::begin(alloc, &first, header)?)?)
}

/// Appends a run, again if a growth was refused.
fn push(
    alloc: Global,
    text: &mut KeptText,
    words: &RunWords,
    lines: &[u8],
    left: &[u8],
) -> Result<(), AllocError> {
    let left = tree(alloc, left)?;
    match ample!(text.push_run(words, lines, &left), PushError::OutOfMemory) {
        Ok(()) => Ok(()),
        Err(_) => Err(AllocError),
    }
}

fn build(alloc: Global) -> Result<Box<KeptText>, AllocError> {
    let mut text = begun(alloc)?;
    let calls = b"anna enable ssh.service\n\n  \nbob status\n";
    push(alloc, &mut text, &words(alloc, TIME, b"anna")?, calls, LEFT)?;
    push(
        alloc,
        &mut text,
        &words_of_others(alloc)?,
        b"",
        LEFT_BY_OTHERS,
    )?;
    Ok(text)
}

/// The text that should be `TEXT`.
pub(crate) fn written(alloc: Global) -> Result<Box<KeptText>, AllocError> {
    ample!(build(alloc), AllocError)
}
