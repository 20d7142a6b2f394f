//! reenable and preset, and what they look at.
use super::commands::answer_in;
use sample_rows::{Row, assert_rows};
use std::alloc::{AllocError, Global};
use std::test::Fail;

/// `a` had another alias and names `b`, which is enabled; the file of `app` is outside the
/// directories of units.
const LINKED: &[u8] = b"unitadm-inventory 1\n\
    L\t/etc/systemd/system/app.service\t/opt/app.service\n\
    L\t/etc/systemd/system/m.target.wants/app.service\t/opt/app.service\n\
    L\t/etc/systemd/system/m.target.wants/b.service\t/usr/lib/systemd/system/b.service\n\
    L\t/etc/systemd/system/old.service\t/usr/lib/systemd/system/a.service\n\
    F\t28\t/opt/app.service\n[Install]\nWantedBy=m.target\n\n\
    F\t41\t/usr/lib/systemd/system/a.service\n[Install]\nAlso=b.service\nAlias=x.service\n\n\
    F\t28\t/usr/lib/systemd/system/b.service\n[Install]\nWantedBy=m.target\n\n\
    end\n";

/// `a` and instances of `t` must be enabled, and all others disabled; `x` is another name of `a`,
/// and `s` asks for nothing.
const PRESET: &[u8] = b"unitadm-inventory 1\n\
    L\t/etc/systemd/system/m.target.wants/b.service\t/usr/lib/systemd/system/b.service\n\
    L\t/etc/systemd/system/x.service\t/usr/lib/systemd/system/a.service\n\
    F\t58\t/usr/lib/systemd/system-preset/1.preset\nenable t@.service one two/ two\nenable a.service\ndisable *\n\n\
    F\t28\t/usr/lib/systemd/system/a.service\n[Install]\nWantedBy=m.target\n\n\
    F\t28\t/usr/lib/systemd/system/b.service\n[Install]\nWantedBy=m.target\n\n\
    F\t2\t/usr/lib/systemd/system/s.service\n#\n\n\
    F\t28\t/usr/lib/systemd/system/t@.service\n[Install]\nWantedBy=m.target\n\n\
    end\n";

const REENABLE_ROWS: &[u8] = b"\
    # The links are again those that the units ask for\n\
    run\treenable b.service\t\tdone\n\
    run\treenable app.service b.service app.service\t\tdone\n\
    run\treenable a.service\t\tdone\\n\
    - /etc/systemd/system/old.service -> /usr/lib/systemd/system/a.service\\n\
    + /etc/systemd/system/x.service -> /usr/lib/systemd/system/a.service\n\
    run\treenable b.service old.service\t\talias of a.service\n\
    run\treenable b.service c.service\t\tnot found: c.service\n\
    # It looks at what its parts look at\n\
    reads\treenable app.service\t\t\
    /etc/systemd/system/app.service\\n\
    /etc/systemd/system/m.target.wants/app.service\\n\
    /opt/app.service\\n\
    etc app.service\n\
    # A unit that is enabled is enabled and then disabled: each key of the two is reported once, and the change is that\n\
    # from the first tree\n\
    run\tenable b.service, disable b.service\t\tdone\\n\
    - /etc/systemd/system/m.target.wants/b.service -> /usr/lib/systemd/system/b.service\n\
    reads\tenable b.service, disable b.service\t\t\
    /etc/systemd/system/b.service\\n\
    /etc/systemd/system/m.target.wants/b.service\\n\
    /run/systemd/system/b.service\\n\
    /usr/lib/systemd/system/b.service\\n\
    /usr/local/lib/systemd/system/b.service\\n\
    etc b.service\n";

const PRESET_ROWS: &[u8] = b"\
    # Preset files say which units are enabled\n\
    run\tpreset a.service b.service s.service x.service\t\tdone\\n\
    + /etc/systemd/system/m.target.wants/a.service -> /usr/lib/systemd/system/a.service\\n\
    - /etc/systemd/system/m.target.wants/b.service -> /usr/lib/systemd/system/b.service\n\
    run\tpreset t@.service\t\tdone\\n  ! t@.service: Preset two/: bad name\\n\
    + /etc/systemd/system/m.target.wants/t@one.service -> /usr/lib/systemd/system/t@.service\\n\
    + /etc/systemd/system/m.target.wants/t@two.service -> /usr/lib/systemd/system/t@.service\n\
    run\tpreset x.service s.service\t\tdone\n\
    run\tpreset b.service c.service\t\tnot found: c.service\n\
    # It looks at what its parts look at\n\
    reads\tpreset --runtime b.service\t\t\
    /etc/systemd/system/b.service\\n\
    /run/systemd/system/b.service\\n\
    /usr/lib/systemd/system/b.service\\n\
    /usr/local/lib/systemd/system/b.service\\n\
    run b.service\\n\
    presets\n";

fn answer_when_linked(alloc: Global, row: &Row) -> Result<Vec<u8>, AllocError> {
    answer_in(alloc, row, LINKED)
}

#[test]
fn links_are_again_those_that_units_ask_for(rt: HostRuntime) -> Result<(), Fail> {
    assert_rows(rt.alloc(), REENABLE_ROWS, answer_when_linked)
}

fn answer_with_presets(alloc: Global, row: &Row) -> Result<Vec<u8>, AllocError> {
    answer_in(alloc, row, PRESET)
}

#[test]
fn preset_files_say_which_units_are_enabled(rt: HostRuntime) -> Result<(), Fail> {
    assert_rows(rt.alloc(), PRESET_ROWS, answer_with_presets)
}
