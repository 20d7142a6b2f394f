//! Lines of preset files.
use super::verdicts::{enabled, policy_of_file, verdict, verdict_text};
use preset_rules::{Instances, Verdict};
use sample_rows::{Row, assert_rows, is};
use std::alloc::{AllocError, Global};
use std::test::Fail;

const ROWS: &[u8] = b"\
    # preset: what a preset file ONE says of the unit TWO. The first rule that applies to it\n\
    # counts, and a unit without any is enabled. Rules are read by words.\n\
    preset\tenable a.service\\ndisable *\ta.service\tenable\n\
    preset\tenable a.service\\r\\ndisable *\\r\\n\ta.service\tenable\n\
    preset\t \\t enable \\t a.service \\r\\n\\tdisable\\t*\\t\ta.service\tenable\n\
    preset\tdisable\\ndisable \\t\\nenable a.service\\n\ta.service\tenable\n\
    preset\tdisable * # all\\n\ta.service\tenable\n\
    preset\tenable a.service\\ndisable a.service\\n\ta.service\tenable\n\
    preset\tdisable a\\xff.service\\nenable a.service\\n\ta.service\tenable\n\
    preset\t\ta.service\tenable\n\
    # A line ignore is read like a line disable.\n\
    preset\tignore a.service\\ndisable *\\n\ta.service\tignore\n\
    preset\tignore a.service\\ndisable *\\n\tb.service\tdisable\n\
    preset\t\\t ignore \\t *.service \\r\\n\ta.service\tignore\n\
    preset\tignore a.service b.service\\nignore\\nIgnore *\\n\ta.service\tenable\n\
    preset\tenable a.service\\nignore *\\n\ta.service\tenable\n\
    preset\tdisable a.service\\nignore *\\n\ta.service\tdisable\n\
    preset\tignore web@*\\nenable web@.service a\\n\tweb@.service\tignore\n\
    copy\tignore *\\n\tweb@.service\tignore\n\
    preset\t# enable a.service\\ndisable *\\n\ta.service\tdisable\n\
    preset\t; enable a.service\\ndisable *\\n\ta.service\tdisable\n\
    preset\t#enable a.service\\n;\\n\\ndisable *\\n\ta.service\tdisable\n\
    preset\tEnable a.service\\ndisable *\\n\ta.service\tdisable\n\
    preset\tenabled a.service\\ndisable *\\n\ta.service\tdisable\n\
    preset\tallow a.service\\ndisable *\\n\ta.service\tdisable\n\
    preset\tenable\\ndisable *\\n\ta.service\tdisable\n\
    preset\tenable a.service x\\ndisable *\\n\ta.service\tdisable\n\
    preset\tenable \\\\\\na.service\\ndisable *\\n\ta.service\tdisable\n\
    preset\tdisable a.service\\nenable a.service\\n\ta.service\tdisable\n\
    preset\t\\xff\\xfe\\ndisable ?.service\\n\ta.service\tdisable\n\
    preset\tenable\\xff a.service\\ndisable *\\n\ta.service\tdisable\n\
    preset\tenable\\x00a.service\\ndisable *\\n\ta.service\tdisable\n\
    preset\tenable \\xffa.service\\ndisable *\\n\ta.service\tdisable\n\
    preset\t\\xef\\xbb\\xbfenable a.service\\ndisable *\\n\ta.service\tdisable\n\
    preset\tenable [\\x80-\\xff].service\\ndisable [!\\x80-\\xff].service\\n\ta.service\tdisable\n\
    # A rule for a template lists its instances, as they are written.\n\
    preset\tenable web@.service a b\\ndisable *\\n\tweb@.service\tenable a b\n\
    preset\tenable web@.service a b\\ndisable *\\n\tweb@b.service\tenable\n\
    preset\tenable web@.service a b\\ndisable *\\n\tweb@c.service\tdisable\n\
    preset\tenable web@.service a b\\ndisable *\\n\tweb.service\tdisable\n\
    preset\tenable w@.service a/b a/b \\xff\\ndisable *\\n\tw@.service\tenable a/b a/b \\xff\n\
    # Rules with instances that enable no template, or that disable, are ignored.\n\
    preset\tenable w*@.service a\\ndisable ssh.service x\\ndisable web@*\\n\tweb@.service\t\
        disable\n\
    preset\tenable w*@.service a\\ndisable ssh.service x\\ndisable web@*\\n\tssh.service\tenable\n\
    # copy: the same, with a copy of the instances.\n\
    copy\tenable web@.service a b\\n\tweb@.service\tenable a b\n";

/// What a preset file with these lines says about a unit.
fn said(alloc: Global, lines: &[u8], unit: &[u8]) -> Result<Verdict, AllocError> {
    let at = b"/usr/lib/systemd/system-preset/50-a.preset";
    let policy = policy_of_file(alloc, at, lines)?;
    verdict(alloc, &policy, unit)
}

fn preset(alloc: Global, lines: &[u8], unit: &[u8]) -> Result<Vec<u8>, AllocError> {
    let verdict = said(alloc, lines, unit)?;
    verdict_text(alloc, &verdict)
}

fn copied(alloc: Global, instances: &Instances) -> Result<Vec<u8>, AllocError> {
    let copy = instances.copy()?;
    if copy.is_empty() {
        return Vec::from_slice(alloc, b"none");
    }
    enabled(alloc, &copy)
}

fn copy(alloc: Global, lines: &[u8], unit: &[u8]) -> Result<Vec<u8>, AllocError> {
    match said(alloc, lines, unit)? {
        Verdict::Enable(instances) => copied(alloc, &instances),
        Verdict::Disable => Vec::from_slice(alloc, b"disable"),
        Verdict::Ignore => Vec::from_slice(alloc, b"ignore"),
    }
}

fn answer(alloc: Global, row: &Row) -> Result<Vec<u8>, AllocError> {
    if is(row, b"preset") {
        return preset(alloc, &row.one, &row.two);
    }
    if is(row, b"copy") {
        return copy(alloc, &row.one, &row.two);
    }
    Vec::from_slice(alloc, b"unknown kind")
}

#[test]
fn lines_are_read_by_words(rt: HostRuntime) -> Result<(), Fail> {
    assert_rows(rt.alloc(), ROWS, answer)
}
