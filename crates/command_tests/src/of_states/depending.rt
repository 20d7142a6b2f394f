//! Dependencies, in both directions.
use crate::lines::arguments;
use crate::questions::{OfLine, asked};
use sample_rows::{Row, assert_rows};
use sample_values::name;
use states::Dependencies;
use std::alloc::{AllocError, Global};
use std::test::Fail;

/// Links in all four directories, one to `/dev/null`, a file, a unit that depends on itself, and a
/// circle.
const PLAIN: &[u8] = b"unitadm-inventory 1\n\
    L\t/etc/systemd/system/a.target.wants/b.service\t/usr/lib/systemd/system/b.service\n\
    L\t/etc/systemd/system/a.target.wants/n.service\t/dev/null\n\
    F\t0\t/etc/systemd/system/a.target.wants/o.service\n\n\
    L\t/etc/systemd/system/d.service\t/usr/lib/systemd/system/e.service\n\
    L\t/run/systemd/system/b.service.requires/c.service\t../nowhere\n\
    L\t/usr/lib/systemd/system/d.service.requires/a.target\t/x\n\
    L\t/usr/lib/systemd/system/d.service.wants/d.service\t/x\n\
    L\t/usr/local/lib/systemd/system/c.service.wants/d.service\t/x\n\
    end\n";

/// Templates that name templates, plain units and an instance.
const TEMPLATES: &[u8] = b"unitadm-inventory 1\n\
    L\t/etc/systemd/system/c@.target.wants/m@.service\t/x\n\
    L\t/etc/systemd/system/c@.target.wants/p.service\t/x\n\
    L\t/etc/systemd/system/c@.target.wants/q@z.service\t/x\n\
    L\t/etc/systemd/system/c@a.target.wants/own.service\t/x\n\
    L\t/etc/systemd/system/m@.service.wants/n@.service\t/x\n\
    L\t/etc/systemd/system/u.target.wants/m@.service\t/x\n\
    end\n";

/// The name of the other template has 209 bytes.
const LONG: &[u8] = b"unitadm-inventory 1\n\
    L\t/etc/systemd/system/c@.target.wants/\
    llllllllllllllllllllllllllllllllllllllllllllllllllllllllllllllllllllllllllllllllllllllllllllllllllll\
    llllllllllllllllllllllllllllllllllllllllllllllllllllllllllllllllllllllllllllllllllllllllllllllllllll@.service\t/x\n\
    end\n";

/// Names in answers are each on a line.
const ROWS: &[u8] = b"\
    # Units depend on others by links\n\
    ask\tdependencies a.target\t\tb.service\\nc.service\\nd.service\n\
    ask\tdependencies b.service\t\ta.target\\nc.service\\nd.service\n\
    ask\tdependencies d.service\t\ta.target\\nb.service\\nc.service\n\
    ask\tdependencies e.service\t\t\n\
    ask\tdependencies --reverse a.target\t\tb.service\\nc.service\\nd.service\n\
    ask\tdependencies --reverse d.service\t\ta.target\\nb.service\\nc.service\n\
    ask\tdependencies --reverse n.service\t\t\n\
    ask\tdependencies --reverse o.service\t\t\n\
    # Instances have the links of their templates\n\
    ask\tdependencies c@.target\ttemplates\tm@.service\\nn@.service\\np.service\\nq@z.service\n\
    ask\tdependencies c@a.target\ttemplates\tm@a.service\\nn@a.service\\nown.service\\np.service\\nq@z.service\n\
    ask\tdependencies c@b.target\ttemplates\tm@b.service\\nn@b.service\\np.service\\nq@z.service\n\
    ask\tdependencies u.target\ttemplates\tm@.service\\nn@.service\n\
    ask\tdependencies --reverse m@a.service\ttemplates\tc@a.target\n\
    ask\tdependencies --reverse n@a.service\ttemplates\tc@a.target\\nm@a.service\n\
    ask\tdependencies --reverse p.service\ttemplates\tc@.target\n\
    ask\tdependencies --reverse n@.service\ttemplates\tc@.target\\nm@.service\\nu.target\n\
    # An instance of 46 bytes fits into the long name, and one of 47 does not: it is no name then\n\
    ask\tdependencies c@iiiiiiiiiiiiiiiiiiiiiiiiiiiiiiiiiiiiiiiiiiiiii.target\tlong\t\
    llllllllllllllllllllllllllllllllllllllllllllllllllllllllllllllllllllllllllllllllllllllllllllllllllll\
    llllllllllllllllllllllllllllllllllllllllllllllllllllllllllllllllllllllllllllllllllllllllllllllllllll\
    @iiiiiiiiiiiiiiiiiiiiiiiiiiiiiiiiiiiiiiiiiiiiii.service\n\
    ask\tdependencies c@iiiiiiiiiiiiiiiiiiiiiiiiiiiiiiiiiiiiiiiiiiiiiii.target\tlong\t\n\
    # All links of dependencies are looked at\n\
    reads\tdependencies a.target\t\tlinks\n\
    # Another unit or the other way makes it another question\n\
    same\tdependencies --reverse a.service\tdependencies --reverse b.service\tno\n\
    same\tdependencies --reverse a.service\tdependencies a.service\tno\n";

impl OfLine for Dependencies {
    fn of_line(alloc: Global, line: &[u8]) -> Result<Dependencies, AllocError> {
        let words = arguments(line);
        let unit = words.strip_prefix(b"--reverse ");
        Ok(Dependencies {
            unit: name(alloc, unit.unwrap_or(words))?,
            reverse: unit.is_some(),
        })
    }
}

fn inventory(tree: &[u8]) -> &'static [u8] {
    if tree == b"templates".as_slice() {
        TEMPLATES
    } else if tree == b"long".as_slice() {
        LONG
    } else {
        PLAIN
    }
}

fn answer(alloc: Global, row: &Row) -> Result<Vec<u8>, AllocError> {
    asked::<Dependencies>(alloc, row, inventory(&row.two))
}

#[test]
fn units_depend_by_links_and_instances_by_those_of_templates(rt: HostRuntime) -> Result<(), Fail> {
    assert_rows(rt.alloc(), ROWS, answer)
}
