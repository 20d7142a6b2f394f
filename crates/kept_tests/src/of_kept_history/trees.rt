//! The trees of histories: the old one, the new one, and others that a root may have.
use link_tree::Tree;
use sample_values::tree;
use std::alloc::{AllocError, Global};
use tree_steps::are_same;

const OLD: &[u8] = b"unitadm-inventory 1
L\t/etc/systemd/system/a.service\tb.service
F\t1\t/etc/systemd/system/b.service
b
F\t1\t/usr/local/lib/systemd/system/d.service
d
end
";

/// Five steps from the old one: the file `c.service` is put, `d.service` becomes another file,
/// `a.service` becomes another link, the link `m.target.wants/c.service` is put, and `b.service` is
/// removed. They are in three directories.
const NEW: &[u8] = b"unitadm-inventory 1
L\t/etc/systemd/system/a.service\tc.service
F\t1\t/etc/systemd/system/c.service
c
L\t/etc/systemd/system/m.target.wants/c.service\t../c.service
F\t1\t/usr/local/lib/systemd/system/d.service
D
end
";

/// On the way from the old one to the new one, in no order of steps.
const HALF: &[u8] = b"unitadm-inventory 1
L\t/etc/systemd/system/a.service\tb.service
L\t/etc/systemd/system/m.target.wants/c.service\t../c.service
F\t1\t/usr/local/lib/systemd/system/d.service
D
end
";

/// The old one, but somebody else has put another `c.service`, and has removed `d.service`.
const OTHER: &[u8] = b"unitadm-inventory 1
L\t/etc/systemd/system/a.service\tb.service
F\t1\t/etc/systemd/system/b.service
b
F\t1\t/etc/systemd/system/c.service
C
end
";

/// The new one, with what somebody else has changed in the last.
const OTHER_NEW: &[u8] = b"unitadm-inventory 1
L\t/etc/systemd/system/a.service\tc.service
F\t1\t/etc/systemd/system/c.service
C
L\t/etc/systemd/system/m.target.wants/c.service\t../c.service
end
";

/// The old one, but for the bytes of the file that is removed last.
const LAST_OTHER: &[u8] = b"unitadm-inventory 1
L\t/etc/systemd/system/a.service\tb.service
F\t1\t/etc/systemd/system/b.service
B
F\t1\t/usr/local/lib/systemd/system/d.service
d
end
";

/// The words by which rows name trees other than the old one and the new one, with their texts.
const OTHERS: [(&str, &[u8]); 4] = [
    ("half", HALF),
    ("other", OTHER),
    ("other new", OTHER_NEW),
    ("last other", LAST_OTHER),
];

/// The tree of the old history, that of the new one, and the others.
#[derive(Drop)]
pub(crate) struct Trees {
    pub(crate) old: Box<Tree>,
    pub(crate) new: Box<Tree>,
    others: Vec<Box<Tree>>,
}

impl Trees {
    pub(crate) fn new(alloc: Global) -> Result<Trees, AllocError> {
        let mut others = Vec::new(alloc);
        for (_word, text) in OTHERS {
            others.push(tree(alloc, text)?)?;
        }
        Ok(Trees {
            old: tree(alloc, OLD)?,
            new: tree(alloc, NEW)?,
            others,
        })
    }

    /// The tree that a row names.
    pub(crate) fn named(&self, named: &[u8]) -> &Tree {
        for ((word, _text), other) in OTHERS.iter().zip(&self.others) {
            if word.as_bytes() == named {
                return other;
            }
        }
        if named == b"new".as_slice() {
            &self.new
        } else {
            &self.old
        }
    }

    /// The word that names a tree.
    pub(crate) fn word(&self, tree: &Tree) -> &'static str {
        for ((word, _text), other) in OTHERS.iter().zip(&self.others) {
            if are_same(other, tree) {
                return word;
            }
        }
        if are_same(&self.old, tree) {
            "old"
        } else if are_same(&self.new, tree) {
            "new"
        } else {
            "unknown"
        }
    }
}
