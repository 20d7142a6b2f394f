//! The notices of an operation.
ghost use Rattle.std.specs.Prelude.{◌≡◌, ◌==◌, ◌++◌, OnOk, OnErr, IfOk};
ghost use Rattle.std.specs.FinMap as map;
ghost use Rattle.unit_file.specs.Notices.{AreAtTheirLines, with_notice, joined, notice_lines, notice_line};

use crate::notice::Notice;
use crate::notice_line::NoticeLine;
use std::alloc::{AllocError, Global};
use std::collections::{BTreeMap, btree_map};
use std::marker::Model;

/// Notices in byte order of their lines, each once, whatever the order in which they were added.
/// Contracts see the finite map from lines to notices.
#[derive(Debug, Drop)]
pub struct Notices {
    by_line: BTreeMap<NoticeLine, Notice>,
    alloc: Global,
}

impl Model for Notices {
    ghost use Rattle.std.specs.Coded.{codes, coded_list, coded_ℕ};
    ghost use Rattle.std.specs.FinMap as map;
    ghost use Rattle.unit_file.specs.Notices.{line_cmp, NoticeMap, AreAtTheirLines};

    ghost Value = { NoticeMap };

    ghost coded = { map.code (coded_list coded_ℕ) (Prim.hlevel codes) };

    ghost view = { λ notices. map.from_entries notices.by_line.entries };

    ghost invariant = { λ notices. AreAtTheirLines (map.from_entries notices.by_line.entries) };
}

impl Notices {
    /// No notices.
    pub fn none(alloc: Global) -> Notices
        ensures { result ≡ map.empty }
    {
        Notices {
            by_line: BTreeMap::new(alloc),
            alloc,
        }
    }

    /// How many notices there are.
    pub fn len(&self) -> usize
        ensures { result ≡ map.len self.now }
    {
        self.by_line.len()
    }

    /// Whether there are no notices.
    pub fn is_empty(&self) -> bool
        ensures { result ≡ (map.len self.now == 0) }
    {
        self.len() == 0
    }

    /// The notices in byte order of their lines.
    pub fn iter(&self) -> NoticesIter<'_>
        ensures notices { result ≡ map.values self.now }
        ensures lines { AreAtTheirLines self.now }
    {
        NoticesIter {
            inner: self.by_line.values(),
        }
    }

    /// Adds a notice; it replaces one that has the same line. If memory runs out, nothing has
    /// changed.
    pub fn add(&mut self, notice: Notice) -> Result<(), AllocError>
        ensures ok { OnOk result (self.new ≡ with_notice self.old notice) }
        ensures err { OnErr result (self.new ≡ self.old) }
    {
        let line = NoticeLine::of(self.alloc, &notice)?;
        self.insert(line, notice)
    }

    fn insert(&mut self, line: NoticeLine, notice: Notice) -> Result<(), AllocError>
        requires { line ≡ notice_line notice }
        ensures ok { OnOk result (self.new ≡ map.insert self.old line notice) }
        ensures err { OnErr result (self.new ≡ self.old) }
    {
        self.by_line.insert(line, notice)?;
        Ok(())
    }

    /// Adds all of the others; each replaces one that has the same line. If memory runs out,
    /// nothing has changed.
    pub fn add_all(&mut self, others: &Notices) -> Result<(), AllocError>
        ensures ok { OnOk result (self.new ≡ joined self.old others.now) }
        ensures err { OnErr result (self.new ≡ self.old) }
    {
        let mut all = self.copy()?;
        all.insert_all(others)?;
        *self = all;
        Ok(())
    }

    /// The same, but if memory runs out, some of them may have been added.
    fn insert_all(&mut self, others: &Notices) -> Result<(), AllocError>
        ensures { OnOk result (self.new ≡ joined self.old others.now) }
    {
        for (line, notice) in others.by_line.iter() {
            self.insert(line.copy()?, notice.copy()?)?;
        }
        Ok(())
    }

    /// An equal copy.
    pub fn copy(&self) -> Result<Notices, AllocError>
        ensures { IfOk result (λ notices. notices ≡ self.now) }
    {
        let mut copy = Notices::none(self.alloc);
        copy.insert_all(self)?;
        Ok(copy)
    }

    /// Appends the lines, in byte order. If memory runs out, nothing has been appended.
    pub fn push_lines(&self, out: &mut Vec<u8>) -> Result<(), AllocError>
        ensures ok { OnOk result (out.new.items ≡ out.old.items ++ notice_lines self.now) }
        ensures err { OnErr result (out.new.items ≡ out.old.items) }
    {
        let lines = self.lines()?;
        out.extend_from_slice(&lines)
    }

    fn lines(&self) -> Result<Vec<u8>, AllocError>
        ensures { IfOk result (λ lines. lines.items ≡ notice_lines self.now) }
    {
        let mut out = Vec::new(self.alloc);
        for line in self.by_line.keys() {
            out.extend_from_slice(line.text())?;
        }
        Ok(out)
    }
}

/// The notices that haven't been returned yet, in byte order of their lines. Contracts see their
/// list.
#[derive(Drop)]
pub struct NoticesIter<'a> {
    inner: btree_map::Values<'a, NoticeLine, Notice>,
}

impl<'a> Model for NoticesIter<'a> {
    ghost use Rattle.std.specs.Prelude.{List};
    ghost use Rattle.unit_file.specs.declared.notice.Notice.{Notice};

    ghost Value = { List Notice };

    ghost view = { λ iter. iter.inner };
}

impl<'a> Iterator for NoticesIter<'a> {
    ghost use Rattle.std.specs.Prelude.{length};
    ghost use Rattle.std.specs.Map.Iter.{TakesFirst, deref};
    ghost use Rattle.std.specs.Iterator.{at_most};

    type Item = &'a Notice;

    ghost next_gives = { TakesFirst deref };

    ghost remaining = { λ iter. at_most (length iter) };

    fn next(&mut self) -> Option<&'a Notice> {
        self.inner.next()
    }
}
