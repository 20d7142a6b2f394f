//! The lines of notices, compared by their bytes.
ghost use Rattle.std.specs.Prelude.{◌≡◌, IfOk};

use crate::notice::Notice;
use std::alloc::{AllocError, Global};
use std::cmp::Ordering;
use std::marker::Model;

/// The line that reports a notice. Contracts see its text.
#[derive(Debug, Drop)]
pub(crate) struct NoticeLine {
    text: Vec<u8>,
}

impl Model for NoticeLine {
    ghost use Rattle.std.specs.Prelude.{List, ℕ};

    ghost Value = { List ℕ };

    ghost view = { λ line. line.text.items };
}

impl NoticeLine {
    ghost use Rattle.unit_file.specs.Notices.{notice_line};

    pub fn of(alloc: Global, notice: &Notice) -> Result<NoticeLine, AllocError>
        ensures { IfOk result (λ line. line ≡ notice_line notice.now) }
    {
        Ok(NoticeLine {
            text: notice.line(alloc)?,
        })
    }

    pub fn text(&self) -> &[u8]
        ensures { result.now ≡ self.now }
    {
        &self.text
    }

    /// An equal copy.
    pub fn copy(&self) -> Result<NoticeLine, AllocError>
        ensures { IfOk result (λ line. line ≡ self.now) }
    {
        Ok(NoticeLine {
            text: self.text.clone()?,
        })
    }
}

impl PartialEq for NoticeLine {
    ghost use Rattle.std.specs.Prelude.{nat_eq};
    ghost use Rattle.std.specs.Cmp.{partial_equiv_from_equiv};
    ghost use Rattle.std.specs.Cmp.Lexicographic.{pointwise, nat_list_eq_equiv};

    ghost eq = { pointwise nat_eq };

    ghost laws = { partial_equiv_from_equiv nat_list_eq_equiv };

    fn eq(&self, other: &NoticeLine) -> bool {
        self.text() == other.text()
    }
}

impl Eq for NoticeLine {
    ghost use Rattle.std.specs.Cmp.Lexicographic.{nat_list_eq_equiv};

    ghost laws = { nat_list_eq_equiv };
}

impl PartialOrd for NoticeLine {
    ghost use Rattle.std.specs.Prelude.{Some};
    ghost use Rattle.std.specs.Cmp.Lexicographic.{texts_po};
    ghost use Rattle.unit_file.specs.Notices.{line_cmp};

    ghost partial_cmp = { λ x y. Some (line_cmp x y) };

    ghost laws = { texts_po };

    fn partial_cmp(&self, other: &NoticeLine) -> Option<Ordering> {
        Some(self.cmp(other))
    }
}

impl Ord for NoticeLine {
    ghost use Rattle.std.specs.Prelude.{refl};
    ghost use Rattle.std.specs.Cmp.Lexicographic.{nat_list_cmp_total, texts_ties};
    ghost use Rattle.unit_file.specs.Notices.{line_cmp};

    ghost cmp = { line_cmp };

    ghost total = { nat_list_cmp_total };

    ghost matches_partial_cmp = { λ x y. refl };

    ghost matches_eq = { texts_ties };

    fn cmp(&self, other: &NoticeLine) -> Ordering {
        self.text().cmp(other.text())
    }
}
