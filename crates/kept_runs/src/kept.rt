//! A history with its text.
ghost use Rattle.std.specs.Prelude.{◌≡◌, true, [], IfOk};
ghost use Rattle.std.specs.Coded.{codes};
ghost use Rattle.std.specs.FinMap as map;
ghost use Rattle.link_tree.specs.Trees.{path_cmp};
ghost use Rattle.link_tree.specs.Values.{coded_path, coded_entry};
ghost use Rattle.unit_file.specs.Notices.{line_cmp};
ghost use Rattle.unit_file.specs.declared.notice.Notice.{Notice};
ghost use Rattle.kept_texts.specs.Texts.{begun_parts, begun_text, Is};
ghost use Rattle.kept_runs.specs.Texts.{Says, SaysIf};

use crate::saying::says;
use history::History;
use kept_texts::{Header, KeptText};
use link_tree::Tree;
use std::alloc::{AllocError, Global};
use unit_script::Action;

/// The text of a history, and the rows of its calls.
///
/// Rows can be made that the text doesn't have: those of a run that isn't kept, or of one that
/// ended with an error. Then `is_written` is false from there on, and nothing more is appended.
/// When a run is appended, the whole text is read again as an input of `unitadm`: only if it has
/// the first tree and a call for each row, `is_written` is true.
#[derive(Drop)]
pub struct Kept {
    pub(crate) text: KeptText,
    pub(crate) history: History<Action>,
    pub(crate) is_written: bool,
    ghost says: { SaysIf is_written text.bytes.items history.first history.rows } by { Prim.hlevel (codes, map.code {R = path_cmp} coded_path coded_entry, map.code {X = Notice} {R = line_cmp} coded_path (Prim.hlevel codes)) },
}

impl Kept {
    /// A history without calls, which begins with this tree. Fails only if memory runs out.
    pub fn begin(alloc: Global, first: Tree, header: Header) -> Result<Kept, AllocError>
        ensures rows { IfOk result (λ kept. kept.history ≡ record { first = first; rows = []; limit = 1000000 }) }
        ensures text { IfOk result (λ kept. Is kept.text (begun_text first header) (begun_parts first header)) }
        ensures said { IfOk result (λ kept. Says kept.text.bytes.items first [] → kept.is_written ≡ true) }
    {
        let text = KeptText::begin(alloc, &first, header)?;
        let history = History::new(alloc, first)?;
        let is_written = says(alloc, text.bytes(), &history)?;
        Ok(Kept {
            text,
            history,
            is_written,
        })
    }

    /// The text.
    pub fn text(&self) -> &KeptText
        ensures { result.now ≡ self.now.text }
    {
        &self.text
    }

    /// The rows.
    pub fn history(&self) -> &History<Action>
        ensures { result.now ≡ self.now.history }
    {
        &self.history
    }

    /// Whether the text is an input of `unitadm` that has the first tree and a call for each row.
    pub fn is_written(&self) -> bool
        ensures { result ≡ self.now.is_written }
    {
        self.is_written
    }
}
