//! The same rows on another first tree.
ghost use Rattle.std.specs.Prelude.{◌≡◌, true, None, IfOk, IfSome};
ghost use Rattle.kept_rows.specs.Others.{with_slots_of};
ghost use Rattle.kept_runs.specs.Texts.{all_shown};
ghost use Rattle.kept_runs.specs.Moves.{CannotMove, ShowsAlike, text_with};

use crate::errors::KeptError;
use crate::kept::Kept;
use crate::reading::history_of_text;
use crate::rows::same_rows;
use history::History;
use link_tree::{MAX_ENTRIES, Tree};
use std::alloc::{AllocError, Global};
use tree_steps::{are_same, slot_changes_between};
use unit_script::Action;

/// What was captured, but at slots what is there in the first tree.
fn first_with(alloc: Global, first: &Tree, captured: &Tree) -> Result<Tree, AllocError>
    ensures { IfOk result (λ tree. tree ≡ with_slots_of captured.now first.now) }
{
    let changes = slot_changes_between(alloc, captured, first)?;
    captured.with_changes(&changes)
}

/// Whether these are equal rows on this first tree.
fn are_rows_on(first: &Tree, rows: &History<Action>, history: &History<Action>) -> bool
    ensures first { result ≡ true → first.now ≡ history.now.first }
    ensures rows { result ≡ true → all_shown rows.now.rows ≡ all_shown history.now.rows }
    ensures no { first.now ≡ history.now.first → all_shown rows.now.rows ≡ all_shown history.now.rows → result ≡ true }
{
    are_same(first, history.first()) && same_rows(rows.rows(), history.rows())
}

impl Kept {
    /// The text with another first tree, if it has equal rows.
    fn with_first(&self, alloc: Global, first: &Tree) -> Result<Option<Kept>, AllocError>
        ensures none { IfOk result (λ found. found ≡ None → ShowsAlike (text_with self.now.text first.now) first.now self.now.history.rows → ⊥) }
        ensures text { IfOk result (λ found. IfSome found (λ kept. kept.text.bytes.items ≡ text_with self.now.text first.now)) }
        ensures limit { IfOk result (λ found. IfSome found (λ kept. kept.history.limit ≡ 1000000)) }
        ensures some { IfOk result (λ found. IfSome found (λ kept. (kept.is_written ≡ true) × (first.now ≡ kept.history.first) × (all_shown self.now.history.rows ≡ all_shown kept.history.rows))) }
    {
        let text = self.text.with_first(alloc, first)?;
        let history = match history_of_text(alloc, text.bytes()) {
            Ok(history) => history,
            Err(KeptError::OutOfMemory) => return Err(AllocError),
            Err(KeptError::Input(_)) => return Ok(None),
            Err(KeptError::Full) => {
                // It has more rows than this history, which may have no more than that.
                let _rows = self.history.rows();
                return Ok(None);
            }
            Err(KeptError::Text(..)) => unreachable!(),
            Err(KeptError::RulesDiffer { .. }) => unreachable!(),
            Err(KeptError::TreeDiffers { .. }) => unreachable!(),
        };
        if are_rows_on(first, &self.history, &history) {
            Ok(Some(Kept {
                text,
                history,
                is_written: true,
            }))
        } else {
            Ok(None)
        }
    }

    /// The same rows on a first tree that has, at paths that are no slots, what was captured. The
    /// result is `None` if a row would have another operator, request or reply, or other changes,
    /// or if that tree would have over 65,536 entries. Fails only if memory runs out.
    pub fn rebased(&self, alloc: Global, captured: &Tree) -> Result<Option<Kept>, AllocError>
        ensures none { IfOk result (λ found. found ≡ None → CannotMove self.now.text (with_slots_of captured.now self.now.history.first) self.now.history.rows) }
        ensures text { IfOk result (λ found. IfSome found (λ kept. kept.text.bytes.items ≡ text_with self.now.text (with_slots_of captured.now self.now.history.first))) }
        ensures limit { IfOk result (λ found. IfSome found (λ kept. kept.history.limit ≡ 1000000)) }
        ensures some { IfOk result (λ found. IfSome found (λ kept. (kept.is_written ≡ true) × (with_slots_of captured.now self.now.history.first ≡ kept.history.first) × (all_shown self.now.history.rows ≡ all_shown kept.history.rows))) }
    {
        let first = first_with(alloc, self.history.first(), captured)?;
        if first.len() > MAX_ENTRIES as usize {
            return Ok(None);
        }
        self.with_first(alloc, &first)
    }
}
