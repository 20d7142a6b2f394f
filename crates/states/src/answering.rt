//! Results of questions.
ghost use Rattle.std.specs.Prelude.{◌≡◌, ◌∷◌, [], All, true, IfOk};
ghost use Rattle.unit_paths.specs.Slots.{is_slot};
ghost use Rattle.link_tree.specs.Trees.{Entries};
ghost use Rattle.tree_access.specs.declared.reading.Seen.TheVariants as sees;
ghost use Rattle.tree_access.specs.Keys.{seen};
ghost use Rattle.tree_access.specs.Readings.{reading_of};

use footprint::{Answer, Changes, Key, Outcome, Reading};
use link_tree::TreePart;
use std::alloc::{AllocError, Global};

/// The result of a question that looked at one key: an answer and no change, given the entries at
/// which the key looks. Fails only if memory runs out.
pub(crate) fn answer_by(
    alloc: Global,
    key: Key,
    entries: TreePart,
    answer: Answer,
) -> Result<Outcome, AllocError>
    ensures outcome { IfOk result (λ outcome. (t : Entries) → seen key t ≡ sees.Entries entries → outcome ≡ record { answer = answer; changes = []; reading = reading_of (key ∷ []) t }) }
    ensures slots { IfOk result (λ outcome. All (λ change. is_slot change.path ≡ true) outcome.changes) }
{
    Ok(Outcome {
        answer,
        changes: Changes::none(alloc),
        reading: Reading::of_entries(alloc, key, entries)?,
    })
}
