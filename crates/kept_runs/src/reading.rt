//! Reading the text of a history.
ghost use Rattle.std.specs.Prelude.{◌≡◌, ◌≤◌, ◌⊎◌, ℕ, List, true, Ok, length, IfOk, IfErr, OnOk};
ghost use Rattle.unit_script.specs.Machine.{rows_of, replay};
ghost use Rattle.unit_script.specs.Runs.{input_of};
ghost use Rattle.kept_texts.specs.Readings.{read_text};
ghost use Rattle.kept_runs.specs.Texts.{Says};
ghost use Rattle.kept_runs.specs.Readings.{AreOfRules, IsFirstOfOthers, LeftSlotsOf, LeftOtherSlots, IsInputFault, IsReadFault};
ghost use Rattle.kept_runs.specs.declared.errors.KeptError.TheVariants as keeps;

use crate::errors::KeptError;
use crate::kept::Kept;
use byte_streams::FromRead;
use history::{History, MAX_ROWS};
use kept_texts::{KeptText, Run, sum_of_slots};
use std::alloc::Global;
use unit_script::{Action, Input, history_of, read_input};

/// Refuses a run of other rules.
fn check_rules(runs: &[Run], rules: u32) -> Result<(), KeptError>
    ensures ok { OnOk result (AreOfRules rules runs.now) }
    ensures err { IfErr result (λ e. (run others : ℕ) × (e ≡ keeps.RulesDiffer run others) × IsFirstOfOthers rules runs.now run others) }
{
    for (before, run) in runs.iter().enumerate() {
        if run.words.rules != rules {
            return Err(KeptError::RulesDiffer {
                run: before + 1,
                rules: run.words.rules,
            });
        }
    }
    Ok(())
}

/// The rows of calls, if there are not too many.
fn history_of_input(alloc: Global, input: Input) -> Result<History<Action>, KeptError>
    ensures first { IfOk result (λ history. history.first ≡ input.tree) }
    ensures rows { IfOk result (λ history. history.rows ≡ rows_of input.tree input.calls.items) }
    ensures limit { IfOk result (λ history. history.limit ≡ 1000000) }
    ensures full { IfErr result (λ e. (text : List ℕ) → input_of text ≡ Ok (input.tree, input.calls.items) → IsInputFault e text) }
{
    let Input { tree, calls } = input;
    if calls.len() > MAX_ROWS {
        return Err(KeptError::Full);
    }
    Ok(history_of(alloc, tree, calls)?)
}

/// The rows of a text.
pub(crate) fn history_of_text(alloc: Global, text: &[u8]) -> Result<History<Action>, KeptError>
    ensures says { IfOk result (λ history. Says text.now history.first history.rows) }
    ensures limit { IfOk result (λ history. history.limit ≡ 1000000) }
    ensures fault { IfErr result (λ e. IsInputFault e text.now) }
{
    match read_input(alloc, &mut FromRead::new(text)) {
        Ok(input) => history_of_input(alloc, input),
        Err(error) => Err(KeptError::from(error)),
    }
}

/// Refuses rows that don't lead to the slots that the last run left.
fn check_tree(alloc: Global, runs: &[Run], history: &History<Action>) -> Result<(), KeptError>
    ensures ok { OnOk result (LeftSlotsOf (replay history.now.first history.now.rows) runs.now) }
    ensures err { IfErr result (λ e. (e ≡ keeps.OutOfMemory) ⊎ ((e ≡ keeps.TreeDiffers (length history.now.rows)) × (length history.now.rows ≤ 1000000) × LeftOtherSlots (replay history.now.first history.now.rows) runs.now)) }
{
    let Some(last) = runs.last() else {
        return Ok(());
    };
    if sum_of_slots(alloc, history.tree())? != last.tree {
        return Err(KeptError::TreeDiffers {
            row: history.rows().len(),
        });
    }
    Ok(())
}

impl Kept {
    /// Reads a text, whose runs must be of these rules.
    ///
    /// # Errors
    ///
    /// The first of these:
    ///
    /// - `Text`: this line is none of a history, or a sum differs.
    /// - `RulesDiffer`: a run was made by other rules.
    /// - `Input`: the text is no input of `unitadm`.
    /// - `Full`: it has over 1,000,000 calls.
    /// - `TreeDiffers`: the calls don't lead to the slots that the last run left.
    /// - `OutOfMemory`, which may occur before any of them.
    pub fn read(alloc: Global, text: Vec<u8>, rules: u32) -> Result<Kept, KeptError>
        ensures text { IfOk result (λ kept. kept.text.bytes.items ≡ text.items) }
        ensures parts { IfOk result (λ kept. read_text text.items ≡ Ok kept.text.parts) }
        ensures rules { IfOk result (λ kept. AreOfRules rules kept.text.parts.runs.all) }
        ensures slots { IfOk result (λ kept. LeftSlotsOf (replay kept.history.first kept.history.rows) kept.text.parts.runs.all) }
        ensures limit { IfOk result (λ kept. kept.history.limit ≡ 1000000) }
        ensures written { IfOk result (λ kept. kept.is_written ≡ true) }
        ensures fault { IfErr result (λ e. IsReadFault rules e text.items) }
    {
        let text = KeptText::read(alloc, text)?;
        check_rules(text.runs(), rules)?;
        let history = history_of_text(alloc, text.bytes())?;
        check_tree(alloc, text.runs(), &history)?;
        Ok(Kept {
            text,
            history,
            is_written: true,
        })
    }
}
