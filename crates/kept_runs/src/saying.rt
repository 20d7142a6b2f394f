//! Whether a text has a call for each row.
ghost use Rattle.std.specs.Prelude.{◌≡◌, ℕ, List, true, map as list_map, Ok, IfOk};
ghost use Rattle.unit_script.specs.Machine.{asked};
ghost use Rattle.unit_script.specs.Runs.{input_of};
ghost use Rattle.kept_runs.specs.Texts.{Says, SaysIf, requested};

use byte_streams::FromRead;
use history::{History, Row};
use std::alloc::{AllocError, Global};
use tree_steps::are_same;
use unit_script::{Action, Call, Input, InputError, read_input};

fn is_call_of(row: &Row<Action>, call: &Call) -> bool
    ensures yes { result ≡ true → requested row.now ≡ asked call.now }
    ensures no { requested row.now ≡ asked call.now → result ≡ true }
{
    row.operator.text() == call.operator.text() && row.request.same(&call.request)
}

/// Whether these are the calls of the rows.
fn are_calls_of(rows: &[Row<Action>], calls: &[Call]) -> bool
    ensures yes { result ≡ true → list_map requested rows.now ≡ list_map asked calls.now }
    ensures no { list_map requested rows.now ≡ list_map asked calls.now → result ≡ true }
{
    if rows.len() != calls.len() {
        return false;
    }
    for (i, row) in rows.iter().enumerate() {
        if !is_call_of(row, &calls[i]) {
            return false;
        }
    }
    true
}

/// Whether an input has the first tree of a history and a call for each of its rows.
fn is_input_of(input: &Input, history: &History<Action>) -> bool
    ensures yes { result ≡ true → (text : List ℕ) → input_of text ≡ Ok (input.now.tree, input.now.calls.items) → Says text history.now.first history.now.rows }
    ensures no { (text : List ℕ) → input_of text ≡ Ok (input.now.tree, input.now.calls.items) → Says text history.now.first history.now.rows → result ≡ true }
{
    if !are_same(&input.tree, history.first()) {
        return false;
    }
    are_calls_of(history.rows(), &input.calls)
}

/// Whether a text, read as an input of `unitadm`, has the first tree of a history and a call for
/// each of its rows. Fails only if memory runs out.
pub(crate) fn says(
    alloc: Global,
    text: &[u8],
    history: &History<Action>,
) -> Result<bool, AllocError>
    ensures yes { IfOk result (λ says. SaysIf says text.now history.now.first history.now.rows) }
    ensures no { IfOk result (λ says. Says text.now history.now.first history.now.rows → says ≡ true) }
{
    match read_input(alloc, &mut FromRead::new(text)) {
        Ok(input) => Ok(is_input_of(&input, history)),
        Err(InputError::Fault(_)) => Ok(false),
        // A text in memory never fails to be read.
        Err(InputError::InventoryRead(_) | InputError::ReadFault | InputError::OutOfMemory) => {
            Err(AllocError)
        }
    }
}
