//! A run: from an inventory and a script to the replies and the resulting inventory.
ghost use Rattle.std.specs.Prelude.{◌≡◌, ◌<◌, ◌≤◌, ◌++◌, ℕ, List, length, Option, Some, true, OnOk, IfOk, IfErr};
ghost use Rattle.std.specs.Io.KnownBytes.{Appends};
ghost use Rattle.link_tree.specs.Reads.{AccountsWrite, SentBefore};
ghost use Rattle.byte_streams.specs.Streams.{IsCalm};
ghost use Rattle.byte_streams.specs.declared.counters.Counters.{Counters};
ghost use Rattle.link_tree.specs.Trees.{inventory_text};
ghost use Rattle.link_tree.specs.Inventory.{inventory_of};
ghost use Rattle.history.specs.Rows.{rows_after};
ghost use Rattle.history.specs.declared.history.TheConstants.{MAX_ROWS};
ghost use Rattle.unit_script.specs.Actions.{asks, meaning};
ghost use Rattle.unit_script.specs.Machine.{asked, replay, rows_of};
ghost use Rattle.unit_script.specs.Script.{script_of};
ghost use Rattle.unit_script.specs.OpenScripts.{RunStops};
ghost use Rattle.unit_script.specs.Texts.{text_of};
ghost use Rattle.unit_script.specs.Runs.{InputStops, ScriptStops, TreeOfInput, input_of, outcome_of, text_of_calls, in_inventory, in_script, GivesInput, InputCause, WritesAll, FaultOf, Silent, FaultCause};

use crate::action::Action;
use crate::call::Call;
use crate::reply::push_each_row;
use crate::run_fault::{InputError, InputFault, RunFault};
use crate::script::read_script;
use byte_streams::{ReadError, Sink, Source};
use history::{History, MAX_ROWS, Request};
use link_tree::{InventoryError, Tree, WriteError, read_inventory, write_before_inventory};
use std::alloc::{AllocError, Global};
use std::mem::forget;

/// Makes one call, which adds one row. The history isn't full, so it fails only if memory runs out.
fn make(history: &mut History<Action>, alloc: Global, call: Call) -> Result<(), AllocError>
    requires room { length history.old.rows < history.old.limit }
    ensures first { history.new.first ≡ history.old.first }
    ensures limit { history.new.limit ≡ history.old.limit }
    ensures rows { OnOk result (history.new.rows ≡ rows_after asks meaning history.old.first history.old.rows (asked call)) }
{
    let Call { operator, request } = call;
    match request {
        Request::Do(action) => match history.call(alloc, operator, action) {
            Ok(_) => Ok(()),
            Err(_) => Err(AllocError),
        },
        Request::Undo(n) => match history.undo(alloc, operator, n) {
            Ok(_) => Ok(()),
            Err(_) => Err(AllocError),
        },
        Request::Redo(n) => match history.redo(alloc, operator, n) {
            Ok(_) => Ok(()),
            Err(_) => Err(AllocError),
        },
    }
}

/// The history of a script's calls, at most 1,000,000, made one after another on a tree. Fails only
/// if memory runs out.
pub fn history_of(
    alloc: Global,
    tree: Tree,
    calls: Vec<Call>,
) -> Result<History<Action>, AllocError>
    requires few { length calls.items ≤ MAX_ROWS }
    ensures first { IfOk result (λ history. history.first ≡ tree) }
    ensures limit { IfOk result (λ history. history.limit ≡ MAX_ROWS) }
    ensures rows { IfOk result (λ history. history.rows ≡ rows_of tree calls.items) }
{
    let mut history = History::new(alloc, tree)?;
    for call in calls {
        make(&mut history, alloc, call)?;
    }
    Ok(history)
}

/// The same for any number of calls: too many are refused before the first is made.
#[tactic(auto, unfolding(crate::specs::Runs::text_of_calls))]
fn history_of_calls(
    alloc: Global,
    tree: Tree,
    calls: Vec<Call>,
) -> Result<History<Action>, InputError>
    ensures text { GivesInput (λ history. text_of history.first history.rows) result (text_of_calls tree calls.items) }
    ensures stops { IfErr result (λ e. (old new : Option (List ℕ)) → InputStops e old new) }
    ensures cause { IfErr result (λ e. (old new : Counters) → IsCalm old new → InputCause e old new) }
{
    if calls.len() > MAX_ROWS {
        return Err(InputError::Fault(InputFault::Full));
    }
    match history_of(alloc, tree, calls) {
        Ok(history) => Ok(history),
        Err(AllocError) => Err(InputError::OutOfMemory),
    }
}

fn read_tree<S: Source>(alloc: Global, source: &mut S) -> Result<Tree, InputError>
    ensures tree { (input : List ℕ) → S.left source.old ≡ Some input → TreeOfInput (S.left source.new) result (in_inventory (inventory_of input)) }
    ensures stops { IfErr result (λ e. InputStops e (S.left source.old) (S.left source.new)) }
    ensures calm { OnOk result (IsCalm (S.counters source.old) (S.counters source.new)) }
    ensures cause { IfErr result (λ e. InputCause e (S.counters source.old) (S.counters source.new)) }
{
    match read_inventory(alloc, source) {
        Ok(tree) => Ok(tree),
        Err(InventoryError::Fault(fault, n)) => {
            Err(InputError::Fault(InputFault::Inventory(fault, n)))
        }
        Err(InventoryError::ReadFault(n)) => Err(InputError::InventoryRead(n)),
        Err(InventoryError::OutOfMemory) => Err(InputError::OutOfMemory),
    }
}

fn read_calls<S: Source>(alloc: Global, source: &mut S) -> Result<Vec<Call>, InputError>
    ensures calls { (bytes : List ℕ) → S.left source.old ≡ Some bytes → GivesInput (λ calls. calls.items) result (in_script (script_of bytes)) }
    ensures stops { IfErr result (λ e. ScriptStops e (S.left source.old) (S.left source.new)) }
    ensures calm { OnOk result (IsCalm (S.counters source.old) (S.counters source.new)) }
    ensures cause { IfErr result (λ e. InputCause e (S.counters source.old) (S.counters source.new)) }
{
    match read_script(alloc, source) {
        Ok(calls) => Ok(calls),
        Err(ReadError::Fault(fault)) => Err(InputError::Fault(InputFault::Script(fault))),
        Err(ReadError::ReadFault) => Err(InputError::ReadFault),
        Err(ReadError::OutOfMemory) => Err(InputError::OutOfMemory),
    }
}

/// The input of a run: the tree of an inventory, and the calls of the script after it.
#[derive(Debug, Drop)]
pub struct Input {
    pub tree: Tree,
    pub calls: Vec<Call>,
}

/// Reads an inventory and the script after it, up to the end of the source. No call is made, and
/// there may be any number of calls.
///
/// # Errors
///
/// The first in the order of reading: `Fault` of the inventory or of the script, as
/// `read_inventory` and `read_script` report it; `InventoryRead` or `ReadFault` if the source
/// failed in the inventory or in the script, or was interrupted 1,000 times in a row there.
/// `OutOfMemory` may occur before any of them.
pub fn read_input<S: Source>(alloc: Global, source: &mut S) -> Result<Input, InputError>
    ensures input { (input : List ℕ) → S.left source.old ≡ Some input → GivesInput (λ given. (given.tree, given.calls.items)) result (input_of input) }
    ensures stops { IfErr result (λ e. InputStops e (S.left source.old) (S.left source.new)) }
    ensures calm { OnOk result (IsCalm (S.counters source.old) (S.counters source.new)) }
    ensures cause { IfErr result (λ e. InputCause e (S.counters source.old) (S.counters source.new)) }
{
    let tree = read_tree(alloc, source)?;
    let calls = read_calls(alloc, source)?;
    Ok(Input { tree, calls })
}

/// Reads the whole input, and makes its calls.
fn history_of_input<S: Source>(alloc: Global, source: &mut S) -> Result<History<Action>, InputError>
    ensures text { (input : List ℕ) → S.left source.old ≡ Some input → GivesInput (λ history. text_of history.first history.rows) result (outcome_of input) }
    ensures stops { IfErr result (λ e. InputStops e (S.left source.old) (S.left source.new)) }
    ensures calm { OnOk result (IsCalm (S.counters source.old) (S.counters source.new)) }
    ensures cause { IfErr result (λ e. InputCause e (S.counters source.old) (S.counters source.new)) }
{
    let Input { tree, calls } = read_input(alloc, source)?;
    history_of_calls(alloc, tree, calls)
}

/// The replies and the line `== tree`: the output before the inventory.
fn text_of_replies(alloc: Global, history: &History<Action>) -> Result<Vec<u8>, AllocError>
    ensures { IfOk result (λ text. text.items ++ inventory_text (replay history.now.first history.now.rows) ≡ text_of history.now.first history.now.rows) }
{
    let mut out = Vec::new(alloc);
    push_each_row(&mut out, history.rows())?;
    out.extend_from_slice(b"== tree\n")?;
    Ok(out)
}

/// Writes the reply to each call of a history, the line `== tree`, and the inventory of the tree
/// after the calls. All memory is allocated before the first byte is written: the replies' text,
/// and a buffer.
///
/// # Errors
///
/// `Fault` with the number of bytes that the sink accepted, if it failed, was interrupted 1,000
/// times in a row or wasn't flushed; `OutOfMemory`, and then nothing was written.
pub fn write_history<K: Sink>(
    alloc: Global,
    history: &History<Action>,
    sink: &mut K,
) -> Result<(), WriteError>
    ensures ok { OnOk result (Appends (K.written sink.old) (K.written sink.new) (text_of history.now.first history.now.rows)) }
    ensures flushed { OnOk result (K.flushed sink.new ≡ true) }
    ensures fault { IfErr result (λ e. SentBefore e (K.written sink.old) (K.written sink.new) (text_of history.now.first history.now.rows)) }
    ensures counters { AccountsWrite result (K.counters sink.old) (K.counters sink.new) }
{
    let Ok(replies) = text_of_replies(alloc, history) else {
        return Err(WriteError::OutOfMemory);
    };
    write_before_inventory(alloc, &replies, history.tree(), sink)
}

/// Reads an inventory and a script up to the end of the source, makes the script's calls one after
/// another, and writes to the sink a reply to each call and the inventory of the resulting tree.
/// systemctl(1), "Unit File Commands".
///
/// A call that is refused is not an error: its reply has the reason, and the next call is made. All
/// lines are read before the first call is made, and all memory is allocated before the first byte
/// is written. So unless the sink fails, the output is written completely and flushed, or nothing
/// is written. The process should end next: the history is not freed.
///
/// # Errors
///
/// The first of these in the order of reading:
///
/// - `Inventory`: what `read_inventory` refuses, with the number of the entry.
/// - `InventoryRead`: the source failed in the inventory, or was interrupted 1,000 times in a row.
/// - `NoCalls`: the line after the inventory isn't `== calls`.
/// - `BadCall`: the first bad line of the script, numbered from 1 after `== calls`, with its `Reason`.
/// - `ReadFault`: the source failed in the script, or was interrupted 1,000 times in a row.
/// - `Full`: the script has over 1,000,000 calls (`MAX_ROWS`).
/// - `WriteFault`: the sink failed, was interrupted 1,000 times in a row or wasn't flushed. It had
///   accepted the first bytes of the output, exactly as many as the fault reports.
///
/// `OutOfMemory` may occur before any of them but `WriteFault`; nothing was written then.
pub fn run<S: Source, K: Sink>(alloc: Global, source: &mut S, sink: &mut K) -> Result<(), RunFault>
    ensures ok { OnOk result ((input : List ℕ) → S.left source.old ≡ Some input → WritesAll (K.written sink.old) (K.written sink.new) (outcome_of input)) }
    ensures flushed { OnOk result (K.flushed sink.new ≡ true) }
    ensures fault { IfErr result (λ e. (input : List ℕ) → S.left source.old ≡ Some input → FaultOf e (K.written sink.old) (K.written sink.new) (outcome_of input)) }
    ensures stops { IfErr result (λ e. RunStops e (S.left source.old) (S.left source.new)) }
    ensures silent { IfErr result (λ e. Silent e (K.written sink.old) (K.written sink.new)) }
    ensures calm { OnOk result (IsCalm (S.counters source.old) (S.counters source.new)) }
    ensures cause { IfErr result (λ e. FaultCause e (S.counters source.old) (S.counters source.new) (K.counters sink.old) (K.counters sink.new)) }
{
    match history_of_input(alloc, source) {
        Ok(history) => {
            let written = write_history(alloc, &history, sink);
            // The process frees all its memory at once when it ends; freeing each entry takes a
            // tenth of the time.
            forget(history);
            match written {
                Ok(()) => Ok(()),
                Err(WriteError::Fault(sent)) => Err(RunFault::WriteFault(sent)),
                Err(WriteError::OutOfMemory) => Err(RunFault::OutOfMemory),
            }
        }
        Err(e) => Err(e.run_fault()),
    }
}
