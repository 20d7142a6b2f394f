//! What calls were answered, as JSON.
ghost use Rattle.std.specs.Prelude.{◌≡◌, ◌++◌, IfOk, OnOk, map};
ghost use Rattle.footprint.specs.declared.answer.Answer.TheVariants.{Done, Names};
ghost use Rattle.serde_json.specs.View.{members_view, view};
ghost use Rattle.root_json.specs.Objects.{text_data, texts_data};
ghost use Rattle.root_json.specs.Answers.{with_reply_word, with_state, with_refusal, with_answer, with_row_of, with_reply};

use crate::notices::notices_value;
use crate::objects::{Object, put_count, put_truth, put_value, put_word};
use crate::refusals::{redo_refusal, refusal, undo_refusal};
use crate::texts::{push_text, put_text};
use footprint::{Answer, Notices, StateWord};
use history::RowReply;
use serde_json::Value;
use std::alloc::{AllocError, Global};
use unit_name::UnitName;
use unit_script::{is_success, state_text};

/// Puts a state, and whether it counts as enabled.
pub(crate) fn put_state(
    alloc: Global,
    object: &mut Object,
    state: StateWord,
) -> Result<(), AllocError>
    ensures { OnOk result (members_view object.new.entries ≡ with_state (members_view object.old.entries) state) }
{
    put_word(alloc, object, "state", state_text(state))?;
    put_truth(alloc, object, "enabled", is_success(state))
}

/// Puts which kind of reply it is.
fn put_reply_word(alloc: Global, object: &mut Object, word: &str) -> Result<(), AllocError>
    ensures { OnOk result (members_view object.new.entries ≡ with_reply_word (members_view object.old.entries) word.now) }
{
    put_word(alloc, object, "reply", word)
}

/// Puts the notices of what was done.
fn put_done(alloc: Global, object: &mut Object, notices: &Notices) -> Result<(), AllocError>
    ensures { OnOk result (members_view object.new.entries ≡ with_answer (members_view object.old.entries) (Done notices.now)) }
{
    put_reply_word(alloc, object, "ok")?;
    let notices = notices_value(alloc, notices)?;
    put_value(alloc, object, "notices", notices)
}

fn push_names(alloc: Global, values: &mut Vec<Value>, names: &[UnitName]) -> Result<(), AllocError>
    ensures { OnOk result (map view values.new.items ≡ map view values.old.items ++ map text_data names.now) }
{
    for name in names {
        push_text(alloc, values, name.text())?;
    }
    Ok(())
}

fn names_value(alloc: Global, names: &[UnitName]) -> Result<Value, AllocError>
    ensures { IfOk result (λ value. view value ≡ texts_data names.now) }
{
    let mut values = Vec::new(alloc);
    push_names(alloc, &mut values, names)?;
    Ok(Value::Array(values))
}

fn put_names(alloc: Global, object: &mut Object, names: &[UnitName]) -> Result<(), AllocError>
    ensures { OnOk result (members_view object.new.entries ≡ with_answer (members_view object.old.entries) (Names names.now)) }
{
    put_reply_word(alloc, object, "units")?;
    let names = names_value(alloc, names)?;
    put_value(alloc, object, "units", names)
}

fn put_refused(alloc: Global, object: &mut Object, refusal: Object) -> Result<(), AllocError>
    ensures { OnOk result (members_view object.new.entries ≡ with_refusal (members_view object.old.entries) (members_view refusal.entries)) }
{
    put_reply_word(alloc, object, "refused")?;
    put_value(alloc, object, "refusal", Value::Object(refusal))
}

fn put_answer(alloc: Global, object: &mut Object, answer: &Answer) -> Result<(), AllocError>
    ensures { OnOk result (members_view object.new.entries ≡ with_answer (members_view object.old.entries) answer.now) }
{
    match answer {
        Answer::Done(notices) => put_done(alloc, object, notices),
        Answer::State(state) => {
            put_reply_word(alloc, object, "state")?;
            put_state(alloc, object, *state)
        }
        Answer::Name(name) => {
            put_reply_word(alloc, object, "unit")?;
            put_text(alloc, object, "unit", name.text())
        }
        Answer::Names(names) => put_names(alloc, object, names.as_slice()),
        Answer::Refused(why) => put_refused(alloc, object, refusal(alloc, why)?),
    }
}

/// Puts the row that was undone or redone.
fn put_row_of(alloc: Global, object: &mut Object, word: &str, n: u32) -> Result<(), AllocError>
    ensures { OnOk result (members_view object.new.entries ≡ with_row_of (members_view object.old.entries) word.now n) }
{
    put_reply_word(alloc, object, word)?;
    put_count(alloc, object, "of", n as usize)
}

/// Puts what a call was answered, which names row `n` if it is an undo or a redo.
pub(crate) fn put_reply(
    alloc: Global,
    object: &mut Object,
    n: u32,
    reply: &RowReply,
) -> Result<(), AllocError>
    ensures { OnOk result (members_view object.new.entries ≡ with_reply (members_view object.old.entries) n reply.now) }
{
    match reply {
        RowReply::Answered(answer) => put_answer(alloc, object, answer),
        RowReply::Undid(m) => put_row_of(alloc, object, "undid", *m),
        RowReply::UndoRefused(why) => { put_refused(alloc, object, undo_refusal(alloc, n, *why)?) }
        RowReply::Redid(m) => put_row_of(alloc, object, "redid", *m),
        RowReply::RedoRefused(why) => { put_refused(alloc, object, redo_refusal(alloc, n, *why)?) }
    }
}
