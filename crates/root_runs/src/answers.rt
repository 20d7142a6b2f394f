//! What standard output has for one call.
ghost use Rattle.std.specs.Prelude.{◌≡◌, ◌++◌, OnOk, OnErr};
ghost use Rattle.std.specs.List.{flat_map};
ghost use Rattle.root_runs.specs.Messages.{line_of, answer_lines};

use footprint::Answer;
use history::{Row, RowReply};
use std::alloc::AllocError;
use unit_name::UnitName;
use unit_script::{Action, state_text};

fn push_line(out: &mut Vec<u8>, text: &[u8]) -> Result<(), AllocError>
    ensures { OnOk result (out.new.items ≡ out.old.items ++ line_of text.now) }
{
    out.extend_from_slice(text)?;
    out.extend_from_slice(b"\n")
}

fn push_names(out: &mut Vec<u8>, names: &[UnitName]) -> Result<(), AllocError>
    ensures { OnOk result (out.new.items ≡ out.old.items ++ flat_map line_of names.now) }
{
    for name in names {
        push_line(out, name.text())?;
    }
    Ok(())
}

fn push_answer(out: &mut Vec<u8>, reply: &RowReply) -> Result<(), AllocError>
    ensures { OnOk result (out.new.items ≡ out.old.items ++ answer_lines reply.now) }
{
    match reply {
        RowReply::Answered(Answer::Done(_) | Answer::Refused(_)) => Ok(()),
        RowReply::Answered(Answer::State(state)) => push_line(out, state_text(*state).as_bytes()),
        RowReply::Answered(Answer::Name(name)) => push_line(out, name.text()),
        RowReply::Answered(Answer::Names(names)) => push_names(out, names.as_slice()),
        RowReply::Undid(_) | RowReply::UndoRefused(_) => Ok(()),
        RowReply::Redid(_) | RowReply::RedoRefused(_) => Ok(()),
    }
}

fn push_each_answer(out: &mut Vec<u8>, rows: &[Row<Action>]) -> Result<(), AllocError>
    ensures { OnOk result (out.new.items ≡ out.old.items ++ flat_map (λ row. answer_lines row.reply) rows.now) }
{
    for row in rows {
        push_answer(out, &row.reply)?;
    }
    Ok(())
}

/// Appends what standard output has for rows: for each `is-enabled` the state, `not-found` if the
/// unit does not exist; for `get-default` the name; for `list-dependencies` the names; each on a
/// line. Commands have nothing there. If memory runs out, nothing has been appended.
pub fn push_answers(out: &mut Vec<u8>, rows: &[Row<Action>]) -> Result<(), AllocError>
    ensures ok { OnOk result (out.new.items ≡ out.old.items ++ flat_map (λ row. answer_lines row.reply) rows.now) }
    ensures err { OnErr result (out.new.items ≡ out.old.items) }
{
    let mut text = Vec::new(*out.allocator());
    push_each_answer(&mut text, rows)?;
    out.extend_from_slice(&text)
}
