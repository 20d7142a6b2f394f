//! Lines of scripts: what each verb asks for.

use crate::lines::call;
use byte_streams::ReadError;
use footprint::{Operation, Units};
use history::Request;
use link_tree::{Entry, Scope, push_decimal};
use sample_rows::{Row, assert_rows};
use slot_commands::{AddTo, AddedDependency, PlaceEntry};
use states::Dependencies;
use std::alloc::{AllocError, Global};
use std::test::Fail;
use unit_script::{Action, Call, ScriptFault};

/// A line, and what it asks for: the verb, `etc` or `run`, and each word in brackets.
const ROWS: &[u8] = b"\
    # questions\n\
    line\ta is-enabled x@y.service\t\tis-enabled [x@y.service]\n\
    line\ta get-default\t\tget-default\n\
    line\ta dependencies x.target\t\tdependencies [x.target]\n\
    line\ta dependencies --reverse x.target\t\treverse dependencies [x.target]\n\
    \n\
    # commands\n\
    line\ta enable x.service\t\tenable etc [x.service]\n\
    line\ta enable --runtime x.service y@.service x.service\t\t\
        enable run [x.service][y@.service][x.service]\n\
    line\ta disable x.service y@z.service\t\tdisable etc [x.service][y@z.service]\n\
    line\ta disable --runtime x.service\t\tdisable run [x.service]\n\
    line\ta reenable x.service y@z.service\t\treenable etc [x.service][y@z.service]\n\
    line\ta reenable --runtime x.service\t\treenable run [x.service]\n\
    line\ta preset x.service y@z.service\t\tpreset etc [x.service][y@z.service]\n\
    line\ta preset --runtime x.service\t\tpreset run [x.service]\n\
    line\ta mask x.service\t\tmask etc [x.service]\n\
    line\ta unmask --runtime x.service\t\tunmask run [x.service]\n\
    line\ta link /a\t\tlink etc [/a]\n\
    line\ta link --runtime /b /a /b\t\tlink run [/b][/a][/b]\n\
    line\ta add-wants b.target x.service\t\tadd-wants etc [b.target][x.service]\n\
    line\ta add-wants --runtime b.target x.service b.target\t\t\
        add-wants run [b.target][x.service][b.target]\n\
    line\ta add-requires b.target x.service\t\tadd-requires etc [b.target][x.service]\n\
    line\ta add-requires --runtime b.target x.service\t\tadd-requires run [b.target][x.service]\n\
    line\ta set-default b.target\t\tset-default [b.target]\n\
    line\ta place /a link /b\t\tplace link [/a][/b]\n\
    line\ta place /link link link\t\tplace link [/link][link]\n\
    line\ta place /a link \\\\s\t\tplace link [/a][\\\\s]\n\
    line\ta place /a file\t\tplace file [/a][]\n\
    line\ta place /a file file\t\tplace file [/a][file]\n\
    line\ta place /a file --runtime\t\tplace file [/a][--runtime]\n\
    line\ta remove /a\t\tremove [/a]\n\
    line\ta undo 1\t\tundo 1\n\
    line\ta redo 1\t\tredo 1\n\
    line\ta redo 0004294967295\t\tredo 4294967295\n\
    line\t# a remove /a\t\tskipped\n\
    line\t  a   remove   /a \t\tremove [/a]\n\
    \n\
    # texts are escaped\n\
    line\ta place /a file [Unit]\\\\nA=b\\\\n\t\tplace file [/a][[Unit]\\nA=b\\n]\n\
    line\ta place /a file \\\\n\\\\t\\\\s\\\\\\\\\t\tplace file [/a][\\n\\t \\\\]\n\
    line\ta place /a file \\\\\\\\n\t\tplace file [/a][\\\\n]\n\
    line\ta place /a file \\\\\\\\\\\\n\t\tplace file [/a][\\\\\\n]\n\
    line\ta place /a file \\t\\x00\\xff\\r\t\tplace file [/a][\\t\\x00\\xff\\r]\n\
    line\ta place /a file nts\t\tplace file [/a][nts]\n\
    ";

/// A word, in brackets that show where it ends.
fn push_word(out: &mut Vec<u8>, word: &[u8]) -> Result<(), AllocError> {
    out.extend_from_slice(b"[")?;
    out.extend_from_slice(word)?;
    out.extend_from_slice(b"]")
}

fn push_units(out: &mut Vec<u8>, units: &Units) -> Result<(), AllocError> {
    for unit in units.as_slice() {
        push_word(out, unit.text())?;
    }
    Ok(())
}

fn push_scope(out: &mut Vec<u8>, what: &[u8], scope: Scope) -> Result<(), AllocError> {
    out.extend_from_slice(what)?;
    match scope {
        Scope::Etc => out.extend_from_slice(b" etc "),
        Scope::Run => out.extend_from_slice(b" run "),
    }
}

fn push_add(out: &mut Vec<u8>, add: &AddTo) -> Result<(), AllocError> {
    match add.dependency {
        AddedDependency::Wants => push_scope(out, b"add-wants", add.scope)?,
        AddedDependency::Requires => push_scope(out, b"add-requires", add.scope)?,
    }
    push_word(out, add.target.text())?;
    push_units(out, &add.units)
}

fn push_place(out: &mut Vec<u8>, place: &PlaceEntry) -> Result<(), AllocError> {
    match place.entry {
        Entry::File(_) => out.extend_from_slice(b"place file ")?,
        Entry::Link(_) => out.extend_from_slice(b"place link ")?,
    }
    push_word(out, place.path.text())?;
    push_word(out, place.entry.bytes())
}

fn push_dependencies(out: &mut Vec<u8>, question: &Dependencies) -> Result<(), AllocError> {
    if question.reverse {
        out.extend_from_slice(b"reverse ")?;
    }
    out.extend_from_slice(b"dependencies ")?;
    push_word(out, question.unit.text())
}

fn push_action(out: &mut Vec<u8>, action: &Action) -> Result<(), AllocError> {
    match action {
        Action::Enable(enable) => {
            push_scope(out, b"enable", enable.scope)?;
            push_units(out, &enable.units)
        }
        Action::Disable(disable) => {
            push_scope(out, b"disable", disable.scope)?;
            push_units(out, &disable.units)
        }
        Action::Reenable(reenable) => {
            push_scope(out, b"reenable", reenable.scope)?;
            push_units(out, &reenable.units)
        }
        Action::Preset(preset) => {
            push_scope(out, b"preset", preset.scope)?;
            push_units(out, &preset.units)
        }
        Action::Mask(mask) => {
            push_scope(out, b"mask", mask.scope)?;
            push_units(out, &mask.units)
        }
        Action::Unmask(unmask) => {
            push_scope(out, b"unmask", unmask.scope)?;
            push_units(out, &unmask.units)
        }
        Action::LinkUnits(link) => {
            push_scope(out, b"link", link.scope)?;
            for path in link.paths.as_slice() {
                push_word(out, path.text())?;
            }
            Ok(())
        }
        Action::AddTo(add) => push_add(out, add),
        Action::SetDefault(set) => {
            out.extend_from_slice(b"set-default ")?;
            push_word(out, set.unit.text())
        }
        Action::PlaceEntry(place) => push_place(out, place),
        Action::RemoveEntry(remove) => {
            out.extend_from_slice(b"remove ")?;
            push_word(out, remove.path.text())
        }
        Action::IsEnabled(question) => {
            out.extend_from_slice(b"is-enabled ")?;
            push_word(out, question.unit.text())
        }
        Action::GetDefault(_) => out.extend_from_slice(b"get-default"),
        Action::Dependencies(question) => push_dependencies(out, question),
    }
}

fn push_copy(alloc: Global, out: &mut Vec<u8>, action: &Action) -> Result<(), AllocError> {
    let copy = Box::new(alloc, action.copy()?)?;
    push_action(out, &copy)
}

/// A verb and the row that it names.
fn push_row(out: &mut Vec<u8>, verb: &[u8], n: u32) -> Result<(), AllocError> {
    out.extend_from_slice(verb)?;
    push_decimal(out, n as usize)
}

/// What a line asks for, by a copy of its action.
fn push_call(alloc: Global, out: &mut Vec<u8>, call: &Option<Call>) -> Result<(), AllocError> {
    match call {
        Some(call) => match &call.request {
            Request::Do(action) => push_copy(alloc, out, action),
            Request::Undo(n) => push_row(out, b"undo ", *n),
            Request::Redo(n) => push_row(out, b"redo ", *n),
        },
        None => out.extend_from_slice(b"skipped"),
    }
}

/// What a line asks for.
fn asked(alloc: Global, line: &[u8]) -> Result<Vec<u8>, ReadError<ScriptFault>> {
    let mut out = Vec::new(alloc);
    let call = call(alloc, line)?;
    push_call(alloc, &mut out, &call)?;
    Ok(out)
}

/// What the line of a row asks for, or why it is refused.
pub(crate) fn answer(alloc: Global, row: &Row) -> Result<Vec<u8>, AllocError> {
    match asked(alloc, &row.one) {
        Ok(text) => Ok(text),
        Err(ReadError::Fault(fault)) => Ok(format!(in alloc; "{fault}")?.into_bytes()),
        Err(ReadError::ReadFault) => Vec::from_slice(alloc, b"read fault"),
        Err(ReadError::OutOfMemory) => Err(AllocError),
    }
}

#[test]
fn each_verb_is_read(rt: HostRuntime) -> Result<(), Fail> {
    assert_rows(rt.alloc(), ROWS, answer)
}
