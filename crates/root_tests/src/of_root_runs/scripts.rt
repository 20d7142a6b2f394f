//! The calls of commands.

use super::is;
use root_runs::{CallError, CallWords, calls_of, script_of};
use root_words::{AddedAs, Command, Listed, LogAsked, PresetMode, UnitsVerb};
use sample_rows::{Row, assert_rows};
use std::alloc::{AllocError, Global};
use std::str;
use std::test::Fail;

/// A command with its words, which `|` separates, and the words of its calls in brackets.
const ROWS: &[u8] = b"\
    # names are completed\n\
    enable\tssh|getty@\t\t[enable][ssh.service][getty@.service]\n\
    enable runtime\tssh\t\t[enable][--runtime][ssh.service]\n\
    disable\tssh|/opt/x.service\t\t[disable][ssh.service][x.service]\n\
    disable runtime\tssh\t\t[disable][--runtime][ssh.service]\n\
    reenable\tssh|a.socket\t\t[reenable][ssh.service][a.socket]\n\
    preset\tssh\t\t[preset][ssh.service]\n\
    mask\tssh|a b\t\t[mask][ssh.service][a\\\\x20b.service]\n\
    mask runtime\tssh\t\t[mask][--runtime][ssh.service]\n\
    unmask\tssh\t\t[unmask][ssh.service]\n\
    \n\
    # words with a slash are no abbreviations\n\
    mask\t/home|a/b\t\t[mask][/home][a/b]\n\
    reenable\t/opt/x.service\t\t[reenable][/opt/x.service]\n\
    enable\topt/x.service|/opt/x.service/\t\t[enable][opt/x.service][/opt/x.service/]\n\
    \n\
    # the paths of enable are linked first, unless they are in a directory of units\n\
    enable\t/opt/x.service\t\t[link][/opt/x.service]\\n[enable][x.service]\n\
    enable runtime\ta|/opt/x.service|/y@.socket\t\t\
        [link][--runtime][/opt/x.service][/y@.socket]\\n\
        [enable][--runtime][a.service][x.service][y@.socket]\n\
    enable\t/usr/lib/systemd/system/x.service\t\t[enable][x.service]\n\
    enable\t/lib/systemd/system/x.service\t\t[enable][x.service]\n\
    enable\t/etc/systemd/system/x.service\t\t[enable][x.service]\n\
    enable\t/run/systemd/system/x.service\t\t[enable][x.service]\n\
    enable\t/usr/local/lib/systemd/system/x.service\t\t[enable][x.service]\n\
    enable\t/usr/lib/systemd/system/a/x.service\t\t\
        [link][/usr/lib/systemd/system/a/x.service]\\n[enable][x.service]\n\
    enable\t/lib/systemd/system/a/x.service\t\t\
        [link][/usr/lib/systemd/system/a/x.service]\\n[enable][x.service]\n\
    link\t/opt/x.service|/lib/systemd/system/y.service\t\t\
        [link][/opt/x.service][/usr/lib/systemd/system/y.service]\n\
    link runtime\tx\t\t[link][--runtime][x]\n\
    \n\
    # targets, and words that may be mount points\n\
    add-wants\tm|x|y.socket\t\t[add-wants][m.target][x.service][y.socket]\n\
    add-requires runtime\t/home|x\t\t[add-requires][--runtime][home.mount][x.service]\n\
    set-default\tmulti-user\t\t[set-default][multi-user.target]\n\
    get-default\t\t\t[get-default]\n\
    list-dependencies\t/home\t\t[dependencies][home.mount]\n\
    reverse list-dependencies\tssh\t\t[dependencies][--reverse][ssh.service]\n\
    is-enabled\tssh|/home|b.socket\t\t\
        [is-enabled][ssh.service]\\n[is-enabled][/home]\\n[is-enabled][b.socket]\n\
    \n\
    # a call for each row of a history\n\
    undo\t\t\t[undo][7]\\n[undo][4294967295]\n\
    undo with-later\t\t\t[undo][7]\\n[undo][4294967295]\n\
    redo\t\t\t[redo][7]\\n[redo][4294967295]\n\
    \n\
    # words of a script stay as they are\n\
    place\t/etc/systemd/system/x.service|file|a\\\\sb\t\t\
        [place][/etc/systemd/system/x.service][file][a\\\\sb]\n\
    remove\t/etc/a b\t\t[remove][/etc/a b]\n\
    \n\
    # other commands make no calls\n\
    preset-all\t\t\tno calls\n\
    list-unit-files\t\t\tno calls\n\
    status\tssh\t\tno calls\n\
    keep\t\t\tno calls\n\
    log\t\t\tno calls\n\
    show\t\t\tno calls\n\
    run\t\t\tno calls\n\
    capture\t\t\tno calls\n\
    diff\t\t\tno calls\n\
    apply\t\t\tno calls\n\
    \n\
    # the calls of an operator\n\
    call mask\talice\tssh|a b\t1 calls\n\
    call mask\tAlice\tssh\tcall 0: bad operator\n\
    call mask\talice\t/home\tcall 0: bad name\n\
    call mask\talice\t\tcall 0: wrong arguments\n\
    call enable\talice\t/opt/a b.service|ssh\tcall 1: bad name\n\
    call enable\talice\t/opt/x.service|ssh\t2 calls\n\
    call is-enabled\talice\ta|b|/c|d\tcall 2: bad name\n\
    call link\talice\tx\tcall 0: bad path\n\
    ";

/// Two rows.
fn rows(alloc: Global) -> Result<Vec<u32>, AllocError> {
    Vec::from_slice(alloc, &[7, 4_294_967_295])
}

fn words(alloc: Global, text: &[u8]) -> Result<Vec<String>, AllocError> {
    let mut words = Vec::new(alloc);
    if text.is_empty() {
        return Ok(words);
    }
    for word in text.split(|b| *b == b'|') {
        match str::from_utf8(word) {
            Ok(word) => words.push(String::from_str(alloc, word)?)?,
            Err(_) => return Err(AllocError),
        }
    }
    Ok(words)
}

fn first(alloc: Global, text: &[u8]) -> Result<String, AllocError> {
    match words(alloc, text)?.into_iter().next() {
        Some(word) => Ok(word),
        None => Err(AllocError),
    }
}

/// A command in a box: it has many forms, and is expensive to hand on otherwise.
fn boxed(alloc: Global, command: Command) -> Result<Box<Command>, AllocError> {
    Ok(Box::new(alloc, command)?)
}

/// A kind of rows without `runtime`, and whether it has that.
fn verb_of(kind: &[u8]) -> (&[u8], bool) {
    match kind.strip_suffix(b" runtime") {
        Some(verb) => (verb, true),
        None => (kind, false),
    }
}

/// The verb with names of this word.
fn units_verb(verb: &[u8]) -> Option<UnitsVerb> {
    if is(verb, b"enable") {
        return Some(UnitsVerb::Enable);
    }
    if is(verb, b"disable") {
        return Some(UnitsVerb::Disable);
    }
    if is(verb, b"reenable") {
        return Some(UnitsVerb::Reenable);
    }
    if is(verb, b"preset") {
        return Some(UnitsVerb::Preset);
    }
    if is(verb, b"mask") {
        return Some(UnitsVerb::Mask);
    }
    is(verb, b"unmask").then_some(UnitsVerb::Unmask)
}

fn units(
    alloc: Global,
    verb: UnitsVerb,
    runtime: bool,
    text: &[u8],
) -> Result<Box<Command>, AllocError> {
    let names = words(alloc, text)?;
    let mode = PresetMode::Full;
    boxed(
        alloc,
        Command::Units {
            verb,
            runtime,
            mode,
            names,
        },
    )
}

fn add(
    alloc: Global,
    added: AddedAs,
    runtime: bool,
    text: &[u8],
) -> Result<Box<Command>, AllocError> {
    let mut names = words(alloc, text)?;
    if names.is_empty() {
        return Err(AllocError);
    }
    let target = names.remove(0);
    boxed(
        alloc,
        Command::Add {
            added,
            runtime,
            target,
            names,
        },
    )
}

fn links(alloc: Global, runtime: bool, text: &[u8]) -> Result<Box<Command>, AllocError> {
    let paths = words(alloc, text)?;
    boxed(alloc, Command::Link { runtime, paths })
}

fn dependencies(alloc: Global, reverse: bool, unit: &[u8]) -> Result<Box<Command>, AllocError> {
    let unit = first(alloc, unit)?;
    boxed(alloc, Command::ListDependencies { reverse, unit })
}

/// A command of systemctl.
fn command(alloc: Global, kind: &[u8], text: &[u8]) -> Result<Box<Command>, AllocError> {
    let (verb, runtime) = verb_of(kind);
    if let Some(verb) = units_verb(verb) {
        return units(alloc, verb, runtime, text);
    }
    if is(verb, b"link") {
        return links(alloc, runtime, text);
    }
    if is(verb, b"add-wants") {
        return add(alloc, AddedAs::Wants, runtime, text);
    }
    if is(verb, b"add-requires") {
        return add(alloc, AddedAs::Requires, runtime, text);
    }
    if is(kind, b"list-dependencies") {
        return dependencies(alloc, false, text);
    }
    if is(kind, b"reverse list-dependencies") {
        return dependencies(alloc, true, text);
    }
    command_of_words(alloc, kind, text)
}

/// A command that has only words.
fn command_of_words(alloc: Global, kind: &[u8], text: &[u8]) -> Result<Box<Command>, AllocError> {
    if is(kind, b"set-default") {
        return boxed(alloc, Command::SetDefault(first(alloc, text)?));
    }
    if is(kind, b"remove") {
        return boxed(alloc, Command::Remove(first(alloc, text)?));
    }
    if is(kind, b"is-enabled") {
        return boxed(alloc, Command::IsEnabled(words(alloc, text)?));
    }
    if is(kind, b"place") {
        return boxed(alloc, Command::Place(words(alloc, text)?));
    }
    if is(kind, b"status") {
        return boxed(alloc, Command::Status(words(alloc, text)?));
    }
    history_command(alloc, kind)
}

/// A command about the history of a root.
fn history_command(alloc: Global, kind: &[u8]) -> Result<Box<Command>, AllocError> {
    if is(kind, b"undo") || is(kind, b"undo with-later") {
        let rows = rows(alloc)?;
        let with_later = is(kind, b"undo with-later");
        return boxed(alloc, Command::Undo { rows, with_later });
    }
    if is(kind, b"redo") {
        return boxed(alloc, Command::Redo(rows(alloc)?));
    }
    if is(kind, b"keep") {
        return boxed(alloc, Command::Keep { anew: true });
    }
    if is(kind, b"log") {
        let asked = LogAsked {
            unit: None,
            operator: None,
            since: None,
            lines: None,
            full: false,
        };
        return boxed(alloc, Command::Log(asked));
    }
    if is(kind, b"show") {
        return boxed(alloc, Command::Show(1));
    }
    own_command(alloc, kind)
}

/// A command that has no words. That of `list-unit-files` has none here.
fn own_command(alloc: Global, kind: &[u8]) -> Result<Box<Command>, AllocError> {
    if is(kind, b"get-default") {
        return boxed(alloc, Command::GetDefault);
    }
    if is(kind, b"preset-all") {
        let (runtime, mode) = (false, PresetMode::Full);
        return boxed(alloc, Command::PresetAll { runtime, mode });
    }
    if is(kind, b"list-unit-files") {
        let listed = Listed {
            patterns: Vec::new(alloc),
            types: Vec::new(alloc),
            states: Vec::new(alloc),
        };
        return boxed(alloc, Command::ListUnitFiles(listed));
    }
    if is(kind, b"run") {
        let (file, rows) = (None, None);
        return boxed(alloc, Command::Run { file, rows });
    }
    if is(kind, b"capture") {
        return boxed(alloc, Command::Capture { all: true });
    }
    if is(kind, b"diff") {
        return boxed(alloc, Command::Diff(String::new(alloc)));
    }
    if is(kind, b"apply") {
        return boxed(alloc, Command::Apply(None));
    }
    Err(AllocError)
}

fn push_call(out: &mut Vec<u8>, call: &CallWords) -> Result<(), AllocError> {
    if !out.is_empty() {
        out.extend_from_slice(b"\n")?;
    }
    for word in call.as_slice() {
        out.extend_from_slice(b"[")?;
        out.extend_from_slice(word.bytes())?;
        out.extend_from_slice(b"]")?;
    }
    Ok(())
}

/// The calls of a command as a text.
fn script_text(alloc: Global, kind: &[u8], text: &[u8]) -> Result<Vec<u8>, AllocError> {
    let command = command(alloc, kind, text)?;
    let mut out = Vec::new(alloc);
    match script_of(alloc, &command)? {
        Some(script) => {
            for call in &script {
                push_call(&mut out, call)?;
            }
        }
        None => out.extend_from_slice(b"no calls")?,
    }
    Ok(out)
}

/// What an operator's calls are, or why they are none.
fn calls_text(
    alloc: Global,
    kind: &[u8],
    operator: &[u8],
    text: &[u8],
) -> Result<Vec<u8>, AllocError> {
    let command = command(alloc, kind, text)?;
    let Some(script) = script_of(alloc, &command)? else {
        return Vec::from_slice(alloc, b"no calls");
    };
    match calls_of(alloc, operator, &script) {
        Ok(calls) => {
            let count = calls.len();
            Ok(format!(in alloc; "{count} calls")?.into_bytes())
        }
        Err(CallError::Fault(fault)) => Ok(format!(in alloc; "{fault}")?.into_bytes()),
        Err(CallError::OutOfMemory) => Err(AllocError),
    }
}

fn answer(alloc: Global, row: &Row) -> Result<Vec<u8>, AllocError> {
    match row.kind.as_slice().strip_prefix(b"call ") {
        Some(kind) => calls_text(alloc, kind, &row.one, &row.two),
        None => script_text(alloc, &row.kind, &row.one),
    }
}

#[test]
fn commands_make_calls(rt: HostRuntime) -> Result<(), Fail> {
    assert_rows(rt.alloc(), ROWS, answer)
}
