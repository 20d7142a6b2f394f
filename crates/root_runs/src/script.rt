//! The calls of a script that a command makes.
ghost use Rattle.std.specs.Prelude.{◌≡◌, ◌++◌, ◌∷◌, [], map, codes, not, string_bytes, if◌then◌else◌, Some, None, IfOk, OnOk, option_map};
ghost use Rattle.std.specs.List.{filter};
ghost use Rattle.std.specs.Str.{bytes_eq};
ghost use Rattle.unit_paths.specs.Places.{unit_directory};
ghost use Rattle.root_runs.specs.declared.names.Suffix.TheVariants as suffixes;
ghost use Rattle.unit_paths.specs.Paths.{is_slash, is_path};
ghost use Rattle.root_runs.specs.Names.{named};
ghost use Rattle.root_runs.specs.Script.{completed, spelled, unit_at, formed, is_unit_directory, is_linked, runtime_words, reverse_words, units_verb, units_form, added_verb, call_on, link_calls, links_of, units_calls, add_call, is_enabled_call, dependencies_call, row_call, script_of};

use crate::names::{Suffix, named};
use crate::words::{CallWords, Word};
use link_tree::push_decimal;
use root_words::{AddedAs, Command, UnitsVerb};
use std::alloc::{AllocError, Global};
use unit_paths::{PathError, Place, TreePath};

/// How the words of a command come into a call.
#[derive(Clone, Copy, Debug, PartialEq, Eq)]
enum Form {
    /// As they were given.
    Given,
    /// As names of units, completed.
    Name,
    /// The same, and the path of a unit file stands for the name of its unit.
    NameOrPath,
    /// As paths of files.
    Path,
}

/// The name of a unit in a list of names: a word with a slash stays as it is, and is no name.
fn completed(alloc: Global, word: &[u8]) -> Result<Word, AllocError>
    ensures { IfOk result (λ name. name ≡ completed word.now) }
{
    if word.contains(&b'/') {
        Word::from_slice(alloc, word)
    } else {
        Ok(Word::of(named(alloc, word, Suffix::Service)?))
    }
}

/// A path beneath /lib is that beneath /usr/lib.
fn spelled(alloc: Global, path: &[u8]) -> Result<Word, AllocError>
    ensures { IfOk result (λ word. word ≡ spelled path.now) }
{
    let mut spelled = Vec::new(alloc);
    if path.starts_with(b"/lib/systemd/system/") {
        spelled.extend_from_slice(b"/usr")?;
    }
    spelled.extend_from_slice(path)?;
    Ok(Word::of(spelled))
}

/// A path, if the word is one.
fn path_of(alloc: Global, word: &[u8]) -> Result<Option<TreePath>, AllocError>
    ensures { IfOk result (λ path. path ≡ (if is_path word.now then Some word.now else None)) }
{
    match TreePath::parse(alloc, word) {
        Ok(path) => Ok(Some(path)),
        Err(PathError::BadPath) => Ok(None),
        Err(PathError::OutOfMemory) => Err(AllocError),
    }
}

/// The name of a unit that a name or the path of its file stands for.
fn unit_at(alloc: Global, word: &[u8]) -> Result<Word, AllocError>
    ensures { IfOk result (λ name. name ≡ unit_at word.now) }
{
    match path_of(alloc, word)? {
        Some(path) => Word::from_slice(alloc, path.file_name()),
        None => completed(alloc, word),
    }
}

/// A word as it comes into a call.
fn formed(alloc: Global, form: Form, word: &[u8]) -> Result<Word, AllocError>
    ensures { IfOk result (λ name. name ≡ formed form word.now) }
{
    match form {
        Form::Given => Word::from_slice(alloc, word),
        Form::Name => completed(alloc, word),
        Form::NameOrPath => unit_at(alloc, word),
        Form::Path => spelled(alloc, word),
    }
}

/// Whether this is the directory of units of a place.
fn is_at(dir: &[u8], place: Place) -> bool
    ensures { result ≡ bytes_eq dir.now (unit_directory place) }
{
    dir == place.directory().as_bytes()
}

/// Whether a directory is one of units, or `/lib/systemd/system`, which is one of them.
fn is_unit_directory(dir: &[u8]) -> bool
    ensures { result ≡ is_unit_directory dir.now }
{
    dir == b"/lib/systemd/system".as_slice()
        || is_at(dir, Place::Etc)
        || is_at(dir, Place::Run)
        || is_at(dir, Place::Local)
        || is_at(dir, Place::Vendor)
}

/// Whether a word is the path of a file that will be linked. A file in a directory of units is
/// found there by its name.
fn is_linked(alloc: Global, word: &[u8]) -> Result<bool, AllocError>
    ensures { IfOk result (λ linked. linked ≡ is_linked word.now) }
{
    Ok(match path_of(alloc, word)? {
        Some(path) => !is_unit_directory(path.directory()),
        None => false,
    })
}

/// The paths among the words whose files will be linked.
fn linked<'a>(alloc: Global, words: &[&'a [u8]]) -> Result<Vec<&'a [u8]>, AllocError>
    ensures { IfOk result (λ paths. map (λ path. path.now) paths.items ≡ filter is_linked (map (λ word. word.now) words.now)) }
{
    let mut paths = Vec::new(alloc);
    for word in words {
        if is_linked(alloc, word)? {
            paths.push(*word)?;
        }
    }
    Ok(paths)
}

fn units_verb(verb: UnitsVerb) -> &'static str
    ensures { result.now ≡ units_verb verb }
{
    match verb {
        UnitsVerb::Enable => "enable",
        UnitsVerb::Disable => "disable",
        UnitsVerb::Reenable => "reenable",
        UnitsVerb::Preset => "preset",
        UnitsVerb::Mask => "mask",
        UnitsVerb::Unmask => "unmask",
    }
}

/// `enable` and `disable` take paths of unit files too.
fn units_form(verb: UnitsVerb) -> Form
    ensures { result ≡ units_form verb }
{
    match verb {
        UnitsVerb::Enable | UnitsVerb::Disable => Form::NameOrPath,
        UnitsVerb::Reenable | UnitsVerb::Preset | UnitsVerb::Mask | UnitsVerb::Unmask => Form::Name,
    }
}

fn added_verb(added: AddedAs) -> &'static str
    ensures { result.now ≡ added_verb added }
{
    match added {
        AddedAs::Wants => "add-wants",
        AddedAs::Requires => "add-requires",
    }
}

/// A call of a verb, without arguments yet.
fn begun(alloc: Global, verb: &str) -> Result<CallWords, AllocError>
    ensures { IfOk result (λ call. call ≡ verb.now ∷ []) }
{
    let mut call = CallWords::none(alloc);
    call.push_bytes(verb.as_bytes())?;
    Ok(call)
}

fn push_runtime(call: &mut CallWords, runtime: bool) -> Result<(), AllocError>
    ensures { OnOk result (call.new ≡ call.old ++ runtime_words runtime) }
{
    if runtime {
        call.push_bytes(b"--runtime")?;
    }
    Ok(())
}

fn push_reverse(call: &mut CallWords, reverse: bool) -> Result<(), AllocError>
    ensures { OnOk result (call.new ≡ call.old ++ reverse_words reverse) }
{
    if reverse {
        call.push_bytes(b"--reverse")?;
    }
    Ok(())
}

/// Adds words in a form.
fn push_formed(
    alloc: Global,
    call: &mut CallWords,
    form: Form,
    words: &[&[u8]],
) -> Result<(), AllocError>
    ensures { OnOk result (call.new ≡ call.old ++ map (formed form) (map (λ word. word.now) words.now)) }
{
    for word in words {
        call.push(formed(alloc, form, word)?)?;
    }
    Ok(())
}

/// A call of a verb, with its option and its words in a form.
fn call_on(
    alloc: Global,
    verb: &str,
    runtime: bool,
    form: Form,
    words: &[&[u8]],
) -> Result<CallWords, AllocError>
    ensures { IfOk result (λ call. call ≡ call_on verb.now runtime form (map (λ word. word.now) words.now)) }
{
    let mut call = begun(alloc, verb)?;
    push_runtime(&mut call, runtime)?;
    push_formed(alloc, &mut call, form, words)?;
    Ok(call)
}

fn push_call(calls: &mut Vec<CallWords>, call: CallWords) -> Result<(), AllocError>
    ensures { OnOk result (calls.new.items ≡ calls.old.items ++ call ∷ []) }
{
    Ok(calls.push(call)?)
}

/// The list of one call.
fn only(alloc: Global, call: CallWords) -> Result<Vec<CallWords>, AllocError>
    ensures { IfOk result (λ calls. calls.items ≡ call ∷ []) }
{
    let mut calls = Vec::new(alloc);
    push_call(&mut calls, call)?;
    Ok(calls)
}

/// Adds the call that links files, if there are any.
fn push_link(
    alloc: Global,
    calls: &mut Vec<CallWords>,
    runtime: bool,
    paths: &[&[u8]],
) -> Result<(), AllocError>
    ensures { OnOk result (calls.new.items ≡ calls.old.items ++ link_calls runtime (map (λ path. path.now) paths.now)) }
{
    match paths {
        [] => Ok(()),
        _ => push_call(calls, call_on(alloc, "link", runtime, Form::Path, paths)?),
    }
}

/// The files that a verb links first.
fn links_of<'a>(
    alloc: Global,
    verb: UnitsVerb,
    words: &[&'a [u8]],
) -> Result<Vec<&'a [u8]>, AllocError>
    ensures { IfOk result (λ paths. map (λ path. path.now) paths.items ≡ links_of verb (map (λ word. word.now) words.now)) }
{
    match verb {
        UnitsVerb::Enable => linked(alloc, words),
        UnitsVerb::Disable | UnitsVerb::Reenable | UnitsVerb::Preset => Ok(Vec::new(alloc)),
        UnitsVerb::Mask | UnitsVerb::Unmask => Ok(Vec::new(alloc)),
    }
}

/// The calls of a verb with names of units.
fn units_calls(
    alloc: Global,
    verb: UnitsVerb,
    runtime: bool,
    words: &[&[u8]],
) -> Result<Vec<CallWords>, AllocError>
    ensures { IfOk result (λ calls. calls.items ≡ units_calls verb runtime (map (λ word. word.now) words.now)) }
{
    let mut calls = Vec::new(alloc);
    let paths = links_of(alloc, verb, words)?;
    push_link(alloc, &mut calls, runtime, &paths)?;
    let call = call_on(alloc, units_verb(verb), runtime, units_form(verb), words)?;
    push_call(&mut calls, call)?;
    Ok(calls)
}

fn add_call(
    alloc: Global,
    added: AddedAs,
    runtime: bool,
    target: &[u8],
    words: &[&[u8]],
) -> Result<CallWords, AllocError>
    ensures { IfOk result (λ call. call ≡ add_call added runtime target.now (map (λ word. word.now) words.now)) }
{
    let mut call = begun(alloc, added_verb(added))?;
    push_runtime(&mut call, runtime)?;
    call.push(Word::of(named(alloc, target, Suffix::Target)?))?;
    push_formed(alloc, &mut call, Form::Name, words)?;
    Ok(call)
}

fn set_default_call(alloc: Global, word: &[u8]) -> Result<CallWords, AllocError>
    ensures { IfOk result (λ call. call ≡ codes "set-default" ∷ named suffixes.Target word.now ∷ []) }
{
    let mut call = begun(alloc, "set-default")?;
    call.push(Word::of(named(alloc, word, Suffix::Target)?))?;
    Ok(call)
}

fn is_enabled_call(alloc: Global, word: &[u8]) -> Result<CallWords, AllocError>
    ensures { IfOk result (λ call. call ≡ is_enabled_call word.now) }
{
    let mut call = begun(alloc, "is-enabled")?;
    call.push(completed(alloc, word)?)?;
    Ok(call)
}

/// A call for each unit.
fn is_enabled_calls(alloc: Global, words: &[&[u8]]) -> Result<Vec<CallWords>, AllocError>
    ensures { IfOk result (λ calls. calls.items ≡ map is_enabled_call (map (λ word. word.now) words.now)) }
{
    let mut calls = Vec::new(alloc);
    for word in words {
        push_call(&mut calls, is_enabled_call(alloc, word)?)?;
    }
    Ok(calls)
}

fn dependencies_call(alloc: Global, reverse: bool, word: &[u8]) -> Result<CallWords, AllocError>
    ensures { IfOk result (λ call. call ≡ dependencies_call reverse word.now) }
{
    let mut call = begun(alloc, "dependencies")?;
    push_reverse(&mut call, reverse)?;
    call.push(Word::of(named(alloc, word, Suffix::Service)?))?;
    Ok(call)
}

/// The undo or the redo of a row.
fn row_call(alloc: Global, verb: &str, row: u32) -> Result<CallWords, AllocError>
    ensures { IfOk result (λ call. call ≡ row_call verb.now row) }
{
    let mut call = begun(alloc, verb)?;
    let mut number = Vec::new(alloc);
    push_decimal(&mut number, row as usize)?;
    call.push(Word::of(number))?;
    Ok(call)
}

/// A call for each row.
fn row_calls(alloc: Global, verb: &str, rows: &[u32]) -> Result<Vec<CallWords>, AllocError>
    ensures { IfOk result (λ calls. calls.items ≡ map (row_call verb.now) rows.now) }
{
    let mut calls = Vec::new(alloc);
    for row in rows {
        push_call(&mut calls, row_call(alloc, verb, *row)?)?;
    }
    Ok(calls)
}

fn remove_call(alloc: Global, path: &[u8]) -> Result<CallWords, AllocError>
    ensures { IfOk result (λ call. call ≡ codes "remove" ∷ path.now ∷ []) }
{
    let mut call = begun(alloc, "remove")?;
    call.push_bytes(path)?;
    Ok(call)
}

fn place_call(alloc: Global, words: &[&[u8]]) -> Result<CallWords, AllocError>
    ensures { IfOk result (λ call. call ≡ codes "place" ∷ map (formed Form.Given) (map (λ word. word.now) words.now)) }
{
    let mut call = begun(alloc, "place")?;
    push_formed(alloc, &mut call, Form::Given, words)?;
    Ok(call)
}

/// The bytes of words.
fn bytes_of(alloc: Global, words: &[String]) -> Result<Vec<&[u8]>, AllocError>
    ensures { IfOk result (λ texts. map (λ text. text.now) texts.items ≡ map string_bytes words.now) }
{
    let mut texts = Vec::new(alloc);
    for word in words {
        texts.push(word.as_str().as_bytes())?;
    }
    Ok(texts)
}

/// The calls of a script that a command makes, in order, or none for a command that makes no calls:
/// `preset-all`, `list-unit-files`, `status`, `run`, `capture`, `diff`, `apply`, `keep`, `log`,
/// `show`, `recover` and `forget`. The words are not checked: `calls_of` does that.
///
/// - Names are completed, as `named` says. A word with a slash is no abbreviation: it stays as it
///   is, and is refused later, as by systemctl. But for `set-default`, for the target of
///   `add-wants` and `add-requires`, and for `list-dependencies` it is the path of a mount point or
///   a device.
/// - Of `enable`, a word may be the path of a unit file: it is linked by a call of its own before
///   all are enabled, unless it is in a directory of units. `disable` takes the file's name alone.
/// - A path beneath `/lib/systemd/system` is spelled as that beneath `/usr/lib/systemd/system`.
/// - `is-enabled` makes a call for each unit, `undo` and `redo` for each row, and any other command
///   one. Which rows `--with-later` adds depends on the history: they aren't among these calls.
/// - The mode of a preset is left out: who calls this has filtered the names.
///
/// systemctl(1), "Unit File Commands".
pub fn script_of(alloc: Global, command: &Command) -> Result<Option<Vec<CallWords>>, AllocError>
    ensures { IfOk result (λ calls. option_map (λ calls. calls.items) calls ≡ script_of command.now) }
{
    let calls = match command {
        Command::Units {
            verb,
            runtime,
            mode: _,
            names,
        } => units_calls(alloc, *verb, *runtime, &bytes_of(alloc, names)?)?,
        Command::Link { runtime, paths } => only(
            alloc,
            call_on(
                alloc,
                "link",
                *runtime,
                Form::Path,
                &bytes_of(alloc, paths)?,
            )?,
        )?,
        Command::Add {
            added,
            runtime,
            target,
            names,
        } => {
            let names = bytes_of(alloc, names)?;
            let target = target.as_str().as_bytes();
            only(alloc, add_call(alloc, *added, *runtime, target, &names)?)?
        }
        Command::SetDefault(word) => only(
            alloc,
            set_default_call(alloc, word.as_str().as_bytes())?,
        )?,
        Command::GetDefault => only(alloc, begun(alloc, "get-default")?)?,
        Command::IsEnabled(names) => is_enabled_calls(alloc, &bytes_of(alloc, names)?)?,
        Command::ListDependencies { reverse, unit } => {
            let unit = unit.as_str().as_bytes();
            only(alloc, dependencies_call(alloc, *reverse, unit)?)?
        }
        Command::Place(words) => only(alloc, place_call(alloc, &bytes_of(alloc, words)?)?)?,
        Command::Remove(path) => only(alloc, remove_call(alloc, path.as_str().as_bytes())?)?,
        Command::PresetAll { .. } | Command::ListUnitFiles(_) | Command::Status(_) => return Ok(
            None,
        ),
        Command::Undo {
            rows,
            with_later: _,
        } => row_calls(alloc, "undo", rows)?,
        Command::Redo(rows) => row_calls(alloc, "redo", rows)?,
        Command::Run { .. } | Command::Capture { .. } | Command::Diff(_) => return Ok(None),
        Command::Apply(_) | Command::Keep { .. } => return Ok(None),
        Command::Recover | Command::Forget => return Ok(None),
        Command::Log(_) | Command::Show(_) => return Ok(None),
    };
    Ok(Some(calls))
}
