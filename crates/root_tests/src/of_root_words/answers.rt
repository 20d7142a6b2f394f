//! What is asked for, as a line.

use root_words::{AddedAs, Asked, Command, Listed, LogAsked, PresetMode, RowsOf, UnitsVerb, Wait};
use std::alloc::AllocError;

fn push_words(text: &mut String, name: &str, words: &[String]) -> Result<(), AllocError> {
    text.push_str(name)?;
    for word in words {
        write!(text, " <{word}>")?;
    }
    Ok(())
}

fn push_if(text: &mut String, given: bool, word: &str) -> Result<(), AllocError> {
    if given {
        text.push_str(word)?;
    }
    Ok(())
}

fn push_value(text: &mut String, name: &str, value: &Option<String>) -> Result<(), AllocError> {
    match value {
        Some(value) => write!(text, "{name}=<{value}> "),
        None => Ok(()),
    }
}

fn verb_text(verb: UnitsVerb) -> &'static str {
    match verb {
        UnitsVerb::Enable => "enable",
        UnitsVerb::Disable => "disable",
        UnitsVerb::Reenable => "reenable",
        UnitsVerb::Preset => "preset",
        UnitsVerb::Mask => "mask",
        UnitsVerb::Unmask => "unmask",
    }
}

fn mode_text(mode: PresetMode) -> &'static str {
    match mode {
        PresetMode::Full => "",
        PresetMode::EnableOnly => "enable-only ",
        PresetMode::DisableOnly => "disable-only ",
    }
}

fn runtime_text(runtime: bool) -> &'static str {
    if runtime { "runtime " } else { "" }
}

fn added_text(added: AddedAs) -> &'static str {
    match added {
        AddedAs::Wants => "wants",
        AddedAs::Requires => "requires",
    }
}

fn push_listed(text: &mut String, listed: &Listed) -> Result<(), AllocError> {
    push_words(text, "list", listed.patterns.as_slice())?;
    push_words(text, " types", listed.types.as_slice())?;
    push_words(text, " states", listed.states.as_slice())
}

fn push_numbers(text: &mut String, name: &str, numbers: &[u32]) -> Result<(), AllocError> {
    text.push_str(name)?;
    for number in numbers {
        write!(text, " {number}")?;
    }
    Ok(())
}

fn rows_text(rows: Option<RowsOf>) -> &'static str {
    match rows {
        Some(RowsOf::History) => "rows-of-history ",
        Some(RowsOf::Run) => "rows-of-run ",
        None => "",
    }
}

fn push_log(text: &mut String, log: &LogAsked) -> Result<(), AllocError> {
    push_value(text, "unit", &log.unit)?;
    push_value(text, "operator", &log.operator)?;
    push_value(text, "since", &log.since)?;
    if let Some(lines) = log.lines {
        write!(text, "lines={lines} ")?;
    }
    push_if(text, log.full, "full ")?;
    text.push_str("log")
}

fn push_command(text: &mut String, command: &Command) -> Result<(), AllocError> {
    match command {
        Command::Units {
            verb,
            runtime,
            mode,
            names,
        } => {
            write!(text, "{}{}", runtime_text(*runtime), mode_text(*mode))?;
            push_words(text, verb_text(*verb), names.as_slice())
        }
        Command::PresetAll { runtime, mode } => {
            write!(
                text,
                "{}{}preset-all",
                runtime_text(*runtime),
                mode_text(*mode)
            )
        }
        Command::Link { runtime, paths } => {
            text.push_str(runtime_text(*runtime))?;
            push_words(text, "link", paths.as_slice())
        }
        Command::Add {
            added,
            runtime,
            target,
            names,
        } => {
            write!(text, "{}<{target}> ", runtime_text(*runtime))?;
            push_words(text, added_text(*added), names.as_slice())
        }
        Command::SetDefault(target) => write!(text, "set-default <{target}>"),
        Command::GetDefault => text.push_str("get-default"),
        Command::IsEnabled(names) => push_words(text, "is-enabled", names.as_slice()),
        Command::ListUnitFiles(listed) => push_listed(text, listed),
        Command::ListDependencies { reverse, unit } => {
            push_if(text, *reverse, "reverse ")?;
            write!(text, "dependencies <{unit}>")
        }
        Command::Status(names) => push_words(text, "status", names.as_slice()),
        Command::Place(words) => push_words(text, "place", words.as_slice()),
        Command::Remove(path) => write!(text, "remove <{path}>"),
        Command::Run { file, rows } => {
            push_value(text, "file", file)?;
            text.push_str(rows_text(*rows))?;
            text.push_str("run")
        }
        Command::Keep { anew } => {
            push_if(text, *anew, "anew ")?;
            text.push_str("keep")
        }
        Command::Log(log) => push_log(text, log),
        Command::Show(row) => write!(text, "show {row}"),
        Command::Undo { rows, with_later } => {
            push_if(text, *with_later, "with-later ")?;
            push_numbers(text, "undo", rows.as_slice())
        }
        Command::Redo(rows) => push_numbers(text, "redo", rows.as_slice()),
        Command::Recover => text.push_str("recover"),
        Command::Forget => text.push_str("forget"),
        Command::Capture { all } => {
            push_if(text, *all, "all ")?;
            text.push_str("capture")
        }
        Command::Diff(other) => write!(text, "diff <{other}>"),
        Command::Apply(file) => {
            push_value(text, "file", file)?;
            text.push_str("apply")
        }
    }
}

fn push_wait(text: &mut String, wait: Wait) -> Result<(), AllocError> {
    match wait {
        Wait::No => Ok(()),
        Wait::Seconds(seconds) => write!(text, "wait={seconds} "),
        Wait::Forever => text.push_str("wait "),
    }
}

/// What is asked for: the options that differ from what they are if none is given, then the
/// command with its words, each in `<` and `>`.
pub(super) fn push_asked(text: &mut String, asked: &Asked) -> Result<(), AllocError> {
    push_value(text, "root", &asked.root)?;
    push_value(text, "as", &asked.operator)?;
    if !asked.with.is_empty() {
        push_words(text, "with", asked.with.as_slice())?;
        text.push_str(" ")?;
    }
    push_wait(text, asked.wait)?;
    push_value(text, "history", &asked.history)?;
    push_if(text, asked.adopt, "adopt ")?;
    if asked.max != 256 {
        write!(text, "max={} ", asked.max)?;
    }
    push_if(text, asked.how.dry_run, "dry ")?;
    push_if(text, asked.how.keep_going, "keep ")?;
    push_if(text, asked.how.vendor, "vendor ")?;
    push_if(text, asked.output.quiet, "quiet ")?;
    push_if(text, asked.output.json, "json ")?;
    push_if(text, !asked.output.legend, "bare ")?;
    push_command(text, &asked.command)
}
