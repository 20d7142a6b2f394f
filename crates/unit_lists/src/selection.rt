//! Which of the unit files are listed.
ghost use Rattle.std.specs.Prelude.{◌≡◌, IfOk};
ghost use Rattle.std.specs.List.{filter};
ghost use Rattle.unit_lists.specs.Selecting.{has_match, is_matched_by_any, has_word, is_of_any, is_selected, has_state};

use crate::unit_line::{UnitLine, listed_state_text};
use footprint::Units;
use preset_rules::pattern_matches;
use std::alloc::{AllocError, Global};
use unit_file::Word;
use unit_name::UnitName;

fn has_match(patterns: &[Word], name: &UnitName) -> bool
    ensures { result ≡ has_match patterns.now name.now }
{
    patterns
        .iter()
        .any(|pattern| pattern_matches(pattern.bytes(), name.text()))
}

/// Whether one of the patterns matches a name, or there is none.
fn is_matched_by_any(patterns: &[Word], name: &UnitName) -> bool
    ensures { result ≡ is_matched_by_any patterns.now name.now }
{
    patterns.is_empty() || has_match(patterns, name)
}

fn has_word(words: &[Word], text: &[u8]) -> bool
    ensures { result ≡ has_word words.now text.now }
{
    words.iter().any(|word| text == word.bytes())
}

/// Whether a text is one of the words, or there is none.
fn is_of_any(words: &[Word], text: &[u8]) -> bool
    ensures { result ≡ is_of_any words.now text.now }
{
    words.is_empty() || has_word(words, text)
}

fn is_selected(patterns: &[Word], types: &[Word], name: &UnitName) -> bool
    ensures { result ≡ is_selected patterns.now types.now name.now }
{
    is_matched_by_any(patterns, name) && is_of_any(types, name.unit_type().text().as_bytes())
}

/// Those of the names that one of the patterns matches, and whose type is one of these, as
/// `service`. If there are no patterns, or no types, these leave nothing out. Patterns are those of
/// `preset_rules::pattern_matches`, which has no classes, as `[[:alpha:]]`, and takes `^` for a
/// byte like others, as glob(7) says. Fails only if memory runs out.
///
/// systemctl(1), `list-unit-files` and `--type=`.
pub fn selected_names(
    alloc: Global,
    names: &[UnitName],
    patterns: &[Word],
    types: &[Word],
) -> Result<Units, AllocError>
    ensures { IfOk result (λ these. these ≡ filter (is_selected patterns.now types.now) names.now) }
{
    let mut these = Units::none(alloc);
    for name in names {
        if is_selected(patterns, types, name) {
            these.push(name.copy()?)?;
        }
    }
    Ok(these)
}

fn has_state(states: &[Word], line: &UnitLine) -> bool
    ensures { result ≡ has_state states.now line.now }
{
    is_of_any(states, listed_state_text(line.state).as_bytes())
}

/// Those of the lines whose state is one of these words, as `enabled` or `bad`. If there are no
/// words, all of them. Fails only if memory runs out.
///
/// systemctl(1), `list-unit-files` and `--state=`.
pub fn selected_lines(
    alloc: Global,
    lines: Vec<UnitLine>,
    states: &[Word],
) -> Result<Vec<UnitLine>, AllocError>
    ensures { IfOk result (λ these. these.items ≡ filter (has_state states.now) lines.items) }
{
    let mut these = Vec::new(alloc);
    for line in lines {
        if has_state(states, &line) {
            these.push(line)?;
        }
    }
    Ok(these)
}
