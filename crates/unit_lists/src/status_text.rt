//! What a tree says of one unit, as a text.
ghost use Rattle.std.specs.Prelude.{◌≡◌, ◌++◌, OnOk, OnErr, codes};
ghost use Rattle.std.specs.List.{flat_map};
ghost use Rattle.unit_lists.specs.StatusTexts.{line, found_lines, link_lines, loaded_word, loaded_path, preset_part, state_part, loaded_line, other_name_line, alias_line, link_line, note_on, noted_line, status_text};

use crate::status::UnitStatus;
use crate::unit_line::{PresetWord, listed_state_text};
use link_tree::TreePath;
use load_path::Found;
use std::alloc::AllocError;
use unit_name::UnitName;

impl UnitStatus {
    /// What systemctl calls a unit that is found so: `loaded`, `masked`, `bad` if its links lead
    /// nowhere, `not-found`. systemctl(1), `status`.
    pub fn loaded(&self) -> &'static str
        ensures { result.now ≡ loaded_word self.now.found }
    {
        match &self.found {
            Found::Missing => "not-found",
            Found::Dangling(_) => "bad",
            Found::Masked(_) => "masked",
            Found::Unit { .. } => "loaded",
        }
    }

    /// The path of the unit's file, of what masks it, or of the link that leads nowhere; empty if
    /// nothing is found.
    pub fn path(&self) -> &[u8]
        ensures { result.now ≡ loaded_path self.now.mask self.now.found }
    {
        match (&self.found, &self.mask) {
            (Found::Unit { file, .. }, _mask) => file.text(),
            (Found::Dangling(link), _mask) => link.text(),
            (Found::Masked(_), Some(mask)) => mask.text(),
            (Found::Masked(_), None) => b"",
            (Found::Missing, _mask) => b"",
        }
    }
}

/// What is said of a path after it.
#[derive(Clone, Copy, Debug)]
pub struct PathNote<'a> {
    pub path: &'a TreePath,
    pub text: &'a [u8],
}

/// What is said of a path: the text of the first note on it, or nothing.
fn note_on<'a>(notes: &[PathNote<'a>], path: &[u8]) -> &'a [u8]
    ensures { result.now ≡ note_on notes.now path.now }
{
    match notes {
        [] => b"",
        [note, ..] if note.path.text() == path => note.text,
        [_note, notes @ ..] => note_on(notes, path),
    }
}

fn push_preset(out: &mut Vec<u8>, preset: Option<PresetWord>) -> Result<(), AllocError>
    ensures { OnOk result (out.new.items ≡ out.old.items ++ preset_part preset) }
{
    match preset {
        Some(word) => {
            out.extend_from_slice(b"; preset: ")?;
            out.extend_from_slice(word.text().as_bytes())
        }
        None => Ok(()),
    }
}

/// The path, the state and what the preset files say, in parentheses; nothing if nothing is found.
fn push_state(out: &mut Vec<u8>, status: &UnitStatus) -> Result<(), AllocError>
    ensures { OnOk result (out.new.items ≡ out.old.items ++ state_part (loaded_path status.now.mask status.now.found) status.now.state status.now.preset) }
{
    let path = status.path();
    if path.is_empty() {
        return Ok(());
    }
    out.extend_from_slice(b" (")?;
    out.extend_from_slice(path)?;
    out.extend_from_slice(b"; ")?;
    out.extend_from_slice(listed_state_text(status.state).as_bytes())?;
    push_preset(out, status.preset)?;
    out.extend_from_slice(b")")
}

/// Whose other name it is, if it is one.
#[tactic(auto, unfolding(crate::specs::StatusTexts::alias_line))]
fn push_alias(out: &mut Vec<u8>, name: &UnitName, found: &Found) -> Result<(), AllocError>
    ensures { OnOk result (out.new.items ≡ out.old.items ++ alias_line name.now found.now) }
{
    match found {
        Found::Unit { real, .. } => push_other_name(out, name, real),
        Found::Missing | Found::Dangling(_) | Found::Masked(_) => Ok(()),
    }
}

fn push_other_name(out: &mut Vec<u8>, name: &UnitName, real: &UnitName) -> Result<(), AllocError>
    ensures { OnOk result (out.new.items ≡ out.old.items ++ other_name_line name.now real.now) }
{
    if real.text() == name.text() {
        Ok(())
    } else {
        push_line(out, b"   Alias of: ", real.text())
    }
}

/// A line of a head and a text.
#[tactic(auto, unfolding(crate::specs::StatusTexts::line))]
fn push_line(out: &mut Vec<u8>, head: &[u8], text: &[u8]) -> Result<(), AllocError>
    ensures { OnOk result (out.new.items ≡ out.old.items ++ line head.now text.now) }
{
    out.extend_from_slice(head)?;
    out.extend_from_slice(text)?;
    out.extend_from_slice(b"\n")
}

/// A line of a head and a path, with the note on the path.
#[tactic(auto, unfolding(crate::specs::StatusTexts::noted_line))]
fn push_noted_line(
    out: &mut Vec<u8>,
    notes: &[PathNote<'_>],
    head: &[u8],
    path: &[u8],
) -> Result<(), AllocError>
    ensures { OnOk result (out.new.items ≡ out.old.items ++ noted_line notes.now head.now path.now) }
{
    let note = note_on(notes, path);
    out.extend_from_slice(head)?;
    out.extend_from_slice(path)?;
    out.extend_from_slice(note)?;
    out.extend_from_slice(b"\n")
}

#[tactic(auto, unfolding(crate::specs::StatusTexts::link_line))]
fn push_link(out: &mut Vec<u8>, notes: &[PathNote<'_>], link: &TreePath) -> Result<(), AllocError>
    ensures { OnOk result (out.new.items ≡ out.old.items ++ link_line notes.now link.now) }
{
    push_noted_line(out, notes, b"       Link: ", link.text())
}

fn push_links(
    out: &mut Vec<u8>,
    notes: &[PathNote<'_>],
    links: &[TreePath],
) -> Result<(), AllocError>
    ensures { OnOk result (out.new.items ≡ out.old.items ++ flat_map (link_line notes.now) links.now) }
{
    for link in links {
        push_link(out, notes, link)?;
    }
    Ok(())
}

#[tactic(auto, unfolding(crate::specs::StatusTexts::loaded_line))]
fn push_loaded(
    out: &mut Vec<u8>,
    notes: &[PathNote<'_>],
    status: &UnitStatus,
) -> Result<(), AllocError>
    ensures { OnOk result (out.new.items ≡ out.old.items ++ loaded_line notes.now status.now.mask status.now.found status.now.state status.now.preset) }
{
    out.extend_from_slice(b"     Loaded: ")?;
    out.extend_from_slice(status.loaded().as_bytes())?;
    push_state(out, status)?;
    out.extend_from_slice(note_on(notes, status.path()))?;
    out.extend_from_slice(b"\n")
}

#[tactic(auto, unfolding(crate::specs::StatusTexts::found_lines))]
fn push_found(
    out: &mut Vec<u8>,
    notes: &[PathNote<'_>],
    status: &UnitStatus,
) -> Result<(), AllocError>
    ensures { OnOk result (out.new.items ≡ out.old.items ++ found_lines notes.now status.now.name status.now.mask status.now.found status.now.state status.now.preset) }
{
    push_loaded(out, notes, status)?;
    push_alias(out, &status.name, &status.found)
}

#[tactic(auto, unfolding(crate::specs::StatusTexts::link_lines))]
fn push_both(
    out: &mut Vec<u8>,
    notes: &[PathNote<'_>],
    etc: &[TreePath],
    run: &[TreePath],
) -> Result<(), AllocError>
    ensures { OnOk result (out.new.items ≡ out.old.items ++ link_lines notes.now etc.now run.now) }
{
    push_links(out, notes, etc)?;
    push_links(out, notes, run)
}

fn push_all(
    out: &mut Vec<u8>,
    status: &UnitStatus,
    notes: &[PathNote<'_>],
) -> Result<(), AllocError>
    ensures { OnOk result (out.new.items ≡ out.old.items ++ status_text notes.now status.now) }
{
    push_line(out, b"", status.name.text())?;
    push_found(out, notes, status)?;
    push_both(out, notes, &status.etc, &status.run)
}

/// Appends what is known of a unit, in the form of systemctl(1), `status`: its name; on a line
/// `Loaded:` whether it is found, with the path of its file (or of what masks it, or of the link
/// that leads nowhere), its state and what the preset files say; whose other name it is; and a line
/// for each link that belongs to its name. Each of these two lines ends with the first note on its
/// path, if there is one. If memory runs out, nothing has been appended.
///
/// ```text
/// ssh.service
///      Loaded: loaded (/usr/lib/systemd/system/ssh.service; enabled; preset: enabled)
///        Link: /etc/systemd/system/multi-user.target.wants/ssh.service
/// ```
pub fn push_status(
    out: &mut Vec<u8>,
    status: &UnitStatus,
    notes: &[PathNote<'_>],
) -> Result<(), AllocError>
    ensures ok { OnOk result (out.new.items ≡ out.old.items ++ status_text notes.now status.now) }
    ensures err { OnErr result (out.new.items ≡ out.old.items) }
{
    let mut text = Vec::new(*out.allocator());
    push_all(&mut text, status, notes)?;
    out.extend_from_slice(&text)
}
