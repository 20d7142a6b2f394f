//! The sections of units that are looked up.
ghost use Rattle.std.specs.Prelude.{◌≡◌, ◌≤◌, length, IfOk, OnErr};
ghost use Rattle.std.specs.Option.{option_copied};
ghost use Rattle.unit_file.specs.Reading.{text_of};
ghost use Rattle.load_path.specs.Search.{Finds, giving, look};
ghost use Rattle.install_section.specs.Sections.{bytes_in, section_by, section_of, is_empty, identity_in};

use link_tree::{Entry, Tree, TreePath};
use load_path::{Cells, Found, find_into};
use std::alloc::{AllocError, Global};
use unit_file::{InstallError, InstallFault, InstallText, identity, install_of};
use unit_name::UnitName;

/// A unit's [Install] section.
#[derive(Debug, Drop)]
pub struct Section {
    /// The path of the unit's file.
    pub file: TreePath,
    /// What the section asks for.
    pub text: InstallText,
}

impl Section {
    /// Whether it names no unit and asks for no link: the lists of `Also=`, `Alias=`, `WantedBy=`,
    /// `RequiredBy=` and `UpheldBy=` are empty.
    pub fn is_empty(&self) -> bool
        ensures { result ≡ is_empty self.now }
    {
        let text = &self.text;
        text.also.is_empty()
            && text.alias.is_empty()
            && text.wanted_by.is_empty()
            && text.required_by.is_empty()
            && text.upheld_by.is_empty()
    }

    /// The name with which the words of a unit's section are expanded.
    pub(crate) fn identity_of(&self, alloc: Global, unit: &UnitName) -> Result<UnitName, AllocError>
        ensures { IfOk result (λ name. name ≡ identity_in unit.now self.now) }
    {
        identity(alloc, unit, &self.text)
    }
}

/// Looks a unit up, and reads its [Install] section: `None` if the name is no unit's. The paths
/// that are looked at are added to `cells`; they are only those that looking the unit up looks at.
/// Fails only if memory runs out, and then `cells` is unchanged.
///
/// systemd.unit(5), "[Install] Section Options".
pub fn section_into(
    alloc: Global,
    tree: &Tree,
    unit: &UnitName,
    cells: &mut Cells,
) -> Result<Option<Section>, AllocError>
    ensures ok { IfOk result (λ section. Finds tree.now (section_of unit.now) cells.old cells.new section) }
    ensures err { OnErr result (cells.new ≡ cells.old) }
{
    let mut more = Cells::new(alloc);
    let section = section_looked_up(alloc, tree, unit, &mut more)?;
    cells.append(more)?;
    Ok(section)
}

/// The same, but if memory runs out, some of the paths may have been added.
#[tactic(auto, unfolding(crate::specs::Sections::section_of))]
pub(crate) fn section_looked_up(
    alloc: Global,
    tree: &Tree,
    unit: &UnitName,
    cells: &mut Cells,
) -> Result<Option<Section>, AllocError>
    ensures { IfOk result (λ section. Finds tree.now (section_of unit.now) cells.old cells.new section) }
{
    let found = find_into(alloc, tree, unit, cells)?;
    section_by(alloc, tree, found, cells)
}

fn section_by(
    alloc: Global,
    tree: &Tree,
    found: Found,
    cells: &mut Cells,
) -> Result<Option<Section>, AllocError>
    ensures { IfOk result (λ section. Finds tree.now (section_by found) cells.old cells.new section) }
{
    match found {
        Found::Unit { file, .. } => {
            let text = text_at(alloc, tree, &file, cells)?;
            Ok(Some(Section { file, text }))
        }
        _ => Ok(None),
    }
}

/// What the file at a path asks for. Counts the path as looked at.
fn text_at(
    alloc: Global,
    tree: &Tree,
    file: &TreePath,
    cells: &mut Cells,
) -> Result<InstallText, AllocError>
    ensures { IfOk result (λ text. Finds tree.now (giving (look file.now) (λ entry. text_of (bytes_in entry))) cells.old cells.new text) }
{
    cells.push(file.copy()?)?;
    text_in(alloc, tree.get(file))
}

/// What the entry at a file's path asks for. It has no line that is too long, since a file has no
/// more bytes than the longest allowed line.
fn text_in(alloc: Global, entry: Option<&Entry>) -> Result<InstallText, AllocError>
    ensures { IfOk result (λ text. text ≡ text_of (bytes_in (option_copied entry.entry))) }
{
    match install_of(alloc, bytes_in(entry)) {
        Ok(text) => Ok(text),
        Err(InstallError::Bad(InstallFault::LineTooLong)) => unreachable!(),
        Err(InstallError::OutOfMemory) => Err(AllocError),
    }
}

/// The bytes of a file; none if there is no file.
fn bytes_in(entry: Option<&Entry>) -> &[u8]
    ensures bytes { result.now ≡ bytes_in (option_copied entry.entry) }
    ensures few { length result.now ≤ 1048576 }
{
    match entry {
        Some(Entry::File(contents)) => contents.bytes(),
        _ => &[],
    }
}
