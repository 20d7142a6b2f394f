//! Looking units up by their names.
ghost use Rattle.std.specs.Prelude.{◌≡◌, IfOk, OnErr};
ghost use Rattle.std.specs.Option.{option_map};
ghost use Rattle.unit_paths.specs.Places.{places};
ghost use Rattle.load_path.specs.Search.{Finds, each_once};
ghost use Rattle.load_path.specs.Find.{first_in, first_entry, found_at, unit_at, find};

use crate::cells::Cells;
use crate::following::{ChainEnd, chain_from, look};
use crate::real_name::real_name;
use link_tree::{Entry, Place, Tree, TreePath};
use std::alloc::{AllocError, Global};
use unit_name::{Kind, UnitName};

/// The directories of units, in the order in which they are searched.
const PLACES: [Place; 4] = [Place::Etc, Place::Run, Place::Local, Place::Vendor];

/// What a name was found to be.
#[derive(Debug, Drop)]
pub enum Found {
    /// No directory has an entry for the name, or, if the name is an instance, for its template.
    Missing,
    /// The entry, in this directory, leads to `/dev/null` or to an empty file.
    Masked(Place),
    /// The entry leads to no file, or to one whose name isn't that of the unit. This link was the
    /// last that was followed.
    Dangling(TreePath),
    Unit {
        /// The name that the unit has. If it isn't the one that was looked up, that one is an
        /// alias.
        real: UnitName,
        /// The path of the unit's file.
        file: TreePath,
        /// The directory of the entry, which may be a link.
        place: Place,
    },
}

/// What a name was found to be, and the paths that were looked at, each listed once.
#[derive(Debug, Drop)]
pub struct Look {
    pub found: Found,
    pub cells: Cells,
}

/// Looks up a unit: systemd.unit(5), "Unit File Load Path". The first directory that has an entry
/// for the name counts; for an instance without any entry, the first that has one for its template.
/// Links are followed as in `follow`. A plain unit has the name of its file; a template leads to
/// a template, and an instance to an instance with the same text, or to a template into which its
/// own is put. Each path that is looked at is listed, even if nothing is there. Fails only if
/// memory runs out.
pub fn find(alloc: Global, tree: &Tree, name: &UnitName) -> Result<Look, AllocError>
    ensures found { IfOk result (λ look. look.found ≡ (find name.now).conclusion tree.now) }
    ensures cells { IfOk result (λ look. look.cells ≡ each_once ((find name.now).cells tree.now)) }
{
    let mut cells = Cells::new(alloc);
    let found = found_from(alloc, tree, name, &mut cells)?;
    Ok(Look {
        found,
        cells: cells.each_once()?,
    })
}

/// Looks up a unit, as `find` does. The paths that are looked at are added to these. If memory runs
/// out, they stay as they were.
pub fn find_into(
    alloc: Global,
    tree: &Tree,
    name: &UnitName,
    cells: &mut Cells,
) -> Result<Found, AllocError>
    ensures ok { IfOk result (Finds tree.now (find name.now) cells.old cells.new) }
    ensures err { OnErr result (cells.new ≡ cells.old) }
{
    let mut more = Cells::new(alloc);
    let found = found_from(alloc, tree, name, &mut more)?;
    cells.append(more)?;
    Ok(found)
}

#[tactic(auto, unfolding(crate::specs::Find::find))]
fn found_from(
    alloc: Global,
    tree: &Tree,
    name: &UnitName,
    cells: &mut Cells,
) -> Result<Found, AllocError>
    ensures { IfOk result (Finds tree.now (find name.now) cells.old cells.new) }
{
    match first_entry(alloc, tree, name, cells)? {
        None => Ok(Found::Missing),
        Some((place, path, entry)) => {
            let chain = chain_from(alloc, tree, &path, entry, cells)?;
            found_at(alloc, name, place, chain)
        }
    }
}

/// The entry of a name, with its directory and path.
#[tactic(auto, unfolding(crate::specs::Find::first_entry))]
fn first_entry<'a>(
    alloc: Global,
    tree: &'a Tree,
    name: &UnitName,
    cells: &mut Cells,
) -> Result<Option<(Place, TreePath, &'a Entry)>, AllocError>
    ensures { IfOk result (λ first. Finds tree.now (first_entry name.now) cells.old cells.new (option_map (λ f. (f.0, f.1, f.2.now)) first)) }
{
    match first_in(alloc, tree, &PLACES, name, cells)? {
        Some(first) => Ok(Some(first)),
        None => match name.kind() {
            Kind::Instance => first_in(alloc, tree, &PLACES, &name.template(alloc)?, cells),
            Kind::Plain | Kind::Template => Ok(None),
        },
    }
}

/// The entry of a name in the first of the directories that has one.
fn first_in<'a>(
    alloc: Global,
    tree: &'a Tree,
    places: &[Place],
    name: &UnitName,
    cells: &mut Cells,
) -> Result<Option<(Place, TreePath, &'a Entry)>, AllocError>
    ensures { IfOk result (λ first. Finds tree.now (first_in places.now name.now) cells.old cells.new (option_map (λ f. (f.0, f.1, f.2.now)) first)) }
{
    for place in places {
        let path = place.slot(alloc, name)?;
        if let Some(entry) = look(tree, &path, cells)? {
            return Ok(Some((*place, path, entry)));
        }
    }
    Ok(None)
}

fn found_at(
    alloc: Global,
    name: &UnitName,
    place: Place,
    chain: ChainEnd,
) -> Result<Found, AllocError>
    ensures { IfOk result (λ found. found ≡ found_at name.now place chain) }
{
    match chain {
        ChainEnd::Null => Ok(Found::Masked(place)),
        ChainEnd::File(file, link) => {
            let real = real_name(alloc, name, file.file_name())?;
            Ok(unit_at(file, link, place, real))
        }
        ChainEnd::Dangling(link) => Ok(Found::Dangling(link)),
    }
}

fn unit_at(file: TreePath, link: TreePath, place: Place, real: Option<UnitName>) -> Found
    ensures { result ≡ unit_at file link place real }
{
    match real {
        Some(real) => Found::Unit { real, file, place },
        None => Found::Dangling(link),
    }
}
