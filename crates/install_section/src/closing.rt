//! The units that are enabled and disabled together.
ghost use Rattle.std.specs.Prelude.{◌≡◌, ◌++◌, Some, IfOk, OnOk, OnErr};
ghost use Rattle.load_path.specs.Search.{Finds, giving, with_cell, with_cells, each_once};
ghost use Rattle.load_path.specs.Find.{find};
ghost use Rattle.install_section.specs.Closure.{why_not, and_then, closed_with, joined, all_joined, skipping, joined_unless, unless_too_many, with_name, with_words, with_section, with_unit, closed_from, closure};
ghost use Rattle.install_section.specs.ClosureErrors.{Closes};
ghost use Rattle.install_section.specs.Growing.{grown};
ghost use Rattle.install_section.specs.Words.{named_by};

use crate::closed::{Closed, Closure, ClosureError, ClosureFault};
use crate::members::{MAX_UNITS, Members};
use crate::section::{Section, section_looked_up};
use crate::word::{named_by, skipped};
use indexmap::IndexSet;
use link_tree::{Tree, TreePath};
use load_path::{Cells, Found, find_into};
use std::alloc::{AllocError, Global};
use unit_file::{NoticeKey, Notices, Reason, Word};
use unit_name::UnitName;

/// The units that are enabled and disabled together with the given ones: systemd.unit(5),
/// "[Install] Section Options", `Also=`. The given units come first, and then, unit after unit in
/// the order in which they are found, those that the words of `Also=` name. Each word is expanded
/// with the unit's identity and looked up, even if its unit is there already. A word that names no
/// unit found under its own name is skipped, with a notice: it has a bad specifier or is not a
/// unit's name, or its unit isn't found, is masked, dangles or has another name. A caller that
/// needs every given name to be a unit's should check first that each is found under its own name;
/// a name that is no unit's has no words.
///
/// # Errors
///
/// `TooMany` as soon as a 1,025th unit would join, with the paths that were looked at until then;
/// if that many names are given, before any is looked up. `OutOfMemory` if memory runs out.
pub fn closure(alloc: Global, tree: &Tree, given: &[UnitName]) -> Result<Closure, ClosureError>
    ensures { Closes (closure given.now) tree.now result }
{
    let mut cells = Cells::new(alloc);
    let closed = closed(alloc, tree, given, &mut cells)?;
    let cells = each_once(alloc, cells)?;
    match closed {
        Ok(Closed { units, notices }) => Ok(Closure {
            units,
            cells,
            notices,
        }),
        Err(ClosureFault::TooMany) => Err(ClosureError::TooMany(cells)),
    }
}

/// The same as `closure`, with the paths that are looked at added to `cells`, as often as they are
/// looked at. The outer error means only that memory ran out, and then `cells` is unchanged.
pub fn closure_into(
    alloc: Global,
    tree: &Tree,
    given: &[UnitName],
    cells: &mut Cells,
) -> Result<Result<Closed, ClosureFault>, AllocError>
    ensures ok { IfOk result (λ closed. Finds tree.now (closure given.now) cells.old cells.new closed) }
    ensures err { OnErr result (cells.new ≡ cells.old) }
{
    let mut more = Cells::new(alloc);
    let closed = closed(alloc, tree, given, &mut more)?;
    cells.append(more)?;
    Ok(closed)
}

/// The same, but if memory runs out, some of the paths may have been added.
#[tactic(auto, unfolding(crate::specs::Closure::closure))]
fn closed(
    alloc: Global,
    tree: &Tree,
    given: &[UnitName],
    cells: &mut Cells,
) -> Result<Result<Closed, ClosureFault>, AllocError>
    ensures { IfOk result (λ closed. Finds tree.now (closure given.now) cells.old cells.new closed) }
{
    let mut closed = Closed {
        units: Members::none(alloc),
        notices: Notices::none(alloc),
    };
    match add_all(alloc, tree, given, &mut closed, cells)? {
        Err(fault) => Ok(Err(fault)),
        Ok(()) => Ok(Ok(closed)),
    }
}

/// Adds the given units, and then, unit after unit, what each names.
fn add_all(
    alloc: Global,
    tree: &Tree,
    given: &[UnitName],
    closed: &mut Closed,
    cells: &mut Cells,
) -> Result<Result<(), ClosureFault>, AllocError>
    ensures { IfOk result (λ end. Finds tree.now (unless_too_many (closed_from 1024 0) (and_then (closed_with closed.old.notices) (all_joined given.now closed.old.units))) cells.old cells.new (grown end closed.new)) }
{
    match join_all(given, &mut closed.units)? {
        Err(fault) => Ok(Err(fault)),
        Ok(()) => close(alloc, tree, closed, cells),
    }
}

/// Adds the given units.
fn join_all(given: &[UnitName], units: &mut Members) -> Result<Result<(), ClosureFault>, AllocError>
    ensures { IfOk result (λ end. grown end units.new ≡ all_joined given.now units.old) }
{
    for name in given {
        match units.join(name.copy()?)? {
            Err(fault) => return Ok(Err(fault)),
            Ok(()) => {}
        }
    }
    Ok(Ok(()))
}

/// Adds, unit after unit, what each names.
fn close(
    alloc: Global,
    tree: &Tree,
    closed: &mut Closed,
    cells: &mut Cells,
) -> Result<Result<(), ClosureFault>, AllocError>
    ensures { IfOk result (λ end. Finds tree.now (closed_from 1024 0 closed.old) cells.old cells.new (grown end closed.new)) }
{
    for place in 0..MAX_UNITS {
        let unit = match closed.units.get(place) {
            None => return Ok(Ok(())),
            Some(unit) => unit.copy()?,
        };
        match add_unit(alloc, tree, &unit, closed, cells)? {
            Err(fault) => return Ok(Err(fault)),
            Ok(()) => {}
        }
    }
    Ok(Ok(()))
}

/// Adds what a unit names.
#[tactic(auto, unfolding(crate::specs::Closure::with_unit))]
fn add_unit(
    alloc: Global,
    tree: &Tree,
    unit: &UnitName,
    closed: &mut Closed,
    cells: &mut Cells,
) -> Result<Result<(), ClosureFault>, AllocError>
    ensures { IfOk result (λ end. Finds tree.now (with_unit unit.now closed.old) cells.old cells.new (grown end closed.new)) }
{
    match section_looked_up(alloc, tree, unit, cells)? {
        None => Ok(Ok(())),
        Some(section) => add_section(alloc, tree, unit, &section, closed, cells),
    }
}

/// Adds what each word of a section's `Also=` names.
fn add_section(
    alloc: Global,
    tree: &Tree,
    unit: &UnitName,
    section: &Section,
    closed: &mut Closed,
    cells: &mut Cells,
) -> Result<Result<(), ClosureFault>, AllocError>
    ensures { IfOk result (λ end. Finds tree.now (with_section unit.now closed.old (Some section.now)) cells.old cells.new (grown end closed.new)) }
{
    let identity = section.identity_of(alloc, unit)?;
    let words = section.text.also.as_slice();
    add_words(alloc, tree, unit, &identity, words, closed, cells)
}

/// Adds what each word names.
fn add_words(
    alloc: Global,
    tree: &Tree,
    unit: &UnitName,
    identity: &UnitName,
    words: &[Word],
    closed: &mut Closed,
    cells: &mut Cells,
) -> Result<Result<(), ClosureFault>, AllocError>
    ensures { IfOk result (λ end. Finds tree.now (with_words unit.now identity.now words.now closed.old) cells.old cells.new (grown end closed.new)) }
{
    for word in words {
        match add_word(alloc, tree, unit, identity, word, closed, cells)? {
            Err(fault) => return Ok(Err(fault)),
            Ok(()) => {}
        }
    }
    Ok(Ok(()))
}

/// Adds what a word names, unless the word is skipped.
fn add_word(
    alloc: Global,
    tree: &Tree,
    unit: &UnitName,
    identity: &UnitName,
    word: &Word,
    closed: &mut Closed,
    cells: &mut Cells,
) -> Result<Result<(), ClosureFault>, AllocError>
    ensures { IfOk result (λ end. Finds tree.now (with_name unit.now word.now closed.old (named_by identity.now word.now)) cells.old cells.new (grown end closed.new)) }
{
    match named_by(alloc, identity, word)? {
        Err(reason) => skip(unit, word, closed, reason),
        Ok(name) => match reason_against(alloc, tree, &name, cells)? {
            Some(reason) => skip(unit, word, closed, reason),
            None => closed.units.join(name),
        },
    }
}

/// Skips a word, with a notice.
fn skip(
    unit: &UnitName,
    word: &Word,
    closed: &mut Closed,
    reason: Reason,
) -> Result<Result<(), ClosureFault>, AllocError>
    ensures { IfOk result (λ end. grown end closed.new ≡ skipping unit.now word.now closed.old reason) }
{
    let notice = skipped(unit, NoticeKey::Also, word, reason)?;
    closed.notices.add(notice)?;
    Ok(Ok(()))
}

/// Why a name doesn't join, by what it is found as.
fn reason_against(
    alloc: Global,
    tree: &Tree,
    name: &UnitName,
    cells: &mut Cells,
) -> Result<Option<Reason>, AllocError>
    ensures { IfOk result (λ reason. Finds tree.now (giving (find name.now) (why_not name.now)) cells.old cells.new reason) }
{
    let found = find_into(alloc, tree, name, cells)?;
    Ok(why_not(name, &found))
}

/// Why what a name is found as doesn't join; `None` for a unit found under its own name.
fn why_not(name: &UnitName, found: &Found) -> Option<Reason>
    ensures { result ≡ why_not name.now found.now }
{
    match found {
        Found::Missing => Some(Reason::NotFound),
        Found::Masked(_) => Some(Reason::Masked),
        Found::Dangling(_) => Some(Reason::Dangling),
        Found::Unit { real, .. } if real == name => None,
        Found::Unit { .. } => Some(Reason::IsAlias),
    }
}

/// Each of the paths once, at its first place. Uses a set, so that each lookup is fast however many
/// paths there are.
fn each_once(alloc: Global, cells: Cells) -> Result<Cells, AllocError>
    ensures { IfOk result (λ once. once ≡ each_once cells) }
{
    let mut seen = IndexSet::new(alloc);
    note_all(&mut seen, cells)?;
    let mut once = Cells::new(alloc);
    push_all(&mut once, seen)?;
    Ok(once)
}

/// Adds these paths, except for those that are there already.
fn note_all(seen: &mut IndexSet<TreePath>, cells: Cells) -> Result<(), AllocError>
    ensures { OnOk result (seen.new.keys ≡ with_cells seen.old.keys cells) }
{
    for path in cells.into_paths() {
        note(seen, path)?;
    }
    Ok(())
}

/// Adds a path, unless it is there already.
#[tactic(auto, unfolding(load_path::specs::Search::with_cell))]
fn note(seen: &mut IndexSet<TreePath>, path: TreePath) -> Result<(), AllocError>
    ensures { OnOk result (seen.new.keys ≡ with_cell seen.old.keys path) }
{
    seen.insert(path)?;
    Ok(())
}

/// Adds the paths of a set after the others.
fn push_all(once: &mut Cells, seen: IndexSet<TreePath>) -> Result<(), AllocError>
    ensures { OnOk result (once.new ≡ once.old ++ seen.keys) }
{
    for path in seen {
        once.push(path)?;
    }
    Ok(())
}
