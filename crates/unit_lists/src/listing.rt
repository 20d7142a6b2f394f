//! The names of all unit files.
ghost use Rattle.std.specs.Prelude.{◌≡◌, ◌∷◌, ◌++◌, [], IfOk, OnOk};
ghost use Rattle.std.specs.FinMap as map;
ghost use Rattle.states.specs.Dependencies.{set_of};
ghost use Rattle.load_path.specs.RealNames.{named};
ghost use Rattle.unit_lists.specs.UnitFiles.{is_hidden, listed_name, text_at, order_texts, names_of, unit_files};
ghost use Rattle.unit_lists.specs.Listing.{with_text};

use crate::order::OrderText;
use footprint::Units;
use link_tree::{Slot, Tree, TreePath};
use std::alloc::{AllocError, Global};
use std::collections::BTreeSet;
use unit_name::{NameError, UnitName};

/// The names of which there is a file or a link, also one to `/dev/null` or to nowhere, in one of
/// the four directories of units, each once: systemctl(1), `list-unit-files`. They are ordered by
/// their types, then by their names with all letters taken as small ones, and names that differ in
/// this alone by their bytes. A name that begins with a dot isn't listed, nor is a name of which
/// there is a drop-in or a link of a dependency alone. Fails only if memory runs out.
#[tactic(auto, unfolding(crate::specs::UnitFiles::unit_files))]
pub fn unit_files(alloc: Global, tree: &Tree) -> Result<Units, AllocError>
    ensures { IfOk result (λ names. names ≡ unit_files tree.now) }
{
    let texts = order_texts(alloc, tree)?;
    names_in(alloc, texts)
}

/// Whether a file with this name isn't listed in its directory.
#[tactic(auto, unfolding(crate::specs::UnitFiles::is_hidden))]
fn is_hidden(name: &[u8]) -> bool
    ensures { result ≡ is_hidden name.now }
{
    match name {
        [] => false,
        [first, ..] => *first == b'.',
    }
}

/// The text as a name, if it is one.
fn named(alloc: Global, text: &[u8]) -> Result<Option<UnitName>, AllocError>
    ensures { IfOk result (λ name. name ≡ named text.now) }
{
    match UnitName::parse(alloc, text) {
        Ok(name) => Ok(Some(name)),
        Err(NameError::Bad(_)) => Ok(None),
        Err(NameError::OutOfMemory) => Err(AllocError),
    }
}

/// The name that an entry at a path is listed with, if it is.
#[tactic(auto, unfolding(crate::specs::UnitFiles::listed_name))]
fn listed_name(alloc: Global, path: &TreePath) -> Result<Option<UnitName>, AllocError>
    ensures { IfOk result (λ name. name ≡ listed_name path.now) }
{
    if !Slot::is_of_unit(path) || is_hidden(path.file_name()) {
        return Ok(None);
    }
    named(alloc, path.file_name())
}

/// One text more.
fn insert(texts: &mut BTreeSet<OrderText>, text: OrderText) -> Result<(), AllocError>
    ensures { OnOk result (set_of texts.new.keys ≡ map.insert (set_of texts.old.keys) text tt) }
{
    texts.insert(text)?;
    Ok(())
}

/// What the name of an entry at a path is ordered by, if it is listed.
fn add_at(alloc: Global, texts: &mut BTreeSet<OrderText>, path: &TreePath) -> Result<(), AllocError>
    ensures { OnOk result (set_of texts.new.keys ≡ with_text (set_of texts.old.keys) (text_at path.now)) }
{
    match listed_name(alloc, path)? {
        Some(name) => insert(texts, OrderText::of(alloc, &name)?),
        None => Ok(()),
    }
}

/// What the names are ordered by, as a set.
fn order_texts(alloc: Global, tree: &Tree) -> Result<BTreeSet<OrderText>, AllocError>
    ensures { IfOk result (λ texts. set_of texts.keys ≡ set_of (order_texts tree.now)) }
{
    let mut texts = BTreeSet::new(alloc);
    for (path, _entry) in tree.iter() {
        add_at(alloc, &mut texts, path)?;
    }
    Ok(texts)
}

/// The name with which a text ends.
fn push_name(alloc: Global, names: &mut Units, text: &OrderText) -> Result<(), AllocError>
    ensures { OnOk result (names.new ≡ names.old ++ names_of (text.now ∷ [])) }
{
    match named(alloc, text.name())? {
        Some(name) => names.push(name),
        None => Ok(()),
    }
}

/// The names with which texts end, in the order of the texts.
fn names_in(alloc: Global, texts: BTreeSet<OrderText>) -> Result<Units, AllocError>
    ensures { IfOk result (λ names. names ≡ names_of (map.keys (set_of texts.keys))) }
{
    let mut names = Units::none(alloc);
    for text in texts {
        push_name(alloc, &mut names, &text)?;
    }
    Ok(names)
}
