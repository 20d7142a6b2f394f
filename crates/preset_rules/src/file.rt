//! What preset files say: systemd.preset(5).
ghost use Rattle.std.specs.Prelude.{◌≡◌, ◌++◌, Some, OnOk};
ghost use Rattle.std.specs.Option.{option_copied};
ghost use Rattle.std.specs.FinMap as map;
ghost use Rattle.preset_rules.specs.Files.{presets_of, rules_in, rules_behind, rules_at};
ghost use Rattle.preset_rules.specs.Gathering.{Gathers};

use crate::line::push_rules;
use crate::rule::Rule;
use link_tree::{Entry, Slot, Tree, TreePart, TreePath};
use load_path::{Cells, End, follow_entry_into};
use std::alloc::{AllocError, Global};

/// The entry at a preset slot; `None` if there is none, or if the path is no preset slot.
fn preset_at<'a>(presets: &'a TreePart, path: &TreePath) -> Option<&'a Entry>
    ensures { option_copied result ≡ map.get (presets_of presets.now) path.now }
{
    if Slot::is_of_preset(path) {
        presets.get(path)
    } else {
        None
    }
}

/// Adds the rules of the file at a slot, and the cells to which a link there leads.
pub(crate) fn read_slot(
    alloc: Global,
    presets: &TreePart,
    tree: &Tree,
    path: &TreePath,
    rules: &mut Vec<Rule>,
    cells: &mut Cells,
) -> Result<(), AllocError>
    ensures { OnOk result (Gathers tree.now (rules_at path.now (map.get (presets_of presets.now) path.now)) rules.old.items rules.new.items cells.old cells.new) }
{
    match preset_at(presets, path) {
        None => Ok(()),
        Some(entry) => read_entry(alloc, tree, path, entry, rules, cells),
    }
}

fn read_entry(
    alloc: Global,
    tree: &Tree,
    path: &TreePath,
    entry: &Entry,
    rules: &mut Vec<Rule>,
    cells: &mut Cells,
) -> Result<(), AllocError>
    ensures { OnOk result (Gathers tree.now (rules_at path.now (Some entry.now)) rules.old.items rules.new.items cells.old cells.new) }
{
    match entry {
        Entry::File(contents) => push_rules(alloc, contents.bytes(), rules),
        Entry::Link(_) => {
            let end = follow_entry_into(alloc, tree, path, entry, cells)?;
            read_end(alloc, tree, end, rules, cells)
        }
    }
}

/// The same for the end of a link. Anything but a file counts as an empty file.
fn read_end(
    alloc: Global,
    tree: &Tree,
    end: End,
    rules: &mut Vec<Rule>,
    cells: &mut Cells,
) -> Result<(), AllocError>
    ensures { OnOk result (Gathers tree.now (rules_behind end) rules.old.items rules.new.items cells.old cells.new) }
{
    match end {
        End::File(file) => {
            cells.push(file.copy()?)?;
            read_file(alloc, tree.get(&file), rules)
        }
        End::Missing | End::Null | End::Dangling(_) => Ok(()),
    }
}

fn read_file(alloc: Global, there: Option<&Entry>, rules: &mut Vec<Rule>) -> Result<(), AllocError>
    ensures { OnOk result (rules.new.items ≡ rules.old.items ++ rules_in (option_copied there.entry)) }
{
    match there {
        Some(Entry::File(contents)) => push_rules(alloc, contents.bytes(), rules),
        _ => Ok(()),
    }
}
