//! The inventories in a history: that of the first tree, and those of which sums are kept.
ghost use Rattle.std.specs.Prelude.{◌≡◌, true, IfOk};
ghost use Rattle.std.specs.Option.{option_map};
ghost use Rattle.unit_paths.specs.Slots.{is_slot};
ghost use Rattle.link_tree.specs.Trees.{inventory_text};
ghost use Rattle.link_tree.specs.Inventory.{inventory_of};
ghost use Rattle.kept_texts.specs.Readings.{front_text, front_of, tree_if_any};
ghost use Rattle.kept_texts.specs.Texts.{IsOfSlots, slots_of, sum_of_slots};

use crate::memory_sink::MemorySink;
use crate::sums::{Sum, sum_of};
use link_tree::{
    FromRead, InventoryError, Slot, Tree, TreePath, WriteError, read_inventory, write_inventory,
};
use std::alloc::{AllocError, Global};
use tree_steps::slot_changes_between;

/// The text of a tree.
fn inventory_text(alloc: Global, tree: &Tree) -> Result<Vec<u8>, AllocError>
    ensures { IfOk result (λ text. text.items ≡ inventory_text tree.now) }
{
    let mut sink = MemorySink::new(alloc);
    match write_inventory(alloc, tree, &mut sink) {
        Ok(()) => Ok(sink.bytes),
        Err(WriteError::Fault(_) | WriteError::OutOfMemory) => Err(AllocError),
    }
}

/// The tree at the beginning of a text, if there is one.
fn tree_at_front(alloc: Global, bytes: &[u8]) -> Result<Option<Tree>, AllocError>
    ensures { IfOk result (λ tree. tree ≡ tree_if_any (inventory_of bytes.now)) }
{
    match read_inventory(alloc, &mut FromRead::new(bytes)) {
        Ok(tree) => Ok(Some(tree)),
        Err(InventoryError::Fault(..)) => Ok(None),
        // Bytes in memory are never read with a fault.
        Err(InventoryError::ReadFault(_) | InventoryError::OutOfMemory) => Err(AllocError),
    }
}

/// The text of a tree and the line `== calls`.
#[tactic(auto, unfolding(crate::specs::Readings::front_text))]
pub(crate) fn front_text(alloc: Global, tree: &Tree) -> Result<Vec<u8>, AllocError>
    ensures { IfOk result (λ text. text.items ≡ front_text tree.now) }
{
    let mut text = inventory_text(alloc, tree)?;
    text.extend_from_slice(b"== calls\n")?;
    Ok(text)
}

/// The text of the tree with which a text begins, and the line `== calls`.
#[tactic(auto, unfolding(crate::specs::Readings::front_of))]
pub(crate) fn front_of(alloc: Global, bytes: &[u8]) -> Result<Option<Vec<u8>>, AllocError>
    ensures { IfOk result (λ front. option_map (λ text. text.items) front ≡ front_of bytes.now) }
{
    match tree_at_front(alloc, bytes)? {
        Some(tree) => Ok(Some(front_text(alloc, &tree)?)),
        None => Ok(None),
    }
}

fn is_slot(path: &TreePath) -> bool
    ensures { result ≡ is_slot path.now }
{
    Slot::of(path).is_some()
}

/// Whether a tree has entries at slots alone.
fn is_of_slots(tree: &Tree) -> bool
    ensures { result ≡ true → IsOfSlots tree.now }
{
    for (path, _entry) in tree.iter() {
        if !is_slot(path) {
            return false;
        }
    }
    true
}

/// The entries of a tree that are at slots.
#[tactic(auto, using(crate::proofs::SlotsAlone::slots_are_all))]
fn slots_of(alloc: Global, tree: &Tree) -> Result<Tree, AllocError>
    ensures { IfOk result (λ slots. slots ≡ slots_of tree.now) }
{
    if is_of_slots(tree) {
        // (nearly always: then nothing is copied)
        return tree.share();
    }
    let none = Tree::empty(alloc)?;
    let changes = slot_changes_between(alloc, &none, tree)?;
    none.with_changes(&changes)
}

/// The sum of the inventory of the entries of a tree that are at slots. What is elsewhere doesn't
/// alter it. Fails only if memory runs out.
#[tactic(auto, unfolding(crate::specs::Texts::sum_of_slots))]
pub fn sum_of_slots(alloc: Global, tree: &Tree) -> Result<Sum, AllocError>
    ensures { IfOk result (λ sum. sum ≡ sum_of_slots tree.now) }
{
    let slots = slots_of(alloc, tree)?;
    let text = inventory_text(alloc, &slots)?;
    Ok(sum_of(&text))
}
