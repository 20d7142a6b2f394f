//! Trees.
ghost use Rattle.std.specs.Prelude.{◌≡◌, List, ℕ, Ok, IfOk};
ghost use Rattle.std.specs.Box.{box_value};
ghost use Rattle.link_tree.specs.Inventory.{inventory_of};

use link_tree::{FromRead, InventoryError, Tree, read_inventory};
use std::alloc::{AllocError, Global};
use unit_name::ample;

fn read(alloc: Global, inventory: &[u8]) -> Result<Box<Tree>, InventoryError>
    ensures { IfOk result (λ tree. (rest : List ℕ) × (inventory_of inventory.now ≡ Ok (box_value tree, rest))) }
{
    let tree = read_inventory(alloc, &mut FromRead::new(inventory))?;
    match Box::new(alloc, tree) {
        Ok(tree) => Ok(tree),
        Err(_) => Err(InventoryError::OutOfMemory),
    }
}

/// The tree of an inventory. What follows the inventory isn't read.
pub fn tree(alloc: Global, inventory: &[u8]) -> Result<Box<Tree>, AllocError>
    ensures { IfOk result (λ tree. (rest : List ℕ) × (inventory_of inventory.now ≡ Ok (box_value tree, rest))) }
{
    match ample!(read(alloc, inventory), InventoryError::OutOfMemory) {
        Ok(tree) => Ok(tree),
        Err(_) => Err(AllocError),
    }
}
