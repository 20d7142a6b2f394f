//! The inventory of what was captured. A tree with entries outside the slots can only be built by
//! reading an inventory.
ghost use Rattle.std.specs.Prelude.{◌≡◌, ◌++◌, ℕ, IfOk, IfErr, OnOk};
ghost use Rattle.link_tree.specs.Shape.{IsTree};
ghost use Rattle.link_tree.specs.Trees.{entry_line, inventory_text};
ghost use Rattle.disk.specs.Captures.{failures_after_capture};
ghost use Rattle.disk.specs.Capturing.{IsShapeError};

use crate::capture_error::CaptureError;
use crate::captured::Captured;
use link_tree::{
    Entry, FromRead, InventoryError, Tree, TreePath, inventories_are_read_back, push_decimal,
    read_inventory,
};
use std::alloc::{AllocError, Global};

/// Appends the lines of an entry.
fn push_entry(text: &mut Vec<u8>, path: &TreePath, entry: &Entry) -> Result<(), AllocError>
    ensures { OnOk result (text.new.items ≡ text.old.items ++ entry_line (path.now, entry.now)) }
{
    match entry {
        Entry::File(contents) => {
            text.extend_from_slice(b"F\t")?;
            push_decimal(text, contents.bytes().len())?;
            text.push(b'\t')?;
            text.extend_from_slice(path.text())?;
            text.push(b'\n')?;
            text.extend_from_slice(contents.bytes())?;
            Ok(text.push(b'\n')?)
        }
        Entry::Link(target) => {
            text.extend_from_slice(b"L\t")?;
            text.extend_from_slice(path.text())?;
            text.push(b'\t')?;
            text.extend_from_slice(target.text())?;
            Ok(text.push(b'\n')?)
        }
    }
}

impl Captured {
    /// The inventory of these entries.
    fn inventory(&self, alloc: Global) -> Result<Vec<u8>, AllocError>
        ensures { IfOk result (λ text. text.items ≡ inventory_text self.now) }
    {
        let mut text = Vec::from_slice(alloc, b"unitadm-inventory 1\n")?;
        for (path, entry) in self.by_path.iter() {
            push_entry(&mut text, path, entry)?;
        }
        text.extend_from_slice(b"end\n")?;
        Ok(text)
    }

    /// The tree of these entries.
    pub(crate) fn to_tree(&self, alloc: Global) -> Result<Tree, CaptureError>
        ensures tree { IfOk result (λ tree. IsTree self.now → tree ≡ self.now) }
        ensures shape { IfErr result (IsShapeError self.now) }
        ensures calm { (old : ℕ) → failures_after_capture old result ≡ old }
    {
        let _few = self.len();
        inventories_are_read_back();
        let text = self.inventory(alloc)?;
        match read_inventory(alloc, &mut FromRead::new(text.as_slice())) {
            Ok(tree) => Ok(tree),
            Err(InventoryError::Fault(_, _)) => Err(CaptureError::BadShape),
            // (reading bytes from memory doesn't fail)
            Err(InventoryError::ReadFault(_)) => Err(CaptureError::OutOfMemory),
            Err(InventoryError::OutOfMemory) => Err(CaptureError::OutOfMemory),
        }
    }
}
