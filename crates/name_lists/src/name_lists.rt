//! Lists of paths by names.
ghost use Rattle.std.specs.Prelude.{◌≡◌, ◌<◌, ◌==◌, ◌&&◌, [], ℕ, List, cond, length, slice_index_or, IfOk, OnErr, OnOk};
ghost use Rattle.std.specs.Str.{bytes_eq};
ghost use Rattle.name_lists.specs.Lists.{changed, list_at, listed};

use crate::path_list::Listing;
use crate::place::{bucket_of, shelf_of};
use crate::shelf::Shelf;
use std::alloc::{AllocError, Global};
use std::marker::Model;
use std::sync::Arc;
use unit_paths::TreePath;

/// A list of paths for each name; a name that wasn't listed has the empty list. The lists are in
/// buckets, and the buckets on shelves, chosen by a hash of the name. Copies share all of it: a
/// change copies the counts of one row of shelves and of one row of buckets, one bucket, and the
/// list. Contracts see the shelves, and `listed` gives the paths of a name.
#[derive(Debug, Drop)]
pub struct NameLists {
    shelves: Arc<Vec<Shelf>>,
}

impl Model for NameLists {
    ghost use Rattle.std.specs.Arc.{arc_value};
    ghost use Rattle.std.specs.Coded.{coded_list, coded×, coded_ℕ};
    ghost use Rattle.name_lists.specs.Lists.{Shelves};

    ghost Value = { Shelves };

    ghost coded = { coded_list (coded_list (coded_list (coded× (coded_list coded_ℕ) (coded_list (coded_list coded_ℕ))))) };

    ghost view = { λ lists. (arc_value lists.shelves).items };
}

impl Clone for NameLists {
    ghost is_clone = { λ lists copy. copy ≡ lists };

    fn clone(&self) -> Result<NameLists, AllocError> {
        Ok(NameLists {
            shelves: self.shelves.clone()?,
        })
    }
}

impl NameLists {
    /// Lists in which no name has a path.
    pub fn none(alloc: Global) -> Result<NameLists, AllocError>
        ensures { IfOk result (λ lists. lists ≡ []) }
    {
        Ok(NameLists {
            shelves: Arc::new(alloc, Vec::new(alloc))?,
        })
    }

    /// The paths that are listed under a name. Takes no memory.
    #[tactic(auto, unfolding(crate::specs::Lists::listed))]
    pub fn get(&self, name: &[u8]) -> &[TreePath]
        ensures { result.now ≡ listed self.now name.now }
    {
        match self.shelves.get(shelf_of(name)) {
            Some(shelf) => shelf.get(bucket_of(name), name),
            None => &[],
        }
    }

    /// Changes the list of a name, and no other. If memory runs out, every name keeps the paths
    /// that it had.
    pub fn change(&mut self, alloc: Global, name: &[u8], listing: Listing) -> Result<(), AllocError>
        ensures ok { OnOk result ((text : List ℕ) → listed self.new text ≡ cond (bytes_eq text name.now) (changed listing (listed self.old text)) (listed self.old text)) }
        ensures err { OnErr result ((text : List ℕ) → listed self.new text ≡ listed self.old text) }
    {
        self.change_at(alloc, shelf_of(name), bucket_of(name), name, listing)?;
        Ok(())
    }

    /// The same, if the place is known.
    fn change_at(
        &mut self,
        alloc: Global,
        shelf: usize,
        bucket: usize,
        name: &[u8],
        listing: Listing,
    ) -> Result<(), AllocError>
        requires shelf { shelf < 32 }
        requires bucket { bucket < 32 }
        ensures ok { OnOk result ((j k : ℕ) → (text : List ℕ) → list_at self.new j k text ≡ cond (j == shelf && (k == bucket && bytes_eq text name.now)) (changed listing (list_at self.old j k text)) (list_at self.old j k text)) }
        ensures err { OnErr result ((j k : ℕ) → (text : List ℕ) → list_at self.new j k text ≡ list_at self.old j k text) }
    {
        let shelves = Arc::make_mut(&mut self.shelves)?;
        reach(shelves, alloc, shelf)?;
        shelves[shelf].change(alloc, bucket, name, listing)?;
        Ok(())
    }
}

/// Adds empty shelves until this one exists. If memory runs out, none is added.
fn reach(shelves: &mut Vec<Shelf>, alloc: Global, shelf: usize) -> Result<(), AllocError>
    requires { shelf < 32 }
    ensures there { OnOk result (shelf < length shelves.new.items) }
    ensures same { (j : ℕ) → slice_index_or shelves.new.items j [] ≡ slice_index_or shelves.old.items j [] }
{
    if shelves.len() <= shelf {
        shelves.resize(shelf + 1, Shelf::none(alloc)?)?;
    }
    Ok(())
}
