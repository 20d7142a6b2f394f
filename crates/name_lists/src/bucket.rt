//! Names with their lists.
ghost use Rattle.std.specs.Prelude.{◌≡◌, [], ℕ, List, cond, IfOk, OnErr, OnOk};
ghost use Rattle.std.specs.Str.{bytes_eq};
ghost use Rattle.name_lists.specs.Lists.{by_texts, changed, list_in};

use crate::path_list::{Listing, PathList};
use std::alloc::{AllocError, Global};
use std::collections::BTreeMap;
use std::marker::Model;
use std::sync::Arc;
use unit_paths::TreePath;

/// The lists of some names, shared by copies until one of them is changed. Contracts see each name
/// with its list.
#[derive(Debug, Drop)]
pub(crate) struct Bucket {
    by_name: Arc<BTreeMap<Vec<u8>, PathList>>,
}

impl Model for Bucket {
    ghost use Rattle.std.specs.Prelude.{List, ℕ};
    ghost use Rattle.std.specs.Arc.{arc_value};
    ghost use Rattle.std.specs.Coded.{coded_list, coded×, coded_ℕ};
    ghost use Rattle.name_lists.specs.Lists.{Bucketful, by_texts};

    ghost Value = { Bucketful };

    ghost coded = { coded_list (coded× (coded_list coded_ℕ) (coded_list (coded_list coded_ℕ))) };

    ghost view = { λ bucket. by_texts (λ name. name.items) (arc_value bucket.by_name).entries };
}

impl Clone for Bucket {
    ghost is_clone = { λ bucket copy. copy ≡ bucket };

    fn clone(&self) -> Result<Bucket, AllocError> {
        Ok(Bucket {
            by_name: self.by_name.clone()?,
        })
    }
}

impl Bucket {
    /// A bucket without names.
    pub(crate) fn none(alloc: Global) -> Result<Bucket, AllocError>
        ensures { IfOk result (λ bucket. bucket ≡ []) }
    {
        Ok(Bucket {
            by_name: Arc::new(alloc, BTreeMap::new(alloc))?,
        })
    }

    /// The paths that are listed under a name.
    pub(crate) fn get(&self, name: &[u8]) -> &[TreePath]
        ensures { result.now ≡ list_in self.now name.now }
    {
        match self.by_name.get(name) {
            Some(list) => list.paths(),
            None => &[],
        }
    }

    /// Changes the list of a name. If memory runs out, every name keeps the paths that it had.
    pub(crate) fn change(
        &mut self,
        alloc: Global,
        name: &[u8],
        listing: Listing,
    ) -> Result<(), AllocError>
        ensures ok { OnOk result ((text : List ℕ) → list_in self.new text ≡ cond (bytes_eq text name.now) (changed listing (list_in self.old text)) (list_in self.old text)) }
        ensures err { OnErr result ((text : List ℕ) → list_in self.new text ≡ list_in self.old text) }
    {
        let by_name = Arc::make_mut(&mut self.by_name)?;
        change_in(by_name, alloc, name, listing)?;
        Ok(())
    }
}

fn change_in(
    by_name: &mut BTreeMap<Vec<u8>, PathList>,
    alloc: Global,
    name: &[u8],
    listing: Listing,
) -> Result<(), AllocError>
    ensures ok { OnOk result ((text : List ℕ) → list_in (by_texts (λ name. name.items) by_name.new.entries) text ≡ cond (bytes_eq text name.now) (changed listing (list_in (by_texts (λ name. name.items) by_name.old.entries) text)) (list_in (by_texts (λ name. name.items) by_name.old.entries) text)) }
    ensures err { OnErr result ((text : List ℕ) → list_in (by_texts (λ name. name.items) by_name.new.entries) text ≡ list_in (by_texts (λ name. name.items) by_name.old.entries) text) }
{
    match by_name.get_mut(name) {
        Some(list) => match list.change(alloc, listing) {
            Ok(()) => Ok(()),
            Err(AllocError) => Err(AllocError),
        },
        None => {
            let text = Vec::from_slice(alloc, name)?;
            let list = PathList::first(alloc, listing)?;
            by_name.insert(text, list)?;
            Ok(())
        }
    }
}
