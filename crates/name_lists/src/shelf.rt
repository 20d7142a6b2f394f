//! Buckets in a row.
ghost use Rattle.std.specs.Prelude.{◌≡◌, ◌<◌, ◌==◌, ◌&&◌, [], ℕ, List, cond, length, slice_index_or, IfOk, OnErr, OnOk};
ghost use Rattle.std.specs.Str.{bytes_eq};
ghost use Rattle.name_lists.specs.Lists.{Bucketful, changed, list_in, list_on};

use crate::bucket::Bucket;
use crate::path_list::Listing;
use std::alloc::{AllocError, Global};
use std::marker::Model;
use std::sync::Arc;
use unit_paths::TreePath;

/// Buckets, shared by copies until one of them is changed. Contracts see their list.
#[derive(Debug, Drop)]
pub(crate) struct Shelf {
    buckets: Arc<Vec<Bucket>>,
}

impl Model for Shelf {
    ghost use Rattle.std.specs.Prelude.{List, ℕ};
    ghost use Rattle.std.specs.Arc.{arc_value};
    ghost use Rattle.std.specs.Coded.{coded_list, coded×, coded_ℕ};
    ghost use Rattle.name_lists.specs.Lists.{Bucketful};

    ghost Value = { List Bucketful };

    ghost coded = { coded_list (coded_list (coded× (coded_list coded_ℕ) (coded_list (coded_list coded_ℕ)))) };

    ghost view = { λ shelf. (arc_value shelf.buckets).items };
}

impl Clone for Shelf {
    ghost is_clone = { λ shelf copy. copy ≡ shelf };

    fn clone(&self) -> Result<Shelf, AllocError> {
        Ok(Shelf {
            buckets: self.buckets.clone()?,
        })
    }
}

impl Shelf {
    /// A shelf without buckets.
    pub(crate) fn none(alloc: Global) -> Result<Shelf, AllocError>
        ensures { IfOk result (λ shelf. shelf ≡ []) }
    {
        Ok(Shelf {
            buckets: Arc::new(alloc, Vec::new(alloc))?,
        })
    }

    /// The paths that are listed under a name in a bucket. A bucket that doesn't exist has no
    /// names.
    pub(crate) fn get(&self, bucket: usize, name: &[u8]) -> &[TreePath]
        ensures { result.now ≡ list_on self.now bucket name.now }
    {
        match self.buckets.get(bucket) {
            Some(bucket) => bucket.get(name),
            None => &[],
        }
    }

    /// Changes the list of a name in a bucket. If memory runs out, every name keeps the paths that
    /// it had.
    pub(crate) fn change(
        &mut self,
        alloc: Global,
        bucket: usize,
        name: &[u8],
        listing: Listing,
    ) -> Result<(), AllocError>
        requires { bucket < 32 }
        ensures ok { OnOk result ((k : ℕ) → (text : List ℕ) → list_on self.new k text ≡ cond (k == bucket && bytes_eq text name.now) (changed listing (list_on self.old k text)) (list_on self.old k text)) }
        ensures err { OnErr result ((k : ℕ) → (text : List ℕ) → list_on self.new k text ≡ list_on self.old k text) }
    {
        let buckets = Arc::make_mut(&mut self.buckets)?;
        reach(buckets, alloc, bucket)?;
        buckets[bucket].change(alloc, name, listing)?;
        Ok(())
    }
}

/// Adds empty buckets until this one exists. If memory runs out, none is added.
fn reach(buckets: &mut Vec<Bucket>, alloc: Global, bucket: usize) -> Result<(), AllocError>
    requires { bucket < 32 }
    ensures there { OnOk result (bucket < length buckets.new.items) }
    ensures same { (k : ℕ) → slice_index_or buckets.new.items k [] ≡ slice_index_or buckets.old.items k [] }
{
    if buckets.len() <= bucket {
        buckets.resize(bucket + 1, Bucket::none(alloc)?)?;
    }
    Ok(())
}
