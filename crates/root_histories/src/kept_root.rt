//! A root with a history.

use crate::notes::Notes;
use kept_roots::{HistoryDirectory, KeptRealDisk};
use real_roots::RealDisk;
use root_access::Context;

/// A root with a history, both locked by this run.
#[derive(Drop)]
pub struct KeptRoot<'a> {
    pub disk: KeptRealDisk<'a>,
    pub notes: Notes,
}

impl<'a> KeptRoot<'a> {
    /// A root with the directory of its history.
    pub fn new(
        cx: Context<'a>,
        disk: RealDisk<'a>,
        directory: HistoryDirectory<'a>,
    ) -> KeptRoot<'a> {
        let alloc = cx.rt.alloc();
        KeptRoot {
            disk: KeptRealDisk::new(disk, directory),
            notes: Notes::new(alloc, cx.asked.output.quiet, cx.asked.output.json),
        }
    }
}
