//! Operations on directories beneath a root.

use crate::names::text_of;
use crate::root::Reached;
use crate::root_files::RootFiles;
use crate::trouble::Trouble;
use crate::way::enter_name;
use link_tree::TreePath;

impl<'a> RootFiles<'a> {
    /// Makes a directory the working directory, if it exists. If it doesn't and `may_make` is set,
    /// it is made, with its missing parents, with mode 755.
    pub fn go_to(&mut self, directory: &str, may_make: bool) -> Result<bool, Trouble> {
        match self.root.reach(self.rt, directory)? {
            Reached::There(_) => Ok(true),
            Reached::Missing(way) if may_make => {
                self.enter_made(directory, directory, &way)?;
                Ok(true)
            }
            Reached::Missing(_) | Reached::Nowhere => Ok(false),
        }
    }

    /// Writes the directory of a path to the disk. If it doesn't exist, the nearest existing parent
    /// is written, since the directory may have been removed.
    pub fn sync_directory_of(&mut self, path: &TreePath) -> Result<(), Trouble> {
        let directory = text_of(self.rt.alloc(), path.directory())?;
        match self.root.reach(self.rt, directory)? {
            Reached::There(_) => self.maker.sync_changed(directory),
            Reached::Missing(way) => {
                self.root.enter(self.rt)?;
                for name in way.names.iter().take(way.there) {
                    enter_name(self.rt, directory, name.as_str())?;
                }
                self.maker.sync_changed(directory)
            }
            Reached::Nowhere => Ok(()),
        }
    }

    /// Removes what interrupted runs left in the directory of a path, if it exists.
    pub fn clear_directory_of(&mut self, path: &TreePath) -> Result<(), Trouble> {
        let directory = text_of(self.rt.alloc(), path.directory())?;
        match self.root.reach(self.rt, directory)? {
            Reached::There(_) => self.maker.clear_leftovers(directory),
            Reached::Missing(_) | Reached::Nowhere => Ok(()),
        }
    }
}
