//! The disk of a root with a kept history.
ghost use Rattle.std.specs.Prelude.{◌≡◌};
ghost use Rattle.disk.specs.Disks.{failures_after};
ghost use Rattle.disk.specs.Events.{Promise, Commit, Withdraw, SyncHistory, SyncSteps, Clear, DoesOne};

use disk::{Disk, DiskError};
use link_tree::Change;

/// A disk that also holds the history of its root.
pub trait KeptDisk: Disk {
    /// Syncs the directories in which the paths of these steps are, whether the steps were made or
    /// not.
    fn sync_steps(&mut self, steps: &[Change]) -> Result<(), DiskError>
        ensures kept { Self.holds self.new ≡ Self.holds self.old }
        ensures done { DoesOne (Self.done self.old) (Self.done self.new) result (SyncSteps steps.now) }
        ensures counted { Self.failures self.new ≡ failures_after (Self.failures self.old) result };

    /// The same after steps were made and then taken back.
    fn sync_back(&mut self, steps: &[Change]) -> Result<(), DiskError>
        ensures kept { Self.holds self.new ≡ Self.holds self.old }
        ensures done { DoesOne (Self.done self.old) (Self.done self.new) result (SyncSteps steps.now) }
        ensures counted { Self.failures self.new ≡ failures_after (Self.failures self.old) result };

    /// Removes what `put` and `take` may leave in the directories of these steps if they are killed:
    /// files under a name that is no entry's.
    fn clear(&mut self, steps: &[Change]) -> Result<(), DiskError>
        ensures kept { Self.holds self.new ≡ Self.holds self.old }
        ensures done { DoesOne (Self.done self.old) (Self.done self.new) result (Clear steps.now) }
        ensures counted { Self.failures self.new ≡ failures_after (Self.failures self.old) result };

    /// Writes a text to a new file, syncs that file, and renames it to `history.next`.
    fn promise(&mut self, text: &[u8]) -> Result<(), DiskError>
        ensures kept { Self.holds self.new ≡ Self.holds self.old }
        ensures done { DoesOne (Self.done self.old) (Self.done self.new) result (Promise text.now) }
        ensures counted { Self.failures self.new ≡ failures_after (Self.failures self.old) result };

    /// Syncs the directory of the history.
    fn sync_history(&mut self) -> Result<(), DiskError>
        ensures kept { Self.holds self.new ≡ Self.holds self.old }
        ensures done { DoesOne (Self.done self.old) (Self.done self.new) result SyncHistory }
        ensures counted { Self.failures self.new ≡ failures_after (Self.failures self.old) result };

    /// Renames `history.next` to `history`.
    fn commit(&mut self) -> Result<(), DiskError>
        ensures kept { Self.holds self.new ≡ Self.holds self.old }
        ensures done { DoesOne (Self.done self.old) (Self.done self.new) result Commit }
        ensures counted { Self.failures self.new ≡ failures_after (Self.failures self.old) result };

    /// Removes `history.next`.
    fn withdraw(&mut self) -> Result<(), DiskError>
        ensures kept { Self.holds self.new ≡ Self.holds self.old }
        ensures done { DoesOne (Self.done self.old) (Self.done self.new) result Withdraw }
        ensures counted { Self.failures self.new ≡ failures_after (Self.failures self.old) result };
}
