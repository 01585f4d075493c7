//! The calls of a keeper in memory, by number, and which of them fail.
ghost use Rattle.std.specs.Prelude.{◌≡◌, ◌↔◌, Contains, IsErr, IsErrOf};
ghost use Rattle.mw_types.specs.Causes.{Counts, raised};

use crate::keeper::KeeperFault;
use mw_types::CallList;

/// How many calls there were, which of them fail, and how many failed.
#[derive(Drop)]
pub(crate) struct Calls {
    pub(crate) failing: CallList,
    pub(crate) count: u64,
    pub(crate) faults: u64,
}

impl Calls {
    // Counts the call that begins, and fails where its number is one of those that do.
    pub(crate) fn begin(&mut self) -> Result<(), KeeperFault>
        ensures failed { IsErrOf result KeeperFault.Failed
            ↔ Contains self.old.failing self.old.count }
        ensures only_failed { IsErr result → IsErrOf result KeeperFault.Failed }
        ensures count { self.new.count ≡ raised self.old.count }
        ensures faults { Counts (IsErrOf result KeeperFault.Failed)
            self.old.faults self.new.faults }
        ensures failing { self.new.failing ≡ self.old.failing }
    {
        let fails = self.failing.as_slice().contains(&self.count);
        self.count = self.count.saturating_add(1);
        if fails {
            self.faults = self.faults.saturating_add(1);
            return Err(KeeperFault::Failed);
        }
        Ok(())
    }
}
