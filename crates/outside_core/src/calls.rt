ghost use Rattle.std.specs.Prelude.{◌≡◌, ◌≤◌, ◌↔◌, IsErr, OnOk, OnErr};
ghost use Rattle.outside_core.specs.Faults.{next_count};
ghost use Rattle.outside_core.specs.CallCounts.{NextIsListed, counted, faulted};

use crate::traits::Failed;
use item_list::Items;

/// The calls that were made on an object in memory, and the numbers of those that fail. The first call has
/// the number 1.
#[derive(Debug, Drop)]
pub struct Calls {
    pub made: u64,
    pub faults: u64,
    pub fail_at: Items<u64>,
}

impl Calls {
    /// No call was made yet, and those with the listed numbers will fail.
    pub fn new(fail_at: Vec<u64>) -> Calls
        ensures { result ≡ record { made = 0; faults = 0; fail_at = fail_at.items } }
    {
        Calls {
            made: 0,
            faults: 0,
            fail_at: Items::of_vec(fail_at),
        }
    }

    /// Counts a call. One that is listed fails, and counts as a fault.
    pub fn next(&mut self) -> Result<(), Failed>
        ensures fails { IsErr result ↔ NextIsListed self.old }
        ensures ok { OnOk result (self.new ≡ counted self.old) }
        ensures err { OnErr result (self.new ≡ faulted self.old) }
        ensures never_falls { self.old.faults ≤ self.new.faults }
    {
        self.made = self.made.saturating_add(1);
        if self.fail_at.items().contains(&self.made) {
            self.fault();
            return Err(Failed);
        }
        Ok(())
    }

    /// Counts a fault of the call that was counted last.
    pub fn fault(&mut self)
        ensures counts { self.new ≡ record self.old { faults = next_count self.old.faults } }
        ensures never_falls { self.old.faults ≤ self.new.faults }
    {
        self.faults = self.faults.saturating_add(1);
    }
}
