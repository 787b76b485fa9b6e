//! The order that a replay follows, from a file of the shelf.
ghost use Rattle.std.specs.Prelude.{◌≡◌, ◌≢◌, ◌≤◌, ℕ, List, All, IfErr, IfOk, Err, Ok, Some, length, map, take};
ghost use Rattle.outside_core.specs.Faults.{Rose};
ghost use Rattle.outside_core.specs.Told.{Stays};
ghost use Rattle.transcript.specs.Merge.{IsMerge, lane};
ghost use Rattle.mged_words.specs.Entries.{HasSession, command_entry};
ghost use Rattle.script_run.specs.Orders.{order_for};
ghost use Rattle.mged_top.specs.Stages.{CanOrder, IsOrderStop, IsTextStop, order_status};

use crate::status::{ReplayFault, Status};
use mged_words::ScriptCommand;
use name_core::Name;
use outside_core::{Shelf, ShelfFault};
use script_run::{ORDER_SIZE, read_order};
use std::alloc::Global;
use std::vec::Vec;

/// Why there is no order.
#[derive(Clone, Copy, Debug)]
pub(crate) enum OrderStop {
    /// The order file is refused.
    Refused(ReplayFault),
    /// Its read failed.
    Failed,
    /// There was no memory.
    Memory,
}

impl OrderStop {
    /// The status with which the call ends.
    pub(crate) fn status(&self) -> Status
        ensures { result ≡ order_status self.now }
    {
        match self {
            OrderStop::Refused(fault) => Status::ReplayRefused(*fault),
            OrderStop::Failed => Status::ReadFault,
            OrderStop::Memory => Status::Memory,
        }
    }
}

/// The order that the first bytes of a file name, where it merges the script.
fn order_in_text(alloc: Global, text: &[u8], script: &[ScriptCommand]) -> Result<Vec<u8>, OrderStop>
    requires sessions { All HasSession (map command_entry script.now) }
    requires few { length script.now ≤ 65536 }
    ensures order { IfOk result (λ order. (whole : List ℕ) → text.now ≡ take 131078 whole → order_for whole (lane (map command_entry script.now)) ≡ Some order.items) }
    ensures merge { IfOk result (λ order. IsMerge order.items (lane (map command_entry script.now))) }
    ensures refused { IfErr result (λ stop. IsTextStop stop text.now (map command_entry script.now)) }
{
    match read_order(alloc, text, script) {
        Ok(Some(order)) => Ok(order),
        Ok(None) => Err(OrderStop::Refused(ReplayFault::Order)),
        Err(_) => Err(OrderStop::Memory),
    }
}

/// The order that a file of the shelf gives the commands of a script.
pub(crate) fn order_of<F: Shelf>(
    alloc: Global,
    shelf: &mut F,
    name: &Name,
    script: &[ScriptCommand],
) -> Result<Vec<u8>, OrderStop>
    requires sessions { All HasSession (map command_entry script.now) }
    requires few { length script.now ≤ 65536 }
    ensures order { IfOk result (λ order. CanOrder (F.files shelf.old) name.now (map command_entry script.now) (Ok (Some order.items))) }
    ensures refused { IfErr result (λ stop. IsOrderStop stop (F.files shelf.old) name.now (map command_entry script.now)) }
    ensures merge { IfOk result (λ order. IsMerge order.items (lane (map command_entry script.now))) }
    ensures files_stay { Stays (F.files shelf.old) (F.files shelf.new) }
    ensures puts_stay { Stays (F.puts shelf.old) (F.puts shelf.new) }
    ensures steady { result ≢ Err OrderStop.Failed → F.faults shelf.new ≡ F.faults shelf.old }
    ensures rose { result ≡ Err OrderStop.Failed → Rose (F.faults shelf.old) (F.faults shelf.new) }
{
    match shelf.get(alloc, name, ORDER_SIZE) {
        Ok(Some(text)) => order_in_text(alloc, &text, script),
        Ok(None) => Err(OrderStop::Refused(ReplayFault::NoFile(*name))),
        Err(ShelfFault::Failed) => Err(OrderStop::Failed),
        Err(ShelfFault::Memory) => Err(OrderStop::Memory),
    }
}
