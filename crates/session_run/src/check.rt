//! The overlaps of a scene.
ghost use Rattle.std.specs.Prelude.{◌≡◌, ◌≤◌, ◌<◌, ℕ, Err, Ok, IfErr, IfOk, length};
ghost use Rattle.std.specs.Arc.{arc_value};
ghost use Rattle.lattice_core.specs.declared.view.View.{View as AnyView};
ghost use Rattle.command_set.specs.declared.refusal.Refusal.TheVariants.{Quota};
ghost use Rattle.overlap_list.specs.declared.overlap.TheConstants.{MOST_PAIRS};
ghost use Rattle.overlap_list.specs.Overlaps.{IsTooMany};
ghost use Rattle.tile_shot.specs.Reports.{view_report};
ghost use Rattle.session_run.specs.Replies.{most_used, within_quota, lines_alone, lines_of_check};

use crate::answer::{Found, found_or_quota};
use crate::limit::MOST_USED;
use command_set::{CheckedView, Refusal};
use memory_core::Memory;
use outside_core::Gate;
use overlap_list::CheckFault;
use report_text::overlap_text;
use shot_core::{Pair, Scene};
use std::alloc::Global;
use std::sync::Arc;
use std::thread::Threads;
use std::vec::Vec;
use view_shot::{Executor, check_view};

/// What a check with a fault is answered: there is no room for more pairs than a report may have.
fn faulty(fault: CheckFault) -> Result<Result<Found, Refusal>, Memory>
    ensures { IfOk result (λ outcome. (n : ℕ) → IsTooMany n fault → (outcome ≡ Err Quota) × (MOST_PAIRS < n)) }
{
    match fault {
        CheckFault::TooMany => Ok(Err(Refusal::Quota)),
        CheckFault::Memory => Err(Memory),
    }
}

/// A line for each two regions of a scene that overlap on some ray of a view, where there is room for them.
pub(crate) fn told_pairs(
    alloc: Global,
    scene: &Arc<Scene>,
    used: u64,
    pairs: Result<Vec<Pair>, CheckFault>,
) -> Result<Result<Found, Refusal>, Memory>
    requires { used ≤ most_used }
    ensures { IfOk result (λ outcome. (view : AnyView) → IfOk pairs (λ v. v.items ≡ view_report (arc_value scene.now) view) → IfErr pairs (IsTooMany (length (view_report (arc_value scene.now) view))) → outcome ≡ within_quota used (Ok (lines_alone (lines_of_check (arc_value scene.now) view)))) }
{
    match pairs {
        Ok(pairs) => found_or_quota(overlap_text(alloc, scene, &pairs, MOST_USED - used)),
        Err(fault) => faulty(fault),
    }
}

/// A line for each two regions of a scene that overlap on some ray of a view, where there is room for them. There is none for
/// more pairs than a report may have.
pub(crate) fn check_scene<R: Threads + Sync, G: Gate + Sync>(
    executor: &Executor<R, G>,
    alloc: Global,
    scene: &Arc<Scene>,
    used: u64,
    view: &CheckedView,
) -> Result<Result<Found, Refusal>, Memory>
    requires { used ≤ most_used }
    ensures { IfOk result (λ outcome. outcome ≡ within_quota used (Ok (lines_alone (lines_of_check (arc_value scene.now) view.now)))) }
{
    let pairs = check_view(executor, alloc, scene, &view.view());
    told_pairs(alloc, scene, used, pairs)
}
