//! The depths of a changed list: the names that an edit touched are looked at, and where the depth of one changes, in the
//! next round the names that refer to it. After so many rounds all depths are right that many levels deep, so 34 rounds
//! are enough. Where an edit of one name closed a cycle, the name's depth changes once more: then it is 34 at once, and
//! so need not grow to that round by round.
ghost use Rattle.std.specs.Prelude.{◌≡◌, ◌<◌, ℕ, List, [], ◌∷◌, Some, true, IfOk, IfSome, map};
ghost use Rattle.name_core.specs.declared.name.Name.{Name as Bytes};
ghost use Rattle.directory.specs.Walks.{greatest_of, unbounded};
ghost use Rattle.directory.specs.Closed.{IsRelaxing};
ghost use Rattle.directory.specs.Depths.{depth_kept, AreDepths, IsRound, IsTraced, IsTracedIf, IsDue};
ghost use Rattle.directory.specs.Edits.{judged, judged_by};

use crate::depths::Depths;
use crate::levels::{UNBOUNDED, larger};
use crate::limit::DEPTH;
use memory_core::Memory;
use name_core::Name;
use object_pages::{NameSet, ObjectPages};
use std::alloc::Global;

/// The depths in the midst of a round, the names for the next one, and those of which a depth was over 16.
#[derive(Drop)]
struct Round {
    depths: Depths,
    next: NameSet,
    high: NameSet,
}

/// The depths of a list, and the greatest that counts: where it is at most 16, so is each.
#[derive(Drop)]
pub(crate) struct Relaxed {
    pub(crate) depths: Depths,
    pub(crate) most: u8,
}

/// The name, where it is one alone.
fn only_name(names: &NameSet) -> Option<Name>
    ensures { IfSome result (λ name. names.now ≡ name ∷ []) }
{
    if names.len() == 1 {
        names.at(0).copied()
    } else {
        None
    }
}

/// Whether the edited name is this one.
fn is_edited(edited: &Option<Name>, name: &Name) -> bool
    ensures { result ≡ true → edited.now ≡ Some name.now }
{
    match edited {
        Some(edited) => *edited == *name,
        None => false,
    }
}

/// The depth that a name is due: that which its members give it. Where this is once more another one for the edited name,
/// a cycle passes through it, and it is 34.
fn due(list: &ObjectPages, depths: &Depths, name: &Name, edited: &Option<Name>) -> u8
    ensures { IsTracedIf list.now edited.now (depth_kept depths.now) → IsDue list.now (depth_kept depths.now) name.now result }
{
    let depth = depths.step(list, name);
    if is_edited(edited, name) && depth != depths.of(name) {
        return UNBOUNDED;
    }
    depth
}

/// Looks at one name: gives it the depth that it is due, and, where that is another one, puts the names that refer to it
/// among those of the next round.
fn look_at(
    alloc: Global,
    list: &ObjectPages,
    round: Round,
    name: &Name,
    edited: &Option<Name>,
) -> Result<Round, Memory>
    ensures round { IfOk result (λ r. (turns : ℕ) (rest : List Bytes) → turns < unbounded → IsTracedIf list.now edited.now (depth_kept round.depths)
        → IsRound list.now turns (depth_kept round.depths) (name.now ∷ rest) round.next round.high → IsRound list.now turns (depth_kept r.depths) rest r.next r.high) }
    ensures traced { IfOk result (λ r. (e : Bytes) (rest : List Bytes) → IsTracedIf list.now edited.now (depth_kept round.depths)
        → IsTraced list.now e (name.now ∷ rest) (depth_kept round.depths) → IsTraced list.now e rest (depth_kept r.depths)) }
{
    let depth = due(list, &round.depths, name, edited);
    if depth == round.depths.of(name) {
        return Ok(round);
    }
    let Round {
        depths,
        mut next,
        mut high,
    } = round;
    let depths = depths.set(alloc, name, depth)?;
    list.put_users(name, &mut next)?;
    if depth > DEPTH {
        high.insert(name)?;
    }
    Ok(Round { depths, next, high })
}

/// Looks at each of the names.
fn look_at_all(
    alloc: Global,
    list: &ObjectPages,
    depths: Depths,
    names: &NameSet,
    high: NameSet,
    edited: &Option<Name>,
) -> Result<Round, Memory>
    ensures round { IfOk result (λ r. (turns : ℕ) → turns < unbounded → IsTracedIf list.now edited.now (depth_kept depths)
        → IsRound list.now turns (depth_kept depths) names.now [] high → IsRound list.now turns (depth_kept r.depths) [] r.next r.high) }
    ensures traced { IfOk result (λ r. (e : Bytes) → IsTracedIf list.now edited.now (depth_kept depths)
        → IsTraced list.now e names.now (depth_kept depths) → IsTraced list.now e [] (depth_kept r.depths)) }
{
    let mut round = Round {
        depths,
        next: NameSet::new(alloc),
        high,
    };
    for place in 0..names.len() {
        if let Some(name) = names.at(place) {
            round = look_at(alloc, list, round, name, edited)?;
        }
    }
    Ok(round)
}

/// The greatest depth of the names.
fn greatest_among(depths: &Depths, names: &NameSet) -> u8
    ensures { result ≡ greatest_of (map (depth_kept depths.now) names.now) }
{
    let mut most = 0;
    for place in 0..names.len() {
        if let Some(name) = names.at(place) {
            most = larger(most, depths.of(name));
        }
    }
    most
}

/// The depths of a list from those that agree with it but at the names that an edit touched. Where it touched none, as one that
/// makes a solid, they are right already.
pub(crate) fn relax(
    alloc: Global,
    list: &ObjectPages,
    depths: Depths,
    touched: NameSet,
) -> Result<Relaxed, Memory>
    requires begins { IsRelaxing list.now (depth_kept depths) touched [] }
    ensures known { IfOk result (λ r. AreDepths list.now r.depths) }
    ensures judged { IfOk result (λ r. (edited : Bytes) → judged list.now edited ≡ judged_by r.most edited) }
{
    if touched.len() == 0 {
        return Ok(Relaxed { depths, most: 0 });
    }
    let edited = only_name(&touched);
    let mut round = look_at_all(alloc, list, depths, &touched, NameSet::new(alloc), &None)?;
    for _turn in 1..UNBOUNDED {
        if round.next.len() == 0 {
            break;
        }
        let Round { depths, next, high } = round;
        round = look_at_all(alloc, list, depths, &next, high, &edited)?;
    }
    let most = greatest_among(&round.depths, &round.high);
    Ok(Relaxed {
        depths: round.depths,
        most,
    })
}
