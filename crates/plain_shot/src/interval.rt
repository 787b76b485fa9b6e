use crate::segment::PlainSegment;
use memory_core::Memory;
use ranged_position::RangedPos;
use std::alloc::Global;
use std::marker::Model;

/// What lies between two neighbouring cuts.
#[derive(Debug, Drop)]
pub(crate) struct PlainInterval {
    start: RangedPos,
    end: RangedPos,
}

impl Model for PlainInterval {
    ghost use Rattle.bool_weave.specs.Claims.{Interval};
    ghost use Rattle.plain_shot.specs.Kept.{interval_code};

    ghost Value = { Interval };

    ghost coded = { interval_code };

    ghost view = { λ s. record { start = s.start; end = s.end } };
}

ghost use Rattle.std.specs.Prelude.{◌≡◌, IfOk};
ghost use Rattle.bool_weave.specs.Claims.{intervals_between, is_before, covers, spans};

/// What lies between each cut and the next one.
pub(crate) fn intervals_between(
    alloc: Global,
    cuts: &[RangedPos],
) -> Result<Vec<PlainInterval>, Memory>
    ensures { IfOk result (λ v. v.items ≡ intervals_between cuts.now) }
{
    let mut intervals = Vec::new(alloc);
    for i in 0..cuts.len().saturating_sub(1) {
        intervals.push(PlainInterval {
            start: cuts[i],
            end: cuts[i + 1],
        })?;
    }
    Ok(intervals)
}

fn is_before(x: &RangedPos, y: &RangedPos) -> bool
    ensures { result ≡ is_before x.now y.now }
{
    x.cmp(y).is_lt()
}

fn covers(segment: &PlainSegment, interval: &PlainInterval) -> bool
    ensures { result ≡ covers segment.now.seg interval.now }
{
    !is_before(&interval.start, &segment.start()) && !is_before(&segment.end(), &interval.end)
}

/// Whether the instance of that number has a segment that covers the interval.
pub(crate) fn spans(segments: &[PlainSegment], interval: &PlainInterval, instance: u64) -> bool
    ensures { result ≡ spans segments.now interval.now instance }
{
    segments.iter().any(|one| one.instance() as u64 == instance && covers(one, interval))
}
