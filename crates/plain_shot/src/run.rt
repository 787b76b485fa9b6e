use memory_core::Memory;
use std::alloc::Global;
use std::marker::Model;

/// The intervals from one number up to, not including, another.
#[derive(Clone, Copy, Debug)]
pub(crate) struct PlainRun {
    from: usize,
    to: usize,
}

impl Model for PlainRun {
    ghost use Rattle.overlap_list.specs.Runs.{IntervalRun};
    ghost use Rattle.plain_shot.specs.Kept.{run_code};

    ghost Value = { IntervalRun };

    ghost coded = { run_code };

    ghost view = { λ s. record { from = s.from; to = s.to } };

    ghost inverse = { λ run. record { from = run.from; to = run.to } };
}

impl PlainRun {
    ghost use Rattle.std.specs.Prelude.{◌≡◌};

    pub(crate) fn from(&self) -> usize
        ensures { result ≡ self.now.from }
    {
        self.from
    }

    pub(crate) fn to(&self) -> usize
        ensures { result ≡ self.now.to }
    {
        self.to
    }
}

ghost use Rattle.std.specs.Prelude.{◌≡◌, ◌<◌, ◌++◌, ◌^◌, IfOk};
ghost use Rattle.overlap_list.specs.Runs.{runs_from, runs_below};

/// Adds the runs that begin with a number and end at most at `count`, the shorter first.
fn add_runs(runs: &mut Vec<PlainRun>, count: usize, from: usize) -> Result<(), Memory>
    requires few { count < 2 ^ 32 }
    requires from { from < count }
    ensures { IfOk result (λ _. runs.new.items ≡ runs.old.items ++ runs_from count from) }
{
    for to in from + 1..count + 1 {
        runs.push(PlainRun { from, to })?;
    }
    Ok(())
}

/// All runs of the numbers below `count`, the earlier first.
pub(crate) fn runs_below(alloc: Global, count: usize) -> Result<Vec<PlainRun>, Memory>
    requires { count < 2 ^ 32 }
    ensures { IfOk result (λ v. v.items ≡ runs_below count) }
{
    let mut runs = Vec::new(alloc);
    for from in 0..count {
        add_runs(&mut runs, count, from)?;
    }
    Ok(runs)
}
