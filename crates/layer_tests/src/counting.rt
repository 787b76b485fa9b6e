ghost use Rattle.std.specs.Prelude.{◌≡◌, ◌<◌};

use std::marker::Brand;
use std::sync::ledger::{Blank, Ledger};
use step_counter::Steps;

/// Makes two steps.
fn two_steps<L: Ledger>(blank: Blank)
    requires name { blank.name ≡ L.name }
    requires parts { blank.parts ≡ L.parts }
    requires some { 0 < blank.parts }
{
    let mut steps: Steps<L> = Steps::new(blank);
    steps.tick();
    steps.tick();
    are_two(&steps);
}

/// Takes a counter at 2 alone.
fn are_two<L: Ledger>(_steps: &Steps<L>)
    requires { _steps.now ≡ 2 }
{}

#[test]
fn counts_from_nothing() {
    two_steps::<Brand>(Blank::new(1));
}
