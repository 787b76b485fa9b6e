ghost use Rattle.std.specs.Prelude.{◌≡◌, ◌↔◌, Err, IsOk, IfErr};
ghost use Rattle.lattice_core.specs.declared.limit.TheConstants.{VIEW_NUMBER};
ghost use Rattle.lattice_core.specs.Limits.{IsAtMost, IsWithin};
ghost use Rattle.lattice_core.specs.Views.{IsChecked, IsFirstFault, fault_order, view_fault};
ghost use Rattle.command_set.specs.Lawful.{view_or_fault};

use lattice_core::{View, ViewFault};
use std::marker::Model;

/// A view that has no fault: it has 1 to `PICTURE_SIDE` columns and rows, a cell of at least a tenth of a millimetre, and
/// each of its rays starts in the world. Contracts see that view.
#[derive(Debug, Drop)]
pub struct CheckedView {
    view: View,
}

impl Model for CheckedView {
    ghost use Rattle.lattice_core.specs.declared.view.View.{View};
    ghost use Rattle.lattice_core.specs.Views.{IsChecked};

    ghost Value = { View };

    ghost view = { λ s. s.view };

    ghost invariant = { λ s. IsChecked s.view };
}

impl CheckedView {
    /// The view, or the first of its faults, which are looked for in this order: no pixels, a long side, a cell below 1, a ray outside the world.
    pub fn of_view(view: View) -> Result<CheckedView, ViewFault>
        requires corner { IsWithin VIEW_NUMBER view.corner }
        requires cell { IsAtMost VIEW_NUMBER view.cell }
        ensures value { result ≡ view_or_fault view (view_fault view) }
        ensures checked { IsOk result ↔ IsChecked view }
        ensures fault { IfErr result (λ fault. IsFirstFault view fault_order (Err fault)) }
    {
        match view.check() {
            Ok(()) => Ok(CheckedView { view }),
            Err(fault) => Err(fault),
        }
    }

    /// The view.
    pub fn view(&self) -> View
        ensures value { result ≡ self.now }
        ensures checked { IsChecked result }
    {
        self.view
    }
}
