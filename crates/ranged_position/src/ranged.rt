use std::cmp::Ordering;
use std::marker::Model;
use surd_order::Pos;

/// A position in its one spelling and in the range that `Pos::cmp` takes. It has the exact order as its
/// `Ord`, so it can be sorted and be the key of a map. Contracts see it as its position.
#[derive(Clone, Copy, Debug)]
pub struct RangedPos {
    place: Pos,
}

impl Model for RangedPos {
    ghost use Rattle.surd_order.specs.declared.position.Pos.{Pos};
    ghost use Rattle.ranged_position.specs.Ranged.{IsRanged};

    ghost Value = { Pos };

    ghost view = { λ s. s.place };

    ghost invariant = { λ s. IsRanged s.place };

    ghost inverse = { λ place. record { place = place } };
}

impl RangedPos {
    ghost use Rattle.std.specs.Prelude.{◌≡◌, ◌↔◌};
    ghost use Rattle.std.specs.declared.cmp.Ordering.TheVariants.{Equal};
    ghost use Rattle.surd_order.specs.Order.{IsOrderOf};
    ghost use Rattle.ranged_position.specs.Ranged.{IsRanged};
    ghost use Rattle.surd_order.specs.PlaceOrder.{place_cmp};

    /// Takes a position that is in its one spelling and in range.
    pub fn new(place: Pos) -> RangedPos
        requires { IsRanged place }
        ensures { result ≡ place }
    {
        RangedPos { place }
    }

    fn order(&self, other: &RangedPos) -> Ordering
        ensures same { result ≡ place_cmp self.now other.now }
        ensures order { IsOrderOf result self.now other.now }
        ensures equal { (result ≡ Equal) ↔ (self.now ≡ other.now) }
    {
        self.place.cmp(&other.place)
    }

    /// The position.
    pub fn place(&self) -> Pos
        ensures same { result ≡ self.now }
        ensures ranged { IsRanged result }
    {
        self.place
    }
}

impl PartialEq for RangedPos {
    ghost use Rattle.std.specs.Prelude.{◌≡◌, ◌↔◌, IsTrue};
    ghost use Rattle.std.specs.Ordering.{eq_by_cmp};
    ghost use Rattle.surd_order.specs.PlaceOrder.{place_cmp};
    ghost use Rattle.surd_order.proofs.PlaceOrderLaws.{place_eq_partial};

    ghost eq = { eq_by_cmp place_cmp };

    ghost laws = { place_eq_partial };

    /// Whether the positions are one place, which is whether they are equal values.
    fn eq(&self, other: &RangedPos) -> bool
        ensures same { result ≡ eq_by_cmp place_cmp self.now other.now }
        ensures equal { IsTrue result ↔ (self.now ≡ other.now) }
    {
        self.order(other).is_eq()
    }
}

impl Eq for RangedPos {
    ghost use Rattle.surd_order.proofs.PlaceOrderLaws.{place_eq_equiv};

    ghost laws = { place_eq_equiv };
}

impl PartialOrd for RangedPos {
    ghost use Rattle.std.specs.Ordering.{as_partial_cmp};
    ghost use Rattle.surd_order.specs.PlaceOrder.{place_cmp};
    ghost use Rattle.surd_order.proofs.PlaceOrderLaws.{place_cmp_partial};

    ghost partial_cmp = { as_partial_cmp place_cmp };

    ghost laws = { place_cmp_partial };

    fn partial_cmp(&self, other: &RangedPos) -> Option<Ordering> {
        Some(self.order(other))
    }
}

impl Ord for RangedPos {
    ghost use Rattle.std.specs.Prelude.{refl, ◌≡◌};
    ghost use Rattle.surd_order.specs.Order.{IsOrderOf};
    ghost use Rattle.surd_order.specs.PlaceOrder.{place_cmp};
    ghost use Rattle.surd_order.proofs.PlaceOrderLaws.{place_cmp_total};

    ghost cmp = { place_cmp };

    ghost total = { place_cmp_total };

    ghost matches_partial_cmp = { λ x y. refl };

    ghost matches_eq = { λ x y. refl };

    /// The exact order of the positions.
    fn cmp(&self, other: &RangedPos) -> Ordering
        ensures same { result ≡ place_cmp self.now other.now }
        ensures order { IsOrderOf result self.now other.now }
    {
        self.order(other)
    }
}
