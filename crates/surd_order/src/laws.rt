ghost use Rattle.surd_order.specs.Laws.{OrderIsTotal, OrderIsTransitive, SamePlaceIsTransitive, IsKeptBySamePlace, PlacesHaveOneSpelling};
ghost use Rattle.surd_order.specs.PlaceOrder.{PlacesAreCompared};
ghost use Rattle.surd_order.specs.Products.{ProductsAreSmall};
ghost use Rattle.surd_order.specs.Spelled.{IsOneSpelling};

/// Laws of the order of positions, in range or not. The function does nothing: its contract is the laws.
pub fn order_laws()
    ensures total { OrderIsTotal }
    ensures transitive { OrderIsTransitive }
    ensures same_place { SamePlaceIsTransitive }
    ensures kept { IsKeptBySamePlace }
    ensures one_spelling { PlacesHaveOneSpelling }
    ensures spelled { IsOneSpelling }
{}

/// The law of the comparison. The function does nothing: its contract is the law.
pub fn place_order_laws()
    ensures { PlacesAreCompared }
{}

/// The law of sizes: every product by which two positions in range are compared is below 2^127. The function does nothing:
/// its contract is the law.
pub fn product_laws()
    ensures { ProductsAreSmall }
{}
