// Laws of the order by cost.

ghost use Rattle.diagnosis_order.specs.Laws.{CostOrderIsStrict, CostOrderIsTransitive, CostOrderIsTotal, CostListingsAreUnique};

/// No two sets come before each other.
pub fn cost_order_is_strict<N>()
    ensures { CostOrderIsStrict N }
{}

/// A set that comes before another comes before what comes after that one.
pub fn cost_order_is_transitive<N>()
    ensures { CostOrderIsTransitive N }
{}

/// Of two sets of listed names one comes before the other, unless they are the same.
pub fn cost_order_is_total<N>()
    ensures { CostOrderIsTotal N }
{}

/// There is one list of the sets with a property in which each comes before the later ones.
pub fn cost_listings_are_unique<N>()
    ensures { CostListingsAreUnique N }
{}
