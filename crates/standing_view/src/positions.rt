// Laws of the positions of component slots.

ghost use Rattle.standing_view.specs.Positions.{PositionsAreInRange, PositionsHaveSlots, PositionsKeepSubsets, PositionsKeepTheOrder, HittingSetsAreSlots, PositionsKeepHittingSets};

/// There is a component at each position of a set of slots.
pub fn positions_are_in_range()
    ensures { PositionsAreInRange }
{}

/// Each set of positions is that of exactly one set of component slots.
pub fn positions_have_slots()
    ensures { PositionsHaveSlots }
{}

/// Sets of component slots are subsets where their positions are.
pub fn positions_keep_subsets()
    ensures { PositionsKeepSubsets }
{}

/// Sets of component slots come in the order of their positions.
pub fn positions_keep_the_order()
    ensures { PositionsKeepTheOrder }
{}

/// Minimal hitting sets of sets of component slots are sets of component slots.
pub fn hitting_sets_are_slots()
    ensures { HittingSetsAreSlots }
{}

/// Sets of component slots are minimal hitting sets where their positions are.
pub fn positions_keep_hitting_sets()
    ensures { PositionsKeepHittingSets }
{}
