// A law of hitting sets.

ghost use Rattle.hitting_sets.specs.Laws.{MinimalByOwn};

/// A set that hits a list of conflicts is a minimal hitting set of it exactly where each of its elements alone hits
/// some conflict of the list.
pub fn minimal_by_own()
    ensures { MinimalByOwn }
{}
