// Laws of the load of what stands.

ghost use Rattle.standing_changes.specs.Load.{LoadsAreThePresents, LoadsAreUnique};

/// The load over the slots that stand is that of the present.
pub fn loads_are_the_presents()
    ensures { LoadsAreThePresents }
{}

/// There is no more than one load.
pub fn loads_are_unique()
    ensures { LoadsAreUnique }
{}
