// The law of opening.

ghost use Rattle.block_tree.specs.Openings.{OpenedClashesLift};

/// Where a block is opened, its instances are those of its inner components; and components of the opened present that clash
/// with all measurements clash in the present too, with the block in the place of its inner components. It does nothing.
pub fn opened_clashes_lift()
    ensures { OpenedClashesLift }
{}
