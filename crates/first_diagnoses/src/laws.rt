// A law of the first minimal hitting sets by cost.

ghost use Rattle.first_diagnoses.specs.Laws.{FirstsAreFronts};

/// The first minimal hitting sets are the front of the list of all that `diagnosis_order::diagnoses` gives.
pub fn firsts_are_fronts()
    ensures { FirstsAreFronts }
{}
