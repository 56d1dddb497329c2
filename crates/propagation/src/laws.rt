// Laws of bringing labels up to date.

ghost use Rattle.propagation.specs.Laws.{InferencesAreSound, UncoveredPairsFall};

/// Where the facts that an inference goes from follow from an environment that has its maker, so does what it leads to.
pub fn inferences_are_sound()
    ensures { InferencesAreSound }
{}

/// Fewer pairs of a target and an environment are uncovered once one that was not covered is. So that there is an end to
/// putting in environments that are not covered.
pub fn uncovered_pairs_fall()
    ensures { UncoveredPairsFall }
{}
