// Laws of the definitions.

ghost use Rattle.circuit_model.specs.Decided.{ListedLabelsDecide, ListedNogoodsDecide, SettledListsAreExact, LastRoundsAreClosures, LastRoundsDecideClashes};
ghost use Rattle.circuit_model.specs.Derivation.{ValidDerivationsAreTrue, CanonicalDerivationsAreValid};
ghost use Rattle.circuit_model.specs.Diagnoses.{DiagnosesAreHittingSets, SomeDiagnosis, NoCircuitLacksADiagnosis, ReadingsAreConsistent, NoConflictIsEmpty};
ghost use Rattle.circuit_model.specs.Laws.{ClosuresGrow, SubsetsAreConsistent, ClosuresAreClosed, LabelsOfAPart, NogoodsOfAPart, OneMoreForLabels, OneMoreForNogoods, ListedLabelsCover};
ghost use Rattle.circuit_model.specs.Load.{LoadsGrow};
ghost use Rattle.circuit_model.specs.Printed.{PrintedLabelsAreUnique};
ghost use Rattle.circuit_model.specs.Probe.{DiagnosesHaveOneListing, ConflictsHaveOneListing, CellsHaveOneScore};
ghost use Rattle.circuit_model.specs.Renaming.{RenamedClosures, RenamedClashes, RenamedLabels, RenamedNogoods};
ghost use Rattle.circuit_model.specs.Splitting.{TwoWordsSplit, TwoPredictionsSplit};

/// Monotony of closures: what follows from some assumptions follows from more of them too.
pub fn fewer_assumptions_close_less<N>()
    ensures { ClosuresGrow N }
{}

/// Monotony of consistency: a part of a consistent environment is consistent.
pub fn part_of_a_consistent_environment<N>()
    ensures { SubsetsAreConsistent N }
{}

/// Soundness of one step: what a component of an environment forces from facts of its closure is in its closure.
pub fn forced_facts_follow<N>()
    ensures { ClosuresAreClosed N }
{}

/// The labels over fewer assumptions are those over all, as far as they name these.
pub fn labels_of_fewer_assumptions<N>()
    ensures { LabelsOfAPart N }
{}

/// The nogoods over fewer assumptions are those over all, as far as they name these.
pub fn nogoods_of_fewer_assumptions<N>()
    ensures { NogoodsOfAPart N }
{}

/// Fewer assumptions have no larger load.
pub fn fewer_assumptions_have_no_larger_load<N>()
    ensures { LoadsGrow N }
{}

/// A further assumption alters only the environments of a label that name it.
pub fn labels_with_one_more_assumption<N>()
    ensures { OneMoreForLabels N }
{}

/// A further assumption alters only the nogoods that name it.
pub fn nogoods_with_one_more_assumption<N>()
    ensures { OneMoreForNogoods N }
{}

/// Closures are the same under other names.
pub fn closures_are_the_same_under_other_names<N, M>()
    ensures { RenamedClosures N M }
{}

/// What clashes is the same under other names.
pub fn clashes_are_the_same_under_other_names<N, M>()
    ensures { RenamedClashes N M }
{}

/// Labels are the same under other names.
pub fn labels_are_the_same_under_other_names<N, M>()
    ensures { RenamedLabels N M }
{}

/// Nogoods are the same under other names.
pub fn nogoods_are_the_same_under_other_names<N, M>()
    ensures { RenamedNogoods N M }
{}

/// A list of exactly a label has a part of each consistent environment whose closure has the fact.
pub fn listed_labels_cover()
    ensures { ListedLabelsCover }
{}

/// From a list of exactly a label: the closure of a consistent environment has the fact exactly where a listed
/// environment is a part of it.
pub fn listed_labels_decide()
    ensures { ListedLabelsDecide }
{}

/// From a list of exactly the nogoods: an environment clashes exactly where a listed one is a part of it.
pub fn listed_nogoods_decide()
    ensures { ListedNogoodsDecide }
{}

/// Where nothing waits, what is kept is exactly the labels and the nogoods (de Kleer 1986: consistent, sound, complete
/// and minimal).
pub fn settled_lists_are_exact<N>()
    ensures { SettledListsAreExact N }
{}

/// Where the next round adds nothing to a round, that round is the closure.
pub fn last_rounds_are_closures<N>()
    ensures { LastRoundsAreClosures N }
{}

/// Where the next round adds nothing to a round, an environment clashes exactly where it clashes at that round.
pub fn last_rounds_decide_clashes<N>()
    ensures { LastRoundsDecideClashes N }
{}

/// A cell has one printed label.
pub fn printed_labels_are_unique()
    ensures { PrintedLabelsAreUnique }
{}

/// The diagnoses are exactly the minimal hitting sets of the conflicts (Reiter 1987).
pub fn diagnoses_are_hitting_sets()
    ensures { DiagnosesAreHittingSets }
{}

/// The measurements alone never clash.
pub fn readings_are_consistent()
    ensures { ReadingsAreConsistent }
{}

/// No conflict is empty: each has a component.
pub fn no_conflict_is_empty()
    ensures { NoConflictIsEmpty }
{}

/// Where the conflicts can be listed there is a diagnosis.
pub fn there_is_a_diagnosis()
    ensures { SomeDiagnosis }
{}

/// That a circuit has no diagnosis is impossible. (Without a listing of the conflicts the logic, which is constructive,
/// gives no more.)
pub fn no_circuit_lacks_a_diagnosis()
    ensures { NoCircuitLacksADiagnosis }
{}

/// The diagnoses of a circuit have one listing by cost.
pub fn diagnoses_have_one_listing()
    ensures { DiagnosesHaveOneListing }
{}

/// The conflicts of a circuit have one listing in order.
pub fn conflicts_have_one_listing()
    ensures { ConflictsHaveOneListing }
{}

/// A cell has one score.
pub fn cells_have_one_score()
    ensures { CellsHaveOneScore }
{}

/// The score of some predictions, each of some weight, is below the square of their weight exactly where two of them
/// are different words.
pub fn two_words_split()
    ensures { TwoWordsSplit }
{}

/// A cell splits, which is that its score is below the squared weight of all diagnoses, exactly where two diagnoses
/// predict different words there.
pub fn two_predictions_split()
    ensures { TwoPredictionsSplit }
{}

/// A valid derivation is true: the closure has the value, or the environment clashes.
pub fn valid_derivations_are_true()
    ensures { ValidDerivationsAreTrue }
{}

/// A canonical derivation is valid.
pub fn canonical_derivations_are_valid()
    ensures { CanonicalDerivationsAreValid }
{}
