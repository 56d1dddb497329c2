// What a circuit is, and what follows from assumptions about it.
#![tactic(auto)]

mod blocks;
mod chosen;
mod instances;
mod laws;
pub mod limits;
mod look_up;
mod model;
mod name;
mod pins;
mod present;
mod rules;

pub use blocks::Inner;
pub use chosen::{Cells, Chosen, Places};
pub use instances::instances_of;
pub use laws::{
    canonical_derivations_are_valid, cells_have_one_score, clashes_are_the_same_under_other_names,
    closures_are_the_same_under_other_names, conflicts_have_one_listing,
    diagnoses_are_hitting_sets, diagnoses_have_one_listing, fewer_assumptions_close_less,
    fewer_assumptions_have_no_larger_load, forced_facts_follow,
    labels_are_the_same_under_other_names, labels_of_fewer_assumptions,
    labels_with_one_more_assumption, last_rounds_are_closures, last_rounds_decide_clashes,
    listed_labels_cover, listed_labels_decide, listed_nogoods_decide, no_circuit_lacks_a_diagnosis,
    no_conflict_is_empty, nogoods_are_the_same_under_other_names, nogoods_of_fewer_assumptions,
    nogoods_with_one_more_assumption, part_of_a_consistent_environment, printed_labels_are_unique,
    readings_are_consistent, settled_lists_are_exact, there_is_a_diagnosis, two_predictions_split,
    two_words_split, valid_derivations_are_true,
};
pub use model::{Assumption, Cell, Fact, Instance, Kind, Mode, Part, Primitive as Prim};
pub use name::Name;
pub use pins::Pins;
pub use present::{Component, DeclaredMode, Named, Net, Present};
pub use rules::{are_widths, fits_value, may_act};
