// The answers to questions.

use circuit_model::{Cell, Chosen};
use environment_sets::EnvList;
use probe_planner::Probe;
use proof_check::Derivation;

/// The answer to a question. Conflicts and diagnoses are sets of positions of components, in order.
#[derive(Drop)]
pub enum Answer {
    /// The printed label of a cell.
    Label {
        cell: Cell,
    },
    /// All conflicts.
    Conflicts(EnvList),
    /// Diagnoses.
    Diagnoses(EnvList),
    /// The best next measurement, if there is one.
    Probe(Option<Probe>),
    /// What a fact follows from, or a clash, and how.
    Explained {
        under: Chosen,
        derivation: Derivation,
    },
    /// The text of the present.
    Show,
}
