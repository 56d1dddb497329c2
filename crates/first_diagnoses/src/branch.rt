// Branches of the sets that are looked for, by slot after slot of the order.
ghost use Rattle.std.specs.Prelude.{◌≡◌, ◌↔◌, ◌+◌, ◌<◌, IsTrue, length, slice_index};
ghost use Rattle.environment_sets.specs.Sets.{Set};
ghost use Rattle.first_diagnoses.specs.Weights.{IsProblem};
ghost use Rattle.first_diagnoses.specs.Branches.{IsBranch, IsSought};
ghost use Rattle.hitting_sets.specs.Hitting.{IsMinimalFor};

use crate::problem::Problem;
use environment_sets::Env;

/// The sets that have all chosen slots, and else slots alone that are open: those from a place in the order on.
#[derive(Clone, Copy)]
pub struct Branch {
    pub chosen: Env,
    pub open: Env,
    pub place: usize,
}

impl Branch {
    ghost use Rattle.std.specs.Prelude.{ℕ};

    /// All sets of slots of the order.
    pub fn all(problem: &Problem) -> Branch
        requires { IsProblem problem.now }
        ensures branch { IsBranch problem.now result }
        ensures sought { (D : Set ℕ) → IsMinimalFor problem.now.conflicts.now D → IsSought problem.now result D }
    {
        let mut open = Env::empty();
        for slot in problem.order {
            open = open.with(*slot);
        }
        Branch {
            chosen: Env::empty(),
            open,
            place: 0,
        }
    }

    /// The sets of the branch that have the slot at its place.
    pub fn with_next(&self, problem: &Problem) -> Branch
        requires problem { IsProblem problem.now }
        requires branch { IsBranch problem.now self.now }
        requires within { self.now.place < length problem.now.order.now }
        ensures branch { IsBranch problem.now result }
        ensures place { result.place ≡ self.now.place + 1 }
        ensures sought { (D : Set ℕ) → IsSought problem.now result D ↔ (IsSought problem.now self.now D × IsTrue (D (slice_index problem.now.order.now self.now.place))) }
    {
        let slot = problem.order[self.place];
        Branch {
            chosen: self.chosen.with(slot),
            open: self.open.without(slot),
            place: self.place + 1,
        }
    }

    /// The sets of the branch that do not have the slot at its place.
    pub fn without_next(&self, problem: &Problem) -> Branch
        requires problem { IsProblem problem.now }
        requires branch { IsBranch problem.now self.now }
        requires within { self.now.place < length problem.now.order.now }
        ensures branch { IsBranch problem.now result }
        ensures place { result.place ≡ self.now.place + 1 }
        ensures sought { (D : Set ℕ) → IsSought problem.now result D ↔ (IsSought problem.now self.now D × (IsTrue (D (slice_index problem.now.order.now self.now.place)) → ⊥)) }
    {
        let slot = problem.order[self.place];
        Branch {
            chosen: self.chosen,
            open: self.open.without(slot),
            place: self.place + 1,
        }
    }
}
