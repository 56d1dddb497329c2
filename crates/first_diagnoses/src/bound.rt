// How little the sets of a branch can weigh.
ghost use Rattle.std.specs.Prelude.{ℕ, ◌≤◌, MatchOption};
ghost use Rattle.environment_sets.specs.Sets.{Set};
ghost use Rattle.environment_sets.specs.Members.{members, HasMember};
ghost use Rattle.first_diagnoses.specs.Weights.{weight_in, IsProblem};
ghost use Rattle.first_diagnoses.specs.Branches.{IsBranch, IsSought, IsBound};

use crate::branch::Branch;
use crate::problem::{Problem, lightest, weight_of};
use environment_sets::Env;

// Each set of a branch has at least this weight by the slots that are taken.
#[derive(Clone, Copy)]
struct Bound {
    least: u32,
    taken: Env,
}

/// At most the weight of each minimal hitting set of the branch, or `None` where there is none. It counts the chosen
/// slots, and the lightest open slot of each missed conflict that shares no open slot with one counted before.
pub fn least_weight(problem: &Problem, branch: &Branch) -> Option<u32>
    requires problem { IsProblem problem.now }
    requires branch { IsBranch problem.now branch.now }
    ensures { MatchOption result ((D : Set ℕ) → IsSought problem.now branch.now D → ⊥) (λ least. (D : Set ℕ) → IsSought problem.now branch.now D → least ≤ weight_in problem.now D) }
{
    let mut bound = Bound {
        least: weight_of(problem, &branch.chosen),
        taken: branch.chosen,
    };
    for conflict in problem.conflicts {
        let Some(next) = with_conflict(problem, branch, &bound, conflict) else {
            return None;
        };
        bound = next;
    }
    Some(bound.least)
}

// The bound with the lightest open slot of the conflict, where that is missed and its open slots are not yet taken.
fn with_conflict(problem: &Problem, branch: &Branch, bound: &Bound, conflict: &Env) -> Option<Bound>
    requires problem { IsProblem problem.now }
    requires branch { IsBranch problem.now branch.now }
    requires bound { IsBound problem.now branch.now bound.now }
    requires conflict { HasMember problem.now.conflicts.now (members conflict.now) }
    ensures { MatchOption result ((D : Set ℕ) → IsSought problem.now branch.now D → ⊥) (IsBound problem.now branch.now) }
{
    if branch.chosen.meets(conflict) {
        return Some(*bound);
    }
    if !branch.open.meets(conflict) {
        return None;
    }
    let open = branch.open.meet(*conflict);
    if bound.taken.meets(&open) {
        return Some(*bound);
    }
    let lightest = lightest(problem, &open, branch.place);
    Some(Bound {
        least: bound.least.saturating_add(lightest),
        taken: bound.taken.union(open),
    })
}
