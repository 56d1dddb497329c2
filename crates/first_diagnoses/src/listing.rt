// The first minimal hitting sets of conflicts, by cost.
ghost use Rattle.std.specs.Prelude.{◌≡◌, ◌<◌, IfOk, length};
ghost use Rattle.environment_sets.specs.declared.environment.TheConstants.{SLOTS};
ghost use Rattle.environment_sets.specs.Members.{sets, HasMember};
ghost use Rattle.environment_sets.specs.Orders.{IsOrder};
ghost use Rattle.hitting_sets.specs.Hitting.{IsMinimalFor};
ghost use Rattle.environment_sets.specs.Costs.{ComesBeforeByCost, ListsEach};
ghost use Rattle.first_diagnoses.specs.First.{AreFirst};
ghost use Rattle.first_diagnoses.specs.Weights.{IsProblem};
ghost use Rattle.first_diagnoses.specs.Rounds.{ComesByWeight};

use crate::branch::Branch;
use crate::problem::{Problem, weights_of};
use crate::rounds::{Round, add_round};
use crate::waiting::{Waiting, least_of};
use environment_sets::Env;
use std::alloc::{AllocError, Global};

/// The first `k` minimal hitting sets of the conflicts, which are the diagnoses (Reiter 1987), or all where there are
/// fewer: by cost, and those of one cost in the order. The cost of `order[i]` is `costs[i]`, and that of a set is the sum
/// of those of its slots. Where a conflict is empty there is none. It goes through branches best first: each round takes
/// those that may have a set of the least weight that is left, and the others wait, so the sets that come later are never
/// listed. It takes memory for the weights of the slots, for the sets that it gives and for the branches that wait.
pub fn first(
    alloc: Global,
    conflicts: &[Env],
    costs: &[u8],
    order: &[u16],
    k: usize,
) -> Result<Vec<Env>, AllocError>
    requires slots { IsOrder SLOTS order.now }
    requires listed { ListsEach order.now (HasMember conflicts.now) }
    requires costs { length costs.now ≡ length order.now }
    ensures { IfOk result (λ found. AreFirst (ComesBeforeByCost order.now costs.now) (IsMinimalFor conflicts.now) k (sets found.items)) }
{
    if k == 0 {
        return Ok(Vec::new(alloc));
    }
    let weights = weights_of(alloc, costs)?;
    let problem = Problem {
        conflicts,
        order,
        weights: &weights,
    };
    lightest_sets(alloc, &problem, k)
}

// The first minimal hitting sets by weight, up to so many: those of one weight in each round.
fn lightest_sets(alloc: Global, problem: &Problem, limit: usize) -> Result<Vec<Env>, AllocError>
    requires problem { IsProblem problem.now }
    requires room { 0 < limit }
    ensures { IfOk result (λ found. AreFirst (ComesByWeight problem.now) (IsMinimalFor problem.now.conflicts.now) limit (sets found.items)) }
{
    let all = Branch::all(problem);
    let mut waiting = Vec::new(alloc);
    waiting.push(Waiting {
        least: 0,
        branch: all,
    })?;
    let mut found = Vec::new(alloc);
    let mut next = Some(0);
    while let Some(weight) = next {
        let later = add_round(
            alloc,
            problem,
            &waiting,
            &Round { weight, limit },
            &mut found,
        )?;
        if found.len() >= limit {
            return Ok(found);
        }
        next = least_of(&later);
        waiting = later;
    }
    Ok(found)
}
