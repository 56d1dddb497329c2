// The sets of one weight, in order, and the branches that wait for the next one.
ghost use Rattle.std.specs.Prelude.{◌≡◌, ◌<◌, OnOk, IfOk, length};
ghost use Rattle.environment_sets.specs.Members.{members};
ghost use Rattle.hitting_sets.specs.Hitting.{IsMinimalFor};
ghost use Rattle.first_diagnoses.specs.Weights.{IsProblem};
ghost use Rattle.first_diagnoses.specs.Branches.{IsBranch, IsSought, IsOutlook};
ghost use Rattle.first_diagnoses.specs.Rounds.{IsOfRound, AddsFirst};
ghost use Rattle.first_diagnoses.specs.Waits.{IsWaiting, AreWaiting, IsSoughtIn, IsOfRoundIn, AreHeavier, AddsHeavier};

use crate::bound::least_weight;
use crate::branch::Branch;
use crate::own::{has_own, hits_each};
use crate::problem::{Problem, weight_of};
use crate::waiting::Waiting;
use environment_sets::Env;
use std::alloc::{AllocError, Global};

/// Which sets are looked for: those of a weight, up to so many in all.
#[derive(Clone, Copy)]
pub struct Round {
    pub weight: u32,
    pub limit: usize,
}

// What a branch has to expect.
enum Outlook {
    // It has no minimal hitting set.
    Nothing,
    // Each of its minimal hitting sets weighs so much or more, and that is too much.
    Heavier(u32),
    // What is chosen is a minimal hitting set, and there is no other one.
    Whole,
    // The slot at its place has to be chosen or left out.
    Open,
}

/// Adds the minimal hitting sets of the weight of the round that the branches have, in order, until there are as many as
/// wanted. If there are fewer, the answer is the branches that wait on. An error leaves some of the sets added.
pub fn add_round(
    alloc: Global,
    problem: &Problem,
    waiting: &[Waiting],
    round: &Round,
    found: &mut Vec<Env>,
) -> Result<Vec<Waiting>, AllocError>
    requires problem { IsProblem problem.now }
    requires waiting { AreWaiting problem.now waiting.now }
    requires room { length found.old.items < round.now.limit }
    ensures first { OnOk result (AddsFirst problem.now (IsOfRoundIn problem.now waiting.now round.now.weight) round.now.limit found.old.items found.new.items) }
    ensures rest { IfOk result (λ later. length found.new.items < round.now.limit → AreHeavier problem.now (IsSoughtIn problem.now waiting.now) round.now.weight later.items) }
{
    let mut later = Vec::new(alloc);
    for item in waiting {
        add_waiting(problem, item, round, found, &mut later)?;
        if found.len() >= round.limit {
            return Ok(later);
        }
    }
    Ok(later)
}

// Adds the sets of a branch that has waited, or lets it wait on where its bound is higher.
fn add_waiting(
    problem: &Problem,
    item: &Waiting,
    round: &Round,
    found: &mut Vec<Env>,
    later: &mut Vec<Waiting>,
) -> Result<(), AllocError>
    requires problem { IsProblem problem.now }
    requires waiting { IsWaiting problem.now item.now }
    requires room { length found.old.items < round.now.limit }
    ensures first { OnOk result (AddsFirst problem.now (IsOfRound problem.now item.now.branch round.now.weight) round.now.limit found.old.items found.new.items) }
    ensures rest { OnOk result (length found.new.items < round.now.limit → AddsHeavier problem.now (IsSought problem.now item.now.branch) round.now.weight later.old.items later.new.items) }
{
    if item.least > round.weight {
        later.push(*item)?;
        return Ok(());
    }
    add_branch(problem, &item.branch, round, found, later)
}

// Adds the sets of the branch that have the weight of the round, until there are as many as wanted, and lets the parts
// of the branch wait whose sets weigh more.
fn add_branch(
    problem: &Problem,
    branch: &Branch,
    round: &Round,
    found: &mut Vec<Env>,
    later: &mut Vec<Waiting>,
) -> Result<(), AllocError>
    requires problem { IsProblem problem.now }
    requires branch { IsBranch problem.now branch.now }
    requires room { length found.old.items < round.now.limit }
    ensures first { OnOk result (AddsFirst problem.now (IsOfRound problem.now branch.now round.now.weight) round.now.limit found.old.items found.new.items) }
    ensures rest { OnOk result (length found.new.items < round.now.limit → AddsHeavier problem.now (IsSought problem.now branch.now) round.now.weight later.old.items later.new.items) }
{
    match look_at(problem, branch, round.weight) {
        Outlook::Nothing => Ok(()),
        Outlook::Heavier(least) => {
            later.push(Waiting {
                least,
                branch: *branch,
            })?;
            Ok(())
        }
        Outlook::Whole => add_chosen(problem, branch, round, found, later),
        Outlook::Open => {
            add_branch(problem, &branch.with_next(problem), round, found, later)?;
            if found.len() >= round.limit {
                return Ok(());
            }
            add_branch(problem, &branch.without_next(problem), round, found, later)?;
            Ok(())
        }
    }
}

// What the branch has to expect where sets of this weight are looked for.
fn look_at(problem: &Problem, branch: &Branch, weight: u32) -> Outlook
    requires problem { IsProblem problem.now }
    requires branch { IsBranch problem.now branch.now }
    ensures { IsOutlook problem.now branch.now weight result }
{
    if !has_own(problem.conflicts, &branch.chosen) {
        return Outlook::Nothing;
    }
    if hits_each(problem.conflicts, &branch.chosen) {
        return Outlook::Whole;
    }
    if branch.place == problem.order.len() {
        return Outlook::Nothing;
    }
    let Some(least) = least_weight(problem, branch) else {
        return Outlook::Nothing;
    };
    if least > weight {
        return Outlook::Heavier(least);
    }
    Outlook::Open
}

// Adds the chosen set where it has the weight of the round, and lets the branch wait where it weighs more.
fn add_chosen(
    problem: &Problem,
    branch: &Branch,
    round: &Round,
    found: &mut Vec<Env>,
    later: &mut Vec<Waiting>,
) -> Result<(), AllocError>
    requires problem { IsProblem problem.now }
    requires branch { IsBranch problem.now branch.now }
    requires room { length found.old.items < round.now.limit }
    requires minimal { IsMinimalFor problem.now.conflicts.now (members branch.now.chosen) }
    ensures first { OnOk result (AddsFirst problem.now (IsOfRound problem.now branch.now round.now.weight) round.now.limit found.old.items found.new.items) }
    ensures rest { OnOk result (AddsHeavier problem.now (IsSought problem.now branch.now) round.now.weight later.old.items later.new.items) }
{
    let weight = weight_of(problem, &branch.chosen);
    if weight == round.weight {
        found.push(branch.chosen)?;
        return Ok(());
    }
    if weight > round.weight {
        later.push(Waiting {
            least: weight,
            branch: *branch,
        })?;
        return Ok(());
    }
    Ok(())
}
