// Branches that wait for the rounds to come.
ghost use Rattle.std.specs.Prelude.{◌≡◌};
ghost use Rattle.first_diagnoses.specs.Waits.{IsLeastOf, lesser_of};

use crate::branch::Branch;

/// A branch that waits, and at most the weight of each of its minimal hitting sets.
#[derive(Clone, Copy)]
pub struct Waiting {
    pub least: u32,
    pub branch: Branch,
}

/// The least of the bounds of the branches, where there is a branch.
pub fn least_of(waiting: &[Waiting]) -> Option<u32>
    ensures { IsLeastOf waiting.now result }
{
    let mut least = None;
    for item in waiting {
        least = Some(lesser(least, item.least));
    }
    least
}

// The lesser of two weights, where there are two.
fn lesser(least: Option<u32>, other: u32) -> u32
    ensures { result ≡ lesser_of least other }
{
    match least {
        Some(weight) => weight.min(other),
        None => other,
    }
}
