// How many environments all labels have.

ghost use Rattle.std.specs.Prelude.{◌≡◌, ◌+◌, ◌-◌, ◌^◌, ℕ, IfSome, Some, min};
ghost use Rattle.environment_sets.specs.Lists.{AreDistinct, IsIn};
ghost use Rattle.environment_sets.specs.Members.{members, sets};
ghost use Rattle.environment_sets.specs.Sets.{◌∪◌};
ghost use Rattle.labelled_nodes.specs.declared.node.Node.{Node};
ghost use Rattle.labelled_nodes.specs.Nodes.{facts_of};
ghost use Rattle.labelled_nodes.specs.Counted.{ArePairs, IsMoved, count_in};

use crate::node::Node;
use environment_sets::Env;

/// What all environments of all labels have together, or more, and how many there are, where that is known.
#[derive(Clone, Copy)]
pub struct Whole {
    pub reach: Env,
    pub count: Option<u64>,
}

// The count, where one label has as many as it has after and not as many as before.
fn moved(count: Option<u64>, before: usize, after: usize) -> Option<u64>
    ensures { IfSome result (IsMoved count before after) }
{
    let Some(count) = count else {
        return None;
    };
    let Some(others) = count.checked_sub(before as u64) else {
        return None;
    };
    others.checked_add(after as u64)
}

impl Whole {
    /// The same where an environment came to a label, which has as many as it has after and not as many as before.
    pub fn changed(self, env: &Env, before: usize, after: usize) -> Whole
        ensures reach { members result.reach ≡ members self.reach ∪ members env.now }
        ensures count { IfSome result.count (IsMoved self.count before after) }
    {
        Whole {
            reach: self.reach.union(*env),
            count: moved(self.count, before, after),
        }
    }
}

// How many are counted with those of one label more.
fn counted_with(count: Option<u64>, more: usize) -> Option<u64>
    ensures { IfSome result (λ n. (k : ℕ) × (count ≡ Some k) × (n ≡ k + more)) }
{
    match count {
        Some(count) => count.checked_add(more as u64),
        None => None,
    }
}

/// How many environments the labels of all nodes have, where 64 bits can say it.
pub fn count_all(nodes: &[Node]) -> Option<u64>
    ensures counted { IfSome result (λ n. n ≡ count_in nodes.now) }
    ensures once { (n : Node) → IsIn nodes.now n → AreDistinct (sets n.label) }
{
    let mut count = Some(0);
    for node in nodes {
        count = counted_with(count, node.label.members().len());
    }
    count
}

/// How many pairs of a fact and an environment of its label are inside the mask; or 18,446,744,073,709,551,615, where there are
/// more.
pub fn count_pairs(nodes: &[Node], mask: &Env) -> u64
    requires { AreDistinct (facts_of nodes.now) }
    ensures { (n : ℕ) × ArePairs nodes.now (members mask.now) n × (result ≡ min n (2 ^ 64 - 1)) }
{
    let mut count: u64 = 0;
    for node in nodes {
        count = count.saturating_add(node.label.count_inside(mask) as u64);
    }
    count
}
