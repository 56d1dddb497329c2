// What is told of inferences between nodes.
ghost use Rattle.std.specs.Prelude.{◌≡◌, [], IfOk, IfSome, IsSome, Some};
ghost use Rattle.circuit_model.specs.declared.model.Fact.{Fact};
ghost use Rattle.justifications.specs.Woven.{fact_at, number_of, IsFit, IsThere};
ghost use Rattle.recorded_inferences.specs.Recorded.{AreUses, fact_of, fact_led_to, recorded_in, told};

use circuit_model::Fact;
use inference_search::Inferred;
use justifications::{Inferred as Linked, NodeId, Target, Weave};
use std::alloc::AllocError;

// The fact of the node, if there is one.
fn fact_of(weave: &Weave, node: Option<NodeId>) -> Option<Fact>
    requires { IfSome node (λ n. IsSome (fact_at weave.now n.place)) }
    ensures { result ≡ fact_of weave.now (number_of node) }
{
    match node {
        Some(node) => Some(weave.fact_of(node)),
        None => None,
    }
}

// The fact that is led to, or none where it is a clash.
fn fact_led_to(weave: &Weave, to: Target) -> Option<Fact>
    requires { IsThere weave.now to }
    ensures { result ≡ fact_led_to weave.now to }
{
    match to {
        Target::Node(node) => Some(weave.fact_of(node)),
        Target::Clash => None,
    }
}

/// The inference, told by its facts.
pub fn told(weave: &Weave, inferred: Linked) -> Inferred
    requires { IsFit weave.now inferred }
    ensures { result ≡ told weave.now inferred }
{
    Inferred {
        first: fact_of(weave, inferred.from[0]),
        second: fact_of(weave, inferred.from[1]),
        to: fact_led_to(weave, inferred.to),
        maker: inferred.maker,
    }
}

// The list, which is empty, becomes the recorded inferences that go from the fact of the node, in a walk over them alone.
fn walk_uses(weave: &Weave, found: &mut Vec<Inferred>, node: NodeId) -> Result<(), AllocError>
    requires { found.old.items ≡ [] }
    ensures { IfOk result (λ _. (fact : Fact) → fact_at weave.now node.place ≡ Some fact → AreUses (recorded_in weave.now) fact found.new.items) }
{
    weave.laws();
    let mut next = weave.first_use(node);
    while let Some(just) = next {
        let inferred = weave.get(just);
        found.push(told(weave, inferred))?;
        next = weave.next_use(node, just);
    }
    Ok(())
}

/// The list becomes the recorded inferences that go from the fact, in a walk over them alone.
pub fn uses_in(weave: &Weave, found: &mut Vec<Inferred>, fact: &Fact) -> Result<(), AllocError>
    ensures { IfOk result (λ _. AreUses (recorded_in weave.now) fact.now found.new.items) }
{
    found.clear();
    let Some(node) = weave.find(fact) else {
        return Ok(());
    };
    walk_uses(weave, found, node)
}
