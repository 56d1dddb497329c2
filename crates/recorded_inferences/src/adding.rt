// One inference more.
ghost use Rattle.std.specs.Prelude.{◌≡◌, ◌<◌, ℕ, IfErr, IfOk, IfSome, IsSome, None, Some};
ghost use Rattle.environment_sets.specs.declared.environment.TheConstants.{SLOTS};
ghost use Rattle.circuit_model.specs.declared.model.Fact.{Fact};
ghost use Rattle.justifications.specs.Woven.{fact_at, number_of, IsFit, IsThere};
ghost use Rattle.inference_search.specs.Inferences.{IsOnce};
ghost use Rattle.recorded_inferences.specs.Recorded.{AreSame, AreWith, fact_of, fact_led_to, recorded_in, told};

use circuit_model::Fact;
use inference_search::Inferred;
use justifications::{Inferred as Linked, NodeId, Target, Weave};
use std::alloc::AllocError;

// The node of the fact, if there is one. It is made where it has none.
fn node_for(weave: &mut Weave, fact: Option<Fact>) -> Result<Option<NodeId>, AllocError>
    ensures told { IfOk result (λ n. fact_of weave.new (number_of n) ≡ fact) }
    ensures there { IfOk result (λ n. IfSome n (λ n. IsSome (fact_at weave.new n.place))) }
    ensures stay { (n : ℕ) (f : Fact) → fact_at weave.old n ≡ Some f → fact_at weave.new n ≡ Some f }
    ensures inferences { weave.new.inferences ≡ weave.old.inferences }
{
    match fact {
        None => Ok(None),
        Some(fact) => {
            let node = weave.node_of(fact)?;
            Ok(Some(node))
        }
    }
}

// The target with the fact, or a clash where there is none.
fn target_for(weave: &mut Weave, fact: Option<Fact>) -> Result<Target, AllocError>
    ensures told { IfOk result (λ t. fact_led_to weave.new t ≡ fact) }
    ensures there { IfOk result (λ t. IsThere weave.new t) }
    ensures stay { (n : ℕ) (f : Fact) → fact_at weave.old n ≡ Some f → fact_at weave.new n ≡ Some f }
    ensures inferences { weave.new.inferences ≡ weave.old.inferences }
{
    match fact {
        None => Ok(Target::Clash),
        Some(fact) => {
            let node = weave.node_of(fact)?;
            Ok(Target::Node(node))
        }
    }
}

// The inference between the nodes of its facts.
fn linked(weave: &mut Weave, inferred: Inferred) -> Result<Linked, AllocError>
    requires once { IsOnce inferred }
    requires maker { IfSome inferred.maker (λ slot. slot < SLOTS) }
    ensures fit { IfOk result (λ x. IsFit weave.new x) }
    ensures told { IfOk result (λ x. told weave.new x ≡ inferred) }
    ensures stay { (n : ℕ) (f : Fact) → fact_at weave.old n ≡ Some f → fact_at weave.new n ≡ Some f }
    ensures inferences { weave.new.inferences ≡ weave.old.inferences }
{
    let first = node_for(weave, inferred.first)?;
    let second = node_for(weave, inferred.second)?;
    let to = target_for(weave, inferred.to)?;
    Ok(Linked {
        from: [first, second],
        to,
        maker: inferred.maker,
    })
}

/// One inference more is recorded. After an error the same are recorded, and some of its facts may have nodes more.
pub fn note(weave: &mut Weave, inferred: Inferred) -> Result<(), AllocError>
    requires once { IsOnce inferred }
    requires maker { IfSome inferred.maker (λ slot. slot < SLOTS) }
    ensures ok { IfOk result (λ _. AreWith inferred (recorded_in weave.old) (recorded_in weave.new)) }
    ensures err { IfErr result (λ _. AreSame (recorded_in weave.old) (recorded_in weave.new)) }
{
    weave.laws();
    let linked = linked(weave, inferred)?;
    weave.note(linked)?;
    Ok(())
}
