// Inferences that are recorded no more, and nodes that no inference names.
ghost use Rattle.std.specs.Prelude.{◌≡◌, IsSome, Some};
ghost use Rattle.justifications.specs.Woven.{fact_at, inferred_at};
ghost use Rattle.recorded_inferences.specs.Recorded.{AreSame, AreWithout, GoesFrom, recorded_in};
ghost use Rattle.recorded_inferences.specs.Dropped.{AreToldAlike, IsLess};

use crate::telling::told;
use circuit_model::Fact;
use justifications::{JustId, NodeId, Target, Weave};

// The node is dropped, where no recorded inference names it.
fn drop_unnamed(weave: &mut Weave, node: NodeId)
    requires { IsSome (fact_at weave.old node.place) }
    ensures { AreToldAlike weave.old weave.new }
{
    weave.laws();
    let None = weave.first_use(node) else {
        return;
    };
    let None = weave.first_support(Target::Node(node)) else {
        return;
    };
    weave.drop_node(node);
}

/// The node of the fact is dropped, where there is a fact, it has a node, and no recorded inference names that.
pub fn drop_idle(weave: &mut Weave, fact: Option<Fact>)
    ensures recorded { AreSame (recorded_in weave.old) (recorded_in weave.new) }
    ensures inferences { weave.new.inferences ≡ weave.old.inferences }
    ensures alike { AreToldAlike weave.old weave.new }
{
    let Some(fact) = fact else {
        return;
    };
    let Some(node) = weave.find(&fact) else {
        return;
    };
    drop_unnamed(weave, node);
}

// The inference is recorded no more, nor are the nodes kept that it alone named.
fn remove(weave: &mut Weave, just: JustId)
    requires { IsSome (inferred_at weave.old just.place) }
    ensures { IsLess weave.old weave.new just.place }
{
    weave.laws();
    let gone = told(weave, weave.get(just));
    weave.remove(just);
    drop_idle(weave, gone.first);
    drop_idle(weave, gone.second);
    drop_idle(weave, gone.to);
}

/// Exactly the inferences that the slot's component makes are recorded no more, nor are nodes kept that no inference names
/// any more, in a walk over these inferences alone.
pub fn drop_made_by(weave: &mut Weave, slot: u16)
    ensures { AreWithout (λ i. i.maker ≡ Some slot) (recorded_in weave.old) (recorded_in weave.new) }
{
    while let Some(just) = weave.first_made(slot) {
        weave.laws();
        remove(weave, just);
    }
    weave.laws();
}

/// Exactly the inferences that go from the fact are recorded no more, nor are nodes kept that no inference names any more,
/// in a walk over these inferences alone.
pub fn drop_uses(weave: &mut Weave, fact: &Fact)
    ensures { AreWithout (GoesFrom fact.now) (recorded_in weave.old) (recorded_in weave.new) }
{
    weave.laws();
    let Some(node) = weave.find(fact) else {
        return;
    };
    while let Some(just) = weave.first_use(node) {
        weave.laws();
        remove(weave, just);
    }
    weave.laws();
}
