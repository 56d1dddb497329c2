// Nodes and recorded inferences: found, walked, dropped, and their numbers used again.
ghost use Rattle.std.specs.Prelude.{◌≡◌, ◌<◌, ℕ, IsSome, IfOk};
ghost use Rattle.justifications.specs.Woven.{fact_at, inferred_at, IsThere};

use circuit_model::{Cell, Fact};
use justifications::{Inferred, JustId, NodeId, Target, Weave};
use std::alloc::AllocError;
use std::test::Fail;

// The word at cycle 0 of the net.
fn word(net: u16, value: u64) -> Fact
    ensures { result ≡ record { cell = record { net = net; cycle = 0 }; value = value } }
{
    Fact {
        cell: Cell { net, cycle: 0 },
        value,
    }
}

// The node of the word at cycle 0 of the net.
fn node(weave: &mut Weave, net: u16, value: u64) -> Result<NodeId, AllocError>
    requires { net < 256 }
    ensures there { IfOk result (λ n. IsSome (fact_at weave.new n.place)) }
    ensures stay { (k : ℕ) → IsSome (fact_at weave.old k) → IsSome (fact_at weave.new k) }
{
    weave.node_of(word(net, value))
}

// An inference from one node.
fn one(weave: &mut Weave, from: NodeId, to: Target, maker: u16) -> Result<JustId, AllocError>
    requires slot { maker < 1024 }
    requires from { IsSome (fact_at weave.old from.place) }
    requires to { IsThere weave.old to }
    ensures noted { IfOk result (λ j. IsSome (inferred_at weave.new j.place)) }
    ensures stay { (k : ℕ) → IsSome (fact_at weave.old k) → IsSome (fact_at weave.new k) }
{
    weave.note(Inferred {
        from: [Some(from), None],
        to,
        maker: Some(maker),
    })
}

// An inference from two nodes.
fn two(
    weave: &mut Weave,
    from: NodeId,
    and: NodeId,
    to: Target,
    maker: u16,
) -> Result<JustId, AllocError>
    requires slot { maker < 1024 }
    requires from { IsSome (fact_at weave.old from.place) }
    requires and { IsSome (fact_at weave.old and.place) }
    requires to { IsThere weave.old to }
    ensures noted { IfOk result (λ j. IsSome (inferred_at weave.new j.place)) }
    ensures stay { (k : ℕ) → IsSome (fact_at weave.old k) → IsSome (fact_at weave.new k) }
{
    if from.place == and.place {
        return Err(AllocError);
    }
    weave.note(Inferred {
        from: [Some(from), Some(and)],
        to,
        maker: Some(maker),
    })
}

// The second inference that goes from the node.
fn second_use(weave: &Weave, node: NodeId) -> Option<JustId> {
    let first = weave.first_use(node)?;
    weave.next_use(node, first)
}

// The second inference that leads to the same.
fn second_support(weave: &Weave, target: Target) -> Option<JustId>
    requires { IsThere weave.now target }
{
    weave.laws();
    let first = weave.first_support(target)?;
    weave.next_support(first)
}

// The second inference that the slot's component makes.
fn second_made(weave: &Weave, slot: u16) -> Option<JustId> {
    weave.laws();
    let first = weave.first_made(slot)?;
    weave.next_made(first)
}

// Drops what the slot's component makes.
fn drop_made_by(weave: &mut Weave, slot: u16)
    ensures { (k : ℕ) → IsSome (fact_at weave.old k) → IsSome (fact_at weave.new k) }
{
    weave.drop_made_by(slot);
}

// Drops what goes from the node.
fn drop_uses(weave: &mut Weave, node: NodeId)
    ensures { (k : ℕ) → IsSome (fact_at weave.old k) → IsSome (fact_at weave.new k) }
{
    weave.drop_uses(node);
}

// Drops the node, if no inference names it.
fn drop_unused(weave: &mut Weave, node: NodeId) -> bool
    requires { IsSome (fact_at weave.old node.place) }
{
    if weave.first_use(node).is_some() || weave.first_support(Target::Node(node)).is_some() {
        return false;
    }
    weave.drop_node(node);
    true
}

// Two words at net 1 and one at net 2: each is found, and the walk over net 1 has the later one first.
fn nodes_are_found(weave: &mut Weave) -> Result<bool, AllocError> {
    if weave.find(&word(1, 5)).is_some() {
        return Ok(false);
    }
    let low = node(weave, 1, 5)?;
    let high = node(weave, 1, 6)?;
    let other = node(weave, 2, 5)?;
    let again = node(weave, 1, 5)?;
    Ok(
        again == low
            && weave.find(&word(1, 6)) == Some(high)
            && weave.fact_of(other) == word(2, 5)
            && weave.first_at(word(1, 0).cell) == Some(high)
            && weave.next_at(high) == Some(low)
            && weave.next_at(low).is_none()
            && weave.first_at(word(3, 0).cell).is_none(),
    )
}

// From nets 1 and 2 to net 3 by slot 7, from net 1 to a clash by slot 8, from net 3 to net 1 by slot 7.
fn inferences_are_walked(weave: &mut Weave) -> Result<bool, AllocError> {
    let a = node(weave, 1, 0)?;
    let b = node(weave, 2, 0)?;
    let c = node(weave, 3, 0)?;
    let sum = two(weave, a, b, Target::Node(c), 7)?;
    let clash = one(weave, a, Target::Clash, 8)?;
    let back = one(weave, c, Target::Node(a), 7)?;
    Ok(
        weave.first_use(a) == Some(clash)
            && second_use(weave, a) == Some(sum)
            && weave.first_use(b) == Some(sum)
            && second_use(weave, b).is_none()
            && weave.first_support(Target::Clash) == Some(clash)
            && second_support(weave, Target::Clash).is_none()
            && weave.first_support(Target::Node(a)) == Some(back)
            && weave.first_made(7) == Some(back)
            && second_made(weave, 7) == Some(sum)
            && weave.get(back).to == Target::Node(a),
    )
}

// The same, and then slot 7 is dropped: what slot 8 makes is left, and one more inference has a name that was dropped.
fn a_maker_is_dropped(weave: &mut Weave) -> Result<bool, AllocError> {
    let a = node(weave, 1, 0)?;
    let b = node(weave, 2, 0)?;
    let c = node(weave, 3, 0)?;
    let sum = two(weave, a, b, Target::Node(c), 7)?;
    let clash = one(weave, a, Target::Clash, 8)?;
    let back = one(weave, c, Target::Node(a), 7)?;
    drop_made_by(weave, 7);
    if weave.first_made(7).is_some()
        || weave.first_use(b).is_some()
        || weave.first_use(c).is_some()
    {
        return Ok(false);
    }
    if weave.first_use(a) != Some(clash) || weave.first_made(8) != Some(clash) {
        return Ok(false);
    }
    let more = one(weave, b, Target::Clash, 9)?;
    Ok((more == sum || more == back) && weave.remove(more).maker == Some(9))
}

// A node is dropped once nothing goes from it, and its number is used again.
fn a_node_is_dropped(weave: &mut Weave) -> Result<bool, AllocError> {
    let a = node(weave, 1, 0)?;
    let b = node(weave, 2, 0)?;
    let clash = two(weave, b, a, Target::Clash, 7)?;
    if weave.first_use(a) != Some(clash) {
        return Ok(false);
    }
    drop_uses(weave, a);
    if weave.first_use(b).is_some() {
        return Ok(false);
    }
    if !drop_unused(weave, a) {
        return Ok(false);
    }
    if weave.find(&word(1, 0)).is_some() || weave.first_at(word(1, 0).cell).is_some() {
        return Ok(false);
    }
    Ok(node(weave, 4, 1)? == a)
}

#[test]
fn each_fact_has_one_node(rt: HostRuntime) -> Result<(), Fail> {
    let mut weave = Weave::new(rt.alloc());
    assert_eq!(rt; nodes_are_found(&mut weave), Ok(true));
    Ok(())
}

#[test]
fn chains_lead_to_what_is_recorded(rt: HostRuntime) -> Result<(), Fail> {
    let mut weave = Weave::new(rt.alloc());
    assert_eq!(rt; inferences_are_walked(&mut weave), Ok(true));
    Ok(())
}

#[test]
fn what_a_maker_made_is_dropped(rt: HostRuntime) -> Result<(), Fail> {
    let mut weave = Weave::new(rt.alloc());
    assert_eq!(rt; a_maker_is_dropped(&mut weave), Ok(true));
    Ok(())
}

#[test]
fn a_number_is_used_again(rt: HostRuntime) -> Result<(), Fail> {
    let mut weave = Weave::new(rt.alloc());
    assert_eq!(rt; a_node_is_dropped(&mut weave), Ok(true));
    Ok(())
}
