// Bringing labels up to date with one assumption more: what follows is inferred until nothing waits.

ghost use Rattle.std.specs.Prelude.{IsTrue, ◌≡◌, ℕ, ◌^◌, ◌<◌, ◌++◌, [], List, filter, length, IfOk, IfErr, IfSome, IsSome, Some, map};
ghost use Rattle.std.specs.Option.{ForSome};
ghost use Rattle.environment_sets.specs.declared.environment.TheConstants.{SLOTS};
ghost use Rattle.environment_sets.specs.Members.{members, HasMember};
ghost use Rattle.environment_sets.specs.Sets.{◌∪◌, Hits};
ghost use Rattle.environment_sets.specs.Lists.{AreDistinct, IsIn};
ghost use Rattle.environment_sets.specs.Families.{IsCovered};
ghost use Rattle.antichains.specs.Completed.{Complete};
ghost use Rattle.circuit_model.specs.declared.model.Instance.{Instance};
ghost use Rattle.circuit_model.specs.declared.model.Assumption.TheVariants.{Part, Reading};
ghost use Rattle.propagation.specs.Uncovered.{Fits, TargetFits};
ghost use Rattle.propagation.specs.Propagating.{IsReached};
ghost use Rattle.labelled_nodes.specs.Nodes.{Labelled, facts_of, KeptIn, IsMet};
ghost use Rattle.label_engine.specs.Update.{item_at, items_at, items_to, is_next, ends_in, some_fact, goes_from_none, due_with, items_with, items_from, other_fact, made_by, HasUnions, HasUnionsWith, HasRecorded, HasSomeUses, HasMet, AreKeptAlike, IsPutThere, Propagates, DueAlso, IsAtHandAlso, HasComeAlso, CarriesOn, IsReady, BeginsUnions, IsSourceOf, IsUnion, union_of, AreKeptAt, IsAddedOrReached, Survives, before, IsAtRest, IsTakenBack, HasForgotten, GoesFromUnsupported, IsCompleting, StaysCompleting};
ghost use Rattle.inference_search.specs.declared.inferred.Inferred.{Inferred};
ghost use Rattle.inference_search.specs.Found.{AreFound, AreMadeBy};
ghost use Rattle.inference_search.specs.Inferences.{IsOnce};
ghost use Rattle.recorded_inferences.specs.Recorded.{AreWithout, GoesFrom};
ghost use Rattle.assumption_slots.specs.Slots.{stock};

use crate::insertion::Insertion;
use crate::recording::{is_target, needed_of, record_all};
use crate::sources::{is_passed, passed_for};
use assumption_slots::Slots;
use circuit_model::{Assumption, Fact};
use environment_sets::Env;
use inference_search::{Inferred, cells_near, cells_of, find_made_by, find_uses};
use label_algebra::Label;
use labelled_nodes::{Node, Nodes, has_support};
use propagation_agenda::{Agenda, Picker};
use recorded_inferences::Records;
use std::alloc::{AllocError, Global};

/// An environment that came to the label of a fact, with its source, and waits for the inferences from there.
#[derive(Clone, Copy)]
pub struct Arrival {
    pub fact: Fact,
    pub env: Env,
    pub source: Option<u16>,
}

/// An inference that is at hand, with an environment of one of its facts.
#[derive(Clone, Copy)]
pub struct Pending {
    pub inferred: Inferred,
    pub at: Fact,
    pub env: Env,
}

/// What is kept, what is due, what is at hand and what waits, while labels are brought up to date with the assumption at a
/// slot. Where nothing is under way, there is none of the last three.
#[derive(Drop)]
pub struct Update {
    pub slot: u16,
    pub nodes: Nodes,
    pub recorded: Records,
    pub due: Vec<Insertion>,
    pub work: Vec<Pending>,
    pub agenda: Agenda<Arrival>,
}

/// Slots with any of which the environment contains a nogood.
#[derive(Clone, Copy)]
pub struct Completing {
    pub env: Env,
    pub slots: Env,
}

/// Where the last union was found to be covered: the places of a member of the label, and of a nogood.
#[derive(Clone, Copy)]
struct LastCovers {
    member: usize,
    nogood: usize,
}

// Whether the inference leads to a clash, or, where it is asked for the others, to a value.
fn ends_in(inferred: &Inferred, clash: bool) -> bool
    ensures { result ≡ ends_in clash inferred.now.to }
{
    inferred.to.is_none() == clash
}

// Whether the inference leads to a clash, or to a value, and is not passed over.
fn is_next(inferred: &Inferred, passed: Option<u16>, clash: bool) -> bool
    ensures { result ≡ is_next passed clash inferred.now }
{
    ends_in(inferred, clash) && !is_passed(inferred, passed)
}

// Each of the inferences from the fact to a clash, or each to a value, is at hand with the environment that came, if it is not
// passed over.
fn bring_uses(
    work: &mut Vec<Pending>,
    uses: &[Inferred],
    arrival: &Arrival,
    passed: Option<u16>,
    clash: bool,
) -> Result<(), AllocError>
    ensures { IfOk result (λ _. work.new.items ≡ work.old.items ++ items_to passed clash arrival.now.fact arrival.now.env uses.now) }
{
    for inferred in uses {
        if is_next(inferred, passed, clash) {
            work.push(Pending {
                inferred: *inferred,
                at: arrival.fact,
                env: arrival.env,
            })?;
        }
    }
    Ok(())
}

// Each of the inferences from the fact that is not passed over is at hand with the environment that came. Clashes come last,
// and what came last is carried out first: so a clash is found before all that would be in vain after it.
fn bring_all(
    work: &mut Vec<Pending>,
    uses: &[Inferred],
    arrival: &Arrival,
    passed: Option<u16>,
) -> Result<(), AllocError>
    ensures { IfOk result (λ _. work.new.items ≡ work.old.items ++ items_at passed arrival.now.fact arrival.now.env uses.now) }
{
    bring_uses(work, uses, arrival, passed, false)?;
    bring_uses(work, uses, arrival, passed, true)
}

// What the inferences from no fact lead to is due, with the environment.
fn due_from_none(due: &mut Vec<Insertion>, found: &[Inferred], env: &Env) -> Result<(), AllocError>
    ensures { IfOk result (λ _. due.new.items ≡ due.old.items ++ map (due_with env.now) (filter goes_from_none found.now)) }
{
    for inferred in found {
        if fact_of(inferred).is_none() {
            due.push(Insertion {
                target: inferred.to,
                env: *env,
                source: None,
            })?;
        }
    }
    Ok(())
}

// One of the facts that the inference goes from.
fn fact_of(inferred: &Inferred) -> Option<Fact>
    ensures { result ≡ some_fact inferred.now }
{
    inferred.first.or(inferred.second)
}

// The inference is at hand with each environment of the label.
fn bring_with_each(
    work: &mut Vec<Pending>,
    inferred: &Inferred,
    at: &Fact,
    label: &Label,
) -> Result<(), AllocError>
    ensures { IfOk result (λ _. work.new.items ≡ work.old.items ++ map (λ e. item_at at.now e inferred.now) label.now) }
{
    for env in label.members() {
        work.push(Pending {
            inferred: *inferred,
            at: *at,
            env: *env,
        })?;
    }
    Ok(())
}

// The inference is at hand with each environment of one of its facts, if it goes from any.
fn bring_at_one(
    work: &mut Vec<Pending>,
    nodes: &Nodes,
    inferred: &Inferred,
) -> Result<(), AllocError>
    ensures { IfOk result (λ _. work.new.items ≡ work.old.items ++ items_with nodes.now.list inferred.now (some_fact inferred.now)) }
{
    let Some(fact) = fact_of(inferred) else {
        return Ok(());
    };
    match nodes.label(&fact) {
        Some(label) => bring_with_each(work, inferred, &fact, label),
        None => Ok(()),
    }
}

// The same for each of the inferences.
fn bring_at_each(
    work: &mut Vec<Pending>,
    nodes: &Nodes,
    found: &[Inferred],
) -> Result<(), AllocError>
    ensures { IfOk result (λ _. work.new.items ≡ work.old.items ++ items_from nodes.now.list found.now) }
{
    for inferred in found {
        bring_at_one(work, nodes, inferred)?;
    }
    Ok(())
}

// Of the facts that the inference goes from, the one other than this one.
fn other_of(inferred: &Inferred, fact: &Fact) -> Option<Fact>
    ensures { result ≡ other_fact inferred.now fact.now }
{
    if is_target(&inferred.first, &Some(*fact)) {
        inferred.second
    } else {
        inferred.first
    }
}

// The slot of the maker, if there is one.
fn made_by(maker: Option<u16>) -> Env
    requires { IfSome maker (λ slot. slot < SLOTS) }
    ensures { members result ≡ made_by maker }
{
    match maker {
        None => Env::empty(),
        Some(slot) => Env::empty().with(slot),
    }
}

// What all unions of the item have: its environment and the maker, at what the inference leads to.
fn begun_union(item: &Pending) -> Insertion
    requires { IfSome item.now.inferred.maker (λ slot. slot < SLOTS) }
    ensures { BeginsUnions item.now result }
{
    Insertion {
        target: item.inferred.to,
        env: item.env.union(made_by(item.inferred.maker)),
        source: None,
    }
}

// The same with another environment too.
fn union_with(begun: &Insertion, other: Env) -> Insertion
    ensures target { result.target ≡ begun.now.target }
    ensures joined { members result.env ≡ members begun.now.env ∪ members other }
{
    Insertion {
        target: begun.target,
        env: begun.env.union(other),
        source: None,
    }
}

// The item's maker, where the union is more than the item's environment and more than the other one.
fn source_of(item: &Pending, other: &Env, union: &Env) -> Option<u16>
    ensures { IfSome result (IsSourceOf item.now (members other.now) (members union.now)) }
{
    if union.is_subset(&item.env) || union.is_subset(other) {
        return None;
    }
    item.inferred.maker
}

// The union of the item with another environment, with its source.
fn sourced_union(item: &Pending, other: &Env, union: Insertion) -> Insertion
    requires target { union.target ≡ item.now.inferred.to }
    requires joined { members union.env ≡ union_of item.now (members other.now) }
    ensures { IsUnion item.now (members other.now) result }
{
    Insertion {
        source: source_of(item, other, &union.env),
        ..union
    }
}

// For proofs alone: the fields of a fact fit their types.
fn target_fits(target: &Option<Fact>)
    ensures { TargetFits target.now }
{
    if let Some(fact) = target {
        fact_fits(*fact);
    }
}

// For proofs alone: the same for a fact by value.
fn fact_fits(fact: Fact)
    ensures { Fits fact }
{
    let _fact = fact;
}

// For proofs alone: fewer than 2 ^ 64 environments wait, as they lie in memory.
fn length_fits(agenda: &Agenda<Arrival>)
    ensures { length agenda.now < 2 ^ 64 }
{
    let _length = agenda.len();
}

// For proofs alone: how many slots there are.
fn slots_fit(slots: &Slots)
    ensures { length slots.now ≡ SLOTS }
{
    let _count = slots.count();
}

// The label of the target, if it is a fact that was met.
fn label_at<'a>(nodes: &'a Nodes, target: &Option<Fact>) -> Option<&'a Label>
    ensures { IfSome result (λ l. AreKeptAt nodes.now target.now l.now) }
{
    match target {
        Some(fact) => nodes.label(fact),
        None => None,
    }
}

// No slots.
fn none_completing() -> Completing
    ensures { (slot : ℕ) (nodes : Labelled) → StaysCompleting slot nodes result }
{
    Completing {
        env: Env::empty(),
        slots: Env::empty(),
    }
}

// The slots also complete an environment that contains theirs. Of any other, none are known.
fn completing_with<'a>(completing: &'a Completing, env: &Env) -> Option<&'a Env>
    ensures { (es : List Env) → Complete (members completing.now.slots) (HasMember es) (members completing.now.env) → ForSome result (λ slots. Complete (members slots.now) (HasMember es) (members env.now)) }
{
    if completing.slots == Env::empty() || !completing.env.is_subset(env) {
        return None;
    }
    Some(&completing.slots)
}

// Whether an environment of the target's label, or a nogood, is a subset of the union with the other environment. Those that
// were found for the last union are tried first. With a slot that completes a nogood the union contains one, which most unions
// do that contain any. Then the nogoods are tried, which are few, and then the label.
fn is_covered(
    nodes: &Nodes,
    label: Option<&Label>,
    union: &Insertion,
    other: &Env,
    completing: Option<&Env>,
    last: &mut LastCovers,
) -> bool
    requires label { ForSome label (λ l. AreKeptAt nodes.now union.now.target l.now) }
    requires completing { ForSome completing (λ slots. Hits (members slots.now) (members other.now) → IsCovered (HasMember nodes.now.nogoods) (members union.now.env)) }
    ensures { IsTrue result → IsReached (KeptIn nodes.now) union.now.target (members union.now.env) }
{
    if let Some(label) = label {
        if label.covers_at(&union.env, last.member) {
            return true;
        }
    }
    if nodes.nogoods().covers_at(&union.env, last.nogood) {
        return true;
    }
    if let Some(slots) = completing {
        if slots.meets(other) {
            return true;
        }
    }
    if nodes.nogoods().covers_from(&union.env, &mut last.nogood) {
        return true;
    }
    match label {
        Some(label) => label.covers_from(&union.env, &mut last.member),
        None => false,
    }
}

// The item's union with the environment is due, where it is not reached.
fn add_union(
    due: &mut Vec<Insertion>,
    nodes: &Nodes,
    label: Option<&Label>,
    item: &Pending,
    begun: &Insertion,
    other: &Env,
    completing: Option<&Env>,
    last: &mut LastCovers,
) -> Result<(), AllocError>
    requires begun { BeginsUnions item.now begun.now }
    requires label { ForSome label (λ l. AreKeptAt nodes.now begun.now.target l.now) }
    requires completing { ForSome completing (λ slots. Complete (members slots.now) (HasMember nodes.now.nogoods) (members item.now.env)) }
    ensures { IfOk result (λ _. IsAddedOrReached item.now nodes.now (members other.now) due.old.items due.new.items) }
{
    let union = union_with(begun, *other);
    if is_covered(nodes, label, &union, other, completing, last) {
        return Ok(());
    }
    due.push(sourced_union(item, other, union))?;
    Ok(())
}

// The unions with each environment of the other fact's label are due, where they are not reached. Where an environment of
// the target's label lies in what they all have, each of them is reached: as where the fact was inferred by this very
// component from what it leads back to.
fn add_unions_with(
    due: &mut Vec<Insertion>,
    nodes: &Nodes,
    label: &Label,
    item: &Pending,
    completing: &Completing,
) -> Result<(), AllocError>
    requires maker { IfSome item.now.inferred.maker (λ slot. slot < SLOTS) }
    requires completing { IsCompleting nodes.now completing.now }
    ensures { IfOk result (λ _. HasUnionsWith item.now nodes.now label.now due.old.items due.new.items) }
{
    let begun = begun_union(item);
    let target = label_at(nodes, &begun.target);
    let mut last = LastCovers {
        member: 0,
        nogood: 0,
    };
    if let Some(kept) = target {
        if kept.covers_from(&begun.env, &mut last.member) {
            return Ok(());
        }
    }
    let completing = completing_with(completing, &item.env);
    for env in label.members() {
        add_union(due, nodes, target, item, &begun, env, completing, &mut last)?;
    }
    Ok(())
}

// The unions of the item with what is kept at the other fact, if there is one, are due, where they are not reached.
fn add_unions(
    due: &mut Vec<Insertion>,
    nodes: &Nodes,
    item: &Pending,
    completing: &Completing,
) -> Result<(), AllocError>
    requires maker { IfSome item.now.inferred.maker (λ slot. slot < SLOTS) }
    requires completing { IsCompleting nodes.now completing.now }
    ensures { IfOk result (λ _. HasUnions item.now nodes.now due.old.items due.new.items) }
{
    match other_of(&item.inferred, &item.at) {
        None => {
            let none = Env::empty();
            let union = union_with(&begun_union(item), none);
            due.push(sourced_union(item, &none, union))?;
            Ok(())
        }
        Some(fact) => match nodes.label(&fact) {
            Some(label) => add_unions_with(due, nodes, label, item, completing),
            None => Ok(()),
        },
    }
}

// The inferences from facts that no environment supports are recorded no more.
fn drop_unsupported_uses(recorded: &mut Records, nodes: &[Node])
    ensures { AreWithout (GoesFromUnsupported nodes.now) recorded.old recorded.new }
{
    for node in nodes {
        if !has_support(node) {
            recorded.drop_uses(&node.fact);
        }
    }
}

// The inferences that use the fact, from it and from facts that were met. The search is handed those that were met near the fact
// alone.
fn uses_of(
    alloc: Global,
    slots: &Slots,
    nodes: &Nodes,
    fact: &Fact,
) -> Result<Vec<Inferred>, AllocError>
    ensures exact { IfOk result (λ found. AreFound slots.now (facts_of nodes.now.list) fact.now found.items) }
    ensures once { IfOk result (λ found. (i : Inferred) → IsIn found.items i → IsOnce i) }
{
    let cells = cells_near(alloc, slots, fact.cell)?;
    let near = nodes.facts_at(alloc, &cells)?;
    find_uses(alloc, slots, &near, *fact)
}

// The inferences that the component at the slot makes from facts that were met. The search is handed those at the component's
// cells alone.
fn made_at(
    alloc: Global,
    slots: &Slots,
    nodes: &Nodes,
    slot: u16,
) -> Result<Vec<Inferred>, AllocError>
    requires { slot < SLOTS }
    ensures exact { IfOk result (λ found. AreMadeBy slots.now (facts_of nodes.now.list) slot found.items) }
    ensures once { IfOk result (λ found. (i : Inferred) → IsIn found.items i → IsOnce i) }
{
    let cells = cells_of(alloc, slots, slot)?;
    let near = nodes.facts_at(alloc, &cells)?;
    find_made_by(alloc, slots, &near, slot)
}

// Of the inferences that use the fact, those that are needed are recorded. After an error some of them are.
fn record_uses(
    recorded: &mut Records,
    alloc: Global,
    slots: &Slots,
    nodes: &Nodes,
    fact: &Fact,
) -> Result<(), AllocError>
    ensures ok { IfOk result (λ _. HasRecorded slots.now (facts_of nodes.now.list) fact.now recorded.old recorded.new) }
    ensures some { HasSomeUses slots.now fact.now recorded.old recorded.new }
{
    slots_fit(slots);
    let found = uses_of(alloc, slots, nodes, fact)?;
    let needed = needed_of(alloc, recorded, &found)?;
    record_all(recorded, &needed)
}

impl Update {
    // The fact is met, which it was not: of the inferences that use it, those that are needed are recorded. After an error
    // some of them are.
    fn try_to_meet(&mut self, alloc: Global, slots: &Slots, fact: &Fact) -> Result<(), AllocError>
        requires { IsMet self.old.nodes.list fact.now → ⊥ }
        ensures ok { IfOk result (λ _. HasMet slots.now fact.now self.old self.new) }
        ensures survives { Survives slots.now self.old self.new }
        ensures kept { AreKeptAlike self.old self.new }
    {
        record_uses(&mut self.recorded, alloc, slots, &self.nodes, fact)?;
        self.nodes.meet(alloc, fact)
    }

    // The same, but after an error none that uses the fact is recorded.
    fn meet(&mut self, alloc: Global, slots: &Slots, fact: &Fact) -> Result<(), AllocError>
        requires { IsMet self.old.nodes.list fact.now → ⊥ }
        ensures ok { IfOk result (λ _. HasMet slots.now fact.now self.old self.new) }
        ensures err { IfErr result (λ _. (i : Inferred) → IsIn self.new.recorded i → GoesFrom fact.now i → ⊥) }
        ensures survives { Survives slots.now self.old self.new }
        ensures kept { AreKeptAlike self.old self.new }
    {
        let outcome = self.try_to_meet(alloc, slots, fact);
        if outcome.is_err() {
            self.recorded.drop_uses(fact);
        }
        outcome
    }

    // What is due is put in. At a fact it waits for the inferences from there.
    fn put_there(&mut self, due: &Insertion) -> Result<(), AllocError>
        requires met { (f : Fact) → due.now.target ≡ Some f → IsMet self.old.nodes.list f }
        requires out { IsReached (KeptIn self.old.nodes) due.now.target (members due.now.env) → ⊥ }
        ensures ok { IfOk result (λ _. IsPutThere due.now self.old self.new) }
        ensures err { IfErr result (λ _. AreKeptAlike self.old self.new) }
        ensures recorded { self.new.recorded ≡ self.old.recorded }
        ensures met { facts_of self.new.nodes.list ≡ facts_of self.old.nodes.list }
        ensures slot { self.new.slot ≡ self.old.slot }
    {
        if let Some(fact) = &due.target {
            self.agenda.push(Arrival {
                fact: *fact,
                env: due.env,
                source: due.source,
            })?;
        }
        self.nodes.put(&due.target, &due.env)
    }

    // Where the target is a fact that was not met, it is met.
    fn meet_target(
        &mut self,
        alloc: Global,
        slots: &Slots,
        due: &Insertion,
    ) -> Result<(), AllocError>
        requires { DueAlso slots.now due.now self.old }
        ensures ok { IfOk result (λ _. IsReady slots.now due.now self.old self.new) }
        ensures survives { Survives slots.now self.old self.new }
        ensures kept { AreKeptAlike self.old self.new }
    {
        if let Some(fact) = &due.target {
            if !self.nodes.is_met(fact) {
                return self.meet(alloc, slots, fact);
            }
        }
        Ok(())
    }

    // What is due is put in, where it is not reached already.
    fn put_in(&mut self, alloc: Global, slots: &Slots, due: &Insertion) -> Result<(), AllocError>
        requires { DueAlso slots.now due.now self.old }
        ensures ok { IfOk result (λ _. CarriesOn slots.now self.old self.new) }
        ensures due_same { IfOk result (λ _. self.new.due.items ≡ self.old.due.items) }
        ensures work_same { IfOk result (λ _. self.new.work.items ≡ self.old.work.items) }
        ensures survives { Survives slots.now self.old self.new }
    {
        if self.nodes.reaches(&due.target, &due.env) {
            return Ok(());
        }
        self.meet_target(alloc, slots, due)?;
        self.put_there(due)?;
        target_fits(&due.target);
        length_fits(&self.agenda);
        Ok(())
    }

    // All that is due is put in.
    fn put_all_in(&mut self, alloc: Global, slots: &Slots) -> Result<(), AllocError>
        requires { Propagates slots.now self.old }
        ensures ok { IfOk result (λ _. CarriesOn slots.now self.old self.new) }
        ensures none_due { IfOk result (λ _. self.new.due.items ≡ []) }
        ensures work_same { IfOk result (λ _. self.new.work.items ≡ self.old.work.items) }
        ensures survives { Survives slots.now self.old self.new }
    {
        while let Some(due) = self.due.pop() {
            self.put_in(alloc, slots, &due)?;
        }
        Ok(())
    }

    // What is at hand is carried out: its unions are due, and all that is due is put in.
    fn carry_out(
        &mut self,
        alloc: Global,
        slots: &Slots,
        item: &Pending,
        completing: &Completing,
    ) -> Result<(), AllocError>
        requires at_hand { IsAtHandAlso slots.now item.now self.old }
        requires completing { StaysCompleting self.old.slot self.old.nodes completing.now }
        ensures ok { IfOk result (λ _. CarriesOn slots.now self.old self.new) }
        ensures none_due { IfOk result (λ _. self.new.due.items ≡ []) }
        ensures work_same { IfOk result (λ _. self.new.work.items ≡ self.old.work.items) }
        ensures survives { Survives slots.now self.old self.new }
    {
        slots_fit(slots);
        add_unions(&mut self.due, &self.nodes, item, completing)?;
        self.put_all_in(alloc, slots)
    }

    // All that is at hand is carried out, the last first.
    fn work_off(
        &mut self,
        alloc: Global,
        slots: &Slots,
        completing: &Completing,
    ) -> Result<(), AllocError>
        requires propagates { Propagates slots.now self.old }
        requires completing { StaysCompleting self.old.slot self.old.nodes completing.now }
        requires none_due { self.old.due.items ≡ [] }
        ensures ok { IfOk result (λ _. CarriesOn slots.now self.old self.new) }
        ensures none_due { IfOk result (λ _. self.new.due.items ≡ []) }
        ensures none_at_hand { IfOk result (λ _. self.new.work.items ≡ []) }
        ensures survives { Survives slots.now self.old self.new }
    {
        while let Some(item) = self.work.pop() {
            self.carry_out(alloc, slots, &item, completing)?;
        }
        Ok(())
    }

    // The slots with any of which the environment contains a nogood that lacks the assumption's slot. Such a nogood stays until
    // all is up to date.
    fn completing(&self, env: &Env) -> Completing
        requires { self.now.slot < SLOTS }
        ensures { StaysCompleting self.now.slot self.now.nodes result }
    {
        Completing {
            env: *env,
            slots: self.nodes.nogoods().completing(env, self.slot),
        }
    }

    // An environment that came is carried out with each inference from its fact, but for those that lead back to its source.
    fn bring_in(
        &mut self,
        alloc: Global,
        slots: &Slots,
        arrival: &Arrival,
    ) -> Result<(), AllocError>
        requires below { self.old.slot < SLOTS }
        requires came { HasComeAlso slots.now arrival.now self.old }
        requires none_due { self.old.due.items ≡ [] }
        ensures ok { IfOk result (λ _. CarriesOn slots.now self.old self.new) }
        ensures none_due { IfOk result (λ _. self.new.due.items ≡ []) }
        ensures none_at_hand { IfOk result (λ _. self.new.work.items ≡ []) }
        ensures survives { Survives slots.now self.old self.new }
    {
        slots_fit(slots);
        let passed = passed_for(slots, arrival.source);
        let completing = self.completing(&arrival.env);
        let mut uses = Vec::new(alloc);
        self.recorded.uses(&mut uses, &arrival.fact)?;
        bring_all(&mut self.work, &uses, arrival, passed)?;
        self.work_off(alloc, slots, &completing)
    }

    // What begins is carried out, and then what came, in the picker's order, until nothing waits.
    fn settle<P: Picker>(
        &mut self,
        alloc: Global,
        slots: &Slots,
        picker: &mut P,
    ) -> Result<(), AllocError>
        requires below { self.old.slot < SLOTS }
        requires propagates { Propagates slots.now self.old }
        requires once { AreDistinct (facts_of self.old.nodes.list) }
        ensures ok { IfOk result (λ _. IsAtRest (stock slots.now) self.new) }
        ensures survives { Survives slots.now self.old self.new }
    {
        self.put_all_in(alloc, slots)?;
        self.work_off(alloc, slots, &none_completing())?;
        'picks: while !self.agenda.is_empty() {
            let place = picker.pick(self.agenda.len());
            let arrival = self.agenda.take_at(place);
            self.bring_in(alloc, slots, &arrival)?;
        }
        Ok(())
    }

    // A reading begins: its own environment is due at its fact.
    fn begin_reading(&mut self, slots: &Slots, fact: &Fact) -> Result<(), AllocError>
        requires below { self.old.slot < SLOTS }
        requires reads { stock slots.now self.old.slot ≡ Some (Reading fact.now) }
        requires before { IsAtRest (before slots.now self.old.slot) self.old }
        ensures ok { IfOk result (λ _. Propagates slots.now self.new) }
        ensures survives { Survives slots.now self.old self.new }
    {
        let first = Insertion {
            target: Some(*fact),
            env: made_by(Some(self.slot)),
            source: None,
        };
        self.due.push(first)?;
        Ok(())
    }

    // A component begins: of its inferences, those that are needed are recorded. What they lead to from no fact is due, and
    // the others are at hand with each environment of one of their facts.
    fn begin_part(&mut self, alloc: Global, slots: &Slots) -> Result<(), AllocError>
        requires below { self.old.slot < SLOTS }
        requires works { (part : List Instance) × (stock slots.now self.old.slot ≡ Some (Part part)) }
        requires before { IsAtRest (before slots.now self.old.slot) self.old }
        ensures ok { IfOk result (λ _. Propagates slots.now self.new) }
        ensures survives { Survives slots.now self.old self.new }
    {
        slots_fit(slots);
        let found = made_at(alloc, slots, &self.nodes, self.slot)?;
        let needed = needed_of(alloc, &self.recorded, &found)?;
        record_all(&mut self.recorded, &needed)?;
        let env = made_by(Some(self.slot));
        due_from_none(&mut self.due, &needed, &env)?;
        bring_at_each(&mut self.work, &self.nodes, &needed)
    }

    // The assumption at the slot begins.
    fn begin(&mut self, alloc: Global, slots: &Slots) -> Result<(), AllocError>
        requires below { self.old.slot < SLOTS }
        requires there { IsSome (stock slots.now self.old.slot) }
        requires before { IsAtRest (before slots.now self.old.slot) self.old }
        ensures ok { IfOk result (λ _. Propagates slots.now self.new) }
        ensures survives { Survives slots.now self.old self.new }
    {
        match slots.at(self.slot).unwrap() {
            Assumption::Reading(fact) => self.begin_reading(slots, fact),
            Assumption::Part(_) => self.begin_part(alloc, slots),
        }
    }

    // The assumption at the slot is worked in, until nothing waits.
    fn work_in<P: Picker>(
        &mut self,
        alloc: Global,
        slots: &Slots,
        picker: &mut P,
    ) -> Result<(), AllocError>
        requires below { self.old.slot < SLOTS }
        requires there { IsSome (stock slots.now self.old.slot) }
        requires before { IsAtRest (before slots.now self.old.slot) self.old }
        ensures ok { IfOk result (λ _. IsAtRest (stock slots.now) self.new) }
        ensures survives { Survives slots.now self.old self.new }
    {
        self.begin(alloc, slots)?;
        self.settle(alloc, slots, picker)
    }

    /// The assumption at the slot is worked in. After an error all is as without it.
    pub fn assume<P: Picker>(
        &mut self,
        alloc: Global,
        slots: &Slots,
        picker: &mut P,
    ) -> Result<(), AllocError>
        requires below { self.old.slot < SLOTS }
        requires there { IsSome (stock slots.now self.old.slot) }
        requires before { IsAtRest (before slots.now self.old.slot) self.old }
        ensures ok { IfOk result (λ _. IsAtRest (stock slots.now) self.new) }
        ensures err { IfErr result (λ _. IsTakenBack slots.now self.old self.new) }
    {
        let outcome = self.work_in(alloc, slots, picker);
        if outcome.is_err() {
            self.due.clear();
            self.work.clear();
            self.agenda.clear();
            self.forget(self.slot);
        }
        outcome
    }

    /// What has the slot goes, and so do the facts that no environment supports any more, the inferences from them and
    /// those that the slot made.
    pub fn forget(&mut self, slot: u16)
        requires { slot < SLOTS }
        ensures { HasForgotten slot self.old self.new }
    {
        self.nodes.drop_slot(slot);
        self.recorded.drop_made_by(slot);
        drop_unsupported_uses(&mut self.recorded, self.nodes.list());
        self.nodes.drop_unsupported();
    }
}
