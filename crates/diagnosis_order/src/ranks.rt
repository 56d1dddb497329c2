// Environments by cost.
ghost use Rattle.std.specs.Prelude.{◌≡◌, ◌↔◌, ℕ, ◌<◌, IsTrue, IfOk, if◌then◌else◌, length, map};
ghost use Rattle.std.specs.List.Sorted.{IsPermutation, IsSortedBy};
ghost use Rattle.environment_sets.specs.declared.environment.TheConstants.{SLOTS};
ghost use Rattle.environment_sets.specs.Members.{members, sets, HasMember};
ghost use Rattle.environment_sets.specs.Lists.{IsIn, AreDistinct, IsListing};
ghost use Rattle.environment_sets.specs.Orders.{ListsAll, IsOrder};
ghost use Rattle.environment_sets.specs.Costs.{cost_in, ComesBeforeByCost, ListsEach};
ghost use Rattle.diagnosis_order.specs.Ranks.{ranked_of, compare_ranks, is_before};

use environment_sets::Env;
use std::alloc::{AllocError, Global};
use std::cmp::Ordering;

// An environment with its cost.
#[derive(Clone, Copy)]
struct Ranked {
    cost: u32,
    set: Env,
}

// The environments, by cost and then in the order.
pub fn in_order(
    alloc: Global,
    environments: &[Env],
    order: &[u16],
    costs: &[u8],
) -> Result<Vec<Env>, AllocError>
    requires slots { IsOrder SLOTS order.now }
    requires listed { ListsEach order.now (HasMember environments.now) }
    requires costs { length costs.now ≡ length order.now }
    requires distinct { AreDistinct (sets environments.now) }
    ensures listing { IfOk result (λ found. IsListing (ComesBeforeByCost order.now costs.now) (HasMember environments.now) (sets found.items)) }
    ensures many { IfOk result (λ found. length found.items ≡ length environments.now) }
{
    let mut ranked = with_costs(alloc, environments, order, costs)?;
    sort(&mut ranked, order, &slots_of(order));
    environments_of(alloc, &ranked)
}

// Each environment with its cost.
fn with_costs(
    alloc: Global,
    environments: &[Env],
    order: &[u16],
    costs: &[u8],
) -> Result<Vec<Ranked>, AllocError>
    requires slots { IsOrder SLOTS order.now }
    requires listed { ListsEach order.now (HasMember environments.now) }
    requires costs { length costs.now ≡ length order.now }
    ensures { IfOk result (λ ranked. ranked.items ≡ map (ranked_of order.now costs.now) environments.now) }
{
    let mut ranked = Vec::with_capacity(alloc, environments.len())?;
    for set in environments {
        let cost = cost_of(order, costs, set);
        ranked.push(Ranked { cost, set: *set })?;
    }
    Ok(ranked)
}

// The environments alone.
fn environments_of(alloc: Global, ranked: &[Ranked]) -> Result<Vec<Env>, AllocError>
    ensures { IfOk result (λ found. found.items ≡ map (λ r. r.set) ranked.now) }
{
    ranked.iter().map(|ranked| ranked.set).collect(alloc)
}

// The sum of the costs of the slots.
fn cost_of(order: &[u16], costs: &[u8], set: &Env) -> u32
    requires slots { IsOrder SLOTS order.now }
    requires listed { ListsAll order.now (members set.now) }
    requires costs { length costs.now ≡ length order.now }
    ensures { result ≡ cost_in order.now costs.now (members set.now) }
{
    let mut cost = 0;
    for i in 0..order.len() {
        cost += cost_at(set, order[i], costs[i]);
    }
    cost
}

// What the slot adds to the cost.
fn cost_at(set: &Env, slot: u16, cost: u8) -> u32
    requires { slot < SLOTS }
    ensures { result ≡ (if members set.now slot then cost else 0) }
{
    if set.has(slot) { u32::from(cost) } else { 0 }
}

// The slots of the order.
fn slots_of(order: &[u16]) -> Env
    requires { IsOrder SLOTS order.now }
    ensures { (k : ℕ) → IsTrue (members result k) ↔ IsIn order.now k }
{
    let mut slots = Env::empty();
    for slot in order {
        slots = slots.with(*slot);
    }
    slots
}

// Sorts by cost, then by the order of the slots that are listed.
fn sort(ranked: &mut [Ranked], order: &[u16], listed: &Env)
    requires slots { IsOrder SLOTS order.now }
    requires listed { ListsAll order.now (members listed.now) }
    ensures permutation { IsPermutation ranked.old ranked.new }
    ensures sorted { IsSortedBy (is_before order.now (members listed.now)) ranked.new }
{
    ranked.sort_unstable_by(|a, b| compare(order, listed, a, b));
}

// By cost, then by the order of the slots that are listed. A sort may compare any two values, and `compare_in` asks that
// the order has all slots of both.
fn compare(order: &[u16], listed: &Env, a: &Ranked, b: &Ranked) -> Ordering
    requires slots { IsOrder SLOTS order.now }
    requires listed { ListsAll order.now (members listed.now) }
    ensures { result ≡ compare_ranks order.now (members listed.now) a.now b.now }
{
    match a.cost.cmp(&b.cost) {
        Ordering::Equal => a.set.meet(*listed).compare_in(order, &b.set.meet(*listed)),
        unequal => unequal,
    }
}
