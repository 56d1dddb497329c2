// What a set hits, and what each of its slots hits alone.
ghost use Rattle.std.specs.Prelude.{ℕ, ◌↔◌, IsTrue};
ghost use Rattle.environment_sets.specs.Sets.{HitsEach};
ghost use Rattle.environment_sets.specs.Members.{members, HasMember};
ghost use Rattle.hitting_sets.specs.Own.{HasOwn};

use environment_sets::Env;
use hitting_sets::own_slots;

/// Whether the set hits each conflict.
pub fn hits_each(conflicts: &[Env], set: &Env) -> bool
    ensures { IsTrue result ↔ HitsEach (HasMember conflicts.now) (members set.now) }
{
    for conflict in conflicts {
        if !set.meets(conflict) {
            return false;
        }
    }
    true
}

/// Whether each slot of the set hits some conflict alone.
pub fn has_own(conflicts: &[Env], set: &Env) -> bool
    ensures { IsTrue result ↔ ((k : ℕ) → IsTrue (members set.now k) → HasOwn (HasMember conflicts.now) (members set.now) k) }
{
    set.is_subset(&own_slots(conflicts, set))
}
