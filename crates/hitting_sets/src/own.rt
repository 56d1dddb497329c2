// Whether a hitting set is minimal, by what each of its slots hits alone.
ghost use Rattle.std.specs.Prelude.{ℕ, ◌↔◌, IsTrue, ◌++◌, ◌∷◌, []};
ghost use Rattle.environment_sets.specs.Sets.{HitsEach};
ghost use Rattle.environment_sets.specs.Members.{members, HasMember};
ghost use Rattle.hitting_sets.specs.Own.{IsAlone, HasOwn};
ghost use Rattle.hitting_sets.specs.Hitting.{IsMinimalFor};

use environment_sets::Env;

// Whether a set that hits the conflicts and one more is a minimal hitting set of them.
pub fn is_minimal(before: &[Env], conflict: &Env, set: &Env) -> bool
    requires { HitsEach (HasMember (before.now ++ conflict.now ∷ [])) (members set.now) }
    ensures { IsTrue result ↔ IsMinimalFor (before.now ++ conflict.now ∷ []) (members set.now) }
{
    let own = own_slots(before, set).union(own_slot(conflict, set));
    set.is_subset(&own)
}

/// The slots of the set that each hit some conflict alone. A hitting set is minimal exactly where all of its slots do.
pub fn own_slots(conflicts: &[Env], set: &Env) -> Env
    ensures { (k : ℕ) → IsTrue (members result k) ↔ HasOwn (HasMember conflicts.now) (members set.now) k }
{
    let mut own = Env::empty();
    for conflict in conflicts {
        own = own.union(own_slot(conflict, set));
    }
    own
}

// The slot of the set that hits the conflict alone, where there is one.
fn own_slot(conflict: &Env, set: &Env) -> Env
    ensures { (k : ℕ) → IsTrue (members result k) ↔ IsAlone (members set.now) (members conflict.now) k }
{
    let shared = set.meet(*conflict);
    if shared.size() == 1 {
        shared
    } else {
        Env::empty()
    }
}
