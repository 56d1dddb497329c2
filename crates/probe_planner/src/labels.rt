// What labels cover, and what diagnoses leave.
ghost use Rattle.std.specs.Prelude.{◌≡◌, ℕ, ◌<◌, ◌==◌, ◌||◌, ◌&&◌, not};
ghost use Rattle.environment_sets.specs.declared.environment.TheConstants.{SLOTS};
ghost use Rattle.environment_sets.specs.Members.{members};
ghost use Rattle.probe_planner.specs.Covering.{covers, rest};

use environment_sets::Env;
use standing_view::Standing;

/// Whether an environment of the label is a subset.
pub fn covers(label: &[Env], env: &Env) -> bool
    ensures { result ≡ covers label.now (members env.now) }
{
    label.iter().any(|member| member.is_subset(env))
}

/// What stands outside the diagnosis.
pub fn rest_of(standing: &Standing, diagnosis: &Env) -> Env
    ensures { members result ≡ rest standing.now (members diagnosis.now) }
{
    let mut rest = Env::empty();
    for slot in standing.order() {
        rest = with_outside(rest, diagnosis, *slot);
    }
    rest
}

// The slot is put in where the diagnosis has not got it.
fn with_outside(rest: Env, diagnosis: &Env, slot: u16) -> Env
    requires { slot < SLOTS }
    ensures { (k : ℕ) → members result k ≡ (members rest k || ((k == slot) && not (members diagnosis.now k))) }
{
    if diagnosis.has(slot) {
        return rest;
    }
    rest.with(slot)
}
