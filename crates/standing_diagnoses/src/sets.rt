// Sets of component slots, as sets of positions.

ghost use Rattle.std.specs.Prelude.{◌≡◌, ◌<◌, if◌then◌else◌, IfOk, map};
ghost use Rattle.environment_sets.specs.declared.environment.TheConstants.{SLOTS};
ghost use Rattle.environment_sets.specs.Members.{members, sets};
ghost use Rattle.environment_sets.specs.Sets.{◌∪◌, only};
ghost use Rattle.standing_view.specs.Positions.{positions};

use environment_sets::Env;
use standing_view::Standing;
use std::alloc::{AllocError, Global};

/// The sets of positions of sets of component slots, in their order.
pub fn positions_of_each(
    alloc: Global,
    standing: &Standing,
    environments: &[Env],
) -> Result<Vec<Env>, AllocError>
    ensures { IfOk result (λ found. sets found.items ≡ map (positions standing.now) (sets environments.now)) }
{
    let mut found = Vec::with_capacity(alloc, environments.len())?;
    for environment in environments {
        found.push(positions_of(standing, environment))?;
    }
    Ok(found)
}

// The positions of the components whose slots are in the set.
fn positions_of(standing: &Standing, environment: &Env) -> Env
    ensures { members result ≡ positions standing.now (members environment.now) }
{
    let _order = standing.order();
    let mut found = Env::empty();
    for place in 0..standing.count_parts() {
        found = with_if(found, standing.has_part(environment, place), place);
    }
    found
}

// With the position, where it is chosen.
fn with_if(found: Env, is_chosen: bool, place: u16) -> Env
    requires { place < SLOTS }
    ensures { members result ≡ (if is_chosen then members found ∪ only place else members found) }
{
    if is_chosen {
        return found.with(place);
    }
    found
}
