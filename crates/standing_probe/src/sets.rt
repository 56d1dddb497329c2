// Sets of positions, as sets of component slots.
ghost use Rattle.std.specs.Prelude.{◌≡◌, ◌<◌, if◌then◌else◌, IfOk, length, map};
ghost use Rattle.environment_sets.specs.declared.environment.TheConstants.{SLOTS};
ghost use Rattle.environment_sets.specs.Members.{members, sets};
ghost use Rattle.environment_sets.specs.Sets.{◌∪◌, only, IsBelow};
ghost use Rattle.standing_view.specs.Positions.{positions, AreInParts, AreSlotsAt};
ghost use Rattle.standing_probe.specs.Ranges.{AreInRange};

use environment_sets::Env;
use standing_view::Standing;
use std::alloc::{AllocError, Global};

/// The sets of component slots at sets of positions, in their order.
pub fn slots_of_each(
    alloc: Global,
    standing: &Standing,
    environments: &[Env],
) -> Result<Vec<Env>, AllocError>
    requires { AreInRange standing.now (sets environments.now) }
    ensures positions { IfOk result (λ found. map (positions standing.now) (sets found.items) ≡ sets environments.now) }
    ensures slots { IfOk result (λ found. AreInParts standing.now (sets found.items)) }
{
    let mut found = Vec::with_capacity(alloc, environments.len())?;
    for environment in environments {
        found.push(slots_of(standing, environment))?;
    }
    Ok(found)
}

// The slots of the components at the positions.
fn slots_of(standing: &Standing, environment: &Env) -> Env
    requires { IsBelow (length standing.now.parts) (members environment.now) }
    ensures { AreSlotsAt standing.now (members environment.now) (members result) }
{
    let _order = standing.order();
    let mut found = Env::empty();
    for place in 0..standing.count_parts() {
        let slot = standing.part_slot(place);
        found = with_if(found, environment.has(place), slot);
    }
    found
}

// With the slot, where its position is chosen.
fn with_if(found: Env, is_chosen: bool, slot: u16) -> Env
    requires { slot < SLOTS }
    ensures { members result ≡ (if is_chosen then members found ∪ only slot else members found) }
{
    if is_chosen {
        return found.with(slot);
    }
    found
}
