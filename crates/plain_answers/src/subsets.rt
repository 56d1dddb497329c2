// All environments of a present.

ghost use Rattle.std.specs.Prelude.{length, IfOk};
ghost use Rattle.environment_sets.specs.Lists.{IsRoster};
ghost use Rattle.circuit_model.specs.Stock.{IsEnvironment};
ghost use Rattle.circuit_model.specs.Whole.{stock};
ghost use Rattle.plain_answers.specs.Members.{members};
ghost use Rattle.plain_answers.specs.Sets.{IsWith};
ghost use Rattle.plain_answers.specs.Subsets.{sets, place_of, IsNamed, IsWithin, IsPart, IsDoubled};

use crate::environment::Environment;
use circuit_model::{Cell, Present};
use std::alloc::{AllocError, Global};

/// A component by its place, or a measured cell.
#[derive(Clone, Copy, Debug)]
pub enum Named {
    Part(u16),
    Cell(Cell),
}

/// All environments of a present: sets of components and measured cells, two to the power of their number. Where memory
/// is wanting, nothing is left behind.
pub fn environments(alloc: Global, present: &Present) -> Result<Vec<Environment>, AllocError>
    ensures { IfOk result (λ es. IsRoster (IsEnvironment (stock present.now)) (sets es.items)) }
{
    let mut all = part_sets(alloc, present)?;
    for place in 0..present.readings() {
        let cell = present.reading(place).cell;
        all = doubled(alloc, &all, Named::Cell(cell))?;
    }
    Ok(all)
}

/// All sets of components.
pub fn part_sets(alloc: Global, present: &Present) -> Result<Vec<Environment>, AllocError>
    ensures { IfOk result (λ es. IsRoster (IsWithin (IsPart (length present.now.parts))) (sets es.items)) }
{
    let mut all = Vec::new(alloc);
    all.push(Environment::empty())?;
    for place in 0..present.parts() {
        all = doubled(alloc, &all, Named::Part(place))?;
    }
    Ok(all)
}

/// Each without the name and with it.
fn doubled(alloc: Global, all: &[Environment], name: Named) -> Result<Vec<Environment>, AllocError>
    requires { IsNamed name }
    ensures { IfOk result (λ es. IsDoubled name (sets all.now) (sets es.items)) }
{
    let mut both = Vec::new(alloc);
    for one in all {
        both.push(*one)?;
        both.push(with(*one, name))?;
    }
    Ok(both)
}

fn with(one: Environment, name: Named) -> Environment
    requires { IsNamed name }
    ensures { IsWith (members one) (place_of name) (members result) }
{
    match name {
        Named::Part(place) => one.with_part(place),
        Named::Cell(cell) => one.with_cell(cell),
    }
}
