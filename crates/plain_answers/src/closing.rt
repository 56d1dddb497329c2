// What follows from an environment of a present.

ghost use Rattle.std.specs.Prelude.{◌<◌, ◌+◌, length, IfOk};
ghost use Rattle.circuit_model.specs.Chosen.{chosen_places};
ghost use Rattle.circuit_model.specs.Present.{IsLawful};
ghost use Rattle.plain_answers.specs.Closing.{Closes, ArePartsOf, AreCellsOf, IsOfPresent};
ghost use Rattle.plain_answers.specs.Members.{members};

use crate::closure::Closure;
use crate::environment::Environment;
use circuit_model::{Cells, Chosen, Places, Present};
use proof_check::close;
use std::alloc::{AllocError, Global};

/// What an environment says.
#[derive(Drop)]
pub enum Closed {
    /// It contradicts itself.
    Clash,
    /// It is consistent, and these facts follow.
    Facts(Closure),
}

/// All that follows from these components and measurements of a present; those that the present does not have say
/// nothing. Where memory is wanting, nothing is left behind.
pub fn close_environment(
    alloc: Global,
    present: &Present,
    environment: &Environment,
) -> Result<Closed, AllocError>
    ensures { IfOk result (Closes present.now (members environment.now)) }
{
    let chosen = of_present(alloc, present, environment)?;
    let closed = close(alloc, present, &chosen)?;
    if closed.clash().is_some() {
        return Ok(Closed::Clash);
    }
    Ok(Closed::Facts(Closure::of(closed)))
}

/// What it has of the present.
fn of_present(
    alloc: Global,
    present: &Present,
    environment: &Environment,
) -> Result<Chosen, AllocError>
    ensures { IfOk result (λ chosen. IsOfPresent present.now (members environment.now) (chosen_places chosen)) }
{
    let parts = parts_of(alloc, present, environment)?;
    let readings = cells_of(alloc, present, environment)?;
    Ok(Chosen { parts, readings })
}

fn parts_of(
    alloc: Global,
    present: &Present,
    environment: &Environment,
) -> Result<Places, AllocError>
    ensures { IfOk result (ArePartsOf (length present.now.parts) (members environment.now)) }
{
    let mut parts = Places::new(alloc);
    for place in 0..present.parts() {
        put_part(environment, place, &mut parts)?;
    }
    Ok(parts)
}

fn put_part(environment: &Environment, place: u16, parts: &mut Places) -> Result<(), AllocError>
    requires { ArePartsOf place (members environment.now) parts.old }
    ensures { IfOk result (λ _. ArePartsOf (place + 1) (members environment.now) parts.new) }
{
    if environment.has_part(place) {
        parts.push(place)?;
        return Ok(());
    }
    Ok(())
}

fn cells_of(
    alloc: Global,
    present: &Present,
    environment: &Environment,
) -> Result<Cells, AllocError>
    ensures lawful { IsLawful present.now }
    ensures cells { IfOk result (AreCellsOf present.now (length present.now.readings) (members environment.now)) }
{
    let mut cells = Cells::new(alloc);
    for place in 0..present.readings() {
        put_cell(present, environment, place, &mut cells)?;
    }
    Ok(cells)
}

fn put_cell(
    present: &Present,
    environment: &Environment,
    place: u16,
    cells: &mut Cells,
) -> Result<(), AllocError>
    requires lawful { IsLawful present.now }
    requires place { place < length present.now.readings }
    requires cells { AreCellsOf present.now place (members environment.now) cells.old }
    ensures { IfOk result (λ _. AreCellsOf present.now (place + 1) (members environment.now) cells.new) }
{
    let cell = present.reading(place).cell;
    if environment.has_cell(cell) {
        cells.push(cell)?;
        return Ok(());
    }
    Ok(())
}
