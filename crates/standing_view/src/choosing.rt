// An environment of slots, as one of the present.

ghost use Rattle.std.specs.Prelude.{◌≡◌, ◌<◌, ◌≤◌, ℕ, [], ◌∷◌, ◌++◌, if◌then◌else◌, length, slice_get, take, IfOk, OnOk, Some, IsTrue};
ghost use Rattle.std.specs.List.{filter, range_with_len};
ghost use Rattle.circuit_model.specs.declared.model.Cell.{Cell};
ghost use Rattle.circuit_model.specs.Chosen.{chosen_places};
ghost use Rattle.circuit_model.specs.Present.{is_cell_before};
ghost use Rattle.environment_sets.specs.Lists.{IsIn};
ghost use Rattle.environment_sets.specs.Members.{members};
ghost use Rattle.environment_sets.specs.Sets.{◌⊆◌};
ghost use Rattle.standing_view.specs.Standing.{mask_of};
ghost use Rattle.standing_view.specs.Positions.{positions, positions_in_order};
ghost use Rattle.standing_view.specs.Choosing.{has_cell};
ghost use Rattle.standing_view.specs.View.{places};

use crate::standing::Standing;
use circuit_model::{Cell, Cells, Chosen, Places};
use environment_sets::Env;
use std::alloc::{AllocError, Global};

/// The same environment by positions of components and by measured cells.
pub fn chosen(alloc: Global, standing: &Standing, env: &Env) -> Result<Chosen, AllocError>
    requires { members env.now ⊆ mask_of standing.now }
    ensures { IfOk result (λ c. chosen_places c ≡ places standing.now (members env.now)) }
{
    let parts = chosen_parts(alloc, standing, env)?;
    let readings = chosen_readings(alloc, standing, env)?;
    Ok(Chosen { parts, readings })
}

// The positions of the components in the set, in order.
fn chosen_parts(alloc: Global, standing: &Standing, env: &Env) -> Result<Places, AllocError>
    ensures { IfOk result (λ list. list ≡ filter (positions standing.now (members env.now)) (positions_in_order standing.now)) }
{
    let mut list = Places::new(alloc);
    for place in 0..standing.count_parts() {
        add_part(&mut list, standing.has_part(env, place), place)?;
    }
    Ok(list)
}

// The measured cells in the set, in order.
fn chosen_readings(alloc: Global, standing: &Standing, env: &Env) -> Result<Cells, AllocError>
    ensures { IfOk result (λ list. list ≡ filter (has_cell standing.now (members env.now)) standing.now.cells) }
{
    let mut list = Cells::new(alloc);
    for place in 0..standing.count_readings() {
        let cell = standing.cell_at(place);
        add_cell(&mut list, standing.has_reading(env, place), cell)?;
    }
    Ok(list)
}

// The position too, where it is chosen.
fn add_part(list: &mut Places, is_chosen: bool, place: u16) -> Result<(), AllocError>
    requires { (i : ℕ) → IsIn list.old i → i < place }
    ensures { OnOk result (list.new ≡ list.old ++ (if is_chosen then place ∷ [] else [])) }
{
    if is_chosen {
        list.push(place)?;
        return Ok(());
    }
    Ok(())
}

// The cell too, where it is chosen.
fn add_cell(list: &mut Cells, is_chosen: bool, cell: Cell) -> Result<(), AllocError>
    requires { (c : Cell) → IsIn list.old c → IsTrue (is_cell_before c cell) }
    ensures { OnOk result (list.new ≡ list.old ++ (if is_chosen then cell ∷ [] else [])) }
{
    if is_chosen {
        list.push(cell)?;
        return Ok(());
    }
    Ok(())
}
