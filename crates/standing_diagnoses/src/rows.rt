// The positions of a present's components, and their costs, side by side.

ghost use Rattle.std.specs.Prelude.{◌≡◌, IfOk, map};
ghost use Rattle.std.specs.List.{range_with_len};

use circuit_model::Present;
use std::alloc::{AllocError, Global};

/// All positions, in order.
pub fn positions_in_order(alloc: Global, parts: u16) -> Result<Vec<u16>, AllocError>
    ensures { IfOk result (λ order. order.items ≡ range_with_len 0 parts) }
{
    let mut order = Vec::with_capacity(alloc, parts as usize)?;
    for place in 0..parts {
        order.push(place)?;
    }
    Ok(order)
}

/// The costs of the components, in order of their positions.
pub fn costs_in_order(alloc: Global, present: &Present) -> Result<Vec<u8>, AllocError>
    ensures { IfOk result (λ costs. costs.items ≡ map (λ p. p.cost) present.now.parts) }
{
    let mut costs = Vec::with_capacity(alloc, present.parts() as usize)?;
    for place in 0..present.parts() {
        costs.push(present.part_at(place).cost)?;
    }
    Ok(costs)
}
