// The component that a block is.

ghost use Rattle.std.specs.Prelude.{◌≡◌, ◌<◌, ◌≤◌, IfOk, length, slice_index};
ghost use Rattle.circuit_model.specs.Present.{IsLawfulComponent};
ghost use Rattle.circuit_model.specs.Opening.{block_component};
ghost use Rattle.circuit_model.specs.declared.limits.TheConstants.{MOST_PINS};
ghost use Rattle.block_tree.specs.Using.{MayUse};

use crate::parts::block_part;
use circuit_model::{Component, Kind, Name, Pins, Present, limits};
use std::alloc::{AllocError, Global};

// The nets in a row.
fn row_of(nets: &[u16]) -> Pins
    requires { length nets.now ≤ MOST_PINS }
    ensures { result ≡ nets.now }
{
    let mut row = Pins::new();
    for net in nets {
        row.push(*net);
    }
    row
}

fn first_of(nets: &[u16]) -> u16
    requires { 0 < length nets.now }
    ensures { result ≡ slice_index nets.now 0 }
{
    nets[0]
}

/// The block of the definition, with this name, at these nets, one for each pin. Where memory is wanting it leaves nothing
/// behind.
pub fn use_block(
    alloc: Global,
    present: &Present,
    block: u16,
    name: Name,
    nets: &[u16],
) -> Result<Component, AllocError>
    requires { MayUse present.now block nets.now }
    ensures component { IfOk result (λ c. c ≡ block_component present.now block name nets.now) }
    ensures lawful { IfOk result (IsLawfulComponent present.now) }
{
    // For the proof alone: the present is lawful.
    let _lawful = present.blocks();
    let part = block_part(alloc, present, block, nets)?;
    let pins = row_of(nets);
    let first = first_of(nets);
    Ok(Component {
        name,
        kind: Kind::Block { block },
        nets: [first; 3],
        cost: limits::USUAL_COST,
        pins,
        part,
    })
}
