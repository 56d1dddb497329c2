// The instances of a block.

ghost use Rattle.std.specs.Prelude.{◌≡◌, ◌<◌, ◌≤◌, IfOk, IsTrue, None, length, map, take, slice_get, Some};
ghost use Rattle.std.specs.List.{All, flat_map};
ghost use Rattle.circuit_model.specs.Kinds.{are_widths, fits_value, block_in, instances};
ghost use Rattle.circuit_model.specs.Blocks.{nets_for, block_part, inner_instances};
ghost use Rattle.circuit_model.specs.Present.{block_at, width_of, IsLawful};
ghost use Rattle.circuit_model.specs.declared.blocks.Inner.{Inner};
ghost use Rattle.block_tree.specs.Using.{MayUse};

use circuit_model::{Kind, Part, Present, instances_of};
use std::alloc::{AllocError, Global};
use word_domain::Width;

/// The nets that stand for these pins.
pub fn nets_for(nets: &[u16], pins: &[u16; 3]) -> [u16; 3]
    requires { All (λ pin. pin < length nets.now) pins.now }
    ensures { result ≡ nets_for nets.now pins.now }
{
    [
        nets[pins[0] as usize],
        nets[pins[1] as usize],
        nets[pins[2] as usize],
    ]
}

fn width_at(present: &Present, net: u16) -> Width
    requires { net < length present.now.nets }
    ensures { result ≡ width_of present.now net }
{
    let (_, width) = present.net_at(net);
    width
}

/// The widths of three nets.
pub fn widths_at(present: &Present, nets: &[u16; 3]) -> [Width; 3]
    requires { All (λ net. net < length present.now.nets) nets.now }
    ensures { result ≡ map (width_of present.now) nets.now }
{
    [
        width_at(present, nets[0]),
        width_at(present, nets[1]),
        width_at(present, nets[2]),
    ]
}

/// The instances of a component of the kind, which is no block, at these nets of the present.
pub fn part_at(
    alloc: Global,
    present: &Present,
    kind: Kind,
    nets: [u16; 3],
) -> Result<Part, AllocError>
    requires plain { block_in kind ≡ None }
    requires within { All (λ net. net < length present.now.nets) nets }
    requires widths { IsTrue (are_widths kind (map (width_of present.now) nets)) }
    requires value { IsTrue (fits_value kind (map (width_of present.now) nets)) }
    ensures { IfOk result (λ p. p ≡ instances kind nets (map (width_of present.now) nets) present.now.cycles) }
{
    let widths = widths_at(present, &nets);
    instances_of(alloc, kind, nets, widths, present.cycles())
}

/// The instances of an inner component of a definition, by its place, with the net of each pin in the place of the pin.
pub fn inner_part(
    alloc: Global,
    present: &Present,
    block: u16,
    place: u16,
    nets: &[u16],
) -> Result<Part, AllocError>
    requires lawful { IsLawful present.now }
    requires usable { MayUse present.now block nets.now }
    requires place { place < length (block_at present.now block).inners }
    ensures { IfOk result (λ p. (i : Inner) × (slice_get (block_at present.now block).inners place ≡ Some i) × (p ≡ inner_instances (block_at present.now block).pins nets.now present.now.cycles i)) }
{
    let (_, kind, pins) = present.inner_at(block, place);
    part_at(alloc, present, kind, nets_for(nets, &pins))
}

/// The part of a block of the definition at these nets.
pub fn block_part(
    alloc: Global,
    present: &Present,
    block: u16,
    nets: &[u16],
) -> Result<Part, AllocError>
    requires lawful { IsLawful present.now }
    requires usable { MayUse present.now block nets.now }
    ensures { IfOk result (λ p. p ≡ block_part (block_at present.now block) nets.now present.now.cycles) }
{
    let mut part = Part::new(alloc);
    for place in 0..present.inners_of(block) {
        let inner = inner_part(alloc, present, block, place, nets)?;
        part.append(&inner)?;
    }
    Ok(part)
}
