// The instances that a component stands for.

ghost use Rattle.std.specs.Prelude.{◌≡◌, ◌≤◌, map, IfOk, IsTrue, None};
ghost use Rattle.circuit_model.specs.Inference.{ports_of};
ghost use Rattle.circuit_model.specs.Kinds.{primitive_of, are_widths, fits_value, instance_at, each_cycle, reset_instance, carry_instance, register, instances, block_in};
ghost use Rattle.circuit_model.specs.declared.limits.TheConstants.{MOST_CYCLES};

use crate::model::{Cell, Instance, Kind, Part, Primitive};
use std::alloc::{AllocError, Global};
use word_domain::Width;

/// The instances that a component of the kind, which is no block, stands for over so many cycles, at these nets of these widths, both in the
/// order of the kind's ports. Unused places of `nets` and of `widths` repeat the last port's. Where memory is wanting it
/// leaves nothing behind.
pub fn instances_of(
    alloc: Global,
    kind: Kind,
    nets: [u16; 3],
    widths: [Width; 3],
    cycles: u8,
) -> Result<Part, AllocError>
    requires plain { block_in kind ≡ None }
    requires widths { IsTrue (are_widths kind widths) }
    requires value { IsTrue (fits_value kind widths) }
    requires some_cycle { 1 ≤ cycles }
    requires cycles { cycles ≤ MOST_CYCLES }
    ensures { IfOk result (λ p. p ≡ instances kind nets widths cycles) }
{
    let instances = all_instances(alloc, kind, nets, widths, cycles)?;
    Ok(Part::of(instances))
}

fn all_instances(
    alloc: Global,
    kind: Kind,
    nets: [u16; 3],
    widths: [Width; 3],
    cycles: u8,
) -> Result<Vec<Instance>, AllocError>
    requires plain { block_in kind ≡ None }
    requires some_cycle { 1 ≤ cycles }
    ensures { IfOk result (λ v. v.items ≡ instances kind nets widths cycles) }
{
    match kind {
        Kind::Reg { reset } => register(alloc, reset, nets, widths, cycles),
        Kind::Buf
        | Kind::Not
        | Kind::And
        | Kind::Or
        | Kind::Xor
        | Kind::Nand
        | Kind::Nor
        | Kind::Xnor
        | Kind::Add
        | Kind::Mul
        | Kind::Const { .. } => each_cycle(alloc, kind.primitive(), nets, widths, cycles),
        Kind::Block { .. } => unreachable!(),
    }
}

// One instance for each cycle.
fn each_cycle(
    alloc: Global,
    prim: Primitive,
    nets: [u16; 3],
    widths: [Width; 3],
    cycles: u8,
) -> Result<Vec<Instance>, AllocError>
    ensures { IfOk result (λ v. v.items ≡ each_cycle (instance_at prim nets widths) 0 cycles) }
{
    let mut instances = Vec::with_capacity(alloc, cycles as usize)?;
    for cycle in 0..cycles {
        instances.push(instance_at(prim, nets, widths, cycle))?;
    }
    Ok(instances)
}

// The register's word at cycle 0, and one instance for each later cycle that carries it on.
fn register(
    alloc: Global,
    reset: u64,
    nets: [u16; 3],
    widths: [Width; 3],
    cycles: u8,
) -> Result<Vec<Instance>, AllocError>
    requires { 1 ≤ cycles }
    ensures { IfOk result (λ v. v.items ≡ register reset nets widths cycles) }
{
    let mut instances = Vec::with_capacity(alloc, cycles as usize)?;
    instances.push(reset_instance(reset, nets, widths))?;
    for cycle in 1..cycles {
        instances.push(carry_instance(nets, widths, cycle))?;
    }
    Ok(instances)
}

fn instance_at(prim: Primitive, nets: [u16; 3], widths: [Width; 3], cycle: u8) -> Instance
    ensures { result ≡ instance_at prim nets widths cycle }
{
    Instance {
        prim,
        ports: prim.ports(),
        cells: nets.map(|net| Cell { net, cycle }),
        widths,
    }
}

fn reset_instance(reset: u64, nets: [u16; 3], widths: [Width; 3]) -> Instance
    ensures { result ≡ reset_instance reset nets widths }
{
    let q = Cell {
        net: nets[1],
        cycle: 0,
    };
    Instance {
        prim: Primitive::Const { value: reset },
        ports: 1,
        cells: [q; 3],
        widths: [widths[1]; 3],
    }
}

fn carry_instance(nets: [u16; 3], widths: [Width; 3], cycle: u8) -> Instance
    requires { 1 ≤ cycle }
    ensures { result ≡ carry_instance nets widths cycle }
{
    let d = Cell {
        net: nets[0],
        cycle: cycle - 1,
    };
    let q = Cell {
        net: nets[1],
        cycle,
    };
    Instance {
        prim: Primitive::Buf,
        ports: 2,
        cells: [d, q, q],
        widths,
    }
}

impl Kind {
    // The relation at each cycle; a register's carries its word on, and a block has none of its own.
    fn primitive(self) -> Primitive
        ensures { result ≡ primitive_of self }
    {
        match self {
            Kind::Buf => Primitive::Buf,
            Kind::Not => Primitive::Not,
            Kind::And => Primitive::And,
            Kind::Or => Primitive::Or,
            Kind::Xor => Primitive::Xor,
            Kind::Nand => Primitive::Nand,
            Kind::Nor => Primitive::Nor,
            Kind::Xnor => Primitive::Xnor,
            Kind::Add => Primitive::Add,
            Kind::Mul => Primitive::Mul,
            Kind::Const { value } => Primitive::Const { value },
            Kind::Reg { .. } => Primitive::Buf,
            Kind::Block { .. } => Primitive::Const { value: 0 },
        }
    }
}

impl Primitive {
    /// The number of ports, 1 to 3.
    pub fn ports(self) -> u8
        ensures { result ≡ ports_of self }
    {
        match self {
            Primitive::Const { .. } => 1,
            Primitive::Buf | Primitive::Not => 2,
            Primitive::And
            | Primitive::Or
            | Primitive::Xor
            | Primitive::Nand
            | Primitive::Nor
            | Primitive::Xnor
            | Primitive::Add
            | Primitive::Mul => 3,
        }
    }
}
