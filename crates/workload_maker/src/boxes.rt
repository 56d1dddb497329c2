// The lines of one polybox.
ghost use Rattle.std.specs.Prelude.{◌≡◌, ◌≤◌, ◌<◌, ◌^◌, ◌++◌, OnOk, IsTrue};
ghost use Rattle.workload_maker.specs.Boxes as spec;
ghost use Rattle.workload_maker.specs.declared.making.TheConstants.{MOST_BOXES};

use circuit_model::{Kind, Name};
use netlist_text::Change;
use std::alloc::AllocError;

// The words at the inputs of a box, and what its output F is off by, 1 to 255.
#[derive(Clone, Copy)]
struct Inputs {
    a: u64,
    b: u64,
    c: u64,
    d: u64,
    e: u64,
    off_by: u64,
}

/// Adds the box of this number whose inputs are given by the word.
pub fn add_box(changes: &mut Vec<Change>, number: u8, word: u64) -> Result<(), AllocError>
    requires { number ≤ MOST_BOXES }
    ensures { OnOk result (changes.new.items ≡ changes.old.items ++ spec.polybox number word) }
{
    changes.extend_from_slice(&nets(number))?;
    changes.extend_from_slice(&components(number))?;
    changes.extend_from_slice(&readings(number, &inputs_of(word)))?;
    Ok(())
}

// So many bits of the word, from this one on.
fn bits(word: u64, low: u32, count: u32) -> u64
    requires low { low < 64 }
    requires count { count < 64 }
    ensures value { result ≡ spec.bits word low count }
    ensures few { result < 2 ^ count }
{
    (word >> low) % (1 << count)
}

fn inputs_of(word: u64) -> Inputs
    ensures value { result ≡ spec.inputs_of word }
    ensures small { spec.IsSmall result }
{
    Inputs {
        a: bits(word, 0, 4),
        b: bits(word, 4, 4),
        c: bits(word, 8, 4),
        d: bits(word, 12, 4),
        e: bits(word, 16, 4),
        off_by: 1 + bits(word, 20, 8) % 255,
    }
}

// The name with the number of the box.
fn numbered(number: u8, name: &[u8]) -> Name
    requires number { number ≤ MOST_BOXES }
    requires name { IsTrue (spec.is_short_name name.now) }
    ensures { result ≡ spec.numbered number name.now }
{
    let mut bytes = [0; 4];
    let len = name.len();
    bytes[..len].copy_from_slice(name);
    bytes[len] = b'_';
    bytes[len + 1] = b'0' + number;
    match Name::new(&bytes[..len + 2]) {
        Some(name) => name,
        None => unreachable!(),
    }
}

fn net(number: u8, name: &[u8], width: u64) -> Change
    requires number { number ≤ MOST_BOXES }
    requires name { IsTrue (spec.is_short_name name.now) }
    ensures { result ≡ spec.net number name.now width }
{
    Change::Net {
        name: numbered(number, name),
        width,
    }
}

fn nets(number: u8) -> [Change; 10]
    requires { number ≤ MOST_BOXES }
    ensures { result ≡ spec.nets number }
{
    [
        net(number, b"A", 4),
        net(number, b"B", 4),
        net(number, b"C", 4),
        net(number, b"D", 4),
        net(number, b"E", 4),
        net(number, b"X", 8),
        net(number, b"Y", 8),
        net(number, b"Z", 8),
        net(number, b"F", 8),
        net(number, b"G", 8),
    ]
}

fn component(number: u8, kind: Kind, name: &[u8], a: &[u8], b: &[u8], z: &[u8]) -> Change
    requires number { number ≤ MOST_BOXES }
    requires name { IsTrue (spec.is_short_name name.now) }
    requires a { IsTrue (spec.is_short_name a.now) }
    requires b { IsTrue (spec.is_short_name b.now) }
    requires z { IsTrue (spec.is_short_name z.now) }
    ensures { result ≡ spec.component number kind name.now a.now b.now z.now }
{
    let nets = [
        numbered(number, a),
        numbered(number, b),
        numbered(number, z),
    ];
    Change::Add {
        name: numbered(number, name),
        kind,
        nets,
    }
}

fn components(number: u8) -> [Change; 5]
    requires { number ≤ MOST_BOXES }
    ensures { result ≡ spec.components number }
{
    [
        component(number, Kind::Mul, b"M1", b"A", b"C", b"X"),
        component(number, Kind::Mul, b"M2", b"B", b"D", b"Y"),
        component(number, Kind::Mul, b"M3", b"C", b"E", b"Z"),
        component(number, Kind::Add, b"A1", b"X", b"Y", b"F"),
        component(number, Kind::Add, b"A2", b"Y", b"Z", b"G"),
    ]
}

fn reading(number: u8, name: &[u8], value: u64) -> Change
    requires number { number ≤ MOST_BOXES }
    requires name { IsTrue (spec.is_short_name name.now) }
    ensures { result ≡ spec.reading number name.now value }
{
    Change::Measure {
        net: numbered(number, name),
        cycle: 0,
        value,
    }
}

// The word at F, of eight bits.
fn word_at_f(inputs: &Inputs) -> u64
    requires { spec.IsSmall inputs.now }
    ensures { result ≡ spec.word_at_f inputs.now }
{
    (inputs.a * inputs.c + inputs.b * inputs.d + inputs.off_by) % 256
}

// The word at G, of eight bits.
fn word_at_g(inputs: &Inputs) -> u64
    requires { spec.IsSmall inputs.now }
    ensures { result ≡ spec.word_at_g inputs.now }
{
    (inputs.b * inputs.d + inputs.c * inputs.e) % 256
}

fn readings(number: u8, inputs: &Inputs) -> [Change; 7]
    requires number { number ≤ MOST_BOXES }
    requires small { spec.IsSmall inputs.now }
    ensures { result ≡ spec.readings number inputs.now }
{
    [
        reading(number, b"A", inputs.a),
        reading(number, b"B", inputs.b),
        reading(number, b"C", inputs.c),
        reading(number, b"D", inputs.d),
        reading(number, b"E", inputs.e),
        reading(number, b"F", word_at_f(inputs)),
        reading(number, b"G", word_at_g(inputs)),
    ]
}
