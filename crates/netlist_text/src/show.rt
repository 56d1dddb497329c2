// The text of a present, written without memory.
ghost use Rattle.std.specs.Prelude.{◌≡◌, ◌<◌, ◌==◌, ◌∷◌, ◌++◌, [], None, Some, if◌then◌else◌, codes, decimal, map, length};
ghost use Rattle.std.specs.List.{All, flat_map};
ghost use Rattle.bench_io.specs.Puts.{Puts};
ghost use Rattle.bench_io.specs.Writing.{Writes};
ghost use Rattle.circuit_model.specs.Blocks.{IsLawfulBlock, IsLawfulInner};
ghost use Rattle.circuit_model.specs.Kinds.{block_in};
ghost use Rattle.circuit_model.specs.Present.{block_at, IsUse, IsLawfulComponent};
ghost use Rattle.netlist_text.specs.Lookups.{word_of_kind};
ghost use Rattle.netlist_text.specs.Show.{after_spaces, words_in, text_of_lines, name_at, cell_text, net_words, port_words, part_words, component_words_by, mode_words_by, pin_words, inner_words, block_lines, component_words, cost_lines, mode_words, reading_words, text_of, names_of_ports};

use bench_io::{Failed, Sink, put, put_number};
use circuit_model::{Cell, Component, Fact, Kind, Mode, Name, Pins, Present, limits};
use itoa::Buffer;

// The words, each after a space.
fn put_words<K: Sink>(sink: &mut K, failed: bool, words: &[&[u8]]) -> bool
    ensures { Puts failed result (K.told sink.old) (K.told sink.new) (after_spaces (words_in words.now)) }
{
    let mut failed = failed;
    for word in words {
        failed = put(sink, failed, b" ");
        failed = put(sink, failed, word);
    }
    failed
}

// A line of these words, of which the first stands apart.
fn put_line<K: Sink>(sink: &mut K, failed: bool, first: &[u8], words: &[&[u8]]) -> bool
    ensures { Puts failed result (K.told sink.old) (K.told sink.new) (text_of_lines ((first.now ∷ words_in words.now) ∷ [])) }
{
    let failed = put(sink, failed, first);
    let failed = put_words(sink, failed, words);
    put(sink, failed, b"\n")
}

// A line of these words and a number.
fn put_line_with<K: Sink>(
    sink: &mut K,
    failed: bool,
    first: &[u8],
    words: &[&[u8]],
    number: u64,
) -> bool
    ensures { Puts failed result (K.told sink.old) (K.told sink.new) (text_of_lines ((first.now ∷ words_in words.now ++ decimal number ∷ []) ∷ [])) }
{
    let failed = put(sink, failed, first);
    let failed = put_words(sink, failed, words);
    let failed = put(sink, failed, b" ");
    let failed = put_number(sink, failed, number);
    put(sink, failed, b"\n")
}

fn put_cycle<K: Sink>(sink: &mut K, failed: bool, cycle: u8) -> bool
    ensures { Puts failed result (K.told sink.old) (K.told sink.new) (if cycle == 0 then [] else codes "@" ++ decimal cycle) }
{
    if cycle == 0 {
        return put(sink, failed, b"");
    }
    let failed = put(sink, failed, b"@");
    put_number(sink, failed, cycle as u64)
}

/// Writes the cell: the net's name, and where the cycle is not 0, `@` and the cycle.
pub fn put_cell<K: Sink>(sink: &mut K, failed: bool, present: &Present, cell: Cell) -> bool
    requires { cell.net < length present.now.nets }
    ensures { Puts failed result (K.told sink.old) (K.told sink.new) (cell_text present.now cell) }
{
    let (name, _) = present.net_at(cell.net);
    let failed = put(sink, failed, name.bytes());
    put_cycle(sink, failed, cell.cycle)
}

fn put_nets<K: Sink>(sink: &mut K, failed: bool, present: &Present) -> bool
    ensures { Puts failed result (K.told sink.old) (K.told sink.new) (text_of_lines (map net_words present.now.nets)) }
{
    let mut failed = failed;
    for place in 0..present.nets() {
        let (name, width) = present.net_at(place);
        failed = put_line_with(sink, failed, b"net", &[name.bytes()], width.bits() as u64);
    }
    failed
}

// The first word of the line of a component of the kind.
fn word_of_kind(kind: Kind) -> &'static [u8]
    ensures { result.now ≡ word_of_kind kind }
{
    match kind {
        Kind::Buf => b"buf",
        Kind::Not => b"not",
        Kind::And => b"and",
        Kind::Or => b"or",
        Kind::Xor => b"xor",
        Kind::Nand => b"nand",
        Kind::Nor => b"nor",
        Kind::Xnor => b"xnor",
        Kind::Add => b"add",
        Kind::Mul => b"mul",
        Kind::Const { .. } => b"const",
        Kind::Reg { .. } => b"reg",
        Kind::Block { .. } => b"use",
    }
}

/// The names at the three places of a component.
#[derive(Clone, Copy)]
struct Ports {
    first: Name,
    second: Name,
    third: Name,
}

// The name of a component, those at its ports and its value, each after a space.
fn put_ports<K: Sink>(sink: &mut K, failed: bool, kind: Kind, name: &Name, ports: Ports) -> bool
    requires { block_in kind ≡ None }
    ensures { Puts failed result (K.told sink.old) (K.told sink.new) (after_spaces (name.now ∷ port_words kind (names_of_ports ports))) }
{
    let mut buffer = Buffer::new();
    let name = name.bytes();
    let first = ports.first.bytes();
    let second = ports.second.bytes();
    let third = ports.third.bytes();
    match kind {
        Kind::Buf | Kind::Not => put_words(sink, failed, &[name, first, second]),
        Kind::And
        | Kind::Or
        | Kind::Xor
        | Kind::Nand
        | Kind::Nor
        | Kind::Xnor
        | Kind::Add
        | Kind::Mul => put_words(sink, failed, &[name, first, second, third]),
        Kind::Const { value } => {
            let value = buffer.format(value).as_bytes();
            put_words(sink, failed, &[name, first, value])
        }
        Kind::Reg { reset } => {
            let reset = buffer.format(reset).as_bytes();
            put_words(sink, failed, &[name, first, second, reset])
        }
        Kind::Block { .. } => unreachable!(),
    }
}

// The names of three nets.
fn net_names(present: &Present, nets: [u16; 3]) -> Ports
    requires { All (λ n. n < length present.now.nets) nets }
    ensures { names_of_ports result ≡ map (name_at present.now.nets) nets }
{
    let (first, _) = present.net_at(nets[0]);
    let (second, _) = present.net_at(nets[1]);
    let (third, _) = present.net_at(nets[2]);
    Ports {
        first,
        second,
        third,
    }
}

// The line of a component that is no block.
fn put_part<K: Sink>(sink: &mut K, failed: bool, present: &Present, component: &Component) -> bool
    requires plain { block_in component.now.kind ≡ None }
    requires lawful { IsLawfulComponent present.now component.now }
    ensures { Puts failed result (K.told sink.old) (K.told sink.new) (text_of_lines (part_words component.now.kind component.now.name (map (name_at present.now.nets) component.now.nets) ∷ [])) }
{
    let kind = component.kind;
    let nets = component.nets;
    let failed = put(sink, failed, word_of_kind(kind));
    let failed = put_ports(
        sink,
        failed,
        kind,
        &component.name,
        net_names(present, nets),
    );
    put(sink, failed, b"\n")
}

// The names of the nets in the row, each after a space.
fn put_net_names<K: Sink>(sink: &mut K, failed: bool, present: &Present, nets: &Pins) -> bool
    requires { All (λ n. n < length present.now.nets) nets.now }
    ensures { Puts failed result (K.told sink.old) (K.told sink.new) (after_spaces (map (name_at present.now.nets) nets.now)) }
{
    let mut failed = failed;
    for place in 0..nets.len() {
        let (name, _) = present.net_at(nets.at(place));
        failed = put_words(sink, failed, &[name.bytes()]);
    }
    failed
}

// The line of a component that is a block of the definition.
fn put_use<K: Sink>(
    sink: &mut K,
    failed: bool,
    present: &Present,
    block: u16,
    component: &Component,
) -> bool
    requires { IsUse present.now block component.now }
    ensures { Puts failed result (K.told sink.old) (K.told sink.new) (text_of_lines (component_words_by present.now (Some block) component.now ∷ [])) }
{
    let definition = present.block_name(block);
    let names = [definition.bytes(), component.name.bytes()];
    let failed = put(sink, failed, b"use");
    let failed = put_words(sink, failed, &names);
    let failed = put_net_names(sink, failed, present, &component.pins);
    put(sink, failed, b"\n")
}

fn put_component<K: Sink>(
    sink: &mut K,
    failed: bool,
    present: &Present,
    component: &Component,
) -> bool
    requires { IsLawfulComponent present.now component.now }
    ensures { Puts failed result (K.told sink.old) (K.told sink.new) (text_of_lines (component_words present.now component.now ∷ [])) }
{
    match component.kind.block() {
        Some(block) => put_use(sink, failed, present, block, component),
        None => put_part(sink, failed, present, component),
    }
}

fn put_components<K: Sink>(sink: &mut K, failed: bool, present: &Present) -> bool
    ensures { Puts failed result (K.told sink.old) (K.told sink.new) (text_of_lines (map (component_words present.now) present.now.parts)) }
{
    let mut failed = failed;
    for place in 0..present.parts() {
        failed = put_component(sink, failed, present, present.part_at(place));
    }
    failed
}

// The line of a component's cost, where that is not the usual one.
fn put_cost<K: Sink>(sink: &mut K, failed: bool, component: &Component) -> bool
    ensures { Puts failed result (K.told sink.old) (K.told sink.new) (text_of_lines (cost_lines component.now)) }
{
    if component.cost == limits::USUAL_COST {
        return put(sink, failed, b"");
    }
    put_line_with(
        sink,
        failed,
        b"cost",
        &[component.name.bytes()],
        component.cost as u64,
    )
}

fn put_costs<K: Sink>(sink: &mut K, failed: bool, present: &Present) -> bool
    ensures { Puts failed result (K.told sink.old) (K.told sink.new) (text_of_lines (flat_map cost_lines present.now.parts)) }
{
    let mut failed = failed;
    for place in 0..present.parts() {
        failed = put_cost(sink, failed, present.part_at(place));
    }
    failed
}

// The line of a mode that the component is stuck at the value.
fn put_stuck<K: Sink>(sink: &mut K, failed: bool, name: &Name, value: u64, cost: u8) -> bool
    ensures { Puts failed result (K.told sink.old) (K.told sink.new) (text_of_lines ((codes "stuck" ∷ name.now ∷ decimal value ∷ decimal cost ∷ []) ∷ [])) }
{
    let failed = put(sink, failed, b"stuck");
    let failed = put_words(sink, failed, &[name.bytes()]);
    let failed = put(sink, failed, b" ");
    let failed = put_number(sink, failed, value);
    let failed = put(sink, failed, b" ");
    let failed = put_number(sink, failed, cost as u64);
    put(sink, failed, b"\n")
}

// The line of a mode that the component acts as the kind.
fn put_acts<K: Sink>(sink: &mut K, failed: bool, name: &Name, kind: Kind, cost: u8) -> bool
    ensures { Puts failed result (K.told sink.old) (K.told sink.new) (text_of_lines ((codes "acts" ∷ name.now ∷ word_of_kind kind ∷ decimal cost ∷ []) ∷ [])) }
{
    let failed = put(sink, failed, b"acts");
    let failed = put_words(sink, failed, &[name.bytes()]);
    let failed = put_words(sink, failed, &[word_of_kind(kind)]);
    let failed = put(sink, failed, b" ");
    let failed = put_number(sink, failed, cost as u64);
    put(sink, failed, b"\n")
}

fn put_mode<K: Sink>(sink: &mut K, failed: bool, name: &Name, mode: Mode, cost: u8) -> bool
    ensures { Puts failed result (K.told sink.old) (K.told sink.new) (text_of_lines (mode_words_by mode name.now cost ∷ [])) }
{
    match mode {
        Mode::Stuck { value } => put_stuck(sink, failed, name, value, cost),
        Mode::Acts { kind } => put_acts(sink, failed, name, kind, cost),
    }
}

fn put_modes<K: Sink>(sink: &mut K, failed: bool, present: &Present) -> bool
    ensures { Puts failed result (K.told sink.old) (K.told sink.new) (text_of_lines (map mode_words present.now.modes)) }
{
    let mut failed = failed;
    for place in 0..present.modes() {
        let (name, mode, cost) = present.mode_at(place);
        failed = put_mode(sink, failed, &name, mode, cost);
    }
    failed
}

// The line of a measurement.
fn put_reading<K: Sink>(sink: &mut K, failed: bool, present: &Present, fact: Fact) -> bool
    requires { fact.cell.net < length present.now.nets }
    ensures { Puts failed result (K.told sink.old) (K.told sink.new) (text_of_lines (reading_words present.now fact ∷ [])) }
{
    let failed = put(sink, failed, b"measure ");
    let failed = put_cell(sink, failed, present, fact.cell);
    let failed = put(sink, failed, b" ");
    let failed = put_number(sink, failed, fact.value);
    put(sink, failed, b"\n")
}

fn put_readings<K: Sink>(sink: &mut K, failed: bool, present: &Present) -> bool
    ensures { Puts failed result (K.told sink.old) (K.told sink.new) (text_of_lines (map (reading_words present.now) present.now.readings)) }
{
    let mut failed = failed;
    for place in 0..present.readings() {
        failed = put_reading(sink, failed, present, present.reading(place));
    }
    failed
}
// The names of three pins of a definition.
fn pin_names(present: &Present, block: u16, pins: [u16; 3]) -> Ports
    requires block { block < length present.now.blocks }
    requires pins { All (λ k. k < length (block_at present.now block).pins) pins }
    ensures { names_of_ports result ≡ map (name_at (block_at present.now block).pins) pins }
{
    let (first, _) = present.pin_at(block, pins[0]);
    let (second, _) = present.pin_at(block, pins[1]);
    let (third, _) = present.pin_at(block, pins[2]);
    Ports {
        first,
        second,
        third,
    }
}

fn put_pins<K: Sink>(sink: &mut K, failed: bool, present: &Present, block: u16) -> bool
    requires { block < length present.now.blocks }
    ensures { Puts failed result (K.told sink.old) (K.told sink.new) (text_of_lines (map (pin_words (block_at present.now block).name) (block_at present.now block).pins)) }
{
    let mut failed = failed;
    let definition = present.block_name(block);
    for place in 0..present.pins_of(block) {
        let (name, width) = present.pin_at(block, place);
        let names = [definition.bytes(), name.bytes()];
        failed = put_line_with(sink, failed, b"pin", &names, width.bits() as u64);
    }
    failed
}

// The line of an inner component of a definition.
fn put_inner<K: Sink>(
    sink: &mut K,
    failed: bool,
    present: &Present,
    block: u16,
    name: &Name,
    kind: Kind,
    pins: [u16; 3],
) -> bool
    requires block { block < length present.now.blocks }
    requires lawful { IsLawfulInner (block_at present.now block).pins (record { name = name.now; kind = kind; pins = pins }) }
    ensures { Puts failed result (K.told sink.old) (K.told sink.new) (text_of_lines (inner_words (block_at present.now block).name (block_at present.now block).pins (record { name = name.now; kind = kind; pins = pins }) ∷ [])) }
{
    let definition = present.block_name(block);
    let ports = pin_names(present, block, pins);
    let failed = put(sink, failed, b"inside");
    let failed = put_words(sink, failed, &[definition.bytes()]);
    let failed = put_words(sink, failed, &[word_of_kind(kind)]);
    let failed = put_ports(sink, failed, kind, name, ports);
    put(sink, failed, b"\n")
}

fn put_inners<K: Sink>(sink: &mut K, failed: bool, present: &Present, block: u16) -> bool
    requires there { block < length present.now.blocks }
    requires lawful { IsLawfulBlock (block_at present.now block) }
    ensures { Puts failed result (K.told sink.old) (K.told sink.new) (text_of_lines (map (inner_words (block_at present.now block).name (block_at present.now block).pins) (block_at present.now block).inners)) }
{
    let mut failed = failed;
    for place in 0..present.inners_of(block) {
        let (name, kind, pins) = present.inner_at(block, place);
        failed = put_inner(sink, failed, present, block, &name, kind, pins);
    }
    failed
}

fn put_block<K: Sink>(sink: &mut K, failed: bool, present: &Present, block: u16) -> bool
    requires there { block < length present.now.blocks }
    requires lawful { IsLawfulBlock (block_at present.now block) }
    ensures { Puts failed result (K.told sink.old) (K.told sink.new) (text_of_lines (block_lines (block_at present.now block))) }
{
    let name = present.block_name(block);
    let failed = put_line(sink, failed, b"define", &[name.bytes()]);
    let failed = put_pins(sink, failed, present, block);
    put_inners(sink, failed, present, block)
}

fn put_blocks<K: Sink>(sink: &mut K, failed: bool, present: &Present) -> bool
    ensures { Puts failed result (K.told sink.old) (K.told sink.new) (text_of_lines (flat_map block_lines present.now.blocks)) }
{
    let mut failed = failed;
    for block in 0..present.blocks() {
        failed = put_block(sink, failed, present, block);
    }
    failed
}

/// Writes the text of the present, as `show` has it. At `Err` a front of it was written. It takes no memory.
pub fn write_present<K: Sink>(present: &Present, sink: &mut K) -> Result<(), Failed>
    ensures { Writes (K.told sink.old) (K.told sink.new) result (text_of present.now) }
{
    let failed = put_line(sink, false, b"#", &[b"gde", b"2"]);
    let failed = put_line_with(sink, failed, b"cycles", &[], present.cycles() as u64);
    let failed = put_nets(sink, failed, present);
    let failed = put_blocks(sink, failed, present);
    let failed = put_components(sink, failed, present);
    let failed = put_costs(sink, failed, present);
    let failed = put_modes(sink, failed, present);
    let failed = put_readings(sink, failed, present);
    if put_line(sink, failed, b"#", &[b"end"]) {
        return Err(Failed);
    }
    Ok(())
}
