// The checks of changes on a present, in their order.
ghost use Rattle.std.specs.Prelude.{◌≡◌, ◌<◌, ◌≤◌, ◌+◌, ◌*◌, ◌^◌, IfOk, MatchOption, MatchResult, nat_le, nat_lt, not, is_some, true, false, length, slice_get, Some, None, ◌∷◌, [], IsTrue};
ghost use Rattle.circuit_model.specs.Closure.{fact};
ghost use Rattle.circuit_model.specs.Kinds.{are_widths, fits_value, block_in};
ghost use Rattle.circuit_model.specs.Present.{named_in, block_named, reading_in, IsFactOf};
ghost use Rattle.circuit_model.specs.declared.limits.TheConstants.{MOST_CYCLES, MOST_NETS, MOST_CELLS, MOST_PARTS, MOST_READINGS, LEAST_COST, MOST_COST, MOST_MODES, MOST_BLOCKS};
ghost use Rattle.word_domain.specs.Words.{is_width};
ghost use Rattle.netlist_text.specs.Checks as spec;
ghost use Rattle.netlist_text.specs.Lookups.{cell_of, part_of};
ghost use Rattle.netlist_text.specs.declared.misfits.Misfit.TheVariants.{WidthsDisagree, ValueDoesNotFit, ComponentsFull, BadCost, ModesFull};

use crate::finding::{has_name, net_of, part_of, width_at};
use crate::misfits::Misfit;
use circuit_model::{Cell, Fact, Kind, Name, Present, are_widths, fits_value, limits};
use word_domain::{WIDEST, Width};

fn is_count_of_cycles(count: u64) -> bool
    ensures { result ≡ spec.is_count_of_cycles count }
{
    1 <= count && count <= u64::from(limits::MOST_CYCLES)
}

pub fn is_cost(cost: u64) -> bool
    ensures { result ≡ spec.is_cost cost }
{
    u64::from(limits::LEAST_COST) <= cost && cost <= u64::from(limits::MOST_COST)
}

/// The number of cycles, unless a check refuses it.
pub fn check_cycles(present: &Present, count: u64) -> Result<u8, Misfit>
    ensures checked { MatchResult result (λ c. (spec.first_misfit (spec.checks_of_cycles present.now count) ≡ None) × (c ≡ count))
        (λ m. spec.first_misfit (spec.checks_of_cycles present.now count) ≡ Some m) }
    ensures empty { IfOk result (λ c. length present.now.nets ≡ 0) }
    ensures low { IfOk result (λ c. 1 ≤ c) }
    ensures high { IfOk result (λ c. c ≤ MOST_CYCLES) }
{
    if !is_count_of_cycles(count) {
        return Err(Misfit::BadCycle);
    }
    if present.nets() > 0 {
        return Err(Misfit::CyclesNotFirst);
    }
    Ok(count as u8)
}

/// The width of so many bits, if there is one.
pub fn width_of_bits(bits: u64) -> Option<Width>
    ensures { MatchOption result (is_width bits ≡ false) (λ width. (width ≡ bits) × (is_width bits ≡ true)) }
{
    if bits > u64::from(WIDEST) {
        return None;
    }
    Width::new(bits as u32)
}

fn are_cells_full(present: &Present) -> bool
    ensures { result ≡ nat_lt MOST_CELLS ((length present.now.nets + 1) * present.now.cycles) }
{
    (present.nets() as u32 + 1) * present.cycles() as u32 > limits::MOST_CELLS as u32
}

/// The width of a new net, unless a check refuses it.
pub fn check_net(present: &Present, name: &Name, width: u64) -> Result<Width, Misfit>
    ensures { MatchResult result (λ w. (spec.first_misfit (spec.checks_of_net present.now name.now width) ≡ None) × (w ≡ width))
        (λ m. spec.first_misfit (spec.checks_of_net present.now name.now width) ≡ Some m) }
{
    if has_name(present, name) {
        return Err(Misfit::NameTaken);
    }
    let Some(width) = width_of_bits(width) else {
        return Err(Misfit::BadWidth);
    };
    if present.nets() >= limits::MOST_NETS {
        return Err(Misfit::NetsFull);
    }
    if are_cells_full(present) {
        return Err(Misfit::CellsFull);
    }
    Ok(width)
}

/// The checks of a component of the kind whose nets have these widths, after those of its names.
pub fn check_part(present: &Present, kind: Kind, widths: &[Width; 3]) -> Result<(), Misfit>
    ensures { MatchResult result
        (λ _. (are_widths kind widths.now ≡ true) × (fits_value kind widths.now ≡ true) × (nat_le MOST_PARTS (length present.now.parts) ≡ false))
        (λ m. spec.first_misfit (
        spec.check WidthsDisagree (not (are_widths kind widths.now))
        ∷ spec.check ValueDoesNotFit (not (fits_value kind widths.now))
        ∷ spec.check ComponentsFull (nat_le MOST_PARTS (length present.now.parts))
        ∷ []) ≡ Some m) }
{
    if !are_widths(kind, widths) {
        return Err(Misfit::WidthsDisagree);
    }
    if !fits_value(kind, widths) {
        return Err(Misfit::ValueDoesNotFit);
    }
    if present.parts() >= limits::MOST_PARTS {
        return Err(Misfit::ComponentsFull);
    }
    Ok(())
}

/// The place of the component, and its cost, unless a check refuses it.
pub fn check_cost(present: &Present, name: &Name, cost: u64) -> Result<(u16, u8), Misfit>
    ensures checked { MatchResult result
        (λ c. (spec.first_misfit (spec.checks_of_cost present.now name.now cost) ≡ None) × (c.0 ≡ part_of present.now name.now) × (c.1 ≡ cost))
        (λ m. spec.first_misfit (spec.checks_of_cost present.now name.now cost) ≡ Some m) }
    ensures within { IfOk result (λ c. c.0 < length present.now.parts) }
    ensures low { IfOk result (λ c. LEAST_COST ≤ c.1) }
    ensures high { IfOk result (λ c. c.1 ≤ MOST_COST) }
{
    let Some(place) = part_of(present, name) else {
        return Err(Misfit::UnknownComponent);
    };
    if !is_cost(cost) {
        return Err(Misfit::BadCost);
    }
    Ok((place, cost as u8))
}

/// The cell of a net at a cycle, unless a check refuses it.
pub fn check_cell(present: &Present, net: &Name, cycle: u64) -> Result<Cell, Misfit>
    ensures cell { MatchResult result (λ cell. (spec.first_misfit (spec.checks_of_cell present.now net.now cycle) ≡ None) × (cell ≡ cell_of present.now net.now cycle))
        (λ m. spec.first_misfit (spec.checks_of_cell present.now net.now cycle) ≡ Some m) }
    ensures net { IfOk result (λ cell. cell.net < length present.now.nets) }
    ensures cycle { IfOk result (λ cell. cell.cycle < present.now.cycles) }
{
    let Some(place) = net_of(present, net) else {
        return Err(Misfit::UnknownNet);
    };
    if cycle >= present.cycles() as u64 {
        return Err(Misfit::BadCycle);
    }
    Ok(Cell {
        net: place,
        cycle: cycle as u8,
    })
}

/// The fact of a new measurement, unless a check refuses it.
pub fn check_reading(present: &Present, net: &Name, cycle: u64, value: u64) -> Result<Fact, Misfit>
    ensures { MatchResult result (λ f. (spec.first_misfit (spec.checks_of_reading present.now net.now cycle value) ≡ None) × (f ≡ fact (cell_of present.now net.now cycle) value))
        (λ m. spec.first_misfit (spec.checks_of_reading present.now net.now cycle value) ≡ Some m) }
{
    let cell = match check_cell(present, net, cycle) {
        Ok(cell) => cell,
        Err(misfit) => return Err(misfit),
    };
    if !width_at(present, cell.net).fits(value) {
        return Err(Misfit::ValueDoesNotFit);
    }
    if present.readings() >= limits::MOST_READINGS {
        return Err(Misfit::MeasurementsFull);
    }
    if present.reading_at(cell).is_some() {
        return Err(Misfit::AlreadyMeasured);
    }
    Ok(Fact { cell, value })
}

/// The measured cell of a net at a cycle, unless a check refuses it.
pub fn check_retract(present: &Present, net: &Name, cycle: u64) -> Result<Cell, Misfit>
    ensures { MatchResult result (λ cell. (spec.first_misfit (spec.checks_of_retract present.now net.now cycle) ≡ None) × (cell ≡ cell_of present.now net.now cycle))
        (λ m. spec.first_misfit (spec.checks_of_retract present.now net.now cycle) ≡ Some m) }
{
    let cell = match check_cell(present, net, cycle) {
        Ok(cell) => cell,
        Err(misfit) => return Err(misfit),
    };
    if present.reading_at(cell).is_none() {
        return Err(Misfit::NotMeasured);
    }
    Ok(cell)
}
