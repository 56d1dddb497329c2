// The lines of a derivation, written without memory.
ghost use Rattle.std.specs.Prelude.{ℕ, ◌<◌, [], ◌∷◌, ◌++◌, codes, length, map};
ghost use Rattle.std.specs.Option.{ForSome};
ghost use Rattle.bench_io.specs.Puts.{Puts};
ghost use Rattle.bench_io.specs.Writing.{Writes};
ghost use Rattle.circuit_model.specs.declared.model.Fact.{Fact};
ghost use Rattle.circuit_model.specs.Derivation as derivations;
ghost use Rattle.environment_sets.specs.Lists.{IsIn};
ghost use Rattle.proof_check.specs.Written.{given, step_of, ending_of, derivation_of};
ghost use Rattle.circuit_model.specs.Chosen.{chosen_places};
ghost use Rattle.answer_text.specs.Derivations.{part_name, facts_text, from_text, step_line, step_lines, ending_line, derivation_lines, under_line, HasNet, AreNamed, IsNamedStep, IsNamedEnding, CanBeWritten};

use crate::chosen::put_chosen;
use crate::texts::put_fact;
use bench_io::{Failed, Sink, put};
use circuit_model::{Cell, Chosen, Fact, Present};
use proof_check::{Derivation, Ending, Step, Steps};

fn put_part_name<K: Sink>(sink: &mut K, failed: bool, present: &Present, position: u16) -> bool
    requires { position < length present.now.parts }
    ensures { Puts failed result (K.told sink.old) (K.told sink.new) (part_name present.now position) }
{
    let part = present.part_at(position);
    put(sink, failed, part.name.bytes())
}

// Two facts, with a comma between them.
fn put_both<K: Sink>(
    sink: &mut K,
    failed: bool,
    present: &Present,
    first: Fact,
    second: Fact,
) -> bool
    requires first { HasNet present.now first }
    requires second { HasNet present.now second }
    ensures { Puts failed result (K.told sink.old) (K.told sink.new) (facts_text present.now (first ∷ second ∷ [])) }
{
    let failed = put_fact(sink, failed, present, first);
    let failed = put(sink, failed, b",");
    put_fact(sink, failed, present, second)
}

// One fact, and after a comma the other, if there is one.
fn put_fact_with<K: Sink>(
    sink: &mut K,
    failed: bool,
    present: &Present,
    first: Fact,
    second: Option<Fact>,
) -> bool
    requires first { HasNet present.now first }
    requires second { ForSome second (HasNet present.now) }
    ensures { Puts failed result (K.told sink.old) (K.told sink.new) (facts_text present.now (first ∷ given (second ∷ []))) }
{
    match second {
        Some(second) => put_both(sink, failed, present, first, second),
        None => put_fact(sink, failed, present, first),
    }
}

// The facts that are there, with a comma between them.
fn put_two_facts<K: Sink>(
    sink: &mut K,
    failed: bool,
    present: &Present,
    first: Option<Fact>,
    second: Option<Fact>,
) -> bool
    requires first { ForSome first (HasNet present.now) }
    requires second { ForSome second (HasNet present.now) }
    ensures { Puts failed result (K.told sink.old) (K.told sink.new) (facts_text present.now (given (first ∷ second ∷ []))) }
{
    match first {
        Some(first) => put_fact_with(sink, failed, present, first, second),
        None => put_fact_if(sink, failed, present, second),
    }
}

// The fact, if there is one.
fn put_fact_if<K: Sink>(sink: &mut K, failed: bool, present: &Present, fact: Option<Fact>) -> bool
    requires { ForSome fact (HasNet present.now) }
    ensures { Puts failed result (K.told sink.old) (K.told sink.new) (facts_text present.now (given (fact ∷ []))) }
{
    match fact {
        Some(fact) => put_fact(sink, failed, present, fact),
        None => put(sink, failed, b""),
    }
}

// ` from `, one fact, and after a comma the other, if there is one.
fn put_from_with<K: Sink>(
    sink: &mut K,
    failed: bool,
    present: &Present,
    first: Fact,
    second: Option<Fact>,
) -> bool
    requires first { HasNet present.now first }
    requires second { ForSome second (HasNet present.now) }
    ensures { Puts failed result (K.told sink.old) (K.told sink.new) (from_text present.now (first ∷ given (second ∷ []))) }
{
    let failed = put(sink, failed, b" from ");
    put_fact_with(sink, failed, present, first, second)
}

// ` from ` and the facts that are there, if there are any.
fn put_two_from<K: Sink>(
    sink: &mut K,
    failed: bool,
    present: &Present,
    first: Option<Fact>,
    second: Option<Fact>,
) -> bool
    requires first { ForSome first (HasNet present.now) }
    requires second { ForSome second (HasNet present.now) }
    ensures { Puts failed result (K.told sink.old) (K.told sink.new) (from_text present.now (given (first ∷ second ∷ []))) }
{
    match first {
        Some(first) => put_from_with(sink, failed, present, first, second),
        None => put_one_from(sink, failed, present, second),
    }
}

// ` from ` and the fact, if there is one.
fn put_one_from<K: Sink>(sink: &mut K, failed: bool, present: &Present, fact: Option<Fact>) -> bool
    requires { ForSome fact (HasNet present.now) }
    ensures { Puts failed result (K.told sink.old) (K.told sink.new) (from_text present.now (given (fact ∷ []))) }
{
    match fact {
        Some(fact) => put_from_with(sink, failed, present, fact, None),
        None => put(sink, failed, b""),
    }
}

// The facts, with a comma between them.
fn put_facts<K: Sink>(
    sink: &mut K,
    failed: bool,
    present: &Present,
    from: &[Option<Fact>; 2],
) -> bool
    requires { (f : Fact) → IsIn (given from.now) f → HasNet present.now f }
    ensures { Puts failed result (K.told sink.old) (K.told sink.new) (facts_text present.now (given from.now)) }
{
    let [first, second] = *from;
    put_two_facts(sink, failed, present, first, second)
}

// ` from ` and the facts, if there are any.
fn put_from<K: Sink>(
    sink: &mut K,
    failed: bool,
    present: &Present,
    from: &[Option<Fact>; 2],
) -> bool
    requires { (f : Fact) → IsIn (given from.now) f → HasNet present.now f }
    ensures { Puts failed result (K.told sink.old) (K.told sink.new) (from_text present.now (given from.now)) }
{
    let [first, second] = *from;
    put_two_from(sink, failed, present, first, second)
}

// The line of a measured fact.
fn put_measured<K: Sink>(sink: &mut K, failed: bool, present: &Present, fact: Fact) -> bool
    requires { HasNet present.now fact }
    ensures { Puts failed result (K.told sink.old) (K.told sink.new) (step_line present.now (derivations.Measured fact)) }
{
    let failed = put_fact(sink, failed, present, fact);
    put(sink, failed, b" measured\n")
}

// The line of an inferred fact.
fn put_inferred<K: Sink>(
    sink: &mut K,
    failed: bool,
    present: &Present,
    fact: Fact,
    part: u16,
    from: &[Option<Fact>; 2],
) -> bool
    requires fact { HasNet present.now fact }
    requires behind { AreNamed present.now part (given from.now) }
    ensures { (instance ports : ℕ) → Puts failed result (K.told sink.old) (K.told sink.new) (step_line present.now (derivations.Inferred fact part instance ports (given from.now))) }
{
    let failed = put_fact(sink, failed, present, fact);
    let failed = put(sink, failed, b" by ");
    let failed = put_part_name(sink, failed, present, part);
    let failed = put_from(sink, failed, present, from);
    put(sink, failed, b"\n")
}

fn put_step<K: Sink>(sink: &mut K, failed: bool, present: &Present, step: &Step) -> bool
    requires { IsNamedStep present.now (step_of step.now) }
    ensures { Puts failed result (K.told sink.old) (K.told sink.new) (step_line present.now (step_of step.now)) }
{
    match *step {
        Step::Measured { fact } => put_measured(sink, failed, present, fact),
        Step::Inferred {
            fact,
            part,
            from,
            ..
        } => put_inferred(sink, failed, present, fact, part, &from),
    }
}

// The lines of the steps, in order.
fn put_steps<K: Sink>(sink: &mut K, failed: bool, present: &Present, steps: &Steps) -> bool
    requires { (t : derivations.Step) → IsIn (map step_of steps.now) t → IsNamedStep present.now t }
    ensures { Puts failed result (K.told sink.old) (K.told sink.new) (step_lines present.now (map step_of steps.now)) }
{
    let mut failed = failed;
    for i in 0..steps.len() {
        failed = put_step(sink, failed, present, steps.at(i));
    }
    failed
}

// The line of a clash of two words.
fn put_two_values<K: Sink>(
    sink: &mut K,
    failed: bool,
    present: &Present,
    cell: Cell,
    low: u64,
    high: u64,
) -> bool
    requires { cell.net < length present.now.nets }
    ensures { Puts failed result (K.told sink.old) (K.told sink.new) (ending_line present.now (derivations.TwoValues cell low high)) }
{
    let failed = put(sink, failed, b"clash ");
    let failed = put_fact(sink, failed, present, Fact { cell, value: low });
    let failed = put(sink, failed, b",");
    let failed = put_fact(sink, failed, present, Fact { cell, value: high });
    put(sink, failed, b"\n")
}

// The line of a component that is refuted.
fn put_refuted<K: Sink>(
    sink: &mut K,
    failed: bool,
    present: &Present,
    part: u16,
    from: &[Option<Fact>; 2],
) -> bool
    requires { AreNamed present.now part (given from.now) }
    ensures { (instance ports : ℕ) → Puts failed result (K.told sink.old) (K.told sink.new) (ending_line present.now (derivations.Refuted part instance ports (given from.now))) }
{
    let failed = put(sink, failed, b"clash ");
    let failed = put_part_name(sink, failed, present, part);
    let failed = put(sink, failed, b" refuted by ");
    let failed = put_facts(sink, failed, present, from);
    put(sink, failed, b"\n")
}

// The line of the ending, if it has one.
fn put_ending<K: Sink>(sink: &mut K, failed: bool, present: &Present, ending: &Ending) -> bool
    requires { IsNamedEnding present.now (ending_of ending.now) }
    ensures { Puts failed result (K.told sink.old) (K.told sink.new) (ending_line present.now (ending_of ending.now)) }
{
    match *ending {
        Ending::Holds => put(sink, failed, b""),
        Ending::TwoValues { cell, low, high } => {
            put_two_values(sink, failed, present, cell, low, high)
        }
        Ending::Refuted { part, from, .. } => put_refuted(sink, failed, present, part, &from),
    }
}

// The line of the environment that a derivation is under.
fn put_under<K: Sink>(sink: &mut K, failed: bool, present: &Present, chosen: &Chosen) -> bool
    ensures { Puts failed result (K.told sink.old) (K.told sink.new) (under_line present.now (chosen_places chosen.now)) }
{
    let failed = put(sink, failed, b"under ");
    let failed = put_chosen(sink, failed, present, chosen);
    put(sink, failed, b"\n")
}

// The lines of the steps, then that of the ending.
fn put_derivation<K: Sink>(
    sink: &mut K,
    failed: bool,
    present: &Present,
    derivation: &Derivation,
) -> bool
    requires { CanBeWritten present.now (derivation_of derivation.now) }
    ensures { Puts failed result (K.told sink.old) (K.told sink.new) (derivation_lines present.now (derivation_of derivation.now)) }
{
    let failed = put_steps(sink, failed, present, &derivation.steps);
    put_ending(sink, failed, present, &derivation.ending)
}

/// The environment, the lines of a derivation under it, and `ok`.
pub fn write_derivation<K: Sink>(
    present: &Present,
    chosen: &Chosen,
    derivation: &Derivation,
    sink: &mut K,
) -> Result<(), Failed>
    requires { CanBeWritten present.now (derivation_of derivation.now) }
    ensures { Writes (K.told sink.old) (K.told sink.new) result
        (under_line present.now (chosen_places chosen.now) ++ derivation_lines present.now (derivation_of derivation.now) ++ codes "ok\n") }
{
    let failed = put_under(sink, false, present, chosen);
    let failed = put_derivation(sink, failed, present, derivation);
    if put(sink, failed, b"ok\n") {
        return Err(Failed);
    }
    Ok(())
}
