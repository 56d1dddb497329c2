// How the words at an instance's ports are written: the ports as a number, and the facts at them.

ghost use Rattle.std.specs.Prelude.{◌≡◌, ◌≤◌, ◌∷◌, [], IsTrue, ◌↔◌};
ghost use Rattle.std.specs.Option.{option_map};
ghost use Rattle.circuit_model.specs.Closure.{fact};
ghost use Rattle.circuit_model.specs.Derivation as derivations;
ghost use Rattle.circuit_model.specs.Derivation.{facts_at};
ghost use Rattle.proof_check.specs.Written.{given, at_two_places};
ghost use Rattle.proof_check.specs.Checking as checking;
ghost use Rattle.proof_check.specs.Checking.{words_at_choice};

use circuit_model::{Cell, Fact};

/// Which of an instance's three places are chosen: at each number the ports whose number it is. That all three are
/// chosen is left out, since some port has to be open.
pub const CHOICES: [[bool; 3]; 7] = [
    [false, false, false],
    [true, false, false],
    [false, true, false],
    [true, true, false],
    [false, false, true],
    [true, false, true],
    [false, true, true],
];

/// The ports with a known word, as a binary number.
pub fn number_of(known: &[Option<u64>; 3]) -> u8
    ensures { result ≡ derivations.number_of known.now }
{
    let [a, b, z] = *known;
    bit(a) + 2 * bit(b) + 4 * bit(z)
}

fn bit(word: Option<u64>) -> u8
    ensures value { result ≡ derivations.number_of (word ∷ []) }
    ensures low { result ≤ 1 }
{
    match word {
        None => 0,
        Some(_) => 1,
    }
}

/// The facts at the ports with a known word, in their order; where there are three, the first two.
pub fn facts_known(cells: &[Cell; 3], known: &[Option<u64>; 3]) -> [Option<Fact>; 2]
    ensures { result ≡ at_two_places (facts_at cells.now known.now) }
{
    let [c, d, e] = *cells;
    let [a, b, z] = *known;
    first_two(fact_at(c, a), fact_at(d, b), fact_at(e, z))
}

/// The word, if one is known, at the cell.
fn fact_at(cell: Cell, word: Option<u64>) -> Option<Fact>
    ensures { result ≡ option_map (λ v. fact cell v) word }
{
    word.map(|value| Fact { cell, value })
}

/// The first two facts that are there.
fn first_two(a: Option<Fact>, b: Option<Fact>, z: Option<Fact>) -> [Option<Fact>; 2]
    ensures { result ≡ at_two_places (given (a ∷ b ∷ z ∷ [])) }
{
    if a.is_none() {
        in_front(b, z)
    } else if b.is_none() {
        [a, z]
    } else {
        [a, b]
    }
}

/// The facts that are there, from the first place on.
fn in_front(a: Option<Fact>, b: Option<Fact>) -> [Option<Fact>; 2]
    ensures { result ≡ at_two_places (given (a ∷ b ∷ [])) }
{
    if a.is_none() { [b, None] } else { [a, b] }
}

/// The facts that are there, from the first place on.
pub fn in_order(from: &[Option<Fact>; 2]) -> [Option<Fact>; 2]
    ensures { result ≡ at_two_places (given from.now) }
{
    let [a, b] = *from;
    in_front(a, b)
}

/// The words of the facts, at the chosen places in their order.
pub fn words_at(choice: &[bool; 3], from: &[Option<Fact>; 2]) -> [Option<u64>; 3]
    ensures { result ≡ words_at_choice choice.now from.now }
{
    let [a, b, z] = *choice;
    let [first, second] = *from;
    [
        word(a, false, first, second),
        word(b, a, first, second),
        word(z, a || b, first, second),
    ]
}

/// The word at a place, if it is chosen: that of the first fact, or of the second one where an earlier place was chosen.
fn word(chosen: bool, earlier: bool, first: Option<Fact>, second: Option<Fact>) -> Option<u64>
    ensures { result ≡ checking.word_at chosen earlier first second }
{
    if !chosen {
        return None;
    }
    if earlier {
        return word_of(second);
    }
    word_of(first)
}

/// Its word.
fn word_of(fact: Option<Fact>) -> Option<u64>
    ensures { result ≡ checking.word_of fact }
{
    match fact {
        None => None,
        Some(fact) => Some(fact.value),
    }
}

/// Whether the same facts stand at the same places.
pub fn are_same(one: &[Option<Fact>; 2], other: &[Option<Fact>; 2]) -> bool
    ensures { IsTrue result ↔ (one.now ≡ other.now) }
{
    let [a, b] = *one;
    let [c, d] = *other;
    is_same(a, c) && is_same(b, d)
}

fn is_same(one: Option<Fact>, other: Option<Fact>) -> bool
    ensures { IsTrue result ↔ (one ≡ other) }
{
    one == other
}
