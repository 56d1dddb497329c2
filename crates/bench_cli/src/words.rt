// The words of the command line.
ghost use Rattle.std.specs.Prelude.{◌≡◌, ◌↔◌, IsTrue, codes, true};
ghost use Rattle.std.specs.String.{string_bytes};
ghost use Rattle.netlist_text.specs.Words as lines;
ghost use Rattle.bench_cli.specs.Words.{IsPlainRun, IsOrderedRun, IsBoxCount, IsMake};

use netlist_text::{is_number, number_of};
use propagation_agenda::Seeded;
use workload_maker::MOST_BOXES;

// Whether the word is these bytes.
fn is_word(word: &String, bytes: &[u8]) -> bool
    ensures { IsTrue result ↔ (string_bytes word.now ≡ bytes.now) }
{
    word.as_bytes() == bytes
}

/// Whether the words are `run`.
pub fn is_plain_run(words: &[String]) -> bool
    ensures { IsTrue result ↔ IsPlainRun words.now }
{
    words.len() == 1 && is_word(&words[0], b"run")
}

/// Whether the words are `run order` and a number.
pub fn is_ordered_run(words: &[String]) -> bool
    ensures { IsTrue result ↔ IsOrderedRun words.now }
{
    words.len() == 3 && are_ordered(&words[0], &words[1], &words[2])
}

fn are_ordered(run: &String, order: &String, number: &String) -> bool
    ensures { IsTrue result ↔ ((string_bytes run.now ≡ codes "run") × (string_bytes order.now ≡ codes "order") × (lines.is_number (string_bytes number.now) ≡ true)) }
{
    is_word(run, b"run") && is_word(order, b"order") && is_number(number.as_bytes())
}

/// The picker that `run order` and a number ask for: the words of a generator with this seed.
pub fn picker_of(words: &[String]) -> Seeded
    requires { IsOrderedRun words.now }
    ensures { (asked : IsOrderedRun words.now) → result ≡ lines.number_of asked.digits }
{
    Seeded::new(number_of(words[2].as_bytes()))
}

/// Whether the words are `make`, a number of boxes that can be made, and a seed.
pub fn is_make(words: &[String]) -> bool
    ensures { IsTrue result ↔ IsMake words.now }
{
    words.len() == 3 && ask_for_boxes(&words[0], &words[1], &words[2])
}

fn ask_for_boxes(make: &String, count: &String, seed: &String) -> bool
    ensures { IsTrue result ↔ ((string_bytes make.now ≡ codes "make") × IsBoxCount (string_bytes count.now) × (lines.is_number (string_bytes seed.now) ≡ true)) }
{
    is_word(make, b"make") && is_box_count(count.as_bytes()) && is_number(seed.as_bytes())
}

fn is_box_count(word: &[u8]) -> bool
    ensures { IsTrue result ↔ IsBoxCount word.now }
{
    is_number(word) && number_of(word) >= 1 && number_of(word) <= MOST_BOXES
}

/// The number of boxes that `make` asks for.
pub fn boxes_of(words: &[String]) -> u64
    requires { IsMake words.now }
    ensures { (asked : IsMake words.now) → result ≡ lines.number_of asked.count }
{
    number_of(words[1].as_bytes())
}

/// The seed that `make` asks for.
pub fn seed_of(words: &[String]) -> u64
    requires { IsMake words.now }
    ensures { (asked : IsMake words.now) → result ≡ lines.number_of asked.seed }
{
    number_of(words[2].as_bytes())
}
