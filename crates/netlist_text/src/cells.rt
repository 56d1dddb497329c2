// Words that stand for
ghost use Rattle.std.specs.Prelude.{◌≡◌, true, MatchOption, Some, None};
ghost use Rattle.std.specs.List.{position_or_len};
ghost use Rattle.netlist_text.specs.Cells.{is_at, net_part, cycle_part, has_cycle, cycle_of};

use crate::words::{is_number, number_of};

// The place of the first `@`, or the length.
fn at_place(word: &[u8]) -> usize
    ensures { result ≡ position_or_len is_at word.now }
{
    for (i, b) in word.iter().enumerate() {
        if *b == b'@' {
            return i;
        }
    }
    word.len()
}

/// The part before the first `@`, or the whole word.
pub fn net_part(word: &[u8]) -> &[u8]
    ensures { result.now ≡ net_part word.now }
{
    &word[..at_place(word)]
}

// The part after the first `@`.
fn cycle_part(word: &[u8]) -> Option<&[u8]>
    ensures { MatchOption result (cycle_part word.now ≡ None) (λ part. cycle_part word.now ≡ Some part.now) }
{
    let at = at_place(word);
    if at < word.len() {
        Some(&word[at + 1..])
    } else {
        None
    }
}

/// Whether what follows the first `@`, if there is one, is a number.
pub fn has_cycle(word: &[u8]) -> bool
    ensures { result ≡ has_cycle word.now }
{
    match cycle_part(word) {
        Some(part) => is_number(part),
        None => true,
    }
}

/// The number after the first `@`, or 0 without one.
pub fn cycle_of(word: &[u8]) -> u64
    requires { has_cycle word.now ≡ true }
    ensures { result ≡ cycle_of word.now }
{
    match cycle_part(word) {
        Some(part) => number_of(part),
        None => 0,
    }
}
