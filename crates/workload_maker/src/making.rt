// Polyboxes with one output measured wrong.
ghost use Rattle.std.specs.Prelude.{◌≡◌, ◌↔◌, ◌⊎◌, ◌≤◌, ◌<◌, IfOk, Err};
ghost use Rattle.std.specs.List.{All};
ghost use Rattle.netlist_text.specs.Grammar.{IsPadded};
ghost use Rattle.workload_maker.specs.Boxes as spec;
ghost use Rattle.workload_maker.specs.declared.making.TheConstants.{MOST_BOXES};

use crate::boxes::add_box;
use netlist_text::Change;
use rand_core::SeedableRng;
use rand_core::utils::NextWord;
use rand_xoshiro::SplitMix64;
use std::alloc::{AllocError, Global};
use thiserror::Error;

/// The most boxes that are made.
pub const MOST_BOXES: u64 = 9;

/// Why there are no boxes.
#[derive(Clone, Copy, Debug, PartialEq, Eq, Error)]
pub enum MakeStop {
    /// The number of boxes is outside 1 to [`MOST_BOXES`].
    #[error("there are 1 to 9 boxes")]
    Size,
    /// Memory ran out.
    #[error("memory ran out")]
    OutOfMemory,
}

/// So many polyboxes (de Kleer and Williams 1987), one after the other, by the words of SplitMix64 from the seed on: the
/// lines of their nets, components and measurements. In each the output F is measured wrong, and G right.
pub fn polyboxes(alloc: Global, count: u64, seed: u64) -> Result<Vec<Change>, MakeStop>
    ensures boxes { IfOk result (λ changes. changes.items ≡ spec.boxes count seed) }
    ensures padded { IfOk result (λ changes. All IsPadded changes.items) }
    ensures size { result ≡ Err MakeStop.Size ↔ ((count ≡ 0) ⊎ (MOST_BOXES < count)) }
{
    if count == 0 || count > MOST_BOXES {
        return Err(MakeStop::Size);
    }
    match made(alloc, count as u8, seed) {
        Ok(changes) => Ok(changes),
        Err(_) => Err(MakeStop::OutOfMemory),
    }
}

fn made(alloc: Global, count: u8, seed: u64) -> Result<Vec<Change>, AllocError>
    requires { count ≤ MOST_BOXES }
    ensures boxes { IfOk result (λ changes. changes.items ≡ spec.boxes count seed) }
    ensures padded { IfOk result (λ changes. All IsPadded changes.items) }
{
    let mut changes = Vec::new(alloc);
    let mut generator = SplitMix64::seed_from_u64(seed);
    for box_before in 0..count {
        let word = generator.next_word();
        add_box(&mut changes, box_before + 1, word)?;
    }
    Ok(changes)
}
