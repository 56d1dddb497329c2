// The lengths of rows and of arrays: those of the largest present.

use circuit_model::limits;

/// A place for each cycle.
pub const CYCLES: usize = limits::MOST_CYCLES as usize;

/// A place for each net.
pub const NETS: usize = limits::MOST_NETS as usize;

/// A place for each component.
pub const PARTS: usize = limits::MOST_PARTS as usize;
