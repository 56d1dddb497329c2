// The limits of circuits, of presents and of what is asked of them. Each is stated here alone.

/// The most bytes of a name.
pub const LONGEST_NAME: usize = 32;

/// The most cycles of a present; the least is one.
pub const MOST_CYCLES: u8 = 16;

/// The most nets of a present.
pub const MOST_NETS: u16 = 256;

/// The most cells of a present: its nets times its cycles.
pub const MOST_CELLS: u16 = 1024;

/// The most components of a present.
pub const MOST_PARTS: u16 = 256;

/// The most standing measurements of a present.
pub const MOST_READINGS: u16 = 256;

/// The most earlier presents that a session keeps.
pub const MOST_EARLIER: u16 = 256;

/// The largest load of a present: the environments of all labels, and the nogoods.
pub const MOST_LOAD: u64 = 262_144;

/// The most diagnoses that are listed.
pub const MOST_DIAGNOSES: usize = 10_000;

/// The most diagnoses, or assignments of modes, that a question may ask for.
pub const MOST_ASKED: u64 = 1000;

/// The least cost of a component, and of a mode.
pub const LEAST_COST: u8 = 1;

/// The cost of a component as it is declared.
pub const USUAL_COST: u8 = 4;

/// The largest cost of a component, and of a mode.
pub const MOST_COST: u8 = 40;

/// The most modes of a present.
pub const MOST_MODES: u16 = 128;

/// The most definitions of blocks of a present.
pub const MOST_BLOCKS: u16 = 32;

/// The most pins of a definition.
pub const MOST_PINS: u16 = 28;

/// The most inner components of a definition.
pub const MOST_INNERS: u16 = 32;
