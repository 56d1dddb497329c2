// Why a change does not go with a present.
ghost use Rattle.std.specs.Prelude.{◌≡◌};
ghost use Rattle.netlist_text.specs.Misfits.{number_of, text_of};

/// Why a change is not made. Of several it is the first in the order of the checks of its line.
#[derive(Clone, Copy, Debug, PartialEq, Eq)]
pub enum Misfit {
    /// A net or a component has the new name; of `define`, a definition; of `pin` and `inside`, a pin or an inner component
    /// of the definition.
    NameTaken,
    /// A port or a cell names no net; of `inside`, a port names no pin.
    UnknownNet,
    /// The width is outside 1 to 32.
    BadWidth,
    /// The widths at the ports do not go together as the kind asks; of `use`, a net has not its pin's.
    WidthsDisagree,
    /// There may not be so many cycles, or the cell's cycle is not below their number.
    BadCycle,
    /// The value is too large for its net.
    ValueDoesNotFit,
    /// A net is declared already.
    CyclesNotFirst,
    /// No component has the name.
    UnknownComponent,
    /// The cost is outside 1 to 40.
    BadCost,
    /// The component may not fail so.
    BadMode,
    /// There are as many nets as there may be.
    NetsFull,
    /// There are as many components as there may be.
    ComponentsFull,
    /// There would be more cells than there may be.
    CellsFull,
    /// As many measurements stand as may stand.
    MeasurementsFull,
    /// There are as many modes as there may be.
    ModesFull,
    /// There are as many definitions as there may be.
    BlocksFull,
    /// The definition has as many pins, or inner components, as it may have.
    BlockFull,
    /// A measurement stands at the cell.
    AlreadyMeasured,
    /// No measurement stands at the cell.
    NotMeasured,
    /// No definition has the name.
    UnknownBlock,
    /// A component is a block of the definition.
    BlockInUse,
    /// The definition has another number of pins, or no inner component.
    WrongPinCount,
    /// Memory ran out.
    OutOfMemory,
}

impl Misfit {
    /// The number that the reply has.
    pub fn number(&self) -> u8
        ensures { result ≡ number_of self.now }
    {
        match self {
            Misfit::NameTaken => 20,
            Misfit::UnknownNet => 21,
            Misfit::BadWidth => 22,
            Misfit::WidthsDisagree => 23,
            Misfit::BadCycle => 24,
            Misfit::ValueDoesNotFit => 25,
            Misfit::CyclesNotFirst => 26,
            Misfit::UnknownComponent => 27,
            Misfit::BadCost => 28,
            Misfit::BadMode => 29,
            Misfit::NetsFull => 30,
            Misfit::ComponentsFull => 31,
            Misfit::CellsFull => 32,
            Misfit::MeasurementsFull => 33,
            Misfit::ModesFull => 35,
            Misfit::BlocksFull => 36,
            Misfit::BlockFull => 37,
            Misfit::AlreadyMeasured => 40,
            Misfit::NotMeasured => 41,
            Misfit::UnknownBlock => 48,
            Misfit::BlockInUse => 49,
            Misfit::WrongPinCount => 51,
            Misfit::OutOfMemory => 90,
        }
    }

    /// The text after the number.
    pub fn text(&self) -> &'static [u8]
        ensures { result.now ≡ text_of self.now }
    {
        match self {
            Misfit::NameTaken => b"name taken",
            Misfit::UnknownNet => b"unknown net",
            Misfit::BadWidth => b"bad width",
            Misfit::WidthsDisagree => b"widths disagree",
            Misfit::BadCycle => b"bad cycle",
            Misfit::ValueDoesNotFit => b"value does not fit",
            Misfit::CyclesNotFirst => b"cycles not first",
            Misfit::UnknownComponent => b"unknown component",
            Misfit::BadCost => b"bad cost",
            Misfit::BadMode => b"bad mode",
            Misfit::NetsFull => b"nets full",
            Misfit::ComponentsFull => b"components full",
            Misfit::CellsFull => b"cells full",
            Misfit::MeasurementsFull => b"measurements full",
            Misfit::ModesFull => b"modes full",
            Misfit::BlocksFull => b"blocks full",
            Misfit::BlockFull => b"block full",
            Misfit::AlreadyMeasured => b"already measured",
            Misfit::NotMeasured => b"not measured",
            Misfit::UnknownBlock => b"unknown block",
            Misfit::BlockInUse => b"block in use",
            Misfit::WrongPinCount => b"wrong pin count",
            Misfit::OutOfMemory => b"no memory",
        }
    }
}
