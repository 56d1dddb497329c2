// The rules that a kind has for the widths of its ports and for its value.

ghost use Rattle.std.specs.Prelude.{◌≡◌, ◌≢◌, ◌↔◌, IsTrue};
ghost use Rattle.circuit_model.specs.Kinds as rules;
ghost use Rattle.circuit_model.specs.Lawful as lawful;

use crate::model::Kind;
use word_domain::Width;

// Whether the three widths are the same.
fn are_equal(widths: &[Width; 3]) -> bool
    ensures { result ≡ lawful.are_equal widths.now }
{
    widths[0].bits() == widths[1].bits() && widths[1].bits() == widths[2].bits()
}

// Whether the last of the three widths is the sum of the others.
fn is_last_the_sum(widths: &[Width; 3]) -> bool
    ensures { result ≡ lawful.is_last_the_sum widths.now }
{
    widths[2].bits() == widths[0].bits() + widths[1].bits()
}

/// Whether the widths of a component's ports keep its kind's rule. Unused places repeat the last port.
pub fn are_widths(kind: Kind, widths: &[Width; 3]) -> bool
    ensures { result ≡ rules.are_widths kind widths.now }
{
    match kind {
        Kind::Const { .. } | Kind::Block { .. } => true,
        Kind::Mul => is_last_the_sum(widths),
        Kind::Buf
        | Kind::Not
        | Kind::And
        | Kind::Or
        | Kind::Xor
        | Kind::Nand
        | Kind::Nor
        | Kind::Xnor
        | Kind::Add
        | Kind::Reg { .. } => are_equal(widths),
    }
}

/// Whether a kind's value, if it has one, fits the width of its last port.
pub fn fits_value(kind: Kind, widths: &[Width; 3]) -> bool
    ensures { result ≡ rules.fits_value kind widths.now }
{
    match kind {
        Kind::Const { value } => widths[0].fits(value),
        Kind::Reg { reset } => widths[1].fits(reset),
        Kind::Buf
        | Kind::Not
        | Kind::And
        | Kind::Or
        | Kind::Xor
        | Kind::Nand
        | Kind::Nor
        | Kind::Xnor
        | Kind::Add
        | Kind::Mul
        | Kind::Block { .. } => true,
    }
}

/// The kinds that may act for each other.
#[derive(Clone, Copy, PartialEq, Eq, Debug)]
pub enum Class {
    OneInput,
    TwoInputs,
    Alone,
}

impl Class {
    // Whether the two are one, and not kinds that stand alone.
    fn is_one_with(self, other: Class) -> bool
        ensures { result ≡ rules.are_one_class self other }
    {
        match (self, other) {
            (Class::OneInput, Class::OneInput) | (Class::TwoInputs, Class::TwoInputs) => true,
            (Class::OneInput, Class::TwoInputs | Class::Alone)
            | (Class::TwoInputs, Class::OneInput | Class::Alone)
            | (Class::Alone, _) => false,
        }
    }
}

impl Kind {
    /// The definition that a component of the kind is a block of, by its place, if it is a block.
    pub fn block(self) -> Option<u16>
        ensures { result ≡ rules.block_in self }
    {
        match self {
            Kind::Block { block } => Some(block),
            Kind::Buf
            | Kind::Not
            | Kind::And
            | Kind::Or
            | Kind::Xor
            | Kind::Nand
            | Kind::Nor
            | Kind::Xnor
            | Kind::Add
            | Kind::Mul
            | Kind::Const { .. }
            | Kind::Reg { .. } => None,
        }
    }

    fn class(self) -> Class
        ensures { result ≡ rules.class_of self }
    {
        match self {
            Kind::Buf | Kind::Not => Class::OneInput,
            Kind::And | Kind::Or | Kind::Xor | Kind::Nand | Kind::Nor | Kind::Xnor | Kind::Add =>
                Class::TwoInputs,
            Kind::Mul | Kind::Const { .. } | Kind::Reg { .. } | Kind::Block { .. } => Class::Alone,
        }
    }

    fn is_other_than(self, other: Kind) -> bool
        ensures { IsTrue result ↔ (self ≢ other) }
    {
        self != other
    }
}

/// Whether a component of the one kind may act as the other: that is another kind of its class.
pub fn may_act(own: Kind, kind: Kind) -> bool
    ensures { IsTrue result ↔ rules.MayAct own kind }
{
    own.class().is_one_with(kind.class()) && own.is_other_than(kind)
}
