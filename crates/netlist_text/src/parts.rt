// The lines of components.
ghost use Rattle.std.specs.Prelude.{◌≡◌, ◌∷◌};
ghost use Rattle.netlist_text.specs.Parts.{part_named, places_of_part, kind_of, nets_of};
ghost use Rattle.netlist_text.specs.Places.{FitEach};
ghost use Rattle.netlist_text.specs.Words.{words_of};
ghost use Rattle.netlist_text.specs.declared.places.Place.TheVariants as place;

use crate::places::{Place, name_at, number_at};
use circuit_model::{Kind, Name};

/// The first word of the line of a component.
#[derive(Clone, Copy, Debug)]
pub enum PartWord {
    Buf,
    Not,
    And,
    Or,
    Xor,
    Nand,
    Nor,
    Xnor,
    Add,
    Mul,
    Const,
    Reg,
}

/// What the word begins, if it is the first of the line of a component.
#[tactic(auto, unfolding(crate::specs::Parts::part_named))]
pub fn part_named(word: &[u8]) -> Option<PartWord>
    ensures { result ≡ part_named word.now }
{
    match word {
        b"buf" => Some(PartWord::Buf),
        b"not" => Some(PartWord::Not),
        b"and" => Some(PartWord::And),
        b"or" => Some(PartWord::Or),
        b"xor" => Some(PartWord::Xor),
        b"nand" => Some(PartWord::Nand),
        b"nor" => Some(PartWord::Nor),
        b"xnor" => Some(PartWord::Xnor),
        b"add" => Some(PartWord::Add),
        b"mul" => Some(PartWord::Mul),
        b"const" => Some(PartWord::Const),
        b"reg" => Some(PartWord::Reg),
        _ => None,
    }
}

impl PartWord {
    /// What the words of the line stand for.
    pub fn places(self) -> &'static [Place]
        ensures { result.now ≡ places_of_part self }
    {
        use Place::{Keyword, Name, Number};
        match self {
            PartWord::Buf | PartWord::Not => &[Keyword, Name, Name, Name],
            PartWord::And
            | PartWord::Or
            | PartWord::Xor
            | PartWord::Nand
            | PartWord::Nor
            | PartWord::Xnor
            | PartWord::Add
            | PartWord::Mul => &[Keyword, Name, Name, Name, Name],
            PartWord::Const => &[Keyword, Name, Name, Number],
            PartWord::Reg => &[Keyword, Name, Name, Name, Number],
        }
    }

    /// What the words of the line stand for where it follows `inside` and the name of a definition.
    pub fn inner_places(self) -> &'static [Place]
        ensures { result.now ≡ place.Keyword ∷ place.Name ∷ places_of_part self }
    {
        use Place::{Keyword, Name, Number};
        match self {
            PartWord::Buf | PartWord::Not => &[Keyword, Name, Keyword, Name, Name, Name],
            PartWord::And
            | PartWord::Or
            | PartWord::Xor
            | PartWord::Nand
            | PartWord::Nor
            | PartWord::Xnor
            | PartWord::Add
            | PartWord::Mul => &[Keyword, Name, Keyword, Name, Name, Name, Name],
            PartWord::Const => &[Keyword, Name, Keyword, Name, Name, Number],
            PartWord::Reg => &[Keyword, Name, Keyword, Name, Name, Name, Number],
        }
    }

    /// The kind of the component; that of `const` and of `reg` has the number at the end of the line.
    pub fn kind_of(self, line: &[u8]) -> Kind
        requires { FitEach (places_of_part self) (words_of line.now) }
        ensures { result ≡ kind_of self (words_of line.now) }
    {
        match self {
            PartWord::Buf => Kind::Buf,
            PartWord::Not => Kind::Not,
            PartWord::And => Kind::And,
            PartWord::Or => Kind::Or,
            PartWord::Xor => Kind::Xor,
            PartWord::Nand => Kind::Nand,
            PartWord::Nor => Kind::Nor,
            PartWord::Xnor => Kind::Xnor,
            PartWord::Add => Kind::Add,
            PartWord::Mul => Kind::Mul,
            PartWord::Const => Kind::Const {
                value: number_at(line, 3),
            },
            PartWord::Reg => Kind::Reg {
                reset: number_at(line, 4),
            },
        }
    }

    /// The names of the nets at its ports, and the last of them again at the unused places.
    pub fn nets_of(self, line: &[u8]) -> [Name; 3]
        requires { FitEach (places_of_part self) (words_of line.now) }
        ensures { result ≡ nets_of self (words_of line.now) }
    {
        let first = name_at(line, 2);
        match self {
            PartWord::Const => [first, first, first],
            PartWord::Buf | PartWord::Not | PartWord::Reg => {
                let last = name_at(line, 3);
                [first, last, last]
            }
            PartWord::And
            | PartWord::Or
            | PartWord::Xor
            | PartWord::Nand
            | PartWord::Nor
            | PartWord::Xnor
            | PartWord::Add
            | PartWord::Mul => [first, name_at(line, 3), name_at(line, 4)],
        }
    }
}
