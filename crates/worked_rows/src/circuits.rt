// Circuits, and lines about one.

/// A circuit with measurements, by the lines that make it.
#[derive(Clone, Copy)]
pub(crate) enum Circuit {
    /// The polybox: one output of two is wrong.
    Polybox,
    /// The same where one adder and two multipliers fail more often, and one multiplier less.
    PolyboxCosts,
    /// A full adder.
    FullAdder,
    /// A register that counts by threes, with a copy of what it holds.
    Counter,
    /// Six gates.
    SixGates,
    /// A word is lost on its way through two registers.
    TwoRegisters,
    /// A sum that is kept from cycle to cycle.
    RunningSum,
    /// Nothing is wrong, so there is one diagnosis.
    Sound,
    /// One buffer of three passes a wrong word on.
    Chain,
    /// Zero at one input of a multiplier, and a product that cannot be.
    ZeroAndFive,
    /// Zero at one input of a multiplier.
    Zero,
    /// A gate with one net at two ports.
    OneNetTwice,
    /// Two constants at one net.
    TwoConstants,
    /// A register whose output is seen wrong.
    Register,
    /// The polybox, and an adder by which each word of N gives the next one, until it is found that N has two words.
    Orders,
    /// It goes on, goes back, and asks.
    Mixed,
}

const POLYBOX: &[u8] =
    b"net A 4\nnet B 4\nnet C 4\nnet D 4\nnet E 4\nnet X 8\nnet Y 8\nnet Z 8\nnet F 8\nnet G 8\n\
    mul M1 A C X\nmul M2 B D Y\nmul M3 C E Z\nadd A1 X Y F\nadd A2 Y Z G\nmeasure A 3\nmeasure B 2\n\
    measure C 2\nmeasure D 3\nmeasure E 3\nmeasure F 10\nmeasure G 12\n";

const POLYBOX_COSTS: &[u8] =
    b"net A 4\nnet B 4\nnet C 4\nnet D 4\nnet E 4\nnet X 8\nnet Y 8\nnet Z 8\nnet F 8\nnet G 8\n\
    mul M1 A C X\nmul M2 B D Y\nmul M3 C E Z\nadd A1 X Y F\nadd A2 Y Z G\ncost A2 1\ncost M2 1\n\
    cost M3 1\ncost M1 9\nmeasure A 3\nmeasure B 2\nmeasure C 2\nmeasure D 3\nmeasure E 3\n\
    measure F 10\nmeasure G 12\n";

const FULL_ADDER: &[u8] =
    b"net A 1\nnet B 1\nnet C 1\nnet P 1\nnet S 1\nnet Q 1\nnet R 1\nnet T 1\nxor X1 A B P\n\
    xor X2 P C S\nand A1 A B Q\nand A2 P C R\nor O1 Q R T\ncost X1 9\ncost A2 2\ncost O1 3\n\
    measure A 1\nmeasure B 0\nmeasure C 1\nmeasure S 1\nmeasure T 0\n";

const COUNTER: &[u8] =
    b"cycles 3\nnet E 4\nnet D 4\nnet Q 4\nnet O 4\nnet N 4\nadd S Q E D\nreg R D Q 0\nbuf U Q O\n\
    not V O N\ncost S 7\ncost R 5\ncost U 2\ncost V 1\nmeasure E 3\nmeasure E@1 3\nmeasure O@1 3\n\
    measure O@2 7\nmeasure N@2 9\n";

const SIX_GATES: &[u8] =
    b"net N1 1\nnet N2 1\nnet N3 1\nnet N6 1\nnet N7 1\nnet N10 1\nnet N11 1\nnet N16 1\nnet N19 1\n\
    net N22 1\nnet N23 1\nnand G10 N1 N3 N10\nnand G11 N3 N6 N11\nnand G16 N2 N11 N16\n\
    nand G19 N11 N7 N19\nnand G22 N10 N16 N22\nnand G23 N16 N19 N23\ncost G10 1\ncost G11 2\n\
    cost G16 3\ncost G22 20\nmeasure N1 1\nmeasure N2 1\nmeasure N3 1\nmeasure N6 1\nmeasure N7 1\n\
    measure N22 0\nmeasure N23 1\n";

const TWO_REGISTERS: &[u8] =
    b"cycles 4\nnet D 4\nnet E 4\nnet Q 4\nreg R D E 0\nreg S E Q 0\nmeasure D 5\nmeasure D@1 6\n\
    measure Q@2 7\n";

const RUNNING_SUM: &[u8] =
    b"cycles 3\nnet A 8\nnet S 8\nnet N 8\nadd P A S N\nreg R N S 0\ncost R 7\nmeasure A 1\n\
    measure A@1 2\nmeasure A@2 3\nmeasure N@2 5\n";

const SOUND: &[u8] = b"net A 4\nnet B 4\nnot N A B\nmeasure A 5\nmeasure B 10\n";

const CHAIN: &[u8] =
    b"net A 4\nnet B 4\nnet C 4\nnet D 4\nbuf P A B\nbuf Q B C\nbuf R C D\nmeasure A 5\nmeasure D 6\n";

const ZERO_AND_FIVE: &[u8] = b"net A 4\nnet B 4\nnet Z 8\nmul M A B Z\nmeasure A 0\nmeasure Z 5\n";

const ZERO: &[u8] = b"net A 4\nnet B 4\nnet Z 8\nmul M A B Z\nmeasure A 0\n";

const ONE_NET_TWICE: &[u8] = b"net X 4\nnet Z 4\nxor G X X Z\nmeasure X 5\n";

const TWO_CONSTANTS: &[u8] = b"net Z 4\nconst K1 Z 1\nconst K2 Z 2\n";

const REGISTER: &[u8] =
    b"cycles 3\nnet D 4\nnet Q 4\nreg R D Q 0\nmeasure D 5\nmeasure D@1 6\nmeasure Q@2 7\n";

const ORDERS: &[u8] =
    b"net A 4\nnet B 4\nnet C 4\nnet D 4\nnet E 4\nnet X 8\nnet Y 8\nnet Z 8\nnet F 8\nnet G 8\n\
    mul M1 A C X\nmul M2 B D Y\nmul M3 C E Z\nadd A1 X Y F\nadd A2 Y Z G\nmeasure A 3\nmeasure B 2\n\
    measure C 2\nmeasure D 3\nmeasure E 3\nmeasure F 10\nmeasure G 12\nnet N 32\nnet O 32\n\
    measure N 5\nmeasure O 1\nadd S N O N\ncost S 3\n";

const MIXED: &[u8] =
    b"retract F\nconflicts\ndiagnose\nlabel X\nlabel F\nlabel O\nmeasure F 10\nconflicts\ncost M2 1\n\
    cost M3 1\ndiagnose\nprobe\nundo\nundo\ndiagnose\nwhy 1\nwhy 2\nexplain X 4\nexplain X 5\n\
    retract G\nmeasure X 4\nlabel G\nundo\nnet K 4\nconst T K 3\nundo\nundo\nundo\nfirst 3\n";

impl Circuit {
    /// Its lines, each with its end.
    pub(crate) fn lines(self) -> &'static [u8] {
        match self {
            Circuit::Polybox => POLYBOX,
            Circuit::PolyboxCosts => POLYBOX_COSTS,
            Circuit::FullAdder => FULL_ADDER,
            Circuit::Counter => COUNTER,
            Circuit::SixGates => SIX_GATES,
            Circuit::TwoRegisters => TWO_REGISTERS,
            Circuit::RunningSum => RUNNING_SUM,
            Circuit::Sound => SOUND,
            Circuit::Chain => CHAIN,
            Circuit::ZeroAndFive => ZERO_AND_FIVE,
            Circuit::Zero => ZERO,
            Circuit::OneNetTwice => ONE_NET_TWICE,
            Circuit::TwoConstants => TWO_CONSTANTS,
            Circuit::Register => REGISTER,
            Circuit::Orders => ORDERS,
            Circuit::Mixed => MIXED,
        }
    }
}
