// The faults of lines.
ghost use Rattle.std.specs.Prelude.{◌≡◌};
ghost use Rattle.netlist_text.specs.Faults.{number_of, text_of};

use thiserror::Error;

/// Why a line asks nothing that can be read. Of several it is the first, in this order.
#[derive(Clone, Copy, Debug, PartialEq, Eq, Error)]
pub enum LineFault {
    /// The line has a byte that is no blank and makes no word.
    #[error("not printable ASCII")]
    NotPrintable,
    /// Its first word begins no line that there is; or, after `inside`, the third word begins no line of a component.
    #[error("unknown command")]
    UnknownCommand,
    /// It has more words, or fewer, than its command takes.
    #[error("wrong word count")]
    WordCount,
    /// A word stands where a name should, and is none.
    #[error("bad name")]
    BadName,
    /// A word stands where a number should, and is none.
    #[error("bad number")]
    BadNumber,
}

impl LineFault {
    /// The number that the reply has: from 11 to 15.
    pub fn number(&self) -> u8
        ensures { result ≡ number_of self.now }
    {
        match self {
            LineFault::NotPrintable => 11,
            LineFault::UnknownCommand => 12,
            LineFault::WordCount => 13,
            LineFault::BadName => 14,
            LineFault::BadNumber => 15,
        }
    }

    /// The text after the number.
    pub fn text(&self) -> &'static [u8]
        ensures { result.now ≡ text_of self.now }
    {
        match self {
            LineFault::NotPrintable => b"not printable ASCII",
            LineFault::UnknownCommand => b"unknown command",
            LineFault::WordCount => b"wrong word count",
            LineFault::BadName => b"bad name",
            LineFault::BadNumber => b"bad number",
        }
    }
}
