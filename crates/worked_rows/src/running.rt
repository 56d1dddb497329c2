// Sessions run over memory.
ghost use Rattle.std.specs.Prelude.{◌<◌};

use bench_cli::{Status, gde};
use bench_io::{MemorySink, MemorySource};
use std::alloc::Global;
use std::test::Fail;

/// A number that no call has.
pub(crate) const NEVER: u64 = 0;

// The most bytes that are written.
const ROOM: usize = 10_000;

// The status of a run, and what it wrote, where the text is read in pieces of this size, and a read and a write fail, each
// by its number.
pub(crate) fn ran(
    alloc: Global,
    word: &str,
    text: &[u8],
    piece: usize,
    faults: (u64, u64),
) -> Result<(Status, MemorySink), Fail>
    requires { 0 < piece }
{
    let (read, write) = faults;
    let text = Vec::from_slice(alloc, text)?;
    let mut source = MemorySource::new(text, piece, vec![in alloc; read]?);
    let mut sink = MemorySink::open(alloc, ROOM, vec![in alloc; write]?)?;
    let words = [String::from_str(alloc, word)?];
    let status = gde(alloc, &words, &mut source, &mut sink);
    Ok((status, sink))
}

// How many lines end among these bytes.
pub(crate) fn lines_ended(bytes: &[u8]) -> usize {
    bytes.iter().filter(|b| **b == b'\n').count()
}
