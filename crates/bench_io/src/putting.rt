// Text that is put in parts, by a writer that goes on after a failure without a further write.
ghost use Rattle.std.specs.Prelude.{◌++◌, codes, decimal, if◌then◌else◌};
ghost use Rattle.bench_io.specs.Puts.{Puts};

use crate::streams::{Sink, write_all};
use itoa::Buffer;

/// Writes the bytes, unless a write has failed before. It answers whether one has failed. It takes no memory.
pub fn put<K: Sink>(sink: &mut K, failed: bool, bytes: &[u8]) -> bool
    ensures { Puts failed result (K.told sink.old) (K.told sink.new) bytes.now }
{
    if failed {
        return true;
    }
    write_all(sink, bytes).is_err()
}

/// Writes the number in decimal digits, in the same way.
pub fn put_number<K: Sink>(sink: &mut K, failed: bool, number: u64) -> bool
    ensures { Puts failed result (K.told sink.old) (K.told sink.new) (decimal number) }
{
    let mut buffer = Buffer::new();
    put(sink, failed, buffer.format(number).as_bytes())
}

/// Writes a piece of a list, after a comma unless it is the first, in the same way.
pub fn put_piece<K: Sink>(sink: &mut K, failed: bool, is_first: bool, piece: &[u8]) -> bool
    ensures { Puts failed result (K.told sink.old) (K.told sink.new) (if is_first then piece.now else codes "," ++ piece.now) }
{
    if is_first {
        return put(sink, failed, piece);
    }
    let failed = put(sink, failed, b",");
    put(sink, failed, piece)
}
