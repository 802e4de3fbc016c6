// Taking a flight file in from outside.
ghost use Rattle.std.specs.Prelude.{ℕ, ◌<◌, ◌≤◌, length, take, IfOk, OnErr};
ghost use Rattle.std.specs.Io.KnownBytes.{Consumes, IsAtEnd};

use std::io;
use std::io::Read;

// Reads until the input ends or the buffer is full, and answers how many bytes came: they stand at the
// buffer's front, and what lies behind them is left open. What came before an error stands there too, but
// how much it is stays open. A buffer of one byte more than the longest file is enough to refuse any
// longer one.
pub fn fill<R: Read>(input: &mut R, buffer: &mut [u8]) -> io::Result<usize>
    ensures within { IfOk result (λ n. n ≤ length buffer.new) }
    ensures bytes { IfOk result (λ n. Consumes (R.remaining input.old) (R.remaining input.new)
        (take n buffer.new)) }
    ensures end { IfOk result (λ n. n < length buffer.new → IsAtEnd (R.remaining input.new)) }
    ensures none_lost { OnErr result ((n : ℕ) × Consumes (R.remaining input.old) (R.remaining input.new)
        (take n buffer.new)) }
{
    // counted by hand: with `rest = &mut rest[more..]` (tried) the proof of `bytes` does not close, since a
    // loop's invariant cannot name what `rest` has given up; of a reader that says nothing of its bytes,
    // `io::copy` says neither which bytes nor how many; `read_to_end` may ask for more memory than this
    let mut size = 0;
    while size < buffer.len() {
        match input.read(&mut buffer[size..])? {
            0 => return Ok(size),
            more => size += more,
        }
    }
    Ok(size)
}
