// A program's input, read into an array that the program has. Internal.
#![tactic(auto)]

ghost use Rattle.std.specs.Prelude.{◌<◌, ◌≤◌, IfOk, OnErr, length, take, ℕ};
ghost use Rattle.std.specs.Counts.{IsPrefixLen};
ghost use Rattle.std.specs.Io.KnownBytes.{Consumes, IsAtEnd};

use std::io;
use std::io::Read;

/// Reads until the array is full or the input ends. Done with how many bytes stand at the array's start. Where the reader's bytes are known, these are its
/// next ones, and no more are left where there was room for more; and where a read fails, what was read before it stands at the array's start.
pub fn read_full<R: Read>(reader: &mut R, buffer: &mut [u8]) -> io::Result<usize>
    ensures fits { IfOk result (λ n. IsPrefixLen n buffer.new) }
    ensures read { IfOk result (λ n. Consumes (R.remaining reader.old) (R.remaining reader.new) (take n buffer.new)) }
    ensures failed { OnErr result ((n : ℕ) × (n ≤ length buffer.new)
        × Consumes (R.remaining reader.old) (R.remaining reader.new) (take n buffer.new)) }
    ensures end { IfOk result (λ n. n < length buffer.new → IsAtEnd (R.remaining reader.new)) }
{
    // No plainer by a method: `read_exact` errs where the input ends first and does not say how far it came, and `read_to_end` wants a `Vec`.
    let mut done = 0;
    while done < buffer.len() {
        let n = reader.read(&mut buffer[done..])?;
        if n == 0 {
            break;
        }
        done += n;
    }
    Ok(done)
}
