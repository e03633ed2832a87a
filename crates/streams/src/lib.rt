#![tactic(auto)]
// Reads an input into a lent buffer.
ghost use Rattle.std.specs.Prelude.{◌≡◌, ◌<◌, length, take, IfOk};
ghost use Rattle.std.specs.Io.{ReadsAtMost};
ghost use Rattle.std.specs.Io.KnownBytes.{Consumes, IsAtEnd};

use std::io;
use std::io::Read;

// Reads until the buffer is full or the input ends, and says how many bytes stand at the front of the buffer. An error is that of the reader, and ends the reading.
pub fn read_full<R: Read>(input: &mut R, space: &mut [u8]) -> io::Result<usize>
    ensures bound { ReadsAtMost result space.new }
    ensures bytes { IfOk result (λ n. Consumes (R.remaining input.old) (R.remaining input.new) (take n space.new)) }
    ensures kept { length space.new ≡ length space.old }
    ensures end { IfOk result (λ n. n < length space.new → IsAtEnd (R.remaining input.new)) }
{
    let mut done = 0;
    // A `while`: each turn reads as many bytes as the reader gives at once.
    while done < space.len() {
        let n = input.read(&mut space[done..])?;
        if n == 0 {
            return Ok(done);
        }
        done += n;
    }
    Ok(done)
}

#[cfg(test)]
mod tests {
    use super::*;

    // Reads from what gives three bytes and then two.
    fn read_into(space: &mut [u8]) -> io::Result<usize> {
        let first = [1u8, 2, 3];
        let second = [4u8, 5];
        let mut input = (&first[..]).chain(&second[..]);
        read_full(&mut input, space)
    }

    #[test]
    fn reads_on_behind_a_short_read(rt: HostRuntime) -> io::Result<()> {
        let mut space = [0u8; 4];
        assert_eq!(rt; read_into(&mut space)?, 4);
        assert_eq!(rt; space, [1, 2, 3, 4]);
        Ok(())
    }

    #[test]
    fn stops_at_the_end(rt: HostRuntime) -> io::Result<()> {
        let mut space = [9u8; 7];
        assert_eq!(rt; read_into(&mut space)?, 5);
        assert_eq!(rt; space, [1, 2, 3, 4, 5, 9, 9]);
        Ok(())
    }
}
