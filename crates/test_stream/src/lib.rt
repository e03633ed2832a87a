#![tactic(auto)]
// A stream on standard input: for each item its length as a u32, little-endian, then its bytes.
ghost use Rattle.std.specs.Prelude.{◌≤◌, ◌≡◌, true, length, IfOk, IfSome};

use std::io;
use std::io::Input;

// The next so many bytes of standard input, at the front of a buffer that has room for them. An error is that of the reading.
pub fn read_some(rt: &impl Input, space: &mut [u8], size: usize) -> io::Result<bool>
    ensures within { IfOk result (λ held. held ≡ true → size ≤ length space.new) }
    ensures kept { length space.new ≡ length space.old }
{
    if size <= space.len() {
        let n = streams::read_full(&mut rt.reader(), &mut space[..size])?;
        Ok(n == size)
    } else {
        Ok(false)
    }
}

// The length of the next item, which stands at the front of a buffer, or `None` at the end; an item that is longer than the buffer or is cut off ends the stream, and a
// line says so. An error is that of the reading or of the line.
pub fn next(rt: &(impl Input + Print), space: &mut [u8]) -> io::Result<Option<usize>>
    ensures within { IfOk result (λ item. IfSome item (λ size. size ≤ length space.new)) }
    ensures kept { length space.new ≡ length space.old }
{
    if !read_some(rt, space, 4)? {
        return Ok(None);
    }
    let size = tape::length_of(space);
    if read_some(rt, space, size)? {
        return Ok(Some(size));
    }
    rt.write_all(b"too long\n")?;
    Ok(None)
}

// Calls a function on each item of the stream, held in a buffer meanwhile. An error is that of `next` or of the call.
pub fn for_each<F: FnMut(&[u8]) -> io::Result<()>>(
    rt: &(impl Input + Print),
    space: &mut [u8],
    mut f: F,
) -> io::Result<()>
    requires { F.IsAlwaysCallable f }
    ensures { length space.new ≡ length space.old }
{
    for _ in 0..u32::MAX {
        let Some(size) = next(rt, space)? else {
            return Ok(());
        };
        f(&space[..size])?;
    }
    Ok(())
}
