#![tactic(auto)]
// Goes through the texts of tapes in windows that follow one another, and writes what the windows show, joined, and what the calls left in their buffers.
//
// Standard input is a stream (crate `test_stream`) of tapes of at most 3 MiB, each with its runs behind it, at most 65,536 bytes. How a run is gone through stands in
// oracle/README.md, under "Tapes with cuts", and the form of the lines there, under `oracle windows`. Before a call every byte of the buffer is a mark.
//
// The stored stream is made by .ci/stored: `oracle both-sides` (document 01's examples 1 to 13 and its listing), then `gen structured 91 24`, `gen random 91 24`,
// `gen damaged 91 48` and `gen glued 91 8`, cut by `oracle cuts`. What must be written of it is what `oracle windows` writes, by the Rust's own text.
ghost use Rattle.std.specs.Prelude.{◌^◌, ◌<◌, length, IfSome};

use std::io;
use std::io::Input;
use usx::Shown;

// What the calls of a run gave so far: where the next window starts, number and whole length by the last call, how many calls, how many bytes they gave, how many bytes of
// their buffers are still the mark, and whether the last call ends the run.
#[derive(Clone, Copy)]
struct Tally {
    at: usize,
    number: u8,
    whole: usize,
    calls: usize,
    given: usize,
    unchanged: usize,
    ended: bool,
}

// A run: where its windows begin, and how long their buffers are, four bytes each.
#[derive(Clone, Copy)]
struct Run<'a> {
    from: usize,
    rooms: &'a [u8],
}

// The number of four bytes at a place.
fn word(s: &[u8], at: usize) -> usize
    ensures { result < 2 ^ 32 }
{
    tape::length_of(parts::from(s, at)) % 4294967296
}

impl Tally {
    // One window, and the bytes that it shows.
    fn call(&mut self, rt: &impl Print, file: &[u8], buffer: &mut [u8]) -> io::Result<()> {
        test_marks::fill(buffer);
        let shown = usx::window(file, self.at, buffer);
        self.calls = self.calls.saturating_add(1);
        self.unchanged = self.unchanged.saturating_add(test_marks::unchanged(buffer));
        match shown {
            Shown::Given { bytes, whole } => {
                self.at = self.at.saturating_add(bytes);
                self.number = 0;
                self.whole = whole;
                self.given = self.given.saturating_add(bytes);
                self.ended = bytes == 0 && !buffer.is_empty();
                rt.write_all(parts::part(buffer, 0, bytes))
            }
            Shown::Refused(number) => {
                self.number = number;
                self.whole = 0;
                self.ended = true;
                Ok(())
            }
        }
    }

    // A window for each length of a list, until one ends the run.
    fn pass(
        &mut self,
        rt: &impl Print,
        file: &[u8],
        rooms: &[u8],
        out: &mut [u8],
    ) -> io::Result<()> {
        for room in rooms.chunks_exact(4) {
            let n = tape::length_of(room).min(out.len());
            self.call(rt, file, &mut out[..n])?;
            if self.ended {
                return Ok(());
            }
        }
        Ok(())
    }
}

impl<'a> Run<'a> {
    // The run at the front of a list, and the list behind it; nothing where the run is cut off.
    fn split(list: &'a [u8]) -> Option<(Run<'a>, &'a [u8])>
        ensures { IfSome result (λ both. length both.1.now < length list.now) }
    {
        let size = 12 + 4 * word(list, 8);
        if size > list.len() {
            return None;
        }
        let (run, behind) = list.split_at(size);
        let from = word(run, 0) + 4294967296 * word(run, 4);
        Some((
            Run {
                from,
                rooms: &run[12..],
            },
            behind,
        ))
    }

    // The list of lengths again and again, until the run ends or a pass gave no byte.
    fn passes(self, rt: &impl Print, file: &[u8], out: &mut [u8]) -> io::Result<Tally> {
        let mut tally = Tally {
            at: self.from,
            number: 0,
            whole: 0,
            calls: 0,
            given: 0,
            unchanged: 0,
            ended: false,
        };
        for _ in 0..u32::MAX {
            let before = tally.given;
            tally.pass(rt, file, self.rooms, out)?;
            if tally.ended || tally.given == before {
                return Ok(tally);
            }
        }
        Ok(tally)
    }

    // What the windows of a run show, and its line.
    fn replay(self, rt: &impl Print, file: &[u8], out: &mut [u8]) -> io::Result<()> {
        let t = self.passes(rt, file, out)?;
        print!(rt;
            "\nfrom {}: number {}, whole {}, ",
            self.from, t.number, t.whole
        )?;
        println!(rt;
            "{} calls, {} given, {} unchanged",
            t.calls, t.given, t.unchanged
        )
    }
}

// All runs of a tape.
fn replay(rt: &impl Print, file: &[u8], list: &[u8], out: &mut [u8]) -> io::Result<()> {
    let mut left = list;
    while !left.is_empty() {
        let Some((run, behind)) = Run::split(left) else {
            return println!(rt; "cut off");
        };
        run.replay(rt, file, out)?;
        left = behind;
    }
    Ok(())
}

// Each tape of the stream with its runs.
fn each_tape(
    rt: &(impl Input + Print),
    space: &mut [u8],
    list: &mut [u8],
    out: &mut [u8],
) -> io::Result<()> {
    for _ in 0..u32::MAX {
        let Some(size) = test_stream::next(rt, space)? else {
            return Ok(());
        };
        let Some(length) = test_stream::next(rt, list)? else {
            return Ok(());
        };
        replay(rt, &space[..size], &list[..length], out)?;
        println!(rt; "")?;
    }
    Ok(())
}

// Room for the longest tape.
fn tape_buffer() -> [u8; 3145728] {
    [0; 3145728]
}

fn main(rt: HostRuntime) -> io::Result<()> {
    let mut space = tape_buffer();
    let mut list = [0u8; 65536];
    let mut out = [0u8; 65536];
    each_tape(&rt, &mut space, &mut list, &mut out)
}
