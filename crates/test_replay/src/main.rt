#![tactic(auto)]
// Runs the serializer over a stream of tapes, each with buffers of several lengths, and writes what each call gave and what it left in the buffer.
//
// Standard input is a stream (crate `test_stream`) of tapes of at most 65,536 bytes. The buffers have no byte, one byte less than the text, just as many, and
// 100 more; of a refused tape, no byte and 100. Before a call every byte of the buffer is a mark. The form of the lines stands in oracle/README.md, under
// `oracle replay`.
//
// The stored list is made by .ci/stored: `oracle both-sides` (document 01's examples 1 to 13 and its listing), then `gen structured 185 180`, `gen random
// 185 180`, `gen small 1`, `gen damaged 61 200`, `gen damaged 62 200` and `gen glued 61 60`. What must be written of it is what `oracle replay` writes, by
// the Rust's own text.
use std::io;
use std::io::Input;
use usx::Answer;

// What a call gave, and how much of its buffer it left alone.
fn line(rt: &impl Print, number: u8, length: usize, buffer: &[u8]) -> io::Result<()> {
    let room = buffer.len();
    let unchanged = test_marks::unchanged(buffer);
    println!(rt; "room {room}: number {number}, length {length}, {unchanged} unchanged")
}

// One call, its line and the text that it wrote; the length given.
fn call(rt: &impl Print, file: &[u8], buffer: &mut [u8]) -> io::Result<usize> {
    test_marks::fill(buffer);
    match usx::serialize(file, buffer) {
        Answer::Written(n) => {
            line(rt, 0, n, buffer)?;
            rt.write_all(parts::part(buffer, 0, n))?;
            println!(rt; "")?;
            Ok(n)
        }
        Answer::Refused(number) => {
            line(rt, number, 0, buffer)?;
            Ok(0)
        }
        Answer::NoRoom(n) => {
            line(rt, 8, n, buffer)?;
            Ok(n)
        }
    }
}

// A call with a buffer of so many bytes.
fn call_with(rt: &impl Print, file: &[u8], out: &mut [u8], room: usize) -> io::Result<usize> {
    if room <= out.len() {
        return call(rt, file, &mut out[..room]);
    }
    println!(rt; "room {room}: too long")?;
    Ok(0)
}

// All calls of a tape; a refused one gives length 0.
fn replay(rt: &impl Print, file: &[u8], out: &mut [u8]) -> io::Result<()> {
    let n = call_with(rt, file, out, 0)?;
    if n == 0 {
        call_with(rt, file, out, 100)?;
    } else {
        call_with(rt, file, out, n - 1)?;
        call_with(rt, file, out, n)?;
        call_with(rt, file, out, n.saturating_add(100))?;
    }
    println!(rt; "")
}

fn run(
    rt: &(impl Input + Print),
    space: &mut [u8; 65536],
    out: &mut [u8; 65536],
) -> io::Result<()> {
    test_stream::for_each(rt, space, |file| replay(rt, file, out))
}

fn main(rt: HostRuntime) -> io::Result<()> {
    let mut space = [0u8; 65536];
    let mut out = [0u8; 65536];
    run(&rt, &mut space, &mut out)
}
