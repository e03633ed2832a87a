#![tactic(auto)]
// What a step of the tape writer answered, and every byte of the buffer that it changed, as lines on standard output; their form stands in oracle/README.md,
// under `oracle steps`.
ghost use Rattle.std.specs.Prelude.{◌≡◌, min};

use std::io;
use window::Window;
use writer::{Answer, Writer};

// The names of the steps, by their codes.
const NAMES: [&[u8]; 12] = [
    b"start",
    b"entry",
    b"source",
    b"open",
    b"close",
    b"leaf",
    b"text",
    b"attribute",
    b"error",
    b"chapter",
    b"verse",
    b"finish",
];

// The code of a step that finishes a tape.
const FINISH: u8 = 11;

// A number as a u32; one that does not fit is the largest.
pub fn narrow(n: usize) -> u32
    ensures { result ≡ min n 4294967295 }
{
    u32::try_from(n).unwrap_or(u32::MAX)
}

// ---- lines

// A word and a number behind it.
fn number(w: &mut Window, out: &mut [u8], name: &[u8], n: u32) {
    w.put_run(out, name);
    w.put_number(out, n);
}

fn count(w: &mut Window, out: &mut [u8], n: usize) {
    number(w, out, b" ", narrow(n));
}

// The numbers of a state.
fn state(w: &mut Window, out: &mut [u8], s: Writer) {
    number(w, out, b"state ", u32::from(s.phase));
    count(w, out, s.nodes);
    count(w, out, s.entries);
    count(w, out, s.names);
    count(w, out, s.source);
    count(w, out, s.inner);
    count(w, out, s.depth);
}

// The name of a step: whatever is no other step finishes.
fn name(w: &mut Window, out: &mut [u8], code: u8) {
    w.put_run(out, NAMES[usize::from(code.min(FINISH))]);
}

// Ends a line and writes it.
fn end(rt: &impl Print, w: &mut Window, out: &mut [u8]) -> io::Result<()> {
    w.put_run(out, b"\n");
    rt.write_all(parts::part(out, 0, w.at))
}

// ---- changed bytes

// Whether two buffers differ at a place, the second going on with zeros.
fn differ(a: &[u8], z: &[u8], i: usize) -> bool {
    parts::byte_at(a, i) != parts::byte_at(z, i)
}

// The first place at which two buffers differ, or the length of the first.
fn first_change(a: &[u8], z: &[u8]) -> usize {
    (0..a.len())
        .position(|i| differ(a, z, i))
        .unwrap_or(a.len())
}

// The place behind the last at which they differ, or 0.
fn last_change(a: &[u8], z: &[u8]) -> usize {
    (0..a.len())
        .rposition(|i| differ(a, z, i))
        .map_or(0, |i| i + 1)
}

// A digit of base 16.
fn digit(n: u8) -> u8 {
    let low = n % 16;
    if low < 10 {
        b'0' + low
    } else {
        b'a' + (low - 10)
    }
}

fn hex(w: &mut Window, out: &mut [u8], x: u8) {
    w.put_run(out, &[digit(x / 16), digit(x)]);
}

// Bytes in base 16.
fn dump(w: &mut Window, out: &mut [u8], s: &[u8]) {
    for &x in s {
        hex(w, out, x);
    }
}

// Where the buffer changed, and the bytes from the first to the last that did.
fn changes(w: &mut Window, out: &mut [u8], old: &[u8], buf: &[u8]) {
    let to = last_change(buf, old);
    let from = first_change(buf, old);
    if from < to {
        number(w, out, b" at ", narrow(from));
        w.put_run(out, b" ");
        dump(w, out, parts::part(buf, from, to - from));
    }
}

// ---- steps

// What a step of a code answers.
fn answer(w: &mut Window, out: &mut [u8], code: u8, a: Answer) {
    name(w, out, code);
    number(w, out, b" number ", u32::from(a.number));
    number(w, out, b" length ", narrow(a.length));
    w.put_run(out, b" ");
}

// The line of a step.
pub fn say_step(
    rt: &impl Print,
    out: &mut [u8],
    code: u8,
    a: Answer,
    old: &[u8],
    buf: &[u8],
) -> io::Result<()> {
    let mut w = Window { at: 0, from: 0 };
    answer(&mut w, out, code, a);
    state(&mut w, out, a.writer);
    changes(&mut w, out, old, buf);
    end(rt, &mut w, out)
}

// The line of a state.
pub fn say_state(rt: &impl Print, out: &mut [u8], s: Writer) -> io::Result<()> {
    let mut w = Window { at: 0, from: 0 };
    state(&mut w, out, s);
    end(rt, &mut w, out)
}

// Whether a finished file is admitted.
fn judged(rt: &impl Print, file: &[u8]) -> io::Result<()> {
    match admit::admit(file) {
        Ok(_) => println!(rt; "admitted"),
        Err(reason) => println!(rt; "refused {}", reason.number()),
    }
}

// The line of a finished file; none of another answer.
pub fn say_file(rt: &impl Print, code: u8, a: Answer, buf: &[u8]) -> io::Result<()> {
    if code == FINISH && a.number == 0 {
        judged(rt, parts::part(buf, 0, a.length))
    } else {
        Ok(())
    }
}
