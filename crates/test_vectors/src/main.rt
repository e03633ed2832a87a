#![tactic(auto)]
// Runs the leaf crates on outside vectors from standard input, and says how many answers agree.
//
// A record: operation, set (0 ASCII, 1 Unicode), a number, the lengths of input and answer (u16 each,
// little-endian), input, answer. How the list is made: oracle/src/bin/vectors.rs.
mod answers;

use answers::OPS;
use std::io;
use std::io::Input;
use test_stream::read_some;
use words::Set;

// How many answers agree, by operation, and how many differ.
#[derive(Drop)]
struct Tally {
    agree: [u64; 22],
    differ: u64,
}

impl Tally {
    fn count(&mut self, code: usize, agrees: bool) {
        if agrees && code < 22 {
            self.agree[code] = self.agree[code].saturating_add(1);
        } else {
            self.differ = self.differ.saturating_add(1);
        }
    }
}

// The number of two bytes at a place, little-endian.
fn number(head: &[u8], at: usize) -> usize {
    tape::length_of(parts::part(head, at, 2))
}

fn set_of(x: u8) -> Set {
    if x == 0 { Set::Ascii } else { Set::Unicode }
}

// Whether a record's answer is what the crates answer.
fn agrees(head: &[u8; 8], body: &[u8], out: &mut [u8]) -> bool {
    let Some((op, _)) = OPS.get(usize::from(head[0])) else {
        return false;
    };
    let size = number(head, 4);
    let input = parts::part(body, 0, size);
    let n = answers::answer(*op, set_of(head[1]), number(head, 2), input, out);
    parts::part(out, 0, n) == parts::part(body, size, number(head, 6))
}

// One record: its head, its input and answer behind one another; false at the end.
fn step(
    rt: &impl Input,
    tally: &mut Tally,
    head: &mut [u8; 8],
    body: &mut [u8],
    out: &mut [u8],
) -> io::Result<bool> {
    if !read_some(rt, head, 8)? {
        return Ok(false);
    }
    let code = usize::from(head[0]);
    if !read_some(rt, body, number(head, 4).saturating_add(number(head, 6)))? {
        tally.count(code, false);
        return Ok(false);
    }
    tally.count(code, agrees(head, body, out));
    Ok(true)
}

fn run(
    rt: &impl Input,
    tally: &mut Tally,
    head: &mut [u8; 8],
    body: &mut [u8],
    out: &mut [u8],
) -> io::Result<()> {
    for _ in 0..u32::MAX {
        if !step(rt, tally, head, body, out)? {
            return Ok(());
        }
    }
    Ok(())
}

fn report(rt: &impl Print, tally: &Tally) -> io::Result<()> {
    for ((_, name), n) in OPS.iter().zip(&tally.agree) {
        println!(rt; "{name} {n}")?;
    }
    println!(rt; "differ {}", tally.differ)
}

fn main(rt: HostRuntime) -> io::Result<()> {
    let mut head = [0u8; 8];
    let mut body = [0u8; 4096];
    let mut out = [0u8; 4096];
    let mut tally = Tally {
        agree: [0u64; 22],
        differ: 0,
    };
    run(&rt, &mut tally, &mut head, &mut body, &mut out)?;
    report(&rt, &tally)
}
