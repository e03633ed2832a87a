#![tactic(auto)]
// Looks over the names of a tape: reads it from standard input and writes `kept`, or the first book code, label, marker name or key that holds & < > or
// a double quote and where it stands, or `refused` and document 01's number.
use std::io;
use std::io::Input;

// The greatest length of a tape.
const MOST: usize = 6291456;

// The buffer has room for one byte more, which shows that a tape is longer.
fn run(rt: &(impl Input + Print), space: &mut [u8; MOST + 1]) -> io::Result<()> {
    let n = streams::read_full(&mut rt.reader(), space)?;
    if n > MOST {
        return println!(rt; "too long: a tape has at most {MOST} bytes");
    }
    report_names::report(rt, &space[..n])
}

fn main(rt: HostRuntime) -> io::Result<()> {
    let mut space = [0u8; MOST + 1];
    run(&rt, &mut space)
}
