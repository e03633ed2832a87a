#![tactic(auto)]
// Checks a finished text: reads it from standard input and writes `accepted` with both counts, or `refused` and document 01's number, then
// the place where the first rule broke.
use std::io;
use std::io::Input;

// The greatest length of a text.
const MOST: usize = 4194304;

// The buffer has room for one byte more, which shows that a text is longer.
fn run(rt: &(impl Input + Print), space: &mut [u8; MOST + 1]) -> io::Result<()> {
    let n = streams::read_full(&mut rt.reader(), space)?;
    if n > MOST {
        return println!(rt; "too long: a text has at most {MOST} bytes");
    }
    report::report(rt, &space[..n])
}

fn main(rt: HostRuntime) -> io::Result<()> {
    let mut space = [0u8; MOST + 1];
    run(&rt, &mut space)
}
