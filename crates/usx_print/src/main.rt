#![tactic(auto)]
// The printing program: reads one tape file from standard input and writes its USX text, or `refused`, document 01's number and the length given.
use std::io;
use std::io::Input;
use usx::Answer;

// The greatest length of a tape, and of a text.
const MOST: usize = 65536;

fn print(rt: &impl Print, file: &[u8], out: &mut [u8]) -> io::Result<()> {
    match usx::serialize(file, out) {
        Answer::Written(n) => rt.write_all(parts::part(out, 0, n)),
        Answer::Refused(n) => println!(rt; "refused {n} 0"),
        Answer::NoRoom(n) => println!(rt; "refused 8 {n}"),
    }
}

// The buffer has room for one byte more, which shows that a tape is longer.
fn run(
    rt: &(impl Input + Print),
    space: &mut [u8; MOST + 1],
    out: &mut [u8; MOST],
) -> io::Result<()> {
    let n = streams::read_full(&mut rt.reader(), space)?;
    if n > MOST {
        return println!(rt; "refused 2 0");
    }
    print(rt, &space[..n], out)
}

fn main(rt: HostRuntime) -> io::Result<()> {
    let mut space = [0u8; MOST + 1];
    let mut out = [0u8; MOST];
    run(&rt, &mut space, &mut out)
}
