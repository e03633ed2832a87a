#![tactic(auto)]
// Writes the number that each tape of a stream is given, 0 where it is admitted, a line a tape.
//
// Standard input is a stream (crate `test_stream`) of tapes of at most 65,536 bytes.
use std::io;

fn judge(rt: &impl Print, file: &[u8]) -> io::Result<()> {
    let number = match admit::admit(file) {
        Ok(_) => 0,
        Err(reason) => reason.number(),
    };
    println!(rt; "{number}")
}

fn main(rt: HostRuntime) -> io::Result<()> {
    let mut space = [0u8; 65536];
    test_stream::for_each(&rt, &mut space, |file| judge(&rt, file))
}
