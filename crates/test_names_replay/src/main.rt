#![tactic(auto)]
// Runs the search for broken names, the serializer and the checker over a stream of tapes, and writes of each what usx_names writes, then what the
// checker says of the text: `accepted` with both counts, `refused` and document 01's number, or `unwritten` where there is no text.
//
// Standard input is a stream (crate `test_stream`) of tapes of at most 65,536 bytes; a text has room for 1,048,576. The stored list is made by .ci/stored, and what
// must be written of it is what `oracle judged` writes.
use calls::Called;
use std::io;
use std::io::Input;

// What the checker says of the text that is written.
fn say_text(rt: &impl Print, file: &[u8], out: &mut [u8]) -> io::Result<()> {
    match calls::serialize_and_check(file, out) {
        Called::Written { length: _, verdict } => report::say_answer(rt, verdict),
        Called::Refused(_) | Called::NoRoom(_) => println!(rt; "unwritten"),
    }
}

fn replay(rt: &impl Print, file: &[u8], out: &mut [u8]) -> io::Result<()> {
    report_names::report(rt, file)?;
    say_text(rt, file, out)?;
    println!(rt; "")
}

fn run(
    rt: &(impl Input + Print),
    space: &mut [u8; 65536],
    out: &mut [u8; 1048576],
) -> io::Result<()> {
    test_stream::for_each(rt, space, |file| replay(rt, file, out))
}

fn main(rt: HostRuntime) -> io::Result<()> {
    let mut space = [0u8; 65536];
    let mut out = [0u8; 1048576];
    run(&rt, &mut space, &mut out)
}
