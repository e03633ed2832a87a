#![tactic(auto)]
// Runs the checker over a stream of texts and writes of each what usx_check writes.
//
// Standard input is a stream (crate `test_stream`) of texts of at most 65,536 bytes.
use std::io;

fn main(rt: HostRuntime) -> io::Result<()> {
    let mut space = [0u8; 65536];
    test_stream::for_each(&rt, &mut space, |text| report::report(&rt, text))
}
