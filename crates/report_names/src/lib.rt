#![tactic(auto)]
// What is said of a tape's names on standard output: `kept`; `found` with what broke the proviso and its node, then its place; or `refused` and document 01's number.
use names::{Found, What};
use std::io;
use tape::{Sections, TapeFile};
use words::Part;

fn what_name(what: What) -> &'static str {
    match what {
        What::Code => "book code",
        What::Label => "label",
        What::Marker => "marker name",
        What::Key => "key",
    }
}

// Where a part of the source stands, bytes from 0 and lines from 1, and its bytes.
fn say_place(rt: &impl Print, source: &[u8], place: Part) -> io::Result<()> {
    let at = place.start;
    let line = checker::line_of(source, at);
    print!(rt; "at byte {at}, line {line} of the source: ")?;
    rt.write_all(parts::part(source, at, place.len))?;
    println!(rt; "")
}

// Looks for the first broken name of a tape and says so.
pub fn report(rt: &impl Print, file: &[u8]) -> io::Result<()> {
    match names::find_names(file) {
        Found::Refused(n) => println!(rt; "refused {n}"),
        Found::Kept => println!(rt; "kept"),
        Found::Broken { node, what, place } => {
            let name = what_name(what);
            println!(rt; "found {name} in node {node}")?;
            let sections = Sections::of(file);
            say_place(rt, TapeFile { file, sections }.source(), place)
        }
    }
}
