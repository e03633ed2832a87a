#![tactic(auto)]
// Writes what the helpers of rendering say of every node of a stream of tapes, a line an answer and an empty line behind each tape.
//
// Standard input is a stream (crate `test_stream`) of admitted tapes of at most 65,536 bytes.
// The forms of the lines stand in oracle/README.md, under `oracle render`.
mod anchors;
mod holders;
mod pairs;
mod say;
mod shapes;
mod texts_of;

use leading_white::Book;
use std::io;
use tape::{Cursor, Kind, Sections, TapeFile};

// The lines that a node has by its kind.
fn by_kind(rt: &impl Print, book: &Book<'_, '_>, c: Cursor) -> io::Result<()> {
    match c.kind(&book.tape).code {
        Kind::ROOT | Kind::MARKER_OPEN => holders::lines(rt, book, c),
        Kind::TEXT => texts_of::lines(rt, book, c),
        Kind::CHAPTER => anchors::fold(rt, book, c),
        Kind::VERSE => anchors::lines(rt, book, c),
        _ => Ok(()),
    }
}

fn nodes(rt: &impl Print, book: &Book<'_, '_>) -> io::Result<()> {
    for at in 0..book.tape.sections.nodes {
        let c = Cursor::new(at);
        shapes::line(rt, book, c)?;
        by_kind(rt, book, c)?;
    }
    println!(rt; "")
}

fn tabled(rt: &impl Print, file: &[u8], table: &mut [u32]) -> io::Result<()> {
    let sections = Sections::of(file);
    let tape = TapeFile { file, sections };
    leading_white::fill(table, &tape);
    nodes(
        rt,
        &Book {
            tape,
            solids: table,
        },
    )
}

// With a table of places for a source of 65,536 bytes.
fn dump(rt: &impl Print, file: &[u8]) -> io::Result<()> {
    let mut table = [0u32; 1024];
    tabled(rt, file, &mut table)
}

fn main(rt: HostRuntime) -> io::Result<()> {
    let mut space = [0u8; 65536];
    test_stream::for_each(&rt, &mut space, |file| dump(&rt, file))
}
