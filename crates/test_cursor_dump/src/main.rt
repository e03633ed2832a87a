#![tactic(auto)]
// Writes what the cursor says of every node of a stream of tapes, a line a node and an empty line behind each tape.
//
// Standard input is a stream (crate `test_stream`) of admitted tapes of at most 65,536 bytes.
// A line: index, kind, synthetic and nested (a digit each), number, category, element, first child, next sibling, matching close, then entry
// name, marker name and text with `|` between them; `-` for what there is none of.
use std::io;
use std::io::Input;
use tape::{Cursor, Sections, TapeFile};
use window::Window;

// A number and a space.
fn number(w: &mut Window, out: &mut [u8], n: u32) {
    w.put_number(out, n);
    w.put_run(out, b" ");
}

fn digit(w: &mut Window, out: &mut [u8], yes: bool) {
    w.put_run(out, if yes { b"1" } else { b"0" });
}

// Where a node leads to.
fn place(w: &mut Window, out: &mut [u8], step: Option<Cursor>) {
    match step {
        Some(c) => number(w, out, c.at),
        None => w.put_run(out, b"- "),
    }
}

// Index, kind, flags and number.
fn own(w: &mut Window, out: &mut [u8], tape: &TapeFile<'_>, c: Cursor) {
    number(w, out, c.at);
    number(w, out, u32::from(c.kind(tape).code));
    digit(w, out, c.is_synthetic(tape));
    digit(w, out, c.is_nested(tape));
    w.put_run(out, b" ");
    number(w, out, c.number(tape));
}

// Category and element, and the nodes that it leads to.
fn links(w: &mut Window, out: &mut [u8], tape: &TapeFile<'_>, c: Cursor) {
    match c.marker_info(tape) {
        Some(e) => {
            number(w, out, u32::from(e.category.code));
            number(w, out, u32::from(e.element.code));
        }
        None => w.put_run(out, b"- - "),
    }
    place(w, out, c.first_child(tape));
    place(w, out, c.next_sibling(tape));
    place(w, out, c.matching_close(tape));
}

// Entry name, marker name and text.
fn names(w: &mut Window, out: &mut [u8], tape: &TapeFile<'_>, c: Cursor) {
    w.put_run(out, c.entry_name(tape));
    w.put_run(out, b"|");
    w.put_run(out, c.marker_name(tape));
    w.put_run(out, b"|");
    w.put_run(out, c.text(tape));
    w.put_run(out, b"\n");
}

// A tape's lines, each written at once; of one that is longer than the buffer, what the buffer holds.
fn dump(rt: &impl Print, file: &[u8], out: &mut [u8]) -> io::Result<()> {
    let sections = Sections::of(file);
    let tape = TapeFile { file, sections };
    for at in 0..sections.nodes {
        let c = Cursor::new(at);
        let mut w = Window { at: 0, from: 0 };
        own(&mut w, out, &tape, c);
        links(&mut w, out, &tape, c);
        names(&mut w, out, &tape, c);
        rt.write_all(parts::part(out, 0, w.at))?;
    }
    println!(rt; "")
}

fn run(
    rt: &(impl Input + Print),
    space: &mut [u8; 65536],
    out: &mut [u8; 65536],
) -> io::Result<()> {
    test_stream::for_each(rt, space, |file| dump(rt, file, out))
}

fn main(rt: HostRuntime) -> io::Result<()> {
    let mut space = [0u8; 65536];
    let mut out = [0u8; 65536];
    run(&rt, &mut space, &mut out)
}
