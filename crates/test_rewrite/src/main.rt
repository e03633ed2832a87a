#![tactic(auto)]
// Writes a tape anew by the steps of the tape writer: reads it from standard input and writes the file that the steps give, or `refused` and the number of the
// tape or of the step that was not done.
//
// The tape and the file have room for 3 MiB each. Entries come first, the first with all name bytes, then the source in one piece, then the nodes; a tape whose Root
// has a close of its own cannot be written so, and its last step is refused.
use std::io;
use std::io::Input;
use tape::{Kind, Node, TapeFile};
use writer::{Answer, Writer};

// The greatest length of the tape and of the file.
const MOST: usize = 3145728;

// The state behind a step that was done, or the number of its refusal.
fn done(a: Answer) -> Result<Writer, u8> {
    if a.number == 0 {
        Ok(a.writer)
    } else {
        Err(a.number)
    }
}

// The step for an entry; the first brings all name bytes.
fn entry(tape: &TapeFile<'_>, at: u32, w: Writer, buf: &mut [u8]) -> Answer {
    let e = tape.entry_at(at);
    if at == 0 {
        writer::entry(w, buf, tape.names(), e)
    } else {
        writer::entry(w, buf, b"", e)
    }
}

// The step for a node; a MarkerOpen that links to itself is a leaf.
fn node(n: Node, at: u32, w: Writer, buf: &mut [u8]) -> Answer {
    let flags = n.flags.bits;
    match n.kind.code {
        Kind::TEXT => writer::text(w, buf, flags, n.start, n.len),
        Kind::ATTRIBUTE => writer::attribute(w, buf, flags, n.start, n.len),
        Kind::MARKER_OPEN if n.link == at => {
            writer::leaf(w, buf, flags, n.marker, n.start, n.len)
        }
        Kind::MARKER_OPEN => writer::open(w, buf, flags, n.marker, n.start, n.len),
        Kind::MARKER_CLOSE => writer::close(w, buf, false, flags, n.marker, n.start, n.len),
        Kind::BLOCK_END => writer::close(w, buf, true, flags, n.marker, n.start, n.len),
        Kind::CHAPTER => writer::chapter(w, buf, flags, n.marker, n.link, n.start, n.len),
        Kind::VERSE => writer::verse(w, buf, flags, n.marker, n.link, n.start, n.len),
        _ => writer::error(w, buf, flags, n.start, n.len),
    }
}

// All steps; the length of the file, or the number of the first step that was not done.
fn steps(tape: &TapeFile<'_>, buf: &mut [u8]) -> Result<usize, u8> {
    let mut w = done(writer::start(writer::new(), buf))?;
    for at in 0..tape.sections.entries {
        w = done(entry(tape, at, w, buf))?;
    }
    w = done(writer::source(w, buf, tape.source()))?;
    for at in 1..tape.sections.nodes {
        w = done(node(tape.node_at(at), at, w, buf))?;
    }
    let last = writer::finish(w, buf);
    done(last)?;
    Ok(last.length)
}

// A tape anew, at the front of a buffer.
fn rewrite(file: &[u8], buf: &mut [u8]) -> Result<usize, u8> {
    let tape = admit::admit(file).map_err(|reason| reason.number())?;
    steps(&tape, buf)
}

fn run(rt: &(impl Input + Print), space: &mut [u8; MOST], buf: &mut [u8; MOST]) -> io::Result<()> {
    let n = streams::read_full(&mut rt.reader(), space)?;
    match rewrite(&space[..n], buf) {
        Ok(length) => rt.write_all(parts::part(buf, 0, length)),
        Err(number) => println!(rt; "refused {number}"),
    }
}

fn main(rt: HostRuntime) -> io::Result<()> {
    let mut space = [0u8; MOST];
    let mut buf = [0u8; MOST];
    run(&rt, &mut space, &mut buf)
}
