#![tactic(auto)]
// Replays lists of steps of the tape writer, and writes what each step answers and every byte of the buffer that it changes.
//
// Standard input is a stream (crate `test_stream`) of lists of at most 65,536 bytes; their form, and that of the lines, stands in oracle/README.md, under
// `oracle steps`. The stored lists are made by .ci/stored: `gen steps-edges`, `gen steps 61 150`, `gen rebuild structured 61 40` and `gen rebuild random
// 61 20`. What must be written of them is what `oracle steps` writes, by a second writer in Rust.
use std::io;
use std::io::Input;
use tape::Entry;
use writer::{Answer, Writer};

// The code of a state that is set by hand.
const STATE: u8 = 12;

// What is left of a list; each number that is read is taken from its front.
#[derive(Drop)]
struct List<'a> {
    left: &'a [u8],
}

impl<'a> List<'a> {
    fn bytes(&mut self, n: usize) -> Option<&'a [u8]> {
        if n > self.left.len() {
            return None;
        }
        let (front, rest) = self.left.split_at(n);
        self.left = rest;
        Some(front)
    }

    fn byte(&mut self) -> Option<u8> {
        let (x, rest) = self.left.split_first()?;
        self.left = rest;
        Some(*x)
    }

    fn pair(&mut self) -> Option<u16> {
        Some(u16::from_le_bytes([self.byte()?, self.byte()?]))
    }

    fn word(&mut self) -> Option<u32> {
        Some(u32::from_le_bytes([self.byte()?, self.byte()?, self.byte()?, self.byte()?]))
    }

    // A length and so many bytes.
    fn text(&mut self) -> Option<&'a [u8]> {
        let n = self.pair()?;
        self.bytes(usize::from(n))
    }

    fn count(&mut self) -> Option<usize> {
        Some(self.word()? as usize)
    }

    // A state that is set by hand.
    fn state(&mut self) -> Option<Writer> {
        Some(Writer {
            phase: self.byte()?,
            nodes: self.count()?,
            entries: self.count()?,
            names: self.count()?,
            source: self.count()?,
            inner: self.count()?,
            depth: self.count()?,
        })
    }

    // What the step of a code answers that is no state set by hand; nothing where it is unknown or cut off.
    fn step(&mut self, code: u8, w: Writer, buf: &mut [u8]) -> Option<Answer> {
        match code {
            0 => Some(writer::start(w, buf)),
            1 => {
                let e = Entry::of(self.bytes(8)?);
                let names = self.text()?;
                Some(writer::entry(w, buf, names, e))
            }
            2 => {
                let piece = self.text()?;
                Some(writer::source(w, buf, piece))
            }
            3 | 5 => self.marked(code, w, buf),
            4 => {
                let block = self.byte()? != 0;
                let flags = self.byte()?;
                let marker = self.pair()?;
                let start = self.word()?;
                let len = self.word()?;
                Some(writer::close(w, buf, block, flags, marker, start, len))
            }
            6..=8 => self.bare(code, w, buf),
            9 | 10 => self.numbered(code, w, buf),
            11 => Some(writer::finish(w, buf)),
            _ => None,
        }
    }

    // A step that adds a node with a marker and no number: open or leaf.
    fn marked(&mut self, code: u8, w: Writer, buf: &mut [u8]) -> Option<Answer> {
        let flags = self.byte()?;
        let marker = self.pair()?;
        let start = self.word()?;
        let len = self.word()?;
        Some(match code {
            3 => writer::open(w, buf, flags, marker, start, len),
            _ => writer::leaf(w, buf, flags, marker, start, len),
        })
    }

    // A step that adds a node without a marker: text, attribute or error.
    fn bare(&mut self, code: u8, w: Writer, buf: &mut [u8]) -> Option<Answer> {
        let flags = self.byte()?;
        let start = self.word()?;
        let len = self.word()?;
        Some(match code {
            6 => writer::text(w, buf, flags, start, len),
            7 => writer::attribute(w, buf, flags, start, len),
            _ => writer::error(w, buf, flags, start, len),
        })
    }

    // A step that adds a node with a number: chapter or verse.
    fn numbered(&mut self, code: u8, w: Writer, buf: &mut [u8]) -> Option<Answer> {
        let flags = self.byte()?;
        let marker = self.pair()?;
        let n = self.word()?;
        let start = self.word()?;
        let len = self.word()?;
        Some(match code {
            9 => writer::chapter(w, buf, flags, marker, n, start, len),
            _ => writer::verse(w, buf, flags, marker, n, start, len),
        })
    }
}

// A copy of a buffer, at the front of one that is no shorter.
fn keep(buf: &[u8], old: &mut [u8]) {
    if buf.len() <= old.len() {
        old[..buf.len()].copy_from_slice(buf);
    }
}

// One step with its lines; the state behind it, or nothing at the end of the list.
fn turn(
    rt: &impl Print,
    list: &mut List<'_>,
    w: Writer,
    buf: &mut [u8],
    old: &mut [u8],
    out: &mut [u8],
) -> io::Result<Option<Writer>> {
    let Some(code) = list.byte() else {
        return Ok(None);
    };
    if code == STATE {
        let Some(set) = list.state() else {
            return Ok(None);
        };
        report_steps::say_state(rt, out, set)?;
        return Ok(Some(set));
    }
    keep(buf, old);
    let Some(a) = list.step(code, w, buf) else {
        return Ok(None);
    };
    report_steps::say_step(rt, out, code, a, old, buf)?;
    report_steps::say_file(rt, code, a, buf)?;
    Ok(Some(a.writer))
}

// All steps of a list; each has a byte at least.
fn steps(
    rt: &impl Print,
    mut list: List<'_>,
    buf: &mut [u8],
    old: &mut [u8],
    out: &mut [u8],
) -> io::Result<()> {
    let mut w = writer::new();
    for _ in 0..list.left.len() {
        let Some(next) = turn(rt, &mut list, w, buf, old, out)? else {
            return Ok(());
        };
        w = next;
    }
    Ok(())
}

// The buffer before the first step: each byte is 7 more than the one before it, modulo 256.
fn fill(buf: &mut [u8], first: u8) {
    let mut next = first;
    for x in buf {
        *x = next;
        next = next.wrapping_add(7);
    }
}

// A list, with a buffer of so many bytes as it says.
fn replay(
    rt: &impl Print,
    item: &[u8],
    space: &mut [u8],
    old: &mut [u8],
    out: &mut [u8],
) -> io::Result<()> {
    // A byte of the head that is missing counts 0.
    let room = tape::length_of(item);
    let list = List {
        left: parts::from(item, 5),
    };
    if room <= space.len() {
        fill(&mut space[..room], parts::byte_at(item, 4));
        steps(rt, list, &mut space[..room], old, out)?;
    } else {
        println!(rt; "too much room")?;
    }
    println!(rt; "")
}

fn run(
    rt: &(impl Input + Print),
    item: &mut [u8; 65536],
    space: &mut [u8; 65536],
    old: &mut [u8; 65536],
    out: &mut [u8; 262144],
) -> io::Result<()> {
    test_stream::for_each(rt, item, |list| replay(rt, list, space, old, out))
}

fn main(rt: HostRuntime) -> io::Result<()> {
    let mut item = [0u8; 65536];
    let mut space = [0u8; 65536];
    let mut old = [0u8; 65536];
    // Room for the longest line: all bytes of the longest buffer in base 16.
    let mut out = [0u8; 262144];
    run(&rt, &mut item, &mut space, &mut old, &mut out)
}
