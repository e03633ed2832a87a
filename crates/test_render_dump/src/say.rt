// The parts of a line.
use std::io;
use tape::Cursor;
use window::Window;

pub fn digit(rt: &impl Print, yes: bool) -> io::Result<()> {
    print!(rt; "{}", u8::from(yes))
}

pub fn space_if(rt: &impl Print, yes: bool) -> io::Result<()> {
    if yes {
        print!(rt; " ")?;
    }
    Ok(())
}

// Where a list goes on, and the end of the line.
pub fn place(rt: &impl Print, rest: Option<Cursor>) -> io::Result<()> {
    match rest {
        Some(c) => println!(rt; "{}", c.at),
        None => println!(rt; "-"),
    }
}

// At most 512 bytes, escaped; no byte takes more than six.
fn chunk(rt: &impl Print, s: &[u8], attr: bool) -> io::Result<()> {
    let mut out = [0u8; 4096];
    let mut w = Window { at: 0, from: 0 };
    w.escape_xml_with(&mut out, s, attr);
    rt.write_all(parts::part(&out, 0, w.at))
}

// A text, escaped as a value or as text.
pub fn escaped(rt: &impl Print, s: &[u8], attr: bool) -> io::Result<()> {
    for part in s.chunks(512) {
        chunk(rt, part, attr)?;
    }
    Ok(())
}

pub fn quoted(rt: &impl Print, s: &[u8]) -> io::Result<()> {
    print!(rt; "\"")?;
    escaped(rt, s, true)?;
    print!(rt; "\"")
}
