// Attributes as they are written in a tag.
use crate::say;
use attrs::{Attrs, Key, Value};
use std::io;
use tape::{Cursor, TapeFile};

// A quoted raw value, without the `\` of each `\"`.
fn unquoted(rt: &impl Print, s: &[u8]) -> io::Result<()> {
    let mut at = 0;
    // A `loop`: each turn passes as many bytes as the piece has.
    loop {
        let rest = parts::from(s, at);
        let n = attrs::piece_len(rest);
        say::escaped(rt, parts::part(rest, 0, n), true)?;
        if rest.len() <= n {
            return Ok(());
        }
        at = at + n + 1;
    }
}

// A value between quotes.
pub fn value(rt: &impl Print, source: &[u8], v: Value) -> io::Result<()> {
    let raw = parts::part(source, v.start, v.len);
    print!(rt; "\"")?;
    if v.quoted {
        unquoted(rt, raw)?;
    } else {
        say::escaped(rt, raw, true)?;
    }
    print!(rt; "\"")
}

fn pair(rt: &impl Print, source: &[u8], key: Key, v: Value) -> io::Result<()> {
    print!(rt; " ")?;
    rt.write_all(attrs::key_of(source, &attrs::FIXED_KEYS, key))?;
    print!(rt; "=")?;
    value(rt, source, v)
}

// The attributes of a node whose marker goes by this name.
pub fn all(rt: &impl Print, tape: &TapeFile<'_>, c: Cursor, marker: &[u8]) -> io::Result<()> {
    let mut left = Attrs::of(tape, c);
    while let Some(attribute) = left.next(tape, marker) {
        pair(rt, tape.source(), attribute.key, attribute.value)?;
        left = attribute.left;
    }
    Ok(())
}
