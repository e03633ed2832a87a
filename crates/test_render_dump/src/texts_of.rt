// What a Text says: its edges and body, what is written of it alone, what follows its first word.
use crate::say;
use crate::say::digit;
use leading_white::Book;
use std::io;
use tape::Cursor;
use window::Window;
use words::Set;

// Lead, trail and whether it shows.
fn edges(rt: &impl Print, text: &[u8], before: bool, behind: bool) -> io::Result<()> {
    let n = texts::normalize_text(text, before, behind);
    digit(rt, n.lead)?;
    digit(rt, n.trail)?;
    digit(rt, n.shows)?;
    print!(rt; " ")
}

fn all_edges(rt: &impl Print, text: &[u8]) -> io::Result<()> {
    edges(rt, text, false, false)?;
    edges(rt, text, false, true)?;
    edges(rt, text, true, false)?;
    edges(rt, text, true, true)
}

// A body split at `//`, each segment trimmed.
fn segments(rt: &impl Print, body: &[u8]) -> io::Result<()> {
    let mut at = 0;
    // A `loop`: each turn passes as many bytes as the segment has.
    loop {
        let rest = parts::from(body, at);
        let n = parts::find_pair(rest, b'/');
        let segment = words::trim(parts::part(rest, 0, n), Set::Unicode);
        say::escaped(rt, segment, false)?;
        if rest.len() <= n {
            return Ok(());
        }
        print!(rt; "<optbreak />")?;
        at = at + n + 2;
    }
}

// A body and, where the text ends in white space and something follows, a space behind it.
fn unbroken(rt: &impl Print, text: &[u8], body: &[u8], behind: bool) -> io::Result<()> {
    say::escaped(rt, body, false)?;
    say::space_if(rt, texts::normalize_text(text, false, behind).trail)
}

fn alone(rt: &impl Print, text: &[u8], body: &[u8], behind: bool) -> io::Result<()> {
    if texts::has_break(text) {
        segments(rt, body)?;
    } else {
        unbroken(rt, text, body, behind)?;
    }
    println!(rt; "")
}

fn with_body(rt: &impl Print, at: u32, text: &[u8], body: &[u8], behind: bool) -> io::Result<()> {
    print!(rt; "{at} text ")?;
    all_edges(rt, text)?;
    say::quoted(rt, body)?;
    print!(rt; " ")?;
    alone(rt, text, body, behind)
}

// A word with each `~` as U+00A0.
fn hard(w: &mut Window, out: &mut [u8], s: &[u8]) {
    for &x in s {
        if x == b'~' {
            w.put_run(out, b"\xC2\xA0");
        } else {
            w.put_run(out, &[x]);
        }
    }
}

// The body of a text at the front of a buffer, and its length.
fn body_into(out: &mut [u8], s: &[u8]) -> usize {
    let mut w = Window { at: 0, from: 0 };
    let mut part = words::next_word(s, Set::Ascii, 0);
    // A `while`: a turn for each word.
    while 0 < part.len {
        if 0 < w.at {
            w.put_run(out, b" ");
        }
        hard(&mut w, out, parts::part(s, part.start, part.len));
        part = words::next_word(s, Set::Ascii, part.start + part.len);
    }
    w.at
}

fn normalized(rt: &impl Print, at: u32, text: &[u8], behind: bool) -> io::Result<()> {
    let mut body = [0u8; 65536];
    let n = body_into(&mut body, text);
    with_body(rt, at, text, parts::part(&body, 0, n), behind)
}

pub fn lines(rt: &impl Print, book: &Book<'_, '_>, c: Cursor) -> io::Result<()> {
    let text = c.text(&book.tape);
    normalized(rt, c.at, text, render::inline_follows(book, c))?;
    print!(rt; "{} rest ", c.at)?;
    say::quoted(rt, render::remainder(text))?;
    println!(rt; "")
}
