// What a node that holds others says.
use crate::{pairs, say};
use leading_white::Book;
use render::Align;
use std::io;
use tape::{Cursor, TapeFile};
use words::Set;

// Of each child whether inline content follows it; the solid sibling is kept along the way.
fn each_follows(rt: &impl Print, book: &Book<'_, '_>, c: Cursor) -> io::Result<()> {
    let tape = &book.tape;
    let mut next = c.first_child(tape);
    let mut kept = next;
    while let Some(child) = next {
        kept = render::solid_behind(book, child, kept);
        say::digit(rt, render::inline_at(tape, kept))?;
        next = child.next_sibling(tape);
    }
    Ok(())
}

fn category(rt: &impl Print, tape: &TapeFile<'_>, text: Option<Cursor>) -> io::Result<()> {
    match text {
        Some(c) => say::quoted(rt, render::trimmed(tape, c)),
        None => print!(rt; "-"),
    }
}

// The caller and the category.
fn note<'a>(rt: &impl Print, tape: &TapeFile<'a>, c: Cursor) -> io::Result<()> {
    print!(rt; "{} note ", c.at)?;
    let caller: &'a [u8] = render::note_caller(b"+", tape, c);
    say::quoted(rt, caller)?;
    print!(rt; " ")?;
    category(rt, tape, render::category_text(tape, c))
}

fn align_name(align: Align) -> &'static str {
    match align {
        Align::Start => "start",
        Align::Center => "center",
        Align::End => "end",
    }
}

// By its own name, as a `fig` and as a `periph`.
fn attributes(rt: &impl Print, tape: &TapeFile<'_>, c: Cursor) -> io::Result<()> {
    print!(rt; "{} attributes", c.at)?;
    pairs::all(rt, tape, c, c.marker_name(tape))?;
    print!(rt; " fig")?;
    pairs::all(rt, tape, c, b"fig")?;
    print!(rt; " periph")?;
    pairs::all(rt, tape, c, b"periph")?;
    println!(rt; "")
}

fn field(rt: &impl Print, key: &str, text: &[u8]) -> io::Result<()> {
    if !text.is_empty() {
        print!(rt; " {key}=")?;
        say::quoted(rt, text)?;
    }
    Ok(())
}

fn fields(rt: &impl Print, tape: &TapeFile<'_>, a: Cursor) -> io::Result<()> {
    field(rt, "file", figure::field(tape, a, 0))?;
    field(rt, "size", figure::field(tape, a, 1))?;
    field(rt, "loc", figure::field(tape, a, 2))?;
    field(rt, "copy", figure::field(tape, a, 3))?;
    field(rt, "ref", figure::field(tape, a, 5))
}

// The fields of a figure of old.
fn legacy(rt: &impl Print, tape: &TapeFile<'_>, c: Cursor) -> io::Result<()> {
    print!(rt; "{} figure", c.at)?;
    if let Some(a) = figure::legacy(tape, c) {
        field(rt, "alt", figure::description(tape, c))?;
        fields(rt, tape, a)?;
        print!(rt; ">")?;
        say::escaped(rt, figure::field(tape, a, 4), false)?;
    } else {
        print!(rt; " -")?;
    }
    println!(rt; "")
}

// The words of a text, joined by one space.
fn joined(rt: &impl Print, s: &[u8], attr: bool) -> io::Result<()> {
    let mut part = words::next_word(s, Set::Unicode, 0);
    let mut begun = false;
    // A `while`: a turn for each word.
    while 0 < part.len {
        say::space_if(rt, begun)?;
        say::escaped(rt, parts::part(s, part.start, part.len), attr)?;
        begun = true;
        part = words::next_word(s, Set::Unicode, part.start + part.len);
    }
    Ok(())
}

fn book_rest(rt: &impl Print, rest: &[u8]) -> io::Result<()> {
    if words::is_blank(rest, Set::Unicode) {
        println!(rt; "\" style=\"id\" />")
    } else {
        print!(rt; "\" style=\"id\">")?;
        joined(rt, rest, false)?;
        println!(rt; "</book>")
    }
}

fn book(rt: &impl Print, tape: &TapeFile<'_>, c: Cursor) -> io::Result<()> {
    let p = render::book_code(tape, c);
    print!(rt; "{} <book code=\"", c.at)?;
    rt.write_all(parts::part(tape.source(), p.start, p.len))?;
    book_rest(rt, render::book_rest(tape, c))
}

fn reference(rt: &impl Print, tape: &TapeFile<'_>, c: Cursor) -> io::Result<()> {
    print!(rt; "{} <ref", c.at)?;
    if let Some(loc) = attrs::first_with(tape, c, b"ref", b"loc") {
        print!(rt; " loc=")?;
        pairs::value(rt, tape.source(), loc)?;
    }
    print!(rt; ">")
}

// The alt of a periph.
fn alt(rt: &impl Print, text: &[u8]) -> io::Result<()> {
    if words::is_blank(text, Set::Unicode) {
        println!(rt; "")
    } else {
        print!(rt; " alt=\"")?;
        joined(rt, text, true)?;
        println!(rt; "\"")
    }
}

fn own_lines(rt: &impl Print, book: &Book<'_, '_>, c: Cursor) -> io::Result<()> {
    print!(rt; "{} follows ", c.at)?;
    each_follows(rt, book, c)?;
    println!(rt; "")?;
    note(rt, &book.tape, c)?;
    let align = render::cell_align(c.marker_name(&book.tape));
    println!(rt; " {}", align_name(align))
}

pub fn lines(rt: &impl Print, b: &Book<'_, '_>, c: Cursor) -> io::Result<()> {
    let tape = &b.tape;
    own_lines(rt, b, c)?;
    attributes(rt, tape, c)?;
    legacy(rt, tape, c)?;
    book(rt, tape, c)?;
    reference(rt, tape, c)?;
    alt(rt, render::leading_text(tape, c))
}
