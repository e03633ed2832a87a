// What a node is and what follows it.
use crate::say::digit;
use leading_white::Book;
use render::Shape;
use std::io;
use tape::{Cursor, TapeFile};

// Inline, top-level block, row, category marker.
fn kinds(rt: &impl Print, tape: &TapeFile<'_>, c: Cursor) -> io::Result<()> {
    digit(rt, render::is_inline(tape, c))?;
    digit(rt, render::is_top_level_block(tape, c))?;
    digit(rt, render::is_row(tape, c))?;
    digit(rt, render::is_category_marker(tape, c))
}

// Blank, content, plain text, whether a text behind it is trimmed.
fn contents(rt: &impl Print, book: &Book<'_, '_>, c: Cursor) -> io::Result<()> {
    digit(rt, render::is_blank(book, c))?;
    digit(rt, render::has_content(book, c))?;
    digit(rt, render::is_plain_text(&book.tape, c))?;
    digit(rt, render::trims_after(&book.tape, c))
}

// Whether inline content follows it, and follows it as a parent, by what follows its own.
fn behind(rt: &impl Print, book: &Book<'_, '_>, c: Cursor) -> io::Result<()> {
    digit(rt, render::inline_follows(book, c))?;
    digit(rt, render::followed(book, c, false))?;
    digit(rt, render::followed(book, c, true))
}

fn letter(shape: Shape) -> char {
    match shape {
        Shape::Block => 'b',
        Shape::Inline => 'i',
        Shape::Leaf => 'l',
        Shape::Other => '-',
    }
}

pub fn line(rt: &impl Print, book: &Book<'_, '_>, c: Cursor) -> io::Result<()> {
    print!(rt; "{} is ", c.at)?;
    kinds(rt, &book.tape, c)?;
    contents(rt, book, c)?;
    behind(rt, book, c)?;
    println!(rt; " {}", letter(render::unknown_shape(&book.tape, c)))
}
